//! The calls of test cases in an architecture.

ghost use Rattle.std.specs.Prelude.{◌≡◌, ◌+◌, ◌<◌, ◌≤◌, ◌∷◌, ◌++◌, [], IfOk, IsTrue, OnOk, if◌then◌else◌, length, true};
ghost use Rattle.std.specs.List.{All};
ghost use Rattle.vhdl_spec.specs.Units.{AreTokensOf, roles_of, token_at};
ghost use Rattle.vhdl_outline.specs.Calls.{is_run_call, is_string, run_strings};
ghost use Rattle.vhdl_outline.specs.Runs.{IsStringIn};

use crate::passing::next_call;
use crate::testbench_words::{is_closing, is_opening, is_string, is_word};
use base::{Items, NoMemory, Role, Token, TokenList, Tokens};
use std::alloc::Global;
use vhdl_units::role_at;

/// The word that calls a test case.
static RUN: [u8; 3] = *b"run";

/// The token of a number.
fn token_at(_text: &[u8], tokens: &Tokens, at: usize) -> Token
    requires tokens { AreTokensOf _text.now tokens.now }
    requires within { at < length tokens.now.list }
    ensures is { result ≡ token_at tokens.now.list at }
    ensures long { is_string result.kind ≡ true → IsStringIn _text.now result }
{
    tokens.list.as_slice()[at]
}

/// Whether a case is called at a token.
fn is_run_call(text: &[u8], tokens: &Tokens, roles: &[Role], at: usize) -> bool
    requires tokens { AreTokensOf text.now tokens.now }
    requires roles { roles.now ≡ roles_of text.now tokens.now.list }
    requires within { at < length roles.now }
    ensures value { result ≡ is_run_call text.now tokens.now.list at }
    ensures within { IsTrue result → at + 3 < length roles.now }
{
    // a parenthesis is rare, so it is looked for first
    if at + 3 >= roles.len() {
        return false;
    }
    if !is_opening(roles[at + 1]) {
        return false;
    }
    is_word(text, tokens, roles, at, RUN.as_slice())
        && is_string(token_at(text, tokens, at + 2).kind)
        && is_closing(role_at(roles, at + 3))
}

/// Adds the string of the call at a token, where a case is called there.
fn push_call(
    text: &[u8],
    tokens: &Tokens,
    roles: &[Role],
    at: usize,
    strings: &mut Vec<Token>,
) -> Result<(), NoMemory>
    requires tokens { AreTokensOf text.now tokens.now }
    requires roles { roles.now ≡ roles_of text.now tokens.now.list }
    requires within { at < length roles.now }
    requires lie { All (IsStringIn text.now) strings.old.items }
    ensures added { OnOk result (strings.new.items ≡ strings.old.items ++
        (if is_run_call text.now tokens.now.list at
        then token_at tokens.now.list (at + 2) ∷ [] else [])) }
    ensures lie { OnOk result (All (IsStringIn text.now) strings.new.items) }
{
    if is_run_call(text, tokens, roles, at) {
        strings.push(token_at(text, tokens, at + 2))?;
    }
    Ok(())
}

/// The strings of the calls between two tokens, in order.
pub fn run_strings(
    alloc: Global,
    text: &[u8],
    tokens: &Tokens,
    roles: &[Role],
    start: usize,
    end: usize,
) -> Result<TokenList, NoMemory>
    requires tokens { AreTokensOf text.now tokens.now }
    requires roles { roles.now ≡ roles_of text.now tokens.now.list }
    requires ordered { start ≤ end }
    requires within { end ≤ length roles.now }
    ensures are { IfOk result (λ strings. strings ≡
        run_strings text.now tokens.now.list start end) }
    ensures lie { IfOk result (All (IsStringIn text.now)) }
{
    let mut strings = Vec::new(alloc);
    let mut at = next_call(roles, start, end);
    while at < end {
        push_call(text, tokens, roles, at, &mut strings)?;
        at = next_call(roles, at + 1, end);
    }
    Ok(Items::from_vec(strings))
}
