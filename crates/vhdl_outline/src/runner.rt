//! Whether an entity is a test bench: whether its first generic clause has `runner_cfg`.

ghost use Rattle.std.specs.Prelude.{◌≡◌, ◌<◌, ◌≤◌, IfSome, if◌then◌else◌, length};
ghost use Rattle.vhdl_spec.specs.Units.{AreTokensOf, roles_of};
ghost use Rattle.vhdl_outline.specs.Calls.{closing_of, first_index, has_runner, lists_runner, names_runner, opens_generics};

use crate::testbench_words::{is_closing, is_generic_word, is_opening, is_word};
use base::{Role, Tokens, Unit};
use vhdl_units::role_at;

/// The name of the generic that each test bench has.
static RUNNER_CFG: [u8; 10] = *b"runner_cfg";

/// Whether a generic clause begins at a token.
fn opens_generics(roles: &[Role], at: usize) -> bool
    requires { at < length roles.now }
    ensures { result ≡ opens_generics roles.now at }
{
    is_generic_word(role_at(roles, at)) && is_opening(role_at(roles, at + 1))
}

/// The first generic clause from one token up to another.
fn first_generics(roles: &[Role], start: usize, end: usize) -> Option<usize>
    requires ordered { start ≤ end }
    requires within { end ≤ length roles.now }
    ensures first { result ≡ first_index (opens_generics roles.now) start end }
    ensures within { IfSome result (λ at. at < end) }
{
    for at in start..end {
        if opens_generics(roles, at) {
            return Some(at);
        }
    }
    None
}

/// 1 where it holds, and else 0.
#[inline(always)]
fn one_if(is: bool) -> usize
    ensures value { result ≡ (if is then 1 else 0) }
    ensures few { result ≤ 1 }
{
    if is { 1 } else { 0 }
}

/// The `)` that matches the `(` at a token, before the end.
fn closing_of(roles: &[Role], opening: usize, end: usize) -> Option<usize>
    requires ordered { opening ≤ end }
    requires within { end ≤ length roles.now }
    ensures first { result ≡ closing_of roles.now opening end }
    ensures within { IfSome result (λ at. at < end) }
    ensures after { IfSome result (λ at. opening ≤ at) }
{
    let mut opened = 0;
    let mut closed = 0;
    for at in opening..end {
        opened += one_if(is_opening(role_at(roles, at)));
        closed += one_if(is_closing(role_at(roles, at)));
        if opened == closed {
            return Some(at);
        }
    }
    None
}

/// Whether `runner_cfg` is from one token up to another.
fn names_runner(text: &[u8], tokens: &Tokens, roles: &[Role], start: usize, end: usize) -> bool
    requires tokens { AreTokensOf text.now tokens.now }
    requires roles { roles.now ≡ roles_of text.now tokens.now.list }
    requires ordered { start ≤ end }
    requires within { end ≤ length roles.now }
    ensures { result ≡ names_runner text.now tokens.now.list start end }
{
    for at in start..end {
        if is_word(text, tokens, roles, at, RUNNER_CFG.as_slice()) {
            return true;
        }
    }
    false
}

/// Whether `runner_cfg` is between the `(` at a token and the `)` that matches it.
fn lists_runner(text: &[u8], tokens: &Tokens, roles: &[Role], opening: usize, end: usize) -> bool
    requires tokens { AreTokensOf text.now tokens.now }
    requires roles { roles.now ≡ roles_of text.now tokens.now.list }
    requires ordered { opening ≤ end }
    requires within { end ≤ length roles.now }
    ensures { result ≡ lists_runner text.now tokens.now.list opening end }
{
    match closing_of(roles, opening, end) {
        Some(closing) => names_runner(text, tokens, roles, opening, closing),
        None => false,
    }
}

/// Whether the first generic clause of a unit has `runner_cfg`, as VUnit wants it of a test bench.
pub fn has_runner(text: &[u8], tokens: &Tokens, roles: &[Role], unit: &Unit) -> bool
    requires tokens { AreTokensOf text.now tokens.now }
    requires roles { roles.now ≡ roles_of text.now tokens.now.list }
    requires ordered { unit.now.first ≤ unit.now.last }
    requires within { unit.now.last ≤ length roles.now }
    ensures { result ≡ has_runner text.now tokens.now.list unit.now }
{
    let end = unit.last as usize;
    match first_generics(roles, unit.first as usize, end) {
        Some(at) => lists_runner(text, tokens, roles, at + 1, end),
        None => false,
    }
}
