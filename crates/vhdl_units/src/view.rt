//! What readers of a file's tokens ask: a token, and its name.

ghost use Rattle.std.specs.Prelude.{◌≡◌, ◌<◌, ◌↔◌, IsTrue, IfOk, length};
ghost use Rattle.vhdl_spec.specs.Units.{AreTokensOf, name_of, token_at};
ghost use Rattle.vhdl_lex.specs.LexicalElements.{LiesIn};

use crate::texts::{token_at, token_has_name, token_name};
use base::{NoMemory, Text, Token, Tokens};
use std::alloc::Global;

/// The name that a token is: a word in lower case, an extended identifier as written (IEEE Std 1076-2008, clause 15.4).
pub fn name_of(alloc: Global, text: &[u8], tokens: &Tokens, at: usize) -> Result<Text, NoMemory>
    requires tokens { AreTokensOf text.now tokens.now }
    requires within { at < length tokens.now.list }
    ensures { IfOk result (λ name. name ≡ name_of text.now tokens.now.list at) }
{
    token_name(alloc, text, tokens.list.as_slice(), at)
}

/// The token of a number, which lies in the text.
pub fn token_of(text: &[u8], tokens: &Tokens, at: usize) -> Token
    requires tokens { AreTokensOf text.now tokens.now }
    requires within { at < length tokens.now.list }
    ensures is { result ≡ token_at tokens.now.list at }
    ensures lies { LiesIn text.now result }
{
    token_at(text, tokens.list.as_slice(), at)
}

/// Whether a token has this name, as `run` or `runner_cfg`, of which no copy is made.
pub fn is_named(text: &[u8], tokens: &Tokens, at: usize, name: &[u8]) -> bool
    requires tokens { AreTokensOf text.now tokens.now }
    requires within { at < length tokens.now.list }
    ensures { IsTrue result ↔ (name_of text.now tokens.now.list at ≡ name.now) }
{
    token_has_name(text, token_of(text, tokens, at), name)
}
