//! What single tokens are to tests.

ghost use Rattle.std.specs.Prelude.{◌≡◌, ◌<◌, length};
ghost use Rattle.std.specs.Str.{bytes_eq};
ghost use Rattle.vhdl_spec.specs.Units.{AreTokensOf, is_closing, is_opening, name_of, roles_of};
ghost use Rattle.vhdl_outline.specs.Calls.{is_generic_word, is_string, is_word_at};
ghost use Rattle.vhdl_outline.specs.Passing.{is_other};

use crate::reference_words::is_name;
use base::{Role, TokenKind, Tokens};
use vhdl_units::{is_named, role_at};

/// Whether a token is `(`.
#[inline(always)]
pub fn is_opening(role: Role) -> bool
    ensures { result ≡ is_opening role }
{
    match role {
        Role::Opening => true,
        _ => false,
    }
}

/// Whether a token is `)`.
#[inline(always)]
pub fn is_closing(role: Role) -> bool
    ensures { result ≡ is_closing role }
{
    match role {
        Role::Closing => true,
        _ => false,
    }
}

/// Whether a token is `generic`.
#[inline(always)]
pub fn is_generic_word(role: Role) -> bool
    ensures { result ≡ is_generic_word role }
{
    match role {
        Role::Generic => true,
        _ => false,
    }
}

/// Whether a token is one that the grammar doesn't name.
#[inline(always)]
pub fn is_other(role: Role) -> bool
    ensures { result ≡ is_other role }
{
    match role {
        Role::Other => true,
        _ => false,
    }
}

/// Whether a token is a string literal.
pub fn is_string(kind: TokenKind) -> bool
    ensures { result ≡ is_string kind }
{
    match kind {
        TokenKind::Str => true,
        _ => false,
    }
}

/// Whether the name of a token is this one.
fn has_name(text: &[u8], tokens: &Tokens, at: usize, name: &[u8]) -> bool
    requires tokens { AreTokensOf text.now tokens.now }
    requires within { at < length tokens.now.list }
    ensures { result ≡ bytes_eq (name_of text.now tokens.now.list at) name.now }
{
    is_named(text, tokens, at, name)
}

/// Whether a token is this word.
pub fn is_word(text: &[u8], tokens: &Tokens, roles: &[Role], at: usize, word: &[u8]) -> bool
    requires tokens { AreTokensOf text.now tokens.now }
    requires roles { roles.now ≡ roles_of text.now tokens.now.list }
    requires within { at < length roles.now }
    ensures { result ≡ is_word_at word.now text.now tokens.now.list at }
{
    is_name(role_at(roles, at)) && has_name(text, tokens, at, word)
}
