//! The names of units, and units with them.

ghost use Rattle.std.specs.Prelude.{◌≡◌, ◌↔◌, IsTrue, ◌+◌, ◌*◌, ◌<◌, ◌≤◌, [], ◌∷◌, length, IfOk};
ghost use Rattle.base.specs.declared.lexical.Token.{Token};
ghost use Rattle.vhdl_spec.specs.Words.{lower_case};
ghost use Rattle.vhdl_spec.specs.Units.{name_of, name_token, unit_of, plain, owned, token_at};
ghost use Rattle.vhdl_lex.specs.LexicalElements.{LiesIn};
ghost use Rattle.vhdl_units.specs.Lies.{AllLieIn};
ghost use Rattle.vhdl_units.specs.Names.{token_name};

use base::{MaybeText, NoMemory, TEXT_LIMIT, Text, Token, TokenKind, Unit, UnitKind};
use std::alloc::Global;

/// The name that a token is: a word in lower case, an extended identifier as written.
pub fn token_name(alloc: Global, text: &[u8], tokens: &[Token], at: usize) -> Result<Text, NoMemory>
    requires lie { AllLieIn text.now tokens.now }
    requires within { at < length tokens.now }
    ensures { IfOk result (λ name. name ≡ name_of text.now tokens.now at) }
{
    let token = tokens[at];
    let bytes = &text[token.start as usize..token.end as usize];
    let mut name = Vec::from_slice(alloc, bytes)?;
    match token.kind {
        TokenKind::Extended => {}
        _ => name.make_ascii_lowercase(),
    }
    Ok(Text::from_vec(name))
}

/// The token of a number, which lies in the text.
pub fn token_at(_text: &[u8], tokens: &[Token], at: usize) -> Token
    requires lie { AllLieIn _text.now tokens.now }
    requires within { at < length tokens.now }
    ensures is { result ≡ token_at tokens.now at }
    ensures lies { LiesIn _text.now result }
{
    tokens[at]
}

/// The name that one token is. It reuses the memory of `used` where that has room.
pub fn name_of_token(text: &[u8], token: Token, used: Text) -> Result<Text, NoMemory>
    requires { LiesIn text.now token }
    ensures { IfOk result (λ name. name ≡ token_name text.now token) }
{
    let bytes = &text[token.start as usize..token.end as usize];
    let mut room = used.into_vec();
    room.clear();
    room.extend_from_slice(bytes)?;
    match token.kind {
        TokenKind::Extended => {}
        _ => room.make_ascii_lowercase(),
    }
    Ok(Text::from_vec(room))
}

/// Whether the bytes, in lower case, are these.
fn is_lowered(bytes: &[u8], name: &[u8]) -> bool
    ensures { IsTrue result ↔ (lower_case bytes.now ≡ name.now) }
{
    if bytes.len() != name.len() {
        return false;
    }
    for i in 0..bytes.len() {
        if bytes[i].to_ascii_lowercase() != name[i] {
            return false;
        }
    }
    true
}

/// Whether the bytes equal the name. Upper and lower case differ.
fn is_same(bytes: &[u8], name: &[u8]) -> bool
    ensures { IsTrue result ↔ (bytes.now ≡ name.now) }
{
    bytes == name
}

/// Whether one token has this name, as `run` or `runner_cfg`, of which no copy is made.
pub fn token_has_name(text: &[u8], token: Token, name: &[u8]) -> bool
    requires { LiesIn text.now token }
    ensures { IsTrue result ↔ (token_name text.now token ≡ name.now) }
{
    let bytes = &text[token.start as usize..token.end as usize];
    match token.kind {
        TokenKind::Extended => is_same(bytes, name),
        _ => is_lowered(bytes, name),
    }
}

/// The token number of the name of a unit that begins at `at`.
fn name_token(kind: UnitKind, at: usize) -> usize
    requires { at < TEXT_LIMIT }
    ensures { result ≡ name_token kind at }
{
    match kind {
        UnitKind::PackageBody => at + 2,
        _ => at + 1,
    }
}

/// A unit without an owner, from `at` to `last`.
pub fn plain_unit(
    alloc: Global,
    text: &[u8],
    tokens: &[Token],
    lead: usize,
    at: usize,
    kind: UnitKind,
    last: usize,
) -> Result<Unit, NoMemory>
    requires lie { AllLieIn text.now tokens.now }
    requires lead { lead ≤ at }
    requires named { at + 2 < last }
    requires within { last < length tokens.now }
    requires small { length tokens.now ≤ TEXT_LIMIT }
    ensures { IfOk result (λ unit.
        unit_of text.now tokens.now lead at (plain kind last) ≡ unit ∷ []) }
{
    let name = token_name(alloc, text, tokens, name_token(kind, at))?;
    Ok(Unit {
        kind,
        name,
        owner: MaybeText::Nothing,
        lead: lead as u32,
        first: at as u32,
        last: last as u32,
    })
}

/// A unit with an owner, from `at` to `last`; `before` names come before the last of the owner.
pub fn owned_unit(
    alloc: Global,
    text: &[u8],
    tokens: &[Token],
    lead: usize,
    at: usize,
    kind: UnitKind,
    before: usize,
    last: usize,
) -> Result<Unit, NoMemory>
    requires lie { AllLieIn text.now tokens.now }
    requires lead { lead ≤ at }
    requires named { at + 3 + 2 * before < last }
    requires within { last < length tokens.now }
    requires small { length tokens.now ≤ TEXT_LIMIT }
    ensures { IfOk result (λ unit.
        unit_of text.now tokens.now lead at (owned kind before last) ≡ unit ∷ []) }
{
    let name = token_name(alloc, text, tokens, name_token(kind, at))?;
    let owner = token_name(alloc, text, tokens, at + 3 + 2 * before)?;
    Ok(Unit {
        kind,
        name,
        owner: MaybeText::Given(owner),
        lead: lead as u32,
        first: at as u32,
        last: last as u32,
    })
}
