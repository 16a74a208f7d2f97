//! What each token is to the grammar of design units.

ghost use Rattle.std.specs.Prelude.{◌≡◌};
ghost use Rattle.vhdl_spec.specs.Words.{lower_case};
ghost use Rattle.vhdl_spec.specs.Units.{word_role, symbol_role, role_of};
ghost use Rattle.vhdl_lex.specs.LexicalElements.{LiesIn};

use crate::reserved::reserved_number;
use base::{Role, Token, TokenKind};

/// The roles of the reserved words, in the order of the alphabet.
static ROLES: [Role; 115] = [
    Role::Other,
    Role::Other,
    Role::Other,
    Role::Other,
    Role::All,
    Role::Other,
    Role::Architecture,
    Role::Other,
    Role::Other,
    Role::Other,
    Role::Other,
    Role::Other,
    Role::Other,
    Role::Inner,
    Role::Body,
    Role::Other,
    Role::Other,
    Role::Case,
    Role::Component,
    Role::Configuration,
    Role::Other,
    Role::Context,
    Role::Other,
    Role::Other,
    Role::Other,
    Role::Other,
    Role::Else,
    Role::Elsif,
    Role::End,
    Role::Entity,
    Role::Other,
    Role::Other,
    Role::Other,
    Role::For,
    Role::Other,
    Role::Function,
    Role::Generate,
    Role::Generic,
    Role::Other,
    Role::Other,
    Role::If,
    Role::Other,
    Role::Other,
    Role::Other,
    Role::Other,
    Role::Is,
    Role::Other,
    Role::Library,
    Role::Other,
    Role::Other,
    Role::Inner,
    Role::Other,
    Role::Other,
    Role::Other,
    Role::New,
    Role::Other,
    Role::Other,
    Role::Other,
    Role::Other,
    Role::Of,
    Role::Other,
    Role::Other,
    Role::Other,
    Role::Other,
    Role::Other,
    Role::Package,
    Role::Other,
    Role::Other,
    Role::Inner,
    Role::Procedure,
    Role::Inner,
    Role::Other,
    Role::Inner,
    Role::Other,
    Role::Other,
    Role::Inner,
    Role::Other,
    Role::Other,
    Role::Other,
    Role::Other,
    Role::Other,
    Role::Other,
    Role::Other,
    Role::Other,
    Role::Other,
    Role::Other,
    Role::Other,
    Role::Other,
    Role::Other,
    Role::Other,
    Role::Other,
    Role::Other,
    Role::Other,
    Role::Other,
    Role::Other,
    Role::Other,
    Role::Other,
    Role::Other,
    Role::Other,
    Role::Other,
    Role::Other,
    Role::Other,
    Role::Inner,
    Role::Other,
    Role::Use,
    Role::Other,
    Role::Other,
    Role::Other,
    Role::Other,
    Role::Other,
    Role::Other,
    Role::Other,
    Role::Other,
    Role::Other,
    Role::Other,
];

/// The roles of delimiters, by their byte. Bytes of 64 and above have the role `Other`.
static DELIMITERS: [Role; 64] = [
    Role::Other,
    Role::Other,
    Role::Other,
    Role::Other,
    Role::Other,
    Role::Other,
    Role::Other,
    Role::Other,
    Role::Other,
    Role::Other,
    Role::Other,
    Role::Other,
    Role::Other,
    Role::Other,
    Role::Other,
    Role::Other,
    Role::Other,
    Role::Other,
    Role::Other,
    Role::Other,
    Role::Other,
    Role::Other,
    Role::Other,
    Role::Other,
    Role::Other,
    Role::Other,
    Role::Other,
    Role::Other,
    Role::Other,
    Role::Other,
    Role::Other,
    Role::Other,
    Role::Other,
    Role::Other,
    Role::Other,
    Role::Other,
    Role::Other,
    Role::Other,
    Role::Other,
    Role::Other,
    Role::Opening,
    Role::Closing,
    Role::Other,
    Role::Other,
    Role::Comma,
    Role::Other,
    Role::Dot,
    Role::Other,
    Role::Other,
    Role::Other,
    Role::Other,
    Role::Other,
    Role::Other,
    Role::Other,
    Role::Other,
    Role::Other,
    Role::Other,
    Role::Other,
    Role::Colon,
    Role::Semicolon,
    Role::Other,
    Role::Other,
    Role::Other,
    Role::Other,
];

/// The role of a word, in letters of any case.
#[inline(always)]
fn word_role(word: &[u8]) -> Role
    ensures { result ≡ word_role (lower_case word.now) }
{
    match reserved_number(word) {
        0 => Role::Name,
        number => ROLES[number - 1],
    }
}

/// The role of a delimiter.
#[inline(always)]
fn symbol_role(byte: u8) -> Role
    ensures { result ≡ symbol_role byte }
{
    if byte < 64 {
        DELIMITERS[byte as usize]
    } else {
        Role::Other
    }
}

/// The role of a token of the text.
#[inline(always)]
pub fn role_of(text: &[u8], token: Token) -> Role
    requires { LiesIn text.now token }
    ensures { result ≡ role_of text.now token }
{
    if token.kind == TokenKind::Word {
        return word_role(&text[token.start as usize..token.end as usize]);
    }
    if token.kind == TokenKind::Symbol {
        return symbol_role(text[token.start as usize]);
    }
    if token.kind == TokenKind::Extended {
        Role::Name
    } else {
        Role::Other
    }
}
