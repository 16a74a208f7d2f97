//! The test cases that strings name, and the one of a bench that calls none.

ghost use Rattle.std.specs.Prelude.{◌≡◌, ◌≤◌, ◌∷◌, IfOk, length};
ghost use Rattle.vhdl_lex.specs.LexicalElements.{LiesIn};
ghost use Rattle.vhdl_outline.specs.Calls.{string_case, token_case, unquoted};
ghost use Rattle.vhdl_outline.specs.Runs.{IsStringIn};

use base::{NoMemory, Text, Token};
use base_outcomes::TestCase;
use std::alloc::Global;

/// The name of the case of a bench that calls none.
static ALL: [u8; 3] = *b"all";

/// The rest of a string after one of its bytes. Two quotes in a row stand for one.
fn after_byte(byte: u8, bytes: &[u8]) -> &[u8]
    ensures rest { unquoted (byte ∷ bytes.now) ≡ byte ∷ unquoted result.now }
    ensures shorter { length result.now ≤ length bytes.now }
{
    if byte != b'"' {
        return bytes;
    }
    if bytes.is_empty() {
        return bytes;
    }
    if bytes[0] != b'"' {
        return bytes;
    }
    &bytes[1..]
}

/// What the bytes between the quotes of a string mean.
fn string_value(alloc: Global, bytes: &[u8]) -> Result<Text, NoMemory>
    ensures { IfOk result (λ name. name ≡ unquoted bytes.now) }
{
    let mut name = Vec::new(alloc);
    let mut rest = bytes;
    while let [byte, others @ ..] = rest {
        name.push(*byte)?;
        rest = after_byte(*byte, others);
    }
    Ok(Text::from_vec(name))
}

/// The case that a string of a text names; `file` is the position of the file that has the text.
pub fn string_case(
    alloc: Global,
    file: u32,
    text: &[u8],
    token: Token,
) -> Result<TestCase, NoMemory>
    requires { IsStringIn text.now token }
    ensures { IfOk result (λ case. case ≡ string_case file text.now token) }
{
    let at = token.start + 1;
    let end = token.end - 1;
    Ok(TestCase {
        name: string_value(alloc, &text[at as usize..end as usize])?,
        file,
        at,
        length: end - at,
    })
}

/// The one case of a bench that calls none, at the token that names its entity.
pub fn whole_case(alloc: Global, file: u32, token: Token) -> Result<TestCase, NoMemory>
    requires { token.start ≤ token.end }
    ensures { IfOk result (λ case. case ≡ token_case file token) }
{
    Ok(TestCase {
        name: Text::from_slice(alloc, ALL.as_slice())?,
        file,
        at: token.start,
        length: token.end - token.start,
    })
}
