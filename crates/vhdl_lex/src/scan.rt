//! The cut of a whole text, in one pass.

ghost use Rattle.std.specs.Prelude.{◌≡◌, ◌<◌, ◌≤◌, List, [], ◌∷◌, ◌++◌, length, IfOk, OnOk};
ghost use Rattle.base.specs.declared.lexical.LexFault.{LexFault};
ghost use Rattle.vhdl_spec.specs.Tokens.{LexicalElement, IsCut, HasFault, Scans};
ghost use Rattle.vhdl_spec.specs.Units.{role_of, roles_of};
ghost use Rattle.vhdl_lex.specs.LexicalElements.{LiesIn};
ghost use Rattle.vhdl_lex.specs.Reading.{Read, ReadsOn};
ghost use Rattle.vhdl_lex.specs.Scanning.{GivesTokens, GivesFault};

use crate::ends::gap_end_by;
use crate::lexical_element::{Found, next_lexical_element};
use crate::roles::role_of;
use crate::stops::{gap_stops, word_stops};
use base::{Items, LexFault, NoMemory, OrMemory, Role, RoleList, Span, TEXT_LIMIT, Token, Tokens};
use std::alloc::Global;
use std::mem::replace;

/// The tokens and the line comments of a text of at most 4,194,304 bytes, or its lexical fault (IEEE Std 1076-2008, clause 15).
/// The time is in proportion to the text's length. The tokens reuse the memory of `used` where that has room. The same pass
/// puts the roles of the tokens into `roles`, in order: one byte for each token.
pub fn scan_with_roles(
    alloc: Global,
    text: &[u8],
    roles: &mut RoleList,
    used: Tokens,
) -> Result<Tokens, OrMemory<LexFault>>
    requires { length text.now ≤ TEXT_LIMIT }
    // Tokens are those of the cut, and a fault is one that the text has.
    ensures right { Scans text.now result }
    // Where there is a cut its tokens are given, unless memory runs out.
    ensures cut { (lexical_elements : List LexicalElement) → IsCut text.now lexical_elements → GivesTokens lexical_elements result }
    // Where there is a fault it is given, unless memory runs out.
    ensures fault { (fault : LexFault) → HasFault text.now fault → GivesFault fault result }
    ensures roles { IfOk result (λ tokens. roles.new ≡ roles_of text.now tokens.list) }
{
    cut_with_roles(alloc, text, roles, used)
}

/// How many bytes are gone over with one look at 64 of them: a word that begins before there mostly ends within the 64.
const STRIDE: usize = 48;

/// Adds the role of a token.
#[inline(always)]
fn push_role(text: &[u8], roles: &mut Vec<Role>, token: Token) -> Result<(), NoMemory>
    requires { LiesIn text.now token }
    ensures { OnOk result (roles.new.items ≡ roles.old.items ++ role_of text.now token ∷ []) }
{
    roles.push(role_of(text, token))?;
    Ok(())
}

/// Goes on with a cut for some bytes or, where a lexical element begins within them, to its end, and adds tokens and comments; and
/// the roles of the tokens.
fn cut_on(
    text: &[u8],
    list: &mut Vec<Token>,
    roles: &mut Vec<Role>,
    comments: &mut Vec<Span>,
    from: usize,
) -> Result<usize, OrMemory<LexFault>>
    requires within { from < length text.now }
    requires small { length text.now ≤ TEXT_LIMIT }
    requires read { Read text.now list.old.items comments.old.items from }
    requires roles { roles.old.items ≡ roles_of text.now list.old.items }
    ensures read { ReadsOn text.now from list.new.items comments.new.items result }
    ensures roles { OnOk result (roles.new.items ≡ roles_of text.now list.new.items) }
{
    let words = word_stops(text, from);
    let gaps = gap_stops(text, from);
    let mut at = from;
    while at < text.len() && at - from < STRIDE {
        at = gap_end_by(text, at, from, gaps);
        if at == text.len() {
            return Ok(at);
        }
        at = match next_lexical_element(text, list.as_slice(), at, from, words) {
            Found::Gap(end) => end,
            Found::Comment(end) => {
                comments.push(Span {
                    start: at as u32,
                    end: end as u32,
                })?;
                end
            }
            Found::Lexeme(kind, end) => {
                let token = Token {
                    kind,
                    start: at as u32,
                    end: end as u32,
                };
                push_role(text, roles, token)?;
                list.push(token)?;
                end
            }
            Found::Unclosed(fault) => return Err(OrMemory::Fault(fault)),
        };
    }
    Ok(at)
}

/// No tokens, which take no memory. Later tokens may reuse the memory of earlier ones.
pub fn no_tokens(alloc: Global) -> Tokens {
    Tokens {
        list: Items::new(alloc),
        comments: Items::new(alloc),
    }
}

/// Empty lists in the memory of used tokens.
fn room_of(used: Tokens) -> (Vec<Token>, Vec<Span>)
    ensures tokens { result.0.items ≡ [] }
    ensures comments { result.1.items ≡ [] }
{
    let Tokens { list, comments } = used;
    let mut list = list.into_vec();
    let mut comments = comments.into_vec();
    list.clear();
    comments.clear();
    (list, comments)
}

/// The cut of a text, and the roles of its tokens.
fn cut_tokens(
    text: &[u8],
    roles: &mut Vec<Role>,
    used: Tokens,
) -> Result<Tokens, OrMemory<LexFault>>
    requires small { length text.now ≤ TEXT_LIMIT }
    requires none { roles.old.items ≡ [] }
    ensures right { Scans text.now result }
    ensures roles { IfOk result (λ tokens. roles.new.items ≡ roles_of text.now tokens.list) }
{
    let (mut list, mut comments) = room_of(used);
    list.reserve(text.len() / 4 + 1)?;
    let mut at = 0;
    while at < text.len() {
        at = cut_on(text, &mut list, roles, &mut comments, at)?;
    }
    Ok(Tokens {
        list: Items::from_vec(list),
        comments: Items::from_vec(comments),
    })
}

/// The cut of a text with the roles of its tokens. The roles replace the earlier ones, and reuse their memory where that has room.
fn cut_with_roles(
    alloc: Global,
    text: &[u8],
    roles: &mut RoleList,
    used: Tokens,
) -> Result<Tokens, OrMemory<LexFault>>
    requires { length text.now ≤ TEXT_LIMIT }
    ensures right { Scans text.now result }
    ensures roles { IfOk result (λ tokens. roles.new ≡ roles_of text.now tokens.list) }
{
    let mut list = replace(roles, RoleList::new(alloc)).into_vec();
    list.clear();
    list.reserve(text.len() / 4 + 1)?;
    let tokens = cut_tokens(text, &mut list, used)?;
    *roles = Items::from_vec(list);
    Ok(tokens)
}
