//! References with their names.

ghost use Rattle.std.specs.Prelude.{◌≡◌, ◌+◌, ◌<◌, ◌++◌, IfOk, OnOk, map};
ghost use Rattle.vhdl_spec.specs.Units.{AreTokensOf, roles_of};
ghost use Rattle.vhdl_spec.specs.References.{ref_at};
ghost use Rattle.vhdl_outline.specs.UnresolvedRefs.{NamedLiesIn, SomeLiesIn, named_architecture, named_ref};
ghost use Rattle.vhdl_outline.specs.Indices.{AreRefIndices, IsRefIndex};

use crate::indices::RefIndex;
use crate::unresolved::{NamedRef, named_at};
use base::{MaybeText, NoMemory, Ref, Role, Text, Token, Tokens, UnitKind};
use std::alloc::Global;
use vhdl_units::name_of_token;

/// An empty reference, which takes no memory. It serves as the first `used` of the functions that reuse a reference's memory.
pub fn no_ref(alloc: Global) -> Ref {
    Ref {
        library: Text::new(alloc),
        name: Text::new(alloc),
        architecture: MaybeText::Nothing,
        strict: false,
        at: 0,
    }
}

/// The used text, whose memory is reused, or an empty text.
fn room_of(alloc: Global, used: MaybeText) -> Text {
    match used {
        MaybeText::Nothing => Text::new(alloc),
        MaybeText::Given(text) => text,
    }
}

/// The name of the architecture that a reference names, if it names one.
fn architecture_in(
    alloc: Global,
    text: &[u8],
    named: Option<Token>,
    used: MaybeText,
) -> Result<MaybeText, NoMemory>
    requires { SomeLiesIn text.now named }
    ensures { IfOk result (λ found. found ≡ named_architecture text.now named) }
{
    match named {
        Some(token) => {
            let room = room_of(alloc, used);
            Ok(MaybeText::Given(name_of_token(text, token, room)?))
        }
        None => Ok(MaybeText::Nothing),
    }
}

/// The reference whose names are tokens of a text. It reuses the memory of `used` where that has room.
pub fn ref_in(alloc: Global, text: &[u8], named: &NamedRef, used: Ref) -> Result<Ref, NoMemory>
    requires { NamedLiesIn text.now named.now }
    ensures { IfOk result (λ found. found ≡ named_ref text.now named.now) }
{
    let Ref {
        library,
        name,
        architecture,
        strict: _,
        at: _,
    } = used;
    Ok(Ref {
        library: name_of_token(text, named.library, library)?,
        name: name_of_token(text, named.name, name)?,
        architecture: architecture_in(alloc, text, named.architecture, architecture)?,
        strict: named.strict,
        at: named.at,
    })
}

/// The reference by name at an index, in a unit of a kind.
fn ref_at(
    alloc: Global,
    text: &[u8],
    tokens: &Tokens,
    roles: &[Role],
    kind: UnitKind,
    token_index: RefIndex,
) -> Result<Ref, NoMemory>
    requires tokens { AreTokensOf text.now tokens.now }
    requires roles { roles.now ≡ roles_of text.now tokens.now.list }
    requires token_index { IsRefIndex roles.now token_index }
    ensures { IfOk result (λ found. found ≡ ref_at text.now tokens.now.list kind token_index.at) }
{
    let named = named_at(text, tokens, roles, kind, token_index);
    ref_in(alloc, text, &named, no_ref(alloc))
}

/// Adds the references at indices, in a unit of a kind.
pub fn push_refs(
    alloc: Global,
    text: &[u8],
    tokens: &Tokens,
    roles: &[Role],
    kind: UnitKind,
    indices: &[RefIndex],
    refs: &mut Vec<Ref>,
) -> Result<(), NoMemory>
    requires tokens { AreTokensOf text.now tokens.now }
    requires roles { roles.now ≡ roles_of text.now tokens.now.list }
    requires indices { AreRefIndices roles.now indices.now }
    ensures { OnOk result (refs.new.items ≡ refs.old.items ++
        map (λ token_index. ref_at text.now tokens.now.list kind token_index.at) indices.now) }
{
    for token_index in indices {
        refs.push(ref_at(alloc, text, tokens, roles, kind, *token_index)?)?;
    }
    Ok(())
}
