//! The reference that a unit has by its structure: to its entity or its package.

ghost use Rattle.std.specs.Prelude.{◌≡◌, ◌+◌, ◌<◌, ◌≤◌, [], ◌∷◌, if◌then◌else◌, IfOk, IfSome, length};
ghost use Rattle.vhdl_spec.specs.Units.{AreTokensOf, roles_of, role_at, name_of};
ghost use Rattle.vhdl_spec.specs.References.{configured, first_for, name_if, owner_name, structural_by, structural_ref};
ghost use Rattle.vhdl_outline.specs.UnresolvedRefs.{structural_of};

use crate::reference_words::is_for;
use base::{MaybeText, NoMemory, Ref, Role, Text, Tokens, Unit, UnitKind};
use std::alloc::Global;
use vhdl_units::{name_of, role_at};

static WORK: [u8; 4] = *b"work";

static NOTHING: [u8; 0] = *b"";

/// The first `for` from one token up to another.
fn first_for(roles: &[Role], start: usize, end: usize) -> Option<usize>
    requires ordered { start ≤ end }
    requires within { end ≤ length roles.now }
    ensures first { result ≡ first_for roles.now start end }
    ensures within { IfSome result (λ at. at < end) }
{
    for at in start..end {
        if is_for(role_at(roles, at)) {
            return Some(at);
        }
    }
    None
}

/// A token's name where it is one.
fn name_if(
    alloc: Global,
    text: &[u8],
    tokens: &Tokens,
    roles: &[Role],
    at: usize,
) -> Result<MaybeText, NoMemory>
    requires tokens { AreTokensOf text.now tokens.now }
    requires roles { roles.now ≡ roles_of text.now tokens.now.list }
    requires within { at < length roles.now }
    ensures { IfOk result (λ name. name ≡
        name_if (role_at roles.now at) (name_of text.now tokens.now.list at)) }
{
    match role_at(roles, at) {
        Role::Name => Ok(MaybeText::Given(name_of(alloc, text, tokens, at)?)),
        _ => Ok(MaybeText::Nothing),
    }
}

/// The architecture that a configuration configures.
fn configured_architecture(
    alloc: Global,
    text: &[u8],
    tokens: &Tokens,
    roles: &[Role],
    unit: &Unit,
) -> Result<MaybeText, NoMemory>
    requires tokens { AreTokensOf text.now tokens.now }
    requires roles { roles.now ≡ roles_of text.now tokens.now.list }
    requires ordered { unit.now.first ≤ unit.now.last }
    requires within { unit.now.last < length roles.now }
    ensures { IfOk result (λ name. name ≡ configured text.now tokens.now.list unit.now) }
{
    match first_for(roles, unit.first as usize, unit.last as usize) {
        Some(at) => name_if(alloc, text, tokens, roles, at + 1),
        None => Ok(MaybeText::Nothing),
    }
}

/// The name of an owner, which is empty without an owner.
fn owner_name<'a>(owner: &'a MaybeText) -> &'a [u8]
    ensures { result.now ≡ owner_name owner.entry.now }
{
    match owner {
        MaybeText::Nothing => NOTHING.as_slice(),
        MaybeText::Given(name) => name.bytes(),
    }
}

/// A text of some bytes. It reuses the memory of `used` where that has room.
fn text_in(bytes: &[u8], used: Text) -> Result<Text, NoMemory>
    ensures { IfOk result (λ text. text ≡ bytes.now) }
{
    let mut room = used.into_vec();
    room.clear();
    room.extend_from_slice(bytes)?;
    Ok(Text::from_vec(room))
}

/// A strict reference to a name in the library of the unit itself, at the unit's keyword.
fn own_ref(unit: &Unit, name: &[u8], architecture: MaybeText, used: Ref) -> Result<Ref, NoMemory>
    ensures { IfOk result (λ found. found ≡ structural_ref unit.now name.now architecture) }
{
    let Ref {
        library: first,
        name: second,
        architecture: _nothing,
        strict: _,
        at: _,
    } = used;
    Ok(Ref {
        library: text_in(WORK.as_slice(), first)?,
        name: text_in(name, second)?,
        architecture,
        strict: true,
        at: unit.first,
    })
}

/// The architecture that a unit configures, if it is a configuration that does.
pub fn configured_by(
    alloc: Global,
    text: &[u8],
    tokens: &Tokens,
    roles: &[Role],
    unit: &Unit,
) -> Result<MaybeText, NoMemory>
    requires tokens { AreTokensOf text.now tokens.now }
    requires roles { roles.now ≡ roles_of text.now tokens.now.list }
    requires ordered { unit.now.first ≤ unit.now.last }
    requires within { unit.now.last < length roles.now }
    ensures { IfOk result (λ configured. structural_of configured unit.now unit.now.kind
        ≡ structural_by text.now tokens.now.list unit.now unit.now.kind) }
{
    match unit.kind {
        UnitKind::Configuration => configured_architecture(alloc, text, tokens, roles, unit),
        _ => Ok(MaybeText::Nothing),
    }
}

/// Whether a unit has a structural reference, and that reference (IEEE Std 1076-2008, clauses 3.3, 3.4 and 4.8). An architecture
/// and a configuration refer to their entity, a package body refers to its package. For other units the reference has no
/// meaning. It reuses the memory of `used`.
pub fn structural_ref(
    alloc: Global,
    unit: &Unit,
    configured: &MaybeText,
    used: Ref,
) -> Result<(bool, Ref), NoMemory>
    ensures { IfOk result (λ found. (if found.0 then found.1 ∷ [] else [])
        ≡ structural_of configured.now unit.now unit.now.kind) }
{
    match unit.kind {
        UnitKind::Architecture => {
            let owner = owner_name(&unit.owner);
            Ok((true, own_ref(unit, owner, MaybeText::Nothing, used)?))
        }
        UnitKind::Configuration => {
            let owner = owner_name(&unit.owner);
            Ok((true, own_ref(unit, owner, configured.copy(alloc)?, used)?))
        }
        UnitKind::PackageBody => {
            let package = unit.name.bytes();
            Ok((true, own_ref(unit, package, MaybeText::Nothing, used)?))
        }
        UnitKind::Entity | UnitKind::Package | UnitKind::PackageInstance | UnitKind::Context => {
            Ok((false, used))
        }
    }
}
