//! What begins at a token of a file: a context item or a unit, as far as it goes.

ghost use Rattle.std.specs.Prelude.{◌≡◌, ◌<◌, length, IfOk};
ghost use Rattle.vhdl_spec.specs.Units.{begins_generate, beginning_at};
ghost use Rattle.base.specs.declared.design.Beginning.TheVariants as begin;
ghost use Rattle.vhdl_units.specs.Delimiters.{AreDelimiters};
ghost use Rattle.vhdl_units.specs.Standing.{IsStanding};

use crate::ends::{beginning_at, begins_at, first_semicolon, owner_from};
use crate::regions::unit_end;
use base::{Beginning, NoMemory, Role, UnitKind};
use std::alloc::Global;

/// What begins at a token, with its last token.
#[derive(Clone, Copy)]
pub enum Standing {
    Item(usize),
    Plain(UnitKind, usize),
    /// A unit with an owner: its kind, the number of names before the last of the owner's names, and its last token.
    Owned(UnitKind, usize, usize),
    NoUnit,
    Unended,
}

/// What begins after a word that begins a unit without an owner.
fn plain_at(
    alloc: Global,
    roles: &[Role],
    delimiters: &[u32],
    at: usize,
    begins: bool,
    kind: UnitKind,
) -> Result<Standing, NoMemory>
    requires within { at < length roles.now }
    requires begins { begins ≡ begins_generate roles.now at }
    requires delimiters { AreDelimiters roles.now 0 delimiters.now }
    requires is { beginning_at roles.now at ≡ begin.Plain kind }
    ensures { IfOk result (IsStanding roles.now at) }
{
    let end = match kind {
        UnitKind::PackageInstance => first_semicolon(roles, at + 3),
        UnitKind::PackageBody => unit_end(
            alloc,
            roles,
            delimiters,
            at + 4,
            begins_at(roles, at, at + 4, begins),
        )?,
        _ => unit_end(
            alloc,
            roles,
            delimiters,
            at + 3,
            begins_at(roles, at, at + 3, begins),
        )?,
    };
    match end {
        Some(last) => Ok(Standing::Plain(kind, last)),
        None => Ok(Standing::Unended),
    }
}

/// What begins after a word that begins a unit with an owner.
fn owned_at(
    alloc: Global,
    roles: &[Role],
    delimiters: &[u32],
    at: usize,
    begins: bool,
    kind: UnitKind,
) -> Result<Standing, NoMemory>
    requires within { at < length roles.now }
    requires begins { begins ≡ begins_generate roles.now at }
    requires delimiters { AreDelimiters roles.now 0 delimiters.now }
    requires is { beginning_at roles.now at ≡ begin.Owned kind }
    ensures { IfOk result (IsStanding roles.now at) }
{
    let Some(before) = owner_from(roles, at + 3) else {
        return Ok(Standing::NoUnit);
    };
    let start = at + 5 + 2 * before;
    match unit_end(
        alloc,
        roles,
        delimiters,
        start,
        begins_at(roles, at, start, begins),
    )? {
        Some(last) => Ok(Standing::Owned(kind, before, last)),
        None => Ok(Standing::Unended),
    }
}

/// What begins at a token of the file. `begins` says whether a `generate` there would open a region.
pub fn stands_at(
    alloc: Global,
    roles: &[Role],
    delimiters: &[u32],
    at: usize,
    begins: bool,
) -> Result<Standing, NoMemory>
    requires within { at < length roles.now }
    requires begins { begins ≡ begins_generate roles.now at }
    requires delimiters { AreDelimiters roles.now 0 delimiters.now }
    ensures { IfOk result (IsStanding roles.now at) }
{
    match beginning_at(roles, at) {
        Beginning::Item => match first_semicolon(roles, at + 1) {
            Some(last) => Ok(Standing::Item(last)),
            None => Ok(Standing::Unended),
        },
        Beginning::Plain(kind) => plain_at(alloc, roles, delimiters, at, begins, kind),
        Beginning::Owned(kind) => owned_at(alloc, roles, delimiters, at, begins, kind),
        Beginning::Nothing => Ok(Standing::NoUnit),
    }
}
