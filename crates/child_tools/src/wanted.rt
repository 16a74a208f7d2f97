//! The units that the strict references of a file name.

ghost use Rattle.std.specs.Prelude.{◌≡◌, ◌++◌, ◌<◌, ◌≤◌, IfOk, OnOk, Some, length, slice_get};
ghost use Rattle.std.specs.Option.{option_map};
ghost use Rattle.vhdl_spec.specs.References.{refs_of, work};
ghost use Rattle.vhdl_spec.specs.Scans.{IsScanOf};
ghost use Rattle.vhdl_spec.specs.Units.{roles_of};
ghost use Rattle.std.specs.Str.{bytes_eq};
ghost use Rattle.child_tools.specs.Exports.{named_library, strict_unit, strict_units, wanted_units};

use base::{NoMemory, Ref, RoleList, Scan, TEXT_LIMIT, Text};
use std::alloc::Global;
use vhdl_outline::find_refs;
use vhdl_units::{UnitKey, unit_key};

fn is_work(name: &[u8]) -> bool
    ensures { result ≡ bytes_eq name.now work }
{
    name == b"work".as_slice()
}

/// The library that a name means in a file of another.
fn named_library<'a>(own: &'a Text, named: &'a Text) -> &'a Text
    ensures { result.now ≡ named_library own.entry.now named.entry.now }
{
    if is_work(named.bytes()) { own } else { named }
}

/// Adds the unit that a reference names, if it is strict.
#[tactic(auto, unfolding(crate::specs::Exports::strict_unit))]
fn push_strict(
    alloc: Global,
    own: &Text,
    reference: &Ref,
    units: &mut Vec<UnitKey>,
) -> Result<(), NoMemory>
    ensures { OnOk result
        (units.new.items ≡ units.old.items ++ strict_unit own.now reference.now) }
{
    if reference.strict {
        let library = named_library(own, &reference.library);
        units.push(unit_key(alloc, library.bytes(), reference.name.bytes())?)?;
    }
    Ok(())
}

/// Adds the units that strict references name.
fn push_units(
    alloc: Global,
    own: &Text,
    refs: &[Ref],
    units: &mut Vec<UnitKey>,
) -> Result<(), NoMemory>
    ensures { OnOk result (units.new.items ≡ units.old.items ++ strict_units own.now refs.now) }
{
    for reference in refs {
        push_strict(alloc, own, reference, units)?;
    }
    Ok(())
}

/// Adds those of the unit of a number.
fn push_wanted(
    alloc: Global,
    own: &Text,
    text: &[u8],
    scan: &Scan,
    roles: &RoleList,
    number: u32,
    units: &mut Vec<UnitKey>,
) -> Result<(), NoMemory>
    requires scan { IsScanOf text.now scan.now }
    requires small { length text.now ≤ TEXT_LIMIT }
    requires roles { roles.now ≡ roles_of text.now scan.now.tokens.list }
    requires number { number < length scan.now.units }
    ensures { OnOk result (option_map (λ unit. units.old.items ++
        strict_units own.now (refs_of text.now scan.now.tokens.list unit))
        (slice_get scan.now.units number) ≡ Some units.new.items) }
{
    let refs = find_refs(alloc, text, scan, roles, number)?;
    push_units(alloc, own, refs.as_slice(), units)
}

/// The units that the strict references of a file of a library name, in order. `roles` are those of the scan's tokens.
#[tactic(auto, unfolding(crate::specs::Exports::wanted_units))]
pub fn wanted_units(
    alloc: Global,
    own: &Text,
    text: &[u8],
    scan: &Scan,
    roles: &RoleList,
) -> Result<Vec<UnitKey>, NoMemory>
    requires scan { IsScanOf text.now scan.now }
    requires small { length text.now ≤ TEXT_LIMIT }
    requires roles { roles.now ≡ roles_of text.now scan.now.tokens.list }
    ensures { IfOk result (λ units. units.items ≡ wanted_units own.now text.now scan.now) }
{
    let mut units = Vec::new(alloc);
    for number in 0..scan.units.len() {
        push_wanted(alloc, own, text, scan, roles, number as u32, &mut units)?;
    }
    Ok(units)
}
