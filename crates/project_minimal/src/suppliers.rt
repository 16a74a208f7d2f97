//! The files that supply units of a name.

ghost use Rattle.std.specs.List.{All};
ghost use Rattle.std.specs.Prelude.{◌≡◌, ◌<◌, ◌≤◌, ◌==◌, ◌||◌, ◌&&◌, ◌∷◌, ◌++◌, ℕ, [], true, false, if◌then◌else◌, length, IfOk, OnOk};
ghost use Rattle.base.specs.declared.design.Unit.{Unit as DesignUnit};
ghost use Rattle.vhdl_spec.specs.References.{owner_name};
ghost use Rattle.vhdl_units.specs.UnitKeys.{is_same_unit};
ghost use Rattle.project_minimal.specs.Suppliers.{FitFiles, HasPut, IsPaired, IsVoid, files_of, has_file, supplies};
ghost use Rattle.vhdl_units.specs.declared.units.UnitKey.{UnitKey as Named};

use base::{Items, NoMemory, Positions};
use base_collections::KeyNumbers;
use std::alloc::Global;
use vhdl_units::UnitKey;

/// The files that supply units, by what the units are called where they are needed.
#[derive(Drop)]
pub struct Suppliers {
    pub names: KeyNumbers<UnitKey>,
    pub files: Vec<Positions>,
}

/// No suppliers, with a table that has room for `count` names.
pub fn no_suppliers(alloc: Global, count: usize) -> Result<Suppliers, NoMemory>
    ensures { IfOk result IsVoid }
{
    let names = KeyNumbers::with_room(alloc, count)?;
    let files = Vec::new(alloc);
    Ok(Suppliers { names, files })
}

/// Whether a file is the last one of some files.
fn ends_with(files: &[u32], file: u32) -> bool
    ensures { result ≡ true → has_file files.now file ≡ true }
{
    match files {
        [.., last] => *last == file,
        [] => false,
    }
}

/// Adds a file, unless it is the last one already.
fn push_file(files: &mut Positions, file: u32) -> Result<(), NoMemory>
    ensures has { OnOk result ((at : ℕ) →
        has_file files.new at ≡ (has_file files.old at || file == at)) }
    ensures within { (count : ℕ) → file < count → All (λ other. other < count) files.old →
        OnOk result (All (λ other. other < count) files.new) }
{
    if ends_with(files.as_slice(), file) {
        return Ok(());
    }
    files.push(file)?;
    Ok(())
}

/// Adds an empty list of files for a number, if the number is the next one.
fn make_room(alloc: Global, files: &mut Vec<Positions>, number: usize) -> Result<(), NoMemory>
    ensures { OnOk result (files.new.items ≡ (if number == length files.old.items
        then files.old.items ++ [] ∷ [] else files.old.items)) }
{
    if number == files.len() {
        files.push(Items::new(alloc))?;
    }
    Ok(())
}

/// Adds a file to the list of a number, unless it is the last one of the list already.
fn put_file(
    alloc: Global,
    files: &mut Vec<Positions>,
    number: usize,
    file: u32,
) -> Result<(), NoMemory>
    requires { number ≤ length files.old.items }
    ensures put { OnOk result (HasPut number file files.old.items files.new.items) }
    ensures within { (count : ℕ) → file < count →
        All (λ some. All (λ other. other < count) some) files.old.items →
        OnOk result (All (λ some. All (λ other. other < count) some) files.new.items) }
{
    make_room(alloc, files, number)?;
    push_file(&mut files[number], file)?;
    Ok(())
}

/// Adds a file that supplies a unit of a name.
pub fn add(
    alloc: Global,
    suppliers: &mut Suppliers,
    name: UnitKey,
    file: u32,
) -> Result<(), NoMemory>
    requires { IsPaired suppliers.old }
    ensures fit { (count : ℕ) → file < count → FitFiles count suppliers.old →
        OnOk result (FitFiles count suppliers.new) }
    ensures added { OnOk result ((other : Named) (at : ℕ) → supplies suppliers.new other at
        ≡ (supplies suppliers.old other at || (is_same_unit other name && file == at))) }
{
    let number = suppliers.names.add(name)?;
    put_file(alloc, &mut suppliers.files, number, file)?;
    Ok(())
}

static NOTHING: [u32; 0] = [];

/// The files that supply a unit of a name.
pub fn files_of<'a>(suppliers: &'a Suppliers, name: &UnitKey) -> &'a [u32]
    requires { IsPaired suppliers.now }
    ensures is { result.now ≡ files_of suppliers.entry.now name.now }
    ensures within { (count : ℕ) → FitFiles count suppliers.entry.now →
        All (λ file. file < count) result.now }
{
    match suppliers.names.number(name) {
        Some(number) => suppliers.files[number].as_slice(),
        None => NOTHING.as_slice(),
    }
}
