//! Which of some units the artefacts of files export.

ghost use Rattle.std.specs.Prelude.{◌≡◌, ◌&&◌, ◌∷◌, ◌++◌, [], List, IfOk, IsTrue, MatchOption, OnOk, None, Some, false, if◌then◌else◌};
ghost use Rattle.std.specs.List.{list_any};
ghost use Rattle.std.specs.Option.{option_map};
ghost use Rattle.std.specs.Str.{bytes_eq};
ghost use Rattle.base.specs.declared.graph.BuiltFile.{BuiltFile};
ghost use Rattle.base_collections.specs.Maps.{get};
ghost use Rattle.vhdl_units.specs.UnitKeys.{is_same_unit};
ghost use Rattle.child_tools.specs.Exports.{exported_by, exports, exports_unit, first_missing, is_export, is_missing};
ghost use Rattle.child_tools.specs.Flags.{Flags, HasPut, KnowsLibraries, KnowsUnits, has_key};

use crate::unit_names::{library_key, put_library, put_name};
use base::{BuiltFile, NoMemory, Text};
use base_collections::{Key, KeyMap};
use child_lines::{after_word, next_line};
use std::alloc::Global;
use vhdl_units::UnitKey;

/// The primary unit that a line of an artefact is of.
#[tactic(auto, unfolding(crate::specs::Exports::exported_by))]
fn exported_by(line: &[u8]) -> Option<&[u8]>
    ensures { option_map (λ name. name.now) result ≡ exported_by line.now }
{
    if let Some(name) = after_word(b"unit entity ", line) {
        return Some(name);
    }
    if let Some(name) = after_word(b"unit configuration ", line) {
        return Some(name);
    }
    if let Some(name) = after_word(b"unit package ", line) {
        return Some(name);
    }
    if let Some(name) = after_word(b"unit instance ", line) {
        return Some(name);
    }
    after_word(b"unit context ", line)
}

/// Flags a unit as found, where it is wanted.
fn flag_unit(
    alloc: Global,
    unit: &UnitKey,
    flags: &mut KeyMap<UnitKey, bool>,
) -> Result<(), NoMemory>
    ensures { OnOk result (Flags (is_same_unit unit.now) flags.old flags.new) }
{
    let Some(found) = flags.get(unit) else {
        return Ok(());
    };
    if found {
        return Ok(());
    }
    flags.insert(unit.copy(alloc)?, true)?;
    Ok(())
}

/// Flags the unit that a line of an artefact of a library exports. What is in the name of `key` is lost.
fn flag_line(
    alloc: Global,
    line: &[u8],
    key: &mut UnitKey,
    flags: &mut KeyMap<UnitKey, bool>,
) -> Result<(), NoMemory>
    ensures library { OnOk result (key.new.library ≡ key.old.library) }
    ensures flags { OnOk result (Flags
        (λ unit. bytes_eq key.old.library unit.library && is_export unit.name line.now)
        flags.old flags.new) }
{
    let Some(name) = exported_by(line) else {
        return Ok(());
    };
    put_name(alloc, key, name)?;
    flag_unit(alloc, key, flags)
}

/// Flags the units that an artefact of the library of `key` exports, in one pass. What is in the name of `key` is lost.
fn flag_lines(
    alloc: Global,
    artefact: &[u8],
    key: &mut UnitKey,
    flags: &mut KeyMap<UnitKey, bool>,
) -> Result<(), NoMemory>
    ensures { OnOk result (Flags
        (λ unit. bytes_eq key.old.library unit.library && exports_unit artefact.now unit.name)
        flags.old flags.new) }
{
    let mut rest = artefact;
    while let Some((line, others)) = next_line(rest) {
        flag_line(alloc, line, key, flags)?;
        rest = others;
    }
    flag_line(alloc, rest, key, flags)
}

/// Flags the units that an artefact of a library exports. `key` is any, and takes no memory anew where it is of that library.
fn flag_artefact(
    alloc: Global,
    library: &Text,
    artefact: &[u8],
    key: &mut UnitKey,
    flags: &mut KeyMap<UnitKey, bool>,
) -> Result<(), NoMemory>
    ensures { OnOk result (Flags
        (λ unit. bytes_eq library.now unit.library && exports_unit artefact.now unit.name)
        flags.old flags.new) }
{
    put_library(alloc, key, library)?;
    flag_lines(alloc, artefact, key, flags)
}

/// Flags the units that the artefacts of files export. `key` is any.
fn flag_files(
    alloc: Global,
    files: &[BuiltFile],
    key: &mut UnitKey,
    flags: &mut KeyMap<UnitKey, bool>,
) -> Result<(), NoMemory>
    ensures { OnOk result (Flags (exports files.now) flags.old flags.new) }
{
    for file in files {
        flag_artefact(alloc, &file.name.library, file.artefact.bytes(), key, flags)?;
    }
    Ok(())
}

/// Units that are wanted, none of which is found yet.
fn units_to_find(alloc: Global, units: &[UnitKey]) -> Result<KeyMap<UnitKey, bool>, NoMemory>
    ensures { IfOk result (λ flags. (unit : UnitKey) → get is_same_unit flags unit ≡
        (if list_any (λ other. is_same_unit other unit) units.now then Some false else None)) }
{
    let mut flags = KeyMap::with_room(alloc, units.len())?;
    for unit in units {
        flags.insert(unit.copy(alloc)?, false)?;
    }
    Ok(flags)
}

/// Which of some units are exported by the artefacts of `files`, or by `artefact` of a last file in `library`.
fn flags_of(
    alloc: Global,
    units: &[UnitKey],
    files: &[BuiltFile],
    library: &Text,
    artefact: &[u8],
) -> Result<KeyMap<UnitKey, bool>, NoMemory>
    ensures { (last : BuiltFile) → last.name.library ≡ library.now → last.artefact ≡ artefact.now →
        IfOk result (KnowsUnits (files.now ++ last ∷ []) units.now) }
{
    let mut flags = units_to_find(alloc, units)?;
    let mut key = library_key(alloc, library)?;
    flag_files(alloc, files, &mut key, &mut flags)?;
    flag_artefact(alloc, library, artefact, &mut key, &mut flags)?;
    Ok(flags)
}

/// Puts a library among some.
fn put_new(
    alloc: Global,
    library: &Text,
    libraries: &mut KeyMap<UnitKey, bool>,
) -> Result<(), NoMemory>
    ensures { OnOk result (HasPut library.now libraries.old libraries.new) }
{
    libraries.insert(library_key(alloc, library)?, true)?;
    Ok(())
}

/// Puts a library among some, which takes no time where it is that of the file before it.
fn put_next(
    alloc: Global,
    library: &Text,
    before: &Text,
    libraries: &mut KeyMap<UnitKey, bool>,
) -> Result<(), NoMemory>
    ensures { IsTrue (has_key libraries.old before.now) →
        OnOk result (HasPut library.now libraries.old libraries.new) }
{
    if library.same(before) {
        return Ok(());
    }
    put_new(alloc, library, libraries)
}

/// The libraries of files, of which that of the last is borrowed apart.
fn libraries_of<'a>(
    alloc: Global,
    files: &'a [BuiltFile],
    library: &'a Text,
) -> Result<KeyMap<UnitKey, bool>, NoMemory>
    ensures { (last : BuiltFile) → last.name.library ≡ library.now →
        IfOk result (KnowsLibraries (files.now ++ last ∷ [])) }
{
    let mut libraries = KeyMap::new(alloc);
    put_new(alloc, library, &mut libraries)?;
    let mut before = library;
    for file in files {
        put_next(alloc, &file.name.library, before, &mut libraries)?;
        before = &file.name.library;
    }
    Ok(libraries)
}

/// Whether a unit that is wanted is missing.
fn is_missing(
    alloc: Global,
    unit: &UnitKey,
    libraries: &KeyMap<UnitKey, bool>,
    flags: &KeyMap<UnitKey, bool>,
) -> Result<bool, NoMemory>
    ensures { (files : List BuiltFile) (units : List UnitKey) →
        KnowsLibraries files libraries.now → KnowsUnits files units flags.now →
        IsTrue (list_any (λ other. is_same_unit other unit.now) units) →
        IfOk result (λ missing. missing ≡ is_missing files unit.now) }
{
    let library = library_key(alloc, &unit.library)?;
    if libraries.get(&library).is_none() {
        return Ok(false);
    }
    match flags.get(unit) {
        Some(found) => Ok(!found),
        None => Ok(true),
    }
}

/// The first of some units that is missing.
fn first_of<'a>(
    alloc: Global,
    units: &'a [UnitKey],
    libraries: &KeyMap<UnitKey, bool>,
    flags: &KeyMap<UnitKey, bool>,
) -> Result<Option<&'a UnitKey>, NoMemory>
    ensures { (files : List BuiltFile) →
        KnowsLibraries files libraries.now → KnowsUnits files units.now flags.now →
        IfOk result (λ found. MatchOption found
        (first_missing files units.now ≡ None)
        (λ unit. first_missing files units.now ≡ Some unit.now)) }
{
    for unit in units {
        let missing = is_missing(alloc, unit, libraries, flags)?;
        if missing {
            return Ok(Some(unit));
        }
    }
    Ok(None)
}

/// The first of some units that neither the files that were built nor one more, of a library and with an artefact, export,
/// though its library is that of one of them. Time goes by n log n of units, files and lines of artefacts.
pub fn first_missing<'a>(
    alloc: Global,
    units: &'a [UnitKey],
    files: &[BuiltFile],
    library: &Text,
    artefact: &[u8],
) -> Result<Option<&'a UnitKey>, NoMemory>
    ensures { (last : BuiltFile) → last.name.library ≡ library.now → last.artefact ≡ artefact.now →
        IfOk result (λ found. MatchOption found
        (first_missing (files.now ++ last ∷ []) units.now ≡ None)
        (λ unit. first_missing (files.now ++ last ∷ []) units.now ≡ Some unit.now)) }
{
    if units.is_empty() {
        return Ok(None);
    }
    let libraries = libraries_of(alloc, files, library)?;
    let flags = flags_of(alloc, units, files, library, artefact)?;
    first_of(alloc, units, &libraries, &flags)
}
