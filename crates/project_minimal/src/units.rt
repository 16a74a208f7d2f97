//! What the units of a file need.

ghost use Rattle.std.specs.Prelude.{◌≡◌, ◌<◌, ◌≤◌, ◌==◌, ◌&&◌, Some, length, slice_get, IfSome, OnOk};
ghost use Rattle.std.specs.List.{All, list_any};
ghost use Rattle.std.specs.Option.{option_map};
ghost use Rattle.std.specs.Str.{bytes_eq};
ghost use Rattle.vhdl_lex.specs.LexicalElements.{LiesIn};
ghost use Rattle.vhdl_units.specs.Names.{token_name};
ghost use Rattle.project_minimal.specs.MinimalSet.{NeedSources, NeedUnit, needs, units_at, uses, wants_of};
ghost use Rattle.project_minimal.specs.Needing.{AreTables, IsKnown, binds, binds_one, count_of, has_part, library_at, looks, outline_at};
ghost use Rattle.project_minimal.specs.Suppliers.{FitAll, FitFiles, has_file, supplies};
ghost use Rattle.project_minimal.specs.Taking.{AreTaken, Grows, Takes};
ghost use Rattle.order.specs.BuildOrder.{AreEdges};
ghost use Rattle.vhdl_units.specs.UnitKeys.{unit_key};

use crate::index::Index;
use crate::sources::Sources;
use crate::suppliers::{Suppliers, files_of};
use crate::taken::{Taken, is_in, take, take_all, take_earlier};
use base::{Edges, FILE_LIMIT, NoMemory, Text, Token, Unit, UnitId, UnitKind};
use std::alloc::Global;
use vhdl_scope::VisibleLibraries;
use vhdl_units::{UnitKey, name_of_token, unit_key};

/// The files of a project, what their units are called where they are needed, and which libraries these see.
#[derive(Clone, Copy)]
pub struct Tables<'a> {
    pub sources: Sources<'a>,
    pub index: &'a Index,
    pub sets: &'a VisibleLibraries,
}

/// Takes the files that supply a unit of a name.
fn take_named(
    alloc: Global,
    count: u32,
    suppliers: &Suppliers,
    library: &Text,
    name: &Text,
    taken: &mut Taken,
) -> Result<(), NoMemory>
    requires few { count ≤ FILE_LIMIT }
    requires fit { FitFiles count suppliers.now }
    requires before { AreTaken count taken.old }
    ensures grows { OnOk result (Grows count taken.old taken.new) }
    ensures takes { OnOk result (Takes
        (supplies suppliers.now (unit_key library.now name.now))
        taken.old taken.new) }
{
    let key = unit_key(alloc, library.bytes(), name.bytes())?;
    take_all(count, files_of(suppliers, &key), taken)?;
    Ok(())
}

/// Takes the files of what belongs to a unit: the architectures of an entity, the body of a package.
fn take_parts(
    alloc: Global,
    count: u32,
    index: &Index,
    library: &Text,
    unit: &Unit,
    taken: &mut Taken,
) -> Result<(), NoMemory>
    requires few { count ≤ FILE_LIMIT }
    requires fit { FitAll count index.now }
    requires before { AreTaken count taken.old }
    ensures grows { OnOk result (Grows count taken.old taken.new) }
    ensures takes { OnOk result (Takes
        (has_part index.now unit.now.kind library.now unit.now.name) taken.old taken.new) }
{
    match unit.kind {
        UnitKind::Entity => take_named(
            alloc,
            count,
            &index.architectures,
            library,
            &unit.name,
            taken,
        ),
        UnitKind::Package => take_named(alloc, count, &index.bodies, library, &unit.name, taken),
        _ => Ok(()),
    }
}

/// The library of a file.
fn library_at<'a>(tables: Tables<'a>, at: u32) -> &'a Text
    requires { at < count_of tables }
    ensures { result.now ≡ library_at tables.entry at }
{
    &tables.sources.project.files.get(at as u64).name.library
}

/// Whether two texts have the same bytes.
fn is_same(one: &[u8], other: &[u8]) -> bool
    ensures { result ≡ bytes_eq one.now other.now }
{
    one == other
}

/// Whether the library of a file is that of a unit, or visible in it.
fn looks(tables: Tables, id: UnitId, file: u32) -> bool
    requires tables { AreTables tables }
    requires unit { id.file < count_of tables }
    requires file { file < count_of tables }
    ensures { result ≡ looks tables.entry id file }
{
    let own = library_at(tables, id.file).bytes();
    let other = library_at(tables, file).bytes();
    is_same(own, other) || tables.sets.sees_library(id, other)
}

/// Takes a file, where a unit looks into its library.
fn take_seen(tables: Tables, id: UnitId, file: u32, taken: &mut Taken) -> Result<(), NoMemory>
    requires tables { AreTables tables }
    requires unit { id.file < count_of tables }
    requires file { file < count_of tables }
    requires before { AreTaken (count_of tables) taken.old }
    ensures grows { OnOk result (Grows (count_of tables.entry) taken.old taken.new) }
    ensures takes { OnOk result (Takes (λ at. looks tables.entry id at && file == at)
        taken.old taken.new) }
{
    if is_in(&taken.set, file) {
        return Ok(());
    }
    if looks(tables, id, file) {
        take(tables.sources.project.files.len() as u32, file, taken)?;
    }
    Ok(())
}

/// Takes those of some files into whose libraries a unit looks.
fn take_all_seen(
    tables: Tables,
    id: UnitId,
    files: &[u32],
    taken: &mut Taken,
) -> Result<(), NoMemory>
    requires tables { AreTables tables }
    requires unit { id.file < count_of tables }
    requires files { All (λ file. file < count_of tables) files.now }
    requires before { AreTaken (count_of tables) taken.old }
    ensures grows { OnOk result (Grows (count_of tables.entry) taken.old taken.new) }
    ensures takes { OnOk result (Takes (λ at. looks tables.entry id at && has_file files.now at)
        taken.old taken.new) }
{
    for file in files {
        take_seen(tables, id, *file, taken)?;
    }
    Ok(())
}

/// Takes the files of the entities that a component of a unit may be bound to by default (IEEE Std 1076-2008, clause 7.3.3).
/// Its name is put into `room`, which comes back.
fn take_bound(
    alloc: Global,
    tables: Tables,
    id: UnitId,
    text: &[u8],
    component: Token,
    room: Text,
    taken: &mut Taken,
) -> Result<Text, NoMemory>
    requires tables { AreTables tables }
    requires unit { id.file < count_of tables }
    requires lies { LiesIn text.now component }
    requires before { AreTaken (count_of tables) taken.old }
    ensures grows { OnOk result (Grows (count_of tables.entry) taken.old taken.new) }
    ensures takes { OnOk result (Takes (binds tables.entry id (token_name text.now component))
        taken.old taken.new) }
{
    let key = UnitKey {
        library: Text::new(alloc),
        name: name_of_token(text, component, room)?,
    };
    take_all_seen(tables, id, files_of(&tables.index.entities, &key), taken)?;
    let UnitKey { library: _, name } = key;
    Ok(name)
}

/// The same for all components of a unit.
fn take_all_bound(
    alloc: Global,
    tables: Tables,
    id: UnitId,
    text: &[u8],
    components: &[Token],
    taken: &mut Taken,
) -> Result<(), NoMemory>
    requires tables { AreTables tables }
    requires unit { id.file < count_of tables }
    requires lie { All (LiesIn text.now) components.now }
    requires before { AreTaken (count_of tables) taken.old }
    ensures grows { OnOk result (Grows (count_of tables.entry) taken.old taken.new) }
    ensures takes { OnOk result (Takes (binds_one tables.entry id text.now components.now)
        taken.old taken.new) }
{
    let mut room = Text::new(alloc);
    for component in components {
        room = take_bound(alloc, tables, id, text, *component, room, taken)?;
    }
    Ok(())
}

/// Takes the files of what a unit needs, besides what its file depends on.
fn take_unit(alloc: Global, tables: Tables, id: UnitId, taken: &mut Taken) -> Result<(), NoMemory>
    requires tables { AreTables tables }
    requires file { id.file < count_of tables }
    requires unit { id.unit < length (outline_at tables id.file).units }
    requires before { AreTaken (count_of tables) taken.old }
    ensures grows { OnOk result (Grows (count_of tables.entry) taken.old taken.new) }
    ensures takes { OnOk result ((said : NeedSources) (unit : NeedUnit) →
        IsKnown tables.entry said → slice_get (units_at said id.file) id.unit ≡ Some unit →
        Takes (wants_of said unit) taken.old taken.new) }
{
    let sources = tables.sources;
    let library = &sources.project.files.get(id.file as u64).name.library;
    let text = sources.texts.get(id.file as u64).bytes();
    let outline = sources.outlines.get(id.file as u64);
    let unit = outline.units.get(id.unit as u64);
    let components = outline.unresolved.get(id.unit as u64).components.as_slice();
    let count = sources.project.files.len() as u32;
    take_parts(alloc, count, tables.index, library, unit, taken)?;
    take_all_bound(alloc, tables, id, text, components, taken)?;
    Ok(())
}

/// Takes the files of what the units of a file need.
fn take_units(alloc: Global, tables: Tables, file: u32, taken: &mut Taken) -> Result<(), NoMemory>
    requires tables { AreTables tables }
    requires file { file < count_of tables }
    requires before { AreTaken (count_of tables) taken.old }
    ensures grows { OnOk result (Grows (count_of tables.entry) taken.old taken.new) }
    ensures takes { OnOk result ((said : NeedSources) → IsKnown tables.entry said →
        Takes (λ at. list_any (λ unit. wants_of said unit at) (units_at said file))
        taken.old taken.new) }
{
    for number in 0..tables.sources.outlines.get(file as u64).units.len() {
        let id = UnitId {
            file,
            unit: number as u32,
        };
        take_unit(alloc, tables, id, taken)?;
    }
    Ok(())
}

/// Takes the files that a file of a linked project depends on itself.
fn take_deps(count: u32, edges: &Edges, file: u32, taken: &mut Taken) -> Result<(), NoMemory>
    requires few { count ≤ FILE_LIMIT }
    requires file { file < count }
    requires edges { AreEdges edges.now }
    requires as_many { length edges.now ≡ count }
    requires before { AreTaken count taken.old }
    ensures grows { OnOk result (Grows count taken.old taken.new) }
    ensures takes { OnOk result (Takes (uses (Some edges.now) file) taken.old taken.new) }
{
    take_all(count, edges.get(file as u64).as_slice(), taken)?;
    Ok(())
}

/// Takes the files that a file depends on itself: in a listed project all earlier ones.
fn take_used(
    count: u32,
    edges: Option<&Edges>,
    file: u32,
    taken: &mut Taken,
) -> Result<(), NoMemory>
    requires few { count ≤ FILE_LIMIT }
    requires file { file < count }
    requires edges { IfSome edges (λ edges. AreEdges edges.now × (length edges.now ≡ count)) }
    requires before { AreTaken count taken.old }
    ensures grows { OnOk result (Grows count taken.old taken.new) }
    ensures takes { OnOk result (Takes (uses (option_map (λ e. e.now) edges.entry) file)
        taken.old taken.new) }
{
    match edges {
        Some(edges) => take_deps(count, edges, file, taken),
        None => take_earlier(count, file, taken),
    }
}

/// Takes the files that a file needs itself.
pub fn take_needs(
    alloc: Global,
    tables: Tables,
    edges: Option<&Edges>,
    file: u32,
    taken: &mut Taken,
) -> Result<(), NoMemory>
    requires tables { AreTables tables }
    requires file { file < count_of tables }
    requires edges { IfSome edges (λ edges. AreEdges edges.now
        × (length edges.now ≡ count_of tables)) }
    requires before { AreTaken (count_of tables) taken.old }
    ensures grows { OnOk result (Grows (count_of tables.entry) taken.old taken.new) }
    ensures takes { OnOk result ((said : NeedSources) → IsKnown tables.entry said →
        said.edges ≡ option_map (λ e. e.now) edges.entry → Takes (needs said file) taken.old taken.new) }
{
    let count = tables.sources.project.files.len() as u32;
    take_used(count, edges, file, taken)?;
    take_units(alloc, tables, file, taken)?;
    Ok(())
}
