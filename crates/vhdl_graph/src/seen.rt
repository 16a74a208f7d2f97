//! The references of a design unit to visible libraries.

ghost use Rattle.std.specs.Prelude.{◌≡◌, ◌<◌, List, IfOk, OnOk, false, length, map, true};
ghost use Rattle.std.specs.List.{All};
ghost use Rattle.std.specs.Option.{option_map};
ghost use Rattle.std.specs.Str.{bytes_eq};
ghost use Rattle.vhdl_spec.specs.References.{work};
ghost use Rattle.vhdl_spec.specs.Dependencies.{LinkUnit, missing_of, names_unit};
ghost use Rattle.vhdl_lex.specs.LexicalElements.{LiesIn};
ghost use Rattle.vhdl_units.specs.Names.{token_name};
ghost use Rattle.vhdl_outline.specs.UnresolvedRefs.{NamedLiesIn, named_ref, structural_of};
ghost use Rattle.vhdl_scope.specs.Tables.{table_sees};
ghost use Rattle.vhdl_graph.specs.Indexes.{ArePositionsOfFiles, GivesOrFaults};
ghost use Rattle.vhdl_graph.specs.Libraries.{stands_outside};
ghost use Rattle.vhdl_graph.specs.Linking.{IsLooked, Knows, LinksRefs, Stands, is_inside, named_library, seen_library};
ghost use Rattle.vhdl_graph.specs.Meanings.{missing_in, names_in};
ghost use Rattle.vhdl_graph.specs.Rows.{HasAdded, stands_at};

use crate::check::check_ref;
use crate::index::{Index, find_unit};
use crate::key::{DesignUnitKey, fill, no_key, put_primary_key};
use crate::libraries::{Libraries, is_external};
use crate::refs::put_ref;
use base::{
    FILE_LIMIT, FileName, LinkFault, MaybeText, NoMemory, Project, Ref, Text, Token, Unit, UnitId,
};
use base_collections::PositionSet;
use std::alloc::Global;
use std::mem::replace;
use vhdl_outline::{NamedRef, no_ref, ref_in, structural_ref};
use vhdl_scope::VisibleLibraries;
use vhdl_units::{name_of_token, token_has_name};

static WORK: [u8; 4] = *b"work";

/// The tables of a project's names: its units, its libraries, and the libraries that each unit sees.
#[derive(Drop)]
pub struct Tables<'a> {
    pub index: Index,
    pub libraries: Libraries,
    pub sets: &'a VisibleLibraries,
}

/// Whether a name is `work`.
fn is_work(name: &[u8]) -> bool
    ensures { result ≡ bytes_eq name.now work }
{
    name == WORK.as_slice()
}

/// The library that a name means in a unit of a file of a library.
fn library_of<'a>(own: &'a Text, named: &'a Text) -> &'a Text
    ensures { result.now ≡ named_library own.entry.now named.entry.now }
{
    if is_work(named.bytes()) { own } else { named }
}

/// The library that a name means in a unit of a file of a library, if it is visible.
pub fn seen_library<'a>(
    sets: &VisibleLibraries,
    id: UnitId,
    own: &'a Text,
    named: &'a Text,
) -> Option<&'a Text>
    requires { id.file < length sets.now.starts }
    ensures { option_map (λ library. library.now) result
        ≡ seen_library (table_sees sets.now id named.entry.now) own.entry.now named.entry.now }
{
    if sets.sees_library(id, named.bytes()) {
        Some(library_of(own, named))
    } else {
        None
    }
}

/// Whether a name means a library in a unit that is visible there and looked into.
fn is_inside(tables: &Tables, id: UnitId, own: &Text, named: &Text) -> bool
    requires { id.file < length tables.now.sets.now.starts }
    ensures { result ≡ is_inside tables.now id own.now named.now }
{
    tables.sets.sees_library(id, named.bytes())
        && !is_external(&tables.libraries, library_of(own, named))
}

/// What was looked up last in a unit, if anything was: a name, and whether it means a library that is visible there and
/// looked into. Most references of a unit name one of a few libraries, and many the same one as the reference before.
#[derive(Drop)]
pub struct Looked {
    pub known: bool,
    pub inside: bool,
    pub name: Text,
}

/// Looks a name up.
fn look_up(tables: &Tables, id: UnitId, own: &Text, name: Text) -> Looked
    requires { id.file < length tables.now.sets.now.starts }
    ensures known { IsLooked tables.now id own.now result }
    ensures inside { result.inside ≡ is_inside tables.now id own.now name }
{
    let inside = is_inside(tables, id, own, &name);
    Looked {
        known: true,
        inside,
        name,
    }
}

/// Looks the name that a token is up, unless it was the last one.
fn look_at(
    alloc: Global,
    tables: &Tables,
    id: UnitId,
    own: &Text,
    text: &[u8],
    token: Token,
    looked: &mut Looked,
) -> Result<bool, NoMemory>
    requires file { id.file < length tables.now.sets.now.starts }
    requires lies { LiesIn text.now token }
    requires known { IsLooked tables.now id own.now looked.old }
    ensures known { OnOk result (IsLooked tables.now id own.now looked.new) }
    ensures inside { IfOk result (λ inside.
        inside ≡ is_inside tables.now id own.now (token_name text.now token)) }
{
    if looked.known {
        if token_has_name(text, token, looked.name.bytes()) {
            return Ok(looked.inside);
        }
    }
    let used = replace(&mut looked.name, Text::new(alloc));
    *looked = look_up(tables, id, own, name_of_token(text, token, used)?);
    Ok(looked.inside)
}

/// Looks a name up.
fn look_named(
    alloc: Global,
    tables: &Tables,
    id: UnitId,
    own: &Text,
    named: &Text,
    looked: &mut Looked,
) -> Result<bool, NoMemory>
    requires file { id.file < length tables.now.sets.now.starts }
    ensures known { OnOk result (IsLooked tables.now id own.now looked.new) }
    ensures inside { IfOk result (λ inside. inside ≡ is_inside tables.now id own.now named.now) }
{
    let mut name = replace(&mut looked.name, Text::new(alloc));
    fill(alloc, &mut name, named.bytes())?;
    *looked = look_up(tables, id, own, name);
    Ok(looked.inside)
}

/// What references leave behind: memory that the next ones use, and what was looked up last.
#[derive(Drop)]
pub struct Scratch {
    pub reference: Ref,
    pub key: DesignUnitKey,
    pub other: DesignUnitKey,
    pub looked: Looked,
}

/// Nothing, which takes no memory.
pub fn no_scratch(alloc: Global) -> Scratch {
    Scratch {
        reference: no_ref(alloc),
        key: no_key(alloc),
        other: no_key(alloc),
        looked: Looked {
            known: false,
            inside: false,
            name: Text::new(alloc),
        },
    }
}

/// Puts what isn't used any more where the next one finds its memory.
pub fn hand_back<T: Drop>(room: &mut T, used: T) {
    *room = used;
}

/// Takes up a reference of a file to a library that is looked into: puts in what it names, or finds what is missing.
fn link_inside(
    alloc: Global,
    project: &Project,
    tables: &Tables,
    file: &FileName,
    library: &Text,
    reference: &Ref,
    key: &mut DesignUnitKey,
    other: &mut DesignUnitKey,
    row: &mut PositionSet,
) -> Result<(), LinkFault>
    requires indices { ArePositionsOfFiles FILE_LIMIT tables.now.index }
    requires inside { stands_outside tables.now.libraries library.now ≡ false }
    ensures { (units : List LinkUnit) → Knows project.now units tables.now →
        GivesOrFaults (missing_in project.now units file.now library.now reference.now)
        (λ value. HasAdded (stands_at
        (names_in project.now.bodies units library.now reference.now) units)
        row.old row.new) result }
{
    put_primary_key(alloc, key, library, &reference.name)?;
    let unit_index = find_unit(&tables.index, key);
    check_ref(
        alloc,
        project,
        &tables.libraries,
        &tables.index,
        file,
        library,
        reference,
        key,
        unit_index,
        other,
    )?;
    put_ref(
        alloc,
        row,
        &tables.index,
        project.bodies,
        library,
        reference,
        key,
        unit_index,
        other,
    )?;
    Ok(())
}

/// Takes up a reference of a unit to a library that is visible and looked into.
fn link_ref(
    alloc: Global,
    project: &Project,
    tables: &Tables,
    _id: UnitId,
    file: &FileName,
    reference: &Ref,
    key: &mut DesignUnitKey,
    other: &mut DesignUnitKey,
    row: &mut PositionSet,
) -> Result<(), LinkFault>
    requires indices { ArePositionsOfFiles FILE_LIMIT tables.now.index }
    requires inside { is_inside tables.now _id file.now.library reference.now.library ≡ true }
    ensures { (units : List LinkUnit) (unit : LinkUnit) → Knows project.now units tables.now →
        Stands units tables.now _id file.now unit →
        GivesOrFaults (missing_of project.now units unit reference.now)
        (λ value. HasAdded (stands_at
        (names_unit project.now units unit reference.now) units) row.old row.new) result }
{
    let library = library_of(&file.library, &reference.library);
    link_inside(
        alloc, project, tables, file, library, reference, key, other, row,
    )
}

/// Takes up the reference of a unit by its structure.
fn link_own(
    alloc: Global,
    project: &Project,
    tables: &Tables,
    id: UnitId,
    file: &FileName,
    reference: &Ref,
    scratch: &mut Scratch,
    row: &mut PositionSet,
) -> Result<(), LinkFault>
    requires indices { ArePositionsOfFiles FILE_LIMIT tables.now.index }
    requires file { id.file < length tables.now.sets.now.starts }
    ensures known { OnOk result (IsLooked tables.now id file.now.library scratch.new.looked) }
    ensures links { (units : List LinkUnit) (unit : LinkUnit) → Knows project.now units tables.now →
        Stands units tables.now id file.now unit →
        GivesOrFaults (missing_of project.now units unit reference.now)
        (λ value. HasAdded (stands_at
        (names_unit project.now units unit reference.now) units) row.old row.new) result }
{
    if !look_named(
        alloc,
        tables,
        id,
        &file.library,
        &reference.library,
        &mut scratch.looked,
    )? {
        return Ok(());
    }
    link_ref(
        alloc,
        project,
        tables,
        id,
        file,
        reference,
        &mut scratch.key,
        &mut scratch.other,
        row,
    )
}

/// Takes up the reference of a unit by its structure, if it has one. A configuration configures this architecture.
pub fn link_structural(
    alloc: Global,
    project: &Project,
    tables: &Tables,
    id: UnitId,
    file: &FileName,
    design: &Unit,
    configured: &MaybeText,
    scratch: &mut Scratch,
    row: &mut PositionSet,
) -> Result<(), LinkFault>
    requires indices { ArePositionsOfFiles FILE_LIMIT tables.now.index }
    requires file { id.file < length tables.now.sets.now.starts }
    ensures known { OnOk result (IsLooked tables.now id file.now.library scratch.new.looked) }
    ensures links { (units : List LinkUnit) (unit : LinkUnit) →
        Knows project.now units tables.now → Stands units tables.now id file.now unit →
        LinksRefs project.now units unit
        (structural_of configured.now design.now design.now.kind) row.old row.new result }
{
    scratch.looked.known = false;
    let used = replace(&mut scratch.reference, no_ref(alloc));
    let (is_there, reference) = structural_ref(alloc, design, configured, used)?;
    if !is_there {
        hand_back(&mut scratch.reference, reference);
        return Ok(());
    }
    let linked = link_own(alloc, project, tables, id, file, &reference, scratch, row);
    hand_back(&mut scratch.reference, reference);
    linked
}

/// Takes up a reference by name. Its library alone is named first, and no more where nothing is looked for there.
fn link_named(
    alloc: Global,
    project: &Project,
    tables: &Tables,
    id: UnitId,
    file: &FileName,
    text: &[u8],
    named: &NamedRef,
    scratch: &mut Scratch,
    row: &mut PositionSet,
) -> Result<(), LinkFault>
    requires indices { ArePositionsOfFiles FILE_LIMIT tables.now.index }
    requires file { id.file < length tables.now.sets.now.starts }
    requires lies { NamedLiesIn text.now named.now }
    requires known { IsLooked tables.now id file.now.library scratch.old.looked }
    ensures known { OnOk result (IsLooked tables.now id file.now.library scratch.new.looked) }
    ensures links { (units : List LinkUnit) (unit : LinkUnit) → Knows project.now units tables.now →
        Stands units tables.now id file.now unit →
        GivesOrFaults (missing_of project.now units unit (named_ref text.now named.now))
        (λ value. HasAdded (stands_at (names_unit project.now units unit
        (named_ref text.now named.now)) units) row.old row.new) result }
{
    let looked = &mut scratch.looked;
    if !look_at(
        alloc,
        tables,
        id,
        &file.library,
        text,
        named.library,
        looked,
    )? {
        return Ok(());
    }
    let used = replace(&mut scratch.reference, no_ref(alloc));
    let reference = ref_in(alloc, text, named, used)?;
    let linked = link_ref(
        alloc,
        project,
        tables,
        id,
        file,
        &reference,
        &mut scratch.key,
        &mut scratch.other,
        row,
    );
    hand_back(&mut scratch.reference, reference);
    linked
}

/// Takes up the references of a unit by name.
pub fn link_refs(
    alloc: Global,
    project: &Project,
    tables: &Tables,
    id: UnitId,
    file: &FileName,
    text: &[u8],
    refs: &[NamedRef],
    scratch: &mut Scratch,
    row: &mut PositionSet,
) -> Result<(), LinkFault>
    requires indices { ArePositionsOfFiles FILE_LIMIT tables.now.index }
    requires file { id.file < length tables.now.sets.now.starts }
    requires lie { All (NamedLiesIn text.now) refs.now }
    requires known { IsLooked tables.now id file.now.library scratch.old.looked }
    ensures { (units : List LinkUnit) (unit : LinkUnit) → Knows project.now units tables.now →
        Stands units tables.now id file.now unit →
        LinksRefs project.now units unit
        (map (named_ref text.now) refs.now) row.old row.new result }
{
    for named in refs {
        link_named(alloc, project, tables, id, file, text, named, scratch, row)?;
    }
    Ok(())
}
