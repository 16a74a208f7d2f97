//! The libraries of a TOML table, and their files.

ghost use Rattle.std.specs.Prelude.{◌≡◌, ◌≢◌, ◌<◌, ◌≤◌, ◌+◌, ◌++◌, [], ◌∷◌, List, ℕ, Ok, Some, nat_le, length, map, AllPairs, All, IfOk, IfErr, OnOk};
ghost use Rattle.base_collections.specs.Numbers.{IsAdded};
ghost use Rattle.toml.specs.View.{table_view};
ghost use Rattle.project_file.specs.Toml.{new_library, library_after, matching_names, file_in, library_files, files_of};
ghost use Rattle.project_file.specs.Csv.{then_read};
ghost use Rattle.project_file.specs.Steps.{ReadsStep};
ghost use Rattle.project_file.specs.Libraries.{alone, libraries_of, AddsLibrary, texts_at, AreIndices, AddsWanted, TakesMatching, TakesNames, FailsTable};
ghost use Rattle.project_file.specs.Few.{few_files, few_with, AddsTable, AreLibraries};

use crate::checks::check_library;
use crate::csv::is_same;
use crate::keys::{text_at, texts_at, words_at};
use crate::paths::{either, matches_path, parts_of};
use crate::values::Form;
use base::{
    FILE_LIMIT, FileName, NoMemory, OrMemory, ProjectFault, ProjectFile, ProjectFileList, Text,
    TextList,
};
use base_collections::{NumberSet, Numbered};
use std::alloc::Global;
use toml::Table;

/// A library without a path.
pub fn alone(alloc: Global, library: &Text) -> Result<FileName, NoMemory>
    ensures { IfOk result (λ name. name ≡ alone library.now) }
{
    Ok(FileName {
        library: library.copy(alloc)?,
        path: Text::new(alloc),
    })
}

/// Adds a library to those before it, unless it is one of them.
#[tactic(auto, using(crate::proofs::LibrarySteps::work_is, crate::proofs::LibrarySteps::came_is, crate::proofs::LibrarySteps::new_is))]
fn add_library(
    alloc: Global,
    before: &mut Numbered<FileName>,
    library: Text,
) -> Result<Text, OrMemory<ProjectFault>>
    ensures { before.old.keys ≡ map alone (libraries_of before.old.keys) →
        AddsLibrary before.old.keys before.new.keys
        (new_library (libraries_of before.old.keys) library) result }
{
    if is_same(library.bytes(), b"work") {
        return Err(OrMemory::Fault(ProjectFault::WorkLibrary));
    }
    let key = alone(alloc, &library)?;
    match before.number(&key) {
        Some(_known) => Err(OrMemory::Fault(ProjectFault::DuplicateLibrary { name: library })),
        None => {
            before.add(key)?;
            Ok(library)
        }
    }
}

/// The library that a table names, after those before it.
#[tactic(auto, unfolding(crate::specs::Toml::library_after))]
fn library_after(
    alloc: Global,
    before: &mut Numbered<FileName>,
    table: &Table,
) -> Result<Text, OrMemory<ProjectFault>>
    ensures { before.old.keys ≡ map alone (libraries_of before.old.keys) →
        AddsLibrary before.old.keys before.new.keys
        (library_after (libraries_of before.old.keys) (table_view table.now)) result }
{
    let library = text_at(alloc, Form::Library, "library.", "name", table)?;
    add_library(alloc, before, library)
}

/// Adds an index where it is wanted.
fn add_wanted(found: &mut NumberSet, file_index: usize, wanted: bool) -> Result<(), NoMemory>
    requires { file_index < found.old.size }
    ensures { OnOk result (AddsWanted wanted file_index found.old found.new) }
{
    if !wanted {
        return Ok(());
    }
    found.add(file_index)?;
    Ok(())
}

/// Takes the names that a pattern matches, and says whether there are any.
fn take_matching(
    alloc: Global,
    names: &[Text],
    pattern: &[u8],
    found: &mut NumberSet,
) -> Result<bool, NoMemory>
    requires distinct { AllPairs (λ name other. name ≢ other) names.now }
    requires indices { AreIndices names.now found.old }
    ensures { IfOk result (TakesMatching names.now pattern.now found.old found.new) }
{
    let parts = parts_of(alloc, pattern)?;
    let mut any = false;
    for i in 0..names.len() {
        let wanted = matches_path(alloc, parts.as_slice(), names[i].bytes())?;
        add_wanted(found, i, wanted)?;
        any = either(any, wanted);
    }
    Ok(any)
}

/// Takes the names that patterns match, pattern by pattern.
#[tactic(auto, using(crate::proofs::MatchSteps::goes_on, crate::proofs::MatchSteps::stops, crate::proofs::MatchSteps::all_taken))]
fn take_names(
    alloc: Global,
    names: &[Text],
    patterns: &[Text],
    found: &mut NumberSet,
) -> Result<(), OrMemory<ProjectFault>>
    requires distinct { AllPairs (λ name other. name ≢ other) names.now }
    requires indices { AreIndices names.now found.old }
    ensures { TakesNames names.now patterns.now found.old found.new result }
{
    for i in 0..patterns.len() {
        if !take_matching(alloc, names, patterns[i].bytes(), found)? {
            let pattern = patterns[i].copy(alloc)?;
            return Err(OrMemory::Fault(ProjectFault::NothingMatches { pattern }));
        }
    }
    Ok(())
}

/// The words of one command, and then those of another.
fn join_commands(alloc: Global, first: &[Text], second: &[Text]) -> Result<TextList, NoMemory>
    ensures { IfOk result (λ words. words ≡ first.now ++ second.now) }
{
    let mut words = TextList::new(alloc);
    for i in 0..first.len() {
        words.push(first[i].copy(alloc)?)?;
    }
    for i in 0..second.len() {
        words.push(second[i].copy(alloc)?)?;
    }
    Ok(words)
}

/// The file of a path in a library, with its compiler's command.
fn file_in(
    alloc: Global,
    library: &Text,
    command: &[Text],
    path: &Text,
) -> Result<ProjectFile, NoMemory>
    ensures { IfOk result (λ file. file ≡ file_in library.now command.now path.now) }
{
    Ok(ProjectFile {
        name: FileName {
            library: library.copy(alloc)?,
            path: path.copy(alloc)?,
        },
        command: join_commands(alloc, command, &[])?,
    })
}

/// Adds the files of a library at indices of names.
fn add_files(
    alloc: Global,
    files: &mut ProjectFileList,
    library: &Text,
    command: &[Text],
    names: &[Text],
    indices: &[usize],
) -> Result<(), NoMemory>
    requires { All (λ file_index. file_index < length names.now) indices.now }
    ensures { OnOk result (files.new ≡
        files.old ++ map (file_in library.now command.now) (texts_at names.now indices.now)) }
{
    for i in 0..indices.len() {
        files.push(file_in(alloc, library, command, &names[indices[i]])?)?;
    }
    Ok(())
}

/// Whether a project may have `count` files and `more` files together.
fn has_room(count: usize, more: usize) -> bool
    ensures { result ≡ nat_le (count + more) FILE_LIMIT }
{
    more <= FILE_LIMIT && count <= FILE_LIMIT - more
}

/// The files so far, and then the files of a library at indices of names. `None` if a project may not have these
/// together.
fn add_few(
    alloc: Global,
    files: ProjectFileList,
    library: &Text,
    command: &[Text],
    names: &[Text],
    indices: &[usize],
) -> Result<Option<ProjectFileList>, NoMemory>
    requires { All (λ file_index. file_index < length names.now) indices.now }
    ensures { IfOk result (λ kept. kept ≡ few_with (Some files)
        (map (file_in library.now command.now) (texts_at names.now indices.now))) }
{
    if !has_room(files.as_slice().len(), indices.len()) {
        return Ok(None);
    }
    let mut files = files;
    add_files(alloc, &mut files, library, command, names, indices)?;
    Ok(Some(files))
}

/// The files so far, and then the files of a library. `None` if a project may not have these together.
#[tactic(auto, unfolding(crate::specs::Toml::library_files))]
fn add_library_files(
    alloc: Global,
    files: ProjectFileList,
    names: &[Text],
    compiler: &[Text],
    library: &Text,
    table: &Table,
    found: &mut NumberSet,
) -> Result<Option<ProjectFileList>, OrMemory<ProjectFault>>
    requires distinct { AllPairs (λ name other. name ≢ other) names.now }
    requires size { length names.now ≤ found.old.size }
    ensures added { ReadsStep (then_read
        (library_files names.now compiler.now library.now (table_view table.now))
        (λ more. Ok (few_with (Some files) more))) result }
    ensures size { OnOk result (length names.now ≤ found.new.size) }
{
    let patterns = texts_at(alloc, Form::Pattern, "library.", "files", table)?;
    found.clear();
    take_names(alloc, names, patterns.as_slice(), found)?;
    let options = words_at(alloc, "library.", "options", table)?;
    let command = join_commands(alloc, compiler, options.as_slice())?;
    let kept = add_few(
        alloc,
        files,
        library,
        command.as_slice(),
        names,
        found.as_slice(),
    )?;
    Ok(kept)
}

/// The files so far, and then the files of a library. `None` if a project may not have these together; then only the
/// faults of the library are looked for.
fn add_or_check(
    alloc: Global,
    files: Option<ProjectFileList>,
    names: &[Text],
    compiler: &[Text],
    library: &Text,
    table: &Table,
    found: &mut NumberSet,
) -> Result<Option<ProjectFileList>, OrMemory<ProjectFault>>
    requires distinct { AllPairs (λ name other. name ≢ other) names.now }
    requires size { length names.now ≤ found.old.size }
    ensures added { ReadsStep (then_read
        (library_files names.now compiler.now library.now (table_view table.now))
        (λ more. Ok (few_with files more))) result }
    ensures size { OnOk result (length names.now ≤ found.new.size) }
{
    match files {
        Some(files) => add_library_files(alloc, files, names, compiler, library, table, found),
        None => check_library(alloc, names, table),
    }
}

/// The files so far with those of a table's library, after those of the tables before it.
#[tactic(auto, using(crate::proofs::LibrarySum::no_library, crate::proofs::LibrarySum::no_files, crate::proofs::LibrarySum::files_more, crate::proofs::LibrarySum::library_fault))]
fn add_table(
    alloc: Global,
    files: Option<ProjectFileList>,
    before: &mut Numbered<FileName>,
    found: &mut NumberSet,
    names: &[Text],
    compiler: &[Text],
    table: &Table,
) -> Result<Option<ProjectFileList>, OrMemory<ProjectFault>>
    requires distinct { AllPairs (λ name other. name ≢ other) names.now }
    requires size { length names.now ≤ found.old.size }
    requires keys { before.old.keys ≡ map alone (libraries_of before.old.keys) }
    ensures added { IfOk result (AddsTable names.now compiler.now (table_view table.now)
        before.old.keys before.new.keys files) }
    ensures fails { IfErr result
        (FailsTable names.now compiler.now (table_view table.now) before.old.keys) }
    ensures size { OnOk result (length names.now ≤ found.new.size) }
{
    let library = library_after(alloc, before, table)?;
    let kept = add_or_check(alloc, files, names, compiler, &library, table, found)?;
    Ok(kept)
}

/// The files of libraries, or `None` if a project may not have these together; and the libraries.
#[tactic(auto, using(crate::proofs::LibrarySum::table_more, crate::proofs::LibrarySum::table_fails, crate::proofs::LibrarySum::files_all))]
pub fn files_of(
    alloc: Global,
    names: &[Text],
    compiler: &[Text],
    tables: &[&Table],
    libraries: &mut Numbered<FileName>,
) -> Result<Option<ProjectFileList>, OrMemory<ProjectFault>>
    requires distinct { AllPairs (λ name other. name ≢ other) names.now }
    requires new { libraries.old.keys ≡ [] }
    ensures files { ReadsStep (then_read
        (files_of names.now compiler.now [] (map (λ t. table_view t.now) tables.now))
        (λ files. Ok (few_files files))) result }
    ensures libraries { OnOk result
        (AreLibraries (map (λ t. table_view t.now) tables.now) libraries.new.keys) }
{
    let mut files = Some(ProjectFileList::new(alloc));
    let mut found = NumberSet::new(alloc);
    found.grow_to(names.len())?;
    for i in 0..tables.len() {
        let table = tables[i];
        files = add_table(alloc, files, libraries, &mut found, names, compiler, table)?;
    }
    Ok(files)
}
