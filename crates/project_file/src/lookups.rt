//! Whether files are in a project whose files aren't kept, by its libraries.

ghost use Rattle.std.specs.Prelude.{◌≡◌, ◌≢◌, [], Ok, IfOk, AllPairs, List, ℕ, length, map};
ghost use Rattle.std.specs.List.{list_any};
ghost use Rattle.toml.specs.View.{table_view};
ghost use Rattle.base.specs.declared.project.ProjectFile.{ProjectFile as project_file};
ghost use Rattle.project_file.specs.Paths.{matches_path};
ghost use Rattle.project_file.specs.Steps.{ReadsStep};
ghost use Rattle.project_file.specs.Libraries.{alone};
ghost use Rattle.project_file.specs.Toml.{files_of, index_of_file, pairs_of};
ghost use Rattle.project_file.specs.Few.{among_files, checked_pair, faults_of, has_path, is_wanted, AreLibraries, IsLookup};

use crate::keys::texts_at;
use crate::libraries::alone;
use crate::pairs::named_file;
use crate::paths::{matches_path, parts_of};
use crate::values::Form;
use base::{FileName, NoMemory, OrMemory, ProjectFault, Text};
use base_collections::Numbered;
use std::alloc::Global;
use toml::Table;

/// All names, as keys.
fn index_of(alloc: Global, names: &[Text]) -> Result<Numbered<FileName>, NoMemory>
    requires distinct { AllPairs (λ name other. name ≢ other) names.now }
    ensures { IfOk result (λ paths. paths.keys ≡ map alone names.now) }
{
    let mut paths = Numbered::new(alloc);
    for i in 0..names.len() {
        paths.add(alone(alloc, &names[i])?)?;
    }
    Ok(paths)
}

/// Whether a pattern matches a path.
fn is_matched(alloc: Global, pattern: &Text, path: &[u8]) -> Result<bool, NoMemory>
    ensures { IfOk result (λ is. is ≡ matches_path pattern.now path.now) }
{
    let parts = parts_of(alloc, pattern.bytes())?;
    matches_path(alloc, parts.as_slice(), path)
}

/// Whether one of patterns matches a path.
fn any_matches(alloc: Global, patterns: &[Text], path: &[u8]) -> Result<bool, NoMemory>
    ensures { IfOk result (λ any.
        any ≡ list_any (λ pattern. matches_path pattern path.now) patterns.now) }
{
    for i in 0..patterns.len() {
        if is_matched(alloc, &patterns[i], path)? {
            return Ok(true);
        }
    }
    Ok(false)
}

/// Whether one of the patterns of a table's library matches a path.
#[tactic(auto, using(crate::proofs::LibrarySum::fault_ends))]
fn is_wanted(alloc: Global, path: &Text, table: &Table) -> Result<bool, OrMemory<ProjectFault>>
    ensures { ReadsStep (is_wanted path.now (table_view table.now)) result }
{
    let patterns = texts_at(alloc, Form::Pattern, "library.", "files", table)?;
    Ok(any_matches(alloc, patterns.as_slice(), path.bytes())?)
}

/// Whether the library of a table has a path.
fn has_path(
    alloc: Global,
    paths: &Numbered<FileName>,
    path: &Text,
    table: &Table,
) -> Result<bool, OrMemory<ProjectFault>>
    ensures { (names : List (List ℕ)) → paths.now.keys ≡ map alone names →
        ReadsStep (has_path names path.now (table_view table.now)) result }
{
    let key = alone(alloc, path)?;
    match paths.number(&key) {
        None => Ok(false),
        Some(_index) => is_wanted(alloc, path, table),
    }
}

/// Whether a project has a file, by the tables of its libraries and all names.
fn has_file(
    alloc: Global,
    tables: &[&Table],
    libraries: &Numbered<FileName>,
    paths: &Numbered<FileName>,
    name: &FileName,
) -> Result<bool, OrMemory<ProjectFault>>
    requires as_many { length libraries.now.keys ≡ length tables.now }
    ensures { (names compiler : List (List ℕ)) (files : List project_file) →
        IsLookup names compiler (map (λ t. table_view t.now) tables.now)
        libraries.now.keys paths.now.keys files →
        ReadsStep (Ok (among_files files name.now)) result }
{
    let library = alone(alloc, &name.library)?;
    match libraries.number(&library) {
        Some(file_index) => has_path(alloc, paths, &name.path, tables[file_index]),
        None => Ok(false),
    }
}

/// Checks that the project has a file of this name.
#[tactic(auto, using(crate::proofs::FewFiles::index_there, crate::proofs::FewFiles::no_index_there))]
fn check_index(
    alloc: Global,
    tables: &[&Table],
    libraries: &Numbered<FileName>,
    paths: &Numbered<FileName>,
    name: FileName,
) -> Result<(), OrMemory<ProjectFault>>
    requires as_many { length libraries.now.keys ≡ length tables.now }
    ensures { (names compiler : List (List ℕ)) (files : List project_file) →
        IsLookup names compiler (map (λ t. table_view t.now) tables.now)
        libraries.now.keys paths.now.keys files →
        ReadsStep (faults_of (index_of_file files name)) result }
{
    if has_file(alloc, tables, libraries, paths, &name)? {
        return Ok(());
    }
    Err(OrMemory::Fault(ProjectFault::UnknownDependency { name }))
}

/// The first fault in the table of a dependency, if it has one: its two files must be files of the project.
#[tactic(auto, using(crate::proofs::LibrarySum::fault_ends))]
fn check_pair(
    alloc: Global,
    tables: &[&Table],
    libraries: &Numbered<FileName>,
    paths: &Numbered<FileName>,
    table: &Table,
) -> Result<(), OrMemory<ProjectFault>>
    requires as_many { length libraries.now.keys ≡ length tables.now }
    ensures { (names compiler : List (List ℕ)) (files : List project_file) →
        IsLookup names compiler (map (λ t. table_view t.now) tables.now)
        libraries.now.keys paths.now.keys files →
        ReadsStep (checked_pair files (table_view table.now)) result }
{
    let user = named_file(alloc, "library", "path", table)?;
    let used = named_file(alloc, "on_library", "on_path", table)?;
    check_index(alloc, tables, libraries, paths, user)?;
    check_index(alloc, tables, libraries, paths, used)
}

/// The first fault in the dependencies of a project whose files aren't kept, if there is one.
pub fn check_pairs(
    alloc: Global,
    names: &[Text],
    tables: &[&Table],
    libraries: &Numbered<FileName>,
    pairs: &[&Table],
) -> Result<(), OrMemory<ProjectFault>>
    requires distinct { AllPairs (λ name other. name ≢ other) names.now }
    requires as_many { length libraries.now.keys ≡ length tables.now }
    ensures { (compiler : List (List ℕ)) (files : List project_file) →
        files_of names.now compiler [] (map (λ t. table_view t.now) tables.now) ≡ Ok files →
        AreLibraries (map (λ t. table_view t.now) tables.now) libraries.now.keys →
        ReadsStep (faults_of (pairs_of files (map (λ t. table_view t.now) pairs.now))) result }
{
    let paths = index_of(alloc, names)?;
    for i in 0..pairs.len() {
        check_pair(alloc, tables, libraries, &paths, pairs[i])?;
    }
    Ok(())
}
