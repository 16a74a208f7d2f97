//! The dependencies that a TOML table names itself.

ghost use Rattle.std.specs.Prelude.{◌≡◌, ◌≢◌, List, map, AllPairs, IfOk};
ghost use Rattle.toml.specs.View.{table_view};
ghost use Rattle.base.specs.declared.project.ProjectFile.{ProjectFile as project_file};
ghost use Rattle.project_file.specs.Toml.{index_of_file, named_file, pair_of, pairs_of};
ghost use Rattle.project_file.specs.Steps.{ReadsStep};
ghost use Rattle.project_file.specs.Pairs.{names_of, IsIndexOf};

use crate::keys::text_at;
use crate::values::Form;
use base::{FileName, NoMemory, OrMemory, Pair, PairList, ProjectFault, ProjectFile};
use base_collections::Numbered;
use std::alloc::Global;
use toml::Table;

/// An index of the names of files.
#[tactic(auto, using(crate::proofs::PairSteps::name_more))]
fn index_of(alloc: Global, files: &[ProjectFile]) -> Result<Numbered<FileName>, NoMemory>
    requires { AllPairs (λ name other. name ≢ other) (names_of files.now) }
    ensures { IfOk result (λ index. IsIndexOf files.now index.keys) }
{
    let mut index = Numbered::new(alloc);
    for i in 0..files.len() {
        index.add(files[i].name.copy(alloc)?)?;
    }
    Ok(index)
}

/// The index of a file.
#[tactic(auto, using(crate::proofs::PairSteps::index_is, crate::proofs::PairSteps::no_index))]
fn index_of_file(index: &Numbered<FileName>, name: FileName) -> Result<u64, OrMemory<ProjectFault>>
    ensures { (files : List project_file) → IsIndexOf files index.now.keys →
        ReadsStep (index_of_file files name) result }
{
    match index.number(&name) {
        Some(file_index) => Ok(file_index as u64),
        None => Err(OrMemory::Fault(ProjectFault::UnknownDependency { name })),
    }
}

/// The file that two keys of a table name.
#[tactic(auto, using(crate::proofs::LibrarySum::fault_ends))]
pub fn named_file(
    alloc: Global,
    library: &str,
    path: &str,
    table: &Table,
) -> Result<FileName, OrMemory<ProjectFault>>
    ensures { ReadsStep (named_file library.now path.now (table_view table.now)) result }
{
    let library = text_at(alloc, Form::Library, "depends.", library, table)?;
    let path = text_at(alloc, Form::Path, "depends.", path, table)?;
    Ok(FileName { library, path })
}

/// The dependency that a table names.
#[tactic(auto, using(crate::proofs::LibrarySum::fault_ends), unfolding(crate::specs::Toml::pair_of))]
fn pair_of(
    alloc: Global,
    index: &Numbered<FileName>,
    table: &Table,
) -> Result<Pair, OrMemory<ProjectFault>>
    ensures { (files : List project_file) → IsIndexOf files index.now.keys →
        ReadsStep (pair_of files (table_view table.now)) result }
{
    let user = named_file(alloc, "library", "path", table)?;
    let used = named_file(alloc, "on_library", "on_path", table)?;
    let user = index_of_file(index, user)?;
    let used = index_of_file(index, used)?;
    Ok(Pair { user, used })
}

/// The dependencies that tables name.
#[tactic(auto, using(crate::proofs::PairSteps::pair_more, crate::proofs::PairSteps::pair_fails, crate::proofs::PairSteps::pairs_all))]
pub fn pairs_of(
    alloc: Global,
    files: &[ProjectFile],
    tables: &[&Table],
) -> Result<PairList, OrMemory<ProjectFault>>
    requires { AllPairs (λ name other. name ≢ other) (names_of files.now) }
    ensures { ReadsStep (pairs_of files.now (map (λ t. table_view t.now) tables.now)) result }
{
    let mut pairs = PairList::new(alloc);
    let index = index_of(alloc, files)?;
    for i in 0..tables.len() {
        pairs.push(pair_of(alloc, &index, tables[i])?)?;
    }
    Ok(pairs)
}
