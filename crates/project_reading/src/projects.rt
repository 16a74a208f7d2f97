//! The project that the project file of a tree says.

ghost use Rattle.std.specs.Prelude.{◌≡◌, ◌≤◌, ◌∷◌, [], ℕ, length, codes, Result, Ok, Err, IfOk, IfSome};
ghost use Rattle.base.specs.declared.project.Project.{Project as Said};
ghost use Rattle.base.specs.declared.project.ProjectFault.{ProjectFault as Fault};
ghost use Rattle.base.specs.Projects.{IsProject};
ghost use Rattle.outside.specs.Trees.{read_end, names_end, IsListing, FitsReadLimit};
ghost use Rattle.project_file.specs.Csv.{csv_project};
ghost use Rattle.project_file.specs.Toml.{toml_project};
ghost use Rattle.project_file.specs.Steps.{ReadsStep};
ghost use Rattle.project_reading.specs.Reading.{project_or, csv_said, toml_said, project_in};
ghost use Rattle.project_file.specs.Few.{few_said};
ghost use Rattle.project_reading.specs.Sources.{GivesProject, ReadCounts};
ghost use Rattle.project_reading.specs.Asked.{project_file_paths, AsksInOrder};

use crate::asking::{list_names, read_file};
use crate::stops::ReadStop;
use base::{FILE_LIMIT, NAME_LIMIT, OrMemory, Project, ProjectFault, TEXT_LIMIT, Text, TextList};
use base_outcomes::{Limit, Refusal};
use outside::{NamesEnd, ReadEnd, Tree};
use project_file::{read_csv_project, read_toml_project};
use std::alloc::Global;

/// The most bytes of a project file.
const MOST_TEXT: u64 = TEXT_LIMIT as u64;

/// The most names that are listed.
const MOST_NAMES: u64 = NAME_LIMIT as u64;

/// The most files of a project.
const MOST_FILES: u64 = FILE_LIMIT as u64;

/// Why nothing is compiled where a project file has a fault.
fn project_stop(fault: OrMemory<ProjectFault>) -> ReadStop
    ensures stop { (said : Result Said Fault) → ReadsStep said (Err fault) →
        GivesProject (project_or said) (Err result) }
    ensures few { (said : Result Said Fault) → ReadsStep (few_said said) (Err fault) →
        GivesProject (project_or said) (Err result) }
    ensures cause { (count : ℕ) → ReadCounts {T = Said} (Err result) count count }
{
    match fault {
        OrMemory::NoMemory => ReadStop::NoMemory,
        OrMemory::Fault(fault) => ReadStop::Refused(Refusal::Project { fault }),
    }
}

/// The project of the bytes of a project file of lines.
fn csv_said(alloc: Global, bytes: &[u8]) -> Result<Project, ReadStop>
    requires { length bytes.now ≤ TEXT_LIMIT }
    ensures project { GivesProject (project_or (csv_project bytes.now)) result }
    ensures valid { IfOk result IsProject }
    ensures cause { (count : ℕ) → ReadCounts result count count }
{
    match read_csv_project(alloc, bytes) {
        Ok(project) => Ok(project),
        Err(fault) => Err(project_stop(fault)),
    }
}

/// The project of a TOML file that has no fault, unless it has more files than may be.
fn few_or_over(read: Option<Project>) -> Result<Project, ReadStop>
    requires { IfSome read IsProject }
    ensures project { (said : Result Said Fault) → few_said said ≡ Ok read →
        GivesProject (project_or said) result }
    ensures valid { IfOk result IsProject }
    ensures cause { (count : ℕ) → ReadCounts result count count }
{
    match read {
        Some(project) => Ok(project),
        None => Err(ReadStop::Over(Limit::Files, MOST_FILES)),
    }
}

/// The project of the bytes of a TOML file, over the names that are listed.
fn toml_said(alloc: Global, bytes: &[u8], names: &TextList) -> Result<Project, ReadStop>
    requires { IsListing NAME_LIMIT (NamesEnd.Got names.now) }
    ensures project { GivesProject (project_or (toml_project bytes.now names.now)) result }
    ensures valid { IfOk result IsProject }
    ensures cause { (count : ℕ) → ReadCounts result count count }
{
    match read_toml_project(alloc, bytes, names) {
        Ok(read) => few_or_over(read),
        Err(fault) => Err(project_stop(fault)),
    }
}

/// The project of a TOML file, over the names that a tree lists.
fn read_toml<T: Tree>(alloc: Global, tree: &mut T, bytes: Text) -> Result<Project, ReadStop>
    ensures project { T.tells →
        GivesProject (toml_said bytes (names_end (T.listed tree.old) NAME_LIMIT)) result }
    ensures valid { IfOk result IsProject }
    ensures same { T.file tree.new ≡ T.file tree.old }
    ensures same_list { T.listed tree.new ≡ T.listed tree.old }
    ensures kept { T.kept tree.new ≡ T.kept tree.old }
    ensures asked { T.asked tree.new ≡ T.asked tree.old }
    ensures cause { ReadCounts result (T.failed_reads tree.old) (T.failed_reads tree.new) }
{
    match list_names(alloc, tree, MOST_NAMES)? {
        NamesEnd::Got(names) => toml_said(alloc, bytes.bytes(), &names),
        NamesEnd::TooMany => Err(ReadStop::Over(Limit::Names, MOST_NAMES)),
    }
}

/// The project in a tree that has no `vunit.toml`.
fn read_csv<T: Tree>(alloc: Global, tree: &mut T) -> Result<Project, ReadStop>
    ensures project { T.tells →
        let read = read_end (T.file tree.old (codes "vunit.csv")) TEXT_LIMIT in
        GivesProject (csv_said read) result }
    ensures valid { IfOk result IsProject }
    ensures same { T.file tree.new ≡ T.file tree.old }
    ensures same_list { T.listed tree.new ≡ T.listed tree.old }
    ensures kept { T.kept tree.new ≡ T.kept tree.old }
    ensures asked { AsksInOrder result (codes "vunit.csv" ∷ [])
        (T.asked tree.old) (T.asked tree.new) }
    ensures cause { ReadCounts result (T.failed_reads tree.old) (T.failed_reads tree.new) }
{
    let path = Text::from_slice(alloc, b"vunit.csv")?;
    match read_file(alloc, tree, &path, MOST_TEXT)? {
        ReadEnd::Absent => Err(ReadStop::Refused(Refusal::NoProject)),
        ReadEnd::TooLong => Err(ReadStop::Over(Limit::TextBytes, MOST_TEXT)),
        ReadEnd::Got(bytes) => csv_said(alloc, bytes.bytes()),
    }
}

/// The project in a tree, or why the reading stops.
#[tactic(auto, unfolding(crate::specs::Reading::project_in))]
pub(crate) fn find_project<T: Tree>(alloc: Global, tree: &mut T) -> Result<Project, ReadStop>
    ensures project { T.tells →
        GivesProject (project_in (T.file tree.old) (T.listed tree.old)) result }
    ensures valid { IfOk result IsProject }
    ensures same { T.file tree.new ≡ T.file tree.old }
    ensures same_list { T.listed tree.new ≡ T.listed tree.old }
    ensures kept { T.kept tree.new ≡ T.kept tree.old }
    ensures asked { T.tells →
        AsksInOrder result (project_file_paths (T.file tree.old))
        (T.asked tree.old) (T.asked tree.new) }
    ensures cause { ReadCounts result (T.failed_reads tree.old) (T.failed_reads tree.new) }
{
    let path = Text::from_slice(alloc, b"vunit.toml")?;
    match read_file(alloc, tree, &path, MOST_TEXT)? {
        ReadEnd::Absent => read_csv(alloc, tree),
        ReadEnd::TooLong => Err(ReadStop::Over(Limit::TextBytes, MOST_TEXT)),
        ReadEnd::Got(bytes) => read_toml(alloc, tree, bytes),
    }
}
