//! A project file in TOML.

ghost use Rattle.std.specs.Prelude.{◌≡◌, ◌≢◌, [], ℕ, None, Ok, List, All, AllPairs, MatchResult, IfOk, IfSome, length, map};
ghost use Rattle.toml.specs.Parse.{parse_document};
ghost use Rattle.toml.specs.View.{table_view};
ghost use Rattle.base.specs.declared.limits.TheConstants.{PATH_LIMIT};
ghost use Rattle.base.specs.Names.{IsBetween};
ghost use Rattle.base.specs.Projects.{IsProject};
ghost use Rattle.base.specs.declared.project.ProjectFile.{ProjectFile as project_file};
ghost use Rattle.project_file.specs.Csv.{then_read};
ghost use Rattle.project_file.specs.Few.{few_files, few_said, checked_links, AreLibraries};
ghost use Rattle.project_file.specs.Toml.{files_of, linked_project, files_project, table_project, toml_project};
ghost use Rattle.project_file.specs.Steps.{ReadsStep};
ghost use Rattle.project_file.specs.Pairs.{names_of};

use crate::keys::{any_tables_at, command_at, flag_at, libraries_at, tables_at};
use crate::libraries::files_of;
use crate::lookups::check_pairs;
use crate::pairs::pairs_of;
use base::{
    FileName, OrMemory, PATH_LIMIT, Project, ProjectFault, ProjectFileList, Text, TextList,
};
use base_collections::Numbered;
use std::alloc::Global;
use toml::Table;

/// The settings of a project file.
#[derive(Drop)]
struct Settings {
    compiler: TextList,
    simulator: TextList,
    external: TextList,
    bodies: bool,
}

/// The project of these files and settings, with the dependencies of a table.
#[tactic(auto, using(crate::proofs::LibrarySum::fault_ends), unfolding(crate::specs::Toml::linked_project))]
fn linked_project(
    alloc: Global,
    table: &Table,
    files: ProjectFileList,
    settings: Settings,
) -> Result<Project, OrMemory<ProjectFault>>
    requires { AllPairs (λ name other. name ≢ other) (names_of files) }
    ensures { ReadsStep (linked_project files settings.simulator settings.external settings.bodies
        (table_view table.now)) result }
{
    let tables = any_tables_at(alloc, "depends", table)?;
    let depends = pairs_of(alloc, files.as_slice(), tables.as_slice())?;
    Ok(Project {
        files,
        simulator: settings.simulator,
        external: settings.external,
        bodies: settings.bodies,
        depends,
        listed: false,
    })
}

/// The first fault in the dependencies of a table, if there is one. Its libraries have more files than a project may
/// have.
#[tactic(auto, using(crate::proofs::LibrarySum::fault_ends))]
fn check_links(
    alloc: Global,
    table: &Table,
    names: &[Text],
    tables: &[&Table],
    libraries: &Numbered<FileName>,
) -> Result<(), OrMemory<ProjectFault>>
    requires distinct { AllPairs (λ name other. name ≢ other) names.now }
    requires as_many { length libraries.now.keys ≡ length tables.now }
    ensures { (compiler : List (List ℕ)) (files : List project_file) →
        files_of names.now compiler [] (map (λ t. table_view t.now) tables.now) ≡ Ok files →
        AreLibraries (map (λ t. table_view t.now) tables.now) libraries.now.keys →
        ReadsStep (checked_links files (table_view table.now)) result }
{
    let pairs = any_tables_at(alloc, "depends", table)?;
    check_pairs(alloc, names, tables, libraries, pairs.as_slice())
}

/// The project of these files, or the first fault in the dependencies of a table. `None` if the files weren't kept and
/// there is no fault.
fn few_linked(
    alloc: Global,
    table: &Table,
    names: &[Text],
    tables: &[&Table],
    libraries: &Numbered<FileName>,
    files: Option<ProjectFileList>,
    settings: Settings,
) -> Result<Option<Project>, OrMemory<ProjectFault>>
    requires distinct { AllPairs (λ name other. name ≢ other) names.now }
    requires as_many { length libraries.now.keys ≡ length tables.now }
    requires libraries { AreLibraries (map (λ t. table_view t.now) tables.now) libraries.now.keys }
    requires files { then_read
        (files_of names.now settings.compiler [] (map (λ t. table_view t.now) tables.now))
        (λ files. Ok (few_files files)) ≡ Ok files }
    ensures { ReadsStep (few_said (then_read
        (files_of names.now settings.compiler [] (map (λ t. table_view t.now) tables.now))
        (λ files. linked_project files settings.simulator settings.external settings.bodies
        (table_view table.now)))) result }
{
    match files {
        Some(files) => {
            let project = linked_project(alloc, table, files, settings)?;
            Ok(Some(project))
        }
        None => {
            check_links(alloc, table, names, tables, libraries)?;
            Ok(None)
        }
    }
}

/// The project of these settings, with the libraries and the dependencies of a table.
#[tactic(auto, using(crate::proofs::LibrarySum::fault_ends), unfolding(crate::specs::Toml::files_project))]
fn files_project(
    alloc: Global,
    table: &Table,
    names: &[Text],
    settings: Settings,
) -> Result<Option<Project>, OrMemory<ProjectFault>>
    requires distinct { AllPairs (λ name other. name ≢ other) names.now }
    ensures { ReadsStep (few_said (files_project names.now settings.compiler settings.simulator
        settings.external settings.bodies (table_view table.now))) result }
{
    let tables = tables_at(alloc, "library", table)?;
    let mut libraries = Numbered::new(alloc);
    let files = files_of(
        alloc,
        names,
        settings.compiler.as_slice(),
        tables.as_slice(),
        &mut libraries,
    )?;
    few_linked(
        alloc,
        table,
        names,
        tables.as_slice(),
        &libraries,
        files,
        settings,
    )
}

/// The project of a table, over the names of all files.
#[tactic(auto, using(crate::proofs::LibrarySum::fault_ends), unfolding(crate::specs::Toml::table_project))]
fn table_project(
    alloc: Global,
    table: &Table,
    names: &[Text],
) -> Result<Option<Project>, OrMemory<ProjectFault>>
    requires distinct { AllPairs (λ name other. name ≢ other) names.now }
    ensures { ReadsStep (few_said (table_project names.now (table_view table.now))) result }
{
    let compiler = command_at(alloc, "compiler", table, b"child-analyse")?;
    let simulator = command_at(alloc, "simulator", table, b"child-bench")?;
    let external = libraries_at(alloc, "external", table)?;
    let bodies = flag_at(alloc, "users_depend_on_bodies", table)?;
    let settings = Settings {
        compiler,
        simulator,
        external,
        bodies,
    };
    files_project(alloc, table, names, settings)
}

/// The project that a text says.
#[tactic(auto, unfolding(crate::specs::Toml::toml_project))]
fn text_project(
    alloc: Global,
    text: &str,
    names: &[Text],
) -> Result<Option<Project>, OrMemory<ProjectFault>>
    requires distinct { AllPairs (λ name other. name ≢ other) names.now }
    ensures { ReadsStep (few_said (toml_project text.now names.now)) result }
{
    match toml::table_from_str(alloc, text) {
        Ok(table) => table_project(alloc, &table, names),
        Err(error) => {
            if error.is_memory() {
                return Err(OrMemory::NoMemory);
            }
            Err(OrMemory::Fault(ProjectFault::NotToml))
        }
    }
}

/// The project that bytes say.
#[tactic(auto, unfolding(crate::specs::Toml::toml_project))]
fn bytes_project(
    alloc: Global,
    bytes: &[u8],
    names: &[Text],
) -> Result<Option<Project>, OrMemory<ProjectFault>>
    requires distinct { AllPairs (λ name other. name ≢ other) names.now }
    ensures { ReadsStep (few_said (toml_project bytes.now names.now)) result }
{
    match str::from_utf8(bytes) {
        Ok(text) => text_project(alloc, text, names),
        Err(_error) => Err(OrMemory::Fault(ProjectFault::NotToml)),
    }
}

/// The project that a project file in TOML describes, over the names of all files, or its first fault. `None` if there
/// is no fault, but the project has more than 4,096 files. No more than 4,096 files are ever made.
pub fn read_toml_project(
    alloc: Global,
    bytes: &[u8],
    names: &TextList,
) -> Result<Option<Project>, OrMemory<ProjectFault>>
    requires distinct { AllPairs (λ name other. name ≢ other) names.now }
    requires fit { All (λ name. IsBetween 1 PATH_LIMIT (length name)) names.now }
    ensures project { ReadsStep (few_said (toml_project bytes.now names.now)) result }
    ensures valid { IfOk result (λ read. IfSome read IsProject) }
{
    bytes_project(alloc, bytes, names.as_slice())
}
