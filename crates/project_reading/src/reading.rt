//! Reads the project in a tree, with its graph; or says why nothing is compiled.
//!
//! Each step reads its part and calls the next step. The first step that fails gives the answer:
//!
//! 1. `read_project` finds the project file.
//! 2. `read_sources` counts the files.
//! 3. `read_files` reads their texts.
//! 4. `read_from_texts` scans them to outlines; `linking` has the other steps.

ghost use Rattle.std.specs.Prelude.{◌≡◌, ◌≤◌, length, List, ℕ, IfOk};
ghost use Rattle.base.specs.Projects.{IsProject};
ghost use Rattle.vhdl_spec.specs.Scans.{Finding, IsScanner};
ghost use Rattle.order.specs.LinkedGraph.{FitTexts};
ghost use Rattle.project_reading.specs.Reading.{texts_reading, files_reading, sources_reading, project_reading};
ghost use Rattle.project_reading.specs.Sources.{LeadsTo, ReadCounts, IsReadProject};
ghost use Rattle.project_reading.specs.Asked.{file_paths, source_paths, project_paths, AsksInOrder};

use crate::linking::{ReadProject, read_from_outlines};
use crate::projects::find_project;
use crate::query::Query;
use crate::scanning::scan_all;
use crate::stops::ReadStop;
use crate::texts::texts_of;
use base::{FILE_LIMIT, Project, TextList};
use base_outcomes::Limit;
use outside::Tree;
use std::alloc::Global;

/// The most files of a project.
const MOST_FILES: u64 = FILE_LIMIT as u64;

/// What is read of a project whose texts are there.
fn read_from_texts(
    alloc: Global,
    query: &Query,
    project: Project,
    texts: TextList,
) -> Result<ReadProject, ReadStop>
    requires project { IsProject project }
    requires few { length project.files ≤ FILE_LIMIT }
    requires texts { FitTexts project.files texts }
    ensures reading { (scan : List ℕ → Finding) → IsScanner scan →
        LeadsTo (texts_reading query.now scan project texts) result }
    ensures form { IfOk result (IsReadProject query.now) }
    ensures cause { (count : ℕ) → ReadCounts result count count }
{
    let outlines = scan_all(alloc, project.files.as_slice(), texts.as_slice())?;
    read_from_outlines(alloc, query, project, texts, &outlines)
}

/// What is read of a project of few files over the files of a tree.
fn read_files<T: Tree>(
    alloc: Global,
    tree: &mut T,
    query: &Query,
    project: Project,
) -> Result<ReadProject, ReadStop>
    requires project { IsProject project }
    requires few { length project.files ≤ FILE_LIMIT }
    ensures reading { (scan : List ℕ → Finding) → IsScanner scan → T.tells →
        LeadsTo (files_reading query.now scan (T.file tree.old) project) result }
    ensures form { IfOk result (IsReadProject query.now) }
    ensures same { T.file tree.new ≡ T.file tree.old }
    ensures same_list { T.listed tree.new ≡ T.listed tree.old }
    ensures kept { T.kept tree.new ≡ T.kept tree.old }
    ensures asked { AsksInOrder result (file_paths project.files)
        (T.asked tree.old) (T.asked tree.new) }
    ensures cause { ReadCounts result (T.failed_reads tree.old) (T.failed_reads tree.new) }
{
    let texts = texts_of(alloc, tree, project.files.as_slice())?;
    read_from_texts(alloc, query, project, texts)
}

/// What is read of a project over the files of a tree.
fn read_sources<T: Tree>(
    alloc: Global,
    tree: &mut T,
    query: &Query,
    project: Project,
) -> Result<ReadProject, ReadStop>
    requires { IsProject project }
    ensures reading { (scan : List ℕ → Finding) → IsScanner scan → T.tells →
        LeadsTo (sources_reading query.now scan (T.file tree.old) project) result }
    ensures form { IfOk result (IsReadProject query.now) }
    ensures same { T.file tree.new ≡ T.file tree.old }
    ensures same_list { T.listed tree.new ≡ T.listed tree.old }
    ensures kept { T.kept tree.new ≡ T.kept tree.old }
    ensures asked { AsksInOrder result (source_paths project)
        (T.asked tree.old) (T.asked tree.new) }
    ensures cause { ReadCounts result (T.failed_reads tree.old) (T.failed_reads tree.new) }
{
    if project.files.len() > MOST_FILES {
        return Err(ReadStop::Over(Limit::Files, MOST_FILES));
    }
    read_files(alloc, tree, query, project)
}

/// Reads what a query wants of the project in a tree. The answer is the graph of all files or, if the query is for what
/// tests need, of the files that the selected tests need: the tests that one of its patterns matches. Unless the query
/// is for the graph alone, all tests of the project come with it. A fault in the sources, or a size over its limit,
/// stops the reading. Each file is read at most once, and no call changes what the tree holds and lists.
pub fn read_project<T: Tree>(
    alloc: Global,
    tree: &mut T,
    query: &Query,
) -> Result<ReadProject, ReadStop>
    ensures reading { (scan : List ℕ → Finding) → IsScanner scan → T.tells →
        LeadsTo (project_reading scan (T.file tree.old) (T.listed tree.old) query.now) result }
    ensures form { IfOk result (IsReadProject query.now) }
    ensures same { T.file tree.new ≡ T.file tree.old }
    ensures same_list { T.listed tree.new ≡ T.listed tree.old }
    ensures kept { T.kept tree.new ≡ T.kept tree.old }
    ensures asked { T.tells →
        let paths = project_paths (T.file tree.old) (T.listed tree.old) in
        AsksInOrder result paths (T.asked tree.old) (T.asked tree.new) }
    ensures cause { ReadCounts result (T.failed_reads tree.old) (T.failed_reads tree.new) }
{
    let project = find_project(alloc, tree)?;
    read_sources(alloc, tree, query, project)
}
