//! The graph of a project that is handed over as a project file, and as one text with the places where its files end.

ghost use Rattle.std.specs.Prelude.{◌≡◌, IfOk, Ok, length};
ghost use Rattle.base.specs.Projects.{IsProject};
ghost use Rattle.order.specs.BuildOrder.{AreEdges};
ghost use Rattle.order.specs.LinkedGraph.{FitTexts};
ghost use Rattle.project_file.specs.Csv.{csv_project};
ghost use Rattle.bench_library.specs.Projects.{parts_at};
ghost use Rattle.bench_library.specs.Graphs.{IsGraphed, IsTold, TellsLinks, last_deps};

use crate::scopes::{NothingTold, outlines_of, parts_of};
use base::{Edges, FILE_LIMIT, Graph, LinkFault, OrderFault, Project, TextList};
use order::order;
use project_file::read_csv_project;
use project_graph::{fit_texts, graph_of};
use std::alloc::Global;
use vhdl_graph::link;
use vhdl_scope::visible_sets;

/// The result for a project. If `whole` is true, there is a graph: `files` is how many files it has, and `deps` how many of
/// them its last file depends on. If `cyclic` is true, files depend on each other in a cycle. If both are false, there is
/// no answer.
#[derive(Clone, Copy)]
#[repr(C)]
pub struct Graphed {
    pub whole: bool,
    pub cyclic: bool,
    pub files: u64,
    pub deps: u64,
}

impl From<LinkFault> for NothingTold {
    fn from(_fault: LinkFault) -> NothingTold {
        NothingTold
    }
}

/// How many files the last file of a graph depends on.
fn last_deps(graph: &Graph) -> u64
    ensures { result ≡ last_deps graph.now }
{
    let files = graph.as_slice();
    match files.last() {
        Some(entry) => entry.deps.len(),
        None => 0,
    }
}

/// The result for a project whose files have these dependencies.
fn told_in_order(
    alloc: Global,
    project: &Project,
    texts: TextList,
    edges: &Edges,
) -> Result<Graphed, NothingTold>
    requires project { IsProject project.now }
    requires texts { FitTexts project.now.files texts }
    requires edges { AreEdges edges.now }
    requires as_many { length edges.now ≡ length project.now.files }
    ensures { IfOk result (IsGraphed project.now.files texts edges.now) }
{
    match order(alloc, edges) {
        Ok(order) => {
            let graph = graph_of(alloc, project, texts, edges, &order)?;
            Ok(Graphed {
                whole: true,
                cyclic: false,
                files: graph.len(),
                deps: last_deps(&graph),
            })
        }
        Err(OrderFault::Cycle { files: _files }) => Ok(Graphed {
            whole: false,
            cyclic: true,
            files: 0,
            deps: 0,
        }),
        Err(OrderFault::NoMemory) => Err(NothingTold),
    }
}

/// The result for a project, whose dependencies are found by the units of its texts.
fn told_of_texts(alloc: Global, project: &Project, texts: TextList) -> Result<Graphed, NothingTold>
    requires project { IsProject project.now }
    requires texts { FitTexts project.now.files texts }
    ensures { IfOk result (TellsLinks project.now texts) }
{
    if project.files.len() > FILE_LIMIT as u64 {
        return Err(NothingTold);
    }
    let outlines = outlines_of(alloc, &texts)?;
    let sets = visible_sets(alloc, project, &texts, &outlines)?;
    let linked = link(alloc, project, &texts, &outlines, &sets)?;
    if linked.edges.len() != project.files.len() {
        return Err(NothingTold);
    }
    told_in_order(alloc, project, texts, &linked.edges)
}

/// A project with the texts of its files.
#[derive(Drop)]
pub struct Sources {
    pub project: Project,
    pub texts: TextList,
}

/// The project that a project file lists, with the parts of one text as the texts of its files.
pub fn sources_of(
    alloc: Global,
    csv: &[u8],
    text: &[u8],
    ends: &[usize],
) -> Result<Sources, NothingTold>
    ensures said { IfOk result (λ sources. csv_project csv.now ≡ Ok sources.project) }
    ensures project { IfOk result (λ sources. IsProject sources.project) }
    ensures texts { IfOk result (λ sources. sources.texts ≡ parts_at text.now 0 ends.now) }
    ensures fit { IfOk result (λ sources. FitTexts sources.project.files sources.texts) }
{
    if csv.len() >= 2_147_483_648 {
        return Err(NothingTold);
    }
    let project = read_csv_project(alloc, csv)?;
    let texts = parts_of(alloc, text, ends)?;
    if !fit_texts(&project, &texts) {
        return Err(NothingTold);
    }
    Ok(Sources { project, texts })
}

/// The result for a project that is handed over as a project file and one text, with the offsets where its files end.
pub fn told_of(
    alloc: Global,
    csv: &[u8],
    text: &[u8],
    ends: &[usize],
) -> Result<Graphed, NothingTold>
    ensures { IfOk result (IsTold csv.now text.now ends.now) }
{
    let Sources { project, texts } = sources_of(alloc, csv, text, ends)?;
    told_of_texts(alloc, &project, texts)
}
