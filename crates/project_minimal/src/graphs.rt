//! The graph of the files of a project that tests need.

ghost use Rattle.std.specs.Prelude.{◌≡◌, ◌≤◌, List, None, Some, length, IfOk};
ghost use Rattle.base.specs.declared.design.Scan.{Scan};
ghost use Rattle.base.specs.PresentGraph.{below, listed};
ghost use Rattle.base.specs.Projects.{IsProject};
ghost use Rattle.base.specs.View.{part};
ghost use Rattle.vhdl_outline.specs.Outlines.{AreOutlined, AreOutlinesOf};
ghost use Rattle.project_minimal.specs.MinimalSet.{needed_ranks, said_of};
ghost use Rattle.vhdl_scope.specs.Tables.{AreVisible};
ghost use Rattle.order.specs.BuildOrder.{AreEdges, IsBuildOrder};
ghost use Rattle.order.specs.LinkedGraph.{FitTexts, linked};

use crate::listed::listed_entries;
use crate::parts::restrict;
use crate::{minimal, ranks_in};
use base::{Edges, FILE_LIMIT, Graph, NoMemory, Order, Positions, Project, TextList};
use base_outcomes::Tests;
use project_graph::{graph_of_entries, linked_entries};
use std::alloc::Global;
use vhdl_outline::Outlines;
use vhdl_scope::{VisibleLibraries, visible_sets};

/// The ranks in an order of the files of a linked project that tests need.
fn linked_ranks(
    alloc: Global,
    project: &Project,
    texts: &TextList,
    outlines: &Outlines,
    sets: &VisibleLibraries,
    edges: &Edges,
    order: &Order,
    tests: &Tests,
) -> Result<Positions, NoMemory>
    requires few { length project.now.files ≤ FILE_LIMIT }
    requires texts { FitTexts project.now.files texts.now }
    requires outlined { AreOutlined texts.now outlines.now }
    requires seen { (scans : List Scan) → AreOutlinesOf texts.now scans outlines.now →
        AreVisible project.now.files texts.now scans sets.now }
    requires edges { AreEdges edges.now }
    requires as_many { length edges.now ≡ length project.now.files }
    requires order { IsBuildOrder edges.now order.now }
    ensures { IfOk result (λ kept. (scans : List Scan) →
        AreOutlinesOf texts.now scans outlines.now → kept ≡ needed_ranks
        (said_of project.now texts.now scans (Some edges.now)) tests.now order.now) }
{
    let set = minimal(alloc, project, texts, outlines, sets, Some(edges), tests)?;
    ranks_in(alloc, order.as_slice(), &set)
}

/// The graph of the files of a linked project that tests need: their files in the order of all, each with all that it depends
/// on, directly or not. The texts are moved into the graph; `sets` has the libraries that their units see.
pub fn minimal_graph(
    alloc: Global,
    project: &Project,
    texts: TextList,
    outlines: &Outlines,
    sets: &VisibleLibraries,
    edges: &Edges,
    order: &Order,
    tests: &Tests,
) -> Result<Graph, NoMemory>
    requires project { IsProject project.now }
    requires few { length project.now.files ≤ FILE_LIMIT }
    requires texts { FitTexts project.now.files texts }
    requires outlined { AreOutlined texts outlines.now }
    requires seen { (scans : List Scan) → AreOutlinesOf texts scans outlines.now →
        AreVisible project.now.files texts scans sets.now }
    requires edges { AreEdges edges.now }
    requires as_many { length edges.now ≡ length project.now.files }
    requires order { IsBuildOrder edges.now order.now }
    ensures { IfOk result (λ graph. (scans : List Scan) →
        AreOutlinesOf texts scans outlines.now →
        graph ≡ part (linked project.now.files texts edges.now order.now)
        (needed_ranks (said_of project.now texts scans (Some edges.now)) tests.now order.now)) }
{
    let kept = linked_ranks(alloc, project, &texts, outlines, sets, edges, order, tests)?;
    let entries = linked_entries(alloc, project, texts, edges, order)?;
    let some = restrict(alloc, entries, &kept)?;
    graph_of_entries(alloc, some)
}

/// The positions of the files of a listed project that tests need.
fn listed_ranks(
    alloc: Global,
    project: &Project,
    texts: &TextList,
    outlines: &Outlines,
    tests: &Tests,
) -> Result<Positions, NoMemory>
    requires few { length project.now.files ≤ FILE_LIMIT }
    requires texts { FitTexts project.now.files texts.now }
    requires outlined { AreOutlined texts.now outlines.now }
    ensures { IfOk result (λ kept. (scans : List Scan) →
        AreOutlinesOf texts.now scans outlines.now → kept ≡ needed_ranks
        (said_of project.now texts.now scans None) tests.now (below (length project.now.files))) }
{
    let sets = visible_sets(alloc, project, texts, outlines)?;
    let set = minimal(alloc, project, texts, outlines, &sets, None, tests)?;
    set.positions_below(alloc, project.files.len() as u32)
}

/// The graph of the files of a listed project that tests need: the first ones, each depending on all earlier ones. The texts
/// are moved into the graph.
pub fn minimal_listed_graph(
    alloc: Global,
    project: &Project,
    texts: TextList,
    outlines: &Outlines,
    tests: &Tests,
) -> Result<Graph, NoMemory>
    requires project { IsProject project.now }
    requires few { length project.now.files ≤ FILE_LIMIT }
    requires texts { FitTexts project.now.files texts }
    requires outlined { AreOutlined texts outlines.now }
    ensures { IfOk result (λ graph. (scans : List Scan) →
        AreOutlinesOf texts scans outlines.now →
        graph ≡ part (listed project.now.files texts) (needed_ranks
        (said_of project.now texts scans None) tests.now (below (length project.now.files)))) }
{
    let kept = listed_ranks(alloc, project, &texts, outlines, tests)?;
    let entries = listed_entries(alloc, project, texts)?;
    let some = restrict(alloc, entries, &kept)?;
    graph_of_entries(alloc, some)
}
