//! The graph of a project whose texts and outlines are there.
//!
//! Each step calls the next, since texts are borrowed until the last step moves them into the graph:
//!
//! 5. `read_from_outlines` finds the libraries that each unit sees. A listed project needs none: `read_listed` makes its graph.
//! 6. `read_from_visible` finds what depends on what.
//! 7. `read_from_links` finds the compile order.
//! 8. `read_from_order` finds the tests, where they are wanted, and makes the graph.

ghost use Rattle.std.specs.Prelude.{◌≡◌, ◌≤◌, ℕ, List, nat_lt, ◌∷◌, ◌++◌, [], length, Result, Err, Some, IfOk, OnOk};
ghost use Rattle.base.specs.declared.design.Scan.{Scan};
ghost use Rattle.base.specs.declared.linking.Linked.{Linked as Links};
ghost use Rattle.base.specs.declared.linking.LinkFault.{LinkFault as Fault};
ghost use Rattle.base.specs.PresentGraph.{below, listed};
ghost use Rattle.base.specs.Projects.{IsProject};
ghost use Rattle.project_minimal.specs.MinimalSet.{needed_ranks, said_of};
ghost use Rattle.project_reading.specs.Queries.{chosen, queried};
ghost use Rattle.testbench_select.specs.Selection.{count_of_tests};
ghost use Rattle.testbench_scan.specs.Benches.{sources_of, tests_of};
ghost use Rattle.order.specs.BuildOrder.{AreEdges, IsBuildOrder, file_order};
ghost use Rattle.order.specs.LinkedGraph.{FitTexts, linked};
ghost use Rattle.vhdl_outline.specs.Outlines.{AreOutlined, AreOutlinesOf};
ghost use Rattle.vhdl_graph.specs.Results.{GivesLinks};
ghost use Rattle.vhdl_scope.specs.Tables.{AreVisible};
ghost use Rattle.project_reading.specs.Reading.{linked_or, links_of, listed_needs, names_at, order_or, wanted_tests, tests_or, listed_reading, order_reading, linked_reading, then_read, scanned_reading};
ghost use Rattle.project_reading.specs.Sources.{Gives, LeadsTo, ReadCounts};

use crate::query::{Query, QueryKind, select_tests, wants_tests};
use crate::stops::ReadStop;
use base::{
    CASE_LIMIT, Edges, FILE_LIMIT, FileList, Graph, LinkFault, Linked, NoMemory, OrMemory, Order,
    OrderFault, Project, ProjectFile, TextList, WarningList,
};
use base_outcomes::{Limit, Refusal, Tests};
use order::order;
use project_graph::graph_of;
use project_minimal::{minimal_graph, minimal_listed_graph};
use project_views::listed_graph;
use std::alloc::Global;
use testbench_scan::benches;
use vhdl_graph::link;
use vhdl_outline::Outlines;
use vhdl_scope::{VisibleLibraries, visible_sets};

/// The most cases of all benches.
const MOST_CASES: u64 = CASE_LIMIT as u64;

/// What is read of a project.
#[derive(Drop)]
pub struct ReadProject {
    pub project: Project,
    /// Its files in compile order, each with its text and the files that it depends on.
    pub graph: Graph,
    /// The uses of whole libraries that give no dependency, in project order.
    pub warnings: WarningList,
    /// Its tests, where they were wanted, in project order; else none.
    pub tests: Tests,
}

/// Why a project whose names of units are wrong isn't compiled.
fn link_stop(fault: LinkFault) -> ReadStop
    ensures stop { (said : Result Links Fault) → GivesLinks said (Err fault) →
        Gives {T = Links} (linked_or said) (Err result) }
    ensures cause { (count : ℕ) → ReadCounts {T = Links} (Err result) count count }
{
    match fault {
        LinkFault::NoMemory => ReadStop::NoMemory,
        LinkFault::DuplicateUnit {
            unit,
            first,
            second,
        } => ReadStop::Refused(Refusal::DuplicateUnit {
            unit,
            first,
            second,
        }),
        LinkFault::MissingUnit {
            file,
            library,
            unit,
        } => ReadStop::Refused(Refusal::MissingUnit {
            file,
            library,
            unit,
        }),
        LinkFault::MissingArchitecture {
            file,
            library,
            entity,
            architecture,
        } => ReadStop::Refused(Refusal::MissingArchitecture {
            file,
            library,
            entity,
            architecture,
        }),
    }
}

/// The dependencies between the files of a project, or the fault in the names of its units.
fn links_of(
    alloc: Global,
    project: &Project,
    texts: &TextList,
    outlines: &Outlines,
    sets: &VisibleLibraries,
) -> Result<Linked, ReadStop>
    requires few { length project.now.files ≤ FILE_LIMIT }
    requires texts { FitTexts project.now.files texts.now }
    requires outlined { AreOutlined texts.now outlines.now }
    requires seen { (scans : List Scan) → AreOutlinesOf texts.now scans outlines.now →
        AreVisible project.now.files texts.now scans sets.now }
    ensures links { (scans : List Scan) → AreOutlinesOf texts.now scans outlines.now →
        Gives (links_of project.now texts.now scans) result }
    ensures edges { IfOk result (λ links. AreEdges links.edges) }
    ensures count { IfOk result (λ links. length links.edges ≡ length project.now.files) }
    ensures cause { (count : ℕ) → ReadCounts result count count }
{
    match link(alloc, project, texts, outlines, sets) {
        Ok(links) => Ok(links),
        Err(fault) => Err(link_stop(fault)),
    }
}

/// Adds the name of the file at a position, if there is such a file.
#[tactic(auto, unfolding(crate::specs::Reading::names_at))]
fn add_name(
    alloc: Global,
    names: &mut FileList,
    files: &[ProjectFile],
    position: u32,
) -> Result<(), NoMemory>
    ensures { OnOk result (names.new ≡ names.old ++ names_at files.now (position ∷ [])) }
{
    match files.get(position as usize) {
        Some(file) => names.push(file.name.copy(alloc)?),
        None => Ok(()),
    }
}

/// The names of the files at positions.
fn names_at(alloc: Global, files: &[ProjectFile], positions: &[u32]) -> Result<FileList, NoMemory>
    ensures { IfOk result (λ names. names ≡ names_at files.now positions.now) }
{
    let mut names = FileList::new(alloc);
    for position in positions {
        add_name(alloc, &mut names, files, *position)?;
    }
    Ok(names)
}

/// The order of the files of a project, or the cycle that leaves them without one.
fn order_of(alloc: Global, files: &[ProjectFile], edges: &Edges) -> Result<Order, ReadStop>
    requires { AreEdges edges.now }
    ensures order { Gives (order_or files.now (file_order edges.now)) result }
    ensures sorted { IfOk result (IsBuildOrder edges.now) }
    ensures cause { (count : ℕ) → ReadCounts result count count }
{
    match order(alloc, edges) {
        Ok(order) => Ok(order),
        Err(OrderFault::NoMemory) => Err(ReadStop::NoMemory),
        Err(OrderFault::Cycle { files: cycle }) => Err(ReadStop::Refused(Refusal::Cycle {
            files: names_at(alloc, files, cycle.as_slice())?,
        })),
    }
}

/// Whether benches have more cases than there may be.
fn are_many(tests: &Tests) -> bool
    ensures { result ≡ nat_lt CASE_LIMIT (count_of_tests tests.now) }
{
    let tests = tests.as_slice();
    let mut left = MOST_CASES;
    for i in 0..tests.len() {
        let count = tests[i].cases.len();
        if count > left {
            return true;
        }
        left -= count;
    }
    false
}

/// Tests of no more cases than there may be.
fn few_tests(tests: Tests) -> Result<Tests, ReadStop>
    ensures tests { Gives (tests_or (Ok tests)) result }
    ensures cause { (count : ℕ) → ReadCounts result count count }
{
    if are_many(&tests) {
        return Err(ReadStop::Over(Limit::Tests, MOST_CASES));
    }
    Ok(tests)
}

/// The tests of a project, or why the reading stops: they have a fault, or more cases than the limit.
fn found_tests(
    alloc: Global,
    project: &Project,
    texts: &TextList,
    outlines: &Outlines,
) -> Result<Tests, ReadStop>
    requires few { length project.now.files ≤ FILE_LIMIT }
    requires texts { FitTexts project.now.files texts.now }
    requires outlined { AreOutlined texts.now outlines.now }
    ensures tests { (scans : List Scan) → AreOutlinesOf texts.now scans outlines.now →
        Gives (tests_or (tests_of (sources_of project.now texts.now scans))) result }
    ensures cause { (count : ℕ) → ReadCounts result count count }
{
    match benches(alloc, project, texts, outlines) {
        Ok(tests) => few_tests(tests),
        Err(OrMemory::NoMemory) => Err(ReadStop::NoMemory),
        Err(OrMemory::Fault(fault)) => Err(ReadStop::Refused(Refusal::Tests { fault })),
    }
}

/// The tests of a project if they are wanted, and else no tests; or why the reading stops.
#[tactic(auto, unfolding(crate::specs::Reading::wanted_tests))]
fn wanted_tests(
    alloc: Global,
    wanted: bool,
    project: &Project,
    texts: &TextList,
    outlines: &Outlines,
) -> Result<Tests, ReadStop>
    requires few { length project.now.files ≤ FILE_LIMIT }
    requires texts { FitTexts project.now.files texts.now }
    requires outlined { AreOutlined texts.now outlines.now }
    ensures tests { (scans : List Scan) → AreOutlinesOf texts.now scans outlines.now →
        Gives (wanted_tests wanted project.now texts.now scans) result }
    ensures cause { (count : ℕ) → ReadCounts result count count }
{
    if !wanted {
        return Ok(Tests::new(alloc));
    }
    found_tests(alloc, project, texts, outlines)
}

/// The graph of a listed project that is wanted.
fn queried_listed_graph(
    alloc: Global,
    query: &Query,
    project: &Project,
    texts: TextList,
    outlines: &Outlines,
    tests: &Tests,
) -> Result<Graph, NoMemory>
    requires project { IsProject project.now }
    requires few { length project.now.files ≤ FILE_LIMIT }
    requires texts { FitTexts project.now.files texts }
    requires outlined { AreOutlined texts outlines.now }
    ensures { IfOk result (λ graph. (scans : List Scan) →
        AreOutlinesOf texts scans outlines.now →
        graph ≡ queried query.now.query_kind (listed project.now.files texts)
        (needed_ranks (listed_needs project.now texts scans)
        (chosen query.now.patterns tests.now) (below (length project.now.files)))) }
{
    match query.query_kind {
        QueryKind::Needed => {
            let tests = select_tests(alloc, tests, &query.patterns)?;
            minimal_listed_graph(alloc, project, texts, outlines, &tests)
        }
        QueryKind::Graph => listed_graph(alloc, project, texts),
        QueryKind::Tests => listed_graph(alloc, project, texts),
    }
}

/// The graph of a linked project that is wanted.
fn queried_graph(
    alloc: Global,
    query: &Query,
    project: &Project,
    texts: TextList,
    outlines: &Outlines,
    sets: &VisibleLibraries,
    edges: &Edges,
    order: &Order,
    tests: &Tests,
) -> Result<Graph, NoMemory>
    requires project { IsProject project.now }
    requires few { length project.now.files ≤ FILE_LIMIT }
    requires texts { FitTexts project.now.files texts }
    requires outlined { AreOutlined texts outlines.now }
    requires seen { (scans : List Scan) → AreOutlinesOf texts scans outlines.now →
        AreVisible project.now.files texts scans sets.now }
    requires edges { AreEdges edges.now }
    requires count { length edges.now ≡ length project.now.files }
    requires sorted { IsBuildOrder edges.now order.now }
    ensures { IfOk result (λ graph. (scans : List Scan) →
        AreOutlinesOf texts scans outlines.now →
        graph ≡ queried query.now.query_kind (linked project.now.files texts edges.now order.now)
        (needed_ranks (said_of project.now texts scans (Some edges.now))
        (chosen query.now.patterns tests.now) order.now)) }
{
    match query.query_kind {
        QueryKind::Needed => {
            let tests = select_tests(alloc, tests, &query.patterns)?;
            minimal_graph(alloc, project, texts, outlines, sets, edges, order, &tests)
        }
        QueryKind::Graph => graph_of(alloc, project, texts, edges, order),
        QueryKind::Tests => graph_of(alloc, project, texts, edges, order),
    }
}

/// A listed project, its graph in listed order.
fn read_listed(
    alloc: Global,
    query: &Query,
    project: Project,
    texts: TextList,
    outlines: &Outlines,
) -> Result<ReadProject, ReadStop>
    requires project { IsProject project }
    requires few { length project.files ≤ FILE_LIMIT }
    requires texts { FitTexts project.files texts }
    requires outlined { AreOutlined texts outlines.now }
    ensures reading { (scans : List Scan) → AreOutlinesOf texts scans outlines.now →
        LeadsTo (listed_reading query.now project texts scans) result }
    ensures cause { (count : ℕ) → ReadCounts result count count }
{
    let tests = wanted_tests(
        alloc,
        wants_tests(query.query_kind),
        &project,
        &texts,
        outlines,
    )?;
    let graph = queried_listed_graph(alloc, query, &project, texts, outlines, &tests)?;
    let warnings = WarningList::new(alloc);
    Ok(ReadProject {
        project,
        graph,
        warnings,
        tests,
    })
}

/// A project with its files in order, its graph in compile order.
fn read_from_order(
    alloc: Global,
    query: &Query,
    project: Project,
    texts: TextList,
    outlines: &Outlines,
    sets: &VisibleLibraries,
    links: Linked,
    order: &Order,
) -> Result<ReadProject, ReadStop>
    requires project { IsProject project }
    requires few { length project.files ≤ FILE_LIMIT }
    requires texts { FitTexts project.files texts }
    requires outlined { AreOutlined texts outlines.now }
    requires seen { (scans : List Scan) → AreOutlinesOf texts scans outlines.now →
        AreVisible project.files texts scans sets.now }
    requires edges { AreEdges links.edges }
    requires count { length links.edges ≡ length project.files }
    requires sorted { IsBuildOrder links.edges order.now }
    ensures reading { (scans : List Scan) → AreOutlinesOf texts scans outlines.now →
        LeadsTo (order_reading query.now project texts scans links order.now) result }
    ensures cause { (count : ℕ) → ReadCounts result count count }
{
    let tests = wanted_tests(
        alloc,
        wants_tests(query.query_kind),
        &project,
        &texts,
        outlines,
    )?;
    let Linked { edges, warnings } = links;
    let graph = queried_graph(
        alloc, query, &project, texts, outlines, sets, &edges, order, &tests,
    )?;
    Ok(ReadProject {
        project,
        graph,
        warnings,
        tests,
    })
}

/// A project with what depends on what in it, its graph in compile order.
fn read_from_links(
    alloc: Global,
    query: &Query,
    project: Project,
    texts: TextList,
    outlines: &Outlines,
    sets: &VisibleLibraries,
    links: Linked,
) -> Result<ReadProject, ReadStop>
    requires project { IsProject project }
    requires few { length project.files ≤ FILE_LIMIT }
    requires texts { FitTexts project.files texts }
    requires outlined { AreOutlined texts outlines.now }
    requires seen { (scans : List Scan) → AreOutlinesOf texts scans outlines.now →
        AreVisible project.files texts scans sets.now }
    requires edges { AreEdges links.edges }
    requires count { length links.edges ≡ length project.files }
    ensures reading { (scans : List Scan) → AreOutlinesOf texts scans outlines.now →
        LeadsTo (linked_reading query.now project texts scans links) result }
    ensures cause { (count : ℕ) → ReadCounts result count count }
{
    let order = order_of(alloc, project.files.as_slice(), &links.edges)?;
    read_from_order(alloc, query, project, texts, outlines, sets, links, &order)
}

/// A project with its files in no order yet, by the libraries that their units see.
fn read_from_visible(
    alloc: Global,
    query: &Query,
    project: Project,
    texts: TextList,
    outlines: &Outlines,
    sets: &VisibleLibraries,
) -> Result<ReadProject, ReadStop>
    requires project { IsProject project }
    requires few { length project.files ≤ FILE_LIMIT }
    requires texts { FitTexts project.files texts }
    requires outlined { AreOutlined texts outlines.now }
    requires seen { (scans : List Scan) → AreOutlinesOf texts scans outlines.now →
        AreVisible project.files texts scans sets.now }
    ensures reading { (scans : List Scan) → AreOutlinesOf texts scans outlines.now →
        LeadsTo (then_read (linked_reading query.now project texts scans)
        (links_of project texts scans)) result }
    ensures cause { (count : ℕ) → ReadCounts result count count }
{
    let links = links_of(alloc, &project, &texts, outlines, sets)?;
    read_from_links(alloc, query, project, texts, outlines, sets, links)
}

/// A project of these texts, with the outlines of its files. Texts exist once: they are borrowed until it is known what depends
/// on what and which tests there are, and then moved into the graph.
pub(crate) fn read_from_outlines(
    alloc: Global,
    query: &Query,
    project: Project,
    texts: TextList,
    outlines: &Outlines,
) -> Result<ReadProject, ReadStop>
    requires project { IsProject project }
    requires few { length project.files ≤ FILE_LIMIT }
    requires texts { FitTexts project.files texts }
    requires outlined { AreOutlined texts outlines.now }
    ensures reading { (scans : List Scan) → AreOutlinesOf texts scans outlines.now →
        LeadsTo (scanned_reading query.now project texts scans) result }
    ensures cause { (count : ℕ) → ReadCounts result count count }
{
    if project.listed {
        return read_listed(alloc, query, project, texts, outlines);
    }
    let sets = visible_sets(alloc, &project, &texts, outlines)?;
    read_from_visible(alloc, query, project, texts, outlines, &sets)
}
