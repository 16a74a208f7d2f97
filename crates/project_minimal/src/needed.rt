//! The files that tests need.

ghost use Rattle.std.specs.Prelude.{◌≡◌, ◌<◌, ◌≤◌, ◌==◌, ◌&&◌, ℕ, List, nat_lt, length, IfOk, IfSome, OnOk};
ghost use Rattle.std.specs.List.{All};
ghost use Rattle.std.specs.Option.{option_map};
ghost use Rattle.vhdl_outline.specs.Roles.{IsTextSmall};
ghost use Rattle.base.specs.declared.design.Scan.{Scan};
ghost use Rattle.vhdl_outline.specs.Outlines.{AreOutlined, AreOutlinesOf};
ghost use Rattle.project_minimal.specs.MinimalSet.{NeedSources, is_needed, is_tested, said_of};
ghost use Rattle.project_minimal.specs.Needing.{AreTables, HasGrown, IsKnown, count_of};
ghost use Rattle.project_minimal.specs.Sources.{AreNeeds, AreSources};
ghost use Rattle.project_minimal.specs.Suppliers.{FitAll, HoldsFiles};
ghost use Rattle.vhdl_scope.specs.Tables.{AreVisible};
ghost use Rattle.project_minimal.specs.Taking.{AreTaken, Grows, Takes};
ghost use Rattle.order.specs.BuildOrder.{AreEdges};
ghost use Rattle.base_collections.specs.Positions.{has};

use crate::index::{Index, index_of};
use crate::sources::Sources;
use crate::taken::{Taken, none_taken, take};
use crate::units::{Tables, take_needs};
use base::{Edges, FILE_LIMIT, NoMemory, Project, TextList};
use base_collections::PositionSet;
use base_outcomes::{Bench, Tests};
use std::alloc::Global;
use vhdl_outline::Outlines;
use vhdl_scope::VisibleLibraries;

/// Takes a file, if it is one of `count` files.
fn take_within(count: u32, file: u32, taken: &mut Taken) -> Result<(), NoMemory>
    requires few { count ≤ FILE_LIMIT }
    requires before { AreTaken count taken.old }
    ensures grows { OnOk result (Grows count taken.old taken.new) }
    ensures takes { OnOk result (Takes (λ at. file == at && nat_lt at count)
        taken.old taken.new) }
{
    if file >= count {
        return Ok(());
    }
    take(count, file, taken)?;
    Ok(())
}

/// Takes the files of the entities of benches.
fn take_tested(count: u32, tests: &[Bench], taken: &mut Taken) -> Result<(), NoMemory>
    requires few { count ≤ FILE_LIMIT }
    requires before { AreTaken count taken.old }
    ensures grows { OnOk result (Grows count taken.old taken.new) }
    ensures takes { OnOk result (Takes (λ at. is_tested tests.now at && nat_lt at count)
        taken.old taken.new) }
{
    for bench in tests {
        take_within(count, bench.file, taken)?;
    }
    Ok(())
}

/// Takes what the files need that were taken, one after the other, and what these need.
fn take_on(
    alloc: Global,
    tables: Tables,
    edges: Option<&Edges>,
    taken: &mut Taken,
) -> Result<(), NoMemory>
    requires tables { AreTables tables }
    requires edges { IfSome edges (λ edges. AreEdges edges.now
        × (length edges.now ≡ count_of tables)) }
    requires before { AreTaken (count_of tables) taken.old }
    ensures are { OnOk result (AreTaken (count_of tables.entry) taken.new) }
    ensures grown { OnOk result ((said : NeedSources) → IsKnown tables.entry said →
        said.edges ≡ option_map (λ e. e.now) edges.entry → HasGrown said taken.old taken.new) }
{
    let mut next = 0;
    while next < taken.list.len() {
        let file = taken.list[next];
        take_needs(alloc, tables, edges, file, taken)?;
        next += 1;
    }
    Ok(())
}

/// The files that tests need.
fn needed_in(
    alloc: Global,
    tables: Tables,
    edges: Option<&Edges>,
    tests: &[Bench],
) -> Result<PositionSet, NoMemory>
    requires tables { AreTables tables }
    requires edges { IfSome edges (λ edges. AreEdges edges.now
        × (length edges.now ≡ count_of tables)) }
    ensures { IfOk result (λ set. (said : NeedSources) → IsKnown tables.entry said →
        said.edges ≡ option_map (λ e. e.now) edges.entry →
        (at : ℕ) → at < count_of tables.entry → has set at ≡ is_needed said tests.now at) }
{
    let mut taken = none_taken(alloc);
    let count = tables.sources.project.files.len() as u32;
    take_tested(count, tests, &mut taken)?;
    take_on(alloc, tables, edges, &mut taken)?;
    let Taken {
        set,
        list: _,
        low: _,
    } = taken;
    Ok(set)
}

/// The files of a project that tests need, by an index of its units.
fn needed_by(
    alloc: Global,
    sources: Sources,
    outlines: &Outlines,
    index: &Index,
    sets: &VisibleLibraries,
    edges: Option<&Edges>,
    tests: &[Bench],
) -> Result<PositionSet, NoMemory>
    requires sources { AreSources sources }
    requires outlined { AreOutlined sources.texts.now outlines.now }
    requires seen { (scans : List Scan) → AreOutlinesOf sources.texts.now scans outlines.now →
        AreVisible sources.project.now.files sources.texts.now scans sets.now }
    requires same { sources.outlines.now ≡ outlines.now.files }
    requires fit { FitAll (length sources.project.now.files) index.now }
    requires holds { (said : NeedSources) → AreNeeds sources said →
        HoldsFiles said (length sources.project.now.files) index.now }
    requires edges { IfSome edges (λ edges. AreEdges edges.now
        × (length edges.now ≡ length sources.project.now.files)) }
    ensures { IfOk result (λ set. (scans : List Scan) →
        AreOutlinesOf sources.entry.texts.now scans outlines.now →
        (at : ℕ) → at < length sources.entry.project.now.files → has set at
        ≡ is_needed (said_of sources.entry.project.now sources.entry.texts.now scans
        (option_map (λ e. e.now) edges.entry)) tests.now at) }
{
    let tables = Tables {
        sources,
        index,
        sets,
    };
    let set = needed_in(alloc, tables, edges, tests)?;
    Ok(set)
}

/// The files of a project that tests need. This is the least set that has the files of the tests' entities and, for
/// each of its files:
///
/// - the files that it depends on directly;
/// - the files of the architectures of its entities and of the bodies of its packages;
/// - the files of the entities that its components may be bound to by default (IEEE Std 1076-2008, clause 7.3.3).
///
/// `edges` says which files depend on which. Without it the project is a listed one, where each file depends on all
/// earlier ones. There is one text for each file, the outlines are theirs, and `sets` has the libraries that their
/// units see. Each file is looked at once.
pub fn minimal(
    alloc: Global,
    project: &Project,
    texts: &TextList,
    outlines: &Outlines,
    sets: &VisibleLibraries,
    edges: Option<&Edges>,
    tests: &Tests,
) -> Result<PositionSet, NoMemory>
    requires few { length project.now.files ≤ FILE_LIMIT }
    requires each { length texts.now ≡ length project.now.files }
    requires small { All IsTextSmall texts.now }
    requires outlined { AreOutlined texts.now outlines.now }
    requires seen { (scans : List Scan) → AreOutlinesOf texts.now scans outlines.now →
        AreVisible project.now.files texts.now scans sets.now }
    requires edges { IfSome edges (λ edges. AreEdges edges.now
        × (length edges.now ≡ length project.now.files)) }
    ensures { IfOk result (λ set. (scans : List Scan) →
        AreOutlinesOf texts.now scans outlines.now →
        (at : ℕ) → at < length project.now.files → has set at
        ≡ is_needed (said_of project.now texts.now scans (option_map (λ e. e.now) edges.entry))
        tests.now at) }
{
    let sources = Sources {
        project,
        texts,
        outlines: &outlines.files,
    };
    let index = index_of(alloc, sources)?;
    needed_by(
        alloc,
        sources,
        outlines,
        &index,
        sets,
        edges,
        tests.as_slice(),
    )
}
