//! The graph of a linked project.

ghost use Rattle.std.specs.Prelude.{◌≡◌, ℕ, ◌<◌, ◌≤◌, [], length, get_or, filter, All, IfOk};
ghost use Rattle.std.proofs.Math.ListN.{set};
ghost use Rattle.base.specs.PresentGraph.{below};
ghost use Rattle.base.specs.Graphs.{IsGraph};
ghost use Rattle.base.specs.Projects.{IsProject};
ghost use Rattle.base_collections.specs.Positions.{has};
ghost use Rattle.order.specs.BuildOrder.{AreEdges, IsBuildOrder};
ghost use Rattle.order.specs.LinkedGraph.{FitTexts, linked};

use crate::closures::{closures, ranks_of};
use base::{Edges, Entry, Graph, NoMemory, Order, Project, ProjectFile, Text, TextList};
use base_collections::PositionSet;
use std::alloc::Global;
use std::mem;

/// Takes the text of a file out of texts, and leaves an empty one there, which takes no memory.
fn take_text(alloc: Global, texts: &mut Vec<Text>, file: usize) -> Text
    requires { file < length texts.old.items }
    ensures text { result ≡ get_or texts.old.items file [] }
    ensures left { texts.new.items ≡ set texts.old.items file [] }
{
    mem::replace(&mut texts[file], Text::new(alloc))
}

/// A file with its text and the positions of a set below an end.
fn entry_of(
    alloc: Global,
    file: &ProjectFile,
    text: Text,
    row: &PositionSet,
    end: u32,
) -> Result<Entry, NoMemory>
    ensures name { IfOk result (λ entry. entry.name ≡ file.now.name) }
    ensures command { IfOk result (λ entry. entry.command ≡ file.now.command) }
    ensures text { IfOk result (λ entry. entry.text ≡ text) }
    ensures deps { IfOk result (λ entry. entry.deps ≡ filter (has row.now) (below end)) }
{
    Ok(Entry {
        name: file.name.copy(alloc)?,
        command: file.command.copy(alloc)?,
        text,
        deps: row.positions_below(alloc, end)?,
    })
}

/// The files of a linked project in an order in which each comes after what it depends on, each with all that it depends
/// on, directly or not. The texts are moved into them. It takes time in proportion to the files and what they depend on, and
/// to the edges, each of which joins two rows of bits.
pub fn linked_entries(
    alloc: Global,
    project: &Project,
    texts: TextList,
    edges: &Edges,
    order: &Order,
) -> Result<Vec<Entry>, NoMemory>
    requires project { IsProject project.now }
    requires texts { FitTexts project.now.files texts }
    requires edges { AreEdges edges.now }
    requires as_many { length edges.now ≡ length project.now.files }
    requires order { IsBuildOrder edges.now order.now }
    ensures are { IfOk result (λ entries.
        entries.items ≡ linked project.now.files texts edges.now order.now) }
    ensures graph { IfOk result (λ entries. IsGraph entries.items) }
{
    let order = order.as_slice();
    let ranks = ranks_of(alloc, edges, order)?;
    let rows = closures(alloc, edges, order, ranks.as_slice())?;
    let files = project.files.as_slice();
    let mut texts = texts.into_vec();
    let mut entries = Vec::with_capacity(alloc, order.len())?;
    for rank in 0..order.len() {
        let file = order[rank] as usize;
        let count = order.len() as u32;
        let text = take_text(alloc, &mut texts, file);
        let entry = entry_of(alloc, &files[file], text, &rows[rank], count)?;
        entries.push(entry)?;
    }
    Ok(entries)
}

/// The graph of files in compile order.
pub fn graph_of_entries(alloc: Global, entries: Vec<Entry>) -> Result<Graph, NoMemory>
    requires { IsGraph entries.items }
    ensures { IfOk result (λ graph. graph ≡ entries.items) }
{
    let mut graph = Graph::new(alloc);
    for entry in entries {
        graph.push(entry)?;
    }
    Ok(graph)
}

/// The graph of a linked project: its files in an order in which each comes after what it depends on, each with all that
/// it depends on, directly or not. The texts are moved into the graph.
pub fn graph_of(
    alloc: Global,
    project: &Project,
    texts: TextList,
    edges: &Edges,
    order: &Order,
) -> Result<Graph, NoMemory>
    requires project { IsProject project.now }
    requires texts { FitTexts project.now.files texts }
    requires edges { AreEdges edges.now }
    requires as_many { length edges.now ≡ length project.now.files }
    requires order { IsBuildOrder edges.now order.now }
    ensures { IfOk result (λ graph. graph ≡ linked project.now.files texts edges.now order.now) }
{
    let entries = linked_entries(alloc, project, texts, edges, order)?;
    graph_of_entries(alloc, entries)
}
