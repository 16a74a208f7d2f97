//! The graph of a listed project.

ghost use Rattle.std.specs.Prelude.{◌≡◌, ◌≤◌, length, All, sum, map, IfOk};
ghost use Rattle.base.specs.Projects.{IsProject};
ghost use Rattle.base.specs.PresentGraph.{below, listed_entry, listed};
ghost use Rattle.order.specs.LinkedGraph.{FitTexts};

use base::{Entry, FILE_LIMIT, Graph, NoMemory, Positions, Project, ProjectFile, Text, TextList};
use std::alloc::Global;

/// The positions of all files before a position.
fn earlier(alloc: Global, position: u32) -> Result<Positions, NoMemory>
    ensures { IfOk result (λ positions. positions ≡ below position) }
{
    let mut positions = Positions::new(alloc);
    for dep in 0..position {
        positions.push(dep)?;
    }
    Ok(positions)
}

/// A file at a position of a listed project.
pub fn listed_entry(
    alloc: Global,
    position: u32,
    file: &ProjectFile,
    text: Text,
) -> Result<Entry, NoMemory>
    ensures { IfOk result (λ entry. entry ≡ listed_entry position file.now text) }
{
    Ok(Entry {
        name: file.name.copy(alloc)?,
        command: file.command.copy(alloc)?,
        text,
        deps: earlier(alloc, position)?,
    })
}

/// The graph of a listed project: its files in listed order, each depending on all earlier ones. The texts are moved into
/// the graph.
pub fn listed_graph(alloc: Global, project: &Project, texts: TextList) -> Result<Graph, NoMemory>
    requires project { IsProject project.now }
    requires few { length project.now.files ≤ FILE_LIMIT }
    requires texts { FitTexts project.now.files texts }
    ensures { IfOk result (λ graph. graph ≡ listed project.now.files texts) }
{
    let mut graph = Graph::new(alloc);
    let files = project.files.as_slice();
    for text in texts.into_vec() {
        let position = graph.len() as usize;
        let entry = listed_entry(alloc, position as u32, &files[position], text)?;
        graph.push(entry)?;
    }
    Ok(graph)
}
