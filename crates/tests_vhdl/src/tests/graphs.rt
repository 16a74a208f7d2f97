//! Graphs of small linked projects.

ghost use Rattle.base.specs.Projects.{IsProject};

use crate::tests::edges::are_edges;
use base::{Edges, FileName, Graph, NoMemory, Positions, Project, Text, TextList};
use order::order;
use project_file::read_csv_project;
use project_graph::{fit_texts, graph_of};
use std::alloc::Global;
use std::process::Abort;
use std::test::Fail;

/// A line for each project. Before `=` stands a word for each file: its own letter and those of its direct dependencies.
/// After `=` stands a word for each file in compile order: its own letter and those of all its dependencies.
static ROWS: &[u8] = b"ac bac c =c ac bca 
a bac c =a c bac 
ab bc cd de e =e de ced bedc aedcb 
abc bd cd d =d bd cd adbc 
ab b c d e =b ab c d e 
";

/// The files of all rows; a row has the first of them.
static FILES: &[u8] = b"lib,a\nlib,b\nlib,c\nlib,d\nlib,e\n";

/// The graph of a project with these edges, or `None` if the texts or edges don't fit it or `order` fails.
fn graph_over(
    alloc: Global,
    project: &Project,
    texts: TextList,
    edges: &Edges,
) -> Result<Option<Graph>, NoMemory>
    requires { IsProject project.now }
{
    if !fit_texts(project, &texts) {
        return Ok(None);
    }
    if !are_edges(edges) {
        return Ok(None);
    }
    if edges.len() != project.files.len() {
        return Ok(None);
    }
    match order(alloc, edges) {
        Ok(files) => Ok(Some(graph_of(alloc, project, texts, edges, &files)?)),
        Err(_fault) => Ok(None),
    }
}

/// The same of the files that the bytes list.
fn graph_listed(
    alloc: Global,
    bytes: &[u8],
    texts: TextList,
    edges: &Edges,
) -> Result<Option<Graph>, NoMemory> {
    if bytes.len() > 100 {
        return Ok(None);
    }
    match read_csv_project(alloc, bytes) {
        Ok(project) => graph_over(alloc, &project, texts, edges),
        Err(_fault) => Ok(None),
    }
}

/// Puts the letter of a file.
fn put_letter(out: &mut Vec<u8>, name: &FileName) -> Result<(), NoMemory> {
    out.extend_from_slice(name.path.bytes())?;
    Ok(())
}

/// The words of a graph, as the rows have them.
fn text_of_graph(alloc: Global, graph: &Graph) -> Result<Vec<u8>, NoMemory> {
    let mut out = Vec::new(alloc);
    for entry in graph.as_slice() {
        put_letter(&mut out, &entry.name)?;
        for dep in entry.deps.as_slice() {
            if (*dep as u64) < graph.len() {
                put_letter(&mut out, &graph.get(*dep as u64).name)?;
            }
        }
        out.push(b' ')?;
    }
    Ok(out)
}

/// A list of `count` equal texts.
fn texts_of(alloc: Global, count: u64) -> Result<TextList, NoMemory> {
    let mut texts = TextList::new(alloc);
    for _file in 0..count {
        texts.push(Text::from_slice(alloc, b"x")?)?;
    }
    Ok(texts)
}

/// Whether the graph of a row has these words.
fn is_graph(alloc: Global, edges: &Edges, wanted: &[u8]) -> Result<bool, NoMemory> {
    let texts = texts_of(alloc, edges.len())?;
    let end = edges.len().min(5) as usize * 6;
    if end > FILES.len() {
        return Ok(false);
    }
    match graph_listed(alloc, &FILES[..end], texts, edges)? {
        Some(graph) => Ok(text_of_graph(alloc, &graph)?.as_slice() == wanted),
        None => Ok(false),
    }
}

/// Reads the rows letter by letter, and counts the rows that have the wanted graph.
fn rows_right(alloc: Global) -> Result<u32, NoMemory> {
    let mut count = 0u32;
    let mut edges = Edges::new(alloc);
    let mut deps = Positions::new(alloc);
    let mut wanted = Vec::new(alloc);
    let mut is_own = true;
    let mut is_wanted = false;
    for letter in ROWS {
        if *letter == b'\n' {
            if is_graph(alloc, &edges, wanted.as_slice())? {
                count = count.saturating_add(1);
            }
            edges = Edges::new(alloc);
            wanted = Vec::new(alloc);
            is_wanted = false;
        } else if *letter == b'=' {
            is_wanted = true;
        } else if is_wanted {
            wanted.push(*letter)?;
        } else if *letter == b' ' {
            edges.push(deps)?;
            deps = Positions::new(alloc);
            is_own = true;
        } else if is_own {
            is_own = false;
        } else {
            deps.push((*letter as u32).saturating_sub(97))?;
        }
    }
    Ok(count)
}

#[test]
fn rows_have_their_graphs(rt: HostRuntime) -> Result<(), Fail> {
    assert!(rt; rows_right(rt.alloc())? == 5);
    Ok(())
}
