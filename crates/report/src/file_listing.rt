//! The list of the files of a graph.

ghost use Rattle.std.specs.Prelude.{◌≡◌, ◌++◌, IfOk, OnOk};
ghost use Rattle.std.specs.List.{flat_map};
ghost use Rattle.report.specs.Texts.{listed_line, listed_count, files_list};

use crate::report::{put, put_file_words, put_number};
use base::{Entry, Graph, NoMemory, Text};
use std::alloc::Global;

fn put_listed_line(out: &mut Vec<u8>, entry: &Entry) -> Result<(), NoMemory>
    ensures { OnOk result (out.new.items ≡ out.old.items ++ listed_line entry.now) }
{
    put_file_words(out, &entry.name)?;
    put(out, b"\n")?;
    Ok(())
}

fn put_listed_lines(out: &mut Vec<u8>, entries: &[Entry]) -> Result<(), NoMemory>
    ensures { OnOk result (out.new.items ≡ out.old.items ++ flat_map listed_line entries.now) }
{
    for i in 0..entries.len() {
        put_listed_line(out, &entries[i])?;
    }
    Ok(())
}

#[tactic(auto, unfolding(crate::specs::Texts::listed_count))]
fn put_listed_count(alloc: Global, out: &mut Vec<u8>, count: u64) -> Result<(), NoMemory>
    ensures { OnOk result (out.new.items ≡ out.old.items ++ listed_count count) }
{
    put(out, b"Listed ")?;
    put_number(alloc, out, count)?;
    put(out, b" files\n")?;
    Ok(())
}

/// What is put of the files of a graph: a line for each file, in compile order, and how many there are.
pub fn list_files(alloc: Global, graph: &Graph) -> Result<Text, NoMemory>
    ensures { IfOk result (λ text. text ≡ files_list graph.now) }
{
    let mut text = Vec::new(alloc);
    put_listed_lines(&mut text, graph.as_slice())?;
    put_listed_count(alloc, &mut text, graph.len())?;
    Ok(Text::from_vec(text))
}
