//! Reading a record: its files and its artefact, and then whether they are a view.

ghost use Rattle.std.specs.Prelude.{◌≡◌, ◌↔◌, ℕ, List, IsTrue, IfOk, IfSome, IsSome};
ghost use Rattle.std.specs.Int.{w32};
ghost use Rattle.std.specs.Option.{option_map};
ghost use Rattle.base.specs.declared.graph.Entry.{Entry};
ghost use Rattle.base.specs.Graphs.{IsGraph};
ghost use Rattle.base_bytes.specs.Reading.{Reads, ReadsAll, number_at, text_at, counted_at};
ghost use Rattle.tests_graphs.specs.Reading.{entry_at, record_in, record_read_at};
ghost use Rattle.tests_graphs.specs.Spelling.{record_bytes, IsRecord};

use crate::views::is_view;
use base::{ARTEFACT_LIMIT, Entry, Graph, Items, NoMemory, Positions, Text};
use base_bytes::{ByteReader, read_words};
use std::alloc::Global;
use store_form_2::Record;

/// The files and the artefact that some bytes spell. The files may be no view.
#[derive(Drop)]
struct Parts {
    entries: Items<Entry>,
    artefact: Text,
}

fn positions_of(alloc: Global, reader: &mut ByteReader<'_>) -> Result<Option<Positions>, NoMemory>
    ensures { IfOk result
        (λ positions.
        Reads (λ same. same) positions reader.new
        (counted_at (number_at w32) reader.old)) }
{
    let Some(count) = reader.u32() else {
        return Ok(None);
    };
    let mut positions = Positions::new(alloc);
    for _ in 0..count {
        let Some(position) = reader.u32() else {
            return Ok(None);
        };
        positions.push(position)?;
    }
    Ok(Some(positions))
}

#[tactic(auto, unfolding(crate::specs::Reading::entry_at))]
fn entry_of(alloc: Global, reader: &mut ByteReader<'_>) -> Result<Option<Entry>, NoMemory>
    ensures { IfOk result (λ entry. Reads (λ same. same) entry reader.new (entry_at reader.old)) }
{
    let Some(name) = reader.name(alloc)? else {
        return Ok(None);
    };
    let Some(command) = read_words(alloc, reader)? else {
        return Ok(None);
    };
    let Some(text) = reader.owned_text(alloc)? else {
        return Ok(None);
    };
    let Some(deps) = positions_of(alloc, reader)? else {
        return Ok(None);
    };
    Ok(Some(Entry {
        name,
        command,
        text,
        deps,
    }))
}

fn entries_of(alloc: Global, reader: &mut ByteReader<'_>) -> Result<Option<Items<Entry>>, NoMemory>
    ensures { IfOk result
        (λ entries. Reads (λ same. same) entries reader.new (counted_at entry_at reader.old)) }
{
    let Some(count) = reader.u32() else {
        return Ok(None);
    };
    let mut entries = Items::new(alloc);
    for _ in 0..count {
        let Some(entry) = entry_of(alloc, reader)? else {
            return Ok(None);
        };
        entries.push(entry)?;
    }
    Ok(Some(entries))
}

/// The files and the artefact that all of the bytes spell, if they do.
#[tactic(auto, unfolding(crate::specs::Reading::record_read_at))]
fn parts_of(alloc: Global, bytes: &[u8]) -> Result<Option<Parts>, NoMemory>
    ensures { IfOk result
        (λ parts. ReadsAll (λ p. (p.entries, p.artefact)) parts (record_read_at bytes.now)) }
{
    let mut reader = ByteReader::new(bytes);
    let Some(entries) = entries_of(alloc, &mut reader)? else {
        return Ok(None);
    };
    let Some(artefact) = reader.owned_text(alloc)? else {
        return Ok(None);
    };
    if !reader.is_at_end() {
        return Ok(None);
    }
    Ok(Some(Parts { entries, artefact }))
}

/// Whether the files are a view, and the artefact has at most 262,144 bytes.
fn is_record(alloc: Global, parts: &Parts) -> Result<bool, NoMemory>
    ensures { IfOk result (λ is. IsTrue is ↔ IsRecord parts.now.entries parts.now.artefact) }
{
    if parts.artefact.bytes().len() > ARTEFACT_LIMIT {
        return Ok(false);
    }
    Ok(is_view(alloc, parts.entries.as_slice())?)
}

fn graph_of(alloc: Global, entries: Items<Entry>) -> Result<Graph, NoMemory>
    requires { IsGraph entries }
    ensures { IfOk result (λ graph. graph ≡ entries) }
{
    let mut graph = Graph::new(alloc);
    for entry in entries.into_vec() {
        graph.push(entry)?;
    }
    Ok(graph)
}

/// The record whose bytes these are; `None` exactly where no record has these bytes.
pub fn read_record(alloc: Global, bytes: &[u8]) -> Result<Option<Record>, NoMemory>
    // What is given is a record with these bytes,
    ensures found { IfOk result
        (λ given.
        IfSome given
        (λ r.
        IsRecord r.view r.artefact
        × (bytes.now ≡ record_bytes r.view r.artefact))) }
    // and where a record has these bytes, there is an answer, and it is that one.
    ensures some { (view : List Entry) (artefact : List ℕ) → IsRecord view artefact →
        bytes.now ≡ record_bytes view artefact →
        IfOk result (λ given. IsSome given) }
    ensures only { (view : List Entry) (artefact : List ℕ) → IsRecord view artefact →
        bytes.now ≡ record_bytes view artefact →
        IfOk result (λ given. IfSome given (λ r. (r.view ≡ view) × (r.artefact ≡ artefact))) }
    // As a function of the bytes, it is this:
    ensures exact { IfOk result
        (λ given. option_map (λ r. (r.view, r.artefact)) given ≡ record_in bytes.now) }
{
    let Some(parts) = parts_of(alloc, bytes)? else {
        return Ok(None);
    };
    if !is_record(alloc, &parts)? {
        return Ok(None);
    }
    let Parts { entries, artefact } = parts;
    let view = graph_of(alloc, entries)?;
    Ok(Some(Record { view, artefact }))
}
