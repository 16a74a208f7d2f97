//! Tests of which records are the latest, and which have what would be asked now.

use crate::tests::loaded_payloads::{A, B, OTHER, PRODUCT, SAME, open_payloads};
use base::{Graph, NoMemory, Text};
use std::alloc::Global;
use std::test::Fail;
use store::LoadedStore;
use store_journal::Ready;
use tests_graphs::{Record, read_record};

/// The bytes of a record whose view is a graph: `a.vhd`, and `b.vhd` which depends on it. Both are of `lib`, with the
/// command `cc` and the text `x`. The constants below are indices in these bytes: of both texts, and of the last letter of
/// the second file's command.
const VIEW: [u8; 82] = [
    2, 0, 0, 0, //
    3, 0, 0, 0, b'l', b'i', b'b', 5, 0, 0, 0, b'a', b'.', b'v', b'h', b'd', //
    1, 0, 0, 0, 2, 0, 0, 0, b'c', b'c', 1, 0, 0, 0, b'x', 0, 0, 0, 0, //
    3, 0, 0, 0, b'l', b'i', b'b', 5, 0, 0, 0, b'b', b'.', b'v', b'h', b'd', //
    1, 0, 0, 0, 2, 0, 0, 0, b'c', b'c', 1, 0, 0, 0, b'x', 1, 0, 0, 0, 0, 0, 0, 0, //
    0, 0, 0, 0,
];

const FIRST_TEXT: usize = 34;

const SECOND_WORD: usize = 64;

const SECOND_TEXT: usize = 69;

/// The graph, with a letter at one index.
fn graph(alloc: Global, index: usize, letter: u8) -> Result<Graph, Fail> {
    let mut bytes = VIEW;
    if index < bytes.len() {
        bytes[index] = letter;
    }
    let Some(Record { view, artefact: _ }) = read_record(alloc, &bytes)? else {
        return Err(Fail::from("the bytes are a record"));
    };
    Ok(view)
}

/// A borrowed artefact of one byte, or `-` where none is borrowed.
fn letter(artefact: Option<&[u8]>) -> u8 {
    match artefact {
        Some([byte]) => *byte,
        Some(_) => b'?',
        None => b'-',
    }
}

/// For each of the two files `f` if its latest record is current, else `s`; and then both borrowed artefacts.
fn letters(alloc: Global, held: &LoadedStore<'_>, graph: &Graph) -> Result<[u8; 4], NoMemory> {
    let handles = held.handles(alloc, graph)?;
    if graph.len() != 2 {
        return Ok(*b"????");
    }
    let first = if held.is_current(&handles, graph, 0) {
        b'f'
    } else {
        b's'
    };
    let second = if held.is_current(&handles, graph, 1) {
        b'f'
    } else {
        b's'
    };
    Ok([
        first,
        second,
        letter(held.artefact_at(&handles, graph, 0)),
        letter(held.artefact(&graph.get(1).name)),
    ])
}

/// The letters after three payloads. This function alone owns what is held.
fn seen_after(
    alloc: Global,
    second: &[u8],
    third: &[u8],
    first: &[u8],
    graph: &Graph,
) -> Result<[u8; 4], NoMemory> {
    let held = LoadedStore::of(alloc, open_payloads(alloc, first, second, third)?)?;
    letters(alloc, &held, graph)
}

/// The same, over the graph with a letter at one index.
fn observe_records(
    alloc: Global,
    second: &[u8],
    third: &[u8],
    index: usize,
    letter: u8,
) -> Result<[u8; 4], Fail> {
    let graph = graph(alloc, index, letter)?;
    Ok(seen_after(alloc, second, third, &A, &graph)?)
}

/// The payload that is prepared for the second file, if that fits.
fn prepared_in(
    alloc: Global,
    held: &mut LoadedStore<'_>,
    graph: &Graph,
    letter: u8,
) -> Result<Option<Ready>, NoMemory> {
    if graph.len() != 2 {
        return Ok(None);
    }
    let handles = held.handles(alloc, graph)?;
    if !held.is_current(&handles, graph, 1) {
        return Ok(None);
    }
    let artefact = Text::from_slice(alloc, &[letter])?;
    let next = held.prepare(alloc, &handles, graph, 1, &artefact)?;
    Ok(Some(next.segment))
}

/// The same after two payloads. This function alone owns what is held.
fn prepare_record(alloc: Global, graph: &Graph, letter: u8) -> Result<Option<Ready>, NoMemory> {
    let mut held = LoadedStore::of(alloc, open_payloads(alloc, &A, &B, &[])?)?;
    prepared_in(alloc, &mut held, graph, letter)
}

/// Whether it has these bytes.
fn is_prepared(alloc: Global, letter: u8, bytes: &[u8]) -> Result<bool, Fail> {
    let graph = graph(alloc, FIRST_TEXT, b'x')?;
    let Some(payload) = prepare_record(alloc, &graph, letter)? else {
        return Ok(false);
    };
    Ok(payload.payload() == bytes)
}

#[test]
fn what_is_prepared_has_known_parts_by_number(rt: HostRuntime) -> Result<(), Fail> {
    let mut next = B;
    next[53] = b'v';
    assert!(rt; is_prepared(rt.alloc(), b'v', &next)?);
    Ok(())
}

#[test]
fn what_was_asked_fits(rt: HostRuntime) -> Result<(), Fail> {
    assert!(rt; observe_records(rt.alloc(), &B, &[], FIRST_TEXT, b'x')? == *b"ffyz");
    Ok(())
}

#[test]
fn another_text_or_word_does_not_fit(rt: HostRuntime) -> Result<(), Fail> {
    assert!(rt; observe_records(rt.alloc(), &B, &[], FIRST_TEXT, b'w')? == *b"sfyz");
    assert!(rt; observe_records(rt.alloc(), &B, &[], SECOND_TEXT, b'w')? == *b"fsyz");
    assert!(rt; observe_records(rt.alloc(), &B, &[], SECOND_WORD, b'd')? == *b"fsyz");
    Ok(())
}

#[test]
fn a_dependency_with_an_equal_artefact_fits(rt: HostRuntime) -> Result<(), Fail> {
    assert!(rt; observe_records(rt.alloc(), &B, &SAME, FIRST_TEXT, b'w')? == *b"ffyz");
    assert!(rt; observe_records(rt.alloc(), &B, &OTHER, FIRST_TEXT, b'w')? == *b"fsvz");
    Ok(())
}

#[test]
fn a_file_without_a_record_does_not_fit(rt: HostRuntime) -> Result<(), Fail> {
    assert!(rt; observe_records(rt.alloc(), &[], &[], FIRST_TEXT, b'x')? == *b"fsy-");
    let graph = graph(rt.alloc(), FIRST_TEXT, b'x')?;
    assert!(rt; seen_after(rt.alloc(), &B, &[], &PRODUCT, &graph)? == *b"ss-z");
    Ok(())
}

#[test]
fn other_payloads_add_nothing(rt: HostRuntime) -> Result<(), Fail> {
    assert!(rt; observe_records(rt.alloc(), &A, &B, FIRST_TEXT, b'x')? == *b"ffyz");
    let mut past = B;
    past[40] = 1;
    assert!(rt; observe_records(rt.alloc(), &past, &B[..53], FIRST_TEXT, b'x')? == *b"fsy-");
    Ok(())
}
