//! Tests of what no contract promises: that equal names and equal commands get one number.

use base::{FileName, NoMemory, Text, TextList};
use std::alloc::Global;
use std::test::Fail;
use store_form_2::NodeTable;

fn name(alloc: Global, path: &[u8]) -> Result<FileName, NoMemory> {
    Ok(FileName {
        library: Text::from_slice(alloc, b"lib")?,
        path: Text::from_slice(alloc, path)?,
    })
}

/// The number that a name gets.
fn number_of(alloc: Global, table: &mut NodeTable, path: &[u8]) -> Result<usize, NoMemory> {
    let name = name(alloc, path)?;
    table.add_name(name)
}

fn numbers_once(alloc: Global, table: &mut NodeTable) -> Result<bool, NoMemory> {
    let first = number_of(alloc, table, b"a.vhd")?;
    let second = number_of(alloc, table, b"b.vhd")?;
    let again = number_of(alloc, table, b"a.vhd")?;
    Ok(first == 0 && second == 1 && again == 0)
}

fn command(alloc: Global) -> Result<TextList, NoMemory> {
    let mut words = TextList::new(alloc);
    words.push(Text::from_slice(alloc, b"cc")?)?;
    Ok(words)
}

/// Adds a copy of a command.
fn add(alloc: Global, table: &mut NodeTable, words: &TextList) -> Result<usize, NoMemory> {
    let copy = words.copy(alloc)?;
    table.add_command(copy)
}

fn adds_once(alloc: Global, table: &mut NodeTable, words: &TextList) -> Result<bool, NoMemory> {
    let first = add(alloc, table, words)?;
    let again = add(alloc, table, words)?;
    Ok(first == 0 && again == 0)
}

fn command_once(alloc: Global, table: &mut NodeTable) -> Result<bool, NoMemory> {
    let words = command(alloc)?;
    adds_once(alloc, table, &words)
}

/// What a test numbers.
#[derive(Clone, Copy)]
enum Tried {
    Names,
    Commands,
}

fn goes(alloc: Global, table: &mut NodeTable, tried: Tried) -> Result<bool, NoMemory> {
    match tried {
        Tried::Names => numbers_once(alloc, table),
        Tried::Commands => command_once(alloc, table),
    }
}

/// Whether a new table numbers these as it should. Only this function owns a table.
fn goes_so(alloc: Global, tried: Tried) -> Result<bool, NoMemory> {
    let mut table = NodeTable::new(alloc);
    goes(alloc, &mut table, tried)
}

#[test]
fn a_name_is_numbered_once(rt: HostRuntime) -> Result<(), Fail> {
    assert!(rt; goes_so(rt.alloc(), Tried::Names)?);
    Ok(())
}

#[test]
fn a_command_is_numbered_once(rt: HostRuntime) -> Result<(), Fail> {
    assert!(rt; goes_so(rt.alloc(), Tried::Commands)?);
    Ok(())
}
