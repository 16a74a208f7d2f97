//! Tests of what no contract promises: that `NodeCheck` refuses a node with too long a text.

use base::{FileName, Items, NoMemory, Text, TextList};
use std::alloc::Global;
use std::test::Fail;
use store_form_2::{NodeCheck, NodeTable, Row};

/// Whether `NodeCheck` accepts a node without dependencies, with a text of `own` bytes and a path of this one byte.
fn is_node_current(alloc: Global, path: u8, own: usize) -> Result<bool, NoMemory> {
    let mut table = NodeTable::new(alloc);
    let name = table.add_name(FileName {
        library: Text::from_slice(alloc, b"lib")?,
        path: Text::from_slice(alloc, &[path])?,
    })?;
    let mut words = TextList::new(alloc);
    words.push(Text::from_slice(alloc, b"cc")?)?;
    let command = table.add_command(words)?;
    let row = Row {
        name,
        command,
        text: 0,
        deps: Items::new(alloc),
    };
    NodeCheck::new(alloc).is_current(&table, &row, own)
}

#[test]
fn a_node_fits_by_the_size_of_its_text(rt: HostRuntime) -> Result<(), Fail> {
    assert!(rt; is_node_current(rt.alloc(), b'a', 4_194_304)?);
    assert!(rt; !is_node_current(rt.alloc(), b'a', 4_194_305)?);
    Ok(())
}
