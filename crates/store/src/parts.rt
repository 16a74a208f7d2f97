//! The parts of a record of a request, by the row of a node.

ghost use Rattle.std.specs.Prelude.{◌≡◌, ◌≢◌, ◌<◌, None, Some, length, map, All, IfOk, IfSome, option_map};
ghost use Rattle.store_form_2.specs.Nodes.{node_file};
ghost use Rattle.store_form_2.specs.Rows.{IsRowIn, node_in};
ghost use Rattle.store_form_2.specs.Locations.{AreTexts, texts_in};
ghost use Rattle.outside.specs.Records.{built_of_record, latest};
ghost use Rattle.store_codec.specs.RecordTables.{product_at, record_table_of};
ghost use Rattle.store_form_2.specs.ByNumber.{named_by};
ghost use Rattle.store.specs.Taking.{alone};

use crate::LoadedStore;
use base::{Entry, Items, NoMemory, Text};
use std::alloc::Global;
use store_form_2::{ContentsLocations, NodeTable, RecordLocation, Row, Segments, text_at};

/// The nodes of records, in order.
pub fn record_nodes(alloc: Global, locations: &[RecordLocation]) -> Result<Items<usize>, NoMemory>
    ensures { IfOk result (λ nodes. nodes ≡ map (λ location. location.node) locations.now) }
{
    let mut nodes = Items::new(alloc);
    for location in locations {
        nodes.push(location.node)?;
    }
    Ok(nodes)
}

/// A copy of the file of a row, which depends on none.
pub fn entry_of(
    alloc: Global,
    contents: &ContentsLocations,
    segments: &Segments,
    row: &Row,
) -> Result<Entry, NoMemory>
    requires texts { AreTexts segments.now.payloads contents.now.texts }
    requires in_table { IsRowIn contents.now.table.names contents.now.table.commands row.now }
    requires text { row.now.text < length contents.now.texts.locations.items }
    ensures { let texts = texts_in segments.now.payloads contents.now.texts in
        IfOk result (λ entry. entry ≡ alone (node_file texts (node_in contents.now.table row.now))) }
{
    let text = text_at(segments, contents.texts.locations[row.text]);
    Ok(Entry {
        name: contents.table.name(row.name).copy(alloc)?,
        command: contents.table.command(row.command).copy(alloc)?,
        text: Text::from_slice(alloc, text)?,
        deps: Items::new(alloc),
    })
}

/// The product that the latest record of the name of a node built.
fn product_of(held: &LoadedStore<'_>, table: &NodeTable, node: usize) -> usize
    requires within { node < length table.now.nodes }
    requires built { let records = (record_table_of held.now.payloads).records in
        latest (named_by table.now.nodes node) records ≢ None }
    ensures there { result < length (record_table_of held.now.payloads).products }
    ensures built { let contents = record_table_of held.now.payloads in
        Some (product_at contents.products result)
        ≡ option_map built_of_record (latest (named_by table.now.nodes node) contents.records) }
{
    let name = table.name(table.row(node).name);
    match held.latest_product(name) {
        Some(number) => number,
        None => unreachable!(),
    }
}

/// The products that the latest records of the names of nodes built.
pub fn products_of(
    alloc: Global,
    held: &LoadedStore<'_>,
    table: &NodeTable,
    nodes: &[usize],
) -> Result<Items<usize>, NoMemory>
    requires within { All (λ node. node < length table.now.nodes) nodes.now }
    requires built { let records = (record_table_of held.now.payloads).records in
        All (λ node. latest (named_by table.now.nodes node) records ≢ None) nodes.now }
    ensures there { let products = (record_table_of held.now.payloads).products in
        IfOk result (All (λ number. number < length products)) }
    ensures built { let contents = record_table_of held.now.payloads in
        IfOk result
        (λ numbers.
        map (λ number. Some (product_at contents.products number)) numbers
        ≡ map
        (λ node. option_map built_of_record (latest (named_by table.now.nodes node) contents.records))
        nodes.now) }
{
    let mut numbers = Items::new(alloc);
    for node in nodes {
        numbers.push(product_of(held, table, *node))?;
    }
    Ok(numbers)
}
