//! The records that stand as requests, those over fewer files first.

ghost use Rattle.std.specs.Prelude.{◌≡◌, ℕ, ◌<◌, List, length, map, All, is_some, true, IfOk, IsPermutation, IsSorted};
ghost use Rattle.std.specs.List.{filter_map};
ghost use Rattle.std.specs.Ordering.{nat_cmp};
ghost use Rattle.std.specs.Cmp.Lexicographic.{slice_cmp};
ghost use Rattle.store_form_2.specs.Nodes.{AreNodes};
ghost use Rattle.store_form_2.specs.ByNumber.{NodeRecord, unfolded_record};
ghost use Rattle.store_form_2.specs.Migrating.{migrated_requests};
ghost use Rattle.store_form_2.specs.NodeRows.{AreOfNodes, AreRecordRows, row_request};
ghost use Rattle.store_form_2.specs.RankedRows.{IsRankOf, name_cmp, row_cmp};

use crate::NodeTable;
use crate::current::current_rows;
use base::{FileName, Items, NoMemory};
use base_collections::FingerprintIndex;
use std::alloc::Global;
use std::cmp::Ordering;

/// A record with what its request is ranked by: the number of files that it is over, and its name.
#[derive(Clone, Copy)]
pub struct RankedRow<'a> {
    pub count: u64,
    pub name: &'a FileName,
    pub row: usize,
}

/// A record with what its request is ranked by.
fn ranked_row<'a>(table: &'a NodeTable, nodes: &[usize], row: usize) -> RankedRow<'a>
    requires there { All (λ node. node < length table.now.nodes) nodes.now }
    requires row { row < length nodes.now }
    ensures rank { IsRankOf table.now.nodes nodes.now result }
    ensures row { result.row ≡ row }
{
    let node = table.row(nodes[row]);
    RankedRow {
        count: node.deps.len(),
        name: table.name(node.name),
        row,
    }
}

/// Some records with what their requests are ranked by.
fn ranked_rows<'a>(
    alloc: Global,
    table: &'a NodeTable,
    nodes: &[usize],
    rows: &[usize],
) -> Result<Vec<RankedRow<'a>>, NoMemory>
    requires there { All (λ node. node < length table.now.nodes) nodes.now }
    requires rows { All (λ row. row < length nodes.now) rows.now }
    ensures ranks { IfOk result (λ ranked.
        All (IsRankOf table.now.nodes nodes.now) ranked.items) }
    ensures rows { IfOk result (λ ranked. map (λ row. row.row) ranked.items ≡ rows.now) }
{
    let mut ranked = Vec::new(alloc);
    for row in rows {
        ranked.push(ranked_row(table, nodes, *row))?;
    }
    Ok(ranked)
}

fn order<'a>(one: &'a [u8], other: &'a [u8]) -> Ordering
    ensures { result ≡ slice_cmp nat_cmp one.now other.now }
{
    Ord::cmp(&one, &other)
}

/// By library and path, as bytes.
fn order_of_names(one: &FileName, other: &FileName) -> Ordering
    ensures { result ≡ name_cmp one.now other.now }
{
    let rest = order(one.path.bytes(), other.path.bytes());
    order(one.library.bytes(), other.library.bytes()).then(rest)
}

/// By the number of files, and then by name.
fn order_of_rows(one: &RankedRow<'_>, other: &RankedRow<'_>) -> Ordering
    ensures { result ≡ row_cmp one.now other.now }
{
    let rest = order_of_names(one.name, other.name);
    one.count.cmp(&other.count).then(rest)
}

fn sort_rows(rows: &mut Vec<RankedRow<'_>>)
    ensures permutation { IsPermutation rows.old.items rows.new.items }
    ensures sorted { IsSorted row_cmp rows.new.items }
{
    rows.sort_unstable_by(|one, other| order_of_rows(one, other));
}

/// The numbers of records.
fn numbers_of(alloc: Global, rows: &[RankedRow<'_>]) -> Result<Items<usize>, NoMemory>
    ensures { IfOk result (λ numbers. numbers ≡ map (λ row. row.row) rows.now) }
{
    let mut numbers = Items::new(alloc);
    for row in rows {
        numbers.push(row.row)?;
    }
    Ok(numbers)
}

/// The numbers of the records that stand as requests, sorted by their number of dependencies, then by name.
pub fn migrated_rows(
    alloc: Global,
    table: &NodeTable,
    names: &FingerprintIndex,
    nodes: &[usize],
) -> Result<Items<usize>, NoMemory>
    requires { AreRecordRows table.now names.now.fingerprints nodes.now }
    // Their requests are the migrated requests of the records, taken as records of views.
    ensures is { IfOk result (λ rows. (texts : List (List ℕ)) (records : List NodeRecord) →
        AreOfNodes nodes.now records → AreNodes texts table.now.nodes →
        filter_map (row_request texts table.now.nodes records) rows
        ≡ migrated_requests (map (unfolded_record texts table.now.nodes) records)) }
    ensures each { IfOk result (λ rows. All (λ row. row < length nodes.now) rows) }
    ensures there { IfOk result (λ rows. (texts : List (List ℕ)) (records : List NodeRecord) →
        AreOfNodes nodes.now records →
        All (λ row. is_some (row_request texts table.now.nodes records row) ≡ true) rows) }
{
    let rows = current_rows(alloc, table, names, nodes)?;
    let mut ranked = ranked_rows(alloc, table, nodes, rows.as_slice())?;
    sort_rows(&mut ranked);
    let ordered = numbers_of(alloc, ranked.as_slice())?;
    Ok(ordered)
}
