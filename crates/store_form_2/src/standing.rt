//! Which records of nodes stand as requests, by numbers.

ghost use Rattle.std.specs.Prelude.{◌≡◌, ◌<◌, ◌&&◌, List, length, not, All, is_some, slice_index};
ghost use Rattle.std.specs.List.{list_all};
ghost use Rattle.store_form_2.specs.ByNumber.{NodeRecord, built_node, numbered_node};
ghost use Rattle.store_form_2.specs.NodeRows.{AreOfNodes, AreRecordRows, has_later};

use crate::NodeTable;
use base_collections::FingerprintIndex;

/// Whether the latest record of the name of a node is of that node.
fn is_built(table: &NodeTable, names: &FingerprintIndex, nodes: &[usize], node: usize) -> bool
    requires rows { AreRecordRows table.now names.now.fingerprints nodes.now }
    requires node { node < length table.now.nodes }
    ensures { (records : List NodeRecord) → AreOfNodes nodes.now records →
        result ≡ is_some (built_node table.now.nodes records node) }
{
    match names.last(table.row(node).name as u64) {
        Some(last) => nodes[last] == node,
        None => false,
    }
}

/// Whether the latest record of the name of each of some nodes is of that node.
fn are_built(table: &NodeTable, names: &FingerprintIndex, nodes: &[usize], deps: &[usize]) -> bool
    requires rows { AreRecordRows table.now names.now.fingerprints nodes.now }
    requires deps { All (λ dep. dep < length table.now.nodes) deps.now }
    ensures { (records : List NodeRecord) → AreOfNodes nodes.now records →
        result ≡ list_all (λ dep. is_some (built_node table.now.nodes records dep)) deps.now }
{
    for k in 0..deps.len() {
        if !is_built(table, names, nodes, deps[k]) {
            return false;
        }
    }
    true
}

/// Whether the latest record of each node that the node of a record depends on is of that node.
fn is_standing(table: &NodeTable, names: &FingerprintIndex, nodes: &[usize], number: usize) -> bool
    requires rows { AreRecordRows table.now names.now.fingerprints nodes.now }
    requires number { number < length nodes.now }
    ensures { (records : List NodeRecord) → AreOfNodes nodes.now records →
        result
        ≡ list_all (λ dep. is_some (built_node table.now.nodes records dep))
        (numbered_node table.now.nodes (slice_index nodes.now number)).deps }
{
    let row = table.row(nodes[number]);
    are_built(table, names, nodes, row.deps.as_slice())
}

/// Whether a record is the latest of the name of its node.
fn is_latest(table: &NodeTable, names: &FingerprintIndex, nodes: &[usize], number: usize) -> bool
    requires rows { AreRecordRows table.now names.now.fingerprints nodes.now }
    requires number { number < length nodes.now }
    ensures { (records : List NodeRecord) → AreOfNodes nodes.now records →
        result
        ≡ not (has_later table.now.nodes records number (slice_index nodes.now number)) }
{
    match names.last(table.row(nodes[number]).name as u64) {
        Some(last) => last == number,
        None => false,
    }
}

/// Whether a record is the latest of its name, and stands.
pub fn is_current(
    table: &NodeTable,
    names: &FingerprintIndex,
    nodes: &[usize],
    number: usize,
) -> bool
    requires rows { AreRecordRows table.now names.now.fingerprints nodes.now }
    requires number { number < length nodes.now }
    ensures { (records : List NodeRecord) → AreOfNodes nodes.now records →
        result
        ≡ (not (has_later table.now.nodes records number (slice_index nodes.now number))
        && list_all (λ dep. is_some (built_node table.now.nodes records dep))
        (numbered_node table.now.nodes (slice_index nodes.now number)).deps) }
{
    is_latest(table, names, nodes, number) && is_standing(table, names, nodes, number)
}
