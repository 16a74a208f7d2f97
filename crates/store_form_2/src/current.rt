//! The records of nodes that stand as requests, in order.

ghost use Rattle.std.specs.Prelude.{◌≡◌, ℕ, ◌<◌, List, length, map, All, is_some, true, IfOk};
ghost use Rattle.std.specs.List.{filter_map};
ghost use Rattle.store_form_2.specs.Nodes.{AreNodes};
ghost use Rattle.store_form_2.specs.ByNumber.{NodeRecord, unfolded_record};
ghost use Rattle.store_form_2.specs.Migrating.{request_for};
ghost use Rattle.store_form_2.specs.NodeRows.{AreOfNodes, AreRecordRows, row_request};
ghost use Rattle.store_form_2.specs.ViewRecords.{latest_views};

use crate::NodeTable;
use crate::standing::is_current;
use base::{Items, NoMemory};
use base_collections::FingerprintIndex;
use std::alloc::Global;

/// The numbers of the records that are the latest of their names, and stand, in order.
pub fn current_rows(
    alloc: Global,
    table: &NodeTable,
    names: &FingerprintIndex,
    nodes: &[usize],
) -> Result<Items<usize>, NoMemory>
    requires { AreRecordRows table.now names.now.fingerprints nodes.now }
    // Their requests are those for the latest records of views.
    ensures is { IfOk result (λ rows. (texts : List (List ℕ)) (records : List NodeRecord) →
        AreOfNodes nodes.now records → AreNodes texts table.now.nodes →
        filter_map (row_request texts table.now.nodes records) rows
        ≡ filter_map (request_for (map (unfolded_record texts table.now.nodes) records))
        (latest_views (map (unfolded_record texts table.now.nodes) records))) }
    ensures each { IfOk result (λ rows. All (λ row. row < length nodes.now) rows) }
    ensures there { IfOk result (λ rows. (texts : List (List ℕ)) (records : List NodeRecord) →
        AreOfNodes nodes.now records →
        All (λ row. is_some (row_request texts table.now.nodes records row) ≡ true) rows) }
{
    let mut rows = Items::new(alloc);
    for row in 0..nodes.len() {
        if is_current(table, names, nodes, row) {
            rows.push(row)?;
        }
    }
    Ok(rows)
}
