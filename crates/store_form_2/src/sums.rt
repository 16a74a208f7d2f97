//! Whether the texts of a new node and its dependencies are few enough bytes.

ghost use Rattle.std.specs.Prelude.{◌↔◌, ◌+◌, ◌<◌, ◌≤◌, length, All, IsTrue, sum_by};
ghost use Rattle.store_form_2.specs.Fits.{length_at};

use crate::NodeTable;
use base::GRAPH_TEXT_LIMIT;

/// Whether the texts of these nodes and one more text, of `own` bytes, have at most 67,108,864 bytes together. `lengths` has the
/// length of each text by its number.
pub fn are_small(table: &NodeTable, lengths: &[usize], deps: &[usize], own: usize) -> bool
    requires there { All (λ dep. dep < length table.now.nodes) deps.now }
    requires texts { All (λ node. node.text < length lengths.now) table.now.nodes }
    ensures { IsTrue result
        ↔ (sum_by (length_at table.now.nodes lengths.now) deps.now + own ≤ GRAPH_TEXT_LIMIT) }
{
    let mut left = GRAPH_TEXT_LIMIT;
    for dep in deps {
        let count = lengths[table.row(*dep).text];
        if count > left {
            return false;
        }
        left -= count;
    }
    own <= left
}
