//! What files depend on, directly or not, as rows of bits.

ghost use Rattle.std.specs.Prelude.{◌≡◌, ℕ, ◌<◌, ◌≤◌, ◌==◌, ◌||◌, length, All, slice_index, IfOk};
ghost use Rattle.std.specs.List.{list_any};
ghost use Rattle.base_collections.specs.Positions.{has};
ghost use Rattle.order.specs.BuildOrder.{AreEdges, IsBuildOrder};
ghost use Rattle.order.specs.LinkedGraph.{reaches};
ghost use Rattle.project_graph.specs.Rows.{row_has, AreRanks};

use base::{Edges, FILE_LIMIT, NoMemory, Positions};
use base_collections::PositionSet;
use std::alloc::Global;

/// Where each file is in an order, at its position in the project.
pub(crate) fn ranks_of(alloc: Global, edges: &Edges, order: &[u32]) -> Result<Vec<u32>, NoMemory>
    requires are { AreEdges edges.now }
    requires order { IsBuildOrder edges.now order.now }
    ensures { IfOk result (λ ranks. AreRanks ranks.items order.now (length edges.now)) }
{
    let count = edges.as_slice().len();
    let mut ranks = vec![in alloc; 0u32; count]?;
    for rank in 0..order.len() {
        ranks[order[rank] as usize] = rank as u32;
    }
    Ok(ranks)
}

/// Puts a rank in, with all that the file there depends on.
fn add_dep(row: &mut PositionSet, rank: u32, rows: &[PositionSet])
    requires rank { rank < length rows.now }
    requires few { length rows.now ≤ FILE_LIMIT }
    ensures { (at : ℕ) → has row.new at ≡
        (has row.old at || ((rank == at) || row_has rows.now rank at)) }
{
    row.insert(rank);
    row.add_all(&rows[rank as usize]);
}

/// The ranks of what a file depends on itself, and of all that these depend on.
fn closure_row(deps: &[u32], ranks: &[u32], rows: &[PositionSet]) -> PositionSet
    requires deps { All (λ dep. dep < length ranks.now) deps.now }
    requires earlier { All (λ dep. slice_index ranks.now dep < length rows.now) deps.now }
    requires few { length rows.now ≤ FILE_LIMIT }
    ensures { (at : ℕ) → has result at ≡ list_any (λ dep. (slice_index ranks.now dep == at) ||
        row_has rows.now (slice_index ranks.now dep) at) deps.now }
{
    let mut row = PositionSet::new();
    for dep in deps {
        add_dep(&mut row, ranks[*dep as usize], rows);
    }
    row
}

/// Of each file in the order the ranks of all that it depends on, directly or not. It takes time in proportion to the
/// edges, each of which joins two rows.
pub(crate) fn closures(
    alloc: Global,
    edges: &Edges,
    order: &[u32],
    ranks: &[u32],
) -> Result<Vec<PositionSet>, NoMemory>
    requires are { AreEdges edges.now }
    requires order { IsBuildOrder edges.now order.now }
    requires ranks { AreRanks ranks.now order.now (length edges.now) }
    ensures count { IfOk result (λ rows. length rows.items ≡ length order.now) }
    ensures rows { IfOk result (λ rows. (rank at : ℕ) → rank < length order.now →
        at < length order.now → row_has rows.items rank at ≡
        reaches edges.now (slice_index order.now rank) (slice_index order.now at)) }
{
    let edges = edges.as_slice();
    let mut rows = Vec::new(alloc);
    for rank in 0..order.len() {
        let deps = edges[order[rank] as usize].as_slice();
        rows.push(closure_row(deps, ranks, rows.as_slice()))?;
    }
    Ok(rows)
}
