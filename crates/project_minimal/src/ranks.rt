//! Where the files of a set are in an order.

ghost use Rattle.std.specs.Prelude.{◌≡◌, ◌≤◌, [], ◌∷◌, ◌++◌, if◌then◌else◌, length, filter, slice_index, IfOk, OnOk};
ghost use Rattle.base.specs.PresentGraph.{below};
ghost use Rattle.base_collections.specs.Positions.{has};

use crate::taken::is_in;
use base::{FILE_LIMIT, NoMemory, Positions};
use base_collections::PositionSet;
use std::alloc::Global;

/// Adds a rank, where it is to be there.
fn push_where(ranks: &mut Positions, rank: u32, is: bool) -> Result<(), NoMemory>
    ensures { OnOk result (ranks.new ≡ ranks.old ++ (if is then rank ∷ [] else [])) }
{
    if is {
        ranks.push(rank)?;
    }
    Ok(())
}

/// The ranks in an order of the files of a set, rising.
pub fn ranks_in(alloc: Global, order: &[u32], set: &PositionSet) -> Result<Positions, NoMemory>
    requires { length order.now ≤ FILE_LIMIT }
    ensures { IfOk result (λ ranks. ranks
        ≡ filter (λ rank. has set.now (slice_index order.now rank)) (below (length order.now))) }
{
    let mut ranks = Positions::new(alloc);
    for rank in 0..order.len() {
        let is = is_in(set, order[rank]);
        push_where(&mut ranks, rank as u32, is)?;
    }
    Ok(ranks)
}
