//! The order of files.

ghost use Rattle.std.specs.Prelude.{◌≡◌, ℕ, List, [], IfOk, OnOk};
ghost use Rattle.order.specs.BuildOrder.{AreEdges, GivesOrder, file_order, all_taken, first_free, with_taken, IsBuildOrder};
ghost use Rattle.order.specs.Untakens.{IsUntaken};

use crate::ReadyFiles;
use crate::cycle::cycle_of;
use crate::untaken::{next_free, none_taken, take, untaken};
use base::{Edges, NoMemory, Order, OrderFault};
use std::alloc::Global;

/// Takes the first file that can be taken, if there is one.
fn take_next(left: &mut ReadyFiles, order: &mut Order) -> Result<(), NoMemory>
    ensures { OnOk result ((edges : List (List ℕ)) → IsUntaken left.old edges order.old →
        (order.new ≡ with_taken order.old (first_free edges order.old)) ×
        IsUntaken left.new edges order.new) }
{
    let Some(at) = next_free(left) else {
        return Ok(());
    };
    take(left, at);
    order.push(at)?;
    Ok(())
}

/// Takes all files that can be taken, in their order.
fn take_files(alloc: Global, left: &mut ReadyFiles, edges: &Edges) -> Result<Order, NoMemory>
    requires { IsUntaken left.old edges.now [] }
    ensures order { IfOk result (λ order. order ≡ all_taken edges.now) }
    ensures left { IfOk result (λ order. IsUntaken left.new edges.now order) }
{
    let mut order = Order::new(alloc);
    for _step in 0..edges.len() {
        take_next(left, &mut order)?;
    }
    Ok(order)
}

/// The order of files of which each depends on these others: again and again the first file in project order all of whose
/// dependencies were taken. Where some files can't be taken, the cycle that is met from the first of them, by the first
/// untaken dependency each time.
pub fn order(alloc: Global, edges: &Edges) -> Result<Order, OrderFault>
    requires { AreEdges edges.now }
    ensures exact { GivesOrder (file_order edges.now) result }
    ensures sorted { IfOk result (IsBuildOrder edges.now) }
{
    let mut left = none_taken(alloc, edges)?;
    let order = take_files(alloc, &mut left, edges)?;
    if order.len() == edges.len() {
        return Ok(order);
    }
    let files = cycle_of(alloc, edges, untaken(&left))?;
    Err(OrderFault::Cycle { files })
}
