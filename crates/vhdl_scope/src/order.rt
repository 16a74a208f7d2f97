//! An order of indices in which an index mostly comes after the indices that it takes from.

ghost use Rattle.std.specs.Prelude.{◌≡◌, ◌<◌, IfOk, OnOk, length};
ghost use Rattle.std.specs.List.{All};
ghost use Rattle.vhdl_scope.specs.Links.{AreBelow};
ghost use Rattle.vhdl_scope.specs.Order.{AreStepsBelow};

use crate::links::LinkList;
use base::NoMemory;
use std::alloc::Global;

/// An index that a walk along links stands at, and the number of the link that it follows next.
#[derive(Clone, Copy)]
pub struct Step {
    pub row_index: usize,
    pub next: usize,
}

/// Goes to an index, where the walk hasn't been there.
fn enter(steps: &mut Vec<Step>, flags: &mut [bool], at: usize) -> Result<(), NoMemory>
    requires at { at < length flags.old }
    requires steps { AreStepsBelow (length flags.old) steps.old.items }
    ensures each { length flags.new ≡ length flags.old }
    ensures steps { OnOk result (AreStepsBelow (length flags.old) steps.new.items) }
{
    if !flags[at] {
        flags[at] = true;
        steps.push(Step {
            row_index: at,
            next: 0,
        })?;
    }
    Ok(())
}

/// Follows the next link of an index. After the last link, the walk leaves the index.
fn walk_on(
    links: &[LinkList],
    steps: &mut Vec<Step>,
    flags: &mut [bool],
    order: &mut Vec<usize>,
    top: Step,
) -> Result<(), NoMemory>
    requires top { top.row_index < length links.now }
    requires each { length flags.old ≡ length links.now }
    requires below { AreBelow (length links.now) links.now }
    requires steps { AreStepsBelow (length links.now) steps.old.items }
    requires order { All (λ at. at < length links.now) order.old.items }
    ensures each { length flags.new ≡ length flags.old }
    ensures steps { OnOk result (AreStepsBelow (length links.now) steps.new.items) }
    ensures order { OnOk result (All (λ at. at < length links.now) order.new.items) }
{
    let some = links[top.row_index].as_slice();
    if top.next < some.len() {
        // the last link first: a look follows the first ones first, whose indices are then left already
        let link = some[some.len() - 1 - top.next];
        steps.push(Step {
            row_index: top.row_index,
            next: top.next + 1,
        })?;
        enter(steps, flags, link.source)?;
    } else {
        order.push(top.row_index)?;
    }
    Ok(())
}

/// Walks on until all indices that were gone to are left.
fn walk_out(
    links: &[LinkList],
    steps: &mut Vec<Step>,
    flags: &mut [bool],
    order: &mut Vec<usize>,
) -> Result<(), NoMemory>
    requires each { length flags.old ≡ length links.now }
    requires below { AreBelow (length links.now) links.now }
    requires steps { AreStepsBelow (length links.now) steps.old.items }
    requires order { All (λ at. at < length links.now) order.old.items }
    ensures each { length flags.new ≡ length flags.old }
    ensures steps { OnOk result (AreStepsBelow (length links.now) steps.new.items) }
    ensures order { OnOk result (All (λ at. at < length links.now) order.new.items) }
{
    for _ in 0..u64::MAX {
        let Some(top) = steps.pop() else {
            return Ok(());
        };
        walk_on(links, steps, flags, order, top)?;
    }
    Ok(())
}

/// Row indices, in the order in which a walk along links from all indices leaves them. The walk goes to each index once. So an
/// index comes after the indices that it takes from, except for links that close a ring.
pub fn order_of(alloc: Global, links: &[LinkList]) -> Result<Vec<usize>, NoMemory>
    requires below { AreBelow (length links.now) links.now }
    ensures { IfOk result (λ order. All (λ at. at < length links.now) order.items) }
{
    let mut steps = Vec::new(alloc);
    let mut order = Vec::with_capacity(alloc, links.len())?;
    let mut flags = vec![in alloc; false; links.len()]?;
    for at in 0..links.len() {
        enter(&mut steps, flags.as_mut_slice(), at)?;
        walk_out(links, &mut steps, flags.as_mut_slice(), &mut order)?;
    }
    Ok(order)
}
