//! The sets of all indices, grown along links until each takes all that its links hand on.

ghost use Rattle.std.specs.Prelude.{◌≡◌, ℕ, ◌+◌, ◌<◌, ◌∷◌, ◌++◌, [], Contains, false, length, IfOk, OnOk, slice_index, slice_set};
ghost use Rattle.std.specs.List.{All};
ghost use Rattle.vhdl_scope.specs.Bits.{AreWithin, has, row_has};
ghost use Rattle.vhdl_scope.specs.Links.{AreBelow, AreEven, AreTaken, HasLookedAt, HasSpread};
ghost use Rattle.vhdl_scope.specs.Work.{AreReaders, HasRevisited, IsSettling, IsWork, KnowReaders};

use crate::links::LinkList;
use crate::look::{look, look_up_to};
use crate::order::order_of;
use crate::row::{Draft, Row};
use crate::work::{list_all, list_one, readers_of};
use base::{Items, NoMemory};
use std::alloc::Global;

/// Puts a row in the place of one.
fn put_back(rows: &mut [Row], at: usize, row: Row)
    requires { at < length rows.old }
    ensures { rows.new ≡ slice_set rows.old at row }
{
    rows[at] = row;
}

/// Looks at an index, and says whether its row has grown. What is in `room` is lost.
fn look_at(
    alloc: Global,
    links: &[LinkList],
    rows: &mut [Row],
    at: usize,
    room: &mut Draft,
) -> Result<bool, NoMemory>
    requires at { at < length rows.old }
    requires each { length links.now ≡ length rows.old }
    requires even { AreEven (length room.old) rows.old }
    requires below { AreBelow (length rows.old) links.now }
    ensures room { length room.new ≡ length room.old }
    ensures looked { IfOk result (HasLookedAt links.now at rows.old rows.new) }
{
    room.load(&rows[at])?;
    let grown = look(links[at].as_slice(), rows, room)?;
    if grown {
        put_back(rows, at, room.to_row(alloc)?);
    }
    Ok(grown)
}

/// A row that has all numbers of all rows.
fn top_of(alloc: Global, rows: &[Row], words: usize) -> Result<Draft, NoMemory>
    requires { AreEven words rows.now }
    ensures { IfOk result (λ top. AreWithin (has rows.now) (λ at. row_has top)) }
{
    let mut top = Draft::new(alloc, words);
    for row in rows {
        top.join(row)?;
    }
    Ok(top)
}

/// Looks at an index, unless its row is one that has all numbers of all rows: then there is nothing to take.
fn look_below(
    alloc: Global,
    links: &[LinkList],
    rows: &mut [Row],
    at: usize,
    room: &mut Draft,
    top: &Draft,
) -> Result<bool, NoMemory>
    requires at { at < length rows.old }
    requires each { length links.now ≡ length rows.old }
    requires even { AreEven (length room.old) rows.old }
    requires below { AreBelow (length rows.old) links.now }
    requires inside { AreWithin (has rows.old) (λ row_index. row_has top.now) }
    ensures room { length room.new ≡ length room.old }
    ensures looked { IfOk result (HasLookedAt links.now at rows.old rows.new) }
{
    if rows[at].same(top) {
        return Ok(false);
    }
    room.load(&rows[at])?;
    let grown = look_up_to(links[at].as_slice(), rows, room, top)?;
    if grown {
        put_back(rows, at, room.to_row(alloc)?);
    }
    Ok(grown)
}

/// Looks at indices, in order. No row has a number that `top` doesn't have.
fn sweep(
    alloc: Global,
    links: &[LinkList],
    rows: &mut [Row],
    order: &[usize],
    room: &mut Draft,
    top: &Draft,
) -> Result<(), NoMemory>
    requires each { length links.now ≡ length rows.old }
    requires even { AreEven (length room.old) rows.old }
    requires below { AreBelow (length rows.old) links.now }
    requires inside { AreWithin (has rows.old) (λ row_index. row_has top.now) }
    requires within { All (λ at. at < length rows.old) order.now }
    ensures room { length room.new ≡ length room.old }
    ensures spread { OnOk result (HasSpread links.now rows.old rows.new) }
{
    for at in order {
        look_below(alloc, links, rows, *at, room, top)?;
    }
    Ok(())
}

/// Looks at indices, from the last on.
fn sweep_back(
    alloc: Global,
    links: &[LinkList],
    rows: &mut [Row],
    order: &[usize],
    room: &mut Draft,
) -> Result<(), NoMemory>
    requires each { length links.now ≡ length rows.old }
    requires even { AreEven (length room.old) rows.old }
    requires below { AreBelow (length rows.old) links.now }
    requires within { All (λ at. at < length rows.old) order.now }
    ensures room { length room.new ≡ length room.old }
    ensures spread { OnOk result (HasSpread links.now rows.old rows.new) }
{
    for index in (0..order.len()).rev() {
        look_at(alloc, links, rows, order[index], room)?;
    }
    Ok(())
}

/// Looks at indices twice, in order. No row has a number that `top` doesn't have.
fn sweep_twice(
    alloc: Global,
    links: &[LinkList],
    rows: &mut [Row],
    order: &[usize],
    room: &mut Draft,
    top: &Draft,
) -> Result<(), NoMemory>
    requires each { length links.now ≡ length rows.old }
    requires even { AreEven (length room.old) rows.old }
    requires below { AreBelow (length rows.old) links.now }
    requires inside { AreWithin (has rows.old) (λ row_index. row_has top.now) }
    requires within { All (λ at. at < length rows.old) order.now }
    ensures room { length room.new ≡ length room.old }
    ensures spread { OnOk result (HasSpread links.now rows.old rows.new) }
{
    sweep(alloc, links, rows, order, room, top)?;
    sweep(alloc, links, rows, order, room, top)?;
    Ok(())
}

/// Looks at each index once, and says whether a row has grown. No row has a number that `top` doesn't have.
fn sweep_all(
    alloc: Global,
    links: &[LinkList],
    rows: &mut [Row],
    room: &mut Draft,
    top: &Draft,
) -> Result<bool, NoMemory>
    requires each { length links.now ≡ length rows.old }
    requires even { AreEven (length room.old) rows.old }
    requires below { AreBelow (length rows.old) links.now }
    requires inside { AreWithin (has rows.old) (λ row_index. row_has top.now) }
    ensures room { length room.new ≡ length room.old }
    ensures spread { OnOk result (HasSpread links.now rows.old rows.new) }
    ensures taken { IfOk result (λ grown. grown ≡ false → AreTaken links.now (has rows.new)) }
{
    let mut grown = false;
    for at in 0..rows.len() {
        let more = look_below(alloc, links, rows, at, room, top)?;
        grown |= more;
    }
    Ok(grown)
}

/// Looks at an index that was taken from the list of work. Where its row has grown, the index and its readers are listed.
fn revisit(
    alloc: Global,
    links: &[LinkList],
    readers: &[Items<usize>],
    rows: &mut [Row],
    room: &mut Draft,
    work: &mut Vec<usize>,
    flags: &mut [bool],
    at: usize,
) -> Result<(), NoMemory>
    requires at { at < length rows.old }
    requires each { length links.now ≡ length rows.old }
    requires even { AreEven (length room.old) rows.old }
    requires below { AreBelow (length rows.old) links.now }
    requires flags { length flags.old ≡ length rows.old }
    requires readers { length readers.now ≡ length rows.old }
    requires row_indices { AreReaders (length rows.old) readers.now }
    requires known { KnowReaders links.now readers.now }
    requires work { IsWork (work.old.items ++ at ∷ []) flags.old }
    ensures room { length room.new ≡ length room.old }
    ensures revisited { OnOk result (HasRevisited links.now readers.now at
        rows.old work.old.items flags.old rows.new work.new.items flags.new) }
{
    flags[at] = false;
    let grown = look_at(alloc, links, rows, at, room)?;
    if grown {
        list_one(work, flags, at)?;
        list_all(work, flags, readers[at].as_slice())?;
    }
    Ok(())
}

/// Looks at indices on the list of work until none is on it.
fn settle(
    alloc: Global,
    links: &[LinkList],
    readers: &[Items<usize>],
    rows: &mut [Row],
    room: &mut Draft,
    work: &mut Vec<usize>,
    flags: &mut [bool],
) -> Result<(), NoMemory>
    requires each { length links.now ≡ length rows.old }
    requires even { AreEven (length room.old) rows.old }
    requires below { AreBelow (length rows.old) links.now }
    requires readers { length readers.now ≡ length rows.old }
    requires row_indices { AreReaders (length rows.old) readers.now }
    requires known { KnowReaders links.now readers.now }
    requires settling { IsSettling links.now rows.old rows.old work.old.items flags.old }
    ensures spread { OnOk result (HasSpread links.now rows.old rows.new) }
    ensures taken { OnOk result (AreTaken links.now (has rows.new)) }
{
    while let Some(at) = work.pop() {
        revisit(alloc, links, readers, rows, room, work, flags, at)?;
    }
    Ok(())
}

/// All indices, in order.
fn all_indices(alloc: Global, row_indices: usize) -> Result<Vec<usize>, NoMemory>
    ensures each { IfOk result (λ work. length work.items ≡ row_indices) }
    ensures is { IfOk result (λ work. (k : ℕ) → k < row_indices → slice_index work.items k ≡ k) }
{
    let mut work = Vec::new(alloc);
    for at in 0..row_indices {
        work.push(at)?;
    }
    Ok(work)
}

/// Looks at indices until each takes all that its links hand on: again where a set that it takes from has grown.
fn settle_all(
    alloc: Global,
    links: &[LinkList],
    rows: &mut [Row],
    room: &mut Draft,
) -> Result<(), NoMemory>
    requires each { length links.now ≡ length rows.old }
    requires even { AreEven (length room.old) rows.old }
    requires below { AreBelow (length rows.old) links.now }
    ensures spread { OnOk result (HasSpread links.now rows.old rows.new) }
    ensures taken { OnOk result (AreTaken links.now (has rows.new)) }
{
    let readers = readers_of(alloc, links)?;
    let mut work = all_indices(alloc, rows.len())?;
    let mut flags = vec![in alloc; true; rows.len()]?;
    settle(
        alloc,
        links,
        readers.as_slice(),
        rows,
        room,
        &mut work,
        flags.as_mut_slice(),
    )
}

/// Grows the sets of all indices until each takes all that its links hand on. The result is the least such sets that hold the
/// given ones. Two sweeps run in an order in which an index mostly comes after the indices that it takes from. A third sweep finds
/// whether a set still grows; if so, a sweep back and the list of work settle the rest. The first three sweeps pass over an index
/// whose row has all numbers of all rows.
pub fn spread(
    alloc: Global,
    links: &[LinkList],
    rows: &mut [Row],
    words: usize,
) -> Result<(), NoMemory>
    requires each { length links.now ≡ length rows.old }
    requires even { AreEven words rows.old }
    requires below { AreBelow (length rows.old) links.now }
    ensures spread { OnOk result (HasSpread links.now rows.old rows.new) }
    ensures taken { OnOk result (AreTaken links.now (has rows.new)) }
{
    let mut room = Draft::new(alloc, words);
    let top = top_of(alloc, rows, words)?;
    let order = order_of(alloc, links)?;
    sweep_twice(alloc, links, rows, order.as_slice(), &mut room, &top)?;
    let grown = sweep_all(alloc, links, rows, &mut room, &top)?;
    if !grown {
        return Ok(());
    }
    sweep_back(alloc, links, rows, order.as_slice(), &mut room)?;
    settle_all(alloc, links, rows, &mut room)
}
