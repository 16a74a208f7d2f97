//! What one more payload adds.

ghost use Rattle.std.specs.Prelude.{◌≡◌, ◌<◌, ◌≤◌, ◌++◌, ◌∷◌, [], length};
ghost use Rattle.store_table.specs.Located.{HasRowRoom, IsHeld};
ghost use Rattle.store.specs.Additions.{AddsRequest, IsCutFor};

use store_codec::RequestRanges;
use store_journal::Ready;
use store_table::{CutRequest, HeldPayloads, LocatedTable, TextNumbers, put_borrowed, put_request};

/// A record: the position of its file in the graph that it was prepared for, its parts in its payload, and the numbers of its
/// name and its texts.
#[derive(Clone, Copy)]
pub struct RequestAddition {
    pub at: u32,
    pub draft: RequestRanges,
    pub name: usize,
    pub numbers: TextNumbers,
}

/// A payload that is ready to be added, what it adds, and the payload without its text where a file lends that.
#[derive(Drop)]
pub struct NextRequest {
    pub segment: Ready,
    pub addition: RequestAddition,
    pub cut: Option<CutRequest>,
}

/// Puts the whole payload of a record at the end, with what it stands for. It takes no memory.
fn put_whole(
    held: &mut HeldPayloads<'_>,
    table: &mut LocatedTable,
    addition: RequestAddition,
    segment: Ready,
)
    requires ready { AddsRequest held.old.payloads table.old.names.keys segment addition }
    requires room { 0 < held.old.room }
    requires row_room { HasRowRoom 3 table.old }
    requires is { IsHeld held.old.segments held.old.payloads table.old }
    ensures payloads { held.new.payloads ≡ held.old.payloads ++ segment ∷ [] }
    ensures is { IsHeld held.new.segments held.new.payloads table.new }
{
    let at = held.len();
    held.put(segment);
    put_request(
        table,
        held,
        at,
        addition.draft,
        addition.name,
        addition.numbers,
    );
}

/// Puts the payload of a record at the end, with what it stands for. A text that a file lends isn't held again. It takes no memory.
pub fn put_held(
    held: &mut HeldPayloads<'_>,
    table: &mut LocatedTable,
    addition: RequestAddition,
    segment: Ready,
    cut: Option<CutRequest>,
)
    requires ready { AddsRequest held.old.payloads table.old.names.keys segment addition }
    requires cut { IsCutFor held.old.borrowed segment addition cut }
    requires room { 0 < held.old.room }
    requires row_room { HasRowRoom 3 table.old }
    requires is { IsHeld held.old.segments held.old.payloads table.old }
    ensures payloads { held.new.payloads ≡ held.old.payloads ++ segment ∷ [] }
    ensures is { IsHeld held.new.segments held.new.payloads table.new }
{
    match cut {
        Some(cut) => put_borrowed(
            table,
            held,
            segment.payload(),
            addition.draft,
            addition.name,
            addition.numbers,
            cut,
        ),
        None => put_whole(held, table, addition, segment),
    }
}
