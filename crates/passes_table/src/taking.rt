//! Taking up payloads, one after the other.

ghost use Rattle.std.specs.Prelude.{◌≡◌, ◌<◌, length, IfOk, OnOk};
ghost use Rattle.store_table.specs.Located.{nth_payload};
ghost use Rattle.passes_codec.specs.PassTables.{after_pass_payload, pass_table_of, with_draft};
ghost use Rattle.passes_codec.specs.Ranges.{HasFilesAt, pass_in_ranges};
ghost use Rattle.passes_table.specs.Located.{ArePassesLocated, located_passes};

use crate::LocatedPasses;
use crate::checking::checked_pass;
use crate::putting::put_pass;
use base::NoMemory;
use passes_codec::{PassRanges, read_pass_payload};
use std::alloc::Global;
use store_table::HeldPayloads;

/// Takes up the payload of a pass, where the pass is valid.
fn take_pass(
    alloc: Global,
    table: &mut LocatedPasses,
    held: &HeldPayloads<'_>,
    at: usize,
    draft: PassRanges,
) -> Result<(), NoMemory>
    requires at { at < length held.now.segments }
    requires table { ArePassesLocated held.now.segments table.old }
    requires files { HasFilesAt (nth_payload held.now.segments at) draft.list }
    ensures are { OnOk result (ArePassesLocated held.now.segments table.new) }
    ensures is { OnOk result
        (located_passes held.now.segments table.new
        ≡ with_draft (located_passes held.now.segments table.old)
        (pass_in_ranges (nth_payload held.now.segments at) draft)) }
{
    let Some(addition) = checked_pass(alloc, table, held, at, draft)? else {
        return Ok(());
    };
    table.reserve(addition.list.count)?;
    put_pass(table, held, at, addition);
    Ok(())
}

/// Takes up the payload that is a segment. Bytes that aren't those of a valid pass add nothing.
pub fn take_up(
    alloc: Global,
    table: &mut LocatedPasses,
    held: &HeldPayloads<'_>,
    at: usize,
) -> Result<(), NoMemory>
    requires at { at < length held.now.segments }
    requires table { ArePassesLocated held.now.segments table.old }
    ensures are { OnOk result (ArePassesLocated held.now.segments table.new) }
    ensures is { OnOk result
        (located_passes held.now.segments table.new
        ≡ after_pass_payload (located_passes held.now.segments table.old)
        (nth_payload held.now.segments at)) }
{
    match read_pass_payload(held.get(at)) {
        Some(draft) => take_pass(alloc, table, held, at, draft),
        None => Ok(()),
    }
}

/// What payloads stand for, taken up one after the other.
pub fn taken_up(alloc: Global, held: &HeldPayloads<'_>) -> Result<LocatedPasses, NoMemory>
    ensures are { IfOk result (ArePassesLocated held.now.segments) }
    ensures is { IfOk result
        (λ table.
        located_passes held.now.segments table ≡ pass_table_of held.now.segments) }
{
    let mut table = LocatedPasses::new(alloc);
    for at in 0..held.len() {
        take_up(alloc, &mut table, held, at)?;
    }
    Ok(table)
}
