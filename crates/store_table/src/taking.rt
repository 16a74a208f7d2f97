//! Taking up payloads, one after the other.

ghost use Rattle.std.specs.Prelude.{◌≡◌, ◌<◌, ℕ, List, length, IfOk, OnOk};
ghost use Rattle.base.specs.Names.{FitsName};
ghost use Rattle.store_codec.specs.Forms.RequestPayload.{OfProduct, OfRequest};
ghost use Rattle.store_codec.specs.Ranges.{product_in_ranges, request_in_ranges};
ghost use Rattle.store_codec.specs.RecordTables.{after_request_payload, record_table_of};
ghost use Rattle.store_table.specs.Located.{HasRowRoom, IsTableLocated, nth_payload, located_table};
ghost use Rattle.store_table.specs.Checked.{IsNameNumber, Took};

use crate::checking::{checked_product, checked_request};
use crate::putting::{put_product, put_request};
use crate::{HeldPayloads, LocatedTable};
use base::{Entry, FileName, NoMemory};
use base_bytes::name_in;
use base_collections::NumberSet;
use std::alloc::Global;
use store_codec::{PayloadRanges, ProductRanges, RequestRanges, read_request_payload};

/// The number of a name, which is added if it is new. The texts, products and records of the table are unchanged.
pub fn number_name(table: &mut LocatedTable, name: FileName) -> Result<usize, NoMemory>
    ensures named { IfOk result (IsNameNumber table.new.names.keys name) }
    ensures are { (payloads : List (List ℕ)) →
        IsTableLocated payloads table.old → IsTableLocated payloads table.new }
    ensures is { (payloads : List (List ℕ)) → IsTableLocated payloads table.old →
        located_table payloads table.new ≡ located_table payloads table.old }
    ensures room { (count : ℕ) → HasRowRoom count table.old → HasRowRoom count table.new }
{
    let number = table.names.add(name)?;
    Ok(number)
}

/// Adds the names of files that are new, in the order of the files. The texts, products and records of the table are unchanged.
pub fn number_names(
    alloc: Global,
    table: &mut LocatedTable,
    files: &[Entry],
) -> Result<(), NoMemory>
    ensures are { (payloads : List (List ℕ)) →
        IsTableLocated payloads table.old → IsTableLocated payloads table.new }
    ensures is { (payloads : List (List ℕ)) → IsTableLocated payloads table.old →
        located_table payloads table.new ≡ located_table payloads table.old }
{
    for file in files {
        let name = file.name.copy(alloc)?;
        let _number = number_name(table, name)?;
    }
    Ok(())
}

/// Takes up a draft of a record, where it is one, by the number of its name.
fn take_named_request(
    table: &mut LocatedTable,
    set: &mut NumberSet,
    held: &HeldPayloads<'_>,
    at: usize,
    draft: RequestRanges,
    name: usize,
) -> Result<(), NoMemory>
    requires at { at < length held.now.segments }
    requires table { IsTableLocated held.now.segments table.old }
    requires name { IsNameNumber table.old.names.keys
        (request_in_ranges (nth_payload held.now.segments at) draft).name name }
    requires fits { FitsName
        (request_in_ranges (nth_payload held.now.segments at) draft).name }
    ensures { OnOk result
        (Took held.now.segments (located_table held.now.segments table.old) table.new
        (OfRequest (request_in_ranges (nth_payload held.now.segments at) draft))) }
{
    let Some(texts) = checked_request(set, held, table, held.get(at), draft, name)? else {
        return Ok(());
    };
    table.reserve()?;
    put_request(table, held, at, draft, name, texts);
    Ok(())
}

/// Takes up a draft of a record, where it is one.
fn take_request(
    alloc: Global,
    table: &mut LocatedTable,
    set: &mut NumberSet,
    held: &HeldPayloads<'_>,
    at: usize,
    draft: RequestRanges,
) -> Result<(), NoMemory>
    requires at { at < length held.now.segments }
    requires table { IsTableLocated held.now.segments table.old }
    ensures { OnOk result
        (Took held.now.segments (located_table held.now.segments table.old) table.new
        (OfRequest (request_in_ranges (nth_payload held.now.segments at) draft))) }
{
    let name = name_in(alloc, held.get(at), draft.library, draft.path)?;
    if !name.is_within_limits() {
        return Ok(());
    }
    let number = number_name(table, name)?;
    take_named_request(table, set, held, at, draft, number)
}

/// Takes up a draft of a product, where it is a new one, by the number of its name.
fn take_named_product(
    table: &mut LocatedTable,
    held: &HeldPayloads<'_>,
    at: usize,
    draft: ProductRanges,
    name: usize,
) -> Result<(), NoMemory>
    requires at { at < length held.now.segments }
    requires table { IsTableLocated held.now.segments table.old }
    requires name { IsNameNumber table.old.names.keys
        (product_in_ranges (nth_payload held.now.segments at) draft).name name }
    requires fits { FitsName
        (product_in_ranges (nth_payload held.now.segments at) draft).name }
    ensures { OnOk result
        (Took held.now.segments (located_table held.now.segments table.old) table.new
        (OfProduct (product_in_ranges (nth_payload held.now.segments at) draft))) }
{
    let Some(text) = checked_product(held, table, at, draft, name) else {
        return Ok(());
    };
    table.reserve()?;
    put_product(table, held, at, draft, name, text);
    Ok(())
}

/// Takes up a draft of a product, where it is a new one.
fn take_product(
    alloc: Global,
    table: &mut LocatedTable,
    held: &HeldPayloads<'_>,
    at: usize,
    draft: ProductRanges,
) -> Result<(), NoMemory>
    requires at { at < length held.now.segments }
    requires table { IsTableLocated held.now.segments table.old }
    ensures { OnOk result
        (Took held.now.segments (located_table held.now.segments table.old) table.new
        (OfProduct (product_in_ranges (nth_payload held.now.segments at) draft))) }
{
    let name = name_in(alloc, held.get(at), draft.library, draft.path)?;
    if !name.is_within_limits() {
        return Ok(());
    }
    let number = number_name(table, name)?;
    take_named_product(table, held, at, draft, number)
}

/// Takes up the payload that is a segment.
pub(crate) fn take_up(
    alloc: Global,
    table: &mut LocatedTable,
    set: &mut NumberSet,
    held: &HeldPayloads<'_>,
    at: usize,
) -> Result<(), NoMemory>
    requires at { at < length held.now.segments }
    requires table { IsTableLocated held.now.segments table.old }
    ensures are { OnOk result (IsTableLocated held.now.segments table.new) }
    ensures is { OnOk result
        (located_table held.now.segments table.new
        ≡ after_request_payload (located_table held.now.segments table.old)
        (nth_payload held.now.segments at)) }
{
    match read_request_payload(held.get(at)) {
        Some(PayloadRanges::OfRequest(draft)) => take_request(alloc, table, set, held, at, draft),
        Some(PayloadRanges::OfProduct(draft)) => take_product(alloc, table, held, at, draft),
        None => Ok(()),
    }
}

/// What payloads stand for, taken up one after the other.
pub fn taken_up(alloc: Global, held: &HeldPayloads<'_>) -> Result<LocatedTable, NoMemory>
    ensures are { IfOk result (IsTableLocated held.now.segments) }
    ensures is { IfOk result
        (λ table.
        located_table held.now.segments table ≡ record_table_of held.now.segments) }
{
    let mut table = LocatedTable::new(alloc);
    let mut set = NumberSet::new(alloc);
    for at in 0..held.len() {
        take_up(alloc, &mut table, &mut set, held, at)?;
    }
    Ok(table)
}
