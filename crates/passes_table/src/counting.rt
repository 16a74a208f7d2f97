//! How many bytes compaction keeps, counted without a payload.

ghost use Rattle.std.specs.Prelude.{◌≡◌, ◌<◌, ◌≤◌, ◌+◌, ◌-◌, ◌*◌, [], Some, drop, length, slice_index_or, IfOk, OnOk};
ghost use Rattle.std.specs.List.{flat_map};
ghost use Rattle.store_codec.specs.Compaction.{compacted_ref, with_compacted_text};
ghost use Rattle.store_journal.specs.DeadBytes.{capped_length};
ghost use Rattle.store_journal.specs.Payloads.{block};
ghost use Rattle.store_table.specs.Located.{IsProductRow, located_texts, row_product};
ghost use Rattle.store_table.specs.NumberSets.{AreNumbers};
ghost use Rattle.passes_codec.specs.Compaction.{FitsBuilt, compacted_passes, spelled_files, spelled_list, spelled_pass};
ghost use Rattle.passes_codec.specs.Forms.{file_bytes, list_ref_bytes, pass_bytes};
ghost use Rattle.passes_codec.specs.Forms.ListRef.{NewList};
ghost use Rattle.passes_codec.specs.PassTables.{passes_among, with_list_texts};
ghost use Rattle.passes_table.specs.Kept.{AreOldNumbers, IsAfterList, counted_on, kept_table, numbered_texts};
ghost use Rattle.passes_table.specs.Located.{ArePassesHeld, ArePassesLocated, located_passes};
ghost use Rattle.passes_table.specs.Next.{HasPartsOfPass, pass_over};
ghost use Rattle.passes_table.specs.declared.writing.TheConstants.{FILE_SIZE, LIST_SIZE};

use crate::LocatedPasses;
use crate::compacting::{KeptNumbers, copy_run, is_superseded, no_numbers};
use crate::writing::{FILE_SIZE, LIST_SIZE, PassParts, file_size, head_of};
use base::NoMemory;
use base_bytes::{bytes_in, copy_words};
use base_collections::NumberSet;
use std::alloc::Global;
use store_codec::TextPart;
use store_table::{HeldPayloads, ProductRow, text_at};

/// The bytes on a side that are counted so far, up to the greatest number of 64 bits, with the numbers of the lists and texts that are
/// kept.
#[derive(Drop)]
pub struct CountedPasses {
    pub bytes: u64,
    pub numbers: KeptNumbers,
}

/// The number of bytes of a file of a list, with its artefact by its new number if it has one, and in full otherwise.
fn kept_file_size(
    texts: &mut NumberSet,
    held: &HeldPayloads<'_>,
    table: &LocatedPasses,
    row: ProductRow,
) -> Result<usize, NoMemory>
    requires table { ArePassesLocated held.now.segments table.now }
    requires texts { AreNumbers (length (located_texts held.now.segments table.now.texts))
        texts.old }
    requires row { IsProductRow table.now.names.keys
        (located_texts held.now.segments table.now.texts) row }
    requires fits { FitsBuilt
        (row_product table.now.names.keys (located_texts held.now.segments table.now.texts) row) }
    ensures texts { OnOk result
        (AreNumbers (length (located_texts held.now.segments table.now.texts)) texts.new) }
    ensures size { let there = located_texts held.now.segments table.now.texts in
        let file = row_product table.now.names.keys there row in
        let ref = compacted_ref (numbered_texts there texts.old.numbers) file.artefact in
        IfOk result
        (λ size. size ≡ length (file_bytes (record { name = file.name; artefact = ref }))) }
    ensures small { IfOk result (λ size. size ≤ FILE_SIZE) }
    ensures kept { let there = located_texts held.now.segments table.now.texts in
        let file = row_product table.now.names.keys there row in
        OnOk result
        (numbered_texts there texts.new.numbers
        ≡ with_compacted_text (numbered_texts there texts.old.numbers) file.artefact) }
{
    let part = TextPart {
        known: texts.index_of(row.text),
        text: text_at(held, &table.texts, row.text),
    };
    let size = file_size(table.names.key(row.name), part);
    texts.add(row.text)?;
    Ok(size)
}

/// The number of bytes of a list as a new one, each artefact by its new number if it has one, and in full otherwise.
fn kept_list_size(
    texts: &mut NumberSet,
    held: &HeldPayloads<'_>,
    table: &LocatedPasses,
    list: usize,
) -> Result<usize, NoMemory>
    requires table { ArePassesHeld held.now.segments table.now }
    requires texts { AreNumbers (length (located_texts held.now.segments table.now.texts))
        texts.old }
    requires list { list < length table.now.lists.keys }
    ensures texts { OnOk result
        (AreNumbers (length (located_texts held.now.segments table.now.texts)) texts.new) }
    ensures size { let there = located_passes held.now.segments table.now in
        let files = spelled_files (numbered_texts there.texts texts.old.numbers)
        (slice_index_or there.lists list []) in
        IfOk result (λ size. size ≡ length (list_ref_bytes (NewList files))) }
    ensures small { IfOk result (λ size. size ≤ LIST_SIZE) }
    ensures kept { let there = located_passes held.now.segments table.now in
        let before = numbered_texts there.texts texts.old.numbers in
        OnOk result
        (numbered_texts there.texts texts.new.numbers
        ≡ with_list_texts before
        (spelled_files before (slice_index_or there.lists list []))) }
{
    let files = table.lists.key(list).files.as_slice();
    let mut size = 0;
    for row in files {
        size += kept_file_size(texts, held, table, *row)?;
    }
    Ok(size + 5)
}

/// The number of bytes of a list, by its new number if it has one, and as a new list otherwise.
fn kept_ref_size(
    numbers: &mut KeptNumbers,
    held: &HeldPayloads<'_>,
    table: &LocatedPasses,
    list: usize,
) -> Result<usize, NoMemory>
    requires table { ArePassesHeld held.now.segments table.now }
    requires numbers { AreOldNumbers (located_passes held.now.segments table.now) numbers.old }
    requires list { list < length table.now.lists.keys }
    ensures numbers { OnOk result
        (AreOldNumbers (located_passes held.now.segments table.now) numbers.new) }
    ensures size { let there = located_passes held.now.segments table.now in
        let before = kept_table there numbers.old.lists numbers.old.texts in
        IfOk result
        (λ size.
        size
        ≡ length (list_ref_bytes (spelled_list before (slice_index_or there.lists list [])))) }
    ensures small { IfOk result (λ size. size ≤ LIST_SIZE) }
    ensures after { let there = located_passes held.now.segments table.now in
        OnOk result
        (IsAfterList there (slice_index_or there.lists list []) numbers.old numbers.new) }
{
    if let Some(_number) = numbers.lists.index_of(list) {
        return Ok(9);
    }
    let size = kept_list_size(&mut numbers.texts, held, table, list)?;
    numbers.lists.add(list)?;
    Ok(size)
}

/// The number of bytes that the payload of a pass takes on a side, over a list by its new number if it has one.
fn kept_size(
    alloc: Global,
    numbers: &mut KeptNumbers,
    held: &HeldPayloads<'_>,
    table: &LocatedPasses,
    list: usize,
    parts: PassParts<'_>,
) -> Result<u64, NoMemory>
    requires table { ArePassesHeld held.now.segments table.now }
    requires numbers { AreOldNumbers (located_passes held.now.segments table.now) numbers.old }
    requires list { list < length table.now.lists.keys }
    requires parts { HasPartsOfPass parts }
    ensures numbers { OnOk result
        (AreOldNumbers (located_passes held.now.segments table.now) numbers.new) }
    ensures size { let there = located_passes held.now.segments table.now in
        let pass = pass_over parts.entry (slice_index_or there.lists list []) in
        let before = kept_table there numbers.old.lists numbers.old.texts in
        IfOk result (λ size. size ≡ length (block (pass_bytes (spelled_pass before pass)))) }
    ensures after { let there = located_passes held.now.segments table.now in
        OnOk result
        (IsAfterList there (slice_index_or there.lists list []) numbers.old numbers.new) }
{
    let head = head_of(alloc, parts)?;
    let list_size = kept_ref_size(numbers, held, table, list)?;
    Ok((head.bytes().len() + list_size + 9 + parts.output.len()) as u64)
}

/// Counts the pass of a number, unless a later one is of the same tests.
fn count_next(
    alloc: Global,
    counted: &mut CountedPasses,
    held: &HeldPayloads<'_>,
    table: &LocatedPasses,
    number: usize,
) -> Result<(), NoMemory>
    requires table { ArePassesHeld held.now.segments table.now }
    requires numbers { AreOldNumbers (located_passes held.now.segments table.now)
        counted.old.numbers }
    requires number { number < length table.now.rows.items }
    ensures numbers { OnOk result
        (AreOldNumbers (located_passes held.now.segments table.now) counted.new.numbers) }
    ensures on { let there = located_passes held.now.segments table.now in
        OnOk result
        (counted_on there counted.new (drop (number + 1) there.passes)
        ≡ counted_on there counted.old (drop number there.passes)) }
{
    let row = table.rows[number];
    let bytes = held.get(row.payload);
    let run = copy_run(alloc, bytes, row.run)?;
    let simulator = copy_words(alloc, bytes, row.simulator)?;
    if is_superseded(held, table, number, &run, &simulator) {
        return Ok(());
    }
    let parts = PassParts {
        run: &run,
        simulator: &simulator,
        output: bytes_in(bytes, row.output),
    };
    let size = kept_size(alloc, &mut counted.numbers, held, table, row.list, parts)?;
    counted.bytes = counted.bytes.saturating_add(size);
    Ok(())
}

/// The number of bytes that a side of the payloads has that keep the last pass of the same tests, up to the greatest number of 64 bits.
pub fn kept_length(
    alloc: Global,
    held: &HeldPayloads<'_>,
    table: &LocatedPasses,
) -> Result<u64, NoMemory>
    requires { ArePassesHeld held.now.segments table.now }
    ensures { let kept = compacted_passes (passes_among held.now.segments) in
        IfOk result (λ counted. counted ≡ capped_length (length (flat_map block kept))) }
{
    let mut counted = CountedPasses {
        bytes: 0,
        numbers: no_numbers(alloc, table)?,
    };
    for number in 0..table.rows.len() {
        count_next(alloc, &mut counted, held, table, number)?;
    }
    Ok(counted.bytes.saturating_add(19))
}
