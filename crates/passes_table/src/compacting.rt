//! The payloads that keep the last pass of the same tests.

ghost use Rattle.std.specs.Prelude.{◌≡◌, ℕ, List, ◌<◌, ◌+◌, ◌++◌, [], drop, length, slice_index_or, IfOk, OnOk};
ghost use Rattle.std.specs.List.{list_any};
ghost use Rattle.store_codec.specs.Compaction.{compacted_ref, with_compacted_text};
ghost use Rattle.store_table.specs.Located.{IsProductRow, located_texts, row_product};
ghost use Rattle.passes_spec.specs.Passes.{is_of_tests, last_passes};
ghost use Rattle.passes_codec.specs.Compaction.{FitsBuilt, IsNumberable, compacted_passes, spelled_files, spelled_pass};
ghost use Rattle.passes_codec.specs.Forms.{file_bytes, list_ref_bytes, pass_bytes};
ghost use Rattle.passes_codec.specs.Forms.ListRef.{NewList};
ghost use Rattle.passes_codec.specs.PassTables.{bare_table, passes_among, with_list_texts};
ghost use Rattle.passes_codec.specs.Ranges.{run_in_ranges};
ghost use Rattle.store_table.specs.NumberSets.{AreNumbers};
ghost use Rattle.passes_table.specs.Kept.{AreOldNumbers, IsAfterList, kept_on, kept_table, numbered_texts};
ghost use Rattle.passes_table.specs.Next.{HasPartsOfPass, draft_of_parts, pass_over};
ghost use Rattle.passes_table.specs.Located.{ArePassesHeld, ArePassesLocated, located_passes};

use crate::LocatedPasses;
use crate::asking::is_of_tests;
use crate::fingerprints::fingerprint_of_run;
use crate::writing::PassParts;
use base::{NoMemory, Text, TextList};
use base_bytes::{ByteWriter, bytes_in, copy_words};
use base_collections::NumberSet;
use passes_codec::{
    RunRanges, known_pass_payload, put_file, put_list_start, put_output, put_run, put_simulator,
};
use std::alloc::Global;
use store_codec::TextPart;
use store_journal::Payloads;
use store_table::{HeldPayloads, ProductRow, text_at};
use testbench_runs::TestRun;

/// The old numbers of the lists and texts that are kept so far, in the order of their new numbers.
#[derive(Drop)]
pub struct KeptNumbers {
    pub lists: NumberSet,
    pub texts: NumberSet,
}

/// The payloads that are kept so far, with the numbers of their lists and texts.
#[derive(Drop)]
pub struct KeptPasses {
    pub payloads: Payloads,
    pub numbers: KeptNumbers,
}

/// A copy of a run whose parts are at ranges of bytes.
pub fn copy_run(alloc: Global, bytes: &[u8], run: RunRanges) -> Result<TestRun, NoMemory>
    ensures { IfOk result (λ copy. copy ≡ run_in_ranges bytes.now run) }
{
    Ok(TestRun {
        library: Text::from_slice(alloc, bytes_in(bytes, run.library))?,
        bench: Text::from_slice(alloc, bytes_in(bytes, run.bench))?,
        architecture: Text::from_slice(alloc, bytes_in(bytes, run.architecture))?,
        cases: copy_words(alloc, bytes, run.cases)?,
        whole: run.whole,
        same_sim: run.same_sim,
        path: Text::from_slice(alloc, bytes_in(bytes, run.path))?,
    })
}

/// Whether a pass after the one of a number is of the same tests as a run with a simulator.
pub fn is_superseded(
    held: &HeldPayloads<'_>,
    table: &LocatedPasses,
    number: usize,
    run: &TestRun,
    simulator: &TextList,
) -> bool
    requires table { ArePassesLocated held.now.segments table.now }
    requires number { number < length table.now.rows.items }
    ensures { let passes = (located_passes held.now.segments table.now).passes in
        result ≡ list_any (is_of_tests run.now simulator.now) (drop (number + 1) passes) }
{
    let mut candidate = table.latest.last(fingerprint_of_run(run, simulator));
    while let Some(later) = candidate {
        if later <= number {
            return false;
        }
        if is_of_tests(held, table.rows[later], run, simulator) {
            return true;
        }
        candidate = table.latest.earlier(later);
    }
    false
}

/// Writes a file of a list, with its artefact by its new number if it has one, and in full otherwise.
fn put_kept_file(
    out: &mut ByteWriter,
    texts: &mut NumberSet,
    held: &HeldPayloads<'_>,
    table: &LocatedPasses,
    row: ProductRow,
) -> Result<(), NoMemory>
    requires table { ArePassesLocated held.now.segments table.now }
    requires texts { AreNumbers (length (located_texts held.now.segments table.now.texts))
        texts.old }
    requires row { IsProductRow table.now.names.keys
        (located_texts held.now.segments table.now.texts) row }
    requires fits { FitsBuilt
        (row_product table.now.names.keys (located_texts held.now.segments table.now.texts) row) }
    ensures texts { OnOk result
        (AreNumbers (length (located_texts held.now.segments table.now.texts)) texts.new) }
    ensures written { let there = located_texts held.now.segments table.now.texts in
        let file = row_product table.now.names.keys there row in
        let ref = compacted_ref (numbered_texts there texts.old.numbers) file.artefact in
        OnOk result
        (out.new ≡ out.old ++ file_bytes (record { name = file.name; artefact = ref })) }
    ensures kept { let there = located_texts held.now.segments table.now.texts in
        let file = row_product table.now.names.keys there row in
        OnOk result
        (numbered_texts there texts.new.numbers
        ≡ with_compacted_text (numbered_texts there texts.old.numbers) file.artefact) }
{
    let part = TextPart {
        known: texts.index_of(row.text),
        text: text_at(held, &table.texts, row.text),
    };
    put_file(out, table.names.key(row.name), part)?;
    texts.add(row.text)?;
    Ok(())
}

/// Writes a list as a new one, each artefact by its new number if it has one, and in full otherwise.
fn put_kept_list(
    out: &mut ByteWriter,
    texts: &mut NumberSet,
    held: &HeldPayloads<'_>,
    table: &LocatedPasses,
    list: usize,
) -> Result<(), NoMemory>
    requires table { ArePassesHeld held.now.segments table.now }
    requires texts { AreNumbers (length (located_texts held.now.segments table.now.texts))
        texts.old }
    requires list { list < length table.now.lists.keys }
    ensures texts { OnOk result
        (AreNumbers (length (located_texts held.now.segments table.now.texts)) texts.new) }
    ensures written { let there = located_passes held.now.segments table.now in
        let files = spelled_files (numbered_texts there.texts texts.old.numbers)
        (slice_index_or there.lists list []) in
        OnOk result (out.new ≡ out.old ++ list_ref_bytes (NewList files)) }
    ensures kept { let there = located_passes held.now.segments table.now in
        let before = numbered_texts there.texts texts.old.numbers in
        OnOk result
        (numbered_texts there.texts texts.new.numbers
        ≡ with_list_texts before
        (spelled_files before (slice_index_or there.lists list []))) }
{
    let files = table.lists.key(list).files.as_slice();
    put_list_start(out, files.len() as u32)?;
    for row in files {
        put_kept_file(out, texts, held, table, *row)?;
    }
    Ok(())
}

/// The payload of a pass over a list as a new one.
#[tactic(auto, unfolding(passes_codec::specs::Forms::pass_bytes))]
fn new_list_payload(
    alloc: Global,
    texts: &mut NumberSet,
    held: &HeldPayloads<'_>,
    table: &LocatedPasses,
    list: usize,
    parts: PassParts<'_>,
) -> Result<Text, NoMemory>
    requires table { ArePassesHeld held.now.segments table.now }
    requires texts { AreNumbers (length (located_texts held.now.segments table.now.texts))
        texts.old }
    requires list { list < length table.now.lists.keys }
    requires parts { HasPartsOfPass parts }
    ensures texts { OnOk result
        (AreNumbers (length (located_texts held.now.segments table.now.texts)) texts.new) }
    ensures is { let there = located_passes held.now.segments table.now in
        let files = spelled_files (numbered_texts there.texts texts.old.numbers)
        (slice_index_or there.lists list []) in
        IfOk result
        (λ payload. payload ≡ pass_bytes (draft_of_parts parts.entry (NewList files))) }
    ensures kept { let there = located_passes held.now.segments table.now in
        let before = numbered_texts there.texts texts.old.numbers in
        OnOk result
        (numbered_texts there.texts texts.new.numbers
        ≡ with_list_texts before
        (spelled_files before (slice_index_or there.lists list []))) }
{
    let mut out = ByteWriter::new(alloc);
    put_run(&mut out, parts.run)?;
    put_simulator(&mut out, parts.simulator)?;
    put_kept_list(&mut out, texts, held, table, list)?;
    put_output(&mut out, parts.output)?;
    Ok(out.into_text())
}

/// The payload of a pass over a list, by its new number if it has one, and as a new list otherwise.
fn kept_payload(
    alloc: Global,
    numbers: &mut KeptNumbers,
    held: &HeldPayloads<'_>,
    table: &LocatedPasses,
    list: usize,
    parts: PassParts<'_>,
) -> Result<Text, NoMemory>
    requires table { ArePassesHeld held.now.segments table.now }
    requires numbers { AreOldNumbers (located_passes held.now.segments table.now) numbers.old }
    requires list { list < length table.now.lists.keys }
    requires parts { HasPartsOfPass parts }
    ensures numbers { OnOk result
        (AreOldNumbers (located_passes held.now.segments table.now) numbers.new) }
    ensures is { let there = located_passes held.now.segments table.now in
        let pass = pass_over parts.entry (slice_index_or there.lists list []) in
        IfOk result
        (λ payload.
        payload
        ≡ pass_bytes (spelled_pass (kept_table there numbers.old.lists numbers.old.texts) pass)) }
    ensures after { let there = located_passes held.now.segments table.now in
        OnOk result
        (IsAfterList there (slice_index_or there.lists list []) numbers.old numbers.new) }
{
    if let Some(number) = numbers.lists.index_of(list) {
        let payload = known_pass_payload(
            alloc,
            parts.run,
            parts.simulator,
            number as u64,
            parts.output,
        )?;
        return Ok(payload);
    }
    let payload = new_list_payload(alloc, &mut numbers.texts, held, table, list, parts)?;
    numbers.lists.add(list)?;
    Ok(payload)
}

/// Keeps the pass of a number, unless a later one is of the same tests.
fn keep_next(
    alloc: Global,
    kept: &mut KeptPasses,
    held: &HeldPayloads<'_>,
    table: &LocatedPasses,
    number: usize,
) -> Result<(), NoMemory>
    requires table { ArePassesHeld held.now.segments table.now }
    requires kept { AreOldNumbers (located_passes held.now.segments table.now) kept.old.numbers }
    requires number { number < length table.now.rows.items }
    ensures kept { OnOk result
        (AreOldNumbers (located_passes held.now.segments table.now) kept.new.numbers) }
    ensures on { let there = located_passes held.now.segments table.now in
        OnOk result
        (kept_on there kept.new (drop (number + 1) there.passes)
        ≡ kept_on there kept.old (drop number there.passes)) }
{
    let row = table.rows[number];
    let bytes = held.get(row.payload);
    let run = copy_run(alloc, bytes, row.run)?;
    let simulator = copy_words(alloc, bytes, row.simulator)?;
    if is_superseded(held, table, number, &run, &simulator) {
        return Ok(());
    }
    let parts = PassParts {
        run: &run,
        simulator: &simulator,
        output: bytes_in(bytes, row.output),
    };
    let payload = kept_payload(alloc, &mut kept.numbers, held, table, row.list, parts)?;
    kept.payloads.push(alloc, payload.bytes())?;
    Ok(())
}

/// No number, with room for each list and text of a table.
pub fn no_numbers(alloc: Global, table: &LocatedPasses) -> Result<KeptNumbers, NoMemory>
    ensures are { IfOk result
        (λ numbers. (segments : List (List ℕ)) →
        AreOldNumbers (located_passes segments table.now) numbers) }
    ensures none { IfOk result
        (λ numbers. (segments : List (List ℕ)) →
        let there = located_passes segments table.now in
        kept_table there numbers.lists numbers.texts ≡ bare_table) }
    ensures numberable { (segments : List (List ℕ)) →
        IsNumberable (located_passes segments table.now) }
{
    let mut lists = NumberSet::new(alloc);
    lists.grow_to(table.lists.len())?;
    let mut texts = NumberSet::new(alloc);
    texts.grow_to(table.texts.indices.len())?;
    Ok(KeptNumbers { lists, texts })
}

/// The payloads that are kept, without the numbers.
fn payloads_of(kept: KeptPasses) -> Payloads
    ensures { result ≡ kept.payloads }
{
    let KeptPasses {
        payloads,
        numbers: _numbers,
    } = kept;
    payloads
}

/// The payloads that keep the last pass of the same tests, and nothing else.
pub fn last_payloads(
    alloc: Global,
    held: &HeldPayloads<'_>,
    table: &LocatedPasses,
) -> Result<Payloads, NoMemory>
    requires { ArePassesHeld held.now.segments table.now }
    ensures is { IfOk result
        (λ kept. kept ≡ compacted_passes (passes_among held.now.segments)) }
    ensures passes { IfOk result
        (λ kept. passes_among kept ≡ last_passes (passes_among held.now.segments)) }
{
    let mut kept = KeptPasses {
        payloads: Payloads::new(alloc),
        numbers: no_numbers(alloc, table)?,
    };
    for number in 0..table.rows.len() {
        keep_next(alloc, &mut kept, held, table, number)?;
    }
    Ok(payloads_of(kept))
}
