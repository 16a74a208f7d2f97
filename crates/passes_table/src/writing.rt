//! The payload of a pass over the list of the files that tests run over.

ghost use Rattle.std.specs.Prelude.{◌≡◌, ◌<◌, ◌≤◌, ◌*◌, ◌++◌, [], ℕ, List, Some, length, slice_index_or, Contains, IfOk, OnOk};
ghost use Rattle.std.specs.List.{flat_map};
ghost use Rattle.base.specs.Names.{FitsName};
ghost use Rattle.base.specs.declared.limits.TheConstants.{ARTEFACT_LIMIT, FILE_LIMIT};
ghost use Rattle.testbench_runs.specs.BenchJobs.{texts_bytes};
ghost use Rattle.store_codec.specs.Writing.{part_ref};
ghost use Rattle.store_table.specs.Located.{AreTextsLocated, located_texts};
ghost use Rattle.passes_codec.specs.Forms.{PassDraft, file_bytes, pass_bytes, pass_in, run_bytes};
ghost use Rattle.passes_codec.specs.Forms.ListRef.{KnownList, NewList};
ghost use Rattle.passes_codec.specs.Ranges.{HasFilesAt, pass_in_ranges};
ghost use Rattle.passes_table.specs.Located.{ArePassesLocated};
ghost use Rattle.passes_table.specs.Next.{HasPartsOfPass, IsNextOf, draft_of_parts};
ghost use Rattle.passes_table.specs.declared.writing.TheConstants.{FILE_SIZE, HEAD_SIZE};
ghost use Rattle.passes_table.specs.Pending.{IsPending, all_texts, known_after, row_draft, row_drafts, row_ref};

use crate::{FoundList, ListPart, LocatedPasses, NextPass, PassAddition, PendingList};
use base::{FILE_LIMIT, FileName, NoMemory, TextList};
use base_bytes::ByteWriter;
use passes_codec::{
    PassRanges, known_pass_payload, put_file, put_list_start, put_output, put_run, put_simulator,
    read_pass_payload,
};
use std::alloc::Global;
use store_codec::TextPart;
use store_journal::Ready;
use store_table::{HeldPayloads, ProductRow, text_at};
use testbench_runs::TestRun;

/// The most bytes of a file of a new list: its name of 1,088 bytes, its artefact of 262,144, their lengths and a tag.
pub const FILE_SIZE: usize = 263_245;

/// The most bytes of a new list: its tag, the count of its files, and 4,096 files.
pub const LIST_SIZE: usize = 1_078_251_525;

/// The most bytes of a run and of the words of a simulator.
const HEAD_SIZE: usize = 17_200_000;

/// What a pass says beside its list: its run, the words of its simulator and its output.
#[derive(Clone, Copy)]
pub struct PassParts<'a> {
    pub run: &'a TestRun,
    pub simulator: &'a TextList,
    pub output: &'a [u8],
}

/// The text of a number, among the texts of payloads and the copies.
fn text_of<'a>(
    held: &'a HeldPayloads<'_>,
    table: &'a LocatedPasses,
    list: &'a PendingList,
    number: usize,
) -> &'a [u8]
    requires texts { AreTextsLocated held.now.segments table.now.texts }
    requires fresh { AreTextsLocated list.now.fresh.held.segments list.now.fresh.texts }
    requires number { number
        < length (all_texts (located_texts held.now.segments table.now.texts) list.now) }
    ensures { result.now
        ≡ slice_index_or (all_texts (located_texts held.now.segments table.now.texts) list.now)
        number [] }
{
    let known = table.texts.indices.len();
    if number < known {
        text_at(held, &table.texts, number)
    } else {
        text_at(&list.fresh.held, &list.fresh.texts, number - known)
    }
}

/// The text of a row: by its number where that is below a bound, and else in full.
fn part_of<'a>(
    held: &'a HeldPayloads<'_>,
    table: &'a LocatedPasses,
    list: &'a PendingList,
    known: usize,
    row: ProductRow,
) -> TextPart<'a>
    requires texts { AreTextsLocated held.now.segments table.now.texts }
    requires fresh { AreTextsLocated list.now.fresh.held.segments list.now.fresh.texts }
    requires number { row.text
        < length (all_texts (located_texts held.now.segments table.now.texts) list.now) }
    ensures is { part_ref result
        ≡ row_ref (all_texts (located_texts held.now.segments table.now.texts) list.now) known row }
    ensures text { result.text.now
        ≡ slice_index_or (all_texts (located_texts held.now.segments table.now.texts) list.now)
        row.text [] }
{
    let text = text_of(held, table, list, row.text);
    TextPart {
        known: if row.text < known {
            Some(row.text)
        } else {
            None
        },
        text,
    }
}

/// How many texts are there after a row, which may have the next one.
fn after_row(known: usize, row: ProductRow, total: usize) -> usize
    requires low { row.text ≤ known }
    requires there { row.text < total }
    ensures { result ≡ known_after known row }
{
    if row.text < known {
        known
    } else {
        row.text + 1
    }
}

/// Writes a row of the list as a file of a new list.
fn put_row<'a>(
    out: &mut ByteWriter,
    held: &'a HeldPayloads<'_>,
    table: &'a LocatedPasses,
    list: &'a PendingList,
    known: usize,
    row: ProductRow,
) -> Result<(), NoMemory>
    requires table { ArePassesLocated held.now.segments table.now }
    requires list { IsPending table.now.names.keys (located_texts held.now.segments table.now.texts)
        list.now }
    requires row { Contains list.now.row.files row }
    ensures { let texts = located_texts held.now.segments table.now.texts in
        OnOk result
        (out.new
        ≡ out.old
        ++ file_bytes (row_draft table.now.names.keys (all_texts texts list.now) known row)) }
{
    let part = part_of(held, table, list, known, row);
    put_file(out, table.names.key(row.name), part)
}

/// Writes the files of the list, each text in full at its first file, and by its number later.
fn put_files<'a>(
    out: &mut ByteWriter,
    held: &'a HeldPayloads<'_>,
    table: &'a LocatedPasses,
    list: &'a PendingList,
) -> Result<(), NoMemory>
    requires table { ArePassesLocated held.now.segments table.now }
    requires list { IsPending table.now.names.keys (located_texts held.now.segments table.now.texts)
        list.now }
    ensures { let texts = located_texts held.now.segments table.now.texts in
        OnOk result
        (out.new
        ≡ out.old
        ++ flat_map file_bytes
        (row_drafts table.now.names.keys (all_texts texts list.now) (length texts)
        list.now.row.files)) }
{
    let rows = list.row.files.as_slice();
    let total = table.texts.indices.len() + list.fresh.texts.indices.len();
    let mut known = table.texts.indices.len();
    for row in rows {
        put_row(out, held, table, list, known, *row)?;
        known = after_row(known, *row, total);
    }
    Ok(())
}

/// The number of bytes of a file of a new list, with its artefact by number or in full.
pub fn file_size(name: &FileName, artefact: TextPart<'_>) -> usize
    requires name { FitsName name.now }
    requires artefact { length artefact.text.now ≤ ARTEFACT_LIMIT }
    ensures is { result
        ≡ length (file_bytes (record { name = name.now; artefact = part_ref artefact.entry })) }
    ensures small { result ≤ FILE_SIZE }
{
    let named = 8 + name.library.bytes().len() + name.path.bytes().len();
    match artefact.known {
        Some(_number) => named + 9,
        None => named + 5 + artefact.text.len(),
    }
}

/// The number of bytes of a row as a file of a new list.
fn row_size(
    held: &HeldPayloads<'_>,
    table: &LocatedPasses,
    list: &PendingList,
    known: usize,
    row: ProductRow,
) -> usize
    requires table { ArePassesLocated held.now.segments table.now }
    requires list { IsPending table.now.names.keys (located_texts held.now.segments table.now.texts)
        list.now }
    requires row { Contains list.now.row.files row }
    ensures is { let texts = located_texts held.now.segments table.now.texts in
        result
        ≡ length
        (file_bytes (row_draft table.now.names.keys (all_texts texts list.now) known row)) }
    ensures small { result ≤ FILE_SIZE }
{
    let part = part_of(held, table, list, known, row);
    file_size(table.names.key(row.name), part)
}

/// The number of bytes that the files of the list take in a payload.
fn files_size(held: &HeldPayloads<'_>, table: &LocatedPasses, list: &PendingList) -> usize
    requires table { ArePassesLocated held.now.segments table.now }
    requires list { IsPending table.now.names.keys (located_texts held.now.segments table.now.texts)
        list.now }
    ensures is { let texts = located_texts held.now.segments table.now.texts in
        result
        ≡ length
        (flat_map file_bytes
        (row_drafts table.now.names.keys (all_texts texts list.now) (length texts)
        list.now.row.files)) }
    ensures small { result ≤ FILE_LIMIT * FILE_SIZE }
{
    let rows = list.row.files.as_slice();
    let total = table.texts.indices.len() + list.fresh.texts.indices.len();
    let mut known = table.texts.indices.len();
    let mut size = 0;
    for row in rows {
        size += row_size(held, table, list, known, *row);
        known = after_row(known, *row, total);
    }
    size
}

/// The run and the words of the simulator, with which a payload begins.
pub fn head_of(alloc: Global, parts: PassParts<'_>) -> Result<ByteWriter, NoMemory>
    requires { HasPartsOfPass parts }
    ensures is { IfOk result
        (λ head. head ≡ run_bytes parts.entry.run.now ++ texts_bytes parts.entry.simulator.now) }
    ensures small { IfOk result (λ head. length head ≤ HEAD_SIZE) }
{
    let mut head = ByteWriter::new(alloc);
    put_run(&mut head, parts.run)?;
    put_simulator(&mut head, parts.simulator)?;
    Ok(head)
}

/// The payload of a pass over a new list, which is the pending one.
fn new_payload(
    alloc: Global,
    held: &HeldPayloads<'_>,
    table: &LocatedPasses,
    list: &PendingList,
    parts: PassParts<'_>,
) -> Result<Ready, NoMemory>
    requires table { ArePassesLocated held.now.segments table.now }
    requires list { IsPending table.now.names.keys (located_texts held.now.segments table.now.texts)
        list.now }
    requires parts { HasPartsOfPass parts }
    ensures { let texts = located_texts held.now.segments table.now.texts in
        IfOk result
        (λ ready.
        ready
        ≡ pass_bytes
        (draft_of_parts parts.entry
        (NewList
        (row_drafts table.now.names.keys (all_texts texts list.now) (length texts)
        list.now.row.files)))) }
{
    let head = head_of(alloc, parts)?;
    let size = head.bytes().len() + 5 + files_size(held, table, list) + 4 + parts.output.len();
    let mut frame = Ready::begin(alloc, size)?;
    frame.plain(head.bytes())?;
    put_list_start(&mut frame, list.row.files.len() as u32)?;
    put_files(&mut frame, held, table, list)?;
    put_output(&mut frame, parts.output)?;
    Ready::of(frame)
}

/// The payload of a pass over a list by its number.
fn known_payload(alloc: Global, parts: PassParts<'_>, number: u64) -> Result<Ready, NoMemory>
    requires { HasPartsOfPass parts }
    ensures { IfOk result
        (λ ready. ready ≡ pass_bytes (draft_of_parts parts.entry (KnownList number))) }
{
    let payload = known_pass_payload(alloc, parts.run, parts.simulator, number, parts.output)?;
    let mut frame = Ready::begin(alloc, payload.bytes().len())?;
    frame.plain(payload.bytes())?;
    Ready::of(frame)
}

/// The ranges of the parts of a pass in its payload.
fn ranges_of(payload: &[u8]) -> PassRanges
    requires { (draft : PassDraft) × (pass_in payload.now ≡ Some draft) }
    ensures read { pass_in payload.now ≡ Some (pass_in_ranges payload.now result) }
    ensures files { HasFilesAt payload.now result.list }
{
    match read_pass_payload(payload) {
        Some(draft) => draft,
        None => unreachable!(),
    }
}

/// A payload with the ranges of its parts, and with what stands for its list.
fn next_of(segment: Ready, part: ListPart, count: usize) -> NextPass
    requires { (draft : PassDraft) × (pass_in segment ≡ Some draft) }
    ensures segment { result.segment ≡ segment }
    ensures read { pass_in segment ≡ Some (pass_in_ranges segment result.addition.draft) }
    ensures files { HasFilesAt segment result.addition.draft.list }
    ensures part { result.addition.list.part ≡ part }
    ensures count { result.addition.list.count ≡ count }
{
    let draft = ranges_of(segment.payload());
    NextPass {
        segment,
        addition: PassAddition {
            draft,
            list: FoundList { part, count },
        },
    }
}

/// How many texts there are in all, of payloads and of copies.
fn total_of(table: &LocatedPasses, list: &PendingList) -> usize
    ensures { (segments : List (List ℕ)) →
        result ≡ length (all_texts (located_texts segments table.now.texts) list.now) }
{
    table.texts.indices.len() + list.fresh.texts.indices.len()
}

/// The payload of a pass over the pending list, with what it adds: the list by its number if the table has it, and else in full.
pub fn next_pass(
    alloc: Global,
    held: &HeldPayloads<'_>,
    table: &LocatedPasses,
    list: &PendingList,
    parts: PassParts<'_>,
) -> Result<NextPass, NoMemory>
    requires table { ArePassesLocated held.now.segments table.now }
    requires list { IsPending table.now.names.keys (located_texts held.now.segments table.now.texts)
        list.now }
    requires parts { HasPartsOfPass parts }
    ensures { IfOk result
        (IsNextOf held.now.segments table.now list.now parts.entry) }
{
    match table.lists.number(&list.row) {
        Some(number) => {
            let segment = known_payload(alloc, parts, number as u64)?;
            Ok(next_of(segment, ListPart::Known(number), 0))
        }
        None => {
            // The numbers of texts fit their eight bytes.
            let _total = total_of(table, list);
            let row = list.row.copy(alloc)?;
            let segment = new_payload(alloc, held, table, list, parts)?;
            let count = list.fresh.texts.indices.len();
            Ok(next_of(segment, ListPart::New(row), count))
        }
    }
}
