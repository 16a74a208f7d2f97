//! Whether a payload is that of a valid pass, and what stands for its list.

ghost use Rattle.std.specs.Prelude.{◌≡◌, ◌↔◌, ◌<◌, ◌≤◌, ◌+◌, ◌++◌, [], ℕ, List, length, slice_index_or, IsTrue, IfOk};
ghost use Rattle.base.specs.declared.limits.TheConstants.{FILE_LIMIT};
ghost use Rattle.base_bytes.specs.Ranges.{ranged};
ghost use Rattle.base_bytes.specs.TextRefs.{ref_in_range};
ghost use Rattle.base_bytes.specs.TextRefs.TextRef.{ByNumber, InFull};
ghost use Rattle.store_table.specs.Located.{AreTextsLocated, located_texts, nth_payload};
ghost use Rattle.passes_codec.specs.Forms.{FileDraft};
ghost use Rattle.passes_codec.specs.Forms.ListRef.{KnownList, NewList};
ghost use Rattle.passes_codec.specs.Ranges.{HasFilesAt, counted_files, file_in_ranges, list_in_range, pass_in_ranges};
ghost use Rattle.passes_codec.specs.declared.reading.ListRange.TheVariants.{New};
ghost use Rattle.passes_table.specs.Additions.{AreListed, HasSmallParts, IsCheckedArtefact, IsCheckedList, IsCheckedPass, IsListedNext, IsListedWhole};
ghost use Rattle.passes_table.specs.Located.{ArePassesLocated, Extends, located_passes};

use crate::sizes::is_run_small;
use crate::{FoundList, ListPart, ListRow, LocatedPasses, PassAddition};
use base::{ARTEFACT_LIMIT, FILE_LIMIT, Items, NoMemory};
use base_bytes::{ByteRange, TextRange, bytes_in, count_range, has_word_sizes, name_in};
use passes_codec::{FileRanges, ListRange, PassRanges, file_range};
use std::alloc::Global;
use store_table::{HeldPayloads, LocatedTexts, ProductRow, find_text, put_text, text_at};
use testbench_runs::SHOWN_LIMIT;

/// The rows of the files of a new list so far, and the texts that the list adds.
#[derive(Drop)]
pub struct ListSoFar {
    pub rows: Items<ProductRow>,
    pub fresh: LocatedTexts,
}

/// The text of a number, among texts and new ones after them.
fn text_among<'a>(
    held: &'a HeldPayloads<'_>,
    texts: &LocatedTexts,
    fresh: &LocatedTexts,
    number: usize,
) -> &'a [u8]
    requires texts { AreTextsLocated held.now.segments texts.now }
    requires fresh { AreTextsLocated held.now.segments fresh.now }
    requires number { number < length texts.now.indices.items + length fresh.now.indices.items }
    ensures { result.now
        ≡ slice_index_or
        (located_texts held.now.segments texts.now ++ located_texts held.now.segments fresh.now)
        number [] }
{
    let known = texts.indices.len();
    if number < known {
        text_at(held, texts, number)
    } else {
        text_at(held, fresh, number - known)
    }
}

/// A number of a text, where there is such a text, and that is small enough for an artefact.
fn known_artefact(
    held: &HeldPayloads<'_>,
    texts: &LocatedTexts,
    fresh: &LocatedTexts,
    number: u64,
) -> Option<usize>
    requires texts { AreTextsLocated held.now.segments texts.now }
    requires fresh { AreTextsLocated held.now.segments fresh.now }
    ensures { IsCheckedArtefact held.now.segments (located_texts held.now.segments texts.now)
        fresh.now fresh.now (ByNumber number) result }
{
    if number >= (texts.indices.len() + fresh.indices.len()) as u64 {
        return None;
    }
    let number = number as usize;
    if text_among(held, texts, fresh, number).len() > ARTEFACT_LIMIT {
        return None;
    }
    Some(number)
}

/// The number of a new text, which is put among the new ones, where it is in neither and small enough for an artefact.
fn new_artefact(
    held: &HeldPayloads<'_>,
    texts: &LocatedTexts,
    fresh: &mut LocatedTexts,
    at: usize,
    range: ByteRange,
) -> Result<Option<usize>, NoMemory>
    requires at { at < length held.now.segments }
    requires texts { AreTextsLocated held.now.segments texts.now }
    requires fresh { AreTextsLocated held.now.segments fresh.old }
    ensures { IfOk result
        (IsCheckedArtefact held.now.segments (located_texts held.now.segments texts.now) fresh.old
        fresh.new (InFull (ranged (nth_payload held.now.segments at) range))) }
{
    let text = bytes_in(held.get(at), range);
    if text.len() > ARTEFACT_LIMIT {
        return Ok(None);
    }
    if let Some(_number) = find_text(held, texts, text) {
        return Ok(None);
    }
    if let Some(_number) = find_text(held, fresh, text) {
        return Ok(None);
    }
    let number = texts.indices.len() + fresh.indices.len();
    fresh.reserve(1)?;
    put_text(fresh, held, at, range);
    Ok(Some(number))
}

/// The number of the text of a file, which is put among the new ones if it is one. `None` if it isn't there or new as it says, or too
/// long for an artefact.
fn artefact_number(
    held: &HeldPayloads<'_>,
    texts: &LocatedTexts,
    fresh: &mut LocatedTexts,
    at: usize,
    source: TextRange,
) -> Result<Option<usize>, NoMemory>
    requires at { at < length held.now.segments }
    requires texts { AreTextsLocated held.now.segments texts.now }
    requires fresh { AreTextsLocated held.now.segments fresh.old }
    ensures { IfOk result
        (IsCheckedArtefact held.now.segments (located_texts held.now.segments texts.now) fresh.old
        fresh.new (ref_in_range (nth_payload held.now.segments at) source)) }
{
    match source {
        TextRange::Known(number) => Ok(known_artefact(held, texts, fresh, number)),
        TextRange::Full(range) => new_artefact(held, texts, fresh, at, range),
    }
}

/// Lists one more file of a new list, whose texts so far are these; false if the file isn't valid.
fn list_file(
    alloc: Global,
    table: &mut LocatedPasses,
    held: &HeldPayloads<'_>,
    at: usize,
    list: &mut ListSoFar,
    file: FileRanges,
) -> Result<bool, NoMemory>
    requires at { at < length held.now.segments }
    requires table { ArePassesLocated held.now.segments table.old }
    requires fresh { AreTextsLocated held.now.segments list.old.fresh }
    ensures are { ArePassesLocated held.now.segments table.new }
    ensures is { located_passes held.now.segments table.new
        ≡ located_passes held.now.segments table.old }
    ensures names { Extends table.old.names.keys table.new.names.keys }
    ensures lists { table.new.lists.keys ≡ table.old.lists.keys }
    ensures listed { (files : List FileDraft) →
        AreListed held.now.segments table.old.names.keys
        (located_texts held.now.segments table.old.texts) files list.old →
        IfOk result
        (λ is.
        IsListedNext is held.now.segments table.new.names.keys
        (located_texts held.now.segments table.new.texts) files
        (file_in_ranges (nth_payload held.now.segments at) file) list.new) }
{
    let name = name_in(alloc, held.get(at), file.library, file.path)?;
    if !name.is_within_limits() {
        return Ok(false);
    }
    let Some(text) = artefact_number(held, &table.texts, &mut list.fresh, at, file.artefact)? else {
        return Ok(false);
    };
    let name = table.number_name(name)?;
    list.rows.push(ProductRow { name, text })?;
    Ok(true)
}

/// The rows and the new texts of the files of a new list. `None` if they are too many, or one of them isn't valid.
fn listed_files(
    alloc: Global,
    table: &mut LocatedPasses,
    held: &HeldPayloads<'_>,
    at: usize,
    range: ByteRange,
) -> Result<Option<ListSoFar>, NoMemory>
    requires at { at < length held.now.segments }
    requires table { ArePassesLocated held.now.segments table.old }
    requires files { HasFilesAt (nth_payload held.now.segments at) (New range) }
    ensures are { ArePassesLocated held.now.segments table.new }
    ensures is { located_passes held.now.segments table.new
        ≡ located_passes held.now.segments table.old }
    ensures lists { table.new.lists.keys ≡ table.old.lists.keys }
    ensures listed { IfOk result
        (IsListedWhole held.now.segments table.new.names.keys
        (located_texts held.now.segments table.new.texts)
        (counted_files (nth_payload held.now.segments at) range)) }
{
    let bytes = held.get(at);
    let Some((count, first)) = count_range(bytes, range.start) else {
        return Ok(None);
    };
    if count as usize > FILE_LIMIT {
        return Ok(None);
    }
    let mut list = ListSoFar {
        rows: Items::new(alloc),
        fresh: LocatedTexts::new(alloc),
    };
    let mut next = first;
    for _ in 0..count {
        let Some((file, end)) = file_range(bytes, next) else {
            return Ok(None);
        };
        let is_valid = list_file(alloc, table, held, at, &mut list, file)?;
        if !is_valid {
            return Ok(None);
        }
        next = end;
    }
    Ok(Some(list))
}

/// The rows of a new list, where no list of the table has the same.
fn new_list(table: &LocatedPasses, list: ListSoFar) -> Option<FoundList>
    ensures { (segments : List (List ℕ)) (files : List FileDraft) →
        ArePassesLocated segments table.now → length files ≤ FILE_LIMIT →
        AreListed segments table.now.names.keys (located_texts segments table.now.texts) files list →
        IsCheckedList (located_passes segments table.now) table.now.names.keys (NewList files) result }
{
    let ListSoFar { rows, fresh } = list;
    let row = ListRow { files: rows };
    if let Some(_number) = table.lists.number(&row) {
        return None;
    }
    Some(FoundList {
        part: ListPart::New(row),
        count: fresh.indices.len(),
    })
}

/// What stands for a new list, where it is one.
fn checked_new_list(
    alloc: Global,
    table: &mut LocatedPasses,
    held: &HeldPayloads<'_>,
    at: usize,
    range: ByteRange,
) -> Result<Option<FoundList>, NoMemory>
    requires at { at < length held.now.segments }
    requires table { ArePassesLocated held.now.segments table.old }
    requires files { HasFilesAt (nth_payload held.now.segments at) (New range) }
    ensures are { ArePassesLocated held.now.segments table.new }
    ensures is { located_passes held.now.segments table.new
        ≡ located_passes held.now.segments table.old }
    ensures checked { IfOk result
        (IsCheckedList (located_passes held.now.segments table.new) table.new.names.keys
        (NewList (counted_files (nth_payload held.now.segments at) range))) }
{
    let Some(list) = listed_files(alloc, table, held, at, range)? else {
        return Ok(None);
    };
    Ok(new_list(table, list))
}

/// What stands for a list by its number, where there is such a list.
fn known_list(table: &LocatedPasses, number: u64) -> Option<FoundList>
    ensures { (segments : List (List ℕ)) →
        IsCheckedList (located_passes segments table.now) table.now.names.keys (KnownList number)
        result }
{
    if number >= table.lists.len() as u64 {
        return None;
    }
    Some(FoundList {
        part: ListPart::Known(number as usize),
        count: 0,
    })
}

/// What stands for the list of a payload, where it is valid.
fn checked_list(
    alloc: Global,
    table: &mut LocatedPasses,
    held: &HeldPayloads<'_>,
    at: usize,
    list: ListRange,
) -> Result<Option<FoundList>, NoMemory>
    requires at { at < length held.now.segments }
    requires table { ArePassesLocated held.now.segments table.old }
    requires files { HasFilesAt (nth_payload held.now.segments at) list }
    ensures are { ArePassesLocated held.now.segments table.new }
    ensures is { located_passes held.now.segments table.new
        ≡ located_passes held.now.segments table.old }
    ensures checked { IfOk result
        (IsCheckedList (located_passes held.now.segments table.new) table.new.names.keys
        (list_in_range (nth_payload held.now.segments at) list)) }
{
    match list {
        ListRange::Known(number) => Ok(known_list(table, number)),
        ListRange::New(range) => checked_new_list(alloc, table, held, at, range),
    }
}

/// Whether the run, the simulator's words and the output of a pass are within their limits.
fn is_pass_small(bytes: &[u8], draft: PassRanges) -> bool
    ensures { IsTrue result ↔ HasSmallParts (pass_in_ranges bytes.now draft) }
{
    if !is_run_small(bytes, draft.run) {
        return false;
    }
    if !has_word_sizes(bytes, draft.simulator) {
        return false;
    }
    bytes_in(bytes, draft.output).len() <= SHOWN_LIMIT
}

/// What the payload of a pass adds, or `None` if the pass isn't valid. Names may be added in either case.
pub fn checked_pass(
    alloc: Global,
    table: &mut LocatedPasses,
    held: &HeldPayloads<'_>,
    at: usize,
    draft: PassRanges,
) -> Result<Option<PassAddition>, NoMemory>
    requires at { at < length held.now.segments }
    requires table { ArePassesLocated held.now.segments table.old }
    requires files { HasFilesAt (nth_payload held.now.segments at) draft.list }
    ensures are { ArePassesLocated held.now.segments table.new }
    ensures is { located_passes held.now.segments table.new
        ≡ located_passes held.now.segments table.old }
    ensures checked { IfOk result
        (IsCheckedPass (located_passes held.now.segments table.new) table.new.names.keys
        (nth_payload held.now.segments at) draft) }
{
    if !is_pass_small(held.get(at), draft) {
        return Ok(None);
    }
    let Some(list) = checked_list(alloc, table, held, at, draft.list)? else {
        return Ok(None);
    };
    Ok(Some(PassAddition { draft, list }))
}
