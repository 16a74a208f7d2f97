//! Adding a pass that was checked before to a table, in room that was reserved: it takes no memory.

ghost use Rattle.std.specs.Prelude.{◌≡◌, ◌<◌, ◌≤◌, ◌+◌, [], true, length, slice_index_or};
ghost use Rattle.base_bytes.specs.TextRefs.{is_text_ref, ref_in_range, with_text};
ghost use Rattle.store_table.specs.Located.{AreTextsLocated, located_texts, nth_payload, text_room};
ghost use Rattle.passes_codec.specs.PassTables.{IsListRef, are_listed_files, told_list, with_list_texts, with_pass, with_texts_of};
ghost use Rattle.passes_codec.specs.Ranges.{HasFilesAt, counted_files, list_in_range, pass_in_ranges};
ghost use Rattle.passes_codec.specs.declared.reading.ListRange.TheVariants.{New};
ghost use Rattle.passes_table.specs.Additions.{HasListedFiles, IsAddition, IsListPart, with_list_of};
ghost use Rattle.passes_table.specs.Located.{ArePassesLocated, HasPassRoom, located_passes};

use crate::fingerprints::fingerprint_in;
use crate::{FoundList, ListPart, LocatedPasses, PassAddition, PassRow};
use base_bytes::{ByteRange, TextRange, count_range};
use passes_codec::{ListRange, file_range};
use store_table::{HeldPayloads, LocatedTexts, put_text};

/// Puts the text of a file of a new list at the end, if it is new.
fn put_artefact(texts: &mut LocatedTexts, held: &HeldPayloads<'_>, at: usize, source: TextRange)
    requires at { at < length held.now.segments }
    requires texts { AreTextsLocated held.now.segments texts.old }
    requires source { is_text_ref (located_texts held.now.segments texts.old)
        (ref_in_range (nth_payload held.now.segments at) source)
        ≡ true }
    requires room { length
        (with_text (located_texts held.now.segments texts.old)
        (ref_in_range (nth_payload held.now.segments at) source))
        ≤ length texts.old.indices.items + text_room texts.old }
    ensures are { AreTextsLocated held.now.segments texts.new }
    ensures is { located_texts held.now.segments texts.new
        ≡ with_text (located_texts held.now.segments texts.old)
        (ref_in_range (nth_payload held.now.segments at) source) }
    ensures room { length texts.old.indices.items + text_room texts.old
        ≤ length texts.new.indices.items + text_room texts.new }
{
    match source {
        TextRange::Known(_number) => {}
        TextRange::Full(range) => put_text(texts, held, at, range),
    }
}

/// Puts the new texts of a new list, in order.
fn put_new_texts(texts: &mut LocatedTexts, held: &HeldPayloads<'_>, at: usize, range: ByteRange)
    requires at { at < length held.now.segments }
    requires texts { AreTextsLocated held.now.segments texts.old }
    requires files { HasFilesAt (nth_payload held.now.segments at) (New range) }
    requires valid { are_listed_files (located_texts held.now.segments texts.old)
        (counted_files (nth_payload held.now.segments at) range)
        ≡ true }
    requires room { length
        (with_list_texts (located_texts held.now.segments texts.old)
        (counted_files (nth_payload held.now.segments at) range))
        ≤ length texts.old.indices.items + text_room texts.old }
    ensures are { AreTextsLocated held.now.segments texts.new }
    ensures is { located_texts held.now.segments texts.new
        ≡ with_list_texts (located_texts held.now.segments texts.old)
        (counted_files (nth_payload held.now.segments at) range) }
{
    let bytes = held.get(at);
    let Some((count, first)) = count_range(bytes, range.start) else {
        return;
    };
    let mut next = first;
    for _ in 0..count {
        let Some((file, end)) = file_range(bytes, next) else {
            return;
        };
        put_artefact(texts, held, at, file.artefact);
        next = end;
    }
}

/// Puts the new texts of the list of a pass, in order.
fn put_texts_of(texts: &mut LocatedTexts, held: &HeldPayloads<'_>, at: usize, list: ListRange)
    requires at { at < length held.now.segments }
    requires texts { AreTextsLocated held.now.segments texts.old }
    requires files { HasFilesAt (nth_payload held.now.segments at) list }
    requires valid { HasListedFiles (located_texts held.now.segments texts.old)
        (list_in_range (nth_payload held.now.segments at) list) }
    requires room { length
        (with_texts_of (located_texts held.now.segments texts.old)
        (list_in_range (nth_payload held.now.segments at) list))
        ≤ length texts.old.indices.items + text_room texts.old }
    ensures are { AreTextsLocated held.now.segments texts.new }
    ensures is { located_texts held.now.segments texts.new
        ≡ with_texts_of (located_texts held.now.segments texts.old)
        (list_in_range (nth_payload held.now.segments at) list) }
{
    match list {
        ListRange::Known(_number) => {}
        ListRange::New(range) => put_new_texts(texts, held, at, range),
    }
}

/// The number of the list of a pass, which is put with its texts if it is new.
fn put_list(
    table: &mut LocatedPasses,
    held: &HeldPayloads<'_>,
    at: usize,
    draft: ListRange,
    part: ListPart,
    count: usize,
) -> usize
    requires room { HasPassRoom count table.old }
    requires at { at < length held.now.segments }
    requires table { ArePassesLocated held.now.segments table.old }
    requires files { HasFilesAt (nth_payload held.now.segments at) draft }
    requires valid { IsListRef (located_passes held.now.segments table.old)
        (list_in_range (nth_payload held.now.segments at) draft) }
    requires part { IsListPart table.old.names.keys
        (located_texts held.now.segments table.old.texts)
        (list_in_range (nth_payload held.now.segments at) draft) part }
    requires count { length
        (with_texts_of (located_texts held.now.segments table.old.texts)
        (list_in_range (nth_payload held.now.segments at) draft))
        ≡ length (located_texts held.now.segments table.old.texts) + count }
    ensures are { ArePassesLocated held.now.segments table.new }
    ensures is { located_passes held.now.segments table.new
        ≡ with_list_of (located_passes held.now.segments table.old)
        (list_in_range (nth_payload held.now.segments at) draft) }
    ensures number { result < length table.new.lists.keys }
    ensures told { slice_index_or (located_passes held.now.segments table.new).lists result []
        ≡ told_list (located_passes held.now.segments table.old)
        (list_in_range (nth_payload held.now.segments at) draft) }
    ensures names { table.new.names.keys ≡ table.old.names.keys }
    ensures rows { table.new.rows ≡ table.old.rows }
    ensures latest { table.new.latest ≡ table.old.latest }
{
    match part {
        ListPart::Known(number) => number,
        ListPart::New(row) => {
            put_texts_of(&mut table.texts, held, at, draft);
            let number = table.lists.len();
            table.lists.put(row);
            number
        }
    }
}

/// Puts the pass of a payload, with its list and the texts of that list if the table lacks them.
pub fn put_pass(
    table: &mut LocatedPasses,
    held: &HeldPayloads<'_>,
    at: usize,
    addition: PassAddition,
)
    requires room { HasPassRoom addition.list.count table.old }
    requires at { at < length held.now.segments }
    requires table { ArePassesLocated held.now.segments table.old }
    requires is { IsAddition (located_passes held.now.segments table.old) table.old.names.keys
        (nth_payload held.now.segments at) addition }
    ensures are { ArePassesLocated held.now.segments table.new }
    ensures is { located_passes held.now.segments table.new
        ≡ with_pass (located_passes held.now.segments table.old)
        (pass_in_ranges (nth_payload held.now.segments at) addition.draft) }
    ensures names { table.new.names.keys ≡ table.old.names.keys }
{
    let PassAddition { draft, list } = addition;
    let FoundList { part, count } = list;
    let number = put_list(table, held, at, draft.list, part, count);
    let fingerprint = fingerprint_in(held.get(at), draft.run, draft.simulator);
    table.rows.push_reserved(PassRow {
        payload: at,
        run: draft.run,
        simulator: draft.simulator,
        list: number,
        output: draft.output,
    });
    table.latest.put(fingerprint);
}
