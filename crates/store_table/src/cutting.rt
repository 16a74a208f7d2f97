//! Taking up the payload of a record whose text a file has: the text is borrowed from there, and the other bytes alone are held.

ghost use Rattle.std.specs.Prelude.{◌≡◌, ◌≤◌, ◌<◌, ◌+◌, ◌++◌, ◌∷◌, [], ℕ, List, Some, true, length, take, drop, Contains, IsTrue, IfOk, IfSome, OnOk};
ghost use Rattle.base.specs.Names.{FitsName};
ghost use Rattle.base_bytes.specs.declared.text_refs.TextRange.TheVariants.{Known, Full};
ghost use Rattle.store_codec.specs.Forms.{request_payload_in};
ghost use Rattle.store_codec.specs.Forms.RequestPayload.{OfRequest};
ghost use Rattle.base_bytes.specs.TextRefs.TextRef.{ByNumber, InFull};
ghost use Rattle.store_codec.specs.Ranges.{request_in_ranges};
ghost use Rattle.base_bytes.specs.Ranges.{counted_numbers, counted_words, range_end, ranged};
ghost use Rattle.base_bytes.specs.TextRefs.{ref_in_range};
ghost use Rattle.store_codec.specs.RecordTables.{IsRequest, record_table_of, with_request};
ghost use Rattle.store_table.specs.Checked.{AreTextNumbers, IsNameNumber};
ghost use Rattle.store_table.specs.Cuts.{AreSameParts, HasTaken, IsCutOf, IsWithout, TookOrLeft, with_new_text, with_source};
ghost use Rattle.store_table.specs.Located.{HasRowRoom, IsHeld, IsTableLocated, nth_payload, located_table, located_texts, with_cut};

use crate::checking::checked_request;
use crate::held::CutPayload;
use crate::putting::put_request;
use crate::taking::take_up;
use crate::texts::put_text;
use crate::{HeldPayloads, LocatedTable, TextNumbers, number_name};
use base::{NoMemory, Text, TextList};
use base_bytes::{ByteRange, TextRange, bytes_in, has_words, name_in};
use base_collections::NumberSet;
use std::alloc::Global;
use store_codec::{PayloadRanges, RequestRanges, read_request_payload};

/// The payload of a record without its text, and the ranges of the record's parts in the remaining bytes. The text is given by
/// its number.
#[derive(Drop)]
pub struct CutRequest {
    pub payload: CutPayload,
    pub draft: RequestRanges,
}

/// Whether a range ends before another one begins. If so, its bytes keep their offset when those of the other one are removed.
fn is_before(range: ByteRange, cut: ByteRange) -> bool
    ensures { (bytes rest : List ℕ) → IsWithout bytes cut rest →
        IsTrue result → ranged rest range ≡ ranged bytes range }
{
    range.start <= cut.start && range.count <= cut.start - range.start
}

/// The range that has the same bytes once those of another range are removed. `None` unless it begins after the other one ends.
fn shift_past(range: ByteRange, cut: ByteRange) -> Option<ByteRange>
    ensures from { (bytes rest : List ℕ) → IsWithout bytes cut rest →
        IfSome result (λ new. drop new.start rest ≡ drop range.start bytes) }
    ensures count { IfSome result (λ new. new.count ≡ range.count) }
{
    if range.start < cut.start {
        return None;
    }
    if range.start - cut.start < cut.count {
        return None;
    }
    Some(ByteRange {
        start: range.start - cut.count,
        count: range.count,
    })
}

/// The same for a text reference.
fn moved_ref(source: TextRange, cut: ByteRange) -> Option<TextRange>
    ensures { (bytes rest : List ℕ) → IsWithout bytes cut rest →
        IfSome result (λ new. ref_in_range rest new ≡ ref_in_range bytes source) }
{
    match source {
        TextRange::Known(number) => Some(TextRange::Known(number)),
        TextRange::Full(range) => {
            let new = shift_past(range, cut)?;
            Some(TextRange::Full(new))
        }
    }
}

/// The ranges of a record's parts once its text is removed and given by its number. `None` unless the name of the record is
/// before the text, and its dependencies and its artefact after it.
fn moved_request(draft: RequestRanges, cut: ByteRange, number: u64) -> Option<RequestRanges>
    ensures source { IfSome result (λ new. new.source ≡ Known number) }
    ensures words { IfSome result (λ new. new.words ≡ draft.words) }
    ensures same { (bytes rest : List ℕ) → IsWithout bytes cut rest →
        IfSome result (λ new. AreSameParts bytes draft rest new) }
{
    if !is_before(draft.library, cut) {
        return None;
    }
    if !is_before(draft.path, cut) {
        return None;
    }
    let deps = shift_past(draft.deps, cut)?;
    let artefact = moved_ref(draft.artefact, cut)?;
    Some(RequestRanges {
        library: draft.library,
        path: draft.path,
        words: draft.words,
        source: TextRange::Known(number),
        deps,
        artefact,
    })
}

/// A copy of the bytes without those of a range.
fn without(alloc: Global, bytes: &[u8], range: ByteRange) -> Result<Text, NoMemory>
    requires { range_end range ≤ length bytes.now }
    ensures { IfOk result (λ rest. IsWithout bytes.now range rest) }
{
    let end = range.start + range.count;
    let mut rest = Vec::with_capacity(alloc, bytes.len() - range.count)?;
    rest.extend_from_slice(&bytes[..range.start])?;
    rest.extend_from_slice(&bytes[end..])?;
    Ok(Text::from_vec(rest))
}

/// Whether a range lies within `len` bytes.
fn has_range(len: usize, range: ByteRange) -> bool
    ensures { IsTrue result → range_end range ≤ len }
{
    range.start <= len && range.count <= len - range.start
}

/// The payload of a record without its text, which is in a range. `None` if the file's command is empty or differs from the
/// record's, or if the range isn't within the payload, after the record's name and before its dependencies and its artefact.
fn cut_request(
    alloc: Global,
    payload: &[u8],
    draft: RequestRanges,
    range: ByteRange,
    command: &TextList,
    number: usize,
    file: usize,
) -> Result<Option<CutRequest>, NoMemory>
    ensures { (borrowed : List (List ℕ)) →
        file < length borrowed →
        nth_payload borrowed file ≡ ranged payload.now range →
        draft.source ≡ Full range →
        IfOk result (λ found. IfSome found (IsCutOf borrowed payload.now draft number)) }
{
    let Some(new) = moved_request(draft, range, number as u64) else {
        return Ok(None);
    };
    if !has_range(payload.len(), range) {
        return Ok(None);
    }
    let rest = without(alloc, payload, range)?;
    if !has_same_words(payload, rest.bytes(), draft.words, command) {
        return Ok(None);
    }
    Ok(Some(CutRequest {
        payload: CutPayload {
            rest,
            at: range.start,
            file,
        },
        draft: new,
    }))
}

/// The payload of a record without its text, which will have the number `number`, if the file of the number `file` has the same
/// text and the same words.
pub fn borrowed_cut(
    alloc: Global,
    held: &HeldPayloads<'_>,
    payload: &[u8],
    draft: RequestRanges,
    file: usize,
    number: usize,
) -> Result<Option<CutRequest>, NoMemory>
    ensures { IfOk result
        (λ found. IfSome found (IsCutOf held.now.borrowed payload.now draft number)) }
{
    let TextRange::Full(range) = draft.source else {
        return Ok(None);
    };
    let Some(entry) = held.file(file) else {
        return Ok(None);
    };
    if bytes_in(payload, range) != entry.text.bytes() {
        return Ok(None);
    }
    let cut = cut_request(alloc, payload, draft, range, &entry.command, number, file)?;
    Ok(cut)
}

/// Whether some bytes and some others have the words of a file from the start of a range on.
fn has_same_words(bytes: &[u8], others: &[u8], words: ByteRange, command: &TextList) -> bool
    ensures { IsTrue result → counted_words others.now words ≡ counted_words bytes.now words }
{
    if command.len() == 0 {
        return false;
    }
    if !has_words(bytes, words, command) {
        return false;
    }
    has_words(others, words, command)
}

/// Puts a text that isn't there, which is a segment, at the end.
fn put_source(table: &mut LocatedTable, held: &HeldPayloads<'_>, segment: usize)
    requires room { HasRowRoom 3 table.old }
    requires segment { segment < length held.now.segments }
    requires table { IsTableLocated held.now.segments table.old }
    requires new { ¬ Contains (located_texts held.now.segments table.old.texts)
        (nth_payload held.now.segments segment) }
    ensures are { IsTableLocated held.now.segments table.new }
    ensures is { located_table held.now.segments table.new
        ≡ with_new_text (located_table held.now.segments table.old)
        (nth_payload held.now.segments segment) }
    ensures names { table.new.names.keys ≡ table.old.names.keys }
    ensures room { HasRowRoom 2 table.new }
{
    let count = held.get(segment).len();
    put_text(
        &mut table.texts,
        held,
        segment,
        ByteRange { start: 0, count },
    );
}

/// Puts a record whose text is new, and a segment, and whose other parts are in another segment.
fn put_cut_request(
    table: &mut LocatedTable,
    held: &HeldPayloads<'_>,
    at: usize,
    segment: usize,
    draft: RequestRanges,
    name: usize,
    numbers: TextNumbers,
)
    requires room { HasRowRoom 3 table.old }
    requires at { at < length held.now.segments }
    requires segment { segment < length held.now.segments }
    requires table { IsTableLocated held.now.segments table.old }
    requires name { IsNameNumber table.old.names.keys
        (request_in_ranges (nth_payload held.now.segments at) draft).name name }
    requires source { draft.source ≡ Known numbers.text }
    requires request { IsRequest (located_table held.now.segments table.old)
        (with_source (InFull (nth_payload held.now.segments segment))
        (request_in_ranges (nth_payload held.now.segments at) draft)) }
    requires numbers { AreTextNumbers (located_texts held.now.segments table.old.texts)
        (with_source (InFull (nth_payload held.now.segments segment))
        (request_in_ranges (nth_payload held.now.segments at) draft))
        numbers }
    ensures are { IsTableLocated held.now.segments table.new }
    ensures is { located_table held.now.segments table.new
        ≡ with_request (located_table held.now.segments table.old)
        (with_source (InFull (nth_payload held.now.segments segment))
        (request_in_ranges (nth_payload held.now.segments at) draft)) }
{
    put_source(table, held, segment);
    put_request(table, held, at, draft, name, numbers);
}

/// Adds the payload of a record without its text, which a file lends, with what the record stands for. It takes no memory.
pub fn put_borrowed(
    table: &mut LocatedTable,
    held: &mut HeldPayloads<'_>,
    payload: &[u8],
    draft: RequestRanges,
    name: usize,
    numbers: TextNumbers,
    cut: CutRequest,
)
    requires room { 0 < held.old.room }
    requires row_room { HasRowRoom 3 table.old }
    requires held { IsHeld held.old.segments held.old.payloads table.old }
    requires read { request_payload_in payload.now
        ≡ Some (OfRequest (request_in_ranges payload.now draft)) }
    requires name { IsNameNumber table.old.names.keys
        (request_in_ranges payload.now draft).name name }
    requires request { IsRequest (record_table_of held.old.payloads)
        (request_in_ranges payload.now draft) }
    requires numbers { AreTextNumbers (record_table_of held.old.payloads).texts
        (request_in_ranges payload.now draft) numbers }
    requires cut { IsCutOf held.old.borrowed payload.now draft numbers.text cut }
    ensures { HasTaken held.old held.new table.new payload.now }
{
    let CutRequest {
        payload: cut,
        draft: new,
    } = cut;
    let at = held.len();
    let file = cut.file;
    held.put_cut(cut);
    put_cut_request(table, held, at, file, new, name, numbers);
}

/// Takes up the payload of a record whose text a file lends, if it is a record.
fn take_cut(
    table: &mut LocatedTable,
    set: &mut NumberSet,
    held: &mut HeldPayloads<'_>,
    payload: &[u8],
    draft: RequestRanges,
    name: usize,
    cut: CutRequest,
) -> Result<bool, NoMemory>
    requires held { IsHeld held.old.segments held.old.payloads table.old }
    requires read { request_payload_in payload.now
        ≡ Some (OfRequest (request_in_ranges payload.now draft)) }
    requires name { IsNameNumber table.old.names.keys
        (request_in_ranges payload.now draft).name name }
    requires fits { FitsName (request_in_ranges payload.now draft).name }
    requires cut { IsCutOf held.old.borrowed payload.now draft
        (length table.old.texts.indices.items) cut }
    ensures { IfOk result (λ taken. TookOrLeft taken held.old held.new table.new payload.now) }
{
    let Some(numbers) = checked_request(set, held, table, payload, draft, name)? else {
        return Ok(false);
    };
    held.reserve()?;
    table.reserve()?;
    put_borrowed(table, held, payload, draft, name, numbers, cut);
    Ok(true)
}

/// Takes up the payload of a record, if a file of its name has its text and its words.
fn take_slice_request(
    alloc: Global,
    table: &mut LocatedTable,
    set: &mut NumberSet,
    held: &mut HeldPayloads<'_>,
    payload: &[u8],
    draft: RequestRanges,
) -> Result<bool, NoMemory>
    requires held { IsHeld held.old.segments held.old.payloads table.old }
    requires read { request_payload_in payload.now
        ≡ Some (OfRequest (request_in_ranges payload.now draft)) }
    ensures { IfOk result (λ taken. TookOrLeft taken held.old held.new table.new payload.now) }
{
    let TextRange::Full(_range) = draft.source else {
        return Ok(false);
    };
    let name = name_in(alloc, payload, draft.library, draft.path)?;
    if !name.is_within_limits() {
        return Ok(false);
    }
    let name = number_name(table, name)?;
    let number = table.texts.indices.len();
    match borrowed_cut(alloc, held, payload, draft, name, number)? {
        Some(cut) => take_cut(table, set, held, payload, draft, name, cut),
        None => Ok(false),
    }
}

/// Takes up a payload, if it is that of a record of which a file has the text.
fn take_slice(
    alloc: Global,
    table: &mut LocatedTable,
    set: &mut NumberSet,
    held: &mut HeldPayloads<'_>,
    payload: &[u8],
) -> Result<bool, NoMemory>
    requires { IsHeld held.old.segments held.old.payloads table.old }
    ensures { IfOk result (λ taken. TookOrLeft taken held.old held.new table.new payload.now) }
{
    match read_request_payload(payload) {
        Some(PayloadRanges::OfRequest(draft)) => {
            take_slice_request(alloc, table, set, held, payload, draft)
        }
        Some(PayloadRanges::OfProduct(_draft)) => Ok(false),
        None => Ok(false),
    }
}

/// Adds a copy of a payload, and takes it up.
fn take_whole(
    alloc: Global,
    table: &mut LocatedTable,
    set: &mut NumberSet,
    held: &mut HeldPayloads<'_>,
    payload: &[u8],
) -> Result<(), NoMemory>
    requires { IsHeld held.old.segments held.old.payloads table.old }
    ensures { OnOk result (HasTaken held.old held.new table.new payload.now) }
{
    let copy = Text::from_slice(alloc, payload)?;
    let at = held.len();
    held.put_whole(copy)?;
    take_up(alloc, table, set, held, at)?;
    Ok(())
}

/// Takes up one more payload, which is borrowed for this call alone. If the file of a record's name has the same text and the
/// same words, the text is borrowed from that file. Otherwise the whole payload is copied.
pub fn take_payload(
    alloc: Global,
    table: &mut LocatedTable,
    set: &mut NumberSet,
    held: &mut HeldPayloads<'_>,
    payload: &[u8],
) -> Result<(), NoMemory>
    requires { IsHeld held.old.segments held.old.payloads table.old }
    ensures { OnOk result (HasTaken held.old held.new table.new payload.now) }
{
    let taken = take_slice(alloc, table, set, held, payload)?;
    if taken {
        return Ok(());
    }
    take_whole(alloc, table, set, held, payload)
}
