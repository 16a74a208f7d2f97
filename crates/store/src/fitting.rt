//! Whether a record has what would be asked for a file now.

ghost use Rattle.std.specs.Prelude.{◌≡◌, ◌↔◌, ◌<◌, ◌+◌, [], Some, true, length, map, All, IsTrue, slice_index_or};
ghost use Rattle.store_table.specs.Located.{AreTextsLocated, IsRecordRow, IsTableLocated, located_texts};
ghost use Rattle.store.specs.LookedUp.{looked_up_product};
ghost use Rattle.store.specs.Held.{IsAskedRow};

use crate::RecordHandles;
use base::Entry;
use base_bytes::{Numbers, has_words, numbers_of};
use store_table::{HeldPayloads, LocatedTable, LocatedTexts, RecordRow, text_at};

/// Whether a position has a handle with this product.
fn is_looked_up(handles: &RecordHandles, at: usize, product: u64) -> bool
    requires { at < length handles.now }
    ensures { IsTrue result ↔ (Some product ≡ looked_up_product handles.now at) }
{
    match handles.get(at) {
        Some(handle) => handle.product as u64 == product,
        None => false,
    }
}

/// Whether the products of positions have these numbers, one by one.
fn are_looked_up(handles: &RecordHandles, numbers: &Numbers<'_>, positions: &[u32]) -> bool
    requires { All (λ position. position < length handles.now) positions.now }
    ensures { IsTrue result
        ↔ (map (λ n. Some n) numbers.now ≡ map (looked_up_product handles.now) positions.now) }
{
    if numbers.len() != positions.len() {
        return false;
    }
    for k in 0..positions.len() {
        if !is_looked_up(handles, positions[k] as usize, numbers.get(k)) {
            return false;
        }
    }
    true
}

/// Whether the text of a number is that of a file, which isn't compared where it is known to be.
fn has_text(
    held: &HeldPayloads<'_>,
    texts: &LocatedTexts,
    number: usize,
    is_known: bool,
    text: &[u8],
) -> bool
    requires texts { AreTextsLocated held.now.segments texts.now }
    requires number { number < length texts.now.indices.items }
    requires known { is_known ≡ true →
        slice_index_or (located_texts held.now.segments texts.now) number [] ≡ text.now }
    ensures { IsTrue result
        ↔ (slice_index_or (located_texts held.now.segments texts.now) number [] ≡ text.now) }
{
    if is_known {
        return true;
    }
    text_at(held, texts, number) == text
}

/// Whether the words, the text and the products of a record are those of a file, whose text may be known to be the record's. It
/// takes no memory, and a time that goes by the text and the dependencies of the file alone.
pub fn is_asked(
    held: &HeldPayloads<'_>,
    table: &LocatedTable,
    row: RecordRow,
    entry: &Entry,
    is_text_known: bool,
    handles: &RecordHandles,
) -> bool
    requires table { IsTableLocated held.now.segments table.now }
    requires row { IsRecordRow held.now.segments table.now.names.keys
        (located_texts held.now.segments table.now.texts) table.now.products.keys row }
    requires command { 0 < length entry.now.command }
    requires text { is_text_known ≡ true →
        slice_index_or (located_texts held.now.segments table.now.texts) row.text []
        ≡ entry.now.text }
    requires deps { All (λ dep. dep < length handles.now) entry.now.deps }
    ensures { IsTrue result
        ↔ IsAskedRow held.now.segments (located_texts held.now.segments table.now.texts) row
        entry.now handles.now }
{
    let bytes = held.get(row.payload);
    if !has_words(bytes, row.words, &entry.command) {
        return false;
    }
    if !has_text(
        held,
        &table.texts,
        row.text,
        is_text_known,
        entry.text.bytes(),
    ) {
        return false;
    }
    are_looked_up(handles, &numbers_of(bytes, row.deps), entry.deps.as_slice())
}
