//! Adding a record or a product that was checked before to a table, in room that was reserved: it takes no memory.

ghost use Rattle.std.specs.Prelude.{◌≡◌, ◌≤◌, ◌<◌, ◌+◌, ◌∷◌, ◌++◌, [], true, length};
ghost use Rattle.base_collections.specs.Numbers.{IsIndexOf};
ghost use Rattle.store_codec.specs.Ranges.{product_in_ranges, request_in_ranges};
ghost use Rattle.base_bytes.specs.TextRefs.{ref_in_range, is_text_ref, with_text};
ghost use Rattle.store_codec.specs.RecordTables.{IsNewProduct, IsRequest, with_product, with_request};
ghost use Rattle.store_table.specs.Located.{AreTextsLocated, HasRowRoom, IsTableLocated, nth_payload, located_table, located_texts, text_room};
ghost use Rattle.store_table.specs.Checked.{AreTextNumbers, IsNameNumber, PutsProduct, ref_number};

use crate::checking::TextNumbers;
use crate::texts::put_text;
use crate::{HeldPayloads, LocatedTable, LocatedTexts, ProductRow, RecordRow};
use base_bytes::TextRange;
use base_collections::Numbered;
use store_codec::{ProductRanges, RequestRanges};

/// Puts a text at the end, if it is new.
pub fn put_ref(texts: &mut LocatedTexts, held: &HeldPayloads<'_>, at: usize, source: TextRange)
    requires room { 0 < text_room texts.old }
    requires at { at < length held.now.segments }
    requires texts { AreTextsLocated held.now.segments texts.old }
    requires source { is_text_ref (located_texts held.now.segments texts.old)
        (ref_in_range (nth_payload held.now.segments at) source)
        ≡ true }
    ensures are { AreTextsLocated held.now.segments texts.new }
    ensures is { located_texts held.now.segments texts.new
        ≡ with_text (located_texts held.now.segments texts.old)
        (ref_in_range (nth_payload held.now.segments at) source) }
    ensures room { text_room texts.old ≤ text_room texts.new + 1 }
{
    match source {
        TextRange::Known(_number) => {}
        TextRange::Full(range) => put_text(texts, held, at, range),
    }
}

/// The number of a product, which is put at the end if it is new.
fn put_row(products: &mut Numbered<ProductRow>, row: ProductRow) -> usize
    requires { 0 < products.old.room }
    ensures { PutsProduct row result products.old.keys products.new.keys }
{
    match products.number(&row) {
        Some(number) => number,
        None => {
            let number = products.len();
            products.put(row);
            number
        }
    }
}

/// Puts the record of a payload, with its texts and its product if the table lacks them.
pub fn put_request(
    table: &mut LocatedTable,
    held: &HeldPayloads<'_>,
    at: usize,
    draft: RequestRanges,
    name: usize,
    numbers: TextNumbers,
)
    requires room { HasRowRoom 2 table.old }
    requires at { at < length held.now.segments }
    requires table { IsTableLocated held.now.segments table.old }
    requires name { IsNameNumber table.old.names.keys
        (request_in_ranges (nth_payload held.now.segments at) draft).name name }
    requires request { IsRequest (located_table held.now.segments table.old)
        (request_in_ranges (nth_payload held.now.segments at) draft) }
    requires numbers { AreTextNumbers (located_texts held.now.segments table.old.texts)
        (request_in_ranges (nth_payload held.now.segments at) draft) numbers }
    ensures are { IsTableLocated held.now.segments table.new }
    ensures is { located_table held.now.segments table.new
        ≡ with_request (located_table held.now.segments table.old)
        (request_in_ranges (nth_payload held.now.segments at) draft) }
    ensures names { table.new.names.keys ≡ table.old.names.keys }
{
    put_ref(&mut table.texts, held, at, draft.source);
    put_ref(&mut table.texts, held, at, draft.artefact);
    let product = put_row(
        &mut table.products,
        ProductRow {
            name,
            text: numbers.artefact,
        },
    );
    table.rows.push_reserved(RecordRow {
        payload: at,
        words: draft.words,
        deps: draft.deps,
        name,
        text: numbers.text,
        product,
    });
    table.latest.put(name as u64);
}

/// Puts a new product, which a payload has, with its artefact where that isn't there.
pub fn put_product(
    table: &mut LocatedTable,
    held: &HeldPayloads<'_>,
    at: usize,
    draft: ProductRanges,
    name: usize,
    text: usize,
)
    requires room { HasRowRoom 2 table.old }
    requires at { at < length held.now.segments }
    requires table { IsTableLocated held.now.segments table.old }
    requires name { IsNameNumber table.old.names.keys
        (product_in_ranges (nth_payload held.now.segments at) draft).name name }
    requires product { IsNewProduct (located_table held.now.segments table.old)
        (product_in_ranges (nth_payload held.now.segments at) draft) }
    requires text { text
        ≡ ref_number (located_texts held.now.segments table.old.texts)
        (product_in_ranges (nth_payload held.now.segments at) draft).artefact }
    ensures are { IsTableLocated held.now.segments table.new }
    ensures is { located_table held.now.segments table.new
        ≡ with_product (located_table held.now.segments table.old)
        (product_in_ranges (nth_payload held.now.segments at) draft) }
    ensures names { table.new.names.keys ≡ table.old.names.keys }
{
    put_ref(&mut table.texts, held, at, draft.artefact);
    let _number = put_row(&mut table.products, ProductRow { name, text });
}
