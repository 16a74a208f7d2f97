//! Whether a draft is one of a record, or of a new product.

ghost use Rattle.std.specs.Prelude.{◌≡◌, ◌≢◌, ◌↔◌, ◌<◌, ◌+◌, ◌++◌, ◌∷◌, [], true, length, slice_index_or, All, AllPairs, Contains, IsTrue, IfOk, SomeIff};
ghost use Rattle.base.specs.Names.{FitsName};
ghost use Rattle.store_codec.specs.Ranges.{product_in_ranges, request_in_ranges};
ghost use Rattle.base_bytes.specs.TextRefs.{ref_in_range, is_text_ref, told_text, with_text};
ghost use Rattle.store_table.specs.Located.{AreTextsLocated, IsTableLocated, nth_payload, located_table, located_texts};
ghost use Rattle.store_table.specs.Checked.{AreRequestTexts, HasRowDeps, dep_names, IsCheckedProduct, IsCheckedRequest, IsNameNumber, IsRefNumber};

use crate::{HeldPayloads, LocatedTable, LocatedTexts, ProductRow, find_text, text_at};
use base::{ARTEFACT_LIMIT, FILE_LIMIT, NoMemory, TEXT_LIMIT};
use base_bytes::{Numbers, TextRange, bytes_in, has_word_sizes, numbers_of};
use base_collections::{NumberSet, Numbered};
use store_codec::{ProductRanges, RequestRanges};

/// The numbers of the text and of the artefact of a record.
#[derive(Clone, Copy)]
pub struct TextNumbers {
    pub text: usize,
    pub artefact: usize,
}

/// A number, where it is below a bound.
fn number_below(number: u64, bound: usize) -> Option<usize>
    ensures { SomeIff result (number < bound) number }
{
    if number < bound as u64 {
        Some(number as usize)
    } else {
        None
    }
}

/// The number that a text will get if it is added. `None` if the table already has the text.
fn new_number(held: &HeldPayloads<'_>, texts: &LocatedTexts, text: &[u8]) -> Option<usize>
    requires { AreTextsLocated held.now.segments texts.now }
    ensures { SomeIff result (¬ Contains (located_texts held.now.segments texts.now) text.now)
        (length texts.now.indices.items) }
{
    match find_text(held, texts, text) {
        Some(_number) => None,
        None => Some(texts.indices.len()),
    }
}

/// The number of the text that a reference means. `None` for a known number that doesn't exist, and for a full text that isn't
/// new.
pub fn number_of_ref(
    held: &HeldPayloads<'_>,
    texts: &LocatedTexts,
    bytes: &[u8],
    source: TextRange,
) -> Option<usize>
    requires { AreTextsLocated held.now.segments texts.now }
    ensures { IsRefNumber (located_texts held.now.segments texts.now) (ref_in_range bytes.now source)
        result }
{
    match source {
        TextRange::Known(number) => number_below(number, texts.indices.len()),
        TextRange::Full(range) => new_number(held, texts, bytes_in(bytes, range)),
    }
}

/// The text that is meant, where it is there or new as it says.
pub fn text_of_source<'a>(
    held: &'a HeldPayloads<'_>,
    texts: &LocatedTexts,
    bytes: &'a [u8],
    source: TextRange,
) -> &'a [u8]
    requires texts { AreTextsLocated held.now.segments texts.now }
    requires source { is_text_ref (located_texts held.now.segments texts.now)
        (ref_in_range bytes.now source)
        ≡ true }
    ensures { result.now
        ≡ told_text (located_texts held.now.segments texts.now) (ref_in_range bytes.now source) }
{
    match source {
        TextRange::Known(number) => text_at(held, texts, number as usize),
        TextRange::Full(range) => bytes_in(bytes, range),
    }
}

/// The number that a text will get if it is added after another new one. `None` if it equals that one, or if the table already
/// has it.
fn number_of_second(
    held: &HeldPayloads<'_>,
    texts: &LocatedTexts,
    new: &[u8],
    text: &[u8],
) -> Option<usize>
    requires { AreTextsLocated held.now.segments texts.now }
    ensures { SomeIff result
        (¬ Contains (located_texts held.now.segments texts.now ++ new.now ∷ []) text.now)
        (length texts.now.indices.items + 1) }
{
    if new == text {
        return None;
    }
    match find_text(held, texts, text) {
        Some(_number) => None,
        None => Some(texts.indices.len() + 1),
    }
}

/// The number of the text that a reference means after a new text is added. `None` if the reference is invalid after that.
fn number_after_text(
    held: &HeldPayloads<'_>,
    texts: &LocatedTexts,
    bytes: &[u8],
    new: &[u8],
    source: TextRange,
) -> Option<usize>
    requires { AreTextsLocated held.now.segments texts.now }
    ensures { IsRefNumber (located_texts held.now.segments texts.now ++ new.now ∷ [])
        (ref_in_range bytes.now source) result }
{
    match source {
        TextRange::Known(number) => number_below(number, texts.indices.len() + 1),
        TextRange::Full(range) => number_of_second(held, texts, new, bytes_in(bytes, range)),
    }
}

/// The number of the text that the second of two references means after the text of the first one is added, if it is new. `None`
/// if the second reference is invalid after that.
fn number_after(
    held: &HeldPayloads<'_>,
    texts: &LocatedTexts,
    bytes: &[u8],
    first: TextRange,
    second: TextRange,
) -> Option<usize>
    requires { AreTextsLocated held.now.segments texts.now }
    ensures { IsRefNumber
        (with_text (located_texts held.now.segments texts.now) (ref_in_range bytes.now first))
        (ref_in_range bytes.now second) result }
{
    match first {
        TextRange::Known(_number) => number_of_ref(held, texts, bytes, second),
        TextRange::Full(range) => {
            number_after_text(held, texts, bytes, bytes_in(bytes, range), second)
        }
    }
}

/// The text of a number, among the texts of the table and a new one after them.
fn text_or<'a>(
    held: &'a HeldPayloads<'_>,
    texts: &LocatedTexts,
    new: &'a [u8],
    number: usize,
) -> &'a [u8]
    requires texts { AreTextsLocated held.now.segments texts.now }
    requires number { number < length texts.now.indices.items + 1 }
    ensures { result.now
        ≡ slice_index_or (located_texts held.now.segments texts.now ++ new.now ∷ []) number [] }
{
    if number < texts.indices.len() {
        text_at(held, texts, number)
    } else {
        new
    }
}

/// The text that is meant after a new one.
fn told_after_text<'a>(
    held: &'a HeldPayloads<'_>,
    texts: &LocatedTexts,
    bytes: &'a [u8],
    new: &'a [u8],
    source: TextRange,
) -> &'a [u8]
    requires texts { AreTextsLocated held.now.segments texts.now }
    requires source { is_text_ref (located_texts held.now.segments texts.now ++ new.now ∷ [])
        (ref_in_range bytes.now source)
        ≡ true }
    ensures { result.now
        ≡ told_text (located_texts held.now.segments texts.now ++ new.now ∷ [])
        (ref_in_range bytes.now source) }
{
    match source {
        TextRange::Known(number) => text_or(held, texts, new, number as usize),
        TextRange::Full(range) => bytes_in(bytes, range),
    }
}

/// The text that is meant after one that may be new.
fn told_after<'a>(
    held: &'a HeldPayloads<'_>,
    texts: &LocatedTexts,
    bytes: &'a [u8],
    first: TextRange,
    second: TextRange,
) -> &'a [u8]
    requires texts { AreTextsLocated held.now.segments texts.now }
    requires second { is_text_ref
        (with_text (located_texts held.now.segments texts.now) (ref_in_range bytes.now first))
        (ref_in_range bytes.now second)
        ≡ true }
    ensures { result.now
        ≡ told_text
        (with_text (located_texts held.now.segments texts.now) (ref_in_range bytes.now first))
        (ref_in_range bytes.now second) }
{
    match first {
        TextRange::Known(_number) => text_of_source(held, texts, bytes, second),
        TextRange::Full(range) => {
            told_after_text(held, texts, bytes, bytes_in(bytes, range), second)
        }
    }
}

/// The numbers of the texts of a draft of a record, where they are there or new as it says, and have the sizes of one.
fn request_texts(
    held: &HeldPayloads<'_>,
    texts: &LocatedTexts,
    bytes: &[u8],
    draft: RequestRanges,
) -> Option<TextNumbers>
    requires { AreTextsLocated held.now.segments texts.now }
    ensures { AreRequestTexts (located_texts held.now.segments texts.now)
        (request_in_ranges bytes.now draft) result }
{
    let Some(text) = number_of_ref(held, texts, bytes, draft.source) else {
        return None;
    };
    if text_of_source(held, texts, bytes, draft.source).len() > TEXT_LIMIT {
        return None;
    }
    let Some(artefact) = number_after(held, texts, bytes, draft.source, draft.artefact) else {
        return None;
    };
    if told_after(held, texts, bytes, draft.source, draft.artefact).len() > ARTEFACT_LIMIT {
        return None;
    }
    Some(TextNumbers { text, artefact })
}

/// Whether all numbers are below a bound.
fn are_below(numbers: &Numbers<'_>, bound: usize) -> bool
    ensures { IsTrue result ↔ All (λ number. number < bound) numbers.now }
{
    for k in 0..numbers.len() {
        if numbers.get(k) >= bound as u64 {
            return false;
        }
    }
    true
}

/// Whether no two of some products have one name, nor one of them and the file of a name.
fn are_apart(
    set: &mut NumberSet,
    products: &Numbered<ProductRow>,
    name: usize,
    deps: &Numbers<'_>,
) -> Result<bool, NoMemory>
    requires deps { All (λ dep. dep < length products.now.keys) deps.now }
    requires name { name < set.old.size }
    requires names { All (λ row. row.name < set.old.size) products.now.keys }
    ensures { IfOk result
        (λ is.
        IsTrue is ↔ AllPairs (λ a b. a ≢ b) (name ∷ dep_names products.now.keys deps.now)) }
{
    set.clear();
    set.add(name)?;
    for k in 0..deps.len() {
        let row = products.key(deps.get(k) as usize);
        let new = set.add(row.name)?;
        if !new {
            return Ok(false);
        }
    }
    Ok(true)
}

/// Whether so few products are there, no two of one name, and none of the name of a number.
fn deps_fit(
    set: &mut NumberSet,
    table: &LocatedTable,
    name: usize,
    deps: &Numbers<'_>,
) -> Result<bool, NoMemory>
    requires name { name < length table.now.names.keys }
    requires names { All (λ row. row.name < length table.now.names.keys) table.now.products.keys }
    ensures { IfOk result
        (λ fit. IsTrue fit ↔ HasRowDeps table.now.products.keys name deps.now) }
{
    if deps.len() >= FILE_LIMIT {
        return Ok(false);
    }
    if !are_below(deps, table.products.len()) {
        return Ok(false);
    }
    set.grow_to(table.names.len())?;
    are_apart(set, &table.products, name, deps)
}

/// The numbers of the texts of a draft of a record in some bytes, where it is one, by the number of its name, which has the sizes
/// of one.
pub fn checked_request(
    set: &mut NumberSet,
    held: &HeldPayloads<'_>,
    table: &LocatedTable,
    bytes: &[u8],
    draft: RequestRanges,
    name: usize,
) -> Result<Option<TextNumbers>, NoMemory>
    requires table { IsTableLocated held.now.segments table.now }
    requires name { IsNameNumber table.now.names.keys
        (request_in_ranges bytes.now draft).name name }
    requires fits { FitsName (request_in_ranges bytes.now draft).name }
    ensures { IfOk result
        (IsCheckedRequest (located_table held.now.segments table.now)
        (request_in_ranges bytes.now draft)) }
{
    if !has_word_sizes(bytes, draft.words) {
        return Ok(None);
    }
    let Some(texts) = request_texts(held, &table.texts, bytes, draft) else {
        return Ok(None);
    };
    if !deps_fit(set, table, name, &numbers_of(bytes, draft.deps))? {
        return Ok(None);
    }
    Ok(Some(texts))
}

/// The number of the artefact of a draft of a product, where it is a new one, by the number of its name, which has the sizes
/// of one.
pub fn checked_product(
    held: &HeldPayloads<'_>,
    table: &LocatedTable,
    at: usize,
    draft: ProductRanges,
    name: usize,
) -> Option<usize>
    requires at { at < length held.now.segments }
    requires table { IsTableLocated held.now.segments table.now }
    requires name { IsNameNumber table.now.names.keys
        (product_in_ranges (nth_payload held.now.segments at) draft).name name }
    requires fits { FitsName
        (product_in_ranges (nth_payload held.now.segments at) draft).name }
    ensures { IsCheckedProduct (located_table held.now.segments table.now)
        (product_in_ranges (nth_payload held.now.segments at) draft) result }
{
    let bytes = held.get(at);
    let Some(text) = number_of_ref(held, &table.texts, bytes, draft.artefact) else {
        return None;
    };
    if text_of_source(held, &table.texts, bytes, draft.artefact).len() > ARTEFACT_LIMIT {
        return None;
    }
    match table.products.number(&ProductRow { name, text }) {
        Some(_number) => None,
        None => Some(text),
    }
}
