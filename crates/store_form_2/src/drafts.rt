//! A draft of a new node as a row of the table.

ghost use Rattle.std.specs.Prelude.{◌≡◌, ◌↔◌, ◌<◌, length, All, Contains, IsTrue, IfOk, IfSome, SomeIff, is_some};
ghost use Rattle.store_form_2.specs.NodeContents.{source_number};
ghost use Rattle.base_bytes.specs.TextRefs.{is_text_ref, ref_in_range};
ghost use Rattle.store_form_2.specs.Spans.{draft_in};
ghost use Rattle.store_form_2.specs.Locations.{AreTexts, texts_in};
ghost use Rattle.store_form_2.specs.Drafts.{HasMoreNames, IsDraftRow, IsNewRow, node_with};

use crate::texts::find_text;
use crate::{DraftSpans, NodeTable, Row, Segments, TextLocations};
use base::NoMemory;
use base_bytes::{TextRange, bytes_in, copy_numbers, copy_words, name_in};
use std::alloc::Global;

/// The number of a text that is named by its number, if one has it.
fn known_number(texts: &TextLocations, number: u64) -> Option<usize>
    ensures { SomeIff result (number < length texts.now.locations.items) number }
{
    if number < texts.locations.len() as u64 {
        Some(number as usize)
    } else {
        None
    }
}

/// The number that a new text will have, if it isn't there.
fn new_number(segments: &Segments, texts: &TextLocations, text: &[u8]) -> Option<usize>
    requires { AreTexts segments.now.payloads texts.now }
    ensures { SomeIff result (¬ Contains (texts_in segments.now.payloads texts.now) text.now)
        (length texts.now.locations.items) }
{
    match find_text(segments, texts, text) {
        Some(_number) => None,
        None => Some(texts.locations.len()),
    }
}

/// The number of the text of a draft, where it is there as it says, or is new.
fn number_of_source(
    segments: &Segments,
    texts: &TextLocations,
    bytes: &[u8],
    source: TextRange,
) -> Option<usize>
    requires { AreTexts segments.now.payloads texts.now }
    ensures is { is_some result
        ≡ is_text_ref (texts_in segments.now.payloads texts.now) (ref_in_range bytes.now source) }
    ensures number { IfSome result
        (λ number.
        number
        ≡ source_number (texts_in segments.now.payloads texts.now) (ref_in_range bytes.now source)) }
{
    match source {
        TextRange::Known(number) => known_number(texts, number),
        TextRange::Full(span) => new_number(segments, texts, bytes_in(bytes, span)),
    }
}

/// Whether all numbers are below a bound.
fn are_below(numbers: &[usize], bound: usize) -> bool
    ensures { IsTrue result ↔ All (λ number. number < bound) numbers.now }
{
    for number in numbers {
        if *number >= bound {
            return false;
        }
    }
    true
}

/// The row of a draft whose text has a number. Its name and its command are added where they are new.
fn row_of(
    alloc: Global,
    table: &mut NodeTable,
    bytes: &[u8],
    draft: DraftSpans,
    text: usize,
) -> Result<Row, NoMemory>
    ensures row { IfOk result
        (λ row. IsDraftRow table.new (node_with (draft_in bytes.now draft) text) row) }
    ensures nodes { table.new.nodes ≡ table.old.nodes }
    ensures names { HasMoreNames table.old.names table.new.names }
{
    let name = table.add_name(name_in(alloc, bytes, draft.library, draft.path)?)?;
    let command = table.add_command(copy_words(alloc, bytes, draft.words)?)?;
    let deps = copy_numbers(alloc, bytes, draft.deps)?;
    Ok(Row {
        name,
        command,
        text,
        deps,
    })
}

/// The row of a draft. There is no row if the node already exists, or if the draft's text or a dependency is invalid.
pub fn new_row(
    alloc: Global,
    table: &mut NodeTable,
    segments: &Segments,
    texts: &TextLocations,
    bytes: &[u8],
    draft: DraftSpans,
) -> Result<Option<Row>, NoMemory>
    requires { AreTexts segments.now.payloads texts.now }
    ensures row { IfOk result
        (IsNewRow (texts_in segments.now.payloads texts.now) table.new (draft_in bytes.now draft)) }
    ensures nodes { table.new.nodes ≡ table.old.nodes }
    ensures names { HasMoreNames table.old.names table.new.names }
{
    let Some(text) = number_of_source(segments, texts, bytes, draft.source) else {
        return Ok(None);
    };
    let row = row_of(alloc, table, bytes, draft, text)?;
    if !are_below(row.deps.as_slice(), table.len()) {
        return Ok(None);
    }
    if table.node_number(&row).is_some() {
        return Ok(None);
    }
    Ok(Some(row))
}
