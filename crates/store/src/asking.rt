//! The payload of what would be asked for a file now.

ghost use Rattle.std.specs.Prelude.{◌≡◌, ◌≢◌, ◌<◌, ◌≤◌, ◌^◌, ◌++◌, ◌∷◌, [], ℕ, List, None, Some, length, map, All, IfOk, IfSome};
ghost use Rattle.base_collections.specs.Numbers.{IsIndexOf};
ghost use Rattle.store_codec.specs.Forms.{IsSpellable, command_bytes};
ghost use Rattle.store_codec.specs.Forms.RequestPayload.{OfRequest};
ghost use Rattle.base_bytes.specs.TextRefs.{with_text};
ghost use Rattle.store_codec.specs.Writing.{HasRequestSizes, ref_or, request_of_parts};
ghost use Rattle.store_table.specs.Located.{AreTextsLocated, located_texts};
ghost use Rattle.store.specs.Additions.{AreRefs, HasAskedSizes, SpellsRequest, asked_draft};
ghost use Rattle.store.specs.LookedUp.{looked_up_product};

use crate::RecordHandles;
use base::{Entry, Items, NoMemory, Text};
use std::alloc::Global;
use store_codec::{
    RequestParts, RequestRanges, TextPart, request_layout, spelled_words, write_request,
};
use store_journal::Ready;
use store_table::{HeldPayloads, LocatedTexts, TextNumbers, find_text};

/// The numbers of the text of a file and of an artefact that are in the table already, and the numbers that both will have.
#[derive(Clone, Copy)]
pub struct TextRefs {
    pub source: Option<usize>,
    pub known: Option<usize>,
    pub numbers: TextNumbers,
}

/// The products of positions that have handles.
pub fn looked_up_products(
    alloc: Global,
    handles: &RecordHandles,
    positions: &[u32],
) -> Result<Items<usize>, NoMemory>
    requires within { All (λ position. position < length handles.now) positions.now }
    requires looked_up { All (λ position. looked_up_product handles.now position ≢ None) positions.now }
    ensures { IfOk result
        (λ numbers.
        map (λ n. Some n) numbers ≡ map (looked_up_product handles.now) positions.now) }
{
    let mut numbers = Items::new(alloc);
    for k in 0..positions.len() {
        let Some(handle) = handles.get(positions[k] as usize) else {
            unreachable!();
        };
        numbers.push(handle.product)?;
    }
    Ok(numbers)
}

/// The number of a text after a new one, if it is there.
fn find_after_text(
    held: &HeldPayloads<'_>,
    texts: &LocatedTexts,
    new: &[u8],
    text: &[u8],
) -> Option<usize>
    requires { AreTextsLocated held.now.segments texts.now }
    ensures { IsIndexOf (located_texts held.now.segments texts.now ++ new.now ∷ []) text.now result }
{
    if new == text {
        return Some(texts.indices.len());
    }
    find_text(held, texts, text)
}

/// The number of an artefact after a text that may be new, if it is there.
fn find_after(
    held: &HeldPayloads<'_>,
    texts: &LocatedTexts,
    source: Option<usize>,
    text: &[u8],
    artefact: &[u8],
) -> Option<usize>
    requires { AreTextsLocated held.now.segments texts.now }
    ensures { IsIndexOf
        (with_text (located_texts held.now.segments texts.now) (ref_or source text.now))
        artefact.now result }
{
    match source {
        Some(_number) => find_text(held, texts, artefact),
        None => find_after_text(held, texts, text, artefact),
    }
}

/// How many texts there are after one that may be new.
fn count_after(texts: &LocatedTexts, source: Option<usize>) -> usize
    ensures { (payloads : List (List ℕ)) (text : List ℕ) →
        result ≡ length (with_text (located_texts payloads texts.now) (ref_or source text)) }
{
    match source {
        Some(_number) => texts.indices.len(),
        None => texts.indices.len() + 1,
    }
}

/// The numbers of a text and of an artefact.
pub fn text_refs(
    held: &HeldPayloads<'_>,
    texts: &LocatedTexts,
    text: &[u8],
    artefact: &[u8],
) -> TextRefs
    requires { AreTextsLocated held.now.segments texts.now }
    ensures { AreRefs (located_texts held.now.segments texts.now) text.now artefact.now result }
{
    let source = find_text(held, texts, text);
    let known = find_after(held, texts, source, text, artefact);
    TextRefs {
        source,
        known,
        numbers: TextNumbers {
            text: source.unwrap_or(texts.indices.len()),
            artefact: known.unwrap_or(count_after(texts, source)),
        },
    }
}

/// A payload that is ready to be written, and where the parts of its record stand in it.
#[derive(Drop)]
pub struct AskedPayload {
    pub segment: Ready,
    pub draft: RequestRanges,
}

/// What is written of a record, straight into its frame, and where its parts stand in the payload.
fn framed_request(alloc: Global, parts: RequestParts<'_>) -> Result<AskedPayload, NoMemory>
    requires sizes { HasRequestSizes parts }
    requires spelled { (command : List (List ℕ))
        × (parts.words.now ≡ command_bytes command)
        × IsSpellable (OfRequest (request_of_parts command parts)) }
    ensures { (command : List (List ℕ)) →
        parts.entry.words.now ≡ command_bytes command →
        IsSpellable (OfRequest (request_of_parts command parts.entry)) →
        IfOk result (SpellsRequest (request_of_parts command parts.entry)) }
{
    let layout = request_layout(parts);
    let mut frame = Ready::begin(alloc, layout.size)?;
    write_request(&mut frame, parts)?;
    let segment = Ready::of(frame)?;
    Ok(AskedPayload {
        segment,
        draft: layout.ranges,
    })
}

/// The payload of a file as a record, by the numbers of its texts, where they have one, and of the products that it depends on.
pub fn asked_payload(
    alloc: Global,
    entry: &Entry,
    refs: TextRefs,
    deps: &[usize],
    artefact: &[u8],
) -> Result<AskedPayload, NoMemory>
    requires sizes { HasAskedSizes entry.now deps.now artefact.now }
    requires source { IfSome refs.source (λ number. number < 2 ^ 64) }
    requires known { IfSome refs.known (λ number. number < 2 ^ 64) }
    ensures { IfOk result
        (SpellsRequest (asked_draft entry.now refs.source deps.now refs.known artefact.now)) }
{
    let words = spelled_words(alloc, &entry.command)?;
    let asked = framed_request(
        alloc,
        RequestParts {
            name: &entry.name,
            words: words.bytes(),
            source: TextPart {
                known: refs.source,
                text: entry.text.bytes(),
            },
            deps,
            artefact: TextPart {
                known: refs.known,
                text: artefact,
            },
        },
    )?;
    Ok(asked)
}
