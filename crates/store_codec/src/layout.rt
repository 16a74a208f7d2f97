//! Where the parts of a payload stand, by their sizes alone, before it is written.

ghost use Rattle.std.specs.Prelude.{◌≡◌, ◌<◌, ◌^◌, ◌++◌, ℕ, List, length, drop};
ghost use Rattle.store_codec.specs.Forms.{command_bytes, text_ref_bytes, IsSpellable, request_payload_bytes};
ghost use Rattle.store_codec.specs.Forms.RequestPayload.{OfRequest};
ghost use Rattle.store_codec.specs.Layouts.{IsLayout};
ghost use Rattle.base_bytes.specs.TextRefs.{ref_in_range};
ghost use Rattle.store_codec.specs.Writing.{HasRequestSizes, part_ref, request_of_parts};

use crate::reading::RequestRanges;
use crate::writing::{RequestParts, TextPart};
use base_bytes::{ByteRange, TextRange};

/// Where the parts of a record stand in its payload, and the size of the payload.
#[derive(Clone, Copy)]
pub struct RequestLayout {
    pub ranges: RequestRanges,
    pub size: usize,
}

/// How many bytes a text takes: its tag with its number, or with its length and its bytes.
#[tactic(auto, unfolding(crate::specs::Forms::text_ref_bytes))]
fn part_size(part: TextPart<'_>) -> usize
    ensures { result ≡ length (text_ref_bytes (part_ref part.entry)) }
{
    match part.known {
        Some(_number) => 9,
        None => part.text.len() + 5,
    }
}

/// Where a text stands that is written at an offset.
fn part_range(part: TextPart<'_>, at: usize) -> TextRange
    requires { at < 2 ^ 32 }
    ensures { (bytes rest : List ℕ) →
        drop at bytes ≡ text_ref_bytes (part_ref part.entry) ++ rest →
        ref_in_range bytes result ≡ part_ref part.entry }
{
    match part.known {
        Some(number) => TextRange::Known(number as u64),
        None => TextRange::Full(ByteRange {
            start: at + 5,
            count: part.text.len(),
        }),
    }
}

/// Where the parts of a record stand in the payload that is written of them.
pub fn request_layout(parts: RequestParts<'_>) -> RequestLayout
    requires { HasRequestSizes parts }
    ensures is { (command : List (List ℕ)) →
        parts.entry.words.now ≡ command_bytes command →
        IsSpellable (OfRequest (request_of_parts command parts.entry)) →
        IsLayout (request_of_parts command parts.entry) result }
    ensures small { result.size < 2 ^ 32 }
{
    let library = ByteRange {
        start: 5,
        count: parts.name.library.bytes().len(),
    };
    let path = ByteRange {
        start: library.count + 9,
        count: parts.name.path.bytes().len(),
    };
    let words = ByteRange {
        start: path.start + path.count,
        count: parts.words.len(),
    };
    let source = words.start + words.count;
    let deps = ByteRange {
        start: source + part_size(parts.source),
        count: 4 + 8 * parts.deps.len(),
    };
    let artefact = deps.start + deps.count;
    RequestLayout {
        ranges: RequestRanges {
            library,
            path,
            words,
            source: part_range(parts.source, source),
            deps,
            artefact: part_range(parts.artefact, artefact),
        },
        size: artefact + part_size(parts.artefact),
    }
}
