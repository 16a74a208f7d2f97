//! Writing payloads.

ghost use Rattle.std.specs.Prelude.{◌≡◌, ◌<◌, ◌≤◌, ◌^◌, ◌+◌, ◌++◌, ℕ, List, length, All, IfOk, OnOk};
ghost use Rattle.base.specs.Names.{FitsCommand};
ghost use Rattle.store_codec.specs.Forms.{command_bytes, product_numbers_bytes, text_ref_bytes, request_payload_bytes};
ghost use Rattle.store_codec.specs.Forms.RequestPayload.{OfProduct, OfRequest};
ghost use Rattle.store_codec.specs.Writing.{HasPartSizes, HasProductSizes, HasRequestSizes, part_ref, product_of_parts, request_of_parts};

use crate::layout::request_layout;
use base::{FileName, NoMemory, Text, TextList};
use base_bytes::ByteWriter;
use std::alloc::Global;

/// A text: one that is there by its number, or else a new one.
#[derive(Clone, Copy)]
pub struct TextPart<'a> {
    pub known: Option<usize>,
    pub text: &'a [u8],
}

/// What a payload of a product says.
#[derive(Clone, Copy)]
pub struct ProductParts<'a> {
    pub name: &'a FileName,
    pub artefact: TextPart<'a>,
}

/// What a payload of a record says; its words are spelled already, after their number.
#[derive(Clone, Copy)]
pub struct RequestParts<'a> {
    pub name: &'a FileName,
    pub words: &'a [u8],
    pub source: TextPart<'a>,
    pub deps: &'a [usize],
    pub artefact: TextPart<'a>,
}

/// The words of a compiler after their number.
#[tactic(auto, unfolding(crate::specs::Forms::command_bytes))]
pub fn spelled_words(alloc: Global, words: &TextList) -> Result<Text, NoMemory>
    requires { FitsCommand words.now }
    ensures { IfOk result (λ bytes. bytes ≡ command_bytes words.now) }
{
    let mut out = ByteWriter::new(alloc);
    let words = words.as_slice();
    out.u32(words.len() as u32)?;
    for word in words {
        out.text(word.bytes())?;
    }
    Ok(out.into_text())
}

/// Writes numbers of eight bytes after their number.
#[tactic(auto, unfolding(crate::specs::Forms::product_numbers_bytes))]
fn put_numbers(out: &mut ByteWriter, numbers: &[usize]) -> Result<(), NoMemory>
    requires { length numbers.now < 2 ^ 32 }
    ensures { OnOk result (out.new ≡ out.old ++ product_numbers_bytes numbers.now) }
{
    out.u32(numbers.len() as u32)?;
    for number in numbers {
        out.u64(*number as u64)?;
    }
    Ok(())
}

/// Writes a text that is there by its number, or a new text.
#[tactic(auto, unfolding(crate::specs::Forms::text_ref_bytes))]
pub fn put_part(out: &mut ByteWriter, part: TextPart<'_>) -> Result<(), NoMemory>
    requires { HasPartSizes part }
    ensures { OnOk result (out.new ≡ out.old ++ text_ref_bytes (part_ref part.entry)) }
{
    match part.known {
        Some(number) => {
            out.plain(&[0])?;
            out.u64(number as u64)?;
            Ok(())
        }
        None => {
            out.plain(&[1])?;
            out.text(part.text)?;
            Ok(())
        }
    }
}

/// The payload of a product.
#[tactic(auto, unfolding(crate::specs::Forms::request_payload_bytes, crate::specs::Forms::product_draft_bytes))]
pub fn product_payload(alloc: Global, parts: ProductParts<'_>) -> Result<Text, NoMemory>
    requires { HasProductSizes parts }
    ensures bytes { IfOk result
        (λ bytes. bytes ≡ request_payload_bytes (OfProduct (product_of_parts parts.entry))) }
    ensures small { IfOk result (λ bytes. length bytes < 2 ^ 32) }
{
    let mut out = ByteWriter::new(alloc);
    out.plain(&[0])?;
    out.name(parts.name)?;
    put_part(&mut out, parts.artefact)?;
    Ok(out.into_text())
}

/// Writes the payload of a record.
#[tactic(auto, unfolding(crate::specs::Forms::request_payload_bytes, crate::specs::Forms::request_draft_bytes))]
pub fn write_request(out: &mut ByteWriter, parts: RequestParts<'_>) -> Result<(), NoMemory>
    requires { HasRequestSizes parts }
    ensures bytes { (command : List (List ℕ)) →
        parts.entry.words.now ≡ command_bytes command →
        OnOk result
        (out.new
        ≡ out.old
        ++ request_payload_bytes (OfRequest (request_of_parts command parts.entry))) }
    ensures small { OnOk result (length out.new < length out.old + 2 ^ 32) }
{
    out.plain(&[1])?;
    out.name(parts.name)?;
    out.plain(parts.words)?;
    put_part(out, parts.source)?;
    put_numbers(out, parts.deps)?;
    put_part(out, parts.artefact)?;
    Ok(())
}

/// The payload of a record, in room of just its size.
pub fn request_payload(alloc: Global, parts: RequestParts<'_>) -> Result<Text, NoMemory>
    requires { HasRequestSizes parts }
    ensures bytes { (command : List (List ℕ)) →
        parts.entry.words.now ≡ command_bytes command →
        IfOk result
        (λ bytes.
        bytes ≡ request_payload_bytes (OfRequest (request_of_parts command parts.entry))) }
    ensures small { IfOk result (λ bytes. length bytes < 2 ^ 32) }
{
    let mut out = ByteWriter::with_room(alloc, request_layout(parts).size)?;
    write_request(&mut out, parts)?;
    Ok(out.into_text())
}
