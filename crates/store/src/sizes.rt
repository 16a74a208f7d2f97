//! How many bytes payloads take on a side, by numbers alone.

ghost use Rattle.std.specs.Prelude.{◌≡◌, ◌<◌, ◌≤◌, ◌+◌, ℕ, List, length};
ghost use Rattle.base.specs.Jobs.{name_bytes};
ghost use Rattle.base.specs.Names.{FitsName};
ghost use Rattle.base.specs.declared.limits.TheConstants.{FILE_LIMIT, TEXT_LIMIT};
ghost use Rattle.store_journal.specs.Payloads.{block};
ghost use Rattle.store_codec.specs.Forms.{command_bytes, request_payload_bytes, text_ref_bytes};
ghost use Rattle.store_codec.specs.Forms.RequestPayload.{OfProduct, OfRequest};
ghost use Rattle.store_codec.specs.Writing.{HasPartSizes, HasProductSizes, HasRequestSizes, part_ref, product_of_parts, request_of_parts};
ghost use Rattle.store_table.specs.Located.{located_table};
ghost use Rattle.store.specs.Plans.{IsPlanStep, IsTableToCompact, step_payload, with_deps};

use crate::CompactionStep;
use crate::rows::{deps_of, product_parts, request_parts};
use base::FileName;
use store_codec::{ProductParts, RequestParts, TextPart};
use store_table::{HeldPayloads, LocatedTable};

/// The bytes of a name.
#[tactic(auto, unfolding(base::specs::Jobs::name_bytes))]
fn name_size(name: &FileName) -> u64
    requires { FitsName name.now }
    ensures is { result ≡ length (name_bytes name.now) }
    ensures small { result ≤ 1096 }
{
    8 + name.library.bytes().len() as u64 + name.path.bytes().len() as u64
}

/// The bytes of a text, which is there by its number or is new.
#[tactic(auto, unfolding(store_codec::specs::Forms::text_ref_bytes))]
fn part_size(part: TextPart<'_>) -> u64
    requires { HasPartSizes part }
    ensures is { result ≡ length (text_ref_bytes (part_ref part.entry)) }
    ensures small { result ≤ 9 + TEXT_LIMIT }
{
    match part.known {
        Some(_number) => 9,
        None => 5 + part.text.len() as u64,
    }
}

/// The number of bytes that the payload of a product takes with its commit byte and its length.
fn product_size(parts: ProductParts<'_>) -> u64
    requires { HasProductSizes parts }
    ensures { result
        ≡ length (block (request_payload_bytes (OfProduct (product_of_parts parts.entry)))) }
{
    6 + name_size(parts.name) + part_size(parts.artefact)
}

/// The number of bytes that the payload of a record over `deps` products takes with its commit byte and its length.
fn request_size(parts: RequestParts<'_>, deps: usize) -> u64
    requires sizes { HasRequestSizes parts }
    requires few { deps < FILE_LIMIT }
    ensures { (command : List (List ℕ)) (numbers : List ℕ) →
        parts.entry.words.now ≡ command_bytes command → length numbers ≡ deps →
        result
        ≡ length
        (block
        (request_payload_bytes
        (OfRequest (with_deps (request_of_parts command parts.entry) numbers)))) }
{
    let name = name_size(parts.name);
    let texts = part_size(parts.source) + part_size(parts.artefact);
    10 + name + parts.words.len() as u64 + texts + 8 * deps as u64
}

/// The number of bytes that the payload of a step takes with its commit byte and its length.
pub fn step_size(held: &HeldPayloads<'_>, table: &LocatedTable, step: CompactionStep) -> u64
    requires table { IsTableToCompact held.now.segments table.now }
    requires step { (numbers : List ℕ) ×
        IsPlanStep (located_table held.now.segments table.now) numbers step }
    ensures { let there = located_table held.now.segments table.now in
        (numbers : List ℕ) →
        result ≡ length (block (request_payload_bytes (step_payload there numbers step))) }
{
    match step {
        CompactionStep::OfProduct(step) => product_size(product_parts(held, table, step)),
        CompactionStep::OfRequest(step) => request_size(
            request_parts(held, table, step, &[]),
            deps_of(held, table, step.row).len(),
        ),
    }
}
