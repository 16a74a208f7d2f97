//! What the products and records of a table have, and the parts of their payloads.

ghost use Rattle.std.specs.Prelude.{◌≡◌, ◌<◌, ◌≤◌, length, map, All, slice_index_or};
ghost use Rattle.base.specs.declared.limits.TheConstants.{FILE_LIMIT};
ghost use Rattle.store_codec.specs.Forms.{command_bytes};
ghost use Rattle.store_codec.specs.RecordTables.{product_at};
ghost use Rattle.store_codec.specs.Writing.{HasProductSizes, HasRequestSizes, product_of_parts, request_of_parts};
ghost use Rattle.store_table.specs.Located.{no_name, no_row, located_table};
ghost use Rattle.store.specs.Plans.{IsTableToCompact, draft_over, product_step_draft, table_record_at};

use crate::words::spelled_in;
use crate::{ProductStep, RequestStep};
use base::FileName;
use base_bytes::{Numbers, numbers_of};
use store_codec::{ProductParts, RequestParts, TextPart};
use store_table::{HeldPayloads, LocatedTable, text_at};

/// The name of a number.
fn name_at(table: &LocatedTable, name: usize) -> &FileName
    requires { name < length table.now.names.keys }
    ensures { result.now ≡ slice_index_or table.now.names.keys name no_name }
{
    table.names.key(name)
}

/// The artefact of a product.
fn artefact_of<'a>(held: &'a HeldPayloads<'_>, table: &LocatedTable, product: usize) -> &'a [u8]
    requires table { IsTableToCompact held.now.segments table.now }
    requires product { product < length table.now.products.keys }
    ensures { let there = located_table held.now.segments table.now in
        result.now ≡ (product_at there.products product).artefact }
{
    text_at(held, &table.texts, table.products.key(product).text)
}

/// The parts of the payload of a product.
pub fn product_parts<'a>(
    held: &'a HeldPayloads<'_>,
    table: &'a LocatedTable,
    step: ProductStep,
) -> ProductParts<'a>
    requires table { IsTableToCompact held.now.segments table.now }
    requires there { step.product < length table.now.products.keys }
    ensures is { product_of_parts result
        ≡ product_step_draft (located_table held.now.segments table.now) step }
    ensures sizes { HasProductSizes result }
{
    let row = table.products.key(step.product);
    ProductParts {
        name: name_at(table, row.name),
        artefact: TextPart {
            known: step.text,
            text: artefact_of(held, table, step.product),
        },
    }
}

/// The numbers of the products that a record depends on.
pub fn deps_of<'a>(held: &'a HeldPayloads<'_>, table: &LocatedTable, number: usize) -> Numbers<'a>
    requires table { IsTableToCompact held.now.segments table.now }
    requires number { number < length table.now.rows.items }
    ensures there { All (λ dep. dep < length table.now.products.keys) result }
    ensures few { length result < FILE_LIMIT }
    ensures below { let there = located_table held.now.segments table.now in
        map (product_at there.products) result
        ≡ (table_record_at there.records number).asked.below }
{
    let row = table.rows[number];
    numbers_of(held.get(row.payload), row.deps)
}

/// The parts of the payload of a record, over products of these numbers.
pub fn request_parts<'a>(
    held: &'a HeldPayloads<'_>,
    table: &'a LocatedTable,
    step: RequestStep,
    deps: &'a [usize],
) -> RequestParts<'a>
    requires table { IsTableToCompact held.now.segments table.now }
    requires there { step.row < length table.now.rows.items }
    requires few { length deps.now < FILE_LIMIT }
    ensures is { let there = located_table held.now.segments table.now in
        let kept = table_record_at there.records step.row in
        request_of_parts kept.asked.command result ≡ draft_over kept deps.now step }
    ensures words { let there = located_table held.now.segments table.now in
        result.words.now ≡ command_bytes (table_record_at there.records step.row).asked.command }
    ensures sizes { HasRequestSizes result }
{
    let row = table.rows[step.row];
    RequestParts {
        name: name_at(table, row.name),
        words: spelled_in(held.get(row.payload), row.words),
        source: TextPart {
            known: step.source,
            text: text_at(held, &table.texts, row.text),
        },
        deps,
        artefact: TextPart {
            known: step.artefact,
            text: artefact_of(held, table, row.product),
        },
    }
}
