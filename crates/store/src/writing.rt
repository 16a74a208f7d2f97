//! The payloads of a plan.

ghost use Rattle.std.specs.Prelude.{◌≡◌, ◌<◌, ◌^◌, ℕ, List, length, map, All, Contains, IfOk, Some, slice_get};
ghost use Rattle.store_codec.specs.Forms.{IsSpellable, request_payload_bytes};
ghost use Rattle.outside.specs.Records.{latest_alone as latest_requests};
ghost use Rattle.store_codec.specs.Compaction.{compacted_requests};
ghost use Rattle.store_codec.specs.RecordTables.{record_table_of, requests_among};
ghost use Rattle.store_table.specs.Located.{IsTableLocated, located_table};
ghost use Rattle.store.specs.declared.plan.CompactionStep.TheVariants.{OfProduct, OfRequest};
ghost use Rattle.store_table.specs.NumberSets.{AreNumbers};
ghost use Rattle.store.specs.Plans.{IsPlanIn, IsPlanStep, IsProductStep, IsRequestStep, IsTableToCompact, KeepsLatestRequests, compacted_by, step_payload};

use crate::rows::{deps_of, product_parts, request_parts};
use crate::{CompactionPlan, CompactionStep, ProductStep, RequestStep};
use base::{Items, NoMemory, Text};
use base_bytes::Numbers;
use base_collections::NumberSet;
use std::alloc::Global;
use store_codec::{product_payload, request_payload};
use store_journal::Payloads;
use store_table::{HeldPayloads, LocatedTable};

/// The new number of a product that is carried over.
fn new_number(products: &NumberSet, product: usize) -> usize
    requires size { product < products.now.size }
    requires there { Contains products.now.numbers product }
    ensures { slice_get products.now.numbers result ≡ Some product }
{
    let Some(found_index) = products.index_of(product) else {
        unreachable!();
    };
    found_index
}

/// The new numbers of products.
fn new_numbers(
    alloc: Global,
    products: &NumberSet,
    deps: &Numbers<'_>,
) -> Result<Items<usize>, NoMemory>
    requires size { All (λ dep. dep < products.now.size) deps.now }
    requires there { All (Contains products.now.numbers) deps.now }
    ensures are { IfOk result
        (λ numbers. map (slice_get products.now.numbers) numbers ≡ map (λ dep. Some dep) deps.now) }
    ensures fits { IfOk result (λ numbers. All (λ number. number < 2 ^ 64) numbers) }
{
    let mut numbers = Items::new(alloc);
    for k in 0..deps.len() {
        numbers.push(new_number(products, deps.get(k) as usize))?;
    }
    Ok(numbers)
}

/// The payload of a product alone.
fn payload_of_product(
    alloc: Global,
    held: &HeldPayloads<'_>,
    table: &LocatedTable,
    step: ProductStep,
) -> Result<Text, NoMemory>
    requires table { IsTableToCompact held.now.segments table.now }
    requires step { IsProductStep (located_table held.now.segments table.now) step }
    ensures bytes { let there = located_table held.now.segments table.now in
        (numbers : List ℕ) → IfOk result
        (λ bytes. bytes ≡ request_payload_bytes (step_payload there numbers (OfProduct step))) }
    ensures spelled { let there = located_table held.now.segments table.now in
        (numbers : List ℕ) → IsSpellable (step_payload there numbers (OfProduct step)) }
    ensures small { IfOk result (λ bytes. length bytes < 2 ^ 32) }
{
    product_payload(alloc, product_parts(held, table, step))
}

/// The payload of a record.
fn payload_of_request(
    alloc: Global,
    held: &HeldPayloads<'_>,
    table: &LocatedTable,
    products: &NumberSet,
    step: RequestStep,
) -> Result<Text, NoMemory>
    requires table { IsTableToCompact held.now.segments table.now }
    requires products { AreNumbers (length table.now.products.keys) products.now }
    requires step { IsRequestStep (located_table held.now.segments table.now)
        products.now.numbers step }
    ensures bytes { let there = located_table held.now.segments table.now in
        IfOk result
        (λ bytes.
        bytes ≡ request_payload_bytes (step_payload there products.now.numbers (OfRequest step))) }
    ensures spelled { let there = located_table held.now.segments table.now in
        IfOk result
        (λ _. IsSpellable (step_payload there products.now.numbers (OfRequest step))) }
    ensures small { IfOk result (λ bytes. length bytes < 2 ^ 32) }
{
    let deps = new_numbers(alloc, products, &deps_of(held, table, step.row))?;
    request_payload(alloc, request_parts(held, table, step, deps.as_slice()))
}

/// The payload of a step.
fn payload_of(
    alloc: Global,
    held: &HeldPayloads<'_>,
    table: &LocatedTable,
    products: &NumberSet,
    step: CompactionStep,
) -> Result<Text, NoMemory>
    requires table { IsTableToCompact held.now.segments table.now }
    requires products { AreNumbers (length table.now.products.keys) products.now }
    requires step { IsPlanStep (located_table held.now.segments table.now)
        products.now.numbers step }
    ensures bytes { let there = located_table held.now.segments table.now in
        IfOk result
        (λ bytes. bytes ≡ request_payload_bytes (step_payload there products.now.numbers step)) }
    ensures spelled { let there = located_table held.now.segments table.now in
        IfOk result (λ _. IsSpellable (step_payload there products.now.numbers step)) }
    ensures small { IfOk result (λ bytes. length bytes < 2 ^ 32) }
{
    match step {
        CompactionStep::OfProduct(step) => payload_of_product(alloc, held, table, step),
        CompactionStep::OfRequest(step) => payload_of_request(alloc, held, table, products, step),
    }
}

/// The payloads of a plan, in order.
fn payloads_by(
    alloc: Global,
    held: &HeldPayloads<'_>,
    table: &LocatedTable,
    plan: &CompactionPlan,
) -> Result<Payloads, NoMemory>
    requires table { IsTableToCompact held.now.segments table.now }
    requires plan { IsPlanIn (located_table held.now.segments table.now) plan.now }
    ensures is { let there = located_table held.now.segments table.now in
        IfOk result
        (λ payloads. payloads ≡ map request_payload_bytes (compacted_by there plan.now).payloads) }
    ensures spelled { let there = located_table held.now.segments table.now in
        IfOk result (λ _. All IsSpellable (compacted_by there plan.now).payloads) }
{
    let mut payloads = Payloads::new(alloc);
    for step in plan.steps.as_slice() {
        let payload = payload_of(alloc, held, table, &plan.products, *step)?;
        payloads.push(alloc, payload.bytes())?;
    }
    Ok(payloads)
}

/// The payloads that keep the latest record of each name, and nothing else, by a plan of these.
pub fn compacted_payloads(
    alloc: Global,
    held: &HeldPayloads<'_>,
    table: &LocatedTable,
    plan: &CompactionPlan,
) -> Result<Payloads, NoMemory>
    requires table { IsTableLocated held.now.segments table.now }
    requires is { located_table held.now.segments table.now ≡ record_table_of held.now.payloads }
    requires plan { KeepsLatestRequests held.now.payloads plan.now }
    ensures is { IfOk result
        (λ payloads.
        payloads ≡ compacted_requests (record_table_of held.now.payloads).records) }
    ensures records { IfOk result
        (λ payloads.
        requests_among payloads ≡ latest_requests (requests_among held.now.payloads)) }
{
    let payloads = payloads_by(alloc, held, table, plan)?;
    Ok(payloads)
}
