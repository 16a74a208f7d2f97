//! The walk over the latest records of a store.

ghost use Rattle.std.specs.Prelude.{◌≡◌, ◌↔◌, ◌<◌, ◌+◌, length, drop, not, All, Contains, IfOk, IsTrue, OnOk};
ghost use Rattle.std.specs.List.{fold};
ghost use Rattle.outside.specs.Records.{is_replaced as is_overtaken, latest_alone as latest_requests};
ghost use Rattle.store_codec.specs.Compaction.{compacted_from, compact_own, compact_product, compact_request, none_compacted};
ghost use Rattle.store_codec.specs.RecordTables.{product_at, record_table_of};
ghost use Rattle.store_table.specs.Located.{IsTableLocated, located_table};
ghost use Rattle.store.specs.Plans.{HasMoreNumbers, IsCounted, IsPlanIn, IsPlanStep, IsTableToCompact, KeepsLatestRequests, compacted_by, table_record_at, step_payload, with_compacted_payload};

use crate::plan::{take_product, take_request};
use crate::rows::deps_of;
use crate::sizes::step_size;
use crate::{CompactionPlan, CompactionStep};
use base::NoMemory;
use std::alloc::Global;
use store_table::{HeldPayloads, LocatedTable};

/// Whether a record is the latest of its name.
fn is_latest(held: &HeldPayloads<'_>, table: &LocatedTable, number: usize) -> bool
    requires table { IsTableToCompact held.now.segments table.now }
    requires number { number < length table.now.rows.items }
    ensures { let records = (located_table held.now.segments table.now).records in
        result ≡ not (is_overtaken (drop (number + 1) records) (table_record_at records number)) }
{
    match table.latest.last(table.rows[number].name as u64) {
        Some(last) => last == number,
        None => false,
    }
}

/// Whether a product was planned.
fn is_planned(plan: &CompactionPlan, product: usize) -> bool
    requires { product < plan.now.products.size }
    ensures { IsTrue result ↔ Contains plan.now.products.numbers product }
{
    plan.products.index_of(product).is_some()
}

/// Adds a step to a plan.
fn add_step(
    plan: &mut CompactionPlan,
    held: &HeldPayloads<'_>,
    table: &LocatedTable,
    step: CompactionStep,
) -> Result<(), NoMemory>
    requires table { IsTableToCompact held.now.segments table.now }
    requires plan { IsPlanIn (located_table held.now.segments table.now) plan.old }
    requires step { IsPlanStep (located_table held.now.segments table.now)
        plan.old.products.numbers step }
    ensures plan { OnOk result (IsPlanIn (located_table held.now.segments table.now) plan.new) }
    ensures products { plan.new.products ≡ plan.old.products }
    ensures kept_over { let there = located_table held.now.segments table.now in
        OnOk result
        (compacted_by there plan.new
        ≡ with_compacted_payload (compacted_by there plan.old)
        (step_payload there plan.old.products.numbers step)) }
    ensures counted { let there = located_table held.now.segments table.now in
        IsCounted there plan.old → OnOk result (IsCounted there plan.new) }
{
    plan.add(step, step_size(held, table, step))?;
    Ok(())
}

/// Plans a product alone, unless the plan has it already.
fn plan_product(
    plan: &mut CompactionPlan,
    held: &HeldPayloads<'_>,
    table: &LocatedTable,
    product: usize,
) -> Result<(), NoMemory>
    requires table { IsTableToCompact held.now.segments table.now }
    requires plan { IsPlanIn (located_table held.now.segments table.now) plan.old }
    requires product { product < length table.now.products.keys }
    ensures plan { OnOk result (IsPlanIn (located_table held.now.segments table.now) plan.new) }
    ensures more { OnOk result
        (HasMoreNumbers plan.old.products.numbers plan.new.products.numbers) }
    ensures has { OnOk result (Contains plan.new.products.numbers product) }
    ensures kept_over { let there = located_table held.now.segments table.now in
        OnOk result
        (compacted_by there plan.new
        ≡ compact_product (compacted_by there plan.old) (product_at there.products product)) }
    ensures counted { let there = located_table held.now.segments table.now in
        IsCounted there plan.old → OnOk result (IsCounted there plan.new) }
{
    if is_planned(plan, product) {
        return Ok(());
    }
    let step = take_product(plan, table, product)?;
    add_step(plan, held, table, CompactionStep::OfProduct(step))?;
    Ok(())
}

/// Plans the products that a record depends on, in order.
fn plan_below(
    plan: &mut CompactionPlan,
    held: &HeldPayloads<'_>,
    table: &LocatedTable,
    number: usize,
) -> Result<(), NoMemory>
    requires table { IsTableToCompact held.now.segments table.now }
    requires plan { IsPlanIn (located_table held.now.segments table.now) plan.old }
    requires number { number < length table.now.rows.items }
    ensures plan { OnOk result (IsPlanIn (located_table held.now.segments table.now) plan.new) }
    ensures has { let there = located_table held.now.segments table.now in
        OnOk result
        (All (Contains (compacted_by there plan.new).products)
        (table_record_at there.records number).asked.below) }
    ensures kept_over { let there = located_table held.now.segments table.now in
        OnOk result
        (compacted_by there plan.new
        ≡ fold compact_product (compacted_by there plan.old)
        (table_record_at there.records number).asked.below) }
    ensures counted { let there = located_table held.now.segments table.now in
        IsCounted there plan.old → OnOk result (IsCounted there plan.new) }
{
    let deps = deps_of(held, table, number);
    for k in 0..deps.len() {
        plan_product(plan, held, table, deps.get(k) as usize)?;
    }
    Ok(())
}

/// Plans a record over products that were planned.
fn plan_own(
    plan: &mut CompactionPlan,
    held: &HeldPayloads<'_>,
    table: &LocatedTable,
    number: usize,
) -> Result<(), NoMemory>
    requires table { IsTableToCompact held.now.segments table.now }
    requires plan { IsPlanIn (located_table held.now.segments table.now) plan.old }
    requires number { number < length table.now.rows.items }
    requires below { let there = located_table held.now.segments table.now in
        All (Contains (compacted_by there plan.old).products)
        (table_record_at there.records number).asked.below }
    ensures plan { OnOk result (IsPlanIn (located_table held.now.segments table.now) plan.new) }
    ensures kept_over { let there = located_table held.now.segments table.now in
        OnOk result
        (compacted_by there plan.new
        ≡ compact_own (compacted_by there plan.old) (table_record_at there.records number)) }
    ensures counted { let there = located_table held.now.segments table.now in
        IsCounted there plan.old → OnOk result (IsCounted there plan.new) }
{
    let step = take_request(plan, table, table.rows[number], number)?;
    add_step(plan, held, table, CompactionStep::OfRequest(step))?;
    Ok(())
}

/// Plans a record: the products that it depends on, in its order, and then itself.
fn plan_request(
    plan: &mut CompactionPlan,
    held: &HeldPayloads<'_>,
    table: &LocatedTable,
    number: usize,
) -> Result<(), NoMemory>
    requires table { IsTableToCompact held.now.segments table.now }
    requires plan { IsPlanIn (located_table held.now.segments table.now) plan.old }
    requires number { number < length table.now.rows.items }
    ensures plan { OnOk result (IsPlanIn (located_table held.now.segments table.now) plan.new) }
    ensures kept_over { let there = located_table held.now.segments table.now in
        OnOk result
        (compacted_by there plan.new
        ≡ compact_request (compacted_by there plan.old) (table_record_at there.records number)) }
    ensures counted { let there = located_table held.now.segments table.now in
        IsCounted there plan.old → OnOk result (IsCounted there plan.new) }
{
    plan_below(plan, held, table, number)?;
    plan_own(plan, held, table, number)?;
    Ok(())
}

/// Plans a record where it is the latest of its name.
fn plan_next(
    plan: &mut CompactionPlan,
    held: &HeldPayloads<'_>,
    table: &LocatedTable,
    number: usize,
) -> Result<(), NoMemory>
    requires table { IsTableToCompact held.now.segments table.now }
    requires plan { IsPlanIn (located_table held.now.segments table.now) plan.old }
    requires number { number < length table.now.rows.items }
    ensures plan { OnOk result (IsPlanIn (located_table held.now.segments table.now) plan.new) }
    ensures kept_over { let there = located_table held.now.segments table.now in
        OnOk result
        (compacted_from (compacted_by there plan.new)
        (latest_requests (drop (number + 1) there.records))
        ≡ compacted_from (compacted_by there plan.old) (latest_requests (drop number there.records))) }
    ensures counted { let there = located_table held.now.segments table.now in
        IsCounted there plan.old → OnOk result (IsCounted there plan.new) }
{
    if !is_latest(held, table, number) {
        return Ok(());
    }
    plan_request(plan, held, table, number)?;
    Ok(())
}

/// Plans the latest record of each name, in order.
fn plan_all(
    alloc: Global,
    held: &HeldPayloads<'_>,
    table: &LocatedTable,
) -> Result<CompactionPlan, NoMemory>
    requires table { IsTableToCompact held.now.segments table.now }
    ensures plan { IfOk result (IsPlanIn (located_table held.now.segments table.now)) }
    ensures kept_over { let there = located_table held.now.segments table.now in
        IfOk result
        (λ plan. compacted_by there plan
        ≡ compacted_from none_compacted (latest_requests there.records)) }
    ensures counted { IfOk result (IsCounted (located_table held.now.segments table.now)) }
{
    let mut plan = CompactionPlan::new(alloc, table.products.len(), table.texts.indices.len())?;
    for number in 0..table.rows.len() {
        plan_next(&mut plan, held, table, number)?;
    }
    Ok(plan)
}

/// Plans what keeps the latest record of each name, and nothing else.
pub fn plan_latest(
    alloc: Global,
    held: &HeldPayloads<'_>,
    table: &LocatedTable,
) -> Result<CompactionPlan, NoMemory>
    requires table { IsTableLocated held.now.segments table.now }
    requires is { located_table held.now.segments table.now ≡ record_table_of held.now.payloads }
    ensures { IfOk result (KeepsLatestRequests held.now.payloads) }
{
    let plan = plan_all(alloc, held, table)?;
    Ok(plan)
}
