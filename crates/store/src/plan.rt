//! The plan of a compaction, by numbers.

ghost use Rattle.std.specs.Prelude.{◌≡◌, ◌<◌, ◌≤◌, ◌+◌, ◌-◌, ◌^◌, ◌++◌, ◌∷◌, [], min, length, All, Contains, IfOk, OnOk};
ghost use Rattle.store.specs.Plans.{HasTakenProduct, HasTakenRequest, TookText};

use base::NoMemory;
use base_collections::NumberSet;
use std::alloc::Global;
use store_table::{LocatedTable, RecordRow};

/// A product that is added alone: its old number, and the new number of its artefact, if that has one already.
#[derive(Clone, Copy)]
pub struct ProductStep {
    pub product: usize,
    pub text: Option<usize>,
}

/// A record that is added: its old number, and the new numbers of its text and its artefact, if they have one already.
#[derive(Clone, Copy)]
pub struct RequestStep {
    pub row: usize,
    pub source: Option<usize>,
    pub artefact: Option<usize>,
}

/// One payload: a product alone, or a record. Products and records have their old numbers.
#[derive(Clone, Copy)]
pub enum CompactionStep {
    OfProduct(ProductStep),
    OfRequest(RequestStep),
}

/// The products and texts that compaction keeps, in the order of their new numbers, and the payloads that add them. `len` is the
/// number of bytes that the payloads take on a side, at most 2^64 - 1.
#[derive(Drop)]
pub struct CompactionPlan {
    pub products: NumberSet,
    pub texts: NumberSet,
    pub steps: Vec<CompactionStep>,
    pub len: u64,
}

impl CompactionPlan {
    /// An empty plan, with room for product numbers below `products` and text numbers below `texts`.
    pub fn new(alloc: Global, products: usize, texts: usize) -> Result<CompactionPlan, NoMemory>
        ensures products { IfOk result (λ plan. products ≤ plan.products.size) }
        ensures texts { IfOk result (λ plan. texts ≤ plan.texts.size) }
        ensures no_product { IfOk result (λ plan. plan.products.numbers ≡ []) }
        ensures no_text { IfOk result (λ plan. plan.texts.numbers ≡ []) }
        ensures no_step { IfOk result (λ plan. plan.steps.items ≡ []) }
        ensures len { IfOk result (λ plan. plan.len ≡ 0) }
    {
        Ok(CompactionPlan {
            products: room_for(alloc, products)?,
            texts: room_for(alloc, texts)?,
            steps: Vec::new(alloc),
            len: 0,
        })
    }

    /// Adds a payload that takes `len` bytes.
    pub fn add(&mut self, step: CompactionStep, len: u64) -> Result<(), NoMemory>
        ensures steps { OnOk result (self.new.steps.items ≡ self.old.steps.items ++ step ∷ []) }
        ensures len { OnOk result (self.new.len ≡ min (2 ^ 64 - 1) (self.old.len + len)) }
        ensures products { self.new.products ≡ self.old.products }
        ensures texts { self.new.texts ≡ self.old.texts }
    {
        self.steps.push(step)?;
        self.len = self.len.saturating_add(len);
        Ok(())
    }
}

/// No number, with room for numbers below a size.
fn room_for(alloc: Global, size: usize) -> Result<NumberSet, NoMemory>
    ensures size { IfOk result (λ set. size ≤ set.size) }
    ensures none { IfOk result (λ set. set.numbers ≡ []) }
{
    let mut set = NumberSet::new(alloc);
    set.grow_to(size)?;
    Ok(set)
}

/// Adds a number that isn't in the set.
fn add_new(set: &mut NumberSet, number: usize) -> Result<(), NoMemory>
    requires size { number < set.old.size }
    requires new { ¬ Contains set.old.numbers number }
    ensures { OnOk result
        (set.new ≡ record { size = set.old.size; numbers = set.old.numbers ++ number ∷ [] }) }
{
    if !set.add(number)? {
        unreachable!();
    }
    Ok(())
}

/// The new number of a text that the set has already. Any other text is added, and `None` is returned.
fn take_text(texts: &mut NumberSet, text: usize) -> Result<Option<usize>, NoMemory>
    requires { text < texts.old.size }
    ensures is { IfOk result (λ known. TookText text known texts.old texts.new) }
    ensures size { OnOk result (texts.new.size ≡ texts.old.size) }
{
    if let Some(found_index) = texts.index_of(text) {
        return Ok(Some(found_index));
    }
    add_new(texts, text)?;
    Ok(None)
}

/// Adds a product that isn't in the plan yet, and its artefact if that is new.
pub fn take_product(
    plan: &mut CompactionPlan,
    table: &LocatedTable,
    product: usize,
) -> Result<ProductStep, NoMemory>
    requires product { product < length table.now.products.keys }
    requires size { product < plan.old.products.size }
    requires new { ¬ Contains plan.old.products.numbers product }
    requires texts { All (λ row. row.text < plan.old.texts.size) table.now.products.keys }
    ensures { IfOk result (HasTakenProduct table.now.products.keys product plan.old plan.new) }
{
    let text = take_text(&mut plan.texts, table.products.key(product).text)?;
    add_new(&mut plan.products, product)?;
    Ok(ProductStep { product, text })
}

/// Adds the text, the artefact and the product of a record, each if it is new.
pub fn take_request(
    plan: &mut CompactionPlan,
    table: &LocatedTable,
    row: RecordRow,
    number: usize,
) -> Result<RequestStep, NoMemory>
    requires product { row.product < length table.now.products.keys }
    requires size { row.product < plan.old.products.size }
    requires text { row.text < plan.old.texts.size }
    requires texts { All (λ row. row.text < plan.old.texts.size) table.now.products.keys }
    ensures { IfOk result
        (HasTakenRequest table.now.products.keys row number plan.old plan.new) }
{
    let source = take_text(&mut plan.texts, row.text)?;
    let artefact = take_text(&mut plan.texts, table.products.key(row.product).text)?;
    let _is_new = plan.products.add(row.product)?;
    Ok(RequestStep {
        row: number,
        source,
        artefact,
    })
}
