//! Payloads, and the texts, products and records that they stand for.

ghost use Rattle.std.specs.Prelude.{◌≡◌, All, ◌↔◌, ◌<◌, ◌≤◌, ◌^◌, ◌++◌, ◌∷◌, [], List, Some, length, slice_get, slice_index_or, IsTrue, IfOk, IfSome, OnOk, option_map, true, false};
ghost use Rattle.base.specs.declared.graph.Entry.{Entry};
ghost use Rattle.base.specs.declared.limits.TheConstants.{ARTEFACT_LIMIT};
ghost use Rattle.outside.specs.Records.{Record as RequestRecord, latest_alone as latest_requests};
ghost use Rattle.store_codec.specs.Compaction.{compacted_requests};
ghost use Rattle.store.specs.Plans.{KeepsLatestRequests};
ghost use Rattle.store_table.specs.Checked.{IsNameNumber};
ghost use Rattle.store_table.specs.Located.{IsHeld};
ghost use Rattle.store_codec.specs.Ranges.{request_in_ranges};
ghost use Rattle.store_codec.specs.RecordTables.{drafted_record, record_table_of};
ghost use Rattle.outside.specs.Records.{IsRecorded as IsCurrentLatest, HasLatest};
ghost use Rattle.store.specs.LookedUp.{AreRecordHandles, HasTextSaid, IsLatestProduct, IsRecordHandle};
ghost use Rattle.base.specs.Graphs.{IsGraph};
ghost use Rattle.outside.specs.Records.{deps_at};
ghost use Rattle.store.specs.Additions.{AddsAsked, AddsRequest, AreDeps, IsCutFor, IsRequestOver, added_name, no_entry, record_over};
ghost use Rattle.store.specs.Held.{AreBorrowedBy, IsLatestRow, latest_held};

use crate::additions::put_held;
use crate::asking::{AskedPayload, asked_payload, looked_up_products, text_refs};
use crate::fitting::is_asked;
use crate::{
    CompactionPlan, NextRequest, RecordHandle, RecordHandles, RequestAddition, compacted_payloads,
    plan_latest,
};
use base::{Entry, FileName, Graph, Items, NoMemory, Text};
use std::alloc::Global;
use std::marker::Model;
use store_journal::{Payloads, Ready};
use store_table::{
    CutRequest, HeldPayloads, LocatedTable, borrowed_cut, is_borrowed_from, number_name, taken_up,
    text_at,
};

/// Payloads, in order, with what they stand for. Contracts see the payloads, the names that are numbered, the texts of files that
/// are borrowed, and for how many more payloads there is room.
#[derive(Drop)]
pub struct LoadedStore<'g> {
    held: HeldPayloads<'g>,
    table: LocatedTable,
}

impl<'g> Model for LoadedStore<'g> {
    ghost use Rattle.store_table.specs.Located.{IsHeld};
    ghost use Rattle.store.specs.Held.{HeldState, held_room};

    ghost Value = { HeldState };

    ghost view = { λ a. record {
      payloads = a.held.payloads;
      names = a.table.names.keys;
      borrowed = a.held.borrowed;
      room = held_room a.held a.table;
    } };

    ghost invariant = { λ a. IsHeld a.held.segments a.held.payloads a.table };
}

impl<'g> LoadedStore<'g> {
    /// What payloads stand for, where no text is borrowed.
    pub fn of(alloc: Global, opened: Payloads) -> Result<LoadedStore<'g>, NoMemory>
        ensures payloads { IfOk result (λ held. held.payloads ≡ opened) }
        ensures borrowed { IfOk result (λ held. held.borrowed ≡ []) }
    {
        let held = HeldPayloads::of(alloc, opened);
        let table = taken_up(alloc, &held)?;
        Ok(LoadedStore { held, table })
    }

    /// Payloads that make up segments, with a table that is what they stand for.
    pub(crate) fn of_parts(held: HeldPayloads<'g>, table: LocatedTable) -> LoadedStore<'g>
        requires { IsHeld held.segments held.payloads table }
        ensures payloads { result.payloads ≡ held.entry.payloads }
        ensures borrowed { result.borrowed ≡ held.entry.borrowed }
    {
        LoadedStore { held, table }
    }

    /// The number of the latest record of a name.
    fn latest_row(&self, name: &FileName) -> Option<usize>
        ensures { IsLatestRow (record_table_of self.now.payloads).records name.now result }
    {
        let Some(number) = self.table.names.number(name) else {
            return None;
        };
        self.table.latest.last(number as u64)
    }

    /// What the compiler gave by the latest record of a name, borrowed; `None` exactly where the name has no record. It
    /// takes no memory.
    pub fn artefact(&self, name: &FileName) -> Option<&[u8]>
        ensures bytes { option_map (λ bytes. bytes.now) result
            ≡ option_map (λ kept. kept.artefact) (latest_held self.now.payloads name.now) }
    {
        let Some(number) = self.latest_row(name) else {
            return None;
        };
        Some(self.row_artefact(number))
    }

    /// The artefact of a record.
    fn row_artefact(&self, number: usize) -> &[u8]
        requires { number < length (record_table_of self.now.payloads).records }
        ensures { (kept : RequestRecord) →
            slice_get (record_table_of self.now.payloads).records number ≡ Some kept →
            result.now ≡ kept.artefact }
    {
        let row = self.table.rows[number];
        let product = self.table.products.key(row.product);
        text_at(&self.held, &self.table.texts, product.text)
    }

    /// The handle of the latest record of a name, if it has one.
    fn handle_of(&self, name: &FileName) -> Option<RecordHandle>
        ensures is { IsRecordHandle (record_table_of self.now.payloads) name.now result }
        ensures silent { IfSome result (λ handle. handle.has_text ≡ false) }
    {
        let Some(row) = self.latest_row(name) else {
            return None;
        };
        Some(RecordHandle {
            row,
            product: self.table.rows[row].product,
            has_text: false,
        })
    }

    /// Whether the text of a record is in the place of the text that is borrowed from the file of a number.
    fn is_borrowed(&self, row: usize, file: usize) -> bool
        requires { row < length (record_table_of self.now.payloads).records }
        ensures there { IsTrue result → file < length self.now.borrowed }
        ensures text { IsTrue result → (kept : RequestRecord) →
            slice_get (record_table_of self.now.payloads).records row ≡ Some kept →
            kept.asked.text ≡ slice_index_or self.now.borrowed file [] }
    {
        let text = self.table.rows[row].text;
        is_borrowed_from(&self.held, &self.table.texts, text, file)
    }

    /// The handle of the latest record of a file, if it has one, with what its index says of the text where that of the file is borrowed.
    fn handle_in(&self, entry: &Entry, at: usize, borrows: bool) -> Option<RecordHandle>
        requires { borrows ≡ true → at < length self.now.borrowed →
            slice_index_or self.now.borrowed at [] ≡ entry.now.text }
        ensures is { IsRecordHandle (record_table_of self.now.payloads) entry.now.name result }
        ensures text { HasTextSaid (record_table_of self.now.payloads) entry.now result }
    {
        let Some(handle) = self.handle_of(&entry.name) else {
            return None;
        };
        if !borrows {
            return Some(handle);
        }
        Some(RecordHandle {
            row: handle.row,
            product: handle.product,
            has_text: self.is_borrowed(handle.row, at),
        })
    }

    /// For each file of a graph the handle of its latest record, if it has one, whether or not texts are borrowed from these files.
    fn handles_in(
        &self,
        alloc: Global,
        graph: &Graph,
        borrows: bool,
    ) -> Result<RecordHandles, NoMemory>
        requires { borrows ≡ true → AreBorrowedBy graph.now self.now.borrowed }
        ensures { IfOk result (AreRecordHandles (record_table_of self.now.payloads) graph.now) }
    {
        let mut handles = RecordHandles::new(alloc);
        for at in 0..graph.len() {
            handles.push(self.handle_in(graph.get(at), at as usize, borrows))?;
        }
        Ok(handles)
    }

    /// For each file of a graph the handle of its latest record, if it has one.
    pub fn handles(&self, alloc: Global, graph: &Graph) -> Result<RecordHandles, NoMemory>
        ensures { IfOk result (AreRecordHandles (record_table_of self.now.payloads) graph.now) }
    {
        self.handles_in(alloc, graph, false)
    }

    /// For each file of a graph whose texts are borrowed the handle of its latest record, if it has one. A borrowed text isn't compared
    /// with itself.
    pub fn borrowed_handles(&self, alloc: Global, graph: &Graph) -> Result<RecordHandles, NoMemory>
        requires { AreBorrowedBy graph.now self.now.borrowed }
        ensures { IfOk result (AreRecordHandles (record_table_of self.now.payloads) graph.now) }
    {
        self.handles_in(alloc, graph, true)
    }

    /// Whether all files that a file depends on have a record, and its own latest record has what would be asked for it now. It
    /// takes no memory, and a time that goes by the text and the dependencies of the file alone.
    pub fn is_current(&self, handles: &RecordHandles, graph: &Graph, at: u32) -> bool
        requires at { at < length graph.now }
        requires handles { AreRecordHandles (record_table_of self.now.payloads) graph.now handles.now }
        ensures { IsTrue result ↔ IsCurrentLatest (latest_held self.now.payloads) graph.now at }
    {
        let entry = graph.get(at as u64);
        let Some(handle) = handles.get(at as usize) else {
            return false;
        };
        let row = self.table.rows[handle.row];
        is_asked(
            &self.held,
            &self.table,
            row,
            entry,
            handle.has_text,
            handles,
        )
    }

    /// What the compiler gave for a file by its latest record, borrowed; `None` exactly where it has no record. It takes no
    /// memory.
    pub fn artefact_at(&self, handles: &RecordHandles, graph: &Graph, at: u32) -> Option<&[u8]>
        requires at { at < length graph.now }
        requires handles { AreRecordHandles (record_table_of self.now.payloads) graph.now handles.now }
        ensures { (other : Entry) →
            option_map (λ bytes. bytes.now) result
            ≡ option_map (λ kept. kept.artefact)
            (latest_held self.now.payloads (slice_index_or graph.now at other).name) }
    {
        let Some(handle) = handles.get(at as usize) else {
            return None;
        };
        Some(self.row_artefact(handle.row))
    }

    /// What keeps the latest record of each name, and nothing else, by numbers.
    pub fn latest_plan(&self, alloc: Global) -> Result<CompactionPlan, NoMemory>
        ensures { IfOk result (KeepsLatestRequests self.now.payloads) }
    {
        let plan = plan_latest(alloc, &self.held, &self.table)?;
        Ok(plan)
    }

    /// The payloads that keep the latest record of each name, and nothing else.
    pub fn latest_payloads(
        &self,
        alloc: Global,
        plan: &CompactionPlan,
    ) -> Result<Payloads, NoMemory>
        requires { KeepsLatestRequests self.now.payloads plan.now }
        ensures is { IfOk result
            (λ payloads.
            payloads ≡ compacted_requests (record_table_of self.now.payloads).records) }
        ensures records { IfOk result
            (λ payloads.
            (record_table_of payloads).records
            ≡ latest_requests (record_table_of self.now.payloads).records) }
    {
        let payloads = compacted_payloads(alloc, &self.held, &self.table, plan)?;
        Ok(payloads)
    }

    /// Makes room for one more payload. What is held is unchanged.
    fn reserve(&mut self) -> Result<(), NoMemory>
        ensures payloads { self.new.payloads ≡ self.old.payloads }
        ensures names { self.new.names ≡ self.old.names }
        ensures room { OnOk result (0 < self.new.room) }
    {
        self.held.reserve()?;
        self.table.reserve()
    }

    /// The number of a name. A name without a number is added. The payloads are unchanged.
    fn number_of_name(&mut self, name: FileName) -> Result<usize, NoMemory>
        ensures payloads { self.new.payloads ≡ self.old.payloads }
        ensures named { IfOk result (IsNameNumber self.new.names name) }
    {
        number_name(&mut self.table, name)
    }

    /// The payload of a file over products, with what the compiler gave for it, by the number of its name.
    fn next_over(
        &self,
        alloc: Global,
        entry: &Entry,
        at: u32,
        name: usize,
        deps: &[usize],
        artefact: &[u8],
    ) -> Result<NextRequest, NoMemory>
        requires name { IsNameNumber self.now.names entry.now.name name }
        requires over { IsRequestOver (record_table_of self.now.payloads) entry.now deps.now artefact.now }
        ensures adds { IfOk result
            (λ next. AddsRequest self.now.payloads self.now.names next.segment next.addition) }
        ensures cut { IfOk result
            (λ next. IsCutFor self.now.borrowed next.segment next.addition next.cut) }
        ensures is { let table = record_table_of self.now.payloads in
            IfOk result
            (λ next.
            drafted_record table (request_in_ranges next.segment next.addition.draft)
            ≡ record_over table entry.now deps.now artefact.now) }
        ensures at { IfOk result (λ next. next.addition.at ≡ at) }
    {
        let refs = text_refs(&self.held, &self.table.texts, entry.text.bytes(), artefact);
        let AskedPayload { segment, draft } = asked_payload(alloc, entry, refs, deps, artefact)?;
        let number = refs.numbers.text;
        let cut = borrowed_cut(
            alloc,
            &self.held,
            segment.payload(),
            draft,
            at as usize,
            number,
        )?;
        Ok(NextRequest {
            segment,
            addition: RequestAddition {
                at,
                draft,
                name,
                numbers: refs.numbers,
            },
            cut,
        })
    }

    /// The payload of what would be asked for a file now, with what the compiler gave for it, by the number of its name and
    /// the products of the files that it depends on.
    fn next_request(
        &self,
        alloc: Global,
        graph: &Graph,
        at: u32,
        name: usize,
        deps: &Items<usize>,
        artefact: &Text,
    ) -> Result<NextRequest, NoMemory>
        requires at { at < length graph.now }
        requires name { IsNameNumber self.now.names (slice_index_or graph.now at no_entry).name name }
        requires artefact { length artefact.now ≤ ARTEFACT_LIMIT }
        requires deps { AreDeps (record_table_of self.now.payloads) graph.now at deps.now }
        ensures adds { IfOk result
            (λ next. AddsRequest self.now.payloads self.now.names next.segment next.addition) }
        ensures cut { IfOk result
            (λ next. IsCutFor self.now.borrowed next.segment next.addition next.cut) }
        ensures is { IfOk result
            (λ next.
            AddsAsked (record_table_of self.now.payloads) graph.now at artefact.now next.segment
            next.addition) }
        ensures at { IfOk result (λ next. next.addition.at ≡ at) }
    {
        let entry = graph.get(at as u64);
        let next = self.next_over(alloc, entry, at, name, deps.as_slice(), artefact.bytes())?;
        Ok(next)
    }

    /// The payload of what would be asked for a file now, with what the compiler gave for it, and with room for it. What the
    /// payloads stand for is unchanged.
    pub fn prepare(
        &mut self,
        alloc: Global,
        handles: &RecordHandles,
        graph: &Graph,
        at: u32,
        artefact: &Text,
    ) -> Result<NextRequest, NoMemory>
        requires at { at < length graph.now }
        requires artefact { length artefact.now ≤ ARTEFACT_LIMIT }
        requires handles { AreRecordHandles (record_table_of self.old.payloads) graph.now handles.now }
        requires built { All (HasLatest (latest_held self.old.payloads) graph.now)
            (deps_at graph.now at) }
        ensures payloads { self.new.payloads ≡ self.old.payloads }
        ensures room { OnOk result (0 < self.new.room) }
        ensures adds { IfOk result
            (λ next. AddsRequest self.new.payloads self.new.names next.segment next.addition) }
        ensures cut { IfOk result
            (λ next. IsCutFor self.new.borrowed next.segment next.addition next.cut) }
        ensures is { IfOk result
            (λ next.
            AddsAsked (record_table_of self.old.payloads) graph.now at artefact.now next.segment
            next.addition) }
        ensures at { IfOk result (λ next. next.addition.at ≡ at) }
    {
        let entry = graph.get(at as u64);
        let deps = looked_up_products(alloc, handles, entry.deps.as_slice())?;
        let copied = entry.name.copy(alloc)?;
        let name = self.number_of_name(copied)?;
        self.reserve()?;
        self.next_request(alloc, graph, at, name, &deps, artefact)
    }

    /// Adds a payload that was prepared, at the end, and seats its record in the place of the one before. It takes no memory.
    pub fn put(
        &mut self,
        addition: RequestAddition,
        segment: Ready,
        cut: Option<CutRequest>,
        handles: &mut RecordHandles,
    )
        requires ready { AddsRequest self.old.payloads self.old.names segment addition }
        requires cut { IsCutFor self.old.borrowed segment addition cut }
        requires room { 0 < self.old.room }
        requires handle { addition.at < length handles.old }
        ensures payloads { self.new.payloads ≡ self.old.payloads ++ segment ∷ [] }
        ensures handles { (graph : List Entry) → IsGraph graph →
            AreRecordHandles (record_table_of self.old.payloads) graph handles.old →
            (slice_index_or graph addition.at no_entry).name ≡ added_name segment addition →
            AreRecordHandles (record_table_of self.new.payloads) graph handles.new }
    {
        let row = self.table.rows.len();
        put_held(&mut self.held, &mut self.table, addition, segment, cut);
        let product = self.table.rows[row].product;
        let handle = RecordHandle {
            row,
            product,
            has_text: false,
        };
        handles.set(addition.at as usize, handle);
    }

    /// The number of the product that the latest record of a name built, if it has one.
    pub fn latest_product(&self, name: &FileName) -> Option<usize>
        ensures { IsLatestProduct (record_table_of self.now.payloads) name.now result }
    {
        let Some(handle) = self.handle_of(name) else {
            return None;
        };
        Some(handle.product)
    }

    /// Adds a record at the end: a file over products, with what the compiler gave for it.
    pub fn add(
        &mut self,
        alloc: Global,
        entry: &Entry,
        deps: &[usize],
        artefact: &[u8],
    ) -> Result<(), NoMemory>
        requires { IsRequestOver (record_table_of self.old.payloads) entry.now deps.now
            artefact.now }
        ensures { let before = record_table_of self.old.payloads in
            OnOk result
            ((record_table_of self.new.payloads).records
            ≡ before.records ++ record_over before entry.now deps.now artefact.now ∷ []) }
    {
        let copied = entry.name.copy(alloc)?;
        let name = self.number_of_name(copied)?;
        self.reserve()?;
        let NextRequest {
            segment,
            addition,
            cut,
        } = self.next_over(alloc, entry, 0, name, deps, artefact)?;
        put_held(&mut self.held, &mut self.table, addition, segment, cut);
        Ok(())
    }
}
