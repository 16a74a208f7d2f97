//! The store of requests over a journal.

ghost use Rattle.std.specs.Prelude.{◌≡◌, ℕ, ◌↔◌, ◌+◌, ◌<◌, ◌≤◌, ◌++◌, ◌∷◌, [], List, None, Some, option_map, length, slice_get, false, All, IfOk, IfSome, IsTrue, OnOk, is_err};
ghost use Rattle.base.specs.Graphs.{IsGraph};
ghost use Rattle.base.specs.declared.file.FileName.{FileName};
ghost use Rattle.base.specs.declared.graph.Entry.{Entry};
ghost use Rattle.base.specs.declared.limits.TheConstants.{ARTEFACT_LIMIT};
ghost use Rattle.outside.specs.Counts.{DiskCounts, StoreCounts};
ghost use Rattle.outside.specs.Disks.{AtAnyMoment, DiskState, IsEither, NeverLoses, OpensWith, reads_of, Rests};
ghost use Rattle.outside.specs.Records.{deps_at};
ghost use Rattle.store_codec.specs.RecordTables.{record_table_of};
ghost use Rattle.store.specs.Additions.{AddsAsked};
ghost use Rattle.store.specs.Held.{AreBorrowedBy, latest_held};
ghost use Rattle.outside.specs.Records.{IsRecorded as IsCurrentLatest, HasLatest};
ghost use Rattle.store.specs.Stored.{AreAllOrLatest, HasCompactedOver, HasRequestsOf, ImageAsksCompaction, IsPreparedAt, IsOver, IsRequestReady, IsRequestStoreInStep, IsResting, after_committing, kept_payloads, prepared_record, requests_in};

use crate::compacting::compact_where_asked;
use crate::reading::{EARLIER_FORM, FORM, Parts, read};
use crate::{LoadedStore, NextRequest, RecordHandles, RequestAddition, RequestVisitor};
use base::{DiskFailed, Entry, FileName, Graph, NoMemory, Text};
use outside::{Disk, StoreFault};
use std::alloc::Global;
use std::marker::Model;
use store_journal::{Journal, Ready};
use store_table::CutRequest;

/// The store of requests on a disk. A record has the compiler's words, the file with its text, the built files that it depends on,
/// and the artefact that the compiler gave. The last record of a name counts. A store is opened over a graph, whose files it
/// looks up once. After `DiskFailed` it is broken until it is opened again. Contracts see what its journal knows of the disk,
/// the loaded store, and the handles of the latest records of the graph's files.
#[derive(Drop)]
pub struct RequestStore<'g> {
    journal: Journal,
    held: LoadedStore<'g>,
    handles: RecordHandles,
}

impl<'g> Model for RequestStore<'g> {
    ghost use Rattle.std.specs.Prelude.{◌≡◌};
    ghost use Rattle.store.specs.Stored.{RequestStoreState};

    ghost Value = { RequestStoreState };

    ghost view = { λ a. record { journal = a.journal; held = a.held; handles = a.handles } };

    ghost invariant = { λ a. a.journal.form ≡ 3 };
}

/// A record that is ready to be committed. Contracts see its payload, what that adds, and the payload without its text, where a
/// file lends that.
#[derive(Drop)]
pub struct PreparedRequest {
    ready: Ready,
    addition: RequestAddition,
    cut: Option<CutRequest>,
}

impl Model for PreparedRequest {
    ghost use Rattle.store.specs.Stored.{PreparedState};

    ghost Value = { PreparedState };

    ghost view = { λ a. record { payload = a.ready; addition = a.addition; cut = a.cut } };
}

/// A store of a journal and what its payloads stand for, with the files of a graph looked up. Texts that it borrows are those of
/// the graph.
fn looked_up<'g>(
    alloc: Global,
    journal: Journal,
    held: LoadedStore<'g>,
    graph: &Graph,
) -> Result<RequestStore<'g>, StoreFault>
    requires form { journal.form ≡ 3 }
    requires borrowed { AreBorrowedBy graph.now held.borrowed }
    ensures journal { IfOk result (λ store. store.journal ≡ journal) }
    ensures held { IfOk result (λ store. store.held ≡ held.entry) }
    ensures over { IfOk result (λ store. IsOver store graph.now) }
    ensures cause { (count : ℕ) → StoreCounts result count count }
{
    match held.borrowed_handles(alloc, graph) {
        Ok(handles) => Ok(RequestStore {
            journal,
            held,
            handles,
        }),
        Err(NoMemory) => Err(StoreFault::NoMemory),
    }
}

impl<'g> RequestStore<'g> {
    /// Opens the records of a disk, whatever the disk holds. It first syncs both sides. From a disk with a store of the earlier form
    /// alone, it takes over the records that can be read as requests. It compacts the records if the dead bytes are more than the
    /// live ones and more than 1,048,576, and there is a next generation. A file of the graph with the name, the words and the text of
    /// a record lends that text, so the store holds no copy until it is compacted. Last it looks up the files of the graph; a
    /// borrowed text isn't compared with itself.
    pub fn open<D: Disk>(
        alloc: Global,
        disk: &mut D,
        graph: &'g Graph,
    ) -> Result<RequestStore<'g>, StoreFault>
        // At any moment, after a fault too, a stop can leave the records of an image at entry, or the latest of these.
        ensures any_moment { D.tells →
            AtAnyMoment (D.moments disk.old) (D.moments disk.new)
            (HasRequestsOf (D.moments disk.old).now) }
        // Once both sides are synced, it leaves those of what reads gave at entry, or the latest of these.
        ensures opens { D.tells →
            let before = requests_in (reads_of (D.moments disk.old).now) in
            OpensWith (D.moments disk.old) (D.moments disk.new)
            (λ image. AreAllOrLatest before (requests_in image)) }
        // If a side counts, its last commit byte is closed, and it needs no compaction, nothing is written.
        ensures rests { D.tells →
            IsResting (reads_of (D.moments disk.old).now) →
            Rests result (D.moments disk.old) (D.moments disk.new) }
        // A successful opening leaves the disk in this state, so a second one writes nothing.
        ensures settled { D.tells → OnOk result (IsResting (reads_of (D.moments disk.new).now)) }
        ensures records { D.tells →
            let before = requests_in (reads_of (D.moments disk.old).now) in
            OnOk result
            (AreAllOrLatest before (requests_in (reads_of (D.moments disk.new).now))) }
        // If the image at entry needs compaction, only the latest records are left, without dead bytes.
        ensures compacts { D.tells →
            ImageAsksCompaction (reads_of (D.moments disk.old).now) →
            OnOk result
            (HasCompactedOver (requests_in (reads_of (D.moments disk.old).now))
            (reads_of (D.moments disk.new).now)) }
        // Otherwise all payloads are left.
        ensures keeps { D.tells →
            ¬ ImageAsksCompaction (reads_of (D.moments disk.old).now) →
            OnOk result
            (kept_payloads (reads_of (D.moments disk.new).now)
            ≡ kept_payloads (reads_of (D.moments disk.old).now)) }
        ensures in_step { D.tells →
            IfOk result (λ store. IsRequestStoreInStep store (D.moments disk.new).now) }
        // A text that is borrowed is that of the file of its number.
        ensures borrowed { IfOk result (λ store. AreBorrowedBy graph.now store.held.borrowed) }
        ensures usable { IfOk result (λ store. store.journal.broken ≡ false) }
        ensures over { IfOk result (λ store. IsOver store graph.now) }
        ensures cause { StoreCounts result (D.failed_disk_calls disk.old)
            (D.failed_disk_calls disk.new) }
    {
        let Parts {
            mut journal,
            mut held,
        } = read(alloc, disk, graph.as_slice())?;
        match compact_where_asked(&mut journal, &mut held, alloc, disk) {
            Ok(()) => looked_up(alloc, journal, held, graph),
            Err(fault) => Err(fault),
        }
    }

    /// Opens a disk without records, whatever it holds, also of the earlier form, for the files of a graph. It first syncs both
    /// sides, and takes up nothing of what they hold.
    pub fn open_empty<D: Disk>(
        alloc: Global,
        disk: &mut D,
        graph: &'g Graph,
    ) -> Result<RequestStore<'g>, StoreFault>
        // Once both sides are synced, a stop can leave the records of what reads gave at entry, or none.
        ensures opens { D.tells →
            let before = requests_in (reads_of (D.moments disk.old).now) in
            OpensWith (D.moments disk.old) (D.moments disk.new)
            (λ image. IsEither (requests_in image) before []) }
        // Once no image has a record, none has one.
        ensures loses { D.tells →
            NeverLoses (D.moments disk.old) (D.moments disk.new) (λ image. requests_in image ≡ []) }
        ensures none { D.tells →
            OnOk result (requests_in (reads_of (D.moments disk.new).now) ≡ []) }
        ensures latest { IfOk result
            (λ store. (name : FileName) → latest_held store.held.payloads name ≡ None) }
        ensures in_step { D.tells →
            IfOk result (λ store. IsRequestStoreInStep store (D.moments disk.new).now) }
        ensures usable { IfOk result (λ store. store.journal.broken ≡ false) }
        ensures over { IfOk result (λ store. IsOver store graph.now) }
        ensures cause { StoreCounts result (D.failed_disk_calls disk.old)
            (D.failed_disk_calls disk.new) }
    {
        let journal = Journal::open_empty(alloc, disk, FORM, EARLIER_FORM)?;
        let held = RequestVisitor::over(alloc, graph.as_slice()).into_loaded()?;
        looked_up(alloc, journal, held, graph)
    }

    /// Whether all files that a file depends on have a record, and its own latest record has what would be asked for it now. It
    /// takes no memory, and a time that goes by the text and the dependencies of the file alone.
    pub fn is_current(&self, graph: &Graph, at: u32) -> bool
        requires at { at < length graph.now }
        requires over { IsOver self.now graph.now }
        ensures { IsTrue result ↔ IsCurrentLatest (latest_held self.now.held.payloads) graph.now at }
    {
        self.held.is_current(&self.handles, graph, at)
    }

    /// What the compiler gave for a file by its latest record, borrowed; `None` exactly where it has no record. It takes no
    /// memory.
    pub fn artefact_at(&self, graph: &Graph, at: u32) -> Option<&[u8]>
        requires at { at < length graph.now }
        requires over { IsOver self.now graph.now }
        ensures bytes { (entry : Entry) → slice_get graph.now at ≡ Some entry →
            option_map (λ bytes. bytes.now) result
            ≡ option_map (λ kept. kept.artefact) (latest_held self.now.held.payloads entry.name) }
        ensures size { IfSome result (λ bytes. length bytes.now ≤ ARTEFACT_LIMIT) }
    {
        self.held.artefact_at(&self.handles, graph, at)
    }

    /// What the compiler gave by the latest record of a name, borrowed; `None` exactly where the name has no record. It
    /// takes no memory.
    pub fn artefact(&self, name: &FileName) -> Option<&[u8]>
        ensures bytes { option_map (λ bytes. bytes.now) result
            ≡ option_map (λ kept. kept.artefact) (latest_held self.now.held.payloads name.now) }
        ensures size { IfSome result (λ bytes. length bytes.now ≤ ARTEFACT_LIMIT) }
    {
        self.held.artefact(name)
    }

    /// Makes a record of what would be asked for a file now ready, with room for it. The records of the store are unchanged,
    /// after `NoMemory` too.
    pub fn prepare(
        &mut self,
        alloc: Global,
        graph: &Graph,
        at: u32,
        artefact: &Text,
    ) -> Result<PreparedRequest, NoMemory>
        requires at { at < length graph.now }
        requires artefact { length artefact.now ≤ ARTEFACT_LIMIT }
        requires over { IsOver self.old graph.now }
        requires built { All (HasLatest (latest_held self.old.held.payloads) graph.now)
            (deps_at graph.now at) }
        ensures payloads { self.new.held.payloads ≡ self.old.held.payloads }
        ensures journal { self.new.journal ≡ self.old.journal }
        ensures handles { self.new.handles ≡ self.old.handles }
        ensures in_step { (disk : DiskState) →
            IsRequestStoreInStep self.old disk → IsRequestStoreInStep self.new disk }
        ensures ready { IfOk result (IsRequestReady self.new.held) }
        ensures asked { IfOk result
            (λ prepared.
            AddsAsked (record_table_of self.old.held.payloads) graph.now at artefact.now
            prepared.payload prepared.addition) }
        ensures at { IfOk result (IsPreparedAt graph.now at) }
    {
        let NextRequest {
            segment,
            addition,
            cut,
        } = self
            .held
            .prepare(alloc, &self.handles, graph, at, artefact)?;
        Ok(PreparedRequest {
            ready: segment,
            addition,
            cut,
        })
    }

    /// Adds a prepared record, which is then the latest of its file. It takes no memory.
    pub fn commit<D: Disk>(
        &mut self,
        disk: &mut D,
        prepared: PreparedRequest,
    ) -> Result<(), DiskFailed>
        requires usable { self.old.journal.broken ≡ false }
        requires ready { IsRequestReady self.old.held prepared }
        requires handle { prepared.addition.at < length self.old.handles }
        requires in_step { D.tells → IsRequestStoreInStep self.old (D.moments disk.old).now }
        ensures latest { (name : FileName) →
            latest_held self.new.held.payloads name
            ≡ after_committing result (prepared_record self.old.held.payloads prepared)
            (latest_held self.old.held.payloads) name }
        ensures over { (graph : List Entry) → IsGraph graph → IsOver self.old graph →
            IsPreparedAt graph prepared.addition.at prepared → IsOver self.new graph }
        ensures in_step { D.tells →
            OnOk result (IsRequestStoreInStep self.new (D.moments disk.new).now) }
        ensures added { D.tells →
            let before = requests_in (reads_of (D.moments disk.old).now) in
            let now = requests_in (reads_of (D.moments disk.new).now) in
            OnOk result (now ≡ before ++ prepared_record self.old.held.payloads prepared ∷ []) }
        // At any moment, after a fault too, a stop can leave the records from before, with the new one or without.
        ensures any_moment { D.tells →
            let before = requests_in (reads_of (D.moments disk.old).now) in
            AtAnyMoment (D.moments disk.old) (D.moments disk.new)
            (λ image. IsEither (requests_in image) before
            (before ++ prepared_record self.old.held.payloads prepared ∷ [])) }
        // Once each image has the new one, each image has it.
        ensures loses { D.tells →
            let before = requests_in (reads_of (D.moments disk.old).now) in
            NeverLoses (D.moments disk.old) (D.moments disk.new)
            (λ image.
            requests_in image ≡ before ++ prepared_record self.old.held.payloads prepared ∷ []) }
        ensures broken { self.new.journal.broken ≡ is_err result }
        ensures cause { DiskCounts result (D.failed_disk_calls disk.old)
            (D.failed_disk_calls disk.new) }
    {
        let PreparedRequest {
            ready,
            addition,
            cut,
        } = prepared;
        self.journal.commit(disk, &ready)?;
        self.held.put(addition, ready, cut, &mut self.handles);
        Ok(())
    }

    /// Whether a call of this store has answered `DiskFailed`.
    pub fn is_broken(&self) -> bool
        ensures { result ≡ self.now.journal.broken }
    {
        self.journal.is_broken()
    }
}
