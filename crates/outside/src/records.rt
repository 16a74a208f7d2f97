//! Records of compiled files on a disk, as those who build with them see the store.
ghost use Rattle.std.specs.Prelude.{◌≡◌, ◌↔◌, ◌<◌, ◌≤◌, ◌++◌, [], ◌∷◌, ℕ, List, Bool, false, None, Some, Option, option_map, length, All, IsTrue, IfOk, IfSome, OnOk, is_err, slice_get};
ghost use Rattle.base.specs.declared.file.FileName.{FileName};
ghost use Rattle.base.specs.declared.graph.Entry.{Entry};
ghost use Rattle.base.specs.Graphs.{IsGraph};
ghost use Rattle.outside.specs.Counts.{DiskCounts, StoreCounts};
ghost use Rattle.outside.specs.Disks.{DiskState, Image, reads_of, IsDurable, IsEither, AtAnyMoment, NeverLoses, OpensWith, Rests};
ghost use Rattle.outside.specs.Records.{Record, latest, deps_at, asked_now, HasLatest, IsRecorded, HasRecordsOf, IsAllOrLatest, after_commit};
ghost use Rattle.outside.specs.declared.records.StoreFault.TheVariants as fault;

use crate::Disk;
use base::{ARTEFACT_LIMIT, DiskFailed, FileName, Graph, NoMemory, Text};
use std::alloc::{AllocError, AllocFailed, Global};

/// Why records can't be read or committed.
#[derive(Clone, Copy, Debug, PartialEq, Eq)]
pub enum StoreFault {
    NoMemory,
    DiskFailed,
}

impl From<NoMemory> for StoreFault {
    ghost from_gives = { λ _ e. e ≡ fault.NoMemory };

    fn from(_: NoMemory) -> StoreFault {
        StoreFault::NoMemory
    }
}

impl From<AllocError> for StoreFault {
    ghost from_gives = { λ _ e. e ≡ fault.NoMemory };

    fn from(_: AllocError) -> StoreFault {
        StoreFault::NoMemory
    }
}

impl<T: Drop> From<AllocFailed<T>> for StoreFault {
    ghost from_gives = { λ _ e. e ≡ fault.NoMemory };

    fn from(_: AllocFailed<T>) -> StoreFault {
        StoreFault::NoMemory
    }
}

impl From<DiskFailed> for StoreFault {
    ghost from_gives = { λ _ e. e ≡ fault.DiskFailed };

    fn from(_: DiskFailed) -> StoreFault {
        StoreFault::DiskFailed
    }
}

/// Records of compiled files on a disk. A record has the inputs of a compilation and its artefact. The last record of a name counts.
/// A store knows where it has the files of one graph. After `DiskFailed` it is broken until it is opened again.
pub trait Records: Sized {
    /// A record that is ready to be committed.
    type Prepared;

    /// The records that an image of a disk holds, in order.
    ghost records_of: { Image → List Record };

    /// The images that opening doesn't change, because no write is due.
    ghost is_resting: { Image → Type 0 };

    /// The latest record of a name.
    ghost latest_of: { Self → FileName → Option Record };

    /// The disk is the one that the store was opened over, and only the store wrote it since.
    ghost in_step: { Self → DiskState → Type 0 };

    ghost broken: { Self → Bool };

    /// What a record that was prepared for a store will be.
    ghost record_of: { Self → Self.Prepared → Record };

    /// The store has room for the record, and prepared nothing and changed nothing since.
    ghost is_ready: { Self → Self.Prepared → Type 0 };

    /// The position of the file that a record was prepared for.
    ghost position_of: { Self.Prepared → ℕ };

    /// The store has looked up the files of a graph.
    ghost is_over: { Self → List Entry → Type 0 };

    /// Whether all files that a file depends on have a record, and its own latest record has what would be asked for it now,
    /// over these as their latest records built them. It takes no memory, and time in proportion to the file's text and list.
    fn is_current(&self, graph: &Graph, at: u32) -> bool
        requires position { at < length graph.now }
        requires over { is_over self.now graph.now }
        ensures { IsTrue result ↔ IsRecorded (latest_of self.now) graph.now at };

    /// What the compiler gave by the latest record of the file at a position, borrowed from the store, as `artefact` does.
    fn artefact_at(&self, graph: &Graph, at: u32) -> Option<&[u8]>
        requires position { at < length graph.now }
        requires over { is_over self.now graph.now }
        ensures bytes { (entry : Entry) → slice_get graph.now at ≡ Some entry →
            option_map (λ bytes. bytes.now) result
            ≡ option_map (λ kept. kept.artefact) (latest_of self.now entry.name) }
        ensures size { IfSome result (λ bytes. length bytes.now ≤ ARTEFACT_LIMIT) };

    /// What the compiler gave by the latest record of a name, borrowed from the store; `None` exactly where the name
    /// has no record. It takes no memory.
    fn artefact(&self, name: &FileName) -> Option<&[u8]>
        ensures bytes { option_map (λ bytes. bytes.now) result
            ≡ option_map (λ kept. kept.artefact) (latest_of self.now name.now) }
        ensures size { IfSome result (λ bytes. length bytes.now ≤ ARTEFACT_LIMIT) };

    /// Makes a record ready of what would be asked for a file now, with room for it. After `NoMemory` the store is unchanged.
    fn prepare(
        &mut self,
        alloc: Global,
        graph: &Graph,
        at: u32,
        artefact: &Text,
    ) -> Result<Self::Prepared, NoMemory>
        requires position { at < length graph.now }
        requires over { is_over self.old graph.now }
        requires artefact { length artefact.now ≤ ARTEFACT_LIMIT }
        requires built { All (HasLatest (latest_of self.old) graph.now) (deps_at graph.now at) }
        ensures record { IfOk result (λ prepared. (entry : Entry) →
            slice_get graph.now at ≡ Some entry → record_of self.new prepared
            ≡ record { asked = asked_now (latest_of self.old) graph.now entry; artefact = artefact.now }) }
        ensures at { IfOk result (λ prepared. position_of prepared ≡ at) }
        ensures ready { IfOk result (λ prepared. is_ready self.new prepared) }
        ensures latest { (name : FileName) → latest_of self.new name ≡ latest_of self.old name }
        ensures over { (graph : List Entry) → is_over self.old graph → is_over self.new graph }
        ensures broken { broken self.new ≡ broken self.old }
        ensures in_step { (disk : DiskState) → in_step self.old disk → in_step self.new disk };

    /// Adds a prepared record, which is then the latest of its file. It takes no memory.
    fn commit<D: Disk>(&mut self, disk: &mut D, prepared: Self::Prepared) -> Result<(), DiskFailed>
        requires usable { broken self.old ≡ false }
        requires ready { is_ready self.old prepared }
        requires over { (graph : List Entry) × is_over self.old graph
            × (position_of prepared < length graph) }
        requires in_step { D.tells → in_step self.old (D.moments disk.old).now }
        ensures latest { (name : FileName) →
            latest_of self.new name
            ≡ after_commit result (record_of self.old prepared) (latest_of self.old) name }
        ensures over { (graph : List Entry) (entry : Entry) → IsGraph graph →
            is_over self.old graph →
            slice_get graph (position_of prepared) ≡ Some entry →
            entry.name ≡ (record_of self.old prepared).asked.name →
            is_over self.new graph }
        ensures in_step { D.tells → OnOk result (in_step self.new (D.moments disk.new).now) }
        ensures added { D.tells →
            let before = records_of (reads_of (D.moments disk.old).now) in
            let now = records_of (reads_of (D.moments disk.new).now) in
            OnOk result (now ≡ before ++ record_of self.old prepared ∷ []) }
        // At any moment, after a fault too, a stop can leave the records from before, with the new one or without.
        ensures any_moment { D.tells →
            let before = records_of (reads_of (D.moments disk.old).now) in
            AtAnyMoment (D.moments disk.old) (D.moments disk.new)
            (λ image. IsEither (records_of image) before
            (before ++ record_of self.old prepared ∷ [])) }
        // Once each image has the new one, each image has it.
        ensures loses { D.tells →
            let before = records_of (reads_of (D.moments disk.old).now) in
            NeverLoses (D.moments disk.old) (D.moments disk.new)
            (λ image. records_of image ≡ before ++ record_of self.old prepared ∷ []) }
        ensures broken { broken self.new ≡ is_err result }
        ensures cause { DiskCounts result (D.failed_disk_calls disk.old)
            (D.failed_disk_calls disk.new) };

    /// Whether a call of this store has answered `DiskFailed`.
    fn is_broken(&self) -> bool
        ensures { result ≡ broken self.now };

    /// Where the store is in step with a disk, a stop can leave what reads give,
    ghost durable: { (store : Self) (disk : DiskState) → in_step store disk → IsDurable disk };

    /// and the latest record of each name is the disk's.
    ghost held: { (store : Self) (disk : DiskState) (name : FileName) → in_step store disk →
        latest_of store name ≡ latest name (records_of (reads_of disk)) };
}

/// How records are opened: over the graph that is built, from which a store may borrow texts. The calls stand apart from `Records`,
/// since the laws of a trait with a lifetime can't be used in a proof.
pub trait OpenRecords<'g>: Records {
    /// Opens the records of a disk, and looks up the files of a graph. Whatever a disk holds denotes some records, possibly
    /// none. It first syncs both sides.
    fn open<D: Disk>(alloc: Global, disk: &mut D, graph: &'g Graph) -> Result<Self, StoreFault>
        // At any moment, after a fault too, a stop can leave the records of an image at entry, or the latest of these.
        ensures any_moment { D.tells →
            AtAnyMoment (D.moments disk.old) (D.moments disk.new)
            (HasRecordsOf Self.records_of (D.moments disk.old).now) }
        // Once both sides are synced, it leaves those of what reads gave at entry, or the latest of these.
        ensures opens { D.tells →
            let before = Self.records_of (reads_of (D.moments disk.old).now) in
            OpensWith (D.moments disk.old) (D.moments disk.new)
            (λ image. IsAllOrLatest before (Self.records_of image)) }
        ensures records { D.tells →
            let before = Self.records_of (reads_of (D.moments disk.old).now) in
            OnOk result (IsAllOrLatest before (Self.records_of (reads_of (D.moments disk.new).now))) }
        // If reads give an image that opening doesn't change, nothing is written.
        ensures rests { D.tells →
            Self.is_resting (reads_of (D.moments disk.old).now) →
            Rests result (D.moments disk.old) (D.moments disk.new) }
        ensures in_step { D.tells →
            IfOk result (λ store. Self.in_step store (D.moments disk.new).now) }
        ensures usable { IfOk result (λ store. Self.broken store ≡ false) }
        ensures over { IfOk result (λ store. Self.is_over store graph.now) }
        ensures cause { StoreCounts result (D.failed_disk_calls disk.old)
            (D.failed_disk_calls disk.new) };

    /// Opens a disk without records, whatever it holds, for the files of a graph. It first syncs both sides, and takes up
    /// nothing of what they hold.
    fn open_empty<D: Disk>(
        alloc: Global,
        disk: &mut D,
        graph: &'g Graph,
    ) -> Result<Self, StoreFault>
        // Once both sides are synced, a stop can leave the records of what reads gave at entry, or none.
        ensures opens { D.tells →
            let before = Self.records_of (reads_of (D.moments disk.old).now) in
            OpensWith (D.moments disk.old) (D.moments disk.new)
            (λ image. IsEither (Self.records_of image) before []) }
        // Once no image has a record, none has one.
        ensures loses { D.tells →
            NeverLoses (D.moments disk.old) (D.moments disk.new)
            (λ image. Self.records_of image ≡ []) }
        ensures none { D.tells →
            OnOk result (Self.records_of (reads_of (D.moments disk.new).now) ≡ []) }
        ensures latest { IfOk result
            (λ store. (name : FileName) → Self.latest_of store name ≡ None) }
        ensures in_step { D.tells →
            IfOk result (λ store. Self.in_step store (D.moments disk.new).now) }
        ensures usable { IfOk result (λ store. Self.broken store ≡ false) }
        ensures over { IfOk result (λ store. Self.is_over store graph.now) }
        ensures cause { StoreCounts result (D.failed_disk_calls disk.old)
            (D.failed_disk_calls disk.new) };
}
