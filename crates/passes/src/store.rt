//! The store of passes over a journal.

ghost use Rattle.std.specs.Prelude.{◌≡◌, ◌<◌, ◌≤◌, ◌++◌, ◌∷◌, [], false, length, option_map, IfOk, IfSome, OnErr, OnOk, is_err};
ghost use Rattle.base.specs.Names.{FitsCommand, FitsName};
ghost use Rattle.base.specs.declared.limits.TheConstants.{ARTEFACT_LIMIT, FILE_LIMIT};
ghost use Rattle.testbench_runs.specs.Runs.{FitsRun};
ghost use Rattle.testbench_runs.specs.declared.ends.TheConstants.{SHOWN_LIMIT};
ghost use Rattle.outside.specs.Counts.{DiskCounts, StoreCounts};
ghost use Rattle.outside.specs.Disks.{AtAnyMoment, DiskState, IsEither, NeverLoses, OpensWith, reads_of, Rests};
ghost use Rattle.store_journal.specs.Payloads.{payloads};
ghost use Rattle.passes_spec.specs.Passes.{IsAllOrLast};
ghost use Rattle.passes_spec.specs.KnownRuns.{recalled};
ghost use Rattle.passes_table.specs.States.{AddsPass, added_pass};
ghost use Rattle.passes.specs.Stored.{HasCompacted, HasPassesOf, ImageAsksCompaction, IsPassStoreInStep, IsResting, passes_held, passes_in};

use crate::compacting::compact_where_asked;
use crate::reading::{FORM, Parts, read};
use base::{DiskFailed, FileName, NoMemory, TextList};
use outside::{Disk, StoreFault};
use passes_table::{LoadedPasses, NextPass};
use std::alloc::Global;
use std::marker::Model;
use store_journal::{Journal, Payloads};
use testbench_runs::TestRun;

/// The store of passes on a disk, with the list of the built files that tests run over now. After `DiskFailed` it is broken until
/// it is opened again. Contracts see what its journal knows of the disk, and what is held.
#[derive(Drop)]
pub struct PassStore {
    journal: Journal,
    held: LoadedPasses,
}

impl Model for PassStore {
    ghost use Rattle.passes.specs.Stored.{PassStoreState};

    ghost Value = { PassStoreState };

    ghost view = { λ a. record { journal = a.journal; held = a.held } };
}

impl PassStore {
    /// Opens the passes of a disk, whatever the disk holds. It first syncs both sides. It compacts the passes if the dead bytes are
    /// more than the live ones and more than 1,048,576, and there is a next generation. The list of built files has no file.
    pub fn open<D: Disk>(alloc: Global, disk: &mut D) -> Result<PassStore, StoreFault>
        // At any moment, after a fault too, a stop can leave the passes of an image at entry, or the last of the same tests alone.
        ensures any_moment { D.tells →
            AtAnyMoment (D.moments disk.old) (D.moments disk.new)
            (HasPassesOf (D.moments disk.old).now) }
        // Once both sides are synced, it leaves those of what reads gave at entry, or the last of these.
        ensures opens { D.tells →
            let before = passes_in (reads_of (D.moments disk.old).now) in
            OpensWith (D.moments disk.old) (D.moments disk.new)
            (λ image. IsAllOrLast before (passes_in image)) }
        // If a side counts, its last commit byte is closed, and it needs no compaction, nothing is written.
        ensures rests { D.tells →
            IsResting (reads_of (D.moments disk.old).now) →
            Rests result (D.moments disk.old) (D.moments disk.new) }
        // A successful opening leaves the disk in this state, so a second one writes nothing.
        ensures settled { D.tells → OnOk result (IsResting (reads_of (D.moments disk.new).now)) }
        ensures passes { D.tells →
            OnOk result
            (IsAllOrLast (passes_in (reads_of (D.moments disk.old).now))
            (passes_in (reads_of (D.moments disk.new).now))) }
        // If the image at entry needs compaction, only the last passes are left, without dead bytes.
        ensures compacts { D.tells →
            ImageAsksCompaction (reads_of (D.moments disk.old).now) →
            OnOk result
            (HasCompacted (passes_in (reads_of (D.moments disk.old).now))
            (reads_of (D.moments disk.new).now)) }
        // Otherwise all payloads are left.
        ensures keeps { D.tells →
            ¬ ImageAsksCompaction (reads_of (D.moments disk.old).now) →
            OnOk result
            (payloads 5 (reads_of (D.moments disk.new).now)
            ≡ payloads 5 (reads_of (D.moments disk.old).now)) }
        ensures in_step { D.tells →
            IfOk result (λ store. IsPassStoreInStep store (D.moments disk.new).now) }
        ensures built { IfOk result (λ store. store.held.built ≡ []) }
        ensures usable { IfOk result (λ store. store.journal.broken ≡ false) }
        ensures cause { StoreCounts result (D.failed_disk_calls disk.old)
            (D.failed_disk_calls disk.new) }
    {
        let Parts {
            mut journal,
            mut held,
        } = read(alloc, disk)?;
        match compact_where_asked(&mut journal, &mut held, alloc, disk) {
            Ok(()) => Ok(PassStore { journal, held }),
            Err(fault) => Err(fault),
        }
    }

    /// Opens a disk without passes, whatever it holds. It first syncs both sides, and takes up nothing of what they hold.
    pub fn emptied<D: Disk>(alloc: Global, disk: &mut D) -> Result<PassStore, StoreFault>
        // Once both sides are synced, a stop can leave the passes of what reads gave at entry, or none.
        ensures opens { D.tells →
            let before = passes_in (reads_of (D.moments disk.old).now) in
            OpensWith (D.moments disk.old) (D.moments disk.new)
            (λ image. IsEither (passes_in image) before []) }
        // Once no image has a pass, none has one.
        ensures loses { D.tells →
            NeverLoses (D.moments disk.old) (D.moments disk.new) (λ image. passes_in image ≡ []) }
        ensures none { D.tells →
            OnOk result (passes_in (reads_of (D.moments disk.new).now) ≡ []) }
        ensures payloads { IfOk result (λ store. store.held.payloads ≡ []) }
        ensures passes { IfOk result (λ store. passes_held store ≡ []) }
        ensures in_step { D.tells →
            IfOk result (λ store. IsPassStoreInStep store (D.moments disk.new).now) }
        ensures built { IfOk result (λ store. store.held.built ≡ []) }
        ensures usable { IfOk result (λ store. store.journal.broken ≡ false) }
        ensures cause { StoreCounts result (D.failed_disk_calls disk.old)
            (D.failed_disk_calls disk.new) }
    {
        let journal = Journal::open_empty(alloc, disk, FORM, FORM)?;
        let held = LoadedPasses::of(alloc, Payloads::new(alloc))?;
        Ok(PassStore { journal, held })
    }

    /// Starts a new list of built files, without a file. The passes are unchanged.
    pub fn libraries(&mut self)
        ensures built { self.new.held.built ≡ [] }
        ensures payloads { self.new.held.payloads ≡ self.old.held.payloads }
        ensures journal { self.new.journal ≡ self.old.journal }
        ensures in_step { (disk : DiskState) →
            IsPassStoreInStep self.old disk → IsPassStoreInStep self.new disk }
    {
        self.held.start_list();
    }

    /// Adds a built file at the end of the list. Its artefact is compared here, and never again. The passes are unchanged. After
    /// `NoMemory` the list is unchanged too.
    pub fn add_file(
        &mut self,
        alloc: Global,
        name: &FileName,
        artefact: &[u8],
    ) -> Result<(), NoMemory>
        requires name { FitsName name.now }
        requires artefact { length artefact.now ≤ ARTEFACT_LIMIT }
        requires few { length self.old.held.built < FILE_LIMIT }
        ensures built { OnOk result
            (self.new.held.built
            ≡ self.old.held.built
            ++ record { name = name.now; artefact = artefact.now } ∷ []) }
        ensures still { OnErr result (self.new.held.built ≡ self.old.held.built) }
        ensures payloads { self.new.held.payloads ≡ self.old.held.payloads }
        ensures journal { self.new.journal ≡ self.old.journal }
        ensures in_step { (disk : DiskState) →
            IsPassStoreInStep self.old disk → IsPassStoreInStep self.new disk }
    {
        self.held.add_file(alloc, name, artefact)
    }

    /// The output of the last pass of the same tests, borrowed, if that pass is of this run and these words over the list of built
    /// files; `None` otherwise. It takes no memory, and a time that grows with the texts of the run and the number of files.
    pub fn recall(&self, run: &TestRun, simulator: &TextList) -> Option<&[u8]>
        ensures output { option_map (λ bytes. bytes.now) result
            ≡ recalled (passes_held self.now) simulator.now self.now.held.built run.now }
        ensures small { IfSome result (λ bytes. length bytes.now ≤ SHOWN_LIMIT) }
    {
        self.held.recall(run, simulator)
    }

    /// Makes a pass of a run over the list of built files ready, with room for it. The passes of the store are unchanged, after
    /// `NoMemory` too.
    pub fn prepare(
        &mut self,
        alloc: Global,
        run: &TestRun,
        simulator: &TextList,
        output: &[u8],
    ) -> Result<NextPass, NoMemory>
        requires run { FitsRun run.now }
        requires simulator { FitsCommand simulator.now }
        requires output { length output.now ≤ SHOWN_LIMIT }
        ensures payloads { self.new.held.payloads ≡ self.old.held.payloads }
        ensures built { self.new.held.built ≡ self.old.held.built }
        ensures journal { self.new.journal ≡ self.old.journal }
        ensures in_step { (disk : DiskState) →
            IsPassStoreInStep self.old disk → IsPassStoreInStep self.new disk }
        ensures adds { IfOk result
            (λ next. AddsPass self.new.held next.segment next.addition) }
        ensures pass { IfOk result
            (λ next.
            added_pass self.old.held.payloads next.segment next.addition
            ≡ record {
              run = run.now;
              simulator = simulator.now;
              built = self.old.held.built;
              output = output.now;
            }) }
    {
        self.held.prepare(alloc, run, simulator, output)
    }

    /// Adds a prepared pass, which is then the last one of its tests. It takes no memory.
    pub fn commit<D: Disk>(&mut self, disk: &mut D, next: NextPass) -> Result<(), DiskFailed>
        requires usable { self.old.journal.broken ≡ false }
        requires adds { AddsPass self.old.held next.segment next.addition }
        requires in_step { D.tells → IsPassStoreInStep self.old (D.moments disk.old).now }
        ensures passes { OnOk result
            (passes_held self.new
            ≡ passes_held self.old
            ++ added_pass self.old.held.payloads next.segment next.addition ∷ []) }
        ensures still { OnErr result (passes_held self.new ≡ passes_held self.old) }
        ensures built { self.new.held.built ≡ self.old.held.built }
        ensures in_step { D.tells →
            OnOk result (IsPassStoreInStep self.new (D.moments disk.new).now) }
        ensures added { D.tells →
            let before = passes_in (reads_of (D.moments disk.old).now) in
            let pass = added_pass self.old.held.payloads next.segment next.addition in
            OnOk result (passes_in (reads_of (D.moments disk.new).now) ≡ before ++ pass ∷ []) }
        // At any moment, after a fault too, a stop can leave the passes from before, with the new one or without.
        ensures any_moment { D.tells →
            let before = passes_in (reads_of (D.moments disk.old).now) in
            let pass = added_pass self.old.held.payloads next.segment next.addition in
            AtAnyMoment (D.moments disk.old) (D.moments disk.new)
            (λ image. IsEither (passes_in image) before (before ++ pass ∷ [])) }
        // Once each image has the new one, each image has it.
        ensures loses { D.tells →
            let before = passes_in (reads_of (D.moments disk.old).now) in
            let pass = added_pass self.old.held.payloads next.segment next.addition in
            NeverLoses (D.moments disk.old) (D.moments disk.new)
            (λ image. passes_in image ≡ before ++ pass ∷ []) }
        ensures broken { self.new.journal.broken ≡ is_err result }
        ensures cause { DiskCounts result (D.failed_disk_calls disk.old)
            (D.failed_disk_calls disk.new) }
    {
        let NextPass { segment, addition } = next;
        self.journal.commit(disk, &segment)?;
        self.held.put(segment, addition);
        Ok(())
    }

    /// Whether a call of this store has answered `DiskFailed`.
    pub fn is_broken(&self) -> bool
        ensures { result ≡ self.now.journal.broken }
    {
        self.journal.is_broken()
    }
}
