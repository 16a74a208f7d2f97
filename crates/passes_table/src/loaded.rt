//! Payloads of passes with their table, and the list of the built files that tests run over.

ghost use Rattle.std.specs.Prelude.{◌≡◌, ◌<◌, ◌≤◌, ◌++◌, ◌∷◌, [], length, IfOk, IfSome, OnErr, OnOk, option_map};
ghost use Rattle.std.specs.List.{flat_map};
ghost use Rattle.base.specs.Names.{FitsCommand, FitsName};
ghost use Rattle.base.specs.declared.limits.TheConstants.{ARTEFACT_LIMIT, FILE_LIMIT};
ghost use Rattle.testbench_runs.specs.declared.ends.TheConstants.{SHOWN_LIMIT};
ghost use Rattle.testbench_runs.specs.Runs.{FitsRun};
ghost use Rattle.store_journal.specs.DeadBytes.{capped_length};
ghost use Rattle.store_journal.specs.Payloads.{block};
ghost use Rattle.passes_spec.specs.KnownRuns.{recalled};
ghost use Rattle.passes_spec.specs.Passes.{last_passes};
ghost use Rattle.passes_codec.specs.Compaction.{compacted_passes};
ghost use Rattle.passes_codec.specs.PassTables.{passes_among};
ghost use Rattle.passes_table.specs.States.{AddsPass, added_pass};
ghost use Rattle.passes_table.specs.Additions.{is_new};

use crate::asking::recalled_output;
use crate::compacting::last_payloads;
use crate::counting::kept_length;
use crate::putting::put_pass;
use crate::taking::taken_up;
use crate::writing::{PassParts, next_pass};
use crate::{ListPart, LocatedPasses, NextPass, PassAddition, PendingList};
use base::{FileName, NoMemory, TextList};
use std::alloc::Global;
use std::marker::Model;
use store_journal::{Payloads, Ready};
use store_table::HeldPayloads;
use testbench_runs::TestRun;

/// Payloads of passes, in order, with their table, and the list of the built files that tests run over. Contracts see the payloads, the
/// files, the names that are numbered, the artefacts of files that payloads lack, and the room for more.
#[derive(Drop)]
pub struct LoadedPasses {
    alloc: Global,
    held: HeldPayloads<'static>,
    table: LocatedPasses,
    list: PendingList,
}

impl Model for LoadedPasses {
    ghost use Rattle.store_table.specs.Located.{located_texts, text_room};
    ghost use Rattle.passes_table.specs.Pending.{fresh_in, pending_files};
    ghost use Rattle.passes_table.specs.States.{AreLoaded, PassesState, passes_room};

    ghost Value = { PassesState };

    ghost view = { λ a. record {
      payloads = a.held.payloads;
      built = pending_files a.table.names.keys (located_texts a.held.segments a.table.texts) a.list;
      names = a.table.names.keys;
      fresh = fresh_in a.list.fresh;
      room = passes_room a.held a.table;
      text_room = text_room a.table.texts;
    } };

    ghost invariant = { λ a. AreLoaded a.held a.table a.list };
}

impl LoadedPasses {
    /// Payloads with their table, and an empty list of built files.
    pub fn of(alloc: Global, opened: Payloads) -> Result<LoadedPasses, NoMemory>
        ensures payloads { IfOk result (λ held. held.payloads ≡ opened) }
        ensures built { IfOk result (λ held. held.built ≡ []) }
    {
        let held = HeldPayloads::of(alloc, opened);
        let table = taken_up(alloc, &held)?;
        Ok(LoadedPasses {
            alloc,
            held,
            table,
            list: PendingList::new(alloc),
        })
    }

    /// Empties the list of built files. It takes no memory.
    pub fn start_list(&mut self)
        ensures payloads { self.new.payloads ≡ self.old.payloads }
        ensures built { self.new.built ≡ [] }
    {
        self.list = PendingList::new(self.alloc);
    }

    /// Adds a built file at the end of the list. Its artefact is looked up among the artefacts of the payloads and of the list, and
    /// copied if it is new. After `NoMemory` the list is unchanged.
    pub fn add_file(
        &mut self,
        alloc: Global,
        name: &FileName,
        artefact: &[u8],
    ) -> Result<(), NoMemory>
        requires name { FitsName name.now }
        requires artefact { length artefact.now ≤ ARTEFACT_LIMIT }
        requires few { length self.old.built < FILE_LIMIT }
        ensures payloads { self.new.payloads ≡ self.old.payloads }
        ensures ok { OnOk result
            (self.new.built
            ≡ self.old.built ++ record { name = name.now; artefact = artefact.now } ∷ []) }
        ensures err { OnErr result (self.new.built ≡ self.old.built) }
    {
        let copy = name.copy(alloc)?;
        let number = self.table.number_name(copy)?;
        self.list
            .add(alloc, &self.held, &self.table.texts, number, artefact)
    }

    /// What a run printed that passed over these files with this simulator, where the last pass of the same tests is of it, borrowed.
    /// It takes no memory.
    pub fn recall(&self, run: &TestRun, simulator: &TextList) -> Option<&[u8]>
        ensures output { option_map (λ bytes. bytes.now) result
            ≡ recalled (passes_among self.now.payloads) simulator.now self.now.built run.now }
        ensures small { IfSome result (λ bytes. length bytes.now ≤ SHOWN_LIMIT) }
    {
        recalled_output(&self.held, &self.table, &self.list, run, simulator)
    }

    /// The payload of a pass of a run over these files, with room for it. The payloads and the files are unchanged, after `NoMemory`
    /// too.
    pub fn prepare(
        &mut self,
        alloc: Global,
        run: &TestRun,
        simulator: &TextList,
        output: &[u8],
    ) -> Result<NextPass, NoMemory>
        requires run { FitsRun run.now }
        requires simulator { FitsCommand simulator.now }
        requires output { length output.now ≤ SHOWN_LIMIT }
        ensures payloads { self.new.payloads ≡ self.old.payloads }
        ensures built { self.new.built ≡ self.old.built }
        ensures adds { IfOk result (λ next. AddsPass self.new next.segment next.addition) }
        ensures pass { IfOk result
            (λ next.
            added_pass self.old.payloads next.segment next.addition
            ≡ record {
              run = run.now;
              simulator = simulator.now;
              built = self.old.built;
              output = output.now;
            }) }
    {
        self.held.reserve()?;
        self.table.reserve(self.list.fresh.texts.indices.len())?;
        let parts = PassParts {
            run,
            simulator,
            output,
        };
        let next = next_pass(alloc, &self.held, &self.table, &self.list, parts)?;
        Ok(next)
    }

    /// The payloads that keep the last pass of the same tests, and nothing else.
    pub fn last_payloads(&self, alloc: Global) -> Result<Payloads, NoMemory>
        ensures is { IfOk result
            (λ kept. kept ≡ compacted_passes (passes_among self.now.payloads)) }
        ensures passes { IfOk result
            (λ kept. passes_among kept ≡ last_passes (passes_among self.now.payloads)) }
    {
        last_payloads(alloc, &self.held, &self.table)
    }

    /// The number of bytes of a side of these last payloads, up to the greatest number of 64 bits. None of them is made.
    pub fn kept_length(&self, alloc: Global) -> Result<u64, NoMemory>
        ensures { let kept = compacted_passes (passes_among self.now.payloads) in
            IfOk result (λ counted. counted ≡ capped_length (length (flat_map block kept))) }
    {
        kept_length(alloc, &self.held, &self.table)
    }

    /// Adds a payload that was prepared, at the end. The files are unchanged. It takes no memory.
    pub fn put(&mut self, segment: Ready, addition: PassAddition)
        requires { AddsPass self.old segment addition }
        ensures payloads { self.new.payloads ≡ self.old.payloads ++ segment ∷ [] }
        ensures built { self.new.built ≡ self.old.built }
        ensures passes { passes_among self.new.payloads
            ≡ passes_among self.old.payloads ++ added_pass self.old.payloads segment addition ∷ [] }
    {
        let is_new = is_new_list(&addition.list.part);
        let at = self.held.len();
        self.held.put(segment);
        put_pass(&mut self.table, &self.held, at, addition);
        self.list.renew(self.alloc, is_new);
    }
}

/// Whether a list is a new one.
fn is_new_list(part: &ListPart) -> bool
    ensures { result ≡ is_new part.now }
{
    match part {
        ListPart::Known(_number) => false,
        ListPart::New(_row) => true,
    }
}
