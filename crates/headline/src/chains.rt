//! Two runs of the program, one after the other.

ghost use Rattle.std.specs.Prelude.{◌≡◌, [], ℕ, List, false};
ghost use Rattle.base.specs.declared.child.Exit.{Exit};
ghost use Rattle.base.specs.declared.child.Request.{Request};
ghost use Rattle.outside.specs.Disks.{DiskState, added_since};
ghost use Rattle.run_spec.specs.ChildJournal.{since};
ghost use Rattle.run_spec.specs.Histories.{IsMoment, IsLeft};
ghost use Rattle.run_spec.specs.JournalParts.{IsCompilerOf};
ghost use Rattle.vhdl_spec.specs.Scans.{Finding, IsScanner};
ghost use Rattle.run_build.specs.Building.{has_risen};
ghost use Rattle.vunit_top.specs.Reading.{generates, words_task};
ghost use Rattle.headline.specs.Chains.{RanTwice, RanAfterStop};

use base::TextList;
use base_outcomes::Outcome;
use outside::{Disk, Procs, Reports, Sink, Source, Tree};
use std::alloc::Global;
use vunit_top::run_vunit;

/// What two runs answered.
#[derive(Drop)]
pub struct Outcomes {
    pub first: Outcome,
    pub second: Outcome,
}

/// Runs the program twice with the same arguments over the same objects. The clause `ran` leaves out arguments that generate
/// a project, since its builds are over a disk in memory.
pub fn run_twice<I: Source, T: Tree, D: Disk, P: Procs, O: Sink, R: Reports>(
    alloc: Global,
    words: &TextList,
    input: &mut I,
    tree: &mut T,
    disk: &mut D,
    procs: &mut P,
    out: &mut O,
    reports: &mut R,
) -> Outcomes
    requires { P.running procs.old ≡ [] }
    ensures running { P.running procs.new ≡ [] }
    ensures same { P.answer procs.new ≡ P.answer procs.old }
    ensures sources { T.file tree.new ≡ T.file tree.old }
    ensures listed { T.listed tree.new ≡ T.listed tree.old }
    ensures ran { (scan : List ℕ → Finding) → IsScanner scan → T.tells → D.tells → P.tells →
        generates (words_task words.now) ≡ false →
        (compiler : Request → Exit) → IsCompilerOf compiler (P.answer procs.old) →
        RanTwice scan compiler words.now
        (record { file = T.file tree.old; listed = T.listed tree.old })
        result
        (record { disk = (D.moments disk.old).now; journal = P.journal procs.old })
        (record { disk = (D.moments disk.new).now; journal = P.journal procs.new }) }
{
    let first = run_vunit(alloc, words, input, tree, disk, procs, out, reports);
    let second = run_vunit(alloc, words, input, tree, disk, procs, out, reports);
    Outcomes { first, second }
}

/// Runs the program over a disk, and then with the same arguments and sources over another disk, which may be what a stop of
/// the first run has left. The clause `ran` leaves out arguments that generate a project.
pub fn run_after_stop<I: Source, T: Tree, D: Disk, E: Disk, P: Procs, O: Sink, R: Reports>(
    alloc: Global,
    words: &TextList,
    input: &mut I,
    tree: &mut T,
    disk: &mut D,
    left: &mut E,
    procs: &mut P,
    out: &mut O,
    reports: &mut R,
) -> Outcomes
    requires { P.running procs.old ≡ [] }
    ensures running { P.running procs.new ≡ [] }
    ensures same { P.answer procs.new ≡ P.answer procs.old }
    ensures sources { T.file tree.new ≡ T.file tree.old }
    ensures listed { T.listed tree.new ≡ T.listed tree.old }
    ensures ran { (scan : List ℕ → Finding) → IsScanner scan → T.tells → D.tells → E.tells →
        P.tells → generates (words_task words.now) ≡ false → (moment : DiskState) →
        IsMoment moment (D.moments disk.old).now
        (added_since (D.moments disk.old) (D.moments disk.new)) →
        IsLeft moment (E.moments left.old).now →
        (compiler : Request → Exit) → IsCompilerOf compiler (P.answer procs.old) →
        RanAfterStop scan compiler words.now
        (record { file = T.file tree.old; listed = T.listed tree.old })
        result
        (record {
          failed = has_risen (D.failed_disk_calls disk.old) (D.failed_disk_calls disk.new);
          first = (D.moments disk.old).now;
          later = added_since (D.moments disk.old) (D.moments disk.new);
          moment = moment;
        })
        (record { disk = (E.moments left.old).now; journal = P.journal procs.old })
        (record { disk = (E.moments left.new).now; journal = P.journal procs.new }) }
{
    let first = run_vunit(alloc, words, input, tree, disk, procs, out, reports);
    let second = run_vunit(alloc, words, input, tree, left, procs, out, reports);
    Outcomes { first, second }
}
