//! How the program ends: its answer, and the status that follows from it.

ghost use Rattle.std.specs.Prelude.{◌≡◌, [], ℕ, List};
ghost use Rattle.outside.specs.FaultCounts.{run_counts};
ghost use Rattle.report.specs.Status.{exit_status};
ghost use Rattle.vhdl_spec.specs.Scans.{Finding, IsScanner};
ghost use Rattle.vunit_top.specs.Did.{Did, Keeps, call_of};
ghost use Rattle.vunit_top.specs.Said.{IsAccounted};

use crate::top::run_vunit;
use base::TextList;
use base_outcomes::Outcome;
use outside::{Disk, Procs, Reports, Sink, Source, Tree};
use report::exit_status_of;
use std::alloc::Global;

/// How the program ends: its answer, and the status that it ends with.
#[derive(Drop)]
pub struct Ended {
    pub outcome: Outcome,
    pub status: u8,
}

/// The end with this answer.
pub fn end_of(outcome: Outcome) -> Ended
    ensures outcome { result.outcome ≡ outcome }
    ensures status { result.status ≡ exit_status outcome }
{
    let status = exit_status_of(&outcome);
    Ended { outcome, status }
}

/// Runs the program, as `run_vunit` has it, and ends with the status of its answer.
pub fn run_ended<I: Source, T: Tree, D: Disk, P: Procs, O: Sink, R: Reports>(
    alloc: Global,
    words: &TextList,
    input: &mut I,
    tree: &mut T,
    disk: &mut D,
    procs: &mut P,
    out: &mut O,
    reports: &mut R,
) -> Ended
    requires { P.running procs.old ≡ [] }
    ensures status { result.status ≡ exit_status result.outcome }
    ensures did { (scan : List ℕ → Finding) → IsScanner scan →
        Did (call_of I.Source T.Tree D.Disk P.Procs O.Sink R.Reports
        input.old tree.old disk.old procs.old out.old reports.old
        input.new tree.new disk.new procs.new out.new reports.new) scan words.now result.outcome }
    ensures keeps { Keeps (call_of I.Source T.Tree D.Disk P.Procs O.Sink R.Reports
        input.old tree.old disk.old procs.old out.old reports.old
        input.new tree.new disk.new procs.new out.new reports.new) words.now result.outcome }
    ensures counted { IsAccounted result.outcome
        (run_counts I.Source T.Tree D.Disk P.Procs O.Sink R.Reports
        input.old tree.old disk.old procs.old out.old reports.old)
        (run_counts I.Source T.Tree D.Disk P.Procs O.Sink R.Reports
        input.new tree.new disk.new procs.new out.new reports.new) }
    ensures running { P.running procs.new ≡ [] }
{
    let outcome = run_vunit(alloc, words, input, tree, disk, procs, out, reports);
    let status = exit_status_of(&outcome);
    Ended { outcome, status }
}
