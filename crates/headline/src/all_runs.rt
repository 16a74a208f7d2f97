//! Any number of runs of the program, with whatever may happen between them.

ghost use Rattle.std.specs.Prelude.{◌≡◌, ◌⊎◌, [], ℕ, Bool, true, false, not, is_some, List, IfSome};
ghost use Rattle.base.specs.declared.child.Exit.{Exit};
ghost use Rattle.base.specs.declared.child.Request.{Request};
ghost use Rattle.outside.specs.Disks.{Follows, Moments};
ghost use Rattle.run_spec.specs.JournalParts.{IsCompilerOf};
ghost use Rattle.vhdl_spec.specs.Scans.{Finding, IsScanner};
ghost use Rattle.headline.specs.Promise.{LeavesDisk, RanAll};

use base::TextList;
use base_outcomes::Outcome;
use outside::{Disk, Procs, Reports, Sink, Source, Tree};
use std::alloc::Global;
use vhdl_spec::some_scanner;
use vunit_top::run_vunit;

/// What happens after a run, before the next one.
pub trait Between<T: Tree, D: Disk, P: Procs> {
    /// The moments of the disk as the last answer left them: the next run begins there.
    ghost last: { Self → Moments };

    /// Whether the last answer gave no arguments.
    ghost ended: { Self → Bool };

    /// Gives the arguments of the next run, or none if there is no next run. Any file of the project may change. The disk is
    /// unchanged, or is what a kill or a loss of power at some moment of the last run leaves. No child runs. The compiler
    /// stays the same function of its requests; simulators may answer anything from then on.
    fn next(
        &mut self,
        outcome: &Outcome,
        tree: &mut T,
        disk: &mut D,
        procs: &mut P,
    ) -> Option<TextList>
        requires idle { P.running procs.old ≡ [] }
        requires follows { T.tells → D.tells → P.tells →
            Follows (last self.old) (D.moments disk.old) }
        ensures running { P.running procs.new ≡ [] }
        ensures compiler { IsCompilerOf (P.answer procs.old) (P.answer procs.new) }
        ensures left { T.tells → D.tells → P.tells →
            LeavesDisk (last self.old) (D.moments disk.old) (D.moments disk.new).now }
        ensures last { D.tells → IfSome result (λ words. last self.new ≡ D.moments disk.new) }
        ensures ended { ended self.new ≡ not (is_some result) };
}

/// Runs the program once, and then calls `next` of `between`.
fn run_then<I: Source, T: Tree, D: Disk, P: Procs, O: Sink, R: Reports, B: Between<T, D, P>>(
    alloc: Global,
    words: &TextList,
    between: &mut B,
    input: &mut I,
    tree: &mut T,
    disk: &mut D,
    procs: &mut P,
    out: &mut O,
    reports: &mut R,
) -> Option<TextList>
    requires idle { P.running procs.old ≡ [] }
    requires last { D.tells → B.last between.old ≡ D.moments disk.old }
    ensures running { P.running procs.new ≡ [] }
    ensures compiler { IsCompilerOf (P.answer procs.old) (P.answer procs.new) }
    ensures last { D.tells → IfSome result (λ words. B.last between.new ≡ D.moments disk.new) }
    ensures ended { B.ended between.new ≡ not (is_some result) }
    ensures ran { (scan : List ℕ → Finding) → IsScanner scan → T.tells → D.tells → P.tells →
        (compiler : Request → Exit) → IsCompilerOf compiler (P.answer procs.old) →
        RanAll scan compiler 1
        (record {
          sources = record { file = T.file tree.old; listed = T.listed tree.old };
          disk = (D.moments disk.old).now;
        })
        (record {
          sources = record { file = T.file tree.new; listed = T.listed tree.new };
          disk = (D.moments disk.new).now;
        }) }
{
    some_scanner();
    let outcome = run_vunit(alloc, words, input, tree, disk, procs, out, reports);
    between.next(&outcome, tree, disk, procs)
}

/// Runs the program with these arguments, and then again with the arguments that `between` gives. It ends when `between`
/// gives none, or after `limit` runs, and gives the number of runs. Between two runs any file may change. The program may
/// also have been stopped inside the last run, by a kill or a loss of power.
///
/// What happened is one history from the first state of the project to the last. If the first disk has only true records, as
/// an empty one has, each run keeps the promise of the program.
pub fn run_all<I: Source, T: Tree, D: Disk, P: Procs, O: Sink, R: Reports, B: Between<T, D, P>>(
    alloc: Global,
    first: TextList,
    limit: u64,
    between: &mut B,
    input: &mut I,
    tree: &mut T,
    disk: &mut D,
    procs: &mut P,
    out: &mut O,
    reports: &mut R,
) -> u64
    requires idle { P.running procs.old ≡ [] }
    requires last { D.tells → B.last between.old ≡ D.moments disk.old }
    requires begun { B.ended between.old ≡ false }
    ensures running { P.running procs.new ≡ [] }
    ensures compiler { IsCompilerOf (P.answer procs.old) (P.answer procs.new) }
    // The runs end at the limit, or when `between` gives no arguments.
    ensures all { (result ≡ limit) ⊎ (B.ended between.new ≡ true) }
    ensures ran { (scan : List ℕ → Finding) → IsScanner scan → T.tells → D.tells → P.tells →
        (compiler : Request → Exit) → IsCompilerOf compiler (P.answer procs.old) →
        RanAll scan compiler result
        (record {
          sources = record { file = T.file tree.old; listed = T.listed tree.old };
          disk = (D.moments disk.old).now;
        })
        (record {
          sources = record { file = T.file tree.new; listed = T.listed tree.new };
          disk = (D.moments disk.new).now;
        }) }
{
    let mut next = Some(first);
    let mut runs = 0u64;
    while runs < limit {
        let Some(words) = &next else {
            return runs;
        };
        next = run_then(
            alloc, words, between, input, tree, disk, procs, out, reports,
        );
        runs += 1;
    }
    runs
}
