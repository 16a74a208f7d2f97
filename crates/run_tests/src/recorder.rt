//! What records each run that passed, as its test ends.

ghost use Rattle.std.specs.Prelude.{◌≡◌, ℕ, Bool, false, true, ◌≤◌, List, [], ◌∷◌, ◌++◌, length, OnErr, OnOk, is_err};
ghost use Rattle.outside.specs.Counts.{StoreCounts};
ghost use Rattle.testbench_runs.specs.declared.ends.TheConstants.{SHOWN_LIMIT};
ghost use Rattle.testbench_runs.specs.declared.runs.TestRun.{TestRun};
ghost use Rattle.testbench_runs.specs.Runs.{FitsRun};
ghost use Rattle.passes_spec.specs.Passes.{Pass};

use outside::StoreFault;
use std::alloc::Global;
use testbench_runs::TestRun;

/// Records passes: each run that passed is told to it before the next run is started. After a fault it is broken.
pub trait PassRecorder: Sized {
    /// Whether it records passes at all.
    ghost records: { Bool };

    /// The passes that are recorded.
    ghost passes: { Self → List Pass };

    /// The pass that is recorded of a run with this output.
    ghost pass_with: { Self → TestRun → List ℕ → Pass };

    /// Whether a call has answered a fault.
    ghost is_broken: { Self → Bool };

    /// How many calls of its disk have failed.
    ghost failed_calls: { Self → ℕ };

    /// What may have become of it from one moment to another.
    ghost went: { Self → Self → Type 0 };

    /// Records a run that passed, with the part of its output that is shown.
    fn record(&mut self, alloc: Global, run: &TestRun, output: &[u8]) -> Result<(), StoreFault>
        requires usable { is_broken self.old ≡ false }
        requires run { FitsRun run.now }
        requires output { length output.now ≤ SHOWN_LIMIT }
        ensures passes { records ≡ true →
            OnOk result
            (passes self.new ≡ passes self.old ++ pass_with self.old run.now output.now ∷ []) }
        ensures kept { records ≡ true → OnErr result (passes self.new ≡ passes self.old) }
        ensures over { pass_with self.new ≡ pass_with self.old }
        ensures went { went self.old self.new }
        ensures broken { is_broken self.new ≡ is_err result }
        ensures cause { StoreCounts result (failed_calls self.old) (failed_calls self.new) };

    ghost stays: { (a : Self) → went a a };

    ghost goes_on: { (a b c : Self) → went a b → went b c → went a c };
}

/// Records nothing.
#[derive(Clone, Copy)]
pub struct NoRecorder;

impl PassRecorder for NoRecorder {
    ghost records = { false };

    ghost passes = { λ a. [] };

    ghost pass_with = { λ a run output. record {
      run = run;
      simulator = [];
      built = [];
      output = output;
    } };

    ghost is_broken = { λ a. false };

    ghost failed_calls = { λ a. 0 };

    ghost went = { λ a b. Unit {0} };

    ghost stays = { λ a. record {} };

    ghost goes_on = { λ a b c ab bc. record {} };

    fn record(&mut self, _alloc: Global, _run: &TestRun, _output: &[u8]) -> Result<(), StoreFault> {
        Ok(())
    }
}
