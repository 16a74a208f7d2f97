//! The mode that generates a project: its options, its run, and its result.

ghost use Rattle.std.specs.Prelude.{◌≡◌, ◌≤◌, ◌<◌, ◌++◌, [], ℕ, List, Err, MatchOption, false};
ghost use Rattle.outside.specs.FaultCounts.{RunFaultCounts, with_children, with_output};
ghost use Rattle.run_spec.specs.ChildJournal.{since};
ghost use Rattle.run_spec.specs.declared.fault.RunFault.TheVariants as fault;
ghost use Rattle.vhdl_spec.specs.Scans.{Finding, IsScanner};
ghost use Rattle.vunit_top.specs.Generated.{GeneratesAs};
ghost use Rattle.vunit_top.specs.Reading.{Generates, generates, setting_task};
ghost use Rattle.generated_runs.specs.Said.{IsAnswer};
ghost use Rattle.vunit_top.specs.Said.{IsAccounted, IsSaid, Says, fault_outcome};

use crate::ends::say;
use crate::testing_run::fault_outcome;
use base::{FILE_LIMIT, SLOT_LIMIT};
use base_outcomes::{Outcome, OutsideObject};
use generated_runs::{GenerateOptions, GeneratedSaid, run_generated};
use outside::{Procs, Sink};
use std::alloc::Global;
use vunit_arguments::Setting;

/// The options of the project that a setting generates, if it generates one within the limits.
pub fn generated_by(setting: &Setting) -> Option<GenerateOptions>
    requires { 1 ≤ setting.now.num_threads }
    ensures { MatchOption result (generates (setting_task setting.now) ≡ false)
        (λ options. (setting_task setting.now ≡ Err (Generates options))
        × (1 ≤ options.slots) × (options.slots ≤ SLOT_LIMIT)) }
{
    let packages = setting.generate;
    let slots = setting.num_threads;
    if slots > SLOT_LIMIT as u64 {
        return None;
    }
    if packages == 0 {
        return None;
    }
    if packages >= FILE_LIMIT as u64 {
        return None;
    }
    Some(GenerateOptions {
        packages: packages as u32,
        slots: slots as u32,
        exit_0: setting.exit_0,
    })
}

/// Puts the text for a generated project, and answers.
fn put_generated<O: Sink>(said: GeneratedSaid, out: &mut O) -> Outcome
    requires { IsAnswer said.outcome }
    ensures answers { IsSaid result → result ≡ said.outcome }
    ensures says { O.tells →
        Says result (record { outcome = said.outcome; text = said.text })
        (O.contents out.old) (O.contents out.new) }
    ensures counted { (others : RunFaultCounts) → IsAccounted result
        (with_output O.Sink out.old others)
        (with_output O.Sink out.new others) }
{
    let GeneratedSaid { outcome, text } = said;
    say(text.bytes(), outcome, out)
}

/// Generates a project, builds it twice with one edit between, runs its tests, and puts the result.
pub fn say_generated<P: Procs, O: Sink>(
    alloc: Global,
    options: GenerateOptions,
    procs: &mut P,
    out: &mut O,
) -> Outcome
    requires slots { (1 ≤ options.slots) × (options.slots ≤ SLOT_LIMIT) }
    requires idle { P.running procs.old ≡ [] }
    ensures running { P.running procs.new ≡ [] }
    ensures same { P.answer procs.new ≡ P.answer procs.old }
    ensures kept { P.tells →
        (P.journal procs.new
        ≡ P.journal procs.old ++ since (P.journal procs.old) (P.journal procs.new)) }
    ensures generated { (scan : List ℕ → Finding) → IsScanner scan → P.tells →
        GeneratesAs scan (P.answer procs.old) options result O.tells
        (since (P.journal procs.old) (P.journal procs.new))
        (O.contents out.old) (O.contents out.new) }
    ensures counted { (others : RunFaultCounts) → IsAccounted result
        (with_children P.Procs procs.old (with_output O.Sink out.old others))
        (with_children P.Procs procs.new (with_output O.Sink out.new others)) }
{
    match run_generated(alloc, options, procs) {
        Ok(said) => put_generated(said, out),
        Err(fault) => fault_outcome(fault),
    }
}
