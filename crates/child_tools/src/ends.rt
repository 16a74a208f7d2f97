//! The answers of the simulator.

ghost use Rattle.std.specs.Prelude.{◌≡◌, ◌++◌, IfOk, OnOk};
ghost use Rattle.child_tools.specs.Benches.{all_done, failed_case, no_bench, start_line, with_results};

use base::{Exit, MaybeText, NoMemory, Text};
use child_lines::put;
use std::alloc::Global;

/// An end with a code, an output and results.
fn with_results(code: u32, output: Text, results: Text) -> Exit
    ensures { result ≡ with_results code output results }
{
    Exit {
        code,
        output,
        results: MaybeText::Given(results),
    }
}

/// The answer to a bench that isn't there.
#[tactic(auto, unfolding(crate::specs::Benches::no_bench))]
pub fn no_bench(alloc: Global) -> Result<Exit, NoMemory>
    ensures { IfOk result (λ exit. exit ≡ no_bench) }
{
    let output = Text::from_slice(alloc, b"no bench\n")?;
    Ok(with_results(1, output, Text::new(alloc)))
}

/// Puts the line that starts a case.
#[tactic(auto, unfolding(crate::specs::Benches::start_line))]
pub fn put_start(results: &mut Vec<u8>, name: &[u8]) -> Result<(), NoMemory>
    ensures { OnOk result (results.new.items ≡ results.old.items ++ start_line name.now) }
{
    put(results, b"test_start:")?;
    put(results, name)?;
    put(results, b"\n")?;
    Ok(())
}

/// The answer where a case of a full name has failed, after these results.
#[tactic(auto, unfolding(crate::specs::Benches::failed_case))]
pub fn failed_case(alloc: Global, name: &[u8], results: Vec<u8>) -> Result<Exit, NoMemory>
    ensures { IfOk result (λ exit. exit ≡ failed_case name.now results.items) }
{
    let mut output = Vec::from_slice(alloc, b"failed ")?;
    put(&mut output, name)?;
    put(&mut output, b"\n")?;
    Ok(with_results(1, Text::from_vec(output), Text::from_vec(results)))
}

/// The answer where no case has failed, after these results.
#[tactic(auto, unfolding(crate::specs::Benches::all_done, crate::specs::Benches::done_line))]
pub fn all_done(alloc: Global, results: Vec<u8>) -> Result<Exit, NoMemory>
    ensures { IfOk result (λ exit. exit ≡ all_done results.items) }
{
    let mut results = results;
    put(&mut results, b"test_suite_done\n")?;
    Ok(with_results(0, Text::new(alloc), Text::from_vec(results)))
}
