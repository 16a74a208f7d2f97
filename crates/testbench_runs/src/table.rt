//! The verdicts of the cases of a run.

ghost use Rattle.std.specs.Prelude.{◌≡◌, ◌==◌, ◌&&◌, ◌∷◌, [], IfOk, map};
ghost use Rattle.testbench_runs.specs.Verdicts.{passed_if, verdicts};
ghost use Rattle.testbench_runs.specs.Starts.{verdict_by};

use crate::starts::{Said, said_by};
use crate::{Verdict, VerdictList, set_of};
use base::{MaybeText, NoMemory, TextList};
use std::alloc::Global;

fn passed_if(is_passed: bool) -> Verdict
    ensures { result ≡ passed_if is_passed }
{
    if is_passed {
        Verdict::Passed
    } else {
        Verdict::Failed
    }
}

/// The verdict of a case.
fn verdict_of(said: &Said<'_>, ends_well: bool, name: &[u8]) -> Verdict
    ensures { result ≡ verdict_by said.now ends_well name.now }
{
    if !said.is_started(name) {
        Verdict::Skipped
    } else if said.is_last(name) {
        passed_if(ends_well)
    } else {
        Verdict::Passed
    }
}

fn one_verdict(alloc: Global, verdict: Verdict) -> Result<VerdictList, NoMemory>
    ensures { IfOk result (λ list. list ≡ verdict ∷ []) }
{
    let mut list = VerdictList::new(alloc);
    list.push(verdict)?;
    Ok(list)
}

fn all_failed(alloc: Global, cases: &TextList) -> Result<VerdictList, NoMemory>
    ensures { IfOk result (λ list. list ≡ map (λ name. Verdict.Failed) cases.now) }
{
    let mut list = VerdictList::new(alloc);
    for _ in cases.as_slice() {
        list.push(Verdict::Failed)?;
    }
    Ok(list)
}

fn verdicts_by(
    alloc: Global,
    cases: &TextList,
    said: &Said<'_>,
    ends_well: bool,
) -> Result<VerdictList, NoMemory>
    ensures { IfOk result (λ list. list ≡ map (verdict_by said.now ends_well) cases.now) }
{
    let mut list = VerdictList::new(alloc);
    for name in cases.as_slice() {
        list.push(verdict_of(said, ends_well, name.bytes()))?;
    }
    Ok(list)
}

/// Whether all is done, and the code is 0.
fn ends_well(code: u32, said: &Said<'_>) -> bool
    ensures { result ≡ (code == 0 && said.now.is_done) }
{
    code == 0 && said.is_done()
}

/// The verdicts by a results text.
#[tactic(auto, unfolding(crate::specs::Verdicts::verdicts))]
fn verdicts_of_text(
    alloc: Global,
    cases: &TextList,
    whole: bool,
    code: u32,
    text: &[u8],
) -> Result<VerdictList, NoMemory>
    ensures { IfOk result
        (λ list. list ≡ verdicts cases.now whole code (MaybeText.Given text.now)) }
{
    let set = set_of(alloc, cases)?;
    let said = said_by(alloc, &set, text)?;
    let ends_well = ends_well(code, &said);
    if whole {
        one_verdict(alloc, passed_if(ends_well))
    } else {
        verdicts_by(alloc, cases, &said, ends_well)
    }
}

#[tactic(auto, unfolding(crate::specs::Verdicts::verdicts))]
fn verdicts_of_nothing(
    alloc: Global,
    cases: &TextList,
    whole: bool,
    code: u32,
) -> Result<VerdictList, NoMemory>
    ensures { IfOk result (λ list. list ≡ verdicts cases.now whole code MaybeText.Nothing) }
{
    if whole {
        one_verdict(alloc, Verdict::Failed)
    } else {
        all_failed(alloc, cases)
    }
}

/// The verdicts of the cases of a run, in their order, by the code with which its child ended and the results that it
/// left, if any. A bench that names no case itself (`whole`) has one verdict. Names of cases are compared as bytes, and
/// cases with the same name have the same verdict. Time and memory are those of looking up each case and each line of
/// the results in a tree of the cases.
pub fn verdicts(
    alloc: Global,
    cases: &TextList,
    whole: bool,
    code: u32,
    results: &MaybeText,
) -> Result<VerdictList, NoMemory>
    ensures { IfOk result (λ list. list ≡ verdicts cases.now whole code results.now) }
{
    match results {
        MaybeText::Nothing => verdicts_of_nothing(alloc, cases, whole, code),
        MaybeText::Given(text) => verdicts_of_text(alloc, cases, whole, code, text.bytes()),
    }
}
