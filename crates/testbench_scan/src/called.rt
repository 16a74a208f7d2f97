//! The cases of a bench.

ghost use Rattle.std.specs.Prelude.{◌≡◌, List, ℕ, IfOk, Some, is_some, map, true};
ghost use Rattle.std.specs.List.{All};
ghost use Rattle.base.specs.declared.design.Unit.{Unit as DesignUnit};
ghost use Rattle.base.specs.declared.lexical.Token.{Token as TextToken};
ghost use Rattle.vhdl_outline.specs.Calls.{cases_or, string_case, whole_case};
ghost use Rattle.vhdl_outline.specs.Runs.{IsStringIn, UnitRunsLieIn, unit_runs};

use base::{NoMemory, Token};
use base_outcomes::CaseList;
use std::alloc::Global;
use vhdl_outline::{UnitFacts, string_case, whole_case};

/// The cases that strings of the text of a file name, in order.
pub fn called_cases(
    alloc: Global,
    file: u32,
    text: &[u8],
    strings: &[Token],
) -> Result<CaseList, NoMemory>
    requires { All (IsStringIn text.now) strings.now }
    ensures { IfOk result (λ cases. cases ≡ map (string_case file text.now) strings.now) }
{
    let mut cases = CaseList::new(alloc);
    for string in strings {
        cases.push(string_case(alloc, file, text, *string)?)?;
    }
    Ok(cases)
}

/// The token that names a bench.
fn bench_token(runs: &UnitFacts) -> Token
    requires { is_some runs.now.bench ≡ true }
    ensures { runs.now.bench ≡ Some result }
{
    match runs.bench {
        Some(token) => token,
        None => unreachable!(),
    }
}

/// The cases that are called, or the one case of a bench where none is.
pub fn cases_or(
    alloc: Global,
    file: u32,
    _text: &[u8],
    runs: &UnitFacts,
    called: CaseList,
) -> Result<CaseList, NoMemory>
    requires named { is_some runs.now.bench ≡ true }
    requires lie { UnitRunsLieIn _text.now runs.now }
    ensures { IfOk result (λ cases. (tokens : List TextToken) (unit : DesignUnit) →
        runs.now ≡ unit_runs _text.now tokens unit →
        cases ≡ cases_or (whole_case file tokens unit) called) }
{
    if !called.is_empty() {
        return Ok(called);
    }
    let mut cases = CaseList::new(alloc);
    cases.push(whole_case(alloc, file, bench_token(runs))?)?;
    Ok(cases)
}
