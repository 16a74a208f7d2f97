//! What the units of a file say of tests, kept so that the tokens needn't be.

ghost use Rattle.std.specs.Prelude.{◌≡◌, ◌+◌, ◌<◌, ◌≤◌, IfOk, IfSome, length};
ghost use Rattle.std.specs.List.{All};
ghost use Rattle.vhdl_spec.specs.Dependencies.{is_architecture_kind};
ghost use Rattle.vhdl_spec.specs.Scans.{IsScanOf};
ghost use Rattle.vhdl_spec.specs.Units.{AreTokensOf, roles_of};
ghost use Rattle.vhdl_outline.specs.Runs.{BenchLiesIn, IsStringIn, UnitRunsLieIn, bench_token, file_runs, is_bench_unit, is_entity_kind, unit_runs, unit_strings};

use crate::calls::run_strings;
use crate::comments::asks_same_sim;
use crate::runner::has_runner;
use crate::units::unit_at;
use base::{Items, NoMemory, Role, RoleList, Scan, Token, TokenList, Tokens, Unit, UnitKind};
use std::alloc::Global;
use vhdl_units::token_of;

/// What a design unit says of tests: the token that names it, where it is an entity with the generic `runner_cfg`; and
/// the strings that it calls `run` with, where it is an architecture.
#[derive(Drop)]
pub struct UnitFacts {
    pub bench: Option<Token>,
    pub strings: TokenList,
}

/// What a file says of tests: each of its units, and whether a comment asks for one simulation of all cases.
#[derive(Drop)]
pub struct FileFacts {
    pub units: Items<UnitFacts>,
    pub same_sim: bool,
}

/// Whether a unit is an entity.
fn is_entity(kind: UnitKind) -> bool
    ensures { result ≡ is_entity_kind kind }
{
    match kind {
        UnitKind::Entity => true,
        _ => false,
    }
}

/// Whether a unit is an architecture.
fn is_architecture(kind: UnitKind) -> bool
    ensures { result ≡ is_architecture_kind kind }
{
    match kind {
        UnitKind::Architecture => true,
        _ => false,
    }
}

/// Whether a unit is a test bench.
fn is_bench(text: &[u8], tokens: &Tokens, roles: &[Role], unit: &Unit) -> bool
    requires tokens { AreTokensOf text.now tokens.now }
    requires roles { roles.now ≡ roles_of text.now tokens.now.list }
    requires ordered { unit.now.first < unit.now.last }
    requires within { unit.now.last < length roles.now }
    ensures { result ≡ is_bench_unit text.now tokens.now.list unit.now }
{
    is_entity(unit.kind) && has_runner(text, tokens, roles, unit)
}

/// The token that names a unit, where it is a test bench.
fn bench_token(text: &[u8], tokens: &Tokens, roles: &[Role], unit: &Unit) -> Option<Token>
    requires tokens { AreTokensOf text.now tokens.now }
    requires roles { roles.now ≡ roles_of text.now tokens.now.list }
    requires ordered { unit.now.first < unit.now.last }
    requires within { unit.now.last < length roles.now }
    ensures is { result ≡ bench_token text.now tokens.now.list unit.now }
    ensures lies { BenchLiesIn text.now result }
{
    if !is_bench(text, tokens, roles, unit) {
        return None;
    }
    Some(token_of(text, tokens, unit.first as usize + 1))
}

/// The strings that a unit calls `run` with, where it is an architecture.
fn unit_strings(
    alloc: Global,
    text: &[u8],
    tokens: &Tokens,
    roles: &[Role],
    unit: &Unit,
) -> Result<TokenList, NoMemory>
    requires tokens { AreTokensOf text.now tokens.now }
    requires roles { roles.now ≡ roles_of text.now tokens.now.list }
    requires ordered { unit.now.first < unit.now.last }
    requires within { unit.now.last < length roles.now }
    ensures are { IfOk result (λ strings. strings ≡
        unit_strings text.now tokens.now.list unit.now) }
    ensures lie { IfOk result (All (IsStringIn text.now)) }
{
    if !is_architecture(unit.kind) {
        return Ok(TokenList::new(alloc));
    }
    run_strings(
        alloc,
        text,
        tokens,
        roles,
        unit.first as usize,
        unit.last as usize,
    )
}

/// What a unit says of tests.
fn unit_runs(
    alloc: Global,
    text: &[u8],
    tokens: &Tokens,
    roles: &[Role],
    unit: &Unit,
) -> Result<UnitFacts, NoMemory>
    requires tokens { AreTokensOf text.now tokens.now }
    requires roles { roles.now ≡ roles_of text.now tokens.now.list }
    requires ordered { unit.now.first < unit.now.last }
    requires within { unit.now.last < length roles.now }
    ensures are { IfOk result (λ runs. runs ≡ unit_runs text.now tokens.now.list unit.now) }
    ensures lie { IfOk result (UnitRunsLieIn text.now) }
{
    Ok(UnitFacts {
        bench: bench_token(text, tokens, roles, unit),
        strings: unit_strings(alloc, text, tokens, roles, unit)?,
    })
}

/// What a file says of tests, by its scan. `roles` are those of the scan's tokens.
pub fn testbench_facts(
    alloc: Global,
    text: &[u8],
    scan: &Scan,
    roles: &RoleList,
) -> Result<FileFacts, NoMemory>
    requires scan { IsScanOf text.now scan.now }
    requires roles { roles.now ≡ roles_of text.now scan.now.tokens.list }
    ensures are { IfOk result (λ runs. runs ≡ file_runs text.now scan.now) }
    ensures lie { IfOk result (λ runs. All (UnitRunsLieIn text.now) runs.units) }
{
    let roles = roles.as_slice();
    let mut units = Vec::with_capacity(alloc, scan.units.len() as usize)?;
    for number in 0..scan.units.len() {
        let unit = unit_at(text, scan, roles, number);
        units.push(unit_runs(alloc, text, &scan.tokens, roles, unit)?)?;
    }
    Ok(FileFacts {
        units: Items::from_vec(units),
        same_sim: asks_same_sim(text, &scan.tokens),
    })
}
