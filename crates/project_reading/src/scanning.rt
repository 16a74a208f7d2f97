//! The outlines of the files of a project, or the refusal of the first file that has a fault.

ghost use Rattle.std.specs.Prelude.{◌≡◌, ◌≤◌, ℕ, length, IfOk};
ghost use Rattle.vhdl_spec.specs.Units.{AreTokensOf, roles_of};
ghost use Rattle.order.specs.LinkedGraph.{FitTexts};
ghost use Rattle.project_reading.specs.Sources.{ReadCounts};
ghost use Rattle.project_reading.specs.Scanning.{GivesOutlines, GivesScan};

use crate::stops::ReadStop;
use base::{
    FileName, LexFault, NoMemory, OrMemory, ProjectFile, RoleList, Scan, TEXT_LIMIT, Text, Tokens,
    UnitFault,
};
use base_outcomes::Refusal;
use std::alloc::Global;
use vhdl_lex::{no_tokens, scan_with_roles};
use vhdl_outline::Outlines;
use vhdl_units::outline;

/// A refusal of a file for a lexical fault.
fn lexical(alloc: Global, file: &FileName, fault: LexFault) -> Result<Refusal, NoMemory>
    ensures { IfOk result (λ refusal. refusal ≡ Refusal.Lex file.now fault) }
{
    Ok(Refusal::Lex {
        file: file.copy(alloc)?,
        fault,
    })
}

/// A refusal of a file for a fault of the unit grammar.
fn grammatical(alloc: Global, file: &FileName, fault: UnitFault) -> Result<Refusal, NoMemory>
    ensures { IfOk result (λ refusal. refusal ≡ Refusal.Units file.now fault) }
{
    Ok(Refusal::Units {
        file: file.copy(alloc)?,
        fault,
    })
}

/// The scan of a file whose tokens are known with their roles, or its refusal for a fault of the unit grammar.
fn scan_units(
    alloc: Global,
    file: &FileName,
    text: &[u8],
    tokens: Tokens,
    roles: &RoleList,
) -> Result<Scan, ReadStop>
    requires tokens { AreTokensOf text.now tokens }
    requires small { length text.now ≤ TEXT_LIMIT }
    requires roles { roles.now ≡ roles_of text.now tokens.list }
    ensures scan { GivesScan file.now text.now result }
    ensures tokens { IfOk result (λ scan. scan.tokens ≡ tokens) }
    ensures cause { (count : ℕ) → ReadCounts result count count }
{
    match outline(alloc, text, &tokens, roles) {
        Ok(units) => Ok(Scan { tokens, units }),
        Err(OrMemory::NoMemory) => Err(ReadStop::NoMemory),
        Err(OrMemory::Fault(fault)) => Err(ReadStop::Refused(grammatical(alloc, file, fault)?)),
    }
}

/// The scan of a file, in the memory of tokens that aren't used any more, and the roles of its tokens; or its refusal for
/// its lexical fault or its fault of the unit grammar.
fn scan_file(
    alloc: Global,
    file: &FileName,
    text: &[u8],
    roles: &mut RoleList,
    used: Tokens,
) -> Result<Scan, ReadStop>
    requires { length text.now ≤ TEXT_LIMIT }
    ensures scan { GivesScan file.now text.now result }
    ensures roles { IfOk result (λ scan. roles.new ≡ roles_of text.now scan.tokens.list) }
    ensures cause { (count : ℕ) → ReadCounts result count count }
{
    match scan_with_roles(alloc, text, roles, used) {
        Ok(tokens) => scan_units(alloc, file, text, tokens, roles),
        Err(OrMemory::NoMemory) => Err(ReadStop::NoMemory),
        Err(OrMemory::Fault(fault)) => Err(ReadStop::Refused(lexical(alloc, file, fault)?)),
    }
}

/// The outlines of the files of a project, in project order; or the refusal of the first file that has a fault. Tokens
/// take no more memory than those of one file do.
pub(crate) fn scan_all(
    alloc: Global,
    files: &[ProjectFile],
    texts: &[Text],
) -> Result<Outlines, ReadStop>
    requires fit { FitTexts files.now texts.now }
    ensures outlines { GivesOutlines files.now texts.now result }
    ensures cause { (count : ℕ) → ReadCounts result count count }
{
    let mut outlines = Outlines::new(alloc);
    let mut roles = RoleList::new(alloc);
    let mut used = no_tokens(alloc);
    for i in 0..files.len() {
        let text = texts[i].bytes();
        let scan = scan_file(alloc, &files[i].name, text, &mut roles, used)?;
        used = outlines.push(alloc, text, scan, &roles)?;
    }
    Ok(outlines)
}
