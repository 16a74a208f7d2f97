//! The compiler that is part of the program.

ghost use Rattle.std.specs.Prelude.{◌≡◌, ◌≤◌, ℕ, List, IfOk, IfSome, MatchOption, None, Some, length};
ghost use Rattle.vhdl_spec.specs.Scans.{Finding, IsScanOf, IsScanner};
ghost use Rattle.vhdl_spec.specs.Units.{AreTokensOf, roles_of};
ghost use Rattle.child_compile_request.specs.Jobs.{IsJob};
ghost use Rattle.child_compile_request.specs.Reading.{job_at};
ghost use Rattle.child_tools.specs.Answers.{analysis, answer, linked, scripted};
ghost use Rattle.child_tools.specs.Artefacts.{artefact_of};
ghost use Rattle.child_tools.specs.Exports.{wanted_units};
ghost use Rattle.child_tools.specs.Found.{IsFoundClean};

use crate::answers::{artefact_exit, no_unit, not_vhdl, refusal_exit};
use crate::artefacts::artefact_of;
use crate::exports::first_missing;
use crate::scripts::first_refusal;
use crate::wanted::wanted_units;
use base::{Exit, NoMemory, OrMemory, RoleList, Scan, TEXT_LIMIT, Text, Tokens};
use child_compile_request::{CompileJob, laws_of_jobs, read_compile_request};
use child_lines::bad_request;
use std::alloc::Global;
use vhdl_lex::{no_tokens, scan_with_roles};
use vhdl_units::{UnitKey, outline};

/// The answer to a file that wants some units, and of which an artefact would be made.
#[tactic(auto, unfolding(crate::specs::Answers::linked))]
fn link(
    alloc: Global,
    job: &CompileJob,
    artefact: Text,
    units: &[UnitKey],
) -> Result<Exit, NoMemory>
    ensures { IfOk result (λ exit. exit ≡ linked job.now artefact units.now) }
{
    let files = job.deps.as_slice();
    let missing = first_missing(alloc, units, files, &job.name.library, artefact.bytes())?;
    match missing {
        Some(unit) => no_unit(alloc, &job.name, unit),
        None => artefact_exit(alloc, artefact),
    }
}

/// The answer to a file whose comments refuse nothing.
fn link_scan(
    alloc: Global,
    job: &CompileJob,
    scan: &Scan,
    roles: &RoleList,
) -> Result<Exit, NoMemory>
    requires scan { IsScanOf job.now.text scan.now }
    requires small { length job.now.text ≤ TEXT_LIMIT }
    requires roles { roles.now ≡ roles_of job.now.text scan.now.tokens.list }
    ensures { IfOk result (λ exit. exit ≡ linked job.now (artefact_of job.now.text scan.now)
        (wanted_units job.now.name.library job.now.text scan.now)) }
{
    let text = job.text.bytes();
    let artefact = artefact_of(alloc, text, scan)?;
    let units = wanted_units(alloc, &job.name.library, text, scan, roles)?;
    link(alloc, job, artefact, units.as_slice())
}

/// The answer to a file by its scan.
#[tactic(auto, unfolding(crate::specs::Answers::scripted))]
fn answer_scan(
    alloc: Global,
    job: &CompileJob,
    scan: &Scan,
    roles: &RoleList,
) -> Result<Exit, NoMemory>
    requires scan { IsScanOf job.now.text scan.now }
    requires small { length job.now.text ≤ TEXT_LIMIT }
    requires roles { roles.now ≡ roles_of job.now.text scan.now.tokens.list }
    ensures { IfOk result (λ exit. exit ≡ scripted job.now scan.now) }
{
    match first_refusal(job.text.bytes(), &scan.tokens) {
        Some(line) => refusal_exit(alloc, line),
        None => link_scan(alloc, job, scan, roles),
    }
}

/// The scan of a text by its tokens, or none where it has a fault of its units.
fn scan_units(
    alloc: Global,
    text: &[u8],
    tokens: Tokens,
    roles: &RoleList,
) -> Result<Option<Scan>, NoMemory>
    requires tokens { AreTokensOf text.now tokens }
    requires small { length text.now ≤ TEXT_LIMIT }
    requires roles { roles.now ≡ roles_of text.now tokens.list }
    ensures scan { IfOk result (IsFoundClean text.now) }
    ensures tokens { IfOk result (λ scan. IfSome scan (λ scan. scan.tokens ≡ tokens)) }
{
    match outline(alloc, text, &tokens, roles) {
        Ok(units) => Ok(Some(Scan { tokens, units })),
        Err(OrMemory::NoMemory) => Err(NoMemory),
        Err(OrMemory::Fault(_fault)) => Ok(None),
    }
}

/// The scan of a text and the roles of its tokens, or none where it has a fault.
fn scan_text(alloc: Global, text: &[u8], roles: &mut RoleList) -> Result<Option<Scan>, NoMemory>
    requires { length text.now ≤ TEXT_LIMIT }
    ensures scan { IfOk result (IsFoundClean text.now) }
    ensures roles { IfOk result
        (λ scan. IfSome scan (λ scan. roles.new ≡ roles_of text.now scan.tokens.list)) }
{
    match scan_with_roles(alloc, text, roles, no_tokens(alloc)) {
        Ok(tokens) => scan_units(alloc, text, tokens, roles),
        Err(OrMemory::NoMemory) => Err(NoMemory),
        Err(OrMemory::Fault(_fault)) => Ok(None),
    }
}

/// The answer to a file.
#[tactic(auto, unfolding(crate::specs::Answers::answer_by))]
fn answer(alloc: Global, job: &CompileJob) -> Result<Exit, NoMemory>
    requires { length job.now.text ≤ TEXT_LIMIT }
    ensures { (scan : List ℕ → Finding) → IsScanner scan →
        IfOk result (λ exit. exit ≡ answer scan job.now) }
{
    let mut roles = RoleList::new(alloc);
    match scan_text(alloc, job.text.bytes(), &mut roles)? {
        Some(scan) => answer_scan(alloc, job, &scan, &roles),
        None => not_vhdl(alloc, &job.name),
    }
}

/// The job whose request an input is, if it is one.
fn job_of(alloc: Global, input: &[u8]) -> Result<Option<CompileJob>, NoMemory>
    ensures is { IfOk result (λ job. MatchOption job
        (job_at input.now ≡ None) (λ job. job_at input.now ≡ Some job)) }
    ensures fits { IfOk result (λ job. IfSome job IsJob) }
{
    laws_of_jobs();
    let job = read_compile_request(alloc, input)?;
    Ok(job)
}

/// What a compiler child that is part of the program answers to its input, whatever its bytes: an exit code, an output
/// and no results. A request has the first of these answers that applies:
///
/// - 1 and a line, if its file isn't VHDL;
/// - 1 and a line, if a comment of the file begins with `-- child: refuse `;
/// - 1 and a line, if a strict reference names a unit that no artefact exports, its own included;
/// - 1 and a line, if its artefact would have more than 262,144 bytes;
/// - 0 and the artefact.
///
/// The answer to any other input is 2 and `bad request`.
#[tactic(auto, unfolding(crate::specs::Answers::analysis))]
pub fn analyse(alloc: Global, input: &[u8]) -> Result<Exit, NoMemory>
    // `scan` gives each text what is found in it: its tokens and units, or its fault.
    ensures { (scan : List ℕ → Finding) → IsScanner scan →
        IfOk result (λ exit. exit ≡ analysis scan input.now) }
{
    match job_of(alloc, input)? {
        Some(job) => answer(alloc, &job),
        None => bad_request(alloc),
    }
}
