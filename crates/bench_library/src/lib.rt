//! The calls that benches measure, as a static library for C. It serves measurement alone: nothing of the program uses
//! it, so it hands out counts and no tokens or units. A caller in C must hand over at most 4,194,304 bytes.
#![tactic(auto)]

mod graphs;
mod known_runs;
mod scopes;

ghost use Rattle.std.specs.Prelude.{◌≡◌, ◌≤◌, ◌%◌, ◌^◌, IfOk, false, length, true};
ghost use Rattle.vhdl_spec.specs.Scans.{IsScanOf};
ghost use Rattle.vhdl_spec.specs.Units.{AreTokensOf, roles_of};
ghost use Rattle.bench_library.specs.Graphs.{HasSources, IsTold};
ghost use Rattle.bench_library.specs.Projects.{HasScans, HasSight};
ghost use Rattle.bench_library.specs.Counts.{HasTokens, HasUnits, HasLexicalFault, IsFaulty, IsReferred, ref_count};

use crate::graphs::{Graphed, sources_of, told_of};
use crate::known_runs::{Known, disk_of, known_of};
use crate::scopes::{first_sees, scan_files};
use base::{NoMemory, OrMemory, RoleList, Scan, TEXT_LIMIT, Tokens};
use std::alloc::Global;
use vhdl_lex::{no_tokens, scan_with_roles};
use vhdl_outline::find_refs;
use vhdl_units::outline;

/// The result of a scan. If `whole` is true, the text was cut into tokens and line comments, and they are counted. If
/// `faulty` is true, it has a lexical fault. If both are false, memory ran out.
#[derive(Clone, Copy)]
#[repr(C)]
pub struct Scanned {
    pub whole: bool,
    pub faulty: bool,
    pub tokens: u64,
    pub comments: u64,
}

/// The result of a scan and the outline of its tokens. If `whole` is true, the text has an outline, and `units` is how many
/// units it has. If `faulty` is true, it has a lexical fault or one of the unit grammar. If both are false, memory ran out.
#[derive(Clone, Copy)]
#[repr(C)]
pub struct Outlined {
    pub whole: bool,
    pub faulty: bool,
    pub units: u64,
}

/// The result of a scan, the outline of its tokens and the references of its units. If `whole` is true, the text has an
/// outline, and `refs` is how many references its units have together, modulo 2^64. If `faulty` is true, it has a lexical
/// fault or one of the unit grammar. If both are false, memory ran out.
#[derive(Clone, Copy)]
#[repr(C)]
pub struct Referred {
    pub whole: bool,
    pub faulty: bool,
    pub refs: u64,
}

/// Scans a text of at most 4,194,304 bytes. C declares it as
/// `void bench_scan(const uint8_t *text, size_t length, struct scanned *out)`.
#[unsafe(no_mangle)]
pub extern "C" fn bench_scan(alloc: Global, text: &[u8], out: &mut Scanned)
    requires { length text.now ≤ TEXT_LIMIT }
    ensures whole { out.new.whole ≡ true → HasTokens text.now out.new.tokens out.new.comments }
    ensures faulty { out.new.faulty ≡ true → HasLexicalFault text.now }
{
    let mut roles = RoleList::new(alloc);
    let scan = scan_with_roles(alloc, text, &mut roles, no_tokens(alloc));
    let (whole, faulty, tokens, comments) = match scan {
        Ok(tokens) => (true, false, tokens.list.len(), tokens.comments.len()),
        Err(OrMemory::NoMemory) => (false, false, 0, 0),
        Err(OrMemory::Fault(_fault)) => (false, true, 0, 0),
    };
    *out = Scanned {
        whole,
        faulty,
        tokens,
        comments,
    };
}

/// Scans and outlines a text of at most 4,194,304 bytes. C declares it as
/// `void bench_outline(const uint8_t *text, size_t length, struct outlined *out)`.
#[unsafe(no_mangle)]
pub extern "C" fn bench_outline(alloc: Global, text: &[u8], out: &mut Outlined)
    requires { length text.now ≤ TEXT_LIMIT }
    ensures whole { out.new.whole ≡ true → HasUnits text.now out.new.units }
    ensures faulty { out.new.faulty ≡ true → IsFaulty text.now }
{
    let mut roles = RoleList::new(alloc);
    let scan = scan_with_roles(alloc, text, &mut roles, no_tokens(alloc));
    let (whole, faulty, units) = match scan {
        Ok(tokens) => match outline(alloc, text, &tokens, &roles) {
            Ok(units) => (true, false, units.len()),
            Err(OrMemory::NoMemory) => (false, false, 0),
            Err(OrMemory::Fault(_fault)) => (false, true, 0),
        },
        Err(OrMemory::NoMemory) => (false, false, 0),
        Err(OrMemory::Fault(_fault)) => (false, true, 0),
    };
    *out = Outlined {
        whole,
        faulty,
        units,
    };
}

/// The number of references of all units together, modulo 2^64.
fn count_refs(alloc: Global, text: &[u8], scan: &Scan, roles: &RoleList) -> Result<u64, NoMemory>
    requires scan { IsScanOf text.now scan.now }
    requires small { length text.now ≤ TEXT_LIMIT }
    requires roles { roles.now ≡ roles_of text.now scan.now.tokens.list }
    ensures { IfOk result (λ count. count ≡ ref_count text.now scan.now % 2 ^ 64) }
{
    let mut count = 0;
    for unit in 0..scan.units.len() {
        let refs = find_refs(alloc, text, scan, roles, unit as u32)?;
        count = refs.len().wrapping_add(count);
    }
    Ok(count)
}

/// The result when memory ran out.
fn unknown() -> Referred
    ensures { result ≡ record { whole = false; faulty = false; refs = 0 } }
{
    Referred {
        whole: false,
        faulty: false,
        refs: 0,
    }
}

/// The result for a text with a fault.
fn fault_found() -> Referred
    ensures { result ≡ record { whole = false; faulty = true; refs = 0 } }
{
    Referred {
        whole: false,
        faulty: true,
        refs: 0,
    }
}

/// The references of a scan.
fn refer(alloc: Global, text: &[u8], scan: &Scan, roles: &RoleList) -> Referred
    requires scan { IsScanOf text.now scan.now }
    requires small { length text.now ≤ TEXT_LIMIT }
    requires roles { roles.now ≡ roles_of text.now scan.now.tokens.list }
    ensures { IsReferred text.now result }
{
    match count_refs(alloc, text, scan, roles) {
        Ok(refs) => Referred {
            whole: true,
            faulty: false,
            refs,
        },
        Err(_none) => unknown(),
    }
}

/// The references of a text whose tokens are known with their roles.
fn refer_tokens(alloc: Global, text: &[u8], tokens: Tokens, roles: &RoleList) -> Referred
    requires tokens { AreTokensOf text.now tokens }
    requires small { length text.now ≤ TEXT_LIMIT }
    requires roles { roles.now ≡ roles_of text.now tokens.list }
    ensures { IsReferred text.now result }
{
    match outline(alloc, text, &tokens, roles) {
        Ok(units) => refer(alloc, text, &Scan { tokens, units }, roles),
        Err(OrMemory::NoMemory) => unknown(),
        Err(OrMemory::Fault(_fault)) => fault_found(),
    }
}

/// The references of a text.
fn refer_text(alloc: Global, text: &[u8]) -> Referred
    requires { length text.now ≤ TEXT_LIMIT }
    ensures { IsReferred text.now result }
{
    let mut roles = RoleList::new(alloc);
    match scan_with_roles(alloc, text, &mut roles, no_tokens(alloc)) {
        Ok(tokens) => refer_tokens(alloc, text, tokens, &roles),
        Err(OrMemory::NoMemory) => unknown(),
        Err(OrMemory::Fault(_fault)) => fault_found(),
    }
}

/// Scans and outlines a text of at most 4,194,304 bytes, and finds the references of each unit. C declares it as
/// `void bench_refs(const uint8_t *text, size_t length, struct referred *out)`.
#[unsafe(no_mangle)]
pub extern "C" fn bench_refs(alloc: Global, text: &[u8], out: &mut Referred)
    requires { length text.now ≤ TEXT_LIMIT }
    ensures { IsReferred text.now out.new }
{
    *out = refer_text(alloc, text);
}

/// The result for a project: whether there is an answer, and whether its first unit sees a library.
#[derive(Clone, Copy)]
#[repr(C)]
pub struct Seen {
    pub whole: bool,
    pub sees: bool,
}

/// Scans and outlines each file of a project, which is one text with the places where its files end, all of library `l`,
/// and keeps what later passes ask of it. There is no answer if the places don't rise within the text, if a file is longer
/// than 4,194,304 bytes or has a fault, or if memory ran out. C declares it as
/// `void bench_files(const uint8_t *text, size_t length, const size_t *ends, size_t count, struct seen *out)`.
#[unsafe(no_mangle)]
pub extern "C" fn bench_files(alloc: Global, text: &[u8], ends: &[usize], out: &mut Seen)
    ensures { out.new.whole ≡ true → HasScans text.now ends.now }
{
    let whole = match scan_files(alloc, text, ends) {
        Ok(_done) => true,
        Err(_nothing) => false,
    };
    *out = Seen { whole, sees: false };
}

/// The same, and the visible libraries of all units. It answers whether the first unit of the first file sees a library. C declares it as
/// `void bench_scopes(const uint8_t *text, size_t length, const size_t *ends, size_t count, const uint8_t *library,
/// size_t library_length, struct seen *out)`.
#[unsafe(no_mangle)]
pub extern "C" fn bench_scopes(
    alloc: Global,
    text: &[u8],
    ends: &[usize],
    library: &[u8],
    out: &mut Seen,
)
    ensures { out.new.whole ≡ true → HasSight text.now ends.now library.now out.new.sees }
{
    let (whole, sees) = match first_sees(alloc, text, ends, library) {
        Ok(sees) => (true, sees),
        Err(_nothing) => (false, false),
    };
    *out = Seen { whole, sees };
}

/// The result for the sources of a project: whether they could be read, and if so, how many files they have.
#[derive(Clone, Copy)]
#[repr(C)]
pub struct Sourced {
    pub whole: bool,
    pub files: u64,
}

/// Reads a project file and makes the texts of its files, which is what `bench_graph` does first, and no more. C declares
/// it as `void bench_sources(const uint8_t *csv, size_t csv_length, const uint8_t *text, size_t length,
/// const size_t *ends, size_t count, struct sourced *out)`.
#[unsafe(no_mangle)]
pub extern "C" fn bench_sources(
    alloc: Global,
    csv: &[u8],
    text: &[u8],
    ends: &[usize],
    out: &mut Sourced,
)
    ensures { out.new.whole ≡ true → HasSources csv.now text.now ends.now out.new.files }
{
    let (whole, files) = match sources_of(alloc, csv, text, ends) {
        Ok(sources) => (true, sources.texts.len()),
        Err(_nothing) => (false, 0),
    };
    *out = Sourced { whole, files };
}

/// Scans and outlines the files of a project, and puts them into a graph by their references. The project is a project file
/// of at most 2,147,483,647 bytes, which lists its files, and one text with the places where they end. There is no answer:
///
/// - if the project file is too long or has a fault, or its files aren't as many as the places;
/// - if the places don't rise within the text;
/// - if there are more files than a graph has, or a name or a text is too long;
/// - if a file has a fault or its names can't be linked;
/// - if memory ran out.
///
/// C declares it as
/// `void bench_graph(const uint8_t *csv, size_t csv_length, const uint8_t *text, size_t length, const size_t *ends,
/// size_t count, struct graphed *out)`.
#[unsafe(no_mangle)]
pub extern "C" fn bench_graph(
    alloc: Global,
    csv: &[u8],
    text: &[u8],
    ends: &[usize],
    out: &mut Graphed,
)
    ensures whole { out.new.whole ≡ true → IsTold csv.now text.now ends.now out.new }
    ensures cyclic { out.new.cyclic ≡ true → IsTold csv.now text.now ends.now out.new }
{
    *out = match told_of(alloc, csv, text, ends) {
        Ok(told) => told,
        Err(_nothing) => Graphed {
            whole: false,
            cyclic: false,
            files: 0,
            deps: 0,
        },
    };
}

/// Makes a disk in memory whose side A has these bytes, which is what `bench_passes` does first, and no more. C declares it as
/// `void bench_side(const uint8_t *side, size_t length, struct known *out)`.
#[unsafe(no_mangle)]
pub extern "C" fn bench_side(alloc: Global, side: &[u8], out: &mut Known) {
    *out = Known {
        whole: disk_of(alloc, side).is_ok(),
        runs: 0,
    };
}

/// Opens the store of passes of such a disk, and starts a list of files. Then it asks, a number of times, which runs of cases are known
/// with the simulator `ghdl`. The files are of library `l`: for each a path of 8 bytes and an artefact of 8,192. The names of cases have
/// 8 bytes each. There is no answer if memory ran out. C declares it as
/// `void bench_passes(const uint8_t *side, size_t length, const uint8_t *files, size_t files_length, const uint8_t *names,
/// size_t names_length, uint64_t times, struct known *out)`.
#[unsafe(no_mangle)]
pub extern "C" fn bench_passes(
    alloc: Global,
    side: &[u8],
    files: &[u8],
    names: &[u8],
    times: u64,
    out: &mut Known,
) {
    let (whole, runs) = match known_of(alloc, side, files, names, times) {
        Ok(runs) => (true, runs),
        Err(_fault) => (false, 0),
    };
    *out = Known { whole, runs };
}
