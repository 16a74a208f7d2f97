//! Texts, and what a build answers.

ghost use Rattle.std.specs.Prelude.{◌≡◌, ◌≤◌, ◌++◌, length, IfOk, OnOk};
ghost use Rattle.std.specs.List.{list_any, flat_map};
ghost use Rattle.std.specs.Fmt.{decimal};
ghost use Rattle.run_spec.specs.Statuses.{is_refused, is_compiled, refused_files};
ghost use Rattle.report.specs.Texts.{line_end, shown, shown_bytes, compiling, passed, failed, skipped, file_text, files_text, build_line, build_text, refusal_words, refusal_text, program, no_project, file_words, is_absent, limit_words, over_limit, limit_text, lex_words, unit_words, unclosed_string, unclosed_extended, unclosed_comment, no_unit, not_ended, both_files, unit_name, missing_unit, no_architecture, missing_architecture, cycle_line, cycle_word, use_of_all, warning_word, warning_line, warning_of, warning_text, compile_failed, compile_passed, not_needed};
ghost use Rattle.report.specs.Outcomes.{build_outcome};

use crate::faults::{put_fault, put_test_fault};
use base::{
    Entry, FileList, FileName, Graph, LexFault, NoMemory, Project, ProjectFileList, Text,
    UnitFault, Warning, WarningList,
};
use base_outcomes::{Limit, Outcome, Refusal};
use run_spec::{FileStatus, FileStatusList};
use std::alloc::Global;

/// How much of what a child printed is shown.
const SHOWN_BYTES: usize = 4096;

pub(crate) fn put(out: &mut Vec<u8>, bytes: &[u8]) -> Result<(), NoMemory>
    ensures { OnOk result (out.new.items ≡ out.old.items ++ bytes.now) }
{
    out.extend_from_slice(bytes)?;
    Ok(())
}

fn put_line_end(out: &mut Vec<u8>, line: &[u8]) -> Result<(), NoMemory>
    ensures { OnOk result (out.new.items ≡ out.old.items ++ line_end line.now) }
{
    if line.len() == 0 || line[line.len() - 1] == b'\n' {
        return Ok(());
    }
    put(out, b"\n")
}

fn put_shown(out: &mut Vec<u8>, limit: usize, output: &[u8]) -> Result<(), NoMemory>
    ensures { OnOk result (out.new.items ≡ out.old.items ++ shown limit output.now) }
{
    let prefix = &output[..limit.min(output.len())];
    put(out, prefix)?;
    put_line_end(out, prefix)?;
    Ok(())
}

#[tactic(auto, unfolding(crate::specs::Texts::compiling))]
fn put_compiling(out: &mut Vec<u8>, entry: &Entry) -> Result<(), NoMemory>
    ensures { OnOk result (out.new.items ≡ out.old.items ++ compiling entry.now) }
{
    put(out, b"Compiling into ")?;
    put(out, entry.name.library.bytes())?;
    put(out, b": ")?;
    put(out, entry.name.path.bytes())?;
    Ok(())
}

#[tactic(auto, unfolding(crate::specs::Texts::passed))]
fn put_passed(out: &mut Vec<u8>) -> Result<(), NoMemory>
    ensures { OnOk result (out.new.items ≡ out.old.items ++ passed) }
{
    put(out, b" passed\n")
}

#[tactic(auto, unfolding(crate::specs::Texts::failed))]
fn put_failed(out: &mut Vec<u8>) -> Result<(), NoMemory>
    ensures { OnOk result (out.new.items ≡ out.old.items ++ failed) }
{
    put(out, b" failed\n")
}

#[tactic(auto, unfolding(crate::specs::Texts::skipped))]
fn put_skipped(out: &mut Vec<u8>) -> Result<(), NoMemory>
    ensures { OnOk result (out.new.items ≡ out.old.items ++ skipped) }
{
    put(out, b" skipped\n")
}

fn put_file(
    out: &mut Vec<u8>,
    limit: usize,
    entry: &Entry,
    status: &FileStatus,
) -> Result<(), NoMemory>
    ensures { OnOk result (out.new.items ≡ out.old.items ++ file_text limit entry.now status.now) }
{
    match status {
        FileStatus::Fresh => Ok(()),
        FileStatus::Compiled => {
            put_compiling(out, entry)?;
            put_passed(out)?;
            Ok(())
        }
        FileStatus::Refused { code: _, output } => {
            put_compiling(out, entry)?;
            put_failed(out)?;
            put_shown(out, limit, output.bytes())?;
            Ok(())
        }
        FileStatus::Skipped => {
            put_compiling(out, entry)?;
            put_skipped(out)?;
            Ok(())
        }
        FileStatus::Left => Ok(()),
    }
}

fn put_files(
    out: &mut Vec<u8>,
    limit: usize,
    entries: &[Entry],
    statuses: &[FileStatus],
) -> Result<(), NoMemory>
    requires { length statuses.now ≡ length entries.now }
    ensures { OnOk result
        (out.new.items ≡ out.old.items ++ files_text limit entries.now statuses.now) }
{
    for i in 0..entries.len() {
        put_file(out, limit, &entries[i], &statuses[i])?;
    }
    Ok(())
}

fn is_refused(status: &FileStatus) -> bool
    ensures { result ≡ is_refused status.now }
{
    matches!(status, FileStatus::Refused { .. })
}

fn is_compiled(status: &FileStatus) -> bool
    ensures { result ≡ is_compiled status.now }
{
    matches!(status, FileStatus::Compiled)
}

fn any_refused(statuses: &[FileStatus]) -> bool
    ensures { result ≡ list_any is_refused statuses.now }
{
    statuses.iter().any(|status| is_refused(status))
}

fn any_compiled(statuses: &[FileStatus]) -> bool
    ensures { result ≡ list_any is_compiled statuses.now }
{
    statuses.iter().any(|status| is_compiled(status))
}

#[tactic(auto, unfolding(crate::specs::Texts::compile_failed, crate::specs::Texts::compile_passed, crate::specs::Texts::not_needed))]
fn put_build_line(out: &mut Vec<u8>, statuses: &[FileStatus]) -> Result<(), NoMemory>
    ensures { OnOk result (out.new.items ≡ out.old.items ++ build_line statuses.now) }
{
    if any_refused(statuses) {
        return put(out, b"Compile failed\n");
    }
    if any_compiled(statuses) {
        return put(out, b"Compile passed\n");
    }
    put(out, b"Re-compile not needed\n")
}

/// What is put of a build: a line for each file that was started, in compile order, and a line for the whole.
pub fn build_text(alloc: Global, graph: &Graph, statuses: &FileStatusList) -> Result<Text, NoMemory>
    requires { length statuses.now ≡ length graph.now }
    ensures { IfOk result (λ text. text ≡ build_text shown_bytes graph.now statuses.now) }
{
    let mut text = Vec::new(alloc);
    put_files(
        &mut text,
        SHOWN_BYTES,
        graph.as_slice(),
        statuses.as_slice(),
    )?;
    put_build_line(&mut text, statuses.as_slice())?;
    Ok(Text::from_vec(text))
}

fn files_refused(
    alloc: Global,
    entries: &[Entry],
    statuses: &[FileStatus],
) -> Result<FileList, NoMemory>
    requires { length statuses.now ≡ length entries.now }
    ensures { IfOk result (λ files. files ≡ refused_files entries.now statuses.now) }
{
    let mut files = FileList::new(alloc);
    for i in 0..entries.len() {
        let entry = &entries[i];
        if is_refused(&statuses[i]) {
            files.push(entry.name.copy(alloc)?)?;
        }
    }
    Ok(files)
}

/// What a build answers: done, or the files that the compiler refused, in compile order.
pub fn build_outcome(
    alloc: Global,
    graph: &Graph,
    statuses: &FileStatusList,
) -> Result<Outcome, NoMemory>
    requires { length statuses.now ≡ length graph.now }
    ensures { IfOk result (λ outcome. outcome ≡ build_outcome graph.now statuses.now) }
{
    if !any_refused(statuses.as_slice()) {
        return Ok(Outcome::Done);
    }
    let files = files_refused(alloc, graph.as_slice(), statuses.as_slice())?;
    Ok(Outcome::Refused(Refusal::Compiler { files }))
}

#[tactic(auto, unfolding(crate::specs::Texts::file_words))]
pub(crate) fn put_file_words(out: &mut Vec<u8>, file: &FileName) -> Result<(), NoMemory>
    ensures { OnOk result (out.new.items ≡ out.old.items ++ file_words file.now) }
{
    put(out, file.library.bytes())?;
    put(out, b", ")?;
    put(out, file.path.bytes())?;
    Ok(())
}

/// Puts words, and a number after them.
pub(crate) fn put_at(
    alloc: Global,
    out: &mut Vec<u8>,
    words: &[u8],
    at: u32,
) -> Result<(), NoMemory>
    ensures { OnOk result (out.new.items ≡ out.old.items ++ (words.now ++ decimal at)) }
{
    put(out, words)?;
    put(out, at.to_string(alloc)?.as_bytes())?;
    Ok(())
}

#[tactic(auto, unfolding(crate::specs::Texts::unclosed_string, crate::specs::Texts::unclosed_extended, crate::specs::Texts::unclosed_comment))]
fn put_lex_fault(alloc: Global, out: &mut Vec<u8>, fault: &LexFault) -> Result<(), NoMemory>
    ensures { OnOk result (out.new.items ≡ out.old.items ++ lex_words fault.now) }
{
    match fault {
        LexFault::UnclosedString { at } => put_at(alloc, out, b": unclosed string at ", *at),
        LexFault::UnclosedExtended { at } => {
            put_at(alloc, out, b": unclosed extended identifier at ", *at)
        }
        LexFault::UnclosedComment { at } => put_at(alloc, out, b": unclosed comment at ", *at),
    }
}

#[tactic(auto, unfolding(crate::specs::Texts::no_unit, crate::specs::Texts::not_ended))]
fn put_unit_fault(alloc: Global, out: &mut Vec<u8>, fault: &UnitFault) -> Result<(), NoMemory>
    ensures { OnOk result (out.new.items ≡ out.old.items ++ unit_words fault.now) }
{
    match fault {
        UnitFault::NotUnit { at } => put_at(alloc, out, b": no design unit at ", *at),
        UnitFault::NotEnded { at } => put_at(alloc, out, b": design unit not ended at ", *at),
    }
}

#[tactic(auto, unfolding(crate::specs::Texts::both_files))]
fn put_both_files(out: &mut Vec<u8>, first: &FileName, second: &FileName) -> Result<(), NoMemory>
    ensures { OnOk result (out.new.items ≡ out.old.items ++ both_files first.now second.now) }
{
    put(out, b" stands in ")?;
    put_file_words(out, first)?;
    put(out, b" and ")?;
    put_file_words(out, second)?;
    Ok(())
}

#[tactic(auto, unfolding(crate::specs::Texts::unit_name))]
fn put_unit_name(out: &mut Vec<u8>, library: &[u8], unit: &[u8]) -> Result<(), NoMemory>
    ensures { OnOk result (out.new.items ≡ out.old.items ++ unit_name library.now unit.now) }
{
    put(out, library)?;
    put(out, b".")?;
    put(out, unit)?;
    Ok(())
}

#[tactic(auto, unfolding(crate::specs::Texts::missing_unit))]
fn put_missing_unit(
    out: &mut Vec<u8>,
    file: &FileName,
    library: &[u8],
    unit: &[u8],
) -> Result<(), NoMemory>
    ensures { OnOk result (out.new.items ≡
        out.old.items ++ (file_words file.now ++ missing_unit library.now unit.now)) }
{
    put_file_words(out, file)?;
    put(out, b": no unit ")?;
    put_unit_name(out, library, unit)?;
    Ok(())
}

#[tactic(auto, unfolding(crate::specs::Texts::no_architecture))]
fn put_no_architecture(out: &mut Vec<u8>) -> Result<(), NoMemory>
    ensures { OnOk result (out.new.items ≡ out.old.items ++ no_architecture) }
{
    put(out, b": no architecture ")
}

#[tactic(auto, unfolding(crate::specs::Texts::missing_architecture))]
fn put_missing_architecture(
    out: &mut Vec<u8>,
    file: &FileName,
    library: &[u8],
    entity: &[u8],
    architecture: &[u8],
) -> Result<(), NoMemory>
    ensures { OnOk result (out.new.items ≡
        out.old.items
        ++ (file_words file.now ++ missing_architecture library.now entity.now architecture.now)) }
{
    put_file_words(out, file)?;
    put_no_architecture(out)?;
    put(out, architecture)?;
    put(out, b" of ")?;
    put_unit_name(out, library, entity)?;
    Ok(())
}

#[tactic(auto, unfolding(crate::specs::Texts::cycle_line))]
fn put_cycle_line(out: &mut Vec<u8>, file: &FileName) -> Result<(), NoMemory>
    ensures { OnOk result (out.new.items ≡ out.old.items ++ cycle_line file.now) }
{
    put(out, b"\n")?;
    put(out, b"  ")?;
    put_file_words(out, file)?;
    Ok(())
}

fn put_cycle_lines(out: &mut Vec<u8>, files: &[FileName]) -> Result<(), NoMemory>
    ensures { OnOk result (out.new.items ≡ out.old.items ++ flat_map cycle_line files.now) }
{
    for i in 0..files.len() {
        put_cycle_line(out, &files[i])?;
    }
    Ok(())
}

#[tactic(auto, unfolding(crate::specs::Texts::cycle_word))]
fn put_cycle_word(out: &mut Vec<u8>) -> Result<(), NoMemory>
    ensures { OnOk result (out.new.items ≡ out.old.items ++ cycle_word) }
{
    put(out, b"cycle")
}

#[tactic(auto, unfolding(crate::specs::Texts::is_absent))]
fn put_absent(out: &mut Vec<u8>, file: &FileName) -> Result<(), NoMemory>
    ensures { OnOk result (out.new.items ≡ out.old.items ++ (file_words file.now ++ is_absent)) }
{
    put_file_words(out, file)?;
    put(out, b" is absent")?;
    Ok(())
}

fn put_lex(
    alloc: Global,
    out: &mut Vec<u8>,
    file: &FileName,
    fault: &LexFault,
) -> Result<(), NoMemory>
    ensures { OnOk result
        (out.new.items ≡ out.old.items ++ (file_words file.now ++ lex_words fault.now)) }
{
    put_file_words(out, file)?;
    put_lex_fault(alloc, out, fault)?;
    Ok(())
}

fn put_units(
    alloc: Global,
    out: &mut Vec<u8>,
    file: &FileName,
    fault: &UnitFault,
) -> Result<(), NoMemory>
    ensures { OnOk result
        (out.new.items ≡ out.old.items ++ (file_words file.now ++ unit_words fault.now)) }
{
    put_file_words(out, file)?;
    put_unit_fault(alloc, out, fault)?;
    Ok(())
}

fn put_duplicate(
    out: &mut Vec<u8>,
    unit: &Text,
    first: &FileName,
    second: &FileName,
) -> Result<(), NoMemory>
    ensures { OnOk result
        (out.new.items ≡ out.old.items ++ (unit.now ++ both_files first.now second.now)) }
{
    put(out, unit.bytes())?;
    put_both_files(out, first, second)?;
    Ok(())
}

fn put_cycle(out: &mut Vec<u8>, files: &[FileName]) -> Result<(), NoMemory>
    ensures { OnOk result
        (out.new.items ≡ out.old.items ++ (cycle_word ++ flat_map cycle_line files.now)) }
{
    put_cycle_word(out)?;
    put_cycle_lines(out, files)?;
    Ok(())
}

#[tactic(auto, unfolding(crate::specs::Texts::no_project))]
fn put_refusal(alloc: Global, out: &mut Vec<u8>, refusal: &Refusal) -> Result<(), NoMemory>
    ensures { OnOk result (out.new.items ≡ out.old.items ++ refusal_words refusal.now) }
{
    match refusal {
        Refusal::NoProject => put(out, b"no vunit.toml and no vunit.csv"),
        Refusal::Project { fault } => put_fault(alloc, out, fault),
        Refusal::AbsentFile { file } => put_absent(out, file),
        Refusal::Lex { file, fault } => put_lex(alloc, out, file, fault),
        Refusal::Units { file, fault } => put_units(alloc, out, file, fault),
        Refusal::DuplicateUnit {
            unit,
            first,
            second,
        } => put_duplicate(out, unit, first, second),
        Refusal::MissingUnit {
            file,
            library,
            unit,
        } => put_missing_unit(out, file, library.bytes(), unit.bytes()),
        Refusal::MissingArchitecture {
            file,
            library,
            entity,
            architecture,
        } => put_missing_architecture(
            out,
            file,
            library.bytes(),
            entity.bytes(),
            architecture.bytes(),
        ),
        Refusal::Cycle { files } => put_cycle(out, files.as_slice()),
        Refusal::Tests { fault } => put_test_fault(out, fault),
        Refusal::Compiler { files: _ } => Ok(()),
    }
}

/// What is put of a refusal that isn't the compiler's.
#[tactic(auto, unfolding(crate::specs::Texts::program))]
pub fn refusal_text(alloc: Global, refusal: &Refusal) -> Result<Text, NoMemory>
    ensures { IfOk result (λ text. text ≡ refusal_text refusal.now) }
{
    let mut text = Vec::new(alloc);
    put(&mut text, b"vunit_run: ")?;
    put_refusal(alloc, &mut text, refusal)?;
    put(&mut text, b"\n")?;
    Ok(Text::from_vec(text))
}

/// Puts the quantity that is over its limit.
#[tactic(auto, unfolding(crate::specs::Texts::limit_words))]
fn put_limit_words(out: &mut Vec<u8>, limit: Limit) -> Result<(), NoMemory>
    ensures { OnOk result (out.new.items ≡ out.old.items ++ limit_words limit) }
{
    match limit {
        Limit::Slots => put(out, b"slots "),
        Limit::Names => put(out, b"names "),
        Limit::Files => put(out, b"files "),
        Limit::TextBytes => put(out, b"text bytes "),
        Limit::TotalBytes => put(out, b"total bytes "),
        Limit::Tests => put(out, b"tests "),
    }
}

pub(crate) fn put_number(alloc: Global, out: &mut Vec<u8>, number: u64) -> Result<(), NoMemory>
    ensures { OnOk result (out.new.items ≡ out.old.items ++ decimal number) }
{
    put(out, number.to_string(alloc)?.as_bytes())
}

/// What is put where a quantity is over this limit.
#[tactic(auto, unfolding(crate::specs::Texts::program, crate::specs::Texts::over_limit, crate::specs::Texts::limit_text))]
pub fn limit_text(alloc: Global, limit: Limit, number: u64) -> Result<Text, NoMemory>
    ensures { IfOk result (λ text. text ≡ limit_text limit number) }
{
    let mut text = Vec::new(alloc);
    put(&mut text, b"vunit_run: ")?;
    put(&mut text, b"over limit: ")?;
    put_limit_words(&mut text, limit)?;
    put_number(alloc, &mut text, number)?;
    put(&mut text, b"\n")?;
    Ok(Text::from_vec(text))
}

#[tactic(auto, unfolding(crate::specs::Texts::use_of_all))]
fn put_use_of_all(out: &mut Vec<u8>, library: &[u8]) -> Result<(), NoMemory>
    ensures { OnOk result (out.new.items ≡ out.old.items ++ use_of_all library.now) }
{
    put(out, b": use of ")?;
    put(out, library)?;
    put(out, b".all gives no dependency")?;
    Ok(())
}

#[tactic(auto, unfolding(crate::specs::Texts::program, crate::specs::Texts::warning_word))]
fn put_warning(out: &mut Vec<u8>, file: &FileName, library: &[u8]) -> Result<(), NoMemory>
    ensures { OnOk result (out.new.items ≡ out.old.items ++ warning_line file.now library.now) }
{
    put(out, b"vunit_run: ")?;
    put(out, b"warning: ")?;
    put_file_words(out, file)?;
    put_use_of_all(out, library)?;
    put(out, b"\n")?;
    Ok(())
}

#[tactic(auto, unfolding(crate::specs::Texts::warning_of))]
fn put_warning_of(
    out: &mut Vec<u8>,
    files: &ProjectFileList,
    warning: &Warning,
) -> Result<(), NoMemory>
    ensures { OnOk result (out.new.items ≡ out.old.items ++ warning_of files.now warning.now) }
{
    if warning.file as u64 >= files.len() {
        return Ok(());
    }
    let file = files.get(warning.file as u64);
    put_warning(out, &file.name, warning.library.bytes())
}

/// What is put of the uses of whole libraries in the files of a project, which give no dependency: a line for each, in
/// order.
pub fn warning_text(
    alloc: Global,
    project: &Project,
    warnings: &WarningList,
) -> Result<Text, NoMemory>
    ensures { IfOk result (λ text. text ≡ warning_text project.now.files warnings.now) }
{
    let mut text = Vec::new(alloc);
    let warnings = warnings.as_slice();
    for i in 0..warnings.len() {
        put_warning_of(&mut text, &project.files, &warnings[i])?;
    }
    Ok(Text::from_vec(text))
}
