//! What is put of an empty build, of refusals, of a limit and of a warning.

ghost use Rattle.std.specs.Prelude.{◌≡◌, length};

use crate::lists::project_of;
use base::{
    FileList, FileName, Graph, LexFault, NoMemory, PairList, Project, ProjectFault, ProjectFile,
    ProjectFileList, Text, TextList, Warning, WarningList,
};
use base_outcomes::{Limit, Outcome, Refusal, TestFault};
use report::{build_outcome, build_text, limit_text, list_files, refusal_text, warning_text};
use run_spec::FileStatusList;
use std::alloc::Global;
use std::process::Abort;
use std::test::Fail;

fn name(alloc: Global, path: &[u8]) -> Result<FileName, NoMemory> {
    Ok(FileName {
        library: Text::from_slice(alloc, b"lib")?,
        path: Text::from_slice(alloc, path)?,
    })
}

fn is(bytes: &[u8], wanted: &[u8]) -> bool {
    bytes == wanted
}

fn is_built(alloc: Global, graph: &Graph, statuses: &FileStatusList) -> Result<bool, NoMemory>
    requires { length statuses.now ≡ length graph.now }
{
    let text = build_text(alloc, graph, statuses)?;
    Ok(is(text.bytes(), b"Re-compile not needed\n"))
}

fn is_done(alloc: Global, graph: &Graph, statuses: &FileStatusList) -> Result<bool, NoMemory>
    requires { length statuses.now ≡ length graph.now }
{
    Ok(matches!(build_outcome(alloc, graph, statuses)?, Outcome::Done))
}

#[test]
fn nothing_to_build_is_said(rt: HostRuntime) -> Result<(), Fail> {
    let graph = Graph::new(rt.alloc());
    let statuses = FileStatusList::new(rt.alloc());
    assert!(rt; is_built(rt.alloc(), &graph, &statuses)?);
    assert!(rt; is_done(rt.alloc(), &graph, &statuses)?);
    Ok(())
}

/// Whether bytes are those of a row, where a stroke is the end of a line.
fn are(bytes: &[u8], row: &[u8]) -> bool {
    if bytes.len() != row.len() {
        return false;
    }
    for i in 0..bytes.len() {
        let wanted = if row[i] == b'/' { b'\n' } else { row[i] };
        if bytes[i] != wanted {
            return false;
        }
    }
    true
}

fn text(alloc: Global, bytes: &[u8]) -> Result<Text, NoMemory> {
    Text::from_slice(alloc, bytes)
}

/// The refusals of a file or a unit, by a letter.
fn link_fault(alloc: Global, kind: u8) -> Result<Refusal, NoMemory> {
    match kind {
        b'a' => Ok(Refusal::AbsentFile {
            file: name(alloc, b"a.vhd")?,
        }),
        b'l' => Ok(Refusal::Lex {
            file: name(alloc, b"b.vhd")?,
            fault: LexFault::UnclosedString { at: 17 },
        }),
        b'd' => duplicate(alloc),
        b'u' => no_unit(alloc),
        b'r' => no_architecture(alloc),
        _ => cycle(alloc),
    }
}

fn duplicate(alloc: Global) -> Result<Refusal, NoMemory> {
    Ok(Refusal::DuplicateUnit {
        unit: text(alloc, b"lib.e(rtl)")?,
        first: name(alloc, b"a.vhd")?,
        second: name(alloc, b"b.vhd")?,
    })
}

fn no_unit(alloc: Global) -> Result<Refusal, NoMemory> {
    Ok(Refusal::MissingUnit {
        file: name(alloc, b"top.vhd")?,
        library: text(alloc, b"lib")?,
        unit: text(alloc, b"missing")?,
    })
}

fn no_architecture(alloc: Global) -> Result<Refusal, NoMemory> {
    Ok(Refusal::MissingArchitecture {
        file: name(alloc, b"top.vhd")?,
        library: text(alloc, b"lib")?,
        entity: text(alloc, b"e")?,
        architecture: text(alloc, b"rtl")?,
    })
}

fn cycle(alloc: Global) -> Result<Refusal, NoMemory> {
    let mut files = FileList::new(alloc);
    for path in ["c.vhd", "d.vhd", "e.vhd"] {
        files.push(name(alloc, path.as_bytes())?)?;
    }
    Ok(Refusal::Cycle { files })
}

/// The faults of a project file, by a digit, with a word in them.
fn fault(alloc: Global, kind: u8, word: &[u8]) -> Result<ProjectFault, NoMemory> {
    let text = text(alloc, word)?;
    match kind {
        b'1' => Ok(ProjectFault::NotToml),
        b'2' => Ok(ProjectFault::MissingKey { key: text }),
        b'3' => Ok(ProjectFault::WrongType { key: text }),
        b'4' => Ok(ProjectFault::WorkLibrary),
        b'5' => Ok(ProjectFault::DuplicateLibrary { name: text }),
        b'6' => Ok(ProjectFault::DuplicateFile {
            name: name(alloc, word)?,
        }),
        b'7' => Ok(ProjectFault::NothingMatches { pattern: text }),
        b'8' => Ok(ProjectFault::BadLine { line: 2 }),
        _ => Ok(ProjectFault::UnknownDependency {
            name: name(alloc, word)?,
        }),
    }
}

/// The faults of benches, by a letter, with a name in them.
fn test_fault(alloc: Global, kind: u8, word: &[u8]) -> Result<TestFault, NoMemory> {
    let text = text(alloc, word)?;
    match kind {
        b'T' => Ok(TestFault::TwoArchitectures { bench: text }),
        b'N' => Ok(TestFault::NoArchitecture { bench: text }),
        b'D' => Ok(TestFault::DuplicateTest { name: text }),
        _ => Ok(TestFault::BadName { bench: text }),
    }
}

fn refusal(alloc: Global, kind: u8, word: &[u8]) -> Result<Refusal, NoMemory> {
    match kind {
        b'1'..=b'9' => Ok(Refusal::Project {
            fault: fault(alloc, kind, word)?,
        }),
        b'A'..=b'Z' => Ok(Refusal::Tests {
            fault: test_fault(alloc, kind, word)?,
        }),
        _ => link_fault(alloc, kind),
    }
}

/// The text of a refusal. Only this function calls `refusal_text`.
fn text_of_outcome(alloc: Global, kind: u8, word: &[u8]) -> Result<Text, NoMemory> {
    let refusal = refusal(alloc, kind, word)?;
    refusal_text(alloc, &refusal)
}

/// Whether a refusal has the text of its line.
fn says(alloc: Global, line: &str) -> Result<bool, NoMemory> {
    match line.split_once('|') {
        Some((kind, wanted)) => {
            let kind = kind.as_bytes();
            if kind.is_empty() {
                return Ok(false);
            }
            Ok(are(
                text_of_outcome(alloc, kind[0], &kind[1..])?.bytes(),
                wanted.as_bytes(),
            ))
        }
        None => Ok(false),
    }
}

/// A digit for each fault of a project file, a word in it, and its text.
static FAULTS: &str = "1|vunit_run: vunit.toml isn't TOML/\n\
    2library.name|vunit_run: vunit.toml: no key library.name/\n\
    3compiler|vunit_run: vunit.toml: wrong value of compiler/\n\
    4|vunit_run: a library may not be named work/\n\
    5lib|vunit_run: library lib stands twice/\n\
    6a.vhd|vunit_run: lib, a.vhd stands twice/\n\
    7z*.vhd|vunit_run: nothing matches z*.vhd/\n\
    8|vunit_run: vunit.csv: bad line 2/\n\
    9b.vhd|vunit_run: lib, b.vhd isn't in the project/\n";

#[test]
fn faults_of_project_files_are_said(rt: HostRuntime) -> Result<(), Fail> {
    for line in FAULTS.lines() {
        assert!(rt; says(rt.alloc(), line)?, "{line}");
    }
    Ok(())
}

/// A letter for each fault of benches, a name in it, and its text.
static TEST_FAULTS: &str = "Tlib.tb_a|vunit_run: bench lib.tb_a has two architectures/\n\
    Nlib.tb_a|vunit_run: bench lib.tb_a has no architecture/\n\
    Dlib.tb_a.one|vunit_run: test lib.tb_a.one stands twice/\n\
    Blib.tb_a|vunit_run: bench lib.tb_a has a bad test name/\n";

#[test]
fn faults_of_benches_are_said(rt: HostRuntime) -> Result<(), Fail> {
    for line in TEST_FAULTS.lines() {
        assert!(rt; says(rt.alloc(), line)?, "{line}");
    }
    Ok(())
}

/// A letter for each refusal of a file or of units, and its text.
static LINK_FAULTS: &str = "a|vunit_run: lib, a.vhd is absent/\n\
    l|vunit_run: lib, b.vhd: unclosed string at 17/\n\
    d|vunit_run: lib.e(rtl) stands in lib, a.vhd and lib, b.vhd/\n\
    u|vunit_run: lib, top.vhd: no unit lib.missing/\n\
    r|vunit_run: lib, top.vhd: no architecture rtl of lib.e/\n\
    c|vunit_run: cycle/  lib, c.vhd/  lib, d.vhd/  lib, e.vhd/\n";

#[test]
fn faults_of_links_are_said(rt: HostRuntime) -> Result<(), Fail> {
    for line in LINK_FAULTS.lines() {
        assert!(rt; says(rt.alloc(), line)?, "{line}");
    }
    Ok(())
}

#[test]
fn no_file_is_listed(rt: HostRuntime) -> Result<(), Fail> {
    let graph = Graph::new(rt.alloc());
    assert!(rt; is(list_files(rt.alloc(), &graph)?.bytes(), b"Listed 0 files\n"));
    Ok(())
}

#[test]
fn a_limit_is_said(rt: HostRuntime) -> Result<(), Fail> {
    assert!(rt;
        is(
            limit_text(rt.alloc(), Limit::Files, 128)?.bytes(),
            b"vunit_run: over limit: files 128\n"
        )
    );
    Ok(())
}

/// The text of one warning about the first file.
fn warned(alloc: Global, library: &[u8]) -> Result<Text, NoMemory> {
    let mut warnings = WarningList::new(alloc);
    warnings.push(Warning {
        file: 0,
        library: text(alloc, library)?,
    })?;
    warning_text(alloc, &project_of(alloc, &["a.vhd"], false)?, &warnings)
}

#[test]
fn warnings_are_said(rt: HostRuntime) -> Result<(), Fail> {
    assert!(rt;
        is(
            warned(rt.alloc(), b"other")?.bytes(),
            b"vunit_run: warning: lib, a.vhd: use of other.all gives no dependency\n"
        )
    );
    Ok(())
}
