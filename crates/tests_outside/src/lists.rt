//! The list and the export of tests by hand: a bench of one case, benches of several, and names of all bytes.

ghost use Rattle.base.specs.Projects.{IsProject};

use base::{
    FileName, Graph, NoMemory, PairList, Project, ProjectFile, ProjectFileList, Text, TextList,
};
use base_outcomes::{Bench, CaseList, TestCase, Tests};
use project_file::read_csv_project;
use project_graph::fit_texts;
use project_views::listed_graph;
use report::{export_json, list_tests};
use std::alloc::Global;
use std::test::Fail;

fn name(alloc: Global, library: &[u8], path: &[u8]) -> Result<FileName, NoMemory> {
    Ok(FileName {
        library: Text::from_slice(alloc, library)?,
        path: Text::from_slice(alloc, path)?,
    })
}

/// A project of files of `lib`, which may be listed.
pub(super) fn project_of(
    alloc: Global,
    paths: &[&'static str],
    listed: bool,
) -> Result<Project, NoMemory> {
    let mut files = ProjectFileList::new(alloc);
    for path in paths {
        files.push(ProjectFile {
            name: name(alloc, b"lib", path.as_bytes())?,
            command: TextList::new(alloc),
        })?;
    }
    Ok(Project {
        files,
        simulator: TextList::new(alloc),
        external: TextList::new(alloc),
        bodies: false,
        depends: PairList::new(alloc),
        listed,
    })
}

/// A case of a name, in a file, at an offset.
fn case(alloc: Global, name: &[u8], file: u32, at: u32) -> Result<TestCase, NoMemory> {
    Ok(TestCase {
        name: Text::from_slice(alloc, name)?,
        file,
        at,
        length: 3,
    })
}

fn bench(alloc: Global, name: &str, cases: CaseList) -> Result<Bench, NoMemory> {
    Ok(Bench {
        library: Text::from_slice(alloc, b"lib")?,
        name: Text::from_slice(alloc, name.as_bytes())?,
        architecture: Text::from_slice(alloc, b"a")?,
        file: 0,
        cases,
        whole: false,
        same_sim: false,
    })
}

/// The bench `t` of one case.
fn one_case(alloc: Global, name: &[u8]) -> Result<Tests, NoMemory> {
    let mut cases = CaseList::new(alloc);
    cases.push(case(alloc, name, 0, 87)?)?;
    let mut tests = Tests::new(alloc);
    tests.push(bench(alloc, "t", cases)?)?;
    Ok(tests)
}

/// The graph of a project of one file, which has the text `x`.
fn graph_of(alloc: Global, project: &Project) -> Result<Graph, Fail>
    requires { IsProject project.now }
{
    let mut texts = TextList::new(alloc);
    texts.push(Text::from_slice(alloc, b"x")?)?;
    if project.files.len() > 8 || !fit_texts(project, &texts) {
        return Err(Fail::from("one file"));
    }
    Ok(listed_graph(alloc, project, texts)?)
}

/// The graph of the file `tb.vhd`.
fn one_file(alloc: Global) -> Result<Graph, Fail> {
    match read_csv_project(alloc, b"lib,tb.vhd\n") {
        Ok(project) => graph_of(alloc, &project),
        Err(_fault) => Err(Fail::from("the bytes are a project")),
    }
}

fn is_listed_as(alloc: Global, tests: &Tests, wanted: &str) -> Result<bool, NoMemory> {
    Ok(list_tests(alloc, tests)?.bytes() == wanted.as_bytes())
}

fn is_exported_as(alloc: Global, tests: &Tests, wanted: &[u8]) -> Result<bool, Fail> {
    let graph = one_file(alloc)?;
    let project = project_of(alloc, &["tb.vhd", "cases.vhd"], true)?;
    Ok(export_json(alloc, &graph, &project, tests)?.bytes() == wanted)
}

static ONE_CASE: &str =
    "{\"export_format_version\":{\"major\":1,\"minor\":0,\"patch\":0},\"files\":[{\"file_name\":\"tb.vhd\",\"library_name\":\"lib\"}],\"tests\":[{\"attributes\":{},\"location\":{\"file_name\":\"tb.vhd\",\"length\":3,\"offset\":87},\"name\":\"lib.t.one\"}]}\n";

#[test]
fn one_case_is_listed_and_exported(rt: HostRuntime) -> Result<(), Fail> {
    let tests = one_case(rt.alloc(), b"one")?;
    assert!(rt; is_listed_as(rt.alloc(), &tests, "lib.t.one\nListed 1 tests\n")?);
    assert!(rt; is_exported_as(rt.alloc(), &tests, ONE_CASE.as_bytes())?);
    Ok(())
}

/// The bench `t` of the cases `a` and `b,c`, and the bench `u` of the case `all`. The second case is in another file, and
/// the third in a file that the project doesn't have.
fn three_cases(alloc: Global) -> Result<Tests, NoMemory> {
    let mut first = CaseList::new(alloc);
    first.push(case(alloc, b"a", 0, 7)?)?;
    first.push(case(alloc, b"b,c", 1, 0)?)?;
    let mut second = CaseList::new(alloc);
    second.push(case(alloc, b"all", 2, 4294967295)?)?;
    let mut tests = Tests::new(alloc);
    tests.push(bench(alloc, "t", first)?)?;
    tests.push(bench(alloc, "u", second)?)?;
    Ok(tests)
}

static THREE_CASES: &str =
    "{\"export_format_version\":{\"major\":1,\"minor\":0,\"patch\":0},\"files\":[{\"file_name\":\"tb.vhd\",\"library_name\":\"lib\"}],\"tests\":[{\"attributes\":{},\"location\":{\"file_name\":\"tb.vhd\",\"length\":3,\"offset\":7},\"name\":\"lib.t.a\"},{\"attributes\":{},\"location\":{\"file_name\":\"cases.vhd\",\"length\":3,\"offset\":0},\"name\":\"lib.t.b,c\"},{\"attributes\":{},\"location\":{\"file_name\":\"\",\"length\":3,\"offset\":4294967295},\"name\":\"lib.u.all\"}]}\n";

#[test]
fn cases_are_in_order(rt: HostRuntime) -> Result<(), Fail> {
    let tests = three_cases(rt.alloc())?;
    assert!(rt;
        is_listed_as(
            rt.alloc(),
            &tests,
            "lib.t.a\nlib.t.b,c\nlib.u.all\nListed 3 tests\n"
        )?
    );
    assert!(rt; is_exported_as(rt.alloc(), &tests, THREE_CASES.as_bytes())?);
    assert!(rt; is_listed_as(rt.alloc(), &Tests::new(rt.alloc()), "Listed 0 tests\n")?);
    Ok(())
}

/// The bytes below 128 that JSON has no place for in a string, each with what is written in its place, after RFC 8259.
static ESCAPES: &str =
    "0 \\u0000\n1 \\u0001\n2 \\u0002\n3 \\u0003\n4 \\u0004\n5 \\u0005\n6 \\u0006\n7 \\u0007\n8 \\b\n9 \\t\n10 \\n\n11 \\u000b\n12 \\f\n13 \\r\n14 \\u000e\n15 \\u000f\n16 \\u0010\n17 \\u0011\n18 \\u0012\n19 \\u0013\n20 \\u0014\n21 \\u0015\n22 \\u0016\n23 \\u0017\n24 \\u0018\n25 \\u0019\n26 \\u001a\n27 \\u001b\n28 \\u001c\n29 \\u001d\n30 \\u001e\n31 \\u001f\n34 \\\"\n92 \\\\";

/// The wanted JSON text for a name of one byte. A byte that isn't ASCII is not valid UTF-8 by itself, and becomes U+FFFD.
fn text_of_list(alloc: Global, byte: u8) -> Result<Text, NoMemory> {
    if byte >= 128 {
        return Text::from_slice(alloc, b"\xef\xbf\xbd");
    }
    for row in ESCAPES.lines() {
        if let Some((code, escape)) = row.split_once(' ') {
            if code.parse::<u8>() == Ok(byte) {
                return Text::from_slice(alloc, escape.as_bytes());
            }
        }
    }
    Text::from_slice(alloc, &[byte])
}

/// The export with another name of its one case.
fn with_name(alloc: Global, name: &[u8]) -> Result<Vec<u8>, NoMemory> {
    let mut wanted = Vec::new(alloc);
    if let Some((before, after)) = ONE_CASE.split_once("one") {
        wanted.extend_from_slice(before.as_bytes())?;
        wanted.extend_from_slice(name)?;
        wanted.extend_from_slice(after.as_bytes())?;
    }
    Ok(wanted)
}

fn is_escaped(alloc: Global, byte: u8) -> Result<bool, Fail> {
    let wanted = with_name(alloc, text_of_list(alloc, byte)?.bytes())?;
    is_exported_as(alloc, &one_case(alloc, &[byte])?, wanted.as_slice())
}

#[test]
fn each_byte_of_a_name_is_exported(rt: HostRuntime) -> Result<(), Fail> {
    for byte in 0..=255 {
        assert!(rt; is_escaped(rt.alloc(), byte)?);
    }
    Ok(())
}
