//! Small projects, with the tests that VUnit's rules find in them, or the first fault, written out by hand.

ghost use Rattle.std.specs.Prelude.{◌≡◌, ◌≤◌, length};
ghost use Rattle.std.specs.List.{All};
ghost use Rattle.vhdl_outline.specs.Outlines.{AreOutlined};
ghost use Rattle.vhdl_outline.specs.Roles.{IsTextSmall};

use crate::tests::projects::{add, are_small, outlines_of};
use base::{FILE_LIMIT, Items, OrMemory, PairList, Project, ProjectFile, Text, TextList};
use base_outcomes::{Bench, TestFault, Tests};
use std::alloc::Global;
use std::process::Abort;
use std::test::Fail;
use testbench_scan::benches;
use vhdl_outline::Outlines;

static ENTITY: &str = "entity e is generic (runner_cfg : string); end;";

/// The text that bytes stand for: `$` for the entity of a bench, `~` for a line feed and `^` for a tab.
fn text_of(alloc: Global, bytes: &[u8]) -> Result<Text, Fail> {
    let mut text = Vec::new(alloc);
    for byte in bytes {
        match *byte {
            b'$' => text.extend_from_slice(ENTITY.as_bytes())?,
            b'~' => text.push(b'\n')?,
            b'^' => text.push(b'\t')?,
            other => text.push(other)?,
        }
    }
    Ok(Text::from_vec(text))
}

fn project_with(alloc: Global, files: Items<ProjectFile>) -> Project {
    Project {
        files,
        simulator: Items::new(alloc),
        external: TextList::new(alloc),
        bodies: false,
        depends: PairList::new(alloc),
        listed: true,
    }
}

/// The project of files that are parted by `#`, each with its library before a `%`; and the texts.
fn project_of(alloc: Global, files: &[u8]) -> Result<(Project, TextList), Fail> {
    let mut list = Items::new(alloc);
    let mut texts = TextList::new(alloc);
    for file in files.split(|b| *b == b'#') {
        let mut parts = file.split(|b| *b == b'%');
        let library = parts.next().unwrap_or(b"");
        let text = text_of(alloc, parts.next().unwrap_or(b""))?;
        add(alloc, &mut list, &mut texts, library, b"", text)?;
    }
    Ok((project_with(alloc, list), texts))
}

/// A number below 1,000 in decimal digits.
fn push_number(out: &mut Vec<u8>, number: u32) -> Result<(), Fail> {
    for unit in [100, 10, 1] {
        if unit == 1 || unit <= number {
            out.push(b'0' + (number / unit % 10) as u8)?;
        }
    }
    Ok(())
}

/// Adds a bench as `l.e(a)`, then `w` if it calls no case and `s` if all its cases run in one simulation. Each case
/// follows after a `/`. With `indices`, the file, the offset and the length of what names it follow.
fn push_bench(out: &mut Vec<u8>, bench: &Bench, indices: bool) -> Result<(), Fail> {
    out.extend_from_slice(bench.library.bytes())?;
    out.push(b'.')?;
    out.extend_from_slice(bench.name.bytes())?;
    out.push(b'(')?;
    out.extend_from_slice(bench.architecture.bytes())?;
    out.push(b')')?;
    if bench.whole {
        out.push(b'w')?;
    }
    if bench.same_sim {
        out.push(b's')?;
    }
    for test_case in bench.cases.as_slice() {
        out.push(b'/')?;
        out.extend_from_slice(test_case.name.bytes())?;
        if indices {
            out.push(b' ')?;
            push_number(out, test_case.file)?;
            out.push(b' ')?;
            push_number(out, test_case.at)?;
            out.push(b' ')?;
            push_number(out, test_case.length)?;
        }
    }
    Ok(())
}

/// The benches, parted by blanks.
fn shown_tests(alloc: Global, tests: &Tests, indices: bool) -> Result<Vec<u8>, Fail> {
    let mut out = Vec::new(alloc);
    for bench in tests.as_slice() {
        if !out.is_empty() {
            out.push(b' ')?;
        }
        push_bench(&mut out, bench, indices)?;
    }
    Ok(out)
}

fn shown_text(alloc: Global, word: &str, text: &Text) -> Result<Vec<u8>, Fail> {
    let mut out = Vec::new(alloc);
    out.extend_from_slice(word.as_bytes())?;
    out.extend_from_slice(text.bytes())?;
    Ok(out)
}

fn shown_fault(alloc: Global, fault: &TestFault) -> Result<Vec<u8>, Fail> {
    match fault {
        TestFault::TwoArchitectures { bench } => shown_text(alloc, "two ", bench),
        TestFault::NoArchitecture { bench } => shown_text(alloc, "none ", bench),
        TestFault::DuplicateTest { name } => shown_text(alloc, "twice ", name),
        TestFault::BadName { bench } => shown_text(alloc, "bad ", bench),
    }
}

fn shown_answer(
    alloc: Global,
    project: &Project,
    texts: &TextList,
    outlines: &Outlines,
    indices: bool,
) -> Result<Vec<u8>, Fail>
    requires few { length project.now.files ≤ FILE_LIMIT }
    requires each { length texts.now ≡ length project.now.files }
    requires outlined { AreOutlined texts.now outlines.now }
    requires small { All IsTextSmall texts.now }
{
    match benches(alloc, project, texts, outlines) {
        Ok(tests) => shown_tests(alloc, &tests, indices),
        Err(OrMemory::NoMemory) => shown_text(alloc, "memory", &Text::new(alloc)),
        Err(OrMemory::Fault(fault)) => shown_fault(alloc, &fault),
    }
}

fn shown_project(
    alloc: Global,
    project: &Project,
    texts: &TextList,
    indices: bool,
) -> Result<Vec<u8>, Fail> {
    if !are_small(texts) || texts.len() != project.files.len() || texts.len() > 8 {
        return Err(Fail::from("few small files"));
    }
    let outlines = outlines_of(alloc, texts)?;
    shown_answer(alloc, project, texts, &outlines, indices)
}

fn text_of_benches(alloc: Global, files: &str, indices: bool) -> Result<Vec<u8>, Fail> {
    let (project, texts) = project_of(alloc, files.as_bytes())?;
    shown_project(alloc, &project, &texts, indices)
}

// files, and what is found in them
static ROWS: &str = r#"
l%$architecture a of e is begin x <= run("one"); end; => l.e(a)/one
l%$architecture a of e is begin end; => l.e(a)w/all
l%entity e is end; architecture a of e is begin x <= run("one"); end; => 
l%entity e is generic (w : t := f(1, (2)); runner_cfg : string); end; architecture a of e is begin end; => l.e(a)w/all
l%entity e is generic (w : t := f(1, (runner_cfg))); end; architecture a of e is begin end; => l.e(a)w/all
l%entity e is generic (w : t); generic (runner_cfg : string); end; architecture a of e is begin end; => 
l%entity e is generic (w : t); port (runner_cfg : t); end; architecture a of e is begin end; => 
l%entity e is port (runner_cfg : t); generic (w : t); end; architecture a of e is begin end; => 
l%entity e is generic (w -- runner_cfg~ : t); end; architecture a of e is begin end; => 
l%entity e is generic (w /* runner_cfg */ : t); end; architecture a of e is begin end; => 
l%entity e is generic (w : t := "runner_cfg"); end; architecture a of e is begin end; => 
l%ENTITY E IS GENERIC (Runner_CFG : string); END; architecture A of e is begin end; => l.e(a)w/all
l%entity e is generic (\runner_cfg\ : string); end; architecture a of e is begin end; => 
l%entity e is generic (runner_cfg_x, x_runner_cfg : string); end; architecture a of e is begin end; => 
l%entity e is generic runner_cfg; end; architecture a of e is begin end; => 
l%entity e is generic map (w); generic (runner_cfg : string); end; architecture a of e is begin end; => l.e(a)w/all
l%entity e is generic (runner_cfg : string; end; architecture a of e is begin end; => 
l%entity e is generic ((runner_cfg : string); end; architecture a of e is begin end; => 
l%package e is generic (runner_cfg : string); end; => 
l%entity e is end; architecture a of e is component c generic (runner_cfg : t); end component; begin end; => 
l%$architecture a of e is begin x <= run("one"); y <= run("two"); end; => l.e(a)/one/two
l%$architecture a of e is begin p : process begin while test_suite loop if run("b c") then null; elsif run("a") then null; end if; end loop; end process; end; => l.e(a)/b c/a
l%$architecture a of e is begin x <= run("say ""hi"""); end; => l.e(a)/say "hi"
l%$architecture a of e is begin x <= run(""""); end; => l.e(a)/"
l%$architecture a of e is begin x <= run(""""""); end; => l.e(a)/""
l%$architecture a of e is begin x <= run("a""b") & run("a""""b"); end; => l.e(a)/a"b/a""b
l%$architecture a of e is begin x <= RUN -- now~ ( "a"^); end; => l.e(a)/a
l%$architecture a of e is procedure run(x : t) is begin end; begin my_run("a"); run_all("b"); end; => l.e(a)w/all
l%$architecture a of e is begin x <= runner.run("a"); end; => l.e(a)/a
l%$architecture a of e is begin x <= run("a", 1); y <= run("b"); end; => l.e(a)/b
l%$architecture a of e is begin x <= run("a" & "b"); y <= run(c); z <= run('d'); end; => l.e(a)w/all
l%$architecture a of e is begin x <= run(x"ab"); y <= \run\("c"); end; => l.e(a)w/all
l%$architecture a of e is begin -- run("a")~ /* run("b") */ x <= "run(""c"")"; end; => l.e(a)w/all
l%entity e is generic (runner_cfg : string); begin assert run("a"); end; architecture a of e is begin end; => l.e(a)w/all
l%$package p is constant c : t := run("a"); end;architecture a of e is begin end; => l.e(a)w/all
l%use run("a"); $use run("b"); architecture a of e is begin end; => l.e(a)w/all
l%$#l%architecture a of e is begin x <= run("one"); end; => l.e(a)/one
l%$#m%architecture a of e is begin end; => none l.e
l%$ => none l.e
l%$architecture a of work.e is begin x <= run("one"); end; => l.e(a)/one
l%$architecture a of e is begin end; architecture b of e is begin end; => two l.e
lib%entity t is generic (runner_cfg : string); end; architecture a of t is begin end; architecture b of t is begin end; => two lib.t
tb_lib%library ieee; use ieee.std_logic_1164.all; library vunit_lib; context vunit_lib.vunit_context; entity tb_counter is generic (runner_cfg : string); end entity; architecture sim of tb_counter is signal q : count_t; begin main : process begin test_runner_setup(runner, runner_cfg); while test_suite loop if run("reset") then check_equal(q, 0); elsif run("count & wrap") then check_equal(q, 1); end if; end loop; test_runner_cleanup(runner); end process; end architecture; => tb_lib.tb_counter(sim)/reset/count & wrap
l%$architecture a of e is begin end;#l%package p is end;#l%architecture a of e is begin end; => two l.e
l%$architecture a of e is begin x <= run("one"); end;#m%$architecture b of e is begin x <= run("one"); end; => l.e(a)/one m.e(b)/one
l%$architecture a of e is begin end; entity f is generic (runner_cfg : t); end; architecture b of f is begin x <= run("c"); end; => l.e(a)w/all l.f(b)/c
l%$architecture a of e is begin x <= run("a"); y <= run("b"); z <= run("a"); end; => twice l.e.a
l%$architecture a of e is begin x <= run("a"); y <= run("A"); end; => l.e(a)/a/A
l%$#l%$architecture a of e is begin end; => twice l.e.all
l%$architecture a of e is begin x <= run(""); end; => bad l.e
l%$architecture a of e is begin x <= run("a"); y <= run("a"); z <= run(""); end; => bad l.e
l%$architecture a of e is begin x <= run("a^b"); end; => bad l.e
l%$architecture a of e is begin x <= run("grün"); end; => l.e(a)/grün
l%entity \e.x\ is generic (runner_cfg : t); end; architecture \A\ of \e.x\ is begin end; => l.\e.x\(\A\)w/all
l%entity \e^x\ is generic (runner_cfg : t); end; architecture a of \e^x\ is begin end; => bad l.\e^x\
l%$architecture a of e is begin x <= run("a"); y <= run("a"); end;#m%$ => twice l.e.a
m%$#l%$architecture a of e is begin x <= run(""); end; => none m.e
l%-- vunit: run_all_in_same_sim~$architecture a of e is begin x <= run("a"); y <= run("b"); end; => l.e(a)s/a/b
l%$architecture a of e is begin end;~--^vunit:^ ^run_all_in_same_sim ^~ => l.e(a)ws/all
l%$architecture a of e is begin end; --vunit:run_all_in_same_sim => l.e(a)ws/all
l%$ -- vunit: run_all_in_same_sim~#l%architecture a of e is begin end; => l.e(a)w/all
l%$#l%architecture a of e is begin end;~-- vunit: run_all_in_same_sim => l.e(a)ws/all
l%$architecture a of e is begin end; /* -- vunit: run_all_in_same_sim~*/ => l.e(a)w/all
l%$architecture a of e is begin end; -- vunit: run_all_in_same_sim now => l.e(a)w/all
l%$architecture a of e is begin end; --- vunit: run_all_in_same_sim => l.e(a)w/all
l%$architecture a of e is begin end; -- vunit : run_all_in_same_sim => l.e(a)w/all
l%$architecture a of e is begin end; -- VUNIT: run_all_in_same_sim => l.e(a)w/all
l%$architecture a of e is begin x <= "-- vunit: run_all_in_same_sim"; end; => l.e(a)w/all
"#;

// files, and what is found in them with the file, the offset and the length of what names each case
static INDICES: &str = r#"
lib%entity t is generic (runner_cfg : string); end;~architecture a of t is begin~x <= run("one");~end;~ => lib.t(a)/one 0 87 3
l%-- é~entity t is generic (runner_cfg : t); end; architecture a of t is begin end; => l.t(a)w/all 0 13 1
l%entity \t u\ is generic (runner_cfg : t); end;#l%architecture a of \t u\ is begin end; => l.\t u\(a)w/all 0 7 5
l%$#l%architecture a of e is begin x <= run("a""b"); y <= run("c"); end; => l.e(a)/a"b 1 39 4/c 1 57 1
"#;

/// A bench that calls `count` cases, each with a name of three bytes.
fn many_calls(alloc: Global, count: u32) -> Result<Text, Fail> {
    let mut text = Vec::new(alloc);
    text.extend_from_slice(ENTITY.as_bytes())?;
    text.extend_from_slice(b"architecture a of e is begin ")?;
    for number in 0..count {
        text.extend_from_slice(b"run(\"")?;
        text.push(b'#' + (number % 75) as u8)?;
        text.push(b'#' + (number / 75 % 75) as u8)?;
        text.push(b'#' + (number / 5_625 % 75) as u8)?;
        text.extend_from_slice(b"\")")?;
    }
    text.extend_from_slice(b" end;")?;
    Ok(Text::from_vec(text))
}

/// A bench whose one case has the name of one byte.
fn one_call(alloc: Global, byte: u8) -> Result<Text, Fail> {
    let mut text = Vec::new(alloc);
    text.extend_from_slice(ENTITY.as_bytes())?;
    text.extend_from_slice(b"architecture a of e is begin x <= run(\"")?;
    text.push(byte)?;
    text.extend_from_slice(b"\"); end;")?;
    Ok(Text::from_vec(text))
}

/// What is found in one text of the library `l`.
fn shown_file(alloc: Global, text: Text) -> Result<Vec<u8>, Fail> {
    let mut list = Items::new(alloc);
    let mut texts = TextList::new(alloc);
    add(alloc, &mut list, &mut texts, b"l", b"", text)?;
    shown_project(alloc, &project_with(alloc, list), &texts, false)
}

fn check(rt: &impl Abort, alloc: Global, table: &str, indices: bool) -> Result<(), Fail> {
    for line in table.lines() {
        if let Some((files, wanted)) = line.split_once(" => ") {
            let found = text_of_benches(alloc, files, indices)?;
            let wanted = text_of(alloc, wanted.as_bytes())?;
            assert!(rt; found.as_slice() == wanted.bytes(), "{line}: {found:?}");
        }
    }
    Ok(())
}

#[test]
fn benches_of_small_projects(rt: HostRuntime) -> Result<(), Fail> {
    check(&rt, rt.alloc(), ROWS, false)
}

#[test]
fn indices_of_cases(rt: HostRuntime) -> Result<(), Fail> {
    check(&rt, rt.alloc(), INDICES, true)
}

#[test]
fn many_cases_of_one_architecture(rt: HostRuntime) -> Result<(), Fail> {
    for count in [65_537, 400_000] {
        let found = shown_file(rt.alloc(), many_calls(rt.alloc(), count)?)?;
        assert!(rt; found.len() as u64 == 6 + 4 * count as u64, "{count}");
    }
    Ok(())
}

#[test]
fn names_of_every_byte(rt: HostRuntime) -> Result<(), Fail> {
    for byte in 0..=255 {
        // a line end, and a quote, leave the string open
        if (10..=13).contains(&byte) || byte == b'"' {
            continue;
        }
        let found = shown_file(rt.alloc(), one_call(rt.alloc(), byte)?)?;
        let good = byte >= 32 && byte <= 126;
        let wanted: &[u8] = if good { b"l.e(a)/" } else { b"bad l.e" };
        assert!(rt;
            found.len() == 7 + good as usize && found.starts_with(wanted),
            "{byte}"
        );
    }
    Ok(())
}
