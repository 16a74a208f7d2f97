//! Tests of the bytes of bench requests, byte for byte, and of the texts of runs.

use base::{NoMemory, Text, TextList};
use child_test_request::{read_bench_request, results_path, runner_cfg};
use std::alloc::Global;
use std::test::Fail;
use testbench_runs::{BenchJob, TestRun};

/// One row per line, with `|` between its parts: the library, the bench, the cases with `;` between two, the mode and the
/// path. The mode is `w` for a bench that names no case itself, and `s` if all cases run in one simulation. The wanted
/// values follow: the name of the folder, `enabled_test_cases` and `tb path`.
static RUNS: &str = "\
tb_lib|tb_x|b,c||tb/tb_x.vhd|tb_lib.tb_x.b=2cc|b,,,,c|tb/
lib|t|one||tb.vhd|lib.t.one|one|
lib|t||w|a/b/tb.vhd|lib.t||a/b/
lib|t|a;b|s|/tb.vhd|lib.t|a,,b|/
lib|t|a,;,b|s|a:b/c,d/e|lib.t|a,,,,,,,,,,b|a::b/c,,d/
lib|t|a,;b|s|a:b,c|lib.t|a,,,,,,b|
lib|t|x:y||tb.vhd|lib.t.x=3ay|x::y|
lib|t|A-b_c.d 9~||tb.vhd|lib.t.A-b_c.d=209=7e|A-b_c.d 9~|
lib|t|/==z@[`{||d/|lib.t.=2f=3d=3dz=40=5b=60=7b|/==z@[`{|d/
lib|\\T\\|é||d//x|lib.=5cT=5c.=c3=a9|é|d//";

/// The request of the case `one` of the bench `t` of `lib` in `tb/t.vhd`, with the architecture `a`, over the file
/// `p.vhd` of `lib2` with the artefact `yz`.
static BYTES: &[u8] = b"VRB1\
\x03\0\0\0lib\x01\0\0\0t\x01\0\0\0a\x01\0\0\0\x03\0\0\0one\
\x7d\0\0\0active python runner : true,enabled_test_cases : one,output path : vunit_out/tests/lib.t.one/,\
tb path : tb/,use_color : false\
\x27\0\0\0vunit_out/tests/lib.t.one/vunit_results\
\x01\0\0\0\x04\0\0\0lib2\x05\0\0\0p.vhd\x02\0\0\0yz";

fn text(alloc: Global, words: &str) -> Result<Text, NoMemory> {
    Text::from_slice(alloc, words.as_bytes())
}

/// The cases of a row; none for the empty text.
fn cases_of(alloc: Global, names: &str) -> Result<TextList, NoMemory> {
    let mut cases = TextList::new(alloc);
    if names.is_empty() {
        return Ok(cases);
    }
    for name in names.split(';') {
        cases.push(text(alloc, name)?)?;
    }
    Ok(cases)
}

/// The run of a row.
fn run_of(alloc: Global, row: &str) -> Result<TestRun, Fail> {
    let mut parts = row.split('|');
    let (Some(library), Some(bench), Some(cases), Some(mode), Some(path)) = (
        parts.next(),
        parts.next(),
        parts.next(),
        parts.next(),
        parts.next(),
    ) else {
        return Err(Fail::new("a row of another form"));
    };
    Ok(TestRun {
        library: text(alloc, library)?,
        bench: text(alloc, bench)?,
        architecture: text(alloc, "a")?,
        cases: cases_of(alloc, cases)?,
        whole: mode == "w",
        same_sim: mode == "s",
        path: text(alloc, path)?,
    })
}

/// What a row wants: the configuration, a line feed, and the results path.
fn wanted(alloc: Global, row: &str) -> Result<Vec<u8>, Fail> {
    let mut parts = row.split('|').skip(5);
    let (Some(name), Some(cases), Some(folder)) = (parts.next(), parts.next(), parts.next()) else {
        return Err(Fail::new("a row of another form"));
    };
    let mut out = Vec::new(alloc);
    for part in [
        "active python runner : true,enabled_test_cases : ",
        cases,
        ",output path : vunit_out/tests/",
        name,
        "/,tb path : ",
        folder,
        ",use_color : false\nvunit_out/tests/",
        name,
        "/vunit_results",
    ] {
        out.extend_from_slice(part.as_bytes())?;
    }
    Ok(out)
}

/// What a run gives: its configuration, a line feed, and its results path.
fn given(alloc: Global, run: &TestRun) -> Result<Vec<u8>, NoMemory> {
    let mut out = runner_cfg(alloc, run)?.into_vec();
    out.push(b'\n')?;
    out.extend_from_slice(results_path(alloc, run)?.bytes())?;
    Ok(out)
}

#[test]
fn runs_have_the_texts_of_the_table(rt: HostRuntime) -> Result<(), Fail> {
    for row in RUNS.lines() {
        let run = run_of(rt.alloc(), row)?;
        let wanted = wanted(rt.alloc(), row)?;
        assert!(rt;
            given(rt.alloc(), &run)?.as_slice() == wanted.as_slice(),
            "{row}"
        );
    }
    Ok(())
}

/// The parts of a job with a `|` after each.
fn parts_of(alloc: Global, job: &BenchJob) -> Result<Vec<u8>, NoMemory> {
    let mut out = Vec::new(alloc);
    for part in [&job.library, &job.bench, &job.architecture, &job.results] {
        out.extend_from_slice(part.bytes())?;
        out.push(b'|')?;
    }
    for case in job.cases.as_slice() {
        out.extend_from_slice(case.bytes())?;
        out.push(b'|')?;
    }
    for file in job.built.as_slice() {
        out.extend_from_slice(file.name.path.bytes())?;
        out.push(b'|')?;
    }
    Ok(out)
}

#[test]
fn a_job_has_its_parts(rt: HostRuntime) -> Result<(), Fail> {
    let job = read_bench_request(rt.alloc(), BYTES)?.ok_or("the bytes are a job")?;
    let parts = parts_of(rt.alloc(), &job)?;
    let wanted = b"lib|t|a|vunit_out/tests/lib.t.one/vunit_results|one|p.vhd|";
    assert!(rt; parts.as_slice() == wanted.as_slice());
    Ok(())
}

/// Whether bytes are those of a job.
fn is_job(alloc: Global, bytes: &[u8]) -> Result<bool, NoMemory> {
    Ok(read_bench_request(alloc, bytes)?.is_some())
}

#[test]
fn bytes_that_are_cut_off_are_no_job(rt: HostRuntime) -> Result<(), Fail> {
    for end in 0..BYTES.len() {
        assert!(rt; !is_job(rt.alloc(), &BYTES[..end])?, "{end}");
    }
    Ok(())
}

#[test]
fn other_bytes_are_no_job(rt: HostRuntime) -> Result<(), Fail> {
    let mut bytes = Vec::from_slice(rt.alloc(), BYTES)?;
    bytes.push(0)?;
    assert!(rt; !is_job(rt.alloc(), bytes.as_slice())?);
    assert!(rt; !is_job(rt.alloc(), b"VRC1")?);
    Ok(())
}
