//! The verdicts of runs of tests as JUnit XML.

ghost use Rattle.std.specs.Prelude.{◌≡◌, [], ◌∷◌, ◌++◌, codes, IfOk, OnOk};
ghost use Rattle.report.specs.Junit.{all_elements, case_element, case_elements, case_end, case_start, class_of, ends_no_character, junit, last_line, run_elements, suite_line, value, value_byte, xml_byte, xml_line};

use crate::puts::{put, put_count};
use crate::tally::{Tally, tally_of};
use base::{NoMemory, Text};
use std::alloc::Global;
use testbench_runs::{RunEnd, TestEnd, TestRun, TestRunList, Verdict};

#[tactic(auto, unfolding(crate::specs::Junit::xml_byte))]
fn put_xml_byte(out: &mut Vec<u8>, byte: u8) -> Result<(), NoMemory>
    ensures { OnOk result (out.new.items ≡ out.old.items ++ xml_byte byte) }
{
    if byte == b'&' {
        return put(out, b"&amp;");
    }
    if byte == b'<' {
        return put(out, b"&lt;");
    }
    if byte == b'>' {
        return put(out, b"&gt;");
    }
    if byte == b'"' {
        return put(out, b"&quot;");
    }
    if byte == b'\'' {
        return put(out, b"&apos;");
    }
    out.push(byte)?;
    Ok(())
}

fn ends_no_character(first: u8, second: u8, byte: u8) -> bool
    ensures { result ≡ ends_no_character first second byte }
{
    first == 239 && (second == 191 && (byte == 190 || byte == 191))
}

/// Puts a byte of a value, after two bytes.
#[tactic(auto, unfolding(crate::specs::Junit::value_byte))]
fn put_value_byte(out: &mut Vec<u8>, first: u8, second: u8, byte: u8) -> Result<(), NoMemory>
    ensures { OnOk result (out.new.items ≡ out.old.items ++ value_byte first second byte) }
{
    if ends_no_character(first, second, byte) {
        out.push(189)?;
        return Ok(());
    }
    put_xml_byte(out, byte)
}

/// Puts a name as the value of an attribute.
fn put_value(out: &mut Vec<u8>, name: &[u8]) -> Result<(), NoMemory>
    ensures { OnOk result (out.new.items ≡ out.old.items ++ value name.now) }
{
    let mut first = 0;
    let mut second = 0;
    for i in 0..name.len() {
        let byte = name[i];
        put_value_byte(out, first, second, byte)?;
        first = second;
        second = byte;
    }
    Ok(())
}

/// Puts the class of the cases of a run.
#[tactic(auto, unfolding(crate::specs::Junit::class_of))]
fn put_class(out: &mut Vec<u8>, run: &TestRun) -> Result<(), NoMemory>
    ensures { OnOk result (out.new.items ≡ out.old.items ++ class_of run.now) }
{
    put_value(out, run.library.bytes())?;
    put(out, b".")?;
    put_value(out, run.bench.bytes())?;
    Ok(())
}

#[tactic(auto, unfolding(crate::specs::Junit::case_start))]
fn put_case_start(out: &mut Vec<u8>, run: &TestRun, name: &[u8]) -> Result<(), NoMemory>
    ensures { OnOk result (out.new.items ≡ out.old.items ++ case_start run.now name.now) }
{
    put(out, b"  <testcase classname=\"")?;
    put_class(out, run)?;
    put(out, b"\" name=\"")?;
    put_value(out, name)?;
    put(out, b"\"")?;
    Ok(())
}

#[tactic(auto, unfolding(crate::specs::Junit::case_end))]
fn put_case_end(out: &mut Vec<u8>, verdict: Verdict) -> Result<(), NoMemory>
    ensures { OnOk result (out.new.items ≡ out.old.items ++ case_end verdict) }
{
    match verdict {
        Verdict::Passed => put(out, b"/>\n"),
        Verdict::Failed => put(
            out,
            b">\n    <failure message=\"Failed\"/>\n  </testcase>\n",
        ),
        Verdict::Skipped => put(out, b">\n    <skipped/>\n  </testcase>\n"),
    }
}

fn put_case_element(
    out: &mut Vec<u8>,
    run: &TestRun,
    name: &[u8],
    verdict: Verdict,
) -> Result<(), NoMemory>
    ensures { OnOk result
        (out.new.items ≡ out.old.items ++ case_element run.now name.now verdict) }
{
    put_case_start(out, run, name)?;
    put_case_end(out, verdict)?;
    Ok(())
}

/// Puts cases of a run that have a verdict.
fn put_case_elements(
    out: &mut Vec<u8>,
    run: &TestRun,
    names: &[Text],
    verdicts: &[Verdict],
) -> Result<(), NoMemory>
    ensures { OnOk result
        (out.new.items ≡ out.old.items ++ case_elements run.now names.now verdicts.now) }
{
    let count = names.len().min(verdicts.len());
    for i in 0..count {
        let name = names[i].bytes();
        put_case_element(out, run, name, verdicts[i])?;
    }
    Ok(())
}

/// Puts the one case of a bench that names none itself, where it has a verdict.
fn put_whole(out: &mut Vec<u8>, run: &TestRun, verdicts: &[Verdict]) -> Result<(), NoMemory>
    ensures { OnOk result
        (out.new.items ≡ out.old.items ++ case_elements run.now (codes "all" ∷ []) verdicts.now) }
{
    match verdicts {
        [verdict, ..] => put_case_element(out, run, b"all", *verdict),
        [] => Ok(()),
    }
}

/// Puts the cases of a run.
fn put_run(out: &mut Vec<u8>, run: &TestRun, end: &RunEnd) -> Result<(), NoMemory>
    ensures { OnOk result (out.new.items ≡ out.old.items ++ run_elements run.now end.now) }
{
    let verdicts = end.verdicts.as_slice();
    if run.whole {
        return put_whole(out, run, verdicts);
    }
    put_case_elements(out, run, run.cases.as_slice(), verdicts)
}

/// Puts the cases of runs that have an end.
fn put_runs(out: &mut Vec<u8>, runs: &[TestRun], ends: &[RunEnd]) -> Result<(), NoMemory>
    ensures { OnOk result (out.new.items ≡ out.old.items ++ all_elements runs.now ends.now) }
{
    let count = runs.len().min(ends.len());
    for i in 0..count {
        put_run(out, &runs[i], &ends[i])?;
    }
    Ok(())
}

#[tactic(auto, unfolding(crate::specs::Junit::xml_line))]
fn put_xml_line(out: &mut Vec<u8>) -> Result<(), NoMemory>
    ensures { OnOk result (out.new.items ≡ out.old.items ++ xml_line) }
{
    put(out, b"<?xml version=\"1.0\" encoding=\"utf-8\"?>\n")
}

fn put_suite_line(alloc: Global, out: &mut Vec<u8>, counts: &Tally) -> Result<(), NoMemory>
    ensures { OnOk result (out.new.items ≡ out.old.items ++ suite_line counts.now) }
{
    put(out, b"<testsuite name=\"testsuite\" tests=\"")?;
    put_count(alloc, out, counts.total)?;
    put(out, b"\" failures=\"")?;
    put_count(alloc, out, counts.failed)?;
    put(out, b"\" skipped=\"")?;
    put_count(alloc, out, counts.skipped)?;
    put(out, b"\" errors=\"0\">\n")?;
    Ok(())
}

#[tactic(auto, unfolding(crate::specs::Junit::last_line))]
fn put_last_line(out: &mut Vec<u8>) -> Result<(), NoMemory>
    ensures { OnOk result (out.new.items ≡ out.old.items ++ last_line) }
{
    put(out, b"</testsuite>\n")
}

/// The verdicts of runs of tests as JUnit XML. Each case of each run, in order, is a `testcase`, with `LIBRARY.BENCH` as its class
/// and the name of the case as its name. Each run of `runs` takes the verdicts of its cases from the run of `end` with the same
/// index. If one list is longer than the other, the rest of it has no element.
///
/// In names, the five special characters of XML are written as named entities. U+FFFE and U+FFFF, which XML does not allow, are
/// written as U+FFFD. All other bytes are unchanged. Time and memory are in proportion to the bytes of the text.
pub fn junit(alloc: Global, runs: &TestRunList, end: &TestEnd) -> Result<Text, NoMemory>
    ensures { IfOk result (λ text. text ≡ junit runs.now end.now.runs) }
{
    let ends = end.runs.as_slice();
    let counts = tally_of(ends);
    let mut text = Vec::new(alloc);
    put_xml_line(&mut text)?;
    put_suite_line(alloc, &mut text, &counts)?;
    put_runs(&mut text, runs.as_slice(), ends)?;
    put_last_line(&mut text)?;
    Ok(Text::from_vec(text))
}
