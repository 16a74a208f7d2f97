//! The texts of runs of tests and what they answer, and JUnit XML, each written out by hand.

use base::{NoMemory, Text, TextList};
use base_outcomes::Outcome;
use report::{junit, test_text, tests_outcome};
use std::alloc::Global;
use std::test::Fail;
use testbench_runs::{RunEnd, RunList, TestEnd, TestRun, TestRunList, Verdict, VerdictList};

/// One row per line, with `|` between its parts: the options, the runs, the wanted text and the wanted outcome. `~` stands for a
/// line feed.
///
/// - Options: `v` for verbose, `q` for quiet, `0` for an outcome that ignores failed tests, `-` for none.
/// - Runs: a `/` between two, and in each run commas between its output and its cases. A case is its full name, `=` and the letter
///   of its verdict, or `n` without a verdict.
/// - Outcome: `d` for done, `t` for failed tests.
static ENDS: &str = "\
-||No tests were run!~|d
vq||No tests were run!~|d
-|loud~|No tests were run!~|d
v|loud~|No tests were run!~|d
-|/|No tests were run!~|d
-|,lib.t.a=n|No tests were run!~|d
-|,lib.t.a=p|pass lib.t.a~==== Summary~pass 1 of 1~fail 0 of 1~skip 0 of 1~All passed!~|d
-|,lib.t.a=f|fail lib.t.a~==== Summary~pass 0 of 1~fail 1 of 1~skip 0 of 1~Some failed!~|t
-|,lib.t.a=s|skip lib.t.a~==== Summary~pass 0 of 1~fail 0 of 1~skip 1 of 1~Some failed!~|t
0|,lib.t.a=p|pass lib.t.a~==== Summary~pass 1 of 1~fail 0 of 1~skip 0 of 1~All passed!~|d
0|,lib.t.a=f|fail lib.t.a~==== Summary~pass 0 of 1~fail 1 of 1~skip 0 of 1~Some failed!~|d
0|,lib.t.a=s|skip lib.t.a~==== Summary~pass 0 of 1~fail 0 of 1~skip 1 of 1~Some failed!~|d
-|boom~,lib.t.a=p,lib.t.b=f|boom~pass lib.t.a~fail lib.t.b~==== Summary~pass 1 of 2~fail 1 of 2~skip 0 of 2~Some failed!~|t
q|boom~,lib.t.a=p,lib.t.b=f|pass lib.t.a~fail lib.t.b~==== Summary~pass 1 of 2~fail 1 of 2~skip 0 of 2~Some failed!~|t
v|boom~,lib.t.a=p,lib.t.b=f|boom~pass lib.t.a~fail lib.t.b~==== Summary~pass 1 of 2~fail 1 of 2~skip 0 of 2~Some failed!~|t
vq|boom~,lib.t.a=p,lib.t.b=f|pass lib.t.a~fail lib.t.b~==== Summary~pass 1 of 2~fail 1 of 2~skip 0 of 2~Some failed!~|t
0|boom~,lib.t.a=p,lib.t.b=f|boom~pass lib.t.a~fail lib.t.b~==== Summary~pass 1 of 2~fail 1 of 2~skip 0 of 2~Some failed!~|d
-|boom~,lib.t.a=f,lib.t.b=f|boom~fail lib.t.a~fail lib.t.b~==== Summary~pass 0 of 2~fail 2 of 2~skip 0 of 2~Some failed!~|t
-|fine~,lib.t.a=p|pass lib.t.a~==== Summary~pass 1 of 1~fail 0 of 1~skip 0 of 1~All passed!~|d
v|fine~,lib.t.a=p|fine~pass lib.t.a~==== Summary~pass 1 of 1~fail 0 of 1~skip 0 of 1~All passed!~|d
vq|fine~,lib.t.a=p|pass lib.t.a~==== Summary~pass 1 of 1~fail 0 of 1~skip 0 of 1~All passed!~|d
v|fine,lib.t.a=p|fine~pass lib.t.a~==== Summary~pass 1 of 1~fail 0 of 1~skip 0 of 1~All passed!~|d
v|~,lib.t.a=p|~pass lib.t.a~==== Summary~pass 1 of 1~fail 0 of 1~skip 0 of 1~All passed!~|d
v|a~~b,lib.t.a=p|a~~b~pass lib.t.a~==== Summary~pass 1 of 1~fail 0 of 1~skip 0 of 1~All passed!~|d
v|,lib.t.a=p|pass lib.t.a~==== Summary~pass 1 of 1~fail 0 of 1~skip 0 of 1~All passed!~|d
-|left~,lib.t.a=p,lib.t.b=s|left~pass lib.t.a~skip lib.t.b~==== Summary~pass 1 of 2~fail 0 of 2~skip 1 of 2~Some failed!~|t
-|one~,lib.t.a=p/two~,lib.t.b=f/three~,lib.u.all=s|pass lib.t.a~two~fail lib.t.b~three~skip lib.u.all~==== Summary~pass 1 of 3~fail 1 of 3~skip 1 of 3~Some failed!~|t
v|one~,lib.t.a=p/two~,lib.t.b=f/three~,lib.u.all=s|one~pass lib.t.a~two~fail lib.t.b~three~skip lib.u.all~==== Summary~pass 1 of 3~fail 1 of 3~skip 1 of 3~Some failed!~|t
q|one~,lib.t.a=p/two~,lib.t.b=f/three~,lib.u.all=s|pass lib.t.a~fail lib.t.b~skip lib.u.all~==== Summary~pass 1 of 3~fail 1 of 3~skip 1 of 3~Some failed!~|t
-|,lib.t.a=p/,tb_lib.t.count & wrap=p|pass lib.t.a~pass tb_lib.t.count & wrap~==== Summary~pass 2 of 2~fail 0 of 2~skip 0 of 2~All passed!~|d
-|,lib.t.é=f|fail lib.t.é~==== Summary~pass 0 of 1~fail 1 of 1~skip 0 of 1~Some failed!~|t
-|,t.a=p,t.b=p,t.c=p,t.d=p,t.e=p,t.f=p,t.g=p,t.h=p,t.i=p,t.j=s|pass t.a~pass t.b~pass t.c~pass t.d~pass t.e~pass t.f~pass t.g~pass t.h~pass t.i~skip t.j~==== Summary~pass 9 of 10~fail 0 of 10~skip 1 of 10~Some failed!~|t
-|,t.a=p,t.b=n|pass t.a~==== Summary~pass 1 of 1~fail 0 of 1~skip 0 of 1~All passed!~|d
";

/// One row per line: the runs with a `/` between two, and after a `|` the wanted XML. `~` stands for a line feed. A run is its
/// library, its bench, the letters of its verdicts and its cases, with commas between them; `*` is a bench that names no case itself.
static RUNS: &str = "\
|<?xml version=\"1.0\" encoding=\"utf-8\"?>~<testsuite name=\"testsuite\" tests=\"0\" failures=\"0\" skipped=\"0\" errors=\"0\">~</testsuite>~
lib,t,pfs,a,b,c|<?xml version=\"1.0\" encoding=\"utf-8\"?>~<testsuite name=\"testsuite\" tests=\"3\" failures=\"1\" skipped=\"1\" errors=\"0\">~  <testcase classname=\"lib.t\" name=\"a\"/>~  <testcase classname=\"lib.t\" name=\"b\">~    <failure message=\"Failed\"/>~  </testcase>~  <testcase classname=\"lib.t\" name=\"c\">~    <skipped/>~  </testcase>~</testsuite>~
lib,t,p,a/lib,t,f,b/lib,t,s,c|<?xml version=\"1.0\" encoding=\"utf-8\"?>~<testsuite name=\"testsuite\" tests=\"3\" failures=\"1\" skipped=\"1\" errors=\"0\">~  <testcase classname=\"lib.t\" name=\"a\"/>~  <testcase classname=\"lib.t\" name=\"b\">~    <failure message=\"Failed\"/>~  </testcase>~  <testcase classname=\"lib.t\" name=\"c\">~    <skipped/>~  </testcase>~</testsuite>~
tb_lib,tb_counter,p,reset/tb_lib,tb_counter,p,count & wrap|<?xml version=\"1.0\" encoding=\"utf-8\"?>~<testsuite name=\"testsuite\" tests=\"2\" failures=\"0\" skipped=\"0\" errors=\"0\">~  <testcase classname=\"tb_lib.tb_counter\" name=\"reset\"/>~  <testcase classname=\"tb_lib.tb_counter\" name=\"count &amp; wrap\"/>~</testsuite>~
lib,t,p,*|<?xml version=\"1.0\" encoding=\"utf-8\"?>~<testsuite name=\"testsuite\" tests=\"1\" failures=\"0\" skipped=\"0\" errors=\"0\">~  <testcase classname=\"lib.t\" name=\"all\"/>~</testsuite>~
lib,t,f,*|<?xml version=\"1.0\" encoding=\"utf-8\"?>~<testsuite name=\"testsuite\" tests=\"1\" failures=\"1\" skipped=\"0\" errors=\"0\">~  <testcase classname=\"lib.t\" name=\"all\">~    <failure message=\"Failed\"/>~  </testcase>~</testsuite>~
lib,t,,*|<?xml version=\"1.0\" encoding=\"utf-8\"?>~<testsuite name=\"testsuite\" tests=\"0\" failures=\"0\" skipped=\"0\" errors=\"0\">~</testsuite>~
lib,t,s,all|<?xml version=\"1.0\" encoding=\"utf-8\"?>~<testsuite name=\"testsuite\" tests=\"1\" failures=\"0\" skipped=\"1\" errors=\"0\">~  <testcase classname=\"lib.t\" name=\"all\">~    <skipped/>~  </testcase>~</testsuite>~
lib,\\a.b\\,p,c.d|<?xml version=\"1.0\" encoding=\"utf-8\"?>~<testsuite name=\"testsuite\" tests=\"1\" failures=\"0\" skipped=\"0\" errors=\"0\">~  <testcase classname=\"lib.\\a.b\\\" name=\"c.d\"/>~</testsuite>~
a,t,s,x/b,t,s,*/c,t,ff,y,z|<?xml version=\"1.0\" encoding=\"utf-8\"?>~<testsuite name=\"testsuite\" tests=\"4\" failures=\"2\" skipped=\"2\" errors=\"0\">~  <testcase classname=\"a.t\" name=\"x\">~    <skipped/>~  </testcase>~  <testcase classname=\"b.t\" name=\"all\">~    <skipped/>~  </testcase>~  <testcase classname=\"c.t\" name=\"y\">~    <failure message=\"Failed\"/>~  </testcase>~  <testcase classname=\"c.t\" name=\"z\">~    <failure message=\"Failed\"/>~  </testcase>~</testsuite>~
lib,t,pppppppppppp,a,b,c,d,e,f,g,h,i,j,k,l|<?xml version=\"1.0\" encoding=\"utf-8\"?>~<testsuite name=\"testsuite\" tests=\"12\" failures=\"0\" skipped=\"0\" errors=\"0\">~  <testcase classname=\"lib.t\" name=\"a\"/>~  <testcase classname=\"lib.t\" name=\"b\"/>~  <testcase classname=\"lib.t\" name=\"c\"/>~  <testcase classname=\"lib.t\" name=\"d\"/>~  <testcase classname=\"lib.t\" name=\"e\"/>~  <testcase classname=\"lib.t\" name=\"f\"/>~  <testcase classname=\"lib.t\" name=\"g\"/>~  <testcase classname=\"lib.t\" name=\"h\"/>~  <testcase classname=\"lib.t\" name=\"i\"/>~  <testcase classname=\"lib.t\" name=\"j\"/>~  <testcase classname=\"lib.t\" name=\"k\"/>~  <testcase classname=\"lib.t\" name=\"l\"/>~</testsuite>~
lib,t,p,a,b|<?xml version=\"1.0\" encoding=\"utf-8\"?>~<testsuite name=\"testsuite\" tests=\"1\" failures=\"0\" skipped=\"0\" errors=\"0\">~  <testcase classname=\"lib.t\" name=\"a\"/>~</testsuite>~
";

/// A row a line: a name, and the same in a value, with a stroke between them.
static NAMES: &str = "\
a|a
&|&amp;
<|&lt;
>|&gt;
\"|&quot;
'|&apos;
&&|&amp;&amp;
&amp;|&amp;amp;
<a href=\"x\">'&'</a>|&lt;a href=&quot;x&quot;&gt;&apos;&amp;&apos;&lt;/a&gt;
]]>|]]&gt;
<!--|&lt;!--
a b|a b
#;%=`\\~|#;%=`\\~
\u{7f}|\u{7f}
\u{80}|\u{80}
\u{81}|\u{81}
\u{85}|\u{85}
\u{90}|\u{90}
\u{9f}|\u{9f}
\u{a0}|\u{a0}
\u{bf}|\u{bf}
é|é
ÿ&ÿ|ÿ&amp;ÿ
\u{7fe}|\u{7fe}
\u{7ff}|\u{7ff}
\u{800}|\u{800}
€|€
\u{d7ff}|\u{d7ff}
\u{e000}|\u{e000}
\u{efbe}|\u{efbe}
\u{efff}|\u{efff}
\u{fbbe}|\u{fbbe}
\u{feff}|\u{feff}
\u{ffbe}|\u{ffbe}
\u{ffbf}|\u{ffbf}
\u{fffb}|\u{fffb}
\u{fffc}|\u{fffc}
\u{fffd}|\u{fffd}
\u{fffe}|\u{fffd}
\u{ffff}|\u{fffd}
\u{fffe}\u{ffff}|\u{fffd}\u{fffd}
\u{ffff}\u{fffe}\u{fffe}|\u{fffd}\u{fffd}\u{fffd}
<\u{ffff}>|&lt;\u{fffd}&gt;
é\u{fffe}é|é\u{fffd}é
\u{10000}|\u{10000}
\u{1f600}|\u{1f600}
\u{1fffe}|\u{1fffe}
\u{1ffff}|\u{1ffff}
\u{2fffe}&|\u{2fffe}&amp;
\u{fffff}|\u{fffff}
\u{10fffe}|\u{10fffe}
\u{10ffff}|\u{10ffff}
";

/// Bytes with a line feed in place of each `~`.
fn expand_lines(alloc: Global, bytes: &[u8]) -> Result<Vec<u8>, NoMemory> {
    let mut out = Vec::new(alloc);
    for byte in bytes {
        out.push(if *byte == b'~' { b'\n' } else { *byte })?;
    }
    Ok(out)
}

fn text(alloc: Global, bytes: &[u8]) -> Result<Text, NoMemory> {
    Text::from_slice(alloc, bytes)
}

/// A part of a row, of those with a status between two.
fn part(row: &str, status: char, at: usize) -> &str {
    row.split(status).nth(at).unwrap_or("")
}

/// Whether there is a letter among the words of a row.
fn has(words: &str, letter: u8) -> bool {
    words.as_bytes().contains(&letter)
}

/// Adds the verdict of a letter; none for other letters.
fn push_verdict(verdicts: &mut VerdictList, letter: u8) -> Result<(), NoMemory> {
    match letter {
        b'p' => verdicts.push(Verdict::Passed),
        b'f' => verdicts.push(Verdict::Failed),
        b's' => verdicts.push(Verdict::Skipped),
        _ => Ok(()),
    }
}

/// The full names of the cases of a run, as a row says it.
fn names_of(alloc: Global, run: &str) -> Result<TextList, NoMemory> {
    let mut names = TextList::new(alloc);
    for case in run.split(',').skip(1) {
        if let [name @ .., _delimiter, _letter] = case.as_bytes() {
            names.push(text(alloc, name)?)?;
        }
    }
    Ok(names)
}

/// Their verdicts.
fn verdicts_of(alloc: Global, run: &str) -> Result<VerdictList, NoMemory> {
    let mut verdicts = VerdictList::new(alloc);
    for case in run.split(',').skip(1) {
        if let [.., letter] = case.as_bytes() {
            push_verdict(&mut verdicts, *letter)?;
        }
    }
    Ok(verdicts)
}

/// The end of a run that a row gives: its case names, verdicts and output.
fn end_of(alloc: Global, run: &str) -> Result<RunEnd, NoMemory> {
    let names = names_of(alloc, run)?;
    let verdicts = verdicts_of(alloc, run)?;
    let output = expand_lines(alloc, part(run, ',', 0).as_bytes())?;
    Ok(RunEnd {
        names,
        verdicts,
        output: Text::from_vec(output),
    })
}

pub(super) fn ends_of(alloc: Global, runs: &str) -> Result<TestEnd, NoMemory> {
    let mut list = RunList::new(alloc);
    for run in runs.split('/') {
        list.push(end_of(alloc, run)?)?;
    }
    Ok(TestEnd { runs: list })
}

/// The letter of an answer.
fn letter(outcome: &Outcome) -> &'static str {
    match outcome {
        Outcome::Done => "d",
        Outcome::TestsFailed => "t",
        _ => "another answer",
    }
}

/// Whether a text is what a row wants.
pub(super) fn is_wanted(alloc: Global, text: &Text, wanted: &str) -> Result<bool, NoMemory> {
    let wanted = expand_lines(alloc, wanted.as_bytes())?;
    Ok(text.bytes() == wanted.as_slice())
}

/// What is put of runs.
fn text_of_verdicts(alloc: Global, words: &str, runs: &str) -> Result<Text, NoMemory> {
    let end = ends_of(alloc, runs)?;
    test_text(alloc, &end, has(words, b'v'), has(words, b'q'))
}

/// Whether it is what a row wants.
fn is_said(alloc: Global, row: &str) -> Result<bool, NoMemory> {
    let text = text_of_verdicts(alloc, part(row, '|', 0), part(row, '|', 1))?;
    is_wanted(alloc, &text, part(row, '|', 2))
}

/// Whether runs are answered as a row wants it.
fn is_answered(alloc: Global, row: &str) -> Result<bool, NoMemory> {
    let end = ends_of(alloc, part(row, '|', 1))?;
    let answer = letter(&tests_outcome(&end, has(part(row, '|', 0), b'0')));
    Ok(answer == part(row, '|', 3))
}

#[test]
fn ends_are_said_and_answered(rt: HostRuntime) -> Result<(), Fail> {
    for row in ENDS.lines() {
        assert!(rt; is_said(rt.alloc(), row)?, "{row}");
        assert!(rt; is_answered(rt.alloc(), row)?, "{row}");
    }
    Ok(())
}

/// A run of cases, or where `whole` is true of a bench that names none itself.
fn run_of(
    alloc: Global,
    library: &[u8],
    bench: &[u8],
    cases: TextList,
    whole: bool,
) -> Result<TestRun, NoMemory> {
    let library = text(alloc, library)?;
    let bench = text(alloc, bench)?;
    Ok(TestRun {
        library,
        bench,
        architecture: Text::new(alloc),
        cases,
        whole,
        same_sim: false,
        path: Text::new(alloc),
    })
}

/// The names of the cases of a run, as a row says it.
fn cases_in(alloc: Global, run: &str) -> Result<TextList, NoMemory> {
    let mut cases = TextList::new(alloc);
    for case in run.split(',').skip(3) {
        if case != "*" {
            cases.push(text(alloc, case.as_bytes())?)?;
        }
    }
    Ok(cases)
}

/// The run itself: its library, its bench and its cases.
fn run_in(alloc: Global, run: &str) -> Result<TestRun, NoMemory> {
    let cases = cases_in(alloc, run)?;
    let whole = part(run, ',', 3) == "*";
    run_of(
        alloc,
        part(run, ',', 0).as_bytes(),
        part(run, ',', 1).as_bytes(),
        cases,
        whole,
    )
}

/// The end of a run with the verdicts of a row, and without names and output.
fn end_in(alloc: Global, run: &str) -> Result<RunEnd, NoMemory> {
    let mut verdicts = VerdictList::new(alloc);
    for letter in part(run, ',', 2).as_bytes() {
        push_verdict(&mut verdicts, *letter)?;
    }
    Ok(RunEnd {
        names: TextList::new(alloc),
        verdicts,
        output: Text::new(alloc),
    })
}

fn runs_in(alloc: Global, runs: &str) -> Result<TestRunList, NoMemory> {
    let mut list = TestRunList::new(alloc);
    for run in runs.split('/') {
        list.push(run_in(alloc, run)?)?;
    }
    Ok(list)
}

fn ends_in(alloc: Global, runs: &str) -> Result<TestEnd, NoMemory> {
    let mut list = RunList::new(alloc);
    for run in runs.split('/') {
        list.push(end_in(alloc, run)?)?;
    }
    Ok(TestEnd { runs: list })
}

/// What is written of runs, with the verdicts that a row says.
fn text_of_report(alloc: Global, list: &TestRunList, runs: &str) -> Result<Text, NoMemory> {
    let end = ends_in(alloc, runs)?;
    junit(alloc, list, &end)
}

/// What is written of the runs of a row.
fn row_written(alloc: Global, runs: &str) -> Result<Text, NoMemory> {
    let list = runs_in(alloc, runs)?;
    text_of_report(alloc, &list, runs)
}

/// Whether it is what the row wants.
fn is_written(alloc: Global, runs: &str, wanted: &str) -> Result<bool, NoMemory> {
    let text = row_written(alloc, runs)?;
    is_wanted(alloc, &text, wanted)
}

#[test]
fn runs_are_written(rt: HostRuntime) -> Result<(), Fail> {
    for row in RUNS.lines() {
        assert!(rt;
            is_written(rt.alloc(), part(row, '|', 0), part(row, '|', 1))?,
            "{row}"
        );
    }
    Ok(())
}

/// One run with one case, where the library, the bench and the case have this name.
fn named_run(alloc: Global, name: &[u8]) -> Result<TestRun, NoMemory> {
    let mut cases = TextList::new(alloc);
    cases.push(text(alloc, name)?)?;
    run_of(alloc, name, name, cases, false)
}

fn named_runs(alloc: Global, name: &[u8]) -> Result<TestRunList, NoMemory> {
    let mut runs = TestRunList::new(alloc);
    runs.push(named_run(alloc, name)?)?;
    Ok(runs)
}

/// What is written of it where the case has passed.
fn name_written(alloc: Global, name: &[u8]) -> Result<Text, NoMemory> {
    let runs = named_runs(alloc, name)?;
    text_of_report(alloc, &runs, ",,p")
}

/// The same by what the name is in a value.
fn named_text(alloc: Global, value: &[u8]) -> Result<Vec<u8>, NoMemory> {
    let mut out = Vec::new(alloc);
    out.extend_from_slice(
        b"<?xml version=\"1.0\" encoding=\"utf-8\"?>\n<testsuite name=\"testsuite\" tests=\"1\" failures=\"0\" skipped=\"0\" errors=\"0\">\n  <testcase classname=\"",
    )?;
    out.extend_from_slice(value)?;
    out.extend_from_slice(b".")?;
    out.extend_from_slice(value)?;
    out.extend_from_slice(b"\" name=\"")?;
    out.extend_from_slice(value)?;
    out.extend_from_slice(b"\"/>\n</testsuite>\n")?;
    Ok(out)
}

/// Whether a name is so in a value.
fn is_value(alloc: Global, name: &[u8], value: &[u8]) -> Result<bool, NoMemory> {
    let text = name_written(alloc, name)?;
    let wanted = named_text(alloc, value)?;
    Ok(text.bytes() == wanted.as_slice())
}

#[test]
fn names_are_values(rt: HostRuntime) -> Result<(), Fail> {
    for row in NAMES.lines() {
        let name = part(row, '|', 0);
        assert!(rt;
            is_value(rt.alloc(), name.as_bytes(), part(row, '|', 1).as_bytes())?,
            "{row}"
        );
    }
    Ok(())
}

/// Bytes that aren't UTF-8, and control characters, are copied unchanged.
#[test]
fn other_bytes_are_kept(rt: HostRuntime) -> Result<(), Fail> {
    assert!(rt; is_value(rt.alloc(), b"\x80\xbe\xbf\xff", b"\x80\xbe\xbf\xff")?);
    assert!(rt; is_value(rt.alloc(), b"\xef\xbf", b"\xef\xbf")?);
    assert!(rt; is_value(rt.alloc(), b"\xbe\xef\xbf\xc0", b"\xbe\xef\xbf\xc0")?);
    assert!(rt; is_value(rt.alloc(), b"\x00\x09\x0a\x1f&", b"\x00\x09\x0a\x1f&amp;")?);
    Ok(())
}

/// The byte `x`, repeated `bytes` times, and the byte `last`.
fn fill_bytes(alloc: Global, bytes: usize, last: u8) -> Result<Vec<u8>, NoMemory> {
    let mut out = vec![in alloc; b'x'; bytes]?;
    out.push(last)?;
    Ok(out)
}

/// A failed run with these bytes as its output.
fn long_end(alloc: Global, bytes: usize, last: u8) -> Result<RunEnd, NoMemory> {
    let names = names_of(alloc, ",lib.t.a=f")?;
    let verdicts = verdicts_of(alloc, ",lib.t.a=f")?;
    let output = fill_bytes(alloc, bytes, last)?;
    Ok(RunEnd {
        names,
        verdicts,
        output: Text::from_vec(output),
    })
}

fn long_ends(alloc: Global, bytes: usize, last: u8) -> Result<TestEnd, NoMemory> {
    let mut runs = RunList::new(alloc);
    runs.push(long_end(alloc, bytes, last)?)?;
    Ok(TestEnd { runs })
}

/// The text that is printed for this run.
fn long_said(alloc: Global, bytes: usize, last: u8) -> Result<Text, NoMemory> {
    let end = long_ends(alloc, bytes, last)?;
    test_text(alloc, &end, false, false)
}

/// The wanted text if `shown` bytes of the output are printed.
fn cut_text(alloc: Global, shown: usize) -> Result<Vec<u8>, NoMemory> {
    let mut out = fill_bytes(alloc, shown, b'\n')?;
    out.extend_from_slice(
        b"fail lib.t.a\n==== Summary\npass 0 of 1\nfail 1 of 1\nskip 0 of 1\nSome failed!\n",
    )?;
    Ok(out)
}

/// Whether of an output of `bytes` bytes and the byte `last`, `shown` bytes and a line feed are printed.
fn is_cut(alloc: Global, bytes: usize, last: u8, shown: usize) -> Result<bool, NoMemory> {
    let text = long_said(alloc, bytes, last)?;
    let wanted = cut_text(alloc, shown)?;
    Ok(text.bytes() == wanted.as_slice())
}

#[test]
fn long_outputs_are_cut(rt: HostRuntime) -> Result<(), Fail> {
    assert!(rt; is_cut(rt.alloc(), 4_094, b'x', 4_095)?);
    assert!(rt; is_cut(rt.alloc(), 4_095, b'x', 4_096)?);
    assert!(rt; is_cut(rt.alloc(), 4_095, b'\n', 4_095)?);
    assert!(rt; is_cut(rt.alloc(), 4_096, b'\n', 4_096)?);
    assert!(rt; is_cut(rt.alloc(), 9_000, b'x', 4_096)?);
    Ok(())
}
