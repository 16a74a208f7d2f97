//! Results texts, each with the verdicts that were worked out by hand.

use base::{MaybeText, NoMemory, Text, TextList};
use std::alloc::Global;
use std::test::Fail;
use testbench_runs::{Verdict, verdicts};

/// One row per line, with `|` between its parts: the cases, the code, the results and the wanted verdicts. A comma stands
/// between two cases; `*` is a bench that names no case itself. In results `~` stands for a line feed and `^` for a carriage
/// return; `-` stands for missing results. A verdict is its first letter.
static ROWS: &str = "\
a|0|-|f
a,b|0|-|ff
a,b,c|256|-|fff
*|0|-|f
*|1|-|f
*|0||f
*|0|test_suite_done|p
*|0|test_suite_done~|p
*|0|test_suite_done^~|p
*|0|test_suite_done^|p
*|1|test_suite_done~|f
*|256|test_suite_done~|f
*|0|test_start:all~test_suite_done~|p
*|0|test_start:all~|f
*|0|test_suite_don~|f
*|0|test_suite_done ~|f
*|0| test_suite_done~|f
*|0|Test_suite_done~|f
*|0|test_suite_done^^~|f
*|0|test_suite_done~rest|p
*|0|rest~test_suite_done|p
*|0|resttest_suite_done|f
a|0||s
a|0|~|s
a|0|test_suite_done~|s
a|1|test_suite_done~|s
a|0|test_start:a~test_suite_done~|p
a|0|test_start:a~test_suite_done|p
a|0|test_start:a^~test_suite_done^~|p
a|0|test_start:a^~test_suite_done^|p
a|0|test_start:a~|f
a|0|test_start:a|f
a|0|test_start:a^|f
a|1|test_start:a~test_suite_done~|f
a|75|test_start:a~test_suite_done~|f
a|257|test_start:a~test_suite_done~|f
a|0|test_start:a^^~test_suite_done~|s
a|0|test_start:b~test_suite_done~|s
a|0|test_start:~test_suite_done~|s
a|0|test_start:aa~test_suite_done~|s
a|0|test_start: a~test_suite_done~|s
a|0|test_start:a ~test_suite_done~|s
a|0| test_start:a~test_suite_done~|s
a|0|TEST_START:a~test_suite_done~|s
a|0|test_start:A~test_suite_done~|s
a|0|test_start a~test_suite_done~|s
a|0|test_star~test_suite_done~|s
a|0|^~test_start:a~^~test_suite_done~|p
a|0|test_start:a^test_suite_done~|s
a|0|test_suite_done~test_start:a~|p
a|0|test_suite_done~test_start:a~other~|p
a|0|test_start:a~test_start:a~test_suite_done~|p
a|1|test_start:a~test_start:a~test_suite_done~|f
a,b|0|test_start:a~test_start:b~|pf
a,b|0|test_start:a~test_start:b~test_suite_done~|pp
a,b|1|test_start:a~test_start:b~test_suite_done~|pf
a,b|1|test_start:b~test_start:a~test_suite_done~|fp
a,b|0|test_start:b~|sf
a,b|0|test_start:b~test_suite_done~|sp
a,b|0|test_start:a~test_suite_done~|ps
a,b|0|test_start:a~|fs
a,b|1|test_start:a~test_start:b~test_start:a~test_suite_done~|fp
a,b|0|test_start:a~test_start:b~test_start:a~|fp
a,b|1|test_start:a~test_start:a~test_start:b~test_suite_done~|pf
a,b|0|test_start:a~test_suite_done~test_start:b~|pp
a,b|1|test_start:a~test_suite_done~test_start:b~|pf
a,b|0|test_start:a~test_start:x~|fs
a,b|0|test_start:x~test_start:y~test_suite_done~|ss
a,b|0|test_start:a~test_start:b~test_start:x~test_suite_done~|pp
a,b|1|test_start:a~test_start:b~test_start:x~|pf
a,a|0|test_start:a~|ff
a,a|0|test_start:a~test_suite_done~|pp
a,a,b|0|test_start:a~test_start:b~|ppf
a,ab|0|test_start:ab~|sf
ab,a|0|test_start:a~test_start:ab~test_suite_done|pp
c,b,a|0|test_start:a~test_start:c~test_start:b~|pfp
c,b,a|0|test_start:b~|sfs
a b,c:d|0|test_start:a b~test_start:c:d~|pf
test_start:a|0|test_start:test_start:a~test_suite_done~|p
test_suite_done|0|test_start:test_suite_done~|f
test_suite_done|0|test_start:test_suite_done~test_suite_done~|p
é|0|test_start:é~test_suite_done~|p
é|0|test_start:e~test_suite_done~|s
|0|test_start:~|f
|0|test_start~|s
,a|0|test_start:a~test_start:~test_suite_done|pp
a,b,c,d,e|2|test_start:e~test_start:d~test_start:c~|ssfpp
";

/// The cases of a row; none for `*`.
fn cases_of(alloc: Global, names: &str) -> Result<TextList, NoMemory> {
    let mut cases = TextList::new(alloc);
    if names == "*" {
        return Ok(cases);
    }
    for name in names.split(',') {
        cases.push(Text::from_slice(alloc, name.as_bytes())?)?;
    }
    Ok(cases)
}

/// The bytes with the ends of lines in place of what stands for them.
fn unfolded(alloc: Global, bytes: &[u8]) -> Result<Vec<u8>, NoMemory> {
    let mut out = Vec::new(alloc);
    for byte in bytes {
        out.push(match *byte {
            b'~' => b'\n',
            b'^' => b'\r',
            other => other,
        })?;
    }
    Ok(out)
}

/// The results of a row.
fn results_of(alloc: Global, text: &str) -> Result<MaybeText, NoMemory> {
    if text == "-" {
        return Ok(MaybeText::Nothing);
    }
    Ok(MaybeText::Given(Text::from_vec(unfolded(alloc, text.as_bytes())?)))
}

/// The number that digits say.
fn number(digits: &[u8]) -> u32 {
    let mut number = 0u32;
    for digit in digits {
        let value = digit.saturating_sub(b'0') as u32;
        number = number.saturating_mul(10).saturating_add(value);
    }
    number
}

fn letter(verdict: Verdict) -> u8 {
    match verdict {
        Verdict::Passed => b'p',
        Verdict::Failed => b'f',
        Verdict::Skipped => b's',
    }
}

/// The first letters of the verdicts.
fn letters(
    alloc: Global,
    names: &str,
    code: &str,
    results: &MaybeText,
) -> Result<Vec<u8>, NoMemory> {
    let cases = cases_of(alloc, names)?;
    let code = number(code.as_bytes());
    let mut letters = Vec::new(alloc);
    for verdict in verdicts(alloc, &cases, names == "*", code, results)?.as_slice() {
        letters.push(letter(*verdict))?;
    }
    Ok(letters)
}

#[test]
fn results_give_the_verdicts_of_the_table(rt: HostRuntime) -> Result<(), Fail> {
    for row in ROWS.lines() {
        let mut parts = row.split('|');
        let (Some(names), Some(code), Some(text), Some(wanted)) = (
            parts.next(),
            parts.next(),
            parts.next(),
            parts.next(),
        ) else {
            return Err(Fail::new("a row of another form"));
        };
        let results = results_of(rt.alloc(), text)?;
        let found = letters(rt.alloc(), names, code, &results)?;
        assert!(rt; found.as_slice() == wanted.as_bytes(), "{row}");
    }
    Ok(())
}

/// Results that aren't UTF-8: one case is named by the byte 255, and lines have such bytes.
#[test]
fn names_are_bytes(rt: HostRuntime) -> Result<(), Fail> {
    let mut cases = TextList::new(rt.alloc());
    cases.push(Text::from_slice(rt.alloc(), b"\xff")?)?;
    let text = b"\xfe\xff\ntest_start:\xff\n\x80\ntest_suite_done";
    let results = MaybeText::Given(Text::from_slice(rt.alloc(), text)?);
    let found = verdicts(rt.alloc(), &cases, false, 0, &results)?;
    assert!(rt; matches!(found.as_slice(), [Verdict::Passed]));
    Ok(())
}
