//! Patterns and names whose answers follow from the rules by hand.

use base::{NoMemory, Text};
use base_outcomes::{Bench, CaseList, TestCase, Tests};
use std::alloc::Global;
use std::test::Fail;
use testbench_select::{PatternList, full_name, matches, read_pattern, select};

fn is_match(alloc: Global, pattern: &[u8], name: &[u8]) -> Result<bool, NoMemory> {
    Ok(matches(&read_pattern(alloc, pattern)?, name))
}

// pattern, name, 1 where it matches: parts of a line, which a blank ends
static ROWS: &str = "\
* lib.tb.a 1
*.b* tb_lib.tb_x.b,c 1
*.b* tb_lib.tb_x.a 0
[ tb_lib.tb_x.a 0
[ [ 1
[!a]* tb_lib.tb_x.a 1
[!a]* a 0
[a]* tb_lib.tb_x.a 0
[]] ] 1
[]] [ 0
[!]] ] 0
[!]] x 1
[!] [!] 1
[!] x 0
[] [] 1
[]a]b ab 1
[]a]b ]b 1
[a-c] b 1
[a-c] - 0
[c-a] b 0
[c-a]b ab 0
[a-] - 1
[-a] - 1
[a-c-e] d 0
[a-c-e] - 1
[a-c-e] e 1
[--0] . 1
[--0] a 0
[!a-c] b 0
[!a-c] d 1
? a 1
? ab 0
?? ab 1
a?c abc 1
a?c ac 0
a*c ac 1
a*c abbc 1
a*c abcd 0
a*a a 0
a*b*c axbxbxc 1
a*b*c axcxb 0
** x 1
*a*a*a aaa 1
*a*a*a aa 0
*ab aab 1
*[ab]c*d xacybczd 1
a*[ a[ 1
a[*] a* 1
a[*] ab 0
a[?]c a?c 1
ab a 0
ab abc 0
abc abc 1
A a 0
*abab*ab ababab 1
*abab*ab abab 0
";

#[test]
fn patterns_match_as_the_rules_say(rt: HostRuntime) -> Result<(), Fail> {
    for line in ROWS.lines() {
        let mut parts = line.split(' ');
        let (Some(pattern), Some(name), Some(wanted)) = (parts.next(), parts.next(), parts.next())
        else {
            return Err(Fail::new("a row of another form"));
        };
        let found = is_match(rt.alloc(), pattern.as_bytes(), name.as_bytes())?;
        assert!(rt; found == (wanted == "1"), "{line}");
    }
    Ok(())
}

#[test]
fn the_empty_name_matches_stars_alone(rt: HostRuntime) -> Result<(), Fail> {
    for (pattern, wanted) in [
        ("", true),
        ("*", true),
        ("**", true),
        ("?", false),
        ("[!a]", false),
    ] {
        assert!(rt;
            is_match(rt.alloc(), pattern.as_bytes(), b"")? == wanted,
            "{pattern}"
        );
    }
    Ok(())
}

/// A bench with a case for each word.
fn bench_of(alloc: Global, library: &str, name: &str, words: &str) -> Result<Bench, NoMemory> {
    let mut cases = CaseList::new(alloc);
    for word in words.split(' ') {
        cases.push(TestCase {
            name: Text::from_slice(alloc, word.as_bytes())?,
            file: 0,
            at: 0,
            length: 0,
        })?;
    }
    Ok(Bench {
        library: Text::from_slice(alloc, library.as_bytes())?,
        name: Text::from_slice(alloc, name.as_bytes())?,
        architecture: Text::new(alloc),
        file: 0,
        cases,
        whole: false,
        same_sim: false,
    })
}

/// Two benches, the first with the cases `a` and `b,c` and the second with `one`.
fn two_benches(alloc: Global) -> Result<Tests, NoMemory> {
    let mut tests = Tests::new(alloc);
    tests.push(bench_of(alloc, "tb_lib", "tb_x", "a b,c")?)?;
    tests.push(bench_of(alloc, "lib", "t", "one")?)?;
    Ok(tests)
}

/// Each full name with a blank after it.
fn names_of(alloc: Global, tests: &Tests) -> Result<Vec<u8>, NoMemory> {
    let mut names = Vec::new(alloc);
    for bench in tests.as_slice() {
        for test_case in bench.cases.as_slice() {
            names.extend_from_slice(full_name(alloc, bench, test_case)?.as_slice())?;
            names.push(b' ')?;
        }
    }
    Ok(names)
}

/// The full names that the words of a line select, as patterns.
fn selected_names(alloc: Global, words: &str) -> Result<Vec<u8>, NoMemory> {
    let mut patterns = PatternList::new(alloc);
    for word in words.split(' ') {
        patterns.push(read_pattern(alloc, word.as_bytes())?)?;
    }
    names_of(alloc, &select(alloc, &two_benches(alloc)?, &patterns)?)
}

// patterns, and after a `;` the names that they select, each with a blank after it
static SELECTIONS: &str = "\
*;tb_lib.tb_x.a tb_lib.tb_x.b,c lib.t.one \n\
*.b*;tb_lib.tb_x.b,c \n\
[;\n\
[!a]*;tb_lib.tb_x.a tb_lib.tb_x.b,c lib.t.one \n\
lib.t.one tb_lib.tb_x.a;tb_lib.tb_x.a lib.t.one \n\
lib.t.one lib.t.one;lib.t.one \n\
lib.t;\n\
lib.t.one.;\n\
LIB.t.one;\n\
lib.t.one *.a;tb_lib.tb_x.a lib.t.one \n\
lib.t.[!o]ne lib.?.o??;lib.t.one \n\
**;tb_lib.tb_x.a tb_lib.tb_x.b,c lib.t.one \n\
";

#[test]
fn patterns_select_names_in_order(rt: HostRuntime) -> Result<(), Fail> {
    for line in SELECTIONS.lines() {
        let Some((words, wanted)) = line.split_once(';') else {
            return Err(Fail::new("a row of another form"));
        };
        let found = selected_names(rt.alloc(), words)?;
        assert!(rt; found.as_slice() == wanted.as_bytes(), "{line}");
    }
    Ok(())
}

/// A name of four letters for each number.
fn push_word(name: &mut Vec<u8>, number: u32) -> Result<(), NoMemory> {
    let mut left = number;
    for _letter in 0..4 {
        name.push(b'a' + (left % 26) as u8)?;
        left /= 26;
    }
    Ok(())
}

/// A bench `l.t` with `count` cases, and a pattern for the name of each.
fn many_cases(alloc: Global, count: u32) -> Result<(Tests, PatternList), NoMemory> {
    let mut words = Vec::new(alloc);
    let mut patterns = PatternList::new(alloc);
    for number in 0..count {
        let mut name = Vec::from_slice(alloc, b"l.t.")?;
        push_word(&mut name, number)?;
        patterns.push(read_pattern(alloc, name.as_slice())?)?;
        push_word(&mut words, number)?;
    }
    let mut cases = CaseList::new(alloc);
    for word in words.chunks(4) {
        cases.push(TestCase {
            name: Text::from_slice(alloc, word)?,
            file: 0,
            at: 0,
            length: 0,
        })?;
    }
    let mut tests = Tests::new(alloc);
    tests.push(Bench {
        library: Text::from_slice(alloc, b"l")?,
        name: Text::from_slice(alloc, b"t")?,
        architecture: Text::new(alloc),
        file: 0,
        cases,
        whole: false,
        same_sim: false,
    })?;
    Ok((tests, patterns))
}

#[test]
fn many_names_are_found_by_an_index(rt: HostRuntime) -> Result<(), Fail> {
    let (tests, patterns) = many_cases(rt.alloc(), 65_536)?;
    let selected = select(rt.alloc(), &tests, &patterns)?;
    for bench in selected.as_slice() {
        assert!(rt; bench.cases.len() == 65_536);
    }
    assert!(rt; selected.len() == 1);
    Ok(())
}

#[test]
fn stars_against_a_long_name(rt: HostRuntime) -> Result<(), Fail> {
    let mut name = Vec::new(rt.alloc());
    name.resize(4_194_304, b'a')?;
    assert!(rt; !is_match(rt.alloc(), b"*aa*aab*a*aa*b", name.as_slice())?);
    assert!(rt; is_match(rt.alloc(), b"*aa*a*a*aa", name.as_slice())?);
    Ok(())
}
