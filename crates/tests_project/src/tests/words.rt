//! Tests of what words say.

use base::{MaybeText, NoMemory, Text, TextList};
use std::alloc::Global;
use std::process::Abort;
use std::test::Fail;
use vunit_arguments::{ArgumentsFault, Setting, read_arguments};

/// A line each: the words, a colon, and what they say: a letter for each flag that is given, in the order of the fields,
/// the threads, the size, the two files and the patterns.
static ROWS: &str = "\
: 1 0 - - *
--compile:c 1 0 - - *
-lfkmvq --fail-fast --clean --exit-0:lfmkaeovq 1 0 - - *
-q -v -k -f -l:lfkvq 1 0 - - *
-p 8 -k --compile:ck 8 0 - - *
-p8 --list a.b.* c:l 8 0 - - a.b.* c
--num-threads=64 --files:f 64 0 - - *
-p 18446744073709551615: 18446744073709551615 0 - - *
-p +3: 3 0 - - *
-x out.xml --export-json e.json: 1 0 out.xml e.json *
--xunit-xml=a=b x -l:l 1 0 a=b - x
-- -l --frob: 1 0 - - -l --frob
--generate 10 -p 2: 2 10 - - *
-p 0:bad
-p 18446744073709551616:bad
-p x:bad
-p:bad
-x:bad
-m a.*:m 1 0 - - a.*
--minimal -f:fm 1 0 - - *
-m --minimal:bad
--min:bad
--frob:bad
-h:bad
--help:bad
--version:bad
--compile=1:bad
--compile --compile:bad
-p 1 -p 2:bad
--generate 0:bad
--generate -1:bad
";

fn words_of(alloc: Global, line: &str) -> Result<TextList, NoMemory> {
    let mut words = TextList::new(alloc);
    for word in line.split(' ') {
        if !word.is_empty() {
            words.push(Text::from_slice(alloc, word.as_bytes())?)?;
        }
    }
    Ok(words)
}

fn put(out: &mut Vec<u8>, given: bool, letter: u8) -> Result<(), NoMemory> {
    if given {
        out.push(letter)?;
    }
    Ok(())
}

fn put_flags(out: &mut Vec<u8>, setting: &Setting) -> Result<(), NoMemory> {
    put(out, setting.list, b'l')?;
    put(out, setting.files, b'f')?;
    put(out, setting.compile, b'c')?;
    put(out, setting.minimal, b'm')?;
    put(out, setting.keep_compiling, b'k')?;
    put(out, setting.fail_fast, b'a')?;
    put(out, setting.clean, b'e')?;
    put(out, setting.exit_0, b'o')?;
    put(out, setting.verbose, b'v')?;
    put(out, setting.quiet, b'q')
}

fn put_numbers(alloc: Global, out: &mut Vec<u8>, setting: &Setting) -> Result<(), NoMemory> {
    let numbers = format!(in alloc; " {} {}", setting.num_threads, setting.generate)?;
    out.extend_from_slice(numbers.as_bytes())?;
    Ok(())
}

fn put_text(out: &mut Vec<u8>, text: &Text) -> Result<(), NoMemory> {
    out.push(b' ')?;
    out.extend_from_slice(text.bytes())?;
    Ok(())
}

fn put_maybe(out: &mut Vec<u8>, text: &MaybeText) -> Result<(), NoMemory> {
    match text {
        MaybeText::Nothing => Ok(out.extend_from_slice(b" -")?),
        MaybeText::Given(text) => put_text(out, text),
    }
}

fn put_line(alloc: Global, out: &mut Vec<u8>, setting: &Setting) -> Result<(), NoMemory> {
    put_flags(out, setting)?;
    put_numbers(alloc, out, setting)?;
    put_maybe(out, &setting.xunit_xml)?;
    put_maybe(out, &setting.export_json)?;
    for pattern in setting.patterns.as_slice() {
        put_text(out, pattern)?;
    }
    Ok(())
}

fn line_of(alloc: Global, setting: &Setting) -> Result<Vec<u8>, NoMemory> {
    let mut out = Vec::new(alloc);
    put_line(alloc, &mut out, setting)?;
    Ok(out)
}

fn said(alloc: Global, words: &TextList) -> Result<Vec<u8>, NoMemory> {
    match read_arguments(alloc, words) {
        Ok(setting) => line_of(alloc, &setting),
        Err(ArgumentsFault::Bad) => Ok(Vec::from_slice(alloc, b"bad")?),
        Err(ArgumentsFault::NoMemory) => Err(NoMemory),
    }
}

/// Whether words say this.
fn say(alloc: Global, words: &TextList, wanted: &[u8]) -> Result<bool, NoMemory> {
    let said = said(alloc, words)?;
    Ok(said.as_slice() == wanted)
}

/// Whether the words of a line say what stands there.
fn is_right(alloc: Global, line: &str) -> Result<bool, NoMemory> {
    match line.split_once(':') {
        Some((words, wanted)) => {
            let words = words_of(alloc, words)?;
            say(alloc, &words, wanted.as_bytes())
        }
        None => Ok(false),
    }
}

#[test]
fn words_say_what_clap_reads(rt: HostRuntime) -> Result<(), Fail> {
    for line in ROWS.lines() {
        assert!(rt; is_right(rt.alloc(), line)?, "{line}");
    }
    Ok(())
}

/// A valid argument, followed by an argument of a byte that isn't UTF-8.
fn foreign_words(alloc: Global) -> Result<TextList, NoMemory> {
    let mut words = words_of(alloc, "--compile")?;
    words.push(Text::from_slice(alloc, b"\xff")?)?;
    Ok(words)
}

#[test]
fn words_are_utf8(rt: HostRuntime) -> Result<(), Fail> {
    let words = foreign_words(rt.alloc())?;
    assert!(rt; say(rt.alloc(), &words, b"bad")?);
    Ok(())
}
