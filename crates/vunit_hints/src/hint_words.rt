//! Lines that say why a command line is not valid.

use crate::line::{LineWriter, push_about, push_line};
use crate::nearest_name;
use crate::options::{HELP, LONG, VALUED};
use base::{NoMemory, Text, TextList};
use std::alloc::Global;
use vunit_arguments::{ArgumentsFault, read_arguments};

/// Adds which argument is wrong, and which option was probably meant. If it is `--help` or `-h`, adds a line for each option
/// instead.
pub fn push_words(
    alloc: Global,
    lines: &mut Vec<Vec<u8>>,
    words: &TextList,
) -> Result<(), NoMemory> {
    let words = words.as_slice();
    let Some(at) = wrong_word(alloc, words)? else {
        return Ok(());
    };
    let rest = words.get(at..).unwrap_or(&[]);
    let [word, after @ ..] = rest else {
        return Ok(());
    };
    if word.bytes() == b"--help".as_slice() || word.bytes() == b"-h".as_slice() {
        return push_help(alloc, lines);
    }
    push_wrong(alloc, lines, word.bytes(), after.first())?;
    push_line(alloc, lines, b"--help says what each option does")
}

fn push_help(alloc: Global, lines: &mut Vec<Vec<u8>>) -> Result<(), NoMemory> {
    for line in HELP {
        push_line(alloc, lines, line.as_bytes())?;
    }
    Ok(())
}

/// The index of the first wrong argument, if there is one. The arguments up to it, and it, are not a valid command line,
/// alone or with the next one.
fn wrong_word(alloc: Global, words: &[Text]) -> Result<Option<usize>, NoMemory> {
    let mut good = 0;
    let mut bad = words.len().saturating_add(1);
    for _ in 0..64 {
        let between = bad.saturating_sub(good);
        if between <= 1 {
            break;
        }
        let middle = good.saturating_add(between / 2);
        if can_go_on(alloc, words, middle)? {
            good = middle;
        } else {
            bad = middle;
        }
    }
    if good < words.len() {
        Ok(Some(good))
    } else {
        Ok(None)
    }
}

/// Whether the first `count` arguments are a valid command line, alone or with the next one, which may be the value of the
/// last.
fn can_go_on(alloc: Global, words: &[Text], count: usize) -> Result<bool, NoMemory> {
    if are_words(alloc, words, count)? {
        return Ok(true);
    }
    if count < words.len() {
        are_words(alloc, words, count.saturating_add(1))
    } else {
        Ok(false)
    }
}

/// Whether the first `count` arguments are a valid command line.
fn are_words(alloc: Global, words: &[Text], count: usize) -> Result<bool, NoMemory> {
    let mut first = TextList::new(alloc);
    for word in words.iter().take(count) {
        first.push(word.copy(alloc)?)?;
    }
    match read_arguments(alloc, &first) {
        Ok(_) => Ok(true),
        Err(ArgumentsFault::Bad) => Ok(false),
        Err(ArgumentsFault::NoMemory) => Err(NoMemory),
    }
}

/// Adds why an argument is wrong.
fn push_wrong(
    alloc: Global,
    lines: &mut Vec<Vec<u8>>,
    word: &[u8],
    after: Option<&Text>,
) -> Result<(), NoMemory> {
    let Ok(text) = str::from_utf8(word) else {
        return push_line(alloc, lines, b"a word is not UTF-8");
    };
    if is_among(text, VALUED) {
        return push_valued(alloc, lines, word, after);
    }
    let mut line = LineWriter::new(alloc)?;
    if is_among(text, LONG) {
        line.put(word)?;
        line.put(b" stands twice")?;
        return line.finish(lines);
    }
    line.put(b"wrong word ")?;
    line.put(word)?;
    if let Some(name) = nearest_name(alloc, text, LONG)? {
        line.put(b" (did you mean ")?;
        line.put(name.as_bytes())?;
        line.put(b"?)")?;
    }
    line.finish(lines)
}

/// Adds why an option that takes a value is wrong.
fn push_valued(
    alloc: Global,
    lines: &mut Vec<Vec<u8>>,
    word: &[u8],
    after: Option<&Text>,
) -> Result<(), NoMemory> {
    let Some(value) = after else {
        return push_about(alloc, lines, b"there is no value for ", word);
    };
    let mut line = LineWriter::new(alloc)?;
    line.put(b"wrong value of ")?;
    line.put(word)?;
    line.put(b", or it stands twice: ")?;
    line.put(value.bytes())?;
    line.finish(lines)
}

fn is_among(word: &str, names: &[&str]) -> bool {
    names.iter().any(|name| *name == word)
}
