//! Command lines.
ghost use Rattle.std.specs.Prelude.{◌≡◌, ◌≤◌, ◌++◌, [], ◌∷◌, length, filter, IsTrue, IfOk, OnOk};
ghost use Rattle.std.specs.Str.{bytes_eq};
ghost use Rattle.session_script.specs.Commands.{command_of, has_prefix, is_run, is_word, line_command, words_of};

use base::{NoMemory, Text, TextList};
use std::alloc::Global;

/// A command line, with the bytes after the command. The text of a put follows in the next lines.
#[derive(Clone, Copy)]
pub enum LineCommand<'a> {
    Put(&'a [u8]),
    Drop(&'a [u8]),
    Run(&'a [u8]),
    Quit,
    Unknown,
}

/// Whether two texts have the same bytes.
fn is_same(bytes: &[u8], other: &[u8]) -> bool
    ensures { result ≡ bytes_eq bytes.now other.now }
{
    bytes == other
}

/// Whether bytes begin with a word.
fn has_prefix(word: &[u8], bytes: &[u8]) -> bool
    ensures is { result ≡ has_prefix word.now bytes.now }
    ensures long { IsTrue result → length word.now ≤ length bytes.now }
{
    bytes.starts_with(word)
}

/// Whether a line asks for a run, with words or without.
fn is_run(line: &[u8]) -> bool
    ensures is { result ≡ is_run line.now }
    ensures long { IsTrue result → 3 ≤ length line.now }
{
    is_same(line, b"run") || has_prefix(b"run ", line)
}

/// The command of a line.
#[tactic(auto, unfolding(crate::specs::Commands::command_of))]
pub fn command_of(line: &[u8]) -> LineCommand<'_>
    ensures { line_command result ≡ command_of line.now }
{
    if is_same(line, b"quit") {
        LineCommand::Quit
    } else if is_run(line) {
        LineCommand::Run(&line[3..])
    } else if has_prefix(b"put ", line) {
        LineCommand::Put(&line[4..])
    } else if has_prefix(b"drop ", line) {
        LineCommand::Drop(&line[5..])
    } else {
        LineCommand::Unknown
    }
}

/// Adds a word, unless it is empty.
fn add_word(alloc: Global, words: &mut TextList, word: &[u8]) -> Result<(), NoMemory>
    ensures { OnOk result (words.new ≡ words.old ++ filter is_word (word.now ∷ [])) }
{
    if !word.is_empty() {
        words.push(Text::from_slice(alloc, word)?)?;
    }
    Ok(())
}

/// The words between spaces, without empty ones.
pub fn words_of(alloc: Global, bytes: &[u8]) -> Result<TextList, NoMemory>
    ensures { IfOk result (λ words. words ≡ words_of bytes.now) }
{
    let mut words = TextList::new(alloc);
    for word in bytes.split(|byte| *byte == b' ') {
        add_word(alloc, &mut words, word)?;
    }
    Ok(words)
}
