//! Reads the text of a put line by line.
ghost use Rattle.std.specs.Prelude.{◌≡◌, ◌≤◌, ◌++◌, ℕ, List, [], ◌∷◌, IfOk, OnOk};
ghost use Rattle.outside.specs.Counts.{SourceCounts};
ghost use Rattle.session_script.specs.Commands.{is_put_end, without_dot};
ghost use Rattle.session_script.specs.Scripts.{FitsPut, TakesPut, script_after, script_of_put};
ghost use Rattle.session_script.specs.Steps.{AddsLine, PassesLine, SkipsPut, CountsPut, FitsAdded};

use crate::{Ending, InputLines, NextLine};
use base::{NoMemory, Text};
use outside::{Source, SourceFault};
use std::alloc::Global;

/// The text of a put, or that the text exceeds the limit, or how the input ends inside the put.
#[derive(Drop)]
pub enum PutEnd {
    Got(Text),
    TooLong,
    Ends(Ending),
}

/// A line of a put was added to the text, would make the text exceed the limit, or ends the put.
#[derive(Clone, Copy)]
enum Added {
    More,
    TooMuch,
    Done,
}

/// The next line of a put, or how the input ends there.
#[derive(Clone, Copy)]
enum PutStep {
    Took(Added),
    Ends(Ending),
}

/// Whether a line ends a put.
fn is_put_end(line: &[u8]) -> bool
    ensures { result ≡ is_put_end line.now }
{
    line == b".".as_slice()
}

/// A line without a leading dot.
fn without_dot(line: &[u8]) -> &[u8]
    ensures { result.now ≡ without_dot line.now }
{
    match line {
        [b'.', rest @ ..] => rest,
        _ => line,
    }
}

/// Adds bytes and a line feed.
fn add_bytes(text: &mut Vec<u8>, bytes: &[u8]) -> Result<(), NoMemory>
    ensures { OnOk result (text.new.items ≡ text.old.items ++ (bytes.now ++ 10 ∷ [])) }
{
    text.extend_from_slice(bytes)?;
    text.push(b'\n')?;
    Ok(())
}

/// Adds a line of a put to its text, unless the text would exceed `limit` bytes.
fn add_line(text: &mut Vec<u8>, line: &[u8], limit: usize) -> Result<Added, NoMemory>
    ensures { IfOk result (λ added.
        AddsLine limit line.now added text.old.items text.new.items) }
{
    if is_put_end(line) {
        return Ok(Added::Done);
    }
    let bytes = without_dot(line);
    if text.len() + bytes.len() >= limit {
        return Ok(Added::TooMuch);
    }
    add_bytes(text, bytes)?;
    Ok(Added::More)
}

/// Takes the next line of a put, and adds it to its text.
fn take_put_line<S: Source>(
    alloc: Global,
    lines: &mut InputLines,
    input: &mut S,
    text: &mut Vec<u8>,
    limit: usize,
) -> Result<PutStep, SourceFault>
    ensures script { S.tells → IfOk result (λ step. (path : List ℕ) →
        PassesLine limit path step text.old.items text.new.items
        (script_of_put path text.old.items lines.old (S.left input.old))
        lines.new (S.left input.new)) }
    ensures size { IfOk result (λ step. FitsAdded limit step text.old.items text.new.items) }
    ensures count { IfOk result (λ step. CountsPut step lines.old lines.new) }
    ensures cause { SourceCounts result (S.failed_takes input.old) (S.failed_takes input.new) }
{
    match lines.next(alloc, input, Ending::Unended)? {
        NextLine::Ends(ending) => Ok(PutStep::Ends(ending)),
        NextLine::Got(line) => match add_line(text, line.bytes(), limit) {
            Ok(added) => Ok(PutStep::Took(added)),
            Err(_) => Err(SourceFault::NoMemory),
        },
    }
}

/// Takes the lines of a put up to its end and discards them. Returns how the input ends if it ends inside the put.
fn skip_put<S: Source>(
    alloc: Global,
    lines: &mut InputLines,
    input: &mut S,
) -> Result<Option<Ending>, SourceFault>
    ensures script { S.tells → IfOk result (λ end. (path text : List ℕ) →
        SkipsPut path text end
        (script_of_put path text lines.old (S.left input.old))
        (script_after lines.new (S.left input.new))) }
    ensures count { OnOk result (lines.old ≤ lines.new) }
    ensures cause { SourceCounts result (S.failed_takes input.old) (S.failed_takes input.new) }
{
    loop {
        match lines.next(alloc, input, Ending::Unended)? {
            NextLine::Ends(ending) => return Ok(Some(ending)),
            NextLine::Got(line) => {
                if is_put_end(line.bytes()) {
                    return Ok(None);
                }
            }
        }
    }
}

/// Takes the lines of a put up to its end, and returns their text. If the text exceeds `limit` bytes, it is freed, and the
/// remaining lines are still taken.
pub fn take_put<S: Source>(
    alloc: Global,
    lines: &mut InputLines,
    input: &mut S,
    limit: usize,
) -> Result<PutEnd, SourceFault>
    ensures size { IfOk result (FitsPut limit) }
    ensures script { S.tells → IfOk result (λ end. (path : List ℕ) →
        TakesPut limit path end
        (script_of_put path [] lines.old (S.left input.old))
        (script_after lines.new (S.left input.new))) }
    ensures count { OnOk result (lines.old ≤ lines.new) }
    ensures cause { SourceCounts result (S.failed_takes input.old) (S.failed_takes input.new) }
{
    let mut text = Vec::new(alloc);
    loop {
        match take_put_line(alloc, lines, input, &mut text, limit)? {
            PutStep::Ends(ending) => return Ok(PutEnd::Ends(ending)),
            PutStep::Took(Added::Done) => return Ok(PutEnd::Got(Text::from_vec(text))),
            PutStep::Took(Added::TooMuch) => break,
            PutStep::Took(Added::More) => {}
        }
    }
    drop(text);
    match skip_put(alloc, lines, input)? {
        None => Ok(PutEnd::TooLong),
        Some(ending) => Ok(PutEnd::Ends(ending)),
    }
}
