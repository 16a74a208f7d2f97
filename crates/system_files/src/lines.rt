//! The lines of a reader, and what comes after them.

ghost use Rattle.std.specs.Prelude.{
  ◌≡◌,
  ℕ,
  ◌-◌,
  ◌≤◌,
  nat_le,
  List,
  [],
  ◌++◌,
  length,
  Some,
  IfOk,
  OnOk,
  if◌then◌else◌,
};
ghost use Rattle.std.specs.List.{position_or_len};
ghost use Rattle.std.specs.Io.KnownBytes.{Keeps, IsAtEnd, prepend_known};
ghost use Rattle.outside.specs.Streams.{FitsLine, IsTaken, is_line_feed, line_end};
ghost use Rattle.outside.specs.declared.streams.LineEnd.TheVariants.{Got, TooLong};
ghost use Rattle.system_files.specs.Prefixes.{IsPrefix};
ghost use Rattle.system_files.specs.Takes.{IsTakenOf, IsLineOf, IsAfterLine, behind_front};

use crate::buffered::Buffered;
use crate::{IoFault, Prefix};
use base::{NoMemory, Text};
use outside::{LineEnd, TakeEnd, line_length};
use std::alloc::Global;
use std::io::Read;

/// Puts bytes at the end of a line, of which at most `limit` bytes are kept.
fn add(line: &mut Prefix, bytes: &[u8], limit: u64) -> Result<(), IoFault>
    requires { length line.old.kept.items ≤ limit }
    ensures size { OnOk result (length line.new.kept.items ≤ limit) }
    ensures part { (seen : List ℕ) → IsPrefix limit (Some seen) line.old.kept.items line.old.more →
        OnOk result
        (IsPrefix limit (Some (seen ++ bytes.now)) line.new.kept.items line.new.more) }
{
    let room = limit as usize - line.kept.len();
    if bytes.len() > room {
        line.kept.extend_from_slice(&bytes[..room])?;
        line.more = true;
        return Ok(());
    }
    line.kept.extend_from_slice(bytes)?;
    Ok(())
}

/// What is taken as a line that has ended.
fn whole_line(line: Prefix, limit: u64) -> LineEnd
    requires { length line.kept.items ≤ limit }
    ensures size { FitsLine limit result }
    ensures line { (seen : List ℕ) → IsPrefix limit (Some seen) line.kept.items line.more →
        result ≡ (if nat_le (length seen) limit then Got seen else TooLong) }
{
    if line.more {
        return LineEnd::TooLong;
    }
    LineEnd::Got(Text::from_vec(line.kept))
}

/// What is taken as a line that the end of the input ends.
fn last_line(line: Prefix, limit: u64) -> LineEnd
    requires { length line.kept.items ≤ limit }
    ensures size { FitsLine limit result }
    ensures line { (seen : List ℕ) → IsPrefix limit (Some seen) line.kept.items line.more →
        position_or_len is_line_feed seen ≡ length seen → result ≡ line_end seen limit }
{
    if line.kept.is_empty() && !line.more {
        return LineEnd::End;
    }
    whole_line(line, limit)
}

/// Reads where nothing is buffered. Nothing is buffered afterwards exactly at the end.
fn refill<R: Read>(buffered: &mut Buffered, reader: &mut R) -> Result<(), IoFault>
    ensures same { OnOk result
        (Keeps
        (prepend_known buffered.old (R.remaining reader.old))
        (prepend_known buffered.new (R.remaining reader.new))) }
    ensures end { OnOk result (buffered.new ≡ [] → IsAtEnd (R.remaining reader.new)) }
{
    if buffered.rest().is_empty() {
        buffered.fill(reader)?;
    }
    Ok(())
}

/// The next line of what is buffered and of a reader. What comes after it is left, whatever of it was read.
pub fn take_line<R: Read>(
    buffered: &mut Buffered,
    reader: &mut R,
    alloc: Global,
    limit: u64,
) -> Result<LineEnd, IoFault>
    ensures size { IfOk result (FitsLine limit) }
    ensures line { IfOk result
        (IsLineOf limit (prepend_known buffered.old (R.remaining reader.old))) }
    ensures left { OnOk result
        (IsAfterLine
        (prepend_known buffered.old (R.remaining reader.old))
        (prepend_known buffered.new (R.remaining reader.new))) }
{
    let mut line = Prefix {
        kept: Vec::new(alloc),
        more: false,
    };
    for _ in 0..u64::MAX {
        refill(buffered, reader)?;
        let rest = buffered.rest();
        if rest.is_empty() {
            return Ok(last_line(line, limit));
        }
        let length = line_length(rest);
        let ends = length < rest.len();
        add(&mut line, &rest[..length], limit)?;
        if ends {
            buffered.skip(length + 1);
            return Ok(whole_line(line, limit));
        }
        buffered.skip(length);
    }
    Err(IoFault::own_fault("read", "it has no end"))
}

/// Bytes, and what was taken after them.
fn prepended(front: Text, end: TakeEnd, limit: u64) -> Result<TakeEnd, NoMemory>
    requires front { length front ≤ limit }
    requires end { IsTaken (limit - length front) end }
    ensures size { IfOk result (IsTaken limit) }
    ensures both { IfOk result (λ whole. whole ≡ behind_front front end) }
{
    match end {
        TakeEnd::TooLong => Ok(TakeEnd::TooLong),
        TakeEnd::Got(text) => {
            let mut bytes = front.into_vec();
            bytes.extend_from_slice(text.bytes())?;
            Ok(TakeEnd::Got(Text::from_vec(bytes)))
        }
    }
}

/// What is buffered and what the reader still gives, to its end. What is past the limit is read too.
pub fn take_rest<R: Read>(
    buffered: &mut Buffered,
    reader: &mut R,
    alloc: Global,
    limit: u64,
) -> Result<TakeEnd, IoFault>
    ensures size { IfOk result (IsTaken limit) }
    ensures input { IfOk result
        (IsTakenOf limit (prepend_known buffered.old (R.remaining reader.old))) }
{
    if buffered.rest().is_empty() {
        return buffered.take_whole(reader, alloc, limit);
    }
    let front = Text::from_slice(alloc, buffered.rest())?;
    let length = front.bytes().len() as u64;
    if length > limit {
        buffered.take_whole(reader, alloc, 0)?;
        return Ok(TakeEnd::TooLong);
    }
    let end = buffered.take_whole(reader, alloc, limit - length)?;
    Ok(prepended(front, end, limit)?)
}
