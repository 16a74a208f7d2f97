//! Tests of the lines of an input in memory.

use base::{NoMemory, Numbers, Text};
use memory_outside::MemSource;
use outside::{LineEnd, Source, SourceFault, TakeEnd};
use std::alloc::Global;
use std::test::Fail;

/// One row per line: an input after a colon, a limit, and the wanted results of successive calls. A `take_line` with this
/// limit gives `=` and a line, `long` or `end`; a `take` gives `+` and the rest. In inputs and results `/` stands for a line
/// feed and `~` for a carriage return.
static ROWS: &str = "\
: 9 end end +
:/ 9 = end
:ab 9 =ab end
:ab/ 9 =ab end
:ab/cd 9 =ab =cd end
:ab~/~ 9 =ab~ =~ end
:abc/d 3 =abc =d end
:abcd/e 3 long =e end
:abcd 3 long end
:abcd/ 3 long end
:/a 0 = long end
:ab/cd/e 9 =ab +cd/e end +
:ab/cd/e 9 =ab =cd =e +
:ab/cd 9 +ab/cd end
:a//b 1 =a = =b end
";

/// The bytes that a text of a row stands for.
fn bytes_of(alloc: Global, text: &str) -> Result<Text, NoMemory> {
    let mut bytes = Vec::new(alloc);
    for byte in text.as_bytes() {
        bytes.push(match *byte {
            b'/' => b'\n',
            b'~' => b'\r',
            other => other,
        })?;
    }
    Ok(Text::from_vec(bytes))
}

/// Whether the next line is what a row says.
fn gives_line(
    alloc: Global,
    source: &mut MemSource,
    limit: u64,
    wanted: &str,
) -> Result<bool, NoMemory> {
    match source.take_line(alloc, limit) {
        Ok(LineEnd::Got(line)) => Ok(wanted.starts_with('=') && is_text(alloc, &line, wanted)?),
        Ok(LineEnd::TooLong) => Ok(wanted == "long"),
        Ok(LineEnd::End) => Ok(wanted == "end"),
        Err(SourceFault::Failed) => Ok(wanted == "failed"),
        Err(SourceFault::NoMemory) => Err(NoMemory),
    }
}

/// Whether these are the bytes of a text of a row after its first letter.
fn is_text(alloc: Global, bytes: &Text, wanted: &str) -> Result<bool, NoMemory> {
    match wanted.get(1..) {
        Some(text) => Ok(bytes.same(&bytes_of(alloc, text)?)),
        None => Ok(false),
    }
}

/// Whether the rest of the input is what a row says.
fn gives_rest(alloc: Global, source: &mut MemSource, wanted: &str) -> Result<bool, NoMemory> {
    match source.take(alloc, 99) {
        Ok(TakeEnd::Got(rest)) => is_text(alloc, &rest, wanted),
        _ => Ok(false),
    }
}

/// Whether each call gives what a row says.
fn gives_each(
    alloc: Global,
    source: &mut MemSource,
    limit: u64,
    row: &str,
) -> Result<bool, NoMemory> {
    for wanted in row.split(' ').skip(2) {
        let same = if wanted.starts_with('+') {
            gives_rest(alloc, source, wanted)?
        } else {
            gives_line(alloc, source, limit, wanted)?
        };
        if !same {
            return Ok(false);
        }
    }
    Ok(true)
}

/// Whether a source of a row's input, of which these calls fail, gives what the row says. This function alone owns one.
fn goes_as(alloc: Global, failing: Numbers, row: &str) -> Result<bool, NoMemory> {
    let input = row.split(' ').nth(0).unwrap_or("");
    let limit = row.split(' ').nth(1).unwrap_or("");
    let Some(text) = input.strip_prefix(':') else {
        return Ok(false);
    };
    let Ok(limit) = limit.parse::<u64>() else {
        return Ok(false);
    };
    let mut source = MemSource::new(bytes_of(alloc, text)?, failing);
    gives_each(alloc, &mut source, limit, row)
}

#[test]
fn a_source_is_taken_by_lines(rt: HostRuntime) -> Result<(), Fail> {
    for row in ROWS.lines() {
        assert!(rt;
            goes_as(rt.alloc(), Numbers::new(rt.alloc()), row)?,
            "{row}"
        );
    }
    Ok(())
}

#[test]
fn a_failed_line_is_there_afterwards(rt: HostRuntime) -> Result<(), Fail> {
    let mut failing = Numbers::new(rt.alloc());
    failing.push(1)?;
    assert!(rt; goes_as(rt.alloc(), failing, ":ab/cd 9 =ab failed =cd end")?);
    Ok(())
}
