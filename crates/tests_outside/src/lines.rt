//! Lines of a reader that gives its bytes in portions, and what comes after them.

use base::NoMemory;
use outside::{LineEnd, TakeEnd};
use std::alloc::Global;
use std::io;
use std::io::Read;
use std::test::Fail;
use system_files::{Buffered, IoFault, take_line, take_rest};

/// A reader that gives at most `most` bytes at a time, and counts the reads.
#[derive(Drop)]
struct Portions<'a> {
    bytes: &'a [u8],
    most: usize,
    reads: u64,
}

impl<'a> Read for Portions<'a> {
    fn read(&mut self, buffer: &mut [u8]) -> io::Result<usize> {
        let count = self.bytes.len().min(self.most).min(buffer.len());
        buffer[..count].copy_from_slice(&self.bytes[..count]);
        self.bytes = &self.bytes[count..];
        self.reads = self.reads.wrapping_add(1);
        Ok(count)
    }
}

fn in_portions(bytes: &[u8], most: usize) -> Portions<'_> {
    Portions {
        bytes,
        most,
        reads: 0,
    }
}

/// The first lines of a reader, each with `|` after it, `#` for a line that is too long, and `.` at the end.
fn lines_of(
    reader: &mut Portions<'_>,
    alloc: Global,
    limit: u64,
    most: usize,
) -> Result<Vec<u8>, IoFault> {
    let mut told = Vec::new(alloc);
    let mut buffered = Buffered::new(alloc)?;
    for _ in 0..most {
        match take_line(&mut buffered, reader, alloc, limit)? {
            LineEnd::Got(line) => told.extend_from_slice(line.bytes())?,
            LineEnd::TooLong => told.push(b'#')?,
            LineEnd::End => {
                told.push(b'.')?;
                return Ok(told);
            }
        }
        told.push(b'|')?;
    }
    Ok(told)
}

#[test]
fn lines_are_told_apart_however_they_are_read(rt: HostRuntime) -> Result<(), Fail> {
    for most in 1..10 {
        let mut reader = in_portions(b"ab\n\ncdefg\r\nhijk\r\nlast", most);
        let Ok(told) = lines_of(&mut reader, rt.alloc(), 5, 9) else {
            return Err(Fail::new("a fault"));
        };
        assert!(rt; told.as_slice() == b"ab||#|hijk\r|last|.".as_slice());
    }
    Ok(())
}

/// What comes after the first line: its bytes, or `#` where it is too long.
fn rest_of(reader: &mut Portions<'_>, alloc: Global, limit: u64) -> Result<Vec<u8>, IoFault> {
    let mut buffered = Buffered::new(alloc)?;
    take_line(&mut buffered, reader, alloc, 9)?;
    match take_rest(&mut buffered, reader, alloc, limit)? {
        TakeEnd::Got(rest) => Ok(Vec::from_slice(alloc, rest.bytes())?),
        TakeEnd::TooLong => Ok(Vec::from_slice(alloc, b"#")?),
    }
}

#[test]
fn what_follows_a_line_is_left(rt: HostRuntime) -> Result<(), Fail> {
    for most in 1..10 {
        for (limit, wanted) in [(5, b"cd\nef".as_slice()), (4, b"#".as_slice())] {
            let Ok(told) = rest_of(&mut in_portions(b"ab\ncd\nef", most), rt.alloc(), limit) else {
                return Err(Fail::new("a fault"));
            };
            assert!(rt; told.as_slice() == wanted);
        }
    }
    Ok(())
}

/// The bytes of `count` empty lines.
fn empty_lines(alloc: Global, count: usize) -> Result<Vec<u8>, NoMemory> {
    let mut bytes = Vec::new(alloc);
    for _ in 0..count {
        bytes.push(b'\n')?;
    }
    Ok(bytes)
}

/// Portions of 4,096, 4,096 and 1,808 bytes, and one that says that it is the end.
#[test]
fn many_lines_take_few_reads(rt: HostRuntime) -> Result<(), Fail> {
    let bytes = empty_lines(rt.alloc(), 10_000)?;
    let mut reader = in_portions(bytes.as_slice(), 4096);
    let Ok(told) = lines_of(&mut reader, rt.alloc(), 0, 10_001) else {
        return Err(Fail::new("a fault"));
    };
    assert_eq!(rt; (told.len(), reader.reads), (10_001, 4));
    Ok(())
}
