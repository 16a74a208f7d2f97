//! Lines of the program.

use base::NoMemory;
use std::alloc::Global;
use system_files::{end_line, push_visible};

/// A line that is being made, part by part. What isn't visible of a part is shown by a question mark.
#[derive(Drop)]
pub struct LineWriter {
    line: Vec<u8>,
}

impl LineWriter {
    /// A line of the program.
    pub fn new(alloc: Global) -> Result<LineWriter, NoMemory> {
        Ok(LineWriter {
            line: Vec::from_slice(alloc, b"vunit_run: ")?,
        })
    }

    /// A warning. It changes no status.
    pub fn warning(alloc: Global) -> Result<LineWriter, NoMemory> {
        Ok(LineWriter {
            line: Vec::from_slice(alloc, b"vunit_run: warning: ")?,
        })
    }

    /// Adds a part.
    pub fn put(&mut self, part: &[u8]) -> Result<(), NoMemory> {
        push_visible(&mut self.line, part)
    }

    /// Ends the line, and adds it to others.
    pub fn finish(self, lines: &mut Vec<Vec<u8>>) -> Result<(), NoMemory> {
        let LineWriter { mut line } = self;
        end_line(&mut line)?;
        lines.push(line)?;
        Ok(())
    }
}

/// Adds a line of the program, with these words.
pub fn push_line(alloc: Global, lines: &mut Vec<Vec<u8>>, words: &[u8]) -> Result<(), NoMemory> {
    let mut line = LineWriter::new(alloc)?;
    line.put(words)?;
    line.finish(lines)
}

/// Adds a line of the program, with words before what they are about.
pub fn push_about(
    alloc: Global,
    lines: &mut Vec<Vec<u8>>,
    words: &[u8],
    subject: &[u8],
) -> Result<(), NoMemory> {
    let mut line = LineWriter::new(alloc)?;
    line.put(words)?;
    line.put(subject)?;
    line.finish(lines)
}

/// Adds a warning with these words.
pub fn push_warning(alloc: Global, lines: &mut Vec<Vec<u8>>, words: &[u8]) -> Result<(), NoMemory> {
    let mut line = LineWriter::warning(alloc)?;
    line.put(words)?;
    line.finish(lines)
}
