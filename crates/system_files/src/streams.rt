//! The source of all input, and the sink of all output.

ghost use Rattle.std.specs.Prelude.{Err};
ghost use Rattle.outside.specs.Counts.{SourceCounts};

use crate::buffered::Buffered;
use crate::lines::{take_line, take_rest};
use crate::{Cause, IoFault, name_cause};
use base::NoMemory;
use outside::{LineEnd, Sink, SinkFault, Source, SourceFault, TakeEnd, count_fault};
use std::alloc::Global;
use std::io;
use std::io::Write;

/// Standard input. It counts its failures, and tells nothing of what it holds.
#[derive(Drop)]
pub struct StdSource<R> {
    input: R,
    failures: u64,
    cause: Option<Cause>,
    // what was read past the line that was taken last
    buffered: Buffered,
}

impl<R: Input> StdSource<R> {
    /// The source over a runtime. Nothing is read yet.
    pub fn new(alloc: Global, input: R) -> Result<StdSource<R>, NoMemory>
    where
        R: Drop,
    {
        Ok(StdSource {
            input,
            failures: 0,
            cause: None,
            buffered: Buffered::new(alloc)?,
        })
    }

    /// Why the input couldn't be taken, if it couldn't.
    pub fn cause(&self) -> Option<Cause> {
        self.cause
    }
}

impl<R: Input> StdSource<R> {
    /// What a failure of the input is told as. It is counted, but for a lack of memory.
    fn fault(&mut self, fault: IoFault) -> SourceFault
        ensures line { SourceCounts {T = LineEnd} (Err result) self.old.failures self.new.failures }
        ensures rest { SourceCounts {T = TakeEnd} (Err result) self.old.failures self.new.failures }
    {
        match fault {
            IoFault::NoMemory => SourceFault::NoMemory,
            IoFault::Failed(cause) => {
                self.cause = Some(cause);
                self.failures = count_fault(self.failures);
                SourceFault::Failed
            }
        }
    }
}

impl<R: Input> Source for StdSource<R> {
    ghost use Rattle.std.specs.Prelude.{[]};

    ghost tells = { ⊥ };

    ghost left = { λ _. [] };

    ghost failed_takes = { λ a. a.failures };

    fn take_line(&mut self, alloc: Global, limit: u64) -> Result<LineEnd, SourceFault> {
        let mut reader = self.input.reader();
        match take_line(&mut self.buffered, &mut reader, alloc, limit) {
            Ok(end) => Ok(end),
            Err(fault) => Err(self.fault(fault)),
        }
    }

    fn take(&mut self, alloc: Global, limit: u64) -> Result<TakeEnd, SourceFault> {
        let mut reader = self.input.reader();
        match take_rest(&mut self.buffered, &mut reader, alloc, limit) {
            Ok(end) => Ok(end),
            Err(fault) => Err(self.fault(fault)),
        }
    }
}

/// Standard output. It counts its failures, and tells nothing of what it holds.
#[derive(Drop)]
pub struct StdSink<R> {
    output: R,
    failures: u64,
    cause: Option<Cause>,
}

impl<R: Print> StdSink<R> {
    /// The sink over a runtime. Nothing is put yet.
    pub fn new(output: R) -> StdSink<R> {
        StdSink {
            output,
            failures: 0,
            cause: None,
        }
    }

    /// Why something couldn't be put, if something couldn't.
    pub fn cause(&self) -> Option<Cause> {
        self.cause
    }
}

/// All bytes, flushed.
fn put_whole<P: Print>(output: &P, bytes: &[u8]) -> io::Result<()> {
    let mut writer = io::writer(output);
    writer.write_all(bytes)?;
    writer.flush()
}

impl<R: Print> Sink for StdSink<R> {
    ghost use Rattle.std.specs.Prelude.{[]};

    ghost tells = { ⊥ };

    ghost contents = { λ _. [] };

    ghost failed_puts = { λ a. a.failures };

    fn put(&mut self, bytes: &[u8]) -> Result<(), SinkFault> {
        match name_cause("write", put_whole(&self.output, bytes)) {
            Ok(()) => Ok(()),
            Err(cause) => {
                self.cause = Some(cause);
                self.failures = count_fault(self.failures);
                Err(SinkFault::Failed)
            }
        }
    }
}
