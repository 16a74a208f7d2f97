//! Reports in memory.
ghost use Rattle.std.specs.Prelude.{◌≡◌, [], ◌∷◌, OnOk, OnErr};
ghost use Rattle.std.specs.Option.{option_copied};
ghost use Rattle.outside.specs.Counts.{Counted};
ghost use Rattle.memory_outside.specs.Failing.{no_calls, fails_next, next_call, MakesCall};
ghost use Rattle.memory_outside.specs.Trees.{file_at};
ghost use Rattle.outside.specs.Reports.{Reported, ReportCounts};
ghost use Rattle.memory_outside.specs.HeldReports.{ReportFails};

use base::{NamedText, NoMemory, Numbers, Text};
use outside::{ReportFault, Reports, count_fault};
use std::alloc::Global;
use std::marker::Model;

/// Reports in memory. Each report that was written is kept.
#[derive(Drop)]
pub struct MemReports {
    alloc: Global,
    // the last that was written first
    written: Vec<NamedText>,
    failing: Numbers,
    made: u64,
    failed: u64,
}

impl Model for MemReports {
    ghost use Rattle.memory_outside.specs.HeldReports.{HeldReports};

    ghost Value = { HeldReports };

    ghost view = { λ a. record {
      written = a.written.items;
      calls = record { failing = a.failing; made = a.made; failed = a.failed };
    } };
}

impl MemReports {
    /// No report, which takes no memory. The calls of these numbers, counted from 0, are to fail.
    pub fn new(alloc: Global, failing: Numbers) -> MemReports
        ensures { result ≡ record { written = []; calls = no_calls failing } }
    {
        MemReports {
            alloc,
            written: Vec::new(alloc),
            failing,
            made: 0,
            failed: 0,
        }
    }

    /// The bytes of the report of a path, if there is one.
    pub fn file(&self, path: &Text) -> Option<&[u8]>
        ensures { option_copied result ≡ file_at self.now.written path.now }
    {
        first_of(self.written.as_slice(), path)
    }

    /// One call more begins. Answers whether it is to fail.
    fn begin(&mut self) -> bool
        ensures fails { result ≡ fails_next self.old.calls }
        ensures written { self.new.written ≡ self.old.written }
        ensures failed { self.new.calls.failed ≡ self.old.calls.failed }
        ensures calls { MakesCall self.old.calls self.new.calls }
    {
        let fails = self.failing.as_slice().contains(&self.made);
        self.made = self.made.saturating_add(1);
        fails
    }

    /// The call that was begun last counts a fault.
    fn fail(&mut self)
        ensures written { self.new.written ≡ self.old.written }
        ensures failing { self.new.calls.failing ≡ self.old.calls.failing }
        ensures made { self.new.calls.made ≡ self.old.calls.made }
        ensures failed { Counted self.old.calls.failed self.new.calls.failed }
    {
        self.failed = count_fault(self.failed);
    }

    /// Puts a report before the others.
    fn put(&mut self, path: &Text, bytes: &[u8]) -> Result<(), NoMemory>
        ensures put { OnOk result
            (self.new.written ≡ record { path = path.now; bytes = bytes.now } ∷ self.old.written) }
        ensures unchanged { OnErr result (self.new.written ≡ self.old.written) }
        ensures calls { self.new.calls ≡ self.old.calls }
    {
        let report = NamedText {
            path: path.copy(self.alloc)?,
            bytes: Text::from_slice(self.alloc, bytes)?,
        };
        self.written.insert(0, report)?;
        Ok(())
    }
}

/// The bytes of the first report of a path.
fn first_of<'a>(written: &'a [NamedText], path: &Text) -> Option<&'a [u8]>
    ensures { option_copied result ≡ file_at written.now path.now }
{
    for report in written {
        if report.path.bytes() == path.bytes() {
            return Some(report.bytes.bytes());
        }
    }
    None
}

impl Reports for MemReports {
    ghost tells = { Unit {0} };

    ghost report = { λ r. file_at r.written };

    ghost failed_reports = { λ r. r.calls.failed };

    fn write(&mut self, path: &Text, bytes: &[u8]) -> Result<(), ReportFault>
        ensures reports { Reported result path.now bytes.now
            (file_at self.old.written) (file_at self.new.written) }
        ensures cause { ReportCounts result self.old.calls.failed self.new.calls.failed }
        ensures fails { ReportFails result self.old.calls }
        ensures calls { MakesCall self.old.calls self.new.calls }
    {
        if self.begin() {
            self.fail();
            return Err(ReportFault::Failed);
        }
        let Ok(()) = self.put(path, bytes) else {
            self.fail();
            return Err(ReportFault::Failed);
        };
        Ok(())
    }
}
