//! What the lines of a results text say: which cases were started, which was the last, and whether all is done.

ghost use Rattle.std.specs.Prelude.{◌≡◌, [], ◌∷◌, IfOk, OnOk};
ghost use Rattle.testbench_runs.specs.Verdicts.{has_case, result_lines};
ghost use Rattle.testbench_runs.specs.Starts.{Adds, is_last, no_sayings};

use crate::Names;
use crate::lines::{is_done_line, next_line, started_name};
use base::NoMemory;
use std::alloc::Global;
use std::marker::Model;

/// What some lines say of cases: which of these were started, which was the last, and whether all is done.
#[derive(Drop)]
pub struct Said<'a> {
    starts: Names<'a>,
    last: Option<&'a [u8]>,
    is_done: bool,
}

impl<'a> Model for Said<'a> {
    ghost use Rattle.testbench_runs.specs.Lines.{seen};
    ghost use Rattle.testbench_runs.specs.Starts.{Sayings};

    ghost Value = { Sayings };

    ghost view = { λ a. record { starts = a.starts; last = seen a.last; is_done = a.is_done } };
}

impl<'a> Said<'a> {
    /// What no line says.
    pub fn new(alloc: Global) -> Said<'a>
        ensures { result ≡ no_sayings }
    {
        Said {
            starts: Names::new(alloc),
            last: None,
            is_done: false,
        }
    }

    /// Whether a case was started.
    pub fn is_started(&self, name: &[u8]) -> bool
        ensures { result ≡ has_case self.now.starts name.now }
    {
        self.starts.has(name)
    }

    /// Whether a case is the last that was started.
    pub fn is_last(&self, name: &[u8]) -> bool
        ensures { result ≡ is_last self.now.last name.now }
    {
        match self.last {
            None => false,
            Some(last) => last == name,
        }
    }

    /// Whether all is done.
    pub fn is_done(&self) -> bool
        ensures { result ≡ self.now.is_done }
    {
        self.is_done
    }

    /// Takes a line.
    fn take(&mut self, cases: &Names<'_>, line: &'a [u8]) -> Result<(), NoMemory>
        ensures { OnOk result (Adds cases.now (line.now ∷ []) self.old self.new) }
    {
        self.is_done = self.is_done || is_done_line(line);
        let Some(name) = started_name(line) else {
            return Ok(());
        };
        if cases.has(name) {
            self.starts.add(name)?;
            self.last = Some(name);
        }
        Ok(())
    }
}

/// What a results text says of some cases.
pub fn said_by<'a>(alloc: Global, cases: &Names<'_>, text: &'a [u8]) -> Result<Said<'a>, NoMemory>
    ensures { IfOk result (λ said.
        Adds cases.now (result_lines text.now) no_sayings said) }
{
    let mut said = Said::new(alloc);
    let mut rest = text;
    'lines: loop {
        let (line, after) = next_line(rest);
        said.take(cases, line)?;
        match after {
            None => return Ok(said),
            Some(others) => rest = others,
        }
    }
}
