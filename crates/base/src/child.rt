//! Children: requests, exits, and the events of a journal.

ghost use Rattle.std.specs.Prelude.{◌≡◌, IfOk};

use crate::{NoMemory, Text, TextList};
use std::alloc::Global;

/// A text, or none.
#[derive(Debug, Drop)]
pub enum MaybeText {
    Nothing,
    Given(Text),
}

impl MaybeText {
    /// The same text, or none, in memory of its own.
    pub fn copy(&self, alloc: Global) -> Result<MaybeText, NoMemory>
        ensures { IfOk result (λ copy. copy ≡ self.now) }
    {
        match self {
            MaybeText::Nothing => Ok(MaybeText::Nothing),
            MaybeText::Given(text) => Ok(MaybeText::Given(text.copy(alloc)?)),
        }
    }
}

/// What a child is started with: its command words, its whole input, and where it leaves its results, if anywhere.
#[derive(Drop)]
pub struct Request {
    pub command: TextList,
    pub input: Text,
    pub results: MaybeText,
}

impl Request {
    /// The same request, in memory of its own.
    pub fn copy(&self, alloc: Global) -> Result<Request, NoMemory>
        ensures { IfOk result (λ copy. copy ≡ self.now) }
    {
        Ok(Request {
            command: self.command.copy(alloc)?,
            input: self.input.copy(alloc)?,
            results: self.results.copy(alloc)?,
        })
    }
}

/// How a child ended: its code, what it printed, and the results that it left.
#[derive(Drop)]
pub struct Exit {
    pub code: u32,
    pub output: Text,
    pub results: MaybeText,
}

impl Exit {
    /// The same exit, in memory of its own.
    pub fn copy(&self, alloc: Global) -> Result<Exit, NoMemory>
        ensures { IfOk result (λ copy. copy ≡ self.now) }
    {
        Ok(Exit {
            code: self.code,
            output: self.output.copy(alloc)?,
            results: self.results.copy(alloc)?,
        })
    }
}

/// What happened to children, one event a start or an end. A ticket names a started child.
#[derive(Drop)]
pub enum Event {
    Started { ticket: u64, request: Request },
    Ended { ticket: u64, exit: Exit },
    /// The child was waited for, and its exit was lost.
    Gone { ticket: u64 },
}
