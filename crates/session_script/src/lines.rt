//! Reads the lines of an input and counts them.
ghost use Rattle.std.specs.Prelude.{◌≡◌, IfOk, OnOk, OnErr};
ghost use Rattle.outside.specs.Counts.{SourceCounts};
ghost use Rattle.outside.specs.Streams.{after_line};
ghost use Rattle.session_script.specs.Scripts.{Counts, FitsNext, next_line};

use crate::{LINE_COUNT_LIMIT, LINE_LIMIT};
use base::Text;
use outside::{LineEnd, Source, SourceFault};
use std::alloc::Global;
use std::marker::Model;

/// How a script ends. `Quits`: by `quit`, or by the end of the input between two commands. `Unended`: by the end of the
/// input inside a put. `OverLine`: by a line that is too long. `OverLines`: by a line after the last allowed one.
#[derive(Clone, Copy, Debug, PartialEq, Eq)]
pub enum Ending {
    Quits,
    Unended,
    OverLine,
    OverLines,
}

/// The next line of an input, or how the input ends there.
#[derive(Drop)]
pub enum NextLine {
    Got(Text),
    Ends(Ending),
}

/// The number of lines taken from an input.
#[derive(Drop)]
pub struct InputLines {
    taken: u64,
}

impl Model for InputLines {
    ghost use Rattle.std.specs.Prelude.{ℕ, ◌≤◌};
    ghost use Rattle.session_script.specs.declared.limits.TheConstants.{LINE_COUNT_LIMIT};

    ghost Value = { ℕ };

    ghost view = { λ a. a.taken };

    ghost invariant = { λ a. a.taken ≤ LINE_COUNT_LIMIT };
}

impl InputLines {
    /// A count of no taken lines.
    pub fn new() -> InputLines
        ensures { result ≡ 0 }
    {
        InputLines { taken: 0 }
    }

    /// Takes the next line of an input, or tells how the input ends there. `at_end` is the ending if no line is left.
    pub fn next<S: Source>(
        &mut self,
        alloc: Global,
        input: &mut S,
        at_end: Ending,
    ) -> Result<NextLine, SourceFault>
        ensures size { IfOk result FitsNext }
        ensures next { S.tells →
            IfOk result (λ next. next ≡ next_line at_end self.old (S.left input.old)) }
        ensures left { S.tells → OnOk result (S.left input.new ≡ after_line (S.left input.old)) }
        ensures count { IfOk result (λ next. Counts next self.old self.new) }
        ensures uncounted { OnErr result (self.new ≡ self.old) }
        ensures cause { SourceCounts result (S.failed_takes input.old) (S.failed_takes input.new) }
    {
        match input.take_line(alloc, LINE_LIMIT)? {
            LineEnd::End => Ok(NextLine::Ends(at_end)),
            LineEnd::TooLong => Ok(NextLine::Ends(Ending::OverLine)),
            LineEnd::Got(line) => {
                if self.taken >= LINE_COUNT_LIMIT {
                    return Ok(NextLine::Ends(Ending::OverLines));
                }
                self.taken += 1;
                Ok(NextLine::Got(line))
            }
        }
    }
}
