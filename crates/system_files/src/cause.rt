//! Why a call of the system failed.

ghost use Rattle.std.specs.Prelude.{◌≡◌, MatchResult};

use crate::visible::push_visible;
use base::NoMemory;
use std::alloc::Global;
use std::io;

/// A call of the system that failed, and what the system said.
#[derive(Clone, Copy)]
pub struct Cause {
    /// The name of the call or of its purpose, such as `open`.
    pub call: &'static str,
    pub error: io::Error,
}

/// The answer of a call, with the name of the call if it failed.
pub fn name_cause<T: Drop>(call: &'static str, answer: io::Result<T>) -> Result<T, Cause>
    ensures { MatchResult result
        (λ value. answer ≡ Ok value)
        (λ cause. answer ≡ Err cause.error) }
{
    match answer {
        Ok(value) => Ok(value),
        Err(error) => Err(Cause { call, error }),
    }
}

/// The line that names a cause: the program, what the call was of, as a path or a command, the call, and what the system
/// said.
pub fn cause_line(alloc: Global, subject: &[u8], cause: &Cause) -> Result<Vec<u8>, NoMemory> {
    let mut line = Vec::from_slice(alloc, b"vunit_run: ")?;
    push_visible(&mut line, subject)?;
    let call = cause.call;
    let error = cause.error;
    let said = format!(in alloc; ": {call}: {error}\n")?;
    line.extend_from_slice(said.as_bytes())?;
    Ok(line)
}
