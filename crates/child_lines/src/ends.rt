//! How a child of the program ends.

ghost use Rattle.std.specs.Prelude.{◌≡◌, ◌++◌, IfOk, OnOk};
ghost use Rattle.child_lines.specs.Ends.{bad_request, ends_with};

use base::{Exit, MaybeText, NoMemory, Text};
use std::alloc::Global;

/// Puts bytes after others.
pub fn put(out: &mut Vec<u8>, bytes: &[u8]) -> Result<(), NoMemory>
    ensures { OnOk result (out.new.items ≡ out.old.items ++ bytes.now) }
{
    out.extend_from_slice(bytes)?;
    Ok(())
}

/// An end with a code and an output, and no results.
pub fn ends_with(code: u32, output: Text) -> Exit
    ensures { result ≡ ends_with code output }
{
    Exit {
        code,
        output,
        results: MaybeText::Nothing,
    }
}

/// The answer to an input that isn't a request: code 2, and the line `bad request`.
#[tactic(auto, unfolding(crate::specs::Ends::bad_request))]
pub fn bad_request(alloc: Global) -> Result<Exit, NoMemory>
    ensures { IfOk result (λ exit. exit ≡ bad_request) }
{
    Ok(ends_with(2, Text::from_slice(alloc, b"bad request\n")?))
}
