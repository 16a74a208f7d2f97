//! Putting bytes, numbers and what a child printed at the end of a text.

ghost use Rattle.std.specs.Prelude.{◌≡◌, ◌++◌, OnOk};
ghost use Rattle.std.specs.Fmt.{decimal};
ghost use Rattle.report.specs.Texts.{line_end, shown};

use base::NoMemory;
use std::alloc::Global;

/// Puts bytes at the end of `out`.
pub fn put(out: &mut Vec<u8>, bytes: &[u8]) -> Result<(), NoMemory>
    ensures { OnOk result (out.new.items ≡ out.old.items ++ bytes.now) }
{
    out.extend_from_slice(bytes)?;
    Ok(())
}

/// Puts the decimal digits of a number.
pub fn put_count(alloc: Global, out: &mut Vec<u8>, count: u128) -> Result<(), NoMemory>
    ensures { OnOk result (out.new.items ≡ out.old.items ++ decimal count) }
{
    put(out, count.to_string(alloc)?.as_bytes())
}

fn put_line_end(out: &mut Vec<u8>, line: &[u8]) -> Result<(), NoMemory>
    ensures { OnOk result (out.new.items ≡ out.old.items ++ line_end line.now) }
{
    if line.len() == 0 || line[line.len() - 1] == b'\n' {
        return Ok(());
    }
    put(out, b"\n")
}

/// Puts the first bytes of what a child printed, up to a limit, as whole lines.
pub fn put_shown(out: &mut Vec<u8>, limit: usize, output: &[u8]) -> Result<(), NoMemory>
    ensures { OnOk result (out.new.items ≡ out.old.items ++ shown limit output.now) }
{
    let prefix = &output[..limit.min(output.len())];
    put(out, prefix)?;
    put_line_end(out, prefix)?;
    Ok(())
}
