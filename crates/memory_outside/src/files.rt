//! One file of a tree, read up to a limit.
ghost use Rattle.std.specs.Prelude.{◌≡◌, Some, IfOk};
ghost use Rattle.outside.specs.Trees.{read_end, FitsReadLimit};
ghost use Rattle.memory_outside.specs.Trees.{file_at};

use base::{NamedText, NoMemory, Text};
use outside::ReadEnd;
use std::alloc::Global;

/// The bytes of the first file of a path, up to a limit.
pub fn read_file(
    alloc: Global,
    files: &[NamedText],
    path: &Text,
    limit: u64,
) -> Result<ReadEnd, NoMemory>
    ensures size { IfOk result (FitsReadLimit limit) }
    ensures bytes { IfOk result (λ end. end ≡ read_end (file_at files.now path.now) limit) }
{
    for file in files {
        if file.path.bytes() == path.bytes() {
            return read_text(alloc, &file.bytes, limit);
        }
    }
    Ok(ReadEnd::Absent)
}

/// What is read of a file that has this text.
pub fn read_text(alloc: Global, text: &Text, limit: u64) -> Result<ReadEnd, NoMemory>
    ensures size { IfOk result (FitsReadLimit limit) }
    ensures bytes { IfOk result (λ end. end ≡ read_end (Some text.now) limit) }
{
    if text.bytes().len() as u64 <= limit {
        Ok(ReadEnd::Got(text.copy(alloc)?))
    } else {
        Ok(ReadEnd::TooLong)
    }
}
