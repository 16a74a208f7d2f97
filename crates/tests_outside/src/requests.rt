//! What a compiler is asked, written as the program writes it.

ghost use Rattle.std.specs.Prelude.{◌≤◌, length};
ghost use Rattle.base.specs.Names.{FitsName};

use base::{Built, Entry, NoMemory, Request, TEXT_LIMIT};
use child_compile_request::RequestWriter;
use std::alloc::Global;

/// What a compiler is started with for a file over the files that it depends on.
pub fn compile_request(alloc: Global, entry: &Entry, deps: &Built) -> Result<Request, NoMemory>
    requires name { FitsName entry.now.name }
    requires text { length entry.now.text ≤ TEXT_LIMIT }
{
    let files = deps.as_slice();
    let mut writer = RequestWriter::new(alloc, entry, files.len() as u32)?;
    for file in files {
        writer.input.add(&file.name, file.artefact.bytes())?;
    }
    Ok(writer.finish())
}
