//! Writing what a compiler is asked.

ghost use Rattle.std.specs.Prelude.{◌≡◌, ◌≤◌, ◌++◌, [], length, IfOk, OnOk};
ghost use Rattle.base.specs.Names.{FitsName};
ghost use Rattle.base.specs.Jobs.{built_bytes};
ghost use Rattle.child_compile_request.specs.Written.{begun};

use base::{
    ARTEFACT_LIMIT, Entry, FileName, MaybeText, NoMemory, Request, TEXT_LIMIT, Text, TextList,
};
use base_bytes::ByteWriter;
use std::alloc::Global;
use std::marker::Model;

/// Files that were built, as a request has them: the name and the artefact of each, one after the other. Contracts see the
/// bytes.
#[derive(Drop)]
pub struct BuiltBytes {
    out: ByteWriter,
}

impl Model for BuiltBytes {
    ghost use Rattle.std.specs.Prelude.{List, ℕ};

    ghost Value = { List ℕ };

    ghost view = { λ a. a.out };
}

impl BuiltBytes {
    /// The bytes of no file, which take no memory.
    pub fn new(alloc: Global) -> BuiltBytes
        ensures { result ≡ [] }
    {
        BuiltBytes {
            out: ByteWriter::new(alloc),
        }
    }

    /// Adds a file, with its artefact of at most 262,144 bytes, which is copied once.
    #[tactic(auto, unfolding(base::specs::Jobs::built_bytes))]
    pub fn add(&mut self, name: &FileName, artefact: &[u8]) -> Result<(), NoMemory>
        requires name { FitsName name.now }
        requires artefact { length artefact.now ≤ ARTEFACT_LIMIT }
        ensures { OnOk result (self.new ≡ self.old ++
            built_bytes (record { name = name.now; artefact = artefact.now })) }
    {
        self.out.name(name)?;
        self.out.text(artefact)?;
        Ok(())
    }

    /// Adds copies of other files.
    pub fn add_all(&mut self, others: &BuiltBytes) -> Result<(), NoMemory>
        ensures { OnOk result (self.new ≡ self.old ++ others.now) }
    {
        self.out.plain(others.out.bytes())?;
        Ok(())
    }

    /// The bytes as a text.
    pub fn into_text(self) -> Text
        ensures { result ≡ self }
    {
        let BuiltBytes { out } = self;
        out.into_text()
    }
}

/// What a compiler is to be started with, while the files that its file depends on are added to its input.
#[derive(Drop)]
pub struct RequestWriter {
    pub command: TextList,
    pub input: BuiltBytes,
}

impl RequestWriter {
    /// Begins with a file, its text, and the number of the files that it depends on.
    #[tactic(auto, unfolding(crate::specs::Written::begun_input))]
    pub fn new(alloc: Global, entry: &Entry, count: u32) -> Result<RequestWriter, NoMemory>
        requires name { FitsName entry.now.name }
        requires text { length entry.now.text ≤ TEXT_LIMIT }
        ensures { IfOk result (λ writer. writer ≡ begun entry.now count) }
    {
        let mut out = ByteWriter::new(alloc);
        out.plain(b"VRC1")?;
        out.name(&entry.name)?;
        out.text(entry.text.bytes())?;
        out.u32(count)?;
        Ok(RequestWriter {
            command: entry.command.copy(alloc)?,
            input: BuiltBytes { out },
        })
    }

    /// The request. It has no path for results.
    pub fn finish(self) -> Request
        ensures words { result.command ≡ self.command }
        ensures input { result.input ≡ self.input }
        ensures results { result.results ≡ MaybeText.Nothing }
    {
        let RequestWriter { command, input } = self;
        Request {
            command,
            input: input.into_text(),
            results: MaybeText::Nothing,
        }
    }
}
