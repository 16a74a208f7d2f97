//! Writing numbers, texts and names as bytes, one after the other.

ghost use Rattle.std.specs.Prelude.{◌≡◌, ◌<◌, ◌^◌, ◌++◌, [], length, IfOk, OnOk};
ghost use Rattle.std.specs.Int.{w64, to_le_bytes};
ghost use Rattle.base.specs.Bytes.{number_bytes, text_bytes};
ghost use Rattle.base.specs.Jobs.{name_bytes};

use base::{FileName, NoMemory, Text};
use std::alloc::Global;
use std::marker::Model;

/// Bytes that are written from start to end. Contracts see their list.
#[derive(Drop)]
pub struct ByteWriter {
    bytes: Vec<u8>,
}

impl Model for ByteWriter {
    ghost use Rattle.std.specs.Prelude.{List, ℕ};

    ghost Value = { List ℕ };

    ghost view = { λ a. a.bytes.items };
}

impl ByteWriter {
    /// An empty writer, which takes no memory.
    pub fn new(alloc: Global) -> ByteWriter
        ensures { result ≡ [] }
    {
        ByteWriter {
            bytes: Vec::new(alloc),
        }
    }

    /// An empty writer with room for `size` bytes.
    pub fn with_room(alloc: Global, size: usize) -> Result<ByteWriter, NoMemory>
        ensures { IfOk result (λ out. out ≡ []) }
    {
        Ok(ByteWriter {
            bytes: Vec::with_capacity(alloc, size)?,
        })
    }

    /// Writes a number as four bytes, the low one first.
    pub fn u32(&mut self, number: u32) -> Result<(), NoMemory>
        ensures { OnOk result (self.new ≡ self.old ++ number_bytes number) }
    {
        self.bytes.extend_from_slice(&number.to_le_bytes())?;
        Ok(())
    }

    /// Writes a number as eight bytes, the low one first.
    pub fn u64(&mut self, number: u64) -> Result<(), NoMemory>
        ensures { OnOk result (self.new ≡ self.old ++ to_le_bytes w64 number) }
    {
        self.bytes.extend_from_slice(&number.to_le_bytes())?;
        Ok(())
    }

    /// Writes bytes without their length.
    pub fn plain(&mut self, bytes: &[u8]) -> Result<(), NoMemory>
        ensures { OnOk result (self.new ≡ self.old ++ bytes.now) }
    {
        self.bytes.extend_from_slice(bytes)?;
        Ok(())
    }

    /// Writes a text: its length in four bytes, and its bytes.
    #[tactic(auto, unfolding(base::specs::Bytes::text_bytes))]
    pub fn text(&mut self, text: &[u8]) -> Result<(), NoMemory>
        requires { length text.now < 2 ^ 32 }
        ensures { OnOk result (self.new ≡ self.old ++ text_bytes text.now) }
    {
        self.u32(text.len() as u32)?;
        self.plain(text)?;
        Ok(())
    }

    /// Writes a name of a file: its library and its path, as texts.
    #[tactic(auto, unfolding(base::specs::Jobs::name_bytes))]
    pub fn name(&mut self, name: &FileName) -> Result<(), NoMemory>
        requires library { length name.now.library < 2 ^ 32 }
        requires path { length name.now.path < 2 ^ 32 }
        ensures { OnOk result (self.new ≡ self.old ++ name_bytes name.now) }
    {
        self.text(name.library.bytes())?;
        self.text(name.path.bytes())?;
        Ok(())
    }

    /// What was written so far.
    pub fn bytes(&self) -> &[u8]
        ensures { result.now ≡ self.now }
    {
        self.bytes.as_slice()
    }

    /// What was written.
    pub fn into_text(self) -> Text
        ensures { result ≡ self }
    {
        let ByteWriter { bytes } = self;
        Text::from_vec(bytes)
    }
}
