//! Reading numbers, texts and names from bytes, one after the other.

ghost use Rattle.std.specs.Prelude.{◌≡◌, ◌==◌, length, IfOk};
ghost use Rattle.std.specs.Int.{w32, w64};
ghost use Rattle.base_bytes.specs.Reading.{Reads, number_at, taken_at, text_at};
ghost use Rattle.base_bytes.specs.Names.{name_at};

use base::{FileName, NoMemory, Text};
use std::alloc::Global;
use std::marker::Model;

/// Bytes that are read from start to end. Contracts see the bytes that remain.
#[derive(Drop)]
pub struct ByteReader<'a> {
    left: &'a [u8],
}

impl<'a> Model for ByteReader<'a> {
    ghost use Rattle.std.specs.Prelude.{List, ℕ};

    ghost Value = { List ℕ };

    ghost view = { λ a. a.left.now };
}

impl<'a> ByteReader<'a> {
    /// All of the bytes remain.
    pub fn new(bytes: &'a [u8]) -> ByteReader<'a>
        ensures { result ≡ bytes.now }
    {
        ByteReader { left: bytes }
    }

    /// The next `count` bytes, or `None` if fewer remain.
    pub fn take(&mut self, count: usize) -> Option<&'a [u8]>
        ensures { Reads (λ bytes. bytes.now) result self.new (taken_at count self.old) }
    {
        if self.left.len() < count {
            return None;
        }
        let (prefix, left) = self.left.split_at(count);
        self.left = left;
        Some(prefix)
    }

    /// A number of four bytes, the low one first, or `None` if fewer remain.
    pub fn u32(&mut self) -> Option<u32>
        ensures { Reads (λ number. number) result self.new (number_at w32 self.old) }
    {
        if self.left.len() < 4 {
            return None;
        }
        let (prefix, left) = self.left.split_at(4);
        self.left = left;
        Some(u32::from_le_bytes([prefix[0], prefix[1], prefix[2], prefix[3]]))
    }

    /// A number of eight bytes, the low one first, or `None` if fewer remain.
    pub fn u64(&mut self) -> Option<u64>
        ensures { Reads (λ number. number) result self.new (number_at w64 self.old) }
    {
        if self.left.len() < 8 {
            return None;
        }
        let (prefix, left) = self.left.split_at(8);
        self.left = left;
        Some(u64::from_le_bytes([
            prefix[0], prefix[1], prefix[2], prefix[3], prefix[4], prefix[5], prefix[6], prefix[7],
        ]))
    }

    /// A text: a length in four bytes, and that many bytes; or `None` if fewer remain.
    #[tactic(auto, unfolding(crate::specs::Reading::text_at))]
    pub fn text(&mut self) -> Option<&'a [u8]>
        ensures { Reads (λ bytes. bytes.now) result self.new (text_at self.old) }
    {
        let count = self.u32()?;
        self.take(count as usize)
    }

    /// A copy of a text: a length in four bytes, and that many bytes; or `None` if fewer remain.
    pub fn owned_text(&mut self, alloc: Global) -> Result<Option<Text>, NoMemory>
        ensures { IfOk result (λ text. Reads (λ bytes. bytes) text self.new (text_at self.old)) }
    {
        let Some(bytes) = self.text() else {
            return Ok(None);
        };
        Ok(Some(Text::from_slice(alloc, bytes)?))
    }

    /// A name of a file: the texts of its library and its path; or `None` if bytes are missing.
    #[tactic(auto, unfolding(crate::specs::Names::name_at))]
    pub fn name(&mut self, alloc: Global) -> Result<Option<FileName>, NoMemory>
        ensures { IfOk result (λ name. Reads (λ same. same) name self.new (name_at self.old)) }
    {
        let Some(library) = self.owned_text(alloc)? else {
            return Ok(None);
        };
        let Some(path) = self.owned_text(alloc)? else {
            return Ok(None);
        };
        Ok(Some(FileName { library, path }))
    }

    /// The bytes that remain.
    pub fn rest(&self) -> &'a [u8]
        ensures { result.now ≡ self.now }
    {
        self.left
    }

    /// Whether no byte remains.
    pub fn is_at_end(&self) -> bool
        ensures { result ≡ (length self.now == 0) }
    {
        self.left.is_empty()
    }
}
