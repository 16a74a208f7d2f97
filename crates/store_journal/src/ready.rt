//! A payload and a side that are ready to be written, so that writing them takes no memory.

ghost use Rattle.std.specs.Prelude.{◌≡◌, ◌^◌, ◌<◌, ◌≤◌, ◌++◌, ◌∷◌, [], length, drop, All, IfOk};
ghost use Rattle.base.specs.Bytes.{number_bytes, text_bytes};
ghost use Rattle.store_journal.specs.Payloads.{side_bytes};
ghost use Rattle.store_journal.specs.Journals.{payload_within};

use crate::Payloads;
use crate::layout::full_side;
use base::{NoMemory, Text};
use base_bytes::ByteWriter;
use std::alloc::Global;
use std::marker::Model;

/// A payload that is ready to be committed. Contracts see its bytes.
#[derive(Drop)]
pub struct Ready {
    bytes: Text,
}

impl Model for Ready {
    ghost use Rattle.std.specs.Prelude.{List, ℕ};
    ghost use Rattle.store_journal.specs.Journals.{payload_within, IsReady};

    ghost Value = { List ℕ };

    ghost view = { λ a. payload_within a.bytes };

    ghost invariant = { λ a. IsReady a.bytes };
}

impl Ready {
    /// Begins the frame of a payload of `size` bytes: reserves room for the whole frame and writes the length.
    pub fn begin(alloc: Global, size: usize) -> Result<ByteWriter, NoMemory>
        requires { size < 2 ^ 32 }
        ensures { IfOk result (λ frame. frame ≡ number_bytes size) }
    {
        let mut frame = ByteWriter::with_room(alloc, size + 5)?;
        frame.u32(size as u32)?;
        Ok(frame)
    }

    /// Ends a frame, which has the length of a payload and its bytes, with a closed commit byte. The bytes are moved in.
    pub fn of(frame: ByteWriter) -> Result<Ready, NoMemory>
        requires length { frame ≡ text_bytes (drop 4 frame) }
        requires small { length (drop 4 frame) < 2 ^ 32 }
        ensures { IfOk result (λ ready. ready ≡ drop 4 frame) }
    {
        let mut frame = frame;
        frame.plain(&[0])?;
        Ok(Ready {
            bytes: frame.into_text(),
        })
    }

    /// A copy of the payload, with its length first and a closed commit byte after, in no more memory than that.
    pub(crate) fn new(alloc: Global, payload: &[u8]) -> Result<Ready, NoMemory>
        requires { length payload.now < 2 ^ 32 }
        ensures { IfOk result (λ ready. ready ≡ payload.now) }
    {
        let mut frame = Ready::begin(alloc, payload.len())?;
        frame.plain(payload)?;
        Ready::of(frame)
    }

    /// The payload, borrowed from what is written.
    pub fn payload(&self) -> &[u8]
        ensures { result.now ≡ self.now }
    {
        inner(self.bytes())
    }

    /// What is written after the closed commit byte.
    pub(crate) fn bytes(&self) -> &[u8]
        ensures bytes { result.now ≡ text_bytes self.now ++ 0 ∷ [] }
        ensures small { length self.now < 2 ^ 32 }
    {
        self.bytes.bytes()
    }
}

/// What is between a length of four bytes and the commit byte at the end.
fn inner(bytes: &[u8]) -> &[u8]
    requires { 5 ≤ length bytes.now }
    ensures { result.now ≡ payload_within bytes.now }
{
    let end = bytes.len() - 1;
    &bytes[4..end]
}

/// A side that is ready to take the place of the one that counts. Contracts see its content.
#[derive(Drop)]
pub struct ReadySide {
    form: u8,
    generation: u64,
    bytes: Text,
}

impl Model for ReadySide {
    ghost use Rattle.std.specs.Prelude.{◌∷◌};
    ghost use Rattle.store_journal.specs.Payloads.{payloads_in};
    ghost use Rattle.store_journal.specs.Journals.{SideContent, IsReadySide};

    ghost Value = { SideContent };

    ghost view = { λ a. record {
      form = a.form;
      generation = a.generation;
      payloads = payloads_in (1 ∷ a.bytes);
    } };

    ghost invariant = { λ a. IsReadySide a.form a.generation a.bytes };
}

impl ReadySide {
    /// The side of these payloads.
    pub(crate) fn new(
        alloc: Global,
        form: u8,
        generation: u64,
        payloads: &Payloads,
    ) -> Result<ReadySide, NoMemory>
        ensures { IfOk result
            (λ side.
            side
            ≡ record { form = form; generation = generation; payloads = payloads.now }) }
    {
        Ok(ReadySide {
            form,
            generation,
            bytes: full_side(alloc, form, generation, payloads)?,
        })
    }

    pub(crate) fn form(&self) -> u8
        ensures { result ≡ self.now.form }
    {
        self.form
    }

    pub(crate) fn generation(&self) -> u64
        ensures { result ≡ self.now.generation }
    {
        self.generation
    }

    /// The bytes of the side, but for the first, which is 1.
    pub(crate) fn bytes(&self) -> &[u8]
        ensures bytes { 1 ∷ result.now
            ≡ side_bytes self.now.form self.now.generation self.now.payloads }
        ensures small { All (λ payload. length payload < 2 ^ 32) self.now.payloads }
    {
        self.bytes.bytes()
    }
}
