//! Whether a payload has the form of a record or of a product.

use crate::side::SideBytes;
use base::{
    ARTEFACT_LIMIT, COMMAND_LIMIT, FILE_LIMIT, LIBRARY_LIMIT, PATH_LIMIT, TEXT_LIMIT, WORD_LIMIT,
};
use base_bytes::ByteReader;

/// Upper bounds on the texts and on the products that exist before or after a payload.
#[derive(Clone, Copy)]
pub struct There {
    pub texts: u64,
    pub products: u64,
}

/// A part of a side that is read from its start to its end.
#[derive(Drop)]
struct Reading<'a> {
    side: &'a mut SideBytes,
    at: u64,
    end: u64,
}

/// The bounds after the payload from one offset up to another, by the bounds before it. `None` if the bytes don't have the form
/// of a payload within those bounds. It isn't checked that a new text or product is new.
pub fn after_payload(side: &mut SideBytes, at: u64, end: u64, there: There) -> Option<There> {
    let mut reading = Reading { side, at, end };
    let texts = reading.payload(there)?;
    if reading.at != end {
        return None;
    }
    Some(There {
        texts,
        products: there.products.saturating_add(1),
    })
}

impl<'a> Reading<'a> {
    /// Reads a payload, and gives the bound on the texts after it.
    fn payload(&mut self, there: There) -> Option<u64> {
        match self.byte()? {
            0 => {
                self.name()?;
                self.text_ref(there.texts, ARTEFACT_LIMIT)
            }
            1 => self.record(there),
            _ => None,
        }
    }

    fn record(&mut self, there: There) -> Option<u64> {
        self.name()?;
        let words = self.count(1, COMMAND_LIMIT)?;
        for _ in 0..words {
            self.text(0, WORD_LIMIT)?;
        }
        let texts = self.text_ref(there.texts, TEXT_LIMIT)?;
        self.products(there.products)?;
        self.text_ref(texts, ARTEFACT_LIMIT)
    }

    fn name(&mut self) -> Option<()> {
        self.text(1, LIBRARY_LIMIT)?;
        self.text(1, PATH_LIMIT)
    }

    /// Passes over a text that has from `least` to `most` bytes.
    fn text(&mut self, least: usize, most: usize) -> Option<()> {
        let count = self.count(least, most)?;
        self.pass(u64::from(count))
    }

    /// Passes over a text reference, and gives the bound on the texts after it.
    fn text_ref(&mut self, texts: u64, most: usize) -> Option<u64> {
        if self.byte()? == 1 {
            self.text(0, most)?;
            return Some(texts.saturating_add(1));
        }
        if self.number()? < texts {
            Some(texts)
        } else {
            None
        }
    }

    /// Passes over a list of product numbers, which must be below `products`.
    fn products(&mut self, products: u64) -> Option<()> {
        let count = self.count(0, FILE_LIMIT.saturating_sub(1))?;
        let size = 8 * (count as usize).min(FILE_LIMIT);
        let bytes = self.bytes(size)?;
        if are_below(bytes, count, products) {
            Some(())
        } else {
            None
        }
    }

    /// Passes over `count` bytes.
    fn pass(&mut self, count: u64) -> Option<()> {
        let after = self.at.saturating_add(count);
        if after > self.end {
            return None;
        }
        self.at = after;
        Some(())
    }

    /// The next `count` bytes, at most a window.
    fn bytes(&mut self, count: usize) -> Option<&[u8]> {
        let at = self.at;
        self.pass(count as u64)?;
        self.side.bytes(at, count)
    }

    fn byte(&mut self) -> Option<u8> {
        let byte = self.bytes(1)?.first()?;
        Some(*byte)
    }

    /// A number of four bytes, if it is from `least` to `most`.
    fn count(&mut self, least: usize, most: usize) -> Option<u32> {
        let count = ByteReader::new(self.bytes(4)?).u32()?;
        let is_within = least as u64 <= u64::from(count) && u64::from(count) <= most as u64;
        if is_within { Some(count) } else { None }
    }

    /// A number of eight bytes.
    fn number(&mut self) -> Option<u64> {
        ByteReader::new(self.bytes(8)?).u64()
    }
}

/// Whether the bytes begin with `count` numbers of eight bytes that are all below a limit.
fn are_below(bytes: &[u8], count: u32, limit: u64) -> bool {
    let mut rest = bytes;
    let mut most: u64 = 0;
    for _ in 0..count {
        let [a, b, c, d, e, f, g, h, after @ ..] = rest else {
            return false;
        };
        most = most.max(u64::from_le_bytes([*a, *b, *c, *d, *e, *f, *g, *h]));
        rest = after;
    }
    count == 0 || most < limit
}
