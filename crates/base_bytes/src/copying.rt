//! Copies of what ranges of a payload have.

ghost use Rattle.std.specs.Prelude.{◌≡◌, IfOk};
ghost use Rattle.base_bytes.specs.Reading.{Reads, text_at, counted_at};
ghost use Rattle.base_bytes.specs.Ranges.{ranged, counted_words, counted_numbers};

use crate::ranges::rest_from;
use crate::{ByteRange, ByteReader, bytes_in, numbers_of};
use base::{FileName, Items, NoMemory, Text, TextList};
use std::alloc::Global;

/// A copy of the name whose library and path these ranges are.
pub fn name_in(
    alloc: Global,
    bytes: &[u8],
    library: ByteRange,
    path: ByteRange,
) -> Result<FileName, NoMemory>
    ensures { IfOk result
        (λ name.
        name ≡ record { library = ranged bytes.now library; path = ranged bytes.now path }) }
{
    Ok(FileName {
        library: Text::from_slice(alloc, bytes_in(bytes, library))?,
        path: Text::from_slice(alloc, bytes_in(bytes, path))?,
    })
}

/// Words after their number, each a text; or none where bytes are missing.
pub fn read_words(alloc: Global, reader: &mut ByteReader<'_>) -> Result<Option<TextList>, NoMemory>
    ensures { IfOk result
        (λ words. Reads (λ same. same) words reader.new (counted_at text_at reader.old)) }
{
    let Some(count) = reader.u32() else {
        return Ok(None);
    };
    let mut words = TextList::new(alloc);
    for _ in 0..count {
        let Some(word) = reader.owned_text(alloc)? else {
            return Ok(None);
        };
        words.push(word)?;
    }
    Ok(Some(words))
}

/// A copy of the words that are counted from the start of a range.
pub fn copy_words(alloc: Global, bytes: &[u8], range: ByteRange) -> Result<TextList, NoMemory>
    ensures { IfOk result (λ words. words ≡ counted_words bytes.now range) }
{
    let mut reader = ByteReader::new(rest_from(bytes, range.start));
    match read_words(alloc, &mut reader)? {
        Some(words) => Ok(words),
        None => Ok(TextList::new(alloc)),
    }
}

/// A copy of the numbers that are counted from the start of a range.
pub fn copy_numbers(alloc: Global, bytes: &[u8], range: ByteRange) -> Result<Items<usize>, NoMemory>
    ensures { IfOk result (λ numbers. numbers ≡ counted_numbers bytes.now range) }
{
    let numbers = numbers_of(bytes, range);
    let mut copy = Items::new(alloc);
    for index in 0..numbers.len() {
        copy.push(numbers.get(index) as usize)?;
    }
    Ok(copy)
}
