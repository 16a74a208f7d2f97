//! Numbers, texts and names of files as bytes: the one writer and the one reader that all formats use.
//! Payloads as ranges of their bytes: numbers, counts, texts and word lists, read where they are, and the sizes of names
//! and commands.
#![tactic(auto)]

mod copying;
mod laws;
mod numbers;
mod ranges;
mod reader;
mod reading;
mod text_refs;
mod words;
mod writer;

pub use copying::{copy_numbers, copy_words, name_in, read_words};
pub use laws::laws_of_bytes;
pub use numbers::{Numbers, numbers_of};
pub use ranges::{ByteRange, bytes_in};
pub use reader::ByteReader;
pub use reading::{byte_range, count_range, number_range, numbers_range, text_range, words_range};
pub use text_refs::{TextRange, ref_range};
pub use words::{has_word_sizes, has_words, is_command_within_limits};
pub use writer::ByteWriter;
