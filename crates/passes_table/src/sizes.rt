//! The sizes of the parts of a run, and whether words in a payload are these.

ghost use Rattle.std.specs.Prelude.{◌≡◌, ◌≤◌, ◌↔◌, IsTrue, drop, length, sum_by};
ghost use Rattle.base_bytes.specs.Ranges.{counted_words};
ghost use Rattle.testbench_runs.specs.Runs.{FitsRun};
ghost use Rattle.passes_codec.specs.Ranges.{run_in_ranges};
ghost use Rattle.base.specs.declared.limits.TheConstants.{CASE_LIMIT, TEXT_LIMIT};

use base::{CASE_LIMIT, PATH_LIMIT, TEXT_LIMIT, TextList};
use base_bytes::{ByteRange, ByteReader, bytes_in, has_words};
use passes_codec::RunRanges;

/// How many words there are, and how many bytes these have together.
#[derive(Clone, Copy)]
pub struct WordSizes {
    pub count: usize,
    pub total: usize,
}

/// The bytes from the start of a range on.
pub fn all_of(bytes: &[u8], range: ByteRange) -> &[u8]
    ensures { result.now ≡ drop range.start bytes.now }
{
    bytes_in(
        bytes,
        ByteRange {
            start: range.start,
            count: bytes.len(),
        },
    )
}

/// The sizes of the words that are counted from the start of a range.
pub fn word_sizes(bytes: &[u8], range: ByteRange) -> WordSizes
    ensures count { result.count ≡ length (counted_words bytes.now range) }
    ensures total { result.total
        ≡ sum_by (λ word. length word) (counted_words bytes.now range) }
{
    let none = WordSizes { count: 0, total: 0 };
    let mut reader = ByteReader::new(all_of(bytes, range));
    let Some(count) = reader.u32() else {
        return none;
    };
    let mut total = 0;
    for _ in 0..count {
        let Some(word) = reader.text() else {
            return none;
        };
        total += word.len();
    }
    WordSizes {
        count: count as usize,
        total,
    }
}

/// Whether the words that are counted from the start of a range are these, of which there may be none.
pub fn are_words(bytes: &[u8], range: ByteRange, words: &TextList) -> bool
    ensures { IsTrue result ↔ (counted_words bytes.now range ≡ words.now) }
{
    if words.is_empty() {
        return word_sizes(bytes, range).count == 0;
    }
    has_words(bytes, range, words)
}

/// Whether the cases that are counted from the start of a range are within the limits of a run.
fn are_cases_small(bytes: &[u8], range: ByteRange) -> bool
    ensures { IsTrue result
        ↔ ((length (counted_words bytes.now range) ≤ CASE_LIMIT)
        × (sum_by (λ word. length word) (counted_words bytes.now range) ≤ TEXT_LIMIT)) }
{
    let sizes = word_sizes(bytes, range);
    sizes.count <= CASE_LIMIT && sizes.total <= TEXT_LIMIT
}

/// Whether a run whose parts are at ranges of bytes is within its limits.
pub fn is_run_small(bytes: &[u8], run: RunRanges) -> bool
    ensures { IsTrue result ↔ FitsRun (run_in_ranges bytes.now run) }
{
    if bytes_in(bytes, run.library).len() > TEXT_LIMIT {
        return false;
    }
    if bytes_in(bytes, run.bench).len() > TEXT_LIMIT {
        return false;
    }
    if bytes_in(bytes, run.architecture).len() > TEXT_LIMIT {
        return false;
    }
    if bytes_in(bytes, run.path).len() > PATH_LIMIT {
        return false;
    }
    are_cases_small(bytes, run.cases)
}
