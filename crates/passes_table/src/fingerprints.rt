//! Fingerprints of tests and lists: numbers that different ones seldom share.

ghost use Rattle.std.specs.Prelude.{◌≡◌};
ghost use Rattle.base_bytes.specs.Ranges.{counted_words};
ghost use Rattle.passes_codec.specs.Ranges.{run_in_ranges};
ghost use Rattle.passes_table.specs.Fingerprints.{joined, rows_fingerprint, tests_fingerprint, with_row_fingerprint, with_text_fingerprint, with_text_fingerprints};

use crate::sizes::all_of;
use base::{Text, TextList};
use base_bytes::{ByteRange, ByteReader, bytes_in};
use base_collections::fingerprint_of;
use passes_codec::RunRanges;
use store_table::ProductRow;
use testbench_runs::TestRun;

/// An odd number, so that joining loses nothing.
const FACTOR: u64 = 0x9E37_79B9_7F4A_7C15;

/// Joins one more number to a fingerprint.
#[tactic(auto, unfolding(crate::specs::Fingerprints::joined))]
fn join(fingerprint: u64, number: u64) -> u64
    ensures { result ≡ joined fingerprint number }
{
    fingerprint.wrapping_mul(FACTOR).wrapping_add(number)
}

/// A fingerprint with the fingerprint of a text joined to it.
fn with_text(fingerprint: u64, text: &[u8]) -> u64
    ensures { result ≡ with_text_fingerprint fingerprint text.now }
{
    join(fingerprint, fingerprint_of(text))
}

/// A fingerprint with the fingerprints of texts joined to it.
fn with_texts(fingerprint: u64, texts: &[Text]) -> u64
    ensures { result ≡ with_text_fingerprints fingerprint texts.now }
{
    let mut all = fingerprint;
    for text in texts {
        all = with_text(all, text.bytes());
    }
    all
}

/// A fingerprint with the fingerprints of the words joined to it that are counted from the start of a range.
fn with_words(fingerprint: u64, bytes: &[u8], range: ByteRange) -> u64
    ensures { result ≡ with_text_fingerprints fingerprint (counted_words bytes.now range) }
{
    let mut reader = ByteReader::new(all_of(bytes, range));
    let Some(count) = reader.u32() else {
        return fingerprint;
    };
    let mut all = fingerprint;
    for _ in 0..count {
        let Some(word) = reader.text() else {
            return fingerprint;
        };
        all = with_text(all, word);
    }
    all
}

/// The fingerprint of the tests of a run with a simulator.
#[tactic(auto, unfolding(crate::specs::Fingerprints::tests_fingerprint))]
pub fn fingerprint_of_run(run: &TestRun, simulator: &TextList) -> u64
    ensures { result ≡ tests_fingerprint run.now simulator.now }
{
    let bench = with_text(with_text(0, run.library.bytes()), run.bench.bytes());
    with_texts(
        with_texts(bench, run.cases.as_slice()),
        simulator.as_slice(),
    )
}

/// The fingerprint of the tests of a pass whose parts are at ranges of bytes.
#[tactic(auto, unfolding(crate::specs::Fingerprints::tests_fingerprint))]
pub fn fingerprint_in(bytes: &[u8], run: RunRanges, simulator: ByteRange) -> u64
    ensures { result
        ≡ tests_fingerprint (run_in_ranges bytes.now run) (counted_words bytes.now simulator) }
{
    let library = with_text(0, bytes_in(bytes, run.library));
    let bench = with_text(library, bytes_in(bytes, run.bench));
    with_words(with_words(bench, bytes, run.cases), bytes, simulator)
}

/// A fingerprint with the numbers of a row joined to it.
fn with_row(fingerprint: u64, row: ProductRow) -> u64
    ensures { result ≡ with_row_fingerprint fingerprint row }
{
    join(join(fingerprint, row.name as u64), row.text as u64)
}

/// The fingerprint of the rows of a list.
#[tactic(auto, unfolding(crate::specs::Fingerprints::rows_fingerprint))]
pub fn rows_fingerprint(rows: &[ProductRow]) -> u64
    ensures { result ≡ rows_fingerprint rows.now }
{
    let mut fingerprint = 0;
    for row in rows {
        fingerprint = with_row(fingerprint, *row);
    }
    fingerprint
}
