//! The lines with the counts of the builds and tests of the generated project.

ghost use Rattle.std.specs.Prelude.{◌≡◌, ◌++◌, IfOk, OnOk};
ghost use Rattle.generated_project.specs.Lines.{files_words, first_words, second_words, passed_words, of_word, number_line, passed_line, count_lines};

use crate::puts::{put, put_number, put_wide};
use base::{NoMemory, Text};
use std::alloc::Global;

/// How many files there are, how many of them each of two builds compiled, how many test cases there are, and how many of
/// these have passed. A sum over the cases of runs has room in 128 bits.
#[derive(Clone, Copy, Debug, PartialEq, Eq)]
pub struct Counts {
    pub files: u64,
    pub first: u64,
    pub second: u64,
    pub passed: u128,
    pub total: u128,
}

/// Puts a number after its words, as a line.
fn put_line(alloc: Global, out: &mut Vec<u8>, words: &[u8], number: u64) -> Result<(), NoMemory>
    ensures { OnOk result (out.new.items ≡ out.old.items ++ number_line words.now number) }
{
    put(out, words)?;
    put_number(alloc, out, number)?;
    put(out, b"\n")?;
    Ok(())
}

#[tactic(auto, unfolding(crate::specs::Lines::files_words))]
fn put_files(alloc: Global, out: &mut Vec<u8>, number: u64) -> Result<(), NoMemory>
    ensures { OnOk result (out.new.items ≡ out.old.items ++ number_line files_words number) }
{
    put_line(alloc, out, b"files ", number)
}

#[tactic(auto, unfolding(crate::specs::Lines::first_words))]
fn put_first(alloc: Global, out: &mut Vec<u8>, number: u64) -> Result<(), NoMemory>
    ensures { OnOk result (out.new.items ≡ out.old.items ++ number_line first_words number) }
{
    put_line(alloc, out, b"first build compiled ", number)
}

#[tactic(auto, unfolding(crate::specs::Lines::second_words))]
fn put_second(alloc: Global, out: &mut Vec<u8>, number: u64) -> Result<(), NoMemory>
    ensures { OnOk result (out.new.items ≡ out.old.items ++ number_line second_words number) }
{
    put_line(alloc, out, b"second build compiled ", number)
}

/// Puts how many cases of all have passed.
#[tactic(auto, unfolding(crate::specs::Lines::passed_words, crate::specs::Lines::of_word))]
fn put_passed(alloc: Global, out: &mut Vec<u8>, passed: u128, total: u128) -> Result<(), NoMemory>
    ensures { OnOk result (out.new.items ≡ out.old.items ++ passed_line passed total) }
{
    put(out, b"tests passed ")?;
    put_wide(alloc, out, passed)?;
    put(out, b" of ")?;
    put_wide(alloc, out, total)?;
    put(out, b"\n")?;
    Ok(())
}

/// The four lines of these numbers, each ended by a line feed.
pub fn count_lines(alloc: Global, counts: Counts) -> Result<Text, NoMemory>
    ensures { IfOk result (λ text. text ≡ count_lines counts) }
{
    let mut text = Vec::new(alloc);
    put_files(alloc, &mut text, counts.files)?;
    put_first(alloc, &mut text, counts.first)?;
    put_second(alloc, &mut text, counts.second)?;
    put_passed(alloc, &mut text, counts.passed, counts.total)?;
    Ok(Text::from_vec(text))
}
