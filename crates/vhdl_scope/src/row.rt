//! Rows: the set of numbers of one index, in the form that is stored and in the forms that are changed.

ghost use Rattle.std.specs.Prelude.{◌≡◌, ℕ, ◌/◌, ◌<◌, ◌≤◌, ◌||◌, ◌∷◌, ◌++◌, [], true, false, bit_or, drop, length, nat_eq, IfOk, OnOk, IsTrue, replicate};
ghost use Rattle.std.specs.Int.{bit_at};
ghost use Rattle.vhdl_scope.specs.Bits.{row_has, gap};
ghost use Rattle.vhdl_scope.specs.Rows.{AreMergedTo, ArePassed, AreRunsTo, both_words, row_words, runs_of, word_or};

use crate::bits::set_bit;
use base::NoMemory;
use std::alloc::Global;
use std::marker::Model;
use std::mem::swap;

/// A run of equal words of a row, from the end of the run before up to the index `end`.
#[derive(Clone, Copy)]
pub struct Run {
    pub end: usize,
    pub word: u64,
}

/// The runs of a row. One alone takes no memory of its own.
#[derive(Drop)]
pub enum Runs {
    One([Run; 1]),
    Many(Vec<Run>),
}

/// A set of numbers in the form that is stored: `words` words, as runs. Contracts see the words.
#[derive(Drop)]
pub struct Row {
    words: usize,
    runs: Runs,
}

impl Model for Row {
    ghost use Rattle.std.specs.Prelude.{List, ℕ};
    ghost use Rattle.vhdl_scope.specs.Rows.{row_words, runs_of};

    ghost Value = { List ℕ };

    ghost view = { λ a. row_words a.words (runs_of a.runs) };
}

/// A set into which numbers are put one by one: all its words. Contracts see them.
#[derive(Drop)]
pub struct Room {
    words: Vec<u64>,
}

impl Model for Room {
    ghost use Rattle.std.specs.Prelude.{List, ℕ};

    ghost Value = { List ℕ };

    ghost view = { λ a. a.words.items };
}

/// A set into which rows are put, with room for what comes of the next one. Contracts see its words.
#[derive(Drop)]
pub struct Draft {
    words: usize,
    runs: Vec<Run>,
    spare: Vec<Run>,
}

impl Model for Draft {
    ghost use Rattle.std.specs.Prelude.{List, ℕ};
    ghost use Rattle.vhdl_scope.specs.Rows.{row_words};

    ghost Value = { List ℕ };

    ghost view = { λ a. row_words a.words a.runs.items };
}

/// The word at an index.
fn word_at(runs: &[Run], at: usize) -> u64
    ensures { result ≡ word_or 0 runs.now at }
{
    for run in runs {
        if at < run.end {
            return run.word;
        }
    }
    0
}

/// Whether a word has a bit.
fn has_bit(word: u64, bit: usize) -> bool
    requires { bit < 64 }
    ensures { result ≡ nat_eq (bit_at word bit) 1 }
{
    (word >> bit) & 1 == 1
}

/// Whether a row of `words` words has a number.
fn has_in(words: usize, runs: &[Run], number: usize) -> bool
    ensures { result ≡ row_has (row_words words runs.now) number }
{
    let at = number / 64;
    if at >= words {
        return false;
    }
    has_bit(word_at(runs, at), number % 64)
}

/// Whether runs are the same.
fn are_same(runs: &[Run], other: &[Run]) -> bool
    ensures { IsTrue result → runs.now ≡ other.now }
{
    if runs.len() != other.len() {
        return false;
    }
    for at in 0..runs.len() {
        if runs[at].end != other[at].end {
            return false;
        }
        if runs[at].word != other[at].word {
            return false;
        }
    }
    true
}

/// Adds equal words, up to an index, after the run `last`. If its words are the same, that run is extended.
fn push_after(runs: &mut Vec<Run>, last: Run, end: usize, word: u64) -> Result<(), NoMemory>
    ensures { OnOk result ((start : ℕ) (words : ℕ → ℕ) →
        AreRunsTo start words (runs.old.items ++ last ∷ []) → start < end →
        ((at : ℕ) → start ≤ at → at < end → words at ≡ word) →
        AreRunsTo end words runs.new.items) }
{
    if last.word == word {
        runs.push(Run { end, word })?;
        return Ok(());
    }
    runs.push(last)?;
    runs.push(Run { end, word })?;
    Ok(())
}

/// Adds equal words, up to an index.
fn push_run(runs: &mut Vec<Run>, end: usize, word: u64) -> Result<(), NoMemory>
    ensures { OnOk result ((start : ℕ) (words : ℕ → ℕ) → AreRunsTo start words runs.old.items →
        start < end → ((at : ℕ) → start ≤ at → at < end → words at ≡ word) →
        AreRunsTo end words runs.new.items) }
{
    match runs.pop() {
        Some(last) => push_after(runs, last, end, word),
        None => {
            runs.push(Run { end, word })?;
            Ok(())
        }
    }
}

/// The runs of words.
fn runs_in(alloc: Global, words: &[u64]) -> Result<Vec<Run>, NoMemory>
    ensures { IfOk result (λ runs. row_words (length words.now) runs.items ≡ words.now) }
{
    let mut runs = Vec::new(alloc);
    for at in 0..words.len() {
        push_run(&mut runs, at + 1, words[at])?;
    }
    Ok(runs)
}

/// Where a walk along runs stands: the index of a run, its end, and its word.
#[derive(Clone, Copy)]
pub struct Stand {
    pub index: usize,
    pub end: usize,
    pub word: u64,
}

/// The first run from an index of runs on that ends past an index of words. After the last run, all words are 0.
fn stand_at(words: usize, runs: &[Run], from: usize, at: usize) -> Stand
    requires words { at < words }
    requires passed { ArePassed at runs.now (drop from runs.now) }
    ensures past { at < result.end }
    ensures within { result.end ≤ words }
    ensures word { (row_index : ℕ) → at ≤ row_index → row_index < result.end →
        word_or 0 runs.now row_index ≡ result.word }
    ensures passed { ArePassed at runs.now (drop result.index runs.now) }
{
    for index in from..runs.len() {
        let run = runs[index];
        if at < run.end {
            let end = if run.end < words { run.end } else { words };
            return Stand {
                index,
                end,
                word: run.word,
            };
        }
    }
    Stand {
        index: runs.len(),
        end: words,
        word: 0,
    }
}

/// The nearer one of two indices.
fn nearer(one: usize, other: usize) -> usize
    ensures past { (at : ℕ) → at < one → at < other → at < result }
    ensures one { result ≤ one }
    ensures other { result ≤ other }
{
    if one < other { one } else { other }
}

/// The bits of both words.
fn with_bits(word: u64, other: u64) -> u64
    ensures is { result ≡ bit_or word other }
    ensures fits { result < 18446744073709551616 }
{
    word | other
}

/// Puts the bits of two rows of `words` words into a third one, and says whether the third has more bits than the first.
fn merge(
    words: usize,
    first: &[Run],
    second: &[Run],
    merged: &mut Vec<Run>,
) -> Result<bool, NoMemory>
    requires { merged.old.items ≡ [] }
    ensures { IfOk result (AreMergedTo words first.now second.now merged.new.items) }
{
    let mut grown = false;
    let mut at: usize = 0;
    let mut one: usize = 0;
    let mut two: usize = 0;
    while at < words {
        let own = stand_at(words, first, one, at);
        let other = stand_at(words, second, two, at);
        let end = nearer(own.end, other.end);
        let before = own.word;
        let word = with_bits(before, other.word);
        push_run(merged, end, word)?;
        grown |= word != before;
        at = end;
        one = own.index;
        two = other.index;
    }
    Ok(grown)
}

/// Whether a run ends where another does, and has all its bits.
fn has_all(one: Run, other: Run) -> bool
    ensures { IsTrue result → (one.end ≡ other.end) × (bit_or one.word other.word ≡ one.word) }
{
    if one.end != other.end {
        return false;
    }
    one.word | other.word == one.word
}

/// Whether it shows at once that a row has all numbers of another: most rows are one run each.
fn is_over(runs: &[Run], others: &[Run]) -> bool
    ensures { IsTrue result → (at : ℕ) →
        both_words runs.now others.now at ≡ word_or 0 runs.now at }
{
    if runs.len() != 1 {
        return false;
    }
    if others.len() != 1 {
        return false;
    }
    has_all(runs[0], others[0])
}

/// Adds the numbers of `other` to `runs`, both of `words` words, and says whether `runs` has grown. The content of `spare` is lost.
fn join_all(
    words: usize,
    runs: &mut Vec<Run>,
    other: &[Run],
    spare: &mut Vec<Run>,
) -> Result<bool, NoMemory>
    ensures bits { OnOk result ((number : ℕ) → row_has (row_words words runs.new.items) number ≡
        (row_has (row_words words runs.old.items) number
        || row_has (row_words words other.now) number)) }
    ensures same { IfOk result (λ grown. grown ≡ false → runs.new.items ≡ runs.old.items) }
    ensures grows { IfOk result (λ grown. grown ≡ true →
        gap (row_words words runs.new.items) < gap (row_words words runs.old.items)) }
{
    spare.clear();
    let grown = merge(words, runs.as_slice(), other, spare)?;
    if grown {
        swap(runs, spare);
    }
    Ok(grown)
}

/// The same, for nothing where it shows at once that there is nothing to put in.
fn join_runs(
    words: usize,
    runs: &mut Vec<Run>,
    other: &[Run],
    spare: &mut Vec<Run>,
) -> Result<bool, NoMemory>
    ensures bits { OnOk result ((number : ℕ) → row_has (row_words words runs.new.items) number ≡
        (row_has (row_words words runs.old.items) number
        || row_has (row_words words other.now) number)) }
    ensures same { IfOk result (λ grown. grown ≡ false → runs.new.items ≡ runs.old.items) }
    ensures grows { IfOk result (λ grown. grown ≡ true →
        gap (row_words words runs.new.items) < gap (row_words words runs.old.items)) }
{
    if is_over(runs.as_slice(), other) {
        return Ok(false);
    }
    join_all(words, runs, other, spare)
}

impl Runs {
    /// The runs.
    #[tactic(auto, unfolding(crate::specs::Rows::runs_of))]
    fn as_slice(&self) -> &[Run]
        ensures { result.now ≡ runs_of self.now }
    {
        match self {
            Runs::One(run) => run.as_slice(),
            Runs::Many(runs) => runs.as_slice(),
        }
    }

    /// A copy of runs.
    #[tactic(auto, unfolding(crate::specs::Rows::runs_of))]
    fn of(alloc: Global, runs: &[Run]) -> Result<Runs, NoMemory>
        ensures { IfOk result (λ kept. runs_of kept ≡ runs.now) }
    {
        if runs.len() == 1 {
            return Ok(one_of(runs));
        }
        Ok(Runs::Many(Vec::from_slice(alloc, runs)?))
    }
}

/// One run alone.
#[tactic(auto, unfolding(crate::specs::Rows::runs_of))]
fn one_of(runs: &[Run]) -> Runs
    requires { length runs.now ≡ 1 }
    ensures { runs_of result ≡ runs.now }
{
    Runs::One([runs[0]; 1])
}

impl Row {
    /// Whether the row has a number.
    pub fn has(&self, number: usize) -> bool
        ensures { result ≡ row_has self.now number }
    {
        has_in(self.words, self.runs.as_slice(), number)
    }

    /// Whether both have the same words, where all are kept in the same way.
    pub fn same(&self, other: &Draft) -> bool
        ensures { IsTrue result → self.now ≡ other.now }
    {
        self.words == other.words && are_same(self.runs.as_slice(), other.runs.as_slice())
    }

    /// A copy of the row.
    pub fn copy(&self, alloc: Global) -> Result<Row, NoMemory>
        ensures { IfOk result (λ row. row ≡ self.now) }
    {
        Ok(Row {
            words: self.words,
            runs: Runs::of(alloc, self.runs.as_slice())?,
        })
    }
}

/// Puts the words of runs in the place of words.
fn put_runs(words: &mut [u64], runs: &[Run])
    ensures { words.new ≡ row_words (length words.old) runs.now }
{
    for at in 0..words.len() {
        words[at] = word_at(runs, at);
    }
}

impl Room {
    /// An empty set, with room for the numbers below 64 times `words`.
    pub fn new(alloc: Global, words: usize) -> Result<Room, NoMemory>
        ensures { IfOk result (λ room. room ≡ replicate words 0) }
    {
        Ok(Room {
            words: vec![in alloc; 0; words]?,
        })
    }

    /// Puts a number in.
    pub fn put(&mut self, number: usize)
        requires { number / 64 < length self.old }
        ensures len { length self.new ≡ length self.old }
        ensures bits { (other : ℕ) →
            row_has self.new other ≡ (nat_eq other number || row_has self.old other) }
    {
        set_bit(self.words.as_mut_slice(), number);
    }

    /// Replaces the numbers with the numbers of a row.
    pub fn load(&mut self, row: &Row)
        requires { length row.now ≡ length self.old }
        ensures { self.new ≡ row.now }
    {
        put_runs(self.words.as_mut_slice(), row.runs.as_slice());
    }

    /// The numbers as a row.
    pub fn to_row(&self, alloc: Global) -> Result<Row, NoMemory>
        ensures { IfOk result (λ row. row ≡ self.now) }
    {
        let runs = runs_in(alloc, self.words.as_slice())?;
        Ok(Row {
            words: self.words.len(),
            runs: Runs::of(alloc, runs.as_slice())?,
        })
    }
}

impl Draft {
    /// An empty set, for the numbers below 64 times `words`.
    pub fn new(alloc: Global, words: usize) -> Draft
        ensures { result ≡ replicate words 0 }
    {
        Draft {
            words,
            runs: Vec::new(alloc),
            spare: Vec::new(alloc),
        }
    }

    /// Whether the set has a number.
    pub fn has(&self, number: usize) -> bool
        ensures { result ≡ row_has self.now number }
    {
        has_in(self.words, self.runs.as_slice(), number)
    }

    /// Whether both have the same words, where all are kept in the same way.
    pub fn same(&self, other: &Draft) -> bool
        ensures { IsTrue result → self.now ≡ other.now }
    {
        self.words == other.words && are_same(self.runs.as_slice(), other.runs.as_slice())
    }

    /// Puts all numbers of a row in, and says whether the set has grown.
    pub fn join(&mut self, row: &Row) -> Result<bool, NoMemory>
        requires { length row.now ≡ length self.old }
        ensures len { length self.new ≡ length self.old }
        ensures bits { OnOk result ((number : ℕ) →
            row_has self.new number ≡ (row_has self.old number || row_has row.now number)) }
        ensures same { IfOk result (λ grown. grown ≡ false → self.new ≡ self.old) }
        ensures grows { IfOk result (λ grown. grown ≡ true → gap self.new < gap self.old) }
    {
        join_runs(
            self.words,
            &mut self.runs,
            row.runs.as_slice(),
            &mut self.spare,
        )
    }

    /// Replaces the numbers with the numbers of a row.
    pub fn load(&mut self, row: &Row) -> Result<(), NoMemory>
        requires { length row.now ≡ length self.old }
        ensures len { length self.new ≡ length self.old }
        ensures is { OnOk result (self.new ≡ row.now) }
    {
        self.runs.clear();
        self.runs.extend_from_slice(row.runs.as_slice())?;
        Ok(())
    }

    /// The numbers as a row.
    pub fn to_row(&self, alloc: Global) -> Result<Row, NoMemory>
        ensures { IfOk result (λ row. row ≡ self.now) }
    {
        Ok(Row {
            words: self.words,
            runs: Runs::of(alloc, self.runs.as_slice())?,
        })
    }
}
