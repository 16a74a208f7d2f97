//! Patterns prepared for matching many names: plain names, which are compared byte by byte, and the other patterns.

ghost use Rattle.std.specs.Prelude.{◌≡◌, ℕ, List, ◌<◌, ◌||◌, ◌∷◌, [], IfOk, IfSome, OnOk, IsTrue, length, map};
ghost use Rattle.std.specs.Str.{bytes_eq};
ghost use Rattle.testbench_select.specs.declared.pattern.PatternPart.TheVariants.{AnyBytes, Byte};
ghost use Rattle.testbench_select.specs.Choosing.{AreNumbersOf, AreUpTo, Chooses, IsBounded, is_asked_for, is_chosen, matches_at, some_matches};

use crate::matching::matches;
use crate::pattern::{Pattern, PatternList, PatternPart};
use base::NoMemory;
use indexmap::IndexSet;
use std::alloc::Global;

/// What patterns choose. `all` says that some pattern is a `*` alone, which matches every name. `plain` has the names
/// of the patterns that match one name only, and no such name has more than `longest` bytes. `others` has the numbers of
/// the other patterns.
#[derive(Drop)]
pub struct Choice {
    pub all: bool,
    pub plain: IndexSet<Vec<u8>>,
    pub longest: usize,
    pub others: Vec<usize>,
}

/// Whether a pattern is a `*` alone, which matches every name.
fn is_all(pattern: &Pattern) -> bool
    ensures { IsTrue result → pattern.now ≡ AnyBytes ∷ [] }
{
    match pattern.pattern_parts() {
        [PatternPart::AnyBytes] => true,
        _ => false,
    }
}

/// The byte that a pattern part stands for, if it stands for this one alone.
fn plain_byte(pattern_part: &PatternPart) -> Option<u8>
    ensures { IfSome result (λ byte. pattern_part.now ≡ Byte byte) }
{
    match pattern_part {
        PatternPart::Byte(byte) => Some(*byte),
        _ => None,
    }
}

/// The only name that a pattern matches, where each of its pattern parts is a byte.
fn plain_name(alloc: Global, pattern: &Pattern) -> Result<Option<Vec<u8>>, NoMemory>
    ensures { IfOk result (λ found. IfSome found (λ name. pattern.now ≡ map Byte name.items)) }
{
    let mut name = Vec::new(alloc);
    for pattern_part in pattern.pattern_parts() {
        let Some(byte) = plain_byte(pattern_part) else {
            return Ok(None);
        };
        name.push(byte)?;
    }
    Ok(Some(name))
}

/// Adds a plain name, unless it is already in the set.
fn add_name(names: &mut IndexSet<Vec<u8>>, name: Vec<u8>) -> Result<(), NoMemory>
    ensures { OnOk result ((other : List ℕ) →
        is_asked_for names.new other
        ≡ (is_asked_for names.old other || bytes_eq other name.items)) }
{
    if !names.contains(name.as_slice()) {
        names.insert(name)?;
    }
    Ok(())
}

/// Adds the pattern of a number.
fn add(
    alloc: Global,
    patterns: &PatternList,
    number: usize,
    choice: &mut Choice,
) -> Result<(), NoMemory>
    requires number { number < length patterns.now }
    requires numbers { AreNumbersOf patterns.now choice.now.others.items }
    ensures exact { OnOk result ((name : List ℕ) → is_chosen patterns.now choice.new name
        ≡ (is_chosen patterns.now choice.old name || matches_at patterns.now name number)) }
    ensures numbers { OnOk result (AreNumbersOf patterns.now choice.new.others.items) }
{
    let pattern = patterns.get(number as u64);
    if is_all(pattern) {
        choice.all = true;
        return Ok(());
    }
    match plain_name(alloc, pattern)? {
        Some(name) => add_name(&mut choice.plain, name)?,
        None => choice.others.push(number)?,
    }
    Ok(())
}

/// The most bytes of a name among names.
fn longest(names: &IndexSet<Vec<u8>>) -> usize
    ensures { AreUpTo names.now result }
{
    let mut most = 0;
    for name in names.as_slice() {
        most = most.max(name.len());
    }
    most
}

/// What patterns choose, with 0 in place of the length of the longest plain name.
fn unbounded_choice(alloc: Global, patterns: &PatternList) -> Result<Choice, NoMemory>
    ensures { IfOk result (λ choice. Chooses patterns.now patterns.now choice) }
{
    let mut choice = Choice {
        all: false,
        plain: IndexSet::new(alloc),
        longest: 0,
        others: Vec::new(alloc),
    };
    for number in 0..patterns.len() {
        add(alloc, patterns, number as usize, &mut choice)?;
    }
    Ok(choice)
}

/// What patterns choose.
pub fn choice_of(alloc: Global, patterns: &PatternList) -> Result<Choice, NoMemory>
    ensures exact { IfOk result (λ choice. Chooses patterns.now patterns.now choice) }
    ensures bounded { IfOk result IsBounded }
{
    let Choice {
        all,
        plain,
        others,
        ..
    } = unbounded_choice(alloc, patterns)?;
    let longest = longest(&plain);
    Ok(Choice {
        all,
        plain,
        longest,
        others,
    })
}

/// Whether the pattern of some number matches a name.
fn some_matches(patterns: &PatternList, numbers: &[usize], name: &[u8]) -> bool
    requires { AreNumbersOf patterns.now numbers.now }
    ensures { result ≡ some_matches patterns.now numbers.now name.now }
{
    for number in numbers {
        if matches(patterns.get(*number as u64), name) {
            return true;
        }
    }
    false
}

/// Whether a name is a plain name. The bytes of a name that is longer than all plain names aren't looked at.
fn is_asked_for(choice: &Choice, name: &[u8]) -> bool
    requires { IsBounded choice.now }
    ensures { result ≡ is_asked_for choice.now.plain name.now }
{
    if name.len() > choice.longest {
        return false;
    }
    choice.plain.contains(name)
}

/// Whether a name is chosen: all names are, or it is a plain name, or one of the other patterns matches it.
pub fn is_chosen(patterns: &PatternList, choice: &Choice, name: &[u8]) -> bool
    requires numbers { AreNumbersOf patterns.now choice.now.others.items }
    requires bounded { IsBounded choice.now }
    ensures { result ≡ is_chosen patterns.now choice.now name.now }
{
    choice.all
        || is_asked_for(choice, name)
        || some_matches(patterns, choice.others.as_slice(), name)
}
