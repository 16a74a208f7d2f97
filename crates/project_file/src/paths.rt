//! Whether a pattern of files matches a path.

ghost use Rattle.std.specs.Prelude.{◌≡◌, ◌+◌, ◌≤◌, ◌&&◌, ◌||◌, Bool, ℕ, List, [], length, map, IfOk};
ghost use Rattle.testbench_select.specs.Segments.{is_match};
ghost use Rattle.testbench_select.specs.Fits.{first_is};
ghost use Rattle.project_file.specs.Paths.{components, is_any_components, matches_path};
ghost use Rattle.project_file.specs.PathRows.{part_of, texts_seen, fits_parts, IsRow, any_end};

use crate::csv::is_same;
use crate::parts::cut_at;
use base::{Items, NoMemory};
use std::alloc::Global;
use testbench_select::{Pattern, matches, read_pattern};

/// A part of a pattern: it stands for any number of components, or for one that its pattern matches.
#[derive(Drop)]
pub struct Part {
    any: bool,
    pattern: Pattern,
}

pub type PartList = Items<Part>;

/// The part of a pattern that a text between slashes is: `**`, or a pattern of one component.
fn part_of(alloc: Global, text: &[u8]) -> Result<Part, NoMemory>
    ensures { IfOk result (λ part. part ≡ part_of text.now) }
{
    Ok(Part {
        any: is_same(text, b"**"),
        pattern: read_pattern(alloc, text)?,
    })
}

/// The parts of a pattern of files.
pub fn parts_of(alloc: Global, pattern: &[u8]) -> Result<PartList, NoMemory>
    ensures { IfOk result (λ parts. parts ≡ map part_of (components pattern.now)) }
{
    let mut parts = PartList::new(alloc);
    let mut rest = pattern;
    while let Some((part, others)) = cut_at(rest, b'/') {
        parts.push(part_of(alloc, part)?)?;
        rest = others;
    }
    parts.push(part_of(alloc, rest)?)?;
    Ok(parts)
}

/// What stands between the slashes of a path, in order.
fn components(alloc: Global, path: &[u8]) -> Result<Vec<&[u8]>, NoMemory>
    ensures { IfOk result (λ parts. texts_seen parts.items ≡ components path.now) }
{
    let mut parts = Vec::new(alloc);
    let mut rest = path;
    while let Some((part, others)) = cut_at(rest, b'/') {
        parts.push(part)?;
        rest = others;
    }
    parts.push(rest)?;
    Ok(parts)
}

/// The row of no parts: nothing is left at the end alone.
fn first_row(alloc: Global, components: &[&[u8]]) -> Result<Vec<bool>, NoMemory>
    ensures { IfOk result (λ row. IsRow (fits_parts []) components.now row.items) }
{
    let mut row = vec![in alloc; false; components.len()]?;
    row.push(true)?;
    Ok(row)
}

/// Whether one of both holds; both are known already.
pub fn either(first: bool, second: bool) -> bool
    ensures { result ≡ (first || second) }
{
    first || second
}

/// Whether the others match, and a component does.
fn also(others: bool, pattern: &Pattern, component: &[u8]) -> bool
    ensures { result ≡ (others && is_match pattern.now component.now) }
{
    others && matches(pattern, component)
}

/// The row with a part more in front, which stands for any number of components.
fn any_components(components: &[&[u8]], row: &mut [bool])
    requires { length row.old ≡ length components.now + 1 }
    ensures { (test : List (List ℕ) → Bool) → IsRow test components.now row.old →
        IsRow (any_end test) components.now row.new }
{
    let mut j = components.len();
    while j > 0 {
        j -= 1;
        row[j] = either(row[j], row[j + 1]);
    }
}

/// The row with a part more in front, which stands for one component.
fn one_component(pattern: &Pattern, components: &[&[u8]], row: &mut [bool])
    requires { length row.old ≡ length components.now + 1 }
    ensures { (test : List (List ℕ) → Bool) → IsRow test components.now row.old →
        IsRow (first_is (is_match pattern.now) test) components.now row.new }
{
    for j in 0..components.len() {
        row[j] = also(row[j + 1], pattern, components[j]);
    }
    row[components.len()] = false;
}

/// Whether parts of a pattern match components: from the last part to the first, which ends of the components the parts
/// match that were looked at.
fn fits_parts(parts: &[Part], components: &[&[u8]], row: &mut [bool]) -> bool
    requires { IsRow (fits_parts []) components.now row.old }
    ensures { result ≡ fits_parts parts.now (texts_seen components.now) }
{
    let mut i = parts.len();
    while i > 0 {
        i -= 1;
        let part = &parts[i];
        if part.any {
            any_components(components, row);
        } else {
            one_component(&part.pattern, components, row);
        }
    }
    row[0]
}

/// Whether the parts of a pattern match a path. The time is at most in proportion to the product of parts and components,
/// and each part is compared with at most each component once.
#[tactic(auto, using(crate::proofs::MatchSteps::pattern_is))]
pub fn matches_path(alloc: Global, parts: &[Part], path: &[u8]) -> Result<bool, NoMemory>
    ensures parts { IfOk result (λ is. is ≡ fits_parts parts.now (components path.now)) }
    ensures pattern { (pattern : List ℕ) → parts.now ≡ map part_of (components pattern) →
        IfOk result (λ is. is ≡ matches_path pattern path.now) }
{
    let components = components(alloc, path)?;
    let mut row = first_row(alloc, &components)?;
    Ok(fits_parts(parts, &components, &mut row))
}
