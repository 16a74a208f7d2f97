//! What a tree over memory lists.
ghost use Rattle.std.specs.Prelude.{◌≡◌, ◌==◌, nat_eq, IfOk, filter, IsPermutation, IsSorted};
ghost use Rattle.std.specs.List.{AllByRecursion, dedup, list_all, slice_split};
ghost use Rattle.std.specs.Ordering.{nat_cmp};
ghost use Rattle.std.specs.Cmp.Lexicographic.{pointwise, slice_cmp};
ghost use Rattle.outside.specs.Trees.{IsListing, IsName, names_end, is_listed as listed, is_shown};
ghost use Rattle.memory_outside.specs.Trees.{HavePaths, paths_of, listed_of, rising_paths};

use base::{Items, NamedText, NoMemory, PATH_LIMIT, Text, TextList};
use outside::NamesEnd;
use std::alloc::Global;

/// What a tree of these files lists.
pub fn listing(alloc: Global, files: &[NamedText], limit: u64) -> Result<NamesEnd, NoMemory>
    requires { HavePaths files.now }
    ensures form { IfOk result (IsListing limit) }
    ensures names { IfOk result (λ end. end ≡ names_end (listed_of files.now) limit) }
{
    let paths = listed_paths(alloc, files)?;
    Ok(rising_names(Items::from_vec(paths), limit))
}

/// The listing of these paths: each once, in rising order.
pub fn rising_names(paths: TextList, limit: u64) -> NamesEnd
    requires { AllByRecursion IsName paths }
    ensures form { IsListing limit result }
    ensures names { result ≡ names_end (rising_paths paths) limit }
{
    let mut all = paths.into_vec();
    sort_paths(&mut all);
    drop_repeats(&mut all);
    if all.len() as u64 > limit {
        return NamesEnd::TooMany;
    }
    NamesEnd::Got(Items::from_vec(all))
}

/// Copies of the paths that are listed, in order of the files.
fn listed_paths(alloc: Global, files: &[NamedText]) -> Result<Vec<Text>, NoMemory>
    ensures { IfOk result (λ paths. paths.items ≡ filter listed (paths_of files.now)) }
{
    let mut paths = Vec::new(alloc);
    for file in files {
        if is_listed(file.path.bytes()) {
            paths.push(file.path.copy(alloc)?)?;
        }
    }
    Ok(paths)
}

/// Whether a tree lists a file of this path.
pub fn is_listed(path: &[u8]) -> bool
    ensures { result ≡ listed path.now }
{
    path.len() <= PATH_LIMIT && !path.starts_with(b"vunit_out/") && has_no_dot(path)
}

/// Whether no component of a path begins with a dot.
fn has_no_dot(path: &[u8]) -> bool
    ensures { result ≡ list_all is_shown (slice_split (λ b. b == 47) path.now) }
{
    path.split(|b| *b == b'/')
        .all(|component| !component.starts_with(b"."))
}

fn sort_paths(paths: &mut Vec<Text>)
    ensures permutation { IsPermutation paths.old.items paths.new.items }
    ensures sorted { IsSorted (slice_cmp nat_cmp) paths.new.items }
{
    paths.sort_unstable_by(|a, b| a.bytes().cmp(b.bytes()));
}

/// Drops each path that is the same as the last one kept.
fn drop_repeats(paths: &mut Vec<Text>)
    ensures { paths.new.items ≡ dedup (pointwise nat_eq) paths.old.items }
{
    paths.dedup_by(|a, b| a.bytes() == b.bytes());
}
