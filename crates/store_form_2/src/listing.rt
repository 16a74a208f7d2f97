//! Whether a new node lists the dependencies of each dependency before that dependency, in the same order.

ghost use Rattle.std.specs.Prelude.{◌≡◌, ◌≢◌, ◌⊎◌, ◌↔◌, ◌<◌, ◌≤◌, length, All, AllPairs, Contains, IsTrue, IfOk, OnOk};
ghost use Rattle.store_form_2.specs.Fitting.{IsListed};
ghost use Rattle.store_form_2.specs.Fits.{AreListed, AreSomeNodes};

use crate::NodeTable;
use base::NoMemory;
use base_collections::NumberSet;

/// Whether the numbers of a list occur among the first `count` numbers of a set, in the same order. Each number that does is
/// added to `covered`, until one does not.
fn is_listed(
    deps: &NumberSet,
    covered: &mut NumberSet,
    count: usize,
    inner: &[usize],
) -> Result<bool, NoMemory>
    requires few { count ≤ length deps.now.numbers }
    requires once { AllPairs (λ a b. a ≢ b) deps.now.numbers }
    requires deps { All (λ number. number < deps.now.size) inner.now }
    requires covered { All (λ number. number < covered.old.size) inner.now }
    ensures listed { IfOk result
        (λ listed. IsTrue listed ↔ IsListed deps.now.numbers count inner.now) }
    ensures covers { All (λ number. Contains covered.old.numbers number ⊎ Contains inner.now number)
        covered.new.numbers }
    ensures size { covered.new.size ≡ covered.old.size }
{
    let mut least = 0;
    for number in inner {
        let Some(location) = deps.index_of(*number) else {
            return Ok(false);
        };
        if location < least {
            return Ok(false);
        }
        if location >= count {
            return Ok(false);
        }
        least = location + 1;
        covered.add(*number)?;
    }
    Ok(true)
}

/// The set of some numbers, which all differ.
fn fill(set: &mut NumberSet, numbers: &[usize]) -> Result<(), NoMemory>
    requires below { All (λ number. number < set.old.size) numbers.now }
    requires once { AllPairs (λ a b. a ≢ b) numbers.now }
    ensures { OnOk result (set.new ≡ record { size = set.old.size; numbers = numbers.now }) }
{
    set.clear();
    for number in numbers {
        let _is_new = set.add(*number)?;
    }
    Ok(())
}

/// Whether the dependencies of each of these nodes are among the nodes before it, in the same order. The nodes all differ. A
/// node that a later one lists is skipped.
pub fn are_listed(
    set: &mut NumberSet,
    covered: &mut NumberSet,
    table: &NodeTable,
    deps: &[usize],
) -> Result<bool, NoMemory>
    requires set { length table.now.nodes ≤ set.old.size }
    requires covered { length table.now.nodes ≤ covered.old.size }
    requires there { All (λ dep. dep < length table.now.nodes) deps.now }
    requires once { AllPairs (λ a b. a ≢ b) deps.now }
    requires nodes { AreSomeNodes table.now.nodes }
    ensures { IfOk result (λ listed. IsTrue listed ↔ AreListed table.now.nodes deps.now) }
{
    fill(set, deps)?;
    covered.clear();
    let mut left = deps.len();
    while left > 0 {
        left -= 1;
        let dep = deps[left];
        if covered.index_of(dep).is_some() {
            continue;
        }
        let listed = is_listed(set, covered, left, table.row(dep).deps.as_slice())?;
        if !listed {
            return Ok(false);
        }
    }
    Ok(true)
}
