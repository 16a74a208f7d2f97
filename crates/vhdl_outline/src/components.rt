//! Where the components of some tokens are named. Few tokens are `component`, so a walk passes over many at once.

ghost use Rattle.std.specs.Prelude.{◌≡◌, ◌+◌, ◌<◌, ◌≤◌, [], ◌∷◌, ◌++◌, IsTrue, false, if◌then◌else◌, length, OnOk};
ghost use Rattle.std.specs.List.{All};
ghost use Rattle.vhdl_outline.specs.Components.{HasNoComponent, HasPassedWords, components_between, is_component, name_index};

use crate::reference_words::{is_component_word, is_end_word, is_name, role_before};
use base::{NoMemory, Role, TEXT_LIMIT};
use vhdl_units::role_at;

/// Whether one of the 32 tokens from an index on is `component`. There is no early exit, so that many are tested at a time.
fn has_component(roles: &[Role], from: usize) -> bool
    requires { from + 32 ≤ length roles.now }
    ensures { result ≡ false → HasNoComponent roles.now from (from + 32) }
{
    let mut found = false;
    for at in from..from + 32 {
        let role = roles[at];
        let more = is_component_word(role);
        found |= more;
    }
    found
}

/// Whether it is known that none of the 32 tokens from an index on, which are before another index, is `component`.
fn is_free(roles: &[Role], at: usize, end: usize) -> bool
    requires ordered { at ≤ end }
    requires within { end ≤ length roles.now }
    ensures { IsTrue result → HasPassedWords roles.now at end (at + 32) }
{
    if end - at < 32 {
        return false;
    }
    !has_component(roles, at)
}

/// Passes over tokens that aren't `component`, 32 at a time.
fn pass_many(roles: &[Role], from: usize, end: usize) -> usize
    requires ordered { from ≤ end }
    requires within { end ≤ length roles.now }
    ensures { HasPassedWords roles.now from end result }
{
    let mut at = from;
    while is_free(roles, at, end) {
        at += 32;
    }
    at
}

/// The first `component` among the tokens `from .. end`, or `end` if no token is a `component`.
fn next_component(roles: &[Role], from: usize, end: usize) -> usize
    requires ordered { from ≤ end }
    requires within { end ≤ length roles.now }
    ensures { HasPassedWords roles.now from end result }
{
    let mut at = pass_many(roles, from, end);
    while at < end && !is_component_word(role_at(roles, at)) {
        at += 1;
    }
    at
}

/// Whether a component is named after the token.
fn is_component(roles: &[Role], at: usize) -> bool
    requires { at < length roles.now }
    ensures is { result ≡ is_component roles.now at }
    ensures within { IsTrue result → at + 1 < length roles.now }
{
    if at + 1 < roles.len() && is_component_word(roles[at]) {
        is_name(roles[at + 1]) && !is_end_word(role_before(roles, at))
    } else {
        false
    }
}

/// Adds the index of the name of a component, where one is named after the token.
fn push_component(roles: &[Role], at: usize, found: &mut Vec<u32>) -> Result<(), NoMemory>
    requires within { at < length roles.now }
    requires small { length roles.now ≤ TEXT_LIMIT }
    requires before { All (λ at. at < length roles.now) found.old.items }
    ensures found { OnOk result (found.new.items ≡ found.old.items ++
        (if is_component roles.now at then name_index at ∷ [] else [])) }
    ensures after { OnOk result (All (λ at. at < length roles.now) found.new.items) }
{
    if is_component(roles, at) {
        found.push(at as u32 + 1)?;
    }
    Ok(())
}

/// Adds the indices of the names of the components from one token up to another, rising.
pub fn push_components(
    roles: &[Role],
    start: usize,
    end: usize,
    found: &mut Vec<u32>,
) -> Result<(), NoMemory>
    requires ordered { start ≤ end }
    requires within { end ≤ length roles.now }
    requires small { length roles.now ≤ TEXT_LIMIT }
    requires before { All (λ at. at < length roles.now) found.old.items }
    ensures found { OnOk result (found.new.items ≡
        found.old.items ++ components_between roles.now start end) }
    ensures after { OnOk result (All (λ at. at < length roles.now) found.new.items) }
{
    let mut at = next_component(roles, start, end);
    while at < end {
        push_component(roles, at, found)?;
        at = next_component(roles, at + 1, end);
    }
    Ok(())
}
