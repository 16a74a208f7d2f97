//! Parentheses within a unit.

ghost use Rattle.std.specs.Prelude.{◌<◌, ◌≤◌, ◌+◌, length};
ghost use Rattle.vhdl_units.specs.Walk.{AreCounts};

use crate::ends::role_at;
use base::Role;

/// How many parentheses were opened and closed since a unit's start.
#[derive(Clone, Copy)]
pub struct Counts {
    pub opened: usize,
    pub closed: usize,
}

/// The counts after one more token.
#[inline(always)]
pub fn counts_after(counts: Counts, roles: &[Role], start: usize, at: usize) -> Counts
    requires counts { AreCounts roles.now start at counts }
    requires within { at < length roles.now }
    ensures { AreCounts roles.now start (at + 1) result }
{
    let mut next = counts;
    match role_at(roles, at) {
        Role::Opening => next.opened += 1,
        Role::Closing => next.closed += 1,
        _ => {}
    }
    next
}

/// The counts before a token, from those before an earlier one.
pub fn counts_at(counts: Counts, roles: &[Role], start: usize, from: usize, to: usize) -> Counts
    requires counts { AreCounts roles.now start from counts }
    requires ordered { from ≤ to }
    requires within { to ≤ length roles.now }
    ensures { AreCounts roles.now start to result }
{
    let mut counts = counts;
    for at in from..to {
        counts = counts_after(counts, roles, start, at);
    }
    counts
}
