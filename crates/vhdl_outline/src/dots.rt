//! Where dots are. Few tokens are dots, so a walk that looks for selected names passes over many tokens at once.

ghost use Rattle.std.specs.Prelude.{◌≡◌, ◌+◌, ◌≤◌, IsTrue, false, length};
ghost use Rattle.vhdl_outline.specs.Dots.{HasPassed, IsDotless};

use crate::reference_words::is_dot;
use base::Role;
use vhdl_units::role_at;

/// Whether one of the 32 tokens from an index on is a dot. There is no early exit, so that many are tested at a time.
fn has_dot(roles: &[Role], from: usize) -> bool
    requires { from + 32 ≤ length roles.now }
    ensures { result ≡ false → IsDotless roles.now from (from + 32) }
{
    let mut found = false;
    for at in from..from + 32 {
        let role = roles[at];
        let more = is_dot(role);
        found |= more;
    }
    found
}

/// Whether it is known that no dot follows any of the 32 tokens from an index on, which are before another index.
fn is_undotted(roles: &[Role], at: usize, end: usize) -> bool
    requires ordered { at ≤ end }
    requires within { end ≤ length roles.now }
    ensures { IsTrue result → HasPassed roles.now at end (at + 32) }
{
    if end - at <= 32 {
        return false;
    }
    !has_dot(roles, at + 1)
}

/// Passes over tokens that no dot follows, 32 at a time.
fn pass_many(roles: &[Role], from: usize, end: usize) -> usize
    requires ordered { from ≤ end }
    requires within { end ≤ length roles.now }
    ensures { HasPassed roles.now from end result }
{
    let mut at = from;
    while is_undotted(roles, at, end) {
        at += 32;
    }
    at
}

/// The first of the tokens `from .. end` that a dot follows, or `end` if a dot follows no such token.
pub fn next_dotted(roles: &[Role], from: usize, end: usize) -> usize
    requires ordered { from ≤ end }
    requires within { end ≤ length roles.now }
    ensures { HasPassed roles.now from end result }
{
    let mut at = pass_many(roles, from, end);
    while at < end && !is_dot(role_at(roles, at + 1)) {
        at += 1;
    }
    at
}
