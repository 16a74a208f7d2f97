//! Where a case may be called, as far as the roles of tokens tell. Few tokens have a string alone in parentheses after them,
//! so a walk that looks for calls passes over many tokens at once.

ghost use Rattle.std.specs.Prelude.{◌≡◌, ◌+◌, ◌<◌, ◌≤◌, IsTrue, false, length};
ghost use Rattle.vhdl_outline.specs.Passing.{HasPassed, IsUncalled, may_call};

use crate::testbench_words::{is_closing, is_opening, is_other};
use base::Role;
use vhdl_units::role_at;

/// Whether `(`, a token that no rule names, as a string, and `)` follow a token.
fn may_call(roles: &[Role], at: usize) -> bool
    requires { at < length roles.now }
    ensures { result ≡ may_call roles.now at }
{
    is_opening(role_at(roles, at + 1))
        && is_other(role_at(roles, at + 2))
        && is_closing(role_at(roles, at + 3))
}

/// The same where three tokens follow. None of the three tests is left out, so that many tokens are tested at a time.
#[inline(always)]
fn may_call_within(roles: &[Role], at: usize) -> bool
    requires { at + 3 < length roles.now }
    ensures { result ≡ may_call roles.now at }
{
    let opens = is_opening(roles[at + 1]);
    let other = is_other(roles[at + 2]);
    let closes = is_closing(roles[at + 3]);
    opens & other & closes
}

/// Whether a case may be called at one of the 32 tokens from an index on. There is no early exit, so that many are tested at a
/// time.
fn may_call_any(roles: &[Role], from: usize) -> bool
    requires { from + 35 ≤ length roles.now }
    ensures { result ≡ false → IsUncalled roles.now from (from + 32) }
{
    let mut found = false;
    for at in from..from + 32 {
        let more = may_call_within(roles, at);
        found |= more;
    }
    found
}

/// Whether it is known that no case is called at any of the 32 tokens from an index on, which are before another index.
fn is_uncalled(roles: &[Role], at: usize, end: usize) -> bool
    requires ordered { at ≤ end }
    requires within { end ≤ length roles.now }
    ensures { IsTrue result → HasPassed roles.now at end (at + 32) }
{
    if end - at <= 34 {
        return false;
    }
    !may_call_any(roles, at)
}

/// Passes over tokens at which no case is called, 32 at a time.
fn pass_many(roles: &[Role], from: usize, end: usize) -> usize
    requires ordered { from ≤ end }
    requires within { end ≤ length roles.now }
    ensures { HasPassed roles.now from end result }
{
    let mut at = from;
    while is_uncalled(roles, at, end) {
        at += 32;
    }
    at
}

/// The first of the tokens `from .. end` at which a case may be called, or `end` if a case may be called at none.
pub fn next_call(roles: &[Role], from: usize, end: usize) -> usize
    requires ordered { from ≤ end }
    requires within { end ≤ length roles.now }
    ensures { HasPassed roles.now from end result }
{
    let mut at = pass_many(roles, from, end);
    while at < end && !may_call(roles, at) {
        at += 1;
    }
    at
}
