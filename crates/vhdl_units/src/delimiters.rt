//! For each `function` or `procedure` of a file, the next `is` or `;` of its own depth of parentheses.

ghost use Rattle.std.specs.Prelude.{◌≡◌, ◌≤◌, ◌+◌, IfOk, count_by, length};
ghost use Rattle.vhdl_spec.specs.Units.{is_opening};
ghost use Rattle.std.specs.List.{list_any};
ghost use Rattle.vhdl_units.specs.Delimiters.{AreDelimiters, AreNearest, is_subprogram_word};

use crate::ends::role_at;
use base::{NoMemory, Role, TEXT_LIMIT};
use std::alloc::Global;

/// The number of opening parentheses.
fn openings(roles: &[Role]) -> usize
    ensures { result ≡ count_by is_opening roles.now }
{
    let mut count = 0;
    for role in roles {
        if *role == Role::Opening {
            count += 1;
        }
    }
    count
}

/// Goes from the right over the file, with the nearest delimiter of each level so far.
fn fill(roles: &[Role], nearest: &mut [u32], delimiters: &mut [u32])
    requires small { length roles.now ≤ TEXT_LIMIT }
    requires nearest { AreNearest roles.now (length roles.now) nearest.old }
    requires entries { length delimiters.old ≡ length roles.now }
    ensures { AreDelimiters roles.now 0 delimiters.new }
{
    let mut level = openings(roles);
    let mut at = roles.len();
    while at > 0 {
        at -= 1;
        match role_at(roles, at) {
            Role::Opening => level -= 1,
            Role::Closing => level += 1,
            Role::Is | Role::Semicolon => nearest[level] = at as u32,
            Role::Function | Role::Procedure => delimiters[at] = nearest[level],
            _ => {}
        }
    }
}

/// Whether a token is `function` or `procedure`.
#[inline(always)]
fn is_subprogram_word(role: Role) -> bool
    ensures { result ≡ is_subprogram_word role }
{
    match role {
        Role::Function | Role::Procedure => true,
        _ => false,
    }
}

/// Whether a subprogram's word occurs. There is no early exit, so that the loop tests many roles at a time.
fn has_subprogram(roles: &[Role]) -> bool
    ensures { result ≡ list_any is_subprogram_word roles.now }
{
    let mut found = false;
    for role in roles {
        found |= is_subprogram_word(*role);
    }
    found
}

/// For each `function` or `procedure`, the next `is` or `;` of its own depth of parentheses, or the number of tokens if neither
/// follows. Other tokens may have any number. The time is in proportion to the number of tokens, however deep the parentheses go.
pub fn delimiters_of(alloc: Global, roles: &[Role]) -> Result<Vec<u32>, NoMemory>
    requires { length roles.now ≤ TEXT_LIMIT }
    ensures { IfOk result (λ delimiters. AreDelimiters roles.now 0 delimiters.items) }
{
    let mut delimiters = vec![in alloc; 0; roles.len()]?;
    if !has_subprogram(roles) {
        return Ok(delimiters);
    }
    let mut nearest = vec![in alloc; roles.len() as u32; roles.len() + 1]?;
    fill(roles, &mut nearest, &mut delimiters);
    Ok(delimiters)
}
