//! The clause of a token, as a walk over the tokens knows it.

ghost use Rattle.std.specs.Prelude.{◌≡◌, ◌+◌, ◌<◌, ◌≤◌, false, length, true};
ghost use Rattle.vhdl_spec.specs.References.{is_comma, is_in_name_list, is_in_use_list, role_before};
ghost use Rattle.vhdl_outline.specs.Clauses.{HasReached, IsClauseAt};

use crate::reference_words::{is_comma, role_before};
use base::Role;
use vhdl_units::role_at;

/// What the tokens of a clause so far are: those since the last `;`.
#[derive(Clone, Copy)]
pub struct Clause {
    /// A `use` or a `context` is among them.
    pub lists_names: bool,
    /// A `use` is among them.
    pub has_use: bool,
    /// A `context` is among them, and no `is` after it.
    pub has_context: bool,
    /// A `library` is among them.
    pub has_library: bool,
    /// The first of them.
    pub start: usize,
}

/// A clause that begins at a token.
pub fn clause_from(start: usize) -> Clause
    ensures { result ≡
        record { lists_names = false; has_use = false; has_context = false; has_library = false; start = start } }
{
    Clause {
        lists_names: false,
        has_use: false,
        has_context: false,
        has_library: false,
        start,
    }
}

/// The clause of the next token.
#[inline(always)]
pub fn clause_after(clause: Clause, roles: &[Role], at: usize) -> Clause
    requires clause { IsClauseAt roles.now at clause }
    requires within { at < length roles.now }
    ensures { IsClauseAt roles.now (at + 1) result }
{
    let mut next = clause;
    match role_at(roles, at) {
        Role::Semicolon => next = clause_from(at + 1),
        Role::Is => next.has_context = false,
        Role::Library => next.has_library = true,
        Role::Use => {
            next.lists_names = true;
            next.has_use = true;
        }
        Role::Context => {
            next.lists_names = true;
            next.has_context = true;
        }
        _ => {}
    }
    next
}

/// The clause of a token, from that of an earlier one.
pub fn clause_at(clause: Clause, roles: &[Role], from: usize, to: usize) -> Clause
    requires clause { IsClauseAt roles.now from clause }
    requires ordered { from ≤ to }
    requires within { to ≤ length roles.now }
    ensures { IsClauseAt roles.now to result }
{
    let mut clause = clause;
    for at in from..to {
        clause = clause_after(clause, roles, at);
    }
    clause
}

/// The clause of a token, and the token: how far a walk has followed clauses.
#[derive(Clone, Copy)]
pub struct Reached {
    pub clause: Clause,
    pub at: usize,
}

/// Follows clauses up to a token that a comma is before, and to no other: only there it matters what began the clause.
pub fn follow(roles: &[Role], at: usize, reached: &mut Reached)
    requires within { at ≤ length roles.now }
    requires reached { HasReached roles.now at reached.old }
    ensures reached { HasReached roles.now at reached.new }
    ensures listed { is_comma (role_before roles.now at) ≡ true →
        reached.new.clause.lists_names ≡ is_in_name_list roles.now at }
    ensures used { is_comma (role_before roles.now at) ≡ true →
        reached.new.clause.has_use ≡ is_in_use_list roles.now at }
{
    if is_comma(role_before(roles, at)) {
        let clause = clause_at(reached.clause, roles, reached.at, at);
        *reached = Reached { clause, at };
    }
}
