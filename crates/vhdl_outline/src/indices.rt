//! Where a reference is, and of what kind it is.

ghost use Rattle.std.specs.Prelude.{◌≡◌, ◌+◌, ◌<◌, IsTrue, length, true};
ghost use Rattle.vhdl_spec.specs.References.{has_architecture, has_block, is_comma, is_in_name_list, is_reference, is_strict, role_before};

use crate::reference_words::{
    follows_label, is_closing, is_comma, is_dot, is_entity_word, is_for, is_name, is_opening,
    is_semicolon, is_use_word, precedes_unit, role_before,
};
use base::Role;
use vhdl_units::role_at;

/// Where a reference by name is, by the token number of its library, and whether it is strict.
#[derive(Clone, Copy)]
pub struct RefIndex {
    pub at: u32,
    pub strict: bool,
}

/// Whether a reference is at a token.
#[inline(always)]
pub fn is_reference(roles: &[Role], at: usize) -> bool
    requires { at < length roles.now }
    ensures value { result ≡ is_reference roles.now at }
    ensures within { IsTrue result → at + 2 < length roles.now }
{
    // a dot is rare, so it is looked for first
    if at + 2 < roles.len() && is_dot(roles[at + 1]) {
        is_name(roles[at]) && is_name(roles[at + 2]) && !is_dot(role_before(roles, at))
    } else {
        false
    }
}

/// Whether the reference at a token is strict; the caller knows whether the token is between a `use` or a `context` and
/// its `;`, where a comma is before it.
pub fn is_strict(roles: &[Role], at: usize, in_name_list: bool) -> bool
    requires { is_comma (role_before roles.now at) ≡ true →
        in_name_list ≡ is_in_name_list roles.now at }
    ensures { result ≡ is_strict roles.now at }
{
    let before = role_before(roles, at);
    precedes_unit(before) || (is_comma(before) && in_name_list)
}

/// Whether the reference at a token is to an entity with an architecture of it in parentheses.
pub fn has_architecture(roles: &[Role], at: usize) -> bool
    requires { at + 2 < length roles.now }
    ensures value { result ≡ has_architecture roles.now at }
    ensures within { IsTrue result → at + 5 < length roles.now }
{
    at + 5 < roles.len()
        && is_entity_word(role_before(roles, at))
        && is_opening(roles[at + 3])
        && is_name(roles[at + 4])
        && is_closing(roles[at + 5])
}

/// Whether the reference at a token is to the entity that a component configuration binds, and a block configuration of
/// an architecture of it comes next.
pub fn has_block(roles: &[Role], at: usize) -> bool
    requires { at + 2 < length roles.now }
    ensures value { result ≡ has_block roles.now at }
    ensures within { IsTrue result → at + 5 < length roles.now }
{
    at + 5 < roles.len()
        && is_use_word(role_before(roles, at.saturating_sub(1)))
        && is_entity_word(role_before(roles, at))
        && is_semicolon(roles[at + 3])
        && is_for(roles[at + 4])
        && is_name(roles[at + 5])
        && !follows_label(role_at(roles, at + 6))
}
