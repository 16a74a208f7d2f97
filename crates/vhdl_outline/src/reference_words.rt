//! What single tokens are to references.

ghost use Rattle.std.specs.Prelude.{◌≡◌};
ghost use Rattle.vhdl_spec.specs.Units.{is_opening, is_closing};
ghost use Rattle.vhdl_outline.specs.Components.{is_component_word, is_end_word};
ghost use Rattle.vhdl_spec.specs.References.{follows_label, is_all_word, is_comma, is_configuration, is_context_word, is_dot, is_entity_word, is_for, is_library_word, is_name, is_semicolon, is_use_word, precedes_unit, role_before};

use base::{Role, UnitKind};
use vhdl_units::role_at;

/// The role of the token before an index, and before the first that of a token which no rule names.
pub fn role_before(roles: &[Role], at: usize) -> Role
    ensures { result ≡ role_before roles.now at }
{
    if at == 0 {
        Role::Other
    } else {
        role_at(roles, at - 1)
    }
}

/// Whether a token is a name that isn't a reserved word.
#[inline(always)]
pub fn is_name(role: Role) -> bool
    ensures { result ≡ is_name role }
{
    match role {
        Role::Name => true,
        _ => false,
    }
}

/// Whether a token is `.`.
#[inline(always)]
pub fn is_dot(role: Role) -> bool
    ensures { result ≡ is_dot role }
{
    match role {
        Role::Dot => true,
        _ => false,
    }
}

/// Whether a token is `,`.
#[inline(always)]
pub fn is_comma(role: Role) -> bool
    ensures { result ≡ is_comma role }
{
    match role {
        Role::Comma => true,
        _ => false,
    }
}

/// Whether a token is `;`.
pub fn is_semicolon(role: Role) -> bool
    ensures { result ≡ is_semicolon role }
{
    match role {
        Role::Semicolon => true,
        _ => false,
    }
}

/// Whether the name before the token is a label in the list of the instances that are configured.
pub fn follows_label(role: Role) -> bool
    ensures { result ≡ follows_label role }
{
    match role {
        Role::Comma | Role::Colon => true,
        _ => false,
    }
}

/// Whether a unit is a configuration declaration.
pub fn is_configuration(kind: UnitKind) -> bool
    ensures { result ≡ is_configuration kind }
{
    match kind {
        UnitKind::Configuration => true,
        _ => false,
    }
}

/// Whether a token is `for`.
pub fn is_for(role: Role) -> bool
    ensures { result ≡ is_for role }
{
    match role {
        Role::For => true,
        _ => false,
    }
}

/// Whether a token is `entity`.
pub fn is_entity_word(role: Role) -> bool
    ensures { result ≡ is_entity_word role }
{
    match role {
        Role::Entity => true,
        _ => false,
    }
}

/// Whether a token is `(`.
pub fn is_opening(role: Role) -> bool
    ensures { result ≡ is_opening role }
{
    match role {
        Role::Opening => true,
        _ => false,
    }
}

/// Whether a token is `)`.
pub fn is_closing(role: Role) -> bool
    ensures { result ≡ is_closing role }
{
    match role {
        Role::Closing => true,
        _ => false,
    }
}

/// Whether a selected name after the word can't mean anything but a design unit or what it declares.
pub fn precedes_unit(role: Role) -> bool
    ensures { result ≡ precedes_unit role }
{
    match role {
        Role::Use | Role::Context | Role::Entity | Role::Configuration | Role::New => true,
        _ => false,
    }
}

/// Whether a token is `context`.
pub fn is_context_word(role: Role) -> bool
    ensures { result ≡ is_context_word role }
{
    match role {
        Role::Context => true,
        _ => false,
    }
}

/// Whether a token is `library`.
pub fn is_library_word(role: Role) -> bool
    ensures { result ≡ is_library_word role }
{
    match role {
        Role::Library => true,
        _ => false,
    }
}

/// Whether a token is `use`.
pub fn is_use_word(role: Role) -> bool
    ensures { result ≡ is_use_word role }
{
    match role {
        Role::Use => true,
        _ => false,
    }
}

/// Whether a token is `all`.
pub fn is_all_word(role: Role) -> bool
    ensures { result ≡ is_all_word role }
{
    match role {
        Role::All => true,
        _ => false,
    }
}

/// Whether a token is `component`.
#[inline(always)]
pub fn is_component_word(role: Role) -> bool
    ensures { result ≡ is_component_word role }
{
    match role {
        Role::Component => true,
        _ => false,
    }
}

/// Whether a token is `end`.
pub fn is_end_word(role: Role) -> bool
    ensures { result ≡ is_end_word role }
{
    match role {
        Role::End => true,
        _ => false,
    }
}
