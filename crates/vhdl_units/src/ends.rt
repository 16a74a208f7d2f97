//! Small walks over roles.

ghost use Rattle.std.specs.Prelude.{◌≡◌, ◌≤◌, ◌<◌, ◌+◌, Bool, MatchOption, length};
ghost use Rattle.vhdl_spec.specs.Units.{role_at, beginning_at, next_begins, begins_generate};
ghost use Rattle.vhdl_units.specs.Parts.{IsSemicolonFrom, IsOwnerFrom};

use base::{Beginning, Role, UnitKind};

/// The role of a token, and past the end that of one that the grammar doesn't name.
#[inline(always)]
pub fn role_at(roles: &[Role], at: usize) -> Role
    ensures { result ≡ role_at roles.now at }
{
    if at < roles.len() {
        roles[at]
    } else {
        Role::Other
    }
}

/// What begins at a token of the file.
pub fn beginning_at(roles: &[Role], at: usize) -> Beginning
    requires { at < length roles.now }
    ensures { result ≡ beginning_at roles.now at }
{
    let second = role_at(roles, at + 1);
    let third = role_at(roles, at + 2);
    let fourth = role_at(roles, at + 3);
    match (roles[at], second, third, fourth) {
        (Role::Library | Role::Use, _, _, _) => Beginning::Item,
        (Role::Context, Role::Name, Role::Is, _) => Beginning::Plain(UnitKind::Context),
        (Role::Context, _, _, _) => Beginning::Item,
        (Role::Entity, Role::Name, Role::Is, _) => Beginning::Plain(UnitKind::Entity),
        (Role::Architecture, Role::Name, Role::Of, _) => Beginning::Owned(UnitKind::Architecture),
        (Role::Configuration, Role::Name, Role::Of, _) => Beginning::Owned(UnitKind::Configuration),
        (Role::Package, Role::Body, Role::Name, Role::Is) => Beginning::Plain(
            UnitKind::PackageBody,
        ),
        (Role::Package, Role::Name, Role::Is, Role::New) => Beginning::Plain(
            UnitKind::PackageInstance,
        ),
        (Role::Package, Role::Name, Role::Is, _) => Beginning::Plain(UnitKind::Package),
        _ => Beginning::Nothing,
    }
}

/// The first semicolon from `from` on.
pub fn first_semicolon(roles: &[Role], from: usize) -> Option<usize>
    ensures { IsSemicolonFrom roles.now from result }
{
    let mut at = from;
    while at < roles.len() {
        if roles[at] == Role::Semicolon {
            return Some(at);
        }
        at += 1;
    }
    None
}

/// How many names of an owner come before its last one, where an owner with its `is` begins at `from`.
pub fn owner_from(roles: &[Role], from: usize) -> Option<usize>
    requires { from ≤ length roles.now }
    ensures { IsOwnerFrom roles.now from result }
{
    let mut before = 0;
    let mut at = from;
    while at < roles.len() {
        if roles[at] != Role::Name {
            return None;
        }
        match role_at(roles, at + 1) {
            Role::Is => return Some(before),
            Role::Dot => {}
            _ => return None,
        }
        before += 1;
        at += 2;
    }
    None
}

/// Whether a `generate` after this token opens a region, where the token alone decides.
#[inline(always)]
fn begins_by(role: Role) -> Option<bool>
    ensures { MatchOption result
        ((begins : Bool) → next_begins begins role ≡ begins)
        (λ after. (begins : Bool) → next_begins begins role ≡ after) }
{
    match role {
        Role::If | Role::For | Role::Case => Some(true),
        Role::Elsif | Role::Else => Some(false),
        _ => None,
    }
}

/// Whether a `generate` at `to` opens a region, where it is known of one at `from`: the nearest token before it that
/// says so decides.
pub fn begins_at(roles: &[Role], from: usize, to: usize, begins: bool) -> bool
    requires ordered { from ≤ to }
    requires within { to ≤ length roles.now }
    requires begins { begins ≡ begins_generate roles.now from }
    ensures { result ≡ begins_generate roles.now to }
{
    let mut at = to;
    while at > from {
        match begins_by(roles[at - 1]) {
            Some(begins) => return begins,
            None => at -= 1,
        }
    }
    begins
}
