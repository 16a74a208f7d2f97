//! What a token within a unit does.

ghost use Rattle.std.specs.Prelude.{◌≡◌, ◌≤◌, ◌<◌, ◌+◌, ◌↔◌, Bool, IsTrue, length};
ghost use Rattle.vhdl_spec.specs.Units.{IsNotAfter, MayOpen, BeginsPackage, HasBody, IsPackageOpener, IsSubprogramOpener, IsGenerateOpener, Closes, IsLevel, begins_generate, ends_inner, role_at};
ghost use Rattle.vhdl_units.specs.Walk.{AreCounts, IsKnown};
ghost use Rattle.vhdl_units.specs.Delimiters.{AreDelimiters, IsSubprogramWord};
ghost use Rattle.vhdl_units.specs.Parts.{IsClass, IsNextDelimiter};

use crate::ends::{begins_at, role_at};
use crate::level::{Counts, counts_at};
use base::Role;

/// The class of a token within a unit.
#[derive(Clone, Copy)]
pub enum Class {
    /// It opens nothing and ends no region.
    Single,
    /// It opens the items of a package or of a subprogram.
    Items,
    /// It opens the region of a generate statement.
    Region,
    /// It ends the innermost region.
    Close,
}

/// Whether a token is of this role.
#[inline(always)]
fn is_role(roles: &[Role], at: usize, role: Role) -> bool
    ensures { IsTrue result ↔ (role_at roles.now at ≡ role) }
{
    role_at(roles, at) == role
}

/// Whether the token before isn't of this role.
#[inline(always)]
fn is_not_after(role: Role, roles: &[Role], at: usize) -> bool
    requires { at ≤ length roles.now }
    ensures { IsTrue result ↔ IsNotAfter role roles.now at }
{
    at == 0 || roles[at - 1] != role
}

/// Whether an item can begin here.
fn may_open(roles: &[Role], start: usize, at: usize, counts: Counts) -> bool
    requires within { at ≤ length roles.now }
    requires counts { AreCounts roles.now start at counts }
    ensures { IsTrue result ↔ MayOpen roles.now start at }
{
    counts.opened == counts.closed
        && is_not_after(Role::End, roles, at)
        && is_not_after(Role::Colon, roles, at)
}

/// Whether a package that isn't an instance begins after its word.
fn begins_package(roles: &[Role], at: usize) -> bool
    requires { at < length roles.now }
    ensures { IsTrue result ↔ BeginsPackage roles.now at }
{
    let next = role_at(roles, at + 1);
    next == Role::Body
        || next == Role::Name
            && role_at(roles, at + 2) == Role::Is
            && role_at(roles, at + 3) != Role::New
}

/// Whether a token opens the items of a package.
fn opens_package(roles: &[Role], start: usize, at: usize, counts: Counts) -> bool
    requires within { at < length roles.now }
    requires counts { AreCounts roles.now start at counts }
    requires word { role_at roles.now at ≡ Role.Package }
    ensures { IsTrue result ↔ IsPackageOpener roles.now start at }
{
    may_open(roles, start, at, counts) && begins_package(roles, at)
}

/// Whether a subprogram's word begins a body; `delimiter` is the first `is` or `;` at level after it.
fn has_body(roles: &[Role], start: usize, at: usize, delimiter: usize) -> bool
    requires within { at < length roles.now }
    requires delimiter { IsNextDelimiter roles.now start (at + 1) delimiter }
    ensures { IsTrue result ↔ HasBody roles.now start at }
{
    is_role(roles, delimiter, Role::Is) && !is_role(roles, delimiter + 1, Role::New)
}

/// Whether a token opens the items of a subprogram.
fn opens_subprogram(
    roles: &[Role],
    delimiters: &[u32],
    start: usize,
    at: usize,
    counts: Counts,
) -> bool
    requires within { at < length roles.now }
    requires counts { AreCounts roles.now start at counts }
    requires delimiters { AreDelimiters roles.now 0 delimiters.now }
    requires word { IsSubprogramWord (role_at roles.now at) }
    ensures { IsTrue result ↔ IsSubprogramOpener roles.now start at }
{
    may_open(roles, start, at, counts) && has_body(roles, start, at, delimiters[at] as usize)
}

/// Whether a `generate` opens a region.
fn opens_region(roles: &[Role], at: usize, begins: bool) -> bool
    requires within { at < length roles.now }
    requires begins { begins ≡ begins_generate roles.now at }
    requires word { role_at roles.now at ≡ Role.Generate }
    ensures { IsTrue result ↔ IsGenerateOpener roles.now at }
{
    begins && is_not_after(Role::End, roles, at)
}

/// Whether the role after an `end` says that something within a unit ends.
fn ends_inner(role: Role) -> bool
    ensures { result ≡ ends_inner role }
{
    match role {
        Role::If | Role::Case | Role::For | Role::Component | Role::Inner | Role::Generate => true,
        _ => false,
    }
}

/// Whether an `end` ends the region.
fn closes(roles: &[Role], inside: bool, at: usize) -> bool
    requires within { at < length roles.now }
    requires word { role_at roles.now at ≡ Role.End }
    ensures { IsTrue result ↔ Closes roles.now inside at }
{
    let next = role_at(roles, at + 1);
    if inside {
        next == Role::Generate
    } else {
        !ends_inner(next)
    }
}

/// What a walk through a unit knows by the tokens up to one: the parentheses before the token `counted`, and whether a
/// `generate` at the token `decided` opens a region. Only words that ask for it bring it on.
#[derive(Clone, Copy)]
pub struct Known {
    pub counts: Counts,
    pub counted: usize,
    pub begins: bool,
    pub decided: usize,
}

/// The class of the word `package`.
fn class_of_package(roles: &[Role], start: usize, at: usize, known: &mut Known) -> Class
    requires within { at < length roles.now }
    requires known { IsKnown roles.now start at known.old }
    requires word { role_at roles.now at ≡ Role.Package }
    ensures known { IsKnown roles.now start at known.new }
    ensures class { (inside : Bool) → IsClass roles.now start inside at result }
{
    let counts = counts_at(known.counts, roles, start, known.counted, at);
    known.counts = counts;
    known.counted = at;
    if opens_package(roles, start, at, counts) {
        Class::Items
    } else {
        Class::Single
    }
}

/// The class of the word of a subprogram.
fn class_of_subprogram(
    roles: &[Role],
    delimiters: &[u32],
    start: usize,
    at: usize,
    known: &mut Known,
) -> Class
    requires within { at < length roles.now }
    requires known { IsKnown roles.now start at known.old }
    requires delimiters { AreDelimiters roles.now 0 delimiters.now }
    requires word { IsSubprogramWord (role_at roles.now at) }
    ensures known { IsKnown roles.now start at known.new }
    ensures class { (inside : Bool) → IsClass roles.now start inside at result }
{
    let counts = counts_at(known.counts, roles, start, known.counted, at);
    known.counts = counts;
    known.counted = at;
    if opens_subprogram(roles, delimiters, start, at, counts) {
        Class::Items
    } else {
        Class::Single
    }
}

/// The class of the word `generate`.
fn class_of_generate(roles: &[Role], start: usize, at: usize, known: &mut Known) -> Class
    requires within { at < length roles.now }
    requires known { IsKnown roles.now start at known.old }
    requires word { role_at roles.now at ≡ Role.Generate }
    ensures known { IsKnown roles.now start at known.new }
    ensures class { (inside : Bool) → IsClass roles.now start inside at result }
{
    let begins = begins_at(roles, known.decided, at, known.begins);
    known.begins = begins;
    known.decided = at;
    if opens_region(roles, at, begins) {
        Class::Region
    } else {
        Class::Single
    }
}

/// The class of a token whose word may open or end something.
#[inline(never)]
fn class_of_word(
    roles: &[Role],
    delimiters: &[u32],
    start: usize,
    at: usize,
    inside: bool,
    known: &mut Known,
) -> Class
    requires within { at < length roles.now }
    requires known { IsKnown roles.now start at known.old }
    requires delimiters { AreDelimiters roles.now 0 delimiters.now }
    ensures known { IsKnown roles.now start at known.new }
    ensures class { IsClass roles.now start inside at result }
{
    match roles[at] {
        Role::Package => class_of_package(roles, start, at, known),
        Role::Function | Role::Procedure => class_of_subprogram(
            roles, delimiters, start, at, known,
        ),
        Role::Generate => class_of_generate(roles, start, at, known),
        Role::End if closes(roles, inside, at) => Class::Close,
        _ => Class::Single,
    }
}

/// The class of the token at `at`, within a unit whose items begin at `start`. Few words open or end anything, so the
/// others are passed over by one test.
#[inline(always)]
pub fn class_at(
    roles: &[Role],
    delimiters: &[u32],
    start: usize,
    at: usize,
    inside: bool,
    known: &mut Known,
) -> Class
    requires within { at < length roles.now }
    requires known { IsKnown roles.now start at known.old }
    requires delimiters { AreDelimiters roles.now 0 delimiters.now }
    ensures known { IsKnown roles.now start at known.new }
    ensures class { IsClass roles.now start inside at result }
{
    match roles[at] {
        Role::Package | Role::Function | Role::Procedure | Role::Generate | Role::End =>
            class_of_word(roles, delimiters, start, at, inside, known),
        _ => Class::Single,
    }
}
