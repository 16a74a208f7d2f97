//! The indices of `use L.all` of one design unit, which names a library and no unit of it.

ghost use Rattle.std.specs.Prelude.{◌≡◌, ◌<◌, ◌≤◌, [], ◌∷◌, ◌++◌, true, if◌then◌else◌, OnOk, length};
ghost use Rattle.std.specs.List.{All};
ghost use Rattle.vhdl_spec.specs.References.{is_all_of, is_comma, is_in_use_list, is_use_of_all, is_used, indices, role_before};
ghost use Rattle.vhdl_outline.specs.Clauses.{HasReached, IsClauseAt};

use crate::clause::{Clause, Reached, follow};
use crate::dots::next_dotted;
use crate::reference_words::{is_all_word, is_comma, is_dot, is_name, is_use_word, role_before};
use base::{NoMemory, Role, TEXT_LIMIT};

/// Whether the `L` of an `L.all` is at a token.
#[inline(always)]
fn is_all_of(roles: &[Role], at: usize) -> bool
    requires { at < length roles.now }
    ensures { result ≡ is_all_of roles.now at }
{
    // a dot is rare, so it is looked for first
    if at + 2 < roles.len() && is_dot(roles[at + 1]) {
        is_name(roles[at]) && is_all_word(roles[at + 2])
    } else {
        false
    }
}

/// Whether a token comes after `use` or a comma of its list; the caller knows whether it is between a `use` and its `;`,
/// where a comma is before it.
fn is_used(roles: &[Role], at: usize, in_use_list: bool) -> bool
    requires { is_comma (role_before roles.now at) ≡ true →
        in_use_list ≡ is_in_use_list roles.now at }
    ensures { result ≡ is_used roles.now at }
{
    let before = role_before(roles, at);
    is_use_word(before) || (is_comma(before) && in_use_list)
}

/// Adds a token number where it is that of the `L` of an `L.all` that is used.
fn push_use(
    roles: &[Role],
    at: usize,
    reached: &mut Reached,
    uses: &mut Vec<u32>,
) -> Result<(), NoMemory>
    requires within { at < length roles.now }
    requires small { length roles.now ≤ TEXT_LIMIT }
    requires reached { HasReached roles.now at reached.old }
    requires before { All (λ at. at < length roles.now) uses.old.items }
    ensures reached { HasReached roles.now at reached.new }
    ensures found { OnOk result (uses.new.items ≡ uses.old.items ++
        (if is_use_of_all roles.now at then at ∷ [] else [])) }
    ensures after { OnOk result (All (λ at. at < length roles.now) uses.new.items) }
{
    if is_all_of(roles, at) {
        follow(roles, at, reached);
        if is_used(roles, at, reached.clause.has_use) {
            uses.push(at as u32)?;
        }
    }
    Ok(())
}

/// Adds those from the start of a clause up to another token, rising.
pub fn push_uses(
    roles: &[Role],
    clause: Clause,
    end: usize,
    uses: &mut Vec<u32>,
) -> Result<(), NoMemory>
    requires ordered { clause.start ≤ end }
    requires within { end ≤ length roles.now }
    requires small { length roles.now ≤ TEXT_LIMIT }
    requires clause { IsClauseAt roles.now clause.start clause }
    requires before { All (λ at. at < length roles.now) uses.old.items }
    ensures found { OnOk result (uses.new.items ≡
        uses.old.items ++ indices (is_use_of_all roles.now) clause.start end) }
    ensures after { OnOk result (All (λ at. at < length roles.now) uses.new.items) }
{
    let mut reached = Reached {
        clause,
        at: clause.start,
    };
    let mut at = next_dotted(roles, clause.start, end);
    while at < end {
        push_use(roles, at, &mut reached, uses)?;
        at = next_dotted(roles, at + 1, end);
    }
    Ok(())
}
