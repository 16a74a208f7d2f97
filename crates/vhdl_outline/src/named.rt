//! Where the references by name, `L.U`, of some tokens are.

ghost use Rattle.std.specs.Prelude.{◌≡◌, ◌<◌, ◌≤◌, [], ◌∷◌, ◌++◌, if◌then◌else◌, length, OnOk};
ghost use Rattle.vhdl_spec.specs.References.{is_reference};
ghost use Rattle.vhdl_outline.specs.Clauses.{HasReached, IsClauseAt};
ghost use Rattle.vhdl_outline.specs.Indices.{AreRefIndices, ref_index, refs_between};

use crate::clause::{Clause, Reached, follow};
use crate::dots::next_dotted;
use crate::indices::{RefIndex, is_reference, is_strict};
use base::{NoMemory, Role, TEXT_LIMIT};

/// Adds the index of the reference at a token, where one is.
#[inline(always)]
fn push_at(
    roles: &[Role],
    at: usize,
    reached: &mut Reached,
    found: &mut Vec<RefIndex>,
) -> Result<(), NoMemory>
    requires within { at < length roles.now }
    requires small { length roles.now ≤ TEXT_LIMIT }
    requires reached { HasReached roles.now at reached.old }
    requires before { AreRefIndices roles.now found.old.items }
    ensures reached { HasReached roles.now at reached.new }
    ensures found { OnOk result (found.new.items ≡ found.old.items ++
        (if is_reference roles.now at then ref_index roles.now at ∷ [] else [])) }
    ensures after { OnOk result (AreRefIndices roles.now found.new.items) }
{
    if is_reference(roles, at) {
        follow(roles, at, reached);
        let strict = is_strict(roles, at, reached.clause.lists_names);
        found.push(RefIndex {
            at: at as u32,
            strict,
        })?;
    }
    Ok(())
}

/// Adds those from the start of a clause up to another token, in order.
pub fn push_indices(
    roles: &[Role],
    clause: Clause,
    end: usize,
    found: &mut Vec<RefIndex>,
) -> Result<(), NoMemory>
    requires ordered { clause.start ≤ end }
    requires within { end ≤ length roles.now }
    requires small { length roles.now ≤ TEXT_LIMIT }
    requires clause { IsClauseAt roles.now clause.start clause }
    requires before { AreRefIndices roles.now found.old.items }
    ensures found { OnOk result (found.new.items ≡
        found.old.items ++ refs_between roles.now clause.start end) }
    ensures after { OnOk result (AreRefIndices roles.now found.new.items) }
{
    let mut reached = Reached {
        clause,
        at: clause.start,
    };
    let mut at = next_dotted(roles, clause.start, end);
    while at < end {
        push_at(roles, at, &mut reached, found)?;
        at = next_dotted(roles, at + 1, end);
    }
    Ok(())
}
