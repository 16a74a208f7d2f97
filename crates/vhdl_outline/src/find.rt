//! The references of one design unit.

ghost use Rattle.std.specs.Prelude.{◌≡◌, ◌<◌, ◌≤◌, ◌++◌, IfOk, OnOk, Some, length, slice_get};
ghost use Rattle.std.specs.Option.{option_map};
ghost use Rattle.vhdl_spec.specs.Units.{AreTokensOf, roles_of};
ghost use Rattle.vhdl_spec.specs.Scans.{IsScanOf};
ghost use Rattle.vhdl_spec.specs.References.{refs_of, structural_by};

use crate::named::push_indices;
use crate::refs::{no_ref, push_refs};
use crate::structural::{configured_by, structural_ref};
use crate::unit::unit_at;
use base::{Items, NoMemory, Ref, RefList, Role, RoleList, Scan, TEXT_LIMIT, Tokens, Unit};
use std::alloc::Global;

/// Adds the structural reference of a unit, if it has one.
fn push_structural(
    alloc: Global,
    text: &[u8],
    tokens: &Tokens,
    roles: &[Role],
    unit: &Unit,
    refs: &mut Vec<Ref>,
) -> Result<(), NoMemory>
    requires tokens { AreTokensOf text.now tokens.now }
    requires roles { roles.now ≡ roles_of text.now tokens.now.list }
    requires ordered { unit.now.first ≤ unit.now.last }
    requires within { unit.now.last < length roles.now }
    ensures { OnOk result (refs.new.items ≡
        refs.old.items ++ structural_by text.now tokens.now.list unit.now unit.now.kind) }
{
    let configured = configured_by(alloc, text, tokens, roles, unit)?;
    let (is_there, found) = structural_ref(alloc, unit, &configured, no_ref(alloc))?;
    if is_there {
        refs.push(found)?;
    }
    Ok(())
}

/// The references of a unit of a scan: first the structural one, and then the references by name, in order (IEEE Std 1076-2008,
/// clauses 3.3, 3.4, 4.8 and 13). `unit` is the unit's number. The time is in proportion to the number of the unit's tokens.
/// `roles` are the roles of the scan's tokens, made once for a file.
pub fn find_refs(
    alloc: Global,
    text: &[u8],
    scan: &Scan,
    roles: &RoleList,
    unit: u32,
) -> Result<RefList, NoMemory>
    requires scan { IsScanOf text.now scan.now }
    requires small { length text.now ≤ TEXT_LIMIT }
    requires roles { roles.now ≡ roles_of text.now scan.now.tokens.list }
    requires unit { unit < length scan.now.units }
    ensures { IfOk result (λ refs.
        option_map (refs_of text.now scan.now.tokens.list) (slice_get scan.now.units unit)
        ≡ Some refs) }
{
    let roles = roles.as_slice();
    let (found, clause) = unit_at(text, scan, roles, unit);
    let mut indices = Vec::new(alloc);
    push_indices(roles, clause, found.last as usize, &mut indices)?;
    let mut refs = Vec::new(alloc);
    push_structural(alloc, text, &scan.tokens, roles, found, &mut refs)?;
    push_refs(
        alloc,
        text,
        &scan.tokens,
        roles,
        found.kind,
        indices.as_slice(),
        &mut refs,
    )?;
    Ok(Items::from_vec(refs))
}
