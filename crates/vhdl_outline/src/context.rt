//! What the context items of one design unit name: libraries, and context declarations.

ghost use Rattle.std.specs.Prelude.{◌≡◌, ◌+◌, ◌<◌, ◌≤◌, [], ◌∷◌, ◌++◌, if◌then◌else◌, IfOk, IsTrue, OnOk, Some, length, map, slice_get};
ghost use Rattle.std.specs.Option.{option_map};
ghost use Rattle.vhdl_spec.specs.Units.{AreTokensOf, name_of, roles_of};
ghost use Rattle.vhdl_spec.specs.Scans.{IsScanOf};
ghost use Rattle.vhdl_spec.specs.References.{context_end, is_context_ref, is_in_library_clause, is_library_name, library_names, indices};
ghost use Rattle.vhdl_outline.specs.Clauses.{BeginsUnit, IsClauseAt};
ghost use Rattle.vhdl_outline.specs.Indices.{AreRefIndices, context_indices, ref_index};

use crate::clause::{Clause, clause_after};
use crate::indices::{RefIndex, is_reference, is_strict};
use crate::reference_words::{is_comma, is_context_word, is_library_word, is_name, role_before};
use crate::unit::unit_at;
use base::{
    Items, NoMemory, Role, RoleList, Scan, TEXT_LIMIT, Text, TextList, Tokens, Unit, UnitKind,
};
use std::alloc::Global;
use vhdl_units::{name_of, role_at};

/// Where the context items of a unit end.
fn context_end(unit: &Unit) -> usize
    requires { unit.now.first ≤ unit.now.last }
    ensures value { result ≡ context_end unit.now }
    ensures after { unit.now.first ≤ result }
    ensures before { result ≤ unit.now.last }
{
    match unit.kind {
        UnitKind::Context => unit.last as usize,
        _ => unit.first as usize,
    }
}

/// Whether the reference at a token, if one is there, is one to a context declaration.
fn is_context_ref(roles: &[Role], at: usize, clause: Clause) -> bool
    requires within { at < length roles.now }
    requires clause { IsClauseAt roles.now at clause }
    ensures value { result ≡ is_context_ref roles.now at }
    ensures within { IsTrue result → at + 2 < length roles.now }
{
    let before = role_before(roles, at);
    is_reference(roles, at) && (is_context_word(before) || is_comma(before)) && clause.has_context
}

/// Adds the index of the reference to a context declaration at a token, where one is.
fn push_context_index(
    roles: &[Role],
    at: usize,
    clause: Clause,
    found: &mut Vec<RefIndex>,
) -> Result<(), NoMemory>
    requires within { at < length roles.now }
    requires small { length roles.now ≤ TEXT_LIMIT }
    requires clause { IsClauseAt roles.now at clause }
    requires before { AreRefIndices roles.now found.old.items }
    ensures found { OnOk result (found.new.items ≡ found.old.items ++
        (if is_context_ref roles.now at then ref_index roles.now at ∷ [] else [])) }
    ensures after { OnOk result (AreRefIndices roles.now found.new.items) }
{
    if is_context_ref(roles, at, clause) {
        let strict = is_strict(roles, at, clause.lists_names);
        found.push(RefIndex {
            at: at as u32,
            strict,
        })?;
    }
    Ok(())
}

/// Adds those from the start of a clause up to another token, in order.
fn push_context_indices(
    roles: &[Role],
    clause: Clause,
    end: usize,
    found: &mut Vec<RefIndex>,
) -> Result<(), NoMemory>
    requires ordered { clause.start ≤ end }
    requires within { end ≤ length roles.now }
    requires small { length roles.now ≤ TEXT_LIMIT }
    requires clause { IsClauseAt roles.now clause.start clause }
    requires before { AreRefIndices roles.now found.old.items }
    ensures found { OnOk result (found.new.items ≡ found.old.items ++
        map (ref_index roles.now) (indices (is_context_ref roles.now) clause.start end)) }
    ensures after { OnOk result (AreRefIndices roles.now found.new.items) }
{
    let mut clause = clause;
    for at in clause.start..end {
        push_context_index(roles, at, clause, found)?;
        clause = clause_after(clause, roles, at);
    }
    Ok(())
}

/// Adds the indices of the references of a unit to context declarations, in order. `clause` begins with its first token.
pub fn push_contexts(
    roles: &[Role],
    unit: &Unit,
    clause: Clause,
    found: &mut Vec<RefIndex>,
) -> Result<(), NoMemory>
    requires begins { BeginsUnit roles.now unit.now clause }
    requires before { AreRefIndices roles.now found.old.items }
    ensures found { OnOk result (found.new.items ≡
        found.old.items ++ context_indices roles.now unit.now) }
    ensures after { OnOk result (AreRefIndices roles.now found.new.items) }
{
    push_context_indices(roles, clause, context_end(unit), found)
}

/// Whether a token is between `library` and its `;`, of a unit whose keyword is at `first`.
fn is_in_library_clause(roles: &[Role], first: usize, at: usize, clause: Clause) -> bool
    requires { IsClauseAt roles.now at clause }
    ensures { result ≡ is_in_library_clause roles.now first at }
{
    if at < first {
        is_library_word(role_at(roles, clause.start))
    } else {
        clause.has_library
    }
}

/// Adds the name at a token, where it is one of a library clause.
fn push_library_name(
    alloc: Global,
    text: &[u8],
    tokens: &Tokens,
    roles: &[Role],
    first: usize,
    at: usize,
    clause: Clause,
    names: &mut Vec<Text>,
) -> Result<(), NoMemory>
    requires tokens { AreTokensOf text.now tokens.now }
    requires roles { roles.now ≡ roles_of text.now tokens.now.list }
    requires within { at < length roles.now }
    requires clause { IsClauseAt roles.now at clause }
    ensures { OnOk result (names.new.items ≡ names.old.items ++
        (if is_library_name roles.now first at
        then name_of text.now tokens.now.list at ∷ [] else [])) }
{
    if is_name(role_at(roles, at)) && is_in_library_clause(roles, first, at, clause) {
        names.push(name_of(alloc, text, tokens, at)?)?;
    }
    Ok(())
}

/// Adds the names of library clauses from the start of a clause up to another token, in order.
fn push_library_names(
    alloc: Global,
    text: &[u8],
    tokens: &Tokens,
    roles: &[Role],
    first: usize,
    clause: Clause,
    end: usize,
    names: &mut Vec<Text>,
) -> Result<(), NoMemory>
    requires tokens { AreTokensOf text.now tokens.now }
    requires roles { roles.now ≡ roles_of text.now tokens.now.list }
    requires ordered { clause.start ≤ end }
    requires within { end ≤ length roles.now }
    requires clause { IsClauseAt roles.now clause.start clause }
    ensures { OnOk result (names.new.items ≡ names.old.items ++
        map (name_of text.now tokens.now.list)
        (indices (is_library_name (roles_of text.now tokens.now.list) first) clause.start end)) }
{
    let mut clause = clause;
    for at in clause.start..end {
        push_library_name(alloc, text, tokens, roles, first, at, clause, names)?;
        clause = clause_after(clause, roles, at);
    }
    Ok(())
}

/// The names of the library clauses of a unit of a scan, in order (IEEE Std 1076-2008, clause 13.2). `unit` is the unit's number.
/// The clauses are the ones before its keyword, and for a context declaration also the ones inside it. `roles` are the roles of
/// the scan's tokens.
pub fn library_names(
    alloc: Global,
    text: &[u8],
    scan: &Scan,
    roles: &RoleList,
    unit: u32,
) -> Result<TextList, NoMemory>
    requires scan { IsScanOf text.now scan.now }
    requires small { length text.now ≤ TEXT_LIMIT }
    requires roles { roles.now ≡ roles_of text.now scan.now.tokens.list }
    requires unit { unit < length scan.now.units }
    ensures { IfOk result (λ names.
        option_map (library_names text.now scan.now.tokens.list) (slice_get scan.now.units unit)
        ≡ Some names) }
{
    let roles = roles.as_slice();
    let (found, clause) = unit_at(text, scan, roles, unit);
    let first = found.first as usize;
    let end = context_end(found);
    let mut names = Vec::new(alloc);
    push_library_names(
        alloc,
        text,
        &scan.tokens,
        roles,
        first,
        clause,
        end,
        &mut names,
    )?;
    names.shrink_to_fit();
    Ok(Items::from_vec(names))
}
