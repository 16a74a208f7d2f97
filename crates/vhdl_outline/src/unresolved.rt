//! The unresolved references of a design unit, which are looked up once all units of a project are known. They are copies of the
//! tokens that are names, so that the other tokens needn't be kept.

ghost use Rattle.std.specs.Prelude.{◌≡◌, ◌+◌, ◌<◌, ◌≤◌, IfOk, Some, length, map, slice_get};
ghost use Rattle.std.specs.List.{All};
ghost use Rattle.base.specs.declared.design.Unit.{Unit as DesignUnit};
ghost use Rattle.vhdl_spec.specs.Units.{AreTokensOf, name_of, roles_of};
ghost use Rattle.vhdl_spec.specs.Scans.{IsScanOf};
ghost use Rattle.vhdl_spec.specs.References.{architecture_at, context_refs, named_refs, ref_at, uses_of_all};
ghost use Rattle.vhdl_lex.specs.LexicalElements.{LiesIn};
ghost use Rattle.vhdl_units.specs.Names.{token_name};
ghost use Rattle.vhdl_outline.specs.Clauses.{BeginsUnit};
ghost use Rattle.vhdl_outline.specs.Components.{component_names};
ghost use Rattle.vhdl_outline.specs.UnresolvedRefs.{AreUnresolvedRefsOf, UnresolvedRefsLieIn, NamedLiesIn, SomeLiesIn, named_architecture, named_ref};
ghost use Rattle.vhdl_outline.specs.Indices.{AreRefIndices, IsRefIndex};

use crate::clause::Clause;
use crate::components::push_components;
use crate::context::push_contexts;
use crate::indices::{RefIndex, has_architecture, has_block};
use crate::named::push_indices;
use crate::reference_words::is_configuration;
use crate::structural::configured_by;
use crate::unit::unit_at;
use crate::uses::push_uses;
use base::{
    Items, MaybeText, NoMemory, Role, RoleList, Scan, TEXT_LIMIT, Token, TokenList, Tokens, Unit,
    UnitKind,
};
use std::alloc::Global;
use vhdl_units::token_of;

/// A reference by name, `L.U` (IEEE Std 1076-2008, clause 13.2): the tokens that are its names, with that of the
/// architecture that is given with an entity. `at` is the token number of `L`.
#[derive(Clone, Copy)]
pub struct NamedRef {
    pub library: Token,
    pub name: Token,
    pub architecture: Option<Token>,
    pub strict: bool,
    pub at: u32,
}

/// The unresolved references of a design unit:
/// - `contexts`: the context declarations that it refers to.
/// - `configured`: the name of the architecture that it configures.
/// - `refs`: its references by name.
/// - `whole`: the libraries that it uses whole, as in `use L.all`.
/// - `components`: the names of the components that it declares, or instantiates with the word `component`.
#[derive(Drop)]
pub struct UnresolvedRefs {
    pub contexts: Items<NamedRef>,
    pub configured: MaybeText,
    pub refs: Items<NamedRef>,
    pub whole: TokenList,
    pub components: TokenList,
}

/// The token of the architecture that is given with the entity at a token, if it is one, in a unit of a kind.
fn architecture_at(
    text: &[u8],
    tokens: &Tokens,
    roles: &[Role],
    kind: UnitKind,
    at: usize,
) -> Option<Token>
    requires tokens { AreTokensOf text.now tokens.now }
    requires roles { roles.now ≡ roles_of text.now tokens.now.list }
    requires within { at + 2 < length roles.now }
    ensures is { named_architecture text.now result ≡
        architecture_at text.now tokens.now.list kind at }
    ensures lies { SomeLiesIn text.now result }
{
    if has_architecture(roles, at) {
        Some(token_of(text, tokens, at + 4))
    } else if is_configuration(kind) && has_block(roles, at) {
        Some(token_of(text, tokens, at + 5))
    } else {
        None
    }
}

/// The reference by name at an index, in a unit of a kind.
pub fn named_at(
    text: &[u8],
    tokens: &Tokens,
    roles: &[Role],
    kind: UnitKind,
    token_index: RefIndex,
) -> NamedRef
    requires tokens { AreTokensOf text.now tokens.now }
    requires roles { roles.now ≡ roles_of text.now tokens.now.list }
    requires token_index { IsRefIndex roles.now token_index }
    ensures is { named_ref text.now result ≡ ref_at text.now tokens.now.list kind token_index.at }
    ensures lies { NamedLiesIn text.now result }
{
    let at = token_index.at as usize;
    NamedRef {
        library: token_of(text, tokens, at),
        name: token_of(text, tokens, at + 2),
        architecture: architecture_at(text, tokens, roles, kind, at),
        strict: token_index.strict,
        at: token_index.at,
    }
}

/// The references by name at indices, in order, in a unit of a kind.
fn named_all(
    alloc: Global,
    text: &[u8],
    tokens: &Tokens,
    roles: &[Role],
    kind: UnitKind,
    indices: &[RefIndex],
) -> Result<Items<NamedRef>, NoMemory>
    requires tokens { AreTokensOf text.now tokens.now }
    requires roles { roles.now ≡ roles_of text.now tokens.now.list }
    requires indices { AreRefIndices roles.now indices.now }
    ensures are { IfOk result (λ found. map (named_ref text.now) found
        ≡ map (λ token_index. ref_at text.now tokens.now.list kind token_index.at) indices.now) }
    ensures lie { IfOk result (All (NamedLiesIn text.now)) }
{
    let mut found = Vec::with_capacity(alloc, indices.len())?;
    for token_index in indices {
        found.push(named_at(text, tokens, roles, kind, *token_index))?;
    }
    Ok(Items::from_vec(found))
}

/// The references of a unit to context declarations, in order. What is in `room` is lost.
fn contexts_of(
    alloc: Global,
    text: &[u8],
    tokens: &Tokens,
    roles: &[Role],
    unit: &Unit,
    clause: Clause,
    room: &mut Vec<RefIndex>,
) -> Result<Items<NamedRef>, NoMemory>
    requires tokens { AreTokensOf text.now tokens.now }
    requires roles { roles.now ≡ roles_of text.now tokens.now.list }
    requires begins { BeginsUnit roles.now unit.now clause }
    ensures are { IfOk result (λ found.
        map (named_ref text.now) found ≡ context_refs text.now tokens.now.list unit.now) }
    ensures lie { IfOk result (All (NamedLiesIn text.now)) }
{
    room.clear();
    push_contexts(roles, unit, clause, room)?;
    named_all(alloc, text, tokens, roles, unit.kind, room.as_slice())
}

/// The references of a unit by name, in order. What is in `room` is lost.
fn refs_of(
    alloc: Global,
    text: &[u8],
    tokens: &Tokens,
    roles: &[Role],
    unit: &Unit,
    clause: Clause,
    room: &mut Vec<RefIndex>,
) -> Result<Items<NamedRef>, NoMemory>
    requires tokens { AreTokensOf text.now tokens.now }
    requires roles { roles.now ≡ roles_of text.now tokens.now.list }
    requires begins { BeginsUnit roles.now unit.now clause }
    ensures are { IfOk result (λ found. map (named_ref text.now) found
        ≡ named_refs text.now tokens.now.list unit.now) }
    ensures lie { IfOk result (All (NamedLiesIn text.now)) }
{
    room.clear();
    push_indices(roles, clause, unit.last as usize, room)?;
    named_all(alloc, text, tokens, roles, unit.kind, room.as_slice())
}

/// Tokens by their numbers.
fn tokens_at(
    alloc: Global,
    text: &[u8],
    tokens: &Tokens,
    indices: &[u32],
) -> Result<TokenList, NoMemory>
    requires tokens { AreTokensOf text.now tokens.now }
    requires within { All (λ at. at < length tokens.now.list) indices.now }
    ensures are { IfOk result (λ found. map (token_name text.now) found
        ≡ map (name_of text.now tokens.now.list) indices.now) }
    ensures lie { IfOk result (All (LiesIn text.now)) }
{
    let mut found = Vec::with_capacity(alloc, indices.len())?;
    for at in indices {
        found.push(token_of(text, tokens, *at as usize))?;
    }
    Ok(Items::from_vec(found))
}

/// The libraries that a unit uses whole, in order.
fn whole_of(
    alloc: Global,
    text: &[u8],
    tokens: &Tokens,
    roles: &[Role],
    unit: &Unit,
    clause: Clause,
) -> Result<TokenList, NoMemory>
    requires tokens { AreTokensOf text.now tokens.now }
    requires roles { roles.now ≡ roles_of text.now tokens.now.list }
    requires begins { BeginsUnit roles.now unit.now clause }
    ensures are { IfOk result (λ found. map (token_name text.now) found
        ≡ map (name_of text.now tokens.now.list)
        (uses_of_all (roles_of text.now tokens.now.list) unit.now)) }
    ensures lie { IfOk result (All (LiesIn text.now)) }
{
    let mut indices = Vec::new(alloc);
    push_uses(roles, clause, unit.last as usize, &mut indices)?;
    tokens_at(alloc, text, tokens, indices.as_slice())
}

/// The names of the components of a unit, in order.
fn components_of(
    alloc: Global,
    text: &[u8],
    tokens: &Tokens,
    roles: &[Role],
    unit: &Unit,
) -> Result<TokenList, NoMemory>
    requires tokens { AreTokensOf text.now tokens.now }
    requires roles { roles.now ≡ roles_of text.now tokens.now.list }
    requires ordered { unit.now.lead ≤ unit.now.last }
    requires within { unit.now.last < length roles.now }
    requires small { length roles.now ≤ TEXT_LIMIT }
    ensures are { IfOk result (λ found.
        map (token_name text.now) found ≡ component_names text.now tokens.now.list unit.now) }
    ensures lie { IfOk result (All (LiesIn text.now)) }
{
    let mut indices = Vec::new(alloc);
    push_components(roles, unit.lead as usize, unit.last as usize, &mut indices)?;
    tokens_at(alloc, text, tokens, indices.as_slice())
}

/// The unresolved references of the unit of a number in a scan. `roles` are the roles of the scan's tokens. The content of `room`
/// is lost.
pub fn unresolved_refs(
    alloc: Global,
    text: &[u8],
    scan: &Scan,
    roles: &RoleList,
    unit: u32,
    room: &mut Vec<RefIndex>,
) -> Result<UnresolvedRefs, NoMemory>
    requires scan { IsScanOf text.now scan.now }
    requires small { length text.now ≤ TEXT_LIMIT }
    requires roles { roles.now ≡ roles_of text.now scan.now.tokens.list }
    requires unit { unit < length scan.now.units }
    ensures are { IfOk result (λ unresolved. (design : DesignUnit) →
        slice_get scan.now.units unit ≡ Some design →
        AreUnresolvedRefsOf text.now scan.now.tokens.list design unresolved) }
    ensures lie { IfOk result (UnresolvedRefsLieIn text.now) }
{
    let roles = roles.as_slice();
    let (found, clause) = unit_at(text, scan, roles, unit);
    let tokens = &scan.tokens;
    Ok(UnresolvedRefs {
        contexts: contexts_of(alloc, text, tokens, roles, found, clause, room)?,
        configured: configured_by(alloc, text, tokens, roles, found)?,
        refs: refs_of(alloc, text, tokens, roles, found, clause, room)?,
        whole: whole_of(alloc, text, tokens, roles, found, clause)?,
        components: components_of(alloc, text, tokens, roles, found)?,
    })
}
