//! The links of units to groups, and of groups to the units in them.

ghost use Rattle.std.specs.Prelude.{◌≡◌, ℕ, Bool, ◌+◌, ◌<◌, ◌≤◌, ◌∷◌, List, [], IfOk, OnOk, length, replicate};
ghost use Rattle.std.specs.List.{AllZip};
ghost use Rattle.base.specs.declared.design.Unit.{Unit};
ghost use Rattle.vhdl_spec.specs.Visibility.{ScopeUnit};
ghost use Rattle.vhdl_scope.specs.declared.want.Group.{Group};
ghost use Rattle.vhdl_scope.specs.Names.{keys_of};
ghost use Rattle.vhdl_scope.specs.Joins.{AreMembers, HasLinked, HasMember};
ghost use Rattle.vhdl_scope.specs.Owned.{IsNumbered, IsOnly, IsOwned, IsOwnedBy};
ghost use Rattle.vhdl_scope.specs.Wants.{kept_groups};

use crate::groups::{self, Groups, Owned};
use crate::links::{Link, LinkList};
use crate::names::{self, Names};
use crate::want::Want;
use crate::wants::needed_library;
use base::NoMemory;
use std::alloc::Global;

/// Adds the link for what a unit wants, where there is such a library and such a group. `row_indices` is the number of units:
/// the groups come after them.
pub fn add_link(
    alloc: Global,
    names: &Names,
    groups: &Groups,
    row_indices: usize,
    want: &Want,
    links: &mut LinkList,
) -> Result<(), NoMemory>
    requires { row_indices + length groups.now ≤ usize.MAX }
    ensures { OnOk result
        (HasLinked (keys_of names.now) groups.now row_indices (want.now ∷ []) links.old links.new) }
{
    let Some(library_number) = names::find(names, needed_library(want)) else {
        return Ok(());
    };
    let Some(group) = groups::find(groups, &want.group) else {
        return Ok(());
    };
    let source = row_indices + group;
    links.push(
        alloc,
        Link {
            library_number,
            source,
        },
    )?;
    Ok(())
}

/// Adds a link to those of the group of a number.
fn join_at(
    alloc: Global,
    number: usize,
    link: Link,
    members: &mut Vec<LinkList>,
) -> Result<(), NoMemory>
    ensures { OnOk result ((groups own : List Group) →
        length members.old.items ≡ length groups → IsOnly groups own number →
        HasMember groups own link members.old.items members.new.items) }
{
    if number >= members.len() {
        return Ok(());
    }
    members[number].push(alloc, link)?;
    Ok(())
}

/// Adds a link to those of a group, if there is one.
fn join_group(
    alloc: Global,
    number: Option<usize>,
    link: Link,
    members: &mut Vec<LinkList>,
) -> Result<(), NoMemory>
    ensures { OnOk result ((groups own : List Group) →
        length members.old.items ≡ length groups → IsNumbered groups own number →
        HasMember groups own link members.old.items members.new.items) }
{
    match number {
        None => Ok(()),
        Some(number) => join_at(alloc, number, link, members),
    }
}

/// Adds a link to those of the groups that a unit is in.
fn join_own(
    alloc: Global,
    owned: Owned,
    link: Link,
    members: &mut Vec<LinkList>,
) -> Result<(), NoMemory>
    ensures { OnOk result ((keeps : Bool) (groups : List Group) (library : List ℕ) (unit : Unit) →
        length members.old.items ≡ length groups → IsOwned keeps groups library unit owned →
        HasMember groups (kept_groups keeps library unit) link members.old.items members.new.items) }
{
    join_group(alloc, owned.primary, link, members)?;
    join_group(alloc, owned.context, link, members)?;
    join_group(alloc, owned.architecture, link, members)?;
    Ok(())
}

/// Lists of no link.
fn no_links(alloc: Global, row_indices: usize) -> Result<Vec<LinkList>, NoMemory>
    ensures { IfOk result (λ links. links.items ≡ replicate row_indices []) }
{
    let mut links: Vec<LinkList> = Vec::with_capacity(alloc, row_indices)?;
    for _ in 0..row_indices {
        links.push(LinkList::new(alloc))?;
    }
    Ok(links)
}

/// The links of all groups, each to the units in it, with a library number that is always open.
pub fn group_links(
    alloc: Global,
    groups: &Groups,
    owned: &[Owned],
    library_number: usize,
) -> Result<Vec<LinkList>, NoMemory>
    ensures { IfOk result (λ members. (keeps : Bool) (users : List ScopeUnit) →
        AllZip (IsOwnedBy keeps groups.now) owned.now users →
        AreMembers keeps groups.now users library_number members.items) }
{
    let mut members = no_links(alloc, groups.len())?;
    for at in 0..owned.len() {
        let link = Link {
            library_number,
            source: at,
        };
        join_own(alloc, owned[at], link, &mut members)?;
    }
    Ok(members)
}
