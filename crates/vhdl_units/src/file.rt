//! The design units of a whole file.

ghost use Rattle.std.specs.Prelude.{◌≡◌, ◌<◌, ◌≤◌, List, length};
ghost use Rattle.base.specs.declared.lexical.Token.{Token};
ghost use Rattle.base.specs.declared.design.UnitFault.{UnitFault};
ghost use Rattle.vhdl_spec.specs.Units.{AreTokensOf, Element, HasUnitFault, IsOutline, Outlines, roles_of, units_of};
ghost use Rattle.vhdl_units.specs.Lies.{AllLieIn};
ghost use Rattle.vhdl_units.specs.Standing.{IsStanding, IsAdded, GivesUnits, GivesUnitFault};

use crate::delimiters::delimiters_of;
use crate::ends::begins_at;
use crate::stands::{Standing, stands_at};
use crate::texts::{owned_unit, plain_unit};
use base::{Items, OrMemory, Role, RoleList, TEXT_LIMIT, Token, Tokens, Unit, UnitFault, UnitList};
use std::alloc::Global;

/// Where an element ends, and where the context items of the next unit begin.
#[derive(Clone, Copy)]
pub struct Next {
    pub last: usize,
    pub lead: usize,
}

/// The design units of a text of at most 4,194,304 bytes, or the first fault of the unit grammar (IEEE Std 1076-2008, clause
/// 13.1). `tokens` and `roles` are the text's tokens and their roles. The time is in proportion to the number of tokens.
pub fn outline(
    alloc: Global,
    text: &[u8],
    tokens: &Tokens,
    roles: &RoleList,
) -> Result<UnitList, OrMemory<UnitFault>>
    requires tokens { AreTokensOf text.now tokens.now }
    requires small { length text.now ≤ TEXT_LIMIT }
    requires roles { roles.now ≡ roles_of text.now tokens.now.list }
    // Units are those of the file, and a fault is one that it has.
    ensures right { Outlines text.now tokens.now.list result }
    // Where there is an outline its units are given, unless memory runs out.
    ensures outline { (elements : List Element) →
        IsOutline (roles_of text.now tokens.now.list) elements →
        GivesUnits (units_of text.now tokens.now.list elements) result }
    // Where there is a fault it is given, unless memory runs out.
    ensures fault { (fault : UnitFault) →
        HasUnitFault text.now tokens.now.list fault → GivesUnitFault fault result }
{
    read(alloc, text, tokens.list.as_slice(), roles.as_slice())
}

/// Adds the unit that begins at a token, if one does.
fn add_unit(
    alloc: Global,
    text: &[u8],
    tokens: &[Token],
    units: &mut Vec<Unit>,
    lead: usize,
    at: usize,
    standing: Standing,
) -> Result<Next, OrMemory<UnitFault>>
    requires lie { AllLieIn text.now tokens.now }
    requires small { length tokens.now ≤ TEXT_LIMIT }
    requires within { at < length tokens.now }
    requires lead { lead ≤ at }
    requires standing { IsStanding (roles_of text.now tokens.now) at standing }
    ensures { IsAdded text.now tokens.now lead at units.old.items units.new.items result }
{
    match standing {
        Standing::Item(last) => Ok(Next { last, lead }),
        Standing::Plain(kind, last) => {
            let unit = plain_unit(alloc, text, tokens, lead, at, kind, last)?;
            units.push(unit)?;
            Ok(Next {
                last,
                lead: last + 1,
            })
        }
        Standing::Owned(kind, before, last) => {
            let unit = owned_unit(alloc, text, tokens, lead, at, kind, before, last)?;
            units.push(unit)?;
            Ok(Next {
                last,
                lead: last + 1,
            })
        }
        Standing::NoUnit => Err(OrMemory::Fault(UnitFault::NotUnit {
            at: tokens[at].start,
        })),
        Standing::Unended => Err(OrMemory::Fault(UnitFault::NotEnded {
            at: tokens[at].start,
        })),
    }
}

/// The units of a file, by the roles of its tokens, or its first fault.
fn read(
    alloc: Global,
    text: &[u8],
    tokens: &[Token],
    roles: &[Role],
) -> Result<UnitList, OrMemory<UnitFault>>
    requires lie { AllLieIn text.now tokens.now }
    requires small { length tokens.now ≤ TEXT_LIMIT }
    requires roles { roles.now ≡ roles_of text.now tokens.now }
    ensures { Outlines text.now tokens.now result }
{
    let next_delimiters = delimiters_of(alloc, roles)?;
    let delimiters = next_delimiters.as_slice();
    let mut units = Vec::new(alloc);
    let mut begins = false;
    let mut lead = 0;
    let mut at = 0;
    while at < roles.len() {
        let standing = stands_at(alloc, roles, delimiters, at, begins)?;
        let next = add_unit(alloc, text, tokens, &mut units, lead, at, standing)?;
        begins = begins_at(roles, at, next.last + 1, begins);
        lead = next.lead;
        at = next.last + 1;
    }
    units.shrink_to_fit();
    Ok(Items::from_vec(units))
}
