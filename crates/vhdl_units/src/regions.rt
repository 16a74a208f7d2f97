//! The walk through the items of a unit, with the regions that are open on the heap.

ghost use Rattle.std.specs.Prelude.{◌≡◌, ◌≤◌, ◌<◌, ◌+◌, length, IfOk};
ghost use Rattle.vhdl_spec.specs.Units.{begins_generate, role_at};
ghost use Rattle.vhdl_units.specs.Parts.{IsCloseFrom, IsEndFrom};
ghost use Rattle.vhdl_units.specs.Delimiters.{AreDelimiters};
ghost use Rattle.vhdl_units.specs.Walk.{IsStep};

use crate::class::{Class, Known, class_at};
use crate::ends::first_semicolon;
use crate::level::Counts;
use base::{NoMemory, Role};
use std::alloc::Global;

/// The regions that are open: the outer ones, and whether the innermost is that of a generate statement.
#[derive(Drop)]
struct Regions {
    frames: Vec<bool>,
    inside: bool,
}

impl Regions {
    /// Goes past a token of the class. Whether it ends the unit's own region.
    fn step(&mut self, class: Class) -> Result<bool, NoMemory>
        ensures { IfOk result (λ ended.
            IsStep class self.old.frames.items self.old.inside
            self.new.frames.items self.new.inside ended) }
    {
        match class {
            Class::Single => Ok(false),
            Class::Items => {
                self.frames.push(self.inside)?;
                self.inside = false;
                Ok(false)
            }
            Class::Region => {
                self.frames.push(self.inside)?;
                self.inside = true;
                Ok(false)
            }
            Class::Close => match self.frames.pop() {
                Some(outer) => {
                    self.inside = outer;
                    Ok(false)
                }
                None => Ok(true),
            },
        }
    }
}

/// The plain end of the unit whose items begin at `start`.
fn unit_close(
    alloc: Global,
    roles: &[Role],
    delimiters: &[u32],
    start: usize,
    begins: bool,
) -> Result<Option<usize>, NoMemory>
    requires within { start ≤ length roles.now }
    requires begins { begins ≡ begins_generate roles.now start }
    requires delimiters { AreDelimiters roles.now 0 delimiters.now }
    ensures { IfOk result (IsCloseFrom roles.now start) }
{
    let mut regions = Regions {
        frames: Vec::new(alloc),
        inside: false,
    };
    let counts = Counts {
        opened: 0,
        closed: 0,
    };
    let mut known = Known {
        counts,
        counted: start,
        begins,
        decided: start,
    };
    let mut at = start;
    while at < roles.len() {
        let inside = regions.inside;
        let class = class_at(roles, delimiters, start, at, inside, &mut known);
        if regions.step(class)? {
            return Ok(Some(at));
        }
        at += 1;
    }
    Ok(None)
}

/// The last token of the unit whose items begin at `start`.
pub fn unit_end(
    alloc: Global,
    roles: &[Role],
    delimiters: &[u32],
    start: usize,
    begins: bool,
) -> Result<Option<usize>, NoMemory>
    requires within { start ≤ length roles.now }
    requires begins { begins ≡ begins_generate roles.now start }
    requires delimiters { AreDelimiters roles.now 0 delimiters.now }
    ensures { IfOk result (IsEndFrom roles.now start) }
{
    match unit_close(alloc, roles, delimiters, start, begins)? {
        Some(close) => Ok(first_semicolon(roles, close + 1)),
        None => Ok(None),
    }
}
