//! Where a design unit of a scan is among its tokens.

ghost use Rattle.std.specs.Prelude.{◌≡◌, ◌<◌, ◌≤◌, Some, length, slice_get};
ghost use Rattle.vhdl_spec.specs.Units.{roles_of};
ghost use Rattle.vhdl_spec.specs.Scans.{IsScanOf};
ghost use Rattle.vhdl_outline.specs.Clauses.{IsClauseAt};

use crate::clause::{Clause, clause_from};
use base::{Role, Scan, TEXT_LIMIT, Unit};

/// The unit of a number in the scan of a text, and the clause that begins with its first token.
pub fn unit_at<'a>(_text: &[u8], scan: &'a Scan, roles: &[Role], number: u32) -> (&'a Unit, Clause)
    requires scan { IsScanOf _text.now scan.now }
    requires small { length _text.now ≤ TEXT_LIMIT }
    requires roles { roles.now ≡ roles_of _text.now scan.now.tokens.list }
    requires number { number < length scan.now.units }
    ensures there { slice_get scan.entry.now.units number ≡ Some result.0.now }
    ensures led { result.0.now.lead ≤ result.0.now.first }
    ensures ordered { result.0.now.first < result.0.now.last }
    ensures within { result.0.now.last < length roles.now }
    ensures small { length roles.now ≤ TEXT_LIMIT }
    ensures start { result.1.start ≡ result.0.now.lead }
    ensures clause { IsClauseAt roles.now result.1.start result.1 }
{
    let unit = scan.units.get(number as u64);
    (unit, clause_from(unit.lead as usize))
}
