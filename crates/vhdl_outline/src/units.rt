//! Where a design unit of a scan is among its tokens.

ghost use Rattle.std.specs.Prelude.{◌≡◌, ◌+◌, ◌<◌, ◌≤◌, Some, length, slice_get};
ghost use Rattle.vhdl_spec.specs.Units.{roles_of};
ghost use Rattle.vhdl_spec.specs.Scans.{IsScanOf};

use base::{Role, Scan, Unit};

/// The unit of a number in the scan of a text.
pub fn unit_at<'a>(_text: &[u8], scan: &'a Scan, _roles: &[Role], number: u64) -> &'a Unit
    requires scan { IsScanOf _text.now scan.now }
    requires roles { _roles.now ≡ roles_of _text.now scan.now.tokens.list }
    requires number { number < length scan.now.units }
    ensures there { slice_get scan.entry.now.units number ≡ Some result.now }
    ensures ordered { result.now.first < result.now.last }
    ensures within { result.now.last < length _roles.now }
{
    scan.units.get(number)
}
