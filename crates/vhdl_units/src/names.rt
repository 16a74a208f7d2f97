//! The names that keys are made of.

ghost use Rattle.std.specs.Prelude.{◌≡◌};
ghost use Rattle.std.specs.Cmp.Lexicographic.{slice_cmp};
ghost use Rattle.std.specs.Ordering.{nat_cmp};
ghost use Rattle.vhdl_spec.specs.References.{owner_name};

use base::MaybeText;
use std::cmp::Ordering;

static NO_NAME: [u8; 0] = *b"";

/// The order of two names by their bytes.
pub fn order_of_names<'a>(one: &'a [u8], other: &'a [u8]) -> Ordering
    ensures { result ≡ slice_cmp nat_cmp one.now other.now }
{
    Ord::cmp(&one, &other)
}

/// The name of an owner, which is empty without an owner.
pub fn owner_name<'a>(owner: &'a MaybeText) -> &'a [u8]
    ensures { result.now ≡ owner_name owner.entry.now }
{
    match owner {
        MaybeText::Nothing => NO_NAME.as_slice(),
        MaybeText::Given(name) => name.bytes(),
    }
}
