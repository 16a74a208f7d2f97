//! Rows of bits: sets of numbers, as words of 64 bits.

ghost use Rattle.std.specs.Prelude.{◌≡◌, ℕ, ◌/◌, ◌<◌, ◌||◌, length, nat_eq};
ghost use Rattle.vhdl_scope.specs.Bits.{row_has};

/// Puts a number into a row.
pub fn set_bit(row: &mut [u64], number: usize)
    requires { number / 64 < length row.old }
    ensures len { length row.new ≡ length row.old }
    ensures bits { (other : ℕ) →
        row_has row.new other ≡ (nat_eq other number || row_has row.old other) }
{
    let at = number / 64;
    let word = row[at];
    row[at] = word | (1 << (number % 64));
}
