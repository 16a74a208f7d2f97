//! Counts of faults.
ghost use Rattle.outside.specs.Counts.{Counted};

/// A count of faults with one more fault. It stays at the last number.
pub fn count_fault(count: u64) -> u64
    ensures { Counted count result }
{
    count.saturating_add(1)
}
