//! Why nothing is compiled.

ghost use Rattle.std.specs.Prelude.{◌≡◌};
ghost use Rattle.project_reading.specs.declared.stops.ReadStop.TheVariants.{NoMemory as out_of_memory};

use base::NoMemory;
use base_outcomes::{Limit, Refusal};

/// Why nothing is compiled.
#[derive(Drop)]
pub enum ReadStop {
    Refused(Refusal),
    /// This quantity is over its limit, which is this number.
    Over(Limit, u64),
    /// The tree failed.
    Failed,
    NoMemory,
}

impl From<NoMemory> for ReadStop {
    ghost from_gives = { λ _ e. e ≡ out_of_memory };

    fn from(_: NoMemory) -> ReadStop {
        ReadStop::NoMemory
    }
}
