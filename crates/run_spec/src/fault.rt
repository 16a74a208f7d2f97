//! Why a build, or runs of tests, did not end by themselves.

ghost use Rattle.std.specs.Prelude.{◌≡◌, Some};
ghost use Rattle.run_spec.specs.declared.fault.RunFault.TheVariants.{NoMemory as out_of_memory};
ghost use Rattle.run_spec.specs.Faults.{with_fault};

use base::NoMemory;

/// Why a build, or runs of tests, did not end by themselves.
#[derive(Clone, Copy, Debug, PartialEq, Eq)]
pub enum RunFault {
    NoMemory,
    /// A child could not be started.
    StartFailed,
    /// The exit of a child is lost.
    ChildLost,
    /// A call of the disk failed: that of the store of a build, which is broken from now on, or that of the passes of tests.
    DiskFailed,
}

impl From<NoMemory> for RunFault {
    ghost from_gives = { λ _ e. e ≡ out_of_memory };

    fn from(_: NoMemory) -> RunFault {
        RunFault::NoMemory
    }
}

/// Notes a fault: the first in time stays, but out of memory takes the place of any other.
pub fn note(first_fault: &mut Option<RunFault>, fault: RunFault)
    ensures { first_fault.new ≡ Some (with_fault first_fault.old fault) }
{
    let first = match *first_fault {
        None => fault,
        Some(first) => first,
    };
    *first_fault = match fault {
        RunFault::NoMemory => Some(RunFault::NoMemory),
        RunFault::StartFailed | RunFault::ChildLost | RunFault::DiskFailed => Some(first),
    };
}
