//! Whether a build still commits, while it waits for its children.

ghost use Rattle.std.specs.Prelude.{◌≡◌};
ghost use Rattle.run_build.specs.Faults.{is_all_committed};

use run_spec::RunFault;

/// Whether what children give is still committed: nothing was out of memory, and the store is usable.
pub(crate) fn is_committing(first_fault: Option<RunFault>, broken: bool) -> bool
    ensures { result ≡ is_all_committed first_fault broken }
{
    match first_fault {
        Some(RunFault::NoMemory) => false,
        Some(RunFault::StartFailed | RunFault::ChildLost | RunFault::DiskFailed) | None => {
            !broken
        }
    }
}
