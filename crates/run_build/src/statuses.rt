//! The statuses of files before any child has ended.

ghost use Rattle.std.specs.Prelude.{◌≡◌, map, not, count_by, length, IfOk};
ghost use Rattle.run_scheduler.specs.Plans.{is_fresh};
ghost use Rattle.run_build.specs.Statuses.{waiting_status, first_status};

use base::NoMemory;
use run_scheduler::Need;
use run_spec::FileStatus;
use std::alloc::Global;

fn waiting_status(keep_going: bool) -> FileStatus
    ensures { result ≡ waiting_status keep_going }
{
    if keep_going {
        FileStatus::Skipped
    } else {
        FileStatus::Left
    }
}

fn first_status(need: Need, keep_going: bool) -> FileStatus
    ensures { result ≡ first_status keep_going need }
{
    match need {
        Need::Fresh => FileStatus::Fresh,
        Need::Stale => waiting_status(keep_going),
        Need::Later => waiting_status(keep_going),
    }
}

/// The statuses of files while no child has ended: what isn't fresh waits.
pub(crate) fn first_statuses(
    alloc: Global,
    needs: &[Need],
    keep_going: bool,
) -> Result<Vec<FileStatus>, NoMemory>
    ensures { IfOk result (λ statuses. statuses.items ≡ map (first_status keep_going) needs.now) }
{
    let mut statuses = Vec::with_capacity(alloc, needs.len())?;
    for need in needs {
        statuses.push(first_status(*need, keep_going))?;
    }
    Ok(statuses)
}

/// Nothing is to be done with a file.
fn is_fresh_need(need: Need) -> bool
    ensures { result ≡ is_fresh need }
{
    match need {
        Need::Fresh => true,
        Need::Stale | Need::Later => false,
    }
}

/// How many files are stale, or checked later.
pub(crate) fn due_files(needs: &[Need]) -> u64
    ensures { result ≡ count_by (λ need. not (is_fresh need)) needs.now }
{
    let mut due = 0;
    for need in needs {
        if !is_fresh_need(*need) {
            due += 1;
        }
    }
    due
}
