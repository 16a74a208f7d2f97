//! Runs of which a start fails, or a child is lost.

use crate::objects::told_runs;
use crate::plain::{agree, plain_runs};
use crate::way::{NEVER, Way, way_of};
use run_spec::RunFault;
use std::alloc::Global;
use std::process::Abort;
use std::test::Fail;

/// Four runs, the third of which fails.
static FOUR: &str = "\
lib|t|a|a||tb.vhd|lib.t.a|a||0||test_start:a~test_suite_done~
lib|t|a|b||tb.vhd|lib.t.b|b||0||test_start:b~test_suite_done~
lib|t|a|c||tb.vhd|lib.t.c|c||1|bad~|test_start:c~
lib|t|a|d||tb.vhd|lib.t.d|d||0||test_start:d~test_suite_done~";

/// One or two of the starts and waits fail.
fn failing(limit: u32, first: u32, second: u32) -> Way {
    let mut way = way_of(limit, false);
    way.failing = [first, second];
    way
}

/// Runs the four, and compares what has happened and which fault is answered.
fn ends_so(
    rt: &impl Abort,
    alloc: Global,
    way: &Way,
    events: &str,
    fault: RunFault,
) -> Result<(), Fail> {
    let told = told_runs(rt, alloc, FOUR, way)?;
    assert!(rt; told.idle && told.fault == Some(fault));
    assert!(rt; told.events.as_slice() == events.as_bytes());
    Ok(())
}

#[test]
fn the_other_child_is_waited_for_after_a_loss(rt: HostRuntime) -> Result<(), Fail> {
    let lost = RunFault::ChildLost;
    ends_so(&rt, rt.alloc(), &failing(2, 2, NEVER), "+0+1?0-1", lost)?;
    ends_so(&rt, rt.alloc(), &failing(2, 4, NEVER), "+0+1-0+2?1!2", lost)?;
    ends_so(&rt, rt.alloc(), &failing(2, 2, 3), "+0+1?0?1", lost)
}

#[test]
fn the_children_are_waited_for_after_a_failed_start(rt: HostRuntime) -> Result<(), Fail> {
    let failed = RunFault::StartFailed;
    ends_so(&rt, rt.alloc(), &failing(2, 0, NEVER), "", failed)?;
    ends_so(&rt, rt.alloc(), &failing(2, 1, NEVER), "+0-0", failed)?;
    ends_so(&rt, rt.alloc(), &failing(2, 3, NEVER), "+0+1-0-1", failed)?;
    ends_so(&rt, rt.alloc(), &failing(2, 1, 2), "+0?0", failed)
}

/// Runs the four as the plain ones.
fn goes_alike(rt: &impl Abort, alloc: Global, way: &Way) -> Result<(), Fail> {
    let told = told_runs(rt, alloc, FOUR, way)?;
    let plain = plain_runs(alloc, FOUR, way)?;
    assert!(rt; agree(alloc, &told, &plain, FOUR)?);
    Ok(())
}

#[test]
fn each_start_and_wait_can_fail(rt: HostRuntime) -> Result<(), Fail> {
    for limit in [1, 2, 3, 64] {
        for first in 0..9 {
            for second in [NEVER, 3, 6] {
                goes_alike(&rt, rt.alloc(), &failing(limit, first, second))?;
            }
        }
    }
    Ok(())
}
