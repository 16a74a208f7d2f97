//! Runs of small benches, event by event, with the wanted output and verdicts of each.

use crate::objects::{Stored, Told, graph_of, is_recorded, told_on, told_runs};
use crate::plain::{agree, plain_runs};
use crate::way::{Way, way_of};
use base::Graph;
use std::alloc::Global;
use std::process::Abort;
use std::test::Fail;

/// A bench with two cases that run apart. The first passes, and the child of the second leaves no results.
static APART: &str = "\
lib|t|a|a||tb.vhd|lib.t.a|a||0||test_start:a~test_suite_done~
lib|t|a|b||tb.vhd|lib.t.b|b||1||-";

/// The same bench, where the child of the first leaves no results.
static FIRST_FAILS: &str = "\
lib|t|a|a||tb.vhd|lib.t.a|a||1||-
lib|t|a|b||tb.vhd|lib.t.b|b||0||test_start:b~test_suite_done~";

/// Two cases in one simulation, which ends well by its code, but doesn't say that all is done.
static TOGETHER: &str = "lib|t|a|a;b|s|tb.vhd|lib.t|a,,b||0|boom~|test_start:a~test_start:b~";

/// The same, without results.
static NO_RESULTS: &str = "lib|t|a|a;b|s|tb.vhd|lib.t|a,,b||0|boom~|-";

/// A bench in a folder, of which one case has a comma in its name.
static COMMA: &str = "\
tb_lib|tb_x|sim|a||tb/tb_x.vhd|tb_lib.tb_x.a|a|tb/|0||test_start:a~test_suite_done~
tb_lib|tb_x|sim|b,c||tb/tb_x.vhd|tb_lib.tb_x.b=2cc|b,,,,c|tb/|0||test_start:b,c~test_suite_done~";

/// A bench of a usual project, of which one case has spaces and an ampersand in its name.
static COUNTER: &str = "\
tb_lib|tb_counter|sim|reset||tb/tb_counter.vhd|tb_lib.tb_counter.reset|reset|tb/|0||test_start:reset~test_suite_done~
tb_lib|tb_counter|sim|count & wrap||tb/tb_counter.vhd|tb_lib.tb_counter.count=20=26=20wrap|count & wrap|tb/|0||\
test_start:count & wrap~test_suite_done~";

/// A bench without cases, a case that is never started, and a child that ends well by its results, but not by its code.
static OTHERS: &str = "\
lib|w|a||w|tb.vhd|lib.w|||0|hello|test_suite_done~
lib|s|a|a;b;c|s|x/tb.vhd|lib.s|a,,b,,c|x/|0||test_start:a~test_start:c~test_suite_done~
lib|t|a|a||tb.vhd|lib.t.a|a||255|end~|test_start:a~test_suite_done~";

/// Children that print as much as is shown, one letter less, one more, and much more.
static LONG_OUTPUTS: &str = "\
lib|t|a|a||tb.vhd|lib.t.a|a||0|*4095|test_start:a~test_suite_done~
lib|t|a|b||tb.vhd|lib.t.b|b||0|*4096|test_start:b~test_suite_done~
lib|t|a|c||tb.vhd|lib.t.c|c||1|*4097|-
lib|t|a|d||tb.vhd|lib.t.d|d||0|*262144|test_start:d~test_suite_done~";

fn is(told: &Told, events: &str, text: &str) -> bool {
    told.idle
        && told.fault.is_none()
        && told.events.as_slice() == events.as_bytes()
        && told.text.as_slice() == text.as_bytes()
}

/// Runs the runs of lines, and compares the events, the output and the verdicts.
fn goes(
    rt: &impl Abort,
    alloc: Global,
    lines: &str,
    way: &Way,
    events: &str,
    text: &str,
) -> Result<(), Fail> {
    let told = told_runs(rt, alloc, lines, way)?;
    assert!(rt; is(&told, events, text), "{lines}");
    Ok(())
}

#[test]
fn a_case_passes_and_a_child_without_results_fails(rt: HostRuntime) -> Result<(), Fail> {
    let text = "pass lib.t.a\nfail lib.t.b\n";
    for fail_fast in [false, true] {
        goes(
            &rt,
            rt.alloc(),
            APART,
            &way_of(1, fail_fast),
            "+0-0+1!1",
            text,
        )?;
        goes(
            &rt,
            rt.alloc(),
            APART,
            &way_of(2, fail_fast),
            "+0+1-0!1",
            text,
        )?;
    }
    Ok(())
}

#[test]
fn nothing_is_started_after_a_failure_that_ends_all(rt: HostRuntime) -> Result<(), Fail> {
    let skipped = "fail lib.t.a\nskip lib.t.b\n";
    goes(
        &rt,
        rt.alloc(),
        FIRST_FAILS,
        &way_of(1, true),
        "+0!0",
        skipped,
    )?;
    let passed = "fail lib.t.a\npass lib.t.b\n";
    goes(
        &rt,
        rt.alloc(),
        FIRST_FAILS,
        &way_of(1, false),
        "+0!0+1-1",
        passed,
    )?;
    goes(
        &rt,
        rt.alloc(),
        FIRST_FAILS,
        &way_of(2, true),
        "+0+1!0-1",
        passed,
    )
}

#[test]
fn a_project_without_files_runs_nothing(rt: HostRuntime) -> Result<(), Fail> {
    let graph = Graph::new(rt.alloc());
    let told = told_on(&rt, rt.alloc(), &graph, "", &way_of(1, false))?;
    assert!(rt; is(&told, "", ""));
    Ok(())
}

#[test]
fn tests_may_run_only_over_files_that_are_recorded(rt: HostRuntime) -> Result<(), Fail> {
    let graph = graph_of(rt.alloc())?;
    assert!(rt; is_recorded(rt.alloc(), &graph, Stored::Both)?);
    assert!(rt; is_recorded(rt.alloc(), &graph, Stored::Again)?);
    assert!(rt; !is_recorded(rt.alloc(), &graph, Stored::First)?);
    assert!(rt; !is_recorded(rt.alloc(), &graph, Stored::Other)?);
    Ok(())
}

#[test]
fn names_have_their_bytes_in_what_is_asked(rt: HostRuntime) -> Result<(), Fail> {
    let text = "pass tb_lib.tb_x.a\npass tb_lib.tb_x.b,c\n";
    goes(&rt, rt.alloc(), COMMA, &way_of(1, false), "+0-0+1-1", text)?;
    let text = "pass tb_lib.tb_counter.reset\npass tb_lib.tb_counter.count & wrap\n";
    goes(
        &rt,
        rt.alloc(),
        COUNTER,
        &way_of(64, true),
        "+0+1-0-1",
        text,
    )
}

#[test]
fn the_last_case_fails_where_not_all_is_done(rt: HostRuntime) -> Result<(), Fail> {
    let text = "boom\npass lib.t.a\nfail lib.t.b\n";
    goes(&rt, rt.alloc(), TOGETHER, &way_of(1, false), "+0-0", text)?;
    let text = "boom\nfail lib.t.a\nfail lib.t.b\n";
    goes(&rt, rt.alloc(), NO_RESULTS, &way_of(1, false), "+0-0", text)
}

#[test]
fn verdicts_are_those_of_the_exits(rt: HostRuntime) -> Result<(), Fail> {
    let text = "hellopass lib.w.all\npass lib.s.a\nskip lib.s.b\npass lib.s.c\nend\nfail lib.t.a\n";
    goes(
        &rt,
        rt.alloc(),
        OTHERS,
        &way_of(3, false),
        "+0+1+2-0-1!2",
        text,
    )
}

#[test]
fn at_most_4096_bytes_are_shown(rt: HostRuntime) -> Result<(), Fail> {
    let way = way_of(2, false);
    let told = told_runs(&rt, rt.alloc(), LONG_OUTPUTS, &way)?;
    assert!(rt; told.text.len() == 4_095 + 4_096 + 4_096 + 4_096 + 4 * 13);
    let plain = plain_runs(rt.alloc(), LONG_OUTPUTS, &way)?;
    assert!(rt; agree(rt.alloc(), &told, &plain, LONG_OUTPUTS)?);
    Ok(())
}
