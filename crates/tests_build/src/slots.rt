//! Builds of six files, whose children end in many orders, and whose later files are checked meanwhile.

use base::{Graph, NoMemory};
use run_scheduler::{BuildScheduler, BuildStep, Need};
use run_spec::Step;
use std::alloc::Global;
use std::process::Abort;
use std::test::Fail;
use tests_graphs::{Record, read_record};

/// A record whose view is the graph: files 1 and 3 depend on file 0, file 4 on 0 and 1, and the last on all.
const BYTES: [u8; 224] = [
    6, 0, 0, 0, // six files
    3, 0, 0, 0, b'l', b'i', b'b', 1, 0, 0, 0, b'p', 1, 0, 0, 0, 2, 0, 0, 0, b'c', b'c', 0, 0, 0, 0, //
    0, 0, 0, 0, // what it depends on
    3, 0, 0, 0, b'l', b'i', b'b', 1, 0, 0, 0, b'u', 1, 0, 0, 0, 2, 0, 0, 0, b'c', b'c', 0, 0, 0, 0, //
    1, 0, 0, 0, 0, 0, 0, 0, //
    3, 0, 0, 0, b'l', b'i', b'b', 1, 0, 0, 0, b'v', 1, 0, 0, 0, 2, 0, 0, 0, b'c', b'c', 0, 0, 0, 0, //
    0, 0, 0, 0, //
    3, 0, 0, 0, b'l', b'i', b'b', 1, 0, 0, 0, b'w', 1, 0, 0, 0, 2, 0, 0, 0, b'c', b'c', 0, 0, 0, 0, //
    1, 0, 0, 0, 0, 0, 0, 0, //
    3, 0, 0, 0, b'l', b'i', b'b', 1, 0, 0, 0, b'x', 1, 0, 0, 0, 2, 0, 0, 0, b'c', b'c', 0, 0, 0, 0, //
    2, 0, 0, 0, 0, 0, 0, 0, 1, 0, 0, 0, //
    3, 0, 0, 0, b'l', b'i', b'b', 1, 0, 0, 0, b'z', 1, 0, 0, 0, 2, 0, 0, 0, b'c', b'c', 0, 0, 0, 0, //
    5, 0, 0, 0, 0, 0, 0, 0, 1, 0, 0, 0, 2, 0, 0, 0, 3, 0, 0, 0, 4, 0, 0, 0, //
    0, 0, 0, 0, // no artefact
];

/// What a test does, at a position.
#[derive(Clone, Copy)]
enum Call {
    /// The machine checks this file, whose record is current or not.
    Checks(u32, bool),
    /// The machine starts this file.
    Starts(u32),
    /// The machine waits, and the child of this file ends with code 0.
    Ends(u32),
    /// The machine waits, and the child of this file is refused.
    Refuses(u32),
    /// The machine waits, and the end of the child of this file is lost.
    Loses(u32),
    /// The build is stopped.
    Stops,
}

use Call::{Checks, Ends, Loses, Refuses, Starts, Stops};
use Need::{Fresh, Later, Stale};

/// The slots, whether the build goes on after a refusal, the plan, and the calls until nothing is left to do.
struct Row {
    limit: u32,
    keep_going: bool,
    needs: [Need; 6],
    calls: &'static [Call],
}

static ROWS: [Row; 12] = [
    // One child at a time: the file that changed, then each file that depends on it, once all that this depends on is
    // made. The last one still has a current record.
    Row {
        limit: 1,
        keep_going: false,
        needs: [Stale, Later, Fresh, Later, Later, Later],
        calls: &[
            Starts(0),
            Ends(0),
            Checks(1, false),
            Checks(3, false),
            Starts(1),
            Ends(1),
            Checks(4, false),
            Starts(3),
            Ends(3),
            Starts(4),
            Ends(4),
            Checks(5, true),
        ],
    },
    // The changed file yields the same artefact: nothing else is started. A fresh file lets the next file be checked.
    Row {
        limit: 1,
        keep_going: false,
        needs: [Stale, Later, Fresh, Later, Later, Later],
        calls: &[
            Starts(0),
            Ends(0),
            Checks(1, true),
            Checks(3, true),
            Checks(4, true),
            Checks(5, true),
        ],
    },
    // Two at a time: the last file waits for what it depends on.
    Row {
        limit: 2,
        keep_going: false,
        needs: [Stale, Later, Stale, Later, Later, Later],
        calls: &[
            Starts(0),
            Starts(2),
            Ends(2),
            Ends(0),
            Checks(1, false),
            Checks(3, true),
            Starts(1),
            Ends(1),
            Checks(4, true),
            Checks(5, false),
            Starts(5),
            Ends(5),
        ],
    },
    // A check comes before a start, and doesn't wait for a free slot.
    Row {
        limit: 2,
        keep_going: false,
        needs: [Fresh, Stale, Stale, Stale, Later, Later],
        calls: &[
            Starts(1),
            Starts(2),
            Ends(1),
            Checks(4, false),
            Starts(3),
            Ends(3),
            Starts(4),
            Ends(2),
            Ends(4),
            Checks(5, true),
        ],
    },
    // A chain runs one after another in any number of slots.
    Row {
        limit: 64,
        keep_going: false,
        needs: [Stale, Later, Fresh, Later, Later, Later],
        calls: &[
            Starts(0),
            Ends(0),
            Checks(1, false),
            Checks(3, true),
            Starts(1),
            Ends(1),
            Checks(4, false),
            Starts(4),
            Ends(4),
            Checks(5, true),
        ],
    },
    // Three files that don't wait for each other end in the other order.
    Row {
        limit: 3,
        keep_going: false,
        needs: [Fresh, Stale, Stale, Stale, Later, Later],
        calls: &[
            Starts(1),
            Starts(2),
            Starts(3),
            Ends(3),
            Ends(2),
            Ends(1),
            Checks(4, true),
            Checks(5, true),
        ],
    },
    // A refusal ends the starts of a build that doesn't keep going,
    Row {
        limit: 1,
        keep_going: false,
        needs: [Stale, Later, Stale, Later, Later, Later],
        calls: &[Starts(0), Refuses(0)],
    },
    // but not its checks,
    Row {
        limit: 2,
        keep_going: false,
        needs: [Stale, Later, Stale, Later, Later, Later],
        calls: &[
            Starts(0),
            Starts(2),
            Ends(0),
            Checks(1, false),
            Checks(3, true),
            Starts(1),
            Refuses(2),
            Ends(1),
            Checks(4, false),
        ],
    },
    // and one that does keep going skips what depends on the file.
    Row {
        limit: 1,
        keep_going: true,
        needs: [Stale, Later, Stale, Later, Later, Later],
        calls: &[Starts(0), Refuses(0), Starts(2), Ends(2)],
    },
    // A lost child ends the build with its checks, and the others are waited for.
    Row {
        limit: 2,
        keep_going: true,
        needs: [Stale, Later, Stale, Later, Later, Later],
        calls: &[Starts(0), Starts(2), Loses(2), Ends(0)],
    },
    // A stop ends the build in the same way.
    Row {
        limit: 3,
        keep_going: true,
        needs: [Stale, Later, Stale, Later, Later, Later],
        calls: &[Starts(0), Starts(2), Stops, Ends(0), Ends(2)],
    },
    // Nothing is stale.
    Row {
        limit: 1,
        keep_going: false,
        needs: [Fresh, Fresh, Fresh, Fresh, Fresh, Fresh],
        calls: &[],
    },
];

/// The graph.
fn graph(alloc: Global) -> Result<Graph, Fail> {
    let Some(Record { view, artefact: _ }) = read_record(alloc, &BYTES)? else {
        return Err(Fail::from("the bytes are a record"));
    };
    Ok(view)
}

/// The ticket of a file's child.
fn ticket_of(at: u32) -> u64 {
    at as u64 * 7 + 1
}

fn check(rt: &impl Abort, slots: &mut BuildScheduler, at: u32, fresh: bool) {
    match slots.next() {
        BuildStep::Check(found) => {
            assert!(rt; found == at);
            slots.record_check(found, fresh);
        }
        BuildStep::Run(_) => assert!(rt; false),
    }
}

fn start(rt: &impl Abort, slots: &mut BuildScheduler, at: u32) {
    match slots.next() {
        BuildStep::Run(Step::Start(found)) => {
            assert!(rt; found == at);
            slots.record_start(found, ticket_of(at));
        }
        BuildStep::Check(_) | BuildStep::Run(Step::Wait | Step::Finished) => assert!(rt; false),
    }
}

fn end(rt: &impl Abort, slots: &mut BuildScheduler, at: u32, ok: bool) {
    assert!(rt; slots.next() == BuildStep::Run(Step::Wait));
    let ticket = ticket_of(at);
    assert!(rt; slots.is_running(ticket));
    assert!(rt; slots.record_end(ticket, ok) == at);
}

fn lose(rt: &impl Abort, slots: &mut BuildScheduler, at: u32) {
    assert!(rt; slots.next() == BuildStep::Run(Step::Wait));
    let ticket = ticket_of(at);
    assert!(rt; slots.is_running(ticket));
    assert!(rt; slots.record_loss(ticket) == at);
}

fn go(rt: &impl Abort, slots: &mut BuildScheduler, call: Call) {
    match call {
        Checks(at, fresh) => check(rt, slots, at, fresh),
        Starts(at) => start(rt, slots, at),
        Ends(at) => end(rt, slots, at, true),
        Refuses(at) => end(rt, slots, at, false),
        Loses(at) => lose(rt, slots, at),
        Stops => slots.stop(),
    }
}

fn build(rt: &impl Abort, alloc: Global, row: &Row) -> Result<(), Fail> {
    let graph = graph(alloc)?;
    let needs = row.needs.as_slice();
    assert!(rt; needs.len() as u64 == graph.len());
    assert!(rt; row.limit >= 1);
    assert!(rt; row.limit <= 64);
    let mut slots = BuildScheduler::new(alloc, &graph, needs, row.limit, row.keep_going)?;
    for call in row.calls {
        go(rt, &mut slots, *call);
    }
    assert!(rt; slots.next() == BuildStep::Run(Step::Finished));
    Ok(())
}

#[test]
fn files_are_started_in_order(rt: HostRuntime) -> Result<(), Fail> {
    for row in ROWS.as_slice() {
        build(&rt, rt.alloc(), row)?;
    }
    Ok(())
}
