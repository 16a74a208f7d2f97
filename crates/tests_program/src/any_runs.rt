//! Any number of runs of the program: a loss of power stops each but the last ones inside a call of the disk, and the project
//! goes from stage to stage.

ghost use Rattle.std.specs.Prelude.{◌≡◌, [], IfOk};
ghost use Rattle.outside.specs.Disks.{settled_disk};

use crate::parts::{files_of, letter, part, words_of};
use base::{NoMemory, Numbers, Positions, Text, TextList};
use base_outcomes::Outcome;
use headline::{Between, run_all};
use memory_children::LoopProcs;
use memory_outside::{MemDisk, MemReports, MemSink, MemSource, MemTree, have_paths};
use outside::Side;
use std::alloc::Global;
use std::process::Abort;
use std::test::Fail;

/// The runs, a stage and words each. The first three are stopped.
static RUNS: &str = "1|--compile;2|;2|-p 3;3|--compile;3|--compile";

const RUNS_ASKED: usize = 5;

const STOPPED: usize = 3;

/// No call of a run has this number, so that a stop there comes after the run.
const AFTER: u64 = 1_000;

/// More calls of the disk than the first run makes: an opening with 14, and 4 for each of 5 records.
const CALLS: u64 = 36;

/// Stops each run, and gives the words of the next one.
#[derive(Drop)]
struct Stops {
    alloc: Global,
    /// What the last stop left of each side.
    a: Vec<u8>,
    b: Vec<u8>,
    /// The call of the disk in which runs are stopped, and the bytes that may be any.
    moment: u64,
    fill: u8,
    /// The letter of each answer, and how many events the journal then had.
    answers: Vec<u8>,
    events: Vec<u64>,
    ended: bool,
}

fn bytes_of(alloc: Global, bytes: &[u8]) -> Result<Vec<u8>, NoMemory>
    ensures { IfOk result (λ copy. copy.items ≡ bytes.now) }
{
    let mut copy = Vec::new(alloc);
    copy.extend_from_slice(bytes)?;
    Ok(copy)
}

/// The project of a stage.
fn tree_of(alloc: Global, stage: u8) -> Result<MemTree, NoMemory> {
    let files = files_of(alloc, stage)?;
    if !have_paths(&files) {
        return Err(NoMemory);
    }
    Ok(MemTree::new(alloc, files, Numbers::new(alloc)))
}

/// The stage of a run, and its words.
fn run_at(at: usize) -> (u8, &'static str) {
    let run = RUNS.split(';').nth(at).unwrap_or("");
    let stage = part(run, 0).as_bytes().first().copied().unwrap_or(b'1');
    (stage, part(run, 1))
}

impl Stops {
    /// Keeps the letter of a run's outcome, and the length of the journal after it.
    fn note(&mut self, outcome: &Outcome, procs: &LoopProcs) -> Result<(), NoMemory>
        ensures ended { self.new.ended ≡ self.old.ended }
    {
        self.answers.push(letter(outcome))?;
        self.events.push(procs.journal().len() as u64)?;
        Ok(())
    }
}

impl Between<MemTree, MemDisk, LoopProcs> for Stops {
    ghost last = { λ s. record {
      past = [];
      now = settled_disk (record { a = s.a.items; b = s.b.items });
    } };

    ghost ended = { λ s. s.ended };

    fn next(
        &mut self,
        outcome: &Outcome,
        tree: &mut MemTree,
        disk: &mut MemDisk,
        procs: &mut LoopProcs,
    ) -> Option<TextList> {
        self.ended = true;
        let Ok(()) = self.note(outcome, procs) else {
            return None;
        };
        let at = self.answers.len();
        let moment = if at <= STOPPED { self.moment } else { AFTER };
        let Ok(left) = disk.crash(self.alloc, moment, 0, self.fill) else {
            return None;
        };
        let Ok(a) = bytes_of(self.alloc, left.reads(Side::A)) else {
            return None;
        };
        let Ok(b) = bytes_of(self.alloc, left.reads(Side::B)) else {
            return None;
        };
        let (stage, text) = run_at(at);
        if at >= RUNS_ASKED {
            return None;
        }
        let Ok(next_tree) = tree_of(self.alloc, stage) else {
            return None;
        };
        let Ok(words) = words_of(self.alloc, text) else {
            return None;
        };
        self.a = a;
        self.b = b;
        self.ended = false;
        *tree = next_tree;
        *disk = left;
        Some(words)
    }
}

/// All runs, with the first ones stopped inside a call.
fn run_stopped(rt: &impl Abort, alloc: Global, moment: u64, fill: u8) -> Result<Stops, NoMemory> {
    let mut stops = Stops {
        alloc,
        a: Vec::new(alloc),
        b: Vec::new(alloc),
        moment,
        fill,
        answers: Vec::new(alloc),
        events: Vec::new(alloc),
        ended: false,
    };
    let (stage, text) = run_at(0);
    let mut tree = tree_of(alloc, stage)?;
    let mut disk = MemDisk::new(alloc, Numbers::new(alloc));
    let mut procs = LoopProcs::new(alloc, Positions::new(alloc), Numbers::new(alloc));
    let mut input = MemSource::new(Text::new(alloc), Numbers::new(alloc));
    let mut out = MemSink::new(alloc, Numbers::new(alloc));
    let mut reports = MemReports::new(alloc, Numbers::new(alloc));
    assert!(rt; procs.running_tickets().is_empty());
    let runs = run_all(
        alloc,
        words_of(alloc, text)?,
        10,
        &mut stops,
        &mut input,
        &mut tree,
        &mut disk,
        &mut procs,
        &mut out,
        &mut reports,
    );
    assert!(rt; runs == RUNS_ASKED as u64);
    Ok(stops)
}

/// No stop loses a record. The first run compiles five files. The second compiles the package, its three users and the bench, and
/// runs two cases. The third runs the two cases alone, the fourth compiles the package, and the last starts nothing. Each child has
/// a start and an end.
#[test]
fn stops_after_runs_lose_nothing(rt: HostRuntime) -> Result<(), Fail> {
    let stops = run_stopped(&rt, rt.alloc(), AFTER, 0)?;
    assert!(rt; stops.answers.as_slice() == b"ddddd".as_slice());
    assert!(rt; stops.events.as_slice() == [10, 24, 28, 30, 30].as_slice());
    Ok(())
}

/// Each of the first three runs is stopped before it has written anything, so the disk stays empty. Each run of stage 2 compiles six
/// files and runs two cases, and the first run of stage 3 compiles six files.
#[test]
fn stops_before_the_first_write_leave_nothing(rt: HostRuntime) -> Result<(), Fail> {
    let stops = run_stopped(&rt, rt.alloc(), 0, 0)?;
    assert!(rt; stops.answers.as_slice() == b"ddddd".as_slice());
    assert!(rt; stops.events.as_slice() == [10, 26, 42, 54, 54].as_slice());
    Ok(())
}

/// The first three runs are stopped in each call, with unwritten bytes of 0 and 255. Each run is done. After the second and the fourth
/// run the number of events is between those of the two tests above. The last run follows one that was not stopped, and starts nothing.
#[test]
fn each_stop_is_made_good(rt: HostRuntime) -> Result<(), Fail> {
    for moment in 0..CALLS {
        for fill in [0, 255] {
            let stops = run_stopped(&rt, rt.alloc(), moment, fill)?;
            assert!(rt; stops.answers.as_slice() == b"ddddd".as_slice());
            let events = stops.events.as_slice();
            assert!(rt; events.len() == 5 && events[0] == 10 && events[4] == events[3]);
            assert!(rt; events[1] >= 24 && events[1] <= 26);
            assert!(rt; events[3] >= 30 && events[3] <= 54);
        }
    }
    Ok(())
}
