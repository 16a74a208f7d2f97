//! The lines that standard error gets once a run has ended.

use crate::causes::{Children, Outside, Watched, fault_cause};
use crate::locations::refusal_location;
use crate::modes::{Mode, is_child};
use base::{NoMemory, ProjectFault, TextList};
use base_outcomes::{Outcome, OutsideObject, Refusal};
use system_children::Counts;
use system_files::{Messages, lock_holder, shorten_line};
use vunit_arguments::Setting;
use vunit_hints::{
    ProjectText, project_text, push_child_said, push_counts, push_failed, push_line,
    push_linked_folders, push_no_test, push_own_compiler, push_own_simulator, push_pattern_cause,
    push_source_locations, push_unmatched, push_unread, push_words, read_again,
};
use vunit_top::{Ended, end_of};

/// The file of the store that a run locks.
const LOCKED_FILE: &str = "vunit_out/store_a";

/// How a run ended, the lines that say more of it on standard error, and what these are written to.
#[derive(Drop)]
pub struct Ran {
    pub ended: Ended,
    pub lines: Vec<Vec<u8>>,
    pub messages: Messages,
}

impl Ran {
    /// A run for which there was no memory.
    pub fn without_memory(rt: &HostRuntime, messages: Messages) -> Ran {
        Ran {
            ended: end_of(Outcome::NoMemory),
            lines: Vec::new(rt.alloc()),
            messages,
        }
    }
}

/// Writes the line of a fault, if the run ended with one, and the lines that say more, lets go of standard error, and gives
/// the run's exit status.
pub fn say_end(ran: Ran) -> u8 {
    let Ran {
        ended,
        lines,
        mut messages,
    } = ran;
    match &ended.outcome {
        Outcome::OutsideFault(which) => messages.say_at_end(fault_line(*which)),
        Outcome::NoMemory => messages.say_at_end(b"vunit_run: out of memory\n"),
        _ => {}
    }
    for mut line in lines {
        let _ = shorten_line(&mut line);
        messages.say_at_end(line.as_slice());
    }
    messages.finish();
    ended.status
}

fn fault_line(which: OutsideObject) -> &'static [u8] {
    match which {
        OutsideObject::Tree => b"vunit_run: fault of tree\n",
        OutsideObject::Disk => b"vunit_run: fault of disk\n",
        OutsideObject::Start => b"vunit_run: fault of start\n",
        OutsideObject::Child => b"vunit_run: fault of child\n",
        OutsideObject::Out => b"vunit_run: fault of out\n",
        OutsideObject::Report => b"vunit_run: fault of report\n",
        OutsideObject::Input => b"vunit_run: fault of input\n",
    }
}

/// The lines after a run: the cause of a fault or the location of a refusal, and hints about how the run ended.
pub fn lines_after(
    rt: &HostRuntime,
    words: &TextList,
    setting: &Option<Setting>,
    outcome: &Outcome,
    outside: &Outside,
) -> Vec<Vec<u8>> {
    let cause = match outcome {
        Outcome::OutsideFault(which) => fault_cause(rt.alloc(), *which, outside),
        Outcome::Refused(refusal) => refusal_location(rt, refusal),
        _ => None,
    };
    end_lines(rt, words, setting, outcome, cause, outside)
}

/// All lines, from that of the cause on. If memory runs out for a line, it and the following ones are left out, except for
/// the last, about records that can't be read.
fn end_lines(
    rt: &HostRuntime,
    words: &TextList,
    setting: &Option<Setting>,
    outcome: &Outcome,
    cause: Option<Vec<u8>>,
    outside: &Outside,
) -> Vec<Vec<u8>> {
    let mut lines = Vec::new(rt.alloc());
    if let Some(line) = cause {
        let _ = lines.push(line);
    }
    let _ = push_all(rt, &mut lines, words, setting, outcome, outside);
    let _ = push_records(rt, &mut lines, setting, outside.disk);
    lines
}

/// Adds which records of the store couldn't be read as the run began, unless it was to empty the store.
fn push_records(
    rt: &HostRuntime,
    lines: &mut Vec<Vec<u8>>,
    setting: &Option<Setting>,
    disk: &Watched,
) -> Result<(), NoMemory> {
    let Some(unread) = disk.unread() else {
        return Ok(());
    };
    match setting {
        Some(setting) if setting.clean => Ok(()),
        _ => push_unread(rt.alloc(), lines, &unread),
    }
}

fn push_all(
    rt: &HostRuntime,
    lines: &mut Vec<Vec<u8>>,
    words: &TextList,
    setting: &Option<Setting>,
    outcome: &Outcome,
    outside: &Outside,
) -> Result<(), NoMemory> {
    if is_child(words) {
        return Ok(());
    }
    let Some(setting) = setting else {
        return match outcome {
            Outcome::BadWords => push_words(rt.alloc(), lines, words),
            _ => Ok(()),
        };
    };
    let mode = Mode::of(setting);
    match outcome {
        Outcome::OutsideFault(which) => push_fault(
            rt,
            lines,
            *which,
            setting,
            mode,
            outside.children,
        ),
        Outcome::Done | Outcome::TestsFailed => {
            let counts = outside.children.teller.counts();
            push_failed(rt.alloc(), lines, outside.children.teller.failed_tests())?;
            push_warnings(rt, lines, setting, mode, outside)?;
            if mode.is_run && counts.tests_started == 0 {
                push_no_test(rt.alloc(), lines)?;
            }
            Ok(())
        }
        Outcome::Refused(Refusal::Compiler { .. }) => {
            push_warnings(rt, lines, setting, mode, outside)
        }
        Outcome::Refused(refusal) => push_refusal(rt, lines, refusal),
        _ => Ok(()),
    }
}

/// Adds details of a fault: what the child of a failed start had printed, or which process has locked the store. For a run
/// with tests, also adds their counts.
fn push_fault(
    rt: &HostRuntime,
    lines: &mut Vec<Vec<u8>>,
    which: OutsideObject,
    setting: &Setting,
    mode: Mode,
    children: &Children,
) -> Result<(), NoMemory> {
    let alloc = rt.alloc();
    if let (OutsideObject::Start, Some(said)) = (which, children.procs.start_said()) {
        push_child_said(alloc, lines, said)?;
    }
    if which == OutsideObject::Disk {
        push_holder(rt, lines)?;
    }
    if !mode.is_run {
        return Ok(());
    }
    let counts = children.teller.counts();
    match read_again(rt, &setting.patterns) {
        Some(again) => push_counts(alloc, lines, &counts, Some(again.tests)),
        None => push_counts(alloc, lines, &counts, None),
    }
}

/// Adds which other process has locked the store, if one has.
fn push_holder(rt: &HostRuntime, lines: &mut Vec<Vec<u8>>) -> Result<(), NoMemory> {
    let Some(process) = lock_holder(rt, LOCKED_FILE) else {
        return Ok(());
    };
    let text = format!(in rt.alloc(); "process {process} has locked {LOCKED_FILE}")?;
    push_line(rt.alloc(), lines, text.as_bytes())
}

/// Adds details of a refusal of the project file or of sources: why a pattern matches nothing, locations, and unknown keys.
fn push_refusal(
    rt: &HostRuntime,
    lines: &mut Vec<Vec<u8>>,
    refusal: &Refusal,
) -> Result<(), NoMemory> {
    match refusal {
        Refusal::Project {
            fault: ProjectFault::NotToml,
        } => return Ok(()),
        Refusal::Project {
            fault: ProjectFault::NothingMatches { pattern },
        } => push_pattern_cause(rt, lines, pattern.bytes())?,
        _ => {}
    }
    push_source_locations(rt, lines, refusal)?;
    match project_text(rt) {
        Some(project) => project.push_unknown(rt.alloc(), lines),
        None => Ok(()),
    }
}

/// Adds the warnings of a run over a project that was read.
fn push_warnings(
    rt: &HostRuntime,
    lines: &mut Vec<Vec<u8>>,
    setting: &Setting,
    mode: Mode,
    outside: &Outside,
) -> Result<(), NoMemory> {
    if mode.is_generated {
        return Ok(());
    }
    let counts = outside.children.teller.counts();
    let project = project_text(rt);
    if let Some(project) = &project {
        project.push_unknown(rt.alloc(), lines)?;
        // (a run with nothing to do isn't to look at each name twice, nor one that has seen that there is no link)
        if counts.ended > 0 && outside.tree.may_have_linked_folder() {
            push_linked_folders(rt, lines, project)?;
        }
    }
    push_tools(rt, lines, &project, mode, &counts)?;
    push_patterns(rt, lines, setting, mode)
}

/// Adds a warning if the compiler is the built-in one, and one if the simulator was.
fn push_tools(
    rt: &HostRuntime,
    lines: &mut Vec<Vec<u8>>,
    project: &Option<ProjectText>,
    mode: Mode,
    counts: &Counts,
) -> Result<(), NoMemory> {
    if !mode.is_build {
        return Ok(());
    }
    let names_compiler = match project {
        Some(project) => project.has_key(rt.alloc(), "compiler")?,
        None => false,
    };
    if counts.has_own_compiler || !names_compiler {
        push_own_compiler(rt.alloc(), lines)?;
    }
    if counts.has_own_simulator {
        push_own_simulator(rt.alloc(), lines)?;
    }
    Ok(())
}

/// Adds which patterns match no test, where some were given.
fn push_patterns(
    rt: &HostRuntime,
    lines: &mut Vec<Vec<u8>>,
    setting: &Setting,
    mode: Mode,
) -> Result<(), NoMemory> {
    if !mode.looks_for_tests || are_all(&setting.patterns) {
        return Ok(());
    }
    match read_again(rt, &setting.patterns) {
        Some(again) => push_unmatched(rt.alloc(), lines, &again.read, &setting.patterns),
        None => Ok(()),
    }
}

/// Whether each of the patterns is `*`.
fn are_all(patterns: &TextList) -> bool {
    patterns
        .as_slice()
        .iter()
        .all(|pattern| pattern.bytes() == b"*".as_slice())
}
