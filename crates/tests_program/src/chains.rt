//! Two runs over a project of two packages, whose compiler refuses each file.

use base::{Items, NamedText, NamedTextList, NoMemory, Numbers, Positions, Text, TextList};
use base_outcomes::Outcome;
use headline::{Outcomes, run_after_stop, run_twice};
use memory_outside::{
    MemDisk, MemReports, MemSink, MemSource, MemTree, ScriptProcs, can_answer, have_paths,
};
use std::alloc::Global;
use std::process::Abort;
use std::test::Fail;

fn add_file(
    alloc: Global,
    files: &mut NamedTextList,
    path: &[u8],
    bytes: &[u8],
) -> Result<(), NoMemory> {
    files.push(NamedText {
        path: Text::from_slice(alloc, path)?,
        bytes: Text::from_slice(alloc, bytes)?,
    })
}

fn project(rt: &impl Abort, alloc: Global) -> Result<MemTree, NoMemory> {
    let mut files: NamedTextList = Items::new(alloc);
    add_file(alloc, &mut files, b"vunit.csv", b"lib,a.vhd\nlib,b.vhd\n")?;
    add_file(alloc, &mut files, b"a.vhd", b"package a is\nend;\n")?;
    add_file(alloc, &mut files, b"b.vhd", b"package b is\nend;\n")?;
    assert!(rt; have_paths(&files));
    Ok(MemTree::new(alloc, files, Numbers::new(alloc)))
}

fn refusing(rt: &impl Abort, alloc: Global) -> Result<ScriptProcs, NoMemory> {
    let answers = Items::new(alloc);
    assert!(rt; can_answer(&answers));
    Ok(ScriptProcs::new(alloc, answers, Positions::new(alloc), Numbers::new(alloc)))
}

fn compile(alloc: Global) -> Result<TextList, NoMemory> {
    let mut words = Items::new(alloc);
    words.push(Text::from_slice(alloc, b"--compile")?)?;
    Ok(words)
}

fn is_refused(outcome: &Outcome) -> bool {
    matches!(outcome, Outcome::Refused(_))
}

/// What both runs answered, and how many events the journal has.
#[derive(Drop)]
struct TwoRuns {
    outcomes: Outcomes,
    events: u64,
}

fn run_both(rt: &impl Abort, alloc: Global, after_stop: bool) -> Result<TwoRuns, NoMemory> {
    let words = compile(alloc)?;
    let mut tree = project(rt, alloc)?;
    let mut procs = refusing(rt, alloc)?;
    let mut disk = MemDisk::new(alloc, Numbers::new(alloc));
    let mut left = MemDisk::new(alloc, Numbers::new(alloc));
    let mut input = MemSource::new(Text::new(alloc), Numbers::new(alloc));
    let mut out = MemSink::new(alloc, Numbers::new(alloc));
    let mut reports = MemReports::new(alloc, Numbers::new(alloc));
    assert!(rt; procs.running_tickets().is_empty());
    let outcomes = if after_stop {
        run_after_stop(
            alloc,
            &words,
            &mut input,
            &mut tree,
            &mut disk,
            &mut left,
            &mut procs,
            &mut out,
            &mut reports,
        )
    } else {
        run_twice(
            alloc,
            &words,
            &mut input,
            &mut tree,
            &mut disk,
            &mut procs,
            &mut out,
            &mut reports,
        )
    };
    Ok(TwoRuns {
        outcomes,
        events: procs.journal().len() as u64,
    })
}

/// A refused file has no record, so a second run asks for it again: a start and an end in each.
#[test]
fn a_refused_file_is_asked_for_again(rt: HostRuntime) -> Result<(), Fail> {
    let both = run_both(&rt, rt.alloc(), false)?;
    assert!(rt; is_refused(&both.outcomes.first) && is_refused(&both.outcomes.second));
    assert!(rt; both.events == 4);
    Ok(())
}

#[test]
fn a_refused_file_is_asked_for_again_after_a_stop(rt: HostRuntime) -> Result<(), Fail> {
    let both = run_both(&rt, rt.alloc(), true)?;
    assert!(rt; is_refused(&both.outcomes.first) && is_refused(&both.outcomes.second));
    assert!(rt; both.events == 4);
    Ok(())
}
