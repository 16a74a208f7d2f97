//! The program: makes the objects over the system, hands them to the top call, and ends with its status.
#![tactic(auto)]

mod causes;
mod ends;
mod locations;
mod manner;
mod modes;
mod store_files;
mod words;

use crate::causes::{Outside, Watched};
use crate::ends::{Ran, lines_after, say_end};
use crate::manner::manner;
use crate::store_files::{STORE, STORE_PATHS};
use crate::words::words;
use base::{NoMemory, TextList};
use std::process::ExitCode;
use system_children::{ChildProcs, Teller, ToldProcs};
use system_files::{
    FileDisk, FileReports, FileTree, Messages, OUTPUT_FOLDER, StdSink, StdSource, WatchedDisk,
};
use vunit_arguments::read_arguments;
use vunit_top::run_ended;

fn main(rt: HostRuntime) -> ExitCode {
    ExitCode::from(say_end(run(rt)))
}

/// Runs the words of the command line in the present folder.
fn run(rt: HostRuntime) -> Ran {
    let messages = Messages::new(rt.alloc(), rt.stderr());
    match words(rt) {
        Ok(words) => run_words(rt, messages, &words),
        Err(NoMemory) => Ran::without_memory(&rt, messages),
    }
}

fn run_words(rt: HostRuntime, messages: Messages, words: &TextList) -> Ran {
    match StdSource::new(rt.alloc(), rt) {
        Ok(mut input) => run_from(rt, messages, words, &mut input),
        Err(NoMemory) => Ran::without_memory(&rt, messages),
    }
}

/// Runs the words with an input.
fn run_from(
    rt: HostRuntime,
    messages: Messages,
    words: &TextList,
    input: &mut StdSource<HostRuntime>,
) -> Ran {
    match FileTree::new(rt.alloc(), rt) {
        Ok(mut tree) => run_in(rt, messages, words, input, &mut tree),
        Err(NoMemory) => Ran::without_memory(&rt, messages),
    }
}

/// Runs the words with an input in a folder.
fn run_in(
    rt: HostRuntime,
    messages: Messages,
    words: &TextList,
    input: &mut StdSource<HostRuntime>,
    tree: &mut FileTree<HostRuntime>,
) -> Ran {
    match FileDisk::new(rt.alloc(), rt, OUTPUT_FOLDER) {
        Ok(disk) => {
            let [a, b] = STORE_PATHS;
            let mut watched = WatchedDisk::new(disk, rt, a, b);
            run_over(rt, messages, words, input, tree, &mut watched)
        }
        Err(NoMemory) => Ran::without_memory(&rt, messages),
    }
}

/// Runs the words with an input in a folder, over the records that are there.
fn run_over(
    rt: HostRuntime,
    messages: Messages,
    words: &TextList,
    input: &mut StdSource<HostRuntime>,
    tree: &mut FileTree<HostRuntime>,
    disk: &mut Watched,
) -> Ran {
    let Ok(procs) = ChildProcs::new(rt.alloc(), rt) else {
        return Ran::without_memory(&rt, messages);
    };
    let setting = read_arguments(rt.alloc(), words).ok();
    let teller = Teller::new(rt.alloc(), rt, messages, manner(&rt, &setting));
    let mut children = ToldProcs { procs, teller };
    let mut out = StdSink::new(rt);
    let mut reports = FileReports::new(rt, STORE);
    let ended = run_ended(
        rt.alloc(),
        words,
        input,
        tree,
        disk,
        &mut children,
        &mut out,
        &mut reports,
    );
    let outside = Outside {
        input,
        tree,
        disk,
        children: &children,
        out: &out,
        reports: &reports,
    };
    let lines = lines_after(&rt, words, &setting, &ended.outcome, &outside);
    Ran {
        ended,
        lines,
        messages: children.teller.into_messages(),
    }
}
