//! The line that says why an object over the system failed.

use base_outcomes::OutsideObject;
use std::alloc::Global;
use system_children::{ChildProcs, ToldProcs};
use system_files::{
    Cause, FileDisk, FileReports, FileTree, StdSink, StdSource, WatchedDisk, cause_line,
};

/// Children of the system, of which standard error is told.
pub type Children = ToldProcs<ChildProcs<HostRuntime>, HostRuntime>;

/// A disk of the system, whose records are looked at.
pub type Watched = WatchedDisk<FileDisk>;

/// What a run goes over.
#[derive(Clone, Copy)]
pub struct Outside<'a> {
    pub input: &'a StdSource<HostRuntime>,
    pub tree: &'a FileTree<HostRuntime>,
    pub disk: &'a Watched,
    pub children: &'a Children,
    pub out: &'a StdSink<HostRuntime>,
    pub reports: &'a FileReports,
}

/// The line of a fault of this object, which says of what a call was, which one, and what the system said.
pub fn fault_cause(alloc: Global, which: OutsideObject, outside: &Outside) -> Option<Vec<u8>> {
    let (subject, cause) = cause_of(which, outside)?;
    match cause_line(alloc, subject, &cause) {
        Ok(line) => Some(line),
        Err(_) => None,
    }
}

fn cause_of<'a>(which: OutsideObject, outside: &Outside<'a>) -> Option<(&'a [u8], Cause)> {
    match which {
        OutsideObject::Tree => outside.tree.cause(),
        OutsideObject::Disk => outside.disk.disk.cause(),
        OutsideObject::Start => outside.children.procs.start_cause(),
        OutsideObject::Child => lost_child(outside.children),
        OutsideObject::Out => of("standard output", outside.out.cause()),
        OutsideObject::Report => outside.reports.cause(),
        OutsideObject::Input => of("standard input", outside.input.cause()),
    }
}

fn of<'a>(subject: &'static str, cause: Option<Cause>) -> Option<(&'a [u8], Cause)> {
    Some((subject.as_bytes(), cause?))
}

/// What the first lost child was about, and why it is lost.
fn lost_child(children: &Children) -> Option<(&[u8], Cause)> {
    let cause = children.procs.child_cause()?;
    match children.teller.lost_title() {
        Some(title) => Some((title, cause)),
        None => Some((b"a child", cause)),
    }
}
