//! Builds of small projects by hand, event by event.

use crate::compare::agree;
use crate::kept::{AllKept, none_kept};
use crate::objects::{Told, empty_disk, told_build, told_plan};
use crate::parts::shape_of;
use crate::plain::{NEVER, Plain, Way, plain_build, steady_way};
use crate::sets::with;
use crate::shapes::{Project, first};
use memory_outside::MemDisk;
use run_spec::RunFault;
use std::alloc::Global;
use std::process::Abort;
use std::test::Fail;

/// One row per line: its title, and builds over one disk that is empty at first, with `|` between two. A build begins with the
/// letter of its shape. Words for changes from the first project follow:
///
/// - `t` and letters of files: another text, and another artefact;
/// - `c` and letters of files: another comment, and the same artefact;
/// - `o` and letters of files: another compiler command, and the same artefact;
/// - `m` and letters of files: another library;
/// - `n` and letters of files: another artefact for the same request;
/// - `s`: the first two files are in the other order.
///
/// Then the words for the run of the build:
///
/// - `p` and the number of slots, 1 without it;
/// - `k`: the build goes on after a refusal;
/// - `r` and the letters of the files that are refused;
/// - `f` and the start or wait that fails, counted from 0;
/// - `w` and for each wait the index that it takes among the running children.
///
/// After `>` stand the events, the statuses or the fault, and the letters and artefacts of all files. The first is `.` without
/// events, and the last is `.` unless all files are made. After `=` stand the statuses alone, and after `?` the plan.
static ROWS: &str = "\
all files are compiled once|U > +0-0+1-1+2-2+3-3+4-4+5-5 cccccc a1b1c1d1e1f1|U > . ffffff a1b1c1d1e1f1
a free slot is used before the first wait|U p3 > +0+2-0+1+3-2-1+4-3-4+5-5 cccccc a1b1c1d1e1f1
a changed package and its users are compiled|U = cccccc|U ta > +0-0+1-1+3-3+4-4+5-5 ccfccc a2b1c1d1e1f1
a changed package and its users are compiled|U = cccccc|U ta p2 > +0-0+1+3-1+4-3-4+5-5 ccfccc a2b1c1d1e1f1
a changed package and its users are compiled|U = cccccc|U ta p3 > +0-0+1+3-1+4-3-4+5-5 ccfccc a2b1c1d1e1f1
a changed package and its users are compiled|U = cccccc|U ta p64 > +0-0+1+3-1+4-3-4+5-5 ccfccc a2b1c1d1e1f1
a comment in the package compiles it alone|U = cccccc|U ca > +0-0 cfffff a1b1c1d1e1f1|U ca > . ffffff a1b1c1d1e1f1
a comment in the package compiles it alone|U = cccccc|U ca p64 > +0-0 cfffff a1b1c1d1e1f1|U > +0-0 cfffff a1b1c1d1e1f1
a comment in the file alone compiles it alone|U = cccccc|U cc > +2-2 ffcfff a1b1c1d1e1f1
the file alone shares nothing with the users|U = cccccc|U tc p3 > +2-2+5-5 ffcffc a1b1c2d1e1f1
a comment in all files compiles each|U = cccccc|U cabcdef p3 > +0+2-0+1+3-2-1+4-3-4+5-5 cccccc a1b1c1d1e1f1
a comment below a comment|U = cccccc|U cab > +0-0+1-1 ccffff a1b1c1d1e1f1
a comment below a change|U = cccccc|U ca tb > +0-0+1-1+4-4+5-5 ccffcc a1b2c1d1e1f1
a comment above a change|U = cccccc|U ta cb > +0-0+1-1+3-3+4-4+5-5 ccfccc a2b1c1d1e1f1
both files below a user change, and end in order|T = cccc|T tab p2 > +0+1-0-1+2-2+3-3 cccc a2b2c1d1
both files below a user change, and end in the other order|T = cccc|T tab p2 w1 > +0+1-1-0+2-2+3-3 cccc a2b2c1d1
one of two files below a user changes|T = cccc|T ca tb p2 > +0+1-0-1+2-2+3-3 cccc a1b2c1d1
one of two files below a user changes, and ends first|T = cccc|T ca tb p2 w1 > +0+1-1-0+2-2+3-3 cccc a1b2c1d1
none of two files below a user changes|T = cccc|T cab p2 w1 > +0+1-1-0 ccff a1b1c1d1
a file that drops a use leaves the lists above it|L = cccc|O cb > +1-1+2-2 fccf a1b1c1d1|L > +1-1+2-2 fccf a1b1c1d1
files of other lists|U = cccccc|C > +3-3+4-4 fffcc a1b1c1d1e1|U > +3-3+4-4 fffccf a1b1c1d1e1f1
a list in another order|T = cccc|T s > +2-2+3-3 ffcc b1a1c1d1|T > +2-2+3-3 ffcc a1b1c1d1
other words of a compiler with the same artefact|U = cccccc|U oa > +0-0 cfffff a1b1c1d1e1f1|U > +0-0 cfffff a1b1c1d1e1f1
other words of all compilers|A = cccc|A oabcd > +0-0+1-1+2-2+3-3 cccc a1b1c1d1
a name in another library, and back|U = cccccc|U ma > +0-0+1-1+3-3+4-4+5-5 ccfccc a1b1c1d1e1f1|U > +1-1+3-3+4-4+5-5 fcfccc a1b1c1d1e1f1
a compiler that would give another artefact isn't asked|U = cccccc|U nabcdef > . ffffff a1b1c1d1e1f1
a compiler that gives another artefact at a comment|U = cccccc|U ca na > +0-0+1-1+3-3+4-4+5-5 ccfccc a3b1c1d1e1f1|U ca > . ffffff a3b1c1d1e1f1
an undone change compiles the package alone|U = cccccc|U ta f2 > +0-0 start .|U > +0-0 cfffff a1b1c1d1e1f1
an undone change compiles the package alone|U = cccccc|U ta f2 > +0-0 start .|U p64 > +0-0 cfffff a1b1c1d1e1f1
an undone change, after which the compiler gives another artefact|U = cccccc|U ta f2 > +0-0 start .|U na > +0-0+1-1+3-3+4-4+5-5 ccfccc a3b1c1d1e1f1
a change that is undone once all was compiled|U = cccccc|U ta = ccfccc|U > +0-0+1-1+3-3+4-4+5-5 ccfccc a1b1c1d1e1f1
a change of the user alone that is undone|U = cccccc|U tb f2 > +1-1 start .|U > +1-1 fcffff a1b1c1d1e1f1
a refused change that is undone|U = cccccc|U tb rb k > +1!1 frffss .|U > . ffffff a1b1c1d1e1f1
a refusal skips what depends on it|C k ra > +0!0+2-2 rscss .
a refusal skips what depends on it|C k ra p2 > +0+2!0-2 rscss .
a refusal skips what depends on it|C k ra p3 > +0+2!0-2 rscss .
a refusal skips what depends on it|C k ra p64 > +0+2!0-2 rscss .
a refusal ends a build that does not keep going|C ra > +0!0 rllll .
a refusal ends a build that does not keep going|C ra p2 > +0+2!0-2 rlcll .
a refusal ends a build that does not keep going|C ra p64 > +0+2!0-2 rlcll .
what waits for a refused package is not fresh|U = cccccc|U ta f2 > +0-0 start .|U ra p3 > +0!0 rlflll .|U ra k > +0!0 rsfsss .|U > +0-0 cfffff a1b1c1d1e1f1
what waits for a file that was made is fresh after a refusal|O = cccc|O ta cb ra p2 > +0+1!0-1 rcfl .
what waits for a file that was not started is left|O = cccc|O ta cb ra > +0!0 rlll .
what waits for a file that was made is fresh|O = cccc|O ta cb ra k > +0!0+1-1 rcfs .
ends come in any order|A p2 > +0+1-0+2-1-2+3-3 cccc a1b1c1d1
ends come in any order|A p3 w210 > +0+1+2-2-1-0+3-3 cccc a1b1c1d1
ends come in any order|A p64 w210 > +0+1+2-2-1-0+3-3 cccc a1b1c1d1
the others are waited for and recorded after a loss|A p3 w210 f3 > +0+1+2?2-1-0 lost .|A > +2-2+3-3 ffcc a1b1c1d1
no check comes after a loss|U = cccccc|U ta f2 > +0-0 start .|U p3 f1 > +0?0 lost .
a loss while a check is due|O = cccc|O ta cb p2 f2 > +0+1?0-1 lost .|O ta cb > +0-0+3-3 cffc a2b1c1d1
what depends on a stale file is planned for later|U = cccccc|U ta f2 > +0-0 start .|U ? slflll|U ta ? fsfsll|U tac ? fsssll
a plan does not know yet what a comment changes|U = cccccc|U ca ? slflll|U oc ? ffsffl|U na ? ffffff|T ? fsll";

/// The rest of the first word that begins with a letter, or the empty text.
fn after(words: &str, letter: u8) -> &str {
    for word in words.split(' ') {
        if word.as_bytes().first() == Some(&letter) {
            return word.split_at_checked(1).map_or("", |parts| parts.1);
        }
    }
    ""
}

/// Whether a word is this letter alone.
fn has_word(words: &str, letter: u8) -> bool {
    words
        .split(' ')
        .any(|word| word.as_bytes() == [letter].as_slice())
}

/// The files whose letters follow a letter.
fn files_in(words: &str, letter: u8) -> u8 {
    let mut files = 0;
    for file in after(words, letter).bytes() {
        files = with(files, file.wrapping_sub(b'a'));
    }
    files
}

/// The number that follows a letter, or `other` without such a number.
fn number_in(words: &str, letter: u8, other: u32) -> u32 {
    after(words, letter).parse::<u32>().unwrap_or(other)
}

/// The project of a build.
fn project_in(words: &str) -> Project {
    let letter = words.as_bytes().first().copied().unwrap_or(0);
    let mut project = first(&shape_of(letter));
    project.changed = files_in(words, b't');
    project.commented = files_in(words, b'c');
    project.optioned = files_in(words, b'o');
    project.moved = files_in(words, b'm');
    project.newer = files_in(words, b'n');
    project.swapped = has_word(words, b's');
    project
}

/// The indices that waits take, four bits each, the first one low.
fn picks_in(words: &str) -> u32 {
    let mut picks = 0u32;
    for digit in after(words, b'w').bytes().rev() {
        picks = picks.wrapping_mul(16).wrapping_add((digit % 16) as u32);
    }
    picks
}

/// The way of a build.
fn way_in(words: &str) -> Way {
    let mut way = steady_way(
        number_in(words, b'p', 1),
        has_word(words, b'k'),
        files_in(words, b'r'),
        picks_in(words),
    );
    way.failing = number_in(words, b'f', NEVER);
    way
}

/// The word of a fault.
fn fault_word(fault: &RunFault) -> &'static [u8] {
    match fault {
        RunFault::NoMemory => b"memory",
        RunFault::StartFailed => b"start",
        RunFault::ChildLost => b"lost",
        RunFault::DiskFailed => b"disk",
    }
}

/// Whether letters are those of a word. A word of one dot stands for no letters.
fn are(letters: &[u8], word: &str) -> bool {
    if word == "." {
        return letters.is_empty();
    }
    letters == word.as_bytes()
}

/// Whether the statuses, or the fault, are these.
fn ends_so(told: &Told, word: &str) -> bool {
    match &told.fault {
        None => are(told.statuses.as_slice(), word),
        Some(fault) => are(fault_word(fault), word),
    }
}

/// A word of some.
fn word_at(words: &str, at: usize) -> &str {
    words.split(' ').nth(at).unwrap_or("")
}

/// Whether a build did and answered this.
fn is(told: &Told, wanted: &str) -> bool {
    are(told.events.as_slice(), word_at(wanted, 0))
        && ends_so(told, word_at(wanted, 1))
        && are(told.whole.as_slice(), word_at(wanted, 2))
}

/// Whether the plan is as wanted.
fn plans(alloc: Global, project: &Project, wanted: &str, disk: &mut MemDisk) -> Result<bool, Fail> {
    let told = told_plan(alloc, project, disk)?;
    Ok(are(told.as_slice(), wanted))
}

/// Whether a build of a row gives what follows its sign: the plan after `?`, the statuses after `=`, all three parts after `>`. After
/// `>` it must agree with the plain build too. Unless only a plan is made, `kept` becomes the records of the plain build.
fn goes(
    rt: &impl Abort,
    alloc: Global,
    words: &str,
    sign: u8,
    wanted: &str,
    kept: &mut AllKept,
    disk: &mut MemDisk,
) -> Result<bool, Fail> {
    let project = project_in(words);
    let way = way_in(words);
    if sign == b'?' {
        return plans(alloc, &project, wanted, disk);
    }
    let plain = plain_build(alloc, &project, kept, &way)?;
    *kept = plain.kept;
    let told = told_build(rt, alloc, &project, &plain.made, &way, disk)?;
    if sign == b'=' {
        return Ok(are(told.statuses.as_slice(), wanted));
    }
    Ok(is(&told, wanted) && agree(alloc, &told, &plain, &project, way.keep_going)?)
}

/// The same for the text of a build in its row.
fn build_goes(
    rt: &impl Abort,
    alloc: Global,
    build: &str,
    kept: &mut AllKept,
    disk: &mut MemDisk,
) -> Result<bool, Fail> {
    if let Some((words, wanted)) = build.split_once(" > ") {
        return goes(rt, alloc, words, b'>', wanted, kept, disk);
    }
    if let Some((words, wanted)) = build.split_once(" = ") {
        return goes(rt, alloc, words, b'=', wanted, kept, disk);
    }
    if let Some((words, wanted)) = build.split_once(" ? ") {
        return goes(rt, alloc, words, b'?', wanted, kept, disk);
    }
    Ok(false)
}

/// Whether all builds of a row go as it says.
fn row_goes(rt: &impl Abort, alloc: Global, row: &str, disk: &mut MemDisk) -> Result<bool, Fail> {
    let mut kept = none_kept();
    for build in row.split('|').skip(1) {
        if !build_goes(rt, alloc, build, &mut kept, disk)? {
            return Ok(false);
        }
    }
    Ok(true)
}

/// The same over an empty disk.
fn passes(rt: &impl Abort, alloc: Global, row: &str) -> Result<bool, Fail> {
    let mut disk = empty_disk(alloc, NEVER)?;
    row_goes(rt, alloc, row, &mut disk)
}

#[test]
fn small_projects_are_built_as_by_hand(rt: HostRuntime) -> Result<(), Fail> {
    for row in ROWS.lines() {
        assert!(rt; passes(&rt, rt.alloc(), row)?, "{row}");
    }
    Ok(())
}
