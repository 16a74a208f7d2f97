//! Tests of the tree, the children, the source and the sink over memory.
use base::{
    Event, Exit, Items, MaybeText, NamedText, NamedTextList, NoMemory, Numbers, Positions, Request,
    Text,
};
use memory_outside::{
    Answer, AnswerList, MemSink, MemSource, MemTree, ScriptProcs, can_answer, have_paths,
};
use outside::{
    NamesEnd, Procs, ReadEnd, Sink, Source, SourceFault, StartFault, TakeEnd, Tree, TreeFault,
    WaitFault,
};
use std::alloc::Global;
use std::process::Abort;
use std::test::Fail;

fn numbers(alloc: Global, calls: &[u64]) -> Result<Numbers, NoMemory> {
    Ok(Items::from_vec(Vec::from_slice(alloc, calls)?))
}

/// A path and the bytes of its file, one file a line.
static FILES: &str = "src/b.vhd second\n\
    vunit_outer/q \n\
    vunit_out/tests/t built\n\
    a.vhd first\n\
    .git/config hidden\n\
    src/.cache/x.vhd hidden\n\
    src.vhd third\n\
    a.vhd repeated\n";

fn add(
    alloc: Global,
    files: &mut NamedTextList,
    path: &[u8],
    bytes: &[u8],
) -> Result<(), NoMemory> {
    files.push(NamedText {
        path: Text::from_slice(alloc, path)?,
        bytes: Text::from_slice(alloc, bytes)?,
    })
}

fn add_long(alloc: Global, files: &mut NamedTextList) -> Result<(), NoMemory> {
    let long = vec![in alloc; b'n'; 1025]?;
    add(alloc, files, long.as_slice(), b"")?;
    add(alloc, files, &long.as_slice()[..1024], b"")
}

/// The files, and empty ones whose paths have 1,024 and 1,025 bytes.
fn files(alloc: Global) -> Result<NamedTextList, NoMemory> {
    let mut list = Items::new(alloc);
    for line in FILES.lines() {
        if let Some((path, bytes)) = line.split_once(' ') {
            add(alloc, &mut list, path.as_bytes(), bytes.as_bytes())?;
        }
    }
    add_long(alloc, &mut list)?;
    Ok(list)
}

/// A tree of the files whose call 4 fails.
fn tree(rt: &impl Abort, alloc: Global) -> Result<MemTree, NoMemory> {
    let files = files(alloc)?;
    assert!(rt; have_paths(&files));
    Ok(MemTree::new(alloc, files, numbers(alloc, &[4])?))
}

/// A limit and a star, and the result of listing at most that many paths: the first 15 bytes of each path, and a space.
static LISTINGS: &str = "5* a.vhd nnnnnnnnnnnnnnn src.vhd src/b.vhd vunit_outer/q \n4* too many\n";

/// The first 15 bytes of each text, with a space after them.
fn beginnings(alloc: Global, texts: &[Text]) -> Result<Vec<u8>, NoMemory> {
    let mut all = Vec::new(alloc);
    for text in texts {
        let bytes = text.bytes();
        all.extend_from_slice(&bytes[..bytes.len().min(15)])?;
        all.push(b' ')?;
    }
    Ok(all)
}

/// Whether a listing gives this.
fn lists(alloc: Global, tree: &mut MemTree, limit: u64, wanted: &str) -> Result<bool, NoMemory> {
    match tree.names(alloc, limit) {
        Ok(NamesEnd::Got(names)) => are_listed(alloc, names.as_slice(), wanted),
        Ok(NamesEnd::TooMany) => Ok(wanted == "too many"),
        Err(TreeFault::Failed) => Ok(wanted == "failed"),
        Err(TreeFault::NoMemory) => Err(NoMemory),
    }
}

/// Whether these paths begin so.
fn are_listed(alloc: Global, names: &[Text], wanted: &str) -> Result<bool, NoMemory> {
    Ok(beginnings(alloc, names)?.as_slice() == wanted.as_bytes())
}

/// A limit, a path, and what a read of it gives, one read a line.
static READS: &str = "5a.vhd first\n\
    6.git/config hidden\n\
    4a.vhd too long\n\
    9b.vhd absent\n\
    9a.vhd failed\n\
    9a.vhd first\n";

/// Whether a read of a path gives this.
fn gives(
    alloc: Global,
    tree: &mut MemTree,
    path: &Text,
    limit: u64,
    wanted: &str,
) -> Result<bool, NoMemory> {
    match tree.read(alloc, path, limit) {
        Ok(ReadEnd::Got(bytes)) => Ok(bytes.bytes() == wanted.as_bytes()),
        Ok(ReadEnd::TooLong) => Ok(wanted == "too long"),
        Ok(ReadEnd::Absent) => Ok(wanted == "absent"),
        Err(TreeFault::Failed) => Ok(wanted == "failed"),
        Err(TreeFault::NoMemory) => Err(NoMemory),
    }
}

/// The number that a digit is.
fn number(digit: u8) -> u64 {
    digit.saturating_sub(b'0') as u64
}

/// Whether a listing, where the path is a star, or else a read gives this.
fn answers_so(
    alloc: Global,
    tree: &mut MemTree,
    path: &[u8],
    limit: u64,
    wanted: &str,
) -> Result<bool, NoMemory> {
    if path == b"*".as_slice() {
        return lists(alloc, tree, limit, wanted);
    }
    let path = Text::from_slice(alloc, path)?;
    gives(alloc, tree, &path, limit, wanted)
}

/// The same of a line.
fn gives_line(alloc: Global, tree: &mut MemTree, line: &str) -> Result<bool, NoMemory> {
    match line.split_once(' ') {
        Some((path, wanted)) => {
            let path = path.as_bytes();
            if path.is_empty() {
                return Ok(false);
            }
            answers_so(alloc, tree, &path[1..], number(path[0]), wanted)
        }
        None => Ok(false),
    }
}

fn gives_each(alloc: Global, tree: &mut MemTree, lines: &str) -> Result<bool, NoMemory> {
    for line in lines.lines() {
        if !gives_line(alloc, tree, line)? {
            return Ok(false);
        }
    }
    Ok(true)
}

/// Whether the tree gives what each line says. This function alone owns one.
fn gives_all(rt: &impl Abort, alloc: Global, lines: &str) -> Result<bool, NoMemory> {
    let mut tree = tree(rt, alloc)?;
    gives_each(alloc, &mut tree, lines)
}

#[test]
fn a_tree_lists_in_order(rt: HostRuntime) -> Result<(), Fail> {
    assert!(rt; gives_all(&rt, rt.alloc(), LISTINGS)?);
    Ok(())
}

#[test]
fn a_tree_reads_its_files(rt: HostRuntime) -> Result<(), Fail> {
    assert!(rt; gives_all(&rt, rt.alloc(), READS)?);
    Ok(())
}

fn request(alloc: Global, word: &[u8]) -> Result<Request, NoMemory> {
    let mut command = Items::new(alloc);
    command.push(Text::from_slice(alloc, word)?)?;
    Ok(Request {
        command,
        input: Text::new(alloc),
        results: MaybeText::Given(Text::from_slice(alloc, b"out.txt")?),
    })
}

fn answer(alloc: Global, word: &[u8], code: u32) -> Result<Answer, NoMemory> {
    Ok(Answer {
        request: request(alloc, word)?,
        exit: Exit {
            code,
            output: Text::new(alloc),
            results: MaybeText::Nothing,
        },
    })
}

fn answers(alloc: Global) -> Result<AnswerList, NoMemory> {
    let mut answers = Items::new(alloc);
    answers.push(answer(alloc, b"a", 0)?)?;
    answers.push(answer(alloc, b"b", 3)?)?;
    Ok(answers)
}

/// Children that answer to `a` with 0 and to `b` with 3.
fn script(
    rt: &impl Abort,
    alloc: Global,
    picks: &[u32],
    failing: &[u64],
) -> Result<ScriptProcs, NoMemory> {
    let answers = answers(alloc)?;
    assert!(rt; can_answer(&answers));
    let picks: Positions = Items::from_vec(Vec::from_slice(alloc, picks)?);
    Ok(ScriptProcs::new(alloc, answers, picks, numbers(alloc, failing)?))
}

/// Steps, one per line: the step, its ticket and its outcome. A letter starts the command of that letter, and `-` waits. The
/// outcome is `s` for a start, `x` for a failed start or a lost child, and else the exit code, with `n` for 127. Here the picks
/// are 2 and 3.
static PICKED: &str = "a0s\nb1s\nc2s\n-2n\n-13\nb5s\n-00\n-53\n";

/// The same, where calls 0 and 3 fail.
static FAILING: &str = "a0x\na0s\na1s\n-0x\n-10\n";

/// The letter of a code.
fn letter_of(code: u32) -> u8 {
    match code {
        0 => b'0',
        3 => b'3',
        127 => b'n',
        _ => b'?',
    }
}

/// The ticket of a start, and its outcome.
fn start(alloc: Global, procs: &mut ScriptProcs, word: u8) -> Result<(u64, u8), NoMemory> {
    match procs.start(alloc, &request(alloc, &[word])?) {
        Ok(ticket) => Ok((ticket, b's')),
        Err(StartFault::Failed) => Ok((0, b'x')),
        Err(StartFault::NoMemory) => Err(NoMemory),
    }
}

/// The same of a wait.
fn wait(rt: &impl Abort, alloc: Global, procs: &mut ScriptProcs) -> Result<(u64, u8), NoMemory> {
    assert!(rt; !procs.running_tickets().is_empty());
    match procs.wait_any(alloc) {
        Ok(end) => Ok((end.ticket, letter_of(end.exit.code))),
        Err(WaitFault::Lost { ticket }) => Ok((ticket, b'x')),
        Err(WaitFault::NoMemory { .. }) => Err(NoMemory),
    }
}

/// Whether a step gives what its line says.
fn goes(
    rt: &impl Abort,
    alloc: Global,
    procs: &mut ScriptProcs,
    line: &[u8],
) -> Result<bool, NoMemory> {
    if line.len() < 3 {
        return Ok(false);
    }
    let found = if line[0] == b'-' {
        wait(rt, alloc, procs)?
    } else {
        start(alloc, procs, line[0])?
    };
    Ok(found.0 == number(line[1]) && found.1 == line[2])
}

fn follows(
    rt: &impl Abort,
    alloc: Global,
    procs: &mut ScriptProcs,
    steps: &str,
) -> Result<bool, NoMemory> {
    for line in steps.lines() {
        if !goes(rt, alloc, procs, line.as_bytes())? {
            return Ok(false);
        }
    }
    Ok(true)
}

/// A letter for each event of a journal.
fn kinds(alloc: Global, procs: &ScriptProcs) -> Result<Vec<u8>, NoMemory> {
    let mut kinds = Vec::new(alloc);
    for event in procs.journal().as_slice() {
        kinds.push(match event {
            Event::Started { .. } => b's',
            Event::Ended { .. } => b'e',
            Event::Gone { .. } => b'g',
        })?;
    }
    Ok(kinds)
}

/// Whether steps go so, and leave a journal of these kinds. This function alone owns children.
fn goes_as(
    rt: &impl Abort,
    alloc: Global,
    picks: &[u32],
    failing: &[u64],
    steps: &str,
    events: &[u8],
) -> Result<bool, NoMemory> {
    let mut procs = script(rt, alloc, picks, failing)?;
    Ok(follows(rt, alloc, &mut procs, steps)? && kinds(alloc, &procs)?.as_slice() == events)
}

#[test]
fn a_script_picks_among_those_that_run(rt: HostRuntime) -> Result<(), Fail> {
    assert!(rt; goes_as(&rt, rt.alloc(), &[2, 3], &[], PICKED, b"ssseesee")?);
    Ok(())
}

#[test]
fn a_script_keeps_a_journal(rt: HostRuntime) -> Result<(), Fail> {
    assert!(rt; goes_as(&rt, rt.alloc(), &[], &[0, 3], FAILING, b"ssge")?);
    Ok(())
}

/// A limit, and the result of taking at most that many bytes of `input`, where call 0 fails.
static TAKEN: &str = "5 failed\n5 input\n5 \n0 \n";

fn takes(
    alloc: Global,
    source: &mut MemSource,
    limit: u64,
    wanted: &str,
) -> Result<bool, NoMemory> {
    match source.take(alloc, limit) {
        Ok(TakeEnd::Got(bytes)) => Ok(bytes.bytes() == wanted.as_bytes()),
        Ok(TakeEnd::TooLong) => Ok(wanted == "too long"),
        Err(SourceFault::Failed) => Ok(wanted == "failed"),
        Err(SourceFault::NoMemory) => Err(NoMemory),
    }
}

/// A source of `input` of which these calls fail.
fn source(alloc: Global, failing: &[u64]) -> Result<MemSource, NoMemory> {
    let input = Text::from_slice(alloc, b"input")?;
    Ok(MemSource::new(input, numbers(alloc, failing)?))
}

/// The same of a line.
fn takes_line(alloc: Global, source: &mut MemSource, line: &str) -> Result<bool, NoMemory> {
    match line.split_once(' ') {
        Some((limit, wanted)) => {
            if limit.is_empty() {
                return Ok(false);
            }
            takes(alloc, source, number(limit.as_bytes()[0]), wanted)
        }
        None => Ok(false),
    }
}

fn takes_each(alloc: Global, source: &mut MemSource, lines: &str) -> Result<bool, NoMemory> {
    for line in lines.lines() {
        if !takes_line(alloc, source, line)? {
            return Ok(false);
        }
    }
    Ok(true)
}

/// Whether a source of which these calls fail gives what each line says. This function alone owns one.
fn takes_all(alloc: Global, failing: &[u64], lines: &str) -> Result<bool, NoMemory> {
    let mut source = source(alloc, failing)?;
    takes_each(alloc, &mut source, lines)
}

#[test]
fn a_source_is_taken_once(rt: HostRuntime) -> Result<(), Fail> {
    assert!(rt; takes_all(rt.alloc(), &[0], TAKEN)?);
    assert!(rt; takes_all(rt.alloc(), &[], "4 too long\n")?);
    Ok(())
}

/// What is put, after `!` where that fails: call 1 does.
static PUT: &str = "-one \n!two \n-three\n";

/// Whether a put goes as its line says.
fn puts(sink: &mut MemSink, line: &[u8]) -> bool {
    if line.is_empty() {
        return false;
    }
    sink.put(&line[1..]).is_err() == (line[0] == b'!')
}

fn puts_each(sink: &mut MemSink, lines: &str) -> bool {
    for line in lines.lines() {
        if !puts(sink, line.as_bytes()) {
            return false;
        }
    }
    true
}

/// Whether a sink of which call 1 fails keeps these bytes of what is put. This function alone owns one.
fn keeps(alloc: Global, lines: &str, wanted: &[u8]) -> Result<bool, NoMemory> {
    let mut sink = MemSink::new(alloc, numbers(alloc, &[1])?);
    Ok(puts_each(&mut sink, lines) && sink.bytes() == wanted)
}

#[test]
fn a_sink_keeps_what_is_put(rt: HostRuntime) -> Result<(), Fail> {
    assert!(rt; keeps(rt.alloc(), PUT, b"one three")?);
    Ok(())
}
