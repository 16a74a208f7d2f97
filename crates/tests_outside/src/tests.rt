//! Listings, reads and children, and a reader that breaks.

use base::{Exit, Items, MaybeText, NoMemory, Request, Text};
use outside::{Ended, NamesEnd, Procs, ReadEnd, StartFault, Tree, TreeFault, WaitFault};
use std::alloc::Global;
use std::io::{ErrorKind, Read};
use std::os::unix::fs::symlink;
use std::path::PathBuf;
use std::test::Fail;
use std::{env, fs, io};
use system_children::ChildProcs;
use system_files::{FileTree, IoFault, read_prefix};

/// The path of a test's own folder.
fn folder_of(rt: &HostRuntime, name: &str) -> Result<PathBuf, Fail> {
    let id = std::process::id(rt.process());
    let mut path = env::temp_dir(rt)?;
    path.push(format!(in rt.alloc(); "outside_tests_{name}_{id}")?.as_str())?;
    Ok(path)
}

/// A new folder, which is the present one from here on.
fn enter_new_folder(rt: &HostRuntime, name: &str) -> Result<(), Fail> {
    let path = folder_of(rt, name)?;
    fs::create_dir_all(rt, path.as_path())?;
    env::set_current_dir(rt, path.as_path())?;
    Ok(())
}

/// Leaves the folder and removes it with all in it.
fn leave_folder(rt: &HostRuntime, name: &str) -> Result<(), Fail> {
    let path = folder_of(rt, name)?;
    env::set_current_dir(rt, "/")?;
    fs::remove_dir_all(rt, path.as_path())?;
    Ok(())
}

fn text(alloc: Global, bytes: &[u8]) -> Result<Text, NoMemory> {
    Text::from_slice(alloc, bytes)
}

fn request(
    alloc: Global,
    words: &[&str],
    input: &[u8],
    results: MaybeText,
) -> Result<Request, NoMemory> {
    let mut command = Items::new(alloc);
    for word in words {
        command.push(text(alloc, word.as_bytes())?)?;
    }
    Ok(Request {
        command,
        input: text(alloc, input)?,
        results,
    })
}

/// Starts a script over an input.
fn start(
    rt: &HostRuntime,
    procs: &mut ChildProcs<HostRuntime>,
    script: &str,
    input: &[u8],
) -> Result<u64, Fail> {
    let request = request(rt.alloc(), &["sh", "-c", script], input, MaybeText::Nothing)?;
    Ok(procs.start(rt.alloc(), &request)?)
}

/// The next end of the children that run.
fn next_end(rt: &HostRuntime, procs: &mut ChildProcs<HostRuntime>) -> Result<Ended, Fail> {
    if procs.running_tickets().is_empty() {
        return Err(Fail::new("no child runs"));
    }
    Ok(procs.wait_any(rt.alloc())?)
}

/// The end of a child that runs alone.
fn exit_of(
    rt: &HostRuntime,
    words: &[&str],
    input: &[u8],
    results: MaybeText,
) -> Result<Exit, Fail> {
    let request = request(rt.alloc(), words, input, results)?;
    let mut procs = ChildProcs::new(rt.alloc(), *rt)?;
    let ticket = procs.start(rt.alloc(), &request)?;
    let end = procs.wait_any(rt.alloc())?;
    if end.ticket != ticket {
        return Err(Fail::new("another ticket"));
    }
    Ok(end.exit)
}

/// Makes folders, and files of the bytes `abc`, in the present folder.
fn fill_folder(rt: &HostRuntime) -> Result<(), Fail> {
    for folder in ["sub/deep", "vunit_out", ".git", "vunit_outer"] {
        fs::create_dir_all(rt, folder)?;
    }
    for file in [
        "b.vhd",
        "a.vhd",
        "sub/c.vhd",
        "sub/deep/d.vhd",
        "sub/.hidden",
        "vunit_out/store_a",
        ".git/x",
        "vunit_outer/e.vhd",
        "sub-1",
    ] {
        fs::write(rt, file, "abc")?;
    }
    symlink(rt, "nothing", "link_to_nothing")?;
    Ok(())
}

static LISTED: &[&str] = &[
    "a.vhd",
    "b.vhd",
    "link_to_nothing",
    "sub-1",
    "sub/c.vhd",
    "sub/deep/d.vhd",
    "vunit_outer/e.vhd",
];

fn are_listed(names: &[Text]) -> bool {
    names.len() == LISTED.len()
        && names
            .iter()
            .zip(LISTED)
            .all(|(name, wanted)| name.bytes() == wanted.as_bytes())
}

/// A path, a limit, and what a read of it gives.
static READS: &[(&[u8], u64, &str)] = &[
    (b"a.vhd", 3, "abc"),
    (b"a.vhd", 2, "too long"),
    (b"no.vhd", 3, "absent"),
    (b"a.vhd/b", 3, "absent"),
    (b"sub", 3, "failed"),
    (b"\xff", 3, "failed"),
    (b"link_to_nothing", 3, "failed"),
];

/// Whether a read of a path gives this.
fn gives<T: Tree>(
    alloc: Global,
    tree: &mut T,
    path: &[u8],
    limit: u64,
    wanted: &str,
) -> Result<bool, NoMemory> {
    match tree.read(alloc, &text(alloc, path)?, limit) {
        Ok(ReadEnd::Got(bytes)) => Ok(bytes.bytes() == wanted.as_bytes()),
        Ok(ReadEnd::TooLong) => Ok(wanted == "too long"),
        Ok(ReadEnd::Absent) => Ok(wanted == "absent"),
        Err(TreeFault::Failed) => Ok(wanted == "failed"),
        Err(TreeFault::NoMemory) => Err(NoMemory),
    }
}

#[test]
fn lists_and_reads_the_present_folder(rt: HostRuntime) -> Result<(), Fail> {
    enter_new_folder(&rt, "tree")?;
    fill_folder(&rt)?;
    let mut tree = FileTree::new(rt.alloc(), rt)?;
    match tree.names(rt.alloc(), 7)? {
        NamesEnd::Got(names) => assert!(rt; are_listed(names.as_slice())),
        NamesEnd::TooMany => return Err(Fail::new("too many")),
    }
    assert!(rt; matches!(tree.names(rt.alloc(), 6)?, NamesEnd::TooMany));
    for (path, limit, wanted) in READS {
        assert!(rt;
            gives(rt.alloc(), &mut tree, path, *limit, wanted)?,
            "{wanted}"
        );
    }
    leave_folder(&rt, "tree")
}

/// The names of the present folder, or what kept them back.
fn count_names(rt: &HostRuntime) -> Result<u64, TreeFault> {
    let Ok(mut tree) = FileTree::new(rt.alloc(), *rt) else {
        return Err(TreeFault::NoMemory);
    };
    match tree.names(rt.alloc(), 100)? {
        NamesEnd::Got(names) => Ok(names.len()),
        NamesEnd::TooMany => Ok(u64::MAX),
    }
}

#[test]
fn lists_links_that_lead_to_no_folder_and_paths_of_1024_bytes(rt: HostRuntime) -> Result<(), Fail> {
    enter_new_folder(&rt, "odd")?;
    let mut folder = String::new(rt.alloc());
    for _ in 0..4 {
        for _ in 0..250 {
            folder.push('d')?;
        }
        folder.push('/')?;
    }
    fs::create_dir_all(&rt, folder.as_str())?;
    let longest = format!(in rt.alloc(); "{folder}12345678901234567890")?;
    fs::write(&rt, longest.as_str(), "")?;
    fs::write(&rt, format!(in rt.alloc(); "{longest}1")?.as_str(), "")?;
    symlink(&rt, longest.as_str(), "link_to_a_file")?;
    symlink(&rt, folder.as_str(), "link_to_a_folder")?;
    symlink(&rt, "nothing", "link_to_nothing")?;
    symlink(&rt, "link_to_itself", "link_to_itself")?;
    assert_eq!(rt; count_names(&rt), Ok(4));
    let end = exit_of(
        &rt,
        &["sh", "-c", "> \"$(printf '\\377')\""],
        b"",
        MaybeText::Nothing,
    )?;
    assert_eq!(rt; (end.code, count_names(&rt)), (0, Err(TreeFault::Failed)));
    leave_folder(&rt, "odd")
}

/// A reader that breaks after its first bytes.
#[derive(Drop)]
struct Breaking {
    has_begun: bool,
    kind: ErrorKind,
}

impl Read for Breaking {
    fn read(&mut self, buffer: &mut [u8]) -> io::Result<usize> {
        if self.has_begun || buffer.is_empty() {
            return Err(io::Error::from(self.kind));
        }
        self.has_begun = true;
        Ok(1)
    }
}

#[test]
fn a_read_that_breaks_gives_its_own_fault(rt: HostRuntime) -> Result<(), Fail> {
    for (kind, is_memory) in [(ErrorKind::Other, false), (ErrorKind::OutOfMemory, true)] {
        let mut reader = Breaking {
            has_begun: false,
            kind,
        };
        match read_prefix(&mut reader, &mut [0; 8], rt.alloc(), 5) {
            Ok(_) => return Err(Fail::new("a prefix")),
            Err(IoFault::NoMemory) => assert!(rt; is_memory),
            Err(IoFault::Failed(cause)) => {
                assert!(rt; !is_memory && cause.call == "read" && cause.error.kind() == kind);
            }
        }
    }
    Ok(())
}

#[test]
fn children_end_as_they_say(rt: HostRuntime) -> Result<(), Fail> {
    let echoed = exit_of(&rt, &["cat"], b"some input", MaybeText::Nothing)?;
    assert_eq!(rt; echoed.code, 0);
    assert!(rt; echoed.output.bytes() == b"some input".as_slice());
    let refused = exit_of(&rt, &["sh", "-c", "cat; exit 3"], b"x", MaybeText::Nothing)?;
    assert_eq!(rt; refused.code, 3);
    let killed = exit_of(&rt, &["sh", "-c", "kill -9 $$"], b"", MaybeText::Nothing)?;
    assert_eq!(rt; killed.code, 256);
    Ok(())
}

#[test]
fn keeps_the_prefix_of_a_long_output(rt: HostRuntime) -> Result<(), Fail> {
    let script = "head -c 262144 /dev/zero; echo more; exit ";
    enter_new_folder(&rt, "output")?;
    let exact = exit_of(
        &rt,
        &["head", "-c", "262144", "/dev/zero"],
        b"",
        MaybeText::Nothing,
    )?;
    assert_eq!(rt; (exact.code, exact.output.bytes().len()), (0, 262_144));
    for (status, named, code) in [("0", false, 257), ("5", false, 5), ("0", true, 0)] {
        let results = if named {
            MaybeText::Given(text(rt.alloc(), b"results")?)
        } else {
            MaybeText::Nothing
        };
        let command = format!(in rt.alloc(); "{script}{status}")?;
        let end = exit_of(&rt, &["sh", "-c", command.as_str()], b"", results)?;
        assert_eq!(rt; (end.code, end.output.bytes().len()), (code, 262_144));
    }
    leave_folder(&rt, "output")
}

/// Each script takes its input whole, since one that ends before it was written is a failed start.
#[test]
fn takes_results_of_this_run_alone(rt: HostRuntime) -> Result<(), Fail> {
    enter_new_folder(&rt, "results")?;
    for (script, wanted) in [
        ("cat > a/b/r", Some(b"new".as_slice())),
        ("cat", None),
        ("cat > a/b/r; head -c 1048577 /dev/zero > a/b/r", None),
    ] {
        let path = MaybeText::Given(text(rt.alloc(), b"a/b/r")?);
        let end = exit_of(&rt, &["sh", "-c", script], b"new", path)?;
        let same = match (&end.results, wanted) {
            (MaybeText::Given(found), Some(wanted)) => found.bytes() == wanted,
            (MaybeText::Nothing, None) => true,
            _ => false,
        };
        assert!(rt; same, "{script}");
    }
    leave_folder(&rt, "results")
}

/// Ends with 1 where a child of the test's process has ended and wasn't waited for.
static NO_ZOMBIE: &str =
    "for s in /proc/[0-9]*/stat; do read -r id name state parent rest 2>/dev/null < $s || continue; [ $parent = $PPID ] && [ $state = Z ] && exit 1; done; exit 0";

#[test]
fn a_start_that_cannot_be_made_fails(rt: HostRuntime) -> Result<(), Fail> {
    let mut procs = ChildProcs::new(rt.alloc(), rt)?;
    let long = vec![in rt.alloc(); b'x'; 1_000_000]?;
    for (words, input) in [
        (["./no-such-program"].as_slice(), b"".as_slice()),
        ([].as_slice(), b"".as_slice()),
        (["true"].as_slice(), long.as_slice()),
        (
            ["sh", "-c", "exec <&-; sleep 0.2"].as_slice(),
            long.as_slice(),
        ),
        (["sleep", "0.2"].as_slice(), long.as_slice()),
    ] {
        let request = request(rt.alloc(), words, input, MaybeText::Nothing)?;
        assert!(rt; procs.start(rt.alloc(), &request) == Err(StartFault::Failed));
    }
    let waited = exit_of(&rt, &["sh", "-c", NO_ZOMBIE], b"", MaybeText::Nothing)?;
    assert_eq!(rt; waited.code, 0);
    let request = request(rt.alloc(), &["cat"], b"", MaybeText::Nothing)?;
    assert!(rt; procs.start(rt.alloc(), &request) == Ok(0));
    Ok(())
}

/// Makes a file of its own, and then looks for another.
fn meeting(alloc: Global, own: &str, other: &str) -> Result<Request, NoMemory> {
    let script = format!(in alloc;
        "> {own}; n=0; while [ $n -lt 100000 ]; do [ -e {other} ] && exit 0; n=$((n+1)); done; exit 1"
    )?;
    request(
        alloc,
        &["sh", "-c", script.as_str()],
        b"",
        MaybeText::Nothing,
    )
}

/// One after the other, the first would not find the file of the second.
#[test]
fn two_children_run_at_the_same_time(rt: HostRuntime) -> Result<(), Fail> {
    enter_new_folder(&rt, "two")?;
    let mut procs = ChildProcs::new(rt.alloc(), rt)?;
    let one = meeting(rt.alloc(), "one", "two")?;
    let two = meeting(rt.alloc(), "two", "one")?;
    let _ = procs.start(rt.alloc(), &one)?;
    let _ = procs.start(rt.alloc(), &two)?;
    let mut seen = [false; 2];
    for _ in 0..2 {
        let end = next_end(&rt, &mut procs)?;
        assert_eq!(rt; end.exit.code, 0);
        seen[end.ticket as usize % 2] = true;
    }
    assert!(rt; seen == [true, true]);
    leave_folder(&rt, "two")
}

/// The oldest child ends last: it waits for a file that the third makes, which is started after the second's end.
#[test]
fn takes_whichever_ends_first(rt: HostRuntime) -> Result<(), Fail> {
    enter_new_folder(&rt, "first")?;
    let mut procs = ChildProcs::new(rt.alloc(), rt)?;
    let waits =
        "n=0; until [ -e go ] || [ $n -gt 2000 ]; do n=$((n+1)); sleep 0.01; done; [ -e go ]";
    let _ = start(&rt, &mut procs, waits, b"")?;
    let _ = start(&rt, &mut procs, "echo quick", b"")?;
    let quick = next_end(&rt, &mut procs)?;
    assert_eq!(rt; (quick.ticket, quick.exit.code), (1, 0));
    let _ = start(&rt, &mut procs, "> go", b"")?;
    for _ in 0..2 {
        let end = next_end(&rt, &mut procs)?;
        assert_eq!(rt; end.exit.code, 0);
    }
    leave_folder(&rt, "first")
}

/// Each prints more than a pipe holds before it reads an input that is longer than a pipe holds.
#[test]
fn children_that_print_before_they_read_end(rt: HostRuntime) -> Result<(), Fail> {
    let mut procs = ChildProcs::new(rt.alloc(), rt)?;
    let input = vec![in rt.alloc(); b'x'; 1_048_576]?;
    for _ in 0..64 {
        let _ = start(
            &rt,
            &mut procs,
            "head -c 200000 /dev/zero; cat",
            input.as_slice(),
        )?;
    }
    for _ in 0..64 {
        let end = next_end(&rt, &mut procs)?;
        let length = end.exit.output.bytes().len();
        assert_eq!(rt; (end.exit.code, length), (257, 262_144));
        let first = end
            .exit
            .output
            .bytes()
            .iter()
            .position(|byte| *byte == b'x');
        assert_eq!(rt; first, Some(200_000));
    }
    Ok(())
}

/// All of a long input arrives, whatever the child prints meanwhile.
#[test]
fn a_child_gets_its_whole_input(rt: HostRuntime) -> Result<(), Fail> {
    let input = vec![in rt.alloc(); b'x'; 1_048_576]?;
    for script in ["wc -c", "head -c 200000 /dev/zero ; wc -c"] {
        let command = ["sh", "-c", script];
        let end = exit_of(&rt, &command, input.as_slice(), MaybeText::Nothing)?;
        assert!(rt; end.code == 0 && end.output.bytes().ends_with(b"1048576\n"));
    }
    Ok(())
}

/// A child that says so has no answer, and so is lost; one that was started after it isn't.
#[test]
fn a_child_without_an_answer_is_lost(rt: HostRuntime) -> Result<(), Fail> {
    let mut procs = ChildProcs::new(rt.alloc(), rt)?;
    let ticket = start(&rt, &mut procs, "cat; exit 75", b"input")?;
    if procs.running_tickets().is_empty() {
        return Err(Fail::new("no child runs"));
    }
    match procs.wait_any(rt.alloc()) {
        Err(WaitFault::Lost { ticket: lost }) => assert_eq!(rt; lost, ticket),
        _ => return Err(Fail::new("it has an answer")),
    }
    let _ = start(&rt, &mut procs, "cat; exit 76", b"input")?;
    let end = next_end(&rt, &mut procs)?;
    assert_eq!(rt; end.exit.code, 76);
    Ok(())
}

/// Who keeps an output open holds up its own child alone.
#[test]
fn one_that_is_left_behind_holds_up_no_other(rt: HostRuntime) -> Result<(), Fail> {
    let mut procs = ChildProcs::new(rt.alloc(), rt)?;
    let _ = start(&rt, &mut procs, "(sleep 1; echo late) & echo soon", b"")?;
    let _ = start(&rt, &mut procs, "echo other", b"")?;
    let other = next_end(&rt, &mut procs)?;
    assert_eq!(rt; other.ticket, 1);
    let late = next_end(&rt, &mut procs)?;
    assert!(rt; late.exit.output.bytes() == b"soon\nlate\n".as_slice());
    Ok(())
}
