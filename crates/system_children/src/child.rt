//! One child: how it is started, and how its output, its end and its results are taken.

ghost use Rattle.std.specs.Prelude.{◌≡◌, ◌≢◌, ◌<◌, ◌≤◌, length, IfOk, MatchResult, option_map, string_bytes};
ghost use Rattle.std.specs.Str.{IsUtf8};
ghost use Rattle.std.specs.Process.{exit_code};
ghost use Rattle.outside.specs.Children.{FitsExit, AnswersPath};
ghost use Rattle.system_files.specs.Faults.{IsFailed};
ghost use Rattle.system_children.specs.Codes.{child_code, no_answer};
ghost use Rattle.system_children.specs.Commands.{IsProgram, IsCommandOf};

use crate::printed::Printed;
use crate::results::{clear_results, take_results};
use base::{Exit, MaybeText, Request, Text};
use libc::net::POLLIN;
use libc::types::pollfd;
use std::alloc::Global;
use std::fs::Files;
use std::io::{ErrorKind, Read};
use std::os::fd::AsRawFd;
use std::os::unix::process::ExitStatusExt;
use std::process::{Child, ChildStdin, Command, ExitStatus, Processes, Stdio, SystemProcess};
use system_files::IoFault;

/// The code of a child that a signal ended.
const SIGNAL_CODE: u32 = 256;

/// The code of a child that ended with code 0 but printed more than is kept, if its request names no path for results.
const CUT_CODE: u32 = 257;

/// The code of a child that has no answer to give, as one whose node is lost, or whose licence isn't free: `EX_TEMPFAIL`.
const NO_ANSWER_CODE: u32 = 75;

/// The first command word that denotes the program itself.
const OWN_WORD: &[u8] = b"@self";

/// A running child, its output so far, and the path where it leaves its results, if it has such a path.
#[derive(Drop)]
pub struct Running {
    // its output is open until it was read to its end or given up
    child: Child<SystemProcess>,
    printed: Printed,
    fault: Option<IoFault>,
    results: MaybeText,
}

/// Starts a child: clears the path of its results, and starts its command. Its input is still to be written.
pub fn start_child<R: Processes<Started = SystemProcess> + Files>(
    runtime: &R,
    alloc: Global,
    own_path: &Option<String>,
    request: &Request,
) -> Result<(Running, Option<ChildStdin>), IoFault> {
    clear_results(runtime, alloc, &request.results)?;
    let results = request.results.copy(alloc)?;
    let mut command = command_of(alloc, own_path, request.command.as_slice())?;
    command.stdin(Stdio::piped()).stdout(Stdio::piped());
    let mut child = match command.spawn(runtime) {
        Ok(child) => child,
        Err(error) => return Err(IoFault::of("start", error)),
    };
    let stdin = child.stdin.take();
    Ok((
        Running {
            child,
            printed: Printed::new(alloc),
            fault: None,
            results,
        },
        stdin,
    ))
}

/// A text as the system takes it.
pub fn utf8(text: &Text) -> Result<&str, IoFault>
    ensures { MatchResult result
        (λ same. (same.now ≡ text.now) × IsUtf8 text.now)
        (λ fault. IsFailed fault × (¬ (IsUtf8 text.now))) }
{
    match str::from_utf8(text.bytes()) {
        Ok(text) => Ok(text),
        Err(_) => Err(IoFault::own_fault("start", "a word or a path isn't UTF-8")),
    }
}

/// The command that the words make. Without a word it fails.
fn command_of(alloc: Global, own_path: &Option<String>, words: &[Text]) -> Result<Command, IoFault>
    ensures { IfOk result (IsCommandOf (option_map string_bytes own_path.now) words.now) }
{
    let [first, rest @ ..] = words else {
        return Err(IoFault::own_fault("start", "it has no word"));
    };
    let mut command = Command::new(alloc, program_of(own_path, first)?)?;
    for word in rest {
        command.arg(utf8(word)?)?;
    }
    Ok(command)
}

/// The program that a first word names.
fn program_of<'a>(own_path: &'a Option<String>, word: &'a Text) -> Result<&'a str, IoFault>
    ensures { let own = option_map string_bytes own_path.now in
        IfOk result (λ program. IsProgram own word.now program.now) }
{
    if word.bytes() != OWN_WORD {
        return utf8(word);
    }
    match own_path {
        Some(path) => Ok(path.as_str()),
        None => Err(IoFault::own_fault("start", "the program's own path isn't known")),
    }
}

impl Running {
    /// The poll request for its output. At the end of the output the descriptor is below 0, and the system ignores the request.
    pub fn poll_request(&self) -> pollfd {
        let fd = match &self.child.stdout {
            Some(stdout) => stdout.as_raw_fd(),
            None => -1,
        };
        pollfd {
            fd,
            events: POLLIN,
            revents: 0,
        }
    }

    /// Whether its output is at its end.
    pub fn is_at_end(&self) -> bool {
        self.child.stdout.is_none()
    }

    /// Reads its output once. The read doesn't wait if the system reported that it wouldn't. After a failure to get memory, the
    /// rest of the output is read and not kept.
    pub fn read_on(&mut self, buffer: &mut [u8]) {
        let Some(stdout) = &mut self.child.stdout else {
            return;
        };
        match stdout.read(buffer) {
            Ok(0) => self.child.stdout = None,
            Ok(count) => self.keep(&buffer[..count]),
            Err(error) if error.kind() == ErrorKind::Interrupted => {}
            Err(error) => self.give_up(IoFault::of("read", error)),
        }
    }

    fn keep(&mut self, bytes: &[u8]) {
        if self.fault.is_some() {
            return;
        }
        if let Err(fault) = self.printed.add(bytes) {
            self.fault = Some(IoFault::from(fault));
        }
    }

    /// Closes its output, and keeps the fault.
    pub fn give_up(&mut self, fault: IoFault) {
        self.child.stdout = None;
        self.fault = Some(fault);
    }

    /// Closes its output and waits for it; a failure to wait is ignored. Gives the kept part of its output.
    pub fn abandon(self) -> Vec<u8> {
        let Running {
            mut child,
            printed,
            ..
        } = self;
        drop(child.stdout.take());
        let _ = child.wait();
        printed.into_prefix().kept
    }
}

/// How a child ended, and the number of the signal that ended it, if one did.
#[derive(Drop)]
pub struct ChildEnd {
    pub exit: Exit,
    pub signal: Option<i32>,
}

/// Waits for a child, and takes its results. The child is waited for even if something failed before. A child whose code says
/// that it has no answer is lost.
pub fn end_child(
    files: &impl Files,
    buffer: &mut [u8],
    alloc: Global,
    running: Running,
) -> Result<ChildEnd, IoFault>
    requires { 0 < length buffer.old }
    ensures sizes { IfOk result (λ end. FitsExit end.exit) }
    ensures named { IfOk result (λ end. AnswersPath running.results end.exit.results) }
    ensures answered { IfOk result (λ end. end.exit.code ≢ no_answer) }
{
    let Running {
        mut child,
        printed,
        fault,
        results,
    } = running;
    drop(child.stdout.take());
    let status = child.wait();
    if let Some(fault) = fault {
        return Err(fault);
    }
    let output = printed.into_prefix();
    let status = match status {
        Ok(status) => status,
        Err(error) => return Err(IoFault::of("wait", error)),
    };
    let code = code_of(status, output.more, &results);
    if code == NO_ANSWER_CODE {
        return Err(IoFault::own_fault("end", "its code, 75, says that it has no answer"));
    }
    let results = take_results(files, buffer, alloc, results)?;
    let exit = Exit {
        code,
        output: Text::from_vec(output.kept),
        results,
    };
    Ok(ChildEnd {
        exit,
        signal: status.signal(),
    })
}

fn code_of(status: ExitStatus, more: bool, results: &MaybeText) -> u32
    ensures { result ≡ child_code (exit_code status) more results.now }
{
    let code = match status.code() {
        Some(code) => u32::try_from(code).unwrap_or(SIGNAL_CODE),
        None => SIGNAL_CODE,
    };
    match results {
        MaybeText::Nothing if more && code == 0 => CUT_CODE,
        _ => code,
    }
}
