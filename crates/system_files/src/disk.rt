//! The disk: it opens its files at the first call, closes them at a rest, and fails for good at the first failure.

ghost use Rattle.std.specs.Prelude.{◌≡◌, ◌<◌, ◌+◌, ◌^◌, [], length, IfOk, OnOk, is_err};
ghost use Rattle.outside.specs.Counts.{DiskCounts};
ghost use Rattle.system_files.specs.UntoldDisk.{nothing_so_far, nothing_is_sound};

use crate::Cause;
use crate::opening::{Part, PartFault, Paths, Sides, open_sides};
use crate::storage::Storage;
use base::{DiskFailed, NoMemory};
use outside::{Disk, Side, count_fault};
use std::alloc::Global;
use std::{io, mem};

/// The state of the files.
#[derive(Drop)]
enum State {
    /// No call was made yet, or none since a rest closed the files.
    Fresh,
    Open(Sides),
    /// A call failed, and so does every later one. Files that were open stay so, and locked: children may still run.
    Failed(Option<Sides>),
}

/// A disk over the files `store_a` and `store_b` of a folder, which are opened or made at the first call, with the locks of
/// both. They are held until the object is dropped or rests; the next call after a rest opens and locks them again. It counts
/// its failures, and tells nothing of what it holds. After a failure every later call fails, and a rest closes nothing:
/// what the system then holds of a file may be other than what is on the device.
#[derive(Drop)]
pub struct FileDisk {
    runtime: HostRuntime,
    paths: Paths,
    state: State,
    failures: u64,
    // the first call of the system that failed
    fault: Option<PartFault>,
}

impl FileDisk {
    /// The disk in a folder, whose name is a path of at most one new component. No call of the system is made yet.
    pub fn new(alloc: Global, runtime: HostRuntime, folder: &str) -> Result<FileDisk, NoMemory>
        ensures { IfOk result (λ disk. disk.failures ≡ 0) }
    {
        Ok(FileDisk {
            runtime,
            paths: Paths::new(alloc, folder)?,
            state: State::Fresh,
            failures: 0,
            fault: None,
        })
    }

    /// The path and the cause of the first call of the system that failed.
    pub fn cause(&self) -> Option<(&[u8], Cause)> {
        let fault = self.fault?;
        Some((self.paths.path_of(fault.part).as_bytes(), fault.cause))
    }

    /// Opens the files at the first call, and at the first after a rest.
    fn open(&mut self)
        ensures { self.new.failures ≡ self.old.failures }
    {
        if let State::Fresh = &self.state {
            match open_sides(self.runtime, &self.paths) {
                Ok(sides) => self.state = State::Open(sides),
                Err(fault) => {
                    self.fault = Some(fault);
                    self.state = State::Failed(None);
                }
            }
        }
    }

    /// Lets every later call fail.
    fn fail(&mut self)
        ensures { self.new.failures ≡ self.old.failures }
    {
        self.state = match mem::replace(&mut self.state, State::Fresh) {
            State::Fresh => State::Failed(None),
            State::Open(sides) => State::Failed(Some(sides)),
            State::Failed(kept) => State::Failed(kept),
        };
    }

    /// Keeps why a call failed, if none did before.
    fn note(&mut self, side: Side, cause: Cause)
        ensures { self.new.failures ≡ self.old.failures }
    {
        if self.fault.is_none() {
            self.fault = Some(PartFault {
                part: part_of(side),
                cause,
            });
        }
    }

    /// The answer of a call on a side, with a failure counted.
    fn count_failure<T: Drop>(
        &mut self,
        side: Side,
        call: &'static str,
        answer: io::Result<T>,
    ) -> Result<T, DiskFailed>
        ensures same { IfOk result (λ value. answer ≡ Ok value) }
        ensures cause { DiskCounts result self.old.failures self.new.failures }
    {
        match answer {
            Ok(value) => Ok(value),
            Err(error) => {
                self.note(side, Cause { call, error });
                self.fail();
                self.failures = count_fault(self.failures);
                Err(DiskFailed)
            }
        }
    }
}

/// The part that is a side.
fn part_of(side: Side) -> Part {
    match side {
        Side::A => Part::A,
        Side::B => Part::B,
    }
}

/// The file of a side, if it is open.
fn storage(state: &mut State, side: Side) -> io::Result<&mut Storage> {
    match state {
        State::Open(sides) => match side {
            Side::A => Ok(&mut sides.a),
            Side::B => Ok(&mut sides.b),
        },
        _ => Err(io::ErrorKind::Other.into()),
    }
}

fn len(state: &mut State, side: Side) -> io::Result<u64>
    ensures { IfOk result (λ len. len < 2 ^ 63) }
{
    storage(state, side)?.len()
}

fn read(state: &mut State, side: Side, at: u64, into: &mut [u8]) -> io::Result<()> {
    storage(state, side)?.read(at, into)
}

fn write(state: &mut State, side: Side, at: u64, bytes: &[u8]) -> io::Result<()>
    ensures { OnOk result (at + length bytes.now < 2 ^ 63) }
{
    storage(state, side)?.write(at, bytes)
}

fn cut(state: &mut State, side: Side) -> io::Result<()> {
    storage(state, side)?.cut()
}

fn sync(state: &mut State, side: Side) -> io::Result<()> {
    storage(state, side)?.sync()
}

impl Disk for FileDisk {
    ghost tells = { ⊥ };

    ghost moments = { λ _. nothing_so_far };

    ghost failed_disk_calls = { λ a. a.failures };

    ghost sound = { λ _. nothing_is_sound };

    fn len(&mut self, side: Side) -> Result<u64, DiskFailed> {
        self.open();
        let answer = len(&mut self.state, side);
        self.count_failure(side, "stat", answer)
    }

    fn read(&mut self, side: Side, at: u64, into: &mut [u8]) -> Result<(), DiskFailed> {
        self.open();
        let answer = read(&mut self.state, side, at, into);
        self.count_failure(side, "read", answer)
    }

    fn write(&mut self, side: Side, at: u64, bytes: &[u8]) -> Result<(), DiskFailed> {
        self.open();
        let answer = write(&mut self.state, side, at, bytes);
        self.count_failure(side, "write", answer)
    }

    fn cut(&mut self, side: Side) -> Result<(), DiskFailed> {
        self.open();
        let answer = cut(&mut self.state, side);
        self.count_failure(side, "cut", answer)
    }

    fn sync(&mut self, side: Side) -> Result<(), DiskFailed> {
        self.open();
        let answer = sync(&mut self.state, side);
        self.count_failure(side, "sync", answer)
    }

    fn rest(&mut self) {
        if let State::Open(_) = &self.state {
            self.state = State::Fresh;
        }
    }
}
