//! Reading to an end or to a limit, and what a failed call of the system means.

ghost use Rattle.std.specs.Prelude.{◌≡◌, ◌≢◌, ◌<◌, ◌≤◌, length, take, IfOk, OnOk, OnErr};
ghost use Rattle.std.specs.Io.KnownBytes.{Consumes, Keeps, IsAtEnd};
ghost use Rattle.std.specs.IoError.{error_kind};
ghost use Rattle.std.specs.declared.io.ErrorKind.TheVariants.{OutOfMemory};
ghost use Rattle.system_files.specs.Faults.{IsFailed};
ghost use Rattle.outside.specs.Streams.{IsTaken};
ghost use Rattle.system_files.specs.Prefixes.{IsPrefix};
ghost use Rattle.system_files.specs.Takes.{IsTakenOf};
ghost use Rattle.system_files.specs.declared.reading.IoFault.TheVariants.{NoMemory};

use crate::Cause;
use base::{NoMemory, Text};
use outside::TakeEnd;
use std::alloc::{AllocError, AllocFailed, Global};
use std::io;
use std::io::{ErrorKind, Read};

/// Why a call of the system gave nothing.
#[derive(Clone, Copy)]
pub enum IoFault {
    /// There was no memory for it.
    NoMemory,
    /// Anything else that the system says, and what it isn't asked for, such as a path that isn't UTF-8.
    Failed(Cause),
}

impl IoFault {
    /// What it means that the system answered a call with this error.
    pub fn of(call: &'static str, error: io::Error) -> IoFault
        ensures no_memory { error_kind error ≡ OutOfMemory → result ≡ IoFault.NoMemory }
        ensures failed { error_kind error ≢ OutOfMemory → IsFailed result }
    {
        if error.kind() == ErrorKind::OutOfMemory {
            IoFault::NoMemory
        } else {
            IoFault::Failed(Cause { call, error })
        }
    }

    /// A call that gives nothing for a reason of the program's own.
    pub fn own_fault(call: &'static str, why: &str) -> IoFault
        ensures { IsFailed result }
    {
        let error = io::Error::other(why);
        IoFault::Failed(Cause { call, error })
    }
}

impl From<AllocError> for IoFault {
    ghost from_gives = { λ _ fault. fault ≡ NoMemory };

    fn from(_: AllocError) -> IoFault {
        IoFault::NoMemory
    }
}

impl<T: Drop> From<AllocFailed<T>> for IoFault {
    ghost from_gives = { λ _ fault. fault ≡ NoMemory };

    fn from(_: AllocFailed<T>) -> IoFault {
        IoFault::NoMemory
    }
}

impl From<NoMemory> for IoFault {
    ghost from_gives = { λ _ fault. fault ≡ NoMemory };

    fn from(_: NoMemory) -> IoFault {
        IoFault::NoMemory
    }
}

/// The first bytes that a reader gave, and whether it gave more than were to be kept.
#[derive(Drop)]
pub struct Prefix {
    /// The bytes, of which there are at most as many as were to be kept.
    pub kept: Vec<u8>,
    /// Whether the reader gave more.
    pub more: bool,
}

/// Reads to the end, or until there are more than `limit` bytes, and keeps at most these. The buffer is what one read
/// takes at most.
pub fn read_prefix<R: Read>(
    reader: &mut R,
    buffer: &mut [u8],
    alloc: Global,
    limit: u64,
) -> Result<Prefix, IoFault>
    requires { 0 < length buffer.old }
    ensures size { IfOk result (λ prefix. length prefix.kept.items ≤ limit) }
    ensures prefix { IfOk result (λ prefix.
        IsPrefix limit (R.remaining reader.old) prefix.kept.items prefix.more) }
{
    let most = limit as usize;
    let mut kept = Vec::new(alloc);
    for _ in 0..u64::MAX {
        let count = read_some(reader, buffer)?;
        let room = most - kept.len();
        if count > room {
            kept.extend_from_slice(&buffer[..room])?;
            return Ok(Prefix { kept, more: true });
        }
        if count == 0 {
            return Ok(Prefix { kept, more: false });
        }
        kept.extend_from_slice(&buffer[..count])?;
    }
    Err(IoFault::own_fault("read", "it has no end"))
}

/// Reads to the end and keeps nothing. The buffer is what one read takes at most.
pub fn drain<R: Read>(reader: &mut R, buffer: &mut [u8]) -> Result<(), IoFault>
    requires { 0 < length buffer.old }
    ensures { OnOk result (IsAtEnd (R.remaining reader.new)) }
{
    for _ in 0..u64::MAX {
        if read_some(reader, buffer)? == 0 {
            return Ok(());
        }
    }
    Err(IoFault::own_fault("read", "it has no end"))
}

/// One read, tried again where a signal interrupts it. 0 is the end.
pub(crate) fn read_some<R: Read>(reader: &mut R, buffer: &mut [u8]) -> Result<usize, IoFault>
    ensures bound { IfOk result (λ count. count ≤ length buffer.new) }
    ensures given { IfOk result (λ count.
        Consumes (R.remaining reader.old) (R.remaining reader.new) (take count buffer.new)) }
    ensures end { IfOk result (λ count.
        count ≡ 0 → 0 < length buffer.old → IsAtEnd (R.remaining reader.new)) }
    ensures err { OnErr result (Keeps (R.remaining reader.old) (R.remaining reader.new)) }
{
    for _ in 0..u64::MAX {
        match reader.read(buffer) {
            Ok(count) => return Ok(count),
            Err(error) if error.kind() == ErrorKind::Interrupted => {}
            Err(error) => return Err(IoFault::of("read", error)),
        }
    }
    Err(IoFault::own_fault("read", "it has no end"))
}

/// The input to its end. What is past the limit is read too, so that whoever writes it can end.
pub(crate) fn take_whole<R: Read>(
    reader: &mut R,
    buffer: &mut [u8],
    alloc: Global,
    limit: u64,
) -> Result<TakeEnd, IoFault>
    requires { 0 < length buffer.old }
    ensures size { IfOk result (IsTaken limit) }
    ensures input { IfOk result (IsTakenOf limit (R.remaining reader.old)) }
{
    let prefix = read_prefix(reader, buffer, alloc, limit)?;
    if prefix.more {
        drain(reader, buffer)?;
        return Ok(TakeEnd::TooLong);
    }
    Ok(TakeEnd::Got(Text::from_vec(prefix.kept)))
}
