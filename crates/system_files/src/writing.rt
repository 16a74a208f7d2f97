//! A report on its way to its path.

use crate::beside::write_beside;
use crate::kind::{LOOKED_AT, kind_of};
use crate::protected_files::{ProtectedFiles, folder_of};
use crate::{Cause, name_cause};
use libc::net::{POLLERR, POLLOUT, poll};
use libc::types::pollfd;
use std::fs::{File, Metadata, OpenOptions};
use std::io::{ErrorKind, Read, Write};
use std::os::fd::AsRawFd;
use std::os::unix::fs::FileTypeExt;
use std::{fs, io, str};

/// The bytes that one read takes at most.
const CHUNK: usize = 65_536;

/// Writes a report. It depends on what is at its path:
///
/// - If nothing is there, or an empty file or a report of the same kind, the report is written beside it and moved into place. A
///   reader never sees a part of it. Missing folders are made.
/// - Any other regular file is kept, and so are protected files: the call fails.
/// - A pipe is written in place if somebody reads it. Otherwise the call fails.
/// - Anything else, such as a device, is written in place.
pub fn write_report(
    runtime: HostRuntime,
    path: &[u8],
    bytes: &[u8],
    protected: ProtectedFiles,
) -> Result<(), Cause> {
    let Ok(path) = str::from_utf8(path) else {
        return name_cause("open", Err(io::Error::other("the path isn't UTF-8")));
    };
    name_cause("write", protected.test(runtime, path))?;
    match fs::metadata(&runtime, path) {
        Ok(found) if found.is_file() => replace(runtime, path, bytes),
        Ok(found) if found.file_type().is_fifo() => name_cause(
            "write",
            write_pipe(runtime, path, bytes),
        ),
        Ok(_) => name_cause("write", write_over(runtime, path, bytes)),
        Err(error) if error.kind() == ErrorKind::NotFound => make(runtime, path, bytes, protected),
        Err(error) => name_cause("stat", Err(error)),
    }
}

/// Writes a new file, and makes the folders that it is in.
fn make(
    runtime: HostRuntime,
    path: &str,
    bytes: &[u8],
    protected: ProtectedFiles,
) -> Result<(), Cause> {
    let folder = folder_of(path);
    name_cause("make its folder", fs::create_dir_all(&runtime, folder))?;
    if let Err(cause) = name_cause("write", protected.test(runtime, path)) {
        // This is the folder of the protected files, which did not exist before.
        let _ = fs::remove_dir(&runtime, protected.folder);
        return Err(cause);
    }
    write_beside(runtime, folder, path, None, bytes)
}

/// Writes a file in place of one that is there, may be written, and is empty or a report of the same kind. The new one has the
/// permissions of the old one. Where the path is that of a link, the file that it leads to is replaced, and the link stays.
fn replace(runtime: HostRuntime, path: &str, bytes: &[u8]) -> Result<(), Cause> {
    let there = name_cause("open", writable(runtime, path))?;
    name_cause("replace it", test_kind(runtime, path, bytes))?;
    if !name_cause("stat", fs::symlink_metadata(&runtime, path))?.is_symlink() {
        return write_beside(runtime, folder_of(path), path, Some(there), bytes);
    }
    let target = name_cause("follow the link", fs::canonicalize(&runtime, path))?;
    let target = target.as_str();
    write_beside(runtime, folder_of(target), target, Some(there), bytes)
}

/// Fails if a regular file is neither empty nor a report of the kind that these bytes have.
fn test_kind(runtime: HostRuntime, path: &str, bytes: &[u8]) -> io::Result<()> {
    let found = begin_of(runtime, path)?;
    let is_same = match kind_of(bytes) {
        Some(kind) => kind_of(found.as_slice()) == Some(kind),
        None => false,
    };
    if found.is_empty() || is_same {
        return Ok(());
    }
    Err(io::Error::other("the file is not empty and no report of this kind, so it is kept"))
}

/// The bytes that a file begins with, as many as are looked at for its kind.
fn begin_of(runtime: HostRuntime, path: &str) -> io::Result<Vec<u8>> {
    let mut file = fs::open(&runtime, path)?;
    let mut begin = Vec::new(runtime.alloc());
    let mut buffer = vec![in runtime.alloc(); 0; CHUNK]?;
    for _ in 0..u64::MAX {
        let count = match file.read(buffer.as_mut_slice()) {
            Ok(count) => count,
            Err(error) if error.kind() == ErrorKind::Interrupted => continue,
            Err(error) => return Err(error),
        };
        begin.extend_from_slice(&buffer[..count])?;
        if count == 0 || begin.len() >= LOOKED_AT {
            return Ok(begin);
        }
    }
    Ok(begin)
}

/// The metadata of a file, if it may be written.
fn writable(runtime: HostRuntime, path: &str) -> io::Result<Metadata> {
    OpenOptions::new()
        .write(true)
        .open(&runtime, path)?
        .metadata()
}

fn write_over(runtime: HostRuntime, path: &str, bytes: &[u8]) -> io::Result<()> {
    let mut file = OpenOptions::new().write(true).open(&runtime, path)?;
    file.write_all(bytes)?;
    file.flush()
}

/// Writes to a pipe, and fails if nobody reads it. To open a pipe for writing alone would wait for a reader. So the pipe is
/// opened for reading and writing first, which never waits. After that one is closed, the system says whether a reader is left.
fn write_pipe(runtime: HostRuntime, path: &str, bytes: &[u8]) -> io::Result<()> {
    let both = OpenOptions::new()
        .read(true)
        .write(true)
        .open(&runtime, path)?;
    let mut pipe = OpenOptions::new().write(true).open(&runtime, path)?;
    drop(both);
    if !has_reader(&pipe) {
        return Err(io::Error::other("nobody reads this pipe"));
    }
    pipe.write_all(bytes)?;
    pipe.flush()
}

/// Whether somebody has a pipe open to read it.
fn has_reader(pipe: &File) -> bool {
    let mut asked = [pollfd {
        fd: pipe.as_raw_fd(),
        events: POLLOUT,
        revents: 0,
    }];
    let told = poll(&mut asked, 0);
    told >= 0 && asked[0].revents & POLLERR == 0
}
