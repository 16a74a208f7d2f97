//! A file beside the one that it is to replace.

use crate::{Cause, name_cause};
use std::fs::{File, Metadata, OpenOptions};
use std::io::{ErrorKind, Write};
use std::{fs, io};

/// How many names are tried for the file beside. One that is taken is another run's, or was left by one that was stopped.
const NAMES: u32 = 1000;

/// A new file, and its path.
#[derive(Drop)]
struct Beside {
    path: String,
    file: File,
}

/// Writes bytes to a new file in the folder of a path, and moves the file to the path. The new file gets the permissions of
/// the file that it replaces, if there is one. It is removed if anything fails.
pub fn write_beside(
    runtime: HostRuntime,
    folder: &str,
    path: &str,
    there: Option<Metadata>,
    bytes: &[u8],
) -> Result<(), Cause> {
    let Beside { path: beside, file } = name_cause(
        "make a file beside it",
        make_beside(runtime, folder),
    )?;
    let moved = match name_cause("write", fill(file, there, bytes)) {
        Ok(()) => name_cause("move", fs::rename(&runtime, beside.as_str(), path)),
        Err(cause) => Err(cause),
    };
    if moved.is_err() {
        // The path is unchanged, even if the new file can't be removed.
        let _ = fs::remove_file(&runtime, beside.as_str());
    }
    moved
}

/// A new file in a folder, of the first name that is free. It begins with a dot, and so is listed nowhere.
fn make_beside(runtime: HostRuntime, folder: &str) -> io::Result<Beside> {
    for number in 0..NAMES {
        let path = format!(in runtime.alloc(); "{folder}/.vunit_report_{number}")?;
        match make_new(runtime, path.as_str()) {
            Ok(file) => return Ok(Beside { path, file }),
            Err(error) if error.kind() == ErrorKind::AlreadyExists => {}
            Err(error) => return Err(error),
        }
    }
    Err(ErrorKind::AlreadyExists.into())
}

fn make_new(runtime: HostRuntime, path: &str) -> io::Result<File> {
    OpenOptions::new()
        .write(true)
        .create_new(true)
        .open(&runtime, path)
}

/// Writes all bytes to a new file, syncs it to the device and closes it.
fn fill(mut file: File, there: Option<Metadata>, bytes: &[u8]) -> io::Result<()> {
    if let Some(there) = there {
        file.set_permissions(there.permissions())?;
    }
    file.write_all(bytes)?;
    file.sync_all()
}
