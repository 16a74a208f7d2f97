//! One file, read up to a limit.

ghost use Rattle.std.specs.Prelude.{◌<◌, length, IfOk};
ghost use Rattle.outside.specs.Trees.{FitsReadLimit};

use crate::reading::{IoFault, read_prefix};
use base::Text;
use outside::ReadEnd;
use std::alloc::Global;
use std::fs::{Files, OpenFile, OpenOptions};
use std::io::ErrorKind;
use std::{fs, io};

/// The bytes of the file of a path, where it is there and has at most `limit`. A path that isn't UTF-8 can't be
/// opened, a folder can't be read, and a link may lead nowhere: all fail.
pub fn read_file<R: Files>(
    files: &R,
    buffer: &mut [u8],
    alloc: Global,
    path: &[u8],
    limit: u64,
) -> Result<ReadEnd, IoFault>
    requires { 0 < length buffer.old }
    ensures { IfOk result (FitsReadLimit limit) }
{
    let Ok(path) = str::from_utf8(path) else {
        return Err(IoFault::own_fault("open", "the path isn't UTF-8"));
    };
    match fs::open(files, path) {
        Ok(mut file) => {
            let prefix = read_prefix(&mut file, buffer, alloc, limit)?;
            if prefix.more {
                return Ok(ReadEnd::TooLong);
            }
            Ok(ReadEnd::Got(Text::from_vec(prefix.kept)))
        }
        Err(error) if !means_absent(&error) => Err(IoFault::of("open", error)),
        Err(error) if is_link(files, path) => Err(IoFault::of("follow the link", error)),
        Err(_) => Ok(ReadEnd::Absent),
    }
}

/// Whether a link lies at a path.
fn is_link<R: Files>(files: &R, path: &str) -> bool {
    match fs::symlink_metadata(files, path) {
        Ok(data) => data.is_symlink(),
        Err(_) => false,
    }
}

/// The bytes of the regular file of a path, as `read_file` reads them. Anything else there counts as absent: it isn't
/// opened, so that nothing is waited for. A path that leads in a circle is absent too.
pub fn read_regular_file<R: Files>(
    files: &R,
    buffer: &mut [u8],
    alloc: Global,
    path: &[u8],
    limit: u64,
) -> Result<ReadEnd, IoFault>
    requires { 0 < length buffer.old }
    ensures { IfOk result (FitsReadLimit limit) }
{
    let Ok(path) = str::from_utf8(path) else {
        return Err(IoFault::own_fault("open", "the path isn't UTF-8"));
    };
    let Some(mut file) = open_regular_file(files, path)? else {
        return Ok(ReadEnd::Absent);
    };
    let prefix = read_prefix(&mut file, buffer, alloc, limit)?;
    if prefix.more {
        return Ok(ReadEnd::TooLong);
    }
    Ok(ReadEnd::Got(Text::from_vec(prefix.kept)))
}

/// The regular file of a path. What lies there is looked at before it is opened and once more after. In between it is
/// opened to be written too where it may be, so that a pipe which has taken its place meanwhile isn't waited for.
fn open_regular_file<R: Files>(files: &R, path: &str) -> Result<Option<R::File>, IoFault> {
    match fs::metadata(files, path) {
        Ok(data) if data.is_file() => {}
        Ok(_) => return Ok(None),
        Err(error) if is_no_file(&error) => return Ok(None),
        Err(error) => return Err(IoFault::of("look at it", error)),
    }
    let opened = match OpenOptions::new().read(true).write(true).open(files, path) {
        Err(error) if is_read_only(&error) => fs::open(files, path),
        opened => opened,
    };
    match opened {
        Ok(file) => is_regular(file),
        Err(error) if is_no_file(&error) => Ok(None),
        Err(error) => Err(IoFault::of("open", error)),
    }
}

/// An open file, if it is a regular one.
fn is_regular<F: OpenFile + Drop>(file: F) -> Result<Option<F>, IoFault> {
    match file.metadata() {
        Ok(data) if data.is_file() => Ok(Some(file)),
        Ok(_) => Ok(None),
        Err(error) => Err(IoFault::of("look at it", error)),
    }
}

/// Whether an error says that a file may be read at most.
fn is_read_only(error: &io::Error) -> bool {
    matches!(
        error.kind(),
        ErrorKind::PermissionDenied | ErrorKind::ReadOnlyFilesystem | ErrorKind::ExecutableFileBusy
    )
}

/// Whether an error says that no regular file has a path.
fn is_no_file(error: &io::Error) -> bool {
    means_absent(error)
        || matches!(
            error.kind(),
            ErrorKind::FilesystemLoop | ErrorKind::IsADirectory
        )
}

/// Whether an error says that there is no such file: nothing has its name, one of its folders is a file, or its name
/// is too long for any file.
pub fn means_absent(error: &io::Error) -> bool {
    matches!(
        error.kind(),
        ErrorKind::NotFound | ErrorKind::NotADirectory | ErrorKind::InvalidFilename
    )
}
