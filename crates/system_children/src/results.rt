//! Where a child leaves its results: the path is cleared before it starts, and read after its end.

ghost use Rattle.std.specs.Prelude.{◌<◌, length, IfOk};
ghost use Rattle.outside.specs.Children.{IsShort, AnswersPath};

use crate::child::utf8;
use base::{MaybeText, RESULTS_LIMIT};
use outside::ReadEnd;
use std::alloc::Global;
use std::fs::Files;
use std::io::ErrorKind;
use std::{fs, io};
use system_files::{IoFault, read_regular_file};

/// Makes the folder of a results path, and clears the path: a folder there is moved aside, and anything else is removed. What
/// an earlier child left in the way blocks no later one.
pub fn clear_results(
    files: &impl Files,
    alloc: Global,
    results: &MaybeText,
) -> Result<(), IoFault> {
    let MaybeText::Given(path) = results else {
        return Ok(());
    };
    let path = utf8(path)?;
    if let Some((folder, _)) = path.rsplit_once('/') {
        make_folder(files, alloc, folder)?;
    }
    match fs::remove_file(files, path) {
        Ok(()) => Ok(()),
        Err(error) if error.kind() == ErrorKind::NotFound => Ok(()),
        Err(_) if is_folder(files, path) => move_aside(files, alloc, path),
        Err(error) => Err(IoFault::of("remove its old results", error)),
    }
}

/// Makes a folder, and the folders above it. If something else is in the way, it is moved aside.
fn make_folder(files: &impl Files, alloc: Global, folder: &str) -> Result<(), IoFault> {
    match fs::create_dir_all(files, folder) {
        Ok(()) => return Ok(()),
        Err(error) if is_blocked(&error) => clear_way(files, alloc, folder)?,
        Err(error) => return Err(IoFault::of("make the folder of its results", error)),
    }
    match fs::create_dir_all(files, folder) {
        Ok(()) => Ok(()),
        Err(error) => Err(IoFault::of("make the folder of its results", error)),
    }
}

/// Whether an error says that something else is in the way of a folder.
fn is_blocked(error: &io::Error) -> bool {
    matches!(
        error.kind(),
        ErrorKind::AlreadyExists | ErrorKind::NotADirectory
    )
}

/// Moves aside what isn't a folder on the way to a folder. The first component of the way stays.
fn clear_way(files: &impl Files, alloc: Global, folder: &str) -> Result<(), IoFault> {
    let mut way = folder;
    for _ in 0..u64::MAX {
        let Some((above, _)) = way.rsplit_once('/') else {
            return Ok(());
        };
        if fs::symlink_metadata(files, way).is_ok() {
            if is_folder(files, way) {
                return Ok(());
            }
            return move_aside(files, alloc, way);
        }
        way = above;
    }
    Ok(())
}

/// Whether a path is that of a folder or of a link to one.
fn is_folder(files: &impl Files, path: &str) -> bool {
    match fs::metadata(files, path) {
        Ok(data) => data.is_dir(),
        Err(_) => false,
    }
}

/// Gives what lies at a path a new name in the same folder: `vunit_old_` and the first number that is free.
fn move_aside(files: &impl Files, alloc: Global, path: &str) -> Result<(), IoFault> {
    let folder = match path.rsplit_once('/') {
        Some((folder, _)) => folder,
        None => ".",
    };
    for number in 0..u32::MAX {
        let aside = format!(in alloc; "{folder}/vunit_old_{number}")?;
        if fs::symlink_metadata(files, aside.as_str()).is_err() {
            return match fs::rename(files, path, aside.as_str()) {
                Ok(()) => Ok(()),
                Err(error) => Err(IoFault::of("move aside what is at its results", error)),
            };
        }
    }
    Err(IoFault::own_fault("move aside what is at its results", "no name is left"))
}

/// The results that lie at the path, if they are there in a regular file and aren't too long.
pub fn take_results(
    files: &impl Files,
    buffer: &mut [u8],
    alloc: Global,
    results: MaybeText,
) -> Result<MaybeText, IoFault>
    requires { 0 < length buffer.old }
    ensures size { IfOk result (IsShort RESULTS_LIMIT) }
    ensures named { IfOk result (AnswersPath results) }
{
    let MaybeText::Given(path) = results else {
        return Ok(MaybeText::Nothing);
    };
    match read_regular_file(files, buffer, alloc, path.bytes(), RESULTS_LIMIT as u64)? {
        ReadEnd::Got(text) => Ok(MaybeText::Given(text)),
        ReadEnd::Absent | ReadEnd::TooLong => Ok(MaybeText::Nothing),
    }
}
