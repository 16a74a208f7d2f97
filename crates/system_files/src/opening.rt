//! The two files, opened or made.

use crate::storage::Storage;
use crate::{Cause, name_cause};
use std::alloc::{AllocError, Global};
use std::fs::{File, OpenOptions, TryLockError};
use std::io::ErrorKind;
use std::os::fd::AsRawFd;
use std::os::unix::fs::MetadataExt;
use std::{fs, io};

/// The names of the files of a disk.
pub const STORE_NAMES: [&str; 2] = ["store_a", "store_b"];

/// The files of a disk, in one folder.
#[derive(Drop)]
pub struct Paths {
    folder: String,
    a: String,
    b: String,
}

impl Paths {
    /// The paths of the files of a disk in this folder. No file is opened or made.
    pub fn new(alloc: Global, folder: &str) -> Result<Paths, AllocError> {
        Ok(Paths {
            folder: String::from_str(alloc, folder)?,
            a: in_folder(alloc, folder, STORE_NAMES[0])?,
            b: in_folder(alloc, folder, STORE_NAMES[1])?,
        })
    }

    /// The path of a file of the disk, of their folder, or of the folder around that.
    pub fn path_of(&self, part: Part) -> &str {
        match part {
            Part::Around => folder_of(self.folder.as_str()),
            Part::Folder => self.folder.as_str(),
            Part::A => self.a.as_str(),
            Part::B => self.b.as_str(),
        }
    }
}

/// What a call was of.
#[derive(Clone, Copy)]
pub enum Part {
    /// The folder that the folder of the files is in.
    Around,
    /// The folder of the files.
    Folder,
    /// The file of side A.
    A,
    /// The file of side B.
    B,
}

/// A call that failed.
#[derive(Clone, Copy)]
pub struct PartFault {
    pub part: Part,
    pub cause: Cause,
}

fn in_folder(alloc: Global, folder: &str, name: &str) -> Result<String, AllocError> {
    let mut path = String::from_str(alloc, folder)?;
    path.push('/')?;
    path.push_str(name)?;
    Ok(path)
}

/// The open files of both sides.
#[derive(Drop)]
pub struct Sides {
    pub a: Storage,
    pub b: Storage,
}

/// An open file, and whether this opening made it.
#[derive(Drop)]
struct Opened {
    file: File,
    is_new: bool,
}

/// Opens both files, and makes the missing ones. Each file is locked right after it is opened, the first one before the second
/// one is opened. The locks are held until the files are closed.
pub fn open_sides(runtime: HostRuntime, paths: &Paths) -> Result<Sides, PartFault> {
    let folder = paths.folder.as_str();
    of(Part::Folder, "make", make_folder(runtime, folder))?;
    let a = of(Part::A, "open", open_side(runtime, paths.a.as_str()))?;
    of(Part::A, "lock", lock(&a.file))?;
    of(
        Part::A,
        "open",
        test_named(runtime, &a.file, paths.a.as_str()),
    )?;
    let b = of(Part::B, "open", open_side(runtime, paths.b.as_str()))?;
    of(Part::B, "lock", lock(&b.file))?;
    of(
        Part::B,
        "open",
        test_named(runtime, &b.file, paths.b.as_str()),
    )?;
    if of(Part::B, "stat", is_to_be_named(&a, &b))? {
        of(Part::Folder, "sync", sync_folder(runtime, folder))?;
        of(
            Part::Around,
            "sync",
            sync_folder(runtime, folder_of(folder)),
        )?;
    }
    Ok(Sides {
        a: Storage::new(a.file),
        b: Storage::new(b.file),
    })
}

/// The answer of a call, which was of this part.
fn of<T: Drop>(part: Part, call: &'static str, answer: io::Result<T>) -> Result<T, PartFault> {
    match name_cause(call, answer) {
        Ok(value) => Ok(value),
        Err(cause) => Err(PartFault { part, cause }),
    }
}

fn lock(file: &File) -> io::Result<()> {
    match file.try_lock() {
        Ok(()) => Ok(()),
        Err(TryLockError::WouldBlock) => Err(io::Error::new(
            ErrorKind::WouldBlock,
            "another run has locked it",
        )),
        Err(TryLockError::Error(error)) => Err(error),
    }
}

/// Makes the folder if nothing has its name. A link to a folder is one.
fn make_folder(runtime: HostRuntime, folder: &str) -> io::Result<()> {
    match fs::create_dir(&runtime, folder) {
        Err(error) if error.kind() != ErrorKind::AlreadyExists => Err(error),
        _ => Ok(()),
    }
}

/// Opens a file for reading and writing, or makes it. Nothing is opened at the name of a link, a folder or a device.
fn open_side(runtime: HostRuntime, path: &str) -> io::Result<Opened> {
    let mut opened = open_or_make(runtime, path)?;
    // Output for a standard stream that was closed must not get into the store.
    if opened.file.as_raw_fd() <= 2 {
        opened.file = opened.file.try_clone()?;
    }
    Ok(opened)
}

fn open_or_make(runtime: HostRuntime, path: &str) -> io::Result<Opened> {
    match OpenOptions::new()
        .read(true)
        .write(true)
        .create_new(true)
        .open(&runtime, path)
    {
        Ok(file) => Ok(Opened { file, is_new: true }),
        Err(error) if error.kind() == ErrorKind::AlreadyExists => open_there(runtime, path),
        Err(error) => Err(error),
    }
}

fn open_there(runtime: HostRuntime, path: &str) -> io::Result<Opened> {
    if !fs::symlink_metadata(&runtime, path)?.is_file() {
        return Err(not_a_file());
    }
    let file = OpenOptions::new()
        .read(true)
        .write(true)
        .open(&runtime, path)?;
    Ok(Opened {
        file,
        is_new: false,
    })
}

/// Fails unless the open file is the regular file of this name, and has no other name. The file of the name may have been
/// replaced since, and another name of the file may be that of the other side.
fn test_named(runtime: HostRuntime, file: &File, path: &str) -> io::Result<()> {
    let found = file.metadata()?;
    let named = fs::symlink_metadata(&runtime, path)?;
    let is_named = found.dev() == named.dev() && found.ino() == named.ino();
    if !is_named || !found.is_file() || found.nlink() != 1 {
        return Err(not_a_file());
    }
    Ok(())
}

fn not_a_file() -> io::Error {
    io::Error::new(
        ErrorKind::Unsupported,
        "it isn't a regular file with one name",
    )
}

/// Whether the names of the files may not be on the device yet: a file was made, or nothing was ever written.
fn is_to_be_named(a: &Opened, b: &Opened) -> io::Result<bool> {
    if a.is_new || b.is_new {
        return Ok(true);
    }
    Ok(a.file.metadata()?.len() == 0 && b.file.metadata()?.len() == 0)
}

fn sync_folder(runtime: HostRuntime, folder: &str) -> io::Result<()> {
    File::open(&runtime, folder)?.sync_all()
}

/// The folder that a path is in.
fn folder_of(path: &str) -> &str {
    match path.rsplit_once('/') {
        Some(("", _)) => "/",
        Some((folder, _)) => folder,
        None => ".",
    }
}
