//! Files that no report may take the place of.

use std::os::unix::fs::MetadataExt;
use std::{fs, io};

/// Files of a folder that no report is written to, whatever path leads there.
#[derive(Clone, Copy)]
pub struct ProtectedFiles {
    pub folder: &'static str,
    pub names: [&'static str; 2],
}

impl ProtectedFiles {
    /// Fails where a path leads to one of the files, or would lead there if it were made.
    pub fn test(&self, runtime: HostRuntime, path: &str) -> io::Result<()> {
        for name in self.names {
            let file = format!(in runtime.alloc(); "{}/{}", self.folder, name)?;
            let is_there = is_same(runtime, path, file.as_str());
            let is_beside = is_same(runtime, folder_of(path), self.folder);
            if is_there || is_beside && name_of(path) == name {
                return Err(io::Error::other("it is a file of the store"));
            }
        }
        Ok(())
    }
}

/// Whether two paths lead to one file or folder, which is there.
fn is_same(runtime: HostRuntime, one: &str, other: &str) -> bool {
    match (fs::metadata(&runtime, one), fs::metadata(&runtime, other)) {
        (Ok(one), Ok(other)) => one.dev() == other.dev() && one.ino() == other.ino(),
        _ => false,
    }
}

/// The folder that a path is in.
pub fn folder_of(path: &str) -> &str {
    match path.rsplit_once('/') {
        Some(("", _)) => "/",
        Some((folder, _)) => folder,
        None => ".",
    }
}

/// The last part of a path.
fn name_of(path: &str) -> &str {
    match path.rsplit_once('/') {
        Some((_, name)) => name,
        None => path,
    }
}
