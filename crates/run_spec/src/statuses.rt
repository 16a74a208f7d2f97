//! The statuses of files in a build.

use base::{Items, Text};

/// The status of a file in a build.
#[derive(Drop)]
pub enum FileStatus {
    /// Its record is current, so it wasn't compiled.
    Fresh,
    /// The compiler made it in this build.
    Compiled,
    /// The compiler ended with this code, which isn't 0, and printed this.
    Refused { code: u32, output: Text },
    /// A file that it depends on was refused.
    Skipped,
    /// The build ended before it.
    Left,
}

/// The statuses of the files of a build, one for each file, in compile order.
pub type FileStatusList = Items<FileStatus>;
