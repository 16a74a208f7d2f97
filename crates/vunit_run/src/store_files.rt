//! The files of the store.

use system_files::{OUTPUT_FOLDER, ProtectedFiles, STORE_NAMES};

/// The store, which no report may take the location of.
pub static STORE: ProtectedFiles = ProtectedFiles {
    folder: OUTPUT_FOLDER,
    names: STORE_NAMES,
};

/// The paths of its files.
pub const STORE_PATHS: [&str; 2] = ["vunit_out/store_a", "vunit_out/store_b"];
