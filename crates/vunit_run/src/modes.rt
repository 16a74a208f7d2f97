//! What a run is to do, as far as standard error goes by it.

use base::{MaybeText, TextList};
use vunit_arguments::Setting;

/// The mode of a run.
#[derive(Clone, Copy)]
pub struct Mode {
    /// Whether a project is generated.
    pub is_generated: bool,
    /// Whether files are compiled.
    pub is_build: bool,
    /// Whether tests are run.
    pub is_run: bool,
    /// Whether patterns of tests count.
    pub looks_for_tests: bool,
}

impl Mode {
    /// The mode of a setting: of several the first that the manual names.
    pub fn of(setting: &Setting) -> Mode {
        let is_generated = setting.generate > 0;
        let is_listed = setting.list || is_given(&setting.export_json);
        let is_shown = is_listed || setting.files;
        let is_build = !is_generated && !is_shown;
        let is_run = is_build && !setting.compile;
        Mode {
            is_generated,
            is_build,
            is_run,
            looks_for_tests: !is_generated && (is_listed || is_run || setting.minimal),
        }
    }
}

/// Whether the program was started as a compiler or a simulator, which tells nothing more.
pub fn is_child(words: &TextList) -> bool {
    match words.as_slice().first() {
        Some(word) => {
            word.bytes() == b"child-analyse".as_slice() || word.bytes() == b"child-bench".as_slice()
        }
        None => false,
    }
}

fn is_given(path: &MaybeText) -> bool {
    match path {
        MaybeText::Given(_) => true,
        MaybeText::Nothing => false,
    }
}
