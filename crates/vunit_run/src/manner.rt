//! How standard error shows a run while it goes on.

use std::env;
use std::io::IsTerminal;
use system_children::Manner;
use vunit_arguments::Setting;

/// How standard error shows a run: whether it is a terminal, and whether the options ask for quiet.
pub fn manner(rt: &HostRuntime, setting: &Option<Setting>) -> Manner {
    let is_quiet = match setting {
        Some(setting) => setting.quiet,
        None => false,
    };
    Manner {
        is_screen: is_screen(rt),
        is_quiet,
    }
}

/// Whether standard error is a terminal that can write a line over.
fn is_screen(rt: &HostRuntime) -> bool {
    if !rt.stderr().is_terminal() {
        return false;
    }
    match env::var(rt, "TERM") {
        Ok(kind) => kind.as_str() != "dumb" && !kind.as_str().is_empty(),
        Err(_) => false,
    }
}
