//! The unsaved texts of a session: which ones there are, and the tree of files in which they count in place of saved
//! files. It does not read commands, and changes no file.
#![tactic(auto)]

mod laws;
mod listing;
mod overlay;
mod overlay_paths;
mod texts;

pub use laws::{examples_of_texts, laws_of_overlays, laws_of_texts};
pub use overlay::Overlay;
pub use overlay_paths::is_overlay_path;
pub use texts::Overlays;
