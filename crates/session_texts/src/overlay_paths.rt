//! The paths that may have an unsaved text.
ghost use Rattle.std.specs.Prelude.{◌≡◌, IsTrue};
ghost use Rattle.outside.specs.Trees.{IsName};
ghost use Rattle.session_texts.specs.Texts.{is_overlay_path};

use memory_outside::is_listed;
use project_file::is_path;

/// Whether a path may have an unsaved text: whether a project may name it and a tree may list it.
pub fn is_overlay_path(path: &[u8]) -> bool
    ensures is { result ≡ is_overlay_path path.now }
    ensures name { IsTrue result → IsName path.now }
{
    is_path(path) && is_listed(path)
}
