//! Laws of linking, as functions with empty bodies: a caller cites one by calling it.

ghost use Rattle.std.specs.Prelude.{◌≤◌, List, length};
ghost use Rattle.base.specs.declared.project.Project.{Project};
ghost use Rattle.vhdl_spec.specs.Dependencies.{LinkUnit, edges_of};
ghost use Rattle.order.specs.BuildOrder.{AreEdges};

use base::FILE_LIMIT;

/// What files depend on, by their units, makes edges: they rise, lead to files of the project, and never from a file to
/// itself.
pub fn laws_of_links()
    ensures { (project : Project) (units : List LinkUnit) → length project.files ≤ FILE_LIMIT →
        AreEdges (edges_of project units) }
{}
