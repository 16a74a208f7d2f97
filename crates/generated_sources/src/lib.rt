//! Laws of the files of the generated project: what a scanner finds in the file of each package, and what the package
//! refers to. Nothing here runs.
//! Laws of the generated project as a linked one. Nothing here runs.
//! Laws of the listing of the generated project, and of the project that its project file says. Nothing here runs.
#![tactic(auto)]

mod link_laws;
mod listing_laws;
mod text_laws;

pub use link_laws::laws_of_links;
pub use listing_laws::laws_of_listings;
pub use text_laws::{
    examples_of_packages, laws_of_bench, laws_of_names, laws_of_references, laws_of_scans,
};
