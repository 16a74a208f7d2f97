//! The tokens of a VHDL text.
#![tactic(auto)]

mod class;
mod ends;
mod lexical_element;
mod reserved;
mod roles;
mod scan;
mod stops;

pub use reserved::{is_reserved, reserved_number};
pub use roles::role_of;
pub use scan::{no_tokens, scan_with_roles};
