//! The keys by which design units are found.
//! The design units of a VHDL text, and the roles and names of its tokens.
#![tactic(auto)]

mod class;
mod delimiters;
mod ends;
mod file;
mod level;
mod names;
mod regions;
mod stands;
mod texts;
mod units;
mod view;

pub use ends::role_at;
pub use file::outline;
pub use names::{order_of_names, owner_name};
pub use texts::{name_of_token, token_has_name};
pub use units::{UnitKey, unit_key};
pub use view::{is_named, name_of, token_of};
