//! Lines for standard error once a run has ended, beside its output:
//!
//! - The name that was probably meant.
//! - The keys of a project file in TOML, with their locations; unknown keys and wrong values.
//! - The locations of the units and references that a refusal is about. Tokens alone are enough to find them, since the
//!   refusal has already named the file and the unit.
//! - Warnings, and causes of refusals, for which the sources are read once more.
#![tactic(auto)]

mod clauses;
mod cycles;
mod ends;
mod hint_words;
mod keys;
mod known;
mod line;
mod links;
mod location_words;
mod locations;
mod matching;
mod missing;
mod nearest;
mod options;
mod patterns;
mod project;
mod refusals;
mod tests_of;
mod texts;
mod values;
mod warnings;
mod wrong;

pub use clauses::{Mention, declared_units, reference_at, unit_at, unresolved};
pub use ends::{push_child_said, push_counts, push_failed};
pub use hint_words::push_words;
pub use keys::{FoundKey, KeyList, TableKind, keys_of};
pub use known::{UnknownKey, UnknownKeys, unknown_keys};
pub use line::{LineWriter, push_about, push_line, push_warning};
pub use links::push_linked_folders;
pub use location_words::{Word, words_of};
pub use matching::{Pattern, is_matched, patterns_of};
pub use nearest::nearest_name;
pub use patterns::push_pattern_cause;
pub use project::{ProjectText, project_text};
pub use refusals::push_source_locations;
pub use tests_of::{push_unmatched, read_again};
pub use texts::text_of;
pub use values::{TomlFault, key_of, shown_value, toml_fault};
pub use warnings::{push_no_test, push_own_compiler, push_own_simulator, push_unread};
