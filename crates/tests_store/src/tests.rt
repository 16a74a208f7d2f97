//! The tests, and what they share.

mod changes;
mod compaction;
mod disks;
mod forms;
mod journals;
mod lines;
mod loaded;
mod loaded_payloads;
mod node_fits;
mod node_numbers;
mod node_payloads;
mod node_tables;
mod objects;
mod pass_changes;
mod pass_projects;
mod pass_sides;
mod pass_stops;
mod payloads;
mod random_sides;
mod reports;
mod sides;
mod stops;
mod view_records;
mod visitors;
mod windows;
