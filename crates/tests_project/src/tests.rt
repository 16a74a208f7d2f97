//! The tests, and what they share.

mod lines;
mod many_files;
mod overlays;
mod projects;
mod random_projects;
mod words;
