//! The tests, and what they share.

mod benches;
mod cuts;
mod edges;
mod graphs;
mod libraries;
mod links;
mod orders;
mod outlines;
mod patterns;
mod projects;
mod references;
mod tables;
