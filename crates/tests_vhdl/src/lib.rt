//! Tests of the scanner: tokens, outlines and references.
//! Tests of the way from scans to a graph and to tests: visible libraries, links, orders, graphs, benches and their patterns.
#![tactic(auto)]

#[cfg(test)]
mod tests;
