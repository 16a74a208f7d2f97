//! Tests of what is read of a project: words, project files and sources.
#![tactic(auto)]

#[cfg(test)]
mod tests;
