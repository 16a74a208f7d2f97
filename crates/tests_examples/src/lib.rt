//! Worked examples that compute, to which DEFINITIONS.md leads: a function with an empty body for each subject.
#![tactic(auto)]

mod chapters;
