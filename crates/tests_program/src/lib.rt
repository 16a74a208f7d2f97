//! Tests of the generated project.
//! Tests of whole runs over objects in memory: what a stop at any moment leaves for the next run, and what each call that
//! fails does. Two runs, one after the other, of benches and over a compiler that refuses each file.
#![tactic(auto)]

#[cfg(test)]
mod any_runs;
#[cfg(test)]
mod benches;
#[cfg(test)]
mod chains;
#[cfg(test)]
mod coded;
#[cfg(test)]
mod faults;
#[cfg(test)]
mod files;
#[cfg(test)]
mod parts;
#[cfg(test)]
mod records;
#[cfg(test)]
mod rows;
#[cfg(test)]
mod stops;
