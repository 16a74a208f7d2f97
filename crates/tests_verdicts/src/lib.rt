//! Tests of runs of tests over children in memory.
#![tactic(auto)]

#[cfg(test)]
mod asked;
#[cfg(test)]
mod lines;
#[cfg(test)]
mod objects;
#[cfg(test)]
mod over;
#[cfg(test)]
mod plain;
#[cfg(test)]
mod results;
#[cfg(test)]
mod rows;
#[cfg(test)]
mod seeded;
#[cfg(test)]
mod stops;
#[cfg(test)]
mod way;
