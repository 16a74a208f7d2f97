//! Tests of builds over a disk and children in memory, and of the slots of a build alone.
#![tactic(auto)]

#[cfg(test)]
mod compare;
#[cfg(test)]
mod kept;
#[cfg(test)]
mod objects;
#[cfg(test)]
mod parts;
pub mod picks;
#[cfg(test)]
mod plain;
#[cfg(test)]
mod rows;
#[cfg(test)]
mod seeded;
#[cfg(test)]
mod sets;
#[cfg(test)]
mod shapes;
#[cfg(test)]
mod slots;
#[cfg(test)]
mod stops;
