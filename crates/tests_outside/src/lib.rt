//! Tests of sets, tables and bytes, which know nothing of the program.
//! Tests of the disk, the tree, the children and the reading below them, and of reports, over real files and real programs.
//! Tests of the children that are part of the program, and of their requests.
//! Tests of the texts that the program prints and the reports that it writes about a run.
#![tactic(auto)]

#[cfg(test)]
mod bench_requests;
#[cfg(test)]
mod benches;
#[cfg(test)]
mod bytes;
#[cfg(test)]
mod compile_requests;
#[cfg(test)]
mod disks;
#[cfg(test)]
mod files;
#[cfg(test)]
mod fingerprint_index;
#[cfg(test)]
mod lines;
#[cfg(test)]
mod lists;
#[cfg(test)]
mod name_set;
#[cfg(test)]
mod numbering;
#[cfg(test)]
mod ordered_keys;
#[cfg(test)]
mod position_set;
#[cfg(test)]
mod reports;
#[cfg(test)]
mod requests;
#[cfg(test)]
mod tested;
#[cfg(test)]
mod tests;
#[cfg(test)]
mod text_index;
#[cfg(test)]
mod texts;
#[cfg(test)]
mod verdicts;
