// The verdict on a file, and the line that reports it.
#![tactic(auto)]

pub mod verdict;
mod writing;

pub use verdict::{LineRefusal, NoLine, Verdict};
