// A pattern kind that is of either of two kinds.
#![tactic(auto)]

pub mod kind;
pub mod sum;

pub use sum::Either;
