// From the bytes of a file to a verdict, to the line that reports it, and to a model of the book.
#![tactic(auto)]

mod building;
pub mod kind;
mod opening;
mod reporting;

pub use kind::{FileKind, FileModel};
pub use opening::{NoModel, open};
pub use reporting::{MIN_BUFFER, judge_file, report};
