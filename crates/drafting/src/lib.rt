// What the records of a file hold, taken record by record.
#![tactic(auto)]

mod allow;
mod book;
pub mod draft;
mod layer;
mod take;

pub use draft::{Draft, DraftBook, Layer, Layers};
