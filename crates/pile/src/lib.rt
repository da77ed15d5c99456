// A pattern kind under the observers of a dossier: none, one, or two, one over the other.
#![tactic(auto)]

mod piling;

pub use piling::{Piled, pile};
