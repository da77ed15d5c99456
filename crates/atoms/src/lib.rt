// Books of atoms: rules that fire on objects, rows that stand where their variables can be placed.
#![tactic(auto)]

pub mod book;
pub mod calls;
pub mod cells;
pub mod effect;
pub mod fire;
pub mod model;
mod objects;
pub mod place;
pub mod range;

pub use book::{Atom, Book, BookRefusal, Row, Rule};
pub use cells::Cells;
pub use model::Atoms;
