// Literals over variables or objects: what they say, and what follows from a set of them.
#![tactic(auto)]

pub mod literal;
pub mod renamed;
pub mod set;

pub use literal::{Fact, Literal, LiteralKind, NoSuchKind};
pub use renamed::Renamed;
pub use set::{contradictory, follows};
