// Counted books: rules that take and give at places, rows that ask for a least count at each.
#![tactic(auto)]

pub mod counted;
pub mod kind;
pub mod net;

pub use counted::Counts;
pub use net::{Net, NetRefusal, Row, Rule};
