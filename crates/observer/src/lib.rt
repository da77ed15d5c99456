// Observers: small automata that move at each firing, over any pattern kind.
#![tactic(auto)]

pub mod kind;
pub mod mode;
pub mod observed;
mod over;

pub use mode::{Mode, NoSuchMode, ObserverRow};
pub use observed::{NotObserved, Observer, ObserverRefusal};
