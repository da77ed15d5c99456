// Steps backwards over books of atoms: the cases of a rule and a row, their earlier patterns, and what covers them.
#![tactic(auto)]

pub mod case;
pub mod earlier;
pub mod effect;
pub mod exactness;
pub mod kind;
pub mod matching;
pub mod naming;
pub mod step;
pub mod system;

pub use earlier::Earlier;
pub use system::AtomSystem;
