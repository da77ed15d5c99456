// The judge of dossiers over any pattern kind, and the model that an accepted one gives.
#![tactic(auto)]

pub mod calls;
mod judging;
pub mod model;
pub mod table;

pub use calls::{Call, Rejected};
pub use judging::judge;
pub use model::Model;
pub use table::{Entry, TableGround, TableRefusal};
