// From the bytes of a file to the data of a dossier.
#![tactic(auto)]

mod reading;

// The names that stood at this crate's root when it had drafts, records and faults of its own.
pub use drafting::{Draft, Layer, Layers};
pub use reading::{MAX_BYTES, read};
pub use records::{DossierFault, FormFault, FormGround, Record, RecordKind, Section};
