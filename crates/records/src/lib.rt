// The records of a file: their kinds, their order, their bodies as they stand in the file, the fields
// of a body, and what can be at fault.
#![tactic(auto)]

mod each;
pub mod fault;
mod field;
pub mod head;
pub mod record;
pub mod section;

pub use each::read_each;
pub use fault::{DossierFault, FieldFault, FormFault, FormGround, LiteralFault, RecordFault};
pub use field::{read_mode, read_modes, read_words};
pub use head::{BookKind, Books, NoSuchBook, Observers, TooManyObservers};
pub use record::{Body, NoSuchRecord, Record, RecordKind, take_record};
pub use section::Section;
