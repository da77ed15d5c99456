ghost use Rattle.std.specs.Prelude.{◌≡◌, Some as Written};
ghost use Rattle.records.specs.Number.{form_ground_number};
ghost use Rattle.records.specs.Fault.{literal_place, form_of, fault_text};
ghost use Rattle.records.specs.declared.fault.RecordFault.TheVariants.{Field as FieldVariant, Literal as LiteralVariant, OutOfMemory as MemoryVariant};
ghost use Rattle.records.specs.declared.fault.DossierFault.TheVariants.{Record as RecordVariant};

use std::alloc::{AllocError, AllocFailed};
use std::fmt;

/// Why a file is not in form.
#[derive(Clone, Copy, PartialEq, Eq, Debug)]
pub enum FormGround {
    /// The file has more than 65,535 bytes.
    TooLong = 1,
    /// A record is cut short, or there is no end.
    CutShort = 2,
    /// A record of this kind is not allowed here, or there are bytes after the end.
    KindNotAllowed = 3,
    /// The body of a record has the wrong length.
    WrongLength = 4,
    /// A number of a body is beyond its range.
    OutOfRange = 5,
}

/// The number by which a ground is reported.
impl From<FormGround> for u8 {
    ghost from_gives = { λ g n. n ≡ form_ground_number g };

    fn from(ground: FormGround) -> u8 {
        ground as u8
    }
}

/// Why a file is not in form, and the first byte of the record at fault.
#[derive(Clone, Copy, PartialEq, Eq, Debug)]
pub struct FormFault {
    pub reason: FormGround,
    pub place: usize,
}

impl fmt::Display for FormFault {
    ghost output = { λ f. Written (fault_text f) };

    fn fmt<W: fmt::Write>(&self, f: &mut fmt::Formatter<W>) -> fmt::Result {
        let ground = u8::from(self.reason);
        let place = self.place;
        write!(f, "{ground} at {place}")
    }
}

/// A number beyond its range, in the record at a place.
#[derive(Clone, Copy, PartialEq, Eq, Debug)]
pub struct FieldFault {
    pub place: usize,
}

/// Which number of a literal is beyond its range, in the record at a place. It travels in the faults of a
/// record and of a dossier, by `From`.
#[derive(Clone, Copy, PartialEq, Eq, Debug)]
pub enum LiteralFault {
    Kind { place: usize },
    Relation { place: usize },
    First { place: usize },
    Second { place: usize },
}

impl LiteralFault {
    /// The place of the record.
    pub fn place(self) -> usize
        ensures { result ≡ literal_place self }
    {
        match self {
            LiteralFault::Kind { place }
            | LiteralFault::Relation { place }
            | LiteralFault::First { place }
            | LiteralFault::Second { place } => place,
        }
    }
}

/// Why a record is not taken.
// `DossierFault::form` reports every fault as a `FormFault`: a fault prints nothing itself.
#[derive(Clone, Copy, PartialEq, Eq, Debug)]
pub enum RecordFault {
    KindNotAllowed { place: usize },
    WrongLength { place: usize },
    Field(FieldFault),
    Literal(LiteralFault),
    OutOfMemory,
}

/// Why a file gives no dossier.
#[derive(Clone, Copy, PartialEq, Eq, Debug)]
pub enum DossierFault {
    TooLong,
    CutShort { place: usize },
    AfterEnd { place: usize },
    Record(RecordFault),
}

impl DossierFault {
    /// The ground and the place; none for want of memory, which is no fault of the file.
    pub fn form(self) -> Option<FormFault>
        ensures { result ≡ form_of self }
    {
        let (ground, place) = match self {
            DossierFault::TooLong => (FormGround::TooLong, 0),
            DossierFault::CutShort { place } => (FormGround::CutShort, place),
            DossierFault::AfterEnd { place } => (FormGround::KindNotAllowed, place),
            DossierFault::Record(RecordFault::KindNotAllowed { place }) => (
                FormGround::KindNotAllowed,
                place,
            ),
            DossierFault::Record(RecordFault::WrongLength { place }) => (
                FormGround::WrongLength,
                place,
            ),
            DossierFault::Record(RecordFault::Field(field)) => (
                FormGround::OutOfRange,
                field.place,
            ),
            DossierFault::Record(RecordFault::Literal(literal)) => (
                FormGround::OutOfRange,
                literal.place(),
            ),
            DossierFault::Record(RecordFault::OutOfMemory) => return None,
        };
        Some(FormFault {
            reason: ground,
            place,
        })
    }
}

// Written out, not derived: the contracts read `from_gives`, which a derived `From` has not.
impl From<FieldFault> for RecordFault {
    ghost from_gives = { λ e r. r ≡ FieldVariant e };

    fn from(fault: FieldFault) -> RecordFault {
        RecordFault::Field(fault)
    }
}

impl From<LiteralFault> for RecordFault {
    ghost from_gives = { λ e r. r ≡ LiteralVariant e };

    fn from(fault: LiteralFault) -> RecordFault {
        RecordFault::Literal(fault)
    }
}

impl From<AllocError> for RecordFault {
    ghost from_gives = { λ _ r. r ≡ MemoryVariant };

    fn from(_: AllocError) -> RecordFault {
        RecordFault::OutOfMemory
    }
}

impl<T: Drop> From<AllocFailed<T>> for RecordFault {
    ghost from_gives = { λ _ r. r ≡ MemoryVariant };

    fn from(_: AllocFailed<T>) -> RecordFault {
        RecordFault::OutOfMemory
    }
}

impl From<RecordFault> for DossierFault {
    ghost from_gives = { λ e r. r ≡ RecordVariant e };

    fn from(fault: RecordFault) -> DossierFault {
        DossierFault::Record(fault)
    }
}
