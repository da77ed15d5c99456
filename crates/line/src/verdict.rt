ghost use Rattle.std.specs.Prelude.{◌≡◌, Some};
ghost use Rattle.line.specs.Text.{text_of, line_refusal_number, without_line};
ghost use Rattle.line.specs.declared.verdict.NoLine.TheVariants.{OutOfMemory as MemoryVariant};

use judge::TableRefusal;
use records::FormFault;
use std::alloc::AllocError;
use std::error::Error;
use std::fmt;

/// What is to be said of a file.
#[derive(Clone, Copy, PartialEq, Eq, Debug)]
pub enum Verdict {
    /// It is in form, and its table is accepted.
    Accept,
    /// It is not in form.
    Form(FormFault),
    /// It is in form, and its table is refused.
    Refuse(TableRefusal),
}

/// Why a line is not written.
#[derive(Clone, Copy, PartialEq, Eq, Debug)]
pub enum LineRefusal {
    /// The buffer is too short.
    BufferTooShort = 27,
}

/// The number by which a refusal is reported.
impl From<LineRefusal> for u8 {
    ghost from_gives = { λ r n. n ≡ line_refusal_number r };

    fn from(refusal: LineRefusal) -> u8 {
        refusal as u8
    }
}

/// Why there is no line.
#[derive(Clone, Copy, PartialEq, Eq, Debug)]
pub enum NoLine {
    Refused(LineRefusal),
    OutOfMemory,
}

impl fmt::Display for NoLine {
    ghost output = { λ n. Some (without_line n) };

    fn fmt<W: fmt::Write>(&self, f: &mut fmt::Formatter<W>) -> fmt::Result {
        match self {
            NoLine::Refused(LineRefusal::BufferTooShort) => write!(f, "the buffer is too short"),
            NoLine::OutOfMemory => write!(f, "out of memory"),
        }
    }
}

impl Error for NoLine {}

// Written out, not derived: the contracts read `from_gives`, which a derived `From` has not.
impl From<AllocError> for NoLine {
    ghost from_gives = { λ _ r. r ≡ MemoryVariant };

    fn from(_: AllocError) -> NoLine {
        NoLine::OutOfMemory
    }
}

impl fmt::Display for Verdict {
    ghost output = { λ v. Some (text_of v) };

    fn fmt<W: fmt::Write>(&self, f: &mut fmt::Formatter<W>) -> fmt::Result {
        match self {
            Verdict::Accept => write!(f, "ACCEPT"),
            Verdict::Form(fault) => write!(f, "FORM {fault}"),
            Verdict::Refuse(refusal) => write!(f, "REFUSE {refusal}"),
        }
    }
}
