ghost use Rattle.std.specs.Prelude.{◌≡◌, ◌+◌, ◌<◌, ◌≤◌, length, drop, MatchResult};
ghost use Rattle.records.specs.Number.{record_number, NoRecord};
ghost use Rattle.records.specs.Bytes.{length_at, kind_at, body_at};
ghost use Rattle.records.specs.Record.{record_kind, body_of, record_place, record_bytes};
ghost use Rattle.records.specs.declared.fault.DossierFault.TheVariants.{CutShort as CutVariant};

use crate::fault::DossierFault;

/// The kinds of records.
#[derive(Clone, Copy, PartialEq, Eq, Debug)]
pub enum RecordKind {
    Head = 1,
    Opening = 2,
    Rule = 3,
    Row = 4,
    Moves = 5,
    ObserverRow = 6,
    Entry = 7,
    End = 8,
}

/// A number that no kind of record has.
#[derive(Clone, Copy, PartialEq, Eq, Debug)]
pub struct NoSuchRecord(pub u16);

/// The kind of record with a number.
impl TryFrom<u16> for RecordKind {
    type Error = NoSuchRecord;

    ghost try_from_gives = { λ n r. MatchResult r (λ k. record_number k ≡ n) (λ e. (e.0 ≡ n) × NoRecord n) };

    fn try_from(number: u16) -> Result<RecordKind, NoSuchRecord> {
        match number {
            1 => Ok(RecordKind::Head),
            2 => Ok(RecordKind::Opening),
            3 => Ok(RecordKind::Rule),
            4 => Ok(RecordKind::Row),
            5 => Ok(RecordKind::Moves),
            6 => Ok(RecordKind::ObserverRow),
            7 => Ok(RecordKind::Entry),
            8 => Ok(RecordKind::End),
            _ => Err(NoSuchRecord(number)),
        }
    }
}

/// The body of a record: the bytes of the file itself, and the place of the record's first byte.
#[derive(Clone, Copy)]
pub struct Body<'a> {
    pub place: usize,
    pub bytes: &'a [u8],
}

/// A record, with its body as it stands in the file: the cases borrow their bodies, nothing is copied.
#[derive(Clone, Copy)]
pub enum Record<'a> {
    Head(Body<'a>),
    Opening(Body<'a>),
    Rule(Body<'a>),
    Row(Body<'a>),
    Moves(Body<'a>),
    ObserverRow(Body<'a>),
    Entry(Body<'a>),
    End(Body<'a>),
}

impl<'a> Record<'a> {
    /// The record of a kind with a body.
    pub fn new(kind: RecordKind, body: Body<'a>) -> Record<'a>
        ensures { (record_kind result ≡ kind) × (record_place result ≡ body.entry.place) × (record_bytes result ≡ body.entry.bytes.now) }
    {
        match kind {
            RecordKind::Head => Record::Head(body),
            RecordKind::Opening => Record::Opening(body),
            RecordKind::Rule => Record::Rule(body),
            RecordKind::Row => Record::Row(body),
            RecordKind::Moves => Record::Moves(body),
            RecordKind::ObserverRow => Record::ObserverRow(body),
            RecordKind::Entry => Record::Entry(body),
            RecordKind::End => Record::End(body),
        }
    }
}

impl<'a> Record<'a> {
    /// The kind of the record.
    pub fn kind(&self) -> RecordKind
        ensures { result ≡ record_kind self.now }
    {
        match self {
            Record::Head(_) => RecordKind::Head,
            Record::Opening(_) => RecordKind::Opening,
            Record::Rule(_) => RecordKind::Rule,
            Record::Row(_) => RecordKind::Row,
            Record::Moves(_) => RecordKind::Moves,
            Record::ObserverRow(_) => RecordKind::ObserverRow,
            Record::Entry(_) => RecordKind::Entry,
            Record::End(_) => RecordKind::End,
        }
    }

    /// The body of the record.
    pub fn body(&self) -> Body<'a>
        ensures { result ≡ body_of self.now }
    {
        match self {
            Record::Head(body) | Record::Opening(body) | Record::Rule(body) | Record::Row(body) =>
                *body,
            Record::Moves(body)
            | Record::ObserverRow(body)
            | Record::Entry(body)
            | Record::End(body) => *body,
        }
    }
}

/// Takes the first record off the bytes that are left from a place on: the number of its kind, its
/// body, and what is left after it. Its head is taken off by a slice pattern, in place.
pub fn take_record<'a>(
    bytes: &'a [u8],
    place: usize,
) -> Result<(u16, Body<'a>, &'a [u8]), DossierFault>
    ensures { MatchResult result (λ p. (4 + length_at bytes.now ≤ length bytes.now) × (p.0 ≡ kind_at bytes.now) × (p.1.place ≡ place) × (p.1.bytes.now ≡ body_at bytes.now) × (length p.1.bytes.now ≡ length_at bytes.now) × (p.2.now ≡ drop (4 + length_at bytes.now) bytes.now)) (λ e. (e ≡ CutVariant place) × (length bytes.now < 4 + length_at bytes.now)) }
{
    match bytes {
        [l0, l1, k0, k1, rest @ ..] => {
            let length = usize::from(u16::from_le_bytes([*l0, *l1]));
            let kind = u16::from_le_bytes([*k0, *k1]);
            if length > rest.len() {
                return Err(DossierFault::CutShort { place });
            }
            let (body, after) = rest.split_at(length);
            Ok((kind, Body { place, bytes: body }, after))
        }
        _ => Err(DossierFault::CutShort { place }),
    }
}
