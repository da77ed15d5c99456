ghost use Rattle.std.specs.Prelude.{◌≡◌, ◌*◌, ◌<◌, ◌≤◌, true, length, Ok as OkDraft};
ghost use Rattle.records.specs.Record.{record_kind, record_place, record_bytes};
ghost use Rattle.records.specs.Number.{book_number};
ghost use Rattle.drafting.specs.Book.{places_in};
ghost use Rattle.drafting.specs.Progress.{long};
ghost use Rattle.drafting.specs.Drafted.{layers_of, progress_of, Took, Answered};
ghost use Rattle.records.specs.declared.RecordKind.TheVariants.{Head as HeadKind, Opening as OpeningKind, Rule as RuleKind, Row as RowKind, Moves as MovesKind, ObserverRow as PairKind, Entry as EntryKind, End as EndKind};

use crate::draft::{Draft, DraftBook};
use counts::net::MAX_PLACES;
use judge::Entry;
use observer::ObserverRow;
use records::{
    Body, BookKind, Books, FieldFault, Observers, Record, RecordFault, Section, read_mode,
    read_modes,
};
use std::alloc::Global;

impl Draft {
    /// The head: the kind of the book, how many observers, how many places.
    fn take_head(self, heap: Global, body: Body<'_>) -> Result<Draft, RecordFault>
        requires { length body.bytes.now ≡ 3 }
        ensures { Took (progress_of self) HeadKind body.entry.bytes.now body.entry.place result }
    {
        let fault = FieldFault { place: body.place };
        let [kind, observers, places] = body.bytes else {
            return Err(RecordFault::Field(fault));
        };
        let observers = Observers::try_from(*observers).map_err(|_| fault)?;
        let kind = BookKind::try_from(*kind).map_err(|_| fault)?;
        if !places_fit(self.books, kind, *places) {
            return Err(RecordFault::Field(fault));
        }
        Ok(Draft {
            section: Section::Head,
            observers,
            places: *places,
            book: DraftBook::new(heap, kind),
            ..self
        })
    }

    /// The opening of the book.
    fn take_opening(self, heap: Global, body: Body<'_>) -> Result<Draft, RecordFault>
        ensures { Took (progress_of self) OpeningKind body.entry.bytes.now body.entry.place result }
    {
        let book = self.book.with_opening(heap, body)?;
        Ok(Draft {
            section: Section::Opening,
            book,
            ..self
        })
    }

    // Beside `take_row`: one function over both would take the step, the section and the clause.
    /// A rule of the book.
    fn take_rule(self, heap: Global, body: Body<'_>) -> Result<Draft, RecordFault>
        requires { long (progress_of self) RuleKind body.bytes.now ≡ true }
        ensures { Took (progress_of self) RuleKind body.entry.bytes.now body.entry.place result }
    {
        let book = self.book.with_rule(heap, self.places, body)?;
        Ok(Draft {
            section: Section::Rules,
            book,
            ..self
        })
    }

    /// A row of the book.
    fn take_row(self, heap: Global, body: Body<'_>) -> Result<Draft, RecordFault>
        requires { long (progress_of self) RowKind body.bytes.now ≡ true }
        ensures { Took (progress_of self) RowKind body.entry.bytes.now body.entry.place result }
    {
        let book = self.book.with_row(heap, self.places, body)?;
        Ok(Draft {
            section: Section::Rows,
            book,
            ..self
        })
    }

    /// The moves of the next observer: four modes for each rule.
    fn take_moves(self, heap: Global, body: Body<'_>) -> Result<Draft, RecordFault>
        requires { length (layers_of self.layers) < 2 }
        ensures { Took (progress_of self) MovesKind body.entry.bytes.now body.entry.place result }
    {
        let moves = read_modes(heap, body)?;
        let layers = self.layers.with_moves(heap, moves);
        Ok(Draft {
            section: Section::Moves,
            layers,
            ..self
        })
    }

    /// A row of the topmost observer: a row below, and a mode.
    fn take_observer_row(self, body: Body<'_>) -> Result<Draft, RecordFault>
        requires { length body.bytes.now ≡ 2 }
        ensures { Took (progress_of self) PairKind body.entry.bytes.now body.entry.place result }
    {
        let fault = FieldFault { place: body.place };
        let [below, mode] = body.bytes else {
            return Err(RecordFault::Field(fault));
        };
        let below = usize::from(*below);
        if below >= self.layers.rows_below(self.book.row_count()) {
            return Err(RecordFault::Field(fault));
        }
        let mode = read_mode(*mode, body.place)?;
        let layers = self.layers.with_row(ObserverRow { below, mode })?;
        Ok(Draft {
            section: Section::ObserverRows,
            layers,
            ..self
        })
    }

    /// An entry: a row, then the matching.
    fn take_entry(self, heap: Global, body: Body<'_>) -> Result<Draft, RecordFault>
        requires { 1 ≤ length body.bytes.now }
        ensures { Took (progress_of self) EntryKind body.entry.bytes.now body.entry.place result }
    {
        let [row, matching @ ..] = body.bytes else {
            return Err(RecordFault::Field(FieldFault { place: body.place }));
        };
        let mut entries = self.entries;
        entries.push(Entry {
            row: usize::from(*row),
            matching: matching.to_vec(heap)?,
        })?;
        Ok(Draft {
            section: Section::Entries,
            entries,
            ..self
        })
    }

    /// The end.
    fn take_end(self, body: Body<'_>) -> Draft
        ensures { Took (progress_of self) EndKind body.entry.bytes.now body.entry.place (OkDraft result) }
    {
        Draft {
            section: Section::End,
            ..self
        }
    }
}

impl Draft {
    /// Takes one record, if it is allowed here, its body has the right length and its numbers are in range.
    pub fn accept(self, heap: Global, record: Record<'_>) -> Result<Draft, RecordFault>
        ensures { Answered (progress_of self) (record_kind «record».entry) (record_bytes «record».entry) (record_place «record».entry) result }
    {
        let kind = record.kind();
        let body = record.body();
        if !self.allows(kind) {
            return Err(RecordFault::KindNotAllowed { place: body.place });
        }
        if !self.fits(kind, body.bytes) {
            return Err(RecordFault::WrongLength { place: body.place });
        }
        match record {
            Record::Head(body) => self.take_head(heap, body),
            Record::Opening(body) => self.take_opening(heap, body),
            Record::Rule(body) => self.take_rule(heap, body),
            Record::Row(body) => self.take_row(heap, body),
            Record::Moves(body) => self.take_moves(heap, body),
            Record::ObserverRow(body) => self.take_observer_row(body),
            Record::Entry(body) => self.take_entry(heap, body),
            Record::End(body) => Ok(self.take_end(body)),
        }
    }
}

/// Whether a file may hold a book of a kind with so many places: none for atoms, 1 to 12 for counts.
fn places_fit(books: Books, kind: BookKind, places: u8) -> bool
    ensures { result ≡ places_in books (book_number kind) places }
{
    books.hold(kind)
        && match kind {
            BookKind::Atoms => places == 0,
            BookKind::Counts => (1..=MAX_PLACES).contains(&usize::from(places)),
        }
}
