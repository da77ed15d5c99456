ghost use Rattle.std.specs.Prelude.{◌≡◌, Decides};
ghost use Rattle.records.specs.declared.Section.TheVariants.{End as EndSection};
ghost use Rattle.drafting.specs.Progress.{start, room, allowed, long};
ghost use Rattle.drafting.specs.Drafted.{progress_of};

use crate::draft::{Draft, DraftBook, Layers};
use observer::Mode;
use pattern::{MAX_ROWS, MAX_RULES};
use records::{BookKind, Books, Observers, RecordKind, Section};
use std::alloc::Global;

/// The most bytes of a matching.
const MAX_MATCHING: usize = 5;

impl Draft {
    /// Nothing was read yet of a file that may hold such books.
    pub fn new(heap: Global, books: Books) -> Draft
        ensures { progress_of result ≡ start books }
    {
        Draft {
            books,
            section: Section::Start,
            observers: Observers::None,
            places: 0,
            book: DraftBook::new(heap, BookKind::Counts),
            layers: Layers::None,
            entries: Vec::new(heap),
        }
    }

    /// Whether the end was read.
    pub fn ended(&self) -> bool
        ensures { Decides result (self.now.section ≡ EndSection) }
    {
        self.section == Section::End
    }

    /// Whether a record of this kind is allowed here.
    pub fn allows(&self, kind: RecordKind) -> bool
        ensures { result ≡ allowed (progress_of self.now) kind }
    {
        self.section.next(kind).is_some() && self.has_room(kind)
    }

    /// Whether there is room for one more record of this kind.
    fn has_room(&self, kind: RecordKind) -> bool
        ensures { result ≡ room (progress_of self.now) kind }
    {
        let observers = usize::from(u8::from(self.observers));
        match kind {
            RecordKind::Head | RecordKind::Opening => true,
            RecordKind::Rule => self.book.rule_count() < MAX_RULES,
            RecordKind::Row => self.book.row_count() < MAX_ROWS,
            RecordKind::Moves => self.layers.count() < observers,
            RecordKind::ObserverRow => self.layers.top_rows() < MAX_ROWS,
            RecordKind::Entry | RecordKind::End => self.layers.count() == observers,
        }
    }

    /// Whether a body of this kind has the right length.
    pub fn fits(&self, kind: RecordKind, body: &[u8]) -> bool
        ensures { result ≡ long (progress_of self.now) kind body.now }
    {
        let length = body.len();
        match (kind, &self.book) {
            (RecordKind::Head, _) => length == 3,
            (RecordKind::Opening | RecordKind::Rule | RecordKind::Row, DraftBook::Counts(_)) =>
                length == 2 * usize::from(self.places),
            (RecordKind::Opening, DraftBook::Atoms(_)) => bodies::opening_fits(body),
            (RecordKind::Rule, DraftBook::Atoms(_)) => bodies::rule_fits(body),
            (RecordKind::Row, DraftBook::Atoms(_)) => bodies::row_fits(body),
            (RecordKind::Moves, book) => length % Mode::COUNT == 0
                && length / Mode::COUNT == book.rule_count(),
            (RecordKind::ObserverRow, _) => length == 2,
            (RecordKind::Entry, _) => (1..=1 + MAX_MATCHING).contains(&length),
            (RecordKind::End, _) => length == 0,
        }
    }
}
