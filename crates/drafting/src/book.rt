ghost use Rattle.std.specs.Prelude.{◌≡◌, ◌*◌, true, length, take, drop, IfOk};
ghost use Rattle.counts.specs.Data.{transition_of};
ghost use Rattle.records.specs.Number.{book_number};
ghost use Rattle.bodies.specs.Lists.{Taken};
ghost use Rattle.drafting.specs.Book.{begun, rule_count, row_count, rule_fits, row_fits, opening_in, rule_in, row_in, with_opening, with_rule, with_row};
ghost use Rattle.drafting.specs.Drafted.{draft_book_of};

use crate::draft::DraftBook;
use atoms::Book;
use counts::{Net, Row, Rule};
use records::{Body, BookKind, RecordFault, read_words};
use std::alloc::{AllocError, Global};

impl DraftBook {
    /// An empty book of a kind.
    pub fn new(heap: Global, kind: BookKind) -> DraftBook
        ensures { draft_book_of result ≡ begun (book_number kind) }
    {
        match kind {
            BookKind::Atoms => DraftBook::Atoms(Book {
                opening: Vec::new(heap),
                rules: Vec::new(heap),
                rows: Vec::new(heap),
            }),
            BookKind::Counts => DraftBook::Counts(Net {
                opening: Vec::new(heap),
                rules: Vec::new(heap),
                rows: Vec::new(heap),
            }),
        }
    }

    // The methods ask the book that there is. They are alike but for the method, and the two types of books
    // have no trait in common.
    /// How many rules there are so far.
    pub fn rule_count(&self) -> usize
        ensures { result ≡ rule_count (draft_book_of self.now) }
    {
        match self {
            DraftBook::Counts(net) => net.rule_count(),
            DraftBook::Atoms(book) => book.rule_count(),
        }
    }

    /// How many rows there are so far.
    pub fn row_count(&self) -> usize
        ensures { result ≡ row_count (draft_book_of self.now) }
    {
        match self {
            DraftBook::Counts(net) => net.row_count(),
            DraftBook::Atoms(book) => book.row_count(),
        }
    }

    /// The same with an opening.
    pub fn with_opening(self, heap: Global, body: Body<'_>) -> Result<DraftBook, RecordFault>
        ensures { Taken draft_book_of (opening_in (draft_book_of self) body.entry.bytes.now) (with_opening (draft_book_of self) body.entry.bytes.now) body.entry.place result }
    {
        match self {
            DraftBook::Counts(mut net) => {
                net.opening = read_words(heap, body.bytes)?;
                Ok(DraftBook::Counts(net))
            }
            DraftBook::Atoms(mut book) => {
                book.opening = bodies::read_atoms(heap, body)?;
                Ok(DraftBook::Atoms(book))
            }
        }
    }

    /// The same with one more rule, over so many places.
    pub fn with_rule(
        self,
        heap: Global,
        places: u8,
        body: Body<'_>,
    ) -> Result<DraftBook, RecordFault>
        requires { rule_fits places (draft_book_of self) body.bytes.now ≡ true }
        ensures { Taken draft_book_of (rule_in (draft_book_of self) body.entry.bytes.now) (with_rule places (draft_book_of self) body.entry.bytes.now) body.entry.place result }
    {
        match self {
            DraftBook::Counts(mut net) => {
                net.rules.push(counted_rule(heap, places, body.bytes)?)?;
                Ok(DraftBook::Counts(net))
            }
            DraftBook::Atoms(mut book) => {
                book.rules.push(bodies::read_rule(heap, body)?)?;
                Ok(DraftBook::Atoms(book))
            }
        }
    }

    /// The same with one more row.
    pub fn with_row(
        self,
        heap: Global,
        places: u8,
        body: Body<'_>,
    ) -> Result<DraftBook, RecordFault>
        requires { row_fits places (draft_book_of self) body.bytes.now ≡ true }
        ensures { Taken draft_book_of (row_in (draft_book_of self) body.entry.bytes.now) (with_row (draft_book_of self) body.entry.bytes.now) body.entry.place result }
    {
        match self {
            DraftBook::Counts(mut net) => {
                net.rows.push(Row {
                    least: read_words(heap, body.bytes)?,
                })?;
                Ok(DraftBook::Counts(net))
            }
            DraftBook::Atoms(mut book) => {
                book.rows.push(bodies::read_row(heap, body)?)?;
                Ok(DraftBook::Atoms(book))
            }
        }
    }
}

/// The rule of a counted book: what it takes at each place, then what it gives.
fn counted_rule(heap: Global, places: u8, bytes: &[u8]) -> Result<Rule, AllocError>
    requires { length bytes.now ≡ 2 * places }
    ensures { IfOk result (λ x. transition_of x ≡ record { takes = take places bytes.now; gives = drop places bytes.now }) }
{
    let (takes, gives) = bytes.split_at(usize::from(places));
    Ok(Rule {
        takes: takes.to_vec(heap)?,
        gives: gives.to_vec(heap)?,
    })
}
