ghost use Rattle.std.specs.Prelude.{◌≡◌, IfOk};
ghost use Rattle.counts.specs.Counted.{counted_meaning};
ghost use Rattle.counts.specs.Data as counted;
ghost use Rattle.counts.specs.Range as counts-range;
ghost use Rattle.atoms.specs.Data as atomic;
ghost use Rattle.atoms.specs.Range as atoms-range;
ghost use Rattle.predecessor.specs.Kind.{atoms_meaning};
ghost use Rattle.drafting.specs.Drafted.{draft_book_of, layers_of};
ghost use Rattle.reader.specs.Dossier.{BookIn};
ghost use Rattle.pile.specs.Pile.{PileIn, pile_book, piled_book};
ghost use Rattle.dossier.specs.Meaning.{observed_book, kind_book};
ghost use Rattle.dossier.specs.Building.{ObserversIn};

use crate::kind::FileKind;
use atoms::Book;
use counts::{Counts, Net, NetRefusal};
use drafting::{DraftBook, Layers};
use either_kind::Either;
use pile::{Piled, pile};
use predecessor::AtomSystem;
use std::alloc::{AllocError, Global};

/// Makes the kind of a file whose data is in range.
pub(crate) fn build(heap: Global, book: DraftBook, layers: Layers) -> Result<FileKind, AllocError>
    requires in_range { BookIn (draft_book_of book) }
    requires observers { ObserversIn (draft_book_of book) (layers_of layers) }
    ensures { IfOk result (λ k. kind_book k ≡ observed_book (draft_book_of book) (layers_of layers)) }
{
    match book {
        DraftBook::Atoms(book) => Ok(Either::Left(build_atoms(book, layers))),
        DraftBook::Counts(net) => Ok(Either::Right(build_counts(heap, net, layers)?)),
    }
}

/// Makes the kind of a counted book in range.
fn build_counts(heap: Global, net: Net, layers: Layers) -> Result<Piled<Counts>, AllocError>
    requires book { counts-range.InRange (counted.book_of net) }
    requires observers { PileIn (counted_meaning (counted.book_of net)) (counted.book_of net) (layers_of layers) }
    ensures { IfOk result (λ k. piled_book k ≡ pile_book (counted.book_of net) (layers_of layers)) }
{
    // A match, and no `map_err`: the book is in range, so that every other refusal is unreachable.
    let counts = match Counts::new(heap, net) {
        Ok(counts) => counts,
        Err(NetRefusal::OutOfMemory) => return Err(AllocError),
        Err(_) => unreachable(),
    };
    Ok(pile(counts, layers).unwrap())
}

/// Makes the kind of a book of atoms in range.
fn build_atoms(book: Book, layers: Layers) -> Piled<AtomSystem>
    requires book { atoms-range.InRange (atomic.book_of book) }
    requires observers { PileIn (atoms_meaning (atomic.book_of book)) (atomic.book_of book) (layers_of layers) }
    ensures { piled_book result ≡ pile_book (atomic.book_of book) (layers_of layers) }
{
    let system = AtomSystem::new(book).unwrap();
    pile(system, layers).unwrap()
}
