ghost use Rattle.atoms.specs.Data.{book_of};
ghost use Rattle.atoms.specs.Range.{InRange};

use crate::book::Book;
use crate::cells::Cells;

/// A book of atoms within its limits, and a state of it.
#[derive(Drop)]
pub struct Atoms {
    pub(super) book: Book,
    pub(super) cells: Cells,
    ghost in_range: { ∥ InRange (book_of book) ∥₁ },
}
