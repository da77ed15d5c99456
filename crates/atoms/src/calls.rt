ghost use Rattle.std.specs.Prelude.{◌≡◌, ◌<◌, ◌≤◌, length, Err, Decides, MatchOption, ◌≢◌};
ghost use Rattle.std.specs.List.{AllByRecursion};
ghost use Rattle.pattern.specs.declared.FireRefusal.TheVariants.{BeyondModel};
ghost use Rattle.atoms.specs.Book.{just, rule_at, row_at, StandsOf};
ghost use Rattle.atoms.specs.Range.{AtomIn};
ghost use Rattle.atoms.specs.Data.{transition_of, pattern_of, book_of};
ghost use Rattle.atoms.specs.Cells.{state_of};
ghost use Rattle.atoms.specs.Model.{atoms_book, atoms_state, Made, FiredIn, LookedIn};

use crate::book::{Atom, Book, BookRefusal, Row, Rule};
use crate::cells::Cells;
use crate::model::Atoms;
use literals::Fact;
use pattern::{FireRefusal, LookRefusal};

impl Atoms {
    /// Makes a model of a book that is in range, in its opening state.
    pub fn new(book: Book) -> Result<Atoms, BookRefusal>
        ensures { Made (book_of book) result }
    {
        book.check()?;
        let cells = Cells::of(&book.opening);
        Ok(Atoms { book, cells })
    }

    /// How many rules there are.
    pub fn rules(&self) -> usize
        ensures { result ≡ length (atoms_book self.now).rules }
    {
        self.book.rule_count()
    }

    /// How many rows there are.
    pub fn rows(&self) -> usize
        ensures { result ≡ length (atoms_book self.now).rows }
    {
        self.book.row_count()
    }

    /// The rule with this number.
    pub fn rule(&self, number: usize) -> Option<&Rule>
        ensures { MatchOption result (length (atoms_book self.now).rules ≤ number) (λ x. (number < length (atoms_book self.now).rules) × (transition_of x.now ≡ rule_at (atoms_book self.now) number)) }
    {
        self.book.rule(number)
    }

    /// The row with this number.
    pub fn row(&self, number: usize) -> Option<&Row>
        ensures { MatchOption result (length (atoms_book self.now).rows ≤ number) (λ x. (number < length (atoms_book self.now).rows) × (pattern_of x.now ≡ row_at (atoms_book self.now) number)) }
    {
        self.book.row(number)
    }

    /// Fires a rule on the chosen objects; a refusal leaves the state. The next state is always one
    /// that the model holds, so that refusal 25 is never given.
    pub fn fire(&mut self, rule: usize, choice: &[u8]) -> Result<(), FireRefusal>
        ensures same { atoms_book self.new ≡ atoms_book self.old }
        ensures fired { FiredIn (atoms_book self.old) (atoms_state self.old) rule choice.now result (atoms_state self.new) }
        ensures within { result ≢ Err BeyondModel }
    {
        let rule = self.book.rule(rule).ok_or(FireRefusal::NoSuchRule)?;
        rule.fire(&mut self.cells, choice)
    }

    /// Whether a row stands in the state.
    pub fn look(&self, row: usize) -> Result<bool, LookRefusal>
        ensures { LookedIn (atoms_book self.now) (atoms_state self.now) row result }
    {
        let row = self.book.row(row).ok_or(LookRefusal::NoSuchRow)?;
        Ok(row.stands_in(&self.cells))
    }

    /// Goes back to the opening state.
    pub fn restart(&mut self)
        ensures same { atoms_book self.new ≡ atoms_book self.old }
        ensures back { atoms_state self.new ≡ just (atoms_book self.old).opening }
    {
        self.cells = Cells::of(&self.book.opening);
    }

    /// Whether a row stands in the opening state.
    pub fn stands_in_opening(&self, row: usize) -> bool
        ensures { Decides result (StandsOf (atoms_book self.now) row (just (atoms_book self.now).opening)) }
    {
        self.book
            .row(row)
            .is_some_and(|row| row.stands_in(&Cells::of(&self.book.opening)))
    }
}

impl Book {
    /// The rule with this number.
    // Beside the method of `Atoms`, so that `fire` borrows the book alone while it writes the cells.
    fn rule(&self, number: usize) -> Option<&Rule>
        ensures { MatchOption result (length (book_of self.now).rules ≤ number) (λ x. (number < length (book_of self.now).rules) × (transition_of x.now ≡ rule_at (book_of self.now) number)) }
    {
        self.rules.get(number)
    }

    /// The row with this number.
    fn row(&self, number: usize) -> Option<&Row>
        ensures { MatchOption result (length (book_of self.now).rows ≤ number) (λ x. (number < length (book_of self.now).rows) × (pattern_of x.now ≡ row_at (book_of self.now) number)) }
    {
        self.rows.get(number)
    }
}

impl Cells {
    /// The state of just these atoms.
    fn of(atoms: &[Atom]) -> Cells
        requires { AllByRecursion AtomIn atoms.now }
        ensures { state_of result ≡ just atoms.now }
    {
        let mut cells = Cells::new();
        for atom in atoms {
            cells.gain(Fact::from(*atom));
        }
        cells
    }
}
