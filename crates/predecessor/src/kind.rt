ghost use Rattle.std.specs.Prelude.{◌≡◌, ◌<◌, length, MatchOption};
ghost use Rattle.literals.specs.State.{State};
ghost use Rattle.atoms.specs.Book.{AtomsBook};
ghost use Rattle.atoms.specs.Data.{book_of};
ghost use Rattle.predecessor.specs.Kind.{Exists, earlier_of, atoms_meaning};
ghost use Rattle.predecessor.specs.Exact.{ExactOf};
ghost use Rattle.predecessor.specs.Made.{literals_of};
ghost use Rattle.predecessor.specs.System.{ReadAt, Found, system_book, system_state, MadeSystem};
ghost use Rattle.atoms.proofs.Ranged.{in_range};
ghost use Rattle.predecessor.specs.Duty.{atoms_duties};

use crate::case::RuleIntoRow;
use crate::earlier::Earlier;
use crate::step::StepBack;
use crate::system::AtomSystem;
use atoms::{Atoms, Book, BookRefusal};
use pattern::{Case, Covering, FireRefusal, LookRefusal, PatternKind, Sort};

impl AtomSystem {
    /// Makes a pattern kind of a book that is in range, in its opening state.
    pub fn new(book: Book) -> Result<AtomSystem, BookRefusal>
        ensures { MadeSystem (book_of book) result }
    {
        let atoms = Atoms::new(book)?;
        Ok(AtomSystem { atoms })
    }

    /// The literals of the earlier pattern of a case, where there is such a case. The pattern is
    /// exact where the effect settles every literal of the row.
    pub fn earlier(&self, case: Case) -> Option<Earlier>
        ensures value { MatchOption result (Exists (system_book self.now) case → ⊥) (λ e. Exists (system_book self.now) case × (literals_of e ≡ (earlier_of (system_book self.now) case).literals)) }
        ensures exact { ExactOf (system_book self.now) case }
    {
        Some(self.step_back(case)?.earlier())
    }

    /// The rule and the row with these numbers.
    fn rule_into_row(&self, rule: usize, row: usize) -> Option<RuleIntoRow<'_>>
        ensures { MatchOption result (rule < length (system_book self.now).rules × row < length (system_book self.now).rows → ⊥) (ReadAt (system_book self.now) rule row) }
    {
        let rule = self.atoms.rule(rule)?;
        let row = self.atoms.row(row)?;
        Some(RuleIntoRow { rule, row })
    }

    /// The step backwards of a case, where there is such a case.
    fn step_back(&self, case: Case) -> Option<StepBack<'_>>
        ensures { MatchOption result (Exists (system_book self.now) case → ⊥) (Found (system_book self.now) case) }
    {
        self.rule_into_row(case.rule, case.row)
            .filter(|pair| case.number < pair.case_count())
            .map(|pair| pair.step_back(case.number))
    }
}

impl PatternKind for AtomSystem {
    ghost State = { State };

    ghost Book = { AtomsBook };

    ghost meaning = { atoms_meaning };

    ghost book = { system_book };

    ghost state = { system_state };

    ghost duties = { λ k. atoms_duties (system_book k) (in_range (system_book k) k.atoms.in_range) };

    fn rules(&self) -> usize {
        self.atoms.rules()
    }

    fn rows(&self) -> usize {
        self.atoms.rows()
    }

    fn cases(&self, row: usize, rule: usize) -> usize {
        self.rule_into_row(rule, row)
            .map_or(0, |pair| pair.case_count())
    }

    fn sort(&self, case: Case) -> Sort {
        self.step_back(case).map_or(Sort::Idle, |step| step.sort())
    }

    fn matching_length(&self, row: usize) -> usize {
        self.atoms
            .row(row)
            .map_or(0, |row| usize::from(row.variables))
    }

    fn covering(&self, case: Case, named: usize, matching: &[u8]) -> Covering {
        match (self.step_back(case), self.atoms.row(named)) {
            (Some(step), Some(named)) => step.covering(named, matching),
            _ => Covering::Malformed,
        }
    }

    fn stands_in_opening(&self, row: usize) -> bool {
        self.atoms.stands_in_opening(row)
    }

    fn fire(&mut self, rule: usize, choice: &[u8]) -> Result<(), FireRefusal> {
        self.atoms.fire(rule, choice)
    }

    fn look(&self, row: usize) -> Result<bool, LookRefusal> {
        self.atoms.look(row)
    }

    fn restart(&mut self) {
        self.atoms.restart();
    }
}
