ghost use Rattle.std.specs.Prelude.{◌≡◌, Decides};
ghost use Rattle.pattern.specs.Meaning.{Meaning};
ghost use Rattle.pattern.specs.Duty.{Duties};
ghost use Rattle.pattern.specs.Call.{Fired, Looked};

use crate::answer::{Case, Covering, FireRefusal, LookRefusal, Sort};

/// A class of transition systems with patterns: a rule book of some kind, with its rows and one state.
pub trait PatternKind {
    // what a state is
    ghost State: { Type 0 };

    // the rules, rows and opening as plain data
    ghost Book: { Type 0 };

    // what a book means
    ghost meaning: { Book → Meaning State };

    // the book that a value holds
    ghost book: { Self → Book };

    // the state that a value is in
    ghost state: { Self → State };

    /// How many rules there are.
    fn rules(&self) -> usize
        ensures { result ≡ (meaning (book self.now)).rules };

    /// How many rows there are.
    fn rows(&self) -> usize
        ensures { result ≡ (meaning (book self.now)).rows };

    /// How many cases a row and a rule have.
    fn cases(&self, row: usize, rule: usize) -> usize
        ensures { result ≡ (meaning (book self.now)).cases row rule };

    /// What a case asks of a dossier.
    fn sort(&self, case: Case) -> Sort
        ensures { result ≡ (meaning (book self.now)).sort case };

    /// How long a matching of a row is.
    fn matching_length(&self, row: usize) -> usize
        ensures { result ≡ (meaning (book self.now)).matching_length row };

    /// What a matching of a named row says of a case.
    fn covering(&self, case: Case, named: usize, matching: &[u8]) -> Covering
        ensures { result ≡ (meaning (book self.now)).covering case named matching.now };

    /// Whether a row stands in the opening state.
    fn stands_in_opening(&self, row: usize) -> bool
        ensures { Decides result ((meaning (book self.now)).Stands row (meaning (book self.now)).opening) };

    /// Fires a rule under a choice; a refusal leaves the state.
    fn fire(&mut self, rule: usize, choice: &[u8]) -> Result<(), FireRefusal>
        ensures same { book self.new ≡ book self.old }
        ensures fired { Fired (meaning (book self.old)) (state self.old) rule choice.now result (state self.new) };

    /// Whether a row stands in the state.
    fn look(&self, row: usize) -> Result<bool, LookRefusal>
        ensures { Looked (meaning (book self.now)) (state self.now) row result };

    /// Goes back to the opening state.
    fn restart(&mut self)
        ensures same { book self.new ≡ book self.old }
        ensures back { state self.new ≡ (meaning (book self.old)).opening };

    // what every value owes, so that no more is asked of one than its type
    ghost duties: { (k : Self) → Duties (meaning (book k)) };
}
