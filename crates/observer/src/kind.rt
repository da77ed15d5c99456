ghost use Rattle.std.specs.Prelude.{◌≡◌, ◌+◌, ◌*◌, ◌<◌, ◌≤◌, length, MatchOption, slice_index_or};
ghost use Rattle.observer.specs.Mode.{mode_number, mode_count};
ghost use Rattle.observer.specs.Observed.{ObservedBook, row_at, mode_before, case_below, Exists};
ghost use Rattle.observer.specs.Kind.{book_of, state_of, meaning_of};
ghost use Rattle.observer.specs.declared.mode.Mode.{Mode as ObserverMode};
ghost use Rattle.observer.specs.declared.mode.Mode.TheVariants.{Zero as ModeZero};
ghost use Rattle.observer.specs.Duty.{observed_duties};

use crate::mode::{Mode, ObserverRow};
use crate::observed::Observer;
use pattern::{Case, Covering, FireRefusal, LookRefusal, PatternKind, Sort};

/// A case of an observer, taken apart: its row, the earlier mode, and the case below.
#[derive(Clone, Copy)]
struct Parts {
    row: ObserverRow,
    before: Mode,
    below: Case,
}

impl<K: PatternKind> Observer<K> {
    /// The row with this number.
    fn row(&self, number: usize) -> Option<ObserverRow>
        ensures { MatchOption result (length self.now.rows.items ≤ number) (λ x. (number < length self.now.rows.items) × (x ≡ slice_index_or self.now.rows.items number (record { below = 0; mode = ModeZero }))) }
    {
        self.rows.get(number).copied()
    }

    /// The mode to which a rule moves from a mode.
    fn next_mode(&self, rule: usize, mode: Mode) -> Mode
        requires { rule < (K.meaning (K.book self.now.below)).rules }
        ensures { result ≡ slice_index_or self.now.moves.items (rule * mode_count + mode_number mode) ModeZero }
    {
        self.moves[rule * Mode::COUNT + usize::from(u8::from(mode))]
    }

    /// The parts of a case, where there is such a case.
    fn parts(&self, case: Case) -> Option<Parts>
        ensures { MatchOption result (Exists (K.meaning (K.book self.now.below)) (book_of self.now) case → ⊥) (λ p. Exists (K.meaning (K.book self.now.below)) (book_of self.now) case × (p.row ≡ row_at (K.meaning (K.book self.now.below)) (book_of self.now) case.row) × (mode_number p.before ≡ mode_before (K.meaning (K.book self.now.below)) (book_of self.now) case) × (p.below ≡ case_below (K.meaning (K.book self.now.below)) (book_of self.now) case)) }
    {
        let row = self.row(case.row)?;
        if case.rule >= self.below.rules() {
            return None;
        }
        let count = self.below.cases(row.below, case.rule);
        if case.number >= Mode::COUNT * count {
            return None;
        }
        let Ok(before) = Mode::try_from((case.number / count) as u8) else {
            return None;
        };
        let below = Case {
            row: row.below,
            rule: case.rule,
            number: case.number % count,
        };
        Some(Parts { row, before, below })
    }
}

impl<K: PatternKind> PatternKind for Observer<K> {
    ghost State = { K.PatternKind.State × ObserverMode };

    ghost Book = { ObservedBook K.PatternKind.Book };

    ghost meaning = { meaning_of K.PatternKind.meaning };

    ghost book = { book_of };

    ghost state = { state_of };

    ghost duties = { λ k.
        let below = K.PatternKind in
        observed_duties (below.meaning (below.book k.below)) (book_of k) (K.PatternKind.duties k.below) (k.moves_fit, k.rows_in, k.rows_below, k.cases_fit) };

    fn rules(&self) -> usize {
        self.below.rules()
    }

    fn rows(&self) -> usize {
        self.rows.len()
    }

    fn cases(&self, row: usize, rule: usize) -> usize {
        match self.row(row) {
            Some(row) if rule < self.below.rules() => Mode::COUNT
                * self.below.cases(row.below, rule),
            _ => 0,
        }
    }

    fn sort(&self, case: Case) -> Sort {
        let Some(parts) = self.parts(case) else {
            return Sort::Idle;
        };
        if self.next_mode(case.rule, parts.before) != parts.row.mode {
            return Sort::Idle;
        }
        match self.below.sort(parts.below) {
            Sort::Own if parts.before != parts.row.mode => Sort::Open,
            sort => sort,
        }
    }

    fn matching_length(&self, row: usize) -> usize {
        self.row(row)
            .map_or(0, |row| self.below.matching_length(row.below))
    }

    fn covering(&self, case: Case, named: usize, matching: &[u8]) -> Covering {
        let (Some(parts), Some(named)) = (self.parts(case), self.row(named)) else {
            return Covering::Malformed;
        };
        match self.below.covering(parts.below, named.below, matching) {
            Covering::Covers if named.mode != parts.before => Covering::DoesNotCover,
            covering => covering,
        }
    }

    fn stands_in_opening(&self, row: usize) -> bool {
        self.row(row).is_some_and(|row| {
            row.mode == Mode::Zero && self.below.stands_in_opening(row.below)
        })
    }

    fn fire(&mut self, rule: usize, choice: &[u8]) -> Result<(), FireRefusal> {
        self.below.fire(rule, choice)?;
        self.mode = self.next_mode(rule, self.mode);
        Ok(())
    }

    fn look(&self, row: usize) -> Result<bool, LookRefusal> {
        let row = self.row(row).ok_or(LookRefusal::NoSuchRow)?;
        Ok(row.mode == self.mode && self.below.look(row.below)?)
    }

    fn restart(&mut self) {
        self.below.restart();
        self.mode = Mode::Zero;
    }
}
