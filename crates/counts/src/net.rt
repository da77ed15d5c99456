ghost use Rattle.std.specs.Prelude.{◌≡◌, ℕ, ◌+◌, ◌-◌, ◌<◌, ◌≤◌, length, Decides, MatchOption, MatchResult, OnErr, OnOk, ◌≢◌, slice_index_or};
ghost use Rattle.counts.specs.Net.{tally, ◌⊑◌, after, earlier, Held, Checked};
ghost use Rattle.counts.specs.declared.net.NetRefusal.TheVariants.{OutOfMemory};
ghost use Rattle.counts.specs.Data.{transition_of, least_of, book_of};
ghost use Rattle.counts.specs.Counted.{rule_at, row_at, Exists};
ghost use Rattle.counts.specs.Range.{RuleFits, RowFits, InRange, RefusedBy};

use pattern::{Case, FireRefusal, rows_allowed, rules_allowed};
use std::alloc::AllocError;
use thiserror::Error;

/// The most places of a counted book.
pub const MAX_PLACES: usize = 12;

/// The most that a model holds at a place.
const MAX_HELD: u32 = 65535;

/// A rule: what it takes from each place, and what it gives.
// Two lists and not one of pairs: a rule whose lists differ in length is refused by `Counts::new`, and a
// list of pairs would ask that of the caller.
#[derive(Drop)]
pub struct Rule {
    pub takes: Vec<u8>,
    pub gives: Vec<u8>,
}

/// A row: the least count at each place.
#[derive(Drop)]
pub struct Row {
    pub least: Vec<u16>,
}

/// A counted book as it is handed in. Nothing of it is checked yet.
#[derive(Drop)]
pub struct Net {
    pub opening: Vec<u16>,
    pub rules: Vec<Rule>,
    pub rows: Vec<Row>,
}

/// Why a net is no counted book. Of several grounds the first listed counts.
#[derive(Clone, Copy, PartialEq, Eq, Debug, Error)]
pub enum NetRefusal {
    #[error("there are not 1 to 12 places")]
    Places,
    #[error("there are not 1 to 32 rules")]
    Rules,
    #[error("there are not 1 to 64 rows")]
    Rows,
    #[error("a rule does not take and give at each place")]
    RuleLength,
    #[error("a row has not a number for each place")]
    RowLength,
    #[error("there is no memory for the marking")]
    OutOfMemory,
}

impl From<AllocError> for NetRefusal {
    ghost from_gives = { λ _ r. r ≡ OutOfMemory };

    fn from(_: AllocError) -> NetRefusal {
        NetRefusal::OutOfMemory
    }
}

impl Net {
    /// Whether the net is a counted book, within the limits.
    pub(crate) fn check(&self) -> Result<(), NetRefusal>
        ensures { MatchResult result (λ _. InRange (book_of self.now)) (λ e. RefusedBy (book_of self.now) e × (e ≢ OutOfMemory)) }
    {
        let places = self.opening.len();
        if !(1..=MAX_PLACES).contains(&places) {
            return Err(NetRefusal::Places);
        }
        if !rules_allowed(self.rule_count()) {
            return Err(NetRefusal::Rules);
        }
        if !rows_allowed(self.row_count()) {
            return Err(NetRefusal::Rows);
        }
        if !self.rules_fit(places) {
            return Err(NetRefusal::RuleLength);
        }
        if !self.rows_fit(places) {
            return Err(NetRefusal::RowLength);
        }
        Ok(())
    }

    /// How many rules there are.
    pub fn rule_count(&self) -> usize
        ensures { result ≡ length (book_of self.now).rules }
    {
        self.rules.len()
    }

    /// How many rows there are.
    pub fn row_count(&self) -> usize
        ensures { result ≡ length (book_of self.now).rows }
    {
        self.rows.len()
    }

    /// The rule with this number.
    pub(crate) fn rule(&self, number: usize) -> Option<&Rule>
        ensures { MatchOption result (length (book_of self.now).rules ≤ number) (λ x. (number < length (book_of self.now).rules) × (transition_of x.now ≡ rule_at (book_of self.now) number)) }
    {
        self.rules.get(number)
    }

    /// The row with this number.
    pub(crate) fn row(&self, number: usize) -> Option<&Row>
        ensures { MatchOption result (length (book_of self.now).rows ≤ number) (λ x. (number < length (book_of self.now).rows) × (least_of x.now ≡ row_at (book_of self.now) number)) }
    {
        self.rows.get(number)
    }

    /// The row and the rule of a case: each row and rule have one, with number 0.
    pub(crate) fn case(&self, case: Case) -> Option<(&Row, &Rule)>
        ensures { MatchOption result (Exists (book_of self.now) case → ⊥) (λ x. Exists (book_of self.now) case × (least_of x.0.now ≡ row_at (book_of self.now) case.row) × (transition_of x.1.now ≡ rule_at (book_of self.now) case.rule)) }
    {
        if case.number != 0 {
            return None;
        }
        Some((self.row(case.row)?, self.rule(case.rule)?))
    }

    // Beside `rows_fit`: each is one call, and the contract says what it decides of plain data.
    /// Whether each rule takes and gives at each of so many places.
    fn rules_fit(&self, places: usize) -> bool
        ensures { Decides result ((rule : ℕ) → rule < length (book_of self.now).rules → RuleFits places (rule_at (book_of self.now) rule)) }
    {
        self.rules.iter().all(|rule| rule.fits(places))
    }

    /// Whether each row has a number for each of so many places.
    fn rows_fit(&self, places: usize) -> bool
        ensures { Decides result ((row : ℕ) → row < length (book_of self.now).rows → RowFits places (row_at (book_of self.now) row)) }
    {
        self.rows.iter().all(|row| row.fits(places))
    }
}

/// The number at a place; past the end it is `none`.
fn at<T: Copy>(numbers: &[T], place: usize, none: T) -> T
    ensures { result ≡ slice_index_or numbers.now place none }
{
    numbers.get(place).copied().unwrap_or(none)
}

impl Row {
    /// Whether the row has a number for each of so many places.
    pub(crate) fn fits(&self, places: usize) -> bool
        ensures { Decides result (RowFits places (least_of self.now)) }
    {
        self.least.len() == places
    }

    /// Whether every place of the marking has at least the row's number.
    pub(crate) fn stands_in(&self, marking: &[u16]) -> bool
        ensures { Decides result (tally self.now.least.items ⊑ tally marking.now) }
    {
        self.least
            .iter()
            .enumerate()
            .all(|(place, least)| at(marking, place, 0) >= *least)
    }
}

impl Rule {
    /// Whether the rule takes and gives at each of so many places.
    pub(crate) fn fits(&self, places: usize) -> bool
        ensures { Decides result (RuleFits places (transition_of self.now)) }
    {
        self.takes.len() == places && self.gives.len() == places
    }

    /// What the rule leaves at a place that has so many.
    fn leaves(&self, place: usize, count: u16) -> u32
        ensures { result ≡ count - tally self.now.takes.items place + tally self.now.gives.items place }
    {
        let take = u32::from(at(&self.takes, place, 0));
        let give = u32::from(at(&self.gives, place, 0));
        u32::from(count).saturating_sub(take) + give
    }

    /// Fires the rule in the marking, or refuses and leaves it.
    pub(crate) fn fire(&self, marking: &mut [u16]) -> Result<(), FireRefusal>
        requires { length self.now.gives.items ≤ length marking.old }
        ensures checked { Checked (tally self.now.takes.items) (tally self.now.gives.items) (tally marking.old) result }
        ensures moved { OnOk result (tally marking.new ≡ after (tally self.now.takes.items) (tally self.now.gives.items) (tally marking.old)) }
        ensures stays { OnErr result (marking.new ≡ marking.old) }
    {
        self.check(marking)?;
        self.apply(marking);
        Ok(())
    }

    /// Whether the rule can fire in the marking, and to a marking that the model holds.
    fn check(&self, marking: &[u16]) -> Result<(), FireRefusal>
        requires { length self.now.gives.items ≤ length marking.now }
        ensures { Checked (tally self.now.takes.items) (tally self.now.gives.items) (tally marking.now) result }
    {
        if !self.is_met(marking) {
            return Err(FireRefusal::ConditionNotMet);
        }
        if !self.stays_held(marking) {
            return Err(FireRefusal::BeyondModel);
        }
        Ok(())
    }

    /// Whether the marking has at each place what the rule takes.
    fn is_met(&self, marking: &[u16]) -> bool
        ensures { Decides result (tally self.now.takes.items ⊑ tally marking.now) }
    {
        self.takes
            .iter()
            .enumerate()
            .all(|(place, take)| at(marking, place, 0) >= u16::from(*take))
    }

    /// Whether the model holds what the rule makes of the marking.
    fn stays_held(&self, marking: &[u16]) -> bool
        requires { length self.now.gives.items ≤ length marking.now }
        ensures { Decides result (Held (after (tally self.now.takes.items) (tally self.now.gives.items) (tally marking.now))) }
    {
        marking
            .iter()
            .enumerate()
            .all(|(place, count)| self.leaves(place, *count) <= MAX_HELD)
    }

    /// Fires the rule in the marking, where `check` says that it can.
    fn apply(&self, marking: &mut [u16])
        requires { Held (after (tally self.now.takes.items) (tally self.now.gives.items) (tally marking.old)) }
        ensures { (place : ℕ) → place < length marking.old → tally marking.new place ≡ after (tally self.now.takes.items) (tally self.now.gives.items) (tally marking.old) place }
    {
        for (place, count) in marking.iter_mut().enumerate() {
            *count = self.leaves(place, *count) as u16;
        }
    }

    /// What the earlier pattern of the rule and a row asks of a place.
    pub(crate) fn earlier(&self, row: &Row, place: usize) -> u32
        ensures { result ≡ earlier (tally self.now.takes.items) (tally self.now.gives.items) (tally row.now.least.items) place }
    {
        let take = u32::from(at(&self.takes, place, 0));
        let give = u32::from(at(&self.gives, place, 0));
        let least = u32::from(at(&row.least, place, 0));
        take + least.saturating_sub(give)
    }

    /// Whether the earlier pattern of the rule and a row is at least as large as another row everywhere.
    pub(crate) fn covers(&self, row: &Row, named: &Row) -> bool
        ensures { Decides result (tally named.now.least.items ⊑ earlier (tally self.now.takes.items) (tally self.now.gives.items) (tally row.now.least.items)) }
    {
        named.least.iter().enumerate().all(|(place, least)| self.earlier(row, place)
            >= u32::from(*least))
    }
}
