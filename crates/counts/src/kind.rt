ghost use Rattle.std.specs.Prelude.{◌≡◌, ◌<◌, length, IfOk, if◌then◌else◌, Some, None};
ghost use Rattle.counts.specs.Net.{Marking, tally, Held};
ghost use Rattle.counts.specs.Counted.{CountedBook, exists, earlier_of, counted_meaning, Exact};
ghost use Rattle.counts.specs.Data.{book_of};
ghost use Rattle.counts.specs.Kind.{counts_book, counts_state, Made};
ghost use Rattle.counts.specs.Duty.{counted_duties};

use crate::counted::Counts;
use crate::net::{Net, NetRefusal};
use pattern::{Case, Covering, FireRefusal, LookRefusal, PatternKind, Sort};
use std::alloc::{AllocError, Global};

impl Counts {
    /// Makes a pattern kind of a net that is in range, in its opening state.
    pub fn new(heap: Global, net: Net) -> Result<Counts, NetRefusal>
        ensures { Made (book_of net) result }
    {
        net.check()?;
        let marking = copied(heap, &net.opening)?;
        Ok(Counts { net, marking })
    }

    /// The count at each place.
    pub fn marking(&self) -> &[u16]
        ensures counts { tally result.now ≡ counts_state self.now }
        ensures places { length result.now ≡ length (counts_book self.now).opening }
    {
        &self.marking
    }

    /// What the earlier pattern of a case asks of a place, where there is such a case. The pattern
    /// is exact: its states are those from which the rule leads into the row.
    pub fn earlier(&self, case: Case, place: usize) -> Option<u32>
        ensures value { result ≡ (if exists (counts_book self.now) case then Some (earlier_of (counts_book self.now) case place) else None) }
        ensures exact { Exact (counts_book self.now) case }
    {
        let (row, rule) = self.net.case(case)?;
        Some(rule.earlier(row, place))
    }
}

/// A copy of the counts, which are such as a model holds.
fn copied(heap: Global, counts: &[u16]) -> Result<Vec<u16>, AllocError>
    ensures same { IfOk result (λ v. v.items ≡ counts.now) }
    ensures held { Held (tally counts.now) }
{
    counts.to_vec(heap)
}

impl PatternKind for Counts {
    ghost State = { Marking };

    ghost Book = { CountedBook };

    ghost meaning = { counted_meaning };

    ghost book = { counts_book };

    ghost state = { counts_state };

    ghost duties = { λ k. counted_duties (book_of k.net) k.rules_in k.rows_in k.opens };

    fn rules(&self) -> usize {
        self.net.rule_count()
    }

    fn rows(&self) -> usize {
        self.net.row_count()
    }

    fn cases(&self, row: usize, rule: usize) -> usize {
        if row < self.net.row_count() && rule < self.net.rule_count() {
            1
        } else {
            0
        }
    }

    fn sort(&self, case: Case) -> Sort {
        let Some((row, rule)) = self.net.case(case) else {
            return Sort::Idle;
        };
        if rule.covers(row, row) {
            Sort::Own
        } else {
            Sort::Open
        }
    }

    fn matching_length(&self, row: usize) -> usize {
        0
    }

    fn covering(&self, case: Case, named: usize, matching: &[u8]) -> Covering {
        if !matching.is_empty() {
            return Covering::Malformed;
        }
        let (Some((row, rule)), Some(named)) = (self.net.case(case), self.net.row(named)) else {
            return Covering::Malformed;
        };
        if rule.covers(row, named) {
            Covering::Covers
        } else {
            Covering::DoesNotCover
        }
    }

    fn stands_in_opening(&self, row: usize) -> bool {
        self.net
            .row(row)
            .is_some_and(|row| row.stands_in(&self.net.opening))
    }

    fn fire(&mut self, rule: usize, choice: &[u8]) -> Result<(), FireRefusal> {
        let rule = self.net.rule(rule).ok_or(FireRefusal::NoSuchRule)?;
        if !choice.is_empty() {
            return Err(FireRefusal::ChoiceNotHeld);
        }
        rule.fire(&mut self.marking)
    }

    fn look(&self, row: usize) -> Result<bool, LookRefusal> {
        let row = self.net.row(row).ok_or(LookRefusal::NoSuchRow)?;
        Ok(row.stands_in(&self.marking))
    }

    fn restart(&mut self) {
        self.marking.copy_from_slice(&self.net.opening);
    }
}
