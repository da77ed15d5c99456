ghost use Rattle.std.specs.Prelude.{◌≡◌};
ghost use Rattle.atoms.specs.Range.{RuleIn, RowIn};
ghost use Rattle.atoms.proofs.Ranged.{rule_one, row_one};
ghost use Rattle.atoms.specs.Data.{transition_of, pattern_of};
ghost use Rattle.predecessor.specs.Earlier.{case_variables, case_count, renaming};

use crate::naming::MAX_NAMES;
use crate::step::StepBack;
use arrayvec::ArrayVec;
use atoms::{Row, Rule};

/// A rule that may lead into a row, both in range.
#[derive(Clone, Copy)]
pub(crate) struct RuleIntoRow<'a> {
    pub(crate) rule: &'a Rule,
    pub(crate) row: &'a Row,
    ghost rule_in: { RuleIn (transition_of rule.now) } by { rule_one (transition_of rule.now) },
    ghost row_in: { RowIn (pattern_of row.now) } by { row_one (pattern_of row.now) },
}

impl<'a> RuleIntoRow<'a> {
    ghost use Rattle.predecessor.specs.System.{rule_of, row_of};

    /// How many variables a case has: those of the row, and as many new ones as the rule could need.
    pub(crate) fn variables(&self) -> u8
        ensures { result ≡ case_variables (rule_of self.now) (row_of self.now) }
    {
        self.row.variables + self.rule.variables
    }

    /// How many cases there are.
    pub(crate) fn case_count(&self) -> usize
        ensures { result ≡ case_count (rule_of self.now) (row_of self.now) }
    {
        usize::from(self.variables()).pow(u32::from(self.rule.variables))
    }

    /// The step backwards in the case with this number.
    pub(crate) fn step_back(&self, number: usize) -> StepBack<'a>
        ensures pair { result.pair ≡ self.now }
        ensures names { result.names.items ≡ renaming (rule_of self.now) (row_of self.now) number }
    {
        StepBack {
            pair: *self,
            names: self.names(number),
        }
    }

    /// Which variable each variable of the rule is in a case: the digits of its number, lowest first.
    fn names(&self, number: usize) -> ArrayVec<u8, MAX_NAMES>
        ensures { result.items ≡ renaming (rule_of self.now) (row_of self.now) number }
    {
        let base = usize::from(self.variables());
        // A `for`: a chain would carry `rest` in a closure that changes it.
        let mut names = ArrayVec::new();
        let mut rest = number;
        for _ in 0..self.rule.variables {
            // Narrowed without loss: a digit is below the base, which is a `u8`.
            names.push((rest % base) as u8);
            rest /= base;
        }
        names
    }
}
