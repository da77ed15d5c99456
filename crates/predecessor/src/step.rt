ghost use Rattle.std.specs.Prelude.{◌≡◌};
ghost use Rattle.literals.specs.State.{chosen};
ghost use Rattle.literals.specs.Renamed.{renamed};
ghost use Rattle.atoms.specs.Data.{pattern_of};
ghost use Rattle.predecessor.specs.Earlier.{ruled_out, literals_before, pattern_before};
ghost use Rattle.predecessor.specs.Kind.{naming_sort, pattern_covering};
ghost use Rattle.predecessor.specs.Made.{literals_of};
ghost use Rattle.predecessor.specs.System.{rule_of, row_of};

use crate::case::RuleIntoRow;
use crate::earlier::Earlier;
use crate::effect::{makes_false, stays};
use crate::matching::{covers, covers_itself, well_formed};
use crate::naming::{MAX_NAMES, proper};
use arrayvec::ArrayVec;
use atoms::Row;
use literals::{Renamed, contradictory};
use pattern::{Covering, Sort};

/// A step backwards out of a row over a rule: which variable each variable of the rule is.
#[derive(Drop)]
pub(crate) struct StepBack<'a> {
    pub(crate) pair: RuleIntoRow<'a>,
    pub(crate) names: ArrayVec<u8, MAX_NAMES>,
}

impl StepBack<'_> {
    /// The rule's effect.
    fn effect(&self) -> Renamed<'_>
        ensures { renamed result ≡ chosen self.now.names.items (rule_of self.now.pair).effect }
    {
        Renamed {
            literals: &self.pair.rule.effect,
            names: &self.names,
        }
    }

    /// Whether the case is idle by its naming or its effect alone.
    fn is_ruled_out(&self) -> bool
        ensures { result ≡ ruled_out (rule_of self.now.pair) (row_of self.now.pair) self.now.names.items }
    {
        let effect = self.effect();
        !proper(self.pair.row.variables, &self.names)
            || effect.is_contradictory()
            || makes_false(&effect, &self.pair.row.literals)
    }

    /// The literals of the earlier pattern.
    pub(crate) fn earlier(&self) -> Earlier
        ensures { literals_of result ≡ literals_before (rule_of self.now.pair) (row_of self.now.pair) self.now.names.items }
    {
        let effect = self.effect();
        // Pushed one by one: a case always has room.
        let mut earlier = Earlier::new();
        for literal in &self.pair.rule.condition {
            earlier.push(literal.under(&self.names));
        }
        for literal in &self.pair.row.literals {
            if stays(&effect, *literal) {
                earlier.push(*literal);
            }
        }
        earlier
    }

    /// The sort of the case.
    pub(crate) fn sort(&self) -> Sort
        ensures { result ≡ naming_sort (rule_of self.now.pair) (row_of self.now.pair) self.now.names.items }
    {
        if self.is_ruled_out() {
            return Sort::Idle;
        }
        let earlier = self.earlier();
        if contradictory(earlier.literals()) {
            Sort::Idle
        } else if covers_itself(earlier.literals(), self.pair.row) {
            Sort::Own
        } else {
            Sort::Open
        }
    }

    /// What a matching of a named row says of the case.
    pub(crate) fn covering(&self, named: &Row, matching: &[u8]) -> Covering
        ensures { result ≡ pattern_covering (pattern_before (rule_of self.now.pair) (row_of self.now.pair) self.now.names.items) (pattern_of named.now) matching.now }
    {
        if !well_formed(named, self.pair.variables(), matching) {
            Covering::Malformed
        } else if covers(self.earlier().literals(), matching, named) {
            Covering::Covers
        } else {
            Covering::DoesNotCover
        }
    }
}
