ghost use Rattle.std.specs.Prelude.{◌≡◌};
ghost use Rattle.atoms.specs.Book.{object_count};
ghost use Rattle.atoms.specs.Range.{FactIn, LiteralIn};
ghost use Rattle.literals.specs.Renamed.{renamed};
ghost use Rattle.std.specs.List.{AllByRecursion};
ghost use Rattle.atoms.specs.Fire.{after};
ghost use Rattle.atoms.specs.Cells.{state_of, gains, loses, gained, lost};

use crate::cells::{Cells, RELATIONS};
use literals::{Fact, Renamed};

impl Cells {
    /// Adds the atom that a fact is; one that is none adds none.
    pub(crate) fn gain(&mut self, fact: Fact)
        requires { FactIn object_count fact }
        ensures { state_of self.new ≡ gains fact (state_of self.old) }
    {
        match fact {
            Fact::Unary { relation, x } => self.unary[usize::from(relation)].insert(x),
            Fact::Binary { relation, x, y } => self.binary[usize::from(relation)].insert(x, y),
            Fact::From { .. } | Fact::Into { .. } => {}
        }
    }

    /// Takes away the atoms that imply a fact.
    fn lose(&mut self, fact: Fact)
        ensures { state_of self.new ≡ loses fact (state_of self.old) }
    {
        // Asked once, and then indexed, as in `has`.
        if fact.relation() >= RELATIONS {
            return;
        }
        match fact {
            Fact::Unary { relation, x } => self.unary[usize::from(relation)].remove(x),
            Fact::Binary { relation, x, y } => self.binary[usize::from(relation)].remove(x, y),
            Fact::From { relation, x } => self.binary[usize::from(relation)].remove_from(x),
            Fact::Into { relation, x } => self.binary[usize::from(relation)].remove_into(x),
        }
    }

    /// Adds the atoms that an effect affirms.
    fn gain_all(&mut self, effect: &Renamed<'_>)
        requires { AllByRecursion (LiteralIn object_count) (renamed effect.now) }
        ensures { state_of self.new ≡ gained (renamed effect.now) (state_of self.old) }
    {
        for literal in effect.literals {
            if literal.affirmed {
                self.gain(literal.under(effect.names).fact);
            }
        }
    }

    /// Takes away the atoms that an effect denies.
    // Beside `gain_all`, and not one function over the sign, since they share the loop alone.
    fn lose_all(&mut self, effect: &Renamed<'_>)
        ensures { state_of self.new ≡ lost (renamed effect.now) (state_of self.old) }
    {
        for literal in effect.literals {
            if !literal.affirmed {
                self.lose(literal.under(effect.names).fact);
            }
        }
    }

    /// What an effect makes of the state: it adds first, and then takes away.
    pub(crate) fn change(&mut self, effect: &Renamed<'_>)
        requires { AllByRecursion (LiteralIn object_count) (renamed effect.now) }
        ensures { state_of self.new ≡ after (renamed effect.now) (state_of self.old) }
    {
        self.gain_all(effect);
        self.lose_all(effect);
    }
}
