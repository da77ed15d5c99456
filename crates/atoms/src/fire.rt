ghost use Rattle.std.specs.Prelude.{◌≡◌, Decides};
ghost use Rattle.literals.specs.State.{AllHold, chosen};
ghost use Rattle.literals.specs.Renamed.{renamed};
ghost use Rattle.atoms.specs.Book.{ChoiceHeld};
ghost use Rattle.atoms.specs.Range.{RuleIn};
ghost use Rattle.atoms.specs.Data.{transition_of};
ghost use Rattle.atoms.specs.Cells.{state_of};
ghost use Rattle.atoms.specs.Firing.{Checked, Fires};

use crate::book::Rule;
use crate::cells::{Cells, OBJECTS};
use literals::Renamed;
use pattern::FireRefusal;

impl Rule {
    /// Fires the rule on the chosen objects, or refuses and leaves the state.
    pub(crate) fn fire(&self, cells: &mut Cells, choice: &[u8]) -> Result<(), FireRefusal>
        requires { RuleIn (transition_of self.now) }
        ensures { Fires (transition_of self.now) (state_of cells.old) choice.now result (state_of cells.new) }
    {
        self.check(cells, choice)?;
        cells.change(&self.effect_under(choice));
        Ok(())
    }

    /// Whether the rule can fire on the chosen objects.
    fn check(&self, cells: &Cells, choice: &[u8]) -> Result<(), FireRefusal>
        ensures { Checked (transition_of self.now) (state_of cells.now) choice.now result }
    {
        if !self.holds_choice(choice) {
            return Err(FireRefusal::ChoiceNotHeld);
        }
        if !cells.all_hold(&self.condition_under(choice)) {
            return Err(FireRefusal::ConditionNotMet);
        }
        if self.effect_under(choice).is_contradictory() {
            return Err(FireRefusal::EffectContradictory);
        }
        Ok(())
    }

    /// The condition on the chosen objects.
    fn condition_under<'a>(&'a self, choice: &'a [u8]) -> Renamed<'a>
        ensures { renamed result ≡ chosen choice.now (transition_of self.now).condition }
    {
        Renamed {
            literals: &self.condition,
            names: choice,
        }
    }

    /// The effect on the chosen objects.
    fn effect_under<'a>(&'a self, choice: &'a [u8]) -> Renamed<'a>
        ensures { renamed result ≡ chosen choice.now (transition_of self.now).effect }
    {
        Renamed {
            literals: &self.effect,
            names: choice,
        }
    }

    /// Whether the choice has an object of the model for each variable.
    fn holds_choice(&self, choice: &[u8]) -> bool
        ensures { Decides result (ChoiceHeld (transition_of self.now) choice.now) }
    {
        choice.len() == usize::from(self.variables) && choice.iter().all(|object| *object < OBJECTS)
    }
}

impl Cells {
    /// Whether every literal holds.
    fn all_hold(&self, literals: &Renamed<'_>) -> bool
        ensures { Decides result (AllHold (state_of self.now) (renamed literals.now)) }
    {
        literals
            .literals
            .iter()
            .all(|literal| self.holds(literal.under(literals.names)))
    }
}
