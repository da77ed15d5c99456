ghost use Rattle.std.specs.Prelude.{◌≡◌, ℕ, ◌-◌, ◌<◌, ◌≤◌, List, [], ◌∷◌, ◌++◌, length, Decides};
ghost use Rattle.arrayvec.specs.ArrayVec.{array_vec_len};
ghost use Rattle.atoms.specs.Pattern.{StandsIn};
ghost use Rattle.atoms.specs.Range.{RowIn, most_row_literals, most_row_variables};
ghost use Rattle.atoms.specs.Data.{pattern_of};
ghost use Rattle.atoms.specs.Cells.{state_of};
ghost use Rattle.atoms.specs.Placing.{at, New, AllHoldAt, due as due_of, Placed, candidate, Outcome};

use crate::book::Row;
use crate::cells::{Cells, OBJECTS};
use crate::range::MAX_ROW_LITERALS;
use arrayvec::ArrayVec;
use literals::Literal;

/// The most variables of a row.
pub const MAX_ROW_VARIABLES: usize = 5;

impl Row {
    /// Whether the row stands in the state: its variables can be placed on different objects, any
    /// whole numbers, so that every literal holds.
    pub(crate) fn stands_in(&self, cells: &Cells) -> bool
        requires { RowIn (pattern_of self.now) }
        ensures { Decides result (StandsIn (pattern_of self.now) (state_of cells.now)) }
    {
        self.place(cells, &mut ArrayVec::new())
    }

    /// Places the variables after those that are placed, by trying the objects for each in turn.
    // A recursion, as backtracking is: a rule of the project.
    fn place(&self, cells: &Cells, placed: &mut ArrayVec<u8, MAX_ROW_VARIABLES>) -> bool
        requires within { array_vec_len placed.old ≤ self.now.variables }
        requires few { self.now.variables ≤ most_row_variables }
        requires short { length self.now.literals.items ≤ most_row_literals }
        requires so_far { Placed (pattern_of self.now) (state_of cells.now) placed.old.items }
        ensures { Outcome (pattern_of self.now) (state_of cells.now) placed.old.items placed.new.items result }
    {
        // Narrowed without loss: at most `MAX_ROW_VARIABLES` are placed.
        let next = placed.len() as u8;
        if next == self.variables {
            return true;
        }
        let mut due = ArrayVec::new();
        self.find_due(next, &mut due);
        // One place for all candidates: each is written over the one before it.
        placed.push(0);
        for k in 0..=OBJECTS {
            set_last(placed, candidate(next, k));
            if fits(cells, placed, &due) && self.place(cells, placed) {
                return true;
            }
        }
        placed.pop();
        false
    }

    /// Adds the literals of which this is the last variable, found once for all its candidates.
    fn find_due(&self, variable: u8, due: &mut ArrayVec<Literal, MAX_ROW_LITERALS>)
        requires few { length self.now.literals.items ≤ most_row_literals }
        requires none { due.old.items ≡ [] }
        ensures { due.new.items ≡ due_of variable self.now.literals.items }
    {
        // Pushed one by one, since `extend` would answer for want of room, which there never is.
        for literal in &self.literals {
            if literal.fact.last_variable() == variable {
                due.push(*literal);
            }
        }
    }
}

/// Whether the variable that was placed last fits beside those before it: on another object, and
/// every literal that is due holds.
fn fits(cells: &Cells, placed: &[u8], due: &[Literal]) -> bool
    requires { 0 < length placed.now }
    ensures { Decides result (New (at placed.now) (length placed.now - 1) × AllHoldAt (state_of cells.now) (at placed.now) due.now) }
{
    let [earlier @ .., last] = placed else {
        return false;
    };
    // One by one, and not by `contains`, which is made for long lists.
    let last = *last;
    !earlier.iter().any(|object| *object == last)
        && due.iter().all(|literal| cells.holds(literal.under(placed)))
}

/// The objects to try for a variable, by number: those of the model, and one beyond it.
fn candidate(variable: u8, k: u8) -> u8
    requires { variable ≤ most_row_variables }
    ensures { result ≡ candidate variable k }
{
    if k < OBJECTS { k } else { OBJECTS + variable }
}

/// Puts an object where the last one is.
fn set_last(placed: &mut ArrayVec<u8, MAX_ROW_VARIABLES>, object: u8)
    ensures { (before : List ℕ) (x : ℕ) → placed.old.items ≡ before ++ x ∷ [] → placed.new.items ≡ before ++ object ∷ [] }
{
    if let Some(last) = placed.last_mut() {
        *last = object;
    }
}
