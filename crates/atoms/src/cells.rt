ghost use Rattle.std.specs.Prelude.{◌≡◌, ℕ, true, Decides};
ghost use Rattle.literals.specs.State.{TrueIn, Holds};
ghost use Rattle.atoms.specs.Book.{nothing};
ghost use Rattle.atoms.specs.Cells.{state_of};

use crate::objects::{Objects, Pairs};
use literals::{Fact, Literal};

/// How many objects a model has.
pub const OBJECTS: u8 = 16;

/// How many relations of each sort there are.
pub const RELATIONS: u8 = 8;

/// A state of a model: the objects of each unary relation, and the pairs of each binary one.
#[derive(Clone, Copy)]
pub struct Cells {
    // `as` in a length, where `From` cannot be called.
    pub(super) unary: [Objects; RELATIONS as usize],
    pub(super) binary: [Pairs; RELATIONS as usize],
}

impl Cells {
    /// The empty state.
    pub(crate) fn new() -> Cells
        ensures { state_of result ≡ nothing }
    {
        Cells {
            unary: [Objects::new(); RELATIONS as usize],
            binary: [Pairs::new(); RELATIONS as usize],
        }
    }

    /// Whether a fact of objects is true in the state.
    fn has(&self, fact: Fact) -> bool
        ensures { Decides result (TrueIn (state_of self.now) fact) }
    {
        // The relation is asked in each arm, so that a fact is told apart once.
        match fact {
            Fact::Unary { relation, x } => relation < RELATIONS
                && self.unary[usize::from(relation)].contains(x),
            Fact::Binary { relation, x, y } => relation < RELATIONS
                && self.binary[usize::from(relation)].contains(x, y),
            Fact::From { relation, x } => relation < RELATIONS
                && self.binary[usize::from(relation)].has_from(x),
            Fact::Into { relation, x } => relation < RELATIONS
                && self.binary[usize::from(relation)].has_into(x),
        }
    }

    /// Whether a literal of objects holds in the state.
    pub(crate) fn holds(&self, literal: Literal) -> bool
        ensures { Decides result (Holds (state_of self.now) literal) }
    {
        self.has(literal.fact) == literal.affirmed
    }
}
