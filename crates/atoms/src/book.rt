ghost use Rattle.std.specs.Prelude.{◌≡◌};
ghost use Rattle.atoms.specs.Book.{affirmed};

use literals::{Fact, Literal};
use thiserror::Error;

/// A ground atom.
#[derive(Clone, Copy, PartialEq, Eq, Debug)]
pub enum Atom {
    /// a(object)
    Unary { relation: u8, object: u8 },
    /// b(first, second)
    Binary { relation: u8, first: u8, second: u8 },
}

impl From<Atom> for Fact {
    ghost from_gives = { λ atom fact. fact ≡ (affirmed atom).fact };

    fn from(atom: Atom) -> Fact {
        match atom {
            Atom::Unary { relation, object } => Fact::Unary {
                relation,
                x: object,
            },
            Atom::Binary {
                relation,
                first,
                second,
            } => Fact::Binary {
                relation,
                x: first,
                y: second,
            },
        }
    }
}

/// A rule: a guarded transition over variables.
#[derive(Drop)]
pub struct Rule {
    pub variables: u8,
    pub condition: Vec<Literal>,
    pub effect: Vec<Literal>,
}

/// A row: a pattern. Some distinct objects, one for each variable, satisfy the literals.
#[derive(Drop)]
pub struct Row {
    pub variables: u8,
    pub literals: Vec<Literal>,
}

/// A book of atoms as it is handed in. Nothing of it is checked yet.
#[derive(Drop)]
pub struct Book {
    pub opening: Vec<Atom>,
    pub rules: Vec<Rule>,
    pub rows: Vec<Row>,
}

/// Why data is no book of atoms. Of several grounds the first listed counts.
#[derive(Clone, Copy, PartialEq, Eq, Debug, Error)]
pub enum BookRefusal {
    #[error("the opening has more than 24 atoms")]
    OpeningLength,
    #[error("an atom of the opening has a relation or an object that no model has")]
    OpeningRange,
    #[error("there are not 1 to 32 rules")]
    Rules,
    #[error("there are not 1 to 64 rows")]
    Rows,
    #[error("a rule has too many variables or literals, a literal out of range, or an effect that affirms no atom")]
    RuleRange,
    #[error("a row has too many variables or literals, or a literal out of range")]
    RowRange,
}
