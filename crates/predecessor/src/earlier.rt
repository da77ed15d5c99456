ghost use Rattle.std.specs.Prelude.{◌≤◌};

use literals::Literal;

/// The most literals of an earlier pattern: as many as a rule's condition and a row can have.
pub const MAX_LITERALS: usize = 28;

/// The literals of an earlier pattern.
// An array with their number beside it: the type is `Copy`, which an `ArrayVec` is not.
#[derive(Clone, Copy)]
pub struct Earlier {
    pub(super) literals: [Literal; MAX_LITERALS],
    pub(super) count: usize,
    ghost within: { count ≤ 28 },
}

impl Earlier {
    ghost use Rattle.std.specs.Prelude.{◌≡◌, ◌<◌, [], ◌∷◌, ◌++◌, length};
    ghost use Rattle.predecessor.specs.Made.{literals_of};

    /// No literals yet.
    pub(crate) fn new() -> Earlier
        ensures { literals_of result ≡ [] }
    {
        Earlier {
            literals: [Literal::default(); MAX_LITERALS],
            count: 0,
        }
    }

    /// The literals.
    pub fn literals(&self) -> &[Literal]
        ensures { result.now ≡ literals_of self.now }
    {
        &self.literals[..self.count]
    }

    /// Adds a literal.
    pub(crate) fn push(&mut self, literal: Literal)
        requires { length (literals_of self.old) < 28 }
        ensures { literals_of self.new ≡ literals_of self.old ++ literal ∷ [] }
    {
        self.literals[self.count] = literal;
        self.count += 1;
    }
}
