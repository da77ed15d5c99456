ghost use Rattle.std.specs.Prelude.{◌≡◌};
ghost use Rattle.literals.specs.Follow.{follows, contradictory};
ghost use Rattle.literals.specs.Renamed.{renamed};

use crate::literal::Literal;

/// Some literals, each variable as its object, or as its variable, in a list.
#[derive(Clone, Copy)]
pub struct Renamed<'a> {
    pub literals: &'a [Literal],
    pub names: &'a [u8],
}

// Each chain over the renamed literals is written out, and proves itself: with an `any` that took the test,
// callers would have to prove that it may be called, and what it gives.
impl Renamed<'_> {
    /// Whether a literal follows from these.
    pub fn follows(&self, literal: Literal) -> bool
        ensures { result ≡ follows (renamed self.now) literal }
    {
        self.literals
            .iter()
            .map(|given| given.under(self.names))
            .any(|given| given.yields(literal))
    }

    /// Whether these are contradictory.
    pub fn is_contradictory(&self) -> bool
        ensures { result ≡ contradictory (renamed self.now) }
    {
        self.literals
            .iter()
            .map(|literal| literal.under(self.names))
            .any(|literal| self.follows(literal.denial()))
    }
}
