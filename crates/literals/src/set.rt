ghost use Rattle.std.specs.Prelude.{◌≡◌};
ghost use Rattle.literals.specs.Follow.{follows, contradictory, Sound};

use crate::literal::Literal;

// Beside the methods of `Renamed`, since a slice of literals has no names to rename by, and a renamed one is not built.

/// Whether a literal follows from a set: then it holds in every state where the set does.
pub fn follows(literals: &[Literal], literal: Literal) -> bool
    ensures value { result ≡ follows literals.now literal }
    ensures sound { Sound literals.now }
{
    literals.iter().any(|given| given.yields(literal))
}

/// Whether a set is contradictory: the denial of one of it follows from it, and it holds in no state.
pub fn contradictory(literals: &[Literal]) -> bool
    ensures value { result ≡ contradictory literals.now }
    ensures sound { Sound literals.now }
{
    literals
        .iter()
        .any(|literal| follows(literals, literal.denial()))
}
