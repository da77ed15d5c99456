ghost use Rattle.std.specs.Prelude.{◌≡◌, not, ◌&&◌, ◌||◌};
ghost use Rattle.std.specs.List.{list_any};
ghost use Rattle.literals.specs.Renamed.{renamed};
ghost use Rattle.predecessor.specs.Earlier.{loosens, thins, loosened, made_true, made_false};

use literals::{Fact, Literal, Renamed};

/// Whether the denial of one fact may take the last pair of another.
fn loosens(denied: Fact, fact: Fact) -> bool
    ensures { result ≡ loosens denied fact }
{
    match (denied, fact) {
        (
            Fact::Binary {
                relation: c,
                x: y,
                ..
            },
            Fact::From { relation: b, x },
        ) => c == b && y == x,
        (
            Fact::Binary {
                relation: c,
                y: z,
                ..
            },
            Fact::Into { relation: b, x },
        ) => c == b && z == x,
        (Fact::From { relation: c, .. }, Fact::Into { relation: b, .. })
        | (Fact::Into { relation: c, .. }, Fact::From { relation: b, .. }) => c == b,
        _ => false,
    }
}

/// Whether a literal is a denial that may take the last pair of a fact.
fn takes(literal: Literal, fact: Fact) -> bool
    ensures { result ≡ (not literal.affirmed && loosens literal.fact fact) }
{
    !literal.affirmed && loosens(literal.fact, fact)
}

/// Whether some denial of an effect may take the last pair of a fact.
fn thins(effect: &Renamed<'_>, fact: Fact) -> bool
    ensures { result ≡ thins (renamed effect.now) fact }
{
    effect
        .literals
        .iter()
        .map(|literal| literal.under(effect.names))
        .any(|literal| takes(literal, fact))
}

/// Whether a literal stays in the earlier pattern: the effect neither makes it true nor loosens it.
pub(crate) fn stays(effect: &Renamed<'_>, literal: Literal) -> bool
    ensures { result ≡ not (made_true (renamed effect.now) literal || loosened (renamed effect.now) literal) }
{
    !(effect.follows(literal) || !literal.affirmed && thins(effect, literal.fact))
}

/// Whether an effect makes one of some literals false.
pub(crate) fn makes_false(effect: &Renamed<'_>, literals: &[Literal]) -> bool
    ensures { result ≡ list_any (made_false (renamed effect.now)) literals.now }
{
    literals
        .iter()
        .any(|literal| effect.follows(literal.denial()))
}
