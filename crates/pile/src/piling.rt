ghost use Rattle.drafting.specs.Drafted.{layer_of, layers_of};
ghost use Rattle.pile.specs.Pile.{ObservedBy, PiledBy};

use drafting::{Layer, Layers};
use either_kind::Either;
use observer::{Observer, ObserverRefusal};
use pattern::PatternKind;

/// A kind with no observer, with one, or with one over another.
pub type Piled<K> = Either<K, Either<Observer<K>, Observer<Observer<K>>>>;

/// Puts the observers of a dossier over a kind, the lowest first.
pub fn pile<K: PatternKind + Drop>(kind: K, layers: Layers) -> Result<Piled<K>, ObserverRefusal>
    ensures { PiledBy kind (layers_of layers) result }
{
    match layers {
        Layers::None => Ok(Either::Left(kind)),
        Layers::One(layer) => Ok(Either::Right(Either::Left(observe(kind, layer)?))),
        Layers::Two(lower, upper) => {
            let observed = observe(kind, lower)?;
            Ok(Either::Right(Either::Right(observe(observed, upper)?)))
        }
    }
}

/// Puts one observer over a kind.
fn observe<K: PatternKind + Drop>(kind: K, layer: Layer) -> Result<Observer<K>, ObserverRefusal>
    ensures { ObservedBy kind (layer_of layer) result }
{
    let Layer { moves, rows } = layer;
    Observer::over(kind, moves, rows).map_err(|not| not.refusal)
}
