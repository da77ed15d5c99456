ghost use Rattle.std.specs.Prelude.{◌≡◌, ◌<◌, [], ◌∷◌, ◌++◌, length, IfOk};
ghost use Rattle.drafting.specs.Progress.{top_rows, rows_below, with_observer_row};
ghost use Rattle.drafting.specs.Drafted.{layer_of, layers_of};

use crate::draft::{Layer, Layers};
use observer::{Mode, ObserverRow};
use std::alloc::{AllocError, Global};

impl Layer {
    /// The same with one more row.
    fn with_row(mut self, row: ObserverRow) -> Result<Layer, AllocError>
        ensures { IfOk result (λ l. layer_of l ≡ record { moves = self.moves.items; rows = self.rows.items ++ row ∷ [] }) }
    {
        self.rows.push(row)?;
        Ok(self)
    }
}

impl Layers {
    /// How many observers there are.
    pub(crate) fn count(&self) -> usize
        ensures { result ≡ length (layers_of self.now) }
    {
        match self {
            Layers::None => 0,
            Layers::One(_) => 1,
            Layers::Two(_, _) => 2,
        }
    }

    /// How many rows the topmost observer has.
    pub(crate) fn top_rows(&self) -> usize
        ensures { result ≡ top_rows (layers_of self.now) }
    {
        match self {
            Layers::None => 0,
            Layers::One(layer) | Layers::Two(_, layer) => layer.rows.len(),
        }
    }

    /// How many rows there are below the topmost observer, over a book with so many.
    pub(crate) fn rows_below(&self, rows: usize) -> usize
        ensures { result ≡ rows_below rows (layers_of self.now) }
    {
        match self {
            Layers::None => 0,
            Layers::One(_) => rows,
            Layers::Two(lower, _) => lower.rows.len(),
        }
    }

    /// The same with one more row of the topmost observer.
    pub(crate) fn with_row(self, row: ObserverRow) -> Result<Layers, AllocError>
        ensures { IfOk result (λ l. layers_of l ≡ with_observer_row (layers_of self) row) }
    {
        match self {
            Layers::None => Ok(Layers::None),
            Layers::One(layer) => Ok(Layers::One(layer.with_row(row)?)),
            Layers::Two(lower, upper) => Ok(Layers::Two(lower, upper.with_row(row)?)),
        }
    }

    /// One more observer on top, with these moves and no rows yet.
    pub(crate) fn with_moves(self, heap: Global, moves: Vec<Mode>) -> Layers
        requires { length (layers_of self) < 2 }
        ensures { layers_of result ≡ layers_of self ++ record { moves = moves.items; rows = [] } ∷ [] }
    {
        let layer = Layer {
            moves,
            rows: Vec::new(heap),
        };
        match self {
            Layers::None => Layers::One(layer),
            Layers::One(lower) => Layers::Two(lower, layer),
            Layers::Two(lower, upper) => Layers::Two(lower, upper),
        }
    }
}
