ghost use Rattle.observer.specs.Observed.{MovesFit, RowsIn, RowsBelow, CasesFit};

use crate::mode::{Mode, ObserverRow};
use pattern::PatternKind;
use thiserror::Error;

/// A pattern kind with an observer: a mode that moves at each firing, by the rule and the mode.
// The moves are one list, as they are handed in, and not four for each rule: a list of another length is
// refused by `over`, and a type that has none would ask that of the caller.
#[derive(Drop)]
pub struct Observer<K: PatternKind> {
    pub(super) below: K,
    pub(super) mode: Mode,
    pub(super) moves: Vec<Mode>,
    pub(super) rows: Vec<ObserverRow>,
    ghost moves_fit: { MovesFit (K.meaning (K.book below)) (record { below = K.book below; moves = moves.items; rows = rows.items }) },
    ghost rows_in: { RowsIn (K.meaning (K.book below)) (record { below = K.book below; moves = moves.items; rows = rows.items }) },
    ghost rows_below: { RowsBelow (K.meaning (K.book below)) (record { below = K.book below; moves = moves.items; rows = rows.items }) },
    ghost cases_fit: { CasesFit (K.meaning (K.book below)) (record { below = K.book below; moves = moves.items; rows = rows.items }) },
}

/// Why a table of moves and rows is no observer of a kind. Of several grounds the first listed counts.
#[derive(Clone, Copy, PartialEq, Eq, Debug, Error)]
pub enum ObserverRefusal {
    #[error("the table has not four modes for each rule")]
    Moves,
    #[error("there are not 1 to 64 rows")]
    Rows,
    #[error("a row names no row below")]
    RowBelow,
    #[error("four times the cases of some rule and row below are more than a kind may have")]
    Cases,
}

/// What was to be observed, as it was handed in, and why it is not.
#[derive(Drop)]
pub struct NotObserved<K> {
    pub below: K,
    pub moves: Vec<Mode>,
    pub rows: Vec<ObserverRow>,
    pub refusal: ObserverRefusal,
}
