ghost use Rattle.std.specs.Prelude.{ℕ, ◌*◌, ◌<◌, length, Decides, MatchResult, slice_index_or};
ghost use Rattle.pattern.specs.Duty.{CasesAllowed};
ghost use Rattle.observer.specs.Mode.{mode_count};
ghost use Rattle.observer.specs.Observed.{InRange, RefusedBy};
ghost use Rattle.observer.specs.Kind.{Made};
ghost use Rattle.observer.specs.declared.mode.Mode.TheVariants.{Zero as ModeZero};

use crate::mode::{Mode, ObserverRow};
use crate::observed::{NotObserved, Observer, ObserverRefusal};
use pattern::{PatternKind, cases_allowed, rows_allowed};

impl<K: PatternKind> Observer<K> {
    /// Puts an observer over a kind: for each rule the modes that it moves to from modes 0 to 3, and
    /// the rows. It begins in mode 0. What is refused comes back as it was.
    pub fn over(
        below: K,
        moves: Vec<Mode>,
        rows: Vec<ObserverRow>,
    ) -> Result<Observer<K>, NotObserved<K>>
        ensures { Made below moves rows result }
    {
        match check(&below, &moves, &rows) {
            Ok(()) => Ok(Observer {
                below,
                mode: Mode::Zero,
                moves,
                rows,
            }),
            Err(refusal) => Err(NotObserved {
                below,
                moves,
                rows,
                refusal,
            }),
        }
    }
}

/// Whether these moves and rows are an observer of the kind.
fn check<K: PatternKind>(
    below: &K,
    moves: &[Mode],
    rows: &[ObserverRow],
) -> Result<(), ObserverRefusal>
    ensures { MatchResult result (λ _. InRange (K.meaning (K.book below.entry.now)) (record { below = K.book below.entry.now; moves = moves.now; rows = rows.now })) (λ e. RefusedBy (K.meaning (K.book below.entry.now)) (record { below = K.book below.entry.now; moves = moves.now; rows = rows.now }) e) }
{
    if moves.len() != below.rules() * Mode::COUNT {
        return Err(ObserverRefusal::Moves);
    }
    if !rows_allowed(rows.len()) {
        return Err(ObserverRefusal::Rows);
    }
    if !rows_below(below, rows) {
        return Err(ObserverRefusal::RowBelow);
    }
    if !cases_fit(below, rows) {
        return Err(ObserverRefusal::Cases);
    }
    Ok(())
}

/// Whether each row names a row below.
fn rows_below<K: PatternKind>(below: &K, rows: &[ObserverRow]) -> bool
    ensures { Decides result ((row : ℕ) → row < length rows.now → (slice_index_or rows.now row (record { below = 0; mode = ModeZero })).below < (K.meaning (K.book below.entry.now)).rows) }
{
    rows.iter().all(|row| row.below < below.rows())
}

/// Whether four times the cases of each row below stay within the limit.
fn cases_fit<K: PatternKind>(below: &K, rows: &[ObserverRow]) -> bool
    ensures { Decides result ((row : ℕ) → row < length rows.now → (rule : ℕ) → rule < (K.meaning (K.book below.entry.now)).rules → CasesAllowed (mode_count * (K.meaning (K.book below.entry.now)).cases (slice_index_or rows.now row (record { below = 0; mode = ModeZero })).below rule)) }
{
    rows.iter().all(|row| row_fits(below, row.below))
}

/// Whether four times the cases of a row and each rule below stay within the limit.
fn row_fits<K: PatternKind>(below: &K, row: usize) -> bool
    ensures { Decides result ((rule : ℕ) → rule < (K.meaning (K.book below.now)).rules → CasesAllowed (mode_count * (K.meaning (K.book below.now)).cases row rule)) }
{
    (0..below.rules()).all(|rule| cases_allowed(Mode::COUNT * below.cases(row, rule)))
}
