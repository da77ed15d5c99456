// Faults that are an order of firings, by observers over the pump's book.
use crate::pump::{TOKEN_AND_WAITING, book_with, entries, row};
use counts::Counts;
use judge::Entry;
use observer::{Mode, Observer, ObserverRow};
use std::alloc::Global;

/// A move of each mode to itself.
const STAYS: [Mode; 4] = [Mode::Zero, Mode::One, Mode::Two, Mode::Three];

/// The moves of rules 0, 1 and 2, one after the other.
fn moves(
    heap: Global,
    come: [Mode; 4],
    hold: [Mode; 4],
    let_go: [Mode; 4],
) -> anyhow::Result<Vec<Mode>> {
    let mut moves = come.to_vec(heap)?;
    moves.extend_from_slice(&hold)?;
    moves.extend_from_slice(&let_go)?;
    Ok(moves)
}

/// The rows of an observer: each a row below and a mode.
fn pairs(heap: Global, rows: &[(usize, Mode)]) -> anyhow::Result<Vec<ObserverRow>> {
    let pairs = rows.iter().map(|(below, mode)| ObserverRow {
        below: *below,
        mode: *mode,
    });
    Ok(pairs.collect(heap)?)
}

/// Modes: 0 not held since the last release, 1 held once, 2 held twice in a row.
/// Row 0, the fault: mode 2. The others are the ways that would lead there.
pub fn held_twice(heap: Global, to_hold: [u8; 3]) -> anyhow::Result<Observer<Counts>> {
    let rows = vec![in heap;
        row(heap, [0, 0, 0])?,
        row(heap, [1, 0, 0])?,
        row(heap, [2, 0, 0])?,
        row(heap, [1, 1, 0])?,
        row(heap, [0, 2, 0])?,
    ]?;
    let below = book_with(heap, to_hold, rows)?;
    let hold = [Mode::One, Mode::Two, Mode::Two, Mode::Three];
    let let_go = [Mode::Zero, Mode::Zero, Mode::Two, Mode::Three];
    let moves = moves(heap, STAYS, hold, let_go)?;
    let rows = [
        (0, Mode::Two),
        (1, Mode::One),
        (2, Mode::Zero),
        (3, Mode::Zero),
        (4, Mode::Zero),
        (4, Mode::One),
    ];
    Ok(Observer::over(below, moves, pairs(heap, &rows)?).map_err(|not| not.refusal)?)
}

/// The entries of the open cases of `held_twice`, in walk order.
pub fn held_twice_table(heap: Global) -> anyhow::Result<Vec<Entry>> {
    entries(heap, &[1, 2, 3, 1, 4, 5, 5, 3])
}

/// Two observers: the lower has seen somebody hold the pump, the upper has seen somebody come.
/// Row 0, the fault: somebody held it and nobody came.
pub fn held_before_any_came(heap: Global) -> anyhow::Result<Observer<Observer<Counts>>> {
    let rows = vec![in heap; row(heap, [0, 0, 0])?, row(heap, [0, 0, 1])?]?;
    let below = book_with(heap, TOKEN_AND_WAITING, rows)?;
    let seen = [Mode::One, Mode::One, Mode::Two, Mode::Three];
    let moved = moves(heap, STAYS, seen, STAYS)?;
    let rows = pairs(heap, &[(0, Mode::One), (1, Mode::Zero)])?;
    let lower = Observer::over(below, moved, rows).map_err(|not| not.refusal)?;
    let moved = moves(heap, seen, STAYS, STAYS)?;
    let rows = pairs(heap, &[(0, Mode::Zero), (1, Mode::Zero)])?;
    Ok(Observer::over(lower, moved, rows).map_err(|not| not.refusal)?)
}

/// The entries of the open cases of `held_before_any_came`.
pub fn held_before_any_came_table(heap: Global) -> anyhow::Result<Vec<Entry>> {
    entries(heap, &[1])
}
