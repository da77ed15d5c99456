// Observers, run: over a counted book, and over an observer of it.
use counts::{Counts, Net, Row, Rule};
use judge::{Entry, Model};
use observer::{Mode, Observer, ObserverRefusal, ObserverRow};
use pattern::{FireRefusal, LookRefusal, PatternKind};
use std::alloc::Global;
use std::test::Fail;

/// One place that begins with 1; rule 0 takes it, rule 1 gives it back; row 0 stands everywhere.
fn lamp(heap: Global) -> Result<Counts, Fail> {
    let takes = Rule {
        takes: vec![in heap; 1]?,
        gives: vec![in heap; 0]?,
    };
    let gives = Rule {
        takes: vec![in heap; 0]?,
        gives: vec![in heap; 1]?,
    };
    let rules = vec![in heap; takes, gives]?;
    let rows = vec![in heap;
        Row {
            least: vec![in heap; 0]?
        },
    ]?;
    Ok(Counts::new(
        heap,
        Net {
            opening: vec![in heap; 1]?,
            rules,
            rows,
        },
    )?)
}

/// An observer whose mode says which rule fired last: 0 none, 1 rule 0, 2 rule 1; it never
/// comes to mode 3. Its row stands in one mode.
fn watch<K: PatternKind + Drop>(heap: Global, below: K, row: Mode) -> Result<Observer<K>, Fail> {
    let mut moves = [Mode::One, Mode::One, Mode::One, Mode::Three].to_vec(heap)?;
    moves.extend_from_slice(&[Mode::Two, Mode::Two, Mode::Two, Mode::Three])?;
    let rows = vec![in heap;
        ObserverRow {
            below: 0,
            mode: row
        },
    ]?;
    Ok(Observer::over(below, moves, rows).map_err(|not| not.refusal)?)
}

#[test]
fn a_mode_moves_with_each_firing_that_meets_no_refusal(rt: HostRuntime) -> Result<(), Fail> {
    let mut watched = watch(rt.alloc(), lamp(rt.alloc())?, Mode::One)?;
    assert_eq!(rt; watched.look(0), Ok(false));
    assert_eq!(rt; watched.fire(0, &[]), Ok(()));
    assert_eq!(rt; watched.look(0), Ok(true));
    assert_eq!(rt; watched.fire(0, &[]), Err(FireRefusal::ConditionNotMet));
    assert_eq!(rt; watched.look(0), Ok(true));
    assert_eq!(rt; watched.fire(1, &[]), Ok(()));
    assert_eq!(rt; watched.look(0), Ok(false));
    watched.restart();
    assert_eq!(rt; watched.look(1), Err(LookRefusal::NoSuchRow));
    Ok(())
}

#[test]
fn an_observer_of_an_observer_is_judged_and_fired(rt: HostRuntime) -> Result<(), Fail> {
    let heap = rt.alloc();
    let twice = watch(heap, watch(heap, lamp(heap)?, Mode::Three)?, Mode::Three)?;
    assert_eq!(rt; twice.cases(0, 0), 16);
    let no_entries: Vec<Entry> = Vec::new(heap);
    let mut model = match Model::new(twice, &no_entries) {
        Ok(model) => model,
        Err(_) => return Err(Fail::new("accepted")),
    };
    assert_eq!(rt; model.fire(0, &[]), Ok(()));
    assert_eq!(rt; model.look(0), Ok(false));
    Ok(())
}

#[test]
fn an_observer_out_of_range_comes_back(rt: HostRuntime) -> Result<(), Fail> {
    let heap = rt.alloc();
    let rows = vec![in heap;
        ObserverRow {
            below: 1,
            mode: Mode::Zero
        },
    ]?;
    let no_moves = match Observer::over(lamp(heap)?, Vec::new(heap), rows) {
        Ok(_) => return Err(Fail::new("no moves")),
        Err(refused) => refused,
    };
    assert_eq!(rt; no_moves.refusal, ObserverRefusal::Moves);
    let moves = [Mode::Zero; 8].to_vec(heap)?;
    match Observer::over(no_moves.below, moves, no_moves.rows) {
        Ok(_) => Err(Fail::new("no such row below")),
        Err(refused) => {
            assert_eq!(rt; refused.refusal, ObserverRefusal::RowBelow);
            Ok(())
        },
    }
}
