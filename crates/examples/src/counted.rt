// Counted books, run.
use counts::{Counts, Net, NetRefusal, Row, Rule};
use judge::{Entry, TableGround, TableRefusal, judge};
use pattern::{Case, FireRefusal, PatternKind, Sort};
use std::alloc::Global;
use std::test::Fail;

/// One place with this opening; each rule by what it takes and gives there; one row.
fn one_place(heap: Global, opening: u16, rules: &[(u8, u8)], least: u16) -> Result<Counts, Fail> {
    let mut made = Vec::new(heap);
    for (take, give) in rules {
        made.push(Rule {
            takes: vec![in heap; *take]?,
            gives: vec![in heap; *give]?,
        })?;
    }
    let rows = vec![in heap;
        Row {
            least: vec![in heap; least]?
        },
    ]?;
    let net = Net {
        opening: vec![in heap; opening]?,
        rules: made,
        rows,
    };
    Ok(Counts::new(heap, net)?)
}

fn first_case(rule: usize) -> Case {
    Case {
        row: 0,
        rule,
        number: 0,
    }
}

#[test]
fn a_give_lowers_the_earlier_pattern_and_a_take_raises_it(rt: HostRuntime) -> Result<(), Fail> {
    let book = one_place(rt.alloc(), 0, &[(0, 1), (2, 1)], 3)?;
    assert_eq!(rt; book.earlier(first_case(0), 0), Some(2));
    assert_eq!(rt; book.sort(first_case(0)), Sort::Open);
    assert_eq!(rt; book.earlier(first_case(1), 0), Some(4));
    assert_eq!(rt; book.sort(first_case(1)), Sort::Own);
    assert_eq!(rt; book.earlier(first_case(2), 0), None);
    assert_eq!(rt; book.sort(first_case(2)), Sort::Idle);
    Ok(())
}

#[test]
fn a_full_place_takes_no_more(rt: HostRuntime) -> Result<(), Fail> {
    let mut book = one_place(rt.alloc(), 65535, &[(0, 1), (1, 1)], 3)?;
    assert_eq!(rt; book.fire(0, &[]), Err(FireRefusal::BeyondModel));
    assert_eq!(rt; book.fire(1, &[]), Ok(()));
    assert_eq!(rt; book.fire(1, &[0]), Err(FireRefusal::ChoiceNotHeld));
    assert_eq!(rt; book.fire(2, &[]), Err(FireRefusal::NoSuchRule));
    assert_eq!(rt; u8::from(FireRefusal::BeyondModel), 25);
    Ok(())
}

/// The judge's answer on a table of entries that name these rows, with empty matchings.
fn judged(heap: Global, book: &Counts, rows: &[usize]) -> Result<Result<(), TableRefusal>, Fail> {
    let entries = rows.iter().map(|row| Entry {
        row: *row,
        matching: Vec::new(heap),
    });
    let table: Vec<Entry> = entries.collect(heap)?;
    Ok(judge(book, &table))
}

/// A refusal at the first case, with the first entry.
fn first(ground: TableGround) -> Result<(), TableRefusal> {
    Err(TableRefusal {
        reason: ground,
        case: first_case(0),
        entry: 0,
    })
}

#[test]
fn each_failure_has_its_ground(rt: HostRuntime) -> Result<(), Fail> {
    let heap = rt.alloc();
    let book = one_place(heap, 0, &[(0, 1)], 3)?;
    assert_eq!(rt; judged(heap, &book, &[])?, first(TableGround::NoEntry));
    assert_eq!(rt; judged(heap, &book, &[1])?, first(TableGround::NoSuchRow));
    let long = vec![in heap;
        Entry {
            row: 0,
            matching: vec![in heap; 0]?
        },
    ]?;
    assert_eq!(rt; judge(&book, &long), first(TableGround::BadMatching));
    assert_eq!(rt; judged(heap, &book, &[0])?, first(TableGround::NotCovered));
    Ok(())
}

#[test]
fn rows_of_the_opening_come_first_and_entries_left_over_last(rt: HostRuntime) -> Result<(), Fail> {
    let heap = rt.alloc();
    let open = one_place(heap, 3, &[(0, 1)], 3)?;
    assert_eq!(rt; judged(heap, &open, &[])?, first(TableGround::RowStands));
    let closed = one_place(heap, 0, &[(2, 1)], 3)?;
    assert_eq!(rt; judged(heap, &closed, &[])?, Ok(()));
    assert_eq!(rt; judged(heap, &closed, &[0])?, first(TableGround::LeftOver));
    Ok(())
}

#[test]
fn a_net_out_of_range_is_refused(rt: HostRuntime) -> Result<(), Fail> {
    let heap = rt.alloc();
    let empty = Net {
        opening: Vec::new(heap),
        rules: Vec::new(heap),
        rows: Vec::new(heap),
    };
    assert_eq!(rt; Counts::new(heap, empty).err(), Some(NetRefusal::Places));
    let no_rule = Net {
        opening: vec![in heap; 0]?,
        rules: Vec::new(heap),
        rows: Vec::new(heap),
    };
    assert_eq!(rt; Counts::new(heap, no_rule).err(), Some(NetRefusal::Rules));
    Ok(())
}
