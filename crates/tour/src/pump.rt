// The book of one pump: places 0 token, 1 holding, 2 waiting.
use counts::{Counts, Net, NetRefusal, Row, Rule};
use judge::{Call, Entry};
use std::alloc::{AllocError, Global};

pub fn rule(heap: Global, takes: [u8; 3], gives: [u8; 3]) -> Result<Rule, AllocError> {
    Ok(Rule {
        takes: takes.to_vec(heap)?,
        gives: gives.to_vec(heap)?,
    })
}

pub fn row(heap: Global, least: [u16; 3]) -> Result<Row, AllocError> {
    Ok(Row {
        least: least.to_vec(heap)?,
    })
}

/// Rules: 0 a customer comes, 1 takes what is given here and holds the pump, 2 lets it go.
fn rules(heap: Global, to_hold: [u8; 3]) -> Result<Vec<Rule>, AllocError> {
    Ok(vec![in heap;
        rule(heap, [0, 0, 0], [0, 0, 1])?,
        rule(heap, to_hold, [0, 1, 0])?,
        rule(heap, [0, 1, 0], [1, 0, 0])?,
    ]?)
}

/// The book of the pump with these rows, where a customer who is to hold it takes `to_hold`. Want of memory
/// has one text, whatever it is wanted for.
pub fn book_with(heap: Global, to_hold: [u8; 3], rows: Vec<Row>) -> anyhow::Result<Counts> {
    let rules = rules(heap, to_hold)?;
    let opening = [1, 0, 0].to_vec(heap)?;
    let net = Net {
        opening,
        rules,
        rows,
    };
    Counts::new(heap, net).map_err(|refusal| match refusal {
        NetRefusal::OutOfMemory => AllocError.into(),
        out_of_range => out_of_range.into(),
    })
}

/// What a customer takes to hold the pump: the token, and a place among those who wait.
pub const TOKEN_AND_WAITING: [u8; 3] = [1, 0, 1];

/// Rows: 0 two hold the pump (the fault), 1 one holds it while the token is there, 2 two tokens.
pub fn book(heap: Global) -> anyhow::Result<Counts> {
    let rows = vec![in heap;
        row(heap, [0, 2, 0])?,
        row(heap, [1, 1, 0])?,
        row(heap, [2, 0, 0])?,
    ]?;
    book_with(heap, TOKEN_AND_WAITING, rows)
}

/// Entries that name these rows.
pub fn entries(heap: Global, rows: &[usize]) -> anyhow::Result<Vec<Entry>> {
    let entries = rows.iter().map(|row| Entry {
        row: *row,
        matching: Vec::new(heap),
    });
    Ok(entries.collect(heap)?)
}

/// The entries of the open cases, in walk order.
pub fn table(heap: Global) -> anyhow::Result<Vec<Entry>> {
    entries(heap, &[1, 2, 0, 1])
}

/// The same with the second entry wrong.
pub fn wrong_table(heap: Global) -> anyhow::Result<Vec<Entry>> {
    entries(heap, &[1, 1, 0, 1])
}

pub fn fire(heap: Global, rule: usize) -> Call {
    Call::Fire {
        rule,
        choice: Vec::new(heap),
    }
}

/// Two customers come, one takes the pump, the other tries; then a look, a release and a restart.
pub fn calls(heap: Global) -> anyhow::Result<Vec<Call>> {
    Ok(vec![in heap;
        fire(heap, 0),
        fire(heap, 0),
        fire(heap, 1),
        fire(heap, 1),
        Call::Look { row: 0 },
        fire(heap, 2),
        Call::Look { row: 3 },
        fire(heap, 3),
        Call::Fire {
            rule: 0,
            choice: vec![in heap; 5]?
        },
        Call::Restart,
        fire(heap, 0),
    ]?)
}
