ghost use Rattle.std.specs.Prelude.{◌≡◌, Some};
ghost use Rattle.judge.specs.Number.{table_ground_number};
ghost use Rattle.judge.specs.Text.{refusal_text};

use pattern::Case;
use std::fmt;

/// An entry of a table: the row that covers the next open case, and the matching by which it does.
#[derive(Drop)]
pub struct Entry {
    pub row: usize,
    pub matching: Vec<u8>,
}

/// Why a table is refused.
#[derive(Clone, Copy, PartialEq, Eq, Debug)]
pub enum TableGround {
    /// The row stands in the opening state.
    RowStands = 11,
    /// An open case has no entry.
    NoEntry = 12,
    /// An entry names no row.
    NoSuchRow = 13,
    /// An entry's matching is malformed.
    BadMatching = 14,
    /// An entry's row does not cover the case under its matching.
    NotCovered = 15,
    /// Entries are left over after the walk.
    LeftOver = 16,
}

impl From<TableGround> for u8 {
    ghost from_gives = { λ reason number. number ≡ table_ground_number reason };

    /// The number by which the ground is reported.
    fn from(reason: TableGround) -> u8 {
        reason as u8
    }
}

/// The first failure of a table: its ground, the case and the number of the entry. What does not apply is
/// 0: one struct and no enum of the grounds, since all of its numbers are reported at each.
#[derive(Clone, Copy, PartialEq, Eq, Debug)]
pub struct TableRefusal {
    pub reason: TableGround,
    pub case: Case,
    pub entry: usize,
}

impl fmt::Display for TableRefusal {
    ghost output = { λ refusal. Some (refusal_text refusal) };

    fn fmt<W: fmt::Write>(&self, f: &mut fmt::Formatter<W>) -> fmt::Result {
        write!(
            f,
            "{} {} entry {}",
            u8::from(self.reason),
            self.case,
            self.entry
        )
    }
}
