ghost use Rattle.judge.specs.Acceptance.{claims, Met, LowestStanding, Walked, Verdict};

use crate::table::{Entry, TableGround, TableRefusal};
use pattern::{Case, Covering, PatternKind, Sort};

// The kind and the entries stay two parameters: each of the three functions that take both has one call.
/// Judges a table of entries over a pattern kind: accepted, or its first failure.
pub fn judge<K: PatternKind>(kind: &K, entries: &[Entry]) -> Result<(), TableRefusal>
    ensures { Verdict (K.meaning (K.book kind.now)) (claims entries.now) result }
{
    if let Some(row) = lowest_standing(kind) {
        let case = Case {
            row,
            rule: 0,
            number: 0,
        };
        return Err(TableRefusal {
            reason: TableGround::RowStands,
            case,
            entry: 0,
        });
    }
    let used = walk(kind, entries)?;
    if used < entries.len() {
        let case = Case {
            row: 0,
            rule: 0,
            number: 0,
        };
        return Err(TableRefusal {
            reason: TableGround::LeftOver,
            case,
            entry: used,
        });
    }
    Ok(())
}

/// The lowest row that stands in the opening state.
fn lowest_standing<K: PatternKind>(kind: &K) -> Option<usize>
    ensures { LowestStanding (K.meaning (K.book kind.now)) result }
{
    (0..kind.rows()).find(|row| kind.stands_in_opening(*row))
}

/// Walks rows, in each its rules, in each its cases. Every open case uses the next entry, and the
/// first that fails ends the walk. Otherwise: how many entries were used.
fn walk<K: PatternKind>(kind: &K, entries: &[Entry]) -> Result<usize, TableRefusal>
    ensures { Walked (K.meaning (K.book kind.now)) (claims entries.now) result }
{
    let mut used = 0;
    // Nested loops left by a label, as the walk is told: a rule of the project.
    'walk: {
        for row in 0..kind.rows() {
            for rule in 0..kind.rules() {
                for number in 0..kind.cases(row, rule) {
                    let case = Case { row, rule, number };
                    if let Sort::Open = kind.sort(case) {
                        if let Err(ground) = check_entry(kind, case, entries, used) {
                            break 'walk Err(TableRefusal {
                                reason: ground,
                                case,
                                entry: used,
                            });
                        }
                        used += 1;
                    }
                }
            }
        }
        Ok(used)
    }
}

/// Whether the entry with this number shows a row that the open case is covered by.
fn check_entry<K: PatternKind>(
    kind: &K,
    case: Case,
    entries: &[Entry],
    number: usize,
) -> Result<(), TableGround>
    ensures { Met (K.meaning (K.book kind.now)) case (claims entries.now) number result }
{
    let Some(entry) = entries.get(number) else {
        return Err(TableGround::NoEntry);
    };
    if entry.row >= kind.rows() {
        return Err(TableGround::NoSuchRow);
    }
    match kind.covering(case, entry.row, &entry.matching) {
        Covering::Malformed => Err(TableGround::BadMatching),
        Covering::DoesNotCover => Err(TableGround::NotCovered),
        Covering::Covers => Ok(()),
    }
}
