ghost use Rattle.std.specs.Prelude.{◌≡◌, if◌then◌else◌, Some, None};
ghost use Rattle.records.specs.Order.{comes_after, leads_to, among};

use crate::record::RecordKind;

/// How far a file has come: the last kind of record that was taken.
#[derive(Clone, Copy, PartialEq, Eq, Debug)]
pub enum Section {
    Start,
    Head,
    Opening,
    Rules,
    Rows,
    Moves,
    ObserverRows,
    Entries,
    End,
}

impl Section {
    /// The section that a record of this kind leads to, if it may come here: matched on both, so that the
    /// order of the records can be read off.
    pub fn next(self, kind: RecordKind) -> Option<Section>
        ensures { result ≡ (if among self (comes_after kind) then Some (leads_to kind) else None) }
    {
        match (self, kind) {
            (Section::Start, RecordKind::Head) => Some(Section::Head),
            (Section::Head, RecordKind::Opening) => Some(Section::Opening),
            (Section::Opening | Section::Rules, RecordKind::Rule) => Some(Section::Rules),
            (Section::Rules | Section::Rows, RecordKind::Row) => Some(Section::Rows),
            (Section::Rows | Section::ObserverRows, RecordKind::Moves) => Some(Section::Moves),
            (Section::Moves | Section::ObserverRows, RecordKind::ObserverRow) => Some(
                Section::ObserverRows,
            ),
            (Section::Rows | Section::ObserverRows | Section::Entries, RecordKind::Entry) => Some(
                Section::Entries,
            ),
            (Section::Rows | Section::ObserverRows | Section::Entries, RecordKind::End) => Some(
                Section::End,
            ),
            _ => None,
        }
    }
}
