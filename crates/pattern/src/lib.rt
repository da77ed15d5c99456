// What a pattern kind is: its questions, its one state that can be fired, looked at and restarted,
// and what it owes to whoever judges it.
#![tactic(auto)]

pub mod answer;
mod kind;
mod limit;

pub use answer::{Answer, Case, Covering, FireRefusal, LookRefusal, Sort};
pub use kind::PatternKind;
pub use limit::{MAX_CASES, MAX_ROWS, MAX_RULES, cases_allowed, rows_allowed, rules_allowed};
