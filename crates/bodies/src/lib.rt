// The bodies of records of books of atoms: atoms, literals, rules and rows from their bytes.
#![tactic(auto)]

mod list;
pub mod literal;
mod rule;

pub use list::{read_atoms, read_literals};
pub use literal::{Role, read_atom, read_literal};
pub use rule::{opening_fits, read_row, read_rule, row_fits, rule_fits};
