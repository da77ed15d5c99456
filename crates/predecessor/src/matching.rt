ghost use Rattle.std.specs.Prelude.{◌≡◌, nat_lt};
ghost use Rattle.std.specs.List.{list_all};
ghost use Rattle.atoms.specs.Data.{pattern_of};
ghost use Rattle.predecessor.specs.Earlier.{covers, covers_itself, repeats, well_formed};

use atoms::Row;
use literals::{Literal, follows};

/// Whether a list has a number twice.
// By recursion on the slice: `any` over its places would have to cut it behind each.
fn repeats(numbers: &[u8]) -> bool
    ensures { result ≡ repeats numbers.now }
{
    match numbers {
        [first, rest @ ..] => rest.contains(first) || repeats(rest),
        [] => false,
    }
}

/// Whether all numbers of a list are below a limit.
fn all_below(numbers: &[u8], limit: u8) -> bool
    ensures { result ≡ list_all (λ x. nat_lt x limit) numbers.now }
{
    numbers.iter().all(|number| *number < limit)
}

/// Whether a matching gives each variable of a row a different one of the first `limit`.
pub(crate) fn well_formed(row: &Row, limit: u8, matching: &[u8]) -> bool
    ensures { result ≡ well_formed (pattern_of row.now) limit matching.now }
{
    matching.len() == usize::from(row.variables) && all_below(matching, limit) && !repeats(matching)
}

/// Whether literals cover a row under a matching of its variables: each literal of it follows.
pub(crate) fn covers(given: &[Literal], matching: &[u8], row: &Row) -> bool
    ensures { result ≡ covers given.now matching.now (pattern_of row.now) }
{
    row.literals
        .iter()
        .map(|literal| literal.under(matching))
        .all(|literal| follows(given, literal))
}

/// The same with every variable kept.
// Not `covers` under a list of the row's own variables, which would only be renamed to themselves.
pub(crate) fn covers_itself(given: &[Literal], row: &Row) -> bool
    ensures { result ≡ covers_itself given.now (pattern_of row.now) }
{
    row.literals.iter().all(|literal| follows(given, *literal))
}
