ghost use Rattle.std.specs.Prelude.{◌≡◌, vec_len};
ghost use Rattle.counts.specs.Net.{tally, Held};
ghost use Rattle.counts.specs.Data.{book_of};
ghost use Rattle.counts.specs.Range.{PlacesIn, RulesIn, RowsIn, RulesFit, RowsFit};

use crate::net::Net;

/// A counted book within its limits, and a marking of it.
#[derive(Drop)]
pub struct Counts {
    pub(super) net: Net,
    pub(super) marking: Vec<u16>,
    ghost places_in: { PlacesIn (book_of net) },
    ghost rules_in: { RulesIn (book_of net) },
    ghost rows_in: { RowsIn (book_of net) },
    ghost rules_fit: { RulesFit (book_of net) },
    ghost rows_fit: { RowsFit (book_of net) },
    ghost level: { vec_len marking ≡ vec_len net.opening },
    ghost opens: { Held (tally net.opening.items) },
}
