ghost use Rattle.std.specs.Prelude.{◌≡◌, ◌+◌, ◌<◌, length, Decides};
ghost use Rattle.predecessor.specs.Proper.{Proper, proper};

/// The most variables of a rule, and so of names for them.
pub const MAX_NAMES: usize = 4;

/// Whether the new variables, from `first` on, are taken in order.
pub(crate) fn proper(first: u8, names: &[u8]) -> bool
    requires { first + length names.now < 256 }
    ensures value { result ≡ proper first names.now }
    ensures order { Decides result (Proper first names.now) }
{
    // A `for`: a `try_fold` would carry `next` and still ask twice about each name.
    let mut next = first;
    for name in names {
        if *name > next {
            return false;
        }
        if *name == next {
            next += 1;
        }
    }
    true
}
