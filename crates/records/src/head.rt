ghost use Rattle.std.specs.Prelude.{◌≡◌, ◌<◌, MatchResult};
ghost use Rattle.records.specs.Number.{book_number, NoBook, observers_number, hold};

/// The kinds of books, by their numbers in the head.
#[derive(Clone, Copy, PartialEq, Eq, Debug)]
pub enum BookKind {
    Atoms = 1,
    Counts = 2,
}

/// A number that no kind of book has.
#[derive(Clone, Copy, PartialEq, Eq, Debug)]
pub struct NoSuchBook(pub u8);

/// The kind of book with a number.
impl TryFrom<u8> for BookKind {
    type Error = NoSuchBook;

    ghost try_from_gives = { λ n r. MatchResult r (λ k. book_number k ≡ n) (λ e. (e.0 ≡ n) × NoBook n) };

    fn try_from(number: u8) -> Result<BookKind, NoSuchBook> {
        match number {
            1 => Ok(BookKind::Atoms),
            2 => Ok(BookKind::Counts),
            _ => Err(NoSuchBook(number)),
        }
    }
}

/// Which kinds of books a file may hold.
#[derive(Clone, Copy, PartialEq, Eq, Debug)]
pub enum Books {
    /// Counted books alone.
    Counted,
    /// Books of either kind.
    Any,
}

impl Books {
    /// Whether a file may hold a book of a kind.
    pub fn hold(self, kind: BookKind) -> bool
        ensures { result ≡ hold self kind }
    {
        !matches!((self, kind), (Books::Counted, BookKind::Atoms))
    }
}

/// How many observers a dossier has. No plain number, nor an `Option`: the type has the limit of two.
#[derive(Clone, Copy, PartialEq, Eq, Debug)]
pub enum Observers {
    None = 0,
    One = 1,
    Two = 2,
}

/// A number of observers that no dossier has.
#[derive(Clone, Copy, PartialEq, Eq, Debug)]
pub struct TooManyObservers(pub u8);

/// So many observers.
impl TryFrom<u8> for Observers {
    type Error = TooManyObservers;

    ghost try_from_gives = { λ n r. MatchResult r (λ o. observers_number o ≡ n) (λ e. (e.0 ≡ n) × (2 < n)) };

    fn try_from(number: u8) -> Result<Observers, TooManyObservers> {
        match number {
            0 => Ok(Observers::None),
            1 => Ok(Observers::One),
            2 => Ok(Observers::Two),
            _ => Err(TooManyObservers(number)),
        }
    }
}

/// How many observers they are.
impl From<Observers> for u8 {
    ghost from_gives = { λ o n. n ≡ observers_number o };

    fn from(observers: Observers) -> u8 {
        observers as u8
    }
}
