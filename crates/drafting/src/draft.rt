use atoms::Book;
use counts::Net;
use judge::Entry;
use observer::{Mode, ObserverRow};
use records::{Books, Observers, Section};

/// The book of a file, as far as it was read.
#[derive(Drop)]
pub enum DraftBook {
    Counts(Net),
    Atoms(Book),
}

/// The moves and rows of an observer.
#[derive(Drop)]
pub struct Layer {
    pub moves: Vec<Mode>,
    pub rows: Vec<ObserverRow>,
}

/// The observers of a dossier, from the lowest on. No `Vec`: the type has the limit of two, and each case
/// makes a kind of another type.
#[derive(Drop)]
pub enum Layers {
    None,
    One(Layer),
    Two(Layer, Layer),
}

/// What the records of a file hold, as far as it was read, and which kinds of books it may hold.
#[derive(Drop)]
pub struct Draft {
    pub books: Books,
    pub section: Section,
    pub observers: Observers,
    pub places: u8,
    pub book: DraftBook,
    pub layers: Layers,
    pub entries: Vec<Entry>,
}
