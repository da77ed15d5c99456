use counts::Counts;
use either_kind::Either;
use judge::Model;
use pile::Piled;
use predecessor::AtomSystem;

/// The pattern kind that a file holds: a book of atoms or a counted one, under no observer, one, or two.
pub type FileKind = Either<Piled<AtomSystem>, Piled<Counts>>;

/// A model of the book of an accepted file.
pub type FileModel = Model<FileKind>;
