use atoms::Atoms;

/// A transition system of atoms: a model of a book, with the steps backwards from its rows.
#[derive(Drop)]
pub struct AtomSystem {
    pub(super) atoms: Atoms,
}
