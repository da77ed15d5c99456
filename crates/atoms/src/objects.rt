ghost use Rattle.std.specs.Prelude.{◌≡◌, ℕ, ◌<◌, true, false, not, ◌&&◌, ◌||◌, ◌==◌, Decides, MatchBool};
ghost use Rattle.atoms.specs.Book.{object_count};
ghost use Rattle.atoms.specs.Objects.{has_object, has_pair};

use crate::cells::OBJECTS;

/// A set of objects of a model.
#[derive(Clone, Copy)]
pub(crate) struct Objects {
    /// Whether each is in it.
    // `as` in a length, where `From` cannot be called.
    pub(super) has: [bool; OBJECTS as usize],
}

impl Objects {
    /// The empty set.
    pub(crate) fn new() -> Objects
        ensures { (d : ℕ) → has_object result d ≡ false }
    {
        Objects {
            has: [false; OBJECTS as usize],
        }
    }

    /// Whether an object is in the set.
    pub(crate) fn contains(&self, object: u8) -> bool
        ensures { result ≡ has_object self.now object }
    {
        self.has.get(usize::from(object)).copied().unwrap_or(false)
    }

    /// Whether no object is in the set.
    fn is_empty(&self) -> bool
        ensures { MatchBool result ((d : ℕ) → has_object self.now d ≡ false) ((d : ℕ) × (has_object self.now d ≡ true)) }
    {
        !self.has.contains(&true)
    }

    /// Adds an object.
    pub(crate) fn insert(&mut self, object: u8)
        requires { object < object_count }
        ensures { (d : ℕ) → has_object self.new d ≡ (has_object self.old d || object == d) }
    {
        self.has[usize::from(object)] = true;
    }

    /// Takes an object away.
    // The bound is asked and then indexed, as in `Pairs`: by `get_mut` the proofs did not close.
    pub(crate) fn remove(&mut self, object: u8)
        ensures { (d : ℕ) → has_object self.new d ≡ (has_object self.old d && not (d == object)) }
    {
        if object < OBJECTS {
            self.has[usize::from(object)] = false;
        }
    }
}

/// A set of pairs of objects of a model.
#[derive(Clone, Copy)]
pub(crate) struct Pairs {
    /// The second objects of the pairs with each first one.
    pub(super) from: [Objects; OBJECTS as usize],
}

impl Pairs {
    /// The empty set.
    pub(crate) fn new() -> Pairs
        ensures { (d e : ℕ) → has_pair result d e ≡ false }
    {
        Pairs {
            from: [Objects::new(); OBJECTS as usize],
        }
    }

    /// Whether a pair is in the set.
    pub(crate) fn contains(&self, first: u8, second: u8) -> bool
        ensures { result ≡ has_pair self.now first second }
    {
        self.from
            .get(usize::from(first))
            .is_some_and(|objects| objects.contains(second))
    }

    /// Whether some pair has this first object.
    pub(crate) fn has_from(&self, first: u8) -> bool
        ensures { Decides result ((e : ℕ) × (has_pair self.now first e ≡ true)) }
    {
        self.from
            .get(usize::from(first))
            .is_some_and(|objects| !objects.is_empty())
    }

    /// Whether some pair has this second object.
    pub(crate) fn has_into(&self, second: u8) -> bool
        ensures { Decides result ((d : ℕ) × (has_pair self.now d second ≡ true)) }
    {
        self.from.iter().any(|objects| objects.contains(second))
    }

    /// Adds a pair.
    pub(crate) fn insert(&mut self, first: u8, second: u8)
        requires { (first < object_count) × (second < object_count) }
        ensures { (d e : ℕ) → has_pair self.new d e ≡ (has_pair self.old d e || (first == d && second == e)) }
    {
        self.from[usize::from(first)].insert(second);
    }

    /// Takes a pair away.
    pub(crate) fn remove(&mut self, first: u8, second: u8)
        ensures { (d e : ℕ) → has_pair self.new d e ≡ (has_pair self.old d e && not (d == first && e == second)) }
    {
        if first < OBJECTS {
            self.from[usize::from(first)].remove(second);
        }
    }

    /// Takes every pair with this first object away.
    pub(crate) fn remove_from(&mut self, first: u8)
        ensures { (d e : ℕ) → has_pair self.new d e ≡ (has_pair self.old d e && not (d == first)) }
    {
        if first < OBJECTS {
            self.from[usize::from(first)] = Objects::new();
        }
    }

    /// Takes every pair with this second object away.
    pub(crate) fn remove_into(&mut self, second: u8)
        ensures { (d e : ℕ) → has_pair self.new d e ≡ (has_pair self.old d e && not (e == second)) }
    {
        for objects in &mut self.from {
            objects.remove(second);
        }
    }
}
