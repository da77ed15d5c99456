ghost use Rattle.std.specs.Prelude.{◌≡◌, false};
ghost use Rattle.predecessor.specs.Earlier.{idle};
ghost use Rattle.predecessor.specs.Exact.{Exact, taking, without, having};

/// Where an effect does not settle the row, a case need not be exact: another pair may remain, or
/// the pair that is taken may be the last.
pub fn not_exact_elsewhere()
    ensures remains { (idle taking without 3 ≡ false) × (Exact taking without 3 → ⊥) }
    ensures last { (idle taking having 3 ≡ false) × (Exact taking having 3 → ⊥) }
{}
