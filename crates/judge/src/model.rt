ghost use Rattle.judge.specs.Safety.{Guarded};

use pattern::PatternKind;

/// A pattern kind whose table was accepted: one state that can be fired, looked at and restarted.
#[derive(Drop)]
pub struct Model<K: PatternKind> {
    pub(super) kind: K,
    ghost guarded: { Guarded (K.meaning (K.book kind)) (K.state kind) },
}
