ghost use Rattle.std.specs.Prelude.{◌≡◌, false, length, IfOk, IfErr, vec_len, OnErr};
ghost use Rattle.pattern.specs.Call.{Fired, Looked, Called, Calls};
ghost use Rattle.judge.specs.Acceptance.{claims};
ghost use Rattle.judge.specs.Safety.{FaultNeverSeen};
ghost use Rattle.judge.specs.Law.{Law};
ghost use Rattle.judge.specs.Play.{answer_of, call_of, log_of};

use crate::judging::judge;
use crate::model::Model;
use crate::table::{Entry, TableRefusal};
use pattern::{Answer, FireRefusal, LookRefusal, PatternKind};
use std::alloc::{AllocError, Global};

/// A pattern kind whose table was refused, as it was, with the first failure.
#[derive(Drop)]
pub struct Rejected<K> {
    pub kind: K,
    pub refusal: TableRefusal,
}

/// A call on a model.
#[derive(Drop)]
pub enum Call {
    Fire { rule: usize, choice: Vec<u8> },
    Look { row: usize },
    Restart,
}

impl<K: PatternKind> Model<K> {
    /// Judges the table and, where it is accepted, makes a model in the opening state. Where it is
    /// refused no model is made, and the kind comes back as it was.
    pub fn new(mut kind: K, entries: &[Entry]) -> Result<Model<K>, Rejected<K>>
        ensures law { Law (K.meaning (K.book kind)) (claims entries.now) (answer_of result) }
        ensures opens { IfOk result (λ m. (K.book m.kind ≡ K.book kind) × (K.state m.kind ≡ (K.meaning (K.book kind)).opening)) }
        ensures hands_back { IfErr result (λ x. x.kind ≡ kind) }
    {
        match judge(&kind, entries) {
            Ok(()) => {
                kind.restart();
                Ok(Model { kind })
            }
            Err(refusal) => Err(Rejected { kind, refusal }),
        }
    }

    /// Fires a rule under a choice; a refusal leaves the state.
    pub fn fire(&mut self, rule: usize, choice: &[u8]) -> Result<(), FireRefusal>
        ensures same { K.book self.new.kind ≡ K.book self.old.kind }
        ensures fired { Fired (K.meaning (K.book self.old.kind)) (K.state self.old.kind) rule choice.now result (K.state self.new.kind) }
    {
        self.kind.fire(rule, choice)
    }

    /// Whether a row stands in the state. Row 0, the fault, never does.
    pub fn look(&self, row: usize) -> Result<bool, LookRefusal>
        ensures looked { Looked (K.meaning (K.book self.now.kind)) (K.state self.now.kind) row result }
        ensures no_fault { row ≡ 0 → result ≡ Ok false }
    {
        self.kind.look(row)
    }

    /// Goes back to the opening state.
    pub fn restart(&mut self)
        ensures same { K.book self.new.kind ≡ K.book self.old.kind }
        ensures back { K.state self.new.kind ≡ (K.meaning (K.book self.old.kind)).opening }
    {
        self.kind.restart();
    }

    /// Makes one call.
    pub fn perform(&mut self, call: &Call) -> Answer
        ensures same { K.book self.new.kind ≡ K.book self.old.kind }
        ensures called { Called (K.meaning (K.book self.old.kind)) (K.state self.old.kind) (call_of call.now) result (K.state self.new.kind) }
    {
        match call {
            Call::Fire { rule, choice } => Answer::Fired(self.fire(*rule, choice)),
            Call::Look { row } => Answer::Looked(self.look(*row)),
            Call::Restart => {
                self.restart();
                Answer::Restarted
            }
        }
    }

    /// Makes the calls in order, and gives their answers. For want of memory none is made. No look
    /// at the fault says yes.
    pub fn play(&mut self, heap: Global, calls: &[Call]) -> Result<Vec<Answer>, AllocError>
        ensures same { K.book self.new.kind ≡ K.book self.old.kind }
        ensures answers { IfOk result (λ v. vec_len v ≡ length calls.now) }
        ensures played { IfOk result (λ v. Calls (K.meaning (K.book self.old.kind)) (K.state self.old.kind) (log_of calls.now v.items) (K.state self.new.kind)) }
        ensures no_fault { IfOk result (λ v. FaultNeverSeen (log_of calls.now v.items)) }
        ensures unmoved { OnErr result (self.new ≡ self.old) }
    {
        let mut answers = Vec::with_capacity(heap, calls.len())?;
        for call in calls {
            answers.push_reserved(self.perform(call));
        }
        Ok(answers)
    }

    /// The pattern kind, in the state that the model is in.
    pub fn kind(&self) -> &K
        ensures { result.now ≡ self.now.kind }
    {
        &self.kind
    }

    /// Gives the pattern kind back, in the state that the model is in.
    pub fn into_kind(self) -> K
        ensures { result ≡ self.kind }
    {
        let Model { kind } = self;
        kind
    }
}
