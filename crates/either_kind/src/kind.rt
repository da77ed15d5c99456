ghost use Rattle.std.specs.Prelude.{◌⊎◌};
ghost use Rattle.std.proofs.Common.{inl, inr};
ghost use Rattle.either_kind.specs.Side.{either_meaning, left_part, right_part};
ghost use Rattle.either_kind.specs.Kind.{either_of};
ghost use Rattle.either_kind.specs.declared.sum.Either.TheVariants.{Left, Right};
ghost use Rattle.either_kind.specs.Lifting.{lifted_duties};
ghost use Rattle.either_kind.specs.Sides.{left_back, left_forth, right_back, right_forth};

use crate::sum::Either;
use pattern::{Case, Covering, FireRefusal, LookRefusal, PatternKind, Sort};

// Each method asks the side that there is. They are alike but for the method, which no bound names.
impl<A: PatternKind, B: PatternKind> PatternKind for Either<A, B> {
    ghost State = { A.PatternKind.State ⊎ B.PatternKind.State };

    ghost Book = { A.PatternKind.Book ⊎ B.PatternKind.Book };

    ghost meaning = { either_meaning A.PatternKind.meaning B.PatternKind.meaning };

    ghost book = { either_of A.PatternKind.book B.PatternKind.book };

    ghost state = { either_of A.PatternKind.state B.PatternKind.state };

    ghost duties = { elim [
      | Left a ↦
          let k = A.PatternKind in
          let other = B.PatternKind in
          lifted_duties inl left_part (left_back k.State other.State) (left_forth k.State other.State) (k.meaning (k.book a)) (A.PatternKind.duties a)
      | Right b ↦
          let k = B.PatternKind in
          let other = A.PatternKind in
          lifted_duties inr right_part (right_back other.State k.State) (right_forth other.State k.State) (k.meaning (k.book b)) (B.PatternKind.duties b)
    ] };

    fn rules(&self) -> usize {
        match self {
            Either::Left(a) => a.rules(),
            Either::Right(b) => b.rules(),
        }
    }

    fn rows(&self) -> usize {
        match self {
            Either::Left(a) => a.rows(),
            Either::Right(b) => b.rows(),
        }
    }

    fn cases(&self, row: usize, rule: usize) -> usize {
        match self {
            Either::Left(a) => a.cases(row, rule),
            Either::Right(b) => b.cases(row, rule),
        }
    }

    fn sort(&self, case: Case) -> Sort {
        match self {
            Either::Left(a) => a.sort(case),
            Either::Right(b) => b.sort(case),
        }
    }

    fn matching_length(&self, row: usize) -> usize {
        match self {
            Either::Left(a) => a.matching_length(row),
            Either::Right(b) => b.matching_length(row),
        }
    }

    fn covering(&self, case: Case, named: usize, matching: &[u8]) -> Covering {
        match self {
            Either::Left(a) => a.covering(case, named, matching),
            Either::Right(b) => b.covering(case, named, matching),
        }
    }

    fn stands_in_opening(&self, row: usize) -> bool {
        match self {
            Either::Left(a) => a.stands_in_opening(row),
            Either::Right(b) => b.stands_in_opening(row),
        }
    }

    fn fire(&mut self, rule: usize, choice: &[u8]) -> Result<(), FireRefusal> {
        match self {
            Either::Left(a) => a.fire(rule, choice),
            Either::Right(b) => b.fire(rule, choice),
        }
    }

    fn look(&self, row: usize) -> Result<bool, LookRefusal> {
        match self {
            Either::Left(a) => a.look(row),
            Either::Right(b) => b.look(row),
        }
    }

    fn restart(&mut self) {
        match self {
            Either::Left(a) => a.restart(),
            Either::Right(b) => b.restart(),
        }
    }
}
