ghost use Rattle.std.specs.Prelude.{◌≡◌, Some};
ghost use Rattle.pattern.specs.Number.{fire_refusal_number, look_refusal_number};
ghost use Rattle.pattern.specs.Text.{case_text};

use std::fmt;

/// One case of a rule and a row, by its number: one way in which the rule can lead into the row.
#[derive(Clone, Copy, PartialEq, Eq, Debug)]
pub struct Case {
    pub row: usize,
    pub rule: usize,
    pub number: usize,
}

impl fmt::Display for Case {
    ghost output = { λ case. Some (case_text case) };

    fn fmt<W: fmt::Write>(&self, f: &mut fmt::Formatter<W>) -> fmt::Result {
        write!(
            f,
            "row {} rule {} case {}",
            self.row, self.rule, self.number
        )
    }
}

/// What a case asks of a dossier.
#[derive(Clone, Copy, PartialEq, Eq, Debug)]
pub enum Sort {
    /// It has no earlier states.
    Idle,
    /// Its earlier states are in its own row.
    Own,
    /// An entry has to show a row that its earlier states are in.
    Open,
}

/// What a matching says of a case and a named row. One of three answers, and no `Result`: that it does
/// not cover is no failure of the question.
#[derive(Clone, Copy, PartialEq, Eq, Debug)]
pub enum Covering {
    /// It is no matching of the named row into the case.
    Malformed,
    /// The case's earlier states are all in the named row.
    Covers,
    /// It is a matching, and it does not show that.
    DoesNotCover,
}

/// Why a firing is refused. Of several grounds the first listed counts.
#[derive(Clone, Copy, PartialEq, Eq, Debug)]
pub enum FireRefusal {
    NoSuchRule = 21,
    ChoiceNotHeld = 22,
    ConditionNotMet = 23,
    EffectContradictory = 24,
    BeyondModel = 25,
}

impl From<FireRefusal> for u8 {
    ghost from_gives = { λ refusal number. number ≡ fire_refusal_number refusal };

    /// The number by which the refusal is reported.
    fn from(refusal: FireRefusal) -> u8 {
        refusal as u8
    }
}

/// Why a look is refused.
#[derive(Clone, Copy, PartialEq, Eq, Debug)]
pub enum LookRefusal {
    NoSuchRow = 26,
}

impl From<LookRefusal> for u8 {
    ghost from_gives = { λ refusal number. number ≡ look_refusal_number refusal };

    /// The number by which the refusal is reported.
    fn from(refusal: LookRefusal) -> u8 {
        refusal as u8
    }
}

/// What a call on a model answers.
#[derive(Clone, Copy, PartialEq, Eq, Debug)]
pub enum Answer {
    Fired(Result<(), FireRefusal>),
    Looked(Result<bool, LookRefusal>),
    Restarted,
}
