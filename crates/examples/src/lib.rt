// Worked examples: stated of the definitions and proved, and run on the code.
#![tactic(auto)]

ghost use Rattle.std.specs.Prelude.{◌≡◌, length};
ghost use Rattle.judge.specs.Walk.{open_cases};
ghost use Rattle.counts.specs.Counted.{counted_meaning};
ghost use Rattle.examples.specs.Worked.{Worked, pump};

#[cfg(test)]
mod counted;
#[cfg(test)]
mod observed;
#[cfg(test)]
mod reading;

/// The worked examples hold of the definitions. The answer is how many open cases the book of one
/// pump has: as many as its table needs entries.
pub fn worked_examples() -> usize
    ensures worked { Worked }
    ensures count { result ≡ length (open_cases (counted_meaning pump)) }
{
    4
}
