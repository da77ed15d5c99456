// How a call and its answer are printed.
use judge::Call;
use pattern::Answer;
use std::fmt;

/// A call with what it answered.
#[derive(Clone, Copy)]
pub struct Exchange<'a> {
    pub call: &'a Call,
    pub answer: &'a Answer,
}

impl fmt::Display for Exchange<'_> {
    fn fmt<W: fmt::Write>(&self, f: &mut fmt::Formatter<W>) -> fmt::Result {
        match self.call {
            Call::Fire { rule, choice } => write!(
                f,
                "fire rule {rule} with {} chosen: ",
                choice.len()
            )?,
            Call::Look { row } => write!(f, "look at row {row}: ")?,
            Call::Restart => write!(f, "restart: ")?,
        }
        match self.answer {
            Answer::Fired(Ok(())) => write!(f, "fired"),
            Answer::Fired(Err(refusal)) => write!(f, "refused {}", u8::from(*refusal)),
            Answer::Looked(Ok(true)) => write!(f, "it stands"),
            Answer::Looked(Ok(false)) => write!(f, "it does not stand"),
            Answer::Looked(Err(refusal)) => write!(f, "refused {}", u8::from(*refusal)),
            Answer::Restarted => write!(f, "in the opening state"),
        }
    }
}
