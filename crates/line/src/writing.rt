ghost use Rattle.std.specs.Prelude.{◌≡◌, ◌≤◌, length, IfOk, string_bytes};
ghost use Rattle.line.specs.Text.{line_of, Bounded, least_buffer, Written};

use crate::verdict::{LineRefusal, NoLine, Verdict};
use std::alloc::{AllocError, Global};

impl Verdict {
    /// The line that reports the verdict, with its line feed.
    pub fn line(self, heap: Global) -> Result<String, AllocError>
        ensures bytes { IfOk result (λ s. string_bytes s ≡ line_of self) }
        ensures short { Bounded self → length (line_of self) ≤ least_buffer }
    {
        format!(in heap; "{self}\n")
    }

    /// Writes the line at the front of a buffer, and says how long it is. What follows in the buffer
    /// stays, and so does all of it where the line has no room or there is no memory.
    // A length is given back, and no slice: the buffer is the caller's, who has it with what stays behind the line.
    pub fn write_line(self, heap: Global, buffer: &mut [u8]) -> Result<usize, NoLine>
        ensures { Written self buffer.old buffer.new result }
    {
        let line = self.line(heap)?;
        let length = line.len();
        if buffer.len() < length {
            return Err(NoLine::Refused(LineRefusal::BufferTooShort));
        }
        buffer[0..length].copy_from_slice(line.as_bytes());
        Ok(length)
    }
}
