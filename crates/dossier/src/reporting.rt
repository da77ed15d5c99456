ghost use Rattle.std.specs.Prelude.{◌≤◌, length, IfOk};
ghost use Rattle.line.specs.Text.{Bounded};
ghost use Rattle.dossier.specs.Law.{FileLaw};
ghost use Rattle.dossier.specs.Reported.{Reported};

use crate::opening::open;
use line::{LineRefusal, NoLine, Verdict};
use std::alloc::{AllocError, Global};

/// The least buffer that a line is written into.
pub const MIN_BUFFER: usize = 64;

/// The verdict on a file.
pub fn judge_file(heap: Global, bytes: &[u8]) -> Result<Verdict, AllocError>
    ensures law { IfOk result (FileLaw bytes.now) }
    ensures bounded { IfOk result Bounded }
{
    match open(heap, bytes) {
        Ok(_) => Ok(Verdict::Accept),
        Err(without) => without.verdict(),
    }
}

/// Judges a file and writes the line of its verdict at the front of a buffer; says how long the line
/// is. What follows it in the buffer stays. A buffer under 64 bytes is refused before all else.
pub fn report(heap: Global, bytes: &[u8], buffer: &mut [u8]) -> Result<usize, NoLine>
    ensures reported { Reported bytes.now buffer.old buffer.new result }
    ensures fits { IfOk result (λ n. n ≤ length buffer.old) }
{
    if buffer.len() < MIN_BUFFER {
        return Err(NoLine::Refused(LineRefusal::BufferTooShort));
    }
    let verdict = judge_file(heap, bytes)?;
    verdict.write_line(heap, buffer)
}
