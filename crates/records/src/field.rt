ghost use Rattle.std.specs.Prelude.{◌≡◌, IfOk};
ghost use Rattle.records.specs.Field.{words};
ghost use Rattle.records.specs.Field.{Moded, ModeRead};

use crate::each::read_each;
use crate::fault::{FieldFault, RecordFault};
use crate::record::Body;
use observer::Mode;
use std::alloc::{AllocError, Global};

/// Numbers of two bytes, low byte first, one after the other.
pub fn read_words(heap: Global, bytes: &[u8]) -> Result<Vec<u16>, AllocError>
    ensures { IfOk result (λ v. v.items ≡ words bytes.now) }
{
    let (words, _) = bytes.as_chunks();
    words
        .iter()
        .map(|word| u16::from_le_bytes(*word))
        .collect(heap)
}

/// Modes, one byte each.
pub fn read_modes(heap: Global, body: Body<'_>) -> Result<Vec<Mode>, RecordFault>
    ensures { Moded body.entry.bytes.now body.entry.place result }
{
    read_each(heap, body.bytes, |number| {
        read_mode(number, body.place).map_err(RecordFault::Field)
    })
}

/// The mode with a number, in the record at a place.
pub fn read_mode(number: u8, place: usize) -> Result<Mode, FieldFault>
    ensures { ModeRead number place result }
{
    Mode::try_from(number).map_err(|_| FieldFault { place })
}
