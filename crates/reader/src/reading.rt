ghost use Rattle.reader.specs.Form.{OneVerdict};
ghost use Rattle.std.specs.Prelude.{IfErr, IfOk};
ghost use Rattle.reader.specs.Dossier.{dossier_of, Holds, InRange};
ghost use Rattle.drafting.specs.Drafted.{draft_book_of, progress_of};
ghost use Rattle.reader.specs.Read.{FaultIn, Read};
ghost use Rattle.reader.specs.Encode.{EncodingLaw};

use drafting::Draft;
use records::{Books, DossierFault, Record, RecordFault, RecordKind, take_record};
use std::alloc::Global;

/// The most bytes of a file.
pub const MAX_BYTES: usize = 65_535;

/// Reads a file that may hold such books: what its records hold, or the first record at fault.
#[tactic(auto, using(crate::proofs::OneVerdict::one_verdict, crate::proofs::EncodingLaw::encoding_law))]
pub fn read(heap: Global, books: Books, bytes: &[u8]) -> Result<Draft, DossierFault>
    ensures reads { Read books bytes.now result }
    ensures faulted { IfErr result (FaultIn books) }
    ensures alone { OneVerdict books bytes.now }
    ensures ranged { IfOk result (λ d. InRange (dossier_of (progress_of d))) }
    ensures held { IfOk result (λ d. Holds books (draft_book_of d.book)) }
    ensures encodes { EncodingLaw books bytes.now }
{
    if bytes.len() > MAX_BYTES {
        return Err(DossierFault::TooLong);
    }
    let mut draft = Draft::new(heap, books);
    let mut rest = bytes;
    let mut place = 0;
    // A loop with `?`, and no iterator: a draft is moved through each record, and the end is the draft's to say.
    // No `break` uses the label: it names the loop for its proof.
    'records: while !draft.ended() {
        let (number, body, after) = take_record(rest, place)?;
        let kind = RecordKind::try_from(number).map_err(|_| RecordFault::KindNotAllowed { place })?;
        draft = draft.accept(heap, Record::new(kind, body))?;
        place += 4 + body.bytes.len();
        rest = after;
    }
    if rest.is_empty() {
        Ok(draft)
    } else {
        Err(DossierFault::AfterEnd { place })
    }
}
