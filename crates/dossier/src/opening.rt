ghost use Rattle.std.specs.Prelude.{◌≡◌, IfSome, IfOk};
ghost use Rattle.records.specs.Fault.{form_of};
ghost use Rattle.dossier.specs.Law.{FileLaw};
ghost use Rattle.dossier.specs.Opened.{verdict_without, verdict_of, Given, Opens, of_form};
ghost use Rattle.dossier.specs.declared.opening.NoModel.TheVariants.{TableRefused as TableVariant, OutOfMemory as MemoryVariant};

use crate::building::build;
use crate::kind::{FileKind, FileModel};
use drafting::Draft;
use judge::{Model, Rejected, TableRefusal};
use line::Verdict;
use reader::read;
use records::{Books, DossierFault, FormFault};
use std::alloc::{AllocError, Global};

/// Why no model is made of a file.
#[derive(Clone, Copy, PartialEq, Eq, Debug)]
pub enum NoModel {
    /// The file is not in form.
    NotInForm(FormFault),
    /// Its table is refused.
    TableRefused(TableRefusal),
    /// There is no memory.
    OutOfMemory,
}

impl NoModel {
    /// The verdict on the file; none for want of memory, which says nothing of it.
    pub fn verdict(self) -> Result<Verdict, AllocError>
        ensures { Given (verdict_without self) result }
    {
        match self {
            NoModel::NotInForm(fault) => Ok(Verdict::Form(fault)),
            NoModel::TableRefused(refusal) => Ok(Verdict::Refuse(refusal)),
            NoModel::OutOfMemory => Err(AllocError),
        }
    }
}

// Written out, not derived: the contracts read `from_gives`, which a derived `From` has not.
impl From<DossierFault> for NoModel {
    ghost from_gives = { λ e r. r ≡ of_form (form_of e) };

    fn from(fault: DossierFault) -> NoModel {
        match fault.form() {
            Some(form) => NoModel::NotInForm(form),
            None => NoModel::OutOfMemory,
        }
    }
}

impl From<Rejected<FileKind>> for NoModel {
    ghost from_gives = { λ rejected r. r ≡ TableVariant rejected.refusal };

    fn from(rejected: Rejected<FileKind>) -> NoModel {
        NoModel::TableRefused(rejected.refusal)
    }
}

impl From<AllocError> for NoModel {
    ghost from_gives = { λ _ r. r ≡ MemoryVariant };

    fn from(_: AllocError) -> NoModel {
        NoModel::OutOfMemory
    }
}

/// Reads a file, judges its table and, where it is accepted, makes a model of its book in the
/// opening state.
pub fn open(heap: Global, bytes: &[u8]) -> Result<FileModel, NoModel>
    ensures law { IfSome (verdict_of result) (FileLaw bytes.now) }
    ensures opens { IfOk result (Opens bytes.now) }
{
    let Draft {
        books: _,
        section: _,
        observers: _,
        places: _,
        book,
        layers,
        entries,
    } = read(heap, Books::Any, bytes)?;
    let kind = build(heap, book, layers)?;
    Ok(Model::new(kind, &entries)?)
}
