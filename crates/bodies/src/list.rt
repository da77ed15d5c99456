ghost use Rattle.bodies.specs.Literal.{literal_in, literal_of, atom_in, atom_of};
ghost use Rattle.bodies.specs.Lists.{FourTaken, LiteralsRead, AtomsRead};

use crate::literal::{Role, read_atom, read_literal};
use atoms::Atom;
use literals::Literal;
use records::{Body, RecordFault, read_each};
use std::alloc::Global;

/// Literals, four bytes each.
pub fn read_literals(
    heap: Global,
    role: Role,
    variables: u8,
    body: Body<'_>,
) -> Result<Vec<Literal>, RecordFault>
    ensures { LiteralsRead role variables body.entry.bytes.now body.entry.place result }
{
    let place = body.place;
    let (fours, _) = body.bytes.as_chunks();
    read_each(
        heap,
        fours,
        |four| -> Result<Literal, RecordFault>
            ensures { FourTaken (literal_in role variables) literal_of four place result }
        { read_literal(role, variables, four, place).map_err(RecordFault::Literal) },
    )
}

/// Atoms, four bytes each.
pub fn read_atoms(heap: Global, body: Body<'_>) -> Result<Vec<Atom>, RecordFault>
    ensures { AtomsRead body.entry.bytes.now body.entry.place result }
{
    let place = body.place;
    let (fours, _) = body.bytes.as_chunks();
    read_each(
        heap,
        fours,
        |four| -> Result<Atom, RecordFault>
            ensures { FourTaken atom_in atom_of four place result }
        { read_atom(four, place).map_err(RecordFault::Field) },
    )
}
