ghost use Rattle.std.specs.Prelude.{◌≡◌};
ghost use Rattle.bodies.specs.Literal.{allows as allowed, second_in, shaped, LiteralRead, AtomRead};

use atoms::Atom;
use atoms::cells::{OBJECTS, RELATIONS};
use literals::{Fact, Literal, LiteralKind};
use records::{FieldFault, LiteralFault};

/// What a literal is for. A condition or a row may have every kind, an effect only those that it can
/// bring about.
#[derive(Clone, Copy)]
pub enum Role {
    Condition,
    Effect,
}

impl Role {
    /// Whether a literal for this may be of a kind.
    pub fn allows(self, kind: LiteralKind) -> bool
        ensures { result ≡ allowed self kind }
    {
        !matches!(
            (self, kind),
            (Role::Effect, LiteralKind::From | LiteralKind::Into)
        )
    }
}

/// The literal of four bytes (kind, relation, first and second variable) over so many variables, in
/// the record at a place. Role and variables are no struct: it would be made anew for each list.
pub fn read_literal(
    role: Role,
    variables: u8,
    four: [u8; 4],
    place: usize,
) -> Result<Literal, LiteralFault>
    ensures { LiteralRead role variables four place result }
{
    let [number, relation, x, y] = four;
    let kind = LiteralKind::try_from(number).map_err(|_| LiteralFault::Kind { place })?;
    if !role.allows(kind) {
        return Err(LiteralFault::Kind { place });
    }
    if relation >= RELATIONS {
        return Err(LiteralFault::Relation { place });
    }
    if x >= variables {
        return Err(LiteralFault::First { place });
    }
    if !second_fits(kind, variables, y) {
        return Err(LiteralFault::Second { place });
    }
    Ok(literal(kind, relation, x, y))
}

/// Whether the second variable is one where the kind has two, and 0 where it has one.
fn second_fits(kind: LiteralKind, variables: u8, y: u8) -> bool
    ensures { result ≡ second_in kind variables y }
{
    match kind {
        LiteralKind::Binary | LiteralKind::NotBinary => y < variables,
        _ => y == 0,
    }
}

/// The literal of a kind.
// No `From`: it takes four numbers, of which the last means nothing for most kinds.
fn literal(kind: LiteralKind, relation: u8, x: u8, y: u8) -> Literal
    ensures { result ≡ shaped kind relation x y }
{
    let (fact, affirmed) = match kind {
        LiteralKind::Unary => (Fact::Unary { relation, x }, true),
        LiteralKind::NotUnary => (Fact::Unary { relation, x }, false),
        LiteralKind::Binary => (Fact::Binary { relation, x, y }, true),
        LiteralKind::NotBinary => (Fact::Binary { relation, x, y }, false),
        LiteralKind::From => (Fact::From { relation, x }, true),
        LiteralKind::NotFrom => (Fact::From { relation, x }, false),
        LiteralKind::Into => (Fact::Into { relation, x }, true),
        LiteralKind::NotInto => (Fact::Into { relation, x }, false),
    };
    Literal { fact, affirmed }
}

/// The atom of four bytes (kind, relation, first and second object), in the record at a place.
pub fn read_atom(four: [u8; 4], place: usize) -> Result<Atom, FieldFault>
    ensures { AtomRead four place result }
{
    let [number, relation, first, second] = four;
    let fault = FieldFault { place };
    if relation >= RELATIONS || first >= OBJECTS {
        return Err(fault);
    }
    match LiteralKind::try_from(number) {
        Ok(LiteralKind::Unary) if second == 0 => Ok(Atom::Unary {
            relation,
            object: first,
        }),
        Ok(LiteralKind::Binary) if second < OBJECTS => Ok(Atom::Binary {
            relation,
            first,
            second,
        }),
        _ => Err(fault),
    }
}
