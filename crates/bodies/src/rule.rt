ghost use Rattle.std.specs.Prelude.{◌≡◌, true};
ghost use Rattle.bodies.specs.Rule.{opening_fits, rule_fits, row_fits, RuleRead, RowRead};

use crate::list::read_literals;
use crate::literal::Role;
use atoms::place::MAX_ROW_VARIABLES;
use atoms::range::{MAX_ATOMS, MAX_ROW_LITERALS, MAX_RULE_LITERALS, MAX_RULE_VARIABLES};
use atoms::{Row, Rule};
use records::{Body, FieldFault, RecordFault};
use std::alloc::Global;

/// Whether the body of an opening has four bytes an atom, and not too many of them.
pub fn opening_fits(bytes: &[u8]) -> bool
    ensures { result ≡ opening_fits bytes.now }
{
    bytes.len() % 4 == 0 && bytes.len() <= 4 * MAX_ATOMS
}

/// Whether the body of a rule is as long as its counts say.
pub fn rule_fits(bytes: &[u8]) -> bool
    ensures { result ≡ rule_fits bytes.now }
{
    match bytes {
        [_, conditions, effects, ..] => bytes.len()
            == 3 + 4 * (usize::from(*conditions) + usize::from(*effects)),
        _ => false,
    }
}

/// Whether the body of a row is as long as its count says.
pub fn row_fits(bytes: &[u8]) -> bool
    ensures { result ≡ row_fits bytes.now }
{
    match bytes {
        [_, literals, ..] => bytes.len() == 2 + 4 * usize::from(*literals),
        _ => false,
    }
}

/// The rule of a body: its variables, the number of its conditions and of its effects, and these.
pub fn read_rule(heap: Global, body: Body<'_>) -> Result<Rule, RecordFault>
    requires { rule_fits body.bytes.now ≡ true }
    ensures { RuleRead body.entry.bytes.now body.entry.place result }
{
    let fault = FieldFault { place: body.place };
    let [variables, conditions, effects, literals @ ..] = body.bytes else {
        return Err(RecordFault::Field(fault));
    };
    let conditions = usize::from(*conditions);
    if *variables > MAX_RULE_VARIABLES
        || conditions > MAX_RULE_LITERALS
        || usize::from(*effects) > MAX_RULE_LITERALS
    {
        return Err(RecordFault::Field(fault));
    }
    let (condition, effect) = literals.split_at(4 * conditions);
    let condition = Body {
        bytes: condition,
        ..body
    };
    let effect = Body {
        bytes: effect,
        ..body
    };
    let condition = read_literals(heap, Role::Condition, *variables, condition)?;
    let effect = read_literals(heap, Role::Effect, *variables, effect)?;
    Ok(Rule {
        variables: *variables,
        condition,
        effect,
    })
}

/// The row of a body: its variables, the number of its literals, and these.
pub fn read_row(heap: Global, body: Body<'_>) -> Result<Row, RecordFault>
    requires { row_fits body.bytes.now ≡ true }
    ensures { RowRead body.entry.bytes.now body.entry.place result }
{
    let fault = FieldFault { place: body.place };
    let [variables, count, literals @ ..] = body.bytes else {
        return Err(RecordFault::Field(fault));
    };
    if usize::from(*variables) > MAX_ROW_VARIABLES || usize::from(*count) > MAX_ROW_LITERALS {
        return Err(RecordFault::Field(fault));
    }
    let literals = Body {
        bytes: literals,
        ..body
    };
    let literals = read_literals(heap, Role::Condition, *variables, literals)?;
    Ok(Row {
        variables: *variables,
        literals,
    })
}
