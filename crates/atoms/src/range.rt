ghost use Rattle.std.specs.Prelude.{◌≡◌, ◌<◌, ◌≤◌, length, Decides, MatchResult};
ghost use Rattle.std.specs.List.{AllByRecursion};
ghost use Rattle.atoms.specs.Range.{AtomIn, FactIn, LiteralIn, EffectIn, RuleIn, RowIn, InRange, RefusedBy, most_rule_variables, most_rule_literals};
ghost use Rattle.atoms.specs.Data.{transition_of, pattern_of, book_of};

use crate::book::{Atom, Book, BookRefusal, Row, Rule};
use crate::cells::{OBJECTS, RELATIONS};
use crate::place::MAX_ROW_VARIABLES;
use literals::{Fact, Literal};
use pattern::{rows_allowed, rules_allowed};

/// The most atoms of an opening.
pub const MAX_ATOMS: usize = 24;

/// The most variables of a rule.
pub const MAX_RULE_VARIABLES: u8 = 4;

/// The most literals of a condition or of an effect.
pub const MAX_RULE_LITERALS: usize = 12;

/// The most literals of a row.
pub const MAX_ROW_LITERALS: usize = 16;

impl Book {
    /// Whether the data is a book of atoms.
    pub(crate) fn check(&self) -> Result<(), BookRefusal>
        ensures { MatchResult result (λ _. InRange (book_of self.now)) (λ e. RefusedBy (book_of self.now) e) }
    {
        if self.opening.len() > MAX_ATOMS {
            return Err(BookRefusal::OpeningLength);
        }
        if !self.opening.iter().all(|atom| atom.in_range()) {
            return Err(BookRefusal::OpeningRange);
        }
        if !rules_allowed(self.rule_count()) {
            return Err(BookRefusal::Rules);
        }
        if !rows_allowed(self.row_count()) {
            return Err(BookRefusal::Rows);
        }
        if !self.rules_in_range() {
            return Err(BookRefusal::RuleRange);
        }
        if !self.rows_in_range() {
            return Err(BookRefusal::RowRange);
        }
        Ok(())
    }

    /// How many rules there are.
    pub fn rule_count(&self) -> usize
        ensures { result ≡ length (book_of self.now).rules }
    {
        self.rules.len()
    }

    /// How many rows there are.
    pub fn row_count(&self) -> usize
        ensures { result ≡ length (book_of self.now).rows }
    {
        self.rows.len()
    }

    /// Whether every rule is in range.
    // A method, as `rows_in_range` is, since its contract says what `all` decides of the rules as plain data.
    fn rules_in_range(&self) -> bool
        ensures { Decides result (AllByRecursion RuleIn (book_of self.now).rules) }
    {
        self.rules.iter().all(|rule| rule.in_range())
    }

    /// Whether every row is in range.
    fn rows_in_range(&self) -> bool
        ensures { Decides result (AllByRecursion RowIn (book_of self.now).rows) }
    {
        self.rows.iter().all(|row| row.in_range())
    }
}

impl Rule {
    /// Whether the rule is in range.
    fn in_range(&self) -> bool
        ensures { Decides result (RuleIn (transition_of self.now)) }
    {
        self.is_short()
            && literals_in_range(&self.condition, self.variables)
            && literals_in_range(&self.effect, self.variables)
            && self.effect.iter().all(|literal| is_effective(*literal))
    }

    /// Whether the rule has few enough variables and literals.
    fn is_short(&self) -> bool
        ensures { Decides result ((self.now.variables ≤ most_rule_variables) × (length self.now.condition.items ≤ most_rule_literals) × (length self.now.effect.items ≤ most_rule_literals)) }
    {
        self.variables <= MAX_RULE_VARIABLES
            && self.condition.len() <= MAX_RULE_LITERALS
            && self.effect.len() <= MAX_RULE_LITERALS
    }
}

impl Row {
    /// Whether the row is in range.
    fn in_range(&self) -> bool
        ensures { Decides result (RowIn (pattern_of self.now)) }
    {
        usize::from(self.variables) <= MAX_ROW_VARIABLES
            && self.literals.len() <= MAX_ROW_LITERALS
            && literals_in_range(&self.literals, self.variables)
    }
}

impl Atom {
    /// Whether the atom is one of a model's relations and objects.
    fn in_range(self) -> bool
        ensures { Decides result (AtomIn self) }
    {
        fact_in_range(Fact::from(self), OBJECTS)
    }
}

/// Whether a fact is one of a model's relations over so many variables.
fn fact_in_range(fact: Fact, variables: u8) -> bool
    ensures { Decides result (FactIn variables fact) }
{
    fact.relation() < RELATIONS && fact.last_variable() < variables
}

/// Whether every literal is one of a model's relations over so many variables.
fn literals_in_range(literals: &[Literal], variables: u8) -> bool
    ensures { Decides result (AllByRecursion (LiteralIn variables) literals.now) }
{
    literals
        .iter()
        .all(|literal| fact_in_range(literal.fact, variables))
}

/// Whether a literal can stand in an effect: it affirms an atom, or denies something.
fn is_effective(literal: Literal) -> bool
    ensures { Decides result (EffectIn literal) }
{
    !literal.affirmed || matches!(literal.fact, Fact::Unary { .. } | Fact::Binary { .. })
}
