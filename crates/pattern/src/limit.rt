ghost use Rattle.std.specs.Prelude.{Decides};
ghost use Rattle.pattern.specs.Duty.{RulesAllowed, RowsAllowed, CasesAllowed};

/// The most rules of a pattern kind.
pub const MAX_RULES: usize = 32;

/// The most rows of a pattern kind.
pub const MAX_ROWS: usize = 64;

/// The most cases of one row and one rule.
pub const MAX_CASES: usize = 16_777_216;

// Two functions, and not one over its limit: each is one call of std's and has a name of its own.
/// Whether a pattern kind may have so many rules.
pub fn rules_allowed(rules: usize) -> bool
    ensures { Decides result (RulesAllowed rules) }
{
    (1..=MAX_RULES).contains(&rules)
}

/// Whether a pattern kind may have so many rows.
pub fn rows_allowed(rows: usize) -> bool
    ensures { Decides result (RowsAllowed rows) }
{
    (1..=MAX_ROWS).contains(&rows)
}

/// Whether one row and one rule may have so many cases.
pub fn cases_allowed(cases: usize) -> bool
    ensures { Decides result (CasesAllowed cases) }
{
    cases <= MAX_CASES
}
