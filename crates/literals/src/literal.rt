ghost use Rattle.std.specs.Prelude.{◌≡◌, slice_index};
ghost use Rattle.literals.specs.declared.literal.Fact.TheVariants.{Unary};
ghost use Rattle.literals.specs.State.{under, relation_of, last_variable};
ghost use Rattle.literals.specs.Follow.{implies, yields, denial};
ghost use Rattle.literals.specs.Number.{literal_kind_number, KindNumbered, kind_of};

/// The kinds of literals, by their numbers in a file.
#[derive(Clone, Copy, PartialEq, Eq, Debug)]
pub enum LiteralKind {
    /// a(x)
    Unary = 0,
    /// not a(x)
    NotUnary = 1,
    /// b(x, y)
    Binary = 2,
    /// not b(x, y)
    NotBinary = 3,
    /// some z has b(x, z)
    From = 4,
    /// no z has b(x, z)
    NotFrom = 5,
    /// some z has b(z, x)
    Into = 6,
    /// no z has b(z, x)
    NotInto = 7,
}

/// A number that no kind of literals has.
#[derive(Clone, Copy, PartialEq, Eq, Debug)]
pub struct NoSuchKind(pub u8);

impl TryFrom<u8> for LiteralKind {
    type Error = NoSuchKind;

    ghost try_from_gives = { KindNumbered };

    fn try_from(number: u8) -> Result<Self, NoSuchKind> {
        match number {
            0 => Ok(LiteralKind::Unary),
            1 => Ok(LiteralKind::NotUnary),
            2 => Ok(LiteralKind::Binary),
            3 => Ok(LiteralKind::NotBinary),
            4 => Ok(LiteralKind::From),
            5 => Ok(LiteralKind::NotFrom),
            6 => Ok(LiteralKind::Into),
            7 => Ok(LiteralKind::NotInto),
            _ => Err(NoSuchKind(number)),
        }
    }
}

impl From<LiteralKind> for u8 {
    ghost from_gives = { λ kind number. number ≡ literal_kind_number kind };

    fn from(kind: LiteralKind) -> u8 {
        kind as u8
    }
}

/// What a literal affirms or denies, of variables or of objects.
#[derive(Clone, Copy, PartialEq, Eq, Debug)]
pub enum Fact {
    /// a(x)
    Unary { relation: u8, x: u8 },
    /// b(x, y)
    Binary { relation: u8, x: u8, y: u8 },
    /// Some z has b(x, z).
    From { relation: u8, x: u8 },
    /// Some z has b(z, x).
    Into { relation: u8, x: u8 },
}

impl Default for Fact {
    ghost is_default = { λ f. f ≡ Unary 0 0 };

    // An `ArrayVec` of literals is made of defaults. By hand, since a derive needs a variant without fields.
    fn default() -> Self {
        Fact::Unary { relation: 0, x: 0 }
    }
}

impl Fact {
    /// Whether the fact implies another: each implies itself, and b(x, y) that there is one from x and one into y.
    pub fn implies(self, other: Fact) -> bool
        ensures { result ≡ implies self other }
    {
        match (self, other) {
            (Fact::Binary { relation: a, x, .. }, Fact::From { relation: b, x: y }) => a == b
                && x == y,
            (
                Fact::Binary {
                    relation: a,
                    y: w,
                    ..
                },
                Fact::Into { relation: b, x: y },
            ) => a == b && w == y,
            _ => self == other,
        }
    }

    /// The relation of the fact.
    pub fn relation(self) -> u8
        ensures { result ≡ relation_of self }
    {
        match self {
            Fact::Unary { relation, .. }
            | Fact::Binary { relation, .. }
            | Fact::From { relation, .. }
            | Fact::Into { relation, .. } => relation,
        }
    }

    /// The largest variable of the fact.
    pub fn last_variable(self) -> u8
        ensures { result ≡ last_variable self }
    {
        match self {
            Fact::Unary { x, .. } | Fact::From { x, .. } | Fact::Into { x, .. } => x,
            Fact::Binary { x, y, .. } => x.max(y),
        }
    }
}

/// A fact that is affirmed, or denied.
// The sign is a `bool`, since it is the answer to a question: what holds is `has(fact) == affirmed`.
#[derive(Clone, Copy, PartialEq, Eq, Debug, Default)]
pub struct Literal {
    pub fact: Fact,
    pub affirmed: bool,
}

impl Literal {
    /// The kind of the literal.
    // A method, and no `From`, since the kind alone does not give the literal back.
    pub fn kind(self) -> LiteralKind
        ensures { result ≡ kind_of self }
    {
        match (self.fact, self.affirmed) {
            (Fact::Unary { .. }, true) => LiteralKind::Unary,
            (Fact::Unary { .. }, false) => LiteralKind::NotUnary,
            (Fact::Binary { .. }, true) => LiteralKind::Binary,
            (Fact::Binary { .. }, false) => LiteralKind::NotBinary,
            (Fact::From { .. }, true) => LiteralKind::From,
            (Fact::From { .. }, false) => LiteralKind::NotFrom,
            (Fact::Into { .. }, true) => LiteralKind::Into,
            (Fact::Into { .. }, false) => LiteralKind::NotInto,
        }
    }

    /// The literal that says the contrary.
    pub fn denial(self) -> Literal
        ensures { result ≡ denial self }
    {
        Literal {
            affirmed: !self.affirmed,
            ..self
        }
    }

    /// Whether another literal follows from this one.
    pub fn yields(self, other: Literal) -> bool
        ensures { result ≡ yields self other }
    {
        match (self.affirmed, other.affirmed) {
            (true, true) => self.fact.implies(other.fact),
            (false, false) => other.fact.implies(self.fact),
            _ => false,
        }
    }

    /// The literal with each variable as its object, or as its variable, in the list.
    pub fn under(self, names: &[u8]) -> Literal
        ensures { result ≡ under (λ x. slice_index names.now x) self }
    {
        let fact = match self.fact {
            Fact::Unary { relation, x } => Fact::Unary {
                relation,
                x: name(names, x),
            },
            Fact::Binary { relation, x, y } => Fact::Binary {
                relation,
                x: name(names, x),
                y: name(names, y),
            },
            Fact::From { relation, x } => Fact::From {
                relation,
                x: name(names, x),
            },
            Fact::Into { relation, x } => Fact::Into {
                relation,
                x: name(names, x),
            },
        };
        Literal { fact, ..self }
    }
}

/// What the list has for a variable, or 0.
fn name(names: &[u8], variable: u8) -> u8
    ensures { result ≡ slice_index names.now variable }
{
    names.get(usize::from(variable)).copied().unwrap_or(0)
}
