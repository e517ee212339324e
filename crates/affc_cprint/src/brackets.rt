//! Where brackets stand.
ghost use Rattle.std.specs.Prelude.{◌≡◌};
ghost use Rattle.affc_grammar.specs.Grammar.{level_of};
ghost use Rattle.affc_cprint.specs.Places.{is_inside, is_factor, is_negated, divides};
ghost use Rattle.affc_cprint.specs.Levels.{number_of, op_left, op_right};
ghost use Rattle.affc_cprint.specs.Standings.{is_joined_at, is_in_all};

use affc_ast::tree::Op;

/// Where an expression stands: there a looser one has brackets.
#[derive(Clone, Copy)]
pub enum Place {
    /// By itself, or left of `+` and `-`.
    Whole,
    RightOfSum,
    LeftOfProduct,
    RightOfProduct,
    UnderMinus,
}

impl Place {
    pub fn is_inside(self) -> bool
        ensures { result ≡ is_inside self }
    {
        !matches!(self, Place::Whole)
    }

    pub fn is_factor(self) -> bool
        ensures { result ≡ is_factor self }
    {
        matches!(self, Place::RightOfProduct | Place::UnderMinus)
    }

    pub fn is_negated(self) -> bool
        ensures { result ≡ is_negated self }
    {
        matches!(self, Place::UnderMinus)
    }
}

/// Whether a quotient by this number is written.
#[tactic(auto, using(crate::proofs::Numbers::divisor_of))]
pub fn is_divided(prelude: bool, by: i64) -> bool
    ensures { result ≡ divides prelude by }
{
    prelude && by != 0
}

/// Where a condition stands: beside `||`, one that is joined by `||` has brackets, and beside `&&`, each that is joined.
#[derive(Clone, Copy)]
pub enum Standing {
    Alone,
    InAny,
    InAll,
}

impl Standing {
    pub fn is_joined(self) -> bool
        ensures { result ≡ is_joined_at self }
    {
        !matches!(self, Standing::Alone)
    }

    pub fn is_in_all(self) -> bool
        ensures { result ≡ is_in_all self }
    {
        matches!(self, Standing::InAll)
    }
}

/// How tightly binds what stands round a value: there a looser value has brackets.
#[derive(Clone, Copy)]
pub enum Level {
    Primary,
    Product,
    Sum,
    Shifted,
    And,
    Xor,
    Or,
}

impl Level {
    pub fn number(self) -> u8
        ensures { result ≡ number_of self }
    {
        match self {
            Level::Primary => 0,
            Level::Product => 1,
            Level::Sum => 2,
            Level::Shifted => 3,
            Level::And => 4,
            Level::Xor => 5,
            Level::Or => 6,
        }
    }
}

/// How loose an operator is.
pub fn level_of(op: Op) -> u8
    ensures { result ≡ level_of op }
{
    match op {
        Op::Mul => 1,
        Op::Add => 2,
        Op::Sub => 2,
        Op::And => 4,
        Op::Xor => 5,
        Op::Or => 6,
    }
}

/// The level of its left side.
pub fn left_of(op: Op) -> Level
    ensures { result ≡ op_left op }
{
    match op {
        Op::Mul => Level::Product,
        Op::Add => Level::Sum,
        Op::Sub => Level::Sum,
        Op::And => Level::And,
        Op::Xor => Level::Xor,
        Op::Or => Level::Or,
    }
}

/// The level of its right side.
pub fn right_of(op: Op) -> Level
    ensures { result ≡ op_right op }
{
    match op {
        Op::Mul => Level::Primary,
        Op::Add => Level::Product,
        Op::Sub => Level::Product,
        Op::And => Level::Shifted,
        Op::Xor => Level::And,
        Op::Or => Level::Xor,
    }
}
