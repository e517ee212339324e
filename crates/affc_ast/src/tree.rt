//! The tree of a program.

use crate::text::Text;
use sqlite_items::{Boxed, Items};

/// A name that is visible where it stands: the number parameters in order of declaration, then the
/// enclosing iterators and locals from the outermost on, numbered from 0.
#[derive(Clone, Copy)]
pub struct NameId(pub u32);

/// An array: the array parameters in order of declaration, then the temporaries, numbered from 0.
#[derive(Clone, Copy, Debug)]
pub struct ArrayId(pub u32);

/// A whole-number expression: a bound, a subscript, an extent, a side of a comparison.
pub enum Ix {
    Lit(i64),
    Name(NameId),
    Neg(Boxed<Ix>),
    Add(Boxed<Ix>, Boxed<Ix>),
    Sub(Boxed<Ix>, Boxed<Ix>),
    Mul(Boxed<Ix>, Boxed<Ix>),
    Min(Boxed<Ix>, Boxed<Ix>),
    Max(Boxed<Ix>, Boxed<Ix>),
    /// The quotient by a number of at least 1, rounded down.
    Floord(Boxed<Ix>, i64),
    /// The quotient by a number of at least 1, rounded up.
    Ceild(Boxed<Ix>, i64),
    /// The remainder from 0 to the second less 1.
    Mod(Boxed<Ix>, Boxed<Ix>),
}

/// A loop down the left operands, so that a long chain of operators takes no stack.
impl Drop for Ix {
    fn drop(mut self) {
        loop {
            match self {
                Ix::Lit(_) | Ix::Name(_) => return,
                Ix::Neg(of) | Ix::Floord(of, _) | Ix::Ceild(of, _) => self = of.into_inner(),
                Ix::Add(left, right)
                | Ix::Sub(left, right)
                | Ix::Mul(left, right)
                | Ix::Min(left, right)
                | Ix::Max(left, right)
                | Ix::Mod(left, right) => {
                    right.into_inner();
                    self = left.into_inner();
                }
            }
        }
    }
}

/// An operation on two values.
#[derive(Clone, Copy)]
pub enum Op {
    Add,
    Sub,
    Mul,
    And,
    Or,
    Xor,
}

/// A value: a `uint64_t`.
pub enum Val {
    Load {
        array: ArrayId,
        subs: Items<Ix>,
    },
    Const(u64),
    /// `(uint64_t)(..)`.
    Cast(Ix),
    Not(Boxed<Val>),
    Bin {
        op: Op,
        left: Boxed<Val>,
        right: Boxed<Val>,
    },
    /// `<<` where `left`, else `>>`, by 0 to 63 bits.
    Shift {
        left: bool,
        value: Boxed<Val>,
        by: u8,
    },
}

/// A loop down the left operands, so that a long chain of operators takes no stack.
impl Drop for Val {
    fn drop(mut self) {
        loop {
            match self {
                Val::Load { array: _, subs: _ } | Val::Const(_) | Val::Cast(_) => return,
                Val::Not(of)
                | Val::Shift {
                    left: _,
                    value: of,
                    by: _,
                } => self = of.into_inner(),
                Val::Bin { op: _, left, right } => {
                    right.into_inner();
                    self = left.into_inner();
                }
            }
        }
    }
}

#[derive(Clone, Copy)]
pub enum Rel {
    Less,
    LessEqual,
    Greater,
    GreaterEqual,
    Equal,
    NotEqual,
}

/// A condition of a `context` line.
#[derive(Drop)]
pub struct Compare {
    pub rel: Rel,
    pub left: Ix,
    pub right: Ix,
}

/// A condition of an `if`.
#[derive(Drop)]
pub enum Cond {
    Compare { rel: Rel, left: Ix, right: Ix },
    /// `&&`: all of them, of which there are at least two, and none is an `All`.
    All(Items<Cond>),
    /// `||`: some of them, of which there are at least two, and none is an `Any`.
    Any(Items<Cond>),
    /// Whether a number of at least 1 divides the value: `value % by == 0` where `yes`, else `value % by != 0`.
    Divides { value: Ix, by: i64, yes: bool },
}

/// A local of a block, `const int64_t name = value;`.
#[derive(Drop)]
pub struct Local {
    pub name: Text,
    pub value: Ix,
}

#[derive(Drop)]
pub enum Stmt {
    /// `rel` is `Less` or `LessEqual`, and the step is 1.
    For {
        iter: Text,
        low: Ix,
        rel: Rel,
        high: Ix,
        body: Items<Stmt>,
    },
    /// The body runs where the condition is true, and the other where it is false.
    If {
        cond: Cond,
        body: Items<Stmt>,
        other: Items<Stmt>,
    },
    /// `op` is `None` for `=`.
    Assign {
        op: Option<Op>,
        array: ArrayId,
        subs: Items<Ix>,
        value: Val,
    },
    Block {
        locals: Items<Local>,
        body: Items<Stmt>,
    },
}

#[derive(Clone, Copy, PartialEq, Eq)]
pub enum Role {
    Input,
    Output,
    Temp,
}

/// An array: one extent for each dimension.
#[derive(Drop)]
pub struct Decl {
    pub name: Text,
    pub role: Role,
    pub extents: Items<Ix>,
}

#[derive(Drop)]
pub enum Param {
    /// A number with its declared range, both ends included.
    Number { name: Text, low: i64, high: i64 },
    Array(Decl),
}

#[derive(Drop)]
pub struct Program {
    pub name: Text,
    pub params: Items<Param>,
    /// What the parameters meet, beside their ranges.
    pub context: Items<Compare>,
    pub temps: Items<Decl>,
    pub body: Items<Stmt>,
    /// Whether the text has the prelude, the five functions that `Min` to `Mod` call.
    pub prelude: bool,
}

/// One run of an assignment: the statement's number, in the order of the text from 0, and the values of
/// the iterators round it, from the outermost.
#[derive(Debug, Drop)]
pub struct Instance {
    pub statement: u32,
    pub iterators: Items<i64>,
}
