//! The tree of a text before its names are looked up. `at` is the number of a token, from 0.

use affc_ast::text::Text;
use affc_ast::tree::{Op, Rel, Role};
use affc_ast::{Boxed, Items};

/// `affc_min`, `affc_max`, `affc_mod`.
#[derive(Clone, Copy)]
pub enum Choice {
    Minimum,
    Maximum,
    Remainder,
}

/// `affc_floord`, `affc_ceild`.
#[derive(Clone, Copy)]
pub enum Rounding {
    Down,
    Up,
}

/// A whole-number expression.
pub enum IxDraft {
    Literal {
        at: usize,
        value: u64,
    },
    Name {
        at: usize,
        name: Text,
    },
    Negated {
        at: usize,
        of: Boxed<IxDraft>,
    },
    Sum(Boxed<IxDraft>, Boxed<IxDraft>),
    Difference(Boxed<IxDraft>, Boxed<IxDraft>),
    /// `at` is the number of the `*`.
    Product {
        at: usize,
        left: Boxed<IxDraft>,
        right: Boxed<IxDraft>,
    },
    /// In parentheses, which leave no mark in the tree.
    Grouped {
        at: usize,
        inside: Boxed<IxDraft>,
    },
    Chosen {
        at: usize,
        choice: Choice,
        left: Boxed<IxDraft>,
        right: Boxed<IxDraft>,
    },
    Divided {
        at: usize,
        rounding: Rounding,
        of: Boxed<IxDraft>,
        by_at: usize,
        by: u64,
    },
}

/// A loop down the left operands, so that a long chain of operators takes no stack.
impl Drop for IxDraft {
    fn drop(mut self) {
        loop {
            match self {
                IxDraft::Literal { at: _, value: _ } | IxDraft::Name { at: _, name: _ } => return,
                IxDraft::Negated { at: _, of }
                | IxDraft::Grouped { at: _, inside: of }
                | IxDraft::Divided {
                    at: _,
                    rounding: _,
                    of,
                    by_at: _,
                    by: _,
                } => self = of.into_inner(),
                IxDraft::Sum(left, right)
                | IxDraft::Difference(left, right)
                | IxDraft::Product { at: _, left, right }
                | IxDraft::Chosen {
                    at: _,
                    choice: _,
                    left,
                    right,
                } => {
                    right.into_inner();
                    self = left.into_inner();
                }
            }
        }
    }
}

/// A comparison of a condition.
#[derive(Drop)]
pub struct CompareDraft {
    pub rel: Rel,
    pub left: IxDraft,
    pub right: IxDraft,
}

/// A condition of an `if`.
#[derive(Drop)]
pub enum CondDraft {
    Compare(CompareDraft),
    /// A remainder of the value by `by` that is 0, or isn't; `by_at` is the number of the token of `by`.
    Divides {
        value: IxDraft,
        by_at: usize,
        by: u64,
        yes: bool,
    },
    /// Joined by `&&`; none is itself joined so.
    All(Items<CondDraft>),
    /// Joined by `||`; none is itself joined so.
    Any(Items<CondDraft>),
}

/// A value: a `uint64_t`.
pub enum ValueDraft {
    Load {
        at: usize,
        name: Text,
        subs: Items<IxDraft>,
    },
    Constant(u64),
    Cast(IxDraft),
    Complement(Boxed<ValueDraft>),
    Binary {
        op: Op,
        left: Boxed<ValueDraft>,
        right: Boxed<ValueDraft>,
    },
    Shift {
        left: bool,
        of: Boxed<ValueDraft>,
        by: u64,
    },
}

/// A loop down the left operands, so that a long chain of operators takes no stack.
impl Drop for ValueDraft {
    fn drop(mut self) {
        loop {
            match self {
                ValueDraft::Load {
                    at: _,
                    name: _,
                    subs: _,
                }
                | ValueDraft::Constant(_)
                | ValueDraft::Cast(_) => return,
                ValueDraft::Complement(of) | ValueDraft::Shift { left: _, of, by: _ } => {
                    self = of.into_inner();
                }
                ValueDraft::Binary { op: _, left, right } => {
                    right.into_inner();
                    self = left.into_inner();
                }
            }
        }
    }
}

/// A word, and the number of its token.
#[derive(Drop)]
pub struct WordDraft {
    pub at: usize,
    pub name: Text,
}

/// A local of a block; `at` is the number of its name.
#[derive(Drop)]
pub struct LocalDraft {
    pub at: usize,
    pub name: Text,
    pub value: IxDraft,
}

/// What stands before the body of a `for`; `at` is the number of the word `for`.
#[derive(Drop)]
pub struct HeadDraft {
    pub at: usize,
    pub iterator: WordDraft,
    pub low: IxDraft,
    pub tested: WordDraft,
    pub rel: Rel,
    pub high: IxDraft,
    pub stepped: WordDraft,
}

#[derive(Drop)]
pub enum StmtDraft {
    For {
        head: HeadDraft,
        body: Items<StmtDraft>,
    },
    /// `at` is the number of the word `if`; `other` is what stands behind the `else`, if there is one.
    If {
        at: usize,
        cond: CondDraft,
        body: Items<StmtDraft>,
        other: Items<StmtDraft>,
    },
    Assign {
        array: WordDraft,
        subs: Items<IxDraft>,
        op: Option<Op>,
        value: ValueDraft,
    },
    Block {
        locals: Items<LocalDraft>,
        body: Items<StmtDraft>,
    },
}

#[derive(Drop)]
pub struct DeclDraft {
    pub word: WordDraft,
    pub role: Role,
    pub extents: Items<IxDraft>,
}

#[derive(Drop)]
pub enum ParamDraft {
    Number(WordDraft),
    Array(DeclDraft),
}

/// A line before the function.
#[derive(Drop)]
pub enum PragmaDraft {
    /// `low_at` is the number of the first token of the first bound; the bounds are below 2^64 in magnitude.
    Range {
        word: WordDraft,
        low_at: usize,
        low: i128,
        high: i128,
    },
    /// `at` is the number of the word `context`.
    Context {
        at: usize,
        conds: Items<CompareDraft>,
    },
}

#[derive(Drop)]
pub struct TextDraft {
    pub pragmas: Items<PragmaDraft>,
    pub has_prelude: bool,
    pub function: WordDraft,
    pub params: Items<ParamDraft>,
    pub temps: Items<DeclDraft>,
    pub body: Items<StmtDraft>,
}
