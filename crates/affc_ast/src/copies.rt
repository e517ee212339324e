//! Copies of trees: each equals what it copies.
ghost use Rattle.std.specs.Prelude.{◌≡◌, IfOk};
ghost use Rattle.affc_ast.specs.declared.tree.Ix.TheVariants as trees;
ghost use Rattle.affc_ast.specs.declared.tree.Val.TheVariants as values;
ghost use Rattle.affc_ast.specs.declared.tree.Stmt.TheVariants as statements;

use crate::text::Text;
use crate::tree::{ArrayId, Compare, Cond, Decl, Ix, Local, Op, Param, Program, Rel, Stmt, Val};
use sqlite_items::{Boxed, Items};
use std::alloc::{AllocError, Global};

/// A part of a tree, which can be copied.
pub trait Copied: Drop {
    fn own_copy(&self, alloc: Global) -> Result<Self, AllocError>
        ensures { IfOk result (λ x. x ≡ self.now) };
}

/// A copy of each.
#[tactic(auto, using(std::proofs::lemmas::List::take_more, std::proofs::lemmas::List::take_all))]
pub fn all<T: Copied>(alloc: Global, items: &[T]) -> Result<Items<T>, AllocError>
    ensures { IfOk result (λ xs. xs ≡ items.now) }
{
    let mut made = Items::new(alloc);
    for item in items {
        made.push(item.own_copy(alloc)?)?;
    }
    Ok(made)
}

impl Copied for Ix {
    fn own_copy(&self, alloc: Global) -> Result<Ix, AllocError> {
        self.to_owned(alloc)
    }
}

impl Copied for Compare {
    fn own_copy(&self, alloc: Global) -> Result<Compare, AllocError> {
        self.to_owned(alloc)
    }
}

impl Copied for Local {
    fn own_copy(&self, alloc: Global) -> Result<Local, AllocError> {
        self.to_owned(alloc)
    }
}

impl Copied for Decl {
    fn own_copy(&self, alloc: Global) -> Result<Decl, AllocError> {
        self.to_owned(alloc)
    }
}

impl Copied for Param {
    fn own_copy(&self, alloc: Global) -> Result<Param, AllocError> {
        self.to_owned(alloc)
    }
}

impl Copied for Stmt {
    fn own_copy(&self, alloc: Global) -> Result<Stmt, AllocError> {
        self.to_owned(alloc)
    }
}

fn neg(alloc: Global, a: Ix) -> Result<Ix, AllocError>
    ensures { IfOk result (λ x. x ≡ trees.Neg a) }
{
    Ok(Ix::Neg(Boxed::new(alloc, a)?))
}

fn add(alloc: Global, a: Ix, b: Ix) -> Result<Ix, AllocError>
    ensures { IfOk result (λ x. x ≡ trees.Add a b) }
{
    let a = Boxed::new(alloc, a)?;
    let b = Boxed::new(alloc, b)?;
    Ok(Ix::Add(a, b))
}

fn sub(alloc: Global, a: Ix, b: Ix) -> Result<Ix, AllocError>
    ensures { IfOk result (λ x. x ≡ trees.Sub a b) }
{
    let a = Boxed::new(alloc, a)?;
    let b = Boxed::new(alloc, b)?;
    Ok(Ix::Sub(a, b))
}

fn mul(alloc: Global, a: Ix, b: Ix) -> Result<Ix, AllocError>
    ensures { IfOk result (λ x. x ≡ trees.Mul a b) }
{
    let a = Boxed::new(alloc, a)?;
    let b = Boxed::new(alloc, b)?;
    Ok(Ix::Mul(a, b))
}

fn min(alloc: Global, a: Ix, b: Ix) -> Result<Ix, AllocError>
    ensures { IfOk result (λ x. x ≡ trees.Min a b) }
{
    let a = Boxed::new(alloc, a)?;
    let b = Boxed::new(alloc, b)?;
    Ok(Ix::Min(a, b))
}

fn max(alloc: Global, a: Ix, b: Ix) -> Result<Ix, AllocError>
    ensures { IfOk result (λ x. x ≡ trees.Max a b) }
{
    let a = Boxed::new(alloc, a)?;
    let b = Boxed::new(alloc, b)?;
    Ok(Ix::Max(a, b))
}

fn modulo(alloc: Global, a: Ix, b: Ix) -> Result<Ix, AllocError>
    ensures { IfOk result (λ x. x ≡ trees.Mod a b) }
{
    let a = Boxed::new(alloc, a)?;
    let b = Boxed::new(alloc, b)?;
    Ok(Ix::Mod(a, b))
}

impl Ix {
    /// A copy.
    pub fn to_owned(&self, alloc: Global) -> Result<Ix, AllocError>
        ensures { IfOk result (λ x. x ≡ self.now) }
    {
        match self {
            Ix::Lit(n) => Ok(Ix::Lit(*n)),
            Ix::Name(id) => Ok(Ix::Name(*id)),
            Ix::Neg(a) => {
                let a = a.get().to_owned(alloc)?;
                neg(alloc, a)
            }
            Ix::Add(a, b) => {
                let a = a.get().to_owned(alloc)?;
                let b = b.get().to_owned(alloc)?;
                add(alloc, a, b)
            }
            Ix::Sub(a, b) => {
                let a = a.get().to_owned(alloc)?;
                let b = b.get().to_owned(alloc)?;
                sub(alloc, a, b)
            }
            Ix::Mul(a, b) => {
                let a = a.get().to_owned(alloc)?;
                let b = b.get().to_owned(alloc)?;
                mul(alloc, a, b)
            }
            Ix::Min(a, b) => {
                let a = a.get().to_owned(alloc)?;
                let b = b.get().to_owned(alloc)?;
                min(alloc, a, b)
            }
            Ix::Max(a, b) => {
                let a = a.get().to_owned(alloc)?;
                let b = b.get().to_owned(alloc)?;
                max(alloc, a, b)
            }
            Ix::Mod(a, b) => {
                let a = a.get().to_owned(alloc)?;
                let b = b.get().to_owned(alloc)?;
                modulo(alloc, a, b)
            }
            Ix::Floord(a, n) => {
                let a = a.get().to_owned(alloc)?;
                Ok(Ix::Floord(Boxed::new(alloc, a)?, *n))
            }
            Ix::Ceild(a, n) => {
                let a = a.get().to_owned(alloc)?;
                Ok(Ix::Ceild(Boxed::new(alloc, a)?, *n))
            }
        }
    }
}

impl Compare {
    /// A copy.
    pub fn to_owned(&self, alloc: Global) -> Result<Compare, AllocError>
        ensures { IfOk result (λ c. c ≡ self.now) }
    {
        let left = self.left.to_owned(alloc)?;
        let right = self.right.to_owned(alloc)?;
        Ok(Compare {
            rel: self.rel,
            left,
            right,
        })
    }
}

impl Cond {
    /// A copy.
    #[tactic(auto, using(std::proofs::lemmas::List::take_more, std::proofs::lemmas::List::take_all))]
    pub fn to_owned(&self, alloc: Global) -> Result<Cond, AllocError>
        ensures { IfOk result (λ x. x ≡ self.now) }
    {
        match self {
            Cond::Compare { rel, left, right } => {
                let left = left.to_owned(alloc)?;
                let right = right.to_owned(alloc)?;
                Ok(Cond::Compare {
                    rel: *rel,
                    left,
                    right,
                })
            }
            Cond::All(entries) => {
                let mut made = Items::new(alloc);
                for entry in entries.as_slice() {
                    made.push(entry.to_owned(alloc)?)?;
                }
                Ok(Cond::All(made))
            }
            Cond::Any(entries) => {
                let mut made = Items::new(alloc);
                for entry in entries.as_slice() {
                    made.push(entry.to_owned(alloc)?)?;
                }
                Ok(Cond::Any(made))
            }
            Cond::Divides { value, by, yes } => {
                let value = value.to_owned(alloc)?;
                Ok(Cond::Divides {
                    value,
                    by: *by,
                    yes: *yes,
                })
            }
        }
    }
}

impl Local {
    /// A copy.
    pub fn to_owned(&self, alloc: Global) -> Result<Local, AllocError>
        ensures { IfOk result (λ l. l ≡ self.now) }
    {
        let name = Text::from_str(alloc, self.name.as_str())?;
        let value = self.value.to_owned(alloc)?;
        Ok(Local { name, value })
    }
}

fn not(alloc: Global, a: Val) -> Result<Val, AllocError>
    ensures { IfOk result (λ x. x ≡ values.Not a) }
{
    Ok(Val::Not(Boxed::new(alloc, a)?))
}

fn bin(alloc: Global, op: Op, left: Val, right: Val) -> Result<Val, AllocError>
    ensures { IfOk result (λ x. x ≡ values.Bin op left right) }
{
    let left = Boxed::new(alloc, left)?;
    let right = Boxed::new(alloc, right)?;
    Ok(Val::Bin { op, left, right })
}

fn shift(alloc: Global, left: bool, value: Val, by: u8) -> Result<Val, AllocError>
    ensures { IfOk result (λ x. x ≡ values.Shift left value by) }
{
    let value = Boxed::new(alloc, value)?;
    Ok(Val::Shift { left, value, by })
}

impl Val {
    /// A copy.
    pub fn to_owned(&self, alloc: Global) -> Result<Val, AllocError>
        ensures { IfOk result (λ x. x ≡ self.now) }
    {
        match self {
            Val::Load { array, subs } => {
                let subs = all(alloc, subs.as_slice())?;
                Ok(Val::Load {
                    array: *array,
                    subs,
                })
            }
            Val::Const(n) => Ok(Val::Const(*n)),
            Val::Cast(e) => Ok(Val::Cast(e.to_owned(alloc)?)),
            Val::Not(a) => {
                let a = a.get().to_owned(alloc)?;
                not(alloc, a)
            }
            Val::Bin { op, left, right } => {
                let left = left.get().to_owned(alloc)?;
                let right = right.get().to_owned(alloc)?;
                bin(alloc, *op, left, right)
            }
            Val::Shift { left, value, by } => {
                let value = value.get().to_owned(alloc)?;
                shift(alloc, *left, value, *by)
            }
        }
    }
}

impl Decl {
    /// A copy.
    pub fn to_owned(&self, alloc: Global) -> Result<Decl, AllocError>
        ensures { IfOk result (λ d. d ≡ self.now) }
    {
        let name = Text::from_str(alloc, self.name.as_str())?;
        let extents = all(alloc, self.extents.as_slice())?;
        Ok(Decl {
            name,
            role: self.role,
            extents,
        })
    }
}

impl Param {
    /// A copy.
    pub fn to_owned(&self, alloc: Global) -> Result<Param, AllocError>
        ensures { IfOk result (λ p. p ≡ self.now) }
    {
        match self {
            Param::Number { name, low, high } => {
                let name = Text::from_str(alloc, name.as_str())?;
                Ok(Param::Number {
                    name,
                    low: *low,
                    high: *high,
                })
            }
            Param::Array(decl) => Ok(Param::Array(decl.to_owned(alloc)?)),
        }
    }
}

fn for_copy(
    alloc: Global,
    iter: &Text,
    low: &Ix,
    rel: Rel,
    high: &Ix,
    body: Items<Stmt>,
) -> Result<Stmt, AllocError>
    ensures { IfOk result (λ x. x ≡ statements.For iter.now low.now rel high.now body) }
{
    let iter = Text::from_str(alloc, iter.as_str())?;
    let low = low.to_owned(alloc)?;
    let high = high.to_owned(alloc)?;
    Ok(Stmt::For {
        iter,
        low,
        rel,
        high,
        body,
    })
}

fn if_copy(
    alloc: Global,
    cond: &Cond,
    body: Items<Stmt>,
    other: Items<Stmt>,
) -> Result<Stmt, AllocError>
    ensures { IfOk result (λ x. x ≡ statements.If cond.now body other) }
{
    let cond = cond.to_owned(alloc)?;
    Ok(Stmt::If { cond, body, other })
}

fn assign_copy(
    alloc: Global,
    op: Option<Op>,
    array: ArrayId,
    subs: &Items<Ix>,
    value: &Val,
) -> Result<Stmt, AllocError>
    ensures { IfOk result (λ x. x ≡ statements.Assign op array subs.now value.now) }
{
    let subs = all(alloc, subs.as_slice())?;
    let value = value.to_owned(alloc)?;
    Ok(Stmt::Assign {
        op,
        array,
        subs,
        value,
    })
}

fn block_copy(alloc: Global, locals: &Items<Local>, body: Items<Stmt>) -> Result<Stmt, AllocError>
    ensures { IfOk result (λ x. x ≡ statements.Block locals.now body) }
{
    let locals = all(alloc, locals.as_slice())?;
    Ok(Stmt::Block { locals, body })
}

impl Stmt {
    /// A copy.
    #[tactic(auto, using(std::proofs::lemmas::List::take_more, std::proofs::lemmas::List::take_all))]
    pub fn to_owned(&self, alloc: Global) -> Result<Stmt, AllocError>
        ensures { IfOk result (λ x. x ≡ self.now) }
    {
        match self {
            Stmt::For {
                iter,
                low,
                rel,
                high,
                body,
            } => {
                let mut made = Items::new(alloc);
                for inner in body.as_slice() {
                    made.push(inner.to_owned(alloc)?)?;
                }
                for_copy(alloc, iter, low, *rel, high, made)
            }
            Stmt::If { cond, body, other } => {
                let mut made = Items::new(alloc);
                for inner in body.as_slice() {
                    made.push(inner.to_owned(alloc)?)?;
                }
                let mut others = Items::new(alloc);
                for inner in other.as_slice() {
                    others.push(inner.to_owned(alloc)?)?;
                }
                if_copy(alloc, cond, made, others)
            }
            Stmt::Assign {
                op,
                array,
                subs,
                value,
            } => assign_copy(alloc, *op, *array, subs, value),
            Stmt::Block { locals, body } => {
                let mut made = Items::new(alloc);
                for inner in body.as_slice() {
                    made.push(inner.to_owned(alloc)?)?;
                }
                block_copy(alloc, locals, made)
            }
        }
    }
}

impl Program {
    /// A copy.
    pub fn to_owned(&self, alloc: Global) -> Result<Program, AllocError>
        ensures { IfOk result (λ p. p ≡ self.now) }
    {
        let name = Text::from_str(alloc, self.name.as_str())?;
        let params = all(alloc, self.params.as_slice())?;
        let context = all(alloc, self.context.as_slice())?;
        let temps = all(alloc, self.temps.as_slice())?;
        let body = all(alloc, self.body.as_slice())?;
        Ok(Program {
            name,
            params,
            context,
            temps,
            body,
            prelude: self.prelude,
        })
    }
}
