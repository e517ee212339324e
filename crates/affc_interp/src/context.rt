//! The conditions on the parameters, which are read as whole numbers of any size.
ghost use Rattle.std.specs.Prelude.{◌≡◌, ◌<◌, ℤ, ◌-ℤ◌, pos, List, IfOk, get_or};
ghost use Rattle.std.specs.Int.{int_max, int_min};
ghost use Rattle.std.specs.List.{All};
ghost use Rattle.affc_ast.specs.Fits as fits;
ghost use Rattle.affc_ast.specs.Fits.{is_divisor, whole_of};
ghost use Rattle.affc_ast.specs.Index.{compares, floor_of, ceiling_of, nodes_of_ix};
ghost use Rattle.affc_limits.specs.Digits.{capped};
ghost use Rattle.affc_interp.specs.declared.step.Join.TheVariants as step;
ghost use Rattle.affc_interp.specs.Operands.{operators};
ghost use Rattle.affc_interp.specs.Steps.{number, whole_joined, whole_made, all_made, right_nodes};
ghost use Rattle.affc_interp.specs.Wholes.{IsRead, is_met};

use crate::step::{Join, Step, last_step};
use affc_ast::tree::{Compare, Ix, Rel};
use affc_limits::whole::Whole;
use std::alloc::{AllocError, Global};

/// The quotient, rounded down; none by a divisor below 1.
fn floor(alloc: Global, x: &Whole, n: i64) -> Result<Option<Whole>, AllocError>
    ensures { IfOk result (λ w. IsRead w (record { value = floor_of x.now n; defined = is_divisor n })) }
{
    if n < 1 {
        return Ok(None);
    }
    Ok(Some(x.floor(alloc, n)?))
}

/// The quotient, rounded up; none by a divisor below 1.
fn ceiling(alloc: Global, x: &Whole, n: i64) -> Result<Option<Whole>, AllocError>
    ensures { IfOk result (λ w. IsRead w (record { value = ceiling_of x.now n; defined = is_divisor n })) }
{
    if n < 1 {
        return Ok(None);
    }
    let quotient = x.opposite(alloc)?.floor(alloc, n)?;
    Ok(Some(quotient.opposite(alloc)?))
}

/// The remainder, at least 0; none by a divisor below 1.
fn remainder(alloc: Global, x: &Whole, y: &Whole) -> Result<Option<Whole>, AllocError>
    ensures { IfOk result (λ w. IsRead w (whole_joined step.Remainder (number x.now) (number y.now))) }
{
    if y.capped() < 1 {
        return Ok(None);
    }
    Ok(Some(x.remainder(alloc, y)?))
}

/// The lesser of two.
fn least(alloc: Global, x: Whole, y: Whole) -> Result<Whole, AllocError>
    ensures { IfOk result (λ w. w ≡ int_min x y) }
{
    if x.apart(alloc, &y)? < 0 {
        return Ok(x);
    }
    Ok(y)
}

/// The greater of two.
fn greatest(alloc: Global, x: Whole, y: Whole) -> Result<Whole, AllocError>
    ensures { IfOk result (λ w. w ≡ int_max x y) }
{
    if x.apart(alloc, &y)? < 0 {
        return Ok(y);
    }
    Ok(x)
}

fn joined(alloc: Global, join: Join, x: Whole, y: Whole) -> Result<Option<Whole>, AllocError>
    ensures { IfOk result (λ w. IsRead w (whole_joined join (number x) (number y))) }
{
    match join {
        Join::Sum => Ok(Some(x.plus(&y)?)),
        Join::Difference => Ok(Some(x.minus(&y)?)),
        Join::Product => Ok(Some(x.times(alloc, &y)?)),
        Join::Least => Ok(Some(least(alloc, x, y)?)),
        Join::Greatest => Ok(Some(greatest(alloc, x, y)?)),
        Join::Remainder => remainder(alloc, &x, &y),
    }
}

fn named(names: &[i64], x: u32) -> i64
    ensures { result ≡ get_or names.now x (pos 0) }
{
    match names.get(x as usize) {
        Some(v) => *v,
        None => 0,
    }
}

/// The value of an expression without operators.
#[tactic(auto, using(affc_ast::proofs::Outs::ix_outs))]
fn atom(e: &Ix, names: &[i64]) -> i64
    requires { operators e.now ≡ 0 }
    ensures { whole_of e.now names.now ≡ number result }
{
    match e {
        Ix::Lit(n) => *n,
        Ix::Name(x) => named(names, x.0),
        Ix::Neg(_)
        | Ix::Add(..)
        | Ix::Sub(..)
        | Ix::Mul(..)
        | Ix::Min(..)
        | Ix::Max(..)
        | Ix::Floord(..)
        | Ix::Ceild(..)
        | Ix::Mod(..) => unreachable!(),
    }
}

/// Operators in a row, the outermost first, and what stands below them all.
#[derive(Drop)]
struct Row<'e> {
    steps: Vec<Step<'e>>,
    atom: &'e Ix,
}

fn taken_apart(alloc: Global, e: &Ix) -> Result<Row<'_>, AllocError>
    ensures plain { IfOk result (λ r. operators r.atom.now ≡ 0) }
    ensures value { IfOk result (λ r. (names : List ℤ) → whole_of e.now names ≡ all_made r.steps.items names (whole_of r.atom.now names)) }
    ensures smaller { IfOk result (λ r. All (λ s. right_nodes s < nodes_of_ix e.now) r.steps.items) }
{
    let mut steps = Vec::new(alloc);
    let mut atom = e;
    while let Some((a, step)) = last_step(atom) {
        steps.push(step)?;
        atom = a;
    }
    Ok(Row { steps, atom })
}

/// The value of an expression; none where a divisor in it is below 1. The recursion is into second operands alone.
#[cycle(whole)]
fn whole(alloc: Global, e: &Ix, names: &[i64]) -> Result<Option<Whole>, AllocError>
    ensures { IfOk result (λ w. IsRead w (whole_of e.now names.now)) }
{
    let Row {
        mut steps,
        atom: inner,
    } = taken_apart(alloc, e)?;
    let mut value = Whole::from_i64(alloc, atom(inner, names))?;
    while let Some(step) = steps.pop() {
        match made(alloc, step, value, names)? {
            Some(next) => value = next,
            None => return Ok(None),
        }
    }
    Ok(Some(value))
}

/// What an operator makes of its first operand's value.
#[cycle(whole)]
fn made(alloc: Global, step: Step<'_>, x: Whole, names: &[i64]) -> Result<Option<Whole>, AllocError>
    ensures { IfOk result (λ w. IsRead w (whole_made step.entry names.now (number x))) }
{
    match step {
        Step::Opposite => Ok(Some(x.opposite(alloc)?)),
        Step::Floor(n) => floor(alloc, &x, n),
        Step::Ceiling(n) => ceiling(alloc, &x, n),
        Step::Joined(join, b) => match whole(alloc, b, names)? {
            Some(y) => joined(alloc, join, x, y),
            None => Ok(None),
        },
    }
}

fn compare(rel: Rel, apart: i128) -> bool
    ensures { (x y : ℤ) → apart ≡ capped (x -ℤ y) → result ≡ compares rel x y }
{
    match rel {
        Rel::Less => apart < 0,
        Rel::LessEqual => apart <= 0,
        Rel::Greater => apart > 0,
        Rel::GreaterEqual => apart >= 0,
        Rel::Equal => apart == 0,
        Rel::NotEqual => apart != 0,
    }
}

/// Whether both sides have a value, and it holds.
fn is_met(alloc: Global, c: &Compare, p: &[i64]) -> Result<bool, AllocError>
    ensures { IfOk result (λ b. b ≡ is_met c.now p.now) }
{
    let Some(x) = whole(alloc, &c.left, p)? else {
        return Ok(false);
    };
    let Some(y) = whole(alloc, &c.right, p)? else {
        return Ok(false);
    };
    Ok(compare(c.rel, x.apart(alloc, &y)?))
}

/// Whether the parameters meet all conditions.
pub fn meets(alloc: Global, conds: &[Compare], p: &[i64]) -> Result<bool, AllocError>
    ensures { IfOk result (λ b. b ≡ fits.meets conds.now p.now) }
{
    match conds {
        [] => Ok(true),
        [c, rest @ ..] => {
            if is_met(alloc, c, p)? {
                meets(alloc, rest, p)
            } else {
                Ok(false)
            }
        }
    }
}
