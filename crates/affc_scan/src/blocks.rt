//! The block of a statement.
ghost use Rattle.std.specs.Prelude.{◌≡◌, ◌≤◌, ◌+◌, ◌++◌, [], ◌∷◌, length, IfOk, true};
ghost use Rattle.std.specs.List.{All};
ghost use Rattle.affc_ast.specs.declared.tree.Stmt.TheVariants as made;
ghost use Rattle.affc_domain.specs.Rounds.{loops_in};
ghost use Rattle.affc_loops.specs.Limits.{IsSlight, IsSmall};
ghost use Rattle.affc_loops.specs.Loops.{loop_names, locals_of, loop_tests, guarded, moved_assign, block_of};
ghost use Rattle.affc_nest.specs.Frames.{seen, all_seen};
ghost use Rattle.affc_nest.specs.Sites.{place};
ghost use Rattle.affc_scan.specs.Alive.{as_scheduled};
ghost use Rattle.affc_scan.specs.Blocks.{tested_body, HaveFew, IsPrintable};
ghost use Rattle.affc_scan.specs.Conditions.{conditions, under_all, under_round};
ghost use Rattle.affc_scan.specs.InSight.{in_sight, round_in_sight, rounds_in_sight, IsInSight};

use crate::alive::Alive;
use crate::moved::{moved_all, moved_cond, moved_val};
use crate::tests_of::{add_between, box_tests, time_tests};
use crate::trees::moved_ix;
use affc_ast::Items;
use affc_ast::text::Text;
use affc_ast::tree::{Cond, Ix, Local, Rel, Stmt};
use affc_loops::terms::form_ix;
use affc_nest::{Frame, Site};
use affc_rows::Form;
use std::alloc::{AllocError, Global};

/// This statement alone.
pub(crate) fn one(alloc: Global, statement: Stmt) -> Result<Items<Stmt>, AllocError>
    ensures { IfOk result (λ x. x ≡ statement ∷ []) }
{
    let mut made = Items::new(alloc);
    made.push(statement)?;
    Ok(made)
}

/// The body under this condition.
fn tested_by(alloc: Global, cond: Cond, body: Items<Stmt>) -> Result<Items<Stmt>, AllocError>
    ensures { IfOk result (λ x. x ≡ made.If cond body [] ∷ []) }
{
    let other = Items::new(alloc);
    one(alloc, Stmt::If { cond, body, other })
}

/// The body under these conditions, if there are any.
#[tactic(auto, using(crate::proofs::BlockSteps::under_one, crate::proofs::BlockSteps::under_more))]
fn under(alloc: Global, conds: Items<Cond>, body: Items<Stmt>) -> Result<Items<Stmt>, AllocError>
    ensures { IfOk result (λ x. x ≡ under_all conds body) }
{
    let mut conds = conds;
    let Some(last) = conds.pop() else {
        return Ok(body);
    };
    if conds.as_slice().is_empty() {
        return tested_by(alloc, last, body);
    }
    conds.push(last)?;
    tested_by(alloc, Cond::All(conds), body)
}

/// That the iterator with this name lies within a loop's bounds.
fn bounds(
    alloc: Global,
    first: u32,
    more: u32,
    from: u32,
    low: &Ix,
    rel: Rel,
    high: &Ix,
) -> Result<Items<Cond>, AllocError>
    requires few { more ≤ 1024 }
    requires low_seen { in_sight low.now ≡ true }
    requires high_seen { in_sight high.now ≡ true }
    ensures { IfOk result (λ x. x ≡ conditions (loop_tests first more from low.now rel high.now)) }
{
    let low = moved_ix(alloc, first, more, low)?;
    let high = moved_ix(alloc, first, more, high)?;
    let mut conds = Items::new(alloc);
    add_between(low, from, rel, high, &mut conds)?;
    Ok(conds)
}

/// The body under a loop or a condition of the source.
#[tactic(auto, using(crate::proofs::BlockSteps::under_bounds, crate::proofs::BlockSteps::denied_sight))]
fn under_frame(
    alloc: Global,
    first: u32,
    more: u32,
    from: u32,
    frame: &Frame<'_>,
    body: Items<Stmt>,
) -> Result<Items<Stmt>, AllocError>
    requires few { more ≤ 1024 }
    requires seen { round_in_sight (seen frame.now) ≡ true }
    ensures { IfOk result (λ x. x ≡ under_round first more from (seen frame.now) body) }
{
    match frame {
        Frame::Loop {
            iter: _,
            low,
            rel,
            high,
        } => {
            let conds = bounds(alloc, first, more, from, low, *rel, high)?;
            under(alloc, conds, body)
        }
        Frame::Test { cond, is_denied } => {
            let cond = moved_cond(alloc, first, more, cond, *is_denied)?;
            tested_by(alloc, cond, body)
        }
    }
}

/// The number of the name behind that of a frame's iterator, if it has one.
fn behind(from: u32, frame: &Frame<'_>) -> u32
    requires { from + loops_in (seen frame.now ∷ []) ≤ 1024 }
    ensures { result ≡ from + loops_in (seen frame.now ∷ []) }
{
    match frame {
        Frame::Loop {
            iter: _,
            low: _,
            rel: _,
            high: _,
        } => from + 1,
        Frame::Test {
            cond: _,
            is_denied: _,
        } => from,
    }
}

/// The body under the loops and conditions of the source, whose iterators have the names from this number on.
#[tactic(auto, using(crate::proofs::BlockSteps::guarded_step, crate::proofs::BlockSteps::in_sight_parts, crate::proofs::BlockSteps::loops_parts))]
fn under_frames(
    alloc: Global,
    first: u32,
    more: u32,
    from: u32,
    frames: &[Frame<'_>],
    body: Items<Stmt>,
) -> Result<Items<Stmt>, AllocError>
    requires few { more ≤ 1024 }
    requires seen { rounds_in_sight (all_seen frames.now) ≡ true }
    requires names { from + loops_in (all_seen frames.now) ≤ 1024 }
    ensures { IfOk result (λ x. x ≡ guarded first more from (all_seen frames.now) body) }
{
    match frames {
        [] => Ok(body),
        [frame, rest @ ..] => {
            let next = behind(from, frame);
            let inner = under_frames(alloc, first, more, next, rest, body)?;
            under_frame(alloc, first, more, from, frame, inner)
        }
    }
}

/// Adds a local by its form.
#[tactic(auto, using(crate::proofs::TestSteps::slight_is_modest))]
fn add_local(
    alloc: Global,
    first: u32,
    iter: &Text,
    form: &Form,
    made: Items<Local>,
) -> Result<Items<Local>, AllocError>
    requires few { first ≤ 512 }
    requires slight { IsSlight form.now }
    requires columns { first ≤ length form.now.coefs }
    requires short { length form.now.coefs ≤ 64 }
    ensures { IfOk result (λ x. x ≡ made ++ locals_of first (iter.now ∷ []) (form.now ∷ [])) }
{
    let mut made = made;
    let name = Text::from_str(alloc, iter.as_str())?;
    let value = form_ix(alloc, first, first, form)?;
    made.push(Local { name, value })?;
    Ok(made)
}

/// Adds a local for each loop among these frames, by the forms of the inverse.
#[tactic(auto, using(crate::proofs::BlockSteps::locals_step, crate::proofs::BlockSteps::no_local, crate::proofs::BlockSteps::locals_end))]
fn add_locals(
    alloc: Global,
    first: u32,
    frames: &[Frame<'_>],
    inverse: &[Form],
    made: Items<Local>,
) -> Result<Items<Local>, AllocError>
    requires few { first ≤ 512 }
    requires slight { All IsSlight inverse.now }
    requires columns { HaveFew first inverse.now }
    ensures { IfOk result (λ x. x ≡ made ++ locals_of first (loop_names (all_seen frames.now)) inverse.now) }
{
    match frames {
        [] => Ok(made),
        [frame, rest @ ..] => match frame {
            Frame::Test {
                cond: _,
                is_denied: _,
            } => add_locals(alloc, first, rest, inverse, made),
            Frame::Loop {
                iter,
                low: _,
                rel: _,
                high: _,
            } => match inverse {
                [] => Ok(made),
                [form, others @ ..] => {
                    let made = add_local(alloc, first, iter, form, made)?;
                    add_locals(alloc, first, rest, others, made)
                }
            },
        },
    }
}

/// The assignment where so many more names stand behind the first ones.
fn assignment(alloc: Global, first: u32, more: u32, site: &Site<'_>) -> Result<Stmt, AllocError>
    requires few { more ≤ 1024 }
    requires seen { IsInSight (place site.now).assignment }
    ensures { IfOk result (λ s. s ≡ moved_assign first more (place site.now).assignment) }
{
    let subs = moved_all(alloc, first, more, site.subs)?;
    let value = moved_val(alloc, first, more, site.value)?;
    Ok(Stmt::Assign {
        op: site.op,
        array: site.array,
        subs,
        value,
    })
}

/// The statements of a block: all tests, and the assignment.
fn tested(
    alloc: Global,
    first: u32,
    more: u32,
    site: &Site<'_>,
    ranges: &[(i64, i64)],
    forms: &[Form],
) -> Result<Items<Stmt>, AllocError>
    requires few { first + more ≤ 512 }
    requires around { rounds_in_sight (place site.now).around ≡ true }
    requires few_loops { loops_in (place site.now).around ≤ 6 }
    requires seen { IsInSight (place site.now).assignment }
    requires small { All IsSmall ranges.now }
    requires few_ranges { length ranges.now ≤ 6 }
    requires slight { All IsSlight forms.now }
    requires columns { HaveFew first forms.now }
    requires few_forms { length forms.now ≤ 12 }
    ensures { IfOk result (λ x. x ≡ tested_body first more (place site.now).around (place site.now).assignment ranges.now forms.now) }
{
    let from = first + more;
    let statement = assignment(alloc, first, more, site)?;
    let body = one(alloc, statement)?;
    let body = under_frames(alloc, first, more, from, site.frames.as_slice(), body)?;
    let timed = time_tests(alloc, Items::new(alloc), first, from, first, forms)?;
    let body = under(alloc, timed, body)?;
    let boxed = box_tests(alloc, Items::new(alloc), from, ranges)?;
    under(alloc, boxed, body)
}

/// The block of a statement, where so many parameters are the first names, and so many components of the time stand
/// behind them.
pub(crate) fn block(
    alloc: Global,
    first: u32,
    more: u32,
    alive: &Alive<'_, '_>,
) -> Result<Stmt, AllocError>
    requires few { first + more ≤ 512 }
    requires printable { IsPrintable first (as_scheduled alive.now) }
    ensures { IfOk result (λ s. s ≡ block_of first more (as_scheduled alive.now)) }
{
    let locals = add_locals(
        alloc,
        first,
        alive.site.frames.as_slice(),
        alive.times.inverse.as_slice(),
        Items::new(alloc),
    )?;
    let ranges = alive.entry.ranges.ranges();
    let body = tested(
        alloc,
        first,
        more,
        alive.site,
        ranges,
        alive.times.forms.as_slice(),
    )?;
    Ok(Stmt::Block { locals, body })
}
