//! A walk over statements that comes to each assignment, in the order of the text.
ghost use Rattle.std.specs.Prelude.{◌≡◌, ◌+◌, ◌++◌, ◌∷◌, [], map, IfOk, OnOk};
ghost use Rattle.affc_ast.specs.Recursion.{by_stmt};
ghost use Rattle.affc_domain.specs.Rounds.{Test};
ghost use Rattle.affc_nest.specs.Frames.{denied_if, seen, all_seen};
ghost use Rattle.affc_nest.specs.Sites.{place, places, loops_of, in_turn, walked_step};

use crate::frames::Frame;
use affc_ast::tree::{ArrayId, Cond, Ix, Op, Stmt, Val};
use std::alloc::{AllocError, Global};

/// An assignment, what stands round it from outer to inner, and the numbers of the loops among that.
#[derive(Drop)]
pub struct Site<'a> {
    pub frames: Vec<Frame<'a>>,
    pub loops: Vec<u32>,
    pub op: Option<Op>,
    pub array: ArrayId,
    pub subs: &'a [Ix],
    pub value: &'a Val,
}

/// The frames with one more inside.
#[tactic(auto, using(affc_trace::proofs::LastStores::map_append))]
fn with_frame<'a>(
    alloc: Global,
    frames: &[Frame<'a>],
    frame: Frame<'a>,
) -> Result<Vec<Frame<'a>>, AllocError>
    ensures { IfOk result (λ v. all_seen v.items ≡ all_seen frames.now ++ seen frame.entry ∷ []) }
{
    let mut inside = Vec::from_slice(alloc, frames)?;
    inside.push(frame)?;
    Ok(inside)
}

/// The frames with a condition more inside, or its denial.
fn with_test<'a>(
    alloc: Global,
    frames: &[Frame<'a>],
    cond: &'a Cond,
    is_denied: bool,
) -> Result<Vec<Frame<'a>>, AllocError>
    ensures { IfOk result (λ v. all_seen v.items ≡ all_seen frames.now ++ Test (denied_if is_denied cond.now) ∷ []) }
{
    with_frame(alloc, frames, Frame::Test { cond, is_denied })
}

/// The numbers of loops with one more.
fn with_number(alloc: Global, loops: &[u32], number: u32) -> Result<Vec<u32>, AllocError>
    ensures { IfOk result (λ v. v.items ≡ loops.now ++ number ∷ []) }
{
    let mut inside = Vec::from_slice(alloc, loops)?;
    inside.push(number)?;
    Ok(inside)
}

/// Adds the assignments of a statement, round which these frames and loops stand. The first loop in it has the number
/// `next`; the answer is the number of the first loop behind it.
#[cycle(walk)]
fn walk<'a>(
    alloc: Global,
    s: &'a Stmt,
    frames: &[Frame<'a>],
    loops: &[u32],
    next: u32,
    out: &mut Vec<Site<'a>>,
) -> Result<u32, AllocError>
    ensures number { IfOk result (λ n. n ≡ next + (by_stmt walked_step s.now).loops) }
    ensures sites { OnOk result (places out.new.items ≡ places out.old.items ++ (by_stmt walked_step s.now).places (all_seen frames.now) loops.now next) }
{
    match s {
        Stmt::For {
            iter,
            low,
            rel,
            high,
            body,
        } => {
            let around = with_frame(
                alloc,
                frames,
                Frame::Loop {
                    iter,
                    low,
                    rel: *rel,
                    high,
                },
            )?;
            let numbers = with_number(alloc, loops, next)?;
            // More loops than numbers don't fit into memory.
            let Some(first) = next.checked_add(1) else {
                return Err(AllocError);
            };
            let end = walk_all(
                alloc,
                body.as_slice(),
                around.as_slice(),
                numbers.as_slice(),
                first,
                out,
            )?;
            Ok(end)
        }
        Stmt::If { cond, body, other } => {
            let under = with_test(alloc, frames, cond, false)?;
            let middle = walk_all(alloc, body.as_slice(), under.as_slice(), loops, next, out)?;
            let beside = with_test(alloc, frames, cond, true)?;
            let end = walk_all(
                alloc,
                other.as_slice(),
                beside.as_slice(),
                loops,
                middle,
                out,
            )?;
            Ok(end)
        }
        Stmt::Assign {
            op,
            array,
            subs,
            value,
        } => {
            let site = Site {
                frames: Vec::from_slice(alloc, frames)?,
                loops: Vec::from_slice(alloc, loops)?,
                op: *op,
                array: *array,
                subs: subs.as_slice(),
                value,
            };
            out.push(site)?;
            Ok(next)
        }
        Stmt::Block { locals: _, body } => {
            let end = walk_all(alloc, body.as_slice(), frames, loops, next, out)?;
            Ok(end)
        }
    }
}

/// The same for statements one after the other.
#[cycle(walk)]
pub(crate) fn walk_all<'a>(
    alloc: Global,
    body: &'a [Stmt],
    frames: &[Frame<'a>],
    loops: &[u32],
    next: u32,
    out: &mut Vec<Site<'a>>,
) -> Result<u32, AllocError>
    ensures number { IfOk result (λ n. n ≡ next + loops_of (map (by_stmt walked_step) body.now)) }
    ensures sites { OnOk result (places out.new.items ≡ places out.old.items ++ in_turn (map (by_stmt walked_step) body.now) (all_seen frames.now) loops.now next) }
{
    let mut after = next;
    for s in body {
        after = walk(alloc, s, frames, loops, after, out)?;
    }
    Ok(after)
}
