//! The interval rule: a range for each loop.
ghost use Rattle.std.specs.Prelude.{◌≡◌, ◌+◌, ◌^◌, ◌≤◌, ◌≤ℤ◌, ◌&&◌, ◌++◌, ◌∷◌, [], true, false, length, unsigned_abs, IsTrue, IfOk, OnOk};
ghost use Rattle.affc_rows.specs.Forms.{value};
ghost use Rattle.affc_system.specs.Boxes.{corner};
ghost use Rattle.affc_domain.specs.Plain.{is_plain};
ghost use Rattle.affc_domain.specs.Ranges.{is_near, last_of, range_of};
ghost use Rattle.affc_domain.specs.Rounds.{loops_in};
ghost use Rattle.affc_nest.specs.Fits.{FitSays};
ghost use Rattle.affc_nest.specs.Frames.{all_seen, plain_at};
ghost use Rattle.affc_nest.specs.Sides.{IsSide, NearRanges};

use crate::forms::form_over;
use crate::frames::Frame;
use affc_ast::tree::{Ix, Rel};
use affc_rows::Form;
use affc_system::{BoxOf, interval};
use std::alloc::{AllocError, Global};

/// The least value of a side over the ranges.
pub fn least(form: &Form, ranges: &BoxOf) -> i128
    requires side { IsSide (length ranges.now) form.now }
    requires near { NearRanges ranges.now }
    requires few { length ranges.now ≤ 128 }
    ensures value { result ≡ value form.now (corner false form.now.coefs ranges.now) }
    ensures small { unsigned_abs result ≤ 2 ^ 60 }
{
    let _ordered = ranges.ranges();
    let Ok((least, _)) = interval(form, ranges) else {
        unreachable!()
    };
    least
}

/// The greatest value of a side over the ranges.
pub fn greatest(form: &Form, ranges: &BoxOf) -> i128
    requires side { IsSide (length ranges.now) form.now }
    requires near { NearRanges ranges.now }
    requires few { length ranges.now ≤ 128 }
    ensures value { result ≡ value form.now (corner true form.now.coefs ranges.now) }
    ensures small { unsigned_abs result ≤ 2 ^ 60 }
{
    let _ordered = ranges.ranges();
    let Ok((_, greatest)) = interval(form, ranges) else {
        unreachable!()
    };
    greatest
}

/// The last turn of a loop up to this bound.
fn last(rel: Rel, high: i128) -> i128
    requires { unsigned_abs high ≤ 2 ^ 60 }
    ensures value { result ≡ last_of rel high }
    ensures small { unsigned_abs result ≤ 2 ^ 61 }
{
    match rel {
        Rel::Less => high - 1,
        Rel::LessEqual => high,
        Rel::Greater => high,
        Rel::GreaterEqual => high,
        Rel::Equal => high,
        Rel::NotEqual => high,
    }
}

/// Whether both are within 2^31 in magnitude.
fn are_close(first: i128, end: i128) -> bool
    ensures { result ≡ is_near first && is_near end }
{
    first.unsigned_abs() <= 2147483648 && end.unsigned_abs() <= 2147483648
}

/// Adds a range to both boxes.
fn add_both(all: &mut BoxOf, own: &mut BoxOf, first: i128, end: i128) -> Result<(), AllocError>
    requires ordered { first ≤ℤ end }
    requires close { IsTrue (is_near first && is_near end) }
    ensures all { OnOk result (all.new ≡ all.old ++ (first, end) ∷ []) }
    ensures own { OnOk result (own.new ≡ own.old ++ (first, end) ∷ []) }
{
    all.push(first as i64, end as i64)?;
    own.push(first as i64, end as i64)
}

/// The first and the last turn of a loop, over the ranges of the names in sight.
fn turns_within(
    alloc: Global,
    outer: &BoxOf,
    low: &Ix,
    rel: Rel,
    high: &Ix,
) -> Result<(i128, i128), AllocError>
    requires near { NearRanges outer.now }
    requires few { length outer.now ≤ 128 }
    requires first { IsTrue (is_plain (length outer.now) low.now) }
    requires last { IsTrue (is_plain (length outer.now) high.now) }
    ensures value { IfOk result (λ r. r ≡ range_of outer.now low.now rel high.now) }
    ensures small { IfOk result (λ r. (unsigned_abs r.0 ≤ 2 ^ 62) × (unsigned_abs r.1 ≤ 2 ^ 62)) }
{
    let names = outer.ranges().len() as u32;
    let from = form_over(alloc, names, 0, low)?;
    let to = form_over(alloc, names, 0, high)?;
    let first = least(&from, outer);
    let end = greatest(&to, outer);
    Ok((first, last(rel, end)))
}

/// What the interval rule says of the loops among some frames.
#[derive(Clone, Copy, Drop)]
pub(crate) enum Fit {
    /// Each has a range.
    Near,
    /// One is never entered.
    Missed,
    /// The range of this one, counted from the outermost, passes 2^31.
    Far { loop_number: u32 },
}

/// What the interval rule says of the loops among these frames, where the names in sight have the ranges `all`, and
/// so many loops stand outside. Adds the ranges of those that have one.
pub(crate) fn fits(
    alloc: Global,
    all: &mut BoxOf,
    own: &mut BoxOf,
    frames: &[Frame<'_>],
    depth: u32,
) -> Result<Fit, AllocError>
    requires near { NearRanges all.old }
    requires plain { IsTrue (plain_at (length all.old) (all_seen frames.now)) }
    requires few { length all.old + loops_in (all_seen frames.now) ≤ 128 }
    requires depth { depth + loops_in (all_seen frames.now) ≤ 128 }
    ensures { IfOk result (λ f. FitSays f all.old (all_seen frames.now) own.old own.new depth) }
{
    match frames {
        [] => Ok(Fit::Near),
        [frame, rest @ ..] => match frame {
            Frame::Test {
                cond: _,
                is_denied: _,
            } => fits(alloc, all, own, rest, depth),
            Frame::Loop {
                iter: _,
                low,
                rel,
                high,
            } => {
                let (first, end) = turns_within(alloc, all, low, *rel, high)?;
                if end < first {
                    return Ok(Fit::Missed);
                }
                if !are_close(first, end) {
                    return Ok(Fit::Far { loop_number: depth });
                }
                add_both(all, own, first, end)?;
                let fit = fits(alloc, all, own, rest, depth + 1)?;
                Ok(fit)
            }
        },
    }
}
