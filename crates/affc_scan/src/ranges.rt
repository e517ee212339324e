//! The ranges of times.
ghost use Rattle.std.specs.Prelude.{◌≡◌, ◌≤◌, ◌^◌, ◌++◌, map, length, unsigned_abs, IfOk};
ghost use Rattle.std.specs.List.{All};
ghost use Rattle.affc_loops.specs.Limits.{IsSmall};
ghost use Rattle.affc_loops.specs.Spans.{span, hull, hulls};
ghost use Rattle.affc_nest.specs.Sides.{IsSide, NearRanges};

use affc_ast::Items;
use affc_nest::{greatest, least};
use affc_rows::Form;
use affc_system::BoxOf;
use std::alloc::{AllocError, Global};

fn narrow(c: i128) -> i64
    requires { unsigned_abs c ≤ 2 ^ 60 }
    ensures { result ≡ c }
{
    c as i64
}

/// From the least to the greatest value of a form over a box.
fn span_of(form: &Form, ranges: &BoxOf) -> (i64, i64)
    requires side { IsSide (length ranges.now) form.now }
    requires near { NearRanges ranges.now }
    requires few { length ranges.now ≤ 128 }
    ensures value { result ≡ span ranges.now form.now }
    ensures small { IsSmall result }
{
    let low = narrow(least(form, ranges));
    let high = narrow(greatest(form, ranges));
    (low, high)
}

/// Adds the ranges of forms.
#[tactic(auto, using(crate::proofs::RangeSteps::one_more_span))]
pub(crate) fn add_spans(
    ranges: &BoxOf,
    forms: &[Form],
    made: Items<(i64, i64)>,
) -> Result<Items<(i64, i64)>, AllocError>
    requires sides { All (IsSide (length ranges.now)) forms.now }
    requires near { NearRanges ranges.now }
    requires few { length ranges.now ≤ 128 }
    requires small { All IsSmall made }
    ensures value { IfOk result (λ x. x ≡ made ++ map (span ranges.now) forms.now) }
    ensures small { IfOk result (All IsSmall) }
{
    let mut made = made;
    match forms {
        [] => Ok(made),
        [form, rest @ ..] => {
            made.push(span_of(form, ranges))?;
            add_spans(ranges, rest, made)
        }
    }
}

fn hull_of(r: (i64, i64), s: (i64, i64)) -> (i64, i64)
    ensures { result ≡ hull r s }
{
    (r.0.min(s.0), r.1.max(s.1))
}

/// Adds the smallest ranges round both.
#[tactic(auto, using(crate::proofs::RangeSteps::one_more_hull, crate::proofs::RangeSteps::no_hull, crate::proofs::RangeSteps::no_other))]
pub(crate) fn add_hulls(
    rs: &[(i64, i64)],
    ss: &[(i64, i64)],
    made: Items<(i64, i64)>,
) -> Result<Items<(i64, i64)>, AllocError>
    ensures { IfOk result (λ x. x ≡ made ++ hulls rs.now ss.now) }
{
    let mut made = made;
    match rs {
        [] => Ok(made),
        [r, rest @ ..] => match ss {
            [] => Ok(made),
            [s, others @ ..] => {
                made.push(hull_of(*r, *s))?;
                add_hulls(rest, others, made)
            }
        },
    }
}
