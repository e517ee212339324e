//! Boxes, and the least and greatest values of forms over them.
ghost use Rattle.std.specs.Prelude.{◌≡◌, ℕ, ℤ, List, [], ◌∷◌, ◌++◌, ◌+◌, ◌*◌, ◌^◌, ◌<◌, ◌≤◌, ◌+ℤ◌, ◌*ℤ◌, ◌≤ℤ◌, pos, unsigned_abs, true, false, IfOk, OnOk, OnErr, length, map};
ghost use Rattle.std.specs.List.{All};
ghost use Rattle.affc_rows.specs.Forms.{dot, value, magnitude};
ghost use Rattle.affc_system.specs.Boxes.{pin, IsBox, InBox, IsCorner, end_of, corner, reach, box_magnitude};

use affc_rows::total::MOST_MAGNITUDE;
use affc_rows::{Form, Range};
use std::alloc::{AllocError, Global};
use std::marker::Model;

/// A range of whole numbers for each column, from its low to its high end, both of them in it.
///
/// Contracts see the list of the ranges. In each value every low end is at most its high end.
#[derive(Drop)]
pub struct BoxOf {
    ranges: Vec<(i64, i64)>,
}

impl Model for BoxOf {
    ghost use Rattle.std.specs.Prelude.{List, ℤ};
    ghost use Rattle.affc_system.specs.Boxes.{IsBox};

    ghost Value = { List (ℤ × ℤ) };

    ghost view = { λ b. b.ranges.items };

    ghost invariant = { λ b. IsBox b.ranges.items };
}

impl BoxOf {
    /// The box without columns.
    pub fn new(alloc: Global) -> BoxOf
        ensures { result ≡ [] }
    {
        BoxOf {
            ranges: Vec::new(alloc),
        }
    }

    /// The ranges, in the columns' order.
    pub fn ranges(&self) -> &[(i64, i64)]
        ensures ranges { result.now ≡ self.now }
        ensures ordered { IsBox result.now }
    {
        self.ranges.as_slice()
    }

    /// Adds the range of one column more.
    pub fn push(&mut self, low: i64, high: i64) -> Result<(), AllocError>
        requires { low ≤ℤ high }
        ensures ok { OnOk result (self.new ≡ self.old ++ (low, high) ∷ []) }
        ensures err { OnErr result (self.new ≡ self.old) }
    {
        let Ok(()) = self.ranges.push((low, high)) else {
            return Err(AllocError);
        };
        Ok(())
    }

    /// Adds the ranges of columns more.
    pub fn append(&mut self, ranges: &[(i64, i64)]) -> Result<(), AllocError>
        requires { IsBox ranges.now }
        ensures { OnOk result (self.new ≡ self.old ++ ranges.now) }
    {
        match ranges {
            [] => Ok(()),
            [range, rest @ ..] => {
                self.push(range.0, range.1)?;
                self.append(rest)
            }
        }
    }

    /// Adds columns more that have these values alone.
    pub fn pin(&mut self, values: &[i64]) -> Result<(), AllocError>
        ensures { OnOk result (self.new ≡ self.old ++ map pin values.now) }
    {
        match values {
            [] => Ok(()),
            [value, rest @ ..] => {
                self.push(*value, *value)?;
                self.pin(rest)
            }
        }
    }
}

impl Clone for BoxOf {
    ghost is_clone = { λ b copy. copy ≡ b };

    fn clone(&self) -> Result<BoxOf, AllocError> {
        let ranges = self.ranges.clone()?;
        Ok(BoxOf { ranges })
    }
}

/// The least and the greatest sum of products over some ranges, and the greatest sum of the products' magnitudes.
#[derive(Clone, Copy)]
struct Span {
    least: i128,
    greatest: i128,
    magnitude: u128,
    ghost least_within: { unsigned_abs least ≤ magnitude },
    ghost greatest_within: { unsigned_abs greatest ≤ magnitude },
    ghost limited: { magnitude ≤ 2 ^ 126 },
}

/// The span of a constant.
fn constant_span(constant: i128) -> Result<Span, Range>
    ensures least { IfOk result (λ s. s.least ≡ constant) }
    ensures greatest { IfOk result (λ s. s.greatest ≡ constant) }
    ensures magnitude { IfOk result (λ s. s.magnitude ≡ unsigned_abs constant) }
    ensures range { OnErr result (2 ^ 126 < unsigned_abs constant) }
{
    let magnitude = constant.unsigned_abs();
    if magnitude > MOST_MAGNITUDE {
        return Err(Range);
    }
    Ok(Span {
        least: constant,
        greatest: constant,
        magnitude,
    })
}

/// The end of a range at which the product is greatest, or least.
fn end(greatest: bool, c: i128, range: (i64, i64)) -> i64
    ensures value { result ≡ end_of greatest c range }
    ensures within { unsigned_abs result ≤ reach range }
{
    let (low, high) = range;
    if (c < 0) == greatest { low } else { high }
}

/// The sum of magnitudes with that of one column more.
fn wider(magnitude: u128, c: i128, reach: u64) -> Result<u128, Range>
    requires { magnitude ≤ 2 ^ 126 }
    ensures value { IfOk result (λ m. m ≡ magnitude + unsigned_abs c * reach) }
    ensures fits { OnOk result (magnitude + unsigned_abs c * reach ≤ 2 ^ 126) }
    ensures range { OnErr result (2 ^ 126 < magnitude + unsigned_abs c * reach) }
{
    let Some(more) = c.unsigned_abs().checked_mul(u128::from(reach)) else {
        return Err(Range);
    };
    if more > MOST_MAGNITUDE - magnitude {
        return Err(Range);
    }
    Ok(magnitude + more)
}

/// A sum with one product more, whose second factor has at most a given magnitude.
fn plus_product(sum: i128, c: i128, x: i64, reach: u64) -> i128
    requires within { unsigned_abs x ≤ reach }
    requires room { unsigned_abs sum + unsigned_abs c * reach ≤ 2 ^ 126 }
    ensures value { result ≡ sum +ℤ (c *ℤ x) }
    ensures within { unsigned_abs result ≤ unsigned_abs sum + unsigned_abs c * reach }
{
    sum + c * i128::from(x)
}

/// The span with one column more.
fn with_column(span: Span, c: i128, range: (i64, i64)) -> Result<Span, Range>
    ensures least { IfOk result (λ s. s.least ≡ span.least +ℤ (c *ℤ end_of false c range)) }
    ensures greatest { IfOk result (λ s. s.greatest ≡ span.greatest +ℤ (c *ℤ end_of true c range)) }
    ensures magnitude { IfOk result (λ s. s.magnitude ≡ span.magnitude + unsigned_abs c * reach range) }
    ensures range { OnErr result (2 ^ 126 < span.magnitude + unsigned_abs c * reach range) }
{
    if c == 0 {
        return Ok(span);
    }
    let reach = range.0.unsigned_abs().max(range.1.unsigned_abs());
    let Ok(magnitude) = wider(span.magnitude, c, reach) else {
        return Err(Range);
    };
    Ok(Span {
        least: plus_product(span.least, c, end(false, c, range), reach),
        greatest: plus_product(span.greatest, c, end(true, c, range), reach),
        magnitude,
    })
}

/// The span of a row of coefficients over the ranges, begun with a constant.
fn row_span(coefs: &[i128], constant: i128, ranges: &[(i64, i64)]) -> Result<Span, Range>
    requires { length coefs.now ≡ length ranges.now }
    ensures least { IfOk result (λ s. s.least ≡ dot coefs.now (corner false coefs.now ranges.now) +ℤ constant) }
    ensures greatest { IfOk result (λ s. s.greatest ≡ dot coefs.now (corner true coefs.now ranges.now) +ℤ constant) }
    ensures fits { OnOk result (unsigned_abs constant + box_magnitude coefs.now ranges.now ≤ 2 ^ 126) }
    ensures range { OnErr result (2 ^ 126 < unsigned_abs constant + box_magnitude coefs.now ranges.now) }
{
    let Ok(mut span) = constant_span(constant) else {
        return Err(Range);
    };
    for (i, c) in coefs.iter().enumerate() {
        let Ok(next) = with_column(span, *c, ranges[i]) else {
            return Err(Range);
        };
        span = next;
    }
    Ok(span)
}

/// The span of a form over the ranges.
fn form_span(form: &Form, ranges: &[(i64, i64)]) -> Result<Span, Range>
    requires { length ranges.now ≡ length form.now.coefs }
    ensures least { IfOk result (λ s. s.least ≡ value form.now (corner false form.now.coefs ranges.now)) }
    ensures greatest { IfOk result (λ s. s.greatest ≡ value form.now (corner true form.now.coefs ranges.now)) }
    ensures fits { OnOk result (unsigned_abs form.now.constant + box_magnitude form.now.coefs ranges.now ≤ 2 ^ 126) }
    ensures range { OnErr result (2 ^ 126 < unsigned_abs form.now.constant + box_magnitude form.now.coefs ranges.now) }
{
    row_span(form.coefs.as_slice(), form.constant, ranges)
}

/// The least and the greatest value of the form over the box: one range for each column of the form.
///
/// `Range` comes exactly where `eval` answers it at some corner of the box.
pub fn interval(form: &Form, ranges: &BoxOf) -> Result<(i128, i128), Range>
    requires { length ranges.now ≡ length form.now.coefs }
    ensures bounds { IfOk result (λ ends. (x : List ℤ) → InBox ranges.now x → (ends.0 ≤ℤ value form.now x) × (value form.now x ≤ℤ ends.1)) }
    ensures least { IfOk result (λ ends. (x : List ℤ) × InBox ranges.now x × (value form.now x ≡ ends.0)) }
    ensures greatest { IfOk result (λ ends. (x : List ℤ) × InBox ranges.now x × (value form.now x ≡ ends.1)) }
    ensures fits { OnOk result ((x : List ℤ) → IsCorner ranges.now x → magnitude form.now x ≤ 2 ^ 126) }
    ensures range { OnErr result ((x : List ℤ) × IsCorner ranges.now x × (2 ^ 126 < magnitude form.now x)) }
{
    let Ok(span) = form_span(form, ranges.ranges()) else {
        return Err(Range);
    };
    Ok((span.least, span.greatest))
}
