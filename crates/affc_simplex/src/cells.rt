//! Lists of numbers.
use crate::number::Number;

/// The number at a place, or 0.
pub fn at<N: Number>(cells: &[N], place: usize) -> N {
    match cells.get(place) {
        Some(cell) => *cell,
        None => N::zero(),
    }
}

/// Changes the number at a place.
pub(crate) fn put<N: Number>(cells: &mut [N], place: usize, value: N) {
    if place < cells.len() {
        cells[place] = value;
    }
}

/// A sum of products.
pub(crate) fn sum_of<N: Number>(start: N, entries: &[N], values: &[N]) -> Option<N> {
    let mut sum = start;
    for (entry, value) in entries.iter().zip(values.iter()) {
        if !entry.is_zero() {
            sum = sum.plus(entry.times(*value)?)?;
        }
    }
    Some(sum)
}

/// The greatest common divisor of two numbers, or 1 where that takes too long.
pub(crate) fn common_divisor<N: Number>(first: N, second: N) -> N {
    let mut a = first;
    let mut b = second;
    for _ in 0..200u32 {
        if b.is_zero() {
            return a;
        }
        let rest = a.rest(b);
        a = b;
        b = rest;
    }
    N::one()
}

/// The number without its sign.
pub(crate) fn positive<N: Number>(n: N) -> Option<N> {
    if n.is_below(N::zero()) {
        n.negated()
    } else {
        Some(n)
    }
}

/// Divides a line by the common divisor of its numbers, up to its sign.
pub fn reduce<N: Number>(line: &mut [N]) {
    if line.iter().any(|cell| cell.magnitude() == 1) {
        return;
    }
    let mut common = N::zero();
    for cell in line.iter() {
        if common.magnitude() != 1 {
            common = common_divisor(common, *cell);
        }
    }
    if common.magnitude() <= 1 {
        return;
    }
    let Some(common) = positive(common) else {
        return;
    };
    for cell in line.iter_mut() {
        *cell = cell.over(common);
    }
}

/// Turns the signs.
pub(crate) fn negate_all<N: Number>(entries: &mut [N]) -> Option<()> {
    for entry in entries.iter_mut() {
        if !entry.is_zero() {
            *entry = entry.negated()?;
        }
    }
    Some(())
}

/// `s` times a number plus `t` times another.
pub(crate) fn combined<N: Number>(s: N, first: N, t: N, second: N) -> Option<N> {
    first.times(s)?.plus(second.times(t)?)
}

/// `s` times each number plus `t` times the other one there.
pub(crate) fn combine_all<N: Number>(s: N, entries: &mut [N], t: N, others: &[N]) -> Option<()> {
    for (entry, other) in entries.iter_mut().zip(others.iter()) {
        *entry = combined(s, *entry, t, *other)?;
    }
    Some(())
}
