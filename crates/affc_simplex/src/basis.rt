//! Bases of the whole points, reduced so that their vectors are short and nearly at right angles (Lenstra, Lenstra and Lovász), and
//! the coordinates in them.
//!
//! The vectors themselves aren't kept: their products are, and for each of them the coordinate that counts it. What the vectors before
//! it have in a vector is rounded to 2^60ths. Nothing is promised: a coordinate is a form, whatever its coefficients are.
use crate::cells::{at, put};
use std::alloc::{AllocError, Global};

/// Shares are in 2^60ths.
const SHIFT: u32 = 60;

/// The most times that two neighbours are looked at.
const MOST_LOOKS: u32 = 4000;

/// The most times that a vector is shortened before it is compared with the one before it.
const MOST_ROUNDS: u32 = 20;

/// A square of numbers, line by line.
#[derive(Drop)]
struct Square {
    size: usize,
    cells: Vec<i128>,
}

impl Square {
    /// All numbers 0.
    fn new(alloc: Global, size: usize) -> Result<Square, AllocError> {
        Ok(Square {
            size,
            cells: vec![in alloc; 0i128; size.saturating_mul(size)]?,
        })
    }

    /// The place of a number.
    fn place(&self, line: usize, column: usize) -> usize {
        line.saturating_mul(self.size).saturating_add(column)
    }

    /// The number at a place.
    fn at(&self, line: usize, column: usize) -> i128 {
        at(self.cells.as_slice(), self.place(line, column))
    }

    /// Changes the number at a place.
    fn put(&mut self, line: usize, column: usize, value: i128) {
        let place = self.place(line, column);
        put(self.cells.as_mut_slice(), place, value);
    }

    /// Adds a multiple of one line to another one. `None` where a number doesn't fit.
    fn add_line(&mut self, times: i128, from: usize, to: usize) -> Option<()> {
        for j in 0..self.size {
            let more = self.at(from, j).checked_mul(times)?;
            let sum = self.at(to, j).checked_add(more)?;
            self.put(to, j, sum);
        }
        Some(())
    }

    /// Adds a multiple of one column to another one.
    fn add_column(&mut self, times: i128, from: usize, to: usize) -> Option<()> {
        for i in 0..self.size {
            let more = self.at(i, from).checked_mul(times)?;
            let sum = self.at(i, to).checked_add(more)?;
            self.put(i, to, sum);
        }
        Some(())
    }

    /// Exchanges two lines.
    fn swap_lines(&mut self, one: usize, other: usize) {
        for j in 0..self.size {
            let kept = self.at(one, j);
            let moved = self.at(other, j);
            self.put(one, j, moved);
            self.put(other, j, kept);
        }
    }

    /// Exchanges two columns.
    fn swap_columns(&mut self, one: usize, other: usize) {
        for i in 0..self.size {
            let kept = self.at(i, one);
            let moved = self.at(i, other);
            self.put(i, one, moved);
            self.put(i, other, kept);
        }
    }
}

/// The nearest whole number to a share.
fn nearest(share: i128) -> i128 {
    share.saturating_add(1 << 59) >> SHIFT
}

/// A product of a share and a number.
fn part(share: i128, number: i128) -> Option<i128> {
    Some(share.checked_mul(number)? >> SHIFT)
}

/// A basis of the whole points of some columns.
#[derive(Drop)]
pub(crate) struct Basis {
    /// The products of the vectors with each other.
    products: Square,
    /// The products with what the vectors before a vector leave of it.
    rests: Square,
    /// What the vectors before a vector have in it.
    shares: Square,
    /// The coordinates: a line for each vector, with a coefficient for each column.
    coordinates: Square,
}

impl Basis {
    /// The units of so many columns, in a metric of no row yet.
    pub(crate) fn units(alloc: Global, columns: usize) -> Result<Basis, AllocError> {
        let mut coordinates = Square::new(alloc, columns)?;
        for j in 0..columns {
            coordinates.put(j, j, 1);
        }
        Ok(Basis {
            products: Square::new(alloc, columns)?,
            rests: Square::new(alloc, columns)?,
            shares: Square::new(alloc, columns)?,
            coordinates,
        })
    }

    /// Adds the products of a row to the metric, so many times. This is done before vectors change.
    pub(crate) fn measure(&mut self, coefs: &[i128], times: i128) -> Option<()> {
        for (i, a) in coefs.iter().enumerate() {
            if *a != 0 {
                let scaled = a.checked_mul(times)?;
                for (j, b) in coefs.iter().enumerate() {
                    let more = b.checked_mul(scaled)?;
                    let sum = self.products.at(i, j).checked_add(more)?;
                    self.products.put(i, j, sum);
                }
            }
        }
        Some(())
    }

    /// What is left of a product when the shares of the vectors before are taken out.
    fn rest_of(&self, k: usize, j: usize) -> Option<i128> {
        let mut rest = self.products.at(k, j);
        for t in 0..j {
            rest = rest.checked_sub(part(self.shares.at(j, t), self.rests.at(k, t))?)?;
        }
        Some(rest)
    }

    /// Finds what the vectors before a vector have in it.
    fn project(&mut self, k: usize) -> Option<()> {
        for j in 0..k {
            let rest = self.rest_of(k, j)?;
            self.rests.put(k, j, rest);
            let whole = self.rests.at(j, j);
            let share = rest.checked_mul(1 << SHIFT)?.checked_div(whole)?;
            self.shares.put(k, j, share);
        }
        let own = self.rest_of(k, k)?;
        self.rests.put(k, k, own);
        Some(())
    }

    /// Adds a multiple of a vector's shares to those of a later one, which has the vector itself as often more.
    fn lessen_share(&mut self, less: i128, from: usize, k: usize) -> Option<()> {
        self.shares.add_line(less, from, k)?;
        let whole = less.checked_mul(1 << SHIFT)?;
        let share = self.shares.at(k, from).checked_add(whole)?;
        self.shares.put(k, from, share);
        Some(())
    }

    /// Takes a multiple of a vector out of a later one.
    fn take_out(&mut self, times: i128, from: usize, k: usize) -> Option<()> {
        let less = times.checked_neg()?;
        self.products.add_line(less, from, k)?;
        self.products.add_column(less, from, k)?;
        self.coordinates.add_line(times, k, from)?;
        self.lessen_share(less, from, k)
    }

    /// Takes the nearest multiples of the vectors before a vector out of it. Answers whether it changes.
    fn shorten(&mut self, k: usize) -> Option<bool> {
        let mut changes = false;
        for step in 0..k {
            let from = k.saturating_sub(step).saturating_sub(1);
            let times = nearest(self.shares.at(k, from));
            if times != 0 {
                self.take_out(times, from, k)?;
                changes = true;
            }
        }
        Some(changes)
    }

    /// Shortens a vector until it stays as it is.
    fn settle(&mut self, k: usize) -> Option<()> {
        for _ in 0..MOST_ROUNDS {
            self.project(k)?;
            if !self.shorten(k)? {
                return Some(());
            }
        }
        Some(())
    }

    /// Whether a vector may stand behind the one before it (Lovász' condition, with three quarters).
    fn is_behind(&self, k: usize, before: usize) -> Option<bool> {
        let shared = part(self.shares.at(k, before), self.rests.at(k, before))?;
        let own = self.rests.at(k, k).checked_add(shared)?.checked_mul(4)?;
        let other = self.rests.at(before, before).checked_mul(3)?;
        Some(other <= own)
    }

    /// Exchanges two neighbours.
    fn exchange(&mut self, k: usize, before: usize) -> Option<()> {
        self.products.swap_lines(k, before);
        self.products.swap_columns(k, before);
        self.coordinates.swap_lines(k, before);
        self.project(before)
    }

    /// Reduces the basis, or as far as numbers fit.
    pub(crate) fn reduce(&mut self) -> Option<()> {
        let mut k = 0usize;
        for _ in 0..MOST_LOOKS {
            if k >= self.products.size {
                return Some(());
            }
            self.settle(k)?;
            match k.checked_sub(1) {
                Some(before) if !self.is_behind(k, before)? => {
                    self.exchange(k, before)?;
                    k = before;
                }
                _ => k = k.saturating_add(1),
            }
        }
        Some(())
    }

    /// The coordinate that counts a vector.
    pub(crate) fn coordinate(&self, number: usize) -> Option<&[i128]> {
        let from = self.coordinates.place(number, 0);
        let cells = self.coordinates.cells.as_slice();
        cells.get(from..from.saturating_add(self.coordinates.size))
    }
}
