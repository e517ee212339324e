//! The numbers of rows in a proof that begins with the rows of a box's ends.

use crate::bounds::{Ends, Origin, Term, end_at};
use std::alloc::{AllocError, Global};

/// Where the rows of a proof below a box stand in one that makes the rows of the ends which it uses.
#[derive(Drop)]
pub(crate) struct Numbers {
    /// How many rows the system has.
    pub rows: u32,
    /// The number of each end's row, where it is used.
    pub places: Vec<Option<u32>>,
    /// The ends whose rows are made, in order. Their rows stand behind those of the system.
    pub made: Vec<usize>,
    /// The number of the row that stands behind all of these.
    pub next: u32,
}

/// Marks one.
pub(crate) fn mark(used: &mut Vec<bool>, number: usize) {
    if number < used.len() {
        used[number] = true;
    }
}

/// Whether it is marked.
fn is_marked(used: &[bool], number: usize) -> bool {
    match used.get(number) {
        Some(marked) => *marked,
        None => false,
    }
}

/// Marks the ends from which one follows.
fn mark_sources(used: &mut Vec<bool>, ends: &Ends, number: usize) {
    let Some(end) = end_at(ends.ends.as_slice(), number) else {
        return;
    };
    let Origin::Sum { by, divisor: _ } = &end.origin else {
        return;
    };
    for (term, _) in by.as_slice() {
        if let Term::End(other) = term {
            mark(used, *other);
        }
    }
}

/// Marks also those from which the marked ends follow.
pub(crate) fn mark_all(used: &mut Vec<bool>, ends: &Ends) {
    for number in ends.order.as_slice().iter().rev() {
        if is_marked(used, *number) {
            mark_sources(used, ends, *number);
        }
    }
}

impl Numbers {
    /// Gives the row of an end its number. Where `merged`, a row of the system stands for itself.
    fn give(&mut self, ends: &Ends, number: usize, merged: bool) -> Result<(), AllocError> {
        let Some(end) = end_at(ends.ends.as_slice(), number) else {
            return Ok(());
        };
        if number >= self.places.len() {
            return Ok(());
        }
        match &end.origin {
            Origin::Row(row) if merged => {
                self.places[number] = Some(*row);
            }
            _ => {
                self.places[number] = Some(self.next);
                self.made.push(number)?;
                let Some(next) = self.next.checked_add(1) else {
                    return Err(AllocError);
                };
                self.next = next;
            }
        }
        Ok(())
    }

    /// The numbers of the rows of these ends.
    pub(crate) fn of(
        alloc: Global,
        rows: u32,
        ends: &Ends,
        used: &[bool],
        merged: bool,
    ) -> Result<Numbers, AllocError> {
        let mut places = Vec::new(alloc);
        for _ in used {
            places.push(None)?;
        }
        let mut numbers = Numbers {
            rows,
            places,
            made: Vec::new(alloc),
            next: rows,
        };
        for number in ends.order.as_slice() {
            if is_marked(used, *number) {
                numbers.give(ends, *number, merged)?;
            }
        }
        Ok(numbers)
    }

    /// Those of a system's rows, with so many more behind them.
    pub(crate) fn with_more(alloc: Global, rows: u32, more: u32) -> Option<Numbers> {
        let next = rows.checked_add(more)?;
        Some(Numbers {
            rows,
            places: Vec::new(alloc),
            made: Vec::new(alloc),
            next,
        })
    }

    /// The number of an end's row.
    fn end(&self, number: usize) -> Option<u32> {
        match self.places.get(number) {
            Some(place) => *place,
            None => None,
        }
    }

    /// The number of a row.
    pub(crate) fn term(&self, term: Term) -> Option<u32> {
        match term {
            Term::Row(row) => Some(row),
            Term::End(number) => self.end(number),
        }
    }

    /// The number of a row that has this one in a proof below the system with the rows of its box.
    pub(crate) fn below(&self, row: u32) -> Option<u32> {
        let Some(behind) = row.checked_sub(self.rows) else {
            return Some(row);
        };
        let behind = behind as usize;
        let Some(further) = behind.checked_sub(self.places.len()) else {
            return self.end(behind);
        };
        let further = u32::try_from(further).ok()?;
        self.next.checked_add(further)
    }
}
