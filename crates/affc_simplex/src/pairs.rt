//! Multiples of rows: a row's number and how often it is taken, in the order of the rows.
ghost use Rattle.std.specs.Prelude.{◌≡◌, ℕ, ◌≤◌, insert, length, OnOk};

use std::alloc::AllocError;

/// The place at which a row's number keeps the order.
fn place_for(pairs: &[(u32, u64)], row: u32) -> usize
    ensures { result ≤ length pairs.now }
{
    let mut place = pairs.len();
    while place > 0 && pairs[place - 1].0 > row {
        place -= 1;
    }
    place
}

/// Puts a multiple of a row in at its place.
pub fn put_pair(pairs: &mut Vec<(u32, u64)>, row: u32, times: u64) -> Result<(), AllocError>
    ensures { OnOk result ((place : ℕ) × (pairs.new.items ≡ insert pairs.old.items place (row, times))) }
{
    let place = place_for(pairs.as_slice(), row);
    pairs.insert(place, (row, times))?;
    Ok(())
}
