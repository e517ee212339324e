//! The rows that cuts and splits add, in a chain of frames on the stack, so that no memory is taken.
ghost use Rattle.std.specs.Prelude.{◌≡◌, ℕ, ◌+◌, ◌-◌, ◌*◌, ◌^◌, ◌<◌, ◌≤◌, ◌++◌, ◌∷◌, [], min, unsigned_abs, length, false, pos, ◌-ℤ◌, ◌*ℤ◌};
ghost use Rattle.std.specs.List.{All};
ghost use Rattle.affc_farkas.specs.Multiples.{entry_of, row_at};
ghost use Rattle.affc_farkas.specs.Proofs.{low_row, high_row};
ghost use Rattle.affc_farkas.specs.Chain.{frame_row, rows_of, IsChain, IsFront};
ghost use Rattle.affc_system.specs.Systems.{FitsRow, IsRow};

use crate::row::entry;
use affc_rows::Form;
use affc_system::System;

/// The rows that stand above a part of a proof, the newest first.
///
/// Each frame also has a link to one further back, so that a row is found in a number of steps that grows with the logarithm of the depth.
#[derive(Clone, Copy)]
pub(crate) enum Added<'a> {
    Nothing,
    More {
        form: &'a Form,
        negated: bool,
        constant: i128,
        number: u64,
        before: &'a Added<'a>,
        far: &'a Added<'a>,
    },
}

/// The entry at a place of a row that keeps the limits.
pub(crate) fn small_entry(row: &Form, column: usize) -> i128
    requires fits { FitsRow row.now }
    requires column_in { column ≤ length row.now.coefs }
    ensures value { result ≡ entry_of row.now column }
    ensures small { unsigned_abs result ≤ 2 ^ 60 }
{
    entry(row, column)
}

/// A multiple of an entry.
pub(crate) fn multiple(times: u64, entry: i128) -> i128
    requires times_small { times ≤ 2 ^ 53 }
    requires entry_small { unsigned_abs entry ≤ 2 ^ 60 }
    ensures value { result ≡ pos times *ℤ entry }
    ensures small { unsigned_abs result ≤ 2 ^ 113 }
{
    i128::from(times) * entry
}

/// The entry of a frame's row at a place.
fn frame_entry(form: &Form, negated: bool, constant: i128, column: usize) -> i128
    requires column_in { column ≤ length form.now.coefs }
    requires small { unsigned_abs (entry_of (frame_row form.now negated constant) column) ≤ 2 ^ 60 }
    ensures { result ≡ entry_of (frame_row form.now negated constant) column }
{
    let coefs = form.coefs.as_slice();
    if column >= coefs.len() {
        constant
    } else if negated {
        -coefs[column]
    } else {
        coefs[column]
    }
}

/// How many rows stand, or the greatest `u64` where there are more.
pub(crate) fn count(added: &Added, system: &System) -> u64
    requires { IsChain system.now.columns system.now.rows added.now }
    ensures { result ≡ min (length (rows_of system.now.rows added.now)) (2 ^ 64 - 1) }
{
    match added {
        Added::Nothing => system.rows().len() as u64,
        Added::More { number, .. } => number.saturating_add(1),
    }
}

/// The entry of the row with this number, which the chain adds, at a place.
fn added_entry(added: &Added, system: &System, number: u32, column: usize) -> i128
    requires chain { IsChain system.now.columns system.now.rows added.now }
    requires there { number < length (rows_of system.now.rows added.now) }
    requires column_in { column ≤ system.now.columns }
    ensures value { result ≡ entry_of (row_at system.now.columns (rows_of system.now.rows added.now) number) column }
    ensures small { unsigned_abs result ≤ 2 ^ 60 }
{
    match added {
        Added::Nothing => entry(&system.rows()[number as usize], column),
        Added::More {
            form,
            negated,
            constant,
            number: own,
            before,
            far,
        } => {
            if *own == u64::from(number) {
                frame_entry(form, *negated, *constant, column)
            } else if u64::from(number) < count(far, system) {
                added_entry(far, system, number, column)
            } else {
                added_entry(before, system, number, column)
            }
        }
    }
}

/// The entry of the row with this number at a place.
pub(crate) fn entry_at(added: &Added, system: &System, number: u32, column: usize) -> i128
    requires chain { IsChain system.now.columns system.now.rows added.now }
    requires there { number < length (rows_of system.now.rows added.now) }
    requires column_in { column ≤ system.now.columns }
    ensures value { result ≡ entry_of (row_at system.now.columns (rows_of system.now.rows added.now) number) column }
    ensures small { unsigned_abs result ≤ 2 ^ 60 }
{
    let rows = system.rows();
    if (number as usize) < rows.len() {
        small_entry(&rows[number as usize], column)
    } else {
        added_entry(added, system, number, column)
    }
}

/// A chain that this one goes on from: two steps along the links of its first frame where the two are equally long, else itself.
///
/// With these links, `k` frames back are reached in a number of steps that grows with the logarithm of `k`.
fn far_back<'a>(before: &'a Added<'a>, system: &System) -> &'a Added<'a>
    requires { IsChain system.now.columns system.now.rows before.now }
    ensures chain { IsChain system.now.columns system.now.rows result.now }
    ensures front { IsFront (rows_of system.now.rows result.now) (rows_of system.now.rows before.now) }
{
    let Added::More { number, far, .. } = before else {
        return before;
    };
    let Added::More {
        number: middle,
        far: last,
        ..
    } = &**far
    else {
        return before;
    };
    let first_step = number.saturating_sub(*middle);
    let second_step = middle.saturating_add(1).saturating_sub(count(last, system));
    if first_step == second_step {
        &**last
    } else {
        before
    }
}

/// The chain with a cut's row.
pub(crate) fn with_cut<'a>(row: &'a Form, before: &'a Added<'a>, system: &System) -> Added<'a>
    requires chain { IsChain system.now.columns system.now.rows before.now }
    requires fit { All (IsRow system.now.columns) (rows_of system.now.rows before.now) }
    requires row { IsRow system.now.columns row.now }
    ensures chain { IsChain system.now.columns system.now.rows result }
    ensures fit { All (IsRow system.now.columns) (rows_of system.now.rows result) }
    ensures rows { rows_of system.now.rows result ≡ rows_of system.now.rows before.now ++ row.now ∷ [] }
{
    Added::More {
        form: row,
        negated: false,
        constant: row.constant,
        number: count(before, system),
        before,
        far: far_back(&*before, system),
    }
}

/// The chain with the lower row of a split.
pub(crate) fn with_low<'a>(
    form: &'a Form,
    at: i64,
    below: i128,
    before: &'a Added<'a>,
    system: &System,
) -> Added<'a>
    requires chain { IsChain system.now.columns system.now.rows before.now }
    requires fit { All (IsRow system.now.columns) (rows_of system.now.rows before.now) }
    requires constant { below ≡ at -ℤ form.now.constant }
    requires row { IsRow system.now.columns (low_row form.now at) }
    ensures chain { IsChain system.now.columns system.now.rows result }
    ensures fit { All (IsRow system.now.columns) (rows_of system.now.rows result) }
    ensures rows { rows_of system.now.rows result ≡ rows_of system.now.rows before.now ++ low_row form.now at ∷ [] }
{
    Added::More {
        form,
        negated: true,
        constant: below,
        number: count(before, system),
        before,
        far: far_back(&*before, system),
    }
}

/// The chain with the upper row of a split.
pub(crate) fn with_high<'a>(
    form: &'a Form,
    at: i64,
    above: i128,
    before: &'a Added<'a>,
    system: &System,
) -> Added<'a>
    requires chain { IsChain system.now.columns system.now.rows before.now }
    requires fit { All (IsRow system.now.columns) (rows_of system.now.rows before.now) }
    requires constant { above ≡ (form.now.constant -ℤ at) -ℤ pos 1 }
    requires row { IsRow system.now.columns (high_row form.now at) }
    ensures chain { IsChain system.now.columns system.now.rows result }
    ensures fit { All (IsRow system.now.columns) (rows_of system.now.rows result) }
    ensures rows { rows_of system.now.rows result ≡ rows_of system.now.rows before.now ++ high_row form.now at ∷ [] }
{
    Added::More {
        form,
        negated: false,
        constant: above,
        number: count(before, system),
        before,
        far: far_back(&*before, system),
    }
}
