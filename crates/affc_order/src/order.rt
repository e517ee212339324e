//! Which of two instances is earlier, as lists of rows: of instances by forms, and of two parts over the parameters, the
//! coordinates of an instance of one and those of an instance of the other.
ghost use Rattle.std.specs.Prelude.{nat_lt, [], ◌≡◌, ◌+◌, ◌<◌, ◌≤◌, length, map, IfOk};
ghost use Rattle.std.specs.List.{All};
ghost use Rattle.affc_trace.specs.Inverses.{columns_from};
ghost use Rattle.affc_domain.specs.Loops.{shared};
ghost use Rattle.affc_nest.specs.Asked.{IsNest};
ghost use Rattle.affc_nest.specs.Parts.{statement_of};
ghost use Rattle.affc_order.specs.Asked.{IsScheduled};
ghost use Rattle.affc_order.specs.Placed.{posed, HasMap, IsOrder, IsPlaced, IsTimed};
ghost use Rattle.affc_order.specs.Systems.{loops_of, coordinates_of, lex_systems, rows_in, source_order, time_forms, target_order, pair_columns, source_systems, turned_systems};

use crate::columns::columns_from;
use crate::images::add_images;
use crate::lex::add_lex;
use affc_nest::Nest;
use affc_rows::Form;
use affc_rows::vocabulary::add_copies;
use affc_trace::schedule::{Schedule, TimeMap};
use sqlite_items::Items;
use std::alloc::{AllocError, Global};

/// An instance of a part, whose coordinates are these forms.
#[derive(Clone, Copy, Drop)]
pub struct Placed<'a> {
    pub part: u32,
    pub forms: &'a [Form],
}

/// How many numbers two lists have in common at their beginnings.
pub fn shared(ls: &[u32], ms: &[u32]) -> usize
    ensures value { result ≡ shared ls.now ms.now }
    ensures first { result ≤ length ls.now }
    ensures second { result ≤ length ms.now }
{
    for (i, l) in ls.iter().enumerate() {
        if i >= ms.len() || ms[i] != *l {
            return i;
        }
    }
    ls.len()
}

/// The numbers of the loops round a part.
fn loops(nest: &Nest, part: u32) -> &[u32]
    requires { part < length nest.now.entries }
    ensures { result.now ≡ loops_of nest.now part }
{
    nest.entries.as_slice()[part as usize].loops.as_slice()
}

/// How many coordinates an instance of a part has.
fn coordinates(nest: &Nest, part: u32) -> u32
    requires there { part < length nest.now.entries }
    requires few { coordinates_of nest.now part ≤ 128 }
    ensures { result ≡ coordinates_of nest.now part }
{
    nest.entries.as_slice()[part as usize].coordinates() as u32
}

/// The number of a part's statement.
pub fn statement(nest: &Nest, part: u32) -> u32
    requires { part < length nest.now.entries }
    ensures { result ≡ statement_of nest.now part }
{
    nest.entries.as_slice()[part as usize].statement
}

/// Whether the first part's statement stands before the second's.
fn stands_before(nest: &Nest, a: u32, b: u32) -> bool
    requires first { a < length nest.now.entries }
    requires second { b < length nest.now.entries }
    ensures { result ≡ nat_lt (statement_of nest.now a) (statement_of nest.now b) }
{
    statement(nest, a) < statement(nest, b)
}

// ---- Instances by forms.

/// The rows of the order of the text.
pub fn source_order(
    alloc: Global,
    nest: &Nest,
    columns: u32,
    a: &Placed<'_>,
    b: &Placed<'_>,
) -> Result<Vec<Items<Form>>, AllocError>
    requires first { IsPlaced nest.now columns (posed a.now) }
    requires second { IsPlaced nest.now columns (posed b.now) }
    ensures { IfOk result (λ v. v.items ≡ map rows_in (source_order nest.now columns (posed a.now) (posed b.now))) }
{
    let n = shared(loops(nest, a.part), loops(nest, b.part));
    let tie = stands_before(nest, a.part, b.part);
    let start = Items::new(alloc);
    let mut orders = Vec::new(alloc);
    add_lex(
        alloc,
        columns,
        n,
        a.forms,
        b.forms,
        start.as_slice(),
        tie,
        &mut orders,
    )?;
    Ok(orders)
}

/// The components of an instance's time.
fn time_forms(
    alloc: Global,
    nest: &Nest,
    maps: &[TimeMap],
    columns: u32,
    a: &Placed<'_>,
) -> Result<Vec<Form>, AllocError>
    requires nest { IsNest nest.now }
    requires placed { IsPlaced nest.now columns (posed a.now) }
    requires timed { HasMap nest.now maps.now a.now.part }
    ensures { IfOk result (λ v. v.items ≡ time_forms nest.now maps.now columns (posed a.now)) }
{
    let params = nest.params.ranges().len() as u32;
    let mut images = columns_from(alloc, columns, 0, params)?;
    add_copies(a.forms, &mut images)?;
    let map = &maps[statement(nest, a.part) as usize];
    let mut times = Vec::new(alloc);
    add_images(
        alloc,
        columns,
        images.as_slice(),
        map.forms.as_slice(),
        &mut times,
    )?;
    Ok(times)
}

/// The rows of the order of times.
fn time_order(
    alloc: Global,
    nest: &Nest,
    components: u32,
    maps: &[TimeMap],
    columns: u32,
    a: &Placed<'_>,
    b: &Placed<'_>,
) -> Result<Vec<Items<Form>>, AllocError>
    requires nest { IsNest nest.now }
    requires first { IsPlaced nest.now columns (posed a.now) }
    requires second { IsPlaced nest.now columns (posed b.now) }
    requires timed { IsTimed nest.now components maps.now a.now.part }
    requires timed_too { IsTimed nest.now components maps.now b.now.part }
    ensures { IfOk result (λ v. v.items ≡ map rows_in (lex_systems columns components (time_forms nest.now maps.now columns (posed a.now)) (time_forms nest.now maps.now columns (posed b.now)) [] (nat_lt (statement_of nest.now a.now.part) (statement_of nest.now b.now.part)))) }
{
    let xs = time_forms(alloc, nest, maps, columns, a)?;
    let ys = time_forms(alloc, nest, maps, columns, b)?;
    let tie = stands_before(nest, a.part, b.part);
    let start = Items::new(alloc);
    let mut orders = Vec::new(alloc);
    add_lex(
        alloc,
        columns,
        components as usize,
        xs.as_slice(),
        ys.as_slice(),
        start.as_slice(),
        tie,
        &mut orders,
    )?;
    Ok(orders)
}

/// The rows that say that the schedule runs the first instance before the second.
pub fn target_order(
    alloc: Global,
    nest: &Nest,
    schedule: &Schedule,
    columns: u32,
    a: &Placed<'_>,
    b: &Placed<'_>,
) -> Result<Vec<Items<Form>>, AllocError>
    requires asked { IsScheduled nest.now schedule.now }
    requires first { IsPlaced nest.now columns (posed a.now) }
    requires second { IsPlaced nest.now columns (posed b.now) }
    ensures { IfOk result (λ v. v.items ≡ map rows_in (target_order nest.now schedule.now columns (posed a.now) (posed b.now))) }
{
    match schedule {
        Schedule::Source => source_order(alloc, nest, columns, a, b),
        Schedule::Time { length, maps } => {
            time_order(alloc, nest, *length, maps.as_slice(), columns, a, b)
        }
    }
}

// ---- Two parts.

/// The coordinates of an instance of each of two parts, as columns behind the parameters.
#[derive(Drop)]
struct Pair {
    columns: u32,
    first: Vec<Form>,
    second: Vec<Form>,
}

/// The parameters, the coordinates of an instance of the first part, and those of an instance of the second.
fn pair_of(alloc: Global, nest: &Nest, first: u32, second: u32) -> Result<Pair, AllocError>
    requires nest { IsNest nest.now }
    requires first { first < length nest.now.entries }
    requires second { second < length nest.now.entries }
    ensures columns { IfOk result (λ p. p.columns ≡ pair_columns nest.now first second) }
    ensures first { IfOk result (λ p. p.first.items ≡ columns_from (pair_columns nest.now first second) (length nest.now.params) (coordinates_of nest.now first)) }
    ensures second { IfOk result (λ p. p.second.items ≡ columns_from (pair_columns nest.now first second) (length nest.now.params + coordinates_of nest.now first) (coordinates_of nest.now second)) }
{
    let params = nest.params.ranges().len() as u32;
    let outer = coordinates(nest, first);
    let inner = coordinates(nest, second);
    let columns = params + outer + inner;
    Ok(Pair {
        columns,
        first: columns_from(alloc, columns, params, outer)?,
        second: columns_from(alloc, columns, params + outer, inner)?,
    })
}

/// The rows that say that in the source an instance of the first part is earlier than one of the second.
pub fn source_before(
    alloc: Global,
    nest: &Nest,
    first: u32,
    second: u32,
) -> Result<Vec<Items<Form>>, AllocError>
    requires nest { IsNest nest.now }
    requires first { first < length nest.now.entries }
    requires second { second < length nest.now.entries }
    ensures rows { IfOk result (λ v. v.items ≡ map rows_in (source_systems nest.now first second)) }
    ensures fit { IfOk result (λ v. All (IsOrder (pair_columns nest.now first second)) v.items) }
{
    let pair = pair_of(alloc, nest, first, second)?;
    let a = Placed {
        part: first,
        forms: pair.first.as_slice(),
    };
    let b = Placed {
        part: second,
        forms: pair.second.as_slice(),
    };
    source_order(alloc, nest, pair.columns, &a, &b)
}

/// The rows that say that in the target an instance of the second part is earlier than one of the first, over the same
/// columns.
pub fn target_after(
    alloc: Global,
    nest: &Nest,
    schedule: &Schedule,
    first: u32,
    second: u32,
) -> Result<Vec<Items<Form>>, AllocError>
    requires asked { IsScheduled nest.now schedule.now }
    requires first { first < length nest.now.entries }
    requires second { second < length nest.now.entries }
    ensures rows { IfOk result (λ v. v.items ≡ map rows_in (turned_systems nest.now first second schedule.now)) }
    ensures fit { IfOk result (λ v. All (IsOrder (pair_columns nest.now first second)) v.items) }
{
    let pair = pair_of(alloc, nest, first, second)?;
    let a = Placed {
        part: first,
        forms: pair.first.as_slice(),
    };
    let b = Placed {
        part: second,
        forms: pair.second.as_slice(),
    };
    target_order(alloc, nest, schedule, pair.columns, &b, &a)
}
