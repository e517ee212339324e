//! The latest store before a load: its source.
ghost use Rattle.std.specs.Prelude.{◌≡◌, ◌+◌, ◌≤◌, ◌∷◌, [], ℕ, Some, length, map, IfOk, IfErr, IfSome};
ghost use Rattle.std.specs.List.{All};
ghost use Rattle.affc_system.specs.Pairs.{WithinReach};
ghost use Rattle.affc_split.specs.Budgets.{IsLater};
ghost use Rattle.affc_trace.specs.Law.{IsIn};
ghost use Rattle.affc_order.specs.Placed.{IsOrder};
ghost use Rattle.affc_order.specs.Systems.{over, source_systems};
ghost use Rattle.affc_sched.specs.Touched.{Each};
ghost use Rattle.affc_flow.specs.Writers.{Writes};
ghost use Rattle.affc_latest.specs.Stores.{IsReading, AreBeside, instance_in, IsLastIn, IsLatestBy, IsLatestAmong, IsWriterAt, IsReadFrom};

use crate::greatest::greatest_point;
use crate::later::later;
use crate::pairs::{store_rows, with_order};
use crate::pinned::beside_ranges;
use affc_ast::tree::Instance;
use affc_nest::{Access, Entry, Nest};
use affc_order::source_before;
use affc_rows::Form;
use affc_split::{Budget, Stop};
use affc_system::{BoxOf, System};
use sqlite_items::Items;
use std::alloc::{AllocError, Global};

/// A load at values of the parameters and of the coordinates of its part.
#[derive(Drop)]
pub struct Reading<'a> {
    pub nest: &'a Nest,
    pub reader: &'a Entry,
    pub load: &'a Access,
    pub p: &'a [i64],
    pub iterators: &'a [i64],
}

/// A store of what a load reads: the rows of both, and the ranges at the load's values.
#[derive(Drop)]
struct Beside<'a> {
    nest: &'a Nest,
    writer: &'a Entry,
    store: &'a Access,
    reader: &'a Entry,
    load: &'a Access,
    p: &'a [i64],
    iterators: &'a [i64],
    pair: &'a System,
    ranges: &'a BoxOf,
}

/// The instance of a part whose coordinates stand behind the parameters in a point.
fn instance_in(
    alloc: Global,
    part: u32,
    params: usize,
    own: usize,
    point: &[i64],
) -> Result<Instance, AllocError>
    requires { params + own ≤ length point.now }
    ensures { IfOk result (λ i. i ≡ instance_in part params own point.now) }
{
    let (_params, behind) = point.split_at(params);
    let (numbers, _others) = behind.split_at(own);
    let iterators = Items::from_slice(alloc, numbers)?;
    Ok(Instance {
        statement: part,
        iterators,
    })
}

/// The instance at the greatest point of a system, if it has one.
fn last_in(
    alloc: Global,
    system: &System,
    ranges: &BoxOf,
    part: u32,
    params: usize,
    own: usize,
    budget: &mut Budget,
) -> Result<Option<Instance>, Stop>
    requires columns { length ranges.now ≡ system.now.columns }
    requires reach { All WithinReach ranges.now }
    requires room { params + own ≤ length ranges.now }
    ensures last { IfOk result (IsLastIn system.now ranges.now part params own) }
    ensures later { IsLater budget.old budget.new }
    ensures stop { IfErr result (λ e. e ≡ Stop.Budget → budget.new.limit ≡ Some budget.new.spent) }
{
    match greatest_point(alloc, system, ranges, budget)? {
        None => Ok(None),
        Some(point) => {
            let found = instance_in(alloc, part, params, own, point.as_slice())?;
            Ok(Some(found))
        }
    }
}

/// The latest store by these rows of the order.
fn last_by_one(
    alloc: Global,
    beside: &Beside<'_>,
    order: &[Form],
    budget: &mut Budget,
) -> Result<Option<Instance>, Stop>
    requires beside { AreBeside beside.now.nest.now beside.now.writer.now beside.now.reader.now beside.now.store.now beside.now.load.now beside.now.p.now beside.now.iterators.now beside.now.pair.now beside.now.ranges.now }
    requires fit { IsOrder beside.now.pair.now.columns order.now }
    requires order { IsIn (over beside.now.pair.now.columns order.now) (source_systems beside.now.nest.now beside.now.writer.now.part beside.now.reader.now.part) }
    ensures latest { IfOk result (IsLatestBy beside.now.nest.now beside.now.writer.now beside.now.reader.now beside.now.store.now beside.now.load.now beside.now.p.now beside.now.iterators.now (over beside.now.pair.now.columns order.now ∷ [])) }
    ensures writer { IfOk result (λ o. IfSome o (IsWriterAt beside.now.nest.now beside.now.load.now.array.0)) }
    ensures later { IsLater budget.old budget.new }
    ensures stop { IfErr result (λ e. e ≡ Stop.Budget → budget.new.limit ≡ Some budget.new.spent) }
{
    let system = with_order(beside.pair, order)?;
    let params = beside.nest.params.ranges().len();
    let own = beside.writer.coordinates();
    let part = beside.writer.part;
    last_in(alloc, &system, beside.ranges, part, params, own, budget)
}

/// The latest store by the rows of any of these.
fn last_by(
    alloc: Global,
    beside: &Beside<'_>,
    orders: &[Items<Form>],
    budget: &mut Budget,
) -> Result<Option<Instance>, Stop>
    requires beside { AreBeside beside.now.nest.now beside.now.writer.now beside.now.reader.now beside.now.store.now beside.now.load.now beside.now.p.now beside.now.iterators.now beside.now.pair.now beside.now.ranges.now }
    requires fit { All (IsOrder beside.now.pair.now.columns) orders.now }
    requires orders { Each (λ o. IsIn (over beside.now.pair.now.columns o) (source_systems beside.now.nest.now beside.now.writer.now.part beside.now.reader.now.part)) orders.now }
    ensures latest { IfOk result (IsLatestBy beside.now.nest.now beside.now.writer.now beside.now.reader.now beside.now.store.now beside.now.load.now beside.now.p.now beside.now.iterators.now (map (over beside.now.pair.now.columns) orders.now)) }
    ensures writer { IfOk result (λ o. IfSome o (IsWriterAt beside.now.nest.now beside.now.load.now.array.0)) }
    ensures later { IsLater budget.old budget.new }
    ensures stop { IfErr result (λ e. e ≡ Stop.Budget → budget.new.limit ≡ Some budget.new.spent) }
{
    match orders {
        [] => Ok(None),
        [order, rest @ ..] => {
            let here = last_by_one(alloc, beside, order.as_slice(), budget)?;
            let others = last_by(alloc, beside, rest, budget)?;
            let latest = later(alloc, beside.nest, beside.p, here, others)?;
            Ok(latest)
        }
    }
}

/// The latest of a part's stores of what is read.
fn last_store(
    alloc: Global,
    reading: &Reading<'_>,
    writer: &Entry,
    store: &Access,
    budget: &mut Budget,
) -> Result<Option<Instance>, Stop>
    requires reading { IsReading reading.now.nest.now reading.now.reader.now reading.now.load.now reading.now.p.now reading.now.iterators.now }
    requires writes { Writes reading.now.nest.now reading.now.load.now.array.0 writer.now store.now }
    ensures latest { IfOk result (IsLatestAmong reading.now.nest.now reading.now.reader.now reading.now.load.now reading.now.p.now reading.now.iterators.now (writer.now ∷ [])) }
    ensures writer { IfOk result (λ o. IfSome o (IsWriterAt reading.now.nest.now reading.now.load.now.array.0)) }
    ensures later { IsLater budget.old budget.new }
    ensures stop { IfErr result (λ e. e ≡ Stop.Budget → budget.new.limit ≡ Some budget.new.spent) }
{
    let (nest, reader, load) = (reading.nest, reading.reader, reading.load);
    let (p, iterators) = (reading.p, reading.iterators);
    let pair = store_rows(alloc, nest, writer, reader, store, load)?;
    let ranges = beside_ranges(alloc, p, &writer.ranges, iterators)?;
    let orders = source_before(alloc, nest, writer.part, reader.part)?;
    let beside = Beside {
        nest,
        writer,
        store,
        reader,
        load,
        p,
        iterators,
        pair: &pair,
        ranges: &ranges,
    };
    last_by(alloc, &beside, orders.as_slice(), budget)
}

/// The latest instance of a part that stores what is read.
fn last_of(
    alloc: Global,
    reading: &Reading<'_>,
    writer: &Entry,
    budget: &mut Budget,
) -> Result<Option<Instance>, Stop>
    requires reading { IsReading reading.now.nest.now reading.now.reader.now reading.now.load.now reading.now.p.now reading.now.iterators.now }
    requires writer { IsIn writer.now reading.now.nest.now.entries }
    ensures latest { IfOk result (IsLatestAmong reading.now.nest.now reading.now.reader.now reading.now.load.now reading.now.p.now reading.now.iterators.now (writer.now ∷ [])) }
    ensures writer { IfOk result (λ o. IfSome o (IsWriterAt reading.now.nest.now reading.now.load.now.array.0)) }
    ensures later { IsLater budget.old budget.new }
    ensures stop { IfErr result (λ e. e ≡ Stop.Budget → budget.new.limit ≡ Some budget.new.spent) }
{
    if !writer.alive {
        return Ok(None);
    }
    let accesses = writer.accesses.as_slice();
    if accesses.is_empty() {
        return Ok(None);
    }
    let store = &accesses[accesses.len() - 1];
    let other = store.array.0 != reading.load.array.0;
    if other {
        return Ok(None);
    }
    last_store(alloc, reading, writer, store, budget)
}

/// The latest instance of these parts that stores what is read. The recursion is into halves.
fn last_among(
    alloc: Global,
    reading: &Reading<'_>,
    entries: &[Entry],
    budget: &mut Budget,
) -> Result<Option<Instance>, Stop>
    requires reading { IsReading reading.now.nest.now reading.now.reader.now reading.now.load.now reading.now.p.now reading.now.iterators.now }
    requires entries { Each (λ v. IsIn v reading.now.nest.now.entries) entries.now }
    ensures latest { IfOk result (IsLatestAmong reading.now.nest.now reading.now.reader.now reading.now.load.now reading.now.p.now reading.now.iterators.now entries.now) }
    ensures writer { IfOk result (λ o. IfSome o (IsWriterAt reading.now.nest.now reading.now.load.now.array.0)) }
    ensures later { IsLater budget.old budget.new }
    ensures stop { IfErr result (λ e. e ≡ Stop.Budget → budget.new.limit ≡ Some budget.new.spent) }
{
    match entries {
        [] => Ok(None),
        [entry] => last_of(alloc, reading, entry, budget),
        _ => {
            let (first, behind) = entries.split_at(entries.len() / 2);
            let here = last_among(alloc, reading, first, budget)?;
            let others = last_among(alloc, reading, behind, budget)?;
            let latest = later(alloc, reading.nest, reading.p, here, others)?;
            Ok(latest)
        }
    }
}

/// The source of a load at an instance: the latest instance before it that stores what it reads, if one does.
pub fn source_of(
    alloc: Global,
    reading: &Reading<'_>,
    budget: &mut Budget,
) -> Result<Option<Instance>, Stop>
    requires reading { IsReading reading.now.nest.now reading.now.reader.now reading.now.load.now reading.now.p.now reading.now.iterators.now }
    ensures source { IfOk result (IsReadFrom reading.now.nest.now reading.now.reader.now reading.now.load.now reading.now.p.now reading.now.iterators.now) }
    ensures writer { IfOk result (λ o. IfSome o (IsWriterAt reading.now.nest.now reading.now.load.now.array.0)) }
    ensures later { IsLater budget.old budget.new }
    ensures stop { IfErr result (λ e. e ≡ Stop.Budget → budget.new.limit ≡ Some budget.new.spent) }
{
    let entries = reading.nest.entries.as_slice();
    last_among(alloc, reading, entries, budget)
}
