//! The trees of all loads.
ghost use Rattle.std.specs.Prelude.{◌≡◌, ◌+◌, ◌-◌, ◌≤◌, ℕ, length, map, drop, IsNone, IsTrue, OnOk, IfOk, IfErr, Some};
ghost use Rattle.std.specs.List.{All};
ghost use Rattle.affc_system.specs.Boxes.{IsBox};
ghost use Rattle.affc_split.specs.Budgets.{IsLater};
ghost use Rattle.affc_trace.specs.Law.{IsIn};
ghost use Rattle.affc_nest.specs.Parts.{coordinates};
ghost use Rattle.affc_quast.specs.Limits.{narrow, AreTreesWithin};
ghost use Rattle.affc_quast.specs.Seen.{seen, trees_of};
ghost use Rattle.affc_sched.specs.Touched.{Each};
ghost use Rattle.affc_dataflow.specs.Finds.{NameAll, AreInputs, IsTreeFor, AddsTreesOf, AddsTreesFrom};
ghost use Rattle.affc_dataflow.specs.Searches.{Covers, Fuel, IsSlightRange, IsLoad};
ghost use Rattle.affc_latest.specs.Stores.{IsNamedNest};
ghost use Rattle.affc_dataflow.specs.Unwritten.{IsUnwritten, IfUnwritten};

use crate::search::{leaf, search};
use crate::stop::FlowStop;
use affc_flow::load::Load;
use affc_flow::ranges::entry_ranges;
use affc_nest::{Access, Entry, Nest};
use affc_quast::{Flow, Quast};
use affc_split::Budget;
use sqlite_items::Items;
use std::alloc::Global;

/// The most tests and divisions above a leaf: as many as halve four parameters within 2^24 and six iterators within 2^31.
const MOST_HALVINGS: u32 = 302;

/// The tree of a load in a box.
fn tree_in(
    alloc: Global,
    load: &Load<'_>,
    ranges: &[(i64, i64)],
    budget: &mut Budget,
) -> Result<Quast, FlowStop>
    requires load { IsLoad load.now.nest.now load.now.reader.now load.now.access.now load.now.number }
    requires width { length ranges.now ≡ length load.now.nest.now.params + coordinates load.now.reader.now }
    requires ordered { IsBox ranges.now }
    requires slight { All IsSlightRange ranges.now }
    requires fuel { Fuel 302 ranges.now }
    ensures right { IfOk result (λ t. Covers load.now.nest.now load.now.reader.now load.now.access.now ranges.now 302 (seen t)) }
    ensures unwritten { IfErr result (λ e. IfUnwritten e (IsUnwritten load.now.nest.now)) }
    ensures later { IsLater budget.old budget.new }
    ensures stop { IfErr result (λ e. e ≡ FlowStop.Budget → budget.new.limit ≡ Some budget.new.spent) }
{
    match ranges {
        [] => leaf(alloc, load, &[], budget),
        [range, rest @ ..] => {
            let (low, high) = *range;
            search(alloc, load, &[], low, high, rest, MOST_HALVINGS, budget)
        }
    }
}

/// The tree of a load of a statement that can have instances.
fn living_tree(alloc: Global, load: &Load<'_>, budget: &mut Budget) -> Result<Quast, FlowStop>
    requires load { IsLoad load.now.nest.now load.now.reader.now load.now.access.now load.now.number }
    ensures right { IfOk result (λ t. IsTreeFor load.now.nest.now load.now.reader.now load.now.access.now (seen t)) }
    ensures unwritten { IfErr result (λ e. IfUnwritten e (IsUnwritten load.now.nest.now)) }
    ensures later { IsLater budget.old budget.new }
    ensures stop { IfErr result (λ e. e ≡ FlowStop.Budget → budget.new.limit ≡ Some budget.new.spent) }
{
    let ranges = entry_ranges(load.nest, load.reader)?;
    tree_in(alloc, load, ranges.ranges(), budget)
}

/// The tree of a load.
fn tree_of(alloc: Global, load: &Load<'_>, budget: &mut Budget) -> Result<Quast, FlowStop>
    requires nested { IsNamedNest load.now.nest.now }
    requires entry { IsIn load.now.reader.now load.now.nest.now.entries }
    requires living { IsTrue load.now.reader.now.alive → IsLoad load.now.nest.now load.now.reader.now load.now.access.now load.now.number }
    ensures right { IfOk result (λ t. IsTreeFor load.now.nest.now load.now.reader.now load.now.access.now (seen t)) }
    ensures unwritten { IfErr result (λ e. IfUnwritten e (IsUnwritten load.now.nest.now)) }
    ensures later { IsLater budget.old budget.new }
    ensures stop { IfErr result (λ e. e ≡ FlowStop.Budget → budget.new.limit ≡ Some budget.new.spent) }
{
    if load.reader.alive {
        living_tree(alloc, load, budget)
    } else {
        Ok(Quast::Input)
    }
}

/// Adds the trees of a statement's accesses from this number on, but for the last one, its store.
fn add_loads(
    alloc: Global,
    nest: &Nest,
    entry: &Entry,
    accesses: &[Access],
    number: u32,
    budget: &mut Budget,
    out: &mut Items<Quast>,
) -> Result<(), FlowStop>
    requires nested { IsNamedNest nest.now }
    requires entry { IsIn entry.now nest.now.entries }
    requires accesses { accesses.now ≡ drop number entry.now.accesses }
    requires few { number + length accesses.now ≤ 16 }
    ensures trees { OnOk result (AddsTreesOf nest.now entry.now accesses.now (map seen out.old) (map seen out.new)) }
    ensures unwritten { IfErr result (λ e. IfUnwritten e (IsUnwritten nest.now)) }
    ensures later { IsLater budget.old budget.new }
    ensures stop { IfErr result (λ e. e ≡ FlowStop.Budget → budget.new.limit ≡ Some budget.new.spent) }
{
    match accesses {
        [] => Ok(()),
        [access, rest @ ..] => {
            if rest.is_empty() {
                return Ok(());
            }
            let load = Load {
                nest,
                reader: entry,
                access,
                number,
            };
            let tree = tree_of(alloc, &load, budget)?;
            out.push(tree)?;
            add_loads(alloc, nest, entry, rest, number + 1, budget, out)
        }
    }
}

/// Adds the trees of a statement.
fn add_entry(
    alloc: Global,
    nest: &Nest,
    entry: &Entry,
    budget: &mut Budget,
    out: &mut Items<Quast>,
) -> Result<(), FlowStop>
    requires nested { IsNamedNest nest.now }
    requires entry { IsIn entry.now nest.now.entries }
    ensures trees { OnOk result (AddsTreesOf nest.now entry.now entry.now.accesses (map seen out.old) (map seen out.new)) }
    ensures unwritten { IfErr result (λ e. IfUnwritten e (IsUnwritten nest.now)) }
    ensures later { IsLater budget.old budget.new }
    ensures stop { IfErr result (λ e. e ≡ FlowStop.Budget → budget.new.limit ≡ Some budget.new.spent) }
{
    add_loads(
        alloc,
        nest,
        entry,
        entry.accesses.as_slice(),
        0,
        budget,
        out,
    )
}

/// Adds the trees of statements. The recursion is into halves.
fn add_entries(
    alloc: Global,
    nest: &Nest,
    entries: &[Entry],
    budget: &mut Budget,
    out: &mut Items<Quast>,
) -> Result<(), FlowStop>
    requires nested { IsNamedNest nest.now }
    requires entries { Each (λ e. IsIn e nest.now.entries) entries.now }
    ensures trees { OnOk result (AddsTreesFrom nest.now entries.now (map seen out.old) (map seen out.new)) }
    ensures unwritten { IfErr result (λ e. IfUnwritten e (IsUnwritten nest.now)) }
    ensures later { IsLater budget.old budget.new }
    ensures stop { IfErr result (λ e. e ≡ FlowStop.Budget → budget.new.limit ≡ Some budget.new.spent) }
{
    match entries {
        [] => Ok(()),
        [entry] => { add_entry(alloc, nest, entry, budget, out) }
        _ => {
            let (first, others) = entries.split_at(entries.len() / 2);
            add_entries(alloc, nest, first, budget, out)?;
            add_entries(alloc, nest, others, budget, out)
        }
    }
}

/// The last-write trees of all loads, statements and loads in order. A unit of the budget is a box of a question that is opened.
pub fn find(alloc: Global, nest: &Nest, budget: &mut Budget) -> Result<Flow, FlowStop>
    requires nested { IsNamedNest nest.now }
    ensures sources { IfOk result (λ f. NameAll nest.now (trees_of f)) }
    ensures within { IfOk result (λ f. AreTreesWithin narrow 302 12 nest.now (trees_of f)) }
    ensures inputs { IfOk result (λ f. AreInputs nest.now (trees_of f)) }
    ensures unwritten { IfErr result (λ e. IfUnwritten e (IsUnwritten nest.now)) }
    ensures limit { budget.new.limit ≡ budget.old.limit }
    ensures grows { budget.old.spent ≤ budget.new.spent }
    ensures uncounted { IsNone budget.old.limit → budget.new.spent ≡ budget.old.spent }
    ensures stop { IfErr result (λ e. e ≡ FlowStop.Budget → budget.new.limit ≡ Some budget.new.spent) }
{
    let mut trees = Items::new(alloc);
    add_entries(alloc, nest, nest.entries.as_slice(), budget, &mut trees)?;
    Ok(Flow { trees })
}
