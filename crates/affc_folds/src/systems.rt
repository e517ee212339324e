//! The live pairs of an array, as systems from products: what is seen to have no point isn't written out.
ghost use Rattle.std.specs.Prelude.{◌≡◌, ◌+◌, ◌≤◌, List, [], ◌∷◌, ◌++◌, ℤ, IsTrue, IfOk, IfErr, OnOk, Some, length, map, flat_map, slice_get};
ghost use Rattle.std.specs.List.{All};
ghost use Rattle.affc_system.specs.Systems.{IsRow};
ghost use Rattle.affc_trace.specs.Dataflow.{LivePair};
ghost use Rattle.affc_split.specs.Budgets.{IsLater};
ghost use Rattle.affc_split.specs.maximum.Regions.{InRegion};
ghost use Rattle.affc_quast.specs.Seen.{trees_of};
ghost use Rattle.affc_products.specs.Products.{longest, tallest};
ghost use Rattle.affc_life.specs.Clashes.{clash_of, clashes};
ghost use Rattle.affc_life.specs.Products.{systems_in};
ghost use Rattle.affc_folds.specs.Folding.{IsAnalysed, IsSpent};
ghost use Rattle.affc_folds.specs.Systems.{HavePairs, IsCopy, AreKept, Adds, IsOver, KeepsRoom, chosen_system, choices_behind};

use crate::asked::Compilation;
use affc_ast::tree::ArrayId;
use affc_life::{ClashFault, ClashProduct, clash_products};
use affc_moduli::Chosen;
use affc_nest::ArrayInfo;
use affc_rows::Form;
use affc_rows::vocabulary::copies;
use affc_split::maximum::Region;
use affc_split::{Answer, Budget, Stop, decide};
use affc_system::PairSystem;
use sqlite_items::Items;
use std::alloc::{AllocError, Global};

/// The clash systems of an array, in product form.
#[tactic(auto, using(crate::proofs::FoldLemmas::scheduled))]
fn products_of(
    alloc: Global,
    asked: &Compilation<'_>,
    array: ArrayId,
) -> Result<Vec<ClashProduct>, Stop>
    requires analysed { IsAnalysed asked.now.program.now asked.now.nest.now (trees_of asked.now.flow.now) asked.now.schedule.now }
    ensures systems { IfOk result (λ products. map clash_of (flat_map systems_in products.items) ≡ clashes asked.now.nest.now (trees_of asked.now.flow.now) asked.now.schedule.now array.0) }
    ensures stop { IfErr result (λ e. e ≡ Stop.Memory) }
{
    match clash_products(alloc, asked.nest, asked.flow, asked.schedule, array) {
        Ok(products) => Ok(products),
        Err(ClashFault::Memory) => Err(Stop::Memory),
        Err(ClashFault::Large) => unreachable!(),
    }
}

/// The systems of a product that are wanted.
#[derive(Clone, Copy, Drop)]
struct Wanted<'a> {
    /// What the product's systems have in common.
    base: &'a PairSystem,
    /// Whether only those are wanted that have a point.
    pointed: bool,
}

/// Whether a region has no point.
fn is_empty(alloc: Global, region: &Region, budget: &mut Budget) -> Result<bool, Stop>
    ensures empty { IfOk result (λ empty. IsTrue empty → (z : List ℤ) → InRegion region.now z → ⊥) }
    ensures later { IsLater budget.old budget.new }
    ensures stop { IfErr result (λ e. e ≡ Stop.Budget → budget.new.limit ≡ Some budget.new.spent) }
{
    match decide(alloc, &region.system, &region.ranges, budget)? {
        Answer::Empty(_proof) => Ok(true),
        Answer::Point(_point) => Ok(false),
    }
}

/// Whether a region has no point, if that is asked.
fn is_unwanted(
    alloc: Global,
    wanted: &Wanted<'_>,
    region: &Region,
    budget: &mut Budget,
) -> Result<bool, Stop>
    ensures none { IfOk result (λ unwanted. IsTrue unwanted → (z : List ℤ) → InRegion region.now z → ⊥) }
    ensures later { IsLater budget.old budget.new }
    ensures stop { IfErr result (λ e. e ≡ Stop.Budget → budget.new.limit ≡ Some budget.new.spent) }
{
    if wanted.pointed {
        is_empty(alloc, region, budget)
    } else {
        Ok(false)
    }
}

/// A copy of the system that is chosen.
fn copy_of(alloc: Global, base: &PairSystem, region: &Region) -> Result<PairSystem, AllocError>
    requires over { IsOver base.now region.now }
    ensures { IfOk result (IsCopy (chosen_system base.now region.now)) }
{
    let system = region.system.clone()?;
    let ranges = region.ranges.clone()?;
    let x = copies(alloc, base.x.as_slice())?;
    let y = copies(alloc, base.y.as_slice())?;
    Ok(PairSystem {
        system,
        ranges,
        x,
        y,
    })
}

/// Adds a copy of the system that is chosen, if it is wanted.
fn add_chosen(
    alloc: Global,
    wanted: &Wanted<'_>,
    region: &Region,
    budget: &mut Budget,
    out: &mut Vec<PairSystem>,
) -> Result<(), Stop>
    requires over { IsOver wanted.now.base.now region.now }
    ensures kept { OnOk result (Adds (chosen_system wanted.now.base.now region.now ∷ []) out.old.items out.new.items) }
    ensures later { IsLater budget.old budget.new }
    ensures stop { IfErr result (λ e. e ≡ Stop.Budget → budget.new.limit ≡ Some budget.new.spent) }
{
    if is_unwanted(alloc, wanted, region, budget)? {
        return Ok(());
    }
    let copy = copy_of(alloc, wanted.base, region)?;
    let Ok(()) = out.push(copy) else {
        return Err(Stop::Memory);
    };
    Ok(())
}

/// Adds the systems that have one alternative of a factor behind the rows that are chosen.
#[cycle(choices)]
fn add_behind(
    alloc: Global,
    wanted: &Wanted<'_>,
    chosen: &mut Chosen,
    rows: &[Form],
    later: &[Items<Items<Form>>],
    budget: &mut Budget,
    out: &mut Vec<PairSystem>,
) -> Result<(), Stop>
    requires over { IsOver wanted.now.base.now chosen.old.region }
    requires rows { All (IsRow wanted.now.base.now.system.columns) rows.now }
    requires later { All (All (All (IsRow wanted.now.base.now.system.columns))) later.now }
    requires room { length chosen.old.region.system.rows + (length rows.now + tallest later.now) ≤ 1024 }
    ensures kept { OnOk result (Adds (choices_behind wanted.now.base.now (chosen.old.region.system.rows ++ rows.now) later.now) out.old.items out.new.items) }
    ensures same { OnOk result (chosen.new.region.system ≡ chosen.old.region.system) }
    ensures ranges { OnOk result (chosen.new.region.ranges ≡ chosen.old.region.ranges) }
    ensures later { IsLater budget.old budget.new }
    ensures stop { IfErr result (λ e. e ≡ Stop.Budget → budget.new.limit ≡ Some budget.new.spent) }
{
    let count = chosen.count();
    if chosen.add(rows)? {
        add_factors(alloc, wanted, chosen, later, budget, out)?;
    }
    chosen.cut_back(count);
    Ok(())
}

/// Adds the systems that have one of these alternatives, and one of each factor, behind the rows that are chosen.
#[cycle(choices)]
fn add_each(
    alloc: Global,
    wanted: &Wanted<'_>,
    chosen: &mut Chosen,
    first: &[Items<Form>],
    later: &[Items<Items<Form>>],
    budget: &mut Budget,
    out: &mut Vec<PairSystem>,
) -> Result<(), Stop>
    requires over { IsOver wanted.now.base.now chosen.old.region }
    requires first { All (All (IsRow wanted.now.base.now.system.columns)) first.now }
    requires later { All (All (All (IsRow wanted.now.base.now.system.columns))) later.now }
    requires room { length chosen.old.region.system.rows + (longest first.now + tallest later.now) ≤ 1024 }
    ensures kept { OnOk result (Adds (choices_behind wanted.now.base.now chosen.old.region.system.rows (first.now ∷ later.now)) out.old.items out.new.items) }
    ensures same { OnOk result (chosen.new.region.system ≡ chosen.old.region.system) }
    ensures ranges { OnOk result (chosen.new.region.ranges ≡ chosen.old.region.ranges) }
    ensures later { IsLater budget.old budget.new }
    ensures stop { IfErr result (λ e. e ≡ Stop.Budget → budget.new.limit ≡ Some budget.new.spent) }
{
    match first {
        [] => Ok(()),
        [rows, others @ ..] => {
            let rows = rows.as_slice();
            add_behind(alloc, wanted, chosen, rows, later, budget, out)?;
            add_each(alloc, wanted, chosen, others, later, budget, out)
        }
    }
}

/// Adds the systems that have one alternative of each factor behind the rows that are chosen.
#[cycle(choices)]
fn add_factors(
    alloc: Global,
    wanted: &Wanted<'_>,
    chosen: &mut Chosen,
    factors: &[Items<Items<Form>>],
    budget: &mut Budget,
    out: &mut Vec<PairSystem>,
) -> Result<(), Stop>
    requires over { IsOver wanted.now.base.now chosen.old.region }
    requires factors { All (All (All (IsRow wanted.now.base.now.system.columns))) factors.now }
    requires room { length chosen.old.region.system.rows + tallest factors.now ≤ 1024 }
    ensures kept { OnOk result (Adds (choices_behind wanted.now.base.now chosen.old.region.system.rows factors.now) out.old.items out.new.items) }
    ensures same { OnOk result (chosen.new.region.system ≡ chosen.old.region.system) }
    ensures ranges { OnOk result (chosen.new.region.ranges ≡ chosen.old.region.ranges) }
    ensures later { IsLater budget.old budget.new }
    ensures stop { IfErr result (λ e. e ≡ Stop.Budget → budget.new.limit ≡ Some budget.new.spent) }
{
    match factors {
        [] => add_chosen(alloc, wanted, &chosen.region, budget, out),
        [first, later @ ..] => {
            let first = first.as_slice();
            add_each(alloc, wanted, chosen, first, later, budget, out)
        }
    }
}

/// Adds the systems of a product that are wanted.
fn add_product(
    alloc: Global,
    product: &ClashProduct,
    pointed: bool,
    budget: &mut Budget,
    out: &mut Vec<PairSystem>,
) -> Result<(), Stop>
    requires room { KeepsRoom product.now }
    ensures kept { OnOk result (Adds (systems_in product.now) out.old.items out.new.items) }
    ensures later { IsLater budget.old budget.new }
    ensures stop { IfErr result (λ e. e ≡ Stop.Budget → budget.new.limit ≡ Some budget.new.spent) }
{
    let base = &product.base;
    let wanted = Wanted { base, pointed };
    let ranges = base.ranges.clone()?;
    let mut chosen = Chosen::over(alloc, base.system.columns(), ranges);
    let rows = base.system.rows();
    let factors = product.factors.as_slice();
    add_behind(alloc, &wanted, &mut chosen, rows, factors, budget, out)
}

/// The systems of products that are wanted.
fn all_wanted(
    alloc: Global,
    products: &[ClashProduct],
    pointed: bool,
    budget: &mut Budget,
) -> Result<Vec<PairSystem>, Stop>
    requires room { All KeepsRoom products.now }
    ensures kept { IfOk result (λ kept. AreKept (flat_map systems_in products.now) kept.items) }
    ensures later { IsLater budget.old budget.new }
    ensures stop { IfErr result (λ e. e ≡ Stop.Budget → budget.new.limit ≡ Some budget.new.spent) }
{
    let mut all = Vec::new(alloc);
    for product in products {
        add_product(alloc, product, pointed, budget, &mut all)?;
    }
    Ok(all)
}

/// The systems of an array's live pairs that aren't seen to have no point; where several bases are tried, only those that have one.
pub(crate) fn live_systems(
    alloc: Global,
    asked: &Compilation<'_>,
    array: ArrayId,
    info: &ArrayInfo,
    several: bool,
    budget: &mut Budget,
) -> Result<Vec<PairSystem>, Stop>
    requires analysed { IsAnalysed asked.now.program.now asked.now.nest.now (trees_of asked.now.flow.now) asked.now.schedule.now }
    requires there { slice_get asked.now.nest.now.arrays array.0 ≡ Some info.now }
    ensures live { IfOk result (λ systems. HavePairs asked.now.program.now (LivePair asked.now.program.now asked.now.schedule.now) asked.now.nest.now array.0 info.now.extents systems.items) }
    ensures later { IsLater budget.old budget.new }
    ensures stop { IfErr result (λ e. e ≡ Stop.Budget → IsSpent budget.new) }
{
    let products = products_of(alloc, asked, array)?;
    all_wanted(alloc, products.as_slice(), several, budget)
}
