//! The search for the tree of a load, part by part of the box of its parameters and iterators.
ghost use Rattle.std.specs.Prelude.{◌≡◌, ◌+◌, ◌-◌, ◌≤◌, ◌≤ℤ◌, ◌++◌, ◌∷◌, [], pos, negsuc, map, replicate, length, IfOk, IfSome, OnOk, IfErr, Some};
ghost use Rattle.std.specs.List.{All};
ghost use Rattle.affc_system.specs.Boxes.{IsBox, pin};
ghost use Rattle.affc_system.specs.Systems.{IsPoint};
ghost use Rattle.affc_split.specs.Budgets.{IsLater};
ghost use Rattle.affc_nest.specs.Parts.{coordinates};
ghost use Rattle.affc_nest.specs.Domains.{number_form};
ghost use Rattle.affc_quast.specs.Seen.{seen};
ghost use Rattle.affc_quast.specs.Trees.{Test, Source};
ghost use Rattle.affc_flow.specs.Questions.{is_temporary};
ghost use Rattle.affc_dataflow.specs.Searches.{Covers, part_box, Fuel, IsSlight, IsSlightRange, IsLoad};
ghost use Rattle.affc_dataflow.specs.Unwritten.{IsUnwritten, IfUnwritten};

use crate::grown::guessed;
use crate::parts::part_ranges;
use crate::stop::FlowStop;
use affc_ast::tree::Instance;
use affc_flow::load::{Load, is_temporary};
use affc_latest::{Reading, source_of};
use affc_leaf::bounds::middle;
use affc_order::columns::spread;
use affc_quast::Quast;
use affc_rows::Form;
use affc_split::{Budget, Stop};
use smallvec::SmallVec;
use sqlite_items::Items;
use std::alloc::{AllocError, Global};

/// Adds the forms of numbers.
fn add_numbers(
    alloc: Global,
    columns: u32,
    numbers: &[i64],
    out: &mut Items<Form>,
) -> Result<(), AllocError>
    ensures { OnOk result (out.new ≡ out.old ++ map (number_form columns) numbers.now) }
{
    match numbers {
        [] => Ok(()),
        [n, rest @ ..] => {
            out.push(Form::number(alloc, columns, i128::from(*n))?)?;
            add_numbers(alloc, columns, rest, out)
        }
    }
}

/// The leaf that names one instance.
fn named(alloc: Global, columns: u32, instance: &Instance) -> Result<Quast, AllocError>
    ensures { IfOk result (λ t. seen t ≡ Source instance.now.statement (map (number_form columns) instance.now.iterators)) }
{
    let mut forms = Items::new(alloc);
    let iterators = instance.iterators.as_slice();
    add_numbers(alloc, columns, iterators, &mut forms)?;
    Ok(Quast::Source {
        part: instance.statement,
        forms,
    })
}

/// A number less a column, over so many columns before that and so many behind.
fn number_less_column(alloc: Global, at: i64, before: u32, behind: u32) -> Result<Form, AllocError>
    ensures { IfOk result (λ f. f ≡ record { coefs = replicate before (pos 0) ++ (negsuc 0 ∷ replicate behind (pos 0)); constant = at }) }
{
    let mut coefs = SmallVec::new(alloc);
    coefs.push(-1)?;
    let alone = Form {
        coefs,
        constant: i128::from(at),
    };
    spread(alloc, &alone, 0, before, behind)
}

/// That this load of an instance is of what nothing stores.
fn unwritten(
    alloc: Global,
    load: &Load<'_>,
    p: &[i64],
    iterators: &[i64],
) -> Result<FlowStop, AllocError>
    ensures { IfOk result (λ s. s ≡ FlowStop.Unwritten load.now.access.now.array load.now.number p.now (record { statement = load.now.reader.now.statement; iterators = iterators.now })) }
{
    let p = Items::from_slice(alloc, p)?;
    let iterators = Items::from_slice(alloc, iterators)?;
    Ok(FlowStop::Unwritten {
        array: load.access.array,
        access: load.number,
        p,
        instance: Instance {
            statement: load.reader.statement,
            iterators,
        },
    })
}

/// The leaf of one instance.
fn instance_leaf(
    alloc: Global,
    load: &Load<'_>,
    p: &[i64],
    iterators: &[i64],
    budget: &mut Budget,
) -> Result<Quast, FlowStop>
    requires load { IsLoad load.now.nest.now load.now.reader.now load.now.access.now load.now.number }
    requires params { length p.now ≡ length load.now.nest.now.params }
    requires loops { length iterators.now ≡ coordinates load.now.reader.now }
    requires params_slight { All IsSlight p.now }
    requires loops_slight { All IsSlight iterators.now }
    requires runs { IsPoint load.now.reader.now.domain (p.now ++ iterators.now) }
    ensures right { IfOk result (λ t. Covers load.now.nest.now load.now.reader.now load.now.access.now (map pin (p.now ++ iterators.now)) 0 (seen t)) }
    ensures unwritten { IfErr result (λ e. IfUnwritten e (IsUnwritten load.now.nest.now)) }
    ensures later { IsLater budget.old budget.new }
    ensures stop { IfErr result (λ e. e ≡ FlowStop.Budget → budget.new.limit ≡ Some budget.new.spent) }
{
    let reading = Reading {
        nest: load.nest,
        reader: load.reader,
        load: load.access,
        p,
        iterators,
    };
    match source_of(alloc, &reading, budget)? {
        Some(instance) => {
            let columns = load.reader.domain.columns();
            let leaf = named(alloc, columns, &instance)?;
            Ok(leaf)
        }
        None => {
            if is_temporary(load.nest, load.access.array) {
                let fault = unwritten(alloc, load, p, iterators)?;
                return Err(fault);
            }
            Ok(Quast::Input)
        }
    }
}

/// The leaf of one point.
pub(crate) fn leaf(
    alloc: Global,
    load: &Load<'_>,
    point: &[i64],
    budget: &mut Budget,
) -> Result<Quast, FlowStop>
    requires load { IsLoad load.now.nest.now load.now.reader.now load.now.access.now load.now.number }
    requires width { length point.now ≡ length load.now.nest.now.params + coordinates load.now.reader.now }
    requires slight { All IsSlight point.now }
    ensures right { IfOk result (λ t. Covers load.now.nest.now load.now.reader.now load.now.access.now (map pin point.now) 0 (seen t)) }
    ensures unwritten { IfErr result (λ e. IfUnwritten e (IsUnwritten load.now.nest.now)) }
    ensures later { IsLater budget.old budget.new }
    ensures stop { IfErr result (λ e. e ≡ FlowStop.Budget → budget.new.limit ≡ Some budget.new.spent) }
{
    if !load.reader.domain.holds_at(point) {
        return Ok(Quast::Input);
    }
    let params = load.nest.params.ranges().len();
    let (p, iterators) = point.split_at(params);
    let tree = instance_leaf(alloc, load, p, iterators, budget)?;
    Ok(tree)
}

/// A test whether a column is at most a number.
fn joined(
    alloc: Global,
    before: u32,
    at: i64,
    behind: u32,
    low: Quast,
    high: Quast,
) -> Result<Quast, AllocError>
    ensures { IfOk result (λ t. seen t ≡ Test (record { coefs = replicate before (pos 0) ++ (negsuc 0 ∷ replicate behind (pos 0)); constant = at }) (seen low) (seen high)) }
{
    let form = number_less_column(alloc, at, before, behind)?;
    let yes = Box::new(alloc, low)?;
    let no = Box::new(alloc, high)?;
    Ok(Quast::Test { form, yes, no })
}

/// The numbers and one more.
fn longer(alloc: Global, point: &[i64], x: i64) -> Result<Items<i64>, AllocError>
    ensures { IfOk result (λ z. z ≡ point.now ++ x ∷ []) }
{
    let mut whole = Items::from_slice(alloc, point)?;
    whole.push(x)?;
    Ok(whole)
}

/// A tree for a part of the box, if one is found for the whole of it.
#[inline(never)]
fn guessed_in(
    alloc: Global,
    load: &Load<'_>,
    point: &[i64],
    low: i64,
    high: i64,
    rest: &[(i64, i64)],
    left: u32,
    budget: &mut Budget,
) -> Result<Option<Quast>, Stop>
    requires load { IsLoad load.now.nest.now load.now.reader.now load.now.access.now load.now.number }
    requires ordered { low ≤ℤ high }
    requires rest_ordered { IsBox rest.now }
    ensures right { IfOk result (λ o. IfSome o (λ t. Covers load.now.nest.now load.now.reader.now load.now.access.now (part_box point.now low high rest.now) left (seen t))) }
    ensures later { IsLater budget.old budget.new }
    ensures stop { IfErr result (λ e. e ≡ Stop.Budget → budget.new.limit ≡ Some budget.new.spent) }
{
    let ranges = part_ranges(alloc, point, low, high, rest)?;
    guessed(alloc, load, &ranges, left, budget)
}

/// The tree of a load in a part of the box: the first columns have these values, the next one has this range, and the others
/// have theirs.
pub(crate) fn search(
    alloc: Global,
    load: &Load<'_>,
    point: &[i64],
    low: i64,
    high: i64,
    rest: &[(i64, i64)],
    left: u32,
    budget: &mut Budget,
) -> Result<Quast, FlowStop>
    requires load { IsLoad load.now.nest.now load.now.reader.now load.now.access.now load.now.number }
    requires width { (length point.now + 1) + length rest.now ≡ length load.now.nest.now.params + coordinates load.now.reader.now }
    requires ordered { low ≤ℤ high }
    requires rest_ordered { IsBox rest.now }
    requires point_slight { All IsSlight point.now }
    requires range_slight { IsSlightRange (low, high) }
    requires rest_slight { All IsSlightRange rest.now }
    requires fuel { Fuel left ((low, high) ∷ rest.now) }
    ensures right { IfOk result (λ t. Covers load.now.nest.now load.now.reader.now load.now.access.now (part_box point.now low high rest.now) left (seen t)) }
    ensures unwritten { IfErr result (λ e. IfUnwritten e (IsUnwritten load.now.nest.now)) }
    ensures later { IsLater budget.old budget.new }
    ensures stop { IfErr result (λ e. e ≡ FlowStop.Budget → budget.new.limit ≡ Some budget.new.spent) }
{
    if low < high {
        if let Some(tree) = guessed_in(alloc, load, point, low, high, rest, left, budget)? {
            return Ok(tree);
        }
        let at = middle(low, high);
        let yes = search(alloc, load, point, low, at, rest, left - 1, budget)?;
        let no = search(alloc, load, point, at + 1, high, rest, left - 1, budget)?;
        let (before, behind) = (point.len() as u32, rest.len() as u32);
        let tree = joined(alloc, before, at, behind, yes, no)?;
        return Ok(tree);
    }
    let whole = longer(alloc, point, low)?;
    match rest {
        [] => leaf(alloc, load, whole.as_slice(), budget),
        [range, more @ ..] => {
            let (low, high) = *range;
            search(alloc, load, whole.as_slice(), low, high, more, left, budget)
        }
    }
}
