//! Items of folds that are looked at as they are made, one leaf after the other.
ghost use Rattle.std.specs.Prelude.{◌≡◌, ◌+◌, ◌≤◌, ◌∷◌, ℕ, ℤ, List, [], length, map, Some, IfOk, IfErr};
ghost use Rattle.affc_basis.specs.Moduli.{IsModulus};
ghost use Rattle.affc_certvalue.specs.fold.Limits.{IsMarkWithin, IsLeastWithin};
ghost use Rattle.affc_conflicts.specs.Questions.{positive_question};
ghost use Rattle.affc_nest.specs.Asked.{IsNest};
ghost use Rattle.affc_quast.specs.Seen.{trees_of};
ghost use Rattle.affc_sched.specs.Touched.{Each};
ghost use Rattle.affc_system.specs.declared.pairs.PairSystem.{PairSystem};
ghost use Rattle.affc_life.specs.Clashes.{clash_of};
ghost use Rattle.affc_life.specs.Sizes.{AnyLarge};
ghost use Rattle.affc_check.specs.Looked.{AreLooked, FoldLooked, FoldsLooked};
ghost use Rattle.affc_check.specs.list.Certs.{least_said, modulus_said};
ghost use Rattle.affc_check.specs.list.Items.{Question, mark_items, row_items, rows_items};
ghost use Rattle.affc_check.specs.list.Limits.{AnyPasses};
ghost use Rattle.affc_check.specs.list.Listed.{IsFirstPart};
ghost use Rattle.affc_check.specs.list.Passes.{FoldPasses};
ghost use Rattle.affc_check.specs.list.Walks.{IsFoldAsked};
ghost use Rattle.affc_check.specs.Walked.{AreAlong, AreAllAlong, AreRowsAlong, Walked, Breaks, IsNumberIn, StandsAt, StandsFor, IsNumbered, IsKept, IsSetting, clashes_in};

use crate::checks::{Looked, look_all};
use crate::list::item::Loaded;
use crate::list::listing::add_long;
use crate::list::shown::{Along, add_mark};
use crate::list::stop::{PartStop, Stop, at_part};
use crate::walks::{Carried, Clashing, Sought, walk_parts};
use affc_ast::tree::ArrayId;
use affc_certvalue::fold::fold::{CertFold, CertLeast, CertModulus};
use affc_life::ClashProduct;
use affc_nest::Nest;
use affc_quast::Flow;
use affc_questions::positive_question;
use affc_rows::Form;
use affc_trace::schedule::Schedule;
use sqlite_items::Items;
use std::alloc::{AllocError, Global};

/// What the folds of a certificate are looked at under: the loads of the nest, each with its tree.
#[derive(Clone, Copy, Drop)]
pub(crate) struct Setting<'a> {
    pub nest: &'a Nest,
    pub schedule: &'a Schedule,
    pub flow: &'a Flow,
    pub parts: &'a [Option<Loaded<'a>>],
}

// ---- Walks

/// Walks over the clash systems of an array.
pub(crate) fn walk_array<'p>(
    alloc: Global,
    of: &Setting<'_>,
    array: ArrayId,
    along: Option<Along<'_>>,
    carried: Carried<'p>,
) -> Result<Carried<'p>, Stop>
    requires setting { IsSetting of.now }
    requires along { AreAlong along (clashes_in of.now array) }
    ensures ok { IfOk result (λ new. Walked along.entry carried.entry new (clashes_in of.now array)) }
    ensures past { IfErr result (λ e. e ≡ Stop.Past → Breaks along.entry (clashes_in of.now array)) }
{
    let _flow = of.flow;
    let asked = Clashing {
        nest: of.nest,
        schedule: of.schedule,
        array,
        along,
    };
    walk_parts(alloc, &asked, of.parts, carried)
}

/// Where a walk begins to seek the clash system of a pair that a certificate shows.
fn first_of(pair: &Option<(i64, Items<i64>)>) -> Sought
    ensures { (z : ℤ) → IsNumberIn pair.now z → StandsAt result [] z }
{
    match pair {
        None => Sought::Nowhere,
        Some((number, _point)) => match usize::try_from(*number) {
            Ok(number) => Sought::Ahead(number),
            Err(_) => Sought::Nowhere,
        },
    }
}

/// Where a walk begins to seek the clash system of what shows that a modulus is least.
pub(crate) fn first_sought(least: &Option<CertLeast>) -> Sought
    ensures { StandsFor least.now result [] }
{
    match least {
        None => Sought::Nowhere,
        Some(least) => first_of(&least.pair),
    }
}

/// The clash systems of a leaf, and a number among them.
fn numbered_among(alloc: Global, sought: Sought) -> Result<(Vec<ClashProduct>, i64), AllocError>
    ensures { IfOk result (λ place. IsNumbered sought place.0.items place.1) }
{
    match sought {
        Sought::Here(products, number) => match i64::try_from(number) {
            Ok(number) => Ok((products, number)),
            Err(_) => Err(AllocError),
        },
        Sought::Ahead(_) => Ok((Vec::new(alloc), 0)),
        Sought::Nowhere => Ok((Vec::new(alloc), 0)),
    }
}

/// What shows that a modulus is least, beside the clash systems of one leaf, among which it has its number.
#[derive(Drop)]
pub(crate) struct Kept {
    pub products: Vec<ClashProduct>,
    pub least: Option<CertLeast>,
}

/// What shows that a modulus is least, beside the clash systems of the leaf where a walk found its own.
pub(crate) fn keep(alloc: Global, least: &CertLeast, sought: Sought) -> Result<Kept, AllocError>
    ensures { IfOk result (IsKept least.now sought) }
{
    let p = Items::from_slice(alloc, least.p.as_slice())?;
    match &least.pair {
        None => Ok(Kept {
            products: Vec::new(alloc),
            least: Some(CertLeast { p, pair: None }),
        }),
        Some((_number, point)) => {
            let point = Items::from_slice(alloc, point.as_slice())?;
            let (products, number) = numbered_among(alloc, sought)?;
            let pair = Some((number, point));
            Ok(Kept {
                products,
                least: Some(CertLeast { p, pair }),
            })
        }
    }
}

// ---- A row

/// Looks at the question whether a modulus is at least 1.
fn look_positive<'p>(
    alloc: Global,
    nest: &Nest,
    modulus: &Form,
    looked: Looked<'p>,
) -> Result<Looked<'p>, Stop>
    requires nested { IsNest nest.now }
    requires modulus { IsModulus nest.now.context.columns modulus.now }
    ensures ok { IfOk result (λ new. AreLooked looked.entry new (Question (positive_question nest.now.context nest.now.params modulus.now) ∷ [])) }
    ensures past { IfErr result (λ e. e ≡ Stop.Past → AnyPasses (Question (positive_question nest.now.context nest.now.params modulus.now) ∷ [])) }
{
    let mut listed = Vec::new(alloc);
    let positive = positive_question(alloc, nest, modulus)?;
    add_long(alloc, &positive, &mut listed)?;
    let after = look_all(alloc, listed.as_slice(), looked)?;
    Ok(after)
}

/// Looks at what shows that a modulus is least, whose clash system a walk over those of the array has sought.
fn look_least<'p>(
    alloc: Global,
    of: &Setting<'_>,
    array: ArrayId,
    along: &Along<'_>,
    least: &CertLeast,
    sought: Sought,
    looked: Looked<'p>,
) -> Result<Looked<'p>, Stop>
    requires nest { along.now.nest.now ≡ of.now.nest.now }
    requires setting { IsSetting of.now }
    requires along { AreAllAlong along.now.rows.now along.now.row.now along.now.modulus.now (clashes_in of.now array) }
    requires modulus { IsModulus of.now.nest.now.context.columns along.now.modulus.now }
    requires mark { IsLeastWithin of.now.nest.now.context.columns least.now }
    requires sought { StandsFor (Some least.now) sought (clashes_in of.now array) }
    ensures ok { IfOk result (λ new. (ss : List PairSystem) → map clash_of ss ≡ clashes_in of.now array → AreLooked looked.entry new (mark_items of.now.nest.now along.now.rows.now along.now.k along.now.row.now along.now.modulus.now ss (least_said (Some least.now)))) }
    ensures past { IfErr result (λ e. e ≡ Stop.Past → (ss : List PairSystem) → map clash_of ss ≡ clashes_in of.now array → AnyPasses (mark_items of.now.nest.now along.now.rows.now along.now.k along.now.row.now along.now.modulus.now ss (least_said (Some least.now)))) }
{
    let (_of, _array) = (of, array);
    let kept = keep(alloc, least, sought)?;
    let beside = Along {
        nest: along.nest,
        systems: kept.products.as_slice(),
        rows: along.rows,
        k: along.k,
        row: along.row,
        modulus: along.modulus,
    };
    let mut listed = Vec::new(alloc);
    add_mark(alloc, &beside, &kept.least, &mut listed)?;
    let after = look_all(alloc, listed.as_slice(), looked)?;
    Ok(after)
}

/// Looks at what a mark says, if it says that its modulus is least.
fn look_mark<'p>(
    alloc: Global,
    of: &Setting<'_>,
    array: ArrayId,
    along: &Along<'_>,
    least: &Option<CertLeast>,
    sought: Sought,
    looked: Looked<'p>,
) -> Result<Looked<'p>, Stop>
    requires nest { along.now.nest.now ≡ of.now.nest.now }
    requires setting { IsSetting of.now }
    requires along { AreAllAlong along.now.rows.now along.now.row.now along.now.modulus.now (clashes_in of.now array) }
    requires modulus { IsModulus of.now.nest.now.context.columns along.now.modulus.now }
    requires mark { IsMarkWithin of.now.nest.now.context.columns least.now }
    requires sought { StandsFor least.now sought (clashes_in of.now array) }
    ensures ok { IfOk result (λ new. (ss : List PairSystem) → map clash_of ss ≡ clashes_in of.now array → AreLooked looked.entry new (mark_items of.now.nest.now along.now.rows.now along.now.k along.now.row.now along.now.modulus.now ss (least_said least.now))) }
    ensures past { IfErr result (λ e. e ≡ Stop.Past → (ss : List PairSystem) → map clash_of ss ≡ clashes_in of.now array → AnyPasses (mark_items of.now.nest.now along.now.rows.now along.now.k along.now.row.now along.now.modulus.now ss (least_said least.now))) }
{
    match least {
        None => Ok(looked),
        Some(least) => look_least(alloc, of, array, along, least, sought, looked),
    }
}

/// Looks at the items of a row.
fn look_row<'p>(
    alloc: Global,
    of: &Setting<'_>,
    array: ArrayId,
    rows: &[Form],
    k: usize,
    row: &Form,
    modulus: &CertModulus,
    looked: Looked<'p>,
) -> Result<Looked<'p>, Stop>
    requires setting { IsSetting of.now }
    requires fits { ¬ (AnyLarge (clashes_in of.now array)) }
    requires along { AreAllAlong rows.now row.now modulus.now.form (clashes_in of.now array) }
    requires modulus { IsModulus of.now.nest.now.context.columns modulus.now.form }
    requires mark { IsMarkWithin of.now.nest.now.context.columns modulus.now.least }
    ensures ok { IfOk result (λ new. (ss : List PairSystem) → map clash_of ss ≡ clashes_in of.now array → AreLooked looked.entry new (row_items of.now.nest.now ss rows.now k row.now (modulus_said modulus.now))) }
    ensures past { IfErr result (λ e. e ≡ Stop.Past → (ss : List PairSystem) → map clash_of ss ≡ clashes_in of.now array → AnyPasses (row_items of.now.nest.now ss rows.now k row.now (modulus_said modulus.now))) }
{
    let along = Along {
        nest: of.nest,
        systems: &[],
        rows,
        k,
        row,
        modulus: &modulus.form,
    };
    let positive = look_positive(alloc, of.nest, &modulus.form, looked)?;
    let start = Carried {
        looked: positive,
        sought: first_sought(&modulus.least),
    };
    let walked = walk_array(alloc, of, array, Some(along), start)?;
    let Carried { looked, sought } = walked;
    look_mark(alloc, of, array, &along, &modulus.least, sought, looked)
}

/// Looks at the items of the rows from the k-th on, each with its modulus.
fn look_rows<'p>(
    alloc: Global,
    of: &Setting<'_>,
    array: ArrayId,
    rows: &[Form],
    k: usize,
    more: &[Form],
    moduli: &[CertModulus],
    looked: Looked<'p>,
) -> Result<Looked<'p>, Stop>
    requires setting { IsSetting of.now }
    requires fits { ¬ (AnyLarge (clashes_in of.now array)) }
    requires few { k + length more.now ≤ 4 }
    requires asked { AreRowsAlong of.now.nest.now (clashes_in of.now array) rows.now more.now moduli.now }
    ensures ok { IfOk result (λ new. (ss : List PairSystem) → map clash_of ss ≡ clashes_in of.now array → AreLooked looked.entry new (rows_items of.now.nest.now ss rows.now k more.now (map modulus_said moduli.now))) }
    ensures past { IfErr result (λ e. e ≡ Stop.Past → (ss : List PairSystem) → map clash_of ss ≡ clashes_in of.now array → AnyPasses (rows_items of.now.nest.now ss rows.now k more.now (map modulus_said moduli.now))) }
{
    match more {
        [] => Ok(looked),
        [row, more_rows @ ..] => match moduli {
            [] => Ok(looked),
            [modulus, others @ ..] => {
                let after = look_row(alloc, of, array, rows, k, row, modulus, looked)?;
                look_rows(alloc, of, array, rows, k + 1, more_rows, others, after)
            }
        },
    }
}

// ---- Folds

/// Looks at the items of a fold, if it keeps the limits.
fn look_fold<'p>(
    alloc: Global,
    of: &Setting<'_>,
    fold: &CertFold,
    looked: Looked<'p>,
) -> Result<Looked<'p>, Stop>
    requires setting { IsSetting of.now }
    requires fold { IsFoldAsked of.now.nest.now (trees_of of.now.flow.now) fold.now }
    ensures ok { IfOk result (FoldLooked of.now.nest.now of.now.schedule.now (trees_of of.now.flow.now) fold.now looked.entry) }
    ensures past { IfErr result (λ e. e ≡ Stop.Past → FoldPasses of.now.nest.now of.now.schedule.now (trees_of of.now.flow.now) fold.now) }
{
    let start = Carried {
        looked,
        sought: Sought::Nowhere,
    };
    let walked = walk_array(alloc, of, fold.array, None, start)?;
    let Carried { looked, sought: _ } = walked;
    let rows = fold.basis.rows.as_slice();
    let moduli = fold.moduli.as_slice();
    look_rows(alloc, of, fold.array, rows, 0, rows, moduli, looked)
}

/// Looks at the items of the fold whose part has this number, if it keeps the limits.
fn look_numbered<'p>(
    alloc: Global,
    of: &Setting<'_>,
    fold: &CertFold,
    number: usize,
    looked: Looked<'p>,
) -> Result<Looked<'p>, PartStop>
    requires setting { IsSetting of.now }
    requires fold { IsFoldAsked of.now.nest.now (trees_of of.now.flow.now) fold.now }
    ensures ok { IfOk result (FoldLooked of.now.nest.now of.now.schedule.now (trees_of of.now.flow.now) fold.now looked.entry) }
    ensures past { IfErr result (λ e. (n : ℕ) → e ≡ PartStop.Part n → (n ≡ number) × FoldPasses of.now.nest.now of.now.schedule.now (trees_of of.now.flow.now) fold.now) }
{
    match look_fold(alloc, of, fold, looked) {
        Ok(after) => Ok(after),
        Err(stop) => Err(at_part(stop, number)),
    }
}

/// Looks at the items of these folds, whose parts are numbered from `first` on. Past 2^64 parts there is no memory for them.
pub(crate) fn look_folds<'p>(
    alloc: Global,
    of: &Setting<'_>,
    folds: &[CertFold],
    first: usize,
    looked: Looked<'p>,
) -> Result<Looked<'p>, PartStop>
    requires setting { IsSetting of.now }
    requires folds { Each (IsFoldAsked of.now.nest.now (trees_of of.now.flow.now)) folds.now }
    ensures ok { IfOk result (FoldsLooked of.now.nest.now of.now.schedule.now (trees_of of.now.flow.now) folds.now looked.entry) }
    ensures past { IfErr result (λ e. (n : ℕ) → e ≡ PartStop.Part n → IsFirstPart (FoldPasses of.now.nest.now of.now.schedule.now (trees_of of.now.flow.now)) first folds.now n) }
{
    match folds {
        [] => Ok(looked),
        [fold, rest @ ..] => {
            let after = look_numbered(alloc, of, fold, first, looked)?;
            let Some(next) = first.checked_add(1) else {
                return Err(PartStop::Memory);
            };
            look_folds(alloc, of, rest, next, after)
        }
    }
}
