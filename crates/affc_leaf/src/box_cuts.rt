//! Cuts of sums of rows in a box, and leaves below such cuts.
ghost use Rattle.std.specs.Prelude.{◌≡◌, ◌+◌, ◌-◌, ◌*◌, ◌^◌, ◌<◌, ◌≤◌, ◌∷◌, ◌++◌, [], pos, replicate, unsigned_abs, IfOk, IfSome, OnOk, Err, length};
ghost use Rattle.std.specs.List.{All};
ghost use Rattle.affc_system.specs.Systems.{FitsRow};
ghost use Rattle.affc_farkas.specs.Multiples.{AreMultipliers};
ghost use Rattle.affc_leaf.specs.Bounds.{IsBound};
ghost use Rattle.affc_leaf.specs.BoxCuts.{without, IsBoxCut, IsEmptyWith, IsProofBehind, IsSeen, behind, sum_with};
ghost use Rattle.affc_leaf.specs.Cuts.{IsCutBefore, IsDivided};
ghost use Rattle.affc_leaf.specs.Leaves.{corner_rows, SameSum};
ghost use Rattle.affc_leaf.specs.Parts.{IsEmpty};

use crate::boxed::push_row;
use crate::candidates::{Proposal, candidates_in, remainder_of};
use crate::cuts::divided_sum;
use crate::leaves::{
    Sight, add_multiple, added, fits_sum, found_leaf, is_below_zero, leaf_with, put_corners,
    sum_rows,
};
use crate::tops::top_products;
use affc_farkas::{Multipliers, Proof};
use affc_rows::Form;
use affc_simplex::rounds::Cut;
use affc_simplex::simplex::{Outcome, Wanted, look_at};
use affc_simplex::{Bound, Vertex};
use affc_system::System;
use affc_system::system::fits_row;
use std::alloc::{AllocError, Global};

/// A cut of some rows in a box.
#[derive(Drop)]
pub(crate) struct BoxCut {
    pub(crate) by: Multipliers,
    pub(crate) g: i64,
    pub(crate) row: Form,
}

/// A leaf's multiples of the system's rows, and of the cuts before it, each of which has its own multiples of rows.
#[derive(Drop)]
struct Plan {
    cuts: Vec<Cut>,
    own: Vec<(u32, u64)>,
    over: Vec<(u32, u64)>,
}

/// What a division by `g` leaves of the coefficients: all of those whose columns have one value, and the remainders of the others.
fn rest_of(
    alloc: Global,
    coefs: &[i128],
    bounds: &[Bound],
    g: i64,
) -> Result<Vec<i128>, AllocError> {
    let mut part = Vec::with_capacity(alloc, coefs.len())?;
    for (c, bound) in coefs.iter().zip(bounds.iter()) {
        part.push(remainder_of(*c, *bound, g))?;
    }
    Ok(part)
}

/// Takes a part of its products out of a sum, and answers its constant with their greatest value over the box. `None` where a
/// number is too great.
#[tactic(auto, using(crate::proofs::BoxCuts::without_is))]
fn take_out(sum: &mut [i128], constant: i128, part: &[i128], bounds: &[Bound]) -> Option<i128>
    requires few { length bounds.now ≤ 128 }
    requires ranges { All IsBound bounds.now }
    ensures value { IfSome result (λ k. record { coefs = sum.new; constant = k } ≡ without (record { coefs = sum.old; constant = constant }) part.now bounds.now) }
    ensures width { IfSome result (λ k. length part.now ≡ length bounds.now) }
    ensures small { IfSome result (λ k. All (λ c. unsigned_abs c ≤ 2 ^ 53) part.now) }
{
    if part.len() != bounds.len() || sum.len() != bounds.len() || !fits_sum(part, 0) {
        return None;
    }
    let greatest = top_products(part, bounds);
    if !add_multiple(sum, -1, part) {
        return None;
    }
    let total = constant.checked_add(greatest)?;
    Some(total)
}

/// These multiples of rows, and the bounds that make the part greatest. `None` where they break a rule of multipliers.
fn with_corners(
    alloc: Global,
    own: &[(u32, u64)],
    part: &[i128],
    bounds: &[Bound],
) -> Result<Option<Multipliers>, AllocError>
    requires width { length part.now ≡ length bounds.now }
    requires small { All (λ c. unsigned_abs c ≤ 2 ^ 53) part.now }
    ensures sum { IfOk result (λ o. IfSome o (λ m. SameSum m (own.now ++ corner_rows part.now bounds.now))) }
    ensures rules { IfOk result (λ o. IfSome o AreMultipliers) }
{
    let mut pairs = Vec::from_slice(alloc, own)?;
    put_corners(&mut pairs, part, bounds)?;
    Ok(Multipliers::from_pairs(pairs))
}

/// The part of a sum that a division leaves, and the row of what is divided.
#[derive(Drop)]
struct Divided {
    part: Vec<i128>,
    row: Form,
}

/// Takes the part of a sum that a division by `g` leaves out of it, at its greatest value over the box, and divides the rest. `None`
/// where a number is too great.
fn divided_in(
    alloc: Global,
    sum: &mut [i128],
    constant: i128,
    bounds: &[Bound],
    g: i64,
) -> Result<Option<Divided>, AllocError>
    requires few { length bounds.now ≤ 128 }
    requires ranges { All IsBound bounds.now }
    ensures divided { IfOk result (λ o. IfSome o (λ d. IsDivided (without (record { coefs = sum.old; constant = constant }) d.part.items bounds.now) g d.row)) }
    ensures fits { IfOk result (λ o. IfSome o (λ d. FitsRow d.row)) }
    ensures width { IfOk result (λ o. IfSome o (λ d. length d.part.items ≡ length bounds.now)) }
    ensures small { IfOk result (λ o. IfSome o (λ d. All (λ c. unsigned_abs c ≤ 2 ^ 53) d.part.items)) }
{
    let part = rest_of(alloc, sum, bounds, g)?;
    let Some(rest) = take_out(sum, constant, part.as_slice(), bounds) else {
        return Ok(None);
    };
    let Some(row) = divided_sum(alloc, sum, rest, g)? else {
        return Ok(None);
    };
    if fits_row(&row) {
        return Ok(Some(Divided { part, row }));
    }
    Ok(None)
}

/// The cut by `g` of these multiples of rows in a box. `None` where a number is too great.
#[inline(never)]
pub(crate) fn box_cut(
    alloc: Global,
    system: &System,
    bounds: &[Bound],
    own: &[(u32, u64)],
    g: i64,
) -> Result<Option<BoxCut>, AllocError>
    requires width { length bounds.now ≡ system.now.columns }
    requires ranges { All IsBound bounds.now }
    ensures cut { IfOk result (λ o. IfSome o (λ c. IsBoxCut system.now bounds.now c.by c.g c.row)) }
{
    let columns = system.columns() as usize;
    let _rows = system.rows();
    let mut zeros = vec![in alloc; 0i128; columns]?;
    let sum = zeros.as_mut_slice();
    let Some(first) = sum_rows(system, own, sum) else {
        return Ok(None);
    };
    let Some(Divided { part, row }) = divided_in(alloc, sum, first, bounds, g)? else {
        return Ok(None);
    };
    let Some(by) = with_corners(alloc, own, part.as_slice(), bounds)? else {
        return Ok(None);
    };
    Ok(Some(BoxCut { by, g, row }))
}

/// Sums multiples of the system's rows and of the cuts onto zeros, and answers the sum's constant. `None` where a row isn't there or
/// a number is too great.
fn sum_both(
    alloc: Global,
    system: &System,
    cuts: &System,
    own: &[(u32, u64)],
    over: &[(u32, u64)],
    sum: &mut [i128],
) -> Result<Option<i128>, AllocError>
    requires columns { cuts.now.columns ≡ system.now.columns }
    requires zeros { sum.old ≡ replicate system.now.columns (pos 0) }
    ensures sum { IfOk result (λ o. IfSome o (λ k. record { coefs = sum.new; constant = k } ≡ sum_with system.now cuts.now.rows own.now over.now)) }
    ensures there { IfOk result (λ o. IfSome o (λ k. All (λ p. p.0 < length system.now.rows) own.now)) }
    ensures over_there { IfOk result (λ o. IfSome o (λ k. All (λ p. p.0 < length cuts.now.rows) over.now)) }
{
    let columns = system.columns() as usize;
    let mut zeros = vec![in alloc; 0i128; columns]?;
    let first = zeros.as_mut_slice();
    let Some(own_constant) = sum_rows(system, own, first) else {
        return Ok(None);
    };
    let Some(over_constant) = sum_rows(cuts, over, sum) else {
        return Ok(None);
    };
    if first.len() != sum.len() || !add_multiple(sum, 1, first) {
        return Ok(None);
    }
    Ok(added(over_constant, 1, own_constant))
}

/// The pairs of both lists, those of the second with numbers behind so many rows. `None` where a number is too great.
#[tactic(auto, using(crate::proofs::BoxCuts::behind_step))]
fn joined(
    alloc: Global,
    own: &[(u32, u64)],
    over: &[(u32, u64)],
    next: u32,
) -> Result<Option<Vec<(u32, u64)>>, AllocError>
    ensures { IfOk result (λ o. IfSome o (λ v. v.items ≡ own.now ++ behind next over.now)) }
{
    let mut pairs = Vec::from_slice(alloc, own)?;
    for pair in over {
        let Some(number) = next.checked_add(pair.0) else {
            return Ok(None);
        };
        pairs.push((number, pair.1))?;
    }
    Ok(Some(pairs))
}

/// A leaf of these multiples of rows and of cuts, where their sum is below 0 in the whole box.
#[inline(never)]
pub(crate) fn leaf_below(
    alloc: Global,
    system: &System,
    bounds: &[Bound],
    cuts: &System,
    own: &[(u32, u64)],
    over: &[(u32, u64)],
    next: u32,
) -> Result<Option<Box<Proof>>, AllocError>
    requires width { length bounds.now ≡ system.now.columns }
    requires ranges { All IsBound bounds.now }
    requires columns { cuts.now.columns ≡ system.now.columns }
    ensures answer { IfOk result (λ o. IfSome o (λ p. IsEmptyWith system.now bounds.now next cuts.now.rows p.value)) }
{
    let columns = system.columns() as usize;
    let _rows = system.rows();
    let _cuts = cuts.rows();
    let mut zeros = vec![in alloc; 0i128; columns]?;
    let sum = zeros.as_mut_slice();
    let Some(constant) = sum_both(alloc, system, cuts, own, over, sum)? else {
        return Ok(None);
    };
    if !is_below_zero(sum, constant, bounds) {
        return Ok(None);
    }
    let Some(by) = joined(alloc, own, over, next)? else {
        return Ok(None);
    };
    leaf_with(alloc, by, sum, bounds)
}

/// A cut before the rest of a proof.
pub(crate) fn before(alloc: Global, cut: BoxCut, rest: Box<Proof>) -> Result<Box<Proof>, AllocError>
    ensures answer { IfOk result (λ p. IsCutBefore cut.by cut.g cut.row rest.value p.value) }
{
    let BoxCut { by, g, row } = cut;
    let Ok(proof) = Box::new(alloc, Proof::Cut { by, g, row, rest }) else {
        return Err(AllocError);
    };
    Ok(proof)
}

/// Adds the row of a cut.
pub(crate) fn push_copy(cuts: &mut System, cut: &BoxCut) -> Result<(), AllocError>
    requires { length cut.now.row.coefs ≡ cuts.old.columns }
    ensures value { OnOk result (cuts.new ≡ record cuts.old { rows = cuts.old.rows ++ cut.now.row ∷ [] }) }
{
    let row = cut.row.clone()?;
    push_row(cuts, row)
}

/// A proof without a cut, by the one with it.
#[inline(never)]
fn behind_cut(
    alloc: Global,
    cut: BoxCut,
    rest: Option<Box<Proof>>,
) -> Result<Option<Box<Proof>>, AllocError>
    ensures { IfOk result (IsProofBehind cut.by cut.g cut.row rest) }
{
    match rest {
        Some(rest) => {
            let proof = before(alloc, cut, rest)?;
            Ok(Some(proof))
        }
        None => Ok(None),
    }
}

/// The cut of planned rows in the box, whose row is added to the cuts. `None` where a number is too great.
#[inline(never)]
fn push_planned(
    alloc: Global,
    system: &System,
    bounds: &[Bound],
    cuts: &mut System,
    planned: &Cut,
) -> Result<Option<BoxCut>, AllocError>
    requires width { length bounds.now ≡ system.now.columns }
    requires ranges { All IsBound bounds.now }
    requires columns { cuts.old.columns ≡ system.now.columns }
    ensures cut { IfOk result (λ o. IfSome o (λ c. IsBoxCut system.now bounds.now c.by c.g c.row)) }
    ensures value { IfOk result (λ o. IfSome o (λ c. cuts.new ≡ record cuts.old { rows = cuts.old.rows ++ c.row ∷ [] })) }
{
    let Some(cut) = box_cut(alloc, system, bounds, planned.own.as_slice(), planned.g)? else {
        return Ok(None);
    };
    push_copy(cuts, &cut)?;
    Ok(Some(cut))
}

/// The plan's cuts from a number on, and its leaf below them. `None` where one of them fails.
fn cut_and_leaf(
    alloc: Global,
    system: &System,
    bounds: &[Bound],
    mut cuts: System,
    plan: &Plan,
    from: usize,
    next: u32,
) -> Result<Option<Box<Proof>>, AllocError>
    requires width { length bounds.now ≡ system.now.columns }
    requires ranges { All IsBound bounds.now }
    requires columns { cuts.columns ≡ system.now.columns }
    ensures answer { IfOk result (λ o. IfSome o (λ p. IsEmptyWith system.now bounds.now next cuts.rows p.value)) }
{
    if from >= plan.cuts.len() {
        return leaf_below(
            alloc,
            system,
            bounds,
            &cuts,
            plan.own.as_slice(),
            plan.over.as_slice(),
            next,
        );
    }
    let _cuts = cuts.rows();
    let planned: &Cut = &plan.cuts[from];
    let Some(cut) = push_planned(alloc, system, bounds, &mut cuts, planned)? else {
        return Ok(None);
    };
    match cut_and_leaf(alloc, system, bounds, cuts, plan, from + 1, next) {
        Ok(rest) => behind_cut(alloc, cut, rest),
        Err(fault) => Err(fault),
    }
}

/// The system with cuts of its rows in a box after its own rows, and what each of them cuts.
#[derive(Drop)]
struct Tried {
    extended: System,
    cuts: Vec<Cut>,
}

/// Adds a row, where it fits.
pub(crate) fn add_row(system: &mut System, row: Form) -> bool {
    if row.coefs.len() != system.columns() as usize {
        return false;
    }
    system.push(row).is_ok()
}

/// The cuts of sums of rows that gain in a box. `None` where there is none.
fn tried_cuts(
    alloc: Global,
    system: &System,
    bounds: &[Bound],
    vertex: Option<&Vertex>,
) -> Result<Option<Tried>, AllocError> {
    let Some(found) = candidates_in(alloc, system, bounds, vertex)? else {
        return Ok(None);
    };
    let mut tried = Tried {
        extended: system.clone()?,
        cuts: Vec::new(alloc),
    };
    for proposal in found {
        let Proposal { cut, row } = proposal;
        if add_row(&mut tried.extended, row) {
            tried.cuts.push(cut)?;
        }
    }
    Ok(Some(tried))
}

/// The cuts that a sum over the longer system uses, and the sum over the system and these cuts.
fn plan_of(
    alloc: Global,
    rows: usize,
    cuts: &[Cut],
    sum: &[(u32, u64)],
) -> Result<Plan, AllocError> {
    let mut plan = Plan {
        cuts: Vec::new(alloc),
        own: Vec::new(alloc),
        over: Vec::new(alloc),
    };
    for (row, times) in sum {
        match (*row as usize).checked_sub(rows) {
            None => plan.own.push((*row, *times))?,
            Some(place) => {
                if let (Some(cut), Ok(count)) = (cuts.get(place), u32::try_from(plan.cuts.len())) {
                    plan.over.push((count, *times))?;
                    plan.cuts.push(Cut {
                        own: Vec::from_slice(alloc, cut.own.as_slice())?,
                        g: cut.g,
                    })?;
                }
            }
        }
    }
    Ok(plan)
}

/// Cuts and a leaf below them, where some are found with cuts of sums of the system's rows in the box.
#[inline(never)]
fn found_cuts(
    alloc: Global,
    system: &System,
    bounds: &[Bound],
    vertex: Option<&Vertex>,
    next: u32,
) -> Result<Option<Box<Proof>>, AllocError>
    requires width { length bounds.now ≡ system.now.columns }
    requires ranges { All IsBound bounds.now }
    ensures answer { IfOk result (λ o. IfSome o (λ p. IsEmpty system.now bounds.now next p.value)) }
{
    let Some(tried) = tried_cuts(alloc, system, bounds, vertex)? else {
        return Ok(None);
    };
    let Outcome::Sum(sum) = look_at(alloc, &tried.extended, bounds, Wanted::AnyVertex)? else {
        return Ok(None);
    };
    let rows = system.rows().len();
    let plan = plan_of(alloc, rows, tried.cuts.as_slice(), sum.as_slice())?;
    planned(alloc, system, bounds, &plan, next)
}

/// The proof of a plan.
#[tactic(auto, using(crate::proofs::BoxCuts::empty_alone))]
fn planned(
    alloc: Global,
    system: &System,
    bounds: &[Bound],
    plan: &Plan,
    next: u32,
) -> Result<Option<Box<Proof>>, AllocError>
    requires width { length bounds.now ≡ system.now.columns }
    requires ranges { All IsBound bounds.now }
    ensures answer { IfOk result (λ o. IfSome o (λ p. IsEmpty system.now bounds.now next p.value)) }
{
    let columns = system.columns();
    let cuts = System::new(alloc, columns);
    cut_and_leaf(alloc, system, bounds, cuts, plan, 0, next)
}

/// What is seen of a box at once.
#[derive(Drop)]
pub enum Seen {
    /// It has no point: rows whose sum is below 0 in the whole box, or such rows after cuts of the rows in this box.
    Empty(Box<Proof>),
    /// Its least point.
    Point(Vec<i64>),
    Nothing,
}

/// A proof that a box has no point, or its least point, where one is found at once.
#[inline(never)]
pub fn seen_at(
    alloc: Global,
    system: &System,
    bounds: &[Bound],
    next: u32,
) -> Result<Seen, AllocError>
    requires width { length bounds.now ≡ system.now.columns }
    requires ranges { All IsBound bounds.now }
    ensures { IfOk result (IsSeen system.now bounds.now next) }
{
    let Sight {
        leaf,
        vertex,
        least,
    } = found_leaf(alloc, system, bounds, next)?;
    if let Some(leaf) = leaf {
        return Ok(Seen::Empty(leaf));
    }
    if let Some(point) = least {
        return Ok(Seen::Point(point));
    }
    match found_cuts(alloc, system, bounds, vertex.as_ref(), next)? {
        Some(proof) => Ok(Seen::Empty(proof)),
        None => Ok(Seen::Nothing),
    }
}
