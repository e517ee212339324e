//! The greatest distance along a row, and where elements have it.
ghost use Rattle.std.specs.Prelude.{◌≡◌, ◌⊎◌, ◌+◌, ◌^◌, ◌<◌, ◌≤◌, ◌≤ℤ◌, unsigned_abs, pos, ◌+ℤ◌, slice_get, Some, None, option_map, IfOk, IfErr, IfSome, IfNone, IsTrue, ◌≢◌, length};
ghost use Rattle.affc_rows.specs.Forms.{value};
ghost use Rattle.affc_split.specs.Budgets.{IsLater};
ghost use Rattle.affc_split.specs.maximum.Regions.{InRegion, IsMeasure, IsBounded};
ghost use Rattle.affc_split.specs.maximum.Searches.{AreBoundedBefore};
ghost use Rattle.affc_moduli.specs.Asked.{IsAsked, IsWay, IsSoughtOf};
ghost use Rattle.affc_moduli.specs.Ended.{IsReach, IsFoundOr};
ghost use Rattle.affc_moduli.specs.Shown.{IsJoined};

use crate::asked::{Aim, AskedRow, Way};
use crate::bounds::{Bound, ceiling_of};
use crate::ceilings::bound_of;
use crate::distances::MOST_DISTANCE;
use crate::witness::{is_before, key_of, settled};
use affc_split::maximum::{Best, Found, maximum};
use affc_split::{Budget, Stop};
use std::alloc::{AllocError, Global};

/// A point at which two elements lie apart, and whether the second is shown before the first: the row has the greater value at
/// the element that is shown last. The elements are compared by the key.
#[derive(Drop)]
pub struct Candidate {
    found: Found,
    turned: bool,
    key: Vec<i128>,
}

/// The greatest distance so far, or the start, and of the points that have it the one that is shown.
#[derive(Drop)]
pub struct Sought {
    level: i64,
    best: Option<Candidate>,
}

/// Where elements lie farthest apart, if anything lies apart, and whether the second is shown before the first.
#[derive(Drop)]
pub struct Shown {
    pub found: Option<Found>,
    pub turned: bool,
}

/// How far apart elements lie along a row: where they lie farthest apart, or a number beyond which they nowhere lie.
#[derive(Drop)]
pub enum Reach {
    Farthest(Shown),
    Within(Bound),
}

/// Whether the first numbers of one point come before those of another.
fn is_earlier(point: &[i64], other: &[i64], parameters: usize) -> bool {
    for (p, q) in point.iter().zip(other).take(parameters) {
        if *p != *q {
            return *p < *q;
        }
    }
    false
}

/// Whether a candidate comes before another that lies as far apart: by its parameters, and then by its elements.
fn comes_before(candidate: &Candidate, other: &Candidate, parameters: usize) -> bool {
    let point = candidate.found.point.as_slice();
    let second = other.found.point.as_slice();
    if is_earlier(point, second, parameters) {
        return true;
    }
    !is_earlier(second, point, parameters)
        && is_before(candidate.key.as_slice(), other.key.as_slice())
}

/// Whether a candidate comes before the one that is shown so far.
fn is_first(sought: &Sought, candidate: &Candidate, parameters: usize) -> bool {
    match &sought.best {
        Some(best) => comes_before(candidate, best, parameters),
        None => true,
    }
}

/// Whether the parameters of a point come behind those of the candidate that is shown so far.
fn is_behind(sought: &Sought, point: &[i64], parameters: usize) -> bool {
    match &sought.best {
        Some(best) => is_earlier(best.found.point.as_slice(), point, parameters),
        None => false,
    }
}

/// What is known with a candidate more, whose elements lie at least as far apart as any before.
fn joined(sought: Sought, candidate: Candidate, parameters: usize) -> Sought
    ensures { IsJoined sought candidate result }
{
    if candidate.found.value == sought.level && !is_first(&sought, &candidate, parameters) {
        return sought;
    }
    Sought {
        level: candidate.found.value,
        best: Some(candidate),
    }
}

/// A point at which a form has a value, as a candidate.
fn candidate_at(
    alloc: Global,
    way: &Way<'_>,
    most: i64,
    point: Vec<i64>,
) -> Result<Candidate, AllocError>
    ensures number { IfOk result (λ c. c.found.number ≡ way.now.number) }
    ensures value { IfOk result (λ c. c.found.value ≡ most) }
    ensures point { IfOk result (λ c. c.found.point.items ≡ point.items) }
{
    let key = key_of(alloc, way.system, way.turned, point.as_slice())?;
    let found = Found {
        number: way.number,
        value: most,
        point,
    };
    Ok(Candidate {
        found,
        turned: way.turned,
        key,
    })
}

/// The point that is shown of those at which a form has the value that it has at this one.
fn shown_at(
    alloc: Global,
    way: &Way<'_>,
    best: Best,
    parameters: usize,
    quick: bool,
    budget: &mut Budget,
) -> Result<Vec<i64>, Stop>
    requires measure { IsMeasure way.now.region.now.system.columns way.now.form.now }
    requires inside { InRegion way.now.region.now best.point.items }
    requires attained { value way.now.form.now best.point.items ≡ best.value }
    ensures inside { IfOk result (λ z. InRegion way.now.region.now z.items) }
    ensures attained { IfOk result (λ z. value way.now.form.now z.items ≡ best.value) }
    ensures later { IsLater budget.old budget.new }
    ensures stop { IfErr result (λ e. e ≡ Stop.Budget → budget.new.limit ≡ Some budget.new.spent) }
{
    if quick {
        return Ok(best.point);
    }
    settled(alloc, way, best.value, best.point, parameters, budget)
}

/// What is known with the greatest value of a form in its region, where that is at least as great as any before.
fn met(
    alloc: Global,
    asked: &AskedRow<'_>,
    way: &Way<'_>,
    sought: Sought,
    best: Best,
    aim: Aim,
    budget: &mut Budget,
) -> Result<Sought, Stop>
    requires way { IsWay asked.now way.now }
    requires sought { IsSoughtOf asked.now aim.start sought }
    requires near { unsigned_abs best.value ≤ 2 ^ 55 }
    requires positive { pos 1 ≤ℤ best.value }
    requires inside { InRegion way.now.region.now best.point.items }
    requires attained { value way.now.form.now best.point.items ≡ best.value }
    ensures sought { IfOk result (IsSoughtOf asked.now aim.start) }
    ensures level { IfOk result (λ s. s.level ≡ best.value) }
    ensures later { IsLater budget.old budget.new }
    ensures stop { IfErr result (λ e. e ≡ Stop.Budget → budget.new.limit ≡ Some budget.new.spent) }
{
    let parameters = asked.given.parameters();
    let most = best.value;
    if most == sought.level && is_behind(&sought, best.point.as_slice(), parameters) {
        return Ok(sought);
    }
    let point = shown_at(alloc, way, best, parameters, aim.quick, budget)?;
    let candidate = candidate_at(alloc, way, most, point)?;
    Ok(joined(sought, candidate, parameters))
}

/// Up to what there is nothing to be found: the distances of at least 1 that are as great as the greatest so far are, or where only
/// the distance is wanted the greater ones.
fn floor_of(level: i64, quick: bool) -> i64
    requires natural { pos 0 ≤ℤ level }
    requires near { unsigned_abs level ≤ 2 ^ 55 }
    ensures natural { pos 0 ≤ℤ result }
    ensures within { result ≤ℤ level }
    ensures near { unsigned_abs result ≤ 2 ^ 55 }
    ensures above { level ≤ℤ (result +ℤ pos 1) }
{
    if quick || level == 0 {
        level
    } else {
        level - 1
    }
}

/// What is known with one way of a system more.
fn with_way(
    alloc: Global,
    asked: &AskedRow<'_>,
    way: &Way<'_>,
    sought: Sought,
    aim: Aim,
    budget: &mut Budget,
) -> Result<Sought, Stop>
    requires way { IsWay asked.now way.now }
    requires sought { IsSoughtOf asked.now aim.start sought }
    ensures sought { IfOk result (IsSoughtOf asked.now aim.start) }
    ensures rises { IfOk result (λ s. sought.level ≤ℤ s.level) }
    ensures bounded { IfOk result (λ s. IsBounded way.now.region.now way.now.form.now s.level) }
    ensures later { IsLater budget.old budget.new }
    ensures stop { IfErr result (λ e. e ≡ Stop.Budget → budget.new.limit ≡ Some budget.new.spent) }
{
    let floor = floor_of(sought.level, aim.quick);
    let ceiling = ceiling_of(way.region, way.form).most;
    let found = maximum(alloc, way.region, way.form, floor, ceiling, ceiling, budget)?;
    match found {
        None => Ok(sought),
        Some(best) => met(alloc, asked, way, sought, best, aim, budget),
    }
}

/// One of the systems, forward.
fn forward_at<'a>(asked: &AskedRow<'a>, i: usize) -> Way<'a>
    requires asked { IsAsked asked.now }
    requires within { i < length asked.now.regions.now }
    ensures way { IsWay asked.now result }
    ensures number { result.number ≡ i }
    ensures form { slice_get asked.now.line.fs.now i ≡ Some result.form.now }
{
    Way {
        number: i,
        system: &asked.given.pairs[i],
        region: &asked.regions[i],
        form: &asked.line.fs[i],
        turned: true,
    }
}

/// One of the systems, backward.
fn backward_at<'a>(asked: &AskedRow<'a>, i: usize) -> Way<'a>
    requires asked { IsAsked asked.now }
    requires within { i < length asked.now.regions.now }
    ensures way { IsWay asked.now result }
    ensures number { result.number ≡ i }
    ensures form { slice_get asked.now.line.gs.now i ≡ Some result.form.now }
{
    Way {
        number: i,
        system: &asked.given.pairs[i],
        region: &asked.regions[i],
        form: &asked.line.gs[i],
        turned: false,
    }
}

/// What is known with one region more, both ways.
fn both_ways(
    alloc: Global,
    asked: &AskedRow<'_>,
    i: usize,
    sought: Sought,
    aim: Aim,
    budget: &mut Budget,
) -> Result<Sought, Stop>
    requires asked { IsAsked asked.now }
    requires within { i < length asked.now.regions.now }
    requires sought { IsSoughtOf asked.now aim.start sought }
    requires forward { AreBoundedBefore i asked.now.regions.now asked.now.line.fs.now sought.level }
    requires backward { AreBoundedBefore i asked.now.regions.now asked.now.line.gs.now sought.level }
    ensures sought { IfOk result (IsSoughtOf asked.now aim.start) }
    ensures forward { IfOk result (λ s. AreBoundedBefore (i + 1) asked.now.regions.now asked.now.line.fs.now s.level) }
    ensures backward { IfOk result (λ s. AreBoundedBefore (i + 1) asked.now.regions.now asked.now.line.gs.now s.level) }
    ensures later { IsLater budget.old budget.new }
    ensures stop { IfErr result (λ e. e ≡ Stop.Budget → budget.new.limit ≡ Some budget.new.spent) }
{
    let forward = forward_at(asked, i);
    let once = with_way(alloc, asked, &forward, sought, aim, budget)?;
    let backward = backward_at(asked, i);
    let twice = with_way(alloc, asked, &backward, once, aim, budget)?;
    Ok(twice)
}

/// Nothing sought yet.
fn unsought(aim: Aim) -> Sought
    ensures level { result.level ≡ aim.start }
    ensures best { result.best ≡ None }
{
    Sought {
        level: aim.start,
        best: None,
    }
}

/// What is shown in the end.
fn shown_of(sought: Sought) -> Shown
    ensures { result.found ≡ option_map (λ c. c.found) sought.best }
{
    match sought.best {
        Some(best) => Shown {
            found: Some(best.found),
            turned: best.turned,
        },
        None => Shown {
            found: None,
            turned: false,
        },
    }
}

/// The greatest distance so far as a bound, but at most the greatest that any two elements can have.
fn level_of(sought: &Sought) -> Bound
    requires natural { pos 0 ≤ℤ sought.now.level }
    requires near { unsigned_abs sought.now.level ≤ 2 ^ 55 }
    ensures natural { pos 0 ≤ℤ result.most }
    ensures within { result.most ≤ℤ pos (2 ^ 53) }
    ensures either { (result.most ≡ sought.now.level) ⊎ (result.most ≡ pos (2 ^ 53)) }
{
    if sought.level > MOST_DISTANCE {
        Bound {
            most: MOST_DISTANCE,
        }
    } else {
        Bound { most: sought.level }
    }
}

/// Whether nothing was found from a start above 0 on.
fn is_missed(sought: &Sought, aim: Aim) -> bool
    ensures missed { IsTrue result → aim.start ≢ pos 0 }
    ensures found { ¬ (IsTrue result) → IfNone sought.now.best (aim.start ≡ pos 0) }
{
    match &sought.best {
        Some(_best) => false,
        None => aim.start != 0,
    }
}

/// Where elements lie farthest apart along a row, unless nothing is found from the start on. Where the budget ends first, a number
/// beyond which they nowhere lie.
fn reached(
    alloc: Global,
    asked: &AskedRow<'_>,
    aim: Aim,
    budget: &mut Budget,
) -> Result<Option<Reach>, Stop>
    requires asked { IsAsked asked.now }
    ensures reach { IfOk result (λ o. IfSome o (IsReach asked.now.given.pairs.now asked.now.regions.now asked.now.line.row.now.coefs)) }
    ensures found { IfOk result (λ o. IfSome o (IsFoundOr budget.new)) }
    ensures missed { IfOk result (λ o. IfNone o (aim.start ≢ pos 0)) }
    ensures later { IsLater budget.old budget.new }
    ensures stop { IfErr result (λ e. e ≡ Stop.Memory) }
{
    let mut sought = unsought(aim);
    for i in 0..asked.regions.len() {
        let known = level_of(&sought);
        match both_ways(alloc, asked, i, sought, aim, budget) {
            Ok(more) => sought = more,
            Err(Stop::Budget) => {
                let bound = bound_of(asked, i, known);
                return Ok(Some(Reach::Within(bound)));
            }
            Err(Stop::Memory) => return Err(Stop::Memory),
        }
    }
    if is_missed(&sought, aim) {
        return Ok(None);
    }
    let shown = shown_of(sought);
    Ok(Some(Reach::Farthest(shown)))
}

/// Where elements lie farthest apart along a row: unless only the distance is wanted, at the least parameters, and there at the
/// elements that come first. Where the budget ends first, a number beyond which they nowhere lie.
pub fn farthest(
    alloc: Global,
    asked: &AskedRow<'_>,
    aim: Aim,
    budget: &mut Budget,
) -> Result<Reach, Stop>
    requires asked { IsAsked asked.now }
    ensures reach { IfOk result (IsReach asked.now.given.pairs.now asked.now.regions.now asked.now.line.row.now.coefs) }
    ensures found { IfOk result (IsFoundOr budget.new) }
    ensures later { IsLater budget.old budget.new }
    ensures stop { IfErr result (λ e. e ≡ Stop.Memory) }
{
    let found = reached(alloc, asked, aim, budget)?;
    if let Some(reach) = found {
        return Ok(reach);
    }
    let aim = Aim {
        quick: aim.quick,
        start: 0,
    };
    match reached(alloc, asked, aim, budget)? {
        Some(reach) => Ok(reach),
        None => unreachable!(),
    }
}
