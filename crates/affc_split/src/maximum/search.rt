//! The greatest value of a form in a region.
ghost use Rattle.std.specs.Prelude.{◌≡◌, ℤ, negsuc, ◌+◌, ◌-◌, ◌^◌, ◌<◌, ◌≤◌, ◌∷◌, ◌++◌, [], pos, ◌-ℤ◌, ◌≤ℤ◌, ◌<ℤ◌, unsigned_abs, IfOk, IfErr, IfSome, IfNone, Some, length};
ghost use Rattle.affc_rows.specs.Forms.{value};
ghost use Rattle.affc_split.specs.maximum.Regions.{InRegion, IsFirstReaching, IsMeasure, IsBounded, IsAnswer};
ghost use Rattle.affc_split.specs.maximum.Searches.{IsObjective, IsSearch};
ghost use Rattle.affc_split.specs.Budgets.{IsLater};

use crate::maximum::gap::at_once;
use crate::maximum::region::Region;
use crate::{Answer, Budget, Stop, decide};
use affc_rows::Form;
use affc_system::system::MOST_COLUMNS;
use affc_system::{System, value_at};
use smallvec::SmallVec;
use std::alloc::{AllocError, Global};

/// A value, and a point at which it is attained.
#[derive(Drop)]
pub struct Best {
    pub value: i64,
    pub point: Vec<i64>,
}

/// The form less a number.
pub(crate) fn less(alloc: Global, form: &Form, by: i64) -> Result<Form, AllocError>
    requires constant_fits { unsigned_abs form.now.constant ≤ 2 ^ 58 }
    requires near { unsigned_abs by ≤ 2 ^ 58 }
    ensures { IfOk result (λ f. f ≡ record form.now { constant = form.now.constant -ℤ by }) }
{
    let coefs = SmallVec::from_slice(alloc, form.coefs.as_slice())?;
    Ok(Form {
        coefs,
        constant: form.constant - i128::from(by),
    })
}

/// The region's system with one row more: the form is at least a number.
fn with_floor(alloc: Global, system: &System, form: &Form, at: i64) -> Result<System, AllocError>
    requires measure { IsMeasure system.now.columns form.now }
    requires near { unsigned_abs at ≤ 2 ^ 58 }
    requires room { length system.now.rows < 1024 }
    ensures { IfOk result (λ s. s ≡ record system.now { rows = system.now.rows ++ (record form.now { constant = form.now.constant -ℤ at }) ∷ [] }) }
{
    let mut longer = system.clone()?;
    let row = less(alloc, form, at)?;
    longer.add(row)?;
    Ok(longer)
}

/// A point of the region at which the form is at least a number, if there is one.
pub fn reaching(
    alloc: Global,
    region: &Region,
    form: &Form,
    at: i64,
    budget: &mut Budget,
) -> Result<Option<Vec<i64>>, Stop>
    requires measure { IsMeasure region.now.system.columns form.now }
    requires near { unsigned_abs at ≤ 2 ^ 58 }
    requires room { length region.now.system.rows < 1024 }
    ensures some { IfOk result (λ o. IfSome o (λ z. IsFirstReaching region.now form.now at z.items)) }
    ensures none { IfOk result (λ o. IfNone o (IsBounded region.now form.now (at -ℤ pos 1))) }
    ensures later { IsLater budget.old budget.new }
    ensures stop { IfErr result (λ e. e ≡ Stop.Budget → budget.new.limit ≡ Some budget.new.spent) }
{
    let Ok(system) = with_floor(alloc, &region.system, form, at) else {
        return Err(Stop::Memory);
    };
    match decide(alloc, &system, &region.ranges, budget)? {
        Answer::Point(point) => Ok(Some(point)),
        Answer::Empty(_proof) => Ok(None),
    }
}

/// A number above the low one, up to the high one: the wanted one where it lies there.
fn between(wanted: i64, low: i64, high: i64) -> i64
    requires { low <ℤ high }
    ensures above { low <ℤ result }
    ensures within { result ≤ℤ high }
{
    if wanted <= low {
        low + 1
    } else if wanted > high {
        high
    } else {
        wanted
    }
}

/// Where to ask next: just above what is reached, then at the likely greatest value, and in the end by halves.
fn next_question(low: i64, high: i64, likely: i64, turn: u32) -> i64
    requires order { low <ℤ high }
    requires low_near { unsigned_abs low ≤ 2 ^ 55 }
    requires high_near { unsigned_abs high ≤ 2 ^ 55 }
    ensures above { low <ℤ result }
    ensures within { result ≤ℤ high }
{
    match turn {
        0 | 2 | 4 => low + 1,
        1 => between(likely, low, high),
        3 => between(2 * low, low, high),
        _ => high - (high - low) / 2,
    }
}

/// The value of the form at a point of the region.
fn reached(region: &Region, form: &Form, point: &[i64], high: i64) -> i64
    requires measure { IsMeasure region.now.system.columns form.now }
    requires inside { InRegion region.now point.now }
    requires bounded { IsBounded region.now form.now high }
    requires above { negsuc (2 ^ 55) ≤ℤ value form.now point.now }
    ensures { result ≡ value form.now point.now }
{
    let columns = region.system.columns();
    prove!(columns <= 128);
    value_at(form, point) as i64
}

/// An objective: the greatest value of a form in a region, where it is above the floor. It is nowhere above the ceiling.
#[derive(Clone, Copy, Drop)]
pub(crate) struct Objective<'a> {
    pub region: &'a Region,
    pub form: &'a Form,
    pub floor: i64,
    pub ceiling: i64,
}

/// A search for the greatest value: it lies from the low to the high value, and the low one is attained or the floor.
#[derive(Drop)]
pub(crate) struct Search<'a> {
    objective: Objective<'a>,
    low: i64,
    high: i64,
    best: Option<Best>,
}

/// The search, after no point was found at which the form is at least a number.
fn lowered<'a>(search: Search<'a>, at: i64) -> Search<'a>
    requires search { IsSearch search }
    requires above { search.low <ℤ at }
    requires within { at ≤ℤ search.high }
    requires none { IsBounded search.objective.region.now search.objective.form.now (at -ℤ pos 1) }
    ensures search { IsSearch result }
    ensures objective { result.objective ≡ search.entry.objective }
    ensures order { result.low ≤ℤ result.high }
    ensures less { (result.high -ℤ result.low) <ℤ (search.entry.high -ℤ search.entry.low) }
{
    Search {
        objective: search.objective,
        low: search.low,
        high: at - 1,
        best: search.best,
    }
}

/// The search, after a point was found at which the form is at least a number.
fn raised<'a>(search: Search<'a>, at: i64, point: Vec<i64>) -> Search<'a>
    requires search { IsSearch search }
    requires above { search.low <ℤ at }
    requires inside { InRegion search.objective.region.now point.items }
    requires reaches { at ≤ℤ value search.objective.form.now point.items }
    ensures search { IsSearch result }
    ensures objective { result.objective ≡ search.entry.objective }
    ensures order { result.low ≤ℤ result.high }
    ensures less { (result.high -ℤ result.low) <ℤ (search.entry.high -ℤ search.entry.low) }
{
    let objective = search.objective;
    let value = reached(
        objective.region,
        objective.form,
        point.as_slice(),
        search.high,
    );
    Search {
        objective,
        low: value,
        high: search.high,
        best: Some(Best { value, point }),
    }
}

/// One question more.
fn step<'a>(
    alloc: Global,
    search: Search<'a>,
    likely: i64,
    turn: u32,
    budget: &mut Budget,
) -> Result<Search<'a>, Stop>
    requires room { length search.objective.region.now.system.rows < 1024 }
    requires search { IsSearch search }
    requires open { search.low <ℤ search.high }
    ensures search { IfOk result (λ s. IsSearch s) }
    ensures objective { IfOk result (λ s. s.objective ≡ search.entry.objective) }
    ensures order { IfOk result (λ s. s.low ≤ℤ s.high) }
    ensures less { IfOk result (λ s. (s.high -ℤ s.low) <ℤ (search.entry.high -ℤ search.entry.low)) }
    ensures later { IsLater budget.old budget.new }
    ensures stop { IfErr result (λ e. e ≡ Stop.Budget → budget.new.limit ≡ Some budget.new.spent) }
{
    let at = next_question(search.low, search.high, likely, turn);
    match reaching(
        alloc,
        search.objective.region,
        search.objective.form,
        at,
        budget,
    )? {
        Some(point) => Ok(raised(search, at, point)),
        None => Ok(lowered(search, at)),
    }
}

/// A search that begins.
fn begun<'a>(objective: &Objective<'a>) -> Search<'a>
    requires { IsObjective objective.now }
    ensures search { IsSearch result }
    ensures objective { result.objective ≡ objective.now }
{
    Search {
        objective: *objective,
        low: objective.floor,
        high: objective.ceiling,
        best: None,
    }
}

/// What a search found that is at its end.
#[tactic(auto, using(crate::proofs::maximum::Bounds::ended))]
fn best_of(search: Search<'_>) -> Option<Best>
    requires search { IsSearch search }
    requires closed { search.high ≤ℤ search.low }
    ensures answer { IsAnswer search.entry.objective.region.now search.entry.objective.form.now search.entry.objective.floor result }
    ensures near { IfSome result (λ b. unsigned_abs b.value ≤ 2 ^ 55) }
{
    search.best
}

/// The number of the next question.
fn next_turn(turn: u32) -> u32 {
    if turn < 5 { turn + 1 } else { turn }
}

/// The greatest value of a form in a region, with a point that attains it, where it is above the floor.
///
/// The form is known to be nowhere above the ceiling. It is asked for at once where a column more fits, else by halves; the likely
/// value then says where to ask early.
pub fn maximum(
    alloc: Global,
    region: &Region,
    form: &Form,
    floor: i64,
    ceiling: i64,
    likely: i64,
    budget: &mut Budget,
) -> Result<Option<Best>, Stop>
    requires measure { IsMeasure region.now.system.columns form.now }
    requires floor_near { unsigned_abs floor ≤ 2 ^ 55 }
    requires ceiling_near { unsigned_abs ceiling ≤ 2 ^ 55 }
    requires room { length region.now.system.rows < 1024 }
    requires bounded { IsBounded region.now form.now ceiling }
    ensures answer { IfOk result (λ o. IsAnswer region.now form.now floor o) }
    ensures near { IfOk result (λ o. IfSome o (λ b. unsigned_abs b.value ≤ 2 ^ 55)) }
    ensures later { IsLater budget.old budget.new }
    ensures stop { IfErr result (λ e. e ≡ Stop.Budget → budget.new.limit ≡ Some budget.new.spent) }
{
    let objective = Objective {
        region,
        form,
        floor,
        ceiling,
    };
    if floor < ceiling && region.system.columns() < MOST_COLUMNS {
        return at_once(alloc, &objective, budget);
    }
    let mut search = begun(&objective);
    let mut turn = 0;
    while search.low < search.high {
        search = step(alloc, search, likely, turn, budget)?;
        turn = next_turn(turn);
    }
    Ok(best_of(search))
}
