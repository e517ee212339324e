//! The decision.
ghost use Rattle.std.specs.Prelude.{◌≡◌, ℕ, ℤ, List, ◌+◌, ◌-◌, ◌*◌, ◌^◌, ◌<◌, ◌≤◌, ◌⊎◌, IfOk, IfErr, IfSome, IfNone, IsTrue, ◌↔◌, OnOk, OnErr, Some, Err, length};
ghost use Rattle.std.specs.List.{All};
ghost use Rattle.affc_system.specs.Systems.{IsPoint, IsRow};
ghost use Rattle.affc_system.specs.Boxes.{IsBox, InBox};
ghost use Rattle.affc_system.specs.Pairs.{WithinReach};
ghost use Rattle.affc_farkas.specs.Proofs.{ValidProof};
ghost use Rattle.affc_leaf.specs.Boxed.{with_box, SplitsAtZero, IsLeafProof, IsHard};
ghost use Rattle.affc_split.specs.Answers.{IfEmpty, IfPoint};
ghost use Rattle.affc_leaf.specs.Points.{points, low_corner, IsLeastPoint};
ghost use Rattle.affc_leaf.specs.Bounds.{IsBound, size};
ghost use Rattle.affc_split.specs.Budgets.{IsLater};
ghost use Rattle.affc_split.specs.Openings.{Opened};
ghost use Rattle.affc_leaf.specs.Parts.{IsLeast, Ready, box_bounds};
ghost use Rattle.affc_split.specs.Searches.{AreFewerFor, Spends};

use crate::budget::{Budget, Stop};
use crate::cuts::with_cuts;
use crate::parts::at_lows;
use crate::search::{Answer, Found, Here, MOST_HALVES, SPARE, inside};
use affc_farkas::Proof;
use affc_leaf::box_cuts::Seen;
use affc_leaf::boxed::{boxed_system, refuted};
use affc_leaf::cuts::has_cut;
use affc_leaf::leaves::{Sight, found_leaf};
use affc_leaf::rounds::seen_by_rounds;
use affc_simplex::{Bound, Vertex};
use affc_system::system::MOST_ROWS;
use affc_system::{BoxOf, System};
use std::alloc::{AllocError, Global};

/// The bounds of a box whose rows come after those of the system.
fn bounds_of(alloc: Global, ranges: &[(i64, i64)], rows: u32) -> Result<Vec<Bound>, AllocError>
    requires few { length ranges.now ≤ 128 }
    requires rows { rows ≤ 1024 }
    ensures { IfOk result (λ v. v.items ≡ box_bounds rows ranges.now) }
{
    let mut bounds = Vec::new(alloc);
    for (j, range) in ranges.iter().enumerate() {
        bounds.push(Bound {
            low: range.0,
            high: range.1,
            low_row: rows + 2 * j as u32,
            high_row: rows + 2 * j as u32 + 1,
        })?;
    }
    Ok(bounds)
}

/// The bounds of the whole box, ready to be searched.
pub(crate) fn whole(
    alloc: Global,
    system: &System,
    ranges: &[(i64, i64)],
) -> Result<Vec<Bound>, Stop>
    requires columns { length ranges.now ≡ system.now.columns }
    requires ordered { IsBox ranges.now }
    requires reach { All WithinReach ranges.now }
    ensures value { IfOk result (λ v. v.items ≡ box_bounds (length system.now.rows) ranges.now) }
    ensures ready { IfOk result (λ v. Ready system.now.columns v.items (length system.now.rows + 2 * system.now.columns) (62 * system.now.columns)) }
    ensures count { IfOk result (λ v. size v.items ≡ points ranges.now) }
    ensures memory { OnErr result (result ≡ Err Stop.Memory) }
{
    let _columns = system.columns();
    let rows = system.rows().len() as u32;
    let bounds = bounds_of(alloc, ranges, rows)?;
    Ok(bounds)
}

/// The number of the first row behind those of a system and of its box.
pub(crate) fn next_row(system: &System) -> u32
    ensures value { result ≡ length system.now.rows + 2 * system.now.columns }
    ensures few { result ≤ 1280 }
    ensures fit { All (IsRow system.now.columns) system.now.rows }
{
    system.rows().len() as u32 + 2 * system.columns()
}

/// Whether both ends of a range are within 2^60.
fn range_fits(range: (i64, i64)) -> bool
    ensures { IsTrue result ↔ WithinReach range }
{
    range.0.unsigned_abs() <= 1 << 60 && range.1.unsigned_abs() <= 1 << 60
}

/// Whether a box is one that `decide` takes: all ends within 2^60.
pub fn within_reach(ranges: &BoxOf) -> bool
    ensures { IsTrue result ↔ All WithinReach ranges.now }
{
    ranges.ranges().iter().all(|r| range_fits(*r))
}

/// What a look at the whole box finds.
#[derive(Drop)]
struct WholeSight {
    leaf: Option<Proof>,
    vertex: Option<Vertex>,
    least: Option<Vec<i64>>,
}

/// A leaf for the whole box, or its least point, found at once.
fn whole_sight(
    alloc: Global,
    system: &System,
    ranges: &[(i64, i64)],
    bounds: &[Bound],
    next: u32,
) -> Result<WholeSight, Stop>
    requires columns { length ranges.now ≡ system.now.columns }
    requires reach { All WithinReach ranges.now }
    requires ranges { All IsBound bounds.now }
    requires bounds { bounds.now ≡ box_bounds (length system.now.rows) ranges.now }
    requires width { length bounds.now ≡ system.now.columns }
    requires next { next ≡ length system.now.rows + 2 * system.now.columns }
    ensures valid { IfOk result (λ s. IfSome s.leaf (λ p. ValidProof (with_box system.now ranges.now) p)) }
    ensures leaf { IfOk result (λ s. IfSome s.leaf IsLeafProof) }
    ensures least { IfOk result (λ s. IfSome s.least (λ x. IsLeast system.now bounds.now x.items)) }
    ensures memory { OnErr result (result ≡ Err Stop.Memory) }
{
    let _rows = system.rows();
    let Sight {
        leaf,
        vertex,
        least,
    } = found_leaf(alloc, system, bounds, next)?;
    match leaf {
        Some(leaf) => Ok(WholeSight {
            leaf: Some(Box::into_inner(leaf)),
            vertex,
            least,
        }),
        None => Ok(WholeSight {
            leaf: None,
            vertex,
            least,
        }),
    }
}

/// A leaf for the whole box by elimination, where the system with the rows of the box isn't too long for it.
fn eliminated(
    alloc: Global,
    system: &System,
    ranges: &[(i64, i64)],
    vertex: Option<&Vertex>,
    next: u32,
) -> Result<Option<Proof>, Stop>
    requires columns { length ranges.now ≡ system.now.columns }
    requires next { next ≡ length system.now.rows + 2 * system.now.columns }
    ensures valid { IfOk result (λ o. IfSome o (λ p. ValidProof (with_box system.now ranges.now) p)) }
    ensures leaf { IfOk result (λ o. IfSome o IsLeafProof) }
    ensures hard { length system.now.rows + 2 * system.now.columns ≤ 1024 → IfOk result (λ o. IfNone o (IsHard (with_box system.now ranges.now))) }
    ensures memory { OnErr result (result ≡ Err Stop.Memory) }
{
    if next > MOST_ROWS as u32 {
        return Ok(None);
    }
    let leaf = refuted(alloc, system, ranges, vertex)?;
    Ok(leaf)
}

/// What is found in the whole box with the cuts of the system's rows.
fn cut_and_searched(
    alloc: Global,
    system: &System,
    ranges: &[(i64, i64)],
    bounds: &[Bound],
    next: u32,
    left: u32,
    budget: &mut Budget,
) -> Result<Answer, Stop>
    requires columns { length ranges.now ≡ system.now.columns }
    requires reach { All WithinReach ranges.now }
    requires bounds { bounds.now ≡ box_bounds (length system.now.rows) ranges.now }
    requires next { next ≡ length system.now.rows + 2 * system.now.columns }
    requires ready { Ready system.now.columns bounds.now next left }
    requires left { left ≤ 8000 }
    requires few { next ≤ 1024 }
    requires count { size bounds.now ≡ points ranges.now }
    ensures empty { IfOk result (λ a. IfEmpty a (λ p. ValidProof (with_box system.now ranges.now) p)) }
    ensures plain { IfOk result (λ a. IfEmpty a SplitsAtZero) }
    ensures point { IfOk result (λ a. IfPoint a (IsLeastPoint system.now ranges.now)) }
    ensures spends { Spends AreFewerFor 0 ranges.now budget.old budget.new result }
{
    let count = system.rows().len();
    let boxed = boxed_system(alloc, system, ranges)?;
    match with_cuts(alloc, boxed, bounds, 0, count, next, left, budget)? {
        Found::Empty(proof) => Ok(Answer::Empty(Box::into_inner(proof))),
        Found::Point(point) => Ok(Answer::Point(point)),
    }
}

/// What is seen of the whole box by cuts at its least rational point.
fn seen_whole(
    alloc: Global,
    system: &System,
    ranges: &[(i64, i64)],
    bounds: &[Bound],
    next: u32,
) -> Result<Option<Answer>, Stop>
    requires columns { length ranges.now ≡ system.now.columns }
    requires reach { All WithinReach ranges.now }
    requires ranges { All IsBound bounds.now }
    requires width { length bounds.now ≡ system.now.columns }
    requires bounds { bounds.now ≡ box_bounds (length system.now.rows) ranges.now }
    requires next { next ≡ length system.now.rows + 2 * system.now.columns }
    ensures empty { IfOk result (λ o. IfSome o (λ a. IfEmpty a (λ p. ValidProof (with_box system.now ranges.now) p))) }
    ensures plain { IfOk result (λ o. IfSome o (λ a. IfEmpty a SplitsAtZero)) }
    ensures point { IfOk result (λ o. IfSome o (λ a. IfPoint a (IsLeastPoint system.now ranges.now))) }
    ensures memory { OnErr result (result ≡ Err Stop.Memory) }
{
    let _rows = system.rows();
    if next >= MOST_ROWS as u32 {
        return Ok(None);
    }
    let boxed = boxed_system(alloc, system, ranges)?;
    match seen_by_rounds(alloc, &boxed, bounds, next)? {
        Seen::Empty(proof) => Ok(Some(Answer::Empty(Box::into_inner(proof)))),
        Seen::Point(point) => Ok(Some(Answer::Point(point))),
        Seen::Nothing => Ok(None),
    }
}

/// What is found in the whole box, after it is opened and nothing is seen of it at once.
fn searched(
    alloc: Global,
    system: &System,
    ranges: &[(i64, i64)],
    bounds: &[Bound],
    next: u32,
    left: u32,
    budget: &mut Budget,
) -> Result<Answer, Stop>
    requires columns { length ranges.now ≡ system.now.columns }
    requires reach { All WithinReach ranges.now }
    requires bounds { bounds.now ≡ box_bounds (length system.now.rows) ranges.now }
    requires next { next ≡ length system.now.rows + 2 * system.now.columns }
    requires ready { Ready system.now.columns bounds.now next left }
    requires spare { (next + left) + 100 < 2 ^ 32 }
    requires left { left ≤ 8000 }
    requires count { size bounds.now ≡ points ranges.now }
    ensures empty { IfOk result (λ a. IfEmpty a (λ p. ValidProof (with_box system.now ranges.now) p)) }
    ensures plain { IfOk result (λ a. IfEmpty a SplitsAtZero) }
    ensures point { IfOk result (λ a. IfPoint a (IsLeastPoint system.now ranges.now)) }
    ensures spends { Spends AreFewerFor 0 ranges.now budget.old budget.new result }
{
    let _rows = system.rows();
    if next < MOST_ROWS as u32 && has_cut(system) {
        return cut_and_searched(alloc, system, ranges, bounds, next, left, budget);
    }
    if let Some(answer) = seen_whole(alloc, system, ranges, bounds, next)? {
        return Ok(answer);
    }
    let here = Here {
        alloc,
        system,
        bounds,
        next,
        left,
        spare: SPARE,
    };
    match inside(&here, budget)? {
        Found::Empty(proof) => Ok(Answer::Empty(Box::into_inner(proof))),
        Found::Point(point) => Ok(Answer::Point(point)),
    }
}

/// What is found of the whole box before it is searched: a leaf, or its least point.
fn found_at_once(
    alloc: Global,
    system: &System,
    ranges: &[(i64, i64)],
    bounds: &[Bound],
    next: u32,
) -> Result<Option<Answer>, Stop>
    requires columns { length ranges.now ≡ system.now.columns }
    requires reach { All WithinReach ranges.now }
    requires ranges { All IsBound bounds.now }
    requires bounds { bounds.now ≡ box_bounds (length system.now.rows) ranges.now }
    requires width { length bounds.now ≡ system.now.columns }
    requires next { next ≡ length system.now.rows + 2 * system.now.columns }
    ensures empty { IfOk result (λ o. IfSome o (λ a. IfEmpty a (λ p. ValidProof (with_box system.now ranges.now) p))) }
    ensures plain { IfOk result (λ o. IfSome o (λ a. IfEmpty a SplitsAtZero)) }
    ensures leaf { IfOk result (λ o. IfSome o (λ a. IfEmpty a (λ p. IsLeafProof p ⊎ IsHard (with_box system.now ranges.now)))) }
    ensures point { IfOk result (λ o. IfSome o (λ a. IfPoint a (IsLeastPoint system.now ranges.now))) }
    ensures hard { length system.now.rows + 2 * system.now.columns ≤ 1024 → IfOk result (λ o. IfNone o (IsHard (with_box system.now ranges.now))) }
    ensures memory { OnErr result (result ≡ Err Stop.Memory) }
{
    let sight = whole_sight(alloc, system, ranges, bounds, next)?;
    let WholeSight {
        leaf,
        vertex,
        least,
    } = sight;
    if let Some(leaf) = leaf {
        return Ok(Some(Answer::Empty(leaf)));
    }
    if let Some(point) = least {
        return Ok(Some(Answer::Point(point)));
    }
    match eliminated(alloc, system, ranges, vertex.as_ref(), next)? {
        Some(leaf) => Ok(Some(Answer::Empty(leaf))),
        None => Ok(None),
    }
}

/// The decision after the whole box is opened, where its low corner is no point.
fn behind_corner(
    alloc: Global,
    system: &System,
    ranges: &[(i64, i64)],
    bounds: &[Bound],
    budget: &mut Budget,
) -> Result<Answer, Stop>
    requires columns { length ranges.now ≡ system.now.columns }
    requires reach { All WithinReach ranges.now }
    requires bounds { bounds.now ≡ box_bounds (length system.now.rows) ranges.now }
    requires ready { Ready system.now.columns bounds.now (length system.now.rows + 2 * system.now.columns) (62 * system.now.columns) }
    requires count { size bounds.now ≡ points ranges.now }
    ensures empty { IfOk result (λ a. IfEmpty a (λ p. ValidProof (with_box system.now ranges.now) p)) }
    ensures plain { IfOk result (λ a. IfEmpty a SplitsAtZero) }
    ensures leaf { length system.now.rows + 2 * system.now.columns ≤ 1024 → IfOk result (λ a. IfEmpty a (λ p. IsLeafProof p ⊎ IsHard (with_box system.now ranges.now))) }
    ensures point { IfOk result (λ a. IfPoint a (IsLeastPoint system.now ranges.now)) }
    ensures spends { Spends AreFewerFor 0 ranges.now budget.old budget.new result }
    ensures unit { length system.now.rows + 2 * system.now.columns ≤ 1024 → (budget.new.spent ≤ budget.old.spent) ⊎ IsHard (with_box system.now ranges.now) }
    ensures hard { length system.now.rows + 2 * system.now.columns ≤ 1024 → IfErr result (λ e. e ≡ Stop.Budget → IsHard (with_box system.now ranges.now)) }
{
    let columns = system.columns();
    let next = next_row(system);
    if let Some(answer) = found_at_once(alloc, system, ranges, bounds, next)? {
        return Ok(answer);
    }
    searched(
        alloc,
        system,
        ranges,
        bounds,
        next,
        MOST_HALVES * columns,
        budget,
    )
}

/// The decision after the whole box is opened.
fn opened(
    alloc: Global,
    system: &System,
    ranges: &[(i64, i64)],
    budget: &mut Budget,
) -> Result<Answer, Stop>
    requires columns { length ranges.now ≡ system.now.columns }
    requires ordered { IsBox ranges.now }
    requires reach { All WithinReach ranges.now }
    ensures empty { IfOk result (λ a. IfEmpty a (λ p. ValidProof (with_box system.now ranges.now) p)) }
    ensures plain { IfOk result (λ a. IfEmpty a SplitsAtZero) }
    ensures leaf { length system.now.rows + 2 * system.now.columns ≤ 1024 → IfOk result (λ a. IfEmpty a (λ p. IsLeafProof p ⊎ IsHard (with_box system.now ranges.now))) }
    ensures point { IfOk result (λ a. IfPoint a (IsLeastPoint system.now ranges.now)) }
    ensures spends { Spends AreFewerFor 0 ranges.now budget.old budget.new result }
    ensures unit { length system.now.rows + 2 * system.now.columns ≤ 1024 → (budget.new.spent ≤ budget.old.spent) ⊎ IsHard (with_box system.now ranges.now) }
    ensures hard { length system.now.rows + 2 * system.now.columns ≤ 1024 → IfErr result (λ e. e ≡ Stop.Budget → IsHard (with_box system.now ranges.now)) }
    ensures corner { IsPoint system.now (low_corner ranges.now) → budget.new.spent ≤ budget.old.spent }
    ensures corner_stop { IfErr result (λ e. e ≡ Stop.Budget → IsPoint system.now (low_corner ranges.now) → ⊥) }
{
    let bounds = whole(alloc, system, ranges)?;
    if let Some(corner) = at_lows(alloc, system, bounds.as_slice())? {
        return Ok(Answer::Point(corner));
    }
    behind_corner(alloc, system, ranges, bounds.as_slice(), budget)
}

/// The decision over a list of ranges.
fn decided(
    alloc: Global,
    system: &System,
    ranges: &[(i64, i64)],
    budget: &mut Budget,
) -> Result<Answer, Stop>
    requires columns { length ranges.now ≡ system.now.columns }
    requires ordered { IsBox ranges.now }
    requires reach { All WithinReach ranges.now }
    ensures empty { IfOk result (λ a. IfEmpty a (λ p. ValidProof (with_box system.now ranges.now) p)) }
    ensures plain { IfOk result (λ a. IfEmpty a SplitsAtZero) }
    ensures leaf { length system.now.rows + 2 * system.now.columns ≤ 1024 → IfOk result (λ a. IfEmpty a (λ p. IsLeafProof p ⊎ IsHard (with_box system.now ranges.now))) }
    ensures point { IfOk result (λ a. IfPoint a (IsLeastPoint system.now ranges.now)) }
    ensures spends { Spends AreFewerFor 1 ranges.now budget.old budget.new result }
    ensures counted { OnOk result ((l : ℕ) → budget.old.limit ≡ Some l → budget.old.spent + 1 ≤ budget.new.spent) }
    ensures unit { length system.now.rows + 2 * system.now.columns ≤ 1024 → (budget.new.spent ≤ budget.old.spent + 1) ⊎ IsHard (with_box system.now ranges.now) }
    ensures corner { IsPoint system.now (low_corner ranges.now) → budget.new.spent ≤ budget.old.spent + 1 }
    ensures corner_stop { IfErr result (λ e. e ≡ Stop.Budget → IsPoint system.now (low_corner ranges.now) → budget.old.limit ≡ Some budget.old.spent) }
    ensures first { budget.old.limit ≡ Some budget.old.spent → result ≡ Err Stop.Budget }
    ensures hard { length system.now.rows + 2 * system.now.columns ≤ 1024 → IfErr result (λ e. e ≡ Stop.Budget → (budget.old.limit ≡ Some budget.old.spent) ⊎ IsHard (with_box system.now ranges.now)) }
{
    budget.open()?;
    opened(alloc, system, ranges, budget)
}

/// Whether the system has an integer point in the box: a proof that it has none, or the lexicographically least one.
///
/// The rows of the box come after those of the system, column by column, low before high.
pub fn decide(
    alloc: Global,
    system: &System,
    ranges: &BoxOf,
    budget: &mut Budget,
) -> Result<Answer, Stop>
    requires columns { length ranges.now ≡ system.now.columns }
    requires reach { All WithinReach ranges.now }

    // The answer.
    ensures none { IfOk result (λ a. IfEmpty a (λ _. (x : List ℤ) → InBox ranges.now x → IsPoint system.now x → ⊥)) }
    ensures empty { IfOk result (λ a. IfEmpty a (λ p. ValidProof (with_box system.now ranges.now) p)) }
    ensures plain { IfOk result (λ a. IfEmpty a SplitsAtZero) }
    ensures leaf { length system.now.rows + 2 * system.now.columns ≤ 1024 → IfOk result (λ a. IfEmpty a (λ p. IsLeafProof p ⊎ IsHard (with_box system.now ranges.now))) }
    ensures point { IfOk result (λ a. IfPoint a (IsLeastPoint system.now ranges.now)) }

    // The budget.
    ensures later { IsLater budget.old budget.new }
    ensures counted { OnOk result ((l : ℕ) → budget.old.limit ≡ Some l → budget.old.spent + 1 ≤ budget.new.spent) }
    ensures cost { budget.new.spent + 1 ≤ budget.old.spent + 2 * points ranges.now }
    ensures opened { IfOk result (λ a. Opened ranges.now budget.old budget.new a) }
    ensures unit { length system.now.rows + 2 * system.now.columns ≤ 1024 → (budget.new.spent ≤ budget.old.spent + 1) ⊎ IsHard (with_box system.now ranges.now) }
    ensures corner { IsPoint system.now (low_corner ranges.now) → budget.new.spent ≤ budget.old.spent + 1 }
    ensures first { budget.old.limit ≡ Some budget.old.spent → result ≡ Err Stop.Budget }
    ensures stop { IfErr result (λ e. e ≡ Stop.Budget → budget.new.limit ≡ Some budget.new.spent) }
    ensures short { IfErr result (λ e. e ≡ Stop.Budget → budget.new.spent + 2 ≤ budget.old.spent + 2 * points ranges.now) }
    ensures hard { length system.now.rows + 2 * system.now.columns ≤ 1024 → IfErr result (λ e. e ≡ Stop.Budget → (budget.old.limit ≡ Some budget.old.spent) ⊎ IsHard (with_box system.now ranges.now)) }
    ensures corner_stop { IfErr result (λ e. e ≡ Stop.Budget → IsPoint system.now (low_corner ranges.now) → budget.old.limit ≡ Some budget.old.spent) }
{
    // The rows keep a system's limits; what a proof says of integer points rests on that.
    let _rows = system.rows();
    let ranges = ranges.ranges();
    decided(alloc, system, ranges, budget)
}
