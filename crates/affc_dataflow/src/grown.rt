//! Trees that grow by samples: where no candidate is right, the source at a point there tells a further one.
ghost use Rattle.std.specs.Prelude.{◌≡◌, ◌^◌, ◌≤ℤ◌, pos, length, IfOk, IfErr, IfSome, Some};
ghost use Rattle.affc_split.specs.Budgets.{IsLater};
ghost use Rattle.affc_quast.specs.Limits.{narrow, FitsForm};
ghost use Rattle.affc_quast.specs.Seen.{seen};
ghost use Rattle.affc_dataflow.specs.Guesses.{CoversOn};
ghost use Rattle.affc_dataflow.specs.Moves.{IfStepLeaf, IfLeaf};
ghost use Rattle.affc_dataflow.specs.Searches.{Covers, IsLoad};

use crate::divided::{above, rows_behind};
use crate::growth::{
    Growth, Site, both, candidates_again, first_numbers, fitted, fitted_candidate, missing,
    missing_division,
};
use crate::guess::{Depth, first_open, has_none_with, joined, leaf_of, sides_of};
use crate::path::Place;
use crate::samples::{Help, Parting, helped};
use crate::tested::{input_leaf, is_narrow};
use affc_drafts::{Candidate, Guess, ROOM, drafts};
use affc_flow::load::Load;
use affc_nest::Division;
use affc_quast::Quast;
use affc_rows::Form;
use affc_split::{Budget, Stop};
use affc_system::BoxOf;
use sqlite_items::Items;
use std::alloc::{AllocError, Global};

/// How many systems may be asked of for one tree of a box.
const MOST_ASKS: u32 = 6000;

/// The most samples for one tree of a box.
const MOST_SAMPLES: u32 = 60;

/// The most samples at one place.
const MOST_TURNS: u32 = 24;

/// The most divisions above a leaf.
const MOST_DIVISIONS: u32 = 12;

/// The greatest divisor.
const MOST_BY: i64 = 1 << 20;

/// How often a tree is grown again.
const MOST_AGAIN: u32 = 2;

// ---- What is to be done with a candidate.

/// What is to be done with a candidate.
#[derive(Drop)]
pub(crate) enum Step {
    Leaf(Quast),
    /// A condition of it, the one at this place, isn't known.
    Open { at: usize, row: Form },
    /// It names this division, which the path doesn't have.
    Division(usize),
    /// It is an instance, but not the source.
    Held,
    /// It is nowhere an instance.
    Excluded,
}

/// What is to be done with a candidate of whose conditions the first few are known, and which is over a path's columns.
fn step_with(
    alloc: Global,
    load: &Load<'_>,
    place: &Place<'_>,
    candidate: &Candidate,
    known: usize,
    asks: &mut u32,
    budget: &mut Budget,
) -> Result<Step, Stop>
    requires load { IsLoad load.now.nest.now load.now.reader.now load.now.access.now load.now.number }
    ensures right { IfOk result (λ s. IfStepLeaf s (λ t. CoversOn load.now.nest.now load.now.reader.now load.now.access.now place.now.path.now place.now.ranges.now 0 0 (seen t))) }
    ensures later { IsLater budget.old budget.new }
    ensures stop { IfErr result (λ e. e ≡ Stop.Budget → budget.new.limit ≡ Some budget.new.spent) }
{
    let rows = candidate.conditions.as_slice();
    if known == 0 && has_none_with(alloc, place, rows, asks, budget)? {
        return Ok(Step::Excluded);
    }
    let open = first_open(alloc, place, rows, known, 0, asks, budget)?;
    if let Some(at) = open {
        let Some(row) = rows.get(at) else {
            return Ok(Step::Excluded);
        };
        let row = row.clone()?;
        return Ok(Step::Open { at, row });
    }
    match leaf_of(alloc, load, place, candidate, asks, budget)? {
        None => Ok(Step::Held),
        Some(leaf) => Ok(Step::Leaf(leaf)),
    }
}

/// What is to be done with a candidate, by its number, of whose conditions the first few are known.
fn next_step(
    alloc: Global,
    load: &Load<'_>,
    site: &Site<'_>,
    growth: &mut Growth,
    number: usize,
    known: usize,
    budget: &mut Budget,
) -> Result<Step, Stop>
    requires load { IsLoad load.now.nest.now load.now.reader.now load.now.access.now load.now.number }
    ensures right { IfOk result (λ s. IfStepLeaf s (λ t. CoversOn load.now.nest.now load.now.reader.now load.now.access.now site.now.place.now.path.now site.now.place.now.ranges.now 0 0 (seen t))) }
    ensures later { IsLater budget.old budget.new }
    ensures stop { IfErr result (λ e. e ≡ Stop.Budget → budget.new.limit ≡ Some budget.new.spent) }
{
    let Some(candidate) = growth.candidates.get(number) else {
        return Ok(Step::Excluded);
    };
    if let Some(division) = missing_division(candidate, site) {
        return Ok(Step::Division(division));
    }
    let own = fitted_candidate(alloc, candidate, site)?;
    let asks = &mut growth.asks;
    step_with(alloc, load, site.place, &own, known, asks, budget)
}

// ---- What is to be done under a path.

/// Candidates in turn, by their numbers; of the first one's conditions the first few are known.
#[derive(Drop)]
pub(crate) struct Queue {
    list: Items<usize>,
    known: usize,
}

/// A test, and the candidates in turn on both sides of it.
#[derive(Drop)]
pub(crate) struct Test {
    row: Form,
    yes: Queue,
    no: Queue,
}

/// What is to be done under a path.
#[derive(Drop)]
pub(crate) enum Move {
    Leaf(Quast),
    Test(Test),
    /// This division, and the candidates in turn below it.
    Division { wanted: usize, queue: Queue },
    /// These candidates should be looked at.
    Again(Queue),
    Nothing,
}

/// The test of a candidate's condition: beside it are the others.
fn test_at(
    alloc: Global,
    row: Form,
    known: usize,
    number: usize,
    others: Items<usize>,
) -> Result<Test, AllocError> {
    let list = both(alloc, &[number], others.as_slice())?;
    Ok(Test {
        row,
        yes: Queue { list, known },
        no: Queue {
            list: others,
            known: 0,
        },
    })
}

/// A candidate, by its number and its place in a list, and what is to be done with it.
#[derive(Drop)]
struct Found {
    number: usize,
    place: usize,
    step: Step,
}

/// The numbers of a list from a place on.
fn behind(list: &[usize], place: usize) -> &[usize] {
    if place > list.len() {
        return &[];
    }
    let (_before, behind) = list.split_at(place);
    behind
}

/// The first of these candidates with which there is something to do; of the first one's conditions the first few are known.
/// Those that are instances but not the source are held.
fn first_step(
    alloc: Global,
    load: &Load<'_>,
    site: &Site<'_>,
    growth: &mut Growth,
    queue: &Queue,
    held: &mut Items<usize>,
    budget: &mut Budget,
) -> Result<Option<Found>, Stop>
    requires load { IsLoad load.now.nest.now load.now.reader.now load.now.access.now load.now.number }
    ensures right { IfOk result (λ o. IfSome o (λ f. IfStepLeaf f.step (λ t. CoversOn load.now.nest.now load.now.reader.now load.now.access.now site.now.place.now.path.now site.now.place.now.ranges.now 0 0 (seen t)))) }
    ensures later { IsLater budget.old budget.new }
    ensures stop { IfErr result (λ e. e ≡ Stop.Budget → budget.new.limit ≡ Some budget.new.spent) }
{
    for (place, number) in queue.list.as_slice().iter().enumerate() {
        let known = if place == 0 { queue.known } else { 0 };
        let number = *number;
        match next_step(alloc, load, site, growth, number, known, budget)? {
            Step::Excluded => {}
            Step::Held => held.push(number)?,
            step => {
                return Ok(Some(Found {
                    number,
                    place,
                    step,
                }));
            }
        }
    }
    Ok(None)
}

/// What is to be done with these candidates under a path; those that are instances but not the source are held.
fn look(
    alloc: Global,
    load: &Load<'_>,
    site: &Site<'_>,
    growth: &mut Growth,
    queue: &Queue,
    held: &mut Items<usize>,
    budget: &mut Budget,
) -> Result<Move, Stop>
    requires load { IsLoad load.now.nest.now load.now.reader.now load.now.access.now load.now.number }
    ensures right { IfOk result (λ m. IfLeaf m (λ t. CoversOn load.now.nest.now load.now.reader.now load.now.access.now site.now.place.now.path.now site.now.place.now.ranges.now 0 0 (seen t))) }
    ensures later { IsLater budget.old budget.new }
    ensures stop { IfErr result (λ e. e ≡ Stop.Budget → budget.new.limit ≡ Some budget.new.spent) }
{
    let Some(found) = first_step(alloc, load, site, growth, queue, held, budget)? else {
        return Ok(Move::Nothing);
    };
    let Found {
        number,
        place,
        step,
    } = found;
    let list = queue.list.as_slice();
    match step {
        Step::Leaf(leaf) => {
            growth.used.push(number)?;
            Ok(Move::Leaf(leaf))
        }
        Step::Open { at, row } => {
            let rest = behind(list, place.saturating_add(1));
            let others = both(alloc, held.as_slice(), rest)?;
            let test = test_at(alloc, row, at.saturating_add(1), number, others)?;
            Ok(Move::Test(test))
        }
        Step::Division(wanted) => {
            let list = both(alloc, held.as_slice(), behind(list, place))?;
            let queue = Queue { list, known: 0 };
            Ok(Move::Division { wanted, queue })
        }
        Step::Held => Ok(Move::Nothing),
        Step::Excluded => Ok(Move::Nothing),
    }
}

/// What a sample tells, where none of the candidates is right; these are held.
fn move_by(
    alloc: Global,
    load: &Load<'_>,
    site: &Site<'_>,
    growth: &mut Growth,
    held: Items<usize>,
    budget: &mut Budget,
) -> Result<Move, Stop>
    requires load { IsLoad load.now.nest.now load.now.reader.now load.now.access.now load.now.number }
    ensures right { IfOk result (λ m. IfLeaf m (λ t. CoversOn load.now.nest.now load.now.reader.now load.now.access.now site.now.place.now.path.now site.now.place.now.ranges.now 0 0 (seen t))) }
    ensures later { IsLater budget.old budget.new }
    ensures stop { IfErr result (λ e. e ≡ Stop.Budget → budget.new.limit ≡ Some budget.new.spent) }
{
    match helped(alloc, load, site, growth, held.as_slice(), budget)? {
        Help::Nothing => Ok(Move::Nothing),
        Help::Further(more) => {
            let list = both(alloc, more.as_slice(), held.as_slice())?;
            Ok(Move::Again(Queue { list, known: 0 }))
        }
        Help::Parted(parting) => {
            let Parting { row, later } = parting;
            let test = test_at(alloc, row, 0, later, held)?;
            Ok(Move::Test(test))
        }
    }
}

/// What is to be done where none of the candidates is right; these are held.
fn stuck(
    alloc: Global,
    load: &Load<'_>,
    site: &Site<'_>,
    growth: &mut Growth,
    held: Items<usize>,
    budget: &mut Budget,
) -> Result<Move, Stop>
    requires load { IsLoad load.now.nest.now load.now.reader.now load.now.access.now load.now.number }
    ensures right { IfOk result (λ m. IfLeaf m (λ t. CoversOn load.now.nest.now load.now.reader.now load.now.access.now site.now.place.now.path.now site.now.place.now.ranges.now 0 0 (seen t))) }
    ensures later { IsLater budget.old budget.new }
    ensures stop { IfErr result (λ e. e ≡ Stop.Budget → budget.new.limit ≡ Some budget.new.spent) }
{
    if held.is_empty() {
        let leaf = input_leaf(alloc, load, site.place, &mut growth.asks, budget)?;
        if let Some(leaf) = leaf {
            return Ok(Move::Leaf(leaf));
        }
    }
    move_by(alloc, load, site, growth, held, budget)
}

/// What is to be done with these candidates under a path, and with further ones, which are looked for so many times; of the
/// first one's conditions the first few are known.
fn next_move(
    alloc: Global,
    load: &Load<'_>,
    site: &Site<'_>,
    growth: &mut Growth,
    queue: &Queue,
    turns: u32,
    budget: &mut Budget,
) -> Result<Move, Stop>
    requires load { IsLoad load.now.nest.now load.now.reader.now load.now.access.now load.now.number }
    ensures right { IfOk result (λ m. IfLeaf m (λ t. CoversOn load.now.nest.now load.now.reader.now load.now.access.now site.now.place.now.path.now site.now.place.now.ranges.now 0 0 (seen t))) }
    ensures later { IsLater budget.old budget.new }
    ensures stop { IfErr result (λ e. e ≡ Stop.Budget → budget.new.limit ≡ Some budget.new.spent) }
{
    let mut held = Items::new(alloc);
    match look(alloc, load, site, growth, queue, &mut held, budget)? {
        Move::Nothing => {}
        found => return Ok(found),
    }
    if turns == 0 {
        return Ok(Move::Nothing);
    }
    let queue = match stuck(alloc, load, site, growth, held, budget)? {
        Move::Again(queue) => queue,
        found => return Ok(found),
    };
    next_move(alloc, load, site, growth, &queue, turns - 1, budget)
}

// ---- Trees.

/// The tree of a test, if one is found on both sides.
#[cycle(trees)]
fn parted(
    alloc: Global,
    load: &Load<'_>,
    site: &Site<'_>,
    growth: &mut Growth,
    test: &Test,
    depth: Depth,
    budget: &mut Budget,
) -> Result<Option<Quast>, Stop>
    requires load { IsLoad load.now.nest.now load.now.reader.now load.now.access.now load.now.number }
    ensures right { IfOk result (λ o. IfSome o (λ t. CoversOn load.now.nest.now load.now.reader.now load.now.access.now site.now.place.now.path.now site.now.place.now.ranges.now depth.left depth.divisions (seen t))) }
    ensures later { IsLater budget.old budget.new }
    ensures stop { IfErr result (λ e. e ≡ Stop.Budget → budget.new.limit ≡ Some budget.new.spent) }
{
    if depth.left == 0 || growth.asks == 0 {
        return Ok(None);
    }
    let Some(sides) = sides_of(alloc, site.place.path, &test.row)? else {
        return Ok(None);
    };
    let Depth { left, divisions } = depth;
    let rest = Depth {
        left: left - 1,
        divisions,
    };
    let ranges = site.place.ranges;
    let path = &sides.yes;
    let place = Place { path, ranges };
    let on = Site {
        place: &place,
        first: site.first,
        present: site.present,
    };
    let yes = grow(alloc, load, &on, growth, &test.yes, rest, budget)?;
    let Some(yes) = yes else {
        return Ok(None);
    };
    let path = &sides.no;
    let place = Place { path, ranges };
    let off = Site {
        place: &place,
        first: site.first,
        present: site.present,
    };
    let no = grow(alloc, load, &off, growth, &test.no, rest, budget)?;
    let Some(no) = no else {
        return Ok(None);
    };
    let tree = joined(alloc, load, site.place, depth, sides, yes, no)?;
    Ok(Some(tree))
}

/// The first division that has to stand above one, or that one: it names none that the path doesn't have.
fn innermost(divisions: &[Division], site: &Site<'_>, wanted: usize, steps: u32) -> Option<usize> {
    let division = divisions.get(wanted)?;
    match missing(&division.form, site) {
        None => Some(wanted),
        Some(before) => {
            if steps == 0 {
                return None;
            }
            innermost(divisions, site, before, steps - 1)
        }
    }
}

/// A division over the columns of a path, and its number.
#[derive(Drop)]
struct Wanted {
    number: usize,
    division: Division,
}

/// The division that has to be made that one may be, if it keeps the limits.
fn wanted_division(
    alloc: Global,
    site: &Site<'_>,
    divisions: &[Division],
    wanted: usize,
) -> Result<Option<Wanted>, AllocError>
    ensures by { IfOk result (λ o. IfSome o (λ w. pos 1 ≤ℤ w.division.by)) }
    ensures small { IfOk result (λ o. IfSome o (λ w. w.division.by ≤ℤ pos (2 ^ 20))) }
    ensures fits { IfOk result (λ o. IfSome o (λ w. FitsForm narrow w.division.form)) }
    ensures wide { IfOk result (λ o. IfSome o (λ w. length w.division.form.coefs ≡ site.now.place.now.path.now.columns)) }
{
    let Some(number) = innermost(divisions, site, wanted, ROOM) else {
        return Ok(None);
    };
    let Some(division) = divisions.get(number) else {
        return Ok(None);
    };
    let form = fitted(alloc, &division.form, site)?;
    let by = division.by;
    if by < 1 || by > MOST_BY || !is_narrow(&form) {
        return Ok(None);
    }
    if form.coefs.len() != site.place.path.columns() as usize {
        return Ok(None);
    }
    let division = Division { form, by };
    Ok(Some(Wanted { number, division }))
}

/// The tree of a division, if one is found below it.
#[cycle(trees)]
fn below(
    alloc: Global,
    load: &Load<'_>,
    site: &Site<'_>,
    growth: &mut Growth,
    wanted: usize,
    queue: &Queue,
    depth: Depth,
    budget: &mut Budget,
) -> Result<Option<Quast>, Stop>
    requires load { IsLoad load.now.nest.now load.now.reader.now load.now.access.now load.now.number }
    ensures right { IfOk result (λ o. IfSome o (λ t. CoversOn load.now.nest.now load.now.reader.now load.now.access.now site.now.place.now.path.now site.now.place.now.ranges.now depth.left depth.divisions (seen t))) }
    ensures later { IsLater budget.old budget.new }
    ensures stop { IfErr result (λ e. e ≡ Stop.Budget → budget.new.limit ≡ Some budget.new.spent) }
{
    let Depth { left, divisions } = depth;
    if left == 0 || divisions == 0 {
        return Ok(None);
    }
    let known = growth.divisions.as_slice();
    let Some(made) = wanted_division(alloc, site, known, wanted)? else {
        return Ok(None);
    };
    let Wanted { number, division } = made;
    let Some(behind) = rows_behind(alloc, site.place, &division.form, division.by)? else {
        return Ok(None);
    };
    let place = Place {
        path: &behind.path,
        ranges: &behind.ranges,
    };
    let mut present = Items::from_slice(alloc, site.present)?;
    present.push(number)?;
    let there = Site {
        place: &place,
        first: site.first,
        present: present.as_slice(),
    };
    let rest = Depth {
        left: left - 1,
        divisions: divisions - 1,
    };
    let tree = grow(alloc, load, &there, growth, queue, rest, budget)?;
    let Some(tree) = tree else {
        return Ok(None);
    };
    let whole = above(alloc, load, site.place, &division, depth, tree, &behind)?;
    Ok(Some(whole))
}

/// A tree of these candidates in turn under a path, and of further ones, if one is found.
#[cycle(trees)]
fn grow(
    alloc: Global,
    load: &Load<'_>,
    site: &Site<'_>,
    growth: &mut Growth,
    queue: &Queue,
    depth: Depth,
    budget: &mut Budget,
) -> Result<Option<Quast>, Stop>
    requires load { IsLoad load.now.nest.now load.now.reader.now load.now.access.now load.now.number }
    ensures right { IfOk result (λ o. IfSome o (λ t. CoversOn load.now.nest.now load.now.reader.now load.now.access.now site.now.place.now.path.now site.now.place.now.ranges.now depth.left depth.divisions (seen t))) }
    ensures later { IsLater budget.old budget.new }
    ensures stop { IfErr result (λ e. e ≡ Stop.Budget → budget.new.limit ≡ Some budget.new.spent) }
{
    match next_move(alloc, load, site, growth, queue, MOST_TURNS, budget)? {
        Move::Leaf(leaf) => Ok(Some(leaf)),
        Move::Test(test) => parted(alloc, load, site, growth, &test, depth, budget),
        Move::Division { wanted, queue } => {
            below(alloc, load, site, growth, wanted, &queue, depth, budget)
        }
        Move::Again(_queue) => Ok(None),
        Move::Nothing => Ok(None),
    }
}

// ---- The box.

/// How many nodes a tree has.
fn size_of(tree: &Quast) -> u32 {
    match tree {
        Quast::Test {
            form: _form,
            yes,
            no,
        } => size_of(yes).saturating_add(size_of(no)).saturating_add(1),
        Quast::Div {
            form: _form,
            by: _by,
            rest,
        } => size_of(rest).saturating_add(1),
        Quast::Source {
            part: _part,
            forms: _forms,
        } => 1,
        Quast::Input => 1,
    }
}

/// A tree of these candidates, and of further ones, if one is found.
fn tree_of(
    alloc: Global,
    load: &Load<'_>,
    place: &Place<'_>,
    growth: &mut Growth,
    list: Items<usize>,
    left: u32,
    budget: &mut Budget,
) -> Result<Option<Quast>, Stop>
    requires load { IsLoad load.now.nest.now load.now.reader.now load.now.access.now load.now.number }
    ensures right { IfOk result (λ o. IfSome o (λ t. CoversOn load.now.nest.now load.now.reader.now load.now.access.now place.now.path.now place.now.ranges.now left 12 (seen t))) }
    ensures later { IsLater budget.old budget.new }
    ensures stop { IfErr result (λ e. e ≡ Stop.Budget → budget.new.limit ≡ Some budget.new.spent) }
{
    growth.used = Items::new(alloc);
    growth.asks = MOST_ASKS;
    growth.samples = MOST_SAMPLES;
    let site = Site {
        place,
        first: load.reader.domain.columns() as usize,
        present: &[],
    };
    let queue = Queue { list, known: 0 };
    let depth = Depth {
        left,
        divisions: MOST_DIVISIONS,
    };
    grow(alloc, load, &site, growth, &queue, depth, budget)
}

/// A tree of the candidates of the last tree's leaves, if one with fewer nodes is found.
#[inline(never)]
fn tree_again(
    alloc: Global,
    load: &Load<'_>,
    place: &Place<'_>,
    growth: &mut Growth,
    nodes: u32,
    left: u32,
    budget: &mut Budget,
) -> Result<Option<Quast>, Stop>
    requires load { IsLoad load.now.nest.now load.now.reader.now load.now.access.now load.now.number }
    ensures right { IfOk result (λ o. IfSome o (λ t. CoversOn load.now.nest.now load.now.reader.now load.now.access.now place.now.path.now place.now.ranges.now left 12 (seen t))) }
    ensures later { IsLater budget.old budget.new }
    ensures stop { IfErr result (λ e. e ≡ Stop.Budget → budget.new.limit ≡ Some budget.new.spent) }
{
    let Some(list) = candidates_again(alloc, growth)? else {
        return Ok(None);
    };
    let again = tree_of(alloc, load, place, growth, list, left, budget)?;
    let Some(next) = again else {
        return Ok(None);
    };
    if size_of(&next) < nodes {
        return Ok(Some(next));
    }
    Ok(None)
}

/// A tree that has been grown, or a smaller one of the candidates of its leaves; it is tried so many times.
fn smaller(
    alloc: Global,
    load: &Load<'_>,
    place: &Place<'_>,
    growth: &mut Growth,
    tree: Quast,
    times: u32,
    left: u32,
    budget: &mut Budget,
) -> Result<Quast, Stop>
    requires load { IsLoad load.now.nest.now load.now.reader.now load.now.access.now load.now.number }
    requires right { CoversOn load.now.nest.now load.now.reader.now load.now.access.now place.now.path.now place.now.ranges.now left 12 (seen tree) }
    ensures right { IfOk result (λ t. CoversOn load.now.nest.now load.now.reader.now load.now.access.now place.now.path.now place.now.ranges.now left 12 (seen t)) }
    ensures later { IsLater budget.old budget.new }
    ensures stop { IfErr result (λ e. e ≡ Stop.Budget → budget.new.limit ≡ Some budget.new.spent) }
{
    if times == 0 {
        return Ok(tree);
    }
    let nodes = size_of(&tree);
    match tree_again(alloc, load, place, growth, nodes, left, budget)? {
        None => Ok(tree),
        Some(next) => smaller(alloc, load, place, growth, next, times - 1, left, budget),
    }
}

/// The instances that are drafted at first.
fn begun(alloc: Global, load: &Load<'_>) -> Result<Growth, AllocError> {
    let Guess {
        divisions,
        candidates,
    } = drafts(alloc, load)?;
    Ok(Growth {
        candidates,
        divisions,
        used: Items::new(alloc),
        asks: 0,
        samples: 0,
    })
}

/// A tree for the box, if one is found.
pub(crate) fn guessed(
    alloc: Global,
    load: &Load<'_>,
    ranges: &BoxOf,
    left: u32,
    budget: &mut Budget,
) -> Result<Option<Quast>, Stop>
    requires load { IsLoad load.now.nest.now load.now.reader.now load.now.access.now load.now.number }
    ensures right { IfOk result (λ o. IfSome o (λ t. Covers load.now.nest.now load.now.reader.now load.now.access.now ranges.now left (seen t))) }
    ensures later { IsLater budget.old budget.new }
    ensures stop { IfErr result (λ e. e ≡ Stop.Budget → budget.new.limit ≡ Some budget.new.spent) }
{
    let place = Place {
        path: &load.reader.domain,
        ranges,
    };
    let mut growth = begun(alloc, load)?;
    let list = first_numbers(alloc, growth.candidates.len())?;
    let tree = tree_of(alloc, load, &place, &mut growth, list, left, budget)?;
    let Some(tree) = tree else {
        return Ok(None);
    };
    let best = smaller(
        alloc,
        load,
        &place,
        &mut growth,
        tree,
        MOST_AGAIN,
        left,
        budget,
    )?;
    Ok(Some(best))
}
