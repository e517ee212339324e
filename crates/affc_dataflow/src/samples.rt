//! Points where nothing that is known is right, and what helps there. Nothing is promised of it.
ghost use Rattle.std.specs.Prelude.{◌≡◌, IfErr, IsTrue, Some};
ghost use Rattle.std.specs.List.{All};
ghost use Rattle.affc_quast.specs.Paths.{IsNear};
ghost use Rattle.affc_split.specs.Budgets.{IsLater};
ghost use Rattle.affc_dataflow.specs.Searches.{IsLoad};

use crate::asked::{Question, input_questions, source_questions};
use crate::growth::{Growth, Site, fitted_candidate};
use crate::guess::first_open;
use crate::path::Place;
use affc_ast::tree::Instance;
use affc_drafts::{Candidate, through, value_of};
use affc_flow::asking::store_for;
use affc_flow::load::Load;
use affc_flow::questions::{Unasked, gap};
use affc_latest::{Reading, source_of};
use affc_nest::Division;
use affc_order::order::shared;
use affc_rows::Form;
use affc_split::{Answer, Budget, Stop, decide_any, within_reach};
use sqlite_items::Items;
use std::alloc::{AllocError, Global};

// ---- Points.

/// A point of a question, if one is found.
fn point_of(
    alloc: Global,
    question: &Question,
    asks: &mut u32,
    budget: &mut Budget,
) -> Result<Option<Items<i64>>, Stop>
    ensures later { IsLater budget.old budget.new }
    ensures stop { IfErr result (λ e. e ≡ Stop.Budget → budget.new.limit ≡ Some budget.new.spent) }
{
    if *asks == 0 {
        return Ok(None);
    }
    *asks -= 1;
    let (system, ranges) = (&question.system, &question.ranges);
    if ranges.ranges().len() != system.columns() as usize {
        return Ok(None);
    }
    if !within_reach(ranges) {
        return Ok(None);
    }
    match decide_any(alloc, system, ranges, budget)? {
        Answer::Empty(_) => Ok(None),
        Answer::Point(point) => Ok(Some(Items::from_vec(point))),
    }
}

/// A point of the first of these questions that has one. The recursion is into halves.
fn first_point(
    alloc: Global,
    questions: &[Question],
    asks: &mut u32,
    budget: &mut Budget,
) -> Result<Option<Items<i64>>, Stop>
    ensures later { IsLater budget.old budget.new }
    ensures stop { IfErr result (λ e. e ≡ Stop.Budget → budget.new.limit ≡ Some budget.new.spent) }
{
    match questions {
        [] => Ok(None),
        [question] => point_of(alloc, question, asks, budget),
        _ => {
            let (first, others) = questions.split_at(questions.len() / 2);
            let point = first_point(alloc, first, asks, budget)?;
            if point.is_some() {
                return Ok(point);
            }
            first_point(alloc, others, asks, budget)
        }
    }
}

/// The questions whether a candidate is the source.
fn candidate_questions(
    alloc: Global,
    load: &Load<'_>,
    place: &Place<'_>,
    candidate: &Candidate,
) -> Result<Vec<Question>, Unasked>
    requires load { IsLoad load.now.nest.now load.now.reader.now load.now.access.now load.now.number }
{
    let part = candidate.part as usize;
    let Some(writer) = load.nest.entries.as_slice().get(part) else {
        return Ok(Vec::new(alloc));
    };
    if store_for(writer, load.access.array.0).is_none() {
        return Ok(Vec::new(alloc));
    }
    let forms = candidate.forms.as_slice();
    source_questions(alloc, load, place, candidate.part, forms)
}

/// The questions whether a candidate is the source, or without one whether there is none.
fn questions_of(
    alloc: Global,
    load: &Load<'_>,
    place: &Place<'_>,
    candidate: Option<&Candidate>,
) -> Result<Vec<Question>, AllocError>
    requires load { IsLoad load.now.nest.now load.now.reader.now load.now.access.now load.now.number }
{
    let listed = match candidate {
        None => input_questions(alloc, load, place),
        Some(candidate) => candidate_questions(alloc, load, place, candidate),
    };
    match listed {
        Ok(questions) => Ok(questions),
        Err(Unasked::Large) => Ok(Vec::new(alloc)),
        Err(Unasked::Memory) => Err(AllocError),
    }
}

// ---- What is read at a point.

/// Whether numbers are within 2^60.
fn are_near(numbers: &[i64]) -> bool
    ensures { IsTrue result → All IsNear numbers.now }
{
    match numbers {
        [] => true,
        [x, rest @ ..] => {
            if x.unsigned_abs() <= 1152921504606846976 {
                are_near(rest)
            } else {
                false
            }
        }
    }
}

/// The source at a point of the load's parameters and iterators.
fn source_at(
    alloc: Global,
    load: &Load<'_>,
    p: &[i64],
    iterators: &[i64],
    budget: &mut Budget,
) -> Result<Option<Instance>, Stop>
    requires load { IsLoad load.now.nest.now load.now.reader.now load.now.access.now load.now.number }
    ensures later { IsLater budget.old budget.new }
    ensures stop { IfErr result (λ e. e ≡ Stop.Budget → budget.new.limit ≡ Some budget.new.spent) }
{
    let params = load.nest.params.ranges().len();
    if p.len() != params || iterators.len() != load.reader.coordinates() {
        return Ok(None);
    }
    if !are_near(p) || !are_near(iterators) {
        return Ok(None);
    }
    let reading = Reading {
        nest: load.nest,
        reader: load.reader,
        load: load.access,
        p,
        iterators,
    };
    source_of(alloc, &reading, budget)
}

/// The value of a division's quotient.
fn quotient_at(division: &Division, values: &[i128]) -> Option<i128> {
    value_of(&division.form, values)?.checked_div_euclid(i128::from(division.by))
}

/// Adds the values of the quotients of divisions behind those of the load's columns, as far as they are known.
fn add_quotients(divisions: &[Division], values: &mut Items<i128>) -> Result<(), AllocError> {
    for division in divisions {
        let Some(value) = quotient_at(division, values.as_slice()) else {
            return Ok(());
        };
        values.push(value)?;
    }
    Ok(())
}

/// Numbers, wider.
fn wide(alloc: Global, numbers: &[i64]) -> Result<Items<i128>, AllocError> {
    let mut out = Items::new(alloc);
    for x in numbers {
        out.push(i128::from(*x))?;
    }
    Ok(out)
}

/// An instance that the load is known to read at a point.
#[derive(Drop)]
struct Sample {
    /// The values of a path's columns.
    here: Items<i128>,
    iterators: Items<i64>,
    /// The values of the load's columns and of all quotients.
    values: Items<i128>,
    instance: Instance,
}

/// What is read at a point of a path's columns.
fn sample_at(
    alloc: Global,
    load: &Load<'_>,
    site: &Site<'_>,
    divisions: &[Division],
    point: &[i64],
    budget: &mut Budget,
) -> Result<Option<Sample>, Stop>
    requires load { IsLoad load.now.nest.now load.now.reader.now load.now.access.now load.now.number }
    ensures later { IsLater budget.old budget.new }
    ensures stop { IfErr result (λ e. e ≡ Stop.Budget → budget.new.limit ≡ Some budget.new.spent) }
{
    let params = load.nest.params.ranges().len();
    if point.len() < site.first || site.first < params {
        return Ok(None);
    }
    let (own, _behind) = point.split_at(site.first);
    let (p, iterators) = own.split_at(params);
    let Some(instance) = source_at(alloc, load, p, iterators, budget)? else {
        return Ok(None);
    };
    let here = wide(alloc, point)?;
    let mut values = wide(alloc, own)?;
    add_quotients(divisions, &mut values)?;
    let iterators = Items::from_slice(alloc, iterators)?;
    Ok(Some(Sample {
        here,
        iterators,
        values,
        instance,
    }))
}

/// What is read at a point under the path where a candidate isn't the source, or without one where there is a source.
fn sampled(
    alloc: Global,
    load: &Load<'_>,
    site: &Site<'_>,
    growth: &mut Growth,
    candidate: Option<&Candidate>,
    budget: &mut Budget,
) -> Result<Option<Sample>, Stop>
    requires load { IsLoad load.now.nest.now load.now.reader.now load.now.access.now load.now.number }
    ensures later { IsLater budget.old budget.new }
    ensures stop { IfErr result (λ e. e ≡ Stop.Budget → budget.new.limit ≡ Some budget.new.spent) }
{
    if growth.samples == 0 {
        return Ok(None);
    }
    growth.samples -= 1;
    let questions = questions_of(alloc, load, site.place, candidate)?;
    let found = first_point(alloc, questions.as_slice(), &mut growth.asks, budget)?;
    let Some(point) = found else {
        return Ok(None);
    };
    let divisions = growth.divisions.as_slice();
    sample_at(alloc, load, site, divisions, point.as_slice(), budget)
}

// ---- Candidates at a sample.

/// Whether a row is met.
fn is_met(row: &Form, values: &[i128]) -> bool {
    match value_of(row, values) {
        None => false,
        Some(value) => value >= 0,
    }
}

/// Whether forms have these values.
fn have_values(forms: &[Form], iterators: &[i64], values: &[i128]) -> bool {
    forms
        .iter()
        .zip(iterators)
        .all(|(form, x)| value_of(form, values) == Some(i128::from(*x)))
}

/// Whether a candidate names the instance that is read at a sample.
fn names(candidate: &Candidate, sample: &Sample) -> bool {
    let values = sample.values.as_slice();
    let iterators = sample.instance.iterators.as_slice();
    candidate.part == sample.instance.statement
        && have_values(candidate.forms.as_slice(), iterators, values)
        && candidate
            .conditions
            .as_slice()
            .iter()
            .all(|row| is_met(row, values))
}

/// The candidates that name the instance that is read at a sample.
fn naming(
    alloc: Global,
    candidates: &[Candidate],
    sample: &Sample,
) -> Result<Items<usize>, AllocError> {
    let mut out = Items::new(alloc);
    for (i, candidate) in candidates.iter().enumerate() {
        if names(candidate, sample) {
            out.push(i)?;
        }
    }
    Ok(out)
}

// ---- Two instances.

/// Adds the rows that one form is as much greater than another one as it is at a point: equal, or greater. Whether it is equal.
fn add_greater(
    alloc: Global,
    f: &Form,
    g: &Form,
    here: &[i128],
    out: &mut Items<Form>,
) -> Result<bool, Unasked> {
    let row = gap(alloc, g, f, 0)?;
    if value_of(&row, here) != Some(0) {
        let greater = gap(alloc, g, f, 1)?;
        out.push(greater)?;
        return Ok(false);
    }
    out.push(row)?;
    let opposite = gap(alloc, f, g, 0)?;
    out.push(opposite)?;
    Ok(true)
}

/// Adds the rows that the first instance is later than the second one, as it is at a point, of so many loops round both.
fn add_later(
    alloc: Global,
    first: &[Form],
    second: &[Form],
    n: usize,
    here: &[i128],
    out: &mut Items<Form>,
) -> Result<(), Unasked> {
    for (k, (f, g)) in first.iter().zip(second).enumerate() {
        if k >= n || !add_greater(alloc, f, g, here, out)? {
            return Ok(());
        }
    }
    Ok(())
}

/// The rows that the first candidate is later than the second one, as it is at a point.
fn later_rows(
    alloc: Global,
    load: &Load<'_>,
    first: &Candidate,
    second: &Candidate,
    here: &[i128],
) -> Result<Items<Form>, AllocError> {
    let mut out = Items::new(alloc);
    let entries = load.nest.entries.as_slice();
    let (Some(a), Some(b)) = (
        entries.get(first.part as usize),
        entries.get(second.part as usize),
    ) else {
        return Ok(out);
    };
    let n = shared(a.loops.as_slice(), b.loops.as_slice());
    let (fs, gs) = (first.forms.as_slice(), second.forms.as_slice());
    match add_later(alloc, fs, gs, n, here, &mut out) {
        Ok(()) => Ok(out),
        Err(Unasked::Large) => Ok(Items::new(alloc)),
        Err(Unasked::Memory) => Err(AllocError),
    }
}

/// The first of these rows that isn't known under the path.
fn open_row(
    alloc: Global,
    place: &Place<'_>,
    rows: &[Form],
    asks: &mut u32,
    budget: &mut Budget,
) -> Result<Option<Form>, Stop>
    ensures later { IsLater budget.old budget.new }
    ensures stop { IfErr result (λ e. e ≡ Stop.Budget → budget.new.limit ≡ Some budget.new.spent) }
{
    let open = first_open(alloc, place, rows, 0, 0, asks, budget)?;
    let Some(at) = open else {
        return Ok(None);
    };
    match rows.get(at) {
        None => Ok(None),
        Some(row) => {
            let row = row.clone()?;
            Ok(Some(row))
        }
    }
}

/// A test that parts a candidate, by its number, from those that are earlier where it is the source.
#[derive(Drop)]
pub(crate) struct Parting {
    pub(crate) row: Form,
    pub(crate) later: usize,
}

/// The test that parts a candidate from another one, that is wrong at a sample, as they are there.
#[inline(never)]
fn parting_row(
    alloc: Global,
    load: &Load<'_>,
    site: &Site<'_>,
    candidate: &Candidate,
    wrong: &Candidate,
    here: &[i128],
    asks: &mut u32,
    budget: &mut Budget,
) -> Result<Option<Form>, Stop>
    ensures later { IsLater budget.old budget.new }
    ensures stop { IfErr result (λ e. e ≡ Stop.Budget → budget.new.limit ≡ Some budget.new.spent) }
{
    let own = fitted_candidate(alloc, candidate, site)?;
    let rows = later_rows(alloc, load, &own, wrong, here)?;
    open_row(alloc, site.place, rows.as_slice(), asks, budget)
}

/// The test that parts the first of these candidates that can be parted from another one, that is wrong at a sample.
fn first_parting(
    alloc: Global,
    load: &Load<'_>,
    site: &Site<'_>,
    growth: &mut Growth,
    there: &[usize],
    wrong: &Candidate,
    sample: &Sample,
    budget: &mut Budget,
) -> Result<Option<Parting>, Stop>
    ensures later { IsLater budget.old budget.new }
    ensures stop { IfErr result (λ e. e ≡ Stop.Budget → budget.new.limit ≡ Some budget.new.spent) }
{
    for later in there {
        let number = *later;
        let Some(candidate) = growth.candidates.get(number) else {
            return Ok(None);
        };
        let here = sample.here.as_slice();
        let asks = &mut growth.asks;
        let found = parting_row(alloc, load, site, candidate, wrong, here, asks, budget)?;
        if let Some(row) = found {
            return Ok(Some(Parting { row, later: number }));
        }
    }
    Ok(None)
}

// ---- Help.

/// What helps where nothing is right.
#[derive(Drop)]
pub(crate) enum Help {
    Nothing,
    /// These candidates.
    Further(Items<usize>),
    /// A test.
    Parted(Parting),
}

/// Adds candidates to those that are known, and answers their numbers.
fn add_known(
    alloc: Global,
    made: Vec<Candidate>,
    growth: &mut Growth,
) -> Result<Items<usize>, AllocError> {
    let mut more = Items::new(alloc);
    for candidate in made {
        more.push(growth.candidates.len())?;
        let Ok(()) = growth.candidates.push(candidate) else {
            return Err(AllocError);
        };
    }
    Ok(more)
}

/// Candidates that name the instance at a sample: those that are known, or else new ones.
fn further(
    alloc: Global,
    load: &Load<'_>,
    growth: &mut Growth,
    there: Items<usize>,
    sample: &Sample,
) -> Result<Help, AllocError> {
    if !there.is_empty() {
        return Ok(Help::Further(there));
    }
    let made = through(
        alloc,
        load,
        sample.iterators.as_slice(),
        sample.values.as_slice(),
        &sample.instance,
        &mut growth.divisions,
    )?;
    let more = add_known(alloc, made, growth)?;
    if more.is_empty() {
        return Ok(Help::Nothing);
    }
    Ok(Help::Further(more))
}

/// The numbers that stand in both lists.
fn common(alloc: Global, first: &[usize], second: &[usize]) -> Result<Items<usize>, AllocError> {
    let mut out = Items::new(alloc);
    for i in first {
        if second.iter().any(|j| *j == *i) {
            out.push(*i)?;
        }
    }
    Ok(out)
}

/// A candidate over the columns of a path.
fn known_here(
    alloc: Global,
    site: &Site<'_>,
    candidates: &[Candidate],
    at: Option<&usize>,
) -> Result<Option<Candidate>, AllocError> {
    let Some(i) = at else {
        return Ok(None);
    };
    match candidates.get(*i) {
        None => Ok(None),
        Some(candidate) => {
            let own = fitted_candidate(alloc, candidate, site)?;
            Ok(Some(own))
        }
    }
}

/// The test that helps at a sample where one of the candidates that are held is wrong, and others name the instance.
#[inline(never)]
fn parted(
    alloc: Global,
    load: &Load<'_>,
    site: &Site<'_>,
    growth: &mut Growth,
    others: &[usize],
    wrong: Option<&Candidate>,
    sample: &Sample,
    budget: &mut Budget,
) -> Result<Help, Stop>
    ensures later { IsLater budget.old budget.new }
    ensures stop { IfErr result (λ e. e ≡ Stop.Budget → budget.new.limit ≡ Some budget.new.spent) }
{
    let Some(wrong) = wrong else {
        return Ok(Help::Nothing);
    };
    match first_parting(alloc, load, site, growth, others, wrong, sample, budget)? {
        None => Ok(Help::Nothing),
        Some(parting) => Ok(Help::Parted(parting)),
    }
}

/// What helps at a sample where one of the candidates that are held is wrong.
#[inline(never)]
fn help_by(
    alloc: Global,
    load: &Load<'_>,
    site: &Site<'_>,
    growth: &mut Growth,
    held: &[usize],
    wrong: Option<&Candidate>,
    sample: &Sample,
    budget: &mut Budget,
) -> Result<Help, Stop>
    ensures later { IsLater budget.old budget.new }
    ensures stop { IfErr result (λ e. e ≡ Stop.Budget → budget.new.limit ≡ Some budget.new.spent) }
{
    let there = naming(alloc, growth.candidates.as_slice(), sample)?;
    let others = common(alloc, there.as_slice(), held)?;
    if others.is_empty() {
        let help = further(alloc, load, growth, there, sample)?;
        return Ok(help);
    }
    parted(
        alloc,
        load,
        site,
        growth,
        others.as_slice(),
        wrong,
        sample,
        budget,
    )
}

/// What helps at a point where one of the candidates that are held is wrong; without one, where there is a source.
fn help_at(
    alloc: Global,
    load: &Load<'_>,
    site: &Site<'_>,
    growth: &mut Growth,
    held: &[usize],
    at: usize,
    budget: &mut Budget,
) -> Result<Help, Stop>
    requires load { IsLoad load.now.nest.now load.now.reader.now load.now.access.now load.now.number }
    ensures later { IsLater budget.old budget.new }
    ensures stop { IfErr result (λ e. e ≡ Stop.Budget → budget.new.limit ≡ Some budget.new.spent) }
{
    let known = known_here(alloc, site, growth.candidates.as_slice(), held.get(at))?;
    let wrong = known.as_ref();
    let Some(sample) = sampled(alloc, load, site, growth, wrong, budget)? else {
        return Ok(Help::Nothing);
    };
    help_by(alloc, load, site, growth, held, wrong, &sample, budget)
}

/// What helps where none of the candidates that are held is right; with none held, where there is a source.
pub(crate) fn helped(
    alloc: Global,
    load: &Load<'_>,
    site: &Site<'_>,
    growth: &mut Growth,
    held: &[usize],
    budget: &mut Budget,
) -> Result<Help, Stop>
    requires load { IsLoad load.now.nest.now load.now.reader.now load.now.access.now load.now.number }
    ensures later { IsLater budget.old budget.new }
    ensures stop { IfErr result (λ e. e ≡ Stop.Budget → budget.new.limit ≡ Some budget.new.spent) }
{
    for at in 0..held.len().max(1) {
        match help_at(alloc, load, site, growth, held, at, budget)? {
            Help::Nothing => {}
            help => return Ok(help),
        }
    }
    Ok(Help::Nothing)
}
