//! Drafts that a sample directs: an instance that a load is known to read at a point. Nothing is promised of them.
//!
//! Equations are solved over the whole numbers: where each iterator in them has a coefficient, one is turned into itself and
//! some times another, until some coefficient is 1 or only one is left, which a division tells. Of the iterators that are left,
//! from the outer on, each is as late as that row lets it be that comes nearest to the sample; rounded down, less the distance
//! at the sample. Before these stands the draft that is as far from the load everywhere as the instance is at the sample, where that
//! stores what is read: it wants no division.

use crate::candidates::{Candidate, add_candidate};
use crate::draft::{Drafting, Drafts, Work, arranged, open_column, posed, rows_at};
use crate::solved::{
    Solved, coefficient, first_column, first_told, less_column, mixed, rest_of, with_told,
    without_others,
};
use crate::strides::{ROOM, floored};
use crate::telling::telling_rows;
use affc_ast::tree::Instance;
use affc_flow::asking::{images_of, store_for};
use affc_flow::load::Load;
use affc_flow::questions::{Unasked, add_padded, at_images, count};
use affc_nest::Division;
use affc_order::order::shared;
use affc_rows::Form;
use sqlite_items::Items;
use std::alloc::{AllocError, Global};

/// The most drafts of a sample.
const MOST_DRAFTS: usize = 6;

/// The most choices that are looked at for them.
const MOST_TRIES: u32 = 48;

/// The most steps by which equations are solved.
const MOST_STEPS: u32 = 64;

// ---- Values.

/// A number and so many times others.
fn sum_with(constant: i128, coefs: &[i128], values: &[i128]) -> Option<i128> {
    match (coefs, values) {
        ([c, coefs @ ..], [x, values @ ..]) => {
            let next = constant.checked_add(c.checked_mul(*x)?)?;
            sum_with(next, coefs, values)
        }
        _ => Some(constant),
    }
}

/// The value of a form that names no columns but the first of these values'.
pub fn value_of(form: &Form, values: &[i128]) -> Option<i128> {
    sum_with(form.constant, form.coefs.as_slice(), values)
}

/// Forms for the iterators of a store and equations, and the values of their columns at the sample.
#[derive(Drop)]
struct Sampled {
    solved: Solved,
    values: Items<i128>,
}

// ---- Equations over the whole numbers.

/// A column that is turned, another one, and how many times that is taken from it.
#[derive(Drop)]
struct Turn {
    at: usize,
    other: usize,
    times: i128,
}

/// The column from one on that has the least coefficient other than 0.
fn least_column(form: &Form, own: usize) -> Option<usize> {
    let mut least = None;
    let mut size = u128::MAX;
    for (i, c) in form.coefs.as_slice().iter().enumerate() {
        if i >= own && *c != 0 && c.unsigned_abs() < size {
            least = Some(i);
            size = c.unsigned_abs();
        }
    }
    least
}

/// The first column from one on, but for another one, whose coefficient isn't 0.
fn other_column(form: &Form, own: usize, at: usize) -> Option<usize> {
    for (i, c) in form.coefs.as_slice().iter().enumerate() {
        if i >= own && i != at && *c != 0 {
            return Some(i);
        }
    }
    None
}

/// What is to be turned that a form names fewer iterators, or with lesser coefficients.
fn turn_of(form: &Form, own: usize) -> Option<Turn> {
    let at = least_column(form, own)?;
    let other = other_column(form, own, at)?;
    let times = coefficient(form, other).checked_div_euclid(coefficient(form, at))?;
    Some(Turn { at, other, times })
}

/// The turn of the first of these forms that names two iterators or more.
fn first_turn(forms: &[Form], own: usize) -> Option<Turn> {
    for form in forms {
        let turn = turn_of(form, own);
        if turn.is_some() {
            return turn;
        }
    }
    None
}

/// The value of the column that is turned.
fn turned_value(values: &[i128], turn: &Turn) -> Option<i128> {
    let more = turn.times.checked_mul(*values.get(turn.other)?)?;
    values.get(turn.at)?.checked_add(more)
}

/// What a column is beside a turn of it: a multiple of another one.
fn turned_column(alloc: Global, work: &Work<'_>, turn: &Turn) -> Result<Form, Unasked> {
    let Some(less) = turn.times.checked_neg() else {
        return Err(Unasked::Large);
    };
    let place = Form::column(alloc, work.columns.all, count(turn.other)?)?;
    mixed(alloc, &place, less, &place, 0)
}

/// A column is turned in forms and values.
fn turn_by(
    alloc: Global,
    work: &Work<'_>,
    sampled: &mut Sampled,
    turn: &Turn,
) -> Result<(), Unasked> {
    let Some(value) = turned_value(sampled.values.as_slice(), turn) else {
        return Err(Unasked::Large);
    };
    let rest = turned_column(alloc, work, turn)?;
    sampled.solved = with_told(alloc, &sampled.solved, turn.at, &rest)?;
    if turn.at < sampled.values.len() {
        sampled.values.set(turn.at, value);
    }
    Ok(())
}

/// What the equations tell, or turns of them, is put in.
fn settled_wholly(
    alloc: Global,
    work: &Work<'_>,
    sampled: Sampled,
    divisions: &mut Vec<Division>,
) -> Result<Sampled, Unasked> {
    let own = work.columns.own as usize;
    let mut now = sampled;
    for _step in 0..MOST_STEPS {
        let equations = now.solved.equations.as_slice();
        if let Some(found) = first_told(alloc, &work.columns, equations, divisions)? {
            let solved = with_told(alloc, &now.solved, found.at, &found.form)?;
            now.solved = solved;
        } else {
            let Some(turn) = first_turn(equations, own) else {
                return Ok(now);
            };
            turn_by(alloc, work, &mut now, &turn)?;
        }
    }
    Ok(now)
}

/// Forms turned so that the first one that names iterators names one alone.
fn straightened(alloc: Global, work: &Work<'_>, sampled: Sampled) -> Result<Sampled, Unasked> {
    let own = work.columns.own as usize;
    let mut now = sampled;
    for _step in 0..MOST_STEPS {
        let Some(turn) = outermost_turn(now.solved.forms.as_slice(), own) else {
            return Ok(now);
        };
        turn_by(alloc, work, &mut now, &turn)?;
    }
    Ok(now)
}

/// The turn of the first form that names iterators, if it names two or more.
fn outermost_turn(forms: &[Form], own: usize) -> Option<Turn> {
    for form in forms {
        if first_column(form, own).is_some() {
            return turn_of(form, own);
        }
    }
    None
}

// ---- The nearest bounds.

/// How far the bound that a row sets for a column, rounded, is from the column's value at the sample.
fn slack_of(row: &Form, at: usize, values: &[i128]) -> Option<i128> {
    let value = value_of(row, values)?;
    if value < 0 {
        return None;
    }
    value.checked_div_euclid(coefficient(row, at).checked_abs()?)
}

/// The lesser one of two numbers, if there are two.
fn lesser(first: Option<i128>, second: Option<i128>) -> Option<i128> {
    match (first, second) {
        (Some(x), Some(y)) => Some(x.min(y)),
        (Some(x), None) => Some(x),
        (None, other) => other,
    }
}

/// The least one of these rows that are on the late side of a column.
fn least_slack(rows: &[Form], at: usize, up: bool, values: &[i128]) -> Option<i128> {
    match rows {
        [] => None,
        [row, rest @ ..] => {
            let others = least_slack(rest, at, up, values);
            if (coefficient(row, at) < 0) == up {
                lesser(slack_of(row, at, values), others)
            } else {
                others
            }
        }
    }
}

/// What a column is by a row, less itself, with so much taken away.
fn told_less(
    alloc: Global,
    work: &Work<'_>,
    row: &Form,
    at: usize,
    slack: i128,
    divisions: &mut Vec<Division>,
) -> Result<Option<Form>, Unasked> {
    let columns = &work.columns;
    let Some(rest) = rest_of(columns, row, at)? else {
        return Ok(None);
    };
    let first = columns.load.reader.domain.columns();
    let by = coefficient(row, at).unsigned_abs();
    match floored(alloc, columns.own, first, &rest, by, divisions)? {
        Some(part) => slackened(alloc, work, row, at, slack, part),
        None => Ok(None),
    }
}

/// What a column is by a row's quotient, less itself, with so much taken away.
fn slackened(
    alloc: Global,
    work: &Work<'_>,
    row: &Form,
    at: usize,
    slack: i128,
    part: Form,
) -> Result<Option<Form>, Unasked> {
    let Some(constant) = part.constant.checked_sub(slack) else {
        return Ok(None);
    };
    let sign = if coefficient(row, at) < 0 { 1 } else { -1 };
    let part = Form {
        coefs: part.coefs,
        constant,
    };
    Ok(Some(less_column(alloc, &work.columns, &part, sign, at)?))
}

/// Whether a form is one of others.
fn is_among(form: &Form, forms: &[Form]) -> bool {
    forms.iter().any(|f| f.constant == form.constant && f.coefs.as_slice() == form.coefs.as_slice())
}

/// What a column is by those rows that come nearest to the sample.
fn nearest(
    alloc: Global,
    work: &Work<'_>,
    sampled: &Sampled,
    at: usize,
    up: bool,
    divisions: &mut Vec<Division>,
) -> Result<Items<Form>, Unasked> {
    let rows = rows_at(alloc, work, sampled.solved.forms.as_slice())?;
    let rows = without_others(alloc, &work.columns, rows, at)?;
    let values = sampled.values.as_slice();
    let mut out = Items::new(alloc);
    let Some(slack) = least_slack(rows.as_slice(), at, up, values) else {
        return Ok(out);
    };
    for row in rows.as_slice() {
        if (coefficient(row, at) < 0) == up && slack_of(row, at, values) == Some(slack) {
            if let Some(made) = told_less(alloc, work, row, at, slack, divisions)? {
                if !is_among(&made, out.as_slice()) {
                    out.push(made)?;
                }
            }
        }
    }
    Ok(out)
}

// ---- Drafts.

/// What is known, with what a column is.
fn told_by(alloc: Global, now: &Sampled, at: usize, choice: &Form) -> Result<Sampled, Unasked> {
    let values = Items::from_slice(alloc, now.values.as_slice())?;
    let solved = with_told(alloc, &now.solved, at, choice)?;
    Ok(Sampled { solved, values })
}

/// Adds the drafts with what is told so far, where so many iterators aren't told at most.
#[cycle(directed)]
fn add_directed(
    alloc: Global,
    work: &Work<'_>,
    sampled: Sampled,
    left: u32,
    divisions: &mut Vec<Division>,
    out: &mut Drafts,
) -> Result<(), Unasked> {
    if out.tries == 0 || out.made.len() >= MOST_DRAFTS {
        return Ok(());
    }
    out.tries -= 1;
    let own = work.columns.own as usize;
    let now = straightened(alloc, work, sampled)?;
    let forms = now.solved.forms.as_slice();
    match open_column(forms, own) {
        None => out.add(alloc, forms, own),
        Some(_) if left == 0 => Ok(()),
        Some(open) => add_choices(alloc, work, &now, open, left - 1, divisions, out),
    }
}

/// Adds the drafts with each choice for a column that isn't told: its place, and whether it is wanted great.
#[cycle(directed)]
fn add_choices(
    alloc: Global,
    work: &Work<'_>,
    now: &Sampled,
    open: (usize, bool),
    left: u32,
    divisions: &mut Vec<Division>,
    out: &mut Drafts,
) -> Result<(), Unasked> {
    let (at, up) = open;
    let choices = nearest(alloc, work, now, at, up, divisions)?;
    for choice in choices.as_slice() {
        let next = told_by(alloc, now, at, choice)?;
        add_directed(alloc, work, next, left, divisions, out)?;
    }
    Ok(())
}

/// Adds the drafts that fit.
fn add_drafts(
    alloc: Global,
    work: &Work<'_>,
    values: Items<i128>,
    divisions: &mut Vec<Division>,
    out: &mut Drafts,
) -> Result<(), Unasked> {
    let solved = posed(alloc, work)?;
    let begun = Sampled { solved, values };
    let sampled = settled_wholly(alloc, work, begun, divisions)?;
    add_directed(alloc, work, sampled, work.columns.loops, divisions, out)
}

/// Drafts of the instance at a sample, a form for each coordinate. Divisions that they want are added.
fn drafts_at(
    alloc: Global,
    drafting: &Drafting<'_>,
    values: Items<i128>,
    divisions: &mut Vec<Division>,
) -> Result<Vec<Items<Form>>, Unasked> {
    let work = arranged(alloc, drafting)?;
    let mut out = Drafts {
        tries: MOST_TRIES,
        made: Vec::new(alloc),
    };
    match add_drafts(alloc, &work, values, divisions, &mut out) {
        Ok(()) => Ok(out.made),
        Err(Unasked::Large) => Ok(out.made),
        Err(Unasked::Memory) => Err(Unasked::Memory),
    }
}

// ---- Candidates.

/// How many of these numbers are the same, of so many at most.
fn same(own: &[i64], other: &[i64], n: usize) -> usize {
    for (i, (x, y)) in own.iter().zip(other).enumerate() {
        if i >= n || *x != *y {
            return i;
        }
    }
    n
}

/// The values of so many columns, of which the last are 0 where they aren't known, and of a store's iterators behind.
fn all_values(
    alloc: Global,
    values: &[i128],
    columns: u32,
    instance: &Instance,
) -> Result<Items<i128>, AllocError> {
    let mut all = Items::new(alloc);
    for k in 0..columns {
        match values.get(k as usize) {
            None => all.push(0)?,
            Some(x) => all.push(*x)?,
        }
    }
    for y in instance.iterators.as_slice() {
        all.push(i128::from(*y))?;
    }
    Ok(all)
}

/// The load's iterators, each with as much added as the store's is greater at the sample.
fn shifted(
    alloc: Global,
    drafting: &Drafting<'_>,
    iterators: &[i64],
    instance: &Instance,
) -> Result<Items<Form>, Unasked> {
    let params = drafting.load.nest.params.ranges().len();
    let mut out = Items::new(alloc);
    for (k, (x, y)) in iterators
        .iter()
        .zip(instance.iterators.as_slice())
        .enumerate()
    {
        let place = count(params.saturating_add(k))?;
        let mut form = Form::column(alloc, drafting.columns, place)?;
        form.constant = i128::from(*y) - i128::from(*x);
        out.push(form)?;
    }
    Ok(out)
}

/// Whether an instance stores what is read, wherever it is.
fn stores_read(alloc: Global, drafting: &Drafting<'_>, forms: &[Form]) -> Result<bool, Unasked> {
    if forms.len() != drafting.writer.coordinates() {
        return Ok(false);
    }
    let images = images_of(alloc, drafting.load, drafting.columns, forms)?;
    for (sub, other) in drafting.store.subs.as_slice().iter().zip(drafting.read) {
        let made = at_images(alloc, drafting.columns, images.as_slice(), sub)?;
        if made.constant != other.constant || made.coefs.as_slice() != other.coefs.as_slice() {
            return Ok(false);
        }
    }
    Ok(true)
}

/// Adds the candidate that is as far from the load as the instance at the sample is, if it stores what is read.
fn add_shifted(
    alloc: Global,
    drafting: &Drafting<'_>,
    iterators: &[i64],
    instance: &Instance,
    out: &mut Vec<Candidate>,
) -> Result<(), Unasked> {
    let forms = shifted(alloc, drafting, iterators, instance)?;
    if stores_read(alloc, drafting, forms.as_slice())? {
        add_candidate(alloc, drafting, forms, out)?;
    }
    Ok(())
}

/// Adds candidates that name an instance where the load's iterators have these values, and its columns and the quotients of
/// the divisions those.
fn add_through<'a>(
    alloc: Global,
    load: &'a Load<'a>,
    iterators: &[i64],
    values: &[i128],
    instance: &Instance,
    divisions: &mut Vec<Division>,
    out: &mut Vec<Candidate>,
) -> Result<(), Unasked> {
    let Some(writer) = load
        .nest
        .entries
        .as_slice()
        .get(instance.statement as usize)
    else {
        return Ok(());
    };
    let Some(store) = store_for(writer, load.access.array.0) else {
        return Ok(());
    };
    let columns = load.reader.domain.columns().saturating_add(ROOM);
    let mut read = Items::new(alloc);
    add_padded(alloc, columns, load.access.subs.as_slice(), &mut read)?;
    let rows = telling_rows(alloc, load.nest, writer)?;
    let n = shared(writer.loops.as_slice(), load.reader.loops.as_slice());
    let drafting = Drafting {
        load,
        read: read.as_slice(),
        writer,
        rows: rows.as_slice(),
        store,
        columns,
        depth: same(iterators, instance.iterators.as_slice(), n),
    };
    add_shifted(alloc, &drafting, iterators, instance, out)?;
    let all = all_values(alloc, values, columns, instance)?;
    for forms in drafts_at(alloc, &drafting, all, divisions)? {
        add_candidate(alloc, &drafting, forms, out)?;
    }
    Ok(())
}

/// Candidates that name an instance at a point. Divisions that they want are added.
pub fn through(
    alloc: Global,
    load: &Load<'_>,
    iterators: &[i64],
    values: &[i128],
    instance: &Instance,
    divisions: &mut Vec<Division>,
) -> Result<Vec<Candidate>, AllocError> {
    let mut out = Vec::new(alloc);
    match add_through(
        alloc, &*load, iterators, values, instance, divisions, &mut out,
    ) {
        Ok(()) => Ok(out),
        Err(Unasked::Large) => Ok(out),
        Err(Unasked::Memory) => Err(AllocError),
    }
}
