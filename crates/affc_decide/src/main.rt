//! Reads systems over boxes, decides each, and prints what it found and what it cost.
#![tactic(auto)]

mod block;
mod word;

ghost use Rattle.std.specs.Prelude.{◌≡◌, ◌≢◌, ◌<◌, ◌^◌, ◌↔◌, ◌⊎◌, IfOk, IsTrue, IsSomeAnd};
ghost use Rattle.affc_split.specs.Openings.{nodes};
ghost use Rattle.affc_decide.specs.Blocks.{IsExpected, IsReady, TakesLine, TakesNoLine};

use affc_farkas::Proof;
use affc_split::{Answer, Budget, Stop, decide, decide_any, within_reach};
use block::{Block, Line, read_line};
use std::alloc::Global;
use std::io;
use std::io::{BufWriter, ErrorKind, Read, Write};
use std::process::ExitCode;
use word::Fault;

/// What the answers were.
#[derive(Clone, Copy)]
struct Totals {
    empty: u64,
    points: u64,
    stopped: u64,
    units: u64,
    wrong: u64,
}

/// How many leaves, cuts and splits a proof has.
fn nodes(proof: &Proof) -> u64
    ensures { nodes proof.now < 2 ^ 64 → result ≡ nodes proof.now }
{
    match proof {
        Proof::Leaf(_) => 1,
        Proof::Cut { rest, .. } => nodes(rest).saturating_add(1),
        Proof::Split { low, high, .. } => nodes(low).saturating_add(nodes(high)).saturating_add(1),
    }
}

/// Whether two points are the same.
fn same(first: &[i64], second: &[i64]) -> bool
    ensures { IsTrue result ↔ (first.now ≡ second.now) }
{
    first == second
}

/// Prints an answer, and says whether it is the one that is expected.
fn print_answer(
    out: &mut impl Write,
    answer: &Answer,
    spent: u64,
    expected: &Line,
) -> io::Result<bool>
    ensures { IfOk result (λ fine. IsTrue fine ↔ IsExpected answer.now expected.now) }
{
    match answer {
        Answer::Empty(proof) => {
            let count = nodes(proof);
            writeln!(out, "empty {spent} {count}")?;
            Ok(matches!(expected, Line::Empty))
        }
        Answer::Point(_) if matches!(expected, Line::Any) => {
            writeln!(out, "any {spent}")?;
            Ok(true)
        }
        Answer::Point(point) => {
            write!(out, "point")?;
            for x in point {
                write!(out, " {x}")?;
            }
            writeln!(out, " {spent}")?;
            match expected {
                Line::Point(wanted) => Ok(same(point.as_slice(), wanted.as_slice())),
                _ => Ok(false),
            }
        }
    }
}

/// Decides a block. Answers whether it is whole.
fn settle(
    alloc: Global,
    out: &mut impl Write,
    block: &Block,
    expected: &Line,
    totals: &mut Totals,
) -> io::Result<bool>
    ensures { IfOk result (λ fine. IsTrue fine ↔ IsReady block.now) }
{
    let Some(ranges) = &block.ranges else {
        return Ok(false);
    };
    let whole = block.system.rows().len() == block.rows;
    if !whole || ranges.ranges().len() != block.system.columns() as usize || !within_reach(ranges) {
        return Ok(false);
    }
    let mut budget = Budget::new(Some(block.limit));
    let found = match expected {
        Line::Any => decide_any(alloc, &block.system, ranges, &mut budget),
        _ => decide(alloc, &block.system, ranges, &mut budget),
    };
    let spent = budget.spent();
    totals.units = totals.units.saturating_add(spent);
    match found {
        Ok(answer) => {
            if !print_answer(out, &answer, spent, expected)? {
                totals.wrong = totals.wrong.saturating_add(1);
            }
            match answer {
                Answer::Empty(_) => totals.empty = totals.empty.saturating_add(1),
                Answer::Point(_) => totals.points = totals.points.saturating_add(1),
            }
        }
        Err(Stop::Memory) => return Err(io::Error::from(ErrorKind::OutOfMemory)),
        Err(Stop::Budget) => {
            writeln!(out, "stopped {spent}")?;
            totals.stopped = totals.stopped.saturating_add(1);
        }
    }
    Ok(true)
}

/// Takes a line. Answers whether it is well formed.
fn take<'a>(
    alloc: Global,
    out: &mut impl Write,
    block: &mut Option<Block>,
    words: &mut Vec<&'a [u8]>,
    line: &'a [u8],
    totals: &mut Totals,
) -> io::Result<bool>
    ensures taken { IfOk result (λ fine. IsTrue fine → (added : Line) × TakesLine line.now block.old added block.new × ((added ≡ Line.Nothing) ⊎ IsSomeAnd block.new IsReady)) }
    ensures malformed { IfOk result (λ fine. ¬ (IsTrue fine) → TakesNoLine line.now block.old ⊎ ((added : Line) × TakesLine line.now block.old added block.new × (added ≢ Line.Nothing) × ¬ (IsSomeAnd block.new IsReady))) }
{
    match read_line(alloc, block, words, line) {
        Ok(Line::Nothing) => Ok(true),
        Ok(expected) => match block {
            Some(block) => settle(alloc, out, block, &expected, totals),
            None => Ok(false),
        },
        Err(Fault::Malformed) => Ok(false),
        Err(Fault::Memory) => Err(io::Error::from(ErrorKind::OutOfMemory)),
    }
}

/// Takes all lines of a text. Answers the number of the first line that is malformed.
fn run(
    alloc: Global,
    text: &[u8],
    out: &mut impl Write,
    totals: &mut Totals,
) -> io::Result<Option<usize>> {
    let mut block = None;
    let mut words = Vec::new(alloc);
    for (before, line) in text.split(|byte| *byte == b'\n').enumerate() {
        if !take(alloc, out, &mut block, &mut words, line, totals)? {
            return Ok(Some(before.saturating_add(1)));
        }
    }
    Ok(None)
}

fn main(rt: HostRuntime) -> io::Result<ExitCode> {
    let mut totals = Totals {
        empty: 0,
        points: 0,
        stopped: 0,
        units: 0,
        wrong: 0,
    };
    let mut text = Vec::new(rt.alloc());
    rt.reader().read_to_end(&mut text)?;
    let mut out = BufWriter::new(rt.alloc(), io::writer(&rt))?;
    let malformed = run(rt.alloc(), text.as_slice(), &mut out, &mut totals)?;
    if let Some(line) = malformed {
        out.flush()?;
        eprintln!(rt; "line {line} is malformed")?;
        return Ok(ExitCode::from(2));
    }
    let Totals {
        empty,
        points,
        stopped,
        units,
        wrong,
    } = totals;
    writeln!(
        out,
        "{empty} empty, {points} points, {stopped} stopped, {units} units, {wrong} not as expected"
    )?;
    out.flush()?;
    Ok(ExitCode::SUCCESS)
}
