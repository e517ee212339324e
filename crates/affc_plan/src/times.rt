//! The maps of all statements of a draft.

ghost use Rattle.std.specs.Prelude.{◌≡◌, ◌≤◌, ◌<◌, Some, true, [], length, get_or, map, All, IfOk, IfErr, OnOk};
ghost use Rattle.std.specs.List.{list_any};
ghost use Rattle.affc_schedtext.specs.Answers.{AreMapsOfLines, IsUndone};
ghost use Rattle.affc_schedtext.specs.Outline as outlines;
ghost use Rattle.affc_schedtext.specs.Rules as rules;
ghost use Rattle.affc_schedtext.specs.Seen.{line_seen};
ghost use Rattle.affc_plan.specs.Lines.{IsFew, is_of_statement};
ghost use Rattle.affc_plan.specs.Maps.{IsRightLine};
ghost use Rattle.affc_plan.specs.Times.{AreRightTimes, TimesFault};

use crate::breach::{is_of_statement, statement_of};
use crate::lost::Lost;
use crate::maps::map_of;
use affc_schedtext::draft::LineDraft;
use affc_schedtext::outline::Outline;
use affc_schedtext::plan::SchedFault;
use affc_trace::schedule::TimeMap;
use sqlite_items::Items;
use std::alloc::Global;

/// The number of the statement of a line.
#[tactic(auto, using(crate::proofs::ColumnLaws::names))]
fn number_of(outline: &Outline, components: u64, line: &LineDraft) -> u32
    requires few { IsFew outline.now }
    requires right { IsRightLine outline.now components (line_seen line.now) }
    ensures { outlines.statement_of outline.now (line_seen line.now).name ≡ Some result }
{
    match statement_of(outline, line.word.name.as_str()) {
        Some(number) => number as u32,
        None => unreachable!(),
    }
}

/// Whether all inverse forms give their iterators back; else the first line that loses one.
pub fn all_undone(
    alloc: Global,
    outline: &Outline,
    components: u64,
    lines: &[LineDraft],
) -> Result<(), SchedFault>
    requires few { IsFew outline.now }
    requires some { 1 ≤ components }
    requires length { components ≤ 12 }
    requires right { AreRightTimes outline.now components lines.now }
    ensures undone { OnOk result (All (λ l. IsUndone (rules.statement_sides outline.now components l)) (map line_seen lines.now)) }
    ensures fault { IfErr result (TimesFault outline.now components (map line_seen lines.now)) }
{
    for line in lines {
        match map_of(alloc, outline, components, line) {
            Ok(_) => {}
            Err(Lost::Memory) => return Err(SchedFault::Memory),
            Err(Lost::Component(component)) => {
                let statement = number_of(outline, components, line);
                return Err(SchedFault::Inverse {
                    statement,
                    component,
                });
            }
        }
    }
    Ok(())
}

/// Where a line of the statement stands.
fn line_of(outline: &Outline, statement: u64, lines: &[LineDraft]) -> usize
    requires { list_any (is_of_statement outline.now statement) lines.now ≡ true }
    ensures within { result < length lines.now }
    ensures of { (d : LineDraft) → is_of_statement outline.now statement (get_or lines.now result d) ≡ true }
{
    for i in 0..lines.len() {
        if is_of_statement(outline, statement, &lines[i]) {
            return i;
        }
    }
    unreachable!()
}

/// The maps of all statements, in the order of these, or the first line that loses an iterator.
pub fn maps(
    alloc: Global,
    outline: &Outline,
    components: u64,
    lines: &[LineDraft],
) -> Result<Items<TimeMap>, SchedFault>
    requires few { IsFew outline.now }
    requires some { 1 ≤ components }
    requires length { components ≤ 12 }
    requires right { AreRightTimes outline.now components lines.now }
    requires once { rules.wrong_statements outline.now [] (map line_seen lines.now) ≡ [] }
    requires whole { rules.has_all (length outline.now.statements) (rules.statements_in outline.now (map line_seen lines.now)) ≡ true }
    ensures maps { IfOk result (AreMapsOfLines outline.now components (map line_seen lines.now)) }
    ensures fault { IfErr result (TimesFault outline.now components (map line_seen lines.now)) }
{
    all_undone(alloc, outline, components, lines)?;
    let mut maps = Items::new(alloc);
    for number in 0..outline.statements.len() {
        let at = line_of(outline, number as u64, lines);
        match map_of(alloc, outline, components, &lines[at]) {
            Ok(map) => maps.push(map)?,
            Err(Lost::Memory) => return Err(SchedFault::Memory),
            Err(Lost::Component(_)) => unreachable!(),
        }
    }
    Ok(maps)
}
