//! The plan of a schedule's text.

ghost use Rattle.std.specs.Prelude.{◌≡◌, [], length, IfOk, IfErr, OnOk};
ghost use Rattle.affc_ast.specs.Counted.{IsCounted};
ghost use Rattle.affc_domain.specs.Plain.{IsPlain};
ghost use Rattle.affc_lex.specs.Lexes.{lexemes};
ghost use Rattle.affc_schedtext.specs.Answers.{Answers, IsScheduleOfOrder};
ghost use Rattle.affc_schedtext.specs.Rules as rules;
ghost use Rattle.affc_schedtext.specs.Seen.{order_seen, draft_seen};
ghost use Rattle.affc_plan.specs.Lines.{IsFew};
ghost use Rattle.affc_plan.specs.Maps.{AreRight, IsRightOrder};
ghost use Rattle.affc_plan.specs.Stages.{IsDraftOf, BreachFault, HasLines, OrderFault, FormsFault, IsPlanOf};

use crate::breach::{Breach, first_breach};
use crate::folds::bases;
use crate::stops::{draft_of, tokens_of};
use crate::times::maps;
use affc_ast::tree::Program;
use affc_lex::token::Token;
use affc_parse::place::place_of;
use affc_schedtext::draft::{Draft, OrderDraft};
use affc_schedtext::outline::Outline;
use affc_schedtext::plan::{Plan, SchedFault};
use affc_schedtext::program::outline_of;
use affc_trace::schedule::Schedule;
use std::alloc::Global;

/// Whether the draft breaks no rule; else the first one.
fn ruled(
    alloc: Global,
    text: &[u8],
    outline: &Outline,
    tokens: &[Token],
    draft: &Draft,
) -> Result<(), SchedFault>
    requires few { IsFew outline.now }
    requires draft { IsDraftOf text.now outline.now (lexemes text.now tokens.now) draft.now }
    ensures keeps { OnOk result (rules.breaches outline.now (length (lexemes text.now tokens.now)) (draft_seen draft.now) ≡ []) }
    ensures fault { IfErr result (BreachFault text.now outline.now) }
{
    match first_breach(alloc, outline, tokens.len(), draft)? {
        None => Ok(()),
        Some(Breach::Statement(at)) => Err(SchedFault::Statement(place_of(text, tokens, at))),
        Some(Breach::Length(at)) => Err(SchedFault::Length(place_of(text, tokens, at))),
        Some(Breach::Fold(at)) => Err(SchedFault::Fold(place_of(text, tokens, at))),
        Some(Breach::Limit(at)) => Err(SchedFault::Limit(place_of(text, tokens, at))),
    }
}

/// The schedule of an order that breaks no rule, or the first inverse form that isn't its iterator.
fn schedule_of(alloc: Global, outline: &Outline, order: &OrderDraft) -> Result<Schedule, SchedFault>
    requires few { IsFew outline.now }
    requires right { IsRightOrder outline.now (order_seen order.now) }
    requires lines { HasLines outline.now (order_seen order.now) }
    ensures schedule { IfOk result (IsScheduleOfOrder outline.now (order_seen order.now)) }
    ensures fault { IfErr result (OrderFault outline.now (order_seen order.now)) }
{
    match order {
        OrderDraft::Source => Ok(Schedule::Source),
        OrderDraft::Time {
            at: _,
            length,
            lines,
        } => {
            let maps = maps(alloc, outline, *length, lines.as_slice())?;
            Ok(Schedule::Time {
                length: *length as u32,
                maps,
            })
        }
    }
}

/// The plan of a draft that breaks no rule, or the first form that isn't undone.
fn planned(alloc: Global, outline: &Outline, draft: &Draft) -> Result<Plan, SchedFault>
    requires few { IsFew outline.now }
    requires order { IsRightOrder outline.now (order_seen draft.now.order) }
    requires folds { AreRight outline.now (draft_seen draft.now).folds }
    requires lines { HasLines outline.now (order_seen draft.now.order) }
    ensures plan { IfOk result (IsPlanOf outline.now (draft_seen draft.now)) }
    ensures fault { IfErr result (FormsFault outline.now (draft_seen draft.now)) }
{
    let schedule = schedule_of(alloc, outline, &draft.order)?;
    let folds = bases(alloc, outline, draft.folds.as_slice())?;
    Ok(Plan { schedule, folds })
}

/// The plan that a schedule's text reads as, or the first thing that is wrong with it.
pub fn read(alloc: Global, program: &Program, text: &[u8]) -> Result<Plan, SchedFault>
    requires plain { IsPlain program.now }
    requires counted { IsCounted program.now }
    ensures { Answers text.now program.now result }
{
    let outline = outline_of(alloc, program)?;
    let tokens = tokens_of(alloc, text, &outline)?;
    let draft = draft_of(alloc, text, &outline, &tokens)?;
    ruled(alloc, text, &outline, &tokens, &draft)?;
    planned(alloc, &outline, &draft)
}
