//! Reading the lines of a schedule's text. `room` is how many brackets may still be opened, `next` is the number of the next token.

ghost use Rattle.std.specs.Prelude.{◌≡◌, ◌++◌, ◌∷◌, [], drop, length, map, IfOk};
ghost use Rattle.affc_syntax.specs.draft.Drafts as drafts;
ghost use Rattle.affc_syntax.specs.draft.Symbols.{seen};
ghost use Rattle.affc_syntax.specs.Readers.{Gives};
ghost use Rattle.affc_schedtext.specs.Drafting as drafting;
ghost use Rattle.affc_schedtext.specs.Outline as outlines;
ghost use Rattle.affc_schedtext.specs.ReadAnswers.{IsRead};
ghost use Rattle.affc_schedtext.specs.Seen.{line_seen, draft_seen, stage_seen, turn_seen};
ghost use Rattle.affc_schedtext.specs.Terms.{term};

use crate::draft::{Draft, LineDraft, OrderDraft};
use crate::forms::{entries, free, list};
use crate::outline::{
    Outline, dimensions_of, iterators_of, row_scope, statement_lists, subscripts,
};
use crate::scope::{Scope, Words, first_name};
use crate::terms::Term;
use affc_ast::Items;
use affc_syntax::ahead::{
    Answer, Stop, behind, behind_word, drafted_word, first, past_mark, past_number, past_this_word,
    past_word,
};
use affc_syntax::draft::draft::WordDraft;
use affc_syntax::draft::symbol::{Symbol, is};
use affc_syntax::expression::number_of_first;
use std::alloc::{AllocError, Global};

/// The lines of a time of so many components.
#[derive(Drop)]
pub(crate) struct TimeLines {
    components: u64,
    lines: Items<LineDraft>,
}

/// What stands before a `;`.
#[derive(Drop)]
pub(crate) enum Stage {
    /// What a fold may follow.
    Folds(Draft),
    /// What a statement's line may follow.
    Stmts(TimeLines),
    StmtForms {
        before: TimeLines,
        word: WordDraft,
        forms: Items<Term>,
    },
    FoldForms {
        before: Draft,
        word: WordDraft,
        forms: Items<Term>,
    },
}

/// A stage that goes on, or the whole text.
#[derive(Drop)]
pub(crate) enum Turn {
    Going(Stage),
    Done(Draft),
}

// ---- What was read

fn timed(alloc: Global, before: TimeLines) -> Draft
    ensures { draft_seen result ≡ drafting.timed before.components (map line_seen before.lines) }
{
    let TimeLines { components, lines } = before;
    Draft {
        order: OrderDraft::Time {
            at: 1,
            length: components,
            lines,
        },
        folds: Items::new(alloc),
    }
}

#[tactic(auto, using(affc_syntax::proofs::Readers::lists))]
fn with_line(
    before: TimeLines,
    word: WordDraft,
    forms: Items<Term>,
    inverse: Items<Term>,
) -> Result<TimeLines, AllocError>
    ensures { IfOk result (λ l. (l.components ≡ before.components) × (map line_seen l.lines ≡ map line_seen before.lines ++ drafting.line (drafts.word word) (map term forms) (map term inverse) ∷ [])) }
{
    let TimeLines {
        components,
        mut lines,
    } = before;
    lines.push(LineDraft {
        word,
        forms,
        inverse,
    })?;
    Ok(TimeLines { components, lines })
}

#[tactic(auto, using(affc_syntax::proofs::Readers::lists))]
fn with_fold(
    before: Draft,
    word: WordDraft,
    forms: Items<Term>,
    inverse: Items<Term>,
) -> Result<Draft, AllocError>
    ensures { IfOk result (λ d. draft_seen d ≡ drafting.with_fold (draft_seen before) (drafting.line (drafts.word word) (map term forms) (map term inverse))) }
{
    let Draft { order, mut folds } = before;
    folds.push(LineDraft {
        word,
        forms,
        inverse,
    })?;
    Ok(Draft { order, folds })
}

/// The text, which ends here.
fn ended(draft: Draft, symbols: &[Symbol<'_>], next: usize) -> Answer<Turn>
    ensures { Gives (map seen symbols.now) turn_seen result (drafting.ended (draft_seen draft) (drop next (map seen symbols.now))) }
{
    if let Some(_) = first(symbols, next) {
        return Err(Stop::At(next));
    }
    Ok((Turn::Done(draft), next))
}

// ---- Folds

/// Behind `fold`.
fn fold(
    alloc: Global,
    outline: &Outline,
    room: u32,
    before: Draft,
    symbols: &[Symbol<'_>],
    next: usize,
) -> Answer<Turn>
    ensures { Gives (map seen symbols.now) turn_seen result (drafting.fold outline.now (length symbols.now) room (draft_seen before) (drop next (map seen symbols.now))) }
{
    let at = number_of_first(symbols, next);
    match past_word(symbols, next) {
        Some((name, next)) => {
            let word = drafted_word(alloc, at, name)?;
            let next = behind(b":", symbols, next)?;
            let scope = row_scope(dimensions_of(outline, name));
            let (forms, next) = list(alloc, room, scope, symbols, next)?;
            Ok((
                Turn::Going(Stage::FoldForms {
                    before,
                    word,
                    forms,
                }),
                next,
            ))
        }
        None => Err(Stop::At(next)),
    }
}

fn next_fold(
    alloc: Global,
    outline: &Outline,
    room: u32,
    before: Draft,
    symbols: &[Symbol<'_>],
    next: usize,
) -> Answer<Turn>
    ensures { Gives (map seen symbols.now) turn_seen result (drafting.next_fold outline.now (length symbols.now) room (draft_seen before) (drop next (map seen symbols.now))) }
{
    match past_this_word(b"fold", symbols, next) {
        Some(next) => fold(alloc, outline, room, before, symbols, next),
        None => ended(before, symbols, next),
    }
}

/// The inverse forms of a fold of an array of so many dimensions.
#[tactic(auto, using(crate::proofs::Outlines::subscripted))]
fn fold_inverse(
    alloc: Global,
    dimensions: u64,
    room: u32,
    symbols: &[Symbol<'_>],
    next: usize,
) -> Answer<Items<Term>>
    ensures { Gives (map seen symbols.now) (map term) result (drafting.entries (length symbols.now) room (outlines.lists_by dimensions).back (outlines.lists_by dimensions).words (drop next (map seen symbols.now))) }
{
    if dimensions == 0 {
        return entries(alloc, room, Scope::Any, Words::Any, symbols, next);
    }
    let others = subscripts(alloc, dimensions - 1)?;
    let words = Words::These {
        first: "x0",
        others: others.as_slice(),
    };
    entries(alloc, room, Scope::Back(dimensions), words, symbols, next)
}

/// Behind the first list of a fold and its `;`.
fn fold_more(
    alloc: Global,
    outline: &Outline,
    room: u32,
    before: Draft,
    word: WordDraft,
    forms: Items<Term>,
    symbols: &[Symbol<'_>],
    next: usize,
) -> Answer<Turn>
    ensures { Gives (map seen symbols.now) turn_seen result (drafting.stage_more outline.now (length symbols.now) room tt (drafting.fold_forms (draft_seen before) (drafts.word word) (map term forms)) (drop next (map seen symbols.now))) }
{
    let dimensions = dimensions_of(outline, word.name.as_str());
    let (inverse, next) = fold_inverse(alloc, dimensions, room, symbols, next)?;
    let draft = with_fold(before, word, forms, inverse)?;
    Ok((Turn::Going(Stage::Folds(draft)), next))
}

// ---- Statements

/// Behind the Word of a line.
fn stmt(
    alloc: Global,
    outline: &Outline,
    room: u32,
    before: TimeLines,
    word: WordDraft,
    symbols: &[Symbol<'_>],
    next: usize,
) -> Answer<Turn>
    ensures { Gives (map seen symbols.now) turn_seen result (drafting.stmt outline.now (length symbols.now) room before.components (map line_seen before.lines) (drafts.word word) (drop next (map seen symbols.now))) }
{
    match past_mark(b":", symbols, next) {
        Some(next) => {
            let lists = statement_lists(outline, before.components, word.name.as_str());
            let (forms, next) = list(alloc, room, lists.there, symbols, next)?;
            Ok((
                Turn::Going(Stage::StmtForms {
                    before,
                    word,
                    forms,
                }),
                next,
            ))
        }
        None => {
            if is(word.name.as_str(), b"fold") {
                fold(alloc, outline, room, timed(alloc, before), symbols, next)
            } else {
                Err(Stop::At(next))
            }
        }
    }
}

fn next_stmt(
    alloc: Global,
    outline: &Outline,
    room: u32,
    before: TimeLines,
    symbols: &[Symbol<'_>],
    next: usize,
) -> Answer<Turn>
    ensures { Gives (map seen symbols.now) turn_seen result (drafting.next_stmt outline.now (length symbols.now) room before.components (map line_seen before.lines) (drop next (map seen symbols.now))) }
{
    let at = number_of_first(symbols, next);
    match past_word(symbols, next) {
        Some((name, next)) => {
            let word = drafted_word(alloc, at, name)?;
            stmt(alloc, outline, room, before, word, symbols, next)
        }
        None => ended(timed(alloc, before), symbols, next),
    }
}

/// Behind the first list of the line of a statement that has inverse forms, and its `;`.
fn stmt_inverse(
    alloc: Global,
    outline: &Outline,
    room: u32,
    before: TimeLines,
    word: WordDraft,
    forms: Items<Term>,
    symbols: &[Symbol<'_>],
    next: usize,
) -> Answer<Turn>
    ensures { Gives (map seen symbols.now) turn_seen result (drafting.stmt_more outline.now (length symbols.now) room before.components (map line_seen before.lines) (drafts.word word) (map term forms)
        (outlines.statement_lists outline.now before.components word.name).back (outlines.statement_lists outline.now before.components word.name).words outlines.always (drop next (map seen symbols.now))) }
{
    let lists = statement_lists(outline, before.components, word.name.as_str());
    let (inverse, next) = entries(alloc, room, lists.back, lists.words, symbols, next)?;
    let lines = with_line(before, word, forms, inverse)?;
    Ok((Turn::Going(Stage::Stmts(lines)), next))
}

/// Behind the first list of a line of no statement, and its `;`: inverse forms where a `=` stands behind a Word.
fn unknown_more(
    alloc: Global,
    outline: &Outline,
    room: u32,
    before: TimeLines,
    word: WordDraft,
    forms: Items<Term>,
    symbols: &[Symbol<'_>],
    next: usize,
) -> Answer<Turn>
    ensures { Gives (map seen symbols.now) turn_seen result (drafting.stmt_more outline.now (length symbols.now) room before.components (map line_seen before.lines) (drafts.word word) (map term forms)
        outlines.any_scope outlines.any outlines.maybe (drop next (map seen symbols.now))) }
{
    let at = number_of_first(symbols, next);
    match past_word(symbols, next) {
        Some((name, next)) => match past_mark(b"=", symbols, next) {
            Some(next) => {
                let (inverse, next) = free(alloc, room, Scope::Any, symbols, next)?;
                let lines = with_line(before, word, forms, inverse)?;
                Ok((Turn::Going(Stage::Stmts(lines)), next))
            }
            None => {
                let lines = with_line(before, word, forms, Items::new(alloc))?;
                let word = drafted_word(alloc, at, name)?;
                stmt(alloc, outline, room, lines, word, symbols, next)
            }
        },
        None => {
            let lines = with_line(before, word, forms, Items::new(alloc))?;
            ended(timed(alloc, lines), symbols, next)
        }
    }
}

/// Behind the first list of a statement's line and its `;`.
fn stmt_more(
    alloc: Global,
    outline: &Outline,
    room: u32,
    before: TimeLines,
    word: WordDraft,
    forms: Items<Term>,
    symbols: &[Symbol<'_>],
    next: usize,
) -> Answer<Turn>
    ensures { Gives (map seen symbols.now) turn_seen result (drafting.stage_more outline.now (length symbols.now) room tt (drafting.stmt_forms before.components (map line_seen before.lines) (drafts.word word) (map term forms)) (drop next (map seen symbols.now))) }
{
    match iterators_of(outline, word.name.as_str()) {
        Some(iterators) => match first_name(iterators) {
            Some(_) => stmt_inverse(alloc, outline, room, before, word, forms, symbols, next),
            None => {
                let lines = with_line(before, word, forms, Items::new(alloc))?;
                next_stmt(alloc, outline, room, lines, symbols, next)
            }
        },
        None => unknown_more(alloc, outline, room, before, word, forms, symbols, next),
    }
}

// ---- Texts

/// Behind a `;`.
fn stage_more(
    alloc: Global,
    outline: &Outline,
    room: u32,
    stage: Stage,
    symbols: &[Symbol<'_>],
    next: usize,
) -> Answer<Turn>
    ensures { Gives (map seen symbols.now) turn_seen result (drafting.stage_more outline.now (length symbols.now) room tt (stage_seen stage) (drop next (map seen symbols.now))) }
{
    match stage {
        Stage::Folds(draft) => next_fold(alloc, outline, room, draft, symbols, next),
        Stage::Stmts(lines) => next_stmt(alloc, outline, room, lines, symbols, next),
        Stage::StmtForms {
            before,
            word,
            forms,
        } => stmt_more(alloc, outline, room, before, word, forms, symbols, next),
        Stage::FoldForms {
            before,
            word,
            forms,
        } => fold_more(alloc, outline, room, before, word, forms, symbols, next),
    }
}

/// The rest of the text, where this stands before a `;`.
fn stages(
    alloc: Global,
    outline: &Outline,
    room: u32,
    stage: Stage,
    symbols: &[Symbol<'_>],
    next: usize,
) -> Answer<Draft>
    ensures { Gives (map seen symbols.now) draft_seen result (drafting.stages outline.now (length symbols.now) room (stage_seen stage) (drop next (map seen symbols.now))) }
{
    let mut stage = stage;
    let mut next = next;
    while let Some(behind) = past_mark(b";", symbols, next) {
        let (turn, rest) = stage_more(alloc, outline, room, stage, symbols, behind)?;
        match turn {
            Turn::Going(longer) => {
                stage = longer;
                next = rest;
            }
            Turn::Done(draft) => return Ok((draft, rest)),
        }
    }
    Err(Stop::At(next))
}

/// Behind `time`.
fn time(
    alloc: Global,
    outline: &Outline,
    room: u32,
    symbols: &[Symbol<'_>],
    next: usize,
) -> Answer<Draft>
    ensures { Gives (map seen symbols.now) draft_seen result (drafting.time_behind outline.now (length symbols.now) room (drop next (map seen symbols.now))) }
{
    match past_number(symbols, next) {
        Some((components, next)) => {
            let lines = TimeLines {
                components,
                lines: Items::new(alloc),
            };
            stages(alloc, outline, room, Stage::Stmts(lines), symbols, next)
        }
        None => Err(Stop::At(next)),
    }
}

fn read_lines(alloc: Global, outline: &Outline, room: u32, symbols: &[Symbol<'_>]) -> Answer<Draft>
    ensures { Gives (map seen symbols.now) draft_seen result (drafting.text outline.now (length symbols.now) room (map seen symbols.now)) }
{
    match past_this_word(b"source", symbols, 0) {
        Some(next) => {
            let draft = Draft {
                order: OrderDraft::Source,
                folds: Items::new(alloc),
            };
            stages(alloc, outline, room, Stage::Folds(draft), symbols, next)
        }
        None => {
            let next = behind_word(b"time", symbols, 0)?;
            time(alloc, outline, room, symbols, next)
        }
    }
}

/// The draft of the text that the symbols spell, where `room` brackets may be open at once.
pub fn read_draft(
    alloc: Global,
    outline: &Outline,
    room: u32,
    symbols: &[Symbol<'_>],
) -> Result<Draft, Stop>
    ensures { IsRead outline.now room (map seen symbols.now) result }
{
    match read_lines(alloc, outline, room, symbols) {
        Ok((draft, _)) => Ok(draft),
        Err(Stop::At(next)) => Err(Stop::At(number_of_first(symbols, next))),
        Err(Stop::Deep) => Err(Stop::Deep),
        Err(Stop::Memory) => Err(Stop::Memory),
    }
}
