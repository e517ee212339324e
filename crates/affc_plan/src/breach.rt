//! The first of the rules that a text of the grammar breaks.

ghost use Rattle.std.specs.Prelude.{◌≡◌, ◌==◌, [], length, map, not, flat_map, IfOk};
ghost use Rattle.std.specs.List.{list_any};
ghost use Rattle.std.specs.Option.{option_map};
ghost use Rattle.affc_grammar.specs.Limits.{at_if};
ghost use Rattle.affc_schedtext.specs.Outline as outlines;
ghost use Rattle.affc_schedtext.specs.Draft as drafts;
ghost use Rattle.affc_schedtext.specs.Rules as rules;
ghost use Rattle.affc_schedtext.specs.Seen.{line_seen, draft_seen};
ghost use Rattle.affc_plan.specs.Lines as spec;
ghost use Rattle.affc_plan.specs.Lines.{head, IsFew, breach_seen};

use crate::lists::{first_large_of_folds, first_large_of_statements};
use affc_schedtext::draft::{Draft, LineDraft, OrderDraft};
use affc_schedtext::outline::{Outline, array_of};
use affc_schedtext::scope::numbered;
use std::alloc::{AllocError, Global};

/// A rule, with the number of the token at which it is broken.
#[derive(Clone, Copy, Drop)]
pub enum Breach {
    Statement(usize),
    Length(usize),
    Fold(usize),
    Limit(usize),
}

// ---- Statements

/// The number of the statement of this name.
pub(crate) fn statement_of(outline: &Outline, name: &str) -> Option<u64>
    ensures { result ≡ outlines.statement_of outline.now name.now }
{
    let count = outline.statements.len() as u64;
    numbered(b'S', count, name)
}

pub(crate) fn is_of_statement(outline: &Outline, statement: u64, line: &LineDraft) -> bool
    ensures { result ≡ spec.is_of_statement outline.now statement line.now }
{
    match statement_of(outline, line.word.name.as_str()) {
        Some(number) => number == statement,
        None => false,
    }
}

fn has_line(outline: &Outline, statement: u64, lines: &[LineDraft]) -> bool
    ensures { result ≡ list_any (spec.is_of_statement outline.now statement) lines.now }
{
    lines
        .iter()
        .any(|line| is_of_statement(outline, statement, line))
}

/// Whether the line is of no statement, or of one that has a line before.
fn is_wrong_statement(outline: &Outline, before: &[LineDraft], line: &LineDraft) -> bool
    ensures { result ≡ spec.is_wrong_statement outline.now before.now line.now }
{
    match statement_of(outline, line.word.name.as_str()) {
        Some(statement) => has_line(outline, statement, before),
        None => true,
    }
}

/// The first line that is so.
fn first_wrong_statement(outline: &Outline, lines: &[LineDraft]) -> Option<usize>
    ensures { result ≡ head (rules.wrong_statements outline.now [] (map line_seen lines.now)) }
{
    for i in 0..lines.len() {
        if is_wrong_statement(outline, &lines[..i], &lines[i]) {
            return Some(lines[i].word.at);
        }
    }
    None
}

/// Whether each statement has a line.
fn has_all(outline: &Outline, lines: &[LineDraft]) -> bool
    ensures { result ≡ rules.has_all (length outline.now.statements) (rules.statements_in outline.now (map line_seen lines.now)) }
{
    for number in 0..outline.statements.len() {
        if !has_line(outline, number as u64, lines) {
            return false;
        }
    }
    true
}

/// The first line with another number of forms.
fn first_other_length(components: u64, lines: &[LineDraft]) -> Option<usize>
    ensures { result ≡ head (flat_map (λ (l : drafts.LineDraft). at_if (not (length l.forms == components)) l.at) (map line_seen lines.now)) }
{
    for line in lines {
        if line.forms.len() as u64 != components {
            return Some(line.word.at);
        }
    }
    None
}

// ---- Folds

fn is_of_array(outline: &Outline, array: usize, line: &LineDraft) -> bool
    ensures { result ≡ spec.is_of_array outline.now array line.now }
{
    match array_of(outline, line.word.name.as_str()) {
        Some(number) => number == array,
        None => false,
    }
}

fn has_fold(outline: &Outline, array: usize, folds: &[LineDraft]) -> bool
    ensures { result ≡ list_any (spec.is_of_array outline.now array) folds.now }
{
    folds.iter().any(|line| is_of_array(outline, array, line))
}

/// Whether the array is a temporary with so many dimensions.
fn is_temporary(outline: &Outline, dimensions: u64, array: usize) -> bool
    ensures { result ≡ rules.is_temporary_of dimensions (outlines.array_at outline.now (Some array)) }
{
    match outline.arrays.get(array) {
        Some(array) => array.is_temporary && array.dimensions == dimensions,
        None => false,
    }
}

/// Whether the line is of no temporary with as many dimensions as it has forms, or of one that has a line before.
fn is_wrong_fold(outline: &Outline, before: &[LineDraft], line: &LineDraft) -> bool
    ensures { result ≡ spec.is_wrong_fold outline.now before.now line.now }
{
    match array_of(outline, line.word.name.as_str()) {
        Some(array) => {
            has_fold(outline, array, before)
                || !is_temporary(outline, line.forms.len() as u64, array)
        }
        None => true,
    }
}

/// The first line that is so.
fn first_wrong_fold(outline: &Outline, folds: &[LineDraft]) -> Option<usize>
    ensures { result ≡ head (rules.wrong_folds outline.now [] (map line_seen folds.now)) }
{
    for i in 0..folds.len() {
        if is_wrong_fold(outline, &folds[..i], &folds[i]) {
            return Some(folds[i].word.at);
        }
    }
    None
}

// ---- All rules

/// What is wrong with the lines themselves.
fn line_breach(
    outline: &Outline,
    tokens: usize,
    components: u64,
    lines: &[LineDraft],
) -> Option<Breach>
    ensures { option_map breach_seen result ≡ head (spec.line_breaches outline.now tokens components (map line_seen lines.now)) }
{
    if let Some(at) = first_wrong_statement(outline, lines) {
        return Some(Breach::Statement(at));
    }
    if !has_all(outline, lines) {
        return Some(Breach::Statement(tokens));
    }
    match first_other_length(components, lines) {
        Some(at) => Some(Breach::Length(at)),
        None => None,
    }
}

/// What is wrong with the folds themselves.
fn fold_breach(outline: &Outline, folds: &[LineDraft]) -> Option<Breach>
    ensures { option_map breach_seen result ≡ head (rules.fold_breaches outline.now (map line_seen folds.now)) }
{
    match first_wrong_fold(outline, folds) {
        Some(at) => Some(Breach::Fold(at)),
        None => None,
    }
}

/// Whether it is from 1 to 12.
fn is_length(components: u64) -> bool
    ensures { result ≡ rules.is_length components }
{
    1 <= components && components <= 12
}

/// The first limit that a time passes.
fn time_limit(
    alloc: Global,
    outline: &Outline,
    at: usize,
    components: u64,
    lines: &[LineDraft],
) -> Result<Option<Breach>, AllocError>
    requires { IsFew outline.now }
    ensures { IfOk result (λ b. option_map breach_seen b ≡ head (spec.time_limits outline.now at components (map line_seen lines.now))) }
{
    if !is_length(components) {
        return Ok(Some(Breach::Limit(at)));
    }
    match first_large_of_statements(alloc, outline, components, lines)? {
        Some(at) => Ok(Some(Breach::Limit(at))),
        None => Ok(None),
    }
}

/// The first limit that folds pass.
fn fold_limit(
    alloc: Global,
    outline: &Outline,
    folds: &[LineDraft],
) -> Result<Option<Breach>, AllocError>
    requires { IsFew outline.now }
    ensures { IfOk result (λ b. option_map breach_seen b ≡ head (rules.fold_limits outline.now (map line_seen folds.now))) }
{
    match first_large_of_folds(alloc, outline, folds)? {
        Some(at) => Ok(Some(Breach::Limit(at))),
        None => Ok(None),
    }
}

/// The first rule that the draft breaks, where the text has so many tokens.
pub fn first_breach(
    alloc: Global,
    outline: &Outline,
    tokens: usize,
    draft: &Draft,
) -> Result<Option<Breach>, AllocError>
    requires { IsFew outline.now }
    ensures { IfOk result (λ b. option_map breach_seen b ≡ head (rules.breaches outline.now tokens (draft_seen draft.now))) }
{
    let folds = draft.folds.as_slice();
    match &draft.order {
        OrderDraft::Source => {
            if let Some(breach) = fold_breach(outline, folds) {
                return Ok(Some(breach));
            }
            fold_limit(alloc, outline, folds)
        }
        OrderDraft::Time { at, length, lines } => {
            let lines = lines.as_slice();
            if let Some(breach) = line_breach(outline, tokens, *length, lines) {
                return Ok(Some(breach));
            }
            if let Some(breach) = fold_breach(outline, folds) {
                return Ok(Some(breach));
            }
            if let Some(breach) = time_limit(alloc, outline, *at, *length, lines)? {
                return Ok(Some(breach));
            }
            fold_limit(alloc, outline, folds)
        }
    }
}
