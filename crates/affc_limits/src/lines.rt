//! The limits on parameters, declarations and lines.

ghost use Rattle.std.specs.Prelude.{◌≡◌, ◌++◌, drop, filter, length, map, nat_lt};
ghost use Rattle.affc_grammar.specs.Limits as limits;
ghost use Rattle.affc_syntax.specs.draft.Drafts.{decl, param, pragma};
ghost use Rattle.affc_limits.specs.Lines as spec;
ghost use Rattle.affc_limits.specs.Places.{least};

use crate::forms::{lesser, place_if};
use crate::rests::Rest;
use affc_syntax::draft::draft::{DeclDraft, ParamDraft, PragmaDraft};

fn with_param(rest: Rest, one: &ParamDraft) -> Rest
    ensures { result ≡ spec.with_param rest (param one.now) }
{
    match one {
        ParamDraft::Number(word) => rest.next(word.at),
        ParamDraft::Array(_) => rest,
    }
}

/// The least place of a number parameter past the fourth.
pub(crate) fn parameters_past(items: &[ParamDraft]) -> Option<usize>
    ensures { result ≡ least (drop 4 (limits.number_words (map param items.now))) }
{
    let mut rest = Rest::of(4);
    for item in items {
        rest = with_param(rest, item);
    }
    rest.found
}

fn with_decl(found: Option<usize>, one: &DeclDraft) -> Option<usize>
    ensures { result ≡ spec.with_decl found (decl one.now) }
{
    lesser(found, place_if(4 < one.extents.len(), one.word.at))
}

fn with_array(found: Option<usize>, one: &ParamDraft) -> Option<usize>
    ensures { result ≡ spec.with_array found (param one.now) }
{
    match one {
        ParamDraft::Number(_) => found,
        ParamDraft::Array(array) => with_decl(found, array),
    }
}

fn arrays_past(items: &[ParamDraft]) -> Option<usize>
    ensures { result ≡ least (map (λ d. d.word.at) (filter (λ d. nat_lt 4 (length d.extents)) (limits.param_decls (map param items.now)))) }
{
    let mut found = None;
    for item in items {
        found = with_array(found, item);
    }
    found
}

fn temps_past(items: &[DeclDraft]) -> Option<usize>
    ensures { result ≡ least (map (λ d. d.word.at) (filter (λ d. nat_lt 4 (length d.extents)) (map decl items.now))) }
{
    let mut found = None;
    for item in items {
        found = with_decl(found, item);
    }
    found
}

/// The least place of an array with more than four dimensions.
#[tactic(auto, using(crate::proofs::LineLaws::kept_laws))]
pub(crate) fn dimensions_past(params: &[ParamDraft], temps: &[DeclDraft]) -> Option<usize>
    ensures { result ≡ least (map (λ d. d.word.at) (filter (λ d. nat_lt 4 (length d.extents)) (limits.param_decls (map param params.now) ++ map decl temps.now))) }
{
    lesser(arrays_past(params), temps_past(temps))
}

fn is_range(low: i128, high: i128) -> bool
    ensures { result ≡ limits.is_range low high }
{
    low <= high && low.unsigned_abs() <= 16777216 && high.unsigned_abs() <= 16777216
}

fn with_range(found: Option<usize>, line: &PragmaDraft) -> Option<usize>
    ensures { result ≡ spec.with_range found (pragma line.now) }
{
    match line {
        PragmaDraft::Range {
            low_at,
            low,
            high,
            ..
        } => lesser(found, place_if(!is_range(*low, *high), *low_at)),
        PragmaDraft::Context { .. } => found,
    }
}

/// The least place of a range that is none, or too far from zero.
pub(crate) fn ranges_past(items: &[PragmaDraft]) -> Option<usize>
    ensures { result ≡ least (limits.ranges_past (map pragma items.now)) }
{
    let mut found = None;
    for item in items {
        found = with_range(found, item);
    }
    found
}

fn with_context(rest: Rest, line: &PragmaDraft) -> Rest
    ensures { result ≡ spec.with_context rest (pragma line.now) }
{
    match line {
        PragmaDraft::Range { .. } => rest,
        PragmaDraft::Context { at, conds } => {
            let left = rest.left.saturating_sub(conds.len());
            Rest {
                left,
                found: lesser(rest.found, place_if(left == 0, *at)),
            }
        }
    }
}

/// The least place of a `context` line with which there are more than 16 comparisons.
pub(crate) fn contexts_past(items: &[PragmaDraft]) -> Option<usize>
    ensures { result ≡ least (limits.contexts_past 0 (map pragma items.now)) }
{
    let mut rest = Rest::of(17);
    for item in items {
        rest = with_context(rest, item);
    }
    rest.found
}
