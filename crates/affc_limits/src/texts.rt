//! What is looked for in all whole-number expressions of a text.

ghost use Rattle.std.specs.Prelude.{◌≡◌, [], ◌∷◌, map, flat_map, IfOk, IsOk, IsTrue};
ghost use Rattle.affc_grammar.specs.Limits.{affine_texts, cond_texts, conds_texts, param_texts, pragma_texts, sides, stmt_texts, stmts_texts, value_texts, products_of_names};
ghost use Rattle.affc_syntax.specs.draft.Drafts.{compare, cond, conds_of, decl, ix, local, param, pragma, stmt, stmts_of, text, value};
ghost use Rattle.affc_limits.specs.Places.{first};
ghost use Rattle.affc_limits.specs.Texts as spec;
ghost use Rattle.affc_limits.specs.Texts.{takes_none};

use crate::forms::{first_of, first_product_in, lesser, literal_past};
use crate::parts::large_part;
use affc_syntax::draft::draft::{
    CompareDraft, CondDraft, DeclDraft, IxDraft, LocalDraft, ParamDraft, PragmaDraft, StmtDraft,
    TextDraft, ValueDraft,
};
use std::alloc::{AllocError, Global};

/// What is looked for in whole-number expressions.
#[derive(Clone, Copy, Drop)]
pub(crate) enum Rule {
    /// The `*` of the first product both of whose sides hold names.
    Products,
    /// The least place of a literal above this.
    Literals(u64),
    /// The least first token of a part whose constant or a coefficient is large.
    Coefficients(Global),
}

#[tactic(auto, using(crate::proofs::TextLaws::one_laws))]
fn in_one(rule: Rule, before: Option<usize>, e: &IxDraft) -> Result<Option<usize>, AllocError>
    ensures found { IfOk result (λ p. p ≡ spec.with_found rule before (ix e.now ∷ [])) }
    ensures sure { IsTrue (takes_none rule) → IsOk result }
{
    match rule {
        Rule::Products => Ok(first_of(before, first_product_in(e))),
        Rule::Literals(limit) => Ok(lesser(before, literal_past(limit, e))),
        Rule::Coefficients(alloc) => large_part(alloc, before, e),
    }
}

#[tactic(auto, using(crate::proofs::TextLaws::pair_laws))]
fn in_pair(
    rule: Rule,
    before: Option<usize>,
    a: &IxDraft,
    b: &IxDraft,
) -> Result<Option<usize>, AllocError>
    ensures found { IfOk result (λ p. p ≡ spec.with_found rule before (ix a.now ∷ ix b.now ∷ [])) }
    ensures sure { IsTrue (takes_none rule) → IsOk result }
{
    let left = in_one(rule, before, a)?;
    in_one(rule, left, b)
}

fn in_each(
    rule: Rule,
    before: Option<usize>,
    items: &[IxDraft],
) -> Result<Option<usize>, AllocError>
    ensures found { IfOk result (λ p. p ≡ spec.with_found rule before (map ix items.now)) }
    ensures sure { IsTrue (takes_none rule) → IsOk result }
{
    let mut found = before;
    for item in items {
        found = in_one(rule, found, item)?;
    }
    Ok(found)
}

/// What is found first, or least, of two.
fn pick(rule: Rule, a: Option<usize>, b: Option<usize>) -> Option<usize>
    ensures { result ≡ spec.pick rule a b }
{
    match rule {
        Rule::Products => first_of(a, b),
        Rule::Literals(_) | Rule::Coefficients(_) => lesser(a, b),
    }
}

/// The recursion is into right operands alone.
#[tactic(auto, using(affc_syntax::proofs::draft::Outs::value_outs, crate::proofs::TextLaws::value_laws))]
fn in_value(rule: Rule, before: Option<usize>, v: &ValueDraft) -> Result<Option<usize>, AllocError>
    ensures found { IfOk result (λ p. p ≡ spec.with_found rule before (value_texts (value v.now))) }
    ensures sure { IsTrue (takes_none rule) → IsOk result }
{
    let mut here = v;
    let mut behind = None;
    loop {
        match here {
            ValueDraft::Load { subs, .. } => {
                let found = in_each(rule, before, subs.as_slice())?;
                return Ok(pick(rule, found, behind));
            }
            ValueDraft::Constant(_) => return Ok(pick(rule, before, behind)),
            ValueDraft::Cast(a) => {
                let found = in_one(rule, before, a)?;
                return Ok(pick(rule, found, behind));
            }
            ValueDraft::Complement(of) | ValueDraft::Shift { of, .. } => here = of.get(),
            ValueDraft::Binary { left, right, .. } => {
                let found = in_value(rule, before, right.get())?;
                behind = pick(rule, found, behind);
                here = left.get();
            }
        }
    }
}

fn in_comparisons(
    rule: Rule,
    before: Option<usize>,
    items: &[CompareDraft],
) -> Result<Option<usize>, AllocError>
    ensures found { IfOk result (λ p. p ≡ spec.with_found rule before (flat_map sides (map compare items.now))) }
    ensures sure { IsTrue (takes_none rule) → IsOk result }
{
    let mut found = before;
    for item in items {
        found = in_pair(rule, found, &item.left, &item.right)?;
    }
    Ok(found)
}

/// The recursion goes as deep as `&&` and `||` stand in one another.
#[cycle(conditions)]
#[tactic(auto, using(affc_syntax::proofs::draft::Outs::cond_outs))]
fn in_cond(rule: Rule, before: Option<usize>, c: &CondDraft) -> Result<Option<usize>, AllocError>
    ensures found { IfOk result (λ p. p ≡ spec.with_found rule before (cond_texts (cond c.now))) }
    ensures sure { IsTrue (takes_none rule) → IsOk result }
{
    match c {
        CondDraft::Compare(compare) => in_pair(rule, before, &compare.left, &compare.right),
        CondDraft::Divides { value, .. } => in_one(rule, before, value),
        CondDraft::All(entries) => in_conds(rule, before, entries.as_slice()),
        CondDraft::Any(entries) => in_conds(rule, before, entries.as_slice()),
    }
}

#[cycle(conditions)]
fn in_conds(
    rule: Rule,
    before: Option<usize>,
    items: &[CondDraft],
) -> Result<Option<usize>, AllocError>
    ensures found { IfOk result (λ p. p ≡ spec.with_found rule before (conds_texts (conds_of (map cond items.now)))) }
    ensures sure { IsTrue (takes_none rule) → IsOk result }
{
    let mut found = before;
    for item in items {
        found = in_cond(rule, found, item)?;
    }
    Ok(found)
}

fn in_locals(
    rule: Rule,
    before: Option<usize>,
    items: &[LocalDraft],
) -> Result<Option<usize>, AllocError>
    ensures found { IfOk result (λ p. p ≡ spec.with_found rule before (map (λ l. l.value) (map local items.now))) }
    ensures sure { IsTrue (takes_none rule) → IsOk result }
{
    let mut found = before;
    for item in items {
        found = in_one(rule, found, &item.value)?;
    }
    Ok(found)
}

#[cycle(statements)]
fn in_stmt(rule: Rule, before: Option<usize>, s: &StmtDraft) -> Result<Option<usize>, AllocError>
    ensures found { IfOk result (λ p. p ≡ spec.with_found rule before (stmt_texts (stmt s.now))) }
    ensures sure { IsTrue (takes_none rule) → IsOk result }
{
    match s {
        StmtDraft::For { head, body } => {
            let bounds = in_pair(rule, before, &head.low, &head.high)?;
            in_stmts(rule, bounds, body.as_slice())
        }
        StmtDraft::If {
            cond,
            body,
            other,
            ..
        } => {
            let tests = in_cond(rule, before, cond)?;
            let inside = in_stmts(rule, tests, body.as_slice())?;
            in_stmts(rule, inside, other.as_slice())
        }
        StmtDraft::Assign { subs, value, .. } => {
            let stored = in_each(rule, before, subs.as_slice())?;
            in_value(rule, stored, value)
        }
        StmtDraft::Block { locals, body } => {
            let values = in_locals(rule, before, locals.as_slice())?;
            in_stmts(rule, values, body.as_slice())
        }
    }
}

#[cycle(statements)]
fn in_stmts(
    rule: Rule,
    before: Option<usize>,
    items: &[StmtDraft],
) -> Result<Option<usize>, AllocError>
    ensures found { IfOk result (λ p. p ≡ spec.with_found rule before (stmts_texts (stmts_of (map stmt items.now)))) }
    ensures sure { IsTrue (takes_none rule) → IsOk result }
{
    let mut found = before;
    for item in items {
        found = in_stmt(rule, found, item)?;
    }
    Ok(found)
}

fn in_pragma(
    rule: Rule,
    before: Option<usize>,
    line: &PragmaDraft,
) -> Result<Option<usize>, AllocError>
    ensures found { IfOk result (λ p. p ≡ spec.with_found rule before (pragma_texts (pragma line.now))) }
    ensures sure { IsTrue (takes_none rule) → IsOk result }
{
    match line {
        PragmaDraft::Range { .. } => Ok(before),
        PragmaDraft::Context { conds, .. } => in_comparisons(rule, before, conds.as_slice()),
    }
}

fn in_param(
    rule: Rule,
    before: Option<usize>,
    one: &ParamDraft,
) -> Result<Option<usize>, AllocError>
    ensures found { IfOk result (λ p. p ≡ spec.with_found rule before (param_texts (param one.now))) }
    ensures sure { IsTrue (takes_none rule) → IsOk result }
{
    match one {
        ParamDraft::Number(_) => Ok(before),
        ParamDraft::Array(array) => in_each(rule, before, array.extents.as_slice()),
    }
}

fn in_pragmas(
    rule: Rule,
    before: Option<usize>,
    items: &[PragmaDraft],
) -> Result<Option<usize>, AllocError>
    ensures found { IfOk result (λ p. p ≡ spec.with_found rule before (flat_map pragma_texts (map pragma items.now))) }
    ensures sure { IsTrue (takes_none rule) → IsOk result }
{
    let mut found = before;
    for item in items {
        found = in_pragma(rule, found, item)?;
    }
    Ok(found)
}

fn in_params(
    rule: Rule,
    before: Option<usize>,
    items: &[ParamDraft],
) -> Result<Option<usize>, AllocError>
    ensures found { IfOk result (λ p. p ≡ spec.with_found rule before (flat_map param_texts (map param items.now))) }
    ensures sure { IsTrue (takes_none rule) → IsOk result }
{
    let mut found = before;
    for item in items {
        found = in_param(rule, found, item)?;
    }
    Ok(found)
}

fn in_decls(
    rule: Rule,
    before: Option<usize>,
    items: &[DeclDraft],
) -> Result<Option<usize>, AllocError>
    ensures found { IfOk result (λ p. p ≡ spec.with_found rule before (flat_map (λ d. d.extents) (map decl items.now))) }
    ensures sure { IsTrue (takes_none rule) → IsOk result }
{
    let mut found = before;
    for item in items {
        found = in_each(rule, found, item.extents.as_slice())?;
    }
    Ok(found)
}

/// What is found in all expressions of a text.
pub(crate) fn in_text(rule: Rule, draft: &TextDraft) -> Result<Option<usize>, AllocError>
    ensures found { IfOk result (λ p. p ≡ spec.found rule (affine_texts (text draft.now))) }
    ensures sure { IsTrue (takes_none rule) → IsOk result }
{
    let lines = in_pragmas(rule, None, draft.pragmas.as_slice())?;
    let params = in_params(rule, lines, draft.params.as_slice())?;
    let temps = in_decls(rule, params, draft.temps.as_slice())?;
    in_stmts(rule, temps, draft.body.as_slice())
}

/// The `*` of the first product both of whose sides hold names.
pub fn first_product(draft: &TextDraft) -> Option<usize>
    ensures { result ≡ first (products_of_names (text draft.now)) }
{
    match in_text(Rule::Products, draft) {
        Ok(found) => found,
        Err(_) => None,
    }
}
