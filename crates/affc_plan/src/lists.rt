//! The lists of a line: their columns, their limits and their forms.

ghost use Rattle.std.specs.Prelude.{◌≡◌, ◌∷◌, [], ◌≤◌, reverse, true, map, flat_map, IfOk};
ghost use Rattle.std.specs.List.{list_all};
ghost use Rattle.affc_grammar.specs.Limits as limits;
ghost use Rattle.affc_schedtext.specs.Terms.{term};
ghost use Rattle.affc_schedtext.specs.Outline as outlines;
ghost use Rattle.affc_schedtext.specs.Rules as rules;
ghost use Rattle.affc_schedtext.specs.Seen.{line_seen};
ghost use Rattle.affc_plan.specs.Few.{AreFew};
ghost use Rattle.affc_plan.specs.Firsts as firsts;
ghost use Rattle.affc_plan.specs.Lines.{head, IsFew};
ghost use Rattle.affc_plan.specs.Lists.{are_slight_parts};
ghost use Rattle.affc_plan.specs.Seen.{columns_seen, sides_seen};

use crate::columns::{Columns, Sides};
use crate::operands::linear_operand;
use affc_ast::text::Text;
use affc_rows::Form;
use affc_schedtext::draft::LineDraft;
use affc_schedtext::outline::{Outline, array_of, iterators_of};
use affc_schedtext::scope::Scope;
use affc_schedtext::terms::{Step, Term};
use sqlite_items::Items;
use std::alloc::{AllocError, Global};

// ---- Columns

/// The iterators round the statement of this name; none where there is no such statement.
fn iterators<'o>(outline: &'o Outline, name: &str) -> &'o [Text]
    ensures { result.now ≡ rules.iterators_or_none (outlines.iterators_of outline.now (outlines.statement_of outline.now name.now)) }
{
    match iterators_of(outline, name) {
        Some(iterators) => iterators,
        None => &[],
    }
}

/// The columns of a statement's line.
pub(crate) fn statement_sides<'o>(
    outline: &'o Outline,
    components: u64,
    line: &LineDraft,
) -> Sides<'o>
    requires few { IsFew outline.now }
    requires length { components ≤ 12 }
    ensures sides { sides_seen result line.now ≡ rules.statement_sides outline.now components (line_seen line.now) }
    ensures few { AreFew result.there.scope × AreFew result.back.scope }
{
    let parameters = outline.parameters.as_slice();
    let iterators = iterators(outline, line.word.name.as_str());
    Sides {
        there: Columns {
            count: parameters.len() as u32 + iterators.len() as u32,
            scope: Scope::Time {
                parameters,
                iterators,
            },
        },
        back: Columns {
            count: parameters.len() as u32 + components as u32,
            scope: Scope::Inverse {
                parameters,
                length: components,
            },
        },
    }
}

/// The dimensions of the first array of this name; 0 where there is none.
fn dimensions(outline: &Outline, name: &str) -> u64
    requires { IsFew outline.now }
    ensures value { result ≡ outlines.dimensions_of (outlines.array_at outline.now (outlines.array_of outline.now name.now)) }
    ensures few { result ≤ 4 }
{
    match array_of(outline, name) {
        Some(number) => match outline.arrays.get(number) {
            Some(array) => array.dimensions,
            None => 0,
        },
        None => 0,
    }
}

/// The columns of a fold's line.
pub(crate) fn fold_sides(outline: &Outline, line: &LineDraft) -> Sides<'static>
    requires { IsFew outline.now }
    ensures sides { sides_seen result line.now ≡ rules.fold_sides outline.now (line_seen line.now) }
    ensures few { AreFew result.there.scope × AreFew result.back.scope }
{
    let count = dimensions(outline, line.word.name.as_str());
    Sides {
        there: Columns {
            count: count as u32,
            scope: Scope::Row(count),
        },
        back: Columns {
            count: count as u32,
            scope: Scope::Back(count),
        },
    }
}

// ---- Limits

/// The last of the numbers, 0 where there is none, and those before it.
fn parted(numbers: Vec<usize>) -> (usize, Vec<usize>)
    ensures last { result.0 ≡ firsts.top (reverse numbers.items) }
    ensures others { reverse result.1.items ≡ firsts.below (reverse numbers.items) }
{
    let mut numbers = numbers;
    match numbers.pop() {
        Some(last) => (last, numbers),
        None => (0, numbers),
    }
}

fn with_number(numbers: Vec<usize>, number: usize) -> Result<Vec<usize>, AllocError>
    ensures { IfOk result (λ v. reverse v.items ≡ number ∷ reverse numbers.items) }
{
    let mut numbers = numbers;
    numbers.push(number)?;
    Ok(numbers)
}

/// The numbers of the first tokens of operands, behind a step.
fn with_step(numbers: Vec<usize>, step: &Step) -> Result<Vec<usize>, AllocError>
    ensures { IfOk result (λ v. reverse v.items ≡ firsts.found step.now (reverse numbers.items)) }
{
    match step {
        Step::Literal { at, .. } | Step::Name { at, .. } => with_number(numbers, *at),
        Step::Negated(at) | Step::Grouped(at) => {
            let (_, numbers) = parted(numbers);
            with_number(numbers, *at)
        }
        Step::Sum | Step::Difference | Step::Product(_) => {
            let (_, numbers) = parted(numbers);
            let (left, numbers) = parted(numbers);
            with_number(numbers, left)
        }
    }
}

fn all_steps(alloc: Global, steps: &[Step]) -> Result<Vec<usize>, AllocError>
    ensures { IfOk result (λ v. reverse v.items ≡ firsts.found_all steps.now []) }
{
    let mut numbers = Vec::new(alloc);
    for step in steps {
        numbers = with_step(numbers, step)?;
    }
    Ok(numbers)
}

/// The number of an expression's first token.
#[tactic(auto, using(crate::proofs::StepLaws::walks))]
fn first_token(alloc: Global, e: &Term) -> Result<usize, AllocError>
    ensures { IfOk result (λ n. n ≡ limits.first_token (term e.now)) }
{
    let numbers = all_steps(alloc, e.steps.as_slice())?;
    let (whole, _) = parted(numbers);
    Ok(whole)
}

/// Whether each part of an expression is within the limits.
#[tactic(auto, using(crate::proofs::OperandForms::parts))]
fn is_slight(alloc: Global, columns: Columns<'_>, e: &Term) -> Result<bool, AllocError>
    requires { AreFew columns.scope }
    ensures { IfOk result (λ b. b ≡ rules.slight_parts (columns_seen columns.entry) (term e.now)) }
{
    match linear_operand(alloc, columns, e)? {
        Some(_) => Ok(true),
        None => Ok(false),
    }
}

/// The first token of the first of the expressions that has a part past the limits.
fn first_large(
    alloc: Global,
    columns: Columns<'_>,
    es: &[Term],
) -> Result<Option<usize>, AllocError>
    requires { AreFew columns.scope }
    ensures { IfOk result (λ p. p ≡ head (rules.large_forms (columns_seen columns.entry) (map term es.now))) }
{
    for e in es {
        if !is_slight(alloc, columns, e)? {
            return Ok(Some(first_token(alloc, e)?));
        }
    }
    Ok(None)
}

/// The same of both lists of a line.
#[tactic(auto, using(crate::proofs::Heads::heads))]
fn first_large_side(
    alloc: Global,
    sides: Sides<'_>,
    line: &LineDraft,
) -> Result<Option<usize>, AllocError>
    requires { AreFew sides.there.scope × AreFew sides.back.scope }
    ensures { IfOk result (λ p. p ≡ head (rules.large_sides (sides_seen sides.entry line.now))) }
{
    match first_large(alloc, sides.there, line.forms.as_slice())? {
        Some(at) => Ok(Some(at)),
        None => first_large(alloc, sides.back, line.inverse.as_slice()),
    }
}

/// The same of all statements' lines.
pub(crate) fn first_large_of_statements(
    alloc: Global,
    outline: &Outline,
    components: u64,
    lines: &[LineDraft],
) -> Result<Option<usize>, AllocError>
    requires few { IsFew outline.now }
    requires length { components ≤ 12 }
    ensures { IfOk result (λ p. p ≡ head (flat_map (λ l. rules.large_sides (rules.statement_sides outline.now components l)) (map line_seen lines.now))) }
{
    for line in lines {
        let sides = statement_sides(outline, components, line);
        if let Some(at) = first_large_side(alloc, sides, line)? {
            return Ok(Some(at));
        }
    }
    Ok(None)
}

/// The same of all folds.
pub(crate) fn first_large_of_folds(
    alloc: Global,
    outline: &Outline,
    folds: &[LineDraft],
) -> Result<Option<usize>, AllocError>
    requires { IsFew outline.now }
    ensures { IfOk result (λ p. p ≡ head (flat_map (λ l. rules.large_sides (rules.fold_sides outline.now l)) (map line_seen folds.now))) }
{
    for line in folds {
        let sides = fold_sides(outline, line);
        if let Some(at) = first_large_side(alloc, sides, line)? {
            return Ok(Some(at));
        }
    }
    Ok(None)
}

// ---- Forms

/// The form of an expression whose parts are all within the limits.
#[tactic(auto, using(crate::proofs::OperandForms::parts))]
fn slight_form(alloc: Global, columns: Columns<'_>, e: &Term) -> Result<Form, AllocError>
    requires few { AreFew columns.scope }
    requires slight { rules.slight_parts (columns_seen columns) (term e.now) ≡ true }
    ensures { IfOk result (λ f. f ≡ rules.form_over (columns_seen columns.entry) (term e.now)) }
{
    match linear_operand(alloc, columns, e)? {
        Some(part) => Ok(part.form),
        None => unreachable!(),
    }
}

/// The forms of such expressions.
pub(crate) fn forms(
    alloc: Global,
    columns: Columns<'_>,
    es: &[Term],
) -> Result<Items<Form>, AllocError>
    requires few { AreFew columns.scope }
    requires slight { are_slight_parts (columns_seen columns) es.now ≡ true }
    ensures { IfOk result (λ fs. fs ≡ map (rules.form_over (columns_seen columns.entry)) (map term es.now)) }
{
    let mut forms = Items::new(alloc);
    for e in es {
        forms.push(slight_form(alloc, columns, e)?)?;
    }
    Ok(forms)
}
