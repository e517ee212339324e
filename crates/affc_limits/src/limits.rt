//! All limits that are looked at behind the grammar.

ghost use Rattle.std.specs.Prelude.{◌≡◌, [], flat_map, if◌then◌else◌, IfOk};
ghost use Rattle.std.specs.Option.{option_map};
ghost use Rattle.affc_grammar.specs.Limits as limits;
ghost use Rattle.affc_grammar.specs.Limits.{affine_texts, large_parts, limits_of, literals_past};
ghost use Rattle.affc_syntax.specs.draft.Drafts.{text};
ghost use Rattle.affc_syntax.specs.draft.Symbols.{passed_seen};
ghost use Rattle.affc_limits.specs.Nearest as spec;
ghost use Rattle.affc_limits.specs.Places.{least};

use crate::assignments::tally_of;
use crate::bodies::bodies_of_all;
use crate::divisors::divisors_past;
use crate::lines::{contexts_past, dimensions_past, parameters_past, ranges_past};
use crate::texts::{Rule, in_text};
use affc_grammar::fault::LimitName;
use affc_syntax::draft::draft::TextDraft;
use affc_syntax::draft::passed::Passed;
use std::alloc::{AllocError, Global};

/// With one limit more, which stands behind the others in the list of limits.
fn with_limit(found: Option<Passed>, which: LimitName, place: Option<usize>) -> Option<Passed>
    ensures { option_map passed_seen result ≡ spec.with_limit (option_map passed_seen found) which place }
{
    match place {
        None => found,
        Some(at) => match found {
            None => Some(Passed { at, which }),
            Some(before) => {
                if before.at <= at {
                    Some(before)
                } else {
                    Some(Passed { at, which })
                }
            }
        },
    }
}

fn unless(skipped: bool, place: Option<usize>) -> Option<usize>
    ensures { result ≡ spec.unless skipped place }
{
    if skipped { None } else { place }
}

fn loops_limit(has_prelude: bool) -> usize
    ensures { result ≡ (limits_of has_prelude).loops }
{
    if has_prelude { 12 } else { 6 }
}

fn literal_limit(has_prelude: bool) -> u64
    ensures { result ≡ (limits_of has_prelude).literal }
{
    if has_prelude {
        4611686018427387904
    } else {
        16777216
    }
}

fn divisor_limit(has_prelude: bool) -> u64
    ensures { result ≡ (limits_of has_prelude).divisor }
{
    if has_prelude {
        4611686018427387904
    } else {
        65536
    }
}

fn literal_place(has_prelude: bool, draft: &TextDraft) -> Result<Option<usize>, AllocError>
    ensures { IfOk result (λ p. p ≡ least (flat_map (literals_past ((limits_of has_prelude).literal)) (affine_texts (text draft.now)))) }
{
    in_text(Rule::Literals(literal_limit(has_prelude)), draft)
}

fn coefficient_place(
    alloc: Global,
    has_prelude: bool,
    draft: &TextDraft,
) -> Result<Option<usize>, AllocError>
    ensures { IfOk result (λ p. p ≡ least (if (limits_of has_prelude).forms then flat_map large_parts (affine_texts (text draft.now)) else [])) }
{
    if has_prelude {
        return Ok(None);
    }
    in_text(Rule::Coefficients(alloc), draft)
}

/// The limit that is passed at the least token, and of several there the first of their list.
pub fn limit_fault(
    alloc: Global,
    has_prelude: bool,
    draft: &TextDraft,
) -> Result<Option<Passed>, AllocError>
    ensures { IfOk result (λ p. option_map passed_seen p ≡ limits.least (limits.passed (limits_of has_prelude) (text draft.now))) }
{
    let lines = draft.pragmas.as_slice();
    let params = draft.params.as_slice();
    let temps = draft.temps.as_slice();
    let body = draft.body.as_slice();
    let bodies = bodies_of_all(loops_limit(has_prelude), body);
    let tally = tally_of(body);
    let literals = literal_place(has_prelude, draft)?;
    let coefficients = coefficient_place(alloc, has_prelude, draft)?;
    let divisors = divisors_past(divisor_limit(has_prelude), body);
    let empty = unless(has_prelude, bodies.empty);
    let compared = unless(has_prelude, tally.comparisons);
    let pieces = unless(has_prelude, tally.pieces);
    let a = with_limit(None, LimitName::Parameters, parameters_past(params));
    let b = with_limit(a, LimitName::Range, ranges_past(lines));
    let c = with_limit(b, LimitName::Loops, bodies.loops);
    let d = with_limit(c, LimitName::Statements, tally.statements.found);
    let e = with_limit(d, LimitName::Empty, empty);
    let f = with_limit(e, LimitName::Accesses, tally.accesses);
    let g = with_limit(f, LimitName::Dimensions, dimensions_past(params, temps));
    let h = with_limit(g, LimitName::Comparisons, contexts_past(lines));
    let i = with_limit(h, LimitName::Comparisons, compared);
    let j = with_limit(i, LimitName::Literal, literals);
    let k = with_limit(j, LimitName::Coefficient, coefficients);
    let l = with_limit(k, LimitName::Coefficient, divisors);
    Ok(with_limit(l, LimitName::Pieces, pieces))
}
