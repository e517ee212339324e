//! The locals and tests of a statement's block.
ghost use Rattle.std.specs.Prelude.{◌≡◌, ◌≤◌, ◌+◌, ◌++◌, [], ◌∷◌, length, IfOk, OnOk};
ghost use Rattle.std.specs.List.{All};
ghost use Rattle.affc_ast.specs.declared.tree.Cond.TheVariants.{Compare};
ghost use Rattle.affc_ast.specs.declared.tree.Rel.TheVariants.{LessEqual};
ghost use Rattle.affc_loops.specs.Loops as specs;
ghost use Rattle.affc_loops.specs.Trees.{name_at};
ghost use Rattle.affc_loops.specs.Limits.{IsSlight, IsSmall};
ghost use Rattle.affc_scan.specs.Conditions.{conditions};

use affc_ast::Items;
use affc_ast::tree::{Cond, Ix, NameId, Rel};
use affc_loops::terms::{form_ix, number};
use affc_rows::Form;
use std::alloc::{AllocError, Global};

/// Adds that a name lies between these ends.
pub(crate) fn add_between(
    low: Ix,
    name: u32,
    rel: Rel,
    high: Ix,
    out: &mut Items<Cond>,
) -> Result<(), AllocError>
    ensures { OnOk result (out.new ≡ out.old ++ Compare LessEqual low (name_at name) ∷ Compare rel (name_at name) high ∷ []) }
{
    let name = NameId(name);
    out.push(Cond::Compare {
        rel: Rel::LessEqual,
        left: low,
        right: Ix::Name(name),
    })?;
    out.push(Cond::Compare {
        rel,
        left: Ix::Name(name),
        right: high,
    })?;
    Ok(())
}

/// Adds that an iterator lies in its range.
fn add_range(
    alloc: Global,
    name: u32,
    range: (i64, i64),
    out: &mut Items<Cond>,
) -> Result<(), AllocError>
    requires { IsSmall range }
    ensures { OnOk result (out.new ≡ out.old ++ conditions (specs.box_tests name (range ∷ []))) }
{
    let low = number(alloc, range.0)?;
    let high = number(alloc, range.1)?;
    add_between(low, name, Rel::LessEqual, high, out)
}

/// And that each iterator lies in its range.
#[tactic(auto, using(crate::proofs::TestSteps::one_more_range))]
pub(crate) fn box_tests(
    alloc: Global,
    made: Items<Cond>,
    from: u32,
    ranges: &[(i64, i64)],
) -> Result<Items<Cond>, AllocError>
    requires small { All IsSmall ranges.now }
    requires seen { from + length ranges.now ≤ 1024 }
    ensures { IfOk result (λ x. x ≡ made ++ conditions (specs.box_tests from ranges.now)) }
{
    let mut made = made;
    match ranges {
        [] => Ok(made),
        [range, rest @ ..] => {
            add_range(alloc, from, *range, &mut made)?;
            box_tests(alloc, made, from + 1, rest)
        }
    }
}

/// And that each component is the time of the iterators.
#[tactic(auto, using(crate::proofs::TestSteps::one_more_time, crate::proofs::TestSteps::slight_is_modest))]
pub(crate) fn time_tests(
    alloc: Global,
    made: Items<Cond>,
    first: u32,
    from: u32,
    component: u32,
    forms: &[Form],
) -> Result<Items<Cond>, AllocError>
    requires slight { All IsSlight forms.now }
    requires columns { All (λ f. (first ≤ length f.coefs) × (from + length f.coefs ≤ 1024)) forms.now }
    requires seen { component + length forms.now ≤ 1024 }
    ensures { IfOk result (λ x. x ≡ made ++ conditions (specs.time_tests first from component forms.now)) }
{
    let mut made = made;
    match forms {
        [] => Ok(made),
        [form, rest @ ..] => {
            let right = form_ix(alloc, first, from, form)?;
            made.push(Cond::Compare {
                rel: Rel::Equal,
                left: Ix::Name(NameId(component)),
                right,
            })?;
            time_tests(alloc, made, first, from, component + 1, rest)
        }
    }
}
