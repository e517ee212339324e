//! Questions on folds, and what a certificate shows of their marks.
ghost use Rattle.std.specs.Prelude.{flat_map, ◌≡◌, ◌+◌, ◌≤◌, ◌∷◌, [], length, map, IfOk, IfErr, OnOk};
ghost use Rattle.affc_basis.specs.Moduli.{IsModulus};
ghost use Rattle.affc_conflicts.specs.Questions.{distance_questions};
ghost use Rattle.affc_nest.specs.Asked.{IsNest};
ghost use Rattle.affc_sched.specs.Touched.{Each};
ghost use Rattle.affc_sched.specs.Legality.{IsAsked};
ghost use Rattle.affc_certvalue.specs.fold.Limits.{IsMarkWithin};
ghost use Rattle.affc_life.specs.Clashes.{clash_of, clashes};
ghost use Rattle.affc_life.specs.Products.{systems_in};
ghost use Rattle.affc_life.specs.Sizes.{AnyLarge};
ghost use Rattle.affc_questions.specs.Asked.{IsAlong};
ghost use Rattle.affc_questions.specs.Tails.{distance_tail};
ghost use Rattle.affc_check.specs.list.Certs.{modulus_said, AreFoldItems, Under};
ghost use Rattle.affc_check.specs.list.Held.{listed_said};
ghost use Rattle.affc_check.specs.list.Items.{Question, row_items, rows_items, fold_items};
ghost use Rattle.affc_check.specs.list.Limits.{AnyPasses};
ghost use Rattle.affc_check.specs.list.Listed.{AreListed};
ghost use Rattle.affc_check.specs.list.Passes.{FoldPasses};
ghost use Rattle.affc_check.specs.list.Walks.{clash_systems, fold_shown, AreRowsAsked, IsFoldAsked};

use crate::list::item::Listed;
use crate::list::listing::{add_long, add_product};
use crate::list::shown::{Along, add_mark};
use crate::list::stop::Stop;
use affc_certvalue::fold::fold::{CertFold, CertModulus};
use affc_life::ClashProduct;
use affc_nest::Nest;
use affc_questions::{distance_rows, positive_question};
use affc_rows::Form;
use affc_system::PairSystem;
use sqlite_items::Items;
use std::alloc::{AllocError, Global};

/// The last factor of the questions on the distances in clash systems with these elements: the first one ahead, and the second.
fn distance_tails(
    alloc: Global,
    along: &Along<'_>,
    base: &PairSystem,
) -> Result<Items<Items<Form>>, AllocError>
    requires { IsAlong along.now.rows.now along.now.row.now along.now.modulus.now base.now }
    ensures { IfOk result (λ t. t ≡ distance_tail along.now.rows.now along.now.k along.now.row.now along.now.modulus.now base.now base.now.x.items base.now.y.items ∷ distance_tail along.now.rows.now along.now.k along.now.row.now along.now.modulus.now base.now base.now.y.items base.now.x.items ∷ []) }
{
    let (rows, k, row, modulus) = (along.rows, along.k, along.row, along.modulus);
    let (first, second) = distance_rows(alloc, rows, k, row, modulus, base)?;
    let mut tails = Items::new(alloc);
    tails.push(first)?;
    tails.push(second)?;
    Ok(tails)
}

/// Adds the questions on the distances in the clash systems of a product.
fn add_distance<'a>(
    alloc: Global,
    along: &Along<'_>,
    product: &'a ClashProduct,
    out: &mut Vec<Listed<'a>>,
) -> Result<(), Stop>
    requires { IsAlong along.now.rows.now along.now.row.now along.now.modulus.now product.now.base }
    ensures ok { OnOk result (AreListed (flat_map listed_said out.old.items) (flat_map listed_said out.new.items) (map Question (distance_questions along.now.rows.now along.now.k along.now.row.now along.now.modulus.now (systems_in product.now)))) }
    ensures past { IfErr result (λ e. e ≡ Stop.Past → AnyPasses (map Question (distance_questions along.now.rows.now along.now.k along.now.row.now along.now.modulus.now (systems_in product.now)))) }
{
    let base = &product.base;
    let tails = distance_tails(alloc, along, base)?;
    let (front, factors) = (base.system.rows(), product.factors.as_slice());
    add_product(alloc, base.system.columns(), front, factors, tails, out)
}

/// Adds the questions on the distances in these clash systems. The recursion is into halves, since there may be many.
pub(crate) fn add_distances<'a>(
    alloc: Global,
    along: &Along<'_>,
    systems: &'a [ClashProduct],
    out: &mut Vec<Listed<'a>>,
) -> Result<(), Stop>
    requires { Each (λ p. IsAlong along.now.rows.now along.now.row.now along.now.modulus.now p.base) systems.now }
    ensures ok { OnOk result (AreListed (flat_map listed_said out.old.items) (flat_map listed_said out.new.items) (map Question (distance_questions along.now.rows.now along.now.k along.now.row.now along.now.modulus.now (clash_systems systems.now)))) }
    ensures past { IfErr result (λ e. e ≡ Stop.Past → AnyPasses (map Question (distance_questions along.now.rows.now along.now.k along.now.row.now along.now.modulus.now (clash_systems systems.now)))) }
{
    match systems {
        [] => Ok(()),
        [product] => add_distance(alloc, along, product, out),
        _ => {
            let (first, others) = systems.split_at(systems.len() / 2);
            add_distances(alloc, along, first, out)?;
            add_distances(alloc, along, others, out)
        }
    }
}

/// Adds the items of a row.
fn add_row<'a>(
    alloc: Global,
    nest: &'a Nest,
    systems: &'a [ClashProduct],
    rows: &'a [Form],
    k: usize,
    row: &'a Form,
    modulus: &'a CertModulus,
    out: &mut Vec<Listed<'a>>,
) -> Result<(), Stop>
    requires nested { IsNest nest.now }
    requires along { Each (IsAlong rows.now row.now modulus.now.form) (clash_systems systems.now) }
    requires modulus { IsModulus nest.now.context.columns modulus.now.form }
    requires mark { IsMarkWithin nest.now.context.columns modulus.now.least }
    ensures ok { OnOk result (AreListed (flat_map listed_said out.old.items) (flat_map listed_said out.new.items) (row_items nest.now (clash_systems systems.now) rows.now k row.now (modulus_said modulus.now))) }
    ensures past { IfErr result (λ e. e ≡ Stop.Past → AnyPasses (row_items nest.now (clash_systems systems.now) rows.now k row.now (modulus_said modulus.now))) }
{
    let along = Along {
        nest,
        systems,
        rows,
        k,
        row,
        modulus: &modulus.form,
    };
    let positive = positive_question(alloc, nest, &modulus.form)?;
    add_long(alloc, &positive, out)?;
    add_distances(alloc, &along, systems, out)?;
    add_mark(alloc, &along, &modulus.least, out)
}

/// Adds the items of the rows from the k-th on, each with its modulus.
fn add_rows<'a>(
    alloc: Global,
    nest: &'a Nest,
    systems: &'a [ClashProduct],
    rows: &'a [Form],
    k: usize,
    more: &'a [Form],
    moduli: &'a [CertModulus],
    out: &mut Vec<Listed<'a>>,
) -> Result<(), Stop>
    requires nested { IsNest nest.now }
    requires few { k + length more.now ≤ 4 }
    requires asked { AreRowsAsked nest.now (clash_systems systems.now) rows.now more.now moduli.now }
    ensures ok { OnOk result (AreListed (flat_map listed_said out.old.items) (flat_map listed_said out.new.items) (rows_items nest.now (clash_systems systems.now) rows.now k more.now (map modulus_said moduli.now))) }
    ensures past { IfErr result (λ e. e ≡ Stop.Past → AnyPasses (rows_items nest.now (clash_systems systems.now) rows.now k more.now (map modulus_said moduli.now))) }
{
    match more {
        [] => Ok(()),
        [row, more_rows @ ..] => match moduli {
            [] => Ok(()),
            [modulus, more_moduli @ ..] => {
                add_row(alloc, nest, systems, rows, k, row, modulus, out)?;
                add_rows(
                    alloc,
                    nest,
                    systems,
                    rows,
                    k + 1,
                    more_rows,
                    more_moduli,
                    out,
                )
            }
        },
    }
}

/// Adds the items of a fold whose array has these clash systems.
pub(crate) fn add_fold<'a>(
    alloc: Global,
    nest: &'a Nest,
    fold: &'a CertFold,
    systems: &'a [ClashProduct],
    out: &mut Vec<Listed<'a>>,
) -> Result<(), Stop>
    requires nested { IsNest nest.now }
    requires asked { AreRowsAsked nest.now (clash_systems systems.now) fold.now.basis.rows fold.now.basis.rows fold.now.moduli }
    ensures ok { OnOk result (AreListed (flat_map listed_said out.old.items) (flat_map listed_said out.new.items) (fold_items nest.now (fold_shown fold.now (clash_systems systems.now)))) }
    ensures past { IfErr result (λ e. e ≡ Stop.Past → AnyPasses (fold_items nest.now (fold_shown fold.now (clash_systems systems.now)))) }
{
    let rows = fold.basis.rows.as_slice();
    let moduli = fold.moduli.as_slice();
    add_rows(alloc, nest, systems, rows, 0, rows, moduli, out)
}

/// Lists the items of one fold of a certificate under a schedule and with these trees, whose array has these clash systems.
pub fn list_fold<'a>(
    alloc: Global,
    nest: &'a Nest,
    fold: &'a CertFold,
    systems: &'a [ClashProduct],
) -> Result<Vec<Listed<'a>>, Stop>
    ghost under: { Under }
    requires asked { IsAsked nest.now under.schedule }
    requires fold { IsFoldAsked nest.now under.trees fold.now }
    requires systems { map clash_of (clash_systems systems.now) ≡ clashes nest.now under.trees under.schedule fold.now.array.0 }
    requires fits { ¬ (AnyLarge (clashes nest.now under.trees under.schedule fold.now.array.0)) }
    ensures ok { IfOk result (λ l. AreFoldItems nest.now under.schedule under.trees fold.now (flat_map listed_said l.items)) }
    ensures within { OnOk result (¬ (FoldPasses nest.now under.schedule under.trees fold.now)) }
    ensures past { IfErr result (λ e. e ≡ Stop.Past → FoldPasses nest.now under.schedule under.trees fold.now) }
{
    let mut listed = Vec::new(alloc);
    add_fold(alloc, nest, fold, systems, &mut listed)?;
    Ok(listed)
}
