//! Why a value is refused.
ghost use Rattle.affc_cert.specs.Refusals.{counted, each, each_by, fine, first, is_number, is_other_version, is_shape, items_in, part_fault, refusal, top, verdicts};
ghost use Rattle.affc_certvalue.specs.fold.Folds.{fold};
ghost use Rattle.affc_certvalue.specs.proof.Verdicts.{proof};
ghost use Rattle.affc_cert.specs.tree.Trees.{tree};
ghost use Rattle.affc_certvalue.specs.Verdicts.{at_key, list};
ghost use Rattle.serde_json.specs.Find.{get, as_array};
ghost use Rattle.serde_json.specs.View.{view, items_view};
ghost use Rattle.std.specs.Prelude.{◌≡◌, ◌++◌, None, Some, IfOk, OnOk, option_map};

use crate::cert::CertFault;
use crate::layout::Layout;
use crate::tree::judge::tree_verdict;
use crate::tree::layout::Load;
use affc_certvalue::fold::judge::{fold_verdict, parameters_verdict};
use affc_certvalue::fold::layout::Temporary;
use affc_certvalue::keys::has_keys;
use affc_certvalue::proof::judge::proof_verdict;
use affc_certvalue::verdict::Verdict;
use serde_json::Value;
use std::alloc::{AllocError, Global};

/// The verdict on a key that has to be there.
fn there_verdict(value: Option<&Value>) -> Verdict
    ensures { result ≡ at_key fine (option_map (λ v. view v.now) value.entry) }
{
    match value {
        None => Verdict::Shape,
        Some(_) => Verdict::Fine,
    }
}

/// The verdict on a list, but for what it holds.
fn list_verdict(value: Option<&Value>) -> Verdict
    ensures { result ≡ at_key (list fine) (option_map (λ v. view v.now) value.entry) }
{
    let Some(value) = value else {
        return Verdict::Shape;
    };
    match value.as_array() {
        None => Verdict::Shape,
        Some(_) => Verdict::Fine,
    }
}

/// The verdict on a list of so many values, but for what they are.
#[tactic(auto, using(affc_certvalue::proofs::Lengths::length_steps))]
fn counted_verdict(value: Option<&Value>, count: usize) -> Verdict
    ensures { result ≡ at_key (list (counted count)) (option_map (λ v. view v.now) value.entry) }
{
    let Some(value) = value else {
        return Verdict::Shape;
    };
    let Some(items) = value.as_array() else {
        return Verdict::Shape;
    };
    if items.len() == count {
        Verdict::Fine
    } else {
        Verdict::Shape
    }
}

/// The verdict on the object and its keys.
#[tactic(auto, using(crate::proofs::Keyed::whole_keys))]
fn top_verdict(value: &Value, layout: &Layout) -> Verdict
    ensures { result ≡ top layout.now (view value.now) }
{
    if !has_keys(value, &["affc", "context", "flow", "folds", "proofs"]) {
        return Verdict::Shape;
    }
    let version = there_verdict(value.get("affc"));
    let context = parameters_verdict(value.get("context"), layout.parameters as usize);
    let flow = counted_verdict(value.get("flow"), layout.loads.len());
    let folds = counted_verdict(value.get("folds"), layout.temporaries.len());
    let proofs = list_verdict(value.get("proofs"));
    version.and(context.and(flow.and(folds.and(proofs))))
}

/// The values of a list that stands there.
fn items_of(value: Option<&Value>) -> &[Value]
    ensures { items_view result.now ≡ items_in (option_map (λ v. view v.now) value.entry) }
{
    let Some(value) = value else {
        return &[];
    };
    match value.as_array() {
        None => &[],
        Some(items) => items.as_slice(),
    }
}

/// Adds the verdicts on trees, each by its load.
#[tactic(auto, using(crate::proofs::Tops::zip_steps))]
fn add_trees(
    alloc: Global,
    verdicts: &mut Vec<Verdict>,
    loads: &[Load],
    items: &[Value],
) -> Result<(), AllocError>
    ensures { OnOk result (verdicts.new.items ≡ verdicts.old.items ++ each_by tree loads.now (items_view items.now)) }
{
    for (i, load) in loads.iter().enumerate() {
        if i == items.len() {
            return Ok(());
        }
        let verdict = tree_verdict(alloc, &items[i], load)?;
        verdicts.push(verdict)?;
    }
    Ok(())
}

/// Adds the verdicts on folds, each by its temporary.
#[tactic(auto, using(crate::proofs::Tops::zip_steps))]
fn add_folds(
    verdicts: &mut Vec<Verdict>,
    temporaries: &[Temporary],
    parameters: u32,
    items: &[Value],
) -> Result<(), AllocError>
    ensures { OnOk result (verdicts.new.items ≡ verdicts.old.items ++ each_by (fold parameters) temporaries.now (items_view items.now)) }
{
    for (i, temporary) in temporaries.iter().enumerate() {
        if i == items.len() {
            return Ok(());
        }
        let verdict = fold_verdict(&items[i], *temporary, parameters);
        verdicts.push(verdict)?;
    }
    Ok(())
}

/// Adds the verdicts on proofs.
#[tactic(auto, using(crate::proofs::Tops::each_steps))]
fn add_proofs(verdicts: &mut Vec<Verdict>, items: &[Value]) -> Result<(), AllocError>
    ensures { OnOk result (verdicts.new.items ≡ verdicts.old.items ++ each proof (items_view items.now)) }
{
    for value in items {
        verdicts.push(proof_verdict(value))?;
    }
    Ok(())
}

/// The verdicts on the parts.
#[tactic(auto, using(crate::proofs::Tops::more_steps))]
fn part_verdicts(alloc: Global, value: &Value, layout: &Layout) -> Result<Vec<Verdict>, AllocError>
    ensures { IfOk result (λ v. v.items ≡ verdicts layout.now (view value.now)) }
{
    let mut found = Vec::new(alloc);
    found.push(top_verdict(value, layout))?;
    add_trees(
        alloc,
        &mut found,
        layout.loads.as_slice(),
        items_of(value.get("flow")),
    )?;
    add_folds(
        &mut found,
        layout.temporaries.as_slice(),
        layout.parameters,
        items_of(value.get("folds")),
    )?;
    add_proofs(&mut found, items_of(value.get("proofs")))?;
    Ok(found)
}

/// The first part with a wrong shape.
#[tactic(auto, using(crate::proofs::Tops::first_steps))]
fn first_shape(verdicts: &[Verdict]) -> Option<usize>
    ensures { result ≡ first is_shape 0 verdicts.now }
{
    for (i, verdict) in verdicts.iter().enumerate() {
        if let Verdict::Shape = verdict {
            return Some(i);
        }
    }
    None
}

/// The first part with a wrong number.
#[tactic(auto, using(crate::proofs::Tops::first_steps))]
fn first_number(verdicts: &[Verdict]) -> Option<usize>
    ensures { result ≡ first is_number 0 verdicts.now }
{
    for (i, verdict) in verdicts.iter().enumerate() {
        if let Verdict::Number = verdict {
            return Some(i);
        }
    }
    None
}

/// The first part that is wrong.
fn first_fault(verdicts: &[Verdict]) -> Option<CertFault>
    ensures { result ≡ part_fault verdicts.now }
{
    match first_shape(verdicts) {
        Some(part) => Some(CertFault::Shape(part)),
        None => match first_number(verdicts) {
            Some(part) => Some(CertFault::Number(part)),
            None => None,
        },
    }
}

/// Whether a version is there that isn't 1.
fn is_other(version: Option<&Value>) -> bool
    ensures { result ≡ is_other_version (option_map (λ v. view v.now) version.entry) }
{
    match version {
        None => false,
        Some(version) => match version.as_u64() {
            None => true,
            Some(n) => n != 1,
        },
    }
}

/// What is wrong with a value, but for products of rows and inverse forms.
pub(crate) fn fault(
    alloc: Global,
    value: &Value,
    layout: &Layout,
) -> Result<Option<CertFault>, AllocError>
    ensures { IfOk result (λ o. o ≡ refusal layout.now (view value.now)) }
{
    if is_other(value.get("affc")) {
        return Ok(Some(CertFault::Version));
    }
    let verdicts = part_verdicts(alloc, value, layout)?;
    Ok(first_fault(verdicts.as_slice()))
}
