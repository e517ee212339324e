//! Certificates and their JSON texts.
ghost use Rattle.affc_cert.specs.Certificates.{seen};
ghost use Rattle.affc_cert.specs.Drafts.{IsBrokenAt, IsBrokenIn, whole_object};
ghost use Rattle.affc_cert.specs.Limits.{FitsCert};
ghost use Rattle.affc_cert.specs.Refusals.{ReadsJson, IsFirstBroken, Refuses, refusal};
ghost use Rattle.affc_cert.specs.Values.{cert_value};
ghost use Rattle.affc_cert.specs.Within.{IsWithin};
ghost use Rattle.affc_cert.specs.declared.cert.Cert.{Cert};
ghost use Rattle.affc_certvalue.specs.fold.Drafts.{draft_entry};
ghost use Rattle.affc_certvalue.specs.fold.Entries.{entry_of};
ghost use Rattle.affc_certvalue.specs.fold.Values.{folds_value};
ghost use Rattle.affc_certvalue.specs.proof.Proofs.{steps_of};
ghost use Rattle.affc_certvalue.specs.proof.Values.{proof_value};
ghost use Rattle.affc_cert.specs.tree.Values.{tree_value};
ghost use Rattle.affc_certvalue.specs.Values.{list_of};
ghost use Rattle.affc_quast.specs.Seen as quast;
ghost use Rattle.serde_json.specs.Data.{Data, depth, number, unsigned};
ghost use Rattle.serde_json.specs.View.{view};
ghost use Rattle.serde_json.specs.Written.{compact_text, has_float};
ghost use Rattle.std.specs.Prelude.{◌≡◌, ◌≢◌, ◌≤◌, ℕ, ◌+◌, map, false, IfErr, IfOk, IfSome, IsTrue, MatchResult, None, OnOk};

use crate::cert::{Cert, CertFault, WriteFault};
use crate::fits::cert_fits;
use crate::layout::Layout;
use crate::refuse::fault;
use crate::tree::build::tree_from_value;
use crate::tree::write::tree_to_value;
use affc_certvalue::build::numbers;
use affc_certvalue::fold::build::{drafts, multiplied};
use affc_certvalue::fold::draft::Draft;
use affc_certvalue::fold::fold::CertFold;
use affc_certvalue::fold::write::folds as folds_to_value;
use affc_certvalue::keys::has_keys;
use affc_certvalue::proof::build::proof_from_value;
use affc_certvalue::proof::write::proof_to_value;
use affc_certvalue::write::{list, numbers as numbers_to_value};
use affc_farkas::Proof;
use affc_quast::{Flow, Quast};
use serde_json::{Map, Value, put};
use sqlite_items::Items;
use std::alloc::{AllocError, Global};

/// The trees that these values are.
#[tactic(auto, using(affc_certvalue::proofs::Found::map_steps))]
fn trees_among(alloc: Global, items: &[Value]) -> Result<Items<Quast>, AllocError>
    ensures { IfOk result (λ v. map tree_value (map quast.seen v) ≡ map view items.now) }
{
    let mut trees = Items::new(alloc);
    for value in items {
        trees.push(tree_from_value(alloc, value)?)?;
    }
    Ok(trees)
}

/// The trees that a value is.
#[tactic(auto, using(affc_certvalue::proofs::Found::is_list))]
fn read_trees(alloc: Global, value: &Value) -> Result<Items<Quast>, AllocError>
    ensures { IfOk result (λ v. list_of tree_value (map quast.seen v) ≡ view value.now) }
{
    let Some(items) = value.as_array() else {
        return Err(AllocError);
    };
    trees_among(alloc, items.as_slice())
}

/// The proofs that these values are.
#[tactic(auto, using(affc_certvalue::proofs::Found::map_steps))]
fn proofs_among(alloc: Global, items: &[Value]) -> Result<Items<Proof>, AllocError>
    ensures { IfOk result (λ v. map proof_value (map steps_of v) ≡ map view items.now) }
{
    let mut proofs = Items::new(alloc);
    for value in items {
        proofs.push(proof_from_value(alloc, value)?)?;
    }
    Ok(proofs)
}

/// The proofs that a value is.
#[tactic(auto, using(affc_certvalue::proofs::Found::is_list))]
fn read_proofs(alloc: Global, value: &Value) -> Result<Items<Proof>, AllocError>
    ensures { IfOk result (λ v. list_of proof_value (map steps_of v) ≡ view value.now) }
{
    let Some(items) = value.as_array() else {
        return Err(AllocError);
    };
    proofs_among(alloc, items.as_slice())
}

/// Why no folds are made: at this one, rows and inverse forms have another product than the identity.
#[derive(Clone, Copy)]
enum FoldFault {
    Broken(usize),
    Memory,
}

/// The folds of these drafts.
#[tactic(auto, using(crate::proofs::Broken::multiply_steps))]
fn multiply(alloc: Global, drafts: Vec<Draft>) -> Result<Items<CertFold>, FoldFault>
    ensures ok { IfOk result (λ v. map entry_of v ≡ map draft_entry drafts.items) }
    ensures broken { IfErr result (λ e. (k : ℕ) → e ≡ FoldFault.Broken k → IsFirstBroken (map draft_entry drafts.items) k) }
{
    let mut folds = Items::new(alloc);
    for draft in drafts {
        let Some(fold) = multiplied(draft) else {
            return Err(FoldFault::Broken(folds.len()));
        };
        let Ok(()) = folds.push(fold) else {
            return Err(FoldFault::Memory);
        };
    }
    Ok(folds)
}

/// What stands under the keys of a certificate.
#[derive(Clone, Copy)]
struct Parts<'v> {
    context: &'v Value,
    flow: &'v Value,
    folds: &'v Value,
    proofs: &'v Value,
}

/// Whether a value is the number 1.
#[tactic(auto, using(affc_certvalue::proofs::Found::number_steps))]
fn is_one(value: &Value) -> bool
    ensures { IsTrue result → number (unsigned 1) ≡ view value.now }
{
    let Some(number) = value.as_number() else {
        return false;
    };
    match number.as_u64() {
        None => false,
        Some(n) => n == 1,
    }
}

/// The parts of a certificate of version 1.
#[tactic(auto, using(crate::proofs::Found::whole_found))]
fn parts_of(value: &Value) -> Option<Parts<'_>>
    ensures { IfSome result (λ p. whole_object (view p.context.now) (view p.flow.now) (view p.folds.now) (view p.proofs.now) ≡ view value.now) }
{
    if !has_keys(value, &["affc", "context", "flow", "folds", "proofs"]) {
        return None;
    }
    let version = value.get("affc")?;
    let context = value.get("context")?;
    let flow = value.get("flow")?;
    let folds = value.get("folds")?;
    let proofs = value.get("proofs")?;
    if !is_one(version) {
        return None;
    }
    Some(Parts {
        context,
        flow,
        folds,
        proofs,
    })
}

/// The number of a fold's part.
fn fold_part(loads: usize, fold: usize) -> Option<usize>
    ensures { IfSome result (λ part. part ≡ 1 + loads + fold) }
{
    loads.checked_add(1)?.checked_add(fold)
}

/// The folds that a value is, behind so many trees.
#[tactic(auto, using(crate::proofs::Broken::broken_in))]
fn read_folds(alloc: Global, value: &Value, loads: usize) -> Result<Items<CertFold>, CertFault>
    ensures ok { IfOk result (λ v. folds_value (map entry_of v) ≡ view value.now) }
    ensures not_json { IfErr result (λ e. e ≢ CertFault.Json) }
    ensures broken { IfErr result (λ e. e ≢ CertFault.Memory → IsBrokenIn loads (view value.now) e) }
{
    let Ok(drafts) = drafts(alloc, value) else {
        return Err(CertFault::Memory);
    };
    match multiply(alloc, drafts) {
        Ok(folds) => Ok(folds),
        Err(FoldFault::Memory) => Err(CertFault::Memory),
        Err(FoldFault::Broken(fold)) => match fold_part(loads, fold) {
            None => Err(CertFault::Memory),
            Some(part) => Err(CertFault::Shape(part)),
        },
    }
}

/// The certificate that a value is, behind so many trees.
#[tactic(auto, using(crate::proofs::Broken::built_steps))]
fn built(alloc: Global, value: &Value, loads: usize) -> Result<Cert, CertFault>
    ensures ok { IfOk result (λ c. cert_value (seen c) ≡ view value.now) }
    ensures not_json { IfErr result (λ e. e ≢ CertFault.Json) }
    ensures broken { IfErr result (λ e. e ≢ CertFault.Memory → IsBrokenAt loads (view value.now) e) }
{
    let Some(parts) = parts_of(value) else {
        return Err(CertFault::Memory);
    };
    let folds = read_folds(alloc, parts.folds, loads)?;
    let Ok(context) = numbers(alloc, parts.context) else {
        return Err(CertFault::Memory);
    };
    let Ok(trees) = read_trees(alloc, parts.flow) else {
        return Err(CertFault::Memory);
    };
    let Ok(proofs) = read_proofs(alloc, parts.proofs) else {
        return Err(CertFault::Memory);
    };
    Ok(Cert {
        context,
        flow: Flow { trees },
        folds,
        proofs,
    })
}

/// The certificate that a value is, or why it is refused.
#[tactic(auto, using(crate::proofs::Broken::value_steps))]
fn from_value(alloc: Global, value: &Value, layout: &Layout) -> Result<Cert, CertFault>
    ensures ok { IfOk result (λ c. cert_value (seen c) ≡ view value.now) }
    ensures fine { OnOk result (refusal layout.now (view value.now) ≡ None) }
    ensures not_json { IfErr result (λ e. e ≢ CertFault.Json) }
    ensures err { IfErr result (λ e. e ≢ CertFault.Memory → Refuses layout.now (view value.now) e) }
{
    let Ok(found) = fault(alloc, value, layout) else {
        return Err(CertFault::Memory);
    };
    match found {
        Some(fault) => Err(fault),
        None => built(alloc, value, layout.loads.len()),
    }
}

/// The certificate that a text is, for a program of this layout; or the first reason why the text is refused. What `to_json` writes
/// of a certificate within the limits comes back: `back` asks of the text what `to_json` says in `reads`.
#[tactic(auto, using(crate::proofs::Broken::read_well))]
pub fn from_json(alloc: Global, text: &[u8], layout: &Layout) -> Result<Cert, CertFault>
    ensures ok { IfOk result (λ c. ReadsJson text.now (cert_value (seen c)) × (refusal layout.now (cert_value (seen c)) ≡ None)) }
    ensures json { IfErr result (λ e. e ≡ CertFault.Json → (d : Data) → ¬ (ReadsJson text.now d)) }
    ensures err { IfErr result (λ e. e ≢ CertFault.Json → e ≢ CertFault.Memory → (d : Data) × ReadsJson text.now d × Refuses layout.now d e) }
    ensures back { (c : Cert) → ReadsJson text.now (cert_value (seen c)) → IsWithin layout.now (seen c) → MatchResult result (λ b. seen b ≡ seen c) (λ e. e ≡ CertFault.Memory) }
{
    match Value::from_slice(alloc, text) {
        Ok(value) => from_value(alloc, &value, layout),
        Err(error) => {
            if error.is_memory() {
                Err(CertFault::Memory)
            } else {
                Err(CertFault::Json)
            }
        }
    }
}

/// The value of trees.
fn trees_to_value(alloc: Global, trees: &[Quast]) -> Result<Value, AllocError>
    ensures { IfOk result (λ v. view v ≡ list_of tree_value (map quast.seen trees.now)) }
{
    let mut values = Vec::new(alloc);
    for tree in trees {
        values.push(tree_to_value(alloc, tree)?)?;
    }
    Ok(list(values))
}

/// The value of proofs.
fn proofs_to_value(alloc: Global, proofs: &[Proof]) -> Result<Value, AllocError>
    ensures { IfOk result (λ v. view v ≡ list_of proof_value (map steps_of proofs.now)) }
{
    let mut values = Vec::new(alloc);
    for proof in proofs {
        values.push(proof_to_value(alloc, proof)?)?;
    }
    Ok(list(values))
}

/// The value of a certificate.
fn to_value(alloc: Global, cert: &Cert) -> Result<Value, AllocError>
    ensures { IfOk result (λ v. view v ≡ cert_value (seen cert.now)) }
{
    let mut map = Map::new(alloc);
    put(&mut map, alloc, "affc", Value::from(1u32))?;
    put(
        &mut map,
        alloc,
        "context",
        numbers_to_value(alloc, cert.context.as_slice())?,
    )?;
    put(
        &mut map,
        alloc,
        "flow",
        trees_to_value(alloc, cert.flow.trees.as_slice())?,
    )?;
    put(
        &mut map,
        alloc,
        "folds",
        folds_to_value(alloc, cert.folds.as_slice())?,
    )?;
    put(
        &mut map,
        alloc,
        "proofs",
        proofs_to_value(alloc, cert.proofs.as_slice())?,
    )?;
    Ok(Value::Object(map))
}

/// The text of a certificate.
#[tactic(auto, using(crate::proofs::Flat::flat_steps))]
fn text_of(alloc: Global, cert: &Cert) -> Result<Vec<u8>, AllocError>
    ensures text { IfOk result (λ b. b.items ≡ compact_text (cert_value (seen cert.now))) }
    ensures reads { IfOk result (λ b. ReadsJson b.items (cert_value (seen cert.now))) }
{
    let value = to_value(alloc, cert)?;
    value.to_vec(alloc)
}

/// The text of a certificate: compact, its keys in order by bytes.
pub fn to_json(alloc: Global, cert: &Cert) -> Result<Vec<u8>, WriteFault>
    ensures text { IfOk result (λ b. b.items ≡ compact_text (cert_value (seen cert.now))) }
    ensures reads { IfOk result (λ b. ReadsJson b.items (cert_value (seen cert.now))) }
    ensures wide { IfErr result (λ e. e ≡ WriteFault.Wide → ¬ (FitsCert cert.now)) }
{
    if !cert_fits(cert) {
        return Err(WriteFault::Wide);
    }
    match text_of(alloc, cert) {
        Ok(text) => Ok(text),
        Err(_) => Err(WriteFault::Memory),
    }
}

/// The text of a value that has nothing wrong with it, or what is wrong.
fn right_text(alloc: Global, value: &Value, layout: &Layout) -> Result<Vec<u8>, CertFault>
    ensures text { IfOk result (λ b. has_float (view value.now) ≡ false → b.items ≡ compact_text (view value.now)) }
    ensures reads { IfOk result (λ b. depth (view value.now) ≤ 127 → ReadsJson b.items (view value.now)) }
    ensures right { OnOk result (refusal layout.now (view value.now) ≡ None) }
    ensures err { IfErr result (λ e. e ≢ CertFault.Memory → Refuses layout.now (view value.now) e) }
{
    let Ok(found) = fault(alloc, value, layout) else {
        return Err(CertFault::Memory);
    };
    if let Some(fault) = found {
        return Err(fault);
    }
    match value.to_vec(alloc) {
        Ok(text) => Ok(text),
        Err(_) => Err(CertFault::Memory),
    }
}

/// The text of a certificate that has nothing wrong with it for a program of this layout, or what is wrong with it: what `from_json`
/// would say of the text, without reading it.
pub fn to_json_for(alloc: Global, cert: &Cert, layout: &Layout) -> Result<Vec<u8>, CertFault>
    ensures text { IfOk result (λ b. b.items ≡ compact_text (cert_value (seen cert.now))) }
    ensures reads { IfOk result (λ b. ReadsJson b.items (cert_value (seen cert.now))) }
    ensures right { OnOk result (refusal layout.now (cert_value (seen cert.now)) ≡ None) }
    ensures err { IfErr result (λ e. e ≢ CertFault.Memory → Refuses layout.now (cert_value (seen cert.now)) e) }
{
    match to_value(alloc, cert) {
        Ok(value) => right_text(alloc, &value, layout),
        Err(_) => Err(CertFault::Memory),
    }
}
