//! Whether certificates are valid.
ghost use Rattle.std.specs.Prelude.{◌≡◌, ◌≢◌, ℕ, map, IfOk, IfErr, OnOk};
ghost use Rattle.affc_sched.specs.Legality.{IsAsked};
ghost use Rattle.affc_check.specs.list.Certs.{AreItems, IsCertWithin};
ghost use Rattle.affc_check.specs.list.Held.{item_said};
ghost use Rattle.affc_check.specs.list.Passes.{PassesFirst, NonePasses};
ghost use Rattle.affc_check.specs.Answers.{IsChecked, IsProved, ProofFails, ShownFails};
ghost use Rattle.affc_check.specs.Looked.{IsAllValid, QuestionFails, PointFails};
ghost use Rattle.affc_check.specs.Walked.{IsSetting};

use crate::checks::Looked;
use crate::fault::CheckFault;
use crate::fold_looks::Setting;
use crate::list::trees::tree_parts;
use crate::list::{Item, PartStop, all_items};
use crate::looks::look_items;
use crate::made::add_made;
use affc_ast::tree::ArrayId;
use affc_basis::Fold;
use affc_cert::Cert;
use affc_nest::Nest;
use affc_trace::schedule::Schedule;
use std::alloc::Global;

/// What a valid certificate says: the folds of arrays, with their marks. So many of its proofs stand behind the last question's.
#[derive(Drop)]
pub struct Checked {
    pub folds: Vec<(ArrayId, Fold)>,
    pub spare: usize,
}

/// The items of a certificate, in order.
pub fn items(
    alloc: Global,
    nest: &Nest,
    schedule: &Schedule,
    cert: &Cert,
) -> Result<Vec<Item>, CheckFault>
    requires asked { IsAsked nest.now schedule.now }
    requires certificate { IsCertWithin nest.now cert.now }
    ensures ok { IfOk result (λ v. AreItems nest.now schedule.now cert.now (map item_said v.items)) }
    ensures within { OnOk result (NonePasses nest.now schedule.now cert.now) }
    ensures number { IfErr result (λ e. (part : ℕ) → e ≡ CheckFault.Number part → PassesFirst nest.now schedule.now cert.now part) }
    ensures proof { IfErr result (λ e. (n : ℕ) → e ≢ CheckFault.Proof n) }
    ensures shown { IfErr result (λ e. (n : ℕ) → e ≢ CheckFault.Shown n) }
{
    match all_items(alloc, nest, schedule, cert) {
        Ok(items) => Ok(items),
        Err(PartStop::Part(part)) => Err(CheckFault::Number(part)),
        Err(PartStop::Memory) => Err(CheckFault::Memory),
    }
}

/// How many proofs are left where all items that are looked at hold, or the first that fails.
fn verdict(looked: Looked<'_>) -> Result<usize, CheckFault>
    ensures ok { IfOk result (IsAllValid looked.entry) }
    ensures proof { IfErr result (λ e. (n : ℕ) → e ≡ CheckFault.Proof n → QuestionFails looked.entry n) }
    ensures shown { IfErr result (λ e. (n : ℕ) → e ≡ CheckFault.Shown n → PointFails looked.entry n) }
    ensures number { IfErr result (λ e. (n : ℕ) → e ≢ CheckFault.Number n) }
{
    match looked {
        Looked::Holding(rest, _) => Ok(rest.len()),
        Looked::Unproved(item) => Err(CheckFault::Proof(item)),
        Looked::Unmet(item) => Err(CheckFault::Shown(item)),
    }
}

/// Checks the items of a certificate: how many proofs are left. Of the faults the first part whose questions pass the limits comes
/// before any item.
fn check_items(alloc: Global, of: &Setting<'_>, cert: &Cert) -> Result<usize, CheckFault>
    requires setting { IsSetting of.now }
    requires flow { of.now.flow.now ≡ cert.now.flow }
    requires certificate { IsCertWithin of.now.nest.now cert.now }
    ensures ok { IfOk result (IsProved of.now.nest.now of.now.schedule.now cert.now) }
    ensures number { IfErr result (λ e. (part : ℕ) → e ≡ CheckFault.Number part → PassesFirst of.now.nest.now of.now.schedule.now cert.now part) }
    ensures proof { IfErr result (λ e. (n : ℕ) → e ≡ CheckFault.Proof n → ProofFails of.now.nest.now of.now.schedule.now cert.now n) }
    ensures shown { IfErr result (λ e. (n : ℕ) → e ≡ CheckFault.Shown n → ShownFails of.now.nest.now of.now.schedule.now cert.now n) }
{
    match look_items(alloc, of, cert) {
        Ok(looked) => verdict(looked),
        Err(PartStop::Part(part)) => Err(CheckFault::Number(part)),
        Err(PartStop::Memory) => Err(CheckFault::Memory),
    }
}

/// Checks a certificate: its folds where it is valid. Of the faults the first part whose questions pass the limits comes before
/// any item.
pub fn check_all(
    alloc: Global,
    nest: &Nest,
    schedule: &Schedule,
    cert: &Cert,
) -> Result<Checked, CheckFault>
    requires asked { IsAsked nest.now schedule.now }
    requires certificate { IsCertWithin nest.now cert.now }
    ensures ok { IfOk result (IsChecked nest.now schedule.now cert.now) }
    ensures number { IfErr result (λ e. (part : ℕ) → e ≡ CheckFault.Number part → PassesFirst nest.now schedule.now cert.now part) }
    ensures proof { IfErr result (λ e. (n : ℕ) → e ≡ CheckFault.Proof n → ProofFails nest.now schedule.now cert.now n) }
    ensures shown { IfErr result (λ e. (n : ℕ) → e ≡ CheckFault.Shown n → ShownFails nest.now schedule.now cert.now n) }
{
    let flow = &cert.flow;
    let parts = tree_parts(alloc, nest, flow)?;
    let of = Setting {
        nest,
        schedule,
        flow,
        parts: parts.as_slice(),
    };
    let spare = check_items(alloc, &of, cert)?;
    let mut folds = Vec::new(alloc);
    add_made(alloc, &of, cert.folds.as_slice(), &mut folds)?;
    Ok(Checked { folds, spare })
}
