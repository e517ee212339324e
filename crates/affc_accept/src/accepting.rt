//! Texts as certificates.
ghost use Rattle.std.specs.Prelude.{◌≡◌, ℕ, ◌+◌, List, IfOk, IfErr, IfSome, OnOk};
ghost use Rattle.affc_cert.specs.Certificates.{seen};
ghost use Rattle.affc_sched.specs.Legality.{IsAsked};
ghost use Rattle.affc_nest.specs.declared.nest.Nest.{Nest as OfNest};
ghost use Rattle.affc_schedtext.specs.declared.plan.Plan.{Plan as OfPlan};
ghost use Rattle.affc_check.specs.Answers.{IsChecked};
ghost use Rattle.affc_check.specs.list.Certs.{IsCertWithin};
ghost use Rattle.affc_accept.specs.Accepted.{IsRead, IsAccepted, AcceptsSparing};
ghost use Rattle.affc_accept.specs.Bases.{KeepBases};
ghost use Rattle.affc_accept.specs.Causes.{text_fault, items_fault, IsOfText};
ghost use Rattle.affc_accept.specs.Columns as specs;
ghost use Rattle.affc_accept.specs.Layouts.{IsLayout};
ghost use Rattle.affc_accept.specs.Refusals.{AcceptRefuses};

use crate::bases::first_other;
use crate::columns::{from_text as flow_from_text, in_text as flow_in_text};
use crate::fault::AcceptFault;
use crate::layout::layout;
use affc_cert::{Cert, CertFault, Layout, from_json, to_json_for};
use affc_check::{CheckFault, Checked, check_all};
use affc_nest::Nest;
use affc_quast::Flow;
use affc_schedtext::Plan;
use std::alloc::{AllocError, Global};

// What is said of a text.
fn of_text(fault: CertFault) -> AcceptFault
    ensures cause { result ≡ text_fault fault }
    ensures of_text { IsOfText result }
{
    match fault {
        CertFault::Json => AcceptFault::Certificate(CertFault::Json),
        CertFault::Version => AcceptFault::Certificate(CertFault::Version),
        CertFault::Shape(part) => AcceptFault::Certificate(CertFault::Shape(part)),
        CertFault::Number(part) => AcceptFault::Certificate(CertFault::Number(part)),
        CertFault::Memory => AcceptFault::Memory,
    }
}

// What is said of a certificate's items.
fn of_items(fault: CheckFault) -> AcceptFault
    ensures { result ≡ items_fault fault }
{
    match fault {
        CheckFault::Number(part) => AcceptFault::Check(CheckFault::Number(part)),
        CheckFault::Proof(item) => AcceptFault::Check(CheckFault::Proof(item)),
        CheckFault::Shown(item) => AcceptFault::Check(CheckFault::Shown(item)),
        CheckFault::Memory => AcceptFault::Memory,
    }
}

// The certificate that a text has with the iterators first in its trees' forms.
fn from_text(alloc: Global, layout: &Layout, cert: Cert) -> Result<Cert, AllocError>
    ensures { IfOk result (λ c. seen c ≡ specs.from_text layout.now (seen cert)) }
{
    let Cert {
        context,
        flow,
        folds,
        proofs,
    } = cert;
    let flow = flow_from_text(alloc, layout, &flow)?;
    Ok(Cert {
        context,
        flow,
        folds,
        proofs,
    })
}

// The certificate that a text is, for each nest with this layout.
fn read(alloc: Global, layout: &Layout, text: &[u8]) -> Result<Cert, AcceptFault>
    ensures read { IfOk result (λ cert. (nest : OfNest) → IsLayout nest layout.now → IsRead nest text.now cert) }
    ensures within { IfOk result (λ cert. (nest : OfNest) → IsLayout nest layout.now → IsCertWithin nest cert) }
    ensures err { IfErr result (λ e. (nest : OfNest) (plan : OfPlan) → IsLayout nest layout.now → AcceptRefuses nest plan text.now e) }
    ensures of_text { IfErr result IsOfText }
{
    match from_json(alloc, text, layout) {
        Ok(cert) => match from_text(alloc, layout, cert) {
            Ok(cert) => Ok(cert),
            Err(_) => Err(AcceptFault::Memory),
        },
        Err(fault) => Err(of_text(fault)),
    }
}

// The number of a fold's part, behind so many trees.
fn part_of(trees: usize, fold: usize) -> Option<usize>
    ensures { IfSome result (λ part. part ≡ (1 + trees) + fold) }
{
    trees.checked_add(1)?.checked_add(fold)
}

// Whether the folds have the plan's bases.
fn with_bases(alloc: Global, nest: &Nest, plan: &Plan, cert: &Cert) -> Result<(), AcceptFault>
    ensures kept { OnOk result (KeepBases nest.now plan.now.folds cert.now.folds) }
    ensures err { IfErr result (λ e. (text : List ℕ) → IsRead nest.now text cert.now → AcceptRefuses nest.now plan.now text e) }
    ensures of_text { IfErr result IsOfText }
{
    let folds = cert.folds.as_slice();
    let Some(fold) = first_other(alloc, nest, plan.folds.as_slice(), folds)? else {
        return Ok(());
    };
    match part_of(cert.flow.trees.len(), fold) {
        Some(part) => Err(AcceptFault::Certificate(CertFault::Shape(part))),
        None => Err(AcceptFault::Memory),
    }
}

/// A text as a certificate with the plan's bases, of which neither sizes nor items are looked at: its shape and numbers first, and then
/// its bases. The nest may be that of any program.
pub fn accept_text(
    alloc: Global,
    nest: &Nest,
    plan: &Plan,
    text: &[u8],
) -> Result<Cert, AcceptFault>
    ensures read { IfOk result (IsRead nest.now text.now) }
    ensures within { IfOk result (IsCertWithin nest.now) }
    ensures bases { IfOk result (λ cert. KeepBases nest.now plan.now.folds cert.folds) }
    ensures err { IfErr result (AcceptRefuses nest.now plan.now text.now) }
    ensures of_text { IfErr result IsOfText }
{
    let layout = layout(alloc, nest)?;
    let cert = read(alloc, &layout, text)?;
    with_bases(alloc, nest, plan, &cert)?;
    Ok(cert)
}

/// Whether a certificate that was read is valid: the sizes of its questions first, and then its items.
pub fn accept_items(
    alloc: Global,
    nest: &Nest,
    plan: &Plan,
    cert: &Cert,
) -> Result<Checked, AcceptFault>
    requires asked { IsAsked nest.now plan.now.schedule }
    requires within { IsCertWithin nest.now cert.now }
    requires bases { KeepBases nest.now plan.now.folds cert.now.folds }
    ensures ok { IfOk result (IsChecked nest.now plan.now.schedule cert.now) }
    ensures err { IfErr result (λ e. (text : List ℕ) → IsRead nest.now text cert.now → AcceptRefuses nest.now plan.now text e) }
{
    match check_all(alloc, nest, &plan.schedule, cert) {
        Ok(checked) => Ok(checked),
        Err(fault) => Err(of_items(fault)),
    }
}

/// What a text shows as a certificate of a nest and a plan: the folds of the temporaries of at least one dimension, with their
/// marks. Its shape and numbers are looked at first, then its bases, then the sizes of its questions, and then its items.
pub fn accept(alloc: Global, nest: &Nest, plan: &Plan, text: &[u8]) -> Result<Checked, AcceptFault>
    requires asked { IsAsked nest.now plan.now.schedule }
    ensures ok { IfOk result (λ checked. IsAccepted nest.now plan.now text.now checked.folds.items) }
    ensures err { IfErr result (AcceptRefuses nest.now plan.now text.now) }
{
    let cert = accept_text(alloc, nest, plan, text)?;
    accept_items(alloc, nest, plan, &cert)
}

/// A certificate that is accepted: its text, and what it shows.
#[derive(Drop)]
pub struct Accepted {
    pub text: Vec<u8>,
    pub checked: Checked,
}

// A certificate as its text has it, with the iterators first in its trees' forms, and its own trees.
fn turned(alloc: Global, layout: &Layout, cert: Cert) -> Result<(Cert, Flow), AllocError>
    ensures turned { IfOk result (λ w. seen w.0 ≡ specs.in_text layout.now (seen cert)) }
    ensures same { IfOk result (λ w. record w.0 { flow = w.1 } ≡ cert) }
{
    let turned = flow_in_text(alloc, layout, &cert.flow)?;
    let Cert {
        context,
        flow,
        folds,
        proofs,
    } = cert;
    let cert = Cert {
        context,
        flow: turned,
        folds,
        proofs,
    };
    Ok((cert, flow))
}

// The certificate with these trees.
fn with_flow(cert: Cert, flow: Flow) -> Cert
    ensures { result ≡ record cert { flow = flow } }
{
    let Cert {
        context,
        flow: _,
        folds,
        proofs,
    } = cert;
    Cert {
        context,
        flow,
        folds,
        proofs,
    }
}

// The text of a certificate, and the certificate again.
fn written(alloc: Global, layout: &Layout, cert: Cert) -> Result<(Vec<u8>, Cert), AcceptFault>
    ensures read { IfOk result (λ w. (nest : OfNest) → IsLayout nest layout.now → IsRead nest w.0.items w.1) }
    ensures within { IfOk result (λ w. (nest : OfNest) → IsLayout nest layout.now → IsCertWithin nest w.1) }
    ensures same { IfOk result (λ w. w.1 ≡ cert) }
    ensures err { IfErr result (λ e. (nest : OfNest) (plan : OfPlan) (text : List ℕ) → IsLayout nest layout.now → IsRead nest text cert → AcceptRefuses nest plan text e) }
{
    let (cert, flow) = turned(alloc, layout, cert)?;
    match to_json_for(alloc, &cert, layout) {
        Ok(text) => Ok((text, with_flow(cert, flow))),
        Err(fault) => Err(of_text(fault)),
    }
}

/// Accepts a certificate that isn't written yet: its text, in which the iterators come first in its trees' forms, and what it shows. It
/// is refused as its text would be.
pub fn accept_cert(
    alloc: Global,
    nest: &Nest,
    plan: &Plan,
    cert: Cert,
) -> Result<Accepted, AcceptFault>
    requires asked { IsAsked nest.now plan.now.schedule }
    ensures ok { IfOk result (λ a. IsAccepted nest.now plan.now a.text.items a.checked.folds.items) }
    ensures spare { IfOk result (λ a. AcceptsSparing nest.now plan.now a.text.items a.checked.folds.items a.checked.spare) }
    ensures err { IfErr result (λ e. (text : List ℕ) → IsRead nest.now text cert → AcceptRefuses nest.now plan.now text e) }
{
    let layout = layout(alloc, nest)?;
    let (text, cert) = written(alloc, &layout, cert)?;
    with_bases(alloc, nest, plan, &cert)?;
    let checked = accept_items(alloc, nest, plan, &cert)?;
    Ok(Accepted { text, checked })
}
