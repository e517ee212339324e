//! Certificates that are accepted.
ghost use Rattle.std.specs.Prelude.{IfOk};
ghost use Rattle.affc_split.specs.Budgets.{IsLater};
ghost use Rattle.affc_sched.specs.Legality.{IsAsked};
ghost use Rattle.affc_quast.specs.Seen.{trees_of};
ghost use Rattle.affc_life.specs.Asked.{KeepLimits};
ghost use Rattle.affc_certify.specs.Certified.{IsCertified};
ghost use Rattle.affc_certify.specs.Left.{AreLeft};

use crate::clashing::Subject;
use crate::drafting::CertDraft;
use crate::kept::{Made, turned};
use crate::shown::are_shown;
use affc_accept::{Accepted, accept_cert};
use affc_ast::tree::ArrayId;
use affc_basis::Fold;
use affc_cert::Cert;
use affc_farkas::Proof;
use affc_nest::Nest;
use affc_quast::Flow;
use affc_schedtext::Plan;
use affc_split::Budget;
use sqlite_items::Items;
use std::alloc::{AllocError, Global};

/// A certificate's text, and the folds that it shows.
#[derive(Drop)]
pub struct Certified {
    pub text: Vec<u8>,
    pub folds: Items<(ArrayId, Fold)>,
}

/// The entries of all temporaries, with their proofs behind these.
fn made(
    alloc: Global,
    asked: Subject<'_>,
    proofs: Items<Proof>,
    folds: Items<(ArrayId, Fold)>,
    budget: &mut Budget,
) -> Result<Made, AllocError>
    requires asked { IsAsked asked.nest.now asked.schedule.now }
    requires trees { KeepLimits asked.nest.now (trees_of asked.flow.now) }
    ensures left { IfOk result (λ made. AreLeft budget.new folds made.kept) }
    ensures later { IsLater budget.old budget.new }
{
    let mut left = turned(alloc, folds)?;
    let mut made = Made {
        entries: Items::new(alloc),
        proofs,
        kept: Items::new(alloc),
    };
    let arrays = asked.nest.arrays.as_slice();
    for (number, info) in arrays.iter().enumerate() {
        let Ok(number) = u32::try_from(number) else {
            return Err(AllocError);
        };
        made.add_array(alloc, asked, ArrayId(number), info, &mut left, budget)?;
    }
    if !left.is_empty() {
        return Err(AllocError);
    }
    Ok(made)
}

/// The text of a certificate that is accepted and shows these folds, with a proof for each question and none behind.
#[tactic(auto, using(crate::proofs::SpareLemmas::is_certified))]
fn shown_text(
    alloc: Global,
    nest: &Nest,
    plan: &Plan,
    cert: Cert,
    folds: &[(ArrayId, Fold)],
) -> Result<Vec<u8>, AllocError>
    requires asked { IsAsked nest.now plan.now.schedule }
    ensures { IfOk result (λ text. IsCertified nest.now plan.now text.items folds.now) }
{
    let Ok(Accepted { text, checked }) = accept_cert(alloc, nest, plan, cert) else {
        return Err(AllocError);
    };
    if checked.spare != 0 {
        return Err(AllocError);
    }
    if are_shown(alloc, nest, folds, checked.folds.as_slice())? {
        Ok(text)
    } else {
        Err(AllocError)
    }
}

/// A certificate of these folds of a program, behind its draft. Where the budget ends, the fold whose questions aren't proved yet is
/// left out: its array is left whole. Proofs of whole arrays take no units.
///
/// What is made is accepted before it is answered, and has as many proofs as questions. Where it isn't or hasn't, as that of a program
/// that isn't right, or where a proof passes the limits of a certificate, want of memory is answered.
pub fn certify(
    alloc: Global,
    nest: &Nest,
    plan: &Plan,
    flow: Flow,
    draft: CertDraft,
    folds: Items<(ArrayId, Fold)>,
    budget: &mut Budget,
) -> Result<Certified, AllocError>
    requires asked { IsAsked nest.now plan.now.schedule }
    requires trees { KeepLimits nest.now (trees_of flow) }
    ensures ok { IfOk result (λ c. IsCertified nest.now plan.now c.text.items c.folds) }
    ensures left { IfOk result (λ c. AreLeft budget.new folds c.folds) }
    ensures later { IsLater budget.old budget.new }
{
    let CertDraft { context, proofs } = draft;
    let asked = Subject {
        nest,
        flow: &flow,
        schedule: &plan.schedule,
    };
    let Made {
        entries,
        proofs,
        kept,
    } = made(alloc, asked, proofs, folds, budget)?;
    let cert = Cert {
        context,
        flow,
        folds: entries,
        proofs,
    };
    let text = shown_text(alloc, nest, plan, cert, kept.as_slice())?;
    Ok(Certified { text, folds: kept })
}
