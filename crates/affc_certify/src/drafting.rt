//! What is proved of a program before its folds are looked for.
ghost use Rattle.std.specs.Prelude.{◌≡◌, IfErr, Some};
ghost use Rattle.affc_split.specs.Budgets.{IsLater};
ghost use Rattle.affc_sched.specs.Legality.{IsAsked};
ghost use Rattle.affc_quast.specs.Seen.{trees_of};
ghost use Rattle.affc_certify.specs.Asked.{AreAsked};

use crate::streamed::proofs_of;
use crate::trees::copied_flow;
use affc_cert::Cert;
use affc_check::list::{groups_of, list_all, systems_of};
use affc_farkas::Proof;
use affc_nest::Nest;
use affc_prove::decided;
use affc_quast::Flow;
use affc_split::{Answer, Budget, Stop};
use affc_trace::schedule::Schedule;
use sqlite_items::Items;
use std::alloc::Global;

/// The certificate's point of the context, and the proofs of its questions on extents, accesses, trees and the schedule.
#[derive(Drop)]
pub struct CertDraft {
    pub(crate) context: Items<i64>,
    pub(crate) proofs: Items<Proof>,
}

/// A point of the context.
fn context_point(alloc: Global, nest: &Nest, budget: &mut Budget) -> Result<Items<i64>, Stop>
    ensures later { IsLater budget.old budget.new }
    ensures stop { IfErr result (λ e. e ≡ Stop.Budget → budget.new.limit ≡ Some budget.new.spent) }
{
    match decided(alloc, &nest.context, &nest.params, budget)? {
        Answer::Point(point) => Ok(Items::from_vec(point)),
        Answer::Empty(_proof) => Err(Stop::Memory),
    }
}

/// The proofs of a certificate without folds. A part past the limits of a system counts as want of memory.
fn proofs_before(
    alloc: Global,
    nest: &Nest,
    flow: &Flow,
    schedule: &Schedule,
    budget: &mut Budget,
) -> Result<Items<Proof>, Stop>
    requires asked { IsAsked nest.now schedule.now }
    requires trees { AreAsked nest.now (trees_of flow.now) }
    ensures later { IsLater budget.old budget.new }
    ensures stop { IfErr result (λ e. e ≡ Stop.Budget → budget.new.limit ≡ Some budget.new.spent) }
{
    let cert = Cert {
        context: Items::new(alloc),
        flow: copied_flow(alloc, flow)?,
        folds: Items::new(alloc),
        proofs: Items::new(alloc),
    };
    let systems = systems_of(alloc, nest, schedule, &cert)?;
    let groups = groups_of(alloc, nest, schedule, &cert)?;
    let systems = systems.as_slice();
    let Ok(listed) = list_all(alloc, nest, schedule, &cert, systems, &groups) else {
        return Err(Stop::Memory);
    };
    proofs_of(alloc, listed.as_slice(), None, budget)
}

/// The certificate's point of the context, and the proofs of its questions on extents, accesses, trees and the schedule. Of a program
/// that isn't right, or where a proof passes the limits of a certificate, want of memory is answered.
pub fn make_draft(
    alloc: Global,
    nest: &Nest,
    flow: &Flow,
    schedule: &Schedule,
    budget: &mut Budget,
) -> Result<CertDraft, Stop>
    requires asked { IsAsked nest.now schedule.now }
    requires trees { AreAsked nest.now (trees_of flow.now) }
    ensures later { IsLater budget.old budget.new }
    ensures stop { IfErr result (λ e. e ≡ Stop.Budget → budget.new.limit ≡ Some budget.new.spent) }
{
    let context = context_point(alloc, nest, budget)?;
    let proofs = proofs_before(alloc, nest, flow, schedule, budget)?;
    Ok(CertDraft { context, proofs })
}
