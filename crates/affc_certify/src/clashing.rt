//! The clash systems of an array, and what is known of each.
ghost use Rattle.std.specs.Prelude.{◌≡◌, IfOk, IfErr, Some};
ghost use Rattle.affc_split.specs.Budgets.{IsLater};
ghost use Rattle.affc_sched.specs.Legality.{IsAsked};
ghost use Rattle.affc_quast.specs.Seen.{trees_of};
ghost use Rattle.affc_life.specs.Asked.{KeepLimits};
ghost use Rattle.affc_certify.specs.Asked.{AreClashesOf};

use crate::streamed::known_of;
use affc_ast::tree::ArrayId;
use affc_farkas::Proof;
use affc_life::{ClashProduct, clash_products};
use affc_nest::Nest;
use affc_products::is_proof;
use affc_prove::lengthened;
use affc_quast::Flow;
use affc_split::{Budget, Stop};
use affc_system::System;
use affc_trace::schedule::Schedule;
use sqlite_items::Items;
use std::alloc::{AllocError, Global};

/// A program's nest, its trees and its schedule.
#[derive(Clone, Copy, Drop)]
pub(crate) struct Subject<'a> {
    pub nest: &'a Nest,
    pub flow: &'a Flow,
    pub schedule: &'a Schedule,
}

/// What is known of a clash system.
#[derive(Drop)]
pub(crate) enum Clash {
    /// One or two of its rows show that it has no point.
    Barred,
    /// A proof shows that it has no point.
    Void(System, Proof),
    /// It may have points. It is one of the product with this number.
    Live(usize, System),
}

/// The clash systems of an array in product form, and what is known of each in turn.
#[derive(Drop)]
pub(crate) struct Clashes {
    pub products: Vec<ClashProduct>,
    pub known: Items<Clash>,
}

impl Clashes {
    /// The proof of a question with the rows of the clash system with this number first, from a proof that the system has no point,
    /// if there is one.
    pub(crate) fn carried(
        &self,
        alloc: Global,
        number: usize,
        question: &System,
    ) -> Result<Option<Proof>, AllocError> {
        match self.known.get(number) {
            Some(Clash::Void(system, proof)) => carried(alloc, system, proof, question),
            _ => Ok(None),
        }
    }
}

/// The clash systems of an array, and what is known of each. One past the limits of a system counts as want of memory.
pub(crate) fn clashes_of(
    alloc: Global,
    asked: Subject<'_>,
    array: ArrayId,
    budget: &mut Budget,
) -> Result<Clashes, Stop>
    requires asked { IsAsked asked.nest.now asked.schedule.now }
    requires trees { KeepLimits asked.nest.now (trees_of asked.flow.now) }
    ensures products { IfOk result (λ c. AreClashesOf asked.entry.nest.now (trees_of asked.entry.flow.now) asked.entry.schedule.now array.0 c.products.items) }
    ensures later { IsLater budget.old budget.new }
    ensures stop { IfErr result (λ e. e ≡ Stop.Budget → budget.new.limit ≡ Some budget.new.spent) }
{
    let (nest, flow, schedule) = (asked.nest, asked.flow, asked.schedule);
    let Ok(products) = clash_products(alloc, nest, flow, schedule, array) else {
        return Err(Stop::Memory);
    };
    let known = known_of(alloc, products.as_slice(), budget)?;
    Ok(Clashes { products, known })
}

/// The proof of a question that has the rows of a system first, from a proof of that system.
fn carried(
    alloc: Global,
    system: &System,
    proof: &Proof,
    question: &System,
) -> Result<Option<Proof>, AllocError> {
    let Some(more) = question.rows().len().checked_sub(system.rows().len()) else {
        return Ok(None);
    };
    let Ok(more) = u32::try_from(more) else {
        return Ok(None);
    };
    let moved = lengthened(alloc, system, more, proof)?;
    if is_proof(question, &moved) {
        Ok(Some(moved))
    } else {
        Ok(None)
    }
}
