//! What is made of listed questions and of clash systems, of which no more than one stands written out at a time.
ghost use Rattle.std.specs.Prelude.{◌≡◌, ◌∷◌, [], IfOk, IfErr, OnOk, Some};
ghost use Rattle.std.specs.List.{All};
ghost use Rattle.affc_system.specs.Systems.{IsRow};
ghost use Rattle.affc_split.specs.Budgets.{IsLater};

use crate::clashing::{Clash, Clashes};
use crate::question::add_item_proof;
use crate::written::{Barred, Written};
use affc_check::list::Listed;
use affc_farkas::Proof;
use affc_life::ClashProduct;
use affc_products::Block;
use affc_prove::{proof_of, refutation};
use affc_rows::Form;
use affc_split::{Budget, Stop};
use affc_system::System;
use sqlite_items::Items;
use std::alloc::{AllocError, Global};

/// How many questions have what is written out first: one for each choice of alternatives and a tail. Past 2^64 there is no memory
/// for them.
fn count_of(factors: &[Items<Items<Form>>], tails: &[Items<Form>]) -> Result<usize, AllocError> {
    let mut count = tails.len();
    for factor in factors {
        let Some(times) = count.checked_mul(factor.len()) else {
            return Err(AllocError);
        };
        count = times;
    }
    Ok(count)
}

/// What is made on a walk.
#[derive(Clone, Copy, Drop)]
enum Aim<'a> {
    /// What is known of the clash systems of the product with this number.
    Known(usize),
    /// Proofs of questions, which are on these clash systems, two on each, if some are given.
    Proofs(Option<&'a Clashes>),
}

/// A walk over questions: what is made of them, and how many on clash systems it came by since the last item that stands by itself.
#[derive(Drop)]
struct Walk<'a> {
    aim: Aim<'a>,
    number: usize,
    known: Items<Clash>,
    proofs: Items<Proof>,
}

impl<'a> Walk<'a> {
    /// Nothing is made yet.
    fn new(alloc: Global, aim: Aim<'a>) -> Walk<'a> {
        Walk {
            aim,
            number: 0,
            known: Items::new(alloc),
            proofs: Items::new(alloc),
        }
    }

    /// Goes so many questions on. Past 2^64 there is no memory for their proofs.
    fn go_on(&mut self, count: usize) -> Result<(), AllocError> {
        let Some(number) = self.number.checked_add(count) else {
            return Err(AllocError);
        };
        self.number = number;
        Ok(())
    }

    /// Adds so many clash systems that are barred.
    fn add_barred(&mut self, count: usize) -> Result<(), AllocError> {
        for _ in 0..count {
            self.known.push(Clash::Barred)?;
        }
        Ok(())
    }

    /// Adds the leaf of these rows for so many questions.
    fn add_leaves(
        &mut self,
        alloc: Global,
        barred: Barred,
        count: usize,
    ) -> Result<(), AllocError> {
        for _ in 0..count {
            self.proofs.push(barred.leaf(alloc)?)?;
        }
        self.go_on(count)
    }

    /// Comes by so many questions that have these rows.
    fn pass(&mut self, alloc: Global, barred: Barred, count: usize) -> Result<(), AllocError> {
        match self.aim {
            Aim::Known(_) => self.add_barred(count),
            Aim::Proofs(_) => self.add_leaves(alloc, barred, count),
        }
    }

    /// Adds what is known of the clash system that comes next.
    fn add_clash(
        &mut self,
        alloc: Global,
        product: usize,
        system: &System,
        budget: &mut Budget,
    ) -> Result<(), Stop>
        ensures later { IsLater budget.old budget.new }
        ensures stop { IfErr result (λ e. e ≡ Stop.Budget → budget.new.limit ≡ Some budget.new.spent) }
    {
        let clash = match refutation(alloc, system, budget)? {
            Some(proof) => Clash::Void(system.clone()?, proof),
            None => Clash::Live(product, system.clone()?),
        };
        self.known.push(clash)?;
        Ok(())
    }

    /// The proof of the question that comes next, by that of the clash system that it is on.
    fn carried(
        &self,
        alloc: Global,
        clashes: Option<&Clashes>,
        question: &System,
    ) -> Result<Option<Proof>, AllocError> {
        match clashes {
            Some(clashes) => clashes.carried(alloc, self.number / 2, question),
            None => Ok(None),
        }
    }

    /// Adds the proof of the question that comes next.
    fn add_proof(
        &mut self,
        alloc: Global,
        clashes: Option<&Clashes>,
        question: &System,
        budget: &mut Budget,
    ) -> Result<(), Stop>
        ensures later { IsLater budget.old budget.new }
        ensures stop { IfErr result (λ e. e ≡ Stop.Budget → budget.new.limit ≡ Some budget.new.spent) }
    {
        let proof = match self.carried(alloc, clashes, question)? {
            Some(proof) => proof,
            None => proof_of(alloc, question, budget)?,
        };
        self.proofs.push(proof)?;
        self.go_on(1)?;
        Ok(())
    }

    /// Comes by the question that is written out.
    fn look(&mut self, alloc: Global, system: &System, budget: &mut Budget) -> Result<(), Stop>
        ensures later { IsLater budget.old budget.new }
        ensures stop { IfErr result (λ e. e ≡ Stop.Budget → budget.new.limit ≡ Some budget.new.spent) }
    {
        match self.aim {
            Aim::Known(product) => self.add_clash(alloc, product, system, budget),
            Aim::Proofs(clashes) => self.add_proof(alloc, clashes, system, budget),
        }
    }
}

/// Comes by the question with a tail behind what is written out.
fn add_tail(
    alloc: Global,
    written: &mut Written,
    tail: &[Form],
    walk: &mut Walk<'_>,
    budget: &mut Budget,
) -> Result<(), Stop>
    requires tail { All (IsRow written.old.system.columns) tail.now }
    ensures same { OnOk result (written.new.system.columns ≡ written.old.system.columns) }
    ensures later { IsLater budget.old budget.new }
    ensures stop { IfErr result (λ e. e ≡ Stop.Budget → budget.new.limit ≡ Some budget.new.spent) }
{
    let count = written.len();
    match written.add(tail)? {
        Some(barred) => walk.pass(alloc, barred, 1)?,
        None => walk.look(alloc, &written.system, budget)?,
    }
    written.cut_back(count);
    Ok(())
}

/// Comes by the questions with each tail behind what is written out.
fn add_tails(
    alloc: Global,
    written: &mut Written,
    tails: &[Items<Form>],
    walk: &mut Walk<'_>,
    budget: &mut Budget,
) -> Result<(), Stop>
    requires tails { All (All (IsRow written.old.system.columns)) tails.now }
    ensures same { OnOk result (written.new.system.columns ≡ written.old.system.columns) }
    ensures later { IsLater budget.old budget.new }
    ensures stop { IfErr result (λ e. e ≡ Stop.Budget → budget.new.limit ≡ Some budget.new.spent) }
{
    for tail in tails {
        add_tail(alloc, written, tail.as_slice(), walk, budget)?;
    }
    Ok(())
}

/// Comes by the questions that have these rows and then one alternative of each later factor behind what is written out.
#[cycle(factors)]
fn add_behind(
    alloc: Global,
    written: &mut Written,
    rows: &[Form],
    later: &[Items<Items<Form>>],
    tails: &[Items<Form>],
    walk: &mut Walk<'_>,
    budget: &mut Budget,
) -> Result<(), Stop>
    requires rows { All (IsRow written.old.system.columns) rows.now }
    requires later { All (All (All (IsRow written.old.system.columns))) later.now }
    requires tails { All (All (IsRow written.old.system.columns)) tails.now }
    ensures same { OnOk result (written.new.system.columns ≡ written.old.system.columns) }
    ensures later { IsLater budget.old budget.new }
    ensures stop { IfErr result (λ e. e ≡ Stop.Budget → budget.new.limit ≡ Some budget.new.spent) }
{
    let count = written.len();
    match written.add(rows)? {
        Some(barred) => walk.pass(alloc, barred, count_of(later, tails)?)?,
        None => add_factors(alloc, written, later, tails, walk, budget)?,
    }
    written.cut_back(count);
    Ok(())
}

/// Comes by the questions with an alternative of a factor behind what is written out, for each in turn.
#[cycle(factors)]
fn add_each(
    alloc: Global,
    written: &mut Written,
    first: &[Items<Form>],
    later: &[Items<Items<Form>>],
    tails: &[Items<Form>],
    walk: &mut Walk<'_>,
    budget: &mut Budget,
) -> Result<(), Stop>
    requires first { All (All (IsRow written.old.system.columns)) first.now }
    requires later { All (All (All (IsRow written.old.system.columns))) later.now }
    requires tails { All (All (IsRow written.old.system.columns)) tails.now }
    ensures same { OnOk result (written.new.system.columns ≡ written.old.system.columns) }
    ensures later { IsLater budget.old budget.new }
    ensures stop { IfErr result (λ e. e ≡ Stop.Budget → budget.new.limit ≡ Some budget.new.spent) }
{
    for rows in first {
        add_behind(alloc, written, rows.as_slice(), later, tails, walk, budget)?;
    }
    Ok(())
}

/// Comes by the questions with one alternative of each factor behind what is written out.
#[cycle(factors)]
fn add_factors(
    alloc: Global,
    written: &mut Written,
    factors: &[Items<Items<Form>>],
    tails: &[Items<Form>],
    walk: &mut Walk<'_>,
    budget: &mut Budget,
) -> Result<(), Stop>
    requires factors { All (All (All (IsRow written.old.system.columns))) factors.now }
    requires tails { All (All (IsRow written.old.system.columns)) tails.now }
    ensures same { OnOk result (written.new.system.columns ≡ written.old.system.columns) }
    ensures later { IsLater budget.old budget.new }
    ensures stop { IfErr result (λ e. e ≡ Stop.Budget → budget.new.limit ≡ Some budget.new.spent) }
{
    match factors {
        [] => add_tails(alloc, written, tails, walk, budget),
        [first, later @ ..] => {
            add_each(alloc, written, first.as_slice(), later, tails, walk, budget)
        }
    }
}

/// Adds the proofs of the questions of a block.
fn add_block(
    alloc: Global,
    block: &Block<'_>,
    walk: &mut Walk<'_>,
    budget: &mut Budget,
) -> Result<(), Stop>
    ensures later { IsLater budget.old budget.new }
    ensures stop { IfErr result (λ e. e ≡ Stop.Budget → budget.new.limit ≡ Some budget.new.spent) }
{
    let mut written = Written::new(alloc, block.columns);
    let tails = block.tails.as_slice();
    add_behind(
        alloc,
        &mut written,
        block.front,
        block.factors,
        tails,
        walk,
        budget,
    )
}

/// Adds the proofs of what is listed.
fn add_listed(
    alloc: Global,
    listed: &Listed<'_>,
    walk: &mut Walk<'_>,
    budget: &mut Budget,
) -> Result<(), Stop>
    ensures later { IsLater budget.old budget.new }
    ensures stop { IfErr result (λ e. e ≡ Stop.Budget → budget.new.limit ≡ Some budget.new.spent) }
{
    match listed {
        Listed::One(item) => {
            walk.number = 0;
            add_item_proof(alloc, item, budget, &mut walk.proofs)
        }
        Listed::Questions(block) => add_block(alloc, block, walk, budget),
    }
}

/// The proofs of what is listed, in order. The questions of blocks are on these clash systems, two on each, if some are given.
pub(crate) fn proofs_of(
    alloc: Global,
    listed: &[Listed<'_>],
    clashes: Option<&Clashes>,
    budget: &mut Budget,
) -> Result<Items<Proof>, Stop>
    ensures later { IsLater budget.old budget.new }
    ensures stop { IfErr result (λ e. e ≡ Stop.Budget → budget.new.limit ≡ Some budget.new.spent) }
{
    let mut walk = Walk::new(alloc, Aim::Proofs(clashes));
    for one in listed {
        add_listed(alloc, one, &mut walk, budget)?;
    }
    Ok(walk.proofs)
}

/// One tail without rows.
fn one_tail(alloc: Global) -> Result<Items<Items<Form>>, AllocError>
    ensures { IfOk result (λ t. t ≡ [] ∷ []) }
{
    let mut tails = Items::new(alloc);
    tails.push(Items::new(alloc))?;
    Ok(tails)
}

/// Adds what is known of the clash systems of a product.
fn add_product(
    alloc: Global,
    product: &ClashProduct,
    walk: &mut Walk<'_>,
    budget: &mut Budget,
) -> Result<(), Stop>
    ensures later { IsLater budget.old budget.new }
    ensures stop { IfErr result (λ e. e ≡ Stop.Budget → budget.new.limit ≡ Some budget.new.spent) }
{
    let tails = one_tail(alloc)?;
    let base = &product.base.system;
    let mut written = Written::new(alloc, base.columns());
    let (factors, tails) = (product.factors.as_slice(), tails.as_slice());
    add_behind(
        alloc,
        &mut written,
        base.rows(),
        factors,
        tails,
        walk,
        budget,
    )
}

/// What is known of the clash systems of these products, in order.
pub(crate) fn known_of(
    alloc: Global,
    products: &[ClashProduct],
    budget: &mut Budget,
) -> Result<Items<Clash>, Stop>
    ensures later { IsLater budget.old budget.new }
    ensures stop { IfErr result (λ e. e ≡ Stop.Budget → budget.new.limit ≡ Some budget.new.spent) }
{
    let mut walk = Walk::new(alloc, Aim::Known(0));
    for (number, product) in products.iter().enumerate() {
        walk.aim = Aim::Known(number);
        add_product(alloc, product, &mut walk, budget)?;
    }
    Ok(walk.known)
}
