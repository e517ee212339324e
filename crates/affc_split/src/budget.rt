//! Budgets.
ghost use Rattle.std.specs.Prelude.{◌≡◌, ℕ, ◌+◌, ◌-◌, ◌<◌, ◌≤◌, ◌↔◌, IsTrue, OnOk, OnErr, IsSomeAnd, IsNone, Some};
ghost use Rattle.affc_split.specs.Budgets.{Account, Within, IsUnit, IsLater, IsPartOf};

use std::alloc::AllocError;
use std::marker::Model;
use thiserror::Error;

/// How many boxes may be opened, if that is counted, and how many were. A unit is one box.
#[derive(Drop)]
pub struct Budget {
    limit: Option<u64>,
    spent: u64,
}

impl Model for Budget {
    ghost use Rattle.affc_split.specs.Budgets.{Account, Within};

    ghost Value = { Account };

    ghost view = { λ b. record { limit = b.limit; spent = b.spent } };

    ghost invariant = { λ b. Within (record { limit = b.limit; spent = b.spent }) };
}

/// Why there is no decision.
#[derive(Debug, Clone, Copy, PartialEq, Eq, Error)]
pub enum Stop {
    #[error("the budget is spent")]
    Budget,
    #[error("out of memory")]
    Memory,
}

impl From<AllocError> for Stop {
    ghost use Rattle.std.specs.Prelude.{◌≡◌};
    ghost use Rattle.affc_split.specs.declared.budget.Stop.TheVariants.{Memory};

    ghost from_gives = { λ e s. s ≡ Memory };

    fn from(_e: AllocError) -> Stop {
        Stop::Memory
    }
}

impl Budget {
    /// A budget of which nothing is spent. Without a limit nothing is counted.
    pub fn new(limit: Option<u64>) -> Budget
        ensures { result ≡ record { limit = limit; spent = 0 } }
    {
        Budget { limit, spent: 0 }
    }

    /// The limit.
    pub fn limit(&self) -> Option<u64>
        ensures { result ≡ self.now.limit }
    {
        self.limit
    }

    /// What is spent.
    pub fn spent(&self) -> u64
        ensures { result ≡ self.now.spent }
    {
        self.spent
    }

    /// Takes a unit for a box that is opened, where one is left or none is counted.
    pub(crate) fn open(&mut self) -> Result<(), Stop>
        ensures limit { self.new.limit ≡ self.old.limit }
        ensures uncounted { IsNone self.old.limit → self.new.spent ≡ self.old.spent }
        ensures grows { self.old.spent ≤ self.new.spent }
        ensures step { self.new.spent ≤ self.old.spent + 1 }
        ensures counted { OnOk result (IsUnit self.old self.new) }
        ensures fits { OnOk result (self.old.limit ≡ Some self.old.spent → ⊥) }
        ensures stop { OnErr result (self.old.limit ≡ Some self.new.spent) }
        ensures unspent { OnErr result (self.new.spent ≡ self.old.spent) }
        ensures budget { OnErr result (result ≡ Err Stop.Budget) }
        ensures kept { Within self.new }
    {
        if let Some(limit) = self.limit {
            if self.spent == limit {
                return Err(Stop::Budget);
            }
            self.spent += 1;
        }
        Ok(())
    }

    /// Whether all of the budget is spent.
    pub(crate) fn is_spent(&self) -> bool
        ensures { IsTrue result ↔ (self.now.limit ≡ Some self.now.spent) }
    {
        self.limit == Some(self.spent)
    }

    /// A budget of no more than so many units of this one.
    pub(crate) fn part(&self, units: u64) -> Budget
        ensures { IsPartOf units result self.now }
    {
        let limit = match self.spent.checked_add(units) {
            Some(most) => Some(self.limit.map_or(most, |limit| limit.min(most))),
            None => self.limit,
        };
        Budget {
            limit,
            spent: self.spent,
        }
    }

    /// Counts what a part of this budget has spent.
    pub(crate) fn charge(&mut self, part: &Budget)
        requires grows { self.old.spent ≤ part.now.spent }
        ensures later { IsLater self.old self.new }
        ensures most { self.new.spent ≤ part.now.spent }
        ensures spent { (l : ℕ) → self.old.limit ≡ Some l → IsSomeAnd part.now.limit (λ k. k ≤ l) → self.new.spent ≡ part.now.spent }
    {
        if let Some(limit) = self.limit {
            self.spent = part.spent.min(limit);
        }
    }
}
