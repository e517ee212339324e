//! What the definitions give of small lists, as laws, and stored costs that are made and asked.
ghost use Rattle.std.specs.Prelude.{◌≡◌, List, ℕ};
ghost use Rattle.affc_weigh.specs.Costs.{AreModuli, NeverFalls, TakesModuli, words_cost, sum_cost, powers_cost};
ghost use Rattle.affc_weigh.specs.Examples.{CostsOfNone, CostsOfThree, ProductsStop, OtherLists, OrderOfLists, FewerIsMore};

use crate::costs;
use crate::weigher::{Cost, Weigher};

/// Costs of small lists.
#[tactic(auto, using(crate::proofs::ExampleProofs::costs_of_none, crate::proofs::ExampleProofs::costs_of_three, crate::proofs::ExampleProofs::products_stop))]
pub fn values()
    ensures none { CostsOfNone }
    ensures three { CostsOfThree }
    ensures stop { ProductsStop }
{}

/// Lists that are moduli, and lists in order.
#[tactic(auto, using(crate::proofs::ExampleProofs::other_lists, crate::proofs::ExampleProofs::order_of_lists))]
pub fn lists()
    ensures moduli { OtherLists }
    ensures order { OrderOfLists }
{}

/// A cost that falls.
#[tactic(auto, using(crate::proofs::ExampleProofs::fewer_is_more))]
pub fn falling()
    ensures falls { FewerIsMore }
{}

/// A cost is stored and asked once.
pub fn asked<F: Cost>(cost: F, moduli: &[u64]) -> u128
    requires moduli { AreModuli moduli.now }
    requires takes { TakesModuli (F.takes cost) }
    requires never_falls { NeverFalls (F.answers cost) }
    ensures { F.answers cost moduli.now result }
{
    Weigher::new(cost).cost(moduli)
}

/// `words` can be stored.
pub fn by_words(moduli: &[u64]) -> u128
    requires { AreModuli moduli.now }
    ensures { result ≡ words_cost moduli.now }
{
    asked(costs::words, moduli)
}

/// `sum` can be stored.
pub fn by_sum(moduli: &[u64]) -> u128
    requires { AreModuli moduli.now }
    ensures { result ≡ sum_cost moduli.now }
{
    asked(costs::sum, moduli)
}

/// `powers` can be stored.
pub fn by_powers(moduli: &[u64]) -> u128
    requires { AreModuli moduli.now }
    ensures { result ≡ powers_cost moduli.now }
{
    asked(costs::powers, moduli)
}
