//! What may be concluded about stored costs. Each law is the contract of a function that does nothing.
ghost use Rattle.std.specs.Prelude.{List, ℕ, ℤ};
ghost use Rattle.affc_weigh.specs.Laws.{LessCostsNoMore, GivenCosts, NamedNeverFall, LeastPowerIsLeast};

/// Answers of a stored cost, and the context of a program.
pub trait Costing {
    ghost answers: { List ℕ → ℕ → Type 0 };

    ghost in_context: { List ℤ → Type 0 };
}

/// A fold with no greater moduli costs no more.
pub fn less_costs_no_more<C: Costing>()
    ensures law { LessCostsNoMore C.answers C.in_context }
{}

/// A stored function costs what it gives.
#[tactic(auto, using(crate::proofs::StoredCosts::given_costs))]
pub fn given_costs<C: Costing>()
    ensures law { GivenCosts C.in_context }
{}

/// The costs by name never fall.
#[tactic(auto, using(crate::proofs::Rising::named_never_fall))]
pub fn named_never_fall()
    ensures law { NamedNeverFall }
{}

/// The number that `powers` takes for a modulus.
#[tactic(auto, using(crate::proofs::LeastPowers::least_power_is_least))]
pub fn least_power_is_least()
    ensures law { LeastPowerIsLeast }
{}
