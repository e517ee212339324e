//! A cost beside what is known of it.
ghost use Rattle.std.specs.Prelude.{◌≡◌, ◌≤◌, List, ℕ};
ghost use Rattle.std.specs.Fn.{FnReturnsAt};
ghost use Rattle.affc_weigh.specs.Costs.{AreModuli, NeverFalls, TakesModuli};

/// What answers a number to a list of moduli: each function of such lists, and each closure.
pub trait Cost: Drop {
    /// Which lists it may be called on.
    ghost takes: { Self → List ℕ → Type 0 };

    /// What it may answer.
    ghost answers: { Self → List ℕ → ℕ → Type 0 };

    fn at(&self, moduli: &[u64]) -> u128
        requires { takes self.now moduli.now }
        ensures { answers self.now moduli.now result };
}

impl<F: Fn(&[u64]) -> u128> Cost for F {
    ghost takes = { λ f moduli. (shown : _) → shown.now ≡ moduli → F.pre f shown };

    ghost answers = { FnReturnsAt F.Fn };

    fn at(&self, moduli: &[u64]) -> u128 {
        self(moduli)
    }
}

/// A stored cost: it may be called on any moduli, and never falls where no number falls.
#[derive(Drop)]
pub struct Weigher<F: Cost> {
    pub cost: F,
    ghost takes: { ∥ TakesModuli (F.takes cost) ∥₁ },
    ghost never_falls: { NeverFalls (F.answers cost) },
}

impl<F: Cost> Weigher<F> {
    pub fn new(cost: F) -> Weigher<F>
        requires takes { TakesModuli (F.takes cost) }
        requires never_falls { NeverFalls (F.answers cost) }
        ensures { result.cost ≡ cost }
    {
        Weigher { cost }
    }

    /// That the cost may be called is kept.
    fn kept(&self)
        ensures { TakesModuli (F.takes self.now.cost) }
    {}

    pub fn cost(&self, moduli: &[u64]) -> u128
        requires { AreModuli moduli.now }
        ensures value { F.answers self.now.cost moduli.now result }
        ensures never_falls { NeverFalls (F.answers self.now.cost) }
    {
        self.kept();
        self.cost.at(moduli)
    }
}
