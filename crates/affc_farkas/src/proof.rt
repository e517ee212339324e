//! Proofs that a system has no integer point.
ghost use Rattle.std.specs.Prelude.{◌≡◌, ℕ, ◌+◌, ◌-◌, ◌*◌, ◌^◌, ◌<◌, ◌≤◌, ◌↔◌, ◌++◌, ◌∷◌, [], IfErr, IfSome, IfNone, OnOk, OnErr, OnSome, IsTrue, length};
ghost use Rattle.std.specs.List.{All};
ghost use Rattle.affc_farkas.specs.Multiples.{IsRising, AreMultipliers};
ghost use Rattle.affc_farkas.specs.Measures.{drop_measure};

use affc_rows::Form;
use std::alloc::Global;
use std::marker::Model;
use std::mem;
use thiserror::Error;

/// The most multipliers of one sum.
pub const MOST_MULTIPLIERS: usize = 1024;

/// The greatest multiplier.
pub const MOST_MULTIPLIER: u64 = 1 << 53;

/// Row numbers in increasing order, each with a multiplier from 1 to 2^53; at most 1,024 of them.
///
/// The system's rows have the first numbers, and the rows that cuts and splits add have the next ones. Contracts see the list of pairs.
#[derive(Drop)]
pub struct Multipliers {
    pairs: Vec<(u32, u64)>,
}

impl Model for Multipliers {
    ghost use Rattle.std.specs.Prelude.{ℕ, List};
    ghost use Rattle.affc_farkas.specs.Multiples.{AreMultipliers};

    ghost Value = { List (ℕ × ℕ) };

    ghost view = { λ m. m.pairs.items };

    ghost invariant = { λ m. AreMultipliers m.pairs.items };
}

/// Why a multiplier isn't added.
#[derive(Debug, Clone, Copy, PartialEq, Eq, Error)]
pub enum MultiplierFault {
    #[error("the multiplier is 0 or past 2^53")]
    Times,
    #[error("the row's number is not above those before it")]
    Order,
    #[error("there are 1,024 multipliers")]
    Full,
    #[error("out of memory")]
    Memory,
}

/// A proof that a system has no integer point.
///
/// A leaf's multiples sum to a constant below 0. A cut divides the sum of multiples by `g`, rounds the constant down, and adds the
/// row. A split has one proof for the points at which the form is at most `at`, and one for those at which it is more.
pub enum Proof {
    Leaf(Multipliers),
    Cut {
        by: Multipliers,
        g: i64,
        row: Form,
        rest: Box<Proof>,
    },
    Split {
        form: Form,
        at: i64,
        low: Box<Proof>,
        high: Box<Proof>,
    },
}

impl Proof {
    /// What is left of a split once a node of its low side is let go: a low side that splits is turned to the right. `low` is a box
    /// with a leaf in it, to be used again.
    #[cycle(drop)]
    #[tactic(auto, using(crate::proofs::Measured::some_measure))]
    fn turn(self, form: Form, at: i64, low: Box<Proof>, high: Box<Proof>) -> Proof
        requires { drop_measure low.value ≡ 1 }
        ensures { drop_measure result < (drop_measure self + drop_measure self) + drop_measure high.value + 1 }
    {
        match self {
            Proof::Leaf(_) => {
                Box::into_inner(low);
                Box::into_inner(high)
            }
            Proof::Cut {
                by: _,
                g: _,
                row: _,
                rest,
            } => {
                Box::into_inner(low);
                Proof::Split {
                    form,
                    at,
                    low: rest,
                    high,
                }
            }
            Proof::Split {
                form: other,
                at: other_at,
                low: first,
                high: second,
            } => {
                let mut low = low;
                *low = Proof::Split {
                    form,
                    at,
                    low: second,
                    high,
                };
                Proof::Split {
                    form: other,
                    at: other_at,
                    low: first,
                    high: low,
                }
            }
        }
    }
}

/// Letting a proof go is a loop that takes no memory, and its stack doesn't grow with the proof's depth.
impl Drop for Proof {
    #[cycle(drop)]
    #[tactic(auto, using(crate::proofs::Measured::some_measure))]
    fn drop(mut self) {
        loop {
            match self {
                Proof::Leaf(_) => return,
                Proof::Cut {
                    by: _,
                    g: _,
                    row: _,
                    rest,
                } => self = Box::into_inner(rest),
                Proof::Split {
                    form,
                    at,
                    low,
                    high,
                } => {
                    let mut low = low;
                    let alloc = *Box::allocator(&low);
                    let inner = mem::replace(&mut *low, Proof::Leaf(Multipliers::new(alloc)));
                    self = inner.turn(form, at, low, high);
                }
            }
        }
    }
}

/// Whether a row number is above each of these.
fn is_above(row: u32, pairs: &[(u32, u64)]) -> bool
    requires { IsRising pairs.now }
    ensures { IsTrue result ↔ All (λ p. p.0 < row) pairs.now }
{
    let count = pairs.len();
    if count == 0 {
        return true;
    }
    pairs[count - 1].0 < row
}

/// Whether each row number is above those before it.
fn is_rising(pairs: &[(u32, u64)]) -> bool
    ensures { IsTrue result ↔ IsRising pairs.now }
{
    for (i, pair) in pairs.iter().enumerate() {
        if !is_above(pair.0, &pairs[..i]) {
            return false;
        }
    }
    true
}

/// Whether each multiplier keeps its limits.
fn times_fit(pairs: &[(u32, u64)]) -> bool
    ensures { IsTrue result ↔ All (λ p. (1 ≤ p.1) × (p.1 ≤ 2 ^ 53)) pairs.now }
{
    pairs
        .iter()
        .all(|pair| 1 <= pair.1 && pair.1 <= MOST_MULTIPLIER)
}

/// Whether these pairs keep the rules for multipliers.
fn are_multipliers(pairs: &[(u32, u64)]) -> bool
    ensures { IsTrue result ↔ AreMultipliers pairs.now }
{
    pairs.len() <= MOST_MULTIPLIERS && times_fit(pairs) && is_rising(pairs)
}

impl Multipliers {
    /// No multipliers.
    pub fn new(alloc: Global) -> Multipliers
        ensures { result ≡ [] }
    {
        Multipliers {
            pairs: Vec::new(alloc),
        }
    }

    /// How many there are.
    pub fn len(&self) -> usize
        ensures { result ≡ length self.now }
    {
        self.pairs.len()
    }

    /// Adds a row number with its multiplier.
    pub fn push(&mut self, row: u32, times: u64) -> Result<(), MultiplierFault>
        ensures ok { OnOk result (self.new ≡ self.old ++ (row, times) ∷ []) }
        ensures err { OnErr result (self.new ≡ self.old) }

        // The faults come in this order.
        ensures small { OnOk result ((1 ≤ times) × (times ≤ 2 ^ 53)) }
        ensures times { IfErr result (λ e. e ≡ MultiplierFault.Times → ¬ ((1 ≤ times) × (times ≤ 2 ^ 53))) }
        ensures rising { OnOk result (All (λ p. p.0 < row) self.old) }
        ensures order { IfErr result (λ e. e ≡ MultiplierFault.Order → (1 ≤ times) × (times ≤ 2 ^ 53) × ¬ (All (λ p. p.0 < row) self.old)) }
        ensures room { OnOk result (length self.old < 1024) }
        ensures full { IfErr result (λ e. e ≡ MultiplierFault.Full → (1 ≤ times) × (times ≤ 2 ^ 53) × All (λ p. p.0 < row) self.old × (length self.old ≡ 1024)) }
    {
        if times == 0 || times > MOST_MULTIPLIER {
            return Err(MultiplierFault::Times);
        }
        if !is_above(row, self.pairs.as_slice()) {
            return Err(MultiplierFault::Order);
        }
        if self.pairs.len() == MOST_MULTIPLIERS {
            return Err(MultiplierFault::Full);
        }
        let Ok(()) = self.pairs.push((row, times)) else {
            return Err(MultiplierFault::Memory);
        };
        Ok(())
    }

    /// These pairs of a row number and its multiplier, or `None` where they break a rule. Nothing is copied.
    pub fn from_pairs(pairs: Vec<(u32, u64)>) -> Option<Multipliers>
        ensures pairs { IfSome result (λ m. m ≡ pairs.items) }
        ensures some { OnSome result (AreMultipliers pairs.items) }
        ensures none { IfNone result (AreMultipliers pairs.items → ⊥) }
    {
        if are_multipliers(pairs.as_slice()) {
            Some(Multipliers { pairs })
        } else {
            None
        }
    }

    /// The pairs of a row number and its multiplier.
    pub fn pairs(&self) -> &[(u32, u64)]
        ensures pairs { result.now ≡ self.now }
        ensures multipliers { AreMultipliers self.now }
    {
        self.pairs.as_slice()
    }
}
