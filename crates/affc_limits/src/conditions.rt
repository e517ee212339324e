//! How many comparisons and remainders a condition has, and how many pieces it and its denial have.

ghost use Rattle.std.specs.Prelude.{◌≡◌, ◌+◌, ◌*◌, min, map};
ghost use Rattle.affc_syntax.specs.draft.Drafts.{cond, conds_of};
ghost use Rattle.affc_limits.specs.Conditions as spec;

use affc_ast::tree::Rel;
use affc_syntax::draft::draft::CondDraft;

/// Comparisons and remainders, as far as 33, and pieces of the condition and of its denial, each as far as 17.
#[derive(Clone, Copy, Drop)]
pub(crate) struct Counted {
    pub comparisons: usize,
    pub plain: usize,
    pub denied: usize,
}

/// The sum, as far as this number.
pub(crate) fn sum(most: usize, a: usize, b: usize) -> usize
    ensures { result ≡ min most (a + b) }
{
    a.saturating_add(b).min(most)
}

/// The product, as far as this number.
pub(crate) fn product(most: usize, a: usize, b: usize) -> usize
    ensures { result ≡ min most (a * b) }
{
    a.saturating_mul(b).min(most)
}

/// Where one comparison or remainder is the condition.
fn one(plain: usize, denied: usize) -> Counted
    ensures { result ≡ spec.one plain denied }
{
    Counted {
        comparisons: 1,
        plain,
        denied,
    }
}

fn of_relation(rel: Rel) -> Counted
    ensures { result ≡ spec.of_relation rel }
{
    match rel {
        Rel::NotEqual => one(2, 1),
        Rel::Equal => one(1, 2),
        Rel::Less | Rel::LessEqual | Rel::Greater | Rel::GreaterEqual => one(1, 1),
    }
}

/// Of no condition, where all of them or some are asked.
fn none(all: bool) -> Counted
    ensures { result ≡ spec.none all }
{
    if all {
        Counted {
            comparisons: 0,
            plain: 1,
            denied: 0,
        }
    } else {
        Counted {
            comparisons: 0,
            plain: 0,
            denied: 1,
        }
    }
}

/// With one condition more, where all of them or some are asked.
fn joined(all: bool, a: Counted, b: Counted) -> Counted
    ensures { result ≡ spec.joined all a b }
{
    let comparisons = sum(33, a.comparisons, b.comparisons);
    if all {
        Counted {
            comparisons,
            plain: product(17, a.plain, b.plain),
            denied: sum(17, a.denied, b.denied),
        }
    } else {
        Counted {
            comparisons,
            plain: sum(17, a.plain, b.plain),
            denied: product(17, a.denied, b.denied),
        }
    }
}

/// What is counted of a condition. The recursion goes as deep as `&&` and `||` stand in one another.
#[cycle(conditions)]
#[tactic(auto, using(affc_syntax::proofs::draft::Outs::cond_outs))]
pub(crate) fn count(c: &CondDraft) -> Counted
    ensures { result ≡ spec.counted (cond c.now) }
{
    match c {
        CondDraft::Compare(compare) => of_relation(compare.rel),
        CondDraft::Divides { .. } => one(1, 1),
        CondDraft::All(entries) => count_each(true, entries.as_slice()),
        CondDraft::Any(entries) => count_each(false, entries.as_slice()),
    }
}

/// What is counted of conditions, where all of them or some are asked.
#[cycle(conditions)]
fn count_each(all: bool, items: &[CondDraft]) -> Counted
    ensures { result ≡ spec.counted_each all (conds_of (map cond items.now)) }
{
    let mut made = none(all);
    for item in items {
        made = joined(all, made, count(item));
    }
    made
}
