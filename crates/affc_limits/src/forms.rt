//! What is asked of whole-number expressions: products, literals.

ghost use Rattle.std.specs.List.{flat_map};
ghost use Rattle.std.specs.Prelude.{map, ◌≡◌};
ghost use Rattle.affc_grammar.specs.Limits.{literals_past, products_in, value_texts};
ghost use Rattle.affc_syntax.specs.draft.Drafts.{ix, value};
ghost use Rattle.affc_limits.specs.Places as places;

use affc_syntax::draft::draft::{IxDraft, ValueDraft};

/// The first, or the second where there is no first.
pub(crate) fn first_of(a: Option<usize>, b: Option<usize>) -> Option<usize>
    ensures { result ≡ places.first_of a b }
{
    match a {
        None => b,
        Some(n) => Some(n),
    }
}

/// The lesser of two places.
pub(crate) fn lesser(a: Option<usize>, b: Option<usize>) -> Option<usize>
    ensures { result ≡ places.lesser a b }
{
    match a {
        None => b,
        Some(n) => match b {
            None => Some(n),
            Some(m) => { if n <= m { Some(n) } else { Some(m) } }
        },
    }
}

/// Whether an expression holds names, and the `*` of its first product both of whose sides do.
#[derive(Clone, Copy, Drop)]
pub struct Factors {
    pub has_names: bool,
    pub first_refused: Option<usize>,
}

/// Of an expression without operators.
fn atom(has_names: bool) -> Factors
    ensures { result ≡ places.atom has_names }
{
    Factors {
        has_names,
        first_refused: None,
    }
}

/// What stands behind an operand: whether it holds names, and the `*` of the first product there both of whose sides do,
/// where the operand holds names and where it holds none.
#[derive(Clone, Copy, Drop)]
struct Behind {
    has_names: bool,
    if_named: Option<usize>,
    if_bare: Option<usize>,
}

/// What the operand and what stands behind it are together.
fn closed(operand: Factors, behind: Behind) -> Factors
    ensures { result ≡ places.closed operand behind }
{
    let rest = if operand.has_names {
        behind.if_named
    } else {
        behind.if_bare
    };
    Factors {
        has_names: operand.has_names || behind.has_names,
        first_refused: first_of(operand.first_refused, rest),
    }
}

/// One part more.
fn before_part(part: Factors, behind: Behind) -> Behind
    ensures { result ≡ places.before_part part behind }
{
    let rest = closed(part, behind);
    Behind {
        has_names: rest.has_names,
        if_named: first_of(part.first_refused, behind.if_named),
        if_bare: rest.first_refused,
    }
}

/// One part more, with a `*` in front of it.
fn before_side(at: usize, side: Factors, behind: Behind) -> Behind
    ensures { result ≡ places.before_side at side behind }
{
    let rest = before_part(side, behind);
    Behind {
        has_names: rest.has_names,
        if_named: first_of(place_if(side.has_names, at), rest.if_named),
        if_bare: rest.if_bare,
    }
}

/// What the rule on products asks of an expression. The recursion is into right operands alone.
#[tactic(auto, using(affc_syntax::proofs::draft::Outs::ix_outs, crate::proofs::PlaceLaws::product_laws))]
pub fn products(e: &IxDraft) -> Factors
    ensures { result ≡ places.products (ix e.now) }
{
    let mut here = e;
    let mut behind = Behind {
        has_names: false,
        if_named: None,
        if_bare: None,
    };
    loop {
        match here {
            IxDraft::Literal { .. } => return closed(atom(false), behind),
            IxDraft::Name { .. } => return closed(atom(true), behind),
            IxDraft::Negated { of, .. } => here = of.get(),
            IxDraft::Sum(left, right) => {
                behind = before_part(products(right.get()), behind);
                here = left.get();
            }
            IxDraft::Difference(left, right) => {
                behind = before_part(products(right.get()), behind);
                here = left.get();
            }
            IxDraft::Product { at, left, right } => {
                behind = before_side(*at, products(right.get()), behind);
                here = left.get();
            }
            IxDraft::Grouped { inside, .. } => here = inside.get(),
            IxDraft::Chosen { left, right, .. } => {
                behind = before_part(products(right.get()), behind);
                here = left.get();
            }
            IxDraft::Divided { of, .. } => here = of.get(),
        }
    }
}

pub(crate) fn place_if(passed: bool, at: usize) -> Option<usize>
    ensures { result ≡ places.place_if passed at }
{
    if passed { Some(at) } else { None }
}

/// The least place of a literal above the limit. The recursion is into right operands alone.
#[tactic(auto, using(affc_syntax::proofs::draft::Outs::ix_outs, crate::proofs::PlaceLaws::least_laws))]
pub(crate) fn literal_past(limit: u64, e: &IxDraft) -> Option<usize>
    ensures { result ≡ places.least (literals_past limit (ix e.now)) }
{
    let mut here = e;
    let mut behind = None;
    loop {
        match here {
            IxDraft::Literal { at, value } => {
                return lesser(place_if(limit < *value, *at), behind);
            }
            IxDraft::Name { .. } => return behind,
            IxDraft::Negated { of, .. } | IxDraft::Grouped { inside: of, .. } => here = of.get(),
            IxDraft::Sum(left, right)
            | IxDraft::Difference(left, right)
            | IxDraft::Product { left, right, .. }
            | IxDraft::Chosen { left, right, .. } => {
                behind = lesser(literal_past(limit, right.get()), behind);
                here = left.get();
            }
            IxDraft::Divided { of, by_at, by, .. } => {
                behind = lesser(place_if(limit < *by, *by_at), behind);
                here = of.get();
            }
        }
    }
}

/// The `*` of the first product both of whose sides hold names.
pub(crate) fn first_product_in(e: &IxDraft) -> Option<usize>
    ensures { result ≡ places.first (products_in (ix e.now)) }
{
    let factors = products(e);
    factors.first_refused
}
