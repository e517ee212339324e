//! Verdicts on proofs.
ghost use Rattle.affc_certvalue.specs.proof.Verdicts.{row_of, is_above, order_from, pair, multipliers, most_coefficient, most_constant, proof_node, arity_of, proof_nodes, proof, kind_of_tag, kind_of};
ghost use Rattle.affc_certvalue.specs.Verdicts.{within, all_of, form_entries, list};
ghost use Rattle.serde_json.specs.Find.{as_array};
ghost use Rattle.serde_json.specs.View.{view, items_view};
ghost use Rattle.std.specs.Prelude.{◌≡◌, ◌<◌, ◌≤◌, None, option_map, true};

use crate::judge::{any_verdict, coefs_verdict, entries_verdict, number_verdict, size_verdict};
use crate::proof::kind::Kind;
use crate::verdict::Verdict;
use serde_json::Value;

/// The most multipliers of one sum.
const MOST_MULTIPLIERS: usize = 1024;

/// The greatest row number.
const MOST_ROW: i64 = 4_294_967_295;

/// The greatest multiplier.
const MOST_MULTIPLIER: i64 = 1 << 53;

/// The greatest coefficient of a row.
const MOST_COEFFICIENT: i64 = 1 << 40;

/// The greatest constant of a row.
const MOST_CONSTANT: i64 = 1 << 60;

/// The number of the row of a multiplier, where it is whole.
fn row_number(value: &Value) -> Option<i64>
    ensures { result ≡ row_of (view value.now) }
{
    let number = value.get(0)?.as_number()?;
    number.as_i64()
}

/// Whether a number is above the last one.
fn rises_from(last: Option<i64>, row: i64) -> bool
    ensures { result ≡ is_above last row }
{
    match last {
        None => true,
        Some(before) => before < row,
    }
}

/// The verdict on the order of row numbers.
#[tactic(auto, using(crate::proofs::Steps::list_steps))]
fn order_verdict(items: &[Value]) -> Verdict
    ensures { result ≡ order_from None true (items_view items.now) }
{
    let mut last = None;
    let mut rises = true;
    for value in items {
        let Some(row) = row_number(value) else {
            return Verdict::Fine;
        };
        rises = rises && rises_from(last, row);
        last = Some(row);
    }
    if rises { Verdict::Fine } else { Verdict::Shape }
}

/// The verdict on a row number with its multiplier.
#[tactic(auto, using(crate::proofs::Parts::exactly_parts))]
fn pair_verdict(value: &Value) -> Verdict
    ensures { result ≡ pair (view value.now) }
{
    let Some(items) = value.as_array() else {
        return Verdict::Shape;
    };
    if items.len() != 2 {
        return Verdict::Shape;
    }
    let row = number_verdict(&items[0], 0, MOST_ROW);
    row.and(number_verdict(&items[1], 1, MOST_MULTIPLIER))
}

/// The verdict on row numbers with their multipliers.
#[tactic(auto, using(crate::proofs::Steps::list_steps))]
fn pairs_verdict(items: &[Value]) -> Verdict
    ensures { result ≡ all_of pair (items_view items.now) }
{
    let mut worst = Verdict::Fine;
    for value in items {
        worst = worst.and(pair_verdict(value));
    }
    worst
}

/// The verdict on multipliers.
#[tactic(auto, using(crate::proofs::proof::Parts::multiplier_count))]
fn multipliers_verdict(items: &[Value]) -> Verdict
    ensures { result ≡ multipliers (items_view items.now) }
{
    if items.len() > MOST_MULTIPLIERS {
        return Verdict::Shape;
    }
    let order = order_verdict(items);
    order.and(pairs_verdict(items))
}

/// What the tag of a node says.
fn kind_by_tag(tag: Option<&str>) -> Kind
    ensures { result ≡ kind_of_tag (option_map (λ s. s.now) tag.entry) }
{
    match tag {
        None => Kind::Other,
        Some(tag) => {
            if tag == "f" {
                Kind::Leaf
            } else if tag == "c" {
                Kind::Cut
            } else if tag == "s" {
                Kind::Split
            } else {
                Kind::Other
            }
        }
    }
}

/// What a node is.
#[tactic(auto, using(crate::proofs::Steps::list_steps))]
pub(crate) fn kind(items: &[Value]) -> Kind
    ensures { result ≡ kind_of (items_view items.now) }
{
    if items.is_empty() {
        return Kind::Other;
    }
    kind_by_tag(items[0].as_str())
}

/// The verdict on a list of multipliers.
fn multiplier_list_verdict(value: &Value) -> Verdict
    ensures { result ≡ list multipliers (view value.now) }
{
    match value.as_array() {
        None => Verdict::Shape,
        Some(items) => multipliers_verdict(items.as_slice()),
    }
}

/// The verdict on a row.
fn row_verdict(value: &Value) -> Verdict
    ensures { result ≡ list (form_entries most_coefficient most_constant) (view value.now) }
{
    match value.as_array() {
        None => Verdict::Shape,
        Some(items) => entries_verdict(items.as_slice(), MOST_COEFFICIENT, MOST_CONSTANT),
    }
}

/// The verdict on the coefficients of a split.
fn coef_list_verdict(value: &Value) -> Verdict
    ensures { result ≡ list (all_of (within most_coefficient)) (view value.now) }
{
    match value.as_array() {
        None => Verdict::Shape,
        Some(items) => coefs_verdict(items.as_slice(), MOST_COEFFICIENT),
    }
}

/// The verdict on a node of a proof.
#[tactic(auto, using(crate::proofs::Parts::exactly_parts))]
fn node_verdict(items: &[Value]) -> Verdict
    ensures { result ≡ proof_node (items_view items.now) }
{
    match kind(items) {
        Kind::Leaf => {
            if items.len() != 2 {
                return Verdict::Shape;
            }
            multiplier_list_verdict(&items[1])
        }
        Kind::Cut => {
            if items.len() != 4 {
                return Verdict::Shape;
            }
            let by = multiplier_list_verdict(&items[1]);
            let g = any_verdict(&items[2]);
            by.and(g.and(row_verdict(&items[3])))
        }
        Kind::Split => {
            if items.len() != 3 {
                return Verdict::Shape;
            }
            let coefs = coef_list_verdict(&items[1]);
            coefs.and(size_verdict(&items[2], MOST_CONSTANT))
        }
        Kind::Other => Verdict::Shape,
    }
}

/// The verdict on a value that has to be a node of a proof, and how many proofs come behind it.
fn step_verdict(value: &Value) -> (Verdict, usize)
    ensures verdict { result.0 ≡ list proof_node (view value.now) }
    ensures arity { result.1 ≡ arity_of (as_array (view value.now)) }
    ensures few { result.1 ≤ 2 }
{
    let Some(items) = value.as_array() else {
        return (Verdict::Shape, 0);
    };
    let behind = match kind(items.as_slice()) {
        Kind::Leaf => 0,
        Kind::Cut => 1,
        Kind::Split => 2,
        Kind::Other => 0,
    };
    (node_verdict(items.as_slice()), behind)
}

/// The verdict on the nodes of a proof in preorder.
#[tactic(auto, using(crate::proofs::proof::Parts::node_steps))]
fn nodes_verdict(nodes: &[Value]) -> Verdict
    ensures { result ≡ proof_nodes 1 (items_view nodes.now) }
{
    let mut worst = Verdict::Fine;
    let mut wanted = 1usize;
    for value in nodes {
        if wanted == 0 {
            return Verdict::Shape;
        }
        let (verdict, behind) = step_verdict(value);
        worst = worst.and(verdict);
        wanted = wanted - 1 + behind;
    }
    if wanted == 0 { worst } else { Verdict::Shape }
}

/// The verdict on a proof.
pub fn proof_verdict(value: &Value) -> Verdict
    ensures { result ≡ proof (view value.now) }
{
    match value.as_array() {
        None => Verdict::Shape,
        Some(nodes) => nodes_verdict(nodes.as_slice()),
    }
}
