//! Verdicts on source trees.
ghost use Rattle.affc_cert.specs.tree.Trees.{tree_form, forms, loops_at, loops_of, source_by, source_parts, path, tree_kind_of_tag, tree_kind_of, tree_node, opened, kind_in, tree_nodes, tree};
ghost use Rattle.affc_cert.specs.tree.Taken.{IsTaken};
ghost use Rattle.affc_certvalue.specs.Verdicts.{list, many, behind_tag};
ghost use Rattle.serde_json.specs.Find.{as_array};
ghost use Rattle.serde_json.specs.View.{view, items_view};
ghost use Rattle.std.specs.Prelude.{◌≡◌, ◌+◌, ◌<◌, ◌∷◌, ◌^◌, [], reverse, length, IfOk, MatchOption, OnOk, option_map};

use crate::tree::kind::{Place, TreeKind};
use crate::tree::layout::{Load, Store};
use affc_certvalue::judge::{form_verdict, number_verdict};
use affc_certvalue::verdict::Verdict;
use serde_json::Value;
use std::alloc::{AllocError, Global};

/// The greatest coefficient of a tree.
const MOST_COEFFICIENT: i64 = 1 << 24;

/// The greatest constant of a tree.
const MOST_CONSTANT: i64 = 1 << 50;

/// The most inner nodes on a path.
const MOST_INNER: usize = 400;

/// More columns than a text has bytes.
const MOST_COLUMNS: usize = 1 << 62;

/// The verdict on a form of a tree, over so many columns.
fn tree_form_verdict(value: &Value, columns: usize) -> Verdict
    requires { columns < 2 ^ 63 }
    ensures { result ≡ list (tree_form columns) (view value.now) }
{
    form_verdict(value, columns, MOST_COEFFICIENT, MOST_CONSTANT)
}

/// The verdict on forms over so many columns.
#[tactic(auto, using(affc_certvalue::proofs::Steps::list_steps))]
fn forms_among(items: &[Value], columns: usize) -> Verdict
    requires { columns < 2 ^ 63 }
    ensures { result ≡ forms columns (items_view items.now) }
{
    let mut worst = Verdict::Fine;
    for value in items {
        worst = worst.and(tree_form_verdict(value, columns));
    }
    worst
}

/// The verdict on a list of forms, of any length.
fn forms_verdict(value: &Value, columns: usize) -> Verdict
    requires { columns < 2 ^ 63 }
    ensures { result ≡ list (forms columns) (view value.now) }
{
    match value.as_array() {
        None => Verdict::Shape,
        Some(items) => forms_among(items.as_slice(), columns),
    }
}

/// The verdict on a list of so many forms.
#[tactic(auto, using(affc_certvalue::proofs::Lengths::length_steps))]
fn counted_forms_verdict(value: &Value, count: usize, columns: usize) -> Verdict
    requires { columns < 2 ^ 63 }
    ensures { result ≡ list (many count (list (tree_form columns))) (view value.now) }
{
    let Some(items) = value.as_array() else {
        return Verdict::Shape;
    };
    if items.len() != count {
        return Verdict::Shape;
    }
    forms_among(items.as_slice(), columns)
}

/// The loops round the statement with this number.
#[tactic(auto, using(crate::proofs::tree::Steps::loop_steps))]
fn find_loops(number: u64, statements: &[Store]) -> Option<usize>
    ensures { result ≡ loops_at number statements.now }
{
    for statement in statements {
        if u64::from(statement.statement) == number {
            return Some(statement.loops as usize);
        }
    }
    None
}

/// The loops round the statement with this number.
fn find_statement(number: i64, statements: &[Store]) -> Option<usize>
    ensures { result ≡ loops_of number statements.now }
{
    match u64::try_from(number) {
        Ok(number) => find_loops(number, statements),
        Err(_) => None,
    }
}

/// The verdict on the forms of a leaf that names a statement.
fn source_verdict(
    number: Option<i64>,
    value: &Value,
    statements: &[Store],
    columns: usize,
) -> Verdict
    requires { columns < 2 ^ 63 }
    ensures { result ≡ source_by statements.now columns number (view value.now) }
{
    let Some(number) = number else {
        return Verdict::Number.and(forms_verdict(value, columns));
    };
    match find_statement(number, statements) {
        None => Verdict::Shape,
        Some(loops) => counted_forms_verdict(value, loops, columns),
    }
}

/// The verdict on a leaf that names a statement.
#[tactic(auto, using(crate::proofs::tree::Steps::source_steps))]
fn leaf_verdict(items: &[Value], statements: &[Store], columns: usize) -> Verdict
    requires { columns < 2 ^ 63 }
    ensures { 0 < length items.now → result ≡ source_parts statements.now columns (behind_tag (items_view items.now)) }
{
    if items.len() != 3 {
        return Verdict::Shape;
    }
    let Some(number) = items[1].as_number() else {
        return Verdict::Shape;
    };
    source_verdict(number.as_i64(), &items[2], statements, columns)
}

/// The verdict on the number of inner nodes above one more.
fn path_verdict(inner: usize) -> Verdict
    ensures { result ≡ path inner }
{
    if inner < MOST_INNER {
        Verdict::Fine
    } else {
        Verdict::Number
    }
}

/// What the tag of a node says.
fn kind_by_tag(tag: Option<&str>) -> TreeKind
    ensures { result ≡ tree_kind_of_tag (option_map (λ s. s.now) tag.entry) }
{
    match tag {
        None => TreeKind::Other,
        Some(tag) => {
            if tag == "t" {
                TreeKind::Test
            } else if tag == "d" {
                TreeKind::Div
            } else if tag == "w" {
                TreeKind::Source
            } else if tag == "i" {
                TreeKind::Input
            } else {
                TreeKind::Other
            }
        }
    }
}

/// What a node is.
#[tactic(auto, using(affc_certvalue::proofs::Steps::list_steps))]
pub(crate) fn tree_kind(items: &[Value]) -> TreeKind
    ensures { result ≡ tree_kind_of (items_view items.now) }
{
    if items.is_empty() {
        return TreeKind::Other;
    }
    kind_by_tag(items[0].as_str())
}

/// The verdict on a node below a place's columns and inner nodes.
#[tactic(auto, using(crate::proofs::tree::Steps::node_parts))]
fn node_verdict(items: &[Value], statements: &[Store], place: Place) -> Verdict
    requires { place.columns < 2 ^ 63 }
    ensures { result ≡ tree_node statements.now place (items_view items.now) }
{
    match tree_kind(items) {
        TreeKind::Test => {
            if items.len() != 2 {
                return Verdict::Shape;
            }
            path_verdict(place.inner).and(tree_form_verdict(&items[1], place.columns))
        }
        TreeKind::Div => {
            if items.len() != 3 {
                return Verdict::Shape;
            }
            let form = tree_form_verdict(&items[1], place.columns);
            let by = number_verdict(&items[2], 1, MOST_COEFFICIENT);
            path_verdict(place.inner).and(form.and(by))
        }
        TreeKind::Source => leaf_verdict(items, statements, place.columns),
        TreeKind::Input => {
            if items.len() != 1 {
                return Verdict::Shape;
            }
            Verdict::Fine
        }
        TreeKind::Other => Verdict::Shape,
    }
}

/// The verdict on a value that has to be a node, and what it is.
fn step_verdict(value: &Value, statements: &[Store], place: Place) -> (Verdict, TreeKind)
    requires { place.columns < 2 ^ 63 }
    ensures verdict { result.0 ≡ list (tree_node statements.now place) (view value.now) }
    ensures kind { result.1 ≡ kind_in (as_array (view value.now)) }
{
    match value.as_array() {
        None => (Verdict::Shape, TreeKind::Other),
        Some(items) => {
            let verdict = node_verdict(items.as_slice(), statements, place);
            (verdict, tree_kind(items.as_slice()))
        }
    }
}

/// Opens the places behind a node.
#[tactic(auto, using(crate::proofs::tree::Steps::open_steps))]
fn open(places: &mut Vec<Place>, place: Place, kind: TreeKind) -> Result<(), AllocError>
    requires columns { place.columns < 2 ^ 63 }
    requires inner { place.inner < 2 ^ 63 }
    ensures { OnOk result (reverse places.new.items ≡ opened place kind (reverse places.old.items)) }
{
    match kind {
        TreeKind::Test => {
            let below = Place {
                columns: place.columns,
                inner: place.inner + 1,
            };
            places.push(below)?;
            places.push(below)?;
            Ok(())
        }
        TreeKind::Div => {
            places.push(Place {
                columns: place.columns + 1,
                inner: place.inner + 1,
            })?;
            Ok(())
        }
        _ => Ok(()),
    }
}

/// Takes the last place, which comes first.
#[tactic(auto, using(crate::proofs::tree::Steps::open_steps))]
fn take(places: &mut Vec<Place>) -> Option<Place>
    ensures { MatchOption result (reverse places.old.items ≡ []) (λ place. reverse places.old.items ≡ place ∷ reverse places.new.items) }
{
    places.pop()
}

/// The verdict on the next node, at the place that is taken for it, if one is open.
#[tactic(auto, using(crate::proofs::tree::Steps::node_taken))]
fn next_verdict(
    places: &mut Vec<Place>,
    value: &Value,
    statements: &[Store],
) -> Result<Option<Verdict>, AllocError>
    ensures { IfOk result (λ o. MatchOption o (reverse places.old.items ≡ []) (λ v. IsTaken statements.now (view value.now) v (reverse places.old.items) (reverse places.new.items))) }
{
    let Some(place) = take(places) else {
        return Ok(None);
    };
    if place.columns > MOST_COLUMNS || place.inner > MOST_COLUMNS {
        return Err(AllocError);
    }
    let (verdict, kind) = step_verdict(value, statements, place);
    open(places, place, kind)?;
    Ok(Some(verdict))
}

/// The verdict on nodes in preorder, at the places that are open.
#[tactic(auto, using(crate::proofs::tree::Steps::no_place))]
fn verdict_at(
    places: &mut Vec<Place>,
    nodes: &[Value],
    statements: &[Store],
) -> Result<Verdict, AllocError>
    ensures { IfOk result (λ v. v ≡ tree_nodes statements.now (reverse places.old.items) (items_view nodes.now)) }
{
    let mut worst = Verdict::Fine;
    for value in nodes {
        let next = next_verdict(places, value, statements)?;
        let Some(verdict) = next else {
            return Ok(Verdict::Shape);
        };
        worst = worst.and(verdict);
    }
    if places.is_empty() {
        Ok(worst)
    } else {
        Ok(Verdict::Shape)
    }
}

/// The verdict on the nodes of a tree in preorder.
fn nodes_verdict(
    alloc: Global,
    nodes: &[Value],
    statements: &[Store],
    columns: usize,
) -> Result<Verdict, AllocError>
    ensures { IfOk result (λ v. v ≡ tree_nodes statements.now (record { columns = columns; inner = 0 } ∷ []) (items_view nodes.now)) }
{
    let mut places = Vec::new(alloc);
    places.push(Place { columns, inner: 0 })?;
    verdict_at(&mut places, nodes, statements)
}

/// The verdict on the tree of a load.
pub fn tree_verdict(alloc: Global, value: &Value, load: &Load) -> Result<Verdict, AllocError>
    ensures { IfOk result (λ v. v ≡ tree load.now (view value.now)) }
{
    match value.as_array() {
        None => Ok(Verdict::Shape),
        Some(nodes) => nodes_verdict(
            alloc,
            nodes.as_slice(),
            load.stores.as_slice(),
            load.columns as usize,
        ),
    }
}
