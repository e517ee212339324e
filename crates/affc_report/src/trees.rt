//! Last-write trees as text.
ghost use Rattle.std.specs.Prelude.{◌≡◌, ◌++◌, ◌+◌, ◌≤◌, ◌<◌, ◌^◌, suc, map, length, take, drop, IfOk, OnOk, string_bytes};
ghost use Rattle.std.specs.List.{All};
ghost use Rattle.affc_quast.specs.Seen.{seen, trees_of};
ghost use Rattle.affc_quast.specs.Sources.{loads_in};
ghost use Rattle.affc_quast.specs.Trees.{depth_of};
ghost use Rattle.affc_report.specs.Trees.{tree_form, indent, tree_text, array_name, iterators_round, load_text, loads_text, statements_text, flow_text};

use crate::forms::{Names, add_form, behind};
use crate::lists::{WriteItem, add_list};
use affc_ast::text::Text;
use affc_nest::{Access, Entry, Nest};
use affc_quast::{Flow, Quast};
use affc_rows::Form;
use affc_schedtext::outline::Outline;
use std::alloc::{AllocError, Global};

// Adds two spaces for each level.
fn add_indent(out: &mut String, level: u32) -> Result<(), AllocError>
    ensures { OnOk result (string_bytes out.new ≡ string_bytes out.old ++ indent level) }
{
    if level == 0 {
        return Ok(());
    }
    out.push_str("  ")?;
    add_indent(out, level - 1)
}

impl WriteItem<Form> for Names<'_> {
    ghost item_text = { λ names form. tree_form names.parameters.now names.iterators.now form };

    fn add_item(&self, out: &mut String, item: &Form) -> Result<(), AllocError> {
        add_form(out, self, item)
    }
}

// Adds a tree at this level, below so many divisions.
fn add_tree(
    out: &mut String,
    names: &Names<'_>,
    level: u32,
    divisions: u32,
    tree: &Quast,
) -> Result<(), AllocError>
    requires level { level + depth_of (seen tree.now) < 2 ^ 32 }
    requires divisions { divisions + depth_of (seen tree.now) < 2 ^ 32 }
    ensures { OnOk result (string_bytes out.new ≡ string_bytes out.old ++ tree_text names.now.parameters.now names.now.iterators.now level divisions (seen tree.now)) }
{
    add_indent(out, level)?;
    match tree {
        Quast::Test { form, yes, no } => {
            out.push_str("test ")?;
            add_form(out, names, form)?;
            out.push_str(" >= 0\n")?;
            add_tree(out, names, level + 1, divisions, yes)?;
            add_tree(out, names, level + 1, divisions, no)
        }
        Quast::Div { form, by, rest } => {
            write!(out, "div q{divisions} = floor((")?;
            add_form(out, names, form)?;
            write!(out, ") / {by})\n")?;
            add_tree(out, names, level + 1, divisions + 1, rest)
        }
        Quast::Source { part, forms } => {
            write!(out, "source S{part}(")?;
            add_list(out, names, forms.as_slice())?;
            out.push_str(")\n")
        }
        Quast::Input => out.push_str("input\n"),
    }
}

// The name of an array, or nothing where there is none.
fn array_name(outline: &Outline, array: u32) -> &str
    ensures { result.now ≡ array_name outline.now array }
{
    match outline.arrays.get(array as usize) {
        Some(array) => array.name.as_str(),
        None => "",
    }
}

// The iterators round a statement.
fn iterators_round(outline: &Outline, statement: u32) -> &[Text]
    ensures { result.now ≡ iterators_round outline.now statement }
{
    match outline.statements.get(statement as usize) {
        Some(iterators) => iterators.as_slice(),
        None => &[],
    }
}

// Adds a load's line and its tree.
fn add_load(
    out: &mut String,
    outline: &Outline,
    statement: u32,
    load: u32,
    array: u32,
    tree: &Quast,
) -> Result<(), AllocError>
    requires { depth_of (seen tree.now) ≤ 400 }
    ensures { OnOk result (string_bytes out.new ≡ string_bytes out.old ++ load_text outline.now statement load array (seen tree.now)) }
{
    let name = array_name(outline, array);
    write!(out, "S{statement} load {load} {name}\n")?;
    let names = Names {
        parameters: outline.parameters.as_slice(),
        iterators: iterators_round(outline, statement),
    };
    add_tree(out, &names, 1, 0, tree)
}

// Adds the loads of a statement from this number on. Answers the trees behind theirs.
fn add_loads(
    out: &mut String,
    outline: &Outline,
    statement: u32,
    load: u32,
    loads: &[Access],
    trees: &[Quast],
) -> Result<(), AllocError>
    requires short { All (λ tree. depth_of (seen tree) ≤ 400) trees.now }
    requires few { load + length loads.now < 2 ^ 32 }
    ensures { OnOk result (string_bytes out.new ≡ string_bytes out.old ++ loads_text outline.now statement load loads.now (map seen trees.now)) }
{
    let [access, loads @ ..] = loads else {
        return Ok(());
    };
    let [tree, trees @ ..] = trees else {
        return Ok(());
    };
    add_load(out, outline, statement, load, access.array.0, tree)?;
    add_loads(out, outline, statement, load + 1, loads, trees)
}

// The accesses of a statement but for its store.
fn loads_of(entry: &Entry) -> &[Access]
    ensures loads { result.now ≡ take (loads_in entry.now) entry.now.accesses }
    ensures count { length result.now ≡ loads_in entry.now }
{
    match entry.accesses.as_slice() {
        [] => &[],
        [loads @ .., _store] => loads,
    }
}

// Adds the loads of the statements from this number on.
#[tactic(auto, using(crate::proofs::SumLemmas::loads_written))]
fn add_statements(
    out: &mut String,
    outline: &Outline,
    statement: u32,
    entries: &[Entry],
    trees: &[Quast],
) -> Result<(), AllocError>
    requires short { All (λ tree. depth_of (seen tree) ≤ 400) trees.now }
    requires few { All (λ e. length e.accesses < 2 ^ 31) entries.now }
    requires count { statement + length entries.now < 2 ^ 32 }
    ensures { OnOk result (string_bytes out.new ≡ string_bytes out.old ++ statements_text outline.now statement entries.now (map seen trees.now)) }
{
    let Some((entry, entries)) = entries.split_first() else {
        return Ok(());
    };
    let loads = loads_of(entry);
    add_loads(out, outline, statement, 0, loads, trees)?;
    add_statements(
        out,
        outline,
        statement + 1,
        entries,
        behind(trees, loads.len()),
    )
}

/// The trees of all loads as text: for each load its statement, its number and its array, and the tree in preorder.
pub fn flow_text(
    alloc: Global,
    outline: &Outline,
    nest: &Nest,
    flow: &Flow,
) -> Result<Vec<u8>, AllocError>
    requires short { All (λ tree. depth_of (seen tree) ≤ 400) flow.now.trees }
    requires few { All (λ e. length e.accesses < 2 ^ 31) nest.now.entries }
    requires count { length nest.now.entries < 2 ^ 32 }
    ensures { IfOk result (λ text. text.items ≡ flow_text outline.now nest.now (trees_of flow.now)) }
{
    let mut out = String::new(alloc);
    add_statements(
        &mut out,
        outline,
        0,
        nest.entries.as_slice(),
        flow.trees.as_slice(),
    )?;
    Ok(out.into_bytes())
}
