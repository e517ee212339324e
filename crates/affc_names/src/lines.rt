//! The lines before a function.

ghost use Rattle.std.specs.Prelude.{◌≡◌, ◌∷◌, ◌++◌, [], List, ℕ, map, OnOk, IfOk, Ok, Some, None, if◌then◌else◌};
ghost use Rattle.std.specs.Option.{option_or};
ghost use Rattle.std.specs.List.{list_any};
ghost use Rattle.affc_lex.specs.Bytes.{same};
ghost use Rattle.affc_grammar.specs.Names as names;
ghost use Rattle.affc_syntax.specs.draft.Drafts as seen;
ghost use Rattle.affc_names.specs.Stored as stored;
ghost use Rattle.affc_names.specs.Gives.{Gives};
ghost use Rattle.affc_names.specs.Ranges.{lines_of, texts, GiveSameRanges, line_tree, ranged_by};

use crate::condition::compare_trees;
use crate::fault::NameFault;
use crate::scope::Scope;
use crate::spread::Spread;
use crate::why::why_ranged;
use affc_ast::Items;
use affc_ast::tree::Compare;
use affc_syntax::draft::draft::{PragmaDraft, WordDraft};
use indexmap::{IndexMap, IndexSet};
use std::alloc::{AllocError, Global};

/// The ranges that names are given, where each has its first.
pub(crate) type Ranges = IndexMap<String, (i64, i64), Spread>;

/// The bound of a range as a tree holds it; one that is too large is cut.
fn bound(value: i128) -> i64
    ensures { result ≡ stored.bound value }
{
    if -(1 << 63) < value && value < (1 << 63) {
        value as i64
    } else {
        0
    }
}

pub(crate) fn range_of(ranges: &Ranges, name: &str) -> Option<(i64, i64)>
    ensures { result ≡ names.range_of name.now (lines_of ranges.now.entries) }
{
    ranges.get(name).copied()
}

/// A range is added, where the name has none.
fn add_range(
    alloc: Global,
    ranges: &mut Ranges,
    name: &str,
    range: (i64, i64),
) -> Result<(), AllocError>
    ensures { OnOk result ((w : List ℕ) → names.range_of w (lines_of ranges.new.entries) ≡ option_or (names.range_of w (lines_of ranges.old.entries)) (if same name.now w then Some range else None)) }
{
    if ranges.contains_key(name) {
        return Ok(());
    }
    let name = String::from_str(alloc, name)?;
    match ranges.insert(name, range) {
        Ok(_) => Ok(()),
        Err(_) => Err(AllocError),
    }
}

/// The range that a line gives.
fn add_line(alloc: Global, ranges: &mut Ranges, line: &PragmaDraft) -> Result<(), AllocError>
    ensures { OnOk result ((w : List ℕ) → names.range_of w (lines_of ranges.new.entries) ≡ option_or (names.range_of w (lines_of ranges.old.entries)) (names.range_of w (stored.pragma (seen.pragma line.now) ∷ []))) }
{
    match line {
        PragmaDraft::Range {
            word,
            low,
            high,
            ..
        } => add_range(
            alloc,
            ranges,
            word.name.as_str(),
            (bound(*low), bound(*high)),
        ),
        PragmaDraft::Context { .. } => Ok(()),
    }
}

pub(crate) fn ranges_of(
    alloc: Global,
    spread: Spread,
    lines: &[PragmaDraft],
) -> Result<Ranges, AllocError>
    ensures { IfOk result (λ r. GiveSameRanges (lines_of r.entries) (map stored.pragma (map seen.pragma lines.now))) }
{
    let mut ranges = IndexMap::with_hasher(alloc, spread);
    for line in lines {
        add_line(alloc, &mut ranges, line)?;
    }
    Ok(ranges)
}

fn is_among(names: &IndexSet<String, Spread>, name: &str) -> bool
    ensures { result ≡ list_any (same name.now) (texts names.now.keys) }
{
    names.contains(name)
}

/// A name is given a range, which `earlier` names were given before.
fn note_range(
    alloc: Global,
    scope: &Scope,
    earlier: &mut IndexSet<String, Spread>,
    word: &WordDraft,
) -> Result<(), NameFault>
    ensures allowed { Gives result (names.allowed (names.why_ranged scope.now (texts earlier.old.keys) word.now.name (names.thing_of scope.now word.now.name)) word.now.at (Ok tt)) }
    ensures noted { OnOk result (texts earlier.new.keys ≡ texts earlier.old.keys ++ word.now.name ∷ []) }
{
    let name = word.name.as_str();
    let why = why_ranged(scope, is_among(earlier, name), name, scope.find(name));
    if let Some(why) = why {
        return Err(NameFault::Refused { at: word.at, why });
    }
    let name = String::from_str(alloc, name)?;
    match earlier.insert(name) {
        Ok(_) => Ok(()),
        Err(_) => Err(NameFault::Memory),
    }
}

/// The conditions of a line.
fn add_conditions(
    alloc: Global,
    scope: &Scope,
    earlier: &mut IndexSet<String, Spread>,
    line: &PragmaDraft,
) -> Result<Items<Compare>, NameFault>
    ensures conditions { Gives result (line_tree scope.now (texts earlier.old.keys) (stored.pragma (seen.pragma line.now))) }
    ensures noted { OnOk result (texts earlier.new.keys ≡ texts earlier.old.keys ++ ranged_by (seen.pragma line.now)) }
{
    match line {
        PragmaDraft::Range { word, .. } => {
            note_range(alloc, scope, earlier, word)?;
            Ok(Items::new(alloc))
        }
        PragmaDraft::Context { conds, .. } => compare_trees(alloc, scope, conds.as_slice()),
    }
}

/// The conditions of all lines, where no name is refused.
pub(crate) fn conditions(
    alloc: Global,
    spread: Spread,
    scope: &Scope,
    lines: &[PragmaDraft],
) -> Result<Items<Compare>, NameFault>
    ensures { Gives result (names.pragmas_tree scope.now [] (map stored.pragma (map seen.pragma lines.now))) }
{
    let mut conditions = Items::new(alloc);
    let mut earlier = IndexSet::with_hasher(alloc, spread);
    for line in lines {
        let more = add_conditions(alloc, scope, &mut earlier, line)?;
        conditions.append(more)?;
    }
    Ok(conditions)
}
