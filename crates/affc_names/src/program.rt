//! The tree of a whole text.

ghost use Rattle.std.specs.Prelude.{◌≡◌, map, length, OnOk, IfOk, Ok};
ghost use Rattle.affc_grammar.specs.Draft as d;
ghost use Rattle.affc_grammar.specs.Names as names;
ghost use Rattle.affc_syntax.specs.draft.Drafts as seen;
ghost use Rattle.affc_names.specs.Stored as stored;
ghost use Rattle.affc_names.specs.Gives.{Fails, Gives, GivesWith};
ghost use Rattle.affc_names.specs.Ranges.{lines_of, GiveSameRanges};
ghost use Rattle.affc_names.specs.Kinds.{AreAlike, IsBeneath, NamesFunction};
ghost use Rattle.affc_names.specs.Answers.{Answers, tree_behind};

use crate::fault::NameFault;
use crate::index::ix_trees;
use crate::lines::{Ranges, conditions, range_of, ranges_of};
use crate::scope::Scope;
use crate::spread::Spread;
use crate::statement::{allowed, stmts_tree};
use crate::why::{why_declared, why_function};
use affc_ast::Items;
use affc_ast::text::Text;
use affc_ast::tree::{Decl, Param, Program};
use affc_grammar::fault::NameWhy;
use affc_syntax::draft::draft::{DeclDraft, ParamDraft, TextDraft, WordDraft};
use std::alloc::{AllocError, Global};

/// A number parameter, which is visible from then on.
fn add_number(
    alloc: Global,
    scope: &mut Scope,
    ranges: &Ranges,
    word: &WordDraft,
) -> Result<Param, NameFault>
    ensures tree { Gives result (names.param_tree scope.old (lines_of ranges.now.entries) (d.number_param (seen.word word.now))) }
    ensures visible { OnOk result (scope.new ≡ names.with_param scope.old (d.number_param (seen.word word.now))) }
{
    let name = word.name.as_str();
    allowed(why_declared(scope, false, name), word.at)?;
    match range_of(ranges, name) {
        None => Err(NameFault::Refused {
            at: word.at,
            why: NameWhy::NoRange,
        }),
        Some((low, high)) => {
            scope.add_number(alloc, name, false)?;
            let name = Text::from_str(alloc, name)?;
            Ok(Param::Number { name, low, high })
        }
    }
}

/// An array, which is visible behind its extents.
fn add_array(alloc: Global, scope: &mut Scope, draft: &DeclDraft) -> Result<Decl, NameFault>
    ensures tree { Gives result (names.decl_tree scope.old (stored.decl (seen.decl draft.now))) }
    ensures visible { OnOk result (scope.new ≡ names.with_array scope.old draft.now.word.name draft.now.role (length draft.now.extents)) }
{
    let name = draft.word.name.as_str();
    allowed(why_declared(scope, false, name), draft.word.at)?;
    let extents = ix_trees(alloc, scope, draft.extents.as_slice())?;
    scope.add_array(alloc, name, draft.role, draft.extents.len())?;
    let name = Text::from_str(alloc, name)?;
    Ok(Decl {
        name,
        role: draft.role,
        extents,
    })
}

#[tactic(auto, using(crate::proofs::Each::lengths))]
fn add_param(
    alloc: Global,
    scope: &mut Scope,
    ranges: &Ranges,
    draft: &ParamDraft,
) -> Result<Param, NameFault>
    ensures tree { Gives result (names.param_tree scope.old (lines_of ranges.now.entries) (stored.param (seen.param draft.now))) }
    ensures visible { OnOk result (scope.new ≡ names.with_param scope.old (stored.param (seen.param draft.now))) }
{
    match draft {
        ParamDraft::Number(word) => add_number(alloc, scope, ranges, word),
        ParamDraft::Array(decl) => {
            let decl = add_array(alloc, scope, decl)?;
            Ok(Param::Array(decl))
        }
    }
}

/// The parameters in order, which are visible from then on.
fn add_params(
    alloc: Global,
    scope: &mut Scope,
    ranges: &Ranges,
    drafts: &[ParamDraft],
) -> Result<Items<Param>, NameFault>
    ensures tree { Gives result (names.params_tree scope.old (lines_of ranges.now.entries) (map stored.param (map seen.param drafts.now))) }
    ensures visible { OnOk result (scope.new ≡ names.with_params scope.old (map stored.param (map seen.param drafts.now))) }
{
    let mut params = Items::new(alloc);
    for draft in drafts {
        let param = add_param(alloc, scope, ranges, draft)?;
        params.push(param)?;
    }
    Ok(params)
}

/// The temporaries in order, which are visible from then on.
fn add_temps(
    alloc: Global,
    scope: &mut Scope,
    drafts: &[DeclDraft],
) -> Result<Items<Decl>, NameFault>
    ensures { GivesWith result scope.new (names.temps_tree scope.old (map stored.decl (map seen.decl drafts.now))) }
{
    let mut temps = Items::new(alloc);
    for draft in drafts {
        let temp = add_array(alloc, scope, draft)?;
        temps.push(temp)?;
    }
    Ok(temps)
}

// ---- Where a parameter is refused

/// A parameter behind which others of its name may stand.
fn add_beneath(alloc: Global, scope: &mut Scope, draft: &ParamDraft) -> Result<(), AllocError>
    ensures { OnOk result (IsBeneath (seen.param draft.now) scope.old scope.new) }
{
    match draft {
        ParamDraft::Number(word) => {
            let name = word.name.as_str();
            match scope.find(name) {
                Some(_) => Ok(()),
                None => scope.add_number(alloc, name, false),
            }
        }
        ParamDraft::Array(decl) => {
            let name = decl.word.name.as_str();
            match scope.find(name) {
                Some(_) => Ok(()),
                None => scope.add_array(alloc, name, decl.role, decl.extents.len()),
            }
        }
    }
}

/// The function, behind which parameters of its name may stand.
fn add_function_beneath(alloc: Global, scope: &mut Scope, name: &str) -> Result<(), AllocError>
    ensures { OnOk result (NamesFunction name.now scope.old scope.new) }
{
    match scope.find(name) {
        Some(_) => Ok(()),
        None => scope.add_function(alloc, name),
    }
}

/// What lines before the function see, where parameters may have one name: of each name the last.
fn last_of_each(alloc: Global, spread: Spread, draft: &TextDraft) -> Result<Scope, AllocError>
    ensures { IfOk result (λ scope. AreAlike scope (names.with_params (names.outermost (seen.text draft.now)) (map seen.param draft.now.params))) }
{
    let params = draft.params.as_slice();
    let mut scope = Scope::new(alloc, spread, draft.has_prelude);
    let mut left = params.len();
    while 0 < left {
        left -= 1;
        add_beneath(alloc, &mut scope, &params[left])?;
    }
    add_function_beneath(alloc, &mut scope, draft.function.name.as_str())?;
    Ok(scope)
}

/// Of a text in which a parameter is refused: the first name that is.
fn first_refused(
    alloc: Global,
    spread: Spread,
    draft: &TextDraft,
    fault: NameFault,
) -> Result<Program, NameFault>
    requires { Fails fault (names.params_tree (names.outermost (seen.text draft.now)) (map seen.pragma draft.now.pragmas) (map seen.param draft.now.params)) }
    ensures { Answers result (seen.text draft.now) }
{
    let scope = last_of_each(alloc, spread, draft)?;
    conditions(alloc, spread, &scope, draft.pragmas.as_slice())?;
    let function = &draft.function;
    allowed(why_function(&scope, function.name.as_str()), function.at)?;
    Err(fault)
}

/// What stands behind the parameters, and the lines before them.
fn with_params(
    alloc: Global,
    spread: Spread,
    scope: &mut Scope,
    draft: &TextDraft,
    params: Items<Param>,
) -> Result<Program, NameFault>
    ensures { Gives result (tree_behind scope.old (Ok params) (stored.text (seen.text draft.now))) }
{
    let context = conditions(alloc, spread, scope, draft.pragmas.as_slice())?;
    let function = &draft.function;
    allowed(why_function(scope, function.name.as_str()), function.at)?;
    let temps = add_temps(alloc, scope, draft.temps.as_slice())?;
    let body = stmts_tree(alloc, scope, draft.body.as_slice())?;
    let name = Text::from_str(alloc, function.name.as_str())?;
    Ok(Program {
        name,
        params,
        context,
        temps,
        body,
        prelude: draft.has_prelude,
    })
}

/// What the lines and the parameters see: the function alone.
fn outermost(alloc: Global, spread: Spread, draft: &TextDraft) -> Result<Scope, AllocError>
    ensures { IfOk result (λ scope. scope ≡ names.outermost (seen.text draft.now)) }
{
    let mut scope = Scope::new(alloc, spread, draft.has_prelude);
    scope.add_function(alloc, draft.function.name.as_str())?;
    Ok(scope)
}

/// The tree of a draft, from its lines and the scope that its parameters are to be visible in.
fn program_within(
    alloc: Global,
    spread: Spread,
    ranges: &Ranges,
    scope: &mut Scope,
    draft: &TextDraft,
) -> Result<Program, NameFault>
    requires ranges { GiveSameRanges (lines_of ranges.now.entries) (map stored.pragma (map seen.pragma draft.now.pragmas)) }
    requires scope { scope.old ≡ names.outermost (seen.text draft.now) }
    ensures { Answers result (seen.text draft.now) }
{
    match add_params(alloc, scope, ranges, draft.params.as_slice()) {
        Ok(params) => with_params(alloc, spread, scope, draft, params),
        Err(fault) => first_refused(alloc, spread, draft, fault),
    }
}

/// The tree of a draft, or the first of its names that is refused. A number that a tree can't hold is cut: one of
/// 2^63 or more is 2^63 - 1 in the tree, such a bound of a range is 0, and so is a shift by 256 or more. All else is as
/// in the draft. A text with such a number passes a limit. Names are looked up in tables that are hashed by `spread`.
pub fn program_of(alloc: Global, spread: Spread, draft: &TextDraft) -> Result<Program, NameFault>
    ensures { Answers result (seen.text draft.now) }
{
    let ranges = ranges_of(alloc, spread, draft.pragmas.as_slice())?;
    let mut scope = outermost(alloc, spread, draft)?;
    program_within(alloc, spread, &ranges, &mut scope, draft)
}
