//! What a schedule's text sees of a program, and what may stand in its lines.

ghost use Rattle.std.specs.Prelude.{◌≡◌, ◌++◌, None, Some, IfOk, MatchOption, codes, decimal};
ghost use Rattle.std.specs.List.{position as position_by};
ghost use Rattle.affc_lex.specs.Bytes.{same};
ghost use Rattle.affc_schedtext.specs.Outline as outlines;
ghost use Rattle.affc_schedtext.specs.Seen.{scope_seen, words_seen, lists_seen};

use crate::scope::{Lists, Scope, Words, first_name, numbered};
use affc_ast::Items;
use affc_ast::text::Text;
use affc_syntax::draft::symbol::is;
use std::alloc::{AllocError, Global};

#[derive(Drop)]
pub struct ArrayOutline {
    pub name: Text,
    pub dimensions: u64,
    pub is_temporary: bool,
}

#[derive(Drop)]
pub struct Outline {
    /// The number parameters, in order.
    pub parameters: Items<Text>,
    /// For each statement the iterators round it, from the outermost on.
    pub statements: Items<Items<Text>>,
    /// The array parameters in order, then the temporaries.
    pub arrays: Items<ArrayOutline>,
}

// ---- Statements

/// The iterators round the statement of this name.
pub fn iterators_of<'o>(outline: &'o Outline, name: &str) -> Option<&'o [Text]>
    ensures { MatchOption result
        (outlines.iterators_of outline.now (outlines.statement_of outline.now name.now) ≡ None)
        (λ is. outlines.iterators_of outline.now (outlines.statement_of outline.now name.now) ≡ Some is.now) }
{
    let count = outline.statements.len() as u64;
    match numbered(b'S', count, name) {
        Some(number) => match outline.statements.get(number as usize) {
            Some(iterators) => Some(iterators.as_slice()),
            None => None,
        },
        None => None,
    }
}

/// The words of as many inverse forms.
fn words_of(iterators: &[Text]) -> Words<'_>
    ensures { words_seen result ≡ outlines.words_of iterators.now }
{
    match first_name(iterators) {
        Some((first, others)) => Words::These { first, others },
        None => Words::Any,
    }
}

/// What may stand in the line of the statement of this name, where a time has so many components.
pub(crate) fn statement_lists<'o>(outline: &'o Outline, components: u64, name: &str) -> Lists<'o>
    ensures { lists_seen result ≡ outlines.statement_lists outline.now components name.now }
{
    match iterators_of(outline, name) {
        Some(iterators) => Lists {
            there: Scope::Time {
                parameters: outline.parameters.as_slice(),
                iterators,
            },
            back: Scope::Inverse {
                parameters: outline.parameters.as_slice(),
                length: components,
            },
            words: words_of(iterators),
        },
        None => Lists {
            there: Scope::Any,
            back: Scope::Any,
            words: Words::Any,
        },
    }
}

// ---- Folds

fn position_of(name: &str, arrays: &[ArrayOutline]) -> Option<usize>
    ensures { result ≡ position_by (λ a. same a.name name.now) arrays.now }
{
    arrays
        .iter()
        .position(|array| is(array.name.as_str(), name.as_bytes()))
}

/// The number of the first array of this name.
pub fn array_of(outline: &Outline, name: &str) -> Option<usize>
    ensures { result ≡ outlines.array_of outline.now name.now }
{
    position_of(name, outline.arrays.as_slice())
}

/// The dimensions of the first array of this name; 0 where there is none.
pub(crate) fn dimensions_of(outline: &Outline, name: &str) -> u64
    ensures { result ≡ outlines.dimensions_of (outlines.array_at outline.now (outlines.array_of outline.now name.now)) }
{
    match array_of(outline, name) {
        Some(number) => match outline.arrays.get(number) {
            Some(array) => array.dimensions,
            None => 0,
        },
        None => 0,
    }
}

/// What may stand in the rows of an array's fold.
#[tactic(auto, using(crate::proofs::Outlines::subscripted))]
pub(crate) fn row_scope(dimensions: u64) -> Scope<'static>
    ensures { scope_seen result ≡ (outlines.lists_by dimensions).there }
{
    if dimensions == 0 {
        Scope::Any
    } else {
        Scope::Row(dimensions)
    }
}

/// `x` with a number.
fn subscript(alloc: Global, number: u64) -> Result<Text, AllocError>
    ensures { IfOk result (λ t. t ≡ codes "x" ++ decimal number) }
{
    let name = format!(in alloc; "x{number}")?;
    Ok(Text::from_string(name))
}

/// `x1`, `x2`, ..: so many.
pub(crate) fn subscripts(alloc: Global, count: u64) -> Result<Items<Text>, AllocError>
    ensures { IfOk result (λ names. names ≡ outlines.numbered_names (codes "x") 1 count) }
{
    let mut names = Items::new(alloc);
    let mut number = 0;
    while number < count {
        number += 1;
        names.push(subscript(alloc, number)?)?;
    }
    Ok(names)
}
