//! Reading forms and lists of forms. `room` is how many brackets may still be opened, `next` is the number of the next token.

ghost use Rattle.std.specs.Prelude.{drop, length, map};
ghost use Rattle.affc_syntax.specs.draft.Symbols.{seen};
ghost use Rattle.affc_syntax.specs.Readers.{Gives};
ghost use Rattle.affc_schedtext.specs.Drafting as drafting;
ghost use Rattle.affc_schedtext.specs.Outline as outline;
ghost use Rattle.affc_schedtext.specs.Seen.{scope_seen, words_seen};
ghost use Rattle.affc_schedtext.specs.Terms.{term};

use crate::reading::read_term;
use crate::scope::{Scope, Words, first_name};
use crate::terms::Term;
use affc_ast::Items;
use affc_ast::text::Text;
use affc_syntax::ahead::{Answer, Stop, behind, behind_word, past_mark, past_word};
use affc_syntax::draft::symbol::Symbol;
use std::alloc::Global;

/// A form behind others.
#[tactic(auto, using(affc_syntax::proofs::Readers::lists))]
fn form_more(
    alloc: Global,
    room: u32,
    scope: Scope<'_>,
    forms: Items<Term>,
    symbols: &[Symbol<'_>],
    next: usize,
) -> Answer<Items<Term>>
    ensures { Gives (map seen symbols.now) (map term) result (drafting.form_more (length symbols.now) room (scope_seen scope.entry) tt (map term forms) (drop next (map seen symbols.now))) }
{
    let (one, next) = read_term(alloc, room, scope, symbols, next)?;
    let mut forms = forms;
    forms.push(one)?;
    Ok((forms, next))
}

/// Further forms, each behind a `,`.
fn more_forms(
    alloc: Global,
    room: u32,
    scope: Scope<'_>,
    forms: Items<Term>,
    symbols: &[Symbol<'_>],
    next: usize,
) -> Answer<Items<Term>>
    ensures { Gives (map seen symbols.now) (map term) result (drafting.more_forms (length symbols.now) room (scope_seen scope.entry) (map term forms) (drop next (map seen symbols.now))) }
{
    let mut forms = forms;
    let mut next = next;
    while let Some(behind) = past_mark(b",", symbols, next) {
        let (longer, rest) = form_more(alloc, room, scope, forms, symbols, behind)?;
        forms = longer;
        next = rest;
    }
    Ok((forms, next))
}

/// The forms that stand here, with a `,` between two of them.
fn forms(
    alloc: Global,
    room: u32,
    scope: Scope<'_>,
    symbols: &[Symbol<'_>],
    next: usize,
) -> Answer<Items<Term>>
    ensures { Gives (map seen symbols.now) (map term) result (drafting.forms (length symbols.now) room (scope_seen scope.entry) (drop next (map seen symbols.now))) }
{
    let (first, next) = form_more(alloc, room, scope, Items::new(alloc), symbols, next)?;
    more_forms(alloc, room, scope, first, symbols, next)
}

/// The list of forms behind `:`.
pub(crate) fn list(
    alloc: Global,
    room: u32,
    scope: Scope<'_>,
    symbols: &[Symbol<'_>],
    next: usize,
) -> Answer<Items<Term>>
    ensures { Gives (map seen symbols.now) (map term) result (drafting.list (length symbols.now) room (scope_seen scope.entry) (drop next (map seen symbols.now))) }
{
    let next = behind(b"(", symbols, next)?;
    let (forms, next) = forms(alloc, room, scope, symbols, next)?;
    let next = behind(b")", symbols, next)?;
    Ok((forms, next))
}

/// An inverse form behind its word, with its `=`.
fn entry(
    alloc: Global,
    room: u32,
    scope: Scope<'_>,
    forms: Items<Term>,
    symbols: &[Symbol<'_>],
    next: usize,
) -> Answer<Items<Term>>
    ensures { Gives (map seen symbols.now) (map term) result (drafting.entry (length symbols.now) room (scope_seen scope.entry) (map term forms) (drop next (map seen symbols.now))) }
{
    let next = behind(b"=", symbols, next)?;
    form_more(alloc, room, scope, forms, symbols, next)
}

/// An inverse form of any word.
fn free_more(
    alloc: Global,
    room: u32,
    scope: Scope<'_>,
    forms: Items<Term>,
    symbols: &[Symbol<'_>],
    next: usize,
) -> Answer<Items<Term>>
    ensures { Gives (map seen symbols.now) (map term) result (drafting.free_more (length symbols.now) room (scope_seen scope.entry) tt (map term forms) (drop next (map seen symbols.now))) }
{
    match past_word(symbols, next) {
        Some((_, next)) => entry(alloc, room, scope, forms, symbols, next),
        None => Err(Stop::At(next)),
    }
}

/// Further inverse forms of any words, each behind a `,`.
fn more_free(
    alloc: Global,
    room: u32,
    scope: Scope<'_>,
    forms: Items<Term>,
    symbols: &[Symbol<'_>],
    next: usize,
) -> Answer<Items<Term>>
    ensures { Gives (map seen symbols.now) (map term) result (drafting.more_free (length symbols.now) room (scope_seen scope.entry) (map term forms) (drop next (map seen symbols.now))) }
{
    let mut forms = forms;
    let mut next = next;
    while let Some(behind) = past_mark(b",", symbols, next) {
        let (longer, rest) = free_more(alloc, room, scope, forms, symbols, behind)?;
        forms = longer;
        next = rest;
    }
    Ok((forms, next))
}

/// Inverse forms of any words, behind the first word and its `=`.
pub(crate) fn free(
    alloc: Global,
    room: u32,
    scope: Scope<'_>,
    symbols: &[Symbol<'_>],
    next: usize,
) -> Answer<Items<Term>>
    ensures { Gives (map seen symbols.now) (map term) result (drafting.free (length symbols.now) room (scope_seen scope.entry) (drop next (map seen symbols.now))) }
{
    let (first, next) = form_more(alloc, room, scope, Items::new(alloc), symbols, next)?;
    more_free(alloc, room, scope, first, symbols, next)
}

/// Inverse forms of these words, in this order, behind others.
fn given(
    alloc: Global,
    room: u32,
    scope: Scope<'_>,
    word: &str,
    others: &[Text],
    forms: Items<Term>,
    symbols: &[Symbol<'_>],
    next: usize,
) -> Answer<Items<Term>>
    ensures { Gives (map seen symbols.now) (map term) result (drafting.given (length symbols.now) room (scope_seen scope.entry) word.now others.now (map term forms) (drop next (map seen symbols.now))) }
{
    match first_name(others) {
        None => {
            let next = behind_word(word.as_bytes(), symbols, next)?;
            entry(alloc, room, scope, forms, symbols, next)
        }
        Some((second, rest)) => {
            let next = behind_word(word.as_bytes(), symbols, next)?;
            let (forms, next) = entry(alloc, room, scope, forms, symbols, next)?;
            let next = behind(b",", symbols, next)?;
            given(alloc, room, scope, second, rest, forms, symbols, next)
        }
    }
}

/// Inverse forms of any words.
fn any_entries(
    alloc: Global,
    room: u32,
    scope: Scope<'_>,
    symbols: &[Symbol<'_>],
    next: usize,
) -> Answer<Items<Term>>
    ensures { Gives (map seen symbols.now) (map term) result (drafting.entries (length symbols.now) room (scope_seen scope.entry) outline.any (drop next (map seen symbols.now))) }
{
    match past_word(symbols, next) {
        Some((_, next)) => {
            let next = behind(b"=", symbols, next)?;
            free(alloc, room, scope, symbols, next)
        }
        None => Err(Stop::At(next)),
    }
}

/// The inverse forms that stand here, with these words.
pub(crate) fn entries(
    alloc: Global,
    room: u32,
    scope: Scope<'_>,
    words: Words<'_>,
    symbols: &[Symbol<'_>],
    next: usize,
) -> Answer<Items<Term>>
    ensures { Gives (map seen symbols.now) (map term) result (drafting.entries (length symbols.now) room (scope_seen scope.entry) (words_seen words.entry) (drop next (map seen symbols.now))) }
{
    match words {
        Words::These { first, others } => given(
            alloc,
            room,
            scope,
            first,
            others,
            Items::new(alloc),
            symbols,
            next,
        ),
        Words::Any => any_entries(alloc, room, scope, symbols, next),
    }
}
