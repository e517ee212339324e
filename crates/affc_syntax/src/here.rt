//! What stands at a token, for readers of what holds it. `room` is how many brackets may still be opened, `next` is the number of the token; a
//! number behind the last token is answered as that of the end.

ghost use Rattle.std.specs.Prelude.{drop, length, map, true};
ghost use Rattle.affc_syntax.specs.draft.Drafts.{compare, cond, ix, value};
ghost use Rattle.affc_syntax.specs.draft.Symbols.{seen};
ghost use Rattle.affc_syntax.specs.CondReading as conds;
ghost use Rattle.affc_syntax.specs.IxReading as reading;
ghost use Rattle.affc_syntax.specs.Readers as readers;
ghost use Rattle.affc_syntax.specs.Readers.{Gives};
ghost use Rattle.affc_syntax.specs.ValueReading as values;

use crate::ahead::{Answer, counted};
use crate::draft::draft::{CompareDraft, CondDraft, IxDraft, ValueDraft};
use crate::draft::symbol::Symbol;
use crate::{condition, expression, value};
use affc_ast::Items;
use std::alloc::Global;

/// The expression that stands here.
pub fn expression_here(
    alloc: Global,
    prelude: bool,
    room: u32,
    symbols: &[Symbol<'_>],
    next: usize,
) -> Answer<IxDraft>
    ensures read { Gives (map seen symbols.now) ix result (reading.expression prelude (length symbols.now) (reading.inside prelude (length symbols.now) room) (drop next (map seen symbols.now))) }
    ensures within { readers.IsWithin symbols.now result }
{
    let answer = expression::expression(alloc, prelude, room, symbols, next);
    counted(symbols, answer)
}

/// The expression behind a bracket that was opened where `room` could be.
pub fn inside_here(
    alloc: Global,
    prelude: bool,
    room: u32,
    symbols: &[Symbol<'_>],
    next: usize,
) -> Answer<IxDraft>
    ensures read { Gives (map seen symbols.now) ix result (reading.inside prelude (length symbols.now) room (drop next (map seen symbols.now))) }
    ensures within { readers.IsWithin symbols.now result }
{
    let answer = expression::inside(alloc, prelude, room, symbols, next);
    counted(symbols, answer)
}

/// The dimensions that stand here.
pub fn dims_here(
    alloc: Global,
    prelude: bool,
    room: u32,
    symbols: &[Symbol<'_>],
    next: usize,
) -> Answer<Items<IxDraft>>
    ensures read { Gives (map seen symbols.now) (map ix) result (reading.dims prelude (length symbols.now) room (drop next (map seen symbols.now))) }
    ensures within { readers.IsWithin symbols.now result }
{
    let answer = expression::dims(alloc, prelude, room, symbols, next);
    counted(symbols, answer)
}

/// The condition of an `if` that stands here.
pub fn condition_here(
    alloc: Global,
    prelude: bool,
    room: u32,
    symbols: &[Symbol<'_>],
    next: usize,
) -> Answer<CondDraft>
    ensures read { Gives (map seen symbols.now) cond result (conds.whole prelude true (length symbols.now) room (drop next (map seen symbols.now))) }
    ensures within { readers.IsWithin symbols.now result }
{
    let answer = condition::condition(alloc, prelude, true, room, symbols, next);
    counted(symbols, answer)
}

/// The comparisons of a line that stand here.
pub fn comparisons_here(
    alloc: Global,
    prelude: bool,
    room: u32,
    symbols: &[Symbol<'_>],
    next: usize,
) -> Answer<Items<CompareDraft>>
    ensures read { Gives (map seen symbols.now) (map compare) result (conds.comparisons prelude (length symbols.now) room (drop next (map seen symbols.now))) }
    ensures within { readers.IsWithin symbols.now result }
{
    let answer = condition::comparisons(alloc, prelude, room, symbols, next);
    counted(symbols, answer)
}

/// The value that stands here.
pub fn value_here(
    alloc: Global,
    prelude: bool,
    room: u32,
    symbols: &[Symbol<'_>],
    next: usize,
) -> Answer<ValueDraft>
    ensures read { Gives (map seen symbols.now) value result (values.value prelude (length symbols.now) room (drop next (map seen symbols.now))) }
    ensures within { readers.IsWithin symbols.now result }
{
    let answer = value::whole_value(alloc, prelude, room, symbols, next);
    counted(symbols, answer)
}
