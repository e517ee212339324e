//! Reading a whole text.

ghost use Rattle.std.specs.Prelude.{◌≡◌, [], drop, length, map};
ghost use Rattle.affc_syntax.specs.draft.Drafts as drafts;
ghost use Rattle.affc_syntax.specs.draft.Symbols.{seen};
ghost use Rattle.affc_syntax.specs.Readers.{Gives};
ghost use Rattle.affc_text.specs.Answers.{IsRead};
ghost use Rattle.affc_text.specs.Parts.{lines_seen, function_seen};
ghost use Rattle.affc_text.specs.TextReading as reading;

use crate::ahead::{behind_hash, behind_header, behind_line, past_prelude};
use crate::function::{Function, read_function};
use crate::lines::{Lines, read_lines};
use affc_syntax::ahead::{Answer, Stop, behind_word, first};
use affc_syntax::draft::draft::TextDraft;
use affc_syntax::draft::symbol::Symbol;
use affc_syntax::expression::number_of_first;
use std::alloc::Global;

/// The text, which ends here.
fn ended(
    has_prelude: bool,
    lines: Lines,
    function: Function,
    symbols: &[Symbol<'_>],
    next: usize,
) -> Answer<TextDraft>
    ensures { Gives (map seen symbols.now) drafts.text result (reading.ended has_prelude (lines_seen lines) (function_seen function) (drop next (map seen symbols.now))) }
{
    if let Some(_) = first(symbols, next) {
        return Err(Stop::At(next));
    }
    let Lines { pragmas, calls: _ } = lines;
    let Function {
        name,
        params,
        temps,
        stmts,
    } = function;
    let text = TextDraft {
        pragmas,
        has_prelude,
        function: name,
        params,
        temps,
        body: stmts,
    };
    Ok((text, next))
}

/// Behind the lines and the prelude, where it stands.
fn read_rest(
    alloc: Global,
    room: u32,
    has_prelude: bool,
    lines: Lines,
    symbols: &[Symbol<'_>],
    next: usize,
) -> Answer<TextDraft>
    ensures { Gives (map seen symbols.now) drafts.text result (reading.rest (length symbols.now) room has_prelude (lines_seen lines) (drop next (map seen symbols.now))) }
{
    let (function, next) = read_function(alloc, has_prelude, room, symbols, next)?;
    ended(has_prelude, lines, function, symbols, next)
}

/// Behind the lines; a text without the prelude has no calls in its lines.
fn lines_behind(
    alloc: Global,
    room: u32,
    lines: Lines,
    symbols: &[Symbol<'_>],
    next: usize,
) -> Answer<TextDraft>
    ensures { Gives (map seen symbols.now) drafts.text result (reading.lines_behind (length symbols.now) room (lines_seen lines) (drop next (map seen symbols.now))) }
{
    match past_prelude(symbols, next) {
        Some(next) => read_rest(alloc, room, true, lines, symbols, next),
        None => {
            if lines.calls {
                Err(Stop::At(next))
            } else {
                read_rest(alloc, room, false, lines, symbols, next)
            }
        }
    }
}

fn drafted(alloc: Global, room: u32, symbols: &[Symbol<'_>]) -> Answer<TextDraft>
    ensures { Gives (map seen symbols.now) drafts.text result (reading.text (length symbols.now) room (map seen symbols.now)) }
{
    let next = behind_hash(symbols, 0)?;
    let next = behind_word(b"include", symbols, next)?;
    let next = behind_header(symbols, next)?;
    let next = behind_line(symbols, next)?;
    let (lines, next) = read_lines(alloc, room, symbols, next)?;
    lines_behind(alloc, room, lines, symbols, next)
}

/// The text that the symbols spell, where `room` brackets may be open at once.
pub fn read_text(alloc: Global, room: u32, symbols: &[Symbol<'_>]) -> Result<TextDraft, Stop>
    ensures { IsRead room (map seen symbols.now) result }
{
    match drafted(alloc, room, symbols) {
        Ok((text, _)) => Ok(text),
        Err(Stop::At(next)) => Err(Stop::At(number_of_first(symbols, next))),
        Err(Stop::Deep) => Err(Stop::Deep),
        Err(Stop::Memory) => Err(Stop::Memory),
    }
}
