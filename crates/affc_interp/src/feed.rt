//! Data: what a program is run on, read from a text.
ghost use Rattle.std.specs.Prelude.{◌≡◌, ◌+◌, ◌^◌, ◌<◌, ◌==◌, ◌&&◌, false, length, IfOk, Ok};
ghost use Rattle.affc_ast.specs.Fits.{meets};
ghost use Rattle.affc_ast.specs.Meaning.{arrays_of, nodes_of_decls};
ghost use Rattle.affc_interp.specs.Arrays.{values_in};
ghost use Rattle.affc_interp.specs.Feeds.{ReadsLines, AnswersFeed, SaysWhole};

use crate::context::meets;
use crate::extents::element_count;
use crate::line::{array_line, number_line};
use affc_ast::tree::{Compare, Param, Program};
use std::alloc::{AllocError, AllocFailed, Global};
use thiserror::Error;

/// What a program is run on: a value for each number parameter, and the elements of each array parameter,
/// the last subscript running fastest.
#[derive(Drop)]
pub struct Feed {
    pub params: Vec<i64>,
    pub arrays: Vec<Vec<u64>>,
}

/// Why a text isn't a program's data.
#[derive(Debug, Drop, Error)]
pub enum FeedFault {
    /// The first line that is wrong, counted from 1.
    #[error("line {0} of the data is wrong")]
    Line(u64),
    #[error("out of memory")]
    Memory,
}

impl From<AllocError> for FeedFault {
    ghost use Rattle.std.specs.Prelude.{◌≡◌};
    ghost use Rattle.affc_interp.specs.declared.feed.FeedFault.TheVariants.{Memory};

    ghost from_gives = { λ e f. f ≡ Memory };

    fn from(_e: AllocError) -> FeedFault {
        FeedFault::Memory
    }
}

impl<T: Drop> From<AllocFailed<T>> for FeedFault {
    ghost use Rattle.std.specs.Prelude.{◌≡◌};
    ghost use Rattle.affc_interp.specs.declared.feed.FeedFault.TheVariants.{Memory};

    ghost from_gives = { λ e f. f ≡ Memory };

    fn from(_e: AllocFailed<T>) -> FeedFault {
        FeedFault::Memory
    }
}

/// Why a line gives nothing.
#[derive(Clone, Copy)]
pub enum Stop {
    Wrong,
    Memory,
}

impl From<AllocError> for Stop {
    ghost use Rattle.std.specs.Prelude.{◌≡◌};
    ghost use Rattle.affc_interp.specs.declared.feed.Stop.TheVariants.{Memory};

    ghost from_gives = { λ e s. s ≡ Memory };

    fn from(_e: AllocError) -> Stop {
        Stop::Memory
    }
}

// What stands behind the lines of the parameters, the first of which has this number.
fn read_lines<'t>(
    alloc: Global,
    text: &'t [u8],
    params: &[Param],
    line: u64,
    numbers: &mut Vec<i64>,
    arrays: &mut Vec<Vec<u64>>,
) -> Result<&'t [u8], FeedFault>
    requires nodes { nodes_of_decls (arrays_of params.now) < 2 ^ 32 }
    requires lines { line + length params.now < 2 ^ 64 }
    ensures { ReadsLines result params.now text.now line numbers.old.items numbers.new.items (values_in arrays.old.items) (values_in arrays.new.items) }
{
    match params {
        [] => Ok(text),
        [param, others @ ..] => match param {
            Param::Number { name, low, high } => match number_line(text, name, *low, *high) {
                Some((value, rest)) => {
                    numbers.push(value)?;
                    read_lines(alloc, rest, others, line + 1, numbers, arrays)
                }
                None => Err(FeedFault::Line(line)),
            },
            Param::Array(decl) => {
                let count = element_count(decl.extents.as_slice(), 0, numbers.as_slice());
                match array_line(alloc, text, &decl.name, count) {
                    Ok((values, rest)) => {
                        arrays.push(values)?;
                        read_lines(alloc, rest, others, line + 1, numbers, arrays)
                    }
                    Err(Stop::Wrong) => Err(FeedFault::Line(line)),
                    Err(Stop::Memory) => Err(FeedFault::Memory),
                }
            }
        },
    }
}

// Whether nothing is left of the text, and the context is met.
fn is_whole(alloc: Global, rest: &[u8], context: &[Compare], p: &[i64]) -> Result<bool, FeedFault>
    ensures says { SaysWhole result ((length rest.now == 0) && meets context.now p.now) }
    ensures longer { 0 < length rest.now → result ≡ Ok false }
{
    if !rest.is_empty() {
        return Ok(false);
    }
    Ok(meets(alloc, context, p)?)
}

/// The data that the text gives, or the first line that is wrong.
pub fn read_feed(alloc: Global, text: &[u8], program: &Program) -> Result<Feed, FeedFault>
    requires { nodes_of_decls (arrays_of program.now.params) < 2 ^ 32 }
    ensures { AnswersFeed result text.now program.now }
{
    let params = program.params.as_slice();
    let Some(past) = (params.len() as u64).checked_add(1) else {
        return Err(FeedFault::Memory);
    };
    let mut numbers = Vec::new(alloc);
    let mut arrays = Vec::new(alloc);
    match read_lines(alloc, text, params, 1, &mut numbers, &mut arrays) {
        Ok(rest) => match is_whole(alloc, rest, program.context.as_slice(), numbers.as_slice()) {
            Ok(true) => Ok(Feed {
                params: numbers,
                arrays,
            }),
            Ok(false) => Err(FeedFault::Line(past)),
            Err(fault) => Err(fault),
        },
        Err(fault) => Err(fault),
    }
}
