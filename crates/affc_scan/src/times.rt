//! The ranges of the times of statements.
ghost use Rattle.std.specs.Prelude.{◌≡◌, ◌++◌, map, IfOk};
ghost use Rattle.std.specs.List.{All};
ghost use Rattle.affc_system.specs.Boxes.{IsBox};
ghost use Rattle.affc_loops.specs.Limits.{IsSmall};
ghost use Rattle.affc_loops.specs.Loops as specs;
ghost use Rattle.affc_scan.specs.Alive.{as_scheduled};
ghost use Rattle.affc_scan.specs.Numbered.{HasSpans, AllSpan};

use crate::alive::Alive;
use crate::ranges::{add_hulls, add_spans};
use affc_ast::Items;
use affc_system::BoxOf;
use std::alloc::{AllocError, Global};

/// The box with more columns.
#[tactic(auto, using(affc_trace::proofs::EndedReads::append_assoc, affc_trace::proofs::LastStores::append_nil))]
pub(crate) fn wider(ranges: BoxOf, more: &[(i64, i64)]) -> Result<BoxOf, AllocError>
    requires { IsBox more.now }
    ensures { IfOk result (λ b. b ≡ ranges ++ more.now) }
{
    match more {
        [] => Ok(ranges),
        [range, rest @ ..] => {
            let mut ranges = ranges;
            ranges.push(range.0, range.1)?;
            wider(ranges, rest)
        }
    }
}

/// The ranges of a statement's times.
pub(crate) fn times_of(
    alloc: Global,
    params: &BoxOf,
    alive: &Alive<'_, '_>,
) -> Result<Items<(i64, i64)>, AllocError>
    requires { HasSpans params.now (as_scheduled alive.now) }
    ensures value { IfOk result (λ x. x ≡ specs.times_of params.now (as_scheduled alive.now)) }
    ensures small { IfOk result (All IsSmall) }
{
    let ranges = params.clone()?;
    let ranges = wider(ranges, alive.entry.ranges.ranges())?;
    add_spans(&ranges, alive.times.forms.as_slice(), Items::new(alloc))
}

/// The ranges of all times.
pub(crate) fn time_ranges(
    alloc: Global,
    params: &BoxOf,
    statements: &[Alive<'_, '_>],
) -> Result<Items<(i64, i64)>, AllocError>
    requires { AllSpan params.now (map as_scheduled statements.now) }
    ensures { IfOk result (λ x. x ≡ specs.time_ranges params.now (map as_scheduled statements.now)) }
{
    match statements {
        [] => Ok(Items::new(alloc)),
        [alive, rest @ ..] => {
            let own = times_of(alloc, params, alive)?;
            match rest {
                [] => Ok(own),
                [_, ..] => {
                    let others = time_ranges(alloc, params, rest)?;
                    let made = Items::new(alloc);
                    add_hulls(own.as_slice(), others.as_slice(), made)
                }
            }
        }
    }
}
