//! How many spans begin, and how many end, at each instant.
ghost use Rattle.std.specs.Prelude.{IfOk};
ghost use Rattle.std.specs.List.{All};
ghost use Rattle.affc_floor.specs.Spans.{IsWithin, IsTally, begins, ends_at};

use crate::span::Span;
use std::alloc::{AllocError, Global};

/// How many of these spans begin at each instant.
pub(crate) fn begun(
    alloc: Global,
    spans: &[Span],
    instants: usize,
) -> Result<Vec<usize>, AllocError>
    requires { All (IsWithin instants) spans.now }
    ensures { IfOk result (λ v. IsTally begins instants spans.now v.items) }
{
    let mut counts = vec![in alloc; 0; instants]?;
    for span in spans {
        counts[span.from] += 1;
    }
    Ok(counts)
}

/// How many of them end at each instant.
pub(crate) fn ended(
    alloc: Global,
    spans: &[Span],
    instants: usize,
) -> Result<Vec<usize>, AllocError>
    requires { All (IsWithin instants) spans.now }
    ensures { IfOk result (λ v. IsTally ends_at instants spans.now v.items) }
{
    let mut counts = vec![in alloc; 0; instants]?;
    for span in spans {
        if span.until < instants {
            counts[span.until] += 1;
        }
    }
    Ok(counts)
}
