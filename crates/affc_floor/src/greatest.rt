//! The instant at which most spans are open.
ghost use Rattle.std.specs.Prelude.{IfOk};
ghost use Rattle.std.specs.List.{All};
ghost use Rattle.affc_floor.specs.Spans.{IsWithin, IsMost};

use crate::span::{Most, Span};
use crate::tally::{begun, ended};
use std::alloc::{AllocError, Global};

/// The first instant at which most of these spans are open, and how many; nothing where there is no span.
pub fn sweep(alloc: Global, spans: &[Span], instants: usize) -> Result<Option<Most>, AllocError>
    requires { All (IsWithin instants) spans.now }
    ensures { IfOk result (IsMost spans.now) }
{
    let begun = begun(alloc, spans, instants)?;
    let ended = ended(alloc, spans, instants)?;
    let mut count = 0;
    let mut most = Most { at: 0, spans: 0 };
    for i in 0..instants {
        count = count + begun[i] - ended[i];
        if most.spans < count {
            most = Most {
                at: i,
                spans: count,
            };
        }
    }
    if most.spans == 0 {
        Ok(None)
    } else {
        Ok(Some(most))
    }
}
