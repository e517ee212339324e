//! A whole piece, in as many writes as it takes.

ghost use Rattle.std.specs.Prelude.{◌≡◌, ◌<◌, length, IfErr};
ghost use Rattle.affc_io.specs.Count.{Rose};
ghost use Rattle.affc_io.specs.Taken.{grown};
ghost use Rattle.affc_io.specs.Put.{IsCausedBy, put_of};
ghost use Rattle.affc_io.specs.State.{SinkCounts};

use crate::{Sink, SinkFault};

/// Why a piece wasn't taken whole.
#[derive(Clone, Copy)]
pub enum PutCause {
    /// A write failed, or took none of the bytes.
    Fault,
    Memory,
}

/// How many bytes of the piece were taken, and why no more.
#[derive(Clone, Copy)]
pub struct PutFault {
    pub written: usize,
    pub cause: PutCause,
}

/// Writes the whole piece. Takes no memory of its own.
pub fn put_all<S: Sink>(sink: &mut S, bytes: &[u8]) -> Result<(), PutFault>
    ensures counts { SinkCounts (S.state sink.old) (S.state sink.new) }
    ensures taken { (S.state sink.new).taken ≡ grown (S.state sink.old).taken (put_of result bytes.now) }
    ensures bound { IfErr result (λ fault. fault.written < length bytes.now) }
    ensures cause { IfErr result (λ fault. IsCausedBy fault.cause
        (Rose (S.state sink.old).faults (S.state sink.new).faults)
        (Rose (S.state sink.old).shortages (S.state sink.new).shortages)) }
{
    let mut written = 0;
    while written < bytes.len() {
        let cause = match sink.write(&bytes[written..]) {
            Ok(0) | Err(SinkFault::Failed) => PutCause::Fault,
            Err(SinkFault::Memory) => PutCause::Memory,
            Ok(count) => {
                written += count;
                continue;
            }
        };
        return Err(PutFault { written, cause });
    }
    Ok(())
}
