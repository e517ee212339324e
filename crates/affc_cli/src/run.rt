//! One source, run on data.
ghost use Rattle.std.specs.Prelude.{◌≡◌, [], IfOk, IfErr};
ghost use Rattle.affc_cli.specs.Run.{RunsTo, RunTextCause};

use crate::pieces::Pieces;
use affc_interp::feed::{FeedFault, read_feed};
use affc_interp::lines::lines;
use affc_interp::run::run;
use affc_lines::refusal::Refusal;
use affc_lines::source::program_of;
use affc_lines::stuck::refusal_of;
use std::alloc::Global;

/// What the output arrays hold when the source has run on the data, a line for each, or why there is nothing.
pub fn run_text(alloc: Global, source: &[u8], feed: &[u8], limit: u64) -> Result<Pieces, Refusal>
    ensures ok { IfOk result (λ made. RunsTo source.now feed.now limit made.text.items) }
    ensures no_report { IfOk result (λ made. made.report.items ≡ []) }
    ensures err { IfErr result (RunTextCause source.now feed.now limit) }
{
    let program = program_of(alloc, source)?;
    let given = match read_feed(alloc, feed, &program) {
        Ok(given) => given,
        Err(FeedFault::Line(number)) => return Err(Refusal::Data(number)),
        Err(FeedFault::Memory) => return Err(Refusal::Memory),
    };
    let store = match run(alloc, &program, &given, limit) {
        Ok(store) => store,
        Err(fault) => {
            return Err(refusal_of(alloc, &program, given.params.as_slice(), &fault));
        }
    };
    match lines(alloc, &program, &store) {
        Ok(text) => Ok(Pieces {
            certificate: Vec::new(alloc),
            text,
            report: Vec::new(alloc),
        }),
        Err(_) => Err(Refusal::Memory),
    }
}
