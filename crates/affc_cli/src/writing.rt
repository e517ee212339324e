//! Writing what a command makes, or telling why there is nothing.
ghost use Rattle.std.specs.Prelude.{option_map};
ghost use Rattle.affc_io.specs.State.{SinkCounts};
ghost use Rattle.affc_cli.specs.Outside.{KeepsBut};
ghost use Rattle.affc_cli.specs.Telling.{Puts, Ends, EndsFiled, EndsWith, Reports};
ghost use Rattle.std.specs.Prelude.{Some};

use crate::pieces::Pieces;
use affc_io::{Folder, PutCause, Sink, WriteFault, put_all};
use affc_lines::refusal::{Refusal, tell_short};
use std::alloc::Global;

// Writes a report.
fn put_report<E: Sink>(report: &[u8], err: &mut E) -> u8
    ensures reports { Reports report.now (E.state err.old) (E.state err.new) result }
    ensures counts { SinkCounts (E.state err.old) (E.state err.new) }
{
    match put_all(err, report) {
        Ok(()) => 0,
        Err(fault) => match fault.cause {
            PutCause::Fault => 10,
            PutCause::Memory => tell_short(err),
        },
    }
}

// Writes a text, and then a report.
fn put_pieces<O: Sink, E: Sink>(text: &[u8], report: &[u8], out: &mut O, err: &mut E) -> u8
    ensures puts { Puts text.now report.now (O.state out.old) (O.state out.new) (E.state err.old) (E.state err.new) result }
    ensures out_counts { SinkCounts (O.state out.old) (O.state out.new) }
    ensures err_counts { SinkCounts (E.state err.old) (E.state err.new) }
{
    match put_all(out, text) {
        Ok(()) => put_report(report, err),
        Err(fault) => match fault.cause {
            PutCause::Fault => 10,
            PutCause::Memory => tell_short(err),
        },
    }
}

/// Writes a command's text and report, or tells its refusal, in which `name` is the file that is meant.
pub fn end<O: Sink, E: Sink>(
    alloc: Global,
    made: Result<Pieces, Refusal>,
    name: &str,
    out: &mut O,
    err: &mut E,
) -> u8
    ensures ends { Ends made name.now (O.state out.old) (O.state out.new) (E.state err.old) (E.state err.new)
        result }
    ensures out_counts { SinkCounts (O.state out.old) (O.state out.new) }
    ensures err_counts { SinkCounts (E.state err.old) (E.state err.new) }
{
    match made {
        Ok(pieces) => put_pieces(pieces.text.as_slice(), pieces.report.as_slice(), out, err),
        Err(refusal) => refusal.tell(alloc, err, name),
    }
}

// The same, with the certificate written to its file first.
fn end_filed<F: Folder, O: Sink, E: Sink>(
    alloc: Global,
    made: Result<Pieces, Refusal>,
    file: &str,
    name: &str,
    folder: &mut F,
    out: &mut O,
    err: &mut E,
) -> u8
    ensures ends { EndsFiled made file.now name.now (F.state folder.old) (F.state folder.new) (O.state out.old) (O.state out.new)
        (E.state err.old) (E.state err.new) result }
    ensures keeps { KeepsBut (Some file.now) (F.state folder.old) (F.state folder.new) }
    ensures out_counts { SinkCounts (O.state out.old) (O.state out.new) }
    ensures err_counts { SinkCounts (E.state err.old) (E.state err.new) }
{
    let pieces = match made {
        Ok(pieces) => pieces,
        Err(refusal) => return refusal.tell(alloc, err, name),
    };
    match folder.write(file, pieces.certificate.as_slice()) {
        Ok(()) => put_pieces(pieces.text.as_slice(), pieces.report.as_slice(), out, err),
        Err(WriteFault::Failed) => 10,
        Err(WriteFault::Memory) => tell_short(err),
    }
}

/// Writes a command's pieces, of which the certificate goes to its file where one is named, or tells its refusal, in which `name` is
/// the file that is meant.
pub fn end_with<F: Folder, O: Sink, E: Sink>(
    alloc: Global,
    made: Result<Pieces, Refusal>,
    file: Option<&str>,
    name: &str,
    folder: &mut F,
    out: &mut O,
    err: &mut E,
) -> u8
    ensures ends { EndsWith (option_map (λ s. s.now) file.entry) made name.now (F.state folder.old) (F.state folder.new)
        (O.state out.old) (O.state out.new) (E.state err.old) (E.state err.new) result }
    ensures keeps { KeepsBut (option_map (λ s. s.now) file.entry) (F.state folder.old) (F.state folder.new) }
    ensures out_counts { SinkCounts (O.state out.old) (O.state out.new) }
    ensures err_counts { SinkCounts (E.state err.old) (E.state err.new) }
{
    match file {
        None => end(alloc, made, name, out, err),
        Some(file) => end_filed(alloc, made, file, name, folder, out, err),
    }
}
