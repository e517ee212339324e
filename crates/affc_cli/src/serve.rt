//! The top call.
ghost use Rattle.std.specs.Prelude.{◌≡◌, None, Some, drop, option_map};
ghost use Rattle.std.specs.Process.{exit_status};
ghost use Rattle.affc_io.specs.State.{FolderState};
ghost use Rattle.affc_words.specs.Command.{Fold, Replay, Run, Flow, Big, texts_of};
ghost use Rattle.affc_cli.specs.Outside.{outside};
ghost use Rattle.affc_cli.specs.Promise.{Runs, Serves, ServesGiven};

use crate::big::big;
use crate::files::{
    file_of, flowed, fold_file, folded_alone, folded_by, ran, replay_file, replayed,
};
use crate::writing::{end, end_with};
use affc_io::{Folder, Sink};
use affc_lines::refusal::{tell_short, tell_words};
use affc_words::stages::Stages;
use affc_words::words::{Command, Settings, command_of};
use std::alloc::Global;
use std::io;
use std::io::ErrorKind;
use std::process::ExitCode;

// Compiles the source that the folder has under the name.
fn run_fold<F: Folder, O: Sink, E: Sink>(
    alloc: Global,
    source: &str,
    settings: Settings,
    file: Option<&str>,
    folder: &mut F,
    out: &mut O,
    err: &mut E,
) -> u8
    ensures { Runs (Fold source.now None settings (option_map (λ s. s.now) file.entry))
        (outside (F.state folder.old) (O.state out.old) (E.state err.old))
        (outside (F.state folder.new) (O.state out.new) (E.state err.new))
        result }
{
    let made = folded_alone(alloc, source, settings, file, folder);
    end_with(alloc, made, file, source, folder, out, err)
}

// Compiles it in the order of the schedule that the folder has under the other name.
fn run_fold_by<F: Folder, O: Sink, E: Sink>(
    alloc: Global,
    source: &str,
    schedule: &str,
    settings: Settings,
    file: Option<&str>,
    folder: &mut F,
    out: &mut O,
    err: &mut E,
) -> u8
    ensures { Runs (Fold source.now (Some schedule.now) settings (option_map (λ s. s.now) file.entry))
        (outside (F.state folder.old) (O.state out.old) (E.state err.old))
        (outside (F.state folder.new) (O.state out.new) (E.state err.new))
        result }
{
    let made = folded_by(alloc, source, schedule, settings, file, folder);
    let name = fold_file(&made, source, schedule);
    end_with(alloc, made, file, name, folder, out, err)
}

// Compiles it so by the certificate that the folder has under a third name.
fn run_replay<F: Folder, O: Sink, E: Sink>(
    alloc: Global,
    source: &str,
    schedule: &str,
    certificate: &str,
    folder: &mut F,
    out: &mut O,
    err: &mut E,
) -> u8
    ensures { Runs (Replay source.now schedule.now certificate.now)
        (outside (F.state folder.old) (O.state out.old) (E.state err.old))
        (outside (F.state folder.new) (O.state out.new) (E.state err.new))
        result }
{
    let made = replayed(alloc, source, schedule, certificate, folder);
    let name = replay_file(&made, source, schedule, certificate);
    end(alloc, made, name, out, err)
}

// Runs the source that the folder has under one name on the data that it has under the other.
fn run_data<F: Folder, O: Sink, E: Sink>(
    alloc: Global,
    source: &str,
    feed: &str,
    limit: u64,
    folder: &mut F,
    out: &mut O,
    err: &mut E,
) -> u8
    ensures { Runs (Run source.now feed.now limit)
        (outside (F.state folder.old) (O.state out.old) (E.state err.old))
        (outside (F.state folder.new) (O.state out.new) (E.state err.new))
        result }
{
    let made = ran(alloc, source, feed, limit, folder);
    let name = file_of(&made, source, feed);
    end(alloc, made, name, out, err)
}

// Tells the trees of the source that the folder has under the name.
fn run_flow<F: Folder, O: Sink, E: Sink>(
    alloc: Global,
    source: &str,
    folder: &mut F,
    out: &mut O,
    err: &mut E,
) -> u8
    ensures { Runs (Flow source.now)
        (outside (F.state folder.old) (O.state out.old) (E.state err.old))
        (outside (F.state folder.new) (O.state out.new) (E.state err.new))
        result }
{
    let made = flowed(alloc, source, folder);
    end(alloc, made, source, out, err)
}

// Sums up a pipeline of so many stages. The folder isn't looked at.
fn run_big<O: Sink, E: Sink>(alloc: Global, stages: Stages, out: &mut O, err: &mut E) -> u8
    ensures { (folder : FolderState) → Runs (Big stages.count)
        (outside folder (O.state out.old) (E.state err.old))
        (outside folder (O.state out.new) (E.state err.new))
        result }
{
    let made = big(alloc, stages);
    end(alloc, made, "", out, err)
}

/// Does what the words ask, and answers the exit status.
pub fn serve<F: Folder, O: Sink, E: Sink>(
    alloc: Global,
    words: &[String],
    folder: &mut F,
    out: &mut O,
    err: &mut E,
) -> u8
    ensures { Serves (texts_of words.now)
        (outside (F.state folder.old) (O.state out.old) (E.state err.old))
        (outside (F.state folder.new) (O.state out.new) (E.state err.new))
        result }
{
    match command_of(alloc, words) {
        Err(_) => tell_short(err),
        Ok(None) => tell_words(err),
        Ok(
            Some(
                Command::Fold {
                    source,
                    schedule: None,
                    settings,
                    certificate,
                },
            ),
        ) => run_fold(alloc, source, settings, certificate, folder, out, err),
        Ok(
            Some(
                Command::Fold {
                    source,
                    schedule: Some(schedule),
                    settings,
                    certificate,
                },
            ),
        ) => run_fold_by(
            alloc,
            source,
            schedule,
            settings,
            certificate,
            folder,
            out,
            err,
        ),
        Ok(
            Some(
                Command::Replay {
                    source,
                    schedule,
                    certificate,
                },
            ),
        ) => run_replay(alloc, source, schedule, certificate, folder, out, err),
        Ok(
            Some(
                Command::Run {
                    source,
                    feed,
                    steps,
                },
            ),
        ) => run_data(alloc, source, feed, steps, folder, out, err),
        Ok(Some(Command::Flow { source })) => run_flow(alloc, source, folder, out, err),
        Ok(Some(Command::Big { stages })) => run_big(alloc, stages, out, err),
    }
}

// The words behind the program's name.
fn behind_name(words: &[String]) -> &[String]
    ensures { result.now ≡ drop 1 words.now }
{
    match words {
        [_, behind @ ..] => behind,
        [] => words,
    }
}

// What the words that the system gives come to.
fn status_of<F: Folder, O: Sink, E: Sink>(
    alloc: Global,
    words: io::Result<Vec<String>>,
    folder: &mut F,
    out: &mut O,
    err: &mut E,
) -> u8
    ensures { ServesGiven words
        (outside (F.state folder.old) (O.state out.old) (E.state err.old))
        (outside (F.state folder.new) (O.state out.new) (E.state err.new))
        result }
{
    match words {
        Ok(words) => serve(alloc, behind_name(&words), folder, out, err),
        Err(error) => match error.kind() {
            ErrorKind::OutOfMemory => tell_short(err),
            _ => tell_words(err),
        },
    }
}

/// Serves the words that the system gives, of which the first is the program's name. Where it gives none, as of words
/// that are no text, that is no command form.
pub fn answered<F: Folder, O: Sink, E: Sink>(
    alloc: Global,
    words: io::Result<Vec<String>>,
    folder: &mut F,
    out: &mut O,
    err: &mut E,
) -> ExitCode
    ensures { ServesGiven words
        (outside (F.state folder.old) (O.state out.old) (E.state err.old))
        (outside (F.state folder.new) (O.state out.new) (E.state err.new))
        (exit_status result) }
{
    ExitCode::from(status_of(alloc, words, folder, out, err))
}
