//! Reading the files that a command names.
ghost use Rattle.std.specs.Prelude.{◌≡◌, ◌≤◌, ◌∷◌, [], length, Some, None, Ok, IfOk, IfErr, option_map};
ghost use Rattle.affc_io.specs.Files.{Holds};
ghost use Rattle.affc_io.specs.State.{FolderKeeps};
ghost use Rattle.affc_io.specs.declared.folder.TheConstants.{LONGEST_READ};
ghost use Rattle.affc_cli.specs.Outside.{IsRead, IsReadInOrder};
ghost use Rattle.affc_cli.specs.Promise.{FoldPromises, ReplayPromises, RunPromises, FlowPromises};
ghost use Rattle.affc_cli.specs.Refusal.{FoldCause, ReplayCause, RunCause, FlowCause, fold_file, replay_file, file_of};
ghost use Rattle.affc_cli.specs.Telling.{IsReadOnce, UnheldCause, unread_as};

use crate::fold::fold;
use crate::pieces::Pieces;
use crate::replay::replay;
use crate::run::run_text;
use crate::trees::trees;
use affc_io::{Folder, ReadFault};
use affc_lines::refusal::{Operand, Refusal, UnreadWhy};
use affc_words::words::Settings;
use std::alloc::Global;

// The refusal of this file, whose read answered the fault.
fn unread(file: Operand, fault: ReadFault) -> Refusal
    ensures { result ≡ unread_as file fault }
{
    match fault {
        ReadFault::Memory => Refusal::Memory,
        ReadFault::Long => Refusal::Unread {
            file,
            why: UnreadWhy::Long,
        },
        ReadFault::Missing | ReadFault::Failed => Refusal::Unread {
            file,
            why: UnreadWhy::Unreadable,
        },
    }
}

// What the folder has under the name, which is that of this file.
fn contents_of<F: Folder>(
    alloc: Global,
    file: Operand,
    name: &str,
    folder: &mut F,
) -> Result<Vec<u8>, Refusal>
    ensures keeps { FolderKeeps (F.state folder.old) (F.state folder.new) }
    ensures once { IsReadOnce name.now (F.state folder.old) (F.state folder.new) }
    ensures read { IfOk result (λ text. IsRead ((name.now, Ok text.items) ∷ []) (F.state folder.old) (F.state folder.new)) }
    ensures ok { IfOk result (λ text. Holds (F.state folder.old).held name.now text.items) }
    ensures fits { IfOk result (λ text. length text.items ≤ LONGEST_READ) }
    ensures err { IfErr result (λ refusal.
        UnheldCause file refusal [] name.now (F.state folder.old) (F.state folder.new)) }
{
    match folder.read(alloc, name) {
        Ok(text) => Ok(text),
        Err(fault) => Err(unread(file, fault)),
    }
}

/// The pieces for the source that the folder has under the name, without a schedule.
pub fn folded_alone<F: Folder>(
    alloc: Global,
    source: &str,
    settings: Settings,
    file: Option<&str>,
    folder: &mut F,
) -> Result<Pieces, Refusal>
    ensures keeps { FolderKeeps (F.state folder.old) (F.state folder.new) }
    ensures reads { IsReadInOrder (source.now ∷ []) (F.state folder.old) (F.state folder.new) }
    ensures ok { IfOk result (λ made. FoldPromises source.now None settings (option_map (λ s. s.now) file.entry) (F.state folder.old) (F.state folder.new)
        made.certificate.items made.text.items made.report.items) }
    ensures err { IfErr result (λ refusal. FoldCause refusal source.now None settings (F.state folder.old) (F.state folder.new)) }
{
    let source = contents_of(alloc, Operand::Source, source, folder)?;
    fold(alloc, &source, None, settings, file)
}

/// The pieces for the source that the folder has under one name, in the order of the schedule under the other.
pub fn folded_by<F: Folder>(
    alloc: Global,
    source: &str,
    schedule: &str,
    settings: Settings,
    file: Option<&str>,
    folder: &mut F,
) -> Result<Pieces, Refusal>
    ensures keeps { FolderKeeps (F.state folder.old) (F.state folder.new) }
    ensures reads { IsReadInOrder (source.now ∷ schedule.now ∷ []) (F.state folder.old) (F.state folder.new) }
    ensures ok { IfOk result (λ made. FoldPromises source.now (Some schedule.now) settings (option_map (λ s. s.now) file.entry)
        (F.state folder.old) (F.state folder.new) made.certificate.items made.text.items made.report.items) }
    ensures err { IfErr result (λ refusal. FoldCause refusal source.now (Some schedule.now) settings
        (F.state folder.old) (F.state folder.new)) }
{
    let source = contents_of(alloc, Operand::Source, source, folder)?;
    let schedule = contents_of(alloc, Operand::Schedule, schedule, folder)?;
    fold(alloc, &source, Some(&schedule), settings, file)
}

/// The pieces for the source under one name, in the order of the schedule under another, by the certificate under a third.
pub fn replayed<F: Folder>(
    alloc: Global,
    source: &str,
    schedule: &str,
    certificate: &str,
    folder: &mut F,
) -> Result<Pieces, Refusal>
    ensures keeps { FolderKeeps (F.state folder.old) (F.state folder.new) }
    ensures reads { IsReadInOrder (source.now ∷ schedule.now ∷ certificate.now ∷ []) (F.state folder.old) (F.state folder.new) }
    ensures ok { IfOk result (λ made. ReplayPromises source.now schedule.now certificate.now
        (F.state folder.old) (F.state folder.new) made.text.items made.report.items) }
    ensures err { IfErr result (λ refusal. ReplayCause refusal source.now schedule.now certificate.now
        (F.state folder.old) (F.state folder.new)) }
{
    let source = contents_of(alloc, Operand::Source, source, folder)?;
    let schedule = contents_of(alloc, Operand::Schedule, schedule, folder)?;
    let certificate = contents_of(alloc, Operand::Certificate, certificate, folder)?;
    replay(alloc, &source, &schedule, &certificate)
}

/// What the source that the folder has under one name gives on the data that it has under the other.
pub fn ran<F: Folder>(
    alloc: Global,
    source: &str,
    feed: &str,
    limit: u64,
    folder: &mut F,
) -> Result<Pieces, Refusal>
    ensures keeps { FolderKeeps (F.state folder.old) (F.state folder.new) }
    ensures reads { IsReadInOrder (source.now ∷ feed.now ∷ []) (F.state folder.old) (F.state folder.new) }
    ensures ok { IfOk result (λ made. RunPromises source.now feed.now limit (F.state folder.old) (F.state folder.new) made.text.items made.report.items) }
    ensures err { IfErr result (λ refusal. RunCause refusal source.now feed.now limit
        (F.state folder.old) (F.state folder.new)) }
{
    let source = contents_of(alloc, Operand::Source, source, folder)?;
    let feed = contents_of(alloc, Operand::Data, feed, folder)?;
    run_text(alloc, &source, &feed, limit)
}

/// The trees of the source that the folder has under the name.
pub fn flowed<F: Folder>(alloc: Global, source: &str, folder: &mut F) -> Result<Pieces, Refusal>
    ensures keeps { FolderKeeps (F.state folder.old) (F.state folder.new) }
    ensures reads { IsReadInOrder (source.now ∷ []) (F.state folder.old) (F.state folder.new) }
    ensures ok { IfOk result (λ made. FlowPromises source.now (F.state folder.old) (F.state folder.new) made.text.items made.report.items) }
    ensures err { IfErr result (λ refusal. FlowCause refusal source.now (F.state folder.old) (F.state folder.new)) }
{
    let source = contents_of(alloc, Operand::Source, source, folder)?;
    trees(alloc, &source)
}

/// The file that a refusal of `fold` means.
pub fn fold_file<'a>(made: &Result<Pieces, Refusal>, source: &'a str, schedule: &'a str) -> &'a str
    ensures { IfErr made.now (λ refusal. result.now ≡ fold_file refusal source.now (Some schedule.now)) }
{
    match made {
        Err(
            Refusal::Unread {
                file: Operand::Schedule,
                why: _,
            },
        ) => schedule,
        _ => source,
    }
}

/// The file that a refusal of `run` means.
pub fn file_of<'a>(made: &Result<Pieces, Refusal>, source: &'a str, feed: &'a str) -> &'a str
    ensures { IfErr made.now (λ refusal. result.now ≡ file_of refusal source.now feed.now) }
{
    match made {
        Err(
            Refusal::Unread {
                file: Operand::Data,
                why: _,
            },
        ) => feed,
        _ => source,
    }
}

/// The file that a refusal of `replay` means.
pub fn replay_file<'a>(
    made: &Result<Pieces, Refusal>,
    source: &'a str,
    schedule: &'a str,
    certificate: &'a str,
) -> &'a str
    ensures { IfErr made.now (λ refusal. result.now ≡ replay_file refusal source.now schedule.now certificate.now) }
{
    match made {
        Err(
            Refusal::Unread {
                file: Operand::Schedule,
                why: _,
            },
        ) => schedule,
        Err(
            Refusal::Unread {
                file: Operand::Certificate,
                why: _,
            },
        ) => certificate,
        _ => source,
    }
}
