//! The real files and streams. They tell nothing of what is held or taken, and count each error.

ghost use Rattle.std.specs.Prelude.{◌≡◌, ◌≤◌, [], None, IfOk, length};

use crate::{Folder, LONGEST_READ, ReadFault, ReadLog, Sink, SinkFault, WriteFault};
use std::alloc::Global;
use std::io::{ErrorKind, Print, Read, Write};
use std::rt::Files;
use std::{fs, io};

/// The files of the runtime.
#[derive(Drop)]
pub struct StdFolder<R> {
    files: R,
    faults: u64,
    shortages: u64,
    log: ReadLog,
}

impl<R: Files> StdFolder<R> {
    pub fn new(files: R) -> StdFolder<R>
        ensures { ⟦<StdFolder<R> as Folder>⟧.state result ≡ record { held = None; faults = 0; shortages = 0; reads = [] } }
    {
        StdFolder {
            files,
            faults: 0,
            shortages: 0,
            log: ReadLog::new(),
        }
    }
}

// All bytes of a file, or one more than a read answers.
fn contents<R: Files>(files: &R, alloc: Global, name: &str) -> io::Result<Vec<u8>> {
    let mut bytes = Vec::new(alloc);
    let file = fs::open(files, name)?;
    file.take(LONGEST_READ as u64 + 1).read_to_end(&mut bytes)?;
    Ok(bytes)
}

// The bytes, where they aren't too many for a read.
fn read_answer(found: io::Result<Vec<u8>>) -> Result<Vec<u8>, ReadFault>
    ensures { IfOk result (λ bytes. length bytes.items ≤ LONGEST_READ) }
{
    match found {
        Ok(bytes) if bytes.len() <= LONGEST_READ => Ok(bytes),
        Ok(_) => Err(ReadFault::Long),
        Err(e) => Err(match e.kind() {
            ErrorKind::NotFound => ReadFault::Missing,
            ErrorKind::OutOfMemory => ReadFault::Memory,
            _ => ReadFault::Failed,
        }),
    }
}

fn put<R: Files>(files: &R, name: &str, bytes: &[u8]) -> io::Result<()> {
    fs::create(files, name)?.write_all(bytes)
}

impl<R: Files> Folder for StdFolder<R> {
    ghost state = { λ f. record { held = None; faults = f.faults; shortages = f.shortages; reads = f.log.reads } };

    fn read(&mut self, alloc: Global, name: &str) -> Result<Vec<u8>, ReadFault> {
        let answer = read_answer(contents(&self.files, alloc, name));
        self.log.note(name, &answer);
        match answer {
            Ok(_) => {}
            Err(ReadFault::Memory) => self.shortages = self.shortages.saturating_add(1),
            Err(_) => self.faults = self.faults.saturating_add(1),
        }
        answer
    }

    fn write(&mut self, name: &str, bytes: &[u8]) -> Result<(), WriteFault> {
        let Err(e) = put(&self.files, name, bytes) else {
            return Ok(());
        };
        if e.kind() == ErrorKind::OutOfMemory {
            self.shortages = self.shortages.saturating_add(1);
            return Err(WriteFault::Memory);
        }
        self.faults = self.faults.saturating_add(1);
        Err(WriteFault::Failed)
    }
}

/// A standard stream.
#[derive(Drop)]
pub struct StdSink<P> {
    stream: P,
    faults: u64,
}

impl<P: Print> StdSink<P> {
    pub fn new(stream: P) -> StdSink<P>
        ensures { ⟦<StdSink<P> as Sink>⟧.state result ≡ record { taken = None; faults = 0; shortages = 0 } }
    {
        StdSink { stream, faults: 0 }
    }
}

impl<P: Print> Sink for StdSink<P> {
    ghost state = { λ s. record { taken = None; faults = s.faults; shortages = 0 } };

    fn write(&mut self, bytes: &[u8]) -> Result<usize, SinkFault> {
        let answer = self.stream.write_some(bytes).map_err(|_| SinkFault::Failed);
        match answer {
            Ok(0) if bytes.is_empty() => {}
            Ok(0) | Err(_) => self.faults = self.faults.saturating_add(1),
            Ok(_) => {}
        }
        answer
    }
}
