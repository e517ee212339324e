//! Calls of `serve` over files and sinks in memory, of which some are made to fail.
use crate::fault::Fault;
use crate::plain::{cut, number, numbers_of};
use crate::read::told;
use crate::short::{ShortFolder, ShortSink};
use affc_cli::serve::serve;
use affc_io::{MemFolder, MemSink};
use std::alloc::{AllocError, Global};

/// A name, and what a folder holds under it.
pub type NamedFile = (String, Vec<u8>);

// How many bytes the first write takes, and the numbers of the writes that fail.
#[derive(Drop)]
struct SinkFaults {
    first: usize,
    calls: Vec<u64>,
}

// What has no memory.
#[derive(Clone, Copy)]
enum Short {
    Nothing,
    Folder,
    Out,
    Err,
}

/// What a call meets outside.
#[derive(Drop)]
pub struct Faults {
    folder: Vec<u64>,
    out: SinkFaults,
    err: SinkFaults,
    short: Short,
}

/// What a call leaves: the status, and what the two sinks took.
#[derive(Drop)]
pub struct Left {
    pub status: u8,
    pub out: Vec<u8>,
    pub err: Vec<u8>,
}

impl SinkFaults {
    fn none(alloc: Global) -> SinkFaults {
        SinkFaults {
            first: usize::MAX,
            calls: Vec::new(alloc),
        }
    }

    fn sink(self, alloc: Global) -> MemSink {
        MemSink::new(alloc, self.first, self.calls)
    }
}

impl Faults {
    pub fn none(alloc: Global) -> Faults {
        Faults {
            folder: Vec::new(alloc),
            out: SinkFaults::none(alloc),
            err: SinkFaults::none(alloc),
            short: Short::Nothing,
        }
    }

    /// The calls of the folder, or the writes of a sink, that fail.
    pub fn fail(&mut self, alloc: Global, line: &str) -> Result<(), Fault> {
        let (place, calls) = cut(line);
        let calls = numbers_of(alloc, calls)?;
        match place {
            "folder" => self.folder = calls,
            "out" => self.out.calls = calls,
            "err" => self.err.calls = calls,
            _ => return Err(Fault::Malformed),
        }
        Ok(())
    }

    /// How many bytes the first write of a sink takes.
    pub fn first(&mut self, line: &str) -> Result<(), Fault> {
        let (place, count) = cut(line);
        let count = number(count)? as usize;
        match place {
            "out" => self.out.first = count,
            "err" => self.err.first = count,
            _ => return Err(Fault::Malformed),
        }
        Ok(())
    }

    /// Which of them has no memory.
    pub fn lack(&mut self, place: &str) -> Result<(), Fault> {
        self.short = match place {
            "folder" => Short::Folder,
            "out" => Short::Out,
            "err" => Short::Err,
            _ => return Err(Fault::Malformed),
        };
        Ok(())
    }
}

// The files of the folder.
fn copied(alloc: Global, folder: &MemFolder) -> Result<Vec<NamedFile>, AllocError> {
    let mut files = Vec::new(alloc);
    for file in folder.files() {
        let name = String::from_str(alloc, file.0.as_str())?;
        files.push((name, Vec::from_slice(alloc, file.1.as_slice())?))?;
    }
    Ok(files)
}

/// Serves the words over the files, in whose place stand those that the folder holds behind it.
pub fn called(
    alloc: Global,
    words: &[String],
    files: Vec<NamedFile>,
    faults: Faults,
) -> Result<(Vec<NamedFile>, Left), AllocError> {
    let Faults {
        folder,
        out,
        err,
        short,
    } = faults;
    let mut folder = MemFolder::new(files, folder);
    let mut out = out.sink(alloc);
    let mut err = err.sink(alloc);
    let mut none = ShortSink::new();
    let status = match short {
        Short::Nothing => serve(alloc, words, &mut folder, &mut out, &mut err),
        Short::Folder => serve(alloc, words, &mut ShortFolder::new(), &mut out, &mut err),
        Short::Out => serve(alloc, words, &mut folder, &mut none, &mut err),
        Short::Err => serve(alloc, words, &mut folder, &mut out, &mut none),
    };
    let left = Left {
        status,
        out: Vec::from_slice(alloc, out.bytes())?,
        err: Vec::from_slice(alloc, err.bytes())?,
    };
    Ok((copied(alloc, &folder)?, left))
}

/// What the words ask for, as if it were written to the output.
pub fn asked(alloc: Global, words: &[String]) -> Result<Left, AllocError> {
    Ok(Left {
        status: 0,
        out: told(alloc, words)?.into_bytes(),
        err: Vec::new(alloc),
    })
}
