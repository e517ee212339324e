//! A row while it is tried.
use crate::call::{Faults, Left, NamedFile, asked, called};
use crate::fault::Fault;
use crate::plain::{add_plain, cut, number, plain, words_of};
use crate::wanted::{How, Wanted, WantedText};
use affc_io::Folder;
use std::alloc::{AllocError, Global};
use std::mem;

/// What the folder holds, what the next call meets, what the last call left and what is wanted of it.
#[derive(Drop)]
pub struct Case<'a> {
    word: &'a str,
    files: Vec<NamedFile>,
    faults: Faults,
    left: Left,
    wanted: Wanted,
    pub calls: u64,
    pub told: String,
}

/// Whether the line is a piece of a text.
pub fn is_piece(line: &str) -> bool {
    matches!(
        line.as_bytes().first(),
        Some(b'|' | b'+' | b'*' | b'<' | b'@')
    )
}

// How the text is wanted that stands behind a stream's name, and its first piece.
fn how_of(more: &str) -> Result<(How, &str), Fault> {
    if more.is_empty() || is_piece(more) {
        return Ok((How::Whole, more));
    }
    let (how, first) = cut(more);
    match how {
        "ends" => Ok((How::End, first)),
        "has" => Ok((How::Lines, first)),
        "any" => Ok((How::Any, first)),
        _ => Err(Fault::Malformed),
    }
}

// Adds what a file of the rows' folder holds, or so many bytes of it.
fn add_file<F: Folder>(
    alloc: Global,
    text: &mut Vec<u8>,
    named: &str,
    data: &mut F,
) -> Result<(), Fault> {
    let (name, count) = cut(named);
    let bytes = data.read(alloc, name).map_err(|_| Fault::Unread)?;
    if count.is_empty() {
        text.extend_from_slice(bytes.as_slice())?;
    } else {
        let front = bytes.get(..number(count)? as usize);
        text.extend_from_slice(front.ok_or(Fault::Malformed)?)?;
    }
    Ok(())
}

// Adds a text so many times.
fn add_repeated(alloc: Global, text: &mut Vec<u8>, more: &str, word: &str) -> Result<(), Fault> {
    let (count, line) = cut(more);
    let mut part = Vec::new(alloc);
    add_plain(&mut part, line, word)?;
    let count = number(plain(alloc, count, word)?.as_str())? as usize;
    if let [byte] = part.as_slice() {
        text.resize(text.len().saturating_add(count), *byte)?;
        return Ok(());
    }
    for _ in 0..count {
        text.extend_from_slice(part.as_slice())?;
    }
    Ok(())
}

impl<'a> Case<'a> {
    pub fn new(alloc: Global, word: &'a str) -> Case<'a> {
        Case {
            word,
            files: Vec::new(alloc),
            faults: Faults::none(alloc),
            left: Left {
                status: 0,
                out: Vec::new(alloc),
                err: Vec::new(alloc),
            },
            wanted: Wanted::none(alloc),
            calls: 0,
            told: String::new(alloc),
        }
    }

    fn add_piece<F: Folder>(
        &self,
        alloc: Global,
        text: &mut Vec<u8>,
        piece: &str,
        data: &mut F,
    ) -> Result<(), Fault> {
        let Some((mark, more)) = piece.split_at_checked(1) else {
            return Err(Fault::Malformed);
        };
        match (mark, more) {
            ("|", _) => {
                add_plain(text, more, self.word)?;
                text.push(b'\n')?;
            }
            ("+", _) => add_plain(text, more, self.word)?,
            ("*", _) => add_repeated(alloc, text, more, self.word)?,
            ("<", _) => add_file(alloc, text, plain(alloc, more, self.word)?.as_str(), data)?,
            ("@", "out") => text.extend_from_slice(self.left.out.as_slice())?,
            ("@", "err") => text.extend_from_slice(self.left.err.as_slice())?,
            _ => return Err(Fault::Malformed),
        }
        Ok(())
    }

    // The text of these pieces, of which the first may be missing.
    fn text<F: Folder>(
        &self,
        alloc: Global,
        first: &str,
        pieces: &[&str],
        data: &mut F,
    ) -> Result<Vec<u8>, Fault> {
        let mut text = Vec::new(alloc);
        if !first.is_empty() {
            self.add_piece(alloc, &mut text, first, data)?;
        }
        for piece in pieces {
            self.add_piece(alloc, &mut text, piece, data)?;
        }
        Ok(text)
    }

    // Puts a text under a name.
    fn hold(&mut self, name: String, text: Vec<u8>) -> Result<(), Fault> {
        self.files.retain(|file| file.0.as_str() != name.as_str());
        self.files.push((name, text))?;
        Ok(())
    }

    // Tells whether a name holds something else.
    fn compare(&mut self, name: &str, text: Option<&[u8]>) -> Result<(), Fault> {
        let file = self.files.iter().find(|file| file.0.as_str() == name);
        let held = file.map(|file| file.1.as_slice());
        if held != text {
            write!(self.told, ", {name} holds something else")?;
        }
        Ok(())
    }

    /// Tells what of the last call isn't as it is wanted.
    pub fn settle(&mut self, alloc: Global) -> Result<(), AllocError> {
        self.wanted.tell(alloc, &mut self.told, &self.left)
    }

    // Makes a call, if the one before it was as it is wanted.
    fn call(&mut self, alloc: Global, verb: &str, line: &str) -> Result<(), Fault> {
        self.settle(alloc)?;
        if !self.told.is_empty() {
            return Ok(());
        }
        self.calls = self.calls.saturating_add(1);
        self.wanted = Wanted::none(alloc);
        let words = words_of(alloc, line, self.word)?;
        if verb == "read" {
            self.left = asked(alloc, &words)?;
            return Ok(());
        }
        let files = mem::replace(&mut self.files, Vec::new(alloc));
        let faults = mem::replace(&mut self.faults, Faults::none(alloc));
        let (files, left) = called(alloc, &words, files, faults)?;
        self.files = files;
        self.left = left;
        Ok(())
    }

    /// Does what a line with the pieces below it says.
    pub fn act<F: Folder>(
        &mut self,
        alloc: Global,
        head: &str,
        pieces: &[&str],
        data: &mut F,
    ) -> Result<(), Fault> {
        let (verb, more) = cut(head);
        match verb {
            "out" | "err" => {
                let (how, first) = how_of(more)?;
                let text = self.text(alloc, first, pieces, data)?;
                let wanted = WantedText { how, text };
                if verb == "out" {
                    self.wanted.out = wanted;
                } else {
                    self.wanted.err = wanted;
                }
            }
            "file" | "holds" => {
                let (name, first) = cut(more);
                let name = plain(alloc, name, self.word)?;
                let text = self.text(alloc, first, pieces, data)?;
                if verb == "file" {
                    self.hold(name, text)?;
                } else {
                    self.compare(name.as_str(), Some(text.as_slice()))?;
                }
            }
            _ if !pieces.is_empty() => return Err(Fault::Malformed),
            "lacks" => {
                let name = plain(alloc, more, self.word)?;
                self.compare(name.as_str(), None)?;
            }
            "status" => self.wanted.status = number(more)?,
            "call" | "read" => self.call(alloc, verb, more)?,
            "fault" => self.faults.fail(alloc, more)?,
            "first" => self.faults.first(more)?,
            "short" => self.faults.lack(more)?,
            _ => return Err(Fault::Malformed),
        }
        Ok(())
    }
}
