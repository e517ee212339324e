//! Tries rows over `serve`: calls whose statuses and texts are known from outside. They stand in the files that the words
//! name; docs/CASES.md tells how they are written.
#![tactic(auto)]

mod call;
mod case;
mod fault;
mod plain;
mod read;
mod short;
mod wanted;

use affc_io::{Folder, StdFolder};
use case::{Case, is_piece};
use fault::Fault;
use plain::{cut, number};
use std::alloc::{AllocError, Global};
use std::process::ExitCode;
use std::{env, io};

// What was tried, and how many rows weren't as they should be.
#[derive(Clone, Copy)]
struct Totals {
    rows: u64,
    calls: u64,
    wrong: u64,
}

// Does what the line with the pieces says. Answers whether the row goes on.
fn go_on<F: Folder>(
    alloc: Global,
    case: &mut Case,
    head: &str,
    pieces: &[&str],
    data: &mut F,
) -> Result<bool, AllocError> {
    match case.act(alloc, head, pieces, data) {
        Ok(()) => {}
        Err(Fault::Malformed) => write!(case.told, ", no line of a row: {head}")?,
        Err(Fault::Unread) => write!(case.told, ", a file isn't read: {head}")?,
        Err(Fault::Memory) => return Err(AllocError),
    }
    Ok(case.told.is_empty())
}

// Whether the line says what to do. Others are pieces of the text that such a line has, are empty or are left out.
fn is_head(line: &str) -> bool {
    !line.is_empty() && !line.starts_with('#') && !is_piece(line)
}

// The pieces between a line that says what to do and the next such line.
fn pieces_behind<'a>(
    alloc: Global,
    lines: &[&'a str],
    head: usize,
) -> Result<Vec<&'a str>, AllocError> {
    let mut pieces = Vec::new(alloc);
    for line in lines.iter().skip(head.saturating_add(1)) {
        if is_piece(line) {
            pieces.push(*line)?;
        } else if is_head(line) {
            break;
        }
    }
    Ok(pieces)
}

// Tries the lines of a row with a word.
fn try_lines<F: Folder>(
    alloc: Global,
    lines: &[&str],
    case: &mut Case,
    data: &mut F,
) -> Result<(), AllocError> {
    for (number, line) in lines.iter().enumerate() {
        if is_head(line) {
            let pieces = pieces_behind(alloc, lines, number)?;
            if !go_on(alloc, case, line, pieces.as_slice(), data)? {
                return Ok(());
            }
        }
    }
    case.settle(alloc)
}

// Adds the words that a part of a line stands for: `0..9` for the numbers from 0 to 9.
fn add_words(alloc: Global, part: &str, words: &mut Vec<String>) -> Result<(), AllocError> {
    if let Some((first, last)) = part.split_once("..") {
        if let (Ok(first), Ok(last)) = (number(first), number(last)) {
            for word in first..=last {
                words.push(format!(in alloc; "{word}")?)?;
            }
            return Ok(());
        }
    }
    words.push(String::from_str(alloc, part)?)?;
    Ok(())
}

// The words for which a row is tried, and its lines. A row without words is tried with an empty one.
fn words_of<'a>(
    alloc: Global,
    lines: &'a [&'a str],
) -> Result<(Vec<String>, &'a [&'a str]), AllocError> {
    let (line, lines) = match lines {
        [first, behind @ ..] if first.starts_with("each ") => (cut(first).1, behind),
        _ => ("", lines),
    };
    let mut words = Vec::new(alloc);
    for part in line.split(' ') {
        add_words(alloc, part, &mut words)?;
    }
    Ok((words, lines))
}

// Tries a row, and tells what isn't as it should be.
fn try_row<F: Folder>(
    alloc: Global,
    lines: &[&str],
    data: &mut F,
    totals: &mut Totals,
) -> Result<String, AllocError> {
    let mut told = String::new(alloc);
    let (words, lines) = words_of(alloc, lines)?;
    for word in words.iter() {
        let mut case = Case::new(alloc, word.as_str());
        try_lines(alloc, lines, &mut case, data)?;
        totals.calls = totals.calls.saturating_add(case.calls);
        if !case.told.is_empty() {
            if !word.is_empty() {
                write!(told, " with {word}")?;
            }
            write!(told, " call {}{}", case.calls, case.told)?;
        }
    }
    Ok(told)
}

// Tries a row, and prints its name and what it comes to.
fn print_row<F: Folder>(
    rt: &(impl Print + AllocGlobal),
    name: &str,
    lines: &[&str],
    data: &mut F,
    totals: &mut Totals,
) -> io::Result<()> {
    let told = try_row(rt.alloc(), lines, data, totals)?;
    totals.rows = totals.rows.saturating_add(1);
    if told.is_empty() {
        return println!(rt; "{name}: as expected");
    }
    totals.wrong = totals.wrong.saturating_add(1);
    println!(rt; "{name}:{told}")
}

// The lines between one that begins a row and the next such line.
fn row_behind<'a>(
    alloc: Global,
    lines: &[&'a str],
    first: usize,
) -> Result<Vec<&'a str>, AllocError> {
    let mut row = Vec::new(alloc);
    for line in lines.iter().skip(first.saturating_add(1)) {
        if line.starts_with("row ") {
            break;
        }
        row.push(*line)?;
    }
    Ok(row)
}

// The lines of a text.
fn lines_of<'a>(alloc: Global, text: &'a str) -> Result<Vec<&'a str>, AllocError> {
    let mut lines = Vec::new(alloc);
    for line in text.split('\n') {
        lines.push(line)?;
    }
    Ok(lines)
}

// Tries the rows of a text. What stands before the first belongs to none.
fn try_rows<F: Folder>(
    rt: &(impl Print + AllocGlobal),
    text: &str,
    data: &mut F,
    totals: &mut Totals,
) -> io::Result<()> {
    let lines = lines_of(rt.alloc(), text)?;
    for (number, line) in lines.iter().enumerate() {
        if let Some(name) = line.strip_prefix("row ") {
            let row = row_behind(rt.alloc(), lines.as_slice(), number)?;
            print_row(rt, name, row.as_slice(), data, totals)?;
        }
    }
    Ok(())
}

// The text of a file of rows.
fn rows_of<F: Folder>(alloc: Global, name: &str, data: &mut F) -> io::Result<String> {
    let Ok(bytes) = data.read(alloc, name) else {
        return Err(io::Error::from(io::ErrorKind::NotFound));
    };
    String::from_utf8(bytes).map_err(|_| io::Error::from(io::ErrorKind::InvalidData))
}

fn main(rt: HostRuntime) -> io::Result<ExitCode> {
    let mut totals = Totals {
        rows: 0,
        calls: 0,
        wrong: 0,
    };
    let mut data = StdFolder::new(rt.clone()?);
    for name in env::args(&rt)?.skip(1) {
        let text = rows_of(rt.alloc(), name.as_str(), &mut data)?;
        try_rows(&rt, text.as_str(), &mut data, &mut totals)?;
    }
    let Totals { rows, calls, wrong } = totals;
    println!(rt; "{rows} rows, {calls} calls, {wrong} not as expected")?;
    Ok(ExitCode::from(if wrong == 0 { 0 } else { 1 }))
}
