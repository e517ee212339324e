//! Texts with escapes: `\n`, `\r`, `\t`, `\\`, `\s` for a space, `\e` for nothing, `\w` for the row's word, and `\x` with two
//! hexadecimal digits for a byte.
use crate::fault::Fault;
use std::alloc::Global;

// How far an escape is read.
#[derive(Clone, Copy)]
enum Escape {
    Outside,
    Begun,
    High,
    Low(u8),
}

fn digit(byte: u8) -> Result<u8, Fault> {
    match byte {
        b'0'..=b'9' => Ok(byte - b'0'),
        b'a'..=b'f' => Ok(byte - b'a' + 10),
        _ => Err(Fault::Malformed),
    }
}

// Adds what the byte behind a backslash stands for.
fn begin(text: &mut Vec<u8>, byte: u8, word: &str) -> Result<Escape, Fault> {
    match byte {
        b'n' => text.push(b'\n')?,
        b'r' => text.push(b'\r')?,
        b't' => text.push(b'\t')?,
        b's' => text.push(b' ')?,
        b'\\' => text.push(b'\\')?,
        b'e' => {}
        b'w' => text.extend_from_slice(word.as_bytes())?,
        b'x' => return Ok(Escape::High),
        _ => return Err(Fault::Malformed),
    }
    Ok(Escape::Outside)
}

// Adds what the byte stands for, and answers how far an escape is read behind it.
fn step(text: &mut Vec<u8>, escape: Escape, byte: u8, word: &str) -> Result<Escape, Fault> {
    match escape {
        Escape::Outside if byte == b'\\' => return Ok(Escape::Begun),
        Escape::Outside => text.push(byte)?,
        Escape::Begun => return begin(text, byte, word),
        Escape::High => return Ok(Escape::Low(digit(byte)?)),
        Escape::Low(high) => text.push(high.wrapping_mul(16) | digit(byte)?)?,
    }
    Ok(Escape::Outside)
}

/// Adds what the line stands for, in a row with the word.
pub fn add_plain(text: &mut Vec<u8>, line: &str, word: &str) -> Result<(), Fault> {
    let mut escape = Escape::Outside;
    for byte in line.bytes() {
        escape = step(text, escape, byte, word)?;
    }
    match escape {
        Escape::Outside => Ok(()),
        _ => Err(Fault::Malformed),
    }
}

/// What the part of a line stands for, which has to be text.
pub fn plain(alloc: Global, part: &str, word: &str) -> Result<String, Fault> {
    let mut text = Vec::new(alloc);
    add_plain(&mut text, part, word)?;
    String::from_utf8(text).map_err(|_| Fault::Malformed)
}

/// The words that the line's parts between spaces stand for.
pub fn words_of(alloc: Global, line: &str, word: &str) -> Result<Vec<String>, Fault> {
    let mut words = Vec::new(alloc);
    for part in line.split(' ') {
        if !part.is_empty() {
            words.push(plain(alloc, part, word)?)?;
        }
    }
    Ok(words)
}

/// The numbers that the line's parts between spaces write.
pub fn numbers_of(alloc: Global, line: &str) -> Result<Vec<u64>, Fault> {
    let mut numbers = Vec::new(alloc);
    for part in line.split(' ') {
        numbers.push(number(part)?)?;
    }
    Ok(numbers)
}

/// The number that the digits write.
pub fn number(digits: &str) -> Result<u64, Fault> {
    digits.parse::<u64>().map_err(|_| Fault::Malformed)
}

/// The first word of the line, and what stands behind the space.
pub fn cut(line: &str) -> (&str, &str) {
    match line.split_once(' ') {
        Some((first, rest)) => (first, rest),
        None => (line, ""),
    }
}
