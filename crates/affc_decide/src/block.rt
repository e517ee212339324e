//! Blocks of text that say a system, a box and what is expected of them.
ghost use Rattle.std.specs.Prelude.{◌≡◌, ℕ, ℤ, pos, codes, ◌≤◌, [], ◌∷◌, ◌++◌, length, List, IfOk, IfErr, OnOk, OnErr, Option, Some, Err};
ghost use Rattle.affc_rows.specs.Forms.{Affine};
ghost use Rattle.affc_system.specs.Boxes.{IsBox};
ghost use Rattle.affc_decide.specs.Words.{Says, texts_of};
ghost use Rattle.affc_decide.specs.Blocks.{IsKind, Say, ends_of, Limit, Row, AddsRow, IsTaken, Takes, TakesNone, TakesLine, TakesNoLine, begun};

use crate::word::{Fault, find_words, is_word, number};
use affc_rows::Form;
use affc_system::{BoxOf, RowFault, System};
use smallvec::SmallVec;
use std::alloc::Global;

/// The most boxes that are opened for a system whose block says no limit.
const LIMIT: u64 = 1_000_000;

/// A block of which some lines are read.
#[derive(Drop)]
pub struct Block {
    pub columns: u32,
    pub rows: usize,
    pub limit: u64,
    pub system: System,
    pub ranges: Option<BoxOf>,
}

/// What a line adds.
#[derive(Drop)]
pub enum Line {
    Nothing,
    Empty,
    Point(Vec<i64>),
    /// A point, whichever it is.
    Any,
    Stopped,
}

/// An empty list with room for so many numbers.
fn room_for(alloc: Global, count: usize) -> Result<Vec<i64>, Fault>
    ensures none { IfOk result (λ v. v.items ≡ []) }
    ensures fault { OnErr result (result ≡ Err Fault.Memory) }
{
    match Vec::with_capacity(alloc, count) {
        Ok(room) => Ok(room),
        Err(_) => Err(Fault::Memory),
    }
}

/// The whole numbers that words say.
fn numbers(alloc: Global, words: &[&[u8]]) -> Result<Vec<i64>, Fault>
    ensures said { IfOk result (λ found. Say (texts_of words.now) found.items) }
    ensures none { IfErr result (λ e. e ≡ Fault.Malformed → (said : List ℤ) → Say (texts_of words.now) said → ⊥) }
{
    let mut found = room_for(alloc, words.len())?;
    for word in words {
        let n = number(word)?;
        let Ok(()) = found.push(n) else {
            return Err(Fault::Memory);
        };
    }
    Ok(found)
}

/// A block's first line.
fn begin(alloc: Global, columns: &[u8], rows: &[u8]) -> Result<Block, Fault>
    ensures said { IfOk result (λ b. Says columns.now (pos b.columns) × Says rows.now (pos b.rows)) }
    ensures small { IfOk result (λ b. (b.columns ≤ 128) × (b.rows ≤ 1024)) }
    ensures fresh { IfOk result (λ b. b ≡ begun b.columns b.rows) }
    ensures none { OnErr result ((c r : ℕ) → Says columns.now (pos c) → Says rows.now (pos r) → c ≤ 128 → r ≤ 1024 → ⊥) }
    ensures fault { OnErr result (result ≡ Err Fault.Malformed) }
{
    let columns = number(columns)?;
    let rows = number(rows)?;
    if !(0..=128).contains(&columns) || !(0..=1024).contains(&rows) {
        return Err(Fault::Malformed);
    }
    Ok(Block {
        columns: columns as u32,
        rows: rows as usize,
        limit: LIMIT,
        system: System::new(alloc, columns as u32),
        ranges: None,
    })
}

/// The box of a block.
fn box_of(alloc: Global, ends: &[i64], columns: u32) -> Result<BoxOf, Fault>
    ensures ends { IfOk result (λ ranges. ends_of ranges ≡ ends.now) }
    ensures ordered { IfOk result (λ ranges. IsBox ranges) }
    ensures width { IfOk result (λ ranges. length ranges ≡ columns) }
    ensures none { IfErr result (λ e. e ≡ Fault.Malformed → (ranges : List (ℤ × ℤ)) → ends_of ranges ≡ ends.now → IsBox ranges → length ranges ≡ columns → ⊥) }
{
    let count = columns as usize;
    if ends.len() != 2 * count {
        return Err(Fault::Malformed);
    }
    let mut ranges = BoxOf::new(alloc);
    for i in 0..count {
        let low = ends[2 * i];
        let high = ends[2 * i + 1];
        if low > high {
            return Err(Fault::Malformed);
        }
        let Ok(()) = ranges.push(low, high) else {
            return Err(Fault::Memory);
        };
    }
    Ok(ranges)
}

/// A row of coefficients and a constant.
fn row_of(alloc: Global, words: &[&[u8]]) -> Result<Form, Fault>
    ensures said { IfOk result (λ f. Say (texts_of words.now) (f.coefs ++ f.constant ∷ [])) }
    ensures none { IfErr result (λ e. e ≡ Fault.Malformed → (f : Affine) → Say (texts_of words.now) (f.coefs ++ f.constant ∷ []) → ⊥) }
{
    let mut entries = SmallVec::new(alloc);
    for word in words {
        let n = number(word)?;
        let Ok(()) = entries.push(i128::from(n)) else {
            return Err(Fault::Memory);
        };
    }
    match entries.pop() {
        Some(constant) => Ok(Form {
            coefs: entries,
            constant,
        }),
        None => Err(Fault::Malformed),
    }
}

/// Adds a row to a block.
fn add_row(block: &mut Block, row: Form) -> Result<(), Fault>
    ensures added { OnOk result (AddsRow block.old row (Some block.new)) }
    ensures none { IfErr result (λ e. e ≡ Fault.Malformed → (after : Option Block) → AddsRow block.old row after → ⊥) }
    ensures kept { OnErr result (block.new ≡ block.old) }
{
    if block.ranges.is_none()
        || row.coefs.len() != block.system.columns() as usize
        || block.system.rows().len() >= block.rows
    {
        return Err(Fault::Malformed);
    }
    match block.system.push(row) {
        Ok(()) => Ok(()),
        Err(RowFault::Memory) => Err(Fault::Memory),
        Err(_) => Err(Fault::Malformed),
    }
}

/// A line of numbers: a row, which the ranges have to come before.
fn add_numbers(alloc: Global, block: &mut Option<Block>, words: &[&[u8]]) -> Result<(), Fault>
    ensures taken { OnOk result (Takes (texts_of words.now) block.old Line.Nothing block.new) }
    ensures none { IfErr result (λ e. e ≡ Fault.Malformed → (row : Affine) (added : Line) (after : Option Block) → Say (texts_of words.now) (row.coefs ++ row.constant ∷ []) → IsTaken (Row row) block.old added after → ⊥) }
    ensures kept { OnErr result (block.new ≡ block.old) }
{
    let row = row_of(alloc, words)?;
    match block {
        Some(block) => add_row(block, row),
        None => Err(Fault::Malformed),
    }
}

/// A block's first line, behind its first word.
fn read_system(alloc: Global, block: &mut Option<Block>, more: &[&[u8]]) -> Result<(), Fault>
    ensures taken { OnOk result (Takes (codes "system" ∷ texts_of more.now) block.old Line.Nothing block.new) }
    ensures none { IfErr result (λ e. e ≡ Fault.Malformed → TakesNone (codes "system" ∷ texts_of more.now) block.old) }
    ensures kept { OnErr result (block.new ≡ block.old) }
{
    let [_name, second, columns, fourth, rows] = more else {
        return Err(Fault::Malformed);
    };
    if !is_word(second, b"columns") {
        return Err(Fault::Malformed);
    }
    if !is_word(fourth, b"rows") {
        return Err(Fault::Malformed);
    }
    *block = Some(begin(alloc, columns, rows)?);
    Ok(())
}

/// Sets the box of a block.
fn set_ranges(alloc: Global, block: &mut Option<Block>, more: &[&[u8]]) -> Result<(), Fault>
    ensures taken { OnOk result (Takes (codes "ranges" ∷ texts_of more.now) block.old Line.Nothing block.new) }
    ensures none { IfErr result (λ e. e ≡ Fault.Malformed → TakesNone (codes "ranges" ∷ texts_of more.now) block.old) }
    ensures kept { OnErr result (block.new ≡ block.old) }
{
    let ends = numbers(alloc, more)?;
    match block {
        Some(block) => {
            let ranges = box_of(alloc, ends.as_slice(), block.columns)?;
            block.ranges = Some(ranges);
            Ok(())
        }
        None => Err(Fault::Malformed),
    }
}

/// Sets the limit of a block.
fn set_limit(block: &mut Option<Block>, limit: &[u8]) -> Result<(), Fault>
    ensures taken { OnOk result ((l : ℕ) × Says limit.now (pos l) × IsTaken (Limit l) block.old Line.Nothing block.new) }
    ensures none { OnErr result ((l : ℕ) (added : Line) (after : Option Block) → Says limit.now (pos l) → IsTaken (Limit l) block.old added after → ⊥) }
    ensures fault { OnErr result (result ≡ Err Fault.Malformed) }
    ensures kept { OnErr result (block.new ≡ block.old) }
{
    let limit = number(limit)?;
    match block {
        Some(block) if limit >= 0 => {
            block.limit = limit as u64;
            Ok(())
        }
        _ => Err(Fault::Malformed),
    }
}

/// A line of a limit, behind its first word.
fn read_limit(block: &mut Option<Block>, more: &[&[u8]]) -> Result<(), Fault>
    ensures taken { OnOk result (Takes (codes "limit" ∷ texts_of more.now) block.old Line.Nothing block.new) }
    ensures none { OnErr result (TakesNone (codes "limit" ∷ texts_of more.now) block.old) }
    ensures fault { OnErr result (result ≡ Err Fault.Malformed) }
    ensures kept { OnErr result (block.new ≡ block.old) }
{
    match more {
        [limit] => set_limit(block, limit),
        _ => Err(Fault::Malformed),
    }
}

/// What is expected, behind the line's first word.
fn expected(alloc: Global, more: &[&[u8]]) -> Result<Line, Fault>
    ensures taken { IfOk result (λ added. (before : Option Block) → Takes (codes "expect" ∷ texts_of more.now) before added before) }
    ensures none { IfErr result (λ e. e ≡ Fault.Malformed → (before : Option Block) → TakesNone (codes "expect" ∷ texts_of more.now) before) }
{
    let [first, point @ ..] = more else {
        return Err(Fault::Malformed);
    };
    if is_word(first, b"point") {
        return Ok(Line::Point(numbers(alloc, point)?));
    }
    if !point.is_empty() {
        return Err(Fault::Malformed);
    }
    if is_word(first, b"empty") {
        return Ok(Line::Empty);
    }
    if is_word(first, b"stopped") {
        return Ok(Line::Stopped);
    }
    if is_word(first, b"any") {
        return Ok(Line::Any);
    }
    Err(Fault::Malformed)
}

/// What a line is, by its first word.
#[derive(Clone, Copy)]
pub enum Kind {
    System,
    Ranges,
    Limit,
    Expect,
    Row,
}

/// The kind of the lines that begin with a word.
fn kind_of(word: &[u8]) -> Kind
    ensures { IsKind result word.now }
{
    match word {
        b"system" => Kind::System,
        b"ranges" => Kind::Ranges,
        b"limit" => Kind::Limit,
        b"expect" => Kind::Expect,
        _ => Kind::Row,
    }
}

/// Reads a line's words into a block.
fn read_words(alloc: Global, block: &mut Option<Block>, words: &[&[u8]]) -> Result<Line, Fault>
    ensures taken { IfOk result (λ added. Takes (texts_of words.now) block.old added block.new) }
    ensures none { IfErr result (λ e. e ≡ Fault.Malformed → TakesNone (texts_of words.now) block.old) }
    ensures kept { OnErr result (block.new ≡ block.old) }
{
    let [first, more @ ..] = words else {
        return Ok(Line::Nothing);
    };
    match kind_of(first) {
        Kind::System => read_system(alloc, block, more)?,
        Kind::Ranges => set_ranges(alloc, block, more)?,
        Kind::Limit => read_limit(block, more)?,
        Kind::Expect => return expected(alloc, more),
        Kind::Row => add_numbers(alloc, block, words)?,
    }
    Ok(Line::Nothing)
}

/// Reads a line into a block. Its words are put in place of those that were there.
pub fn read_line<'a>(
    alloc: Global,
    block: &mut Option<Block>,
    words: &mut Vec<&'a [u8]>,
    line: &'a [u8],
) -> Result<Line, Fault>
    ensures taken { IfOk result (λ added. TakesLine line.now block.old added block.new) }
    ensures none { IfErr result (λ e. e ≡ Fault.Malformed → TakesNoLine line.now block.old) }
    ensures kept { OnErr result (block.new ≡ block.old) }
{
    find_words(line, words)?;
    read_words(alloc, block, words.as_slice())
}
