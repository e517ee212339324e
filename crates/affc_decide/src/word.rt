//! The words of a line, and the numbers that they say.
ghost use Rattle.std.specs.Prelude.{◌≡◌, ◌↔◌, IsTrue, ◌≤◌, ◌<◌, ◌^◌, ℤ, pos, neg_ℤ, List, take, drop, length, OnOk, OnErr, IfOk, IfSome, IsNone, Err};
ghost use Rattle.std.specs.Str.Parse.{IsNumeral, digits_value};
ghost use Rattle.affc_decide.specs.Words.{AllSpaces, NoSpaces, EndsSpaces, AreWords, EndsWord, IsFirstWord, Says, SaysNone, texts_of};

/// Why a line isn't taken.
#[derive(Clone, Copy)]
pub enum Fault {
    Malformed,
    Memory,
}

/// How many spaces a text begins with.
fn spaces(text: &[u8]) -> usize
    ensures within { result ≤ length text.now }
    ensures spaces { AllSpaces (take result text.now) }
    ensures behind { EndsSpaces (drop result text.now) }
{
    for (at, byte) in text.iter().enumerate() {
        if !byte.is_ascii_whitespace() {
            return at;
        }
    }
    text.len()
}

/// How many bytes stand before a text's first space.
fn letters(text: &[u8]) -> usize
    ensures within { result ≤ length text.now }
    ensures letters { NoSpaces (take result text.now) }
    ensures behind { EndsWord (drop result text.now) }
{
    for (at, byte) in text.iter().enumerate() {
        if byte.is_ascii_whitespace() {
            return at;
        }
    }
    text.len()
}

/// The first word of a text, and what stands behind it.
fn first_word(text: &[u8]) -> Option<(&[u8], &[u8])>
    ensures first { IfSome result (λ r. IsFirstWord text.now r.0.now r.1.now) }
    ensures none { IsNone result → AllSpaces text.now }
{
    let behind = &text[spaces(text)..];
    if behind.is_empty() {
        return None;
    }
    Some(behind.split_at(letters(behind)))
}

/// Finds the words of a line, in place of those that were there.
pub fn find_words<'a>(line: &'a [u8], words: &mut Vec<&'a [u8]>) -> Result<(), Fault>
    ensures words { OnOk result (AreWords line.now (texts_of words.new.items)) }
    ensures fault { OnErr result (result ≡ Err Fault.Memory) }
{
    words.clear();
    let mut rest = line;
    while let Some((word, behind)) = first_word(rest) {
        let Ok(()) = words.push(word) else {
            return Err(Fault::Memory);
        };
        rest = behind;
    }
    Ok(())
}

/// The size of the least number, which is one more than that of the greatest.
const LEAST: u64 = 0x8000_0000_0000_0000;

/// The number that decimal digits say, if it is at most `LEAST`.
fn size(digits: &[u8]) -> Result<u64, Fault>
    ensures said { IfOk result (λ n. IsNumeral 10 digits.now × (n ≡ digits_value 10 digits.now) × (n ≤ 2 ^ 63)) }
    ensures none { OnErr result (IsNumeral 10 digits.now → 2 ^ 63 < digits_value 10 digits.now) }
    ensures fault { OnErr result (result ≡ Err Fault.Malformed) }
{
    let mut size = 0;
    for digit in digits {
        if !digit.is_ascii_digit() || size > LEAST / 10 {
            return Err(Fault::Malformed);
        }
        size = size * 10 + u64::from(*digit - b'0');
    }
    if digits.is_empty() || size > LEAST {
        return Err(Fault::Malformed);
    }
    Ok(size)
}

/// The number of a size, behind a minus.
fn negative(size: u64) -> i64
    requires { size ≤ 2 ^ 63 }
    ensures { result ≡ neg_ℤ (pos size) }
{
    if size == LEAST {
        i64::MIN
    } else {
        -(size as i64)
    }
}

/// The number of a size, with no sign or behind a plus.
fn positive(size: u64) -> Result<i64, Fault>
    ensures said { IfOk result (λ n. (n ≡ pos size) × (size < 2 ^ 63)) }
    ensures none { OnErr result (2 ^ 63 ≤ size) }
    ensures fault { OnErr result (result ≡ Err Fault.Malformed) }
{
    if size < LEAST {
        Ok(size as i64)
    } else {
        Err(Fault::Malformed)
    }
}

/// A whole number that a word says.
pub fn number(word: &[u8]) -> Result<i64, Fault>
    ensures said { IfOk result (λ n. Says word.now n) }
    ensures none { OnErr result (SaysNone word.now) }
    ensures fault { OnErr result (result ≡ Err Fault.Malformed) }
{
    match word {
        [b'-', digits @ ..] => Ok(negative(size(digits)?)),
        [b'+', digits @ ..] => positive(size(digits)?),
        _ => positive(size(word)?),
    }
}

/// Whether a word is this one.
pub fn is_word(word: &[u8], name: &[u8]) -> bool
    ensures { IsTrue result ↔ (word.now ≡ name.now) }
{
    word == name
}
