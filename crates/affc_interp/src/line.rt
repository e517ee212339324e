//! Lines of data.
ghost use Rattle.affc_lex.specs.Bytes.{begins};
ghost use Rattle.std.specs.Prelude.{◌≡◌, ◌≢◌, ℕ, ℤ, ◌+◌, ◌^◌, ◌<◌, ◌≤◌, false, codes, pos, neg_ℤ, List, ◌∷◌, ◌++◌, length, IfOk, IfSome, MatchOption, SomeIff, int_le, ◌&&◌};
ghost use Rattle.affc_interp.specs.DataText.{EndsLine, NumberLine};
ghost use Rattle.affc_interp.specs.Scans.{is_plain, IsNatural, NoNatural, IsInteger, NoInteger, IsSpaced, NoSpaced, IsSpacedList, AnswersLine, OneNumberLine};

use crate::feed::Stop;
use affc_ast::text::Text;
use affc_lex::scan::{digits_length, number};
use std::alloc::{AllocError, Global};

fn after<'t>(beginning: &[u8], text: &'t [u8]) -> Option<&'t [u8]>
    ensures { MatchOption result ((rest : List ℕ) → text.now ≢ beginning.now ++ rest) (λ x. text.now ≡ beginning.now ++ x.now) }
{
    text.strip_prefix(beginning)
}

// What stands behind the end of a line.
fn line_end(text: &[u8]) -> Option<&[u8]>
    ensures { MatchOption result ((rest : List ℕ) → EndsLine text.now rest → ⊥) (λ x. EndsLine text.now x.now) }
{
    match text {
        [] => Some(text),
        [b'\n', rest @ ..] => Some(rest),
        _ => None,
    }
}

// A number without a sign or leading zeros, and what stands behind it.
#[tactic(auto, using(affc_lex::proofs::Runs::runs))]
fn natural(text: &[u8]) -> Option<(u64, &[u8])>
    ensures { MatchOption result (NoNatural text.now) (λ x. IsNatural text.now x.0 x.1.now) }
{
    let (digits, rest) = text.split_at(digits_length(text));
    if !is_plain(digits) {
        return None;
    }
    match number(digits) {
        Some(value) => Some((value, rest)),
        None => None,
    }
}

// Whether there are digits, and none that leads for nothing.
fn is_plain(digits: &[u8]) -> bool
    ensures { result ≡ is_plain digits.now }
{
    match digits {
        [] => false,
        [_] => true,
        [first, ..] => *first != b'0',
    }
}

// The number below zero of this magnitude.
fn negative(magnitude: u64) -> Option<i64>
    ensures { SomeIff result ((0 < magnitude) × (magnitude ≤ 2 ^ 63)) (neg_ℤ (pos magnitude)) }
{
    if magnitude == 0 {
        None
    } else {
        0i64.checked_sub_unsigned(magnitude)
    }
}

fn positive(magnitude: u64) -> Option<i64>
    ensures { SomeIff result (magnitude < 2 ^ 63) (pos magnitude) }
{
    i64::try_from(magnitude).ok()
}

fn below_zero(read: Option<(u64, &[u8])>) -> Option<(i64, &[u8])>
    ensures { (text : List ℕ) → MatchOption read.entry (NoNatural text) (λ x. IsNatural text x.0 x.1.now) → MatchOption result (NoInteger (45 ∷ text)) (λ x. IsInteger (45 ∷ text) x.0 x.1.now) }
{
    match read {
        Some((magnitude, rest)) => match negative(magnitude) {
            Some(value) => Some((value, rest)),
            None => None,
        },
        None => None,
    }
}

fn above_zero(read: Option<(u64, &[u8])>) -> Option<(i64, &[u8])>
    ensures { (text : List ℕ) → begins (codes "-") text ≡ false → MatchOption read.entry (NoNatural text) (λ x. IsNatural text x.0 x.1.now) → MatchOption result (NoInteger text) (λ x. IsInteger text x.0 x.1.now) }
{
    match read {
        Some((magnitude, rest)) => match positive(magnitude) {
            Some(value) => Some((value, rest)),
            None => None,
        },
        None => None,
    }
}

// A number with `-` before it where it is below zero, and what stands behind it.
fn integer(text: &[u8]) -> Option<(i64, &[u8])>
    ensures { MatchOption result (NoInteger text.now) (λ x. IsInteger text.now x.0 x.1.now) }
{
    match after(b"-", text) {
        Some(digits) => below_zero(natural(digits)),
        None => above_zero(natural(text)),
    }
}

// What stands behind a word and a name.
fn named<'t>(word: &[u8], name: &Text, text: &'t [u8]) -> Option<&'t [u8]>
    ensures { MatchOption result ((rest : List ℕ) → text.now ≢ word.now ++ (name.now ++ rest)) (λ x. text.now ≡ word.now ++ (name.now ++ x.now)) }
{
    match after(word, text) {
        Some(text) => after(name.as_str().as_bytes(), text),
        None => None,
    }
}

/// The number of a parameter's line, and what stands behind the line.
pub fn number_line<'t>(text: &'t [u8], name: &Text, low: i64, high: i64) -> Option<(i64, &'t [u8])>
    ensures { MatchOption result ((z : ℤ) (rest : List ℕ) → NumberLine name.now low high text.now z rest → ⊥) (λ x. OneNumberLine name.now low high text.now x.0 x.1.now) }
{
    let Some(signed) = named(b"param ", name, text) else {
        return None;
    };
    let Some(digits) = after(b" ", signed) else {
        return None;
    };
    let Some((value, behind)) = integer(digits) else {
        return None;
    };
    let Some(rest) = line_end(behind) else {
        return None;
    };
    if is_between(low, value, high) {
        Some((value, rest))
    } else {
        None
    }
}

fn is_between(low: i64, value: i64, high: i64) -> bool
    ensures { result ≡ (int_le low value && int_le value high) }
{
    low <= value && value <= high
}

// A number with a space before it, and what stands behind it.
fn spaced(text: &[u8]) -> Option<(u64, &[u8])>
    ensures value { MatchOption result (NoSpaced text.now) (λ x. IsSpaced text.now x.0 x.1.now) }
    ensures shorter { IfSome result (λ x. length x.1.now < length text.now) }
{
    match text {
        [b' ', digits @ ..] => natural(digits),
        _ => None,
    }
}

// All numbers with a space before each, and what stands behind them.
fn all_spaced(alloc: Global, text: &[u8]) -> Result<(Vec<u64>, &[u8]), AllocError>
    ensures { IfOk result (λ x. IsSpacedList text.now x.0.items x.1.now) }
{
    let mut values = Vec::new(alloc);
    let mut rest = text;
    while let Some((value, behind)) = spaced(rest) {
        values.push(value)?;
        rest = behind;
    }
    Ok((values, rest))
}

// What stands behind the end of a line of so many numbers, where there are to be as many.
fn counted_end(text: &[u8], found: usize, count: Option<usize>) -> Option<&[u8]>
    ensures { MatchOption result ((rest : List ℕ) → count ≡ Some found → EndsLine text.now rest → ⊥) (λ x. (count ≡ Some found) × EndsLine text.now x.now) }
{
    if count == Some(found) {
        line_end(text)
    } else {
        None
    }
}

/// The numbers of an array's line, as many as there are to be, and what stands behind the line.
pub fn array_line<'t>(
    alloc: Global,
    text: &'t [u8],
    name: &Text,
    count: Option<usize>,
) -> Result<(Vec<u64>, &'t [u8]), Stop>
    ensures { (m : ℕ) → SomeIff count (m < 2 ^ 64) m → AnswersLine result name.now m text.now }
{
    let Some(spaced) = named(b"array ", name, text) else {
        return Err(Stop::Wrong);
    };
    let (values, behind) = all_spaced(alloc, spaced)?;
    match counted_end(behind, values.len(), count) {
        Some(rest) => Ok((values, rest)),
        None => Err(Stop::Wrong),
    }
}
