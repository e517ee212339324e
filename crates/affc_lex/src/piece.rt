//! The pieces of a text: spaces, comments and tokens.

ghost use Rattle.std.specs.Prelude.{◌≡◌, ◌+◌, ◌<◌, ◌≤◌, ◌^◌, ◌==◌, length, IsTrue, true};
ghost use Rattle.affc_lex.specs.Bytes as bytes;
ghost use Rattle.affc_lex.specs.Bytes.{next_is};
ghost use Rattle.affc_lex.specs.Pieces as pieces;
ghost use Rattle.affc_lex.specs.Reading as reading;
ghost use Rattle.affc_lex.specs.FoundAt.{FoundAt};

use crate::prelude::begins_prelude;
use crate::scan::{
    comment_end, digits_length, header_length, is_digit, is_letter, is_letter_or_digit, is_space,
    line_length, number, word_length,
};
use crate::token::Kind;

/// What a piece of a text is.
#[derive(Clone, Copy)]
pub enum What {
    Space,
    Comment,
    Token(Kind),
}

/// Where a piece stands. The bytes of comments are no part of a line here.
#[derive(Clone, Copy)]
pub enum Spot {
    /// with no token between it and the last line feed, or the beginning of the text
    Fresh,
    /// after a token of its line
    Inside,
    /// directly after the token `#`
    AfterHash,
    /// directly after the tokens `#` and `include`
    AfterInclude,
    /// later on a line with `#`
    Directive,
    /// on a line with `#`, with no token between it and the last line feed, which is that of a Prelude
    DirectiveFresh,
}

/// What is found at a spot: a piece of so many bytes, or why none stands there.
#[derive(Clone, Copy)]
pub enum Found {
    Piece(What, usize),
    /// Nothing begins here, or a number or value of so many bytes doesn't end.
    Bad(usize),
    /// A comment begins here and doesn't end.
    Open,
    /// A number of 2^64 or more begins here.
    Long,
}

pub fn is_on_directive(spot: Spot) -> bool
    ensures { result ≡ pieces.is_on_directive spot }
{
    !matches!(spot, Spot::Fresh | Spot::Inside)
}

fn is_fresh(spot: Spot) -> bool
    ensures { result ≡ pieces.is_fresh spot }
{
    matches!(spot, Spot::Fresh | Spot::DirectiveFresh)
}

fn is_after_hash(spot: Spot) -> bool
    ensures { result ≡ pieces.is_after_hash spot }
{
    matches!(spot, Spot::AfterHash)
}

fn later(spot: Spot) -> Spot
    ensures { result ≡ pieces.later spot }
{
    if is_on_directive(spot) {
        Spot::Directive
    } else {
        Spot::Inside
    }
}

fn after_token(spot: Spot, kind: Kind, bytes: &[u8]) -> Spot
    ensures { result ≡ pieces.after_token spot kind bytes.now }
{
    match kind {
        Kind::Hash => Spot::AfterHash,
        Kind::LineEnd => Spot::Fresh,
        Kind::Prelude if is_on_directive(spot) => Spot::DirectiveFresh,
        Kind::Prelude => Spot::Fresh,
        Kind::Word if is_after_hash(spot) && bytes == b"include".as_slice() => Spot::AfterInclude,
        Kind::Word | Kind::Number | Kind::Value | Kind::Header | Kind::Mark => later(spot),
    }
}

/// Where the text behind a piece stands.
pub fn next_spot(spot: Spot, what: What, bytes: &[u8]) -> Spot
    ensures { result ≡ pieces.next_spot spot what bytes.now }
{
    match what {
        What::Space if bytes == b"\n".as_slice() => Spot::Fresh,
        What::Space | What::Comment => spot,
        What::Token(kind) => after_token(spot, kind, bytes),
    }
}

fn space(spot: Spot, first: u8) -> Found
    ensures { result ≡ reading.space spot first }
{
    if first == 10 && is_on_directive(spot) {
        Found::Piece(What::Token(Kind::LineEnd), 1)
    } else {
        Found::Piece(What::Space, 1)
    }
}

/// What a slash begins before this text.
#[tactic(auto, using(crate::proofs::Runs::runs))]
fn comment(after: &[u8]) -> Found
    requires { length after.now < 2 ^ 63 }
    ensures { result ≡ reading.comment after.now }
{
    match after {
        [b'/', inside @ ..] => Found::Piece(What::Comment, 2 + line_length(inside)),
        [b'*', inside @ ..] => match comment_end(inside) {
            Some(end) => Found::Piece(What::Comment, end + 4),
            None => Found::Open,
        },
        _ => Found::Bad(0),
    }
}

fn word(text: &[u8]) -> Found
    ensures { result ≡ reading.word text.now }
{
    if begins_prelude(text) {
        Found::Piece(What::Token(Kind::Prelude), 426)
    } else {
        Found::Piece(What::Token(Kind::Word), word_length(text))
    }
}

fn goes_on_word(text: &[u8]) -> bool
    ensures { result ≡ next_is bytes.is_letter_or_digit text.now }
{
    match text {
        [first, ..] => is_letter_or_digit(*first),
        [] => false,
    }
}

/// A number of so many digits, or a value that begins with it.
fn literal_of(digits: usize, text: &[u8]) -> Found
    requires { digits ≤ length text.now }
    ensures { result ≡ reading.literal_of digits text.now }
{
    let after = &text[digits..];
    match after {
        [b'U', b'L', b'L', after @ ..] if goes_on_word(after) => Found::Bad(digits + 3),
        [b'U', b'L', b'L', ..] => Found::Piece(What::Token(Kind::Value), digits + 3),
        _ if goes_on_word(after) => Found::Bad(digits),
        _ => Found::Piece(What::Token(Kind::Number), digits),
    }
}

/// The number or value that begins with this digit, which is the text's first.
#[tactic(auto, using(crate::proofs::Runs::runs))]
fn literal(first: u8, text: &[u8]) -> Found
    requires digit { IsTrue (bytes.is_digit first) }
    requires first_of { next_is (λ b. b == first) text.now ≡ true }
    ensures { result ≡ reading.literal first text.now }
{
    let digits = if first == 48 { 1 } else { digits_length(text) };
    match number(&text[..digits]) {
        Some(_) => literal_of(digits, text),
        None => Found::Long,
    }
}

fn header_behind(inside: usize, text: &[u8]) -> Option<usize>
    requires { inside ≤ length text.now }
    ensures { result ≡ reading.header_behind inside text.now }
{
    match &text[inside..] {
        [b'>', ..] => Some(inside + 2),
        _ => None,
    }
}

/// How long the header is that begins here.
#[tactic(auto, using(crate::proofs::Runs::runs))]
fn header_at(spot: Spot, text: &[u8]) -> Option<usize>
    ensures { result ≡ reading.header_at spot text.now }
{
    match (spot, text) {
        (Spot::AfterInclude, [b'<', after @ ..]) => header_behind(header_length(after), after),
        _ => None,
    }
}

fn one_byte_mark(text: &[u8]) -> bool
    ensures { result ≡ reading.one_byte_mark text.now }
{
    match text {
        [a, ..] => b"()[]{},;:+-*&|^~<>=!%".contains(a),
        _ => false,
    }
}

fn two_byte_mark(text: &[u8]) -> bool
    ensures { result ≡ reading.two_byte_mark text.now }
{
    match text {
        [a, b, ..] => (*b == 61 && b"+-*&|^<>=!".contains(a))
            || (*a == *b && b"+-&|<>".contains(a)),
        _ => false,
    }
}

fn three_byte_mark(text: &[u8]) -> bool
    ensures { result ≡ reading.three_byte_mark text.now }
{
    match text {
        [a, b, c, ..] => *a == *b && b"<>".contains(a) && *c == 61,
        _ => false,
    }
}

/// How long the longest mark is that begins here.
fn mark_length(text: &[u8]) -> usize
    ensures { result ≡ reading.mark_length text.now }
{
    if three_byte_mark(text) {
        3
    } else if two_byte_mark(text) {
        2
    } else if one_byte_mark(text) {
        1
    } else {
        0
    }
}

fn mark(header: Option<usize>, text: &[u8]) -> Found
    ensures { result ≡ reading.mark header text.now }
{
    match header {
        Some(length) => Found::Piece(What::Token(Kind::Header), length),
        None => match mark_length(text) {
            0 => Found::Bad(0),
            length => Found::Piece(What::Token(Kind::Mark), length),
        },
    }
}

fn hash(spot: Spot) -> Found
    ensures { result ≡ reading.hash spot }
{
    if is_fresh(spot) {
        Found::Piece(What::Token(Kind::Hash), 1)
    } else {
        Found::Bad(0)
    }
}

fn read_piece(spot: Spot, text: &[u8]) -> Found
    ensures { result ≡ reading.read spot text.now }
{
    let [first, after @ ..] = text else {
        return Found::Bad(0);
    };
    if is_space(*first) {
        space(spot, *first)
    } else if *first == 47 {
        comment(after)
    } else if is_letter(*first) {
        word(text)
    } else if is_digit(*first) {
        literal(*first, text)
    } else if *first == 35 {
        hash(spot)
    } else {
        mark(header_at(spot, text), text)
    }
}

/// The next piece of the text, or why none stands there.
pub fn next_piece(spot: Spot, text: &[u8]) -> Found
    requires { 0 < length text.now }
    ensures value { result ≡ reading.read spot text.now }
    ensures found { FoundAt spot text.now result }
{
    read_piece(spot, text)
}
