//! The tokens of a text as the reading of the grammar takes them.

ghost use Rattle.std.specs.Prelude.{◌≡◌, ◌&&◌, All, length, map, slice_range, true, false, IfOk};
ghost use Rattle.std.specs.List.{list_all};
ghost use Rattle.affc_lex.specs.Lexes.{IsIn, lexeme, lexemes};
ghost use Rattle.affc_syntax.specs.draft.Numbers.{number_of};
ghost use Rattle.affc_syntax.specs.draft.Symbols.{seen};
ghost use Rattle.affc_lex.specs.Bytes as bytes;
ghost use Rattle.affc_lex.specs.Pieces.{is_number, is_small};
ghost use Rattle.affc_lex.specs.declared.token.Kind.TheVariants as kinds;
ghost use Rattle.affc_parse.specs.Shown as shown;
ghost use Rattle.affc_parse.specs.Shown.{are_bytes, shown_bytes, is_header_kind, fits};

use affc_lex::scan::{digits_length, number};
use affc_lex::token::{Kind, Token};
use affc_syntax::draft::symbol::Symbol;
use std::alloc::{AllocError, Global};
use std::str::from_utf8;

fn bytes_of<'a>(text: &'a [u8], token: &Token) -> &'a [u8]
    requires { IsIn (length text.now) token.now }
    ensures { result.now ≡ slice_range text.now token.now.start token.now.end }
{
    &text[token.start..token.end]
}

fn header<'a>(header: &[u8]) -> &'a str
    ensures { result.now ≡ shown_bytes kinds.Header header.now }
{
    if header == b"<stdint.h>".as_slice() {
        "<stdint.h>"
    } else {
        "<>"
    }
}

/// All but a Header are ASCII.
fn ascii<'a>(kind: Kind, bytes: &'a [u8]) -> &'a str
    requires fits { are_bytes kind bytes.now ≡ true }
    requires other { is_header_kind kind ≡ false }
    ensures { result.now ≡ bytes.now }
{
    match from_utf8(bytes) {
        Ok(text) => text,
        Err(_) => "",
    }
}

fn text_of<'a>(kind: Kind, bytes: &'a [u8]) -> &'a str
    requires { are_bytes kind bytes.now ≡ true }
    ensures { result.now ≡ shown_bytes kind bytes.now }
{
    match kind {
        Kind::Header => header(bytes),
        _ => ascii(kind, bytes),
    }
}

fn decimal(digits: &[u8]) -> u64
    requires { (is_number digits.now && is_small digits.now) ≡ true }
    ensures { result ≡ bytes.decimal digits.now }
{
    match number(digits) {
        Some(value) => value,
        None => 0,
    }
}

/// The number that a Number or a Value writes.
fn value_of(kind: Kind, bytes: &[u8]) -> u64
    requires { are_bytes kind bytes.now ≡ true }
    ensures { result ≡ number_of kind bytes.now }
{
    match kind {
        Kind::Number => decimal(bytes),
        Kind::Value => decimal(&bytes[..digits_length(bytes)]),
        _ => 0,
    }
}

fn symbol_of<'a>(text: &'a [u8], token: &Token) -> Symbol<'a>
    requires within { IsIn (length text.now) token.now }
    requires fits { fits (lexeme text.now token.now) ≡ true }
    ensures { seen result ≡ shown.shown (lexeme text.now token.now) }
{
    let kind = token.kind;
    let bytes = bytes_of(text, token);
    let value = value_of(kind, bytes);
    let text = text_of(kind, bytes);
    Symbol { kind, text, value }
}

/// The tokens in order.
pub fn symbols_of<'a>(
    alloc: Global,
    text: &'a [u8],
    tokens: &[Token],
) -> Result<Vec<Symbol<'a>>, AllocError>
    requires within { All (IsIn (length text.now)) tokens.now }
    requires fits { list_all fits (lexemes text.now tokens.now) ≡ true }
    ensures { IfOk result (λ v. map seen v.items ≡ map shown.shown (lexemes text.now tokens.now)) }
{
    let mut symbols = Vec::new(alloc);
    for token in tokens {
        symbols.push(symbol_of(text, token))?;
    }
    Ok(symbols)
}
