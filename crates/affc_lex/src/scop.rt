//! The lines `#pragma scop` and `#pragma endscop`, whose tokens are dropped.

ghost use Rattle.std.specs.Prelude.{◌≡◌, length, All};
ghost use Rattle.affc_lex.specs.Lexes as lexes;
ghost use Rattle.affc_lex.specs.Lexes.{IsIn, lexeme, lexemes};

use crate::token::{Kind, Token};

fn is_named(text: &[u8], token: Token, name: &[u8]) -> bool
    requires { IsIn (length text.now) token }
    ensures { result ≡ lexes.is_named name.now (lexeme text.now token) }
{
    matches!(token.kind, Kind::Word) && &text[token.start..token.end] == name
}

fn is_scop_name(text: &[u8], token: Token) -> bool
    requires { IsIn (length text.now) token }
    ensures { result ≡ lexes.is_scop_name (lexeme text.now token) }
{
    is_named(text, token, b"scop") || is_named(text, token, b"endscop")
}

fn is_hash(kind: Kind) -> bool
    ensures { result ≡ lexes.is_hash kind }
{
    matches!(kind, Kind::Hash)
}

fn is_line_end(kind: Kind) -> bool
    ensures { result ≡ lexes.is_line_end kind }
{
    matches!(kind, Kind::LineEnd)
}

fn begins_scop_line(text: &[u8], tokens: &[Token]) -> bool
    requires { All (IsIn (length text.now)) tokens.now }
    ensures { result ≡ lexes.begins_scop_line (lexemes text.now tokens.now) }
{
    match tokens {
        [hash, first, second, last, ..] => {
            is_hash(hash.kind)
                && is_named(text, *first, b"pragma")
                && is_scop_name(text, *second)
                && is_line_end(last.kind)
        }
        _ => false,
    }
}

/// Leaves out the tokens of these lines.
pub fn drop_scop_lines(text: &[u8], tokens: &mut Vec<Token>)
    requires { All (IsIn (length text.now)) tokens.old.items }
    ensures tokens { lexemes text.now tokens.new.items ≡ lexes.without_scop_lines 0 (lexemes text.now tokens.old.items) }
    ensures within { All (IsIn (length text.now)) tokens.new.items }
{
    let mut kept = 0;
    let mut left: usize = 0;
    for at in 0..tokens.len() {
        if left > 0 {
            left -= 1;
        } else if begins_scop_line(text, &tokens[at..]) {
            left = 3;
        } else {
            tokens[kept] = tokens[at];
            kept += 1;
        }
    }
    tokens.truncate(kept);
}
