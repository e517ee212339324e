//! Names that a program may not give to things of its own.

ghost use Rattle.std.specs.Prelude.{◌≡◌, ◌∷◌};
ghost use Rattle.std.specs.List.{list_all};
ghost use Rattle.affc_lex.specs.Bytes.{is_digit};
ghost use Rattle.affc_ast.specs.Names as names;
ghost use Rattle.affc_grammar.specs.Names.{is_time_name};
ghost use Rattle.affc_lex.specs.Pieces as pieces;
ghost use Rattle.affc_names.specs.Reserved as reserved;

use affc_lex::scan::is_digit;

const KEYWORDS: [&str; 44] = [
    "auto",
    "break",
    "case",
    "char",
    "const",
    "continue",
    "default",
    "do",
    "double",
    "else",
    "enum",
    "extern",
    "float",
    "for",
    "goto",
    "if",
    "inline",
    "int",
    "long",
    "register",
    "restrict",
    "return",
    "short",
    "signed",
    "sizeof",
    "static",
    "struct",
    "switch",
    "typedef",
    "union",
    "unsigned",
    "void",
    "volatile",
    "while",
    "_Alignas",
    "_Alignof",
    "_Atomic",
    "_Bool",
    "_Complex",
    "_Generic",
    "_Imaginary",
    "_Noreturn",
    "_Static_assert",
    "_Thread_local",
];

const BEGINNINGS: [&str; 9] = [
    "_",
    "affc_",
    "INT",
    "UINT",
    "PTRDIFF_",
    "SIG_ATOMIC_",
    "SIZE_",
    "WCHAR_",
    "WINT_",
];

#[tactic(auto, unfolding(crate::specs::Reserved::is_among))]
fn is_among(words: &[&str], name: &str) -> bool
    ensures { result ≡ reserved.is_among words.now name.now }
{
    words.iter().any(|word| *word == name)
}

#[tactic(auto, unfolding(crate::specs::Reserved::begins_with_one))]
fn begins_with_one(beginnings: &[&str], name: &[u8]) -> bool
    ensures { result ≡ reserved.begins_with_one beginnings.now name.now }
{
    beginnings
        .iter()
        .any(|beginning| name.starts_with(beginning.as_bytes()))
}

fn is_keyword(name: &str) -> bool
    ensures { result ≡ reserved.is_keyword name.now }
{
    is_among(&KEYWORDS, name)
}

fn begins_reserved(name: &str) -> bool
    ensures { result ≡ reserved.begins_reserved name.now }
{
    begins_with_one(&BEGINNINGS, name.as_bytes())
}

/// Whether the name is kept for the language or its library.
pub fn is_reserved(name: &str) -> bool
    ensures { result ≡ names.is_reserved name.now }
{
    let listed = is_keyword(name);
    let begins = begins_reserved(name);
    let ends = name.as_bytes().ends_with(b"_t");
    let main = "main" == name;
    listed | begins | ends | main
}

fn are_digits(bytes: &[u8]) -> bool
    ensures { result ≡ list_all is_digit bytes.now }
{
    bytes.iter().all(|digit| is_digit(*digit))
}

/// Of two digits or more, the first isn't `0`.
fn is_long_number(first: u8, second: u8, rest: &[u8]) -> bool
    ensures { result ≡ pieces.is_number (first ∷ second ∷ rest.now) }
{
    is_digit(first) && first != b'0' && (is_digit(second) && are_digits(rest))
}

fn is_number(bytes: &[u8]) -> bool
    ensures { result ≡ pieces.is_number bytes.now }
{
    match bytes {
        [] => false,
        [digit] => is_digit(*digit),
        [first, second, rest @ ..] => is_long_number(*first, *second, rest),
    }
}

/// `affc_t0`, `affc_t1`, ..
pub fn is_time_name(name: &str) -> bool
    ensures { result ≡ is_time_name name.now }
{
    match name.as_bytes() {
        [b'a', b'f', b'f', b'c', b'_', b't', rest @ ..] => is_number(rest),
        _ => false,
    }
}
