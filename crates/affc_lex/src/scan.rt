//! Bytes, and how far a run of them goes.

ghost use Rattle.std.specs.Prelude.{◌≡◌, ◌+◌, ◌-◌, ◌*◌, ◌<◌, ◌^◌, IsTrue, IfSome, length, codes};
ghost use Rattle.std.specs.Option.{SomeIff};
ghost use Rattle.std.specs.List.{list_all, prefix_len};
ghost use Rattle.affc_lex.specs.Bytes as bytes;
ghost use Rattle.affc_lex.specs.Bytes.{decimal};
ghost use Rattle.affc_lex.specs.Lexes as lexes;
ghost use Rattle.affc_lex.specs.Reading as reading;
ghost use Rattle.affc_lex.specs.Reading.{first_place, other_than_line_feed};

pub fn is_digit(b: u8) -> bool
    ensures { result ≡ bytes.is_digit b }
{
    48 <= b && b <= 57
}

/// A letter or `_`.
pub fn is_letter(b: u8) -> bool
    ensures { result ≡ bytes.is_letter b }
{
    (97 <= b && b <= 122) || (65 <= b && b <= 90) || b == 95
}

pub fn is_letter_or_digit(b: u8) -> bool
    ensures { result ≡ bytes.is_letter_or_digit b }
{
    is_letter(b) || is_digit(b)
}

pub(crate) fn is_space(b: u8) -> bool
    ensures { result ≡ bytes.is_space b }
{
    b == 32 || b == 9 || b == 10 || b == 13
}

/// How many letters, digits and `_` the text begins with.
pub(crate) fn word_length(text: &[u8]) -> usize
    ensures { result ≡ prefix_len bytes.is_letter_or_digit text.now }
{
    text.iter().take_while(|b| is_letter_or_digit(**b)).count()
}

/// How many digits the text begins with.
pub fn digits_length(text: &[u8]) -> usize
    ensures { result ≡ prefix_len bytes.is_digit text.now }
{
    text.iter().take_while(|b| is_digit(**b)).count()
}

/// How many bytes stand before the first line feed, or the end.
pub(crate) fn line_length(text: &[u8]) -> usize
    ensures { result ≡ prefix_len other_than_line_feed text.now }
{
    text.iter().take_while(|b| **b != 10).count()
}

/// How many bytes stand before the first `>` or line feed, or the end.
pub(crate) fn header_length(text: &[u8]) -> usize
    ensures { result ≡ prefix_len reading.inside_header text.now }
{
    text.iter().take_while(|b| **b != 62 && **b != 10).count()
}

fn ends_comment(text: &[u8]) -> bool
    ensures { result ≡ bytes.begins (codes "*/") text.now }
{
    matches!(text, [b'*', b'/', ..])
}

/// Where the first `*/` begins.
#[tactic(auto, using(crate::proofs::Places::places))]
pub(crate) fn comment_end(inside: &[u8]) -> Option<usize>
    ensures value { result ≡ first_place (bytes.begins (codes "*/")) inside.now }
    ensures within { IfSome result (λ at. at < length inside.now) }
{
    for at in 0..inside.len() {
        if ends_comment(&inside[at..]) {
            return Some(at);
        }
    }
    None
}

fn is_refused(text: &[u8]) -> bool
    ensures { result ≡ lexes.is_refused text.now }
{
    matches!(
        text,
        [b'\\', b'\n', ..] | [b'\\', b'\r', ..] | [b'?', b'?', b'/', ..]
    )
}

/// Where the first sequence begins that no text may have.
#[tactic(auto, using(crate::proofs::Places::places))]
pub(crate) fn first_refused(text: &[u8]) -> Option<usize>
    ensures { result ≡ first_place lexes.is_refused text.now }
{
    for at in 0..text.len() {
        if is_refused(&text[at..]) {
            return Some(at);
        }
    }
    None
}

fn with_digit(value: u64, digit: u8) -> Option<u64>
    requires { IsTrue (bytes.is_digit digit) }
    ensures { SomeIff result (10 * value + (digit - 48) < 2 ^ 64) (10 * value + (digit - 48)) }
{
    value.checked_mul(10)?.checked_add(u64::from(digit - 48))
}

/// The number that the digits write, if it is below 2^64.
#[tactic(auto, using(crate::proofs::Decimals::decimals))]
pub fn number(digits: &[u8]) -> Option<u64>
    requires { IsTrue (list_all bytes.is_digit digits.now) }
    ensures { SomeIff result (decimal digits.now < 2 ^ 64) (decimal digits.now) }
{
    let mut value: u64 = 0;
    for digit in digits {
        match with_digit(value, *digit) {
            Some(longer) => value = longer,
            None => return None,
        }
    }
    Some(value)
}
