//! Which names may stand in the forms of a line.

ghost use Rattle.std.specs.Prelude.{◌≡◌, ◌∷◌, [], is_some, true, nat_lt, Some, None, MatchOption, if◌then◌else◌};
ghost use Rattle.std.specs.List.{list_all};
ghost use Rattle.affc_lex.specs.Bytes.{decimal, is_digit as digit};
ghost use Rattle.affc_lex.specs.Pieces as pieces;
ghost use Rattle.affc_schedtext.specs.Outline as outline;
ghost use Rattle.affc_schedtext.specs.Seen.{scope_seen};

use affc_ast::text::Text;
use affc_lex::scan::{is_digit, number};
use affc_syntax::draft::symbol::is;

/// The names that stand for a column.
#[derive(Clone, Copy, Drop)]
pub enum Scope<'o> {
    /// All, where it isn't known what a line is about.
    Any,
    /// The parameters and a statement's iterators.
    Time {
        parameters: &'o [Text],
        iterators: &'o [Text],
    },
    /// The components of a time of this length, `t0`, `t1`, .., and the parameters.
    Inverse {
        parameters: &'o [Text],
        length: u64,
    },
    /// The subscripts of an array of so many dimensions, `x0`, `x1`, ..
    Row(u64),
    /// The rows' values, `y0`, `y1`, ..
    Back(u64),
}

/// The words before the `=`s of inverse forms: these in this order, or any.
#[derive(Clone, Copy, Drop)]
pub enum Words<'o> {
    These { first: &'o str, others: &'o [Text] },
    Any,
}

/// What may stand in the two lists of a line.
#[derive(Clone, Copy, Drop)]
pub struct Lists<'o> {
    pub there: Scope<'o>,
    pub back: Scope<'o>,
    pub words: Words<'o>,
}

/// The first of the names, and the others.
pub(crate) fn first_name<'o>(names: &'o [Text]) -> Option<(&'o str, &'o [Text])>
    ensures { MatchOption result (names.now ≡ []) (λ p. names.now ≡ p.0.now ∷ p.1.now) }
{
    match names.split_first() {
        Some((first, others)) => Some((first.as_str(), others)),
        None => None,
    }
}

fn all_digits(bytes: &[u8]) -> bool
    ensures { result ≡ list_all digit bytes.now }
{
    bytes.iter().all(|b| is_digit(*b))
}

/// Digits of which the first isn't 0, or `0`.
fn is_number(bytes: &[u8]) -> bool
    ensures { result ≡ pieces.is_number bytes.now }
{
    match bytes {
        [] => false,
        [first] => is_digit(*first),
        [first, second, rest @ ..] => {
            is_digit(*first) && *first != 48 && is_digit(*second) && all_digits(rest)
        }
    }
}

/// The number that the digits write, where it is less than `count`.
#[tactic(auto, using(crate::proofs::Sights::digits))]
fn below(count: u64, digits: &[u8]) -> Option<u64>
    requires { pieces.is_number digits.now ≡ true }
    ensures { result ≡ (if nat_lt (decimal digits.now) count then Some (decimal digits.now) else None) }
{
    match number(digits) {
        Some(n) => { if n < count { Some(n) } else { None } }
        None => None,
    }
}

/// The number behind this letter, without leading zeros, where it is less than `count`.
pub fn numbered(letter: u8, count: u64, name: &str) -> Option<u64>
    ensures { result ≡ outline.numbered (letter ∷ []) count name.now }
{
    match name.as_bytes() {
        [first, digits @ ..] => {
            if *first == letter && is_number(digits) {
                below(count, digits)
            } else {
                None
            }
        }
        [] => None,
    }
}

/// The number of the first of these that is the name.
pub fn position(name: &str, names: &[Text]) -> Option<usize>
    ensures { result ≡ outline.position name.now names.now }
{
    names
        .iter()
        .position(|own| is(own.as_str(), name.as_bytes()))
}

/// Whether the name stands for a column.
#[tactic(auto, using(crate::proofs::Sights::sights))]
pub fn sees(scope: Scope<'_>, name: &str) -> bool
    ensures { result ≡ is_some (scope_seen scope.entry name.now) }
{
    match scope {
        Scope::Any => true,
        Scope::Time {
            parameters,
            iterators,
        } => position(name, parameters).is_some() || position(name, iterators).is_some(),
        Scope::Inverse { parameters, length } => {
            numbered(b't', length, name).is_some() || position(name, parameters).is_some()
        }
        Scope::Row(count) => numbered(b'x', count, name).is_some(),
        Scope::Back(count) => numbered(b'y', count, name).is_some(),
    }
}
