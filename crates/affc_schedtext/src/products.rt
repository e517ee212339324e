//! The first product of names among symbols, found in one pass.

ghost use Rattle.std.specs.Prelude.{◌≡◌, map, IfOk, MatchOption};
ghost use Rattle.affc_syntax.specs.draft.Symbols.{seen};
ghost use Rattle.affc_schedtext.specs.Answers.{IsFirstProduct, HasNoProduct};
ghost use Rattle.affc_schedtext.specs.Products as pass;

use affc_lex::token::Kind;
use affc_syntax::draft::symbol::{Symbol, is};
use std::alloc::{AllocError, Global};

/// What a token is in an expression.
#[derive(Clone, Copy, Drop)]
enum Sign {
    Name,
    Number,
    Opening,
    Closing,
    Star,
    Plus,
    Minus,
    Other,
}

/// Where the tokens of a level end.
#[derive(Clone, Copy, Drop)]
enum Place {
    /// Behind a factor, and whether names stand in its term.
    Behind(bool),
    /// Before a factor: the `*` before that, where names stand on its left side, and whether the factor's `-` was there.
    Before(Option<usize>, bool),
}

/// What stands behind an opened bracket, or from the beginning on.
#[derive(Clone, Copy, Drop)]
struct Level {
    /// Whether an expression may begin so.
    fits: bool,
    /// Whether names stand in it, where it fits.
    names: bool,
    place: Place,
}

/// The tokens up to some place.
#[derive(Drop)]
struct Walk {
    /// The levels round this one, from the outside to the inside.
    outer: Vec<Level>,
    level: Level,
    /// The least number of a product's `*` so far.
    found: Option<usize>,
}

// ---- Tokens

fn sign_of_mark(text: &str) -> Sign
    ensures { result ≡ pass.sign_of_mark text.now }
{
    if is(text, b"(") {
        Sign::Opening
    } else if is(text, b")") {
        Sign::Closing
    } else if is(text, b"*") {
        Sign::Star
    } else if is(text, b"+") {
        Sign::Plus
    } else if is(text, b"-") {
        Sign::Minus
    } else {
        Sign::Other
    }
}

fn sign_of(symbol: &Symbol<'_>) -> Sign
    ensures { result ≡ pass.sign_of (seen symbol.now) }
{
    match symbol.kind {
        Kind::Word => Sign::Name,
        Kind::Number => Sign::Number,
        Kind::Mark => sign_of_mark(symbol.text),
        _ => Sign::Other,
    }
}

// ---- Levels

/// Nothing of an expression stands there so far.
fn fresh() -> Level
    ensures { result ≡ pass.fresh }
{
    Level {
        fits: true,
        names: false,
        place: Place::Before(None, false),
    }
}

/// Behind a token that can't stand on.
fn unfit(level: Level) -> Level
    ensures { result ≡ pass.unfit level }
{
    Level {
        fits: false,
        names: level.names,
        place: Place::Before(None, false),
    }
}

/// Behind a name, a number or an expression in brackets.
fn behind_atom(level: Level, named: bool) -> Level
    ensures { result ≡ pass.behind_atom level named }
{
    let names = level.names || named;
    match level.place {
        Place::Behind(_) => Level {
            fits: false,
            names,
            place: Place::Behind(named),
        },
        Place::Before(star, _) => Level {
            fits: level.fits,
            names,
            place: Place::Behind(star.is_some() || named),
        },
    }
}

/// The `*` of the product whose right side ends with an atom here.
fn closed_by(place: Place, named: bool) -> Option<usize>
    ensures { result ≡ pass.closed_by place named }
{
    match place {
        Place::Before(star, _) if named => star,
        _ => None,
    }
}

fn behind_star(at: usize, level: Level) -> Level
    ensures { result ≡ pass.behind_star at level level.place }
{
    match level.place {
        Place::Behind(named) => Level {
            place: Place::Before(if named { Some(at) } else { None }, false),
            ..level
        },
        Place::Before(..) => unfit(level),
    }
}

fn behind_plus(level: Level) -> Level
    ensures { result ≡ pass.behind_plus level level.place }
{
    match level.place {
        Place::Behind(_) => Level {
            place: Place::Before(None, false),
            ..level
        },
        Place::Before(..) => unfit(level),
    }
}

fn behind_minus(level: Level) -> Level
    ensures { result ≡ pass.behind_minus level level.place }
{
    match level.place {
        Place::Behind(_) => Level {
            place: Place::Before(None, false),
            ..level
        },
        Place::Before(star, false) => Level {
            place: Place::Before(star, true),
            ..level
        },
        Place::Before(_, true) => unfit(level),
    }
}

/// Whether an expression stands there.
fn is_whole(level: Level) -> bool
    ensures { result ≡ pass.is_whole level }
{
    match level.place {
        Place::Behind(_) => level.fits,
        Place::Before(..) => false,
    }
}

// ---- The pass

fn lesser(a: Option<usize>, b: Option<usize>) -> Option<usize>
    ensures { result ≡ pass.lesser a b }
{
    match (a, b) {
        (Some(a), Some(b)) => Some(a.min(b)),
        (Some(a), None) => Some(a),
        (None, b) => b,
    }
}

fn at_level(walk: Walk, level: Level) -> Walk
    ensures { pass.walk_seen result ≡ pass.at_level (pass.walk_seen walk) level }
{
    Walk { level, ..walk }
}

fn with_atom(walk: Walk, named: bool) -> Walk
    ensures { pass.walk_seen result ≡ pass.with_atom (pass.walk_seen walk) named }
{
    Walk {
        level: behind_atom(walk.level, named),
        found: lesser(walk.found, closed_by(walk.level.place, named)),
        outer: walk.outer,
    }
}

fn opened(walk: Walk) -> Result<Walk, AllocError>
    ensures { IfOk result (λ w. pass.walk_seen w ≡ pass.opened (pass.walk_seen walk)) }
{
    let Walk {
        mut outer,
        level,
        found,
    } = walk;
    outer.push(level)?;
    Ok(Walk {
        outer,
        level: fresh(),
        found,
    })
}

/// Behind the brackets round what stands inside.
fn with_brackets(inside: Level, walk: Walk) -> Walk
    ensures { pass.walk_seen result ≡ pass.with_brackets inside (pass.walk_seen walk) }
{
    if is_whole(inside) {
        with_atom(walk, inside.names)
    } else {
        let level = unfit(walk.level);
        at_level(walk, level)
    }
}

fn closed(walk: Walk) -> Walk
    ensures { pass.walk_seen result ≡ pass.closed (pass.walk_seen walk).outer (pass.walk_seen walk) }
{
    let Walk {
        mut outer,
        level: inside,
        found,
    } = walk;
    match outer.pop() {
        Some(level) => with_brackets(
            inside,
            Walk {
                outer,
                level,
                found,
            },
        ),
        None => Walk {
            outer,
            level: unfit(inside),
            found,
        },
    }
}

fn turn(at: usize, walk: Walk, sign: Sign) -> Result<Walk, AllocError>
    ensures { IfOk result (λ w. pass.walk_seen w ≡ pass.turn at (pass.walk_seen walk) sign) }
{
    let level = walk.level;
    match sign {
        Sign::Name => Ok(with_atom(walk, true)),
        Sign::Number => Ok(with_atom(walk, false)),
        Sign::Opening => opened(walk),
        Sign::Closing => Ok(closed(walk)),
        Sign::Star => Ok(at_level(walk, behind_star(at, level))),
        Sign::Plus => Ok(at_level(walk, behind_plus(level))),
        Sign::Minus => Ok(at_level(walk, behind_minus(level))),
        Sign::Other => Ok(at_level(walk, unfit(level))),
    }
}

/// The number of the first `*` both of whose sides hold names, in any expression that stands among these symbols. Each symbol
/// is looked at once.
pub fn first_product(alloc: Global, symbols: &[Symbol<'_>]) -> Result<Option<usize>, AllocError>
    ensures { IfOk result (λ found. MatchOption found (HasNoProduct (map seen symbols.now)) (λ at. IsFirstProduct (map seen symbols.now) at)) }
{
    let mut walk = Walk {
        outer: Vec::new(alloc),
        level: fresh(),
        found: None,
    };
    for (at, symbol) in symbols.iter().enumerate() {
        walk = turn(at, walk, sign_of(symbol))?;
    }
    Ok(walk.found)
}
