//! What of a tree a text can say where it stands.
ghost use Rattle.std.specs.Prelude.{◌≡◌, ◌^◌, Bool, [], map, nat_lt};
ghost use Rattle.std.specs.List.{list_all};
ghost use Rattle.affc_lex.specs.Bytes.{is_letter_or_digit};
ghost use Rattle.affc_lex.specs.Pieces as pieces;
ghost use Rattle.affc_ast.specs.Joined.{is_ordered};
ghost use Rattle.affc_wellnamed.specs.Known.{Known};
ghost use Rattle.affc_wellnamed.specs.Known as known;
ghost use Rattle.affc_wellnamed.specs.Sights.{known_in};

use crate::sight::{Sight, has_array, has_number, is_taken};
use affc_ast::tree::{Compare, Cond, Decl, Ix, Local, Param, Program, Rel, Role, Stmt, Val};
use affc_lex::scan::{is_letter, is_letter_or_digit};
use affc_names::reserved::{is_reserved, is_time_name};

// ---- Names

fn are_letters_or_digits(bytes: &[u8]) -> bool
    ensures { result ≡ list_all is_letter_or_digit bytes.now }
{
    bytes.iter().all(|byte| is_letter_or_digit(*byte))
}

fn is_word(name: &[u8]) -> bool
    ensures { result ≡ pieces.is_word name.now }
{
    match name {
        [] => false,
        [first, rest @ ..] => is_letter(*first) && are_letters_or_digits(rest),
    }
}

fn is_refused(prelude: bool, is_iterator: bool, name: &str) -> bool
    ensures { result ≡ known.is_refused prelude is_iterator name.now }
{
    is_reserved(name) && !(is_iterator && prelude && is_time_name(name))
}

// Whether a name may be declared here.
fn is_new(prelude: bool, sight: &Sight<'_>, is_iterator: bool, name: &str) -> bool
    ensures { result ≡ known.is_new (known_in prelude sight.now) is_iterator name.now }
{
    is_word(name.as_bytes()) && !is_refused(prelude, is_iterator, name) && !is_taken(sight, name)
}

// ---- Expressions

fn is_numeral(n: i64) -> bool
    ensures { result ≡ known.is_numeral n }
{
    0 <= n
}

fn is_divisor(n: i64) -> bool
    ensures { result ≡ known.is_divisor n }
{
    1 <= n
}

#[tactic(auto, using(affc_ast::proofs::Outs::ix_outs))]
fn ix_known(e: &Ix, prelude: bool, sight: &Sight<'_>) -> bool
    ensures { result ≡ known.ix_known (known_in prelude sight.now) e.now }
{
    match e {
        Ix::Lit(n) => is_numeral(*n),
        Ix::Name(id) => has_number(sight, u64::from(id.0)),
        Ix::Neg(a) => ix_known(a.get(), prelude, sight),
        Ix::Add(a, b) | Ix::Sub(a, b) | Ix::Mul(a, b) => {
            ix_known(a.get(), prelude, sight) && ix_known(b.get(), prelude, sight)
        }
        Ix::Min(a, b) | Ix::Max(a, b) | Ix::Mod(a, b) => {
            prelude && (ix_known(a.get(), prelude, sight) && ix_known(b.get(), prelude, sight))
        }
        Ix::Floord(a, by) | Ix::Ceild(a, by) => {
            prelude && (is_divisor(*by) && ix_known(a.get(), prelude, sight))
        }
    }
}

fn ixs_known(es: &[Ix], prelude: bool, sight: &Sight<'_>) -> bool
    ensures { result ≡ known.ixs_known (known_in prelude sight.now) es.now }
{
    for e in es {
        if !ix_known(e, prelude, sight) {
            return false;
        }
    }
    true
}

// ---- Conditions

// Any relation but `!=`.
fn is_ordered(rel: Rel) -> bool
    ensures { result ≡ is_ordered rel }
{
    !matches!(rel, Rel::NotEqual)
}

fn compare_known(c: &Compare, prelude: bool, sight: &Sight<'_>) -> bool
    ensures { result ≡ known.compare_known (known_in prelude sight.now) c.now }
{
    is_ordered(c.rel) && (ix_known(&c.left, prelude, sight) && ix_known(&c.right, prelude, sight))
}

fn compares_known(cs: &[Compare], prelude: bool, sight: &Sight<'_>) -> bool
    ensures { result ≡ known.compares_known (known_in prelude sight.now) cs.now }
{
    for c in cs {
        if !compare_known(c, prelude, sight) {
            return false;
        }
    }
    true
}

// Whether conditions are joined by `&&`, or by `||`.
#[tactic(auto, using(affc_ast::proofs::Outs::cond_outs))]
fn is_joined_by(all: bool, c: &Cond) -> bool
    ensures { (k : Known) → result ≡ known.is_joined_by all (known.cond_seen k c.now) }
{
    match c {
        Cond::All(_) => all,
        Cond::Any(_) => !all,
        Cond::Compare { .. } | Cond::Divides { .. } => false,
    }
}

#[cycle(conditions)]
#[tactic(auto, using(affc_ast::proofs::Outs::cond_outs))]
fn cond_known(c: &Cond, prelude: bool, sight: &Sight<'_>) -> bool
    ensures { result ≡ known.cond_known (known_in prelude sight.now) c.now }
{
    match c {
        Cond::Compare { left, right, .. } => {
            ix_known(left, prelude, sight) && ix_known(right, prelude, sight)
        }
        Cond::All(entries) => joined_known(true, entries.as_slice(), prelude, sight),
        Cond::Any(entries) => joined_known(false, entries.as_slice(), prelude, sight),
        Cond::Divides { value, by, .. } => is_divisor(*by) && ix_known(value, prelude, sight),
    }
}

// Whether one is known that isn't joined by the same.
#[cycle(conditions)]
fn entry_known(all: bool, c: &Cond, prelude: bool, sight: &Sight<'_>) -> bool
    ensures { result ≡ known.entry_known all (known.cond_seen (known_in prelude sight.now) c.now) }
{
    !is_joined_by(all, c) && cond_known(c, prelude, sight)
}

// At least two conditions, none of which is joined by the same.
#[cycle(conditions)]
fn joined_known(all: bool, cs: &[Cond], prelude: bool, sight: &Sight<'_>) -> bool
    ensures { result ≡ known.joined_known all (map (known.cond_seen (known_in prelude sight.now)) cs.now) }
{
    2 <= cs.len() && each_known(all, cs, prelude, sight)
}

#[cycle(conditions)]
fn each_known(all: bool, cs: &[Cond], prelude: bool, sight: &Sight<'_>) -> bool
    ensures { result ≡ known.each_known all (map (known.cond_seen (known_in prelude sight.now)) cs.now) }
{
    for c in cs {
        if !entry_known(all, c, prelude, sight) {
            return false;
        }
    }
    true
}

// ---- Values

// Any number of this type.
fn is_constant(n: u64) -> bool
    ensures { result ≡ nat_lt n (2 ^ 64) }
{
    n <= u64::MAX
}

#[tactic(auto, using(affc_ast::proofs::Outs::val_outs))]
fn value_known(v: &Val, prelude: bool, sight: &Sight<'_>) -> bool
    ensures { result ≡ known.value_known (known_in prelude sight.now) v.now }
{
    match v {
        Val::Load { array, subs } => {
            let subs = subs.as_slice();
            has_array(sight, array.0 as usize, false, subs.len()) && ixs_known(subs, prelude, sight)
        }
        Val::Const(n) => is_constant(*n),
        Val::Cast(e) => ix_known(e, prelude, sight),
        Val::Not(a) => value_known(a.get(), prelude, sight),
        Val::Bin { left, right, .. } => {
            value_known(left.get(), prelude, sight) && value_known(right.get(), prelude, sight)
        }
        Val::Shift { value, by, .. } => *by <= 63 && value_known(value.get(), prelude, sight),
    }
}

// ---- Statements

fn is_bound(rel: Rel) -> bool
    ensures { result ≡ known.is_bound rel }
{
    matches!(rel, Rel::Less | Rel::LessEqual)
}

fn local_known(local: &Local, prelude: bool, sight: &Sight<'_>) -> bool
    ensures { result ≡ known.local_known (known_in prelude sight.now) local.now }
{
    is_new(prelude, sight, false, local.name.as_str()) && ix_known(&local.value, prelude, sight)
}

// Locals in order; each is in sight behind itself.
fn locals_known<'a>(locals: &'a [Local], prelude: bool, sight: &'a Sight<'a>) -> bool
    ensures { result ≡ known.locals_known (known_in prelude sight.now) [] locals.now }
{
    for (at, local) in locals.iter().enumerate() {
        if !local_known(local, prelude, &Sight::Locals(&locals[..at], sight)) {
            return false;
        }
    }
    true
}

fn for_known(
    iterator: &str,
    low: &Ix,
    rel: Rel,
    high: &Ix,
    prelude: bool,
    sight: &Sight<'_>,
) -> bool
    ensures { result ≡ known.for_known (known_in prelude sight.now) iterator.now low.now rel high.now }
{
    is_new(prelude, sight, true, iterator)
        && (is_bound(rel) && (ix_known(low, prelude, sight) && ix_known(high, prelude, sight)))
}

fn assign_known(array: usize, subs: &[Ix], value: &Val, prelude: bool, sight: &Sight<'_>) -> bool
    ensures { result ≡ known.assign_known (known_in prelude sight.now) array subs.now value.now }
{
    has_array(sight, array, true, subs.len())
        && (ixs_known(subs, prelude, sight) && value_known(value, prelude, sight))
}

fn block_known<'a>(locals: &'a [Local], prelude: bool, sight: &'a Sight<'a>) -> bool
    ensures { result ≡ known.block_known (known_in prelude sight.now) locals.now }
{
    (prelude || locals.is_empty()) && locals_known(locals, prelude, sight)
}

#[cycle(statements)]
#[tactic(auto, using(affc_ast::proofs::Outs::stmt_outs))]
fn stmt_known<'a>(s: &'a Stmt, prelude: bool, sight: &'a Sight<'a>) -> bool
    ensures { result ≡ known.stmt_known s.now (known_in prelude sight.now) }
{
    match s {
        Stmt::For {
            iter,
            low,
            rel,
            high,
            body,
        } => {
            for_known(iter.as_str(), low, *rel, high, prelude, sight)
                && stmts_known(
                    body.as_slice(),
                    prelude,
                    &Sight::Iterator(iter.as_str(), sight),
                )
        }
        Stmt::If { cond, body, other } => {
            cond_known(cond, prelude, sight)
                && (stmts_known(body.as_slice(), prelude, sight)
                    && stmts_known(other.as_slice(), prelude, sight))
        }
        Stmt::Assign {
            array,
            subs,
            value,
            ..
        } => assign_known(array.0 as usize, subs.as_slice(), value, prelude, sight),
        Stmt::Block { locals, body } => {
            block_known(locals.as_slice(), prelude, sight)
                && stmts_known(
                    body.as_slice(),
                    prelude,
                    &Sight::Locals(locals.as_slice(), sight),
                )
        }
    }
}

#[cycle(statements)]
fn stmts_known<'a>(body: &'a [Stmt], prelude: bool, sight: &'a Sight<'a>) -> bool
    ensures { result ≡ known.stmts_known (known_in prelude sight.now) body.now }
{
    for s in body {
        if !stmt_known(s, prelude, sight) {
            return false;
        }
    }
    true
}

// ---- Parameters and temporaries

// Any number of this type.
fn is_int(n: i64) -> bool
    ensures { result ≡ known.is_int n }
{
    n.unsigned_abs() <= u64::MAX
}

fn is_temp(role: Role) -> bool
    ensures { result ≡ known.is_temp role }
{
    matches!(role, Role::Temp)
}

fn extents_known(extents: &[Ix], prelude: bool, sight: &Sight<'_>) -> bool
    ensures { result ≡ known.extents_known (known_in prelude sight.now) extents.now }
{
    !extents.is_empty() && ixs_known(extents, prelude, sight)
}

fn array_param_known(d: &Decl, prelude: bool, sight: &Sight<'_>) -> bool
    ensures { result ≡ known.array_param_known (known_in prelude sight.now) d.now }
{
    is_new(prelude, sight, false, d.name.as_str())
        && (!is_temp(d.role) && extents_known(d.extents.as_slice(), prelude, sight))
}

fn param_known(param: &Param, prelude: bool, sight: &Sight<'_>) -> bool
    ensures { result ≡ known.param_known (known_in prelude sight.now) param.now }
{
    match param {
        Param::Number { name, low, high } => {
            is_new(prelude, sight, false, name.as_str()) && (is_int(*low) && is_int(*high))
        }
        Param::Array(d) => array_param_known(d, prelude, sight),
    }
}

fn is_number(param: &Param) -> bool
    ensures { result ≡ known.is_number param.now }
{
    matches!(param, Param::Number { .. })
}

pub fn number_count(params: &[Param]) -> u64
    ensures { result ≡ known.number_count params.now }
{
    let mut count = 0;
    for param in params {
        if is_number(param) {
            count += 1;
        }
    }
    count
}

// What is in sight behind some parameters, of which so many are numbers, and some temporaries.
fn behind<'a>(function: &'a str, params: &'a [Param], temps: &'a [Decl], numbers: u64) -> Sight<'a>
    requires { numbers ≡ known.number_count params.now }
    ensures { (prelude : Bool) → known_in prelude result ≡ known.known_behind prelude function.now params.now temps.now }
{
    Sight::Outside {
        function,
        params,
        temps,
        numbers,
    }
}

// A parameter behind others.
fn param_behind<'a>(
    prelude: bool,
    function: &'a str,
    before: &'a [Param],
    numbers: u64,
    param: &Param,
) -> bool
    requires { numbers ≡ known.number_count before.now }
    ensures { result ≡ known.param_known (known.known_behind prelude function.now before.now []) param.now }
{
    let sight = behind(function, before, &[], numbers);
    param_known(param, prelude, &sight)
}

// Parameters in order; each is in sight behind itself.
fn params_known<'a>(prelude: bool, function: &'a str, params: &'a [Param]) -> bool
    ensures { result ≡ known.params_known prelude function.now [] params.now }
{
    let mut numbers = 0;
    for (at, param) in params.iter().enumerate() {
        if !param_behind(prelude, function, &params[..at], numbers, param) {
            return false;
        }
        if is_number(param) {
            numbers += 1;
        }
    }
    true
}

fn temp_known(d: &Decl, prelude: bool, sight: &Sight<'_>) -> bool
    ensures { result ≡ known.temp_known (known_in prelude sight.now) d.now }
{
    is_new(prelude, sight, false, d.name.as_str())
        && (is_temp(d.role) && ixs_known(d.extents.as_slice(), prelude, sight))
}

// A temporary behind all parameters and others.
fn temp_behind<'a>(
    prelude: bool,
    function: &'a str,
    params: &'a [Param],
    before: &'a [Decl],
    numbers: u64,
    temp: &Decl,
) -> bool
    requires { numbers ≡ known.number_count params.now }
    ensures { result ≡ known.temp_known (known.known_behind prelude function.now params.now before.now) temp.now }
{
    let sight = behind(function, params, before, numbers);
    temp_known(temp, prelude, &sight)
}

// Temporaries in order; each is in sight behind itself.
fn temps_known<'a>(prelude: bool, function: &'a str, params: &'a [Param], temps: &'a [Decl]) -> bool
    ensures { result ≡ known.temps_known prelude function.now params.now [] temps.now }
{
    let numbers = number_count(params);
    for (at, temp) in temps.iter().enumerate() {
        if !temp_behind(prelude, function, params, &temps[..at], numbers, temp) {
            return false;
        }
    }
    true
}

fn is_function(name: &str) -> bool
    ensures { result ≡ known.is_function name.now }
{
    is_word(name.as_bytes()) && !is_reserved(name)
}

// Behind all parameters and temporaries.
fn body_known(program: &Program) -> bool
    ensures { result ≡ known.body_known program.now }
{
    let params = program.params.as_slice();
    let sight = behind(
        program.name.as_str(),
        params,
        program.temps.as_slice(),
        number_count(params),
    );
    stmts_known(program.body.as_slice(), program.prelude, &sight)
}

// Behind all parameters.
fn context_known(program: &Program) -> bool
    ensures { result ≡ known.context_known program.now }
{
    let params = program.params.as_slice();
    let sight = behind(program.name.as_str(), params, &[], number_count(params));
    compares_known(program.context.as_slice(), program.prelude, &sight)
}

/// Whether a text can say each part of a program where it stands.
pub fn program_known(program: &Program) -> bool
    ensures { result ≡ known.program_known program.now }
{
    let prelude = program.prelude;
    let name = program.name.as_str();
    let params = program.params.as_slice();
    is_function(name)
        && (!params.is_empty()
            && (params_known(prelude, name, params)
                && (context_known(program)
                    && (temps_known(prelude, name, params, program.temps.as_slice())
                        && body_known(program)))))
}
