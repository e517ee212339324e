//! What is asked of each expression of a tree: products and numbers.
ghost use Rattle.std.specs.Prelude.{◌≡◌, map};
ghost use Rattle.std.specs.List.{list_all};
ghost use Rattle.affc_cprint.specs.Forms as spec;
ghost use Rattle.affc_wellnamed.specs.Plain.{is_plain, seen};

use affc_ast::tree::{Compare, Cond, Decl, Ix, Local, Param, Program, Stmt, Val};

// Whether an expression holds names, one side of each product in it holds none, and no number in it passes the limit.
#[derive(Clone, Copy)]
pub struct Form {
    named: bool,
    affine: bool,
    small: bool,
}

fn is_within(n: i64) -> bool
    ensures { result ≡ spec.is_within n }
{
    n.unsigned_abs() <= 1 << 62
}

fn literal(small: bool) -> Form
    ensures { seen result ≡ spec.literal small }
{
    Form {
        named: false,
        affine: true,
        small,
    }
}

fn name() -> Form
    ensures { seen result ≡ spec.name }
{
    Form {
        named: true,
        affine: true,
        small: true,
    }
}

fn both(a: Form, b: Form) -> Form
    ensures { seen result ≡ spec.both (seen a) (seen b) }
{
    Form {
        named: a.named || b.named,
        affine: a.affine && b.affine,
        small: a.small && b.small,
    }
}

fn product(a: Form, b: Form) -> Form
    ensures { seen result ≡ spec.product (seen a) (seen b) }
{
    Form {
        named: a.named || b.named,
        affine: (a.affine && !(a.named && b.named)) && b.affine,
        small: a.small && b.small,
    }
}

fn quotient(a: Form, small: bool) -> Form
    ensures { seen result ≡ spec.quotient (seen a) small }
{
    Form {
        named: a.named,
        affine: a.affine,
        small: a.small && small,
    }
}

#[tactic(auto, using(affc_ast::proofs::Outs::ix_outs))]
fn form_of(e: &Ix) -> Form
    ensures { seen result ≡ spec.form e.now }
{
    match e {
        Ix::Lit(n) => literal(is_within(*n)),
        Ix::Name(_) => name(),
        Ix::Neg(a) => form_of(a.get()),
        Ix::Mul(a, b) => product(form_of(a.get()), form_of(b.get())),
        Ix::Add(a, b) | Ix::Sub(a, b) | Ix::Min(a, b) | Ix::Max(a, b) | Ix::Mod(a, b) => {
            both(form_of(a.get()), form_of(b.get()))
        }
        Ix::Floord(a, by) | Ix::Ceild(a, by) => quotient(form_of(a.get()), is_within(*by)),
    }
}

fn is_plain(e: &Ix) -> bool
    ensures { result ≡ is_plain e.now }
{
    let form = form_of(e);
    form.affine && form.small
}

fn are_plain(es: &[Ix]) -> bool
    ensures { result ≡ list_all is_plain es.now }
{
    for e in es {
        if !is_plain(e) {
            return false;
        }
    }
    true
}

fn compares_plain(cs: &[Compare]) -> bool
    ensures { result ≡ list_all (spec.compare_passes is_plain) cs.now }
{
    for c in cs {
        if !(is_plain(&c.left) && is_plain(&c.right)) {
            return false;
        }
    }
    true
}

#[cycle(conditions)]
#[tactic(auto, using(affc_ast::proofs::Outs::cond_outs))]
fn cond_plain(c: &Cond) -> bool
    ensures { result ≡ spec.cond_passes is_plain c.now }
{
    match c {
        Cond::Compare { left, right, .. } => is_plain(left) && is_plain(right),
        Cond::All(entries) | Cond::Any(entries) => conds_plain(entries.as_slice()),
        Cond::Divides { value, .. } => is_plain(value),
    }
}

#[cycle(conditions)]
fn conds_plain(cs: &[Cond]) -> bool
    ensures { result ≡ list_all (λ b. b) (map (spec.cond_passes is_plain) cs.now) }
{
    for c in cs {
        if !cond_plain(c) {
            return false;
        }
    }
    true
}

#[tactic(auto, using(affc_ast::proofs::Outs::val_outs))]
fn value_plain(v: &Val) -> bool
    ensures { result ≡ spec.value_passes is_plain v.now }
{
    match v {
        Val::Load { subs, .. } => are_plain(subs.as_slice()),
        Val::Const(_) => true,
        Val::Cast(e) => is_plain(e),
        Val::Not(a) | Val::Shift { value: a, .. } => value_plain(a.get()),
        Val::Bin { left, right, .. } => value_plain(left.get()) && value_plain(right.get()),
    }
}

fn locals_plain(locals: &[Local]) -> bool
    ensures { result ≡ list_all (spec.local_passes is_plain) locals.now }
{
    for local in locals {
        if !is_plain(&local.value) {
            return false;
        }
    }
    true
}

#[cycle(statements)]
#[tactic(auto, using(affc_ast::proofs::Outs::stmt_outs))]
fn stmt_plain(s: &Stmt) -> bool
    ensures { result ≡ spec.stmt_passes is_plain s.now }
{
    match s {
        Stmt::For {
            low,
            high,
            body,
            ..
        } => is_plain(low) && (is_plain(high) && stmts_plain(body.as_slice())),
        Stmt::If { cond, body, other } => {
            cond_plain(cond) && (stmts_plain(body.as_slice()) && stmts_plain(other.as_slice()))
        }
        Stmt::Assign { subs, value, .. } => are_plain(subs.as_slice()) && value_plain(value),
        Stmt::Block { locals, body } => {
            locals_plain(locals.as_slice()) && stmts_plain(body.as_slice())
        }
    }
}

#[cycle(statements)]
fn stmts_plain(body: &[Stmt]) -> bool
    ensures { result ≡ list_all (spec.stmt_passes is_plain) body.now }
{
    for s in body {
        if !stmt_plain(s) {
            return false;
        }
    }
    true
}

fn param_plain(param: &Param) -> bool
    ensures { result ≡ spec.param_passes is_plain param.now }
{
    match param {
        Param::Number { .. } => true,
        Param::Array(d) => are_plain(d.extents.as_slice()),
    }
}

fn params_plain(params: &[Param]) -> bool
    ensures { result ≡ list_all (spec.param_passes is_plain) params.now }
{
    for param in params {
        if !param_plain(param) {
            return false;
        }
    }
    true
}

fn temps_plain(temps: &[Decl]) -> bool
    ensures { result ≡ list_all (spec.decl_passes is_plain) temps.now }
{
    for temp in temps {
        if !are_plain(temp.extents.as_slice()) {
            return false;
        }
    }
    true
}

/// Whether the rules on products and numbers are kept by each expression of a program.
pub fn program_plain(program: &Program) -> bool
    ensures { result ≡ spec.program_passes is_plain program.now }
{
    compares_plain(program.context.as_slice())
        && params_plain(program.params.as_slice())
        && temps_plain(program.temps.as_slice())
        && stmts_plain(program.body.as_slice())
}
