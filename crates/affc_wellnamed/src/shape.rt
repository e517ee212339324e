//! How many tokens a tree is printed with, and how they stand.
ghost use Rattle.std.specs.Prelude.{◌≡◌, map};
ghost use Rattle.affc_wellnamed.specs.Shape as spec;

use affc_ast::tree::{Compare, Cond, Decl, Ix, Local, Param, Program, Role, Stmt, Val};
use affc_cprint::brackets::{Level, Place, is_divided, left_of, level_of, right_of};

pub fn plus(a: u64, b: u64) -> u64
    ensures { result ≡ spec.plus a b }
{
    a.saturating_add(b)
}

pub fn larger(a: u64, b: u64) -> u64
    ensures { result ≡ spec.larger a b }
{
    if a < b { b } else { a }
}

// ---- Tokens in a row

// Tokens in a row, and how many brackets stand open at once among them.
#[derive(Clone, Copy)]
pub struct Extent {
    tokens: u64,
    depth: u64,
}

fn some_tokens(tokens: u64) -> Extent
    ensures { result ≡ record { tokens = tokens; depth = 0 } }
{
    Extent { tokens, depth: 0 }
}

fn beside(a: Extent, b: Extent) -> Extent
    ensures { result ≡ spec.beside a b }
{
    Extent {
        tokens: plus(a.tokens, b.tokens),
        depth: larger(a.depth, b.depth),
    }
}

fn and_tokens(more: u64, a: Extent) -> Extent
    ensures { result ≡ spec.and_tokens more a }
{
    Extent {
        tokens: plus(a.tokens, more),
        depth: a.depth,
    }
}

fn bracketed(a: Extent) -> Extent
    ensures { result ≡ spec.bracketed a }
{
    Extent {
        tokens: plus(a.tokens, 2),
        depth: plus(a.depth, 1),
    }
}

fn bracketed_if(wanted: bool, a: Extent) -> Extent
    ensures { result ≡ spec.bracketed_if wanted a }
{
    if wanted { bracketed(a) } else { a }
}

// ---- Expressions

// How tightly an expression is bound.
#[derive(Clone, Copy)]
pub enum Binding {
    Sum,
    Product,
    Atom,
    Call,
}

// An expression without brackets round it.
#[derive(Clone, Copy)]
pub struct IxExtent {
    extent: Extent,
    binding: Binding,
}

fn is_looser(binding: Binding, place: Place) -> bool
    ensures { result ≡ spec.is_looser binding place }
{
    match binding {
        Binding::Sum => place.is_inside(),
        Binding::Product => place.is_factor(),
        Binding::Atom => false,
        Binding::Call => place.is_negated(),
    }
}

fn placed(place: Place, e: IxExtent) -> Extent
    ensures { result ≡ spec.placed place e }
{
    bracketed_if(is_looser(e.binding, place), e.extent)
}

fn one_token() -> IxExtent
    ensures { result ≡ spec.one_token }
{
    IxExtent {
        extent: some_tokens(1),
        binding: Binding::Atom,
    }
}

fn joined_extent(binding: Binding, a: Extent, b: Extent) -> IxExtent
    ensures { result ≡ spec.joined binding a b }
{
    IxExtent {
        extent: and_tokens(1, beside(a, b)),
        binding,
    }
}

fn negation_extent(a: Extent) -> IxExtent
    ensures { result ≡ spec.negated a }
{
    IxExtent {
        extent: and_tokens(1, a),
        binding: Binding::Sum,
    }
}

fn called(may_stand: bool, inside: Extent) -> IxExtent
    ensures { result ≡ spec.called may_stand inside }
{
    if may_stand {
        IxExtent {
            extent: and_tokens(1, bracketed(inside)),
            binding: Binding::Call,
        }
    } else {
        one_token()
    }
}

fn sum_extent(a: IxExtent, b: IxExtent) -> IxExtent
    ensures { result ≡ spec.sum a b }
{
    joined_extent(
        Binding::Sum,
        placed(Place::Whole, a),
        placed(Place::RightOfSum, b),
    )
}

fn product_extent(a: IxExtent, b: IxExtent) -> IxExtent
    ensures { result ≡ spec.product a b }
{
    joined_extent(
        Binding::Product,
        placed(Place::LeftOfProduct, a),
        placed(Place::RightOfProduct, b),
    )
}

fn choice(prelude: bool, a: IxExtent, b: IxExtent) -> IxExtent
    ensures { result ≡ spec.choice prelude a b }
{
    called(
        prelude,
        and_tokens(1, beside(placed(Place::Whole, a), placed(Place::Whole, b))),
    )
}

fn quotient(may_stand: bool, a: IxExtent) -> IxExtent
    ensures { result ≡ spec.quotient may_stand a }
{
    called(may_stand, and_tokens(2, placed(Place::Whole, a)))
}

#[tactic(auto, using(affc_ast::proofs::Outs::ix_outs))]
fn ix_extent(prelude: bool, e: &Ix) -> IxExtent
    ensures { result ≡ spec.ix_extent prelude e.now }
{
    match e {
        Ix::Lit(_) | Ix::Name(_) => one_token(),
        Ix::Neg(a) => negation_extent(placed(Place::UnderMinus, ix_extent(prelude, a.get()))),
        Ix::Add(a, b) | Ix::Sub(a, b) => {
            sum_extent(ix_extent(prelude, a.get()), ix_extent(prelude, b.get()))
        }
        Ix::Mul(a, b) => product_extent(ix_extent(prelude, a.get()), ix_extent(prelude, b.get())),
        Ix::Min(a, b) | Ix::Max(a, b) | Ix::Mod(a, b) => choice(
            prelude,
            ix_extent(prelude, a.get()),
            ix_extent(prelude, b.get()),
        ),
        Ix::Floord(a, by) | Ix::Ceild(a, by) => {
            quotient(is_divided(prelude, *by), ix_extent(prelude, a.get()))
        }
    }
}

// An expression by itself.
fn whole(prelude: bool, e: &Ix) -> Extent
    ensures { result ≡ spec.whole prelude e.now }
{
    placed(Place::Whole, ix_extent(prelude, e))
}

// Subscripts or extents behind so much.
fn dims_behind(prelude: bool, before: Extent, es: &[Ix]) -> Extent
    ensures { result ≡ spec.dims_behind prelude before es.now }
{
    let mut all = before;
    for e in es {
        all = beside(all, bracketed(whole(prelude, e)));
    }
    all
}

// ---- Conditions

// Sides of a comparison.
fn sides_extent(prelude: bool, left: &Ix, right: &Ix) -> Extent
    ensures { result ≡ spec.sides_extent prelude left.now right.now }
{
    and_tokens(1, beside(whole(prelude, left), whole(prelude, right)))
}

fn compare_extent(prelude: bool, c: &Compare) -> Extent
    ensures { result ≡ spec.compare_extent prelude c.now }
{
    sides_extent(prelude, &c.left, &c.right)
}

fn compares_behind(prelude: bool, before: Extent, cs: &[Compare]) -> Extent
    ensures { result ≡ spec.compares_behind prelude before cs.now }
{
    let mut all = before;
    for c in cs {
        all = and_tokens(1, beside(all, compare_extent(prelude, c)));
    }
    all
}

// How the parts of a condition are joined.
#[derive(Clone, Copy)]
pub enum Joint {
    Alone,
    All,
    Any,
}

// A condition without brackets round it.
#[derive(Clone, Copy)]
pub struct CondExtent {
    extent: Extent,
    joint: Joint,
}

// Whether it has brackets beside `&&`, or beside `||`.
fn has_brackets(all: bool, joint: Joint) -> bool
    ensures { result ≡ spec.has_brackets all joint }
{
    match joint {
        Joint::Alone => false,
        Joint::All => all,
        Joint::Any => true,
    }
}

fn beside_mark(all: bool, c: CondExtent) -> Extent
    ensures { result ≡ spec.beside_mark all c }
{
    bracketed_if(has_brackets(all, c.joint), c.extent)
}

fn joint_of(all: bool) -> Joint
    ensures { result ≡ spec.joint_of all }
{
    if all { Joint::All } else { Joint::Any }
}

fn alone(extent: Extent) -> CondExtent
    ensures { result ≡ spec.alone extent }
{
    CondExtent {
        extent,
        joint: Joint::Alone,
    }
}

fn no_condition() -> CondExtent
    ensures { result ≡ spec.no_condition }
{
    alone(some_tokens(3))
}

// A term, `%`, a number, `==` or `!=`, and `0`.
fn remainder_extent(may_stand: bool, value: Extent) -> CondExtent
    ensures { result ≡ spec.remainder_extent may_stand value }
{
    if may_stand {
        alone(and_tokens(4, value))
    } else {
        no_condition()
    }
}

#[cycle(conditions)]
#[tactic(auto, using(affc_ast::proofs::Outs::cond_outs))]
fn cond_extent(prelude: bool, c: &Cond) -> CondExtent
    ensures { result ≡ spec.cond_extent prelude c.now }
{
    match c {
        Cond::Compare { left, right, .. } => alone(sides_extent(prelude, left, right)),
        Cond::All(entries) => conds_extent(true, prelude, entries.as_slice()),
        Cond::Any(entries) => conds_extent(false, prelude, entries.as_slice()),
        Cond::Divides { value, by, .. } => remainder_extent(
            is_divided(true, *by),
            placed(Place::RightOfSum, ix_extent(prelude, value)),
        ),
    }
}

// A mark stands before each but the first.
#[cycle(conditions)]
fn conds_extent(all: bool, prelude: bool, cs: &[Cond]) -> CondExtent
    ensures { result ≡ spec.joined_extent all (map (spec.cond_extent prelude) cs.now) }
{
    if cs.is_empty() {
        return no_condition();
    }
    let entries = entries_behind(all, prelude, some_tokens(0), cs);
    let marks = cs.len() as u64 - 1;
    CondExtent {
        extent: and_tokens(marks, entries),
        joint: joint_of(all),
    }
}

// Behind so much, conditions that are joined, without the marks.
#[cycle(conditions)]
fn entries_behind(all: bool, prelude: bool, before: Extent, cs: &[Cond]) -> Extent
    ensures { result ≡ spec.entries_behind all before (map (spec.cond_extent prelude) cs.now) }
{
    let mut row = before;
    for c in cs {
        row = beside(row, beside_mark(all, cond_extent(prelude, c)));
    }
    row
}

// ---- Values

// A value without brackets round it, and how loose it is.
#[derive(Clone, Copy)]
pub struct ValExtent {
    extent: Extent,
    level: u8,
}

fn at_level(level: Level, v: ValExtent) -> Extent
    ensures { result ≡ spec.at_level level v }
{
    bracketed_if(level.number() < v.level, v.extent)
}

fn primary(extent: Extent) -> ValExtent
    ensures { result ≡ record { extent = extent; level = 0 } }
{
    ValExtent { extent, level: 0 }
}

#[tactic(auto, using(affc_ast::proofs::Outs::val_outs))]
fn val_extent(prelude: bool, v: &Val) -> ValExtent
    ensures { result ≡ spec.val_extent prelude v.now }
{
    match v {
        Val::Load { subs, .. } => primary(dims_behind(prelude, some_tokens(1), subs.as_slice())),
        Val::Const(_) => primary(some_tokens(1)),
        Val::Cast(e) => primary(and_tokens(3, bracketed(whole(prelude, e)))),
        Val::Not(a) => primary(and_tokens(
            1,
            at_level(Level::Primary, val_extent(prelude, a.get())),
        )),
        Val::Bin { op, left, right } => {
            let left = at_level(left_of(*op), val_extent(prelude, left.get()));
            let right = at_level(right_of(*op), val_extent(prelude, right.get()));
            ValExtent {
                extent: and_tokens(1, beside(left, right)),
                level: level_of(*op),
            }
        }
        Val::Shift { value, .. } => ValExtent {
            extent: and_tokens(
                2,
                at_level(Level::Shifted, val_extent(prelude, value.get())),
            ),
            level: 3,
        },
    }
}

// ---- Statements

// Tokens that end with one of `;` `{` `}` or a line end: how many, the longest run between two of these, how many
// brackets stand open at once, and how many words are `for` or `if`.
#[derive(Clone, Copy)]
pub struct Shape {
    tokens: u64,
    run: u64,
    depth: u64,
    items: u64,
}

fn both(a: Shape, b: Shape) -> Shape
    ensures { result ≡ spec.both a b }
{
    Shape {
        tokens: plus(a.tokens, b.tokens),
        run: larger(a.run, b.run),
        depth: larger(a.depth, b.depth),
        items: plus(a.items, b.items),
    }
}

fn line(more: u64, a: Extent) -> Shape
    ensures { result ≡ spec.line more a }
{
    let run = plus(a.tokens, more);
    Shape {
        tokens: plus(run, 1),
        run,
        depth: a.depth,
        items: 0,
    }
}

// A line without tokens of a part.
fn bare_line(more: u64) -> Shape
    ensures { result ≡ spec.line more spec.nothing }
{
    line(more, some_tokens(0))
}

fn deeper(a: Shape) -> Shape
    ensures { result ≡ spec.deeper a }
{
    Shape {
        tokens: a.tokens,
        run: a.run,
        depth: plus(a.depth, 1),
        items: a.items,
    }
}

fn worded(a: Shape) -> Shape
    ensures { result ≡ spec.worded a }
{
    Shape {
        tokens: a.tokens,
        run: a.run,
        depth: a.depth,
        items: plus(a.items, 1),
    }
}

fn closed(a: Shape) -> Shape
    ensures { result ≡ spec.closed a }
{
    deeper(both(a, bare_line(0)))
}

fn locals_behind(prelude: bool, before: Shape, locals: &[Local]) -> Shape
    ensures { result ≡ spec.locals_behind prelude before locals.now }
{
    if !prelude {
        return before;
    }
    let mut all = before;
    for local in locals {
        all = both(all, line(4, whole(true, &local.value)));
    }
    all
}

fn for_head(prelude: bool, low: &Ix, high: &Ix) -> Shape
    ensures { result ≡ spec.for_head prelude low.now high.now }
{
    let bounds = both(line(5, whole(prelude, low)), line(2, whole(prelude, high)));
    both(bounds, bare_line(3))
}

fn if_head(prelude: bool, c: &Cond) -> Shape
    ensures { result ≡ spec.if_head prelude c.now }
{
    line(3, cond_extent(prelude, c).extent)
}

// The brace that closes a body, and `else {`.
fn else_head() -> Shape
    ensures { result ≡ spec.else_head }
{
    both(bare_line(0), bare_line(1))
}

fn assign_line(prelude: bool, subs: &[Ix], value: &Val) -> Shape
    ensures { result ≡ spec.assign_line prelude subs.now value.now }
{
    let place = dims_behind(prelude, some_tokens(1), subs);
    line(
        1,
        beside(place, at_level(Level::Or, val_extent(prelude, value))),
    )
}

fn block_head(prelude: bool, locals: &[Local]) -> Shape
    ensures { result ≡ spec.block_head prelude locals.now }
{
    locals_behind(prelude, bare_line(0), locals)
}

#[cycle(statements)]
#[tactic(auto, using(affc_ast::proofs::Outs::stmt_outs))]
fn stmt_shape(prelude: bool, s: &Stmt) -> Shape
    ensures { result ≡ spec.stmt_shape prelude s.now }
{
    match s {
        Stmt::For {
            low,
            high,
            body,
            ..
        } => worded(closed(stmts_behind(prelude, for_head(prelude, low, high), body.as_slice()))),
        Stmt::If { cond, body, other } => {
            let body = stmts_behind(prelude, if_head(prelude, cond), body.as_slice());
            worded(closed(branch_behind(prelude, body, other.as_slice())))
        }
        Stmt::Assign { subs, value, .. } => assign_line(prelude, subs.as_slice(), value),
        Stmt::Block { locals, body } => closed(stmts_behind(
            prelude,
            block_head(prelude, locals.as_slice()),
            body.as_slice(),
        )),
    }
}

// Statements behind so much.
#[cycle(statements)]
fn stmts_behind(prelude: bool, before: Shape, body: &[Stmt]) -> Shape
    ensures { result ≡ spec.stmts_behind prelude before body.now }
{
    let mut all = before;
    for s in body {
        all = both(all, stmt_shape(prelude, s));
    }
    all
}

// What follows an `else`, if there is any.
#[cycle(statements)]
fn branch_behind(prelude: bool, before: Shape, other: &[Stmt]) -> Shape
    ensures { result ≡ spec.branch_behind prelude before other.now }
{
    if other.is_empty() {
        before
    } else {
        stmts_behind(prelude, both(before, else_head()), other)
    }
}

// ---- The program

// A sign is a token of its own.
fn end_tokens(n: i64) -> u64
    ensures { result ≡ spec.end_tokens n }
{
    if n < 0 { 2 } else { 1 }
}

fn range_line(low: i64, high: i64) -> Shape
    ensures { result ≡ spec.range_line low high }
{
    bare_line(5 + (end_tokens(low) + end_tokens(high)))
}

fn ranges_behind(before: Shape, params: &[Param]) -> Shape
    ensures { result ≡ spec.ranges_behind before params.now }
{
    let mut all = before;
    for param in params {
        if let Param::Number { low, high, .. } = param {
            all = both(all, range_line(*low, *high));
        }
    }
    all
}

fn context_behind(before: Shape, context: &[Compare]) -> Shape
    ensures { result ≡ spec.context_behind before context.now }
{
    match context {
        [] => before,
        [c, rest @ ..] => both(
            before,
            line(4, compares_behind(true, compare_extent(true, c), rest)),
        ),
    }
}

fn head_tokens(role: Role) -> Extent
    ensures { result ≡ spec.head_tokens role }
{
    match role {
        Role::Input => some_tokens(3),
        Role::Output => some_tokens(2),
        Role::Temp => some_tokens(2),
    }
}

fn array_extent(prelude: bool, role: Role, extents: &[Ix]) -> Extent
    ensures { result ≡ spec.array_extent prelude role extents.now }
{
    let head = head_tokens(role);
    if extents.is_empty() {
        beside(head, bracketed(some_tokens(1)))
    } else {
        dims_behind(prelude, head, extents)
    }
}

fn param_extent(prelude: bool, param: &Param) -> Extent
    ensures { result ≡ spec.param_extent prelude param.now }
{
    match param {
        Param::Number { .. } => some_tokens(2),
        Param::Array(d) => array_extent(prelude, d.role, d.extents.as_slice()),
    }
}

fn params_behind(prelude: bool, before: Extent, params: &[Param]) -> Extent
    ensures { result ≡ spec.params_behind prelude before params.now }
{
    let mut all = before;
    for param in params {
        all = and_tokens(1, beside(all, param_extent(prelude, param)));
    }
    all
}

fn params_extent(prelude: bool, params: &[Param]) -> Extent
    ensures { result ≡ spec.params_extent prelude params.now }
{
    match params {
        [] => some_tokens(2),
        [first, rest @ ..] => params_behind(prelude, param_extent(prelude, first), rest),
    }
}

fn decls_behind(prelude: bool, before: Shape, temps: &[Decl]) -> Shape
    ensures { result ≡ spec.decls_behind prelude before temps.now }
{
    let mut all = before;
    for temp in temps {
        let names = dims_behind(prelude, some_tokens(2), temp.extents.as_slice());
        all = both(all, line(0, names));
    }
    all
}

fn lines_shape(program: &Program) -> Shape
    ensures { result ≡ spec.lines_shape program.now }
{
    context_behind(
        ranges_behind(bare_line(3), program.params.as_slice()),
        program.context.as_slice(),
    )
}

// The head goes on from the prelude.
fn head_line(prelude: bool, params: &[Param]) -> Shape
    ensures { result ≡ spec.head_line prelude params.now }
{
    let before = if prelude { 5 } else { 4 };
    line(before, params_extent(prelude, params))
}

fn function_shape(program: &Program) -> Shape
    ensures { result ≡ spec.function_shape program.now }
{
    let prelude = program.prelude;
    let head = head_line(prelude, program.params.as_slice());
    let decls = decls_behind(prelude, head, program.temps.as_slice());
    closed(stmts_behind(prelude, decls, program.body.as_slice()))
}

fn is_bounded(s: Shape) -> bool
    ensures { result ≡ spec.is_bounded s }
{
    s.tokens <= 16777216 && s.run <= 65536 && (s.depth <= 256 && s.items <= 4096)
}

/// Whether the printed text of a program keeps the limits on its tokens.
pub fn shape_is_bounded(program: &Program) -> bool
    ensures { result ≡ spec.is_bounded (spec.program_shape program.now) }
{
    is_bounded(both(lines_shape(program), function_shape(program)))
}
