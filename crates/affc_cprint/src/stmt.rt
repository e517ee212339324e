//! Conditions, locals and statements.
ghost use Rattle.std.specs.Prelude.{◌≡◌, ◌+◌, ◌++◌, OnOk, IfOk, string_bytes, codes, length, map, not, ◌&&◌, [], if◌then◌else◌};
ghost use Rattle.std.specs.List.{flat_map};
ghost use Rattle.affc_ast.specs.Joined.{is_ordered};
ghost use Rattle.affc_grammar.specs.Grammar.{rel_mark, zero_mark, assign_mark, bound_mark};
ghost use Rattle.affc_grammar.specs.Printed.{is_less, test_text, stmt_text};
ghost use Rattle.affc_cprint.specs.Adds.{Adds};
ghost use Rattle.affc_cprint.specs.Seen.{seen};
ghost use Rattle.affc_cprint.specs.Forms.{is_none};
ghost use Rattle.affc_cprint.specs.Layout.{◌then◌, prim_layout, indent, stmt_layout};
ghost use Rattle.affc_grammar.specs.Printed.{and_number};
ghost use Rattle.affc_cprint.specs.Standings.{cond_at, written, comparison_layout, remainder_layout, entries_layout};
ghost use Rattle.affc_cprint.specs.Statements.{first_numbers, head_layout, if_layout, assign_layout, line_added, local_added, locals_added, tests_added, with_locals};

use crate::brackets::{Level, Place, Standing, is_divided};
use crate::index::{Names, close, decimal, dims, ix, open, push};
use crate::value::{array, value};
use affc_ast::tree::{ArrayId, Compare, Cond, Ix, Local, Op, Rel, Stmt, Val};
use std::alloc::AllocError;

fn relation(out: &mut String, rel: Rel) -> Result<(), AllocError>
    ensures { OnOk result (Adds (string_bytes out.old) (string_bytes out.new) (codes " " then rel_mark rel then codes " ")) }
{
    match rel {
        Rel::Less => push(out, " < "),
        Rel::LessEqual => push(out, " <= "),
        Rel::Greater => push(out, " > "),
        Rel::GreaterEqual => push(out, " >= "),
        Rel::Equal => push(out, " == "),
        Rel::NotEqual => push(out, " != "),
    }
}

// Of a loop, whose test is `<` or `<=`.
fn bound(out: &mut String, rel: Rel) -> Result<(), AllocError>
    ensures { OnOk result (Adds (string_bytes out.old) (string_bytes out.new) (codes " " then bound_mark (is_less rel) then codes " ")) }
{
    match rel {
        Rel::Less => push(out, " < "),
        Rel::LessEqual | Rel::Greater | Rel::GreaterEqual | Rel::Equal | Rel::NotEqual => push(
            out, " <= ",
        ),
    }
}

fn assignment(out: &mut String, op: Option<Op>) -> Result<(), AllocError>
    ensures { OnOk result (Adds (string_bytes out.old) (string_bytes out.new) (codes " " then assign_mark op then codes " ")) }
{
    match op {
        None => push(out, " = "),
        Some(Op::Mul) => push(out, " *= "),
        Some(Op::Add) => push(out, " += "),
        Some(Op::Sub) => push(out, " -= "),
        Some(Op::And) => push(out, " &= "),
        Some(Op::Xor) => push(out, " ^= "),
        Some(Op::Or) => push(out, " |= "),
    }
}

// ---- Conditions

#[tactic(auto, using(std::proofs::Common::append_assoc))]
fn comparison(
    out: &mut String,
    prelude: bool,
    names: &Names<'_>,
    left: &Ix,
    rel: Rel,
    right: &Ix,
) -> Result<(), AllocError>
    ensures { OnOk result (Adds (string_bytes out.old) (string_bytes out.new) (comparison_layout prelude (seen names.now) left.now rel right.now)) }
{
    ix(out, prelude, names, left, Place::Whole)?;
    relation(out, rel)?;
    ix(out, prelude, names, right, Place::Whole)
}

// Where a remainder is to be 0, or not.
fn zero(out: &mut String, so: bool) -> Result<(), AllocError>
    ensures { OnOk result (Adds (string_bytes out.old) (string_bytes out.new) (codes " " then zero_mark so then codes " 0")) }
{
    if so {
        push(out, " == 0")
    } else {
        push(out, " != 0")
    }
}

// A remainder by 0, which no text has, is written as a condition that is false.
fn remainder(
    out: &mut String,
    prelude: bool,
    names: &Names<'_>,
    of: &Ix,
    by: i64,
    so: bool,
) -> Result<(), AllocError>
    ensures { OnOk result (Adds (string_bytes out.old) (string_bytes out.new) (remainder_layout prelude (seen names.now) of.now by so)) }
{
    if !is_divided(true, by) {
        return push(out, "0 < 0");
    }
    ix(out, prelude, names, of, Place::RightOfSum)?;
    push(out, " % ")?;
    decimal(out, by.unsigned_abs())?;
    zero(out, so)
}

// A mark, where it is wanted.
fn between(out: &mut String, mark: &str, wanted: bool) -> Result<(), AllocError>
    ensures { OnOk result (Adds (string_bytes out.old) (string_bytes out.new) (if wanted then mark.now else [])) }
{
    if wanted { push(out, mark) } else { Ok(()) }
}

// Whether conditions have brackets: where they are joined with others, and there are some.
fn is_wrapped(joined: bool, list: &[Cond]) -> bool
    ensures { result ≡ (joined && not (is_none list.now)) }
{
    joined && !list.is_empty()
}

/// A condition where it stands.
#[cycle(conditions)]
fn cond(
    out: &mut String,
    prelude: bool,
    names: &Names<'_>,
    c: &Cond,
    place: Standing,
) -> Result<(), AllocError>
    ensures { OnOk result (Adds (string_bytes out.old) (string_bytes out.new) (cond_at place (written prelude (seen names.now) c.now))) }
{
    match c {
        Cond::Compare { left, rel, right } => comparison(out, prelude, names, left, *rel, right),
        Cond::Divides { value: of, by, yes } => remainder(out, prelude, names, of, *by, *yes),
        Cond::All(list) => {
            let wanted = is_wrapped(place.is_in_all(), list.as_slice());
            open(out, wanted)?;
            entries(
                out,
                prelude,
                names,
                list.as_slice(),
                " && ",
                Standing::InAll,
            )?;
            close(out, wanted)
        }
        Cond::Any(list) => {
            let wanted = is_wrapped(place.is_joined(), list.as_slice());
            open(out, wanted)?;
            entries(
                out,
                prelude,
                names,
                list.as_slice(),
                " || ",
                Standing::InAny,
            )?;
            close(out, wanted)
        }
    }
}

/// Conditions with a mark between them. Of none, which no text joins, one that is false is written.
#[cycle(conditions)]
fn entries(
    out: &mut String,
    prelude: bool,
    names: &Names<'_>,
    list: &[Cond],
    mark: &str,
    place: Standing,
) -> Result<(), AllocError>
    ensures { OnOk result (Adds (string_bytes out.old) (string_bytes out.new) (entries_layout mark.now place (map (written prelude (seen names.now)) list.now))) }
{
    if list.is_empty() {
        return push(out, "0 < 0");
    }
    let mut is_later = false;
    for c in list {
        between(out, mark, is_later)?;
        is_later = true;
        cond(out, prelude, names, c, place)?;
    }
    Ok(())
}

// A condition of a `context` line. `!=`, which none has, is written as a condition that is false.
#[tactic(auto, using(crate::proofs::Joined::test_pieces))]
fn test(out: &mut String, names: &Names<'_>, c: &Compare) -> Result<(), AllocError>
    ensures { OnOk result (Adds (string_bytes out.old) (string_bytes out.new) (prim_layout (test_text (seen names.now) c.now))) }
{
    if is_ordered(c.rel) {
        comparison(out, true, names, &c.left, c.rel, &c.right)
    } else {
        push(out, "0 < 0")
    }
}

fn is_ordered(rel: Rel) -> bool
    ensures { result ≡ is_ordered rel }
{
    !matches!(rel, Rel::NotEqual)
}

// The conditions of a `context` line.
pub fn tests(out: &mut String, names: &Names<'_>, tests: &[Compare]) -> Result<(), AllocError>
    ensures { OnOk result (Adds (string_bytes out.old) (string_bytes out.new) (tests_added (seen names.now) tests.now)) }
{
    match tests {
        [] => Ok(()),
        [c, rest @ ..] => {
            test(out, names, c)?;
            for c in rest {
                push(out, " && ")?;
                test(out, names, c)?;
            }
            Ok(())
        }
    }
}

// ---- Statements

// Two spaces for each level.
#[tactic(auto, using(crate::proofs::Chains::indent_more))]
pub fn indent(out: &mut String, level: usize) -> Result<(), AllocError>
    ensures { OnOk result (Adds (string_bytes out.old) (string_bytes out.new) (indent level)) }
{
    if level == 0 {
        return Ok(());
    }
    push(out, "  ")?;
    indent(out, level - 1)
}

#[tactic(auto, using(std::proofs::Common::append_assoc))]
fn head(
    out: &mut String,
    prelude: bool,
    names: &Names<'_>,
    i: &str,
    low: &Ix,
    rel: Rel,
    high: &Ix,
) -> Result<(), AllocError>
    ensures { OnOk result (Adds (string_bytes out.old) (string_bytes out.new) (head_layout prelude (seen names.now) i.now low.now rel high.now)) }
{
    push(out, "for (int64_t ")?;
    push(out, i)?;
    push(out, " = ")?;
    ix(out, prelude, names, low, Place::Whole)?;
    push(out, "; ")?;
    push(out, i)?;
    bound(out, rel)?;
    ix(out, prelude, names, high, Place::Whole)?;
    push(out, "; ")?;
    push(out, i)?;
    push(out, "++) {\n")
}

// A local, which is written with the prelude only.
fn local(
    out: &mut String,
    prelude: bool,
    names: &Names<'_>,
    l: &Local,
    level: usize,
) -> Result<(), AllocError>
    ensures { OnOk result (Adds (string_bytes out.old) (string_bytes out.new) (local_added prelude level (seen names.now) l.now)) }
{
    if !prelude {
        return Ok(());
    }
    indent(out, level)?;
    push(out, "const int64_t ")?;
    push(out, l.name.as_str())?;
    push(out, " = ")?;
    ix(out, prelude, names, &l.value, Place::Whole)?;
    push(out, ";\n")
}

// Brings a name in sight.
fn show<'a>(names: &mut Names<'a>, name: &'a str) -> Result<(), AllocError>
    ensures { OnOk result (seen names.new ≡ and_number (seen names.old) name.now) }
{
    names.numbers.push(name)?;
    Ok(())
}

// Locals in order; each is in sight behind itself.
fn locals<'a>(
    out: &mut String,
    prelude: bool,
    names: &mut Names<'a>,
    list: &'a [Local],
    level: usize,
) -> Result<(), AllocError>
    ensures { OnOk result (Adds (string_bytes out.old) (string_bytes out.new) (locals_added prelude level (seen names.old) list.now) × (seen names.new ≡ with_locals (seen names.old) list.now)) }
{
    for one in list {
        local(out, prelude, names, one, level)?;
        show(names, one.name.as_str())?;
    }
    Ok(())
}

fn assign(
    out: &mut String,
    prelude: bool,
    names: &Names<'_>,
    op: Option<Op>,
    id: ArrayId,
    subs: &[Ix],
    v: &Val,
) -> Result<(), AllocError>
    ensures { OnOk result (Adds (string_bytes out.old) (string_bytes out.new) (assign_layout prelude (seen names.now) op id subs.now v.now)) }
{
    array(out, names, id)?;
    dims(out, prelude, names, subs)?;
    assignment(out, op)?;
    value(out, prelude, names, v, Level::Or)?;
    push(out, ";\n")
}

// The end of a body.
fn end(out: &mut String, level: usize) -> Result<(), AllocError>
    ensures { OnOk result (Adds (string_bytes out.old) (string_bytes out.new) (indent level then codes "}\n")) }
{
    indent(out, level)?;
    push(out, "}\n")
}

// The end of a body behind which the other of an `if` stands.
fn before_other(out: &mut String, level: usize) -> Result<(), AllocError>
    ensures { OnOk result (Adds (string_bytes out.old) (string_bytes out.new) (indent level then codes "} else {\n")) }
{
    indent(out, level)?;
    push(out, "} else {\n")
}

fn deeper(level: usize) -> Result<usize, AllocError>
    ensures { IfOk result (λ n. n ≡ level + 1) }
{
    match level.checked_add(1) {
        Some(n) => Ok(n),
        None => Err(AllocError),
    }
}

fn held(names: &Names<'_>) -> usize
    ensures { result ≡ length (seen names.now).numbers }
{
    names.numbers.len()
}

// Takes the later names out of sight.
#[tactic(auto, using(crate::proofs::Arms::taken))]
fn restore(names: &mut Names<'_>, held: usize)
    ensures { seen names.new ≡ first_numbers held (seen names.old) }
{
    names.numbers.truncate(held)
}

// The head of a loop, whose iterator is in sight behind it.
fn loop_head<'a>(
    out: &mut String,
    prelude: bool,
    names: &mut Names<'a>,
    i: &'a str,
    low: &Ix,
    rel: Rel,
    high: &Ix,
) -> Result<(), AllocError>
    ensures { OnOk result (Adds (string_bytes out.old) (string_bytes out.new) (head_layout prelude (seen names.old) i.now low.now rel high.now) × (seen names.new ≡ and_number (seen names.old) i.now)) }
{
    head(out, prelude, names, i, low, rel, high)?;
    show(names, i)
}

// What stands before the body of an `if`.
fn if_head(out: &mut String, prelude: bool, names: &Names<'_>, c: &Cond) -> Result<(), AllocError>
    ensures { OnOk result (Adds (string_bytes out.old) (string_bytes out.new) (if_layout prelude (seen names.now) c.now)) }
{
    push(out, "if (")?;
    cond(out, prelude, names, c, Standing::Alone)?;
    push(out, ") {\n")
}

// The beginning of a block, whose locals are in sight behind it.
fn block_head<'a>(
    out: &mut String,
    prelude: bool,
    names: &mut Names<'a>,
    list: &'a [Local],
    level: usize,
) -> Result<(), AllocError>
    ensures { OnOk result (Adds (string_bytes out.old) (string_bytes out.new) (codes "{\n" ++ locals_added prelude level (seen names.old) list.now) × (seen names.new ≡ with_locals (seen names.old) list.now)) }
{
    push(out, "{\n")?;
    locals(out, prelude, names, list, level)
}

/// A statement behind its indent. The names in sight are those from before.
#[cycle(statements)]
pub fn stmt<'a>(
    out: &mut String,
    prelude: bool,
    names: &mut Names<'a>,
    s: &'a Stmt,
    level: usize,
) -> Result<(), AllocError>
    ensures { OnOk result (Adds (string_bytes out.old) (string_bytes out.new) (stmt_layout level (stmt_text prelude s.now (seen names.old))) × (seen names.new ≡ seen names.old)) }
{
    match s {
        Stmt::For {
            iter,
            low,
            rel,
            high,
            body,
        } => {
            let inner = deeper(level)?;
            let held = held(names);
            loop_head(out, prelude, names, iter.as_str(), low, *rel, high)?;
            stmts(out, prelude, names, body.as_slice(), inner)?;
            restore(names, held);
            end(out, level)
        }
        Stmt::If {
            cond: c,
            body,
            other,
        } => {
            let inner = deeper(level)?;
            if_head(out, prelude, names, c)?;
            stmts(out, prelude, names, body.as_slice(), inner)?;
            if other.as_slice().is_empty() {
                return end(out, level);
            }
            before_other(out, level)?;
            stmts(out, prelude, names, other.as_slice(), inner)?;
            end(out, level)
        }
        Stmt::Assign {
            op,
            array: id,
            subs,
            value: v,
        } => { assign(out, prelude, names, *op, *id, subs.as_slice(), v) }
        Stmt::Block { locals: ls, body } => {
            let inner = deeper(level)?;
            let held = held(names);
            block_head(out, prelude, names, ls.as_slice(), inner)?;
            stmts(out, prelude, names, body.as_slice(), inner)?;
            restore(names, held);
            end(out, level)
        }
    }
}

/// The statements of a body, each behind its indent.
#[cycle(statements)]
pub fn stmts<'a>(
    out: &mut String,
    prelude: bool,
    names: &mut Names<'a>,
    body: &'a [Stmt],
    level: usize,
) -> Result<(), AllocError>
    ensures { OnOk result (Adds (string_bytes out.old) (string_bytes out.new) (flat_map (line_added prelude level (seen names.old)) body.now) × (seen names.new ≡ seen names.old)) }
{
    for line in body {
        indent(out, level)?;
        stmt(out, prelude, names, line, level)?;
    }
    Ok(())
}
