//! Values.
ghost use Rattle.std.specs.Prelude.{◌≡◌, ◌++◌, OnOk, string_bytes, codes, nat_lt, decimal as digits_of};
ghost use Rattle.std.specs.List.{flat_map};
ghost use Rattle.affc_ast.specs.Recursion.{by_val};
ghost use Rattle.affc_grammar.specs.Grammar as grammar;
ghost use Rattle.affc_grammar.specs.Grammar.{op_mark, shift_mark};
ghost use Rattle.affc_grammar.specs.Printed.{value_step, array_name, ix_text};
ghost use Rattle.affc_cprint.specs.Adds.{Adds};
ghost use Rattle.affc_cprint.specs.Seen.{seen};
ghost use Rattle.affc_cprint.specs.Layout.{◌then◌, ix_layout};
ghost use Rattle.affc_cprint.specs.Levels.{value_at, number_of, amount_layout, binary_layout, shift_layout};
ghost use Rattle.affc_cprint.specs.Places.{bracketed};
ghost use Rattle.affc_cprint.specs.Statements.{dim_added};
ghost use Rattle.affc_cprint.specs.declared.brackets.Level.TheVariants.{Primary};

use crate::brackets::{Level, Place, left_of, level_of, right_of};
use crate::index::{Names, close, decimal, dims, ix, name_of, open, push};
use affc_ast::tree::{ArrayId, Ix, Op, Val};
use std::alloc::AllocError;

fn operator(out: &mut String, op: Op) -> Result<(), AllocError>
    ensures { OnOk result (Adds (string_bytes out.old) (string_bytes out.new) (codes " " then op_mark op then codes " ")) }
{
    match op {
        Op::Mul => push(out, " * "),
        Op::Add => push(out, " + "),
        Op::Sub => push(out, " - "),
        Op::And => push(out, " & "),
        Op::Xor => push(out, " ^ "),
        Op::Or => push(out, " | "),
    }
}

fn shift_operator(out: &mut String, left: bool) -> Result<(), AllocError>
    ensures { OnOk result (Adds (string_bytes out.old) (string_bytes out.new) (codes " " then shift_mark left then codes " ")) }
{
    if left {
        push(out, " << ")
    } else {
        push(out, " >> ")
    }
}

// A shift past 63, which no text has, is written as one by 0.
#[tactic(auto, using(crate::proofs::Numbers::shift_of))]
fn amount(out: &mut String, by: u8) -> Result<(), AllocError>
    ensures { OnOk result (Adds (string_bytes out.old) (string_bytes out.new) (amount_layout by)) }
{
    if by <= 63 {
        decimal(out, by as u64)
    } else {
        push(out, "0")
    }
}

pub fn array(out: &mut String, names: &Names<'_>, id: ArrayId) -> Result<(), AllocError>
    ensures { OnOk result (Adds (string_bytes out.old) (string_bytes out.new) (array_name (seen names.now) id)) }
{
    push(out, name_of(names.arrays.as_slice(), id.0))
}

// A load of an array, and its subscripts.
fn load(
    out: &mut String,
    prelude: bool,
    names: &Names<'_>,
    id: ArrayId,
    subs: &[Ix],
) -> Result<(), AllocError>
    ensures { OnOk result (Adds (string_bytes out.old) (string_bytes out.new) (array_name (seen names.now) id ++ flat_map (dim_added prelude (seen names.now)) subs.now)) }
{
    array(out, names, id)?;
    dims(out, prelude, names, subs)
}

// A number as a value.
fn constant(out: &mut String, n: u64) -> Result<(), AllocError>
    ensures { OnOk result (Adds (string_bytes out.old) (string_bytes out.new) (digits_of n ++ codes "ULL")) }
{
    decimal(out, n)?;
    push(out, "ULL")
}

// A whole number as a value.
#[tactic(auto, using(std::proofs::Common::append_assoc))]
fn cast(out: &mut String, prelude: bool, names: &Names<'_>, e: &Ix) -> Result<(), AllocError>
    ensures { OnOk result (Adds (string_bytes out.old) (string_bytes out.new) (codes "(uint64_t)(" then ix_layout (ix_text prelude (seen names.now) e.now) then codes ")")) }
{
    push(out, "(uint64_t)(")?;
    ix(out, prelude, names, e, Place::Whole)?;
    push(out, ")")
}

/// A value where it stands. The recursion goes through the functions of one operator each.
#[cycle(value)]
pub fn value(
    out: &mut String,
    prelude: bool,
    names: &Names<'_>,
    v: &Val,
    level: Level,
) -> Result<(), AllocError>
    ensures { OnOk result (Adds (string_bytes out.old) (string_bytes out.new) (value_at level (by_val (value_step prelude (seen names.now)) v.now))) }
{
    match v {
        Val::Load { array: id, subs } => load(out, prelude, names, *id, subs.as_slice()),
        Val::Const(n) => constant(out, *n),
        Val::Cast(e) => cast(out, prelude, names, e),
        Val::Not(a) => complement(out, prelude, names, a.get()),
        Val::Bin { op, left, right } => {
            binary(out, prelude, names, *op, left.get(), right.get(), level)
        }
        Val::Shift { left, value: a, by } => {
            shifted(out, prelude, names, *left, a.get(), *by, level)
        }
    }
}

/// A value under a `~`.
#[cycle(value)]
fn complement(out: &mut String, prelude: bool, names: &Names<'_>, a: &Val) -> Result<(), AllocError>
    ensures { OnOk result (Adds (string_bytes out.old) (string_bytes out.new) (codes "~" ++ value_at Primary (by_val (value_step prelude (seen names.now)) a.now))) }
{
    push(out, "~")?;
    value(out, prelude, names, a, Level::Primary)
}

/// Two values with an operator between them.
#[cycle(value)]
fn binary(
    out: &mut String,
    prelude: bool,
    names: &Names<'_>,
    op: Op,
    left: &Val,
    right: &Val,
    level: Level,
) -> Result<(), AllocError>
    ensures { OnOk result (Adds (string_bytes out.old) (string_bytes out.new) (bracketed (nat_lt (number_of level) (grammar.level_of op)) (binary_layout op (by_val (value_step prelude (seen names.now)) left.now) (by_val (value_step prelude (seen names.now)) right.now)))) }
{
    let wanted = level.number() < level_of(op);
    open(out, wanted)?;
    value(out, prelude, names, left, left_of(op))?;
    operator(out, op)?;
    value(out, prelude, names, right, right_of(op))?;
    close(out, wanted)
}

/// A value that is shifted.
#[cycle(value)]
fn shifted(
    out: &mut String,
    prelude: bool,
    names: &Names<'_>,
    left: bool,
    a: &Val,
    by: u8,
    level: Level,
) -> Result<(), AllocError>
    ensures { OnOk result (Adds (string_bytes out.old) (string_bytes out.new) (bracketed (nat_lt (number_of level) 3) (shift_layout left (by_val (value_step prelude (seen names.now)) a.now) by))) }
{
    let wanted = level.number() < 3;
    open(out, wanted)?;
    value(out, prelude, names, a, Level::Shifted)?;
    shift_operator(out, left)?;
    amount(out, by)?;
    close(out, wanted)
}
