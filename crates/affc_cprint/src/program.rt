//! Lines before the function, its head, its declarations and its body.
ghost use Rattle.std.specs.Prelude.{◌≡◌, OnOk, IfOk, string_bytes, codes, [], ◌∷◌};
ghost use Rattle.std.specs.List.{flat_map};
ghost use Rattle.affc_grammar.specs.Printed.{no_names, int_text, param_text, array_text, and_param_name, and_array_name, params_text, is_input};
ghost use Rattle.affc_ast.specs.declared.tree.Param.TheVariants.{Number};
ghost use Rattle.affc_cprint.specs.Adds.{Adds};
ghost use Rattle.affc_cprint.specs.Seen.{seen};
ghost use Rattle.affc_cprint.specs.Layout.{◌then◌, param_layout, params_layout, int_layout, prelude_layout, const_layout, printed_text};
ghost use Rattle.affc_cprint.specs.Statements.{dim_added};
ghost use Rattle.affc_cprint.specs.Programs.{range_added, context_added, params_added, with_param_names, decls_added, with_array_names, function_head, function_added};

use crate::index::{Names, decimal, dims, push};
use crate::stmt::{stmts, tests};
use affc_ast::tree::{Compare, Decl, Ix, Param, Program, Role};
use affc_lex::prelude::PRELUDE;
use std::alloc::{AllocError, Global};

// ---- Lines before the function

fn whole(out: &mut String, n: i64) -> Result<(), AllocError>
    ensures { OnOk result (Adds (string_bytes out.old) (string_bytes out.new) (int_layout (int_text n))) }
{
    if n < 0 {
        push(out, "-")?;
    }
    decimal(out, n.unsigned_abs())
}

#[tactic(auto, using(std::proofs::Common::append_assoc))]
fn spaced(out: &mut String, n: i64) -> Result<(), AllocError>
    ensures { OnOk result (Adds (string_bytes out.old) (string_bytes out.new) (codes " " then int_layout (int_text n))) }
{
    push(out, " ")?;
    whole(out, n)
}

#[tactic(auto, using(std::proofs::Common::append_assoc))]
fn bounds(out: &mut String, low: i64, high: i64) -> Result<(), AllocError>
    ensures { OnOk result (Adds (string_bytes out.old) (string_bytes out.new) (codes " " then int_layout (int_text low) then codes " " then int_layout (int_text high) then codes "\n")) }
{
    spaced(out, low)?;
    spaced(out, high)?;
    push(out, "\n")
}

#[tactic(auto, using(std::proofs::Common::append_assoc))]
fn range_line(out: &mut String, name: &str, low: i64, high: i64) -> Result<(), AllocError>
    ensures { OnOk result (Adds (string_bytes out.old) (string_bytes out.new) (range_added (Number name.now low high))) }
{
    push(out, "#pragma affc param ")?;
    push(out, name)?;
    bounds(out, low, high)
}

fn range(out: &mut String, p: &Param) -> Result<(), AllocError>
    ensures { OnOk result (Adds (string_bytes out.old) (string_bytes out.new) (range_added p.now)) }
{
    match p {
        Param::Number { name, low, high } => range_line(out, name.as_str(), *low, *high),
        Param::Array(_) => Ok(()),
    }
}

// A line for each parameter that is a number.
fn ranges(out: &mut String, params: &[Param]) -> Result<(), AllocError>
    ensures { OnOk result (Adds (string_bytes out.old) (string_bytes out.new) (flat_map range_added params.now)) }
{
    for p in params {
        range(out, p)?;
    }
    Ok(())
}

// One line with all conditions, if there are any.
fn context(out: &mut String, names: &Names<'_>, context: &[Compare]) -> Result<(), AllocError>
    ensures { OnOk result (Adds (string_bytes out.old) (string_bytes out.new) (context_added (seen names.now) context.now)) }
{
    if context.is_empty() {
        return Ok(());
    }
    push(out, "#pragma affc context ")?;
    tests(out, names, context)?;
    push(out, "\n")
}

fn prelude_lines(out: &mut String, prelude: bool) -> Result<(), AllocError>
    ensures { OnOk result (Adds (string_bytes out.old) (string_bytes out.new) (prelude_layout prelude)) }
{
    if prelude { push(out, PRELUDE) } else { Ok(()) }
}

// ---- Parameters

// Brings a parameter in sight.
fn show_param<'a>(names: &mut Names<'a>, p: &'a Param) -> Result<(), AllocError>
    ensures { OnOk result (seen names.new ≡ and_param_name (seen names.old) p.now) }
{
    match p {
        Param::Number { name, .. } => names.numbers.push(name.as_str())?,
        Param::Array(d) => names.arrays.push(d.name.as_str())?,
    }
    Ok(())
}

fn constant(out: &mut String, role: Role) -> Result<(), AllocError>
    ensures { OnOk result (Adds (string_bytes out.old) (string_bytes out.new) (const_layout (is_input role))) }
{
    match role {
        Role::Input => push(out, "const "),
        Role::Output => Ok(()),
        Role::Temp => Ok(()),
    }
}

// An array parameter without extents, which no text has, is written with one.
fn array_param(
    out: &mut String,
    prelude: bool,
    names: &Names<'_>,
    d: &Decl,
) -> Result<(), AllocError>
    ensures { OnOk result (Adds (string_bytes out.old) (string_bytes out.new) (param_layout (array_text prelude (seen names.now) d.now d.now.extents))) }
{
    constant(out, d.role)?;
    push(out, "uint64_t ")?;
    push(out, d.name.as_str())?;
    if d.extents.as_slice().is_empty() {
        return push(out, "[0]");
    }
    dims(out, prelude, names, d.extents.as_slice())
}

fn param(out: &mut String, prelude: bool, names: &Names<'_>, p: &Param) -> Result<(), AllocError>
    ensures { OnOk result (Adds (string_bytes out.old) (string_bytes out.new) (param_layout (param_text prelude (seen names.now) p.now))) }
{
    match p {
        Param::Number { name, .. } => {
            push(out, "int64_t ")?;
            push(out, name.as_str())
        }
        Param::Array(d) => array_param(out, prelude, names, d),
    }
}

// The parameters, each of which sees those before it.
fn params<'a>(
    out: &mut String,
    prelude: bool,
    names: &mut Names<'a>,
    params: &'a [Param],
) -> Result<(), AllocError>
    requires { seen names.now ≡ no_names }
    ensures { OnOk result (Adds (string_bytes out.old) (string_bytes out.new) (params_layout (params_text prelude params.now).0) × (seen names.new ≡ with_param_names no_names params.now)) }
{
    match params {
        [] => push(out, "int64_t "),
        [first, rest @ ..] => {
            param(out, prelude, names, first)?;
            show_param(names, first)?;
            for p in rest {
                push(out, ", ")?;
                param(out, prelude, names, p)?;
                show_param(names, p)?;
            }
            Ok(())
        }
    }
}

// The names of the parameters.
fn param_names<'a>(alloc: Global, params: &'a [Param]) -> Result<Names<'a>, AllocError>
    ensures { IfOk result (λ names. seen names ≡ with_param_names no_names params.now) }
{
    let mut names = no_names(alloc);
    for p in params {
        show_param(&mut names, p)?;
    }
    Ok(names)
}

fn no_names<'a>(alloc: Global) -> Names<'a>
    ensures { seen result ≡ no_names }
{
    Names {
        numbers: Vec::new(alloc),
        arrays: Vec::new(alloc),
    }
}

// ---- The function

fn decl(out: &mut String, prelude: bool, names: &Names<'_>, d: &Decl) -> Result<(), AllocError>
    ensures { OnOk result (Adds (string_bytes out.old) (string_bytes out.new) (codes "  uint64_t " then d.now.name then flat_map (dim_added prelude (seen names.now)) d.now.extents then codes ";\n")) }
{
    push(out, "  uint64_t ")?;
    push(out, d.name.as_str())?;
    dims(out, prelude, names, d.extents.as_slice())?;
    push(out, ";\n")
}

fn show_array<'a>(names: &mut Names<'a>, name: &'a str) -> Result<(), AllocError>
    ensures { OnOk result (seen names.new ≡ and_array_name (seen names.old) name.now) }
{
    names.arrays.push(name)?;
    Ok(())
}

// A declaration for each temporary, which sees those before it.
fn decls<'a>(
    out: &mut String,
    prelude: bool,
    names: &mut Names<'a>,
    temps: &'a [Decl],
) -> Result<(), AllocError>
    ensures { OnOk result (Adds (string_bytes out.old) (string_bytes out.new) (decls_added prelude (seen names.old) temps.now) × (seen names.new ≡ with_array_names (seen names.old) temps.now)) }
{
    for d in temps {
        decl(out, prelude, names, d)?;
        show_array(names, d.name.as_str())?;
    }
    Ok(())
}

fn head<'a>(
    out: &mut String,
    prelude: bool,
    names: &mut Names<'a>,
    name: &str,
    list: &'a [Param],
) -> Result<(), AllocError>
    requires { seen names.now ≡ no_names }
    ensures { OnOk result (Adds (string_bytes out.old) (string_bytes out.new) (function_head prelude name.now list.now) × (seen names.new ≡ with_param_names no_names list.now)) }
{
    push(out, "void ")?;
    push(out, name)?;
    push(out, "(")?;
    params(out, prelude, names, list)?;
    push(out, ") {\n")
}

fn function(alloc: Global, out: &mut String, program: &Program) -> Result<(), AllocError>
    ensures { OnOk result (Adds (string_bytes out.old) (string_bytes out.new) (function_added program.now.prelude program.now)) }
{
    let prelude = program.prelude;
    let mut names = no_names(alloc);
    head(
        out,
        prelude,
        &mut names,
        program.name.as_str(),
        program.params.as_slice(),
    )?;
    decls(out, prelude, &mut names, program.temps.as_slice())?;
    stmts(out, prelude, &mut names, program.body.as_slice(), 1)?;
    push(out, "}\n")
}

fn before_function(alloc: Global, out: &mut String, program: &Program) -> Result<(), AllocError>
    ensures { OnOk result (Adds (string_bytes out.old) (string_bytes out.new) (codes "#include <stdint.h>\n" then flat_map range_added program.now.params then context_added (with_param_names no_names program.now.params) program.now.context then prelude_layout program.now.prelude)) }
{
    let names = param_names(alloc, program.params.as_slice())?;
    push(out, "#include <stdint.h>\n")?;
    ranges(out, program.params.as_slice())?;
    context(out, &names, program.context.as_slice())?;
    prelude_lines(out, program.prelude)
}

/// The text of a program.
pub fn text(alloc: Global, program: &Program) -> Result<String, AllocError>
    ensures { IfOk result (λ s. string_bytes s ≡ printed_text program.now) }
{
    let mut out = String::new(alloc);
    before_function(alloc, &mut out, program)?;
    function(alloc, &mut out, program)?;
    Ok(out)
}
