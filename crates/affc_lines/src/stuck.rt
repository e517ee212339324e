//! The line that says why a run is stuck.
ghost use Rattle.std.specs.Prelude.{◌≡◌, ◌++◌, ◌∷◌, [], OnOk, IfOk, MatchResult, map, flat_map, codes, string_bytes};
ghost use Rattle.affc_ast.specs.Recursion.{by_stmt};
ghost use Rattle.affc_ast.specs.Trace.{assignments_step};
ghost use Rattle.affc_interp.specs.Arrays.{values_in};
ghost use Rattle.affc_interp.specs.Begun.{stop_of};
ghost use Rattle.affc_lines.specs.Stuck.{ArraysAreTouched, array_name, arrays_loaded, own_array, arrays_accessed, array_of, numbers_text, array_text, iterators_text, instance_text, access_text};
ghost use Rattle.affc_lines.specs.Told.{RefusesStop};
ghost use Rattle.affc_lines.specs.declared.refusal.Refusal.TheVariants.{Stuck, Memory};

use crate::refusal::Refusal;
use affc_ast::text::Text;
use affc_ast::tree::{ArrayId, Instance, Op, Param, Program, Stmt, Val};
use affc_interp::run::RunFault;
use std::alloc::{AllocError, Global};

// ---- The array that is meant

/// A law: the line names the array that the access touches.
pub fn arrays_are_touched()
    ensures { ArraysAreTouched }
{}

/// The name of the array of this number, or nothing where there is none.
pub fn array_name(program: &Program, array: u32) -> &str
    ensures { result.now ≡ array_name program.now array }
{
    let mut left = array as usize;
    for param in program.params.as_slice() {
        match param {
            Param::Number {
                name: _,
                low: _,
                high: _,
            } => {}
            Param::Array(decl) => {
                if left == 0 {
                    return decl.name.as_str();
                }
                left -= 1;
            }
        }
    }
    match program.temps.as_slice().get(left) {
        Some(decl) => decl.name.as_str(),
        None => "",
    }
}

// Adds the arrays that the value loads from.
#[tactic(auto, using(affc_ast::proofs::Outs::val_outs))]
fn add_loaded(arrays: &mut Vec<u32>, value: &Val) -> Result<(), AllocError>
    ensures { OnOk result (arrays.new.items ≡ arrays.old.items ++ arrays_loaded value.now) }
{
    match value {
        Val::Load { array, subs: _ } => {
            arrays.push(array.0)?;
            Ok(())
        }
        Val::Const(_) => Ok(()),
        Val::Cast(_) => Ok(()),
        Val::Not(a) => add_loaded(arrays, a.get()),
        Val::Bin { op: _, left, right } => {
            add_loaded(arrays, left.get())?;
            add_loaded(arrays, right.get())
        }
        Val::Shift {
            left: _,
            value,
            by: _,
        } => add_loaded(arrays, value.get()),
    }
}

// The array of each access of an assignment.
fn accessed(
    alloc: Global,
    op: Option<Op>,
    array: ArrayId,
    value: &Val,
) -> Result<Vec<u32>, AllocError>
    ensures { IfOk result (λ arrays. arrays.items ≡ own_array op array.0 ++ arrays_loaded value.now ++ array.0 ∷ []) }
{
    let mut arrays = Vec::new(alloc);
    if op.is_some() {
        arrays.push(array.0)?;
    }
    add_loaded(&mut arrays, value)?;
    arrays.push(array.0)?;
    Ok(arrays)
}

// Adds those of each assignment in the statement.
#[cycle(add_accessed)]
fn add_accessed(alloc: Global, each: &mut Vec<Vec<u32>>, stmt: &Stmt) -> Result<(), AllocError>
    ensures { OnOk result (values_in each.new.items ≡ values_in each.old.items ++ map arrays_accessed (by_stmt assignments_step stmt.now)) }
{
    match stmt {
        Stmt::Assign {
            op,
            array,
            subs: _,
            value,
        } => {
            let arrays = accessed(alloc, *op, *array, value)?;
            each.push(arrays)?;
            Ok(())
        }
        Stmt::For {
            iter: _,
            low: _,
            rel: _,
            high: _,
            body,
        } => add_each_accessed(alloc, each, body.as_slice()),
        Stmt::If {
            cond: _,
            body,
            other,
        } => {
            add_each_accessed(alloc, each, body.as_slice())?;
            add_each_accessed(alloc, each, other.as_slice())
        }
        Stmt::Block { locals: _, body } => add_each_accessed(alloc, each, body.as_slice()),
    }
}

// The same for statements one after the other.
#[cycle(add_accessed)]
fn add_each_accessed(
    alloc: Global,
    each: &mut Vec<Vec<u32>>,
    stmts: &[Stmt],
) -> Result<(), AllocError>
    ensures { OnOk result (values_in each.new.items ≡ values_in each.old.items ++ map arrays_accessed (flat_map (by_stmt assignments_step) stmts.now)) }
{
    for stmt in stmts {
        add_accessed(alloc, each, stmt)?;
    }
    Ok(())
}

// The array of an access of this number in the statement of this number.
fn array_of(
    alloc: Global,
    program: &Program,
    statement: u32,
    access: u32,
) -> Result<u32, AllocError>
    ensures { IfOk result (λ array. array ≡ array_of program.now statement access) }
{
    let mut each = Vec::new(alloc);
    add_each_accessed(alloc, &mut each, program.body.as_slice())?;
    let Some(arrays) = each.get(statement as usize) else {
        return Ok(0);
    };
    match arrays.get(access as usize) {
        Some(array) => Ok(*array),
        None => Ok(0),
    }
}

// ---- Its words

/// Adds the number parameters with their values.
pub fn add_numbers(
    line: &mut String,
    before: &str,
    params: &[Param],
    p: &[i64],
) -> Result<(), AllocError>
    ensures { OnOk result (string_bytes line.new ≡ string_bytes line.old ++ numbers_text before.now params.now p.now) }
{
    match params {
        [] => Ok(()),
        [Param::Array(_), others @ ..] => add_numbers(line, before, others, p),
        [
            Param::Number {
                name,
                low: _,
                high: _,
            },
            others @ ..,
        ] => match p {
            [] => Ok(()),
            [x, rest @ ..] => {
                let name = name.as_str();
                write!(line, "{before}{name}={x}")?;
                add_numbers(line, " ", others, rest)
            }
        },
    }
}

fn add_array(line: &mut String, program: &Program, p: &[i64], array: u32) -> Result<(), AllocError>
    ensures { OnOk result (string_bytes line.new ≡ string_bytes line.old ++ array_text program.now p.now array) }
{
    line.push_str(array_name(program, array))?;
    add_numbers(line, " at ", program.params.as_slice(), p)
}

fn add_iterators(line: &mut String, before: &str, iterators: &[i64]) -> Result<(), AllocError>
    ensures { OnOk result (string_bytes line.new ≡ string_bytes line.old ++ iterators_text before.now iterators.now) }
{
    match iterators {
        [] => Ok(()),
        [x, rest @ ..] => {
            write!(line, "{before}{x}")?;
            add_iterators(line, ", ", rest)
        }
    }
}

/// Adds an instance.
pub fn add_instance(line: &mut String, instance: &Instance) -> Result<(), AllocError>
    ensures { OnOk result (string_bytes line.new ≡ string_bytes line.old ++ instance_text instance.now) }
{
    let statement = instance.statement;
    write!(line, "S{statement}(")?;
    add_iterators(line, "", instance.iterators.as_slice())?;
    line.push_str(")")
}

/// A line about an access.
pub fn access_line(
    alloc: Global,
    head: &str,
    program: &Program,
    p: &[i64],
    instance: &Instance,
    access: u32,
) -> Result<String, AllocError>
    ensures { IfOk result (λ line. string_bytes line ≡ head.now ++ access_text program.now p.now instance.now access) }
{
    let array = array_of(alloc, program, instance.statement, access)?;
    let mut line = String::from_str(alloc, head)?;
    add_array(&mut line, program, p, array)?;
    line.push_str(" in ")?;
    add_instance(&mut line, instance)?;
    write!(line, " access {access}")?;
    Ok(line)
}

/// A line about the extents of an array.
pub fn extent_line(
    alloc: Global,
    program: &Program,
    p: &[i64],
    array: u32,
) -> Result<String, AllocError>
    ensures { IfOk result (λ line. string_bytes line ≡ codes "affc: extent of " ++ array_text program.now p.now array) }
{
    let mut line = String::from_str(alloc, "affc: extent of ")?;
    add_array(&mut line, program, p, array)?;
    Ok(line)
}

fn stuck(line: Result<String, AllocError>) -> Refusal
    ensures { MatchResult line (λ line. result ≡ Stuck (string_bytes line)) (λ _. result ≡ Memory) }
{
    match line {
        Ok(line) => Refusal::Stuck(Text::from_string(line)),
        Err(_) => Refusal::Memory,
    }
}

/// The refusal of a run of the program with these numbers that stops so.
pub fn refusal_of(alloc: Global, program: &Program, p: &[i64], fault: &RunFault) -> Refusal
    ensures { RefusesStop (stop_of fault.now) program.now p.now result }
{
    match fault {
        RunFault::OutOfBounds { instance, access } => stuck(access_line(
            alloc,
            "affc: bounds of ",
            program,
            p,
            instance,
            *access,
        )),
        RunFault::Unwritten { instance, access } => stuck(access_line(
            alloc,
            "affc: unwritten ",
            program,
            p,
            instance,
            *access,
        )),
        RunFault::Overflow { node } => { stuck(format!(in alloc; "affc: overflow at node {node}")) }
        RunFault::Extent { array } => stuck(extent_line(alloc, program, p, *array)),
        RunFault::Steps => Refusal::Steps,
        RunFault::Memory => Refusal::Memory,
    }
}
