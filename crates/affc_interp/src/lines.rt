//! The text of what the output arrays hold.
ghost use Rattle.std.specs.Prelude.{◌≡◌, ◌++◌, ◌∷◌, [], OnOk, IfOk, map, get_or, drop, nat_eq};
ghost use Rattle.affc_ast.specs.Fits.{is_output_role, outputs};
ghost use Rattle.affc_ast.specs.Meaning.{arrays_of};
ghost use Rattle.affc_interp.specs.DataText.{spaced, array_line, output_text};
ghost use Rattle.affc_interp.specs.Outputs.{values_held, line_held, lines_held, cells_of};

use crate::memory::{Buffer, Memory};
use crate::run::Store;
use affc_ast::text::Text;
use affc_ast::tree::{Decl, Param, Program, Role};
use itoa::Buffer as Digits;
use std::alloc::{AllocError, Global};

// A space and a number, where the cell has one.
fn write_cell(out: &mut Vec<u8>, cell: Option<u64>) -> Result<(), AllocError>
    ensures { OnOk result (out.new.items ≡ out.old.items ++ spaced (values_held (cell ∷ [])) []) }
{
    match cell {
        Some(value) => {
            let mut digits = Digits::new();
            out.push(b' ')?;
            out.extend_from_slice(digits.format(value).as_bytes())
        }
        None => Ok(()),
    }
}

fn write_cells(out: &mut Vec<u8>, cells: &[Option<u64>]) -> Result<(), AllocError>
    ensures { OnOk result (out.new.items ≡ out.old.items ++ spaced (values_held cells.now) []) }
{
    for cell in cells {
        write_cell(out, *cell)?;
    }
    Ok(())
}

fn write_line(out: &mut Vec<u8>, name: &Text, cells: &[Option<u64>]) -> Result<(), AllocError>
    ensures { OnOk result (out.new.items ≡ out.old.items ++ array_line name.now (values_held cells.now) (10 ∷ [])) }
{
    out.extend_from_slice(b"array ")?;
    out.extend_from_slice(name.as_str().as_bytes())?;
    write_cells(out, cells)?;
    out.push(b'\n')?;
    Ok(())
}

fn is_output(role: Role) -> bool
    ensures { result ≡ is_output_role role }
{
    matches!(role, Role::Output)
}

fn first_cells(buffers: &[Buffer]) -> &[Option<u64>]
    ensures { result.now ≡ get_or (cells_of buffers.now) 0 [] }
{
    match buffers {
        [] => &[],
        [buffer, ..] => buffer.cells.as_slice(),
    }
}

fn other_buffers(buffers: &[Buffer]) -> &[Buffer]
    ensures { cells_of result.now ≡ drop 1 (cells_of buffers.now) }
{
    match buffers {
        [] => buffers,
        [_, others @ ..] => others,
    }
}

// The line of an array, if it is an output.
fn write_output(out: &mut Vec<u8>, decl: &Decl, cells: &[Option<u64>]) -> Result<(), AllocError>
    ensures { OnOk result (out.new.items ≡ out.old.items ++ line_held decl.now cells.now) }
{
    if is_output(decl.role) {
        write_line(out, &decl.name, cells)
    } else {
        Ok(())
    }
}

// The lines of the output arrays among the parameters, whose buffers are these.
fn write_lines(out: &mut Vec<u8>, params: &[Param], buffers: &[Buffer]) -> Result<(), AllocError>
    ensures { OnOk result (out.new.items ≡ out.old.items ++ lines_held (arrays_of params.now) (cells_of buffers.now)) }
{
    match params {
        [] => Ok(()),
        [param, others @ ..] => match param {
            Param::Number { .. } => write_lines(out, others, buffers),
            Param::Array(decl) => {
                write_output(out, decl, first_cells(buffers))?;
                write_lines(out, others, other_buffers(buffers))
            }
        },
    }
}

/// The text of the output arrays, a line for each.
pub fn lines(alloc: Global, program: &Program, store: &Store) -> Result<Vec<u8>, AllocError>
    ensures { IfOk result (λ text. text.items ≡ output_text program.now (outputs program.now store.now)) }
{
    let mut out = Vec::new(alloc);
    write_lines(&mut out, program.params.as_slice(), store.memory.buffers())?;
    Ok(out)
}
