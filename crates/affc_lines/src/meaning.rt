//! What is wrong with a program, whatever its data: its line, and the refusal that tells it.
ghost use Rattle.std.specs.Prelude.{◌≡◌, ◌+◌, ◌<◌, ◌++◌, [], List, Option, length, ℕ, get_or, IfOk, MatchResult, flat_map, codes, decimal, string_bytes};
ghost use Rattle.affc_ast.specs.Recursion.{by_stmt};
ghost use Rattle.affc_domain.specs.Rounds.{rounds_step};
ghost use Rattle.affc_grammar.specs.Reads.{Reads};
ghost use Rattle.affc_driver.specs.Refusals.{HasMeaningFault, HasUnwritten};
ghost use Rattle.affc_lines.specs.Meaning.{iterator_of, iterator_name, meaning_line};
ghost use Rattle.affc_lines.specs.Causes.{MeantCause, RangeCause};

use crate::refusal::Refusal;
use crate::stuck::{access_line, extent_line};
use affc_ast::text::Text;
use affc_ast::tree::{Instance, Program, Stmt};
use affc_bounds::MeaningFault;
use affc_grammar::laws::one_program;
use std::alloc::{AllocError, Global};

// ---- The iterator that is meant

// The iterator of a loop round an assignment in the statement, where `left` is the assignment's number and the loops in
// the statement are numbered from the outermost; or its number behind the statement.
#[cycle(iterators)]
fn iterator_in<'a>(stmt: &'a Stmt, left: u32, loop_number: u32) -> Result<&'a str, u32>
    ensures { let each = by_stmt rounds_step stmt.now in MatchResult result
        (λ name. (left < length each) × (name.now ≡ iterator_of (get_or each left []) loop_number)) (λ rest. left ≡ length each + rest) }
{
    match stmt {
        Stmt::Assign {
            op: _,
            array: _,
            subs: _,
            value: _,
        } => { if left == 0 { Ok("") } else { Err(left - 1) } }
        Stmt::For {
            iter,
            low: _,
            rel: _,
            high: _,
            body,
        } => {
            let inside = loop_number.saturating_sub(1);
            match iterator_among(body.as_slice(), left, inside) {
                Err(rest) => Err(rest),
                Ok(_) if loop_number == 0 => Ok(iter.as_str()),
                Ok(name) => Ok(name),
            }
        }
        Stmt::If {
            cond: _,
            body,
            other,
        } => match iterator_among(body.as_slice(), left, loop_number) {
            Ok(name) => Ok(name),
            Err(rest) => iterator_among(other.as_slice(), rest, loop_number),
        },
        Stmt::Block { locals: _, body } => iterator_among(body.as_slice(), left, loop_number),
    }
}

// The same for statements one after the other.
#[cycle(iterators)]
fn iterator_among<'a>(stmts: &'a [Stmt], left: u32, loop_number: u32) -> Result<&'a str, u32>
    ensures { let each = flat_map (by_stmt rounds_step) stmts.now in MatchResult result
        (λ name. (left < length each) × (name.now ≡ iterator_of (get_or each left []) loop_number)) (λ rest. left ≡ length each + rest) }
{
    let mut rest = left;
    for stmt in stmts {
        match iterator_in(stmt, rest, loop_number) {
            Ok(name) => return Ok(name),
            Err(behind) => rest = behind,
        }
    }
    Err(rest)
}

// The iterator of the loop of this number round the statement of this number, or nothing where there is none.
fn iterator_name(program: &Program, statement: u32, loop_number: u32) -> &str
    ensures { result.now ≡ iterator_name program.now statement loop_number }
{
    match iterator_among(program.body.as_slice(), statement, loop_number) {
        Ok(name) => name,
        Err(_) => "",
    }
}

// ---- Its words

// A line about the range of an iterator.
fn range_line(
    alloc: Global,
    program: &Program,
    statement: u32,
    loop_number: u32,
) -> Result<String, AllocError>
    ensures { IfOk result (λ line. string_bytes line ≡ codes "affc: iterator range of " ++ iterator_name program.now statement loop_number ++ codes " in S" ++ decimal statement) }
{
    let mut line = String::from_str(alloc, "affc: iterator range of ")?;
    line.push_str(iterator_name(program, statement, loop_number))?;
    line.push_str(" in S")?;
    write!(line, "{statement}")?;
    Ok(line)
}

// What is said of a program that has this wrong with it, without the line's end.
fn meaning_line(
    alloc: Global,
    program: &Program,
    fault: &MeaningFault,
) -> Result<String, AllocError>
    ensures { IfOk result (λ line. string_bytes line ≡ meaning_line program.now fault.now) }
{
    match fault {
        MeaningFault::IteratorRange {
            statement,
            loop_number,
        } => range_line(alloc, program, *statement, *loop_number),
        MeaningFault::Context => String::from_str(alloc, "affc: context is empty"),
        MeaningFault::Extent { array, p } => extent_line(alloc, program, p.as_slice(), array.0),
        MeaningFault::Bounds {
            array: _,
            access,
            p,
            instance,
        } => access_line(
            alloc,
            "affc: bounds of ",
            program,
            p.as_slice(),
            instance,
            *access,
        ),
    }
}

// ---- Its refusal

/// The refusal of a source that reads as the program, which has this fault.
pub fn meaning(alloc: Global, program: &Program, fault: &MeaningFault) -> Refusal
    ensures { (source : List ℕ) (schedule : Option (List ℕ)) → Reads source program.now → HasMeaningFault source schedule fault.now → MeantCause source schedule result }
{
    one_program();
    match meaning_line(alloc, program, fault) {
        Ok(line) => Refusal::Meaning(Text::from_string(line)),
        Err(_) => Refusal::Memory,
    }
}

/// The refusal of a source that reads as the program, in which the range of this loop's iterator is too wide.
pub fn ranged(alloc: Global, program: &Program, statement: u32, loop_number: u32) -> Refusal
    ensures { (source : List ℕ) (schedule : Option (List ℕ)) → Reads source program.now → HasMeaningFault source schedule (MeaningFault.IteratorRange statement loop_number) → RangeCause source schedule result }
{
    one_program();
    match range_line(alloc, program, statement, loop_number) {
        Ok(line) => Refusal::Meaning(Text::from_string(line)),
        Err(_) => Refusal::Memory,
    }
}

/// The refusal of a source that reads as the program, which has a load of a temporary that nothing has written.
pub fn unwritten(
    alloc: Global,
    program: &Program,
    access: u32,
    p: &[i64],
    instance: &Instance,
) -> Refusal
    ensures { (source : List ℕ) (schedule : Option (List ℕ)) → Reads source program.now → (array : ℕ) × HasUnwritten source schedule array access p.now instance.now → MeantCause source schedule result }
{
    one_program();
    match access_line(alloc, "affc: unwritten ", program, p, instance, access) {
        Ok(line) => Refusal::Meaning(Text::from_string(line)),
        Err(_) => Refusal::Memory,
    }
}
