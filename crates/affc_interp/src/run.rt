//! A program run on data, from the first step to the final store.
ghost use Rattle.std.specs.Prelude.{◌≡◌, ◌+◌, ◌^◌, ◌<◌, [], length};
ghost use Rattle.affc_ast.specs.Meaning.{meaning, arrays_of, nodes_of_decls};
ghost use Rattle.affc_ast.specs.Counted.{IsCounted};
ghost use Rattle.affc_interp.specs.Arrays.{values_in};
ghost use Rattle.affc_interp.specs.Machines.{scope_of};
ghost use Rattle.affc_interp.specs.Runs.{within_limit, start};
ghost use Rattle.affc_interp.specs.Begun.{Begins, SaysSo, Answers};

use crate::fault::{Fault, Halt};
use crate::feed::Feed;
use crate::index::{compare_sum, node_sum};
use crate::machine::Machine;
use crate::memory::Memory;
use affc_ast::Items;
use affc_ast::tree::{Decl, Instance, Param, Program};
use std::alloc::Global;
use std::marker::Model;

/// What the arrays hold when a run has ended.
#[derive(Drop)]
pub struct Store {
    pub(crate) memory: Memory,
}

impl Model for Store {
    ghost use Rattle.affc_ast.specs.Store as definition;

    ghost Value = { definition.Store };

    ghost view = { λ s. s.memory.store };
}

/// Why a run has no final store. The numbers are those of the access in its instance, of the node and of
/// the array.
#[derive(Drop)]
pub enum RunFault {
    OutOfBounds { instance: Instance, access: u32 },
    Unwritten { instance: Instance, access: u32 },
    Overflow { node: u32 },
    Extent { array: u32 },
    /// The run takes more steps than it may.
    Steps,
    Memory,
}

fn fault_at(halt: Halt, instance: Instance) -> RunFault
    ensures { SaysSo halt instance result }
{
    match halt {
        Halt::Fault(Fault::OutOfBounds(access)) => RunFault::OutOfBounds { instance, access },
        Halt::Fault(Fault::Unwritten(access)) => RunFault::Unwritten { instance, access },
        Halt::Fault(Fault::Overflow(node)) => RunFault::Overflow { node },
        Halt::Fault(Fault::Extent(array)) => RunFault::Extent { array },
        Halt::Steps => RunFault::Steps,
        Halt::Memory => RunFault::Memory,
    }
}

fn param_nodes(params: &[Param]) -> u32
    requires { nodes_of_decls (arrays_of params.now) < 2 ^ 32 }
    ensures { result ≡ nodes_of_decls (arrays_of params.now) }
{
    match params {
        [] => 0,
        [Param::Number { .. }, rest @ ..] => param_nodes(rest),
        [Param::Array(d), rest @ ..] => node_sum(d.extents.as_slice()) + param_nodes(rest),
    }
}

fn array_params(params: &[Param]) -> u32
    requires { length (arrays_of params.now) < 2 ^ 32 }
    ensures { result ≡ length (arrays_of params.now) }
{
    match params {
        [] => 0,
        [Param::Number { .. }, rest @ ..] => array_params(rest),
        [Param::Array(_), rest @ ..] => 1 + array_params(rest),
    }
}

fn decl_nodes(decls: &[Decl]) -> u32
    requires { nodes_of_decls decls.now < 2 ^ 32 }
    ensures { result ≡ nodes_of_decls decls.now }
{
    let mut count = 0;
    for d in decls {
        count += node_sum(d.extents.as_slice());
    }
    count
}

// The machine before its first step, and the number of the body's first node.
fn begin(alloc: Global, program: &Program, feed: &Feed, limit: u64) -> Result<(Machine, u32), Halt>
    requires { IsCounted program.now }
    ensures { Begins result program.now feed.now.params.items (values_in feed.now.arrays.items) limit }
{
    let names = Vec::from_slice(alloc, feed.params.as_slice())?;
    let mut memory = Memory::new(alloc);
    let params = program.params.as_slice();
    memory.declare_params(
        alloc,
        0,
        params,
        0,
        names.as_slice(),
        feed.arrays.as_slice(),
    )?;
    let temps = param_nodes(params) + compare_sum(program.context.as_slice());
    memory.declare_temps(
        alloc,
        array_params(params),
        program.temps.as_slice(),
        temps,
        names.as_slice(),
    )?;
    let body = temps + decl_nodes(program.temps.as_slice());
    let machine = fresh(alloc, names, memory, limit);
    Ok((machine, body))
}

// A machine that has begun nothing.
fn fresh(alloc: Global, names: Vec<i64>, memory: Memory, limit: u64) -> Machine
    ensures scope { scope_of result ≡ record { names = names.items; iterators = []; extents = memory.extents } }
    ensures store { result.memory.store ≡ memory.store }
    ensures steps { result.steps ≡ 0 }
    ensures limit { result.limit ≡ limit }
{
    Machine {
        names,
        here: no_instance(alloc),
        memory,
        steps: 0,
        limit,
    }
}

fn no_instance(alloc: Global) -> Instance
    ensures { result ≡ record { statement = 0; iterators = [] } }
{
    Instance {
        statement: 0,
        iterators: Items::new(alloc),
    }
}

/// The program run on the data, with so many steps: the final store, where the run ends within them.
pub fn run(alloc: Global, program: &Program, feed: &Feed, steps: u64) -> Result<Store, RunFault>
    requires { IsCounted program.now }
    ensures { Answers result (within_limit steps (meaning program.now feed.now.params.items (start program.now feed.now.params.items (values_in feed.now.arrays.items)))) }
{
    let (mut machine, node) = match begin(alloc, program, feed, steps) {
        Ok(begun) => begun,
        Err(halt) => return Err(fault_at(halt, no_instance(alloc))),
    };
    match machine.exec_all(program.body.as_slice(), node, 0) {
        Ok(()) => Ok(stored(machine)),
        Err(halt) => Err(stopped(machine, halt)),
    }
}

fn stored(machine: Machine) -> Store
    ensures { result ≡ machine.memory.store }
{
    let Machine {
        names: _,
        here: _,
        memory,
        steps: _,
        limit: _,
    } = machine;
    Store { memory }
}

fn stopped(machine: Machine, halt: Halt) -> RunFault
    ensures { SaysSo halt machine.here result }
{
    let Machine {
        names: _,
        here,
        memory: _,
        steps: _,
        limit: _,
    } = machine;
    fault_at(halt, here)
}
