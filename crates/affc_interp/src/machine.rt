//! A run: its statements, loops and steps.
ghost use Rattle.std.specs.Prelude.{◌≡◌, ◌+◌, ◌^◌, ◌<◌, ◌+ℤ◌, ◌-ℤ◌, ℤ, List, Some, sum_by, length, pos, IsTrue, true, map, OnOk};
ghost use Rattle.affc_ast.specs.Conditions.{nodes_of_cond};
ghost use Rattle.affc_ast.specs.Index.{nodes_of_ix, in_int64, is_int64};
ghost use Rattle.affc_ast.specs.Meaning.{turns_of, assigned, combined, own_loads, own_value, nodes_of_locals, with_locals, with_iterator};
ghost use Rattle.affc_ast.specs.Meaning as meaning;
ghost use Rattle.affc_ast.specs.Values.{value_of};
ghost use Rattle.affc_ast.specs.declared.tree.Instance.{Instance};
ghost use Rattle.affc_interp.specs.Budget.{exec_of, assign_within, all_of, all_within, turns_within, nodes_among, assigns_among, for_run, if_run, block_run, once};
ghost use Rattle.affc_interp.specs.Layout.{offset_of};
ghost use Rattle.affc_interp.specs.Seen.{as_reading, scope_at, as_value, Stores};
ghost use Rattle.affc_interp.specs.Machines.{Finishes, Steps, Declares, scope_of, position, turn_of};

use crate::fault::{Fault, Halt};
use crate::index::{cond_nodes, eval, is_true, node_count, node_sum};
use crate::memory::Memory;
use crate::value::{load_count, operated, value, value_nodes};
use affc_ast::tree::{ArrayId, Cond, Instance, Ix, Local, Op, Rel, Stmt, Val};

/// A run: the values of the visible names, the assignment that was begun last, the arrays, and how many
/// steps were begun of those that may be.
#[derive(Drop)]
pub struct Machine {
    pub names: Vec<i64>,
    pub here: Instance,
    pub memory: Memory,
    pub steps: u64,
    pub limit: u64,
}

fn next_step(steps: u64, limit: u64) -> Result<u64, Halt>
    ensures { Steps result steps limit }
{
    if steps < limit {
        Ok(steps + 1)
    } else {
        Err(Halt::Steps)
    }
}

// What `op=` loads before its value is read.
fn own_load(
    op: Option<Op>,
    array: ArrayId,
    place: Option<usize>,
    memory: &Memory,
) -> Result<u64, Fault>
    ensures { (names : List ℤ) (here : Instance) (xs : List ℤ) → place ≡ offset_of memory.now.extents array.0 xs → as_value here result ≡ own_value op (scope_at names memory.now here) memory.now.store here array xs }
{
    match op {
        None => Ok(0),
        Some(_) => memory.read(array, place, 0),
    }
}

fn combined_with(op: Option<Op>, own: u64, v: u64) -> u64
    ensures { result ≡ combined op own v }
{
    match op {
        None => v,
        Some(op) => operated(op, own, v),
    }
}

fn loads_before(op: Option<Op>) -> u32
    ensures value { result ≡ own_loads op }
    ensures bound { result < 2 }
{
    match op {
        None => 0,
        Some(_) => 1,
    }
}

// The place of the cell that an assignment stores in, and the value.
fn stored(
    op: Option<Op>,
    array: ArrayId,
    subs: &[Ix],
    e: &Val,
    node: u32,
    names: &[i64],
    memory: &Memory,
    here: &Instance,
) -> Result<(usize, u64), Fault>
    requires { node + 1 + sum_by nodes_of_ix subs.now + (value_of e.now).nodes < 2 ^ 32 }
    ensures { Stores result here.now memory.now array.0 (assigned op array subs.now e.now node (scope_at names.now memory.now here.now) memory.now.store here.now) }
{
    let place = memory.place(array, subs, node + 1, names)?;
    let own = own_load(op, array, place, memory)?;
    let loads = loads_before(op);
    let v = value(e, node + 1 + node_sum(subs), loads, names, memory, here)?;
    let cell = memory.reach(array, place, loads + load_count(e))?;
    Ok((cell, combined_with(op, own, v)))
}

impl Machine {
    // Begins an assignment and stores.
    fn assign(
        &mut self,
        op: Option<Op>,
        array: ArrayId,
        subs: &[Ix],
        e: &Val,
        node: u32,
        statement: u32,
    ) -> Result<(), Halt>
        requires nodes { node + 1 + sum_by nodes_of_ix subs.now + (value_of e.now).nodes < 2 ^ 32 }
        requires array { array.0 < length self.old.memory.extents }
        ensures { Finishes result self.old self.new (assign_within self.old.limit op array subs.now e.now (position node statement) (scope_of self.old) self.old.memory.store self.old.steps) }
    {
        self.steps = next_step(self.steps, self.limit)?;
        self.here.statement = statement;
        let (cell, v) = stored(
            op,
            array,
            subs,
            e,
            node,
            self.names.as_slice(),
            &self.memory,
            &self.here,
        )?;
        self.memory.write(array, cell, v);
        Ok(())
    }
}

// How often a loop turns whose iterator stays below the last value.
fn turns_below(first: i64, last: i64) -> u128
    ensures { result ≡ meaning.at_least_zero (last -ℤ first) }
{
    at_least_zero(i128::from(last) - i128::from(first))
}

// How often a loop turns whose iterator reaches the last value.
fn turns_up_to(first: i64, last: i64) -> u128
    ensures { result ≡ meaning.at_least_zero (last +ℤ pos 1 -ℤ first) }
{
    at_least_zero(i128::from(last) + 1 - i128::from(first))
}

// How often a loop turns.
fn turn_count(rel: Rel, first: i64, last: i64) -> u128
    ensures { result ≡ turns_of rel first last }
{
    match rel {
        Rel::Less => turns_below(first, last),
        Rel::LessEqual => turns_up_to(first, last),
        Rel::Greater => 0,
        Rel::GreaterEqual => 0,
        Rel::Equal => 0,
        Rel::NotEqual => 0,
    }
}

// The iterator's value at a turn.
fn value_at(first: i64, k: u128) -> i64
    requires { IsTrue (is_int64 (first +ℤ pos k)) }
    ensures { result ≡ first +ℤ pos k }
{
    (i128::from(first) + k as i128) as i64
}

// The iterator's step, at the loop's node.
fn next_value(node: u32, x: i64) -> Result<i64, u32>
    ensures { as_reading result ≡ in_int64 node (x +ℤ pos 1) }
{
    x.checked_add(1).ok_or(node)
}

fn at_least_zero(x: i128) -> u128
    ensures { result ≡ meaning.at_least_zero x }
{
    if x < 0 { 0 } else { x.unsigned_abs() }
}

/// How many assignments the statement has.
#[tactic(auto, using(crate::proofs::Execs::exec_steps))]
#[cycle(assigns_of_all)]
fn assign_count(s: &Stmt) -> u32
    requires { (exec_of s.now).assigns < 2 ^ 32 }
    ensures { result ≡ (exec_of s.now).assigns }
{
    match s {
        Stmt::Assign { .. } => 1,
        Stmt::For { body, .. } => assigns_of_all(body.as_slice()),
        Stmt::If { body, other, .. } => {
            assigns_of_all(body.as_slice()) + assigns_of_all(other.as_slice())
        }
        Stmt::Block { body, .. } => assigns_of_all(body.as_slice()),
    }
}

#[tactic(auto, using(crate::proofs::Execs::exec_steps))]
#[cycle(assigns_of_all)]
fn assigns_of_all(body: &[Stmt]) -> u32
    requires { assigns_among (map exec_of body.now) < 2 ^ 32 }
    ensures { result ≡ assigns_among (map exec_of body.now) }
{
    let mut count = 0;
    for s in body {
        count += assign_count(s);
    }
    count
}

fn local_sum(locals: &[Local]) -> u32
    requires { nodes_of_locals locals.now < 2 ^ 32 }
    ensures { result ≡ nodes_of_locals locals.now }
{
    let mut count = 0;
    for l in locals {
        count += node_count(&l.value);
    }
    count
}

/// How many nodes the statement has.
#[tactic(auto, using(crate::proofs::Execs::exec_steps))]
#[cycle(nodes_of_all)]
fn statement_nodes(s: &Stmt) -> u32
    requires { (exec_of s.now).nodes < 2 ^ 32 }
    ensures { result ≡ (exec_of s.now).nodes }
{
    match s {
        Stmt::Assign {
            op: _,
            array: _,
            subs,
            value,
        } => 1 + node_sum(subs.as_slice()) + value_nodes(value),
        Stmt::For {
            iter: _,
            low,
            rel: _,
            high,
            body,
        } => 1 + node_count(low) + node_count(high) + nodes_of_all(body.as_slice()),
        Stmt::If { cond, body, other } => {
            1 + cond_nodes(cond) + nodes_of_all(body.as_slice()) + nodes_of_all(other.as_slice())
        }
        Stmt::Block { locals, body } => {
            1 + local_sum(locals.as_slice()) + nodes_of_all(body.as_slice())
        }
    }
}

#[tactic(auto, using(crate::proofs::Execs::exec_steps))]
#[cycle(nodes_of_all)]
fn nodes_of_all(body: &[Stmt]) -> u32
    requires { nodes_among (map exec_of body.now) < 2 ^ 32 }
    ensures { result ≡ nodes_among (map exec_of body.now) }
{
    let mut count = 0;
    for s in body {
        count += statement_nodes(s);
    }
    count
}

impl Machine {
    // Brings a block's locals in sight, each with those before it.
    fn declare(&mut self, locals: &[Local], node: u32) -> Result<(), Halt>
        requires { node + nodes_of_locals locals.now < 2 ^ 32 }
        ensures { Declares result self.old self.new (with_locals locals.now node (scope_of self.old)) }
    {
        let mut here = node;
        for l in locals {
            let x = eval(&l.value, here, self.names.as_slice())?;
            self.names.push(x)?;
            here += node_count(&l.value);
        }
        Ok(())
    }

    // One statement.
    #[tactic(auto, using(crate::proofs::Execs::exec_steps))]
    #[cycle(exec)]
    fn exec(&mut self, s: &Stmt, node: u32, statement: u32) -> Result<(), Halt>
        requires nodes { node + (exec_of s.now).nodes < 2 ^ 32 }
        requires assigns { statement + (exec_of s.now).assigns < 2 ^ 32 }
        requires within { (exec_of s.now).within (length self.old.memory.extents) ≡ true }
        ensures { Finishes result self.old self.new ((exec_of s.now).run self.old.limit (position node statement) (scope_of self.old) self.old.memory.store self.old.steps) }
    {
        match s {
            Stmt::For {
                iter: _,
                low,
                rel,
                high,
                body,
            } => self.exec_for(low, *rel, high, body.as_slice(), node, statement),
            Stmt::If { cond, body, other } => self.exec_if(
                cond,
                body.as_slice(),
                other.as_slice(),
                node,
                statement,
            ),
            Stmt::Assign {
                op,
                array,
                subs,
                value,
            } => self.assign(*op, *array, subs.as_slice(), value, node, statement),
            Stmt::Block { locals, body } => self.exec_block(
                locals.as_slice(),
                body.as_slice(),
                node,
                statement,
            ),
        }
    }

    #[cycle(exec)]
    fn exec_for(
        &mut self,
        low: &Ix,
        rel: Rel,
        high: &Ix,
        body: &[Stmt],
        node: u32,
        statement: u32,
    ) -> Result<(), Halt>
        requires nodes { node + (1 + nodes_of_ix low.now + nodes_of_ix high.now + nodes_among (map exec_of body.now)) < 2 ^ 32 }
        requires assigns { statement + assigns_among (map exec_of body.now) < 2 ^ 32 }
        requires within { all_within (map exec_of body.now) (length self.old.memory.extents) ≡ true }
        ensures { Finishes result self.old self.new (for_run low.now rel high.now (map exec_of body.now) self.old.limit (position node statement) (scope_of self.old) self.old.memory.store self.old.steps) }
    {
        let first = eval(low, node + 1, self.names.as_slice())?;
        let left = node_count(low);
        let last = eval(high, node + 1 + left, self.names.as_slice())?;
        let inner = node + (1 + left + node_count(high));
        self.turn(
            turn_count(rel, first, last),
            first,
            body,
            node,
            inner,
            statement,
        )
    }

    #[cycle(exec)]
    fn exec_if(
        &mut self,
        cond: &Cond,
        body: &[Stmt],
        other: &[Stmt],
        node: u32,
        statement: u32,
    ) -> Result<(), Halt>
        requires nodes { node + (1 + nodes_of_cond cond.now + nodes_among (map exec_of body.now) + nodes_among (map exec_of other.now)) < 2 ^ 32 }
        requires assigns { statement + (assigns_among (map exec_of body.now) + assigns_among (map exec_of other.now)) < 2 ^ 32 }
        requires within { all_within (map exec_of body.now) (length self.old.memory.extents) ≡ true }
        requires other_within { all_within (map exec_of other.now) (length self.old.memory.extents) ≡ true }
        ensures { Finishes result self.old self.new (if_run cond.now (map exec_of body.now) (map exec_of other.now) self.old.limit (position node statement) (scope_of self.old) self.old.memory.store self.old.steps) }
    {
        if is_true(cond, node + 1, self.names.as_slice())? {
            return self.exec_all(body, node + (1 + cond_nodes(cond)), statement);
        }
        if other.is_empty() {
            return Ok(());
        }
        let behind = node + (1 + cond_nodes(cond)) + nodes_of_all(body);
        self.exec_all(other, behind, statement + assigns_of_all(body))
    }

    #[cycle(exec)]
    fn exec_block(
        &mut self,
        locals: &[Local],
        body: &[Stmt],
        node: u32,
        statement: u32,
    ) -> Result<(), Halt>
        requires nodes { node + (1 + nodes_of_locals locals.now + nodes_among (map exec_of body.now)) < 2 ^ 32 }
        requires assigns { statement + assigns_among (map exec_of body.now) < 2 ^ 32 }
        requires within { all_within (map exec_of body.now) (length self.old.memory.extents) ≡ true }
        ensures { Finishes result self.old self.new (block_run locals.now (map exec_of body.now) self.old.limit (position node statement) (scope_of self.old) self.old.memory.store self.old.steps) }
    {
        let outer = self.names.len();
        self.declare(locals, node + 1)?;
        self.exec_all(body, node + (1 + local_sum(locals)), statement)?;
        self.names.truncate(outer);
        Ok(())
    }

    /// The statements one after another, from the numbers of the next node and the next assignment on. The recursion is into
    /// halves.
    #[tactic(auto, using(crate::proofs::Execs::exec_steps))]
    #[cycle(exec)]
    pub fn exec_all(&mut self, body: &[Stmt], node: u32, statement: u32) -> Result<(), Halt>
        requires nodes { node + nodes_among (map exec_of body.now) < 2 ^ 32 }
        requires assigns { statement + assigns_among (map exec_of body.now) < 2 ^ 32 }
        requires within { all_within (map exec_of body.now) (length self.old.memory.extents) ≡ true }
        ensures { Finishes result self.old self.new (all_of self.old.limit (map exec_of body.now) (position node statement) (scope_of self.old) self.old.memory.store self.old.steps) }
    {
        match body {
            [] => Ok(()),
            [s] => self.exec(s, node, statement),
            _ => {
                let (first, others) = body.split_at(body.len() / 2);
                self.exec_all(first, node, statement)?;
                let node = node + nodes_of_all(first);
                self.exec_all(others, node, statement + assigns_of_all(first))
            }
        }
    }

    #[tactic(auto, using(crate::proofs::Execs::exec_steps))]
    #[cycle(exec)]
    fn one_turn(&mut self, x: i64, body: &[Stmt], node: u32, statement: u32) -> Result<(), Halt>
        requires nodes { node + nodes_among (map exec_of body.now) < 2 ^ 32 }
        requires assigns { statement + assigns_among (map exec_of body.now) < 2 ^ 32 }
        requires within { all_within (map exec_of body.now) (length self.old.memory.extents) ≡ true }
        ensures { Finishes result self.old self.new (all_of self.old.limit (map exec_of body.now) (position node statement) (with_iterator (scope_of self.old) x) self.old.memory.store self.old.steps) }
    {
        let outer = self.names.len();
        self.names.push(x)?;
        self.here.iterators.push(x)?;
        self.exec_all(body, node, statement)?;
        self.names.truncate(outer);
        let _ = self.here.iterators.pop();
        Ok(())
    }

    // One turn, with the step that it takes and the iterator's step after it.
    #[cycle(exec)]
    fn step_turn(
        &mut self,
        x: i64,
        body: &[Stmt],
        node: u32,
        inner: u32,
        statement: u32,
    ) -> Result<(), Halt>
        requires nodes { inner + nodes_among (map exec_of body.now) < 2 ^ 32 }
        requires assigns { statement + assigns_among (map exec_of body.now) < 2 ^ 32 }
        requires within { all_within (map exec_of body.now) (length self.old.memory.extents) ≡ true }
        ensures run { Finishes result self.old self.new (once self.old.limit node x (turn_of self.old.limit body.now inner statement (scope_of self.old)) self.old.memory.store self.old.steps) }
        ensures next { OnOk result (is_int64 (x +ℤ pos 1) ≡ true) }
    {
        self.steps = next_step(self.steps, self.limit)?;
        self.one_turn(x, body, inner, statement)?;
        next_value(node, x)?;
        Ok(())
    }

    #[cycle(exec)]
    fn turn(
        &mut self,
        count: u128,
        first: i64,
        body: &[Stmt],
        node: u32,
        inner: u32,
        statement: u32,
    ) -> Result<(), Halt>
        requires nodes { inner + nodes_among (map exec_of body.now) < 2 ^ 32 }
        requires assigns { statement + assigns_among (map exec_of body.now) < 2 ^ 32 }
        requires within { all_within (map exec_of body.now) (length self.old.memory.extents) ≡ true }
        ensures { Finishes result self.old self.new (turns_within self.old.limit node count first (turn_of self.old.limit body.now inner statement (scope_of self.old)) self.old.memory.store self.old.steps) }
    {
        for k in 0..count {
            let x = value_at(first, k);
            self.step_turn(x, body, node, inner, statement)?;
        }
        Ok(())
    }
}
