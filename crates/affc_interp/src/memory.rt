//! The arrays of a run: their extents, and a cell for each element.
ghost use Rattle.std.specs.Prelude.{◌≡◌, ◌+◌, ◌^◌, ◌<◌, ℤ, List, [], Some, None, Ok, get_or, slice_set, slice_get, drop, sum_by, length, pos, ◌≤ℤ◌, ◌<ℤ◌, int_le, int_lt, ◌&&◌, if◌then◌else◌, ◌++◌, ◌∷◌, IfOk, IfSome, OnOk};
ghost use Rattle.affc_ast.specs.Index.{nodes_of_ix, index_values};
ghost use Rattle.affc_ast.specs.Meaning.{at_least_zero, extents_of, all_extents, arrays_of, nodes_of_decls};
ghost use Rattle.affc_ast.specs.Store.{at, with_value};
ghost use Rattle.affc_interp.specs.Layout.{place_step, place_from, offset_of, cell_at, extents_in, size_of, subscripts_of, given_cells, given_to, AreLengths, AreWhole, held_in};
ghost use Rattle.affc_ast.specs.Values.{load, touch};
ghost use Rattle.affc_ast.specs.declared.tree.Instance.{Instance};
ghost use Rattle.affc_interp.specs.Arrays.{AreExtents, Declared, AllDeclared, values_in};
ghost use Rattle.affc_interp.specs.Seen.{as_reading, read_then, as_value, loaded, scope_at, Reaches};

use crate::fault::{Fault, Halt};
use crate::index::{eval, node_count, node_sum};
use affc_ast::tree::{ArrayId, Decl, Instance, Ix, Param};
use std::alloc::{AllocError, Global};
use std::marker::Model;

/// An array: its extents, and a cell for each element, the last subscript running fastest. A cell is
/// empty as long as its element has no value.
#[derive(Drop)]
pub struct Buffer {
    pub extents: Vec<i64>,
    pub cells: Vec<Option<u64>>,
}

/// The arrays of a run, in the order of their numbers.
#[derive(Drop)]
pub struct Memory {
    buffers: Vec<Buffer>,
}

impl Model for Memory {
    ghost use Rattle.affc_interp.specs.Layout.{Held, held_in, AreWhole};

    ghost Value = { Held };

    ghost view = { λ m. held_in m.buffers.items };

    ghost invariant = { λ m. AreWhole m.buffers.items };
}

// The whole number, where it lies from 0 to the extent less 1.
fn inner(x: i64, extent: i64) -> Option<u64>
    ensures { result ≡ (if int_le (pos 0) x && int_lt x extent then Some (at_least_zero x) else None) }
{
    if 0 <= x && x < extent {
        Some(x.unsigned_abs())
    } else {
        None
    }
}

fn step(size: usize, place: Option<usize>, x: i64, extent: i64) -> Option<usize>
    ensures { result ≡ place_step size place x extent }
{
    let place = place?;
    let x = inner(x, extent)?;
    let next = (place as u128) * (extent.unsigned_abs() as u128) + (x as u128);
    if next < size as u128 {
        Some(next as usize)
    } else {
        None
    }
}

// Where one subscript more leads, and the extents of those behind it.
fn one_on(size: usize, place: Option<usize>, x: i64, extents: &[i64]) -> (Option<usize>, &[i64])
    ensures { (xs : List ℤ) → place_from size result.0 xs result.1.now ≡ place_from size place (x ∷ xs) extents.now }
{
    match extents {
        [] => (None, extents),
        [n, more @ ..] => (step(size, place, x, *n), more),
    }
}

// The place of an element, whose first subscripts have led so far. All subscripts are read.
fn place_on(
    size: usize,
    place: Option<usize>,
    subs: &[Ix],
    extents: &[i64],
    node: u32,
    names: &[i64],
) -> Result<Option<usize>, u32>
    requires { node + sum_by nodes_of_ix subs.now < 2 ^ 32 }
    ensures { as_reading result ≡ read_then (index_values subs.now node names.now) (λ xs. Ok (place_from size place xs extents.now)) }
{
    match subs {
        [] => Ok(if extents.is_empty() { place } else { None }),
        [e, rest @ ..] => {
            let x = eval(e, node, names)?;
            let (next, more) = one_on(size, place, x, extents);
            place_on(size, next, rest, more, node + node_count(e), names)
        }
    }
}

fn cell_in(cells: &[Option<u64>], place: usize) -> Option<u64>
    ensures { result ≡ get_or cells.now place None }
{
    match cells.get(place) {
        Some(c) => *c,
        None => None,
    }
}

fn set_cell(cells: &mut [Option<u64>], place: usize, v: u64)
    ensures { cells.new ≡ slice_set cells.old place (Some v) }
{
    if place < cells.len() {
        cells[place] = Some(v);
    }
}

fn cell(buffers: &[Buffer], array: usize, place: usize) -> Option<u64>
    ensures { result ≡ cell_at buffers.now array place }
{
    match buffers.get(array) {
        Some(buffer) => cell_in(buffer.cells.as_slice(), place),
        None => None,
    }
}

fn load_from(
    buffers: &[Buffer],
    array: usize,
    place: Option<usize>,
    access: u32,
) -> Result<u64, Fault>
    ensures { (here : Instance) → as_value here result ≡ loaded buffers.now array place here access }
{
    match place {
        None => Err(Fault::OutOfBounds(access)),
        Some(place) => match cell(buffers, array, place) {
            None => Err(Fault::Unwritten(access)),
            Some(v) => Ok(v),
        },
    }
}

fn extents_at(buffers: &[Buffer], array: usize) -> &[i64]
    ensures { result.now ≡ get_or (extents_in buffers.now) array [] }
{
    match buffers.get(array) {
        Some(buffer) => buffer.extents.as_slice(),
        None => &[],
    }
}

#[tactic(auto, using(crate::proofs::Places::size_at_is))]
fn size_at(buffers: &[Buffer], array: usize) -> usize
    requires { AreWhole buffers.now }
    ensures { result ≡ size_of (get_or (extents_in buffers.now) array []) }
{
    match buffers.get(array) {
        Some(buffer) => buffer.cells.len(),
        None => 1,
    }
}

impl Memory {
    /// The number of the element's cell in its array, if the element lies within it.
    pub fn place(
        &self,
        array: ArrayId,
        subs: &[Ix],
        node: u32,
        names: &[i64],
    ) -> Result<Option<usize>, u32>
        requires { node + sum_by nodes_of_ix subs.now < 2 ^ 32 }
        ensures { as_reading result ≡ read_then (index_values subs.now node names.now) (λ xs. Ok (offset_of self.now.extents array.0 xs)) }
    {
        let buffers = self.buffers.as_slice();
        let array = array.0 as usize;
        place_on(
            size_at(buffers, array),
            Some(0),
            subs,
            extents_at(buffers, array),
            node,
            names,
        )
    }

    /// What the access of this number loads, where its subscripts lead to this place.
    pub fn read(&self, array: ArrayId, place: Option<usize>, access: u32) -> Result<u64, Fault>
        ensures { (names : List ℤ) (here : Instance) (xs : List ℤ) → place ≡ offset_of self.now.extents array.0 xs → as_value here result ≡ load (scope_at names self.now here) self.now.store here access array xs }
    {
        load_from(self.buffers.as_slice(), array.0 as usize, place, access)
    }

    /// The cell of the access of this number, where its subscripts lead to this place.
    pub fn reach(&self, array: ArrayId, place: Option<usize>, access: u32) -> Result<usize, Fault>
        ensures { (names : List ℤ) (here : Instance) (xs : List ℤ) → place ≡ offset_of self.now.extents array.0 xs → Reaches result here place (array.0, xs) (touch (scope_at names self.now here) here access array xs) }
    {
        let _ = self.buffers.as_slice();
        let _ = array;
        match place {
            None => Err(Fault::OutOfBounds(access)),
            Some(place) => Ok(place),
        }
    }

    /// What a load gives: its subscripts are read from the left, and then the element.
    pub fn load(
        &self,
        array: ArrayId,
        subs: &[Ix],
        node: u32,
        access: u32,
        names: &[i64],
        here: &Instance,
    ) -> Result<u64, Fault>
        requires { node + sum_by nodes_of_ix subs.now < 2 ^ 32 }
        ensures { as_value here.now result ≡ read_then (index_values subs.now node names.now) (load (scope_at names.now self.now here.now) self.now.store here.now access array) }
    {
        let _ = here;
        let place = self.place(array, subs, node, names)?;
        self.read(array, place, access)
    }

    /// The arrays themselves.
    pub fn buffers(&self) -> &[Buffer]
        ensures held { self.now ≡ held_in result.now }
        ensures whole { AreWhole result.now }
    {
        self.buffers.as_slice()
    }

    /// Gives the cell at this place of an array a value.
    pub fn write(&mut self, array: ArrayId, place: usize, v: u64)
        requires { array.0 < length self.old.extents }
        ensures extents { self.new.extents ≡ self.old.extents }
        ensures store { (xs : List ℤ) → Some place ≡ offset_of self.old.extents array.0 xs → self.new.store ≡ with_value self.old.store (array.0, xs) v }
    {
        let buffer = &mut self.buffers[array.0 as usize];
        set_cell(&mut buffer.cells, place, v);
    }
}

// How many elements an array with these extents has, if a `usize` can hold it.
fn size(extents: &[i64]) -> Option<usize>
    ensures { IfSome result (λ n. n ≡ size_of extents.now) }
{
    match extents {
        [] => Some(1),
        [n, rest @ ..] => {
            let inner = size(rest)?;
            length_of(*n)?.checked_mul(inner)
        }
    }
}

fn length_of(n: i64) -> Option<usize>
    ensures { IfSome result (λ m. m ≡ at_least_zero n) }
{
    if n < 0 {
        Some(0)
    } else {
        Some(n.unsigned_abs() as usize)
    }
}

fn given_at(values: &[u64], k: usize) -> Option<u64>
    ensures { result ≡ slice_get values.now k }
{
    match values.get(k) {
        Some(v) => Some(*v),
        None => None,
    }
}

#[tactic(auto, using(crate::proofs::Adds::given_push))]
fn filled(alloc: Global, size: usize, values: &[u64]) -> Result<Vec<Option<u64>>, AllocError>
    ensures { IfOk result (λ v. v.items ≡ given_cells size values.now) }
{
    let mut cells = Vec::with_capacity(alloc, size)?;
    for k in 0..size {
        cells.push(given_at(values, k))?;
    }
    Ok(cells)
}

impl Memory {
    /// No arrays.
    pub fn new(alloc: Global) -> Memory
        ensures { result ≡ record { extents = []; store = [] } }
    {
        Memory {
            buffers: Vec::new(alloc),
        }
    }

    /// One array more, whose first elements have these values.
    pub fn add(
        &mut self,
        alloc: Global,
        extents: Vec<i64>,
        values: &[u64],
    ) -> Result<(), AllocError>
        requires { AreLengths extents.items }
        ensures extents { OnOk result (self.new.extents ≡ self.old.extents ++ extents.items ∷ []) }
        ensures store { OnOk result (self.new.store ≡ self.old.store ++ given_to (length self.old.extents) (subscripts_of extents.items) values.now) }
    {
        let Some(size) = size(extents.as_slice()) else {
            return Err(AllocError);
        };
        let cells = filled(alloc, size, values)?;
        self.buffers.push(Buffer { extents, cells })?;
        Ok(())
    }
}

// The extents of an array, read up to the first that is below 1.
fn extents_from(
    alloc: Global,
    array: u32,
    es: &[Ix],
    node: u32,
    names: &[i64],
) -> Result<Vec<i64>, Halt>
    requires { node + sum_by nodes_of_ix es.now < 2 ^ 32 }
    ensures { AreExtents result (extents_of array es.now node names.now) }
{
    match es {
        [] => Ok(Vec::new(alloc)),
        [e, rest @ ..] => {
            let n = eval(e, node, names)?;
            if n < 1 {
                return Err(Halt::Fault(Fault::Extent(array)));
            }
            let mut ns = extents_from(alloc, array, rest, node + node_count(e), names)?;
            ns.insert(0, n)?;
            Ok(ns)
        }
    }
}

fn first_values(arrays: &[Vec<u64>]) -> &[u64]
    ensures { result.now ≡ get_or (values_in arrays.now) 0 [] }
{
    match arrays {
        [] => &[],
        [values, ..] => values.as_slice(),
    }
}

fn other_values(arrays: &[Vec<u64>]) -> &[Vec<u64>]
    ensures { values_in result.now ≡ drop 1 (values_in arrays.now) }
{
    match arrays {
        [] => arrays,
        [_, others @ ..] => others,
    }
}

impl Memory {
    // One array more, whose first elements have these values.
    fn declare(
        &mut self,
        alloc: Global,
        array: u32,
        extents: &[Ix],
        node: u32,
        names: &[i64],
        values: &[u64],
    ) -> Result<(), Halt>
        requires { node + sum_by nodes_of_ix extents.now < 2 ^ 32 }
        ensures { Declared result self.old self.new values.now (extents_of array extents.now node names.now) }
    {
        let ns = extents_from(alloc, array, extents, node, names)?;
        self.add(alloc, ns, values)?;
        Ok(())
    }

    /// The array parameters, from this number on, with the values of each.
    pub fn declare_params(
        &mut self,
        alloc: Global,
        array: u32,
        params: &[Param],
        node: u32,
        names: &[i64],
        arrays: &[Vec<u64>],
    ) -> Result<(), Halt>
        requires nodes { node + nodes_of_decls (arrays_of params.now) < 2 ^ 32 }
        requires arrays { array + length (arrays_of params.now) < 2 ^ 32 }
        ensures { AllDeclared result self.old self.new (values_in arrays.now) (all_extents array (arrays_of params.now) node names.now) }
    {
        match params {
            [] => Ok(()),
            [Param::Number { .. }, rest @ ..] => self.declare_params(
                alloc, array, rest, node, names, arrays,
            ),
            [Param::Array(d), rest @ ..] => {
                let extents = d.extents.as_slice();
                self.declare(alloc, array, extents, node, names, first_values(arrays))?;
                self.declare_params(
                    alloc,
                    array + 1,
                    rest,
                    node + node_sum(extents),
                    names,
                    other_values(arrays),
                )
            }
        }
    }

    /// Arrays without values.
    pub fn declare_temps(
        &mut self,
        alloc: Global,
        array: u32,
        temps: &[Decl],
        node: u32,
        names: &[i64],
    ) -> Result<(), Halt>
        requires nodes { node + nodes_of_decls temps.now < 2 ^ 32 }
        requires arrays { array + length temps.now < 2 ^ 32 }
        ensures { AllDeclared result self.old self.new [] (all_extents array temps.now node names.now) }
    {
        let mut number = array;
        let mut first = node;
        for d in temps {
            let extents = d.extents.as_slice();
            self.declare(alloc, number, extents, first, names, &[])?;
            number += 1;
            first += node_sum(extents);
        }
        Ok(())
    }
}
