//! The layout of a nest: what the shape of its certificates depends on.
ghost use Rattle.std.specs.Prelude.{◌≡◌, ◌++◌, ◌∷◌, [], ◌&&◌, nat_lt, if◌then◌else◌, length, map, flat_map, IfOk, OnOk};
ghost use Rattle.affc_nest.specs.Parts.{coordinates};
ghost use Rattle.affc_flow.specs.Questions.{is_temp};
ghost use Rattle.affc_accept.specs.Layouts as specs;

use affc_ast::tree::{ArrayId, Role};
use affc_cert::{Layout, Load, Store, Temporary};
use affc_flow::store_for;
use affc_nest::{Access, ArrayInfo, Entry, Nest};
use sqlite_items::Items;
use std::alloc::{AllocError, Global};

// A length in 32 bits. There is no memory for a longer list.
fn narrow(n: usize) -> Result<u32, AllocError>
    ensures { IfOk result (λ m. m ≡ n) }
{
    match u32::try_from(n) {
        Ok(n) => Ok(n),
        Err(_) => Err(AllocError),
    }
}

// ---- Loads

// Whether a part can have instances, and stores this array.
#[tactic(auto, using(crate::proofs::Listed::is_a_writer, crate::proofs::Listed::is_no_writer))]
fn is_writer(entry: &Entry, array: ArrayId) -> bool
    ensures { result ≡ specs.is_writer array.0 entry.now }
{
    match store_for(entry, array.0) {
        Some(_) => true,
        None => false,
    }
}

// Adds the part with this number, if it is such a one.
fn add_store(
    part: u32,
    entry: &Entry,
    array: ArrayId,
    out: &mut Items<Store>,
) -> Result<(), AllocError>
    ensures { OnOk result (out.new ≡ out.old ++ (if specs.is_writer array.0 entry.now then record { statement = part; loops = coordinates entry.now } ∷ [] else [])) }
{
    if is_writer(entry, array) {
        let loops = narrow(entry.coordinates())?;
        out.push(Store {
            statement: part,
            loops,
        })?;
    }
    Ok(())
}

// Adds such parts among these, which have the numbers from this one on.
fn add_stores(
    first: u32,
    entries: &[Entry],
    array: ArrayId,
    out: &mut Items<Store>,
) -> Result<(), AllocError>
    ensures { OnOk result (out.new ≡ out.old ++ specs.stores_from array.0 first entries.now) }
{
    match entries {
        [] => Ok(()),
        [entry, rest @ ..] => {
            add_store(first, entry, array, out)?;
            let Some(next) = first.checked_add(1) else {
                return Err(AllocError);
            };
            add_stores(next, rest, array, out)
        }
    }
}

// A load of a part.
fn load(alloc: Global, nest: &Nest, entry: &Entry, access: &Access) -> Result<Load, AllocError>
    ensures { IfOk result (λ l. l ≡ specs.load_of nest.now entry.now access.now) }
{
    let params = narrow(nest.params.ranges().len())?;
    let own = narrow(entry.coordinates())?;
    let Some(columns) = params.checked_add(own) else {
        return Err(AllocError);
    };
    let mut stores = Items::new(alloc);
    add_stores(0, nest.entries.as_slice(), access.array, &mut stores)?;
    Ok(Load { columns, stores })
}

// Adds the loads of a part among these accesses, all but the last.
fn add_loads_among(
    alloc: Global,
    nest: &Nest,
    entry: &Entry,
    accesses: &[Access],
    out: &mut Items<Load>,
) -> Result<(), AllocError>
    ensures { OnOk result (out.new ≡ out.old ++ specs.loads_among nest.now entry.now accesses.now) }
{
    match accesses {
        [] => Ok(()),
        [_] => Ok(()),
        [access, rest @ ..] => {
            let load = load(alloc, nest, entry, access)?;
            out.push(load)?;
            add_loads_among(alloc, nest, entry, rest, out)
        }
    }
}

// Adds the loads of these parts.
fn add_loads(
    alloc: Global,
    nest: &Nest,
    entries: &[Entry],
    out: &mut Items<Load>,
) -> Result<(), AllocError>
    ensures { OnOk result (out.new ≡ out.old ++ flat_map (specs.loads_of nest.now) entries.now) }
{
    match entries {
        [] => Ok(()),
        [entry, rest @ ..] => {
            add_loads_among(alloc, nest, entry, entry.accesses.as_slice(), out)?;
            add_loads(alloc, nest, rest, out)
        }
    }
}

// ---- Temporaries

// Whether an array is a temporary of at least one dimension.
fn is_folded(info: &ArrayInfo) -> bool
    ensures { result ≡ (is_temp info.now.role && nat_lt 0 (length info.now.extents)) }
{
    match info.role {
        Role::Temp => !info.extents.as_slice().is_empty(),
        Role::Input => false,
        Role::Output => false,
    }
}

// Adds the array with this number, if it is such a one. There is none of more than four dimensions in a program.
fn add_temporary(array: u32, info: &ArrayInfo, out: &mut Items<Temporary>) -> Result<(), AllocError>
    ensures { OnOk result (map specs.dimensions_of out.new ≡ map specs.dimensions_of out.old ++ (if is_temp info.now.role && nat_lt 0 (length info.now.extents) then (array, length info.now.extents) ∷ [] else [])) }
{
    if is_folded(info) {
        let dimensions = narrow(info.extents.len())?;
        if dimensions > 4 {
            return Err(AllocError);
        }
        out.push(Temporary { array, dimensions })?;
    }
    Ok(())
}

// Adds such arrays among these, which have the numbers from this one on.
fn add_temporaries(
    first: u32,
    arrays: &[ArrayInfo],
    out: &mut Items<Temporary>,
) -> Result<(), AllocError>
    ensures { OnOk result (map specs.dimensions_of out.new ≡ map specs.dimensions_of out.old ++ specs.temporaries_from first arrays.now) }
{
    match arrays {
        [] => Ok(()),
        [info, rest @ ..] => {
            add_temporary(first, info, out)?;
            let Some(next) = first.checked_add(1) else {
                return Err(AllocError);
            };
            add_temporaries(next, rest, out)
        }
    }
}

/// The layout of a nest. There is no memory for a list that is longer than 2^32.
pub fn layout(alloc: Global, nest: &Nest) -> Result<Layout, AllocError>
    ensures { IfOk result (specs.IsLayout nest.now) }
{
    let mut loads = Items::new(alloc);
    add_loads(alloc, nest, nest.entries.as_slice(), &mut loads)?;
    let mut temporaries = Items::new(alloc);
    add_temporaries(0, nest.arrays.as_slice(), &mut temporaries)?;
    let parameters = nest.context.columns();
    Ok(Layout {
        parameters,
        loads,
        temporaries,
    })
}
