//! The names that are in sight of a part of a tree.
ghost use Rattle.std.specs.Prelude.{◌≡◌, nat_lt, slice_get, ◌++◌, Some};
ghost use Rattle.std.specs.List.{list_any};
ghost use Rattle.affc_lex.specs.Bytes.{same};
ghost use Rattle.affc_grammar.specs.Names.{is_input};
ghost use Rattle.affc_wellnamed.specs.Known.{param_arrays, param_name, takes};
ghost use Rattle.affc_wellnamed.specs.Sights.{arrays_in, numbers_in, taken_in};

use affc_ast::tree::{Decl, Local, Param, Role};

// From the innermost name outwards.
#[derive(Clone, Copy)]
pub enum Sight<'a> {
    // behind some parameters, of which so many are numbers, and some temporaries
    Outside {
        function: &'a str,
        params: &'a [Param],
        temps: &'a [Decl],
        numbers: u64,
    },
    Iterator(&'a str, &'a Sight<'a>),
    Locals(&'a [Local], &'a Sight<'a>),
}

pub fn name_of_param(param: &Param) -> &str
    ensures { result.now ≡ param_name param.now }
{
    match param {
        Param::Number { name, .. } => name.as_str(),
        Param::Array(d) => d.name.as_str(),
    }
}

fn is_param(params: &[Param], name: &str) -> bool
    ensures { result ≡ list_any (λ q. same (param_name q) name.now) params.now }
{
    for param in params {
        if name_of_param(param) == name {
            return true;
        }
    }
    false
}

fn is_temp(temps: &[Decl], name: &str) -> bool
    ensures { result ≡ list_any (λ d. same d.name name.now) temps.now }
{
    for temp in temps {
        if temp.name.as_str() == name {
            return true;
        }
    }
    false
}

fn is_local(locals: &[Local], name: &str) -> bool
    ensures { result ≡ list_any (λ l. same l.name name.now) locals.now }
{
    for local in locals {
        if local.name.as_str() == name {
            return true;
        }
    }
    false
}

/// Whether something in sight has this name.
pub fn is_taken(sight: &Sight<'_>, name: &str) -> bool
    ensures { result ≡ taken_in sight.now name.now }
{
    match sight {
        Sight::Outside {
            function,
            params,
            temps,
            ..
        } => *function == name || (is_param(params, name) || is_temp(temps, name)),
        Sight::Iterator(iterator, outer) => *iterator == name || is_taken(outer, name),
        Sight::Locals(locals, outer) => is_local(locals, name) || is_taken(outer, name),
    }
}

/// Whether a number in sight has this number.
pub fn has_number(sight: &Sight<'_>, id: u64) -> bool
    ensures { result ≡ nat_lt id (numbers_in sight.now) }
{
    match sight {
        Sight::Outside { numbers, .. } => id < *numbers,
        Sight::Iterator(_, outer) => id == 0 || has_number(outer, id - 1),
        Sight::Locals(locals, outer) => {
            let count = locals.len() as u64;
            id < count || has_number(outer, id - count)
        }
    }
}

fn is_input(role: Role) -> bool
    ensures { result ≡ is_input role }
{
    matches!(role, Role::Input)
}

fn takes(d: &Decl, is_store: bool, count: usize) -> bool
    ensures { result ≡ takes is_store count (Some d.now) }
{
    !(is_store && is_input(d.role)) && d.extents.len() == count
}

fn one_takes(ds: &[Decl], at: usize, is_store: bool, count: usize) -> bool
    ensures { result ≡ takes is_store count (slice_get ds.now at) }
{
    match ds.get(at) {
        Some(d) => takes(d, is_store, count),
        None => false,
    }
}

fn array_takes(params: &[Param], temps: &[Decl], id: usize, is_store: bool, count: usize) -> bool
    ensures { result ≡ takes is_store count (slice_get (param_arrays params.now ++ temps.now) id) }
{
    let mut left = id;
    for param in params {
        if let Param::Array(d) = param {
            if left == 0 {
                return takes(d, is_store, count);
            }
            left -= 1;
        }
    }
    one_takes(temps, left, is_store, count)
}

/// Whether an array in sight has this number, and so many dimensions, and is no input where it is stored to.
pub fn has_array(sight: &Sight<'_>, id: usize, is_store: bool, count: usize) -> bool
    ensures { result ≡ takes is_store count (slice_get (arrays_in sight.now) id) }
{
    match sight {
        Sight::Outside { params, temps, .. } => array_takes(params, temps, id, is_store, count),
        Sight::Iterator(_, outer) => has_array(outer, id, is_store, count),
        Sight::Locals(_, outer) => has_array(outer, id, is_store, count),
    }
}
