//! Questions as systems.
ghost use Rattle.std.specs.Prelude.{◌≡◌, ◌+◌, ◌*◌, ◌≤◌, ◌++◌, drop, length, map, IsTrue, IfOk, OnOk};
ghost use Rattle.std.specs.List.{All};
ghost use Rattle.affc_system.specs.Systems.{IsRow};
ghost use Rattle.affc_trace.specs.Law.{IsIn};
ghost use Rattle.affc_nest.specs.Asked.{IsNest};
ghost use Rattle.affc_nest.specs.Domains.{with_rows};
ghost use Rattle.affc_nest.specs.Sides.{IsSide};
ghost use Rattle.affc_order.specs.Spread.{spread};
ghost use Rattle.affc_order.specs.Systems.{pair_columns};
ghost use Rattle.affc_sched.specs.Questions.{equal_rows, context_count, pair_rows};
ghost use Rattle.affc_sched.specs.Spreadable.{IsSpreadable};

use affc_ast::tree::Rel;
use affc_nest::rows::add_compare;
use affc_nest::{Access, Entry, Nest};
use affc_rows::Form;
use affc_system::System;
use std::alloc::{AllocError, Global};

/// Adds rows, each with so many columns more between and behind.
pub fn add_spread_rows(
    alloc: Global,
    system: &mut System,
    rows: &[Form],
    params: u32,
    between: u32,
    behind: u32,
) -> Result<(), AllocError>
    requires fit { All (IsSpreadable params between behind system.old.columns) rows.now }
    requires room { length system.old.rows + length rows.now ≤ 1024 }
    ensures { OnOk result (system.new ≡ with_rows system.old (map (spread params between behind) rows.now)) }
{
    match rows {
        [] => Ok(()),
        [row, rest @ ..] => {
            system.add(row.spread(alloc, params, between, behind)?)?;
            add_spread_rows(alloc, system, rest, params, between, behind)
        }
    }
}

/// Adds the rows that forms of two statements are equal in turn.
#[tactic(auto, using(crate::proofs::SystemLemmas::side_first, crate::proofs::SystemLemmas::side_second))]
pub fn add_equal(
    alloc: Global,
    system: &mut System,
    fs: &[Form],
    gs: &[Form],
    params: u32,
    outer: u32,
    inner: u32,
) -> Result<(), AllocError>
    requires firsts { All (IsSide (params + outer)) fs.now }
    requires seconds { All (IsSide (params + inner)) gs.now }
    requires columns { system.old.columns ≡ (params + outer) + inner }
    requires room { length system.old.rows + 2 * length fs.now ≤ 1024 }
    ensures { OnOk result (system.new ≡ with_rows system.old (equal_rows (map (spread params 0 inner) fs.now) (map (spread params outer 0) gs.now))) }
{
    match fs {
        [] => Ok(()),
        [f, later_fs @ ..] => match gs {
            [] => Ok(()),
            [g, later_gs @ ..] => {
                let f = f.spread(alloc, params, 0, inner)?;
                let g = g.spread(alloc, params, outer, 0)?;
                add_compare(alloc, system, Rel::Equal, &f, &g)?;
                add_equal(alloc, system, later_fs, later_gs, params, outer, inner)
            }
        },
    }
}

/// The rows of a domain behind those of the parameters and of the context.
pub fn own_rows<'a>(nest: &Nest, entry: &'a Entry) -> &'a [Form]
    requires nest { IsNest nest.now }
    requires entry { IsIn entry.now nest.now.entries }
    requires living { IsTrue entry.now.alive }
    ensures rows { result.now ≡ drop (context_count nest.now) entry.now.domain.rows }
    ensures fit { All (IsRow entry.now.domain.columns) result.now }
    ensures few { length result.now ≤ 134 }
{
    let count = 2 * nest.params.ranges().len() + nest.context.rows().len();
    let (_context, own) = entry.domain.rows().split_at(count);
    own
}

/// The domains of an instance of each of two statements, over so many parameters, iterators of the first and iterators of
/// the second.
fn both_domains(
    alloc: Global,
    domain: &System,
    own: &[Form],
    params: u32,
    outer: u32,
    inner: u32,
) -> Result<System, AllocError>
    requires columns { (params + outer) + inner ≤ 128 }
    requires first { domain.now.columns ≡ params + outer }
    requires second { All (IsRow (params + inner)) own.now }
    requires few { length domain.now.rows ≤ 134 }
    requires few_own { length own.now ≤ 134 }
    ensures value { IfOk result (λ s. s ≡ record { columns = (params + outer) + inner; rows = map (spread params 0 inner) domain.now.rows ++ map (spread params outer 0) own.now }) }
{
    let mut system = System::new(alloc, params + outer + inner);
    add_spread_rows(alloc, &mut system, domain.rows(), params, 0, inner)?;
    add_spread_rows(alloc, &mut system, own, params, outer, 0)?;
    Ok(system)
}

/// The rows that the questions of two accesses of one array begin with: both instances, and equal subscripts. Over the parameters,
/// the first's iterators and the second's.
pub fn pair_rows(
    alloc: Global,
    nest: &Nest,
    a: &Entry,
    b: &Entry,
    x: &Access,
    y: &Access,
) -> Result<System, AllocError>
    requires nest { IsNest nest.now }
    requires first { IsIn a.now nest.now.entries }
    requires second { IsIn b.now nest.now.entries }
    requires living { IsTrue b.now.alive }
    requires from { IsIn x.now a.now.accesses }
    requires to { IsIn y.now b.now.accesses }
    requires few { length x.now.subs ≤ 4 }
    ensures value { IfOk result (λ s. s ≡ record { columns = pair_columns nest.now a.now.part b.now.part; rows = pair_rows nest.now a.now b.now x.now y.now }) }
    ensures few { IfOk result (λ s. length s.rows ≤ 900) }
{
    let params = nest.params.ranges().len() as u32;
    let outer = a.loops.len() as u32;
    let inner = b.loops.len() as u32;
    let own = own_rows(nest, b);
    let mut system = both_domains(alloc, &a.domain, own, params, outer, inner)?;
    let (xs, ys) = (x.subs.as_slice(), y.subs.as_slice());
    add_equal(alloc, &mut system, xs, ys, params, outer, inner)?;
    Ok(system)
}
