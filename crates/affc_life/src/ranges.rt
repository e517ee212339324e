//! The ranges of a clash system's columns.
ghost use Rattle.std.specs.Prelude.{◌≡◌, ◌+◌, ◌^◌, ◌≤◌, ◌≤ℤ◌, ◌++◌, ◌∷◌, [], pos, length, map, IfOk, OnOk};
ghost use Rattle.std.specs.List.{All};
ghost use Rattle.affc_system.specs.Boxes.{IsBox};
ghost use Rattle.affc_system.specs.Pairs.{WithinReach};
ghost use Rattle.affc_ast.specs.Index.{floor_of};
ghost use Rattle.affc_nest.specs.Divisions.{held, quotient_range};
ghost use Rattle.affc_quast.specs.Leaves.{path_ranges};
ghost use Rattle.affc_quast.specs.SeenLeaves.{division_seen, leaf_seen};
ghost use Rattle.affc_life.specs.Asked.{IsLight, AreDivisions, AreSeated};
ghost use Rattle.affc_life.specs.Clashes.{clash_ranges};

use affc_nest::divisions::add_quotient;
use affc_nest::{Division, Entry, Nest};
use affc_quast::leaves::Leaf;
use affc_system::BoxOf;
use std::alloc::AllocError;

/// Adds the ranges of these quotients, each over the ranges before it.
fn add_quotients(divisions: &[Division], ranges: &mut BoxOf) -> Result<(), AllocError>
    requires divisions { AreDivisions (length ranges.old) (map division_seen divisions.now) }
    requires near { All WithinReach ranges.old }
    requires few { length ranges.old + length divisions.now ≤ 500 }
    ensures { OnOk result (ranges.new ≡ path_ranges ranges.old (map division_seen divisions.now)) }
{
    match divisions {
        [] => Ok(()),
        [division, rest @ ..] => {
            add_quotient(&division.form, division.by, ranges)?;
            add_quotients(rest, ranges)
        }
    }
}

/// Those of the parameters and of the reader's iterators, of the quotients, and of the writer's iterators.
pub(crate) fn clash_ranges(
    nest: &Nest,
    reader: &Entry,
    leaf: &Leaf,
    writer: &Entry,
) -> Result<BoxOf, AllocError>
    requires { AreSeated nest.now reader.now (leaf_seen leaf.now) writer.now }
    ensures { IfOk result (λ r. r ≡ clash_ranges nest.now reader.now (leaf_seen leaf.now) writer.now) }
{
    let mut ranges = nest.params.clone()?;
    ranges.append(reader.ranges.ranges())?;
    add_quotients(leaf.divisions.as_slice(), &mut ranges)?;
    ranges.append(writer.ranges.ranges())?;
    Ok(ranges)
}
