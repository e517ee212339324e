//! Small trees, as laws: `specs/Examples.antt` says each, with values that were found by hand.
ghost use Rattle.std.specs.Prelude.{◌≡◌, ◌≤◌, length, IfOk, IfSome};
ghost use Rattle.std.specs.List.{All};
ghost use Rattle.affc_quast.specs.Limits.{Shaped, FitsTree, widest};
ghost use Rattle.affc_quast.specs.Paths.{IsNear};
ghost use Rattle.affc_quast.specs.Seen.{seen};
ghost use Rattle.affc_quast.specs.Trees.{named_at, quotients_at, depth_of};
ghost use Rattle.affc_quast.specs.Examples.{TestsAreMetAtZero, QuotientsRoundDown, WaysAreCounted, LeavesInOrder, PaddedBehind, RangesOfQuotients, TreesInOrder};

use crate::quast::Quast;
use affc_ast::tree::Instance;
use std::alloc::{AllocError, Global};

/// What a tree names.
pub fn names()
    ensures tests_are_met_at_zero { TestsAreMetAtZero }
    ensures quotients_round_down { QuotientsRoundDown }
    ensures ways_are_counted { WaysAreCounted }
    ensures trees_in_order { TreesInOrder }
{}

/// Its leaves.
pub fn leaves()
    ensures in_order { LeavesInOrder }
    ensures padded_behind { PaddedBehind }
    ensures ranges_of_quotients { RangesOfQuotients }
{}

/// A tree may have 400 tests and divisions above a leaf.
pub fn deepest(tree: &Quast, alloc: Global, point: &[i64]) -> Result<Option<Instance>, AllocError>
    requires shaped { Shaped (length point.now) (seen tree.now) }
    requires limits { FitsTree widest (seen tree.now) }
    requires deep { depth_of (seen tree.now) ≡ 400 }
    requires few { length point.now ≤ 128 }
    requires near { All IsNear point.now }
    requires quotients { All IsNear (quotients_at (seen tree.now) point.now) }
    requires iterators { IfSome (named_at (seen tree.now) point.now) (λ b. All IsNear b.iterators) }
    ensures { IfOk result (λ o. o ≡ named_at (seen tree.now) point.now) }
{
    tree.source_at(alloc, point)
}
