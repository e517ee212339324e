//! The bases of all folds of a draft.

ghost use Rattle.std.specs.Prelude.{◌≡◌, Some, map, IfOk, IfErr};
ghost use Rattle.affc_schedtext.specs.Answers.{AreBasesOfLines};
ghost use Rattle.affc_schedtext.specs.Outline as outlines;
ghost use Rattle.affc_schedtext.specs.Seen.{line_seen};
ghost use Rattle.affc_plan.specs.Folds.{AreRightFolds, FoldsFault};
ghost use Rattle.affc_plan.specs.Lines.{IsFew};
ghost use Rattle.affc_plan.specs.Maps.{IsRightFold};

use crate::bases::basis_of;
use crate::lost::Lost;
use affc_ast::tree::ArrayId;
use affc_basis::basis::Basis;
use affc_schedtext::draft::LineDraft;
use affc_schedtext::outline::{Outline, array_of};
use affc_schedtext::plan::SchedFault;
use sqlite_items::Items;
use std::alloc::Global;

/// The array of a fold's line.
fn array_id(outline: &Outline, line: &LineDraft) -> ArrayId
    requires few { IsFew outline.now }
    requires right { IsRightFold outline.now (line_seen line.now) }
    ensures { outlines.array_of outline.now (line_seen line.now).name ≡ Some result.0 }
{
    match array_of(outline, line.word.name.as_str()) {
        Some(number) => ArrayId(number as u32),
        None => unreachable!(),
    }
}

/// The bases of folds, in their order, or the first fold whose lists are no basis.
pub fn bases(
    alloc: Global,
    outline: &Outline,
    folds: &[LineDraft],
) -> Result<Items<(ArrayId, Basis)>, SchedFault>
    requires few { IsFew outline.now }
    requires right { AreRightFolds outline.now folds.now }
    ensures bases { IfOk result (AreBasesOfLines outline.now (map line_seen folds.now)) }
    ensures fault { IfErr result (FoldsFault outline.now (map line_seen folds.now)) }
{
    let mut bases = Items::new(alloc);
    for line in folds {
        let array = array_id(outline, line);
        match basis_of(alloc, outline, line) {
            Ok(basis) => bases.push((array, basis))?,
            Err(Lost::Memory) => return Err(SchedFault::Memory),
            Err(Lost::Component(component)) => {
                return Err(SchedFault::Basis { array, component });
            }
        }
    }
    Ok(bases)
}
