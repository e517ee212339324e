//! The bases of folds.

ghost use Rattle.std.specs.Prelude.{IfOk, IfErr};
ghost use Rattle.affc_schedtext.specs.Rules as rules;
ghost use Rattle.affc_schedtext.specs.Seen.{line_seen};
ghost use Rattle.affc_plan.specs.Lines.{IsFew};
ghost use Rattle.affc_plan.specs.Maps.{IsRightFold, IsBasisOfLine, BrokenIn};

use crate::lists::{fold_sides, forms};
use crate::lost::Lost;
use affc_basis::basis::{Basis, given};
use affc_schedtext::draft::LineDraft;
use affc_schedtext::outline::Outline;
use std::alloc::Global;

/// The basis of a fold's line.
pub fn basis_of(alloc: Global, outline: &Outline, line: &LineDraft) -> Result<Basis, Lost>
    requires few { IsFew outline.now }
    requires right { IsRightFold outline.now (line_seen line.now) }
    ensures basis { IfOk result (IsBasisOfLine (rules.fold_sides outline.now (line_seen line.now))) }
    ensures broken { IfErr result (BrokenIn (rules.fold_sides outline.now (line_seen line.now))) }
{
    let sides = fold_sides(outline, line);
    let rows = forms(alloc, sides.there, line.forms.as_slice())?;
    let inverse = forms(alloc, sides.back, line.inverse.as_slice())?;
    match given(rows, inverse) {
        Ok(basis) => Ok(basis),
        Err(broken) => Err(Lost::Component(broken.component)),
    }
}
