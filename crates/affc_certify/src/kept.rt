//! The folds of a program that its certificate shows, and their entries.
ghost use Rattle.std.specs.Prelude.{◌≡◌, ◌++◌, ◌∷◌, [], reverse, MatchOption, OnOk, IfOk};
ghost use Rattle.affc_split.specs.Budgets.{IsLater};
ghost use Rattle.affc_sched.specs.Legality.{IsAsked};
ghost use Rattle.affc_quast.specs.Seen.{trees_of};
ghost use Rattle.affc_life.specs.Asked.{KeepLimits};
ghost use Rattle.affc_certify.specs.Making.{IsPut, KeepTaken};

use crate::clashing::Subject;
use crate::folds::{Entry, fold_entry, whole_entry};
use affc_ast::tree::{ArrayId, Role};
use affc_basis::Fold;
use affc_certvalue::fold::fold::CertFold;
use affc_farkas::Proof;
use affc_nest::ArrayInfo;
use affc_split::{Budget, Stop};
use sqlite_items::Items;
use std::alloc::{AllocError, Global};

/// What is made of the folds so far.
#[derive(Drop)]
pub(crate) struct Made {
    /// The entries, one for each temporary of at least one dimension.
    pub entries: Items<CertFold>,
    /// The proofs of all questions.
    pub proofs: Items<Proof>,
    /// The folds that are shown.
    pub kept: Items<(ArrayId, Fold)>,
}

/// The folds from the last one to the first.
pub(crate) fn turned(
    alloc: Global,
    mut folds: Items<(ArrayId, Fold)>,
) -> Result<Items<(ArrayId, Fold)>, AllocError>
    ensures { IfOk result (λ out. out ≡ reverse folds) }
{
    let mut out = Items::new(alloc);
    while let Some(fold) = folds.pop() {
        out.push(fold)?;
    }
    Ok(out)
}

/// Whether the last of these folds is of this array.
fn is_next(left: &[(ArrayId, Fold)], array: ArrayId) -> bool {
    match left {
        [] => false,
        [.., (of, _)] => of.0 == array.0,
    }
}

/// The fold of an array, if it is the last of these.
fn next_fold(left: &mut Items<(ArrayId, Fold)>, array: ArrayId) -> Option<(ArrayId, Fold)>
    ensures { MatchOption result (left.new ≡ left.old) (λ fold. left.old ≡ left.new ++ fold ∷ []) }
{
    if is_next(left.as_slice(), array) {
        left.pop()
    } else {
        None
    }
}

impl Made {
    /// Adds an entry with its proofs.
    fn add(&mut self, entry: Entry) -> Result<(), AllocError>
        ensures { self.new.kept ≡ self.old.kept }
    {
        let Entry { fold, proofs } = entry;
        self.entries.push(fold)?;
        self.proofs.append(proofs)
    }

    /// Adds the entry of a temporary with this fold. Where the budget ends the fold is left out.
    fn add_fold(
        &mut self,
        alloc: Global,
        asked: Subject<'_>,
        fold: (ArrayId, Fold),
        info: &ArrayInfo,
        budget: &mut Budget,
    ) -> Result<(), AllocError>
        requires asked { IsAsked asked.nest.now asked.schedule.now }
        requires trees { KeepLimits asked.nest.now (trees_of asked.flow.now) }
        ensures put { OnOk result (IsPut budget.new fold self.old.kept self.new.kept) }
        ensures later { IsLater budget.old budget.new }
    {
        match fold_entry(alloc, asked, fold.0, &fold.1, budget) {
            Ok(entry) => {
                self.add(entry)?;
                self.kept.push(fold)
            }
            Err(Stop::Budget) => {
                let whole = whole_entry(alloc, asked, fold.0, info)?;
                self.add(whole)
            }
            Err(Stop::Memory) => Err(AllocError),
        }
    }

    /// Adds the entry of an array, if it is a temporary.
    pub(crate) fn add_array(
        &mut self,
        alloc: Global,
        asked: Subject<'_>,
        array: ArrayId,
        info: &ArrayInfo,
        left: &mut Items<(ArrayId, Fold)>,
        budget: &mut Budget,
    ) -> Result<(), AllocError>
        requires asked { IsAsked asked.nest.now asked.schedule.now }
        requires trees { KeepLimits asked.nest.now (trees_of asked.flow.now) }
        ensures taken { OnOk result (KeepTaken budget.old budget.new left.old left.new self.old.kept self.new.kept) }
        ensures later { IsLater budget.old budget.new }
    {
        if info.role != Role::Temp {
            return Ok(());
        }
        match next_fold(left, array) {
            Some(fold) => {
                if info.extents.is_empty() {
                    self.kept.push(fold)
                } else {
                    self.add_fold(alloc, asked, fold, info, budget)
                }
            }
            None => {
                if info.extents.is_empty() {
                    return Ok(());
                }
                let whole = whole_entry(alloc, asked, array, info)?;
                self.add(whole)
            }
        }
    }
}
