//! What the definitions give at small rows, as laws: `specs/Examples.antt` says each, with values that were found by hand from
//! the rules; and tests that are stored and asked.
ghost use Rattle.std.specs.Prelude.{◌≡◌, ◌↔◌, false, length, IfOk, IsTrue};
ghost use Rattle.affc_eliminate.specs.Screens.{TakesForms, ImpliesWhereTrue, HasSameSlope};
ghost use Rattle.affc_eliminate.specs.Steps.{IsStep};
ghost use Rattle.affc_eliminate.specs.Examples.{first_rows, TwoRowsAreLeft, FiveHalvesExtend, TenDoesNotExtend, TrivialRows, SameSlopes, OppositeOfRow, Weights, SumsOfGiven, InLeastTerms, SignsOfTwo, WideRows, XIsEliminated, NotOtherwise, NoPairTwice, Places};

use crate::elimination::eliminate;
use crate::kept::{Kept, Step};
use crate::screen::{Screen, Test, never, same_slope};
use affc_rows::Form;
use std::alloc::{AllocError, Global};

/// A column that is eliminated from four rows, two of which are opposite.
pub fn steps()
    ensures two_rows_are_left { TwoRowsAreLeft }
    ensures five_halves_extend { FiveHalvesExtend }
    ensures ten_does_not_extend { TenDoesNotExtend }
{}

/// Rows that say nothing, rows of one slope, and opposite rows.
pub fn rows()
    ensures trivial { TrivialRows }
    ensures slopes { SameSlopes }
    ensures opposite { OppositeOfRow }
{}

/// Multipliers, the row that cancels a column between two rows, and rows in which a number is too great.
pub fn mixtures()
    ensures weights { Weights }
    ensures sums { SumsOfGiven }
    ensures least { InLeastTerms }
    ensures signs { SignsOfTwo }
    ensures wide { WideRows }
{}

/// A step of an elimination: what it leaves of four rows, and what it doesn't.
pub fn elimination()
    ensures eliminated { XIsEliminated }
    ensures otherwise { NotOtherwise }
    ensures pairs { NoPairTwice }
    ensures places { Places }
{}

/// The column is eliminated from these four rows.
pub fn without_x<F: Test>(
    alloc: Global,
    rows: &[Kept],
    screen: &Screen<F>,
) -> Result<Step, AllocError>
    requires { rows.now ≡ first_rows }
    ensures { IfOk result (IsStep (F.answers screen.now.test) first_rows 0 4) }
{
    eliminate(alloc, rows, 0, 4, screen)
}

/// A test is stored and asked once.
pub fn asked<F: Test>(test: F, kept: &Form, other: &Form) -> bool
    requires widths { length kept.now.coefs ≡ length other.now.coefs }
    requires takes { TakesForms (F.takes test) }
    requires implies { ImpliesWhereTrue (F.answers test) }
    ensures { F.answers test kept.now other.now result }
{
    Screen::new(test).implies(kept, other)
}

/// `same_slope` can be stored.
pub fn by_slope(kept: &Form, other: &Form) -> bool
    requires { length kept.now.coefs ≡ length other.now.coefs }
    ensures { IsTrue result ↔ HasSameSlope kept.now other.now }
{
    asked(same_slope, kept, other)
}

/// `never` can be stored.
pub fn by_never(kept: &Form, other: &Form) -> bool
    requires { length kept.now.coefs ≡ length other.now.coefs }
    ensures { result ≡ false }
{
    asked(never, kept, other)
}
