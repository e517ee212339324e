//! What follows from the definitions. Each law is the contract of a function that does nothing.
ghost use Rattle.std.specs.Prelude.{◌≡◌, ◌↔◌, ◌⊎◌, ◌∷◌, [], ◌++◌, ℤ, pos, ◌≤ℤ◌, List};
ghost use Rattle.std.specs.List.{All};
ghost use Rattle.affc_rows.specs.Forms.{Affine, value};
ghost use Rattle.affc_system.specs.Systems.{Rows, Meets, Met, IsPoint};
ghost use Rattle.affc_system.specs.Boxes.{IsBox, InBox, IsCorner};
ghost use Rattle.affc_system.specs.ElementPairs.{IsPairOf};
ghost use Rattle.affc_system.specs.declared.pairs.PairSystem.{PairSystem};

/// A point of a system with one row more is a point of the system at which that row is at least 0.
pub fn point_of_longer_system()
    ensures { (system : Rows) (row : Affine) (point : List ℤ)
        → IsPoint (record system { rows = system.rows ++ row ∷ [] }) point ↔ (IsPoint system point × (pos 0 ≤ℤ value row point)) }
{}

/// A point of a system with more rows is a point of the system at which each of these rows is at least 0.
pub fn point_of_more_rows()
    ensures { (system : Rows) (more : List Affine) (point : List ℤ)
        → IsPoint (record system { rows = system.rows ++ more }) point ↔ (IsPoint system point × All (Meets point) more) }
{}

/// The corners of a box lie in it.
pub fn corner_in_box()
    ensures { (ranges : List (ℤ × ℤ)) (point : List ℤ) → IsBox ranges → IsCorner ranges point → InBox ranges point }
{}

/// Rows are met one after another exactly where each of them is at least 0.
pub fn met_rows_are_all_met()
    ensures { (point : List ℤ) (rows : List Affine) → Met point rows ↔ All (Meets point) rows }
{}

/// A pair of more systems is a pair of some of them, and its order is of no account.
pub fn pair_of_more_systems()
    ensures some { (first second : List PairSystem) (p x y : List ℤ)
        → IsPairOf (first ++ second) p x y ↔ (IsPairOf first p x y ⊎ IsPairOf second p x y) }
    ensures either { (systems : List PairSystem) (p x y : List ℤ) → IsPairOf systems p x y → IsPairOf systems p y x }
    ensures none { (p x y : List ℤ) → IsPairOf [] p x y → ⊥ }
{}
