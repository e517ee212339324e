//! What follows from the definitions. Each law is the contract of a function that does nothing.
ghost use Rattle.std.specs.Prelude.{◌≡◌, ◌↔◌, ◌⊎◌, ℤ, List, length};
ghost use Rattle.affc_system.specs.Systems.{Rows, IsPoint};
ghost use Rattle.affc_system.specs.Boxes.{InBox};
ghost use Rattle.affc_system.specs.Order.{LexLe};
ghost use Rattle.affc_leaf.specs.Boxed.{with_box};

/// The points of a system with the rows of a box are those of the system that lie in the box.
pub fn box_rows_are_the_box()
    ensures { (system : Rows) (ranges : List (ℤ × ℤ)) (x : List ℤ)
        → length ranges ≡ system.columns → IsPoint (with_box system ranges) x ↔ (IsPoint system x × InBox ranges x) }
{}

/// Any two points are in lexicographic order one way round, and both ways only where they are the same.
pub fn points_are_ordered()
    ensures total { (x z : List ℤ) → LexLe x z ⊎ LexLe z x }
    ensures same { (x z : List ℤ) → LexLe x z → LexLe z x → x ≡ z }
{}
