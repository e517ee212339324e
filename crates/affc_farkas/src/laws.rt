//! What follows from the definitions. Each law is the contract of a function that does nothing.
ghost use Rattle.std.specs.Prelude.{◌≡◌, ◌≤◌, ◌+◌, ℕ, ℤ, List, length};
ghost use Rattle.std.specs.List.{All};
ghost use Rattle.affc_rows.specs.Forms.{Affine};
ghost use Rattle.affc_system.specs.Systems.{Rows, IsRow, IsPoint, HasNoPoint};
ghost use Rattle.affc_farkas.specs.Proofs.{IsLeaf, ValidProof};
ghost use Rattle.affc_farkas.specs.Depths.{depth, StandAtNode};
ghost use Rattle.affc_farkas.specs.declared.proof.Proof.{Proof};
ghost use Rattle.affc_farkas.specs.Rational.{RationalPoint};

/// An integer point of a system is a rational point of its rows.
pub fn integer_point_is_rational()
    ensures { (system : Rows) (x : List ℤ) → IsPoint system x → RationalPoint system.columns system.rows }
{}

/// Rows that a leaf refutes have no rational point either.
pub fn leaf_refutes_rational_points()
    ensures { (columns : ℕ) (rows : List Affine) (by : List (ℕ × ℕ))
        → All (IsRow columns) rows → IsLeaf columns rows by → RationalPoint columns rows → ⊥ }
{}

/// A system with a valid proof has no integer point.
pub fn valid_proof_refutes_points()
    ensures { (system : Rows) (proof : Proof) → All (IsRow system.columns) system.rows → ValidProof system proof → HasNoPoint system }
{}

/// A node of a proof has at most as many rows as stand above the proof, and one for each level of its depth; the proof itself has
/// those above it, and some node has as many.
pub fn most_rows_by_depth()
    ensures few { (above : List Affine) (proof : Proof) (rows : List Affine)
        → StandAtNode above proof rows → length rows ≤ length above + depth proof }
    ensures above { (above : List Affine) (proof : Proof) → StandAtNode above proof above }
    ensures reached { (above : List Affine) (proof : Proof)
        → (rows : List Affine) × StandAtNode above proof rows × (length rows ≡ length above + depth proof) }
{}
