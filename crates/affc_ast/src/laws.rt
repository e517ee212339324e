//! Laws over the definitions of `specs/`: functions without a body whose contracts are the statements.

ghost use Rattle.std.specs.Prelude.{◌≡◌, ℕ, suc, min, ◌+◌, ◌*◌, ℤ, pos, ◌+ℤ◌, ◌<ℤ◌, ◌≤ℤ◌, List, length, Some, Ok, Bool, IsTrue, true, not, map, if◌then◌else◌};
ghost use Rattle.std.specs.List.{list_any};
ghost use Rattle.std.specs.FinMap.Entries.{is_sorted};
ghost use Rattle.affc_ast.specs.declared.tree.Cond.{Cond};
ghost use Rattle.affc_ast.specs.declared.tree.Ix.{Ix};
ghost use Rattle.affc_ast.specs.declared.tree.Program.{Program};
ghost use Rattle.affc_ast.specs.declared.tree.Rel.TheVariants.{Less, LessEqual};
ghost use Rattle.affc_ast.specs.Compiles.{RunsAs};
ghost use Rattle.affc_ast.specs.Conditions.{condition};
ghost use Rattle.affc_ast.specs.Denials.{denied};
ghost use Rattle.affc_ast.specs.Fits.{whole_of, all_hold, is_true_at};
ghost use Rattle.affc_ast.specs.Follows.{elements, in_source_order, own_place};
ghost use Rattle.affc_ast.specs.Index.{index_value};
ghost use Rattle.affc_ast.specs.Joined.{is_joined, tests_of};
ghost use Rattle.affc_ast.specs.Meaning.{State, Ended, meaning, turns_of};
ghost use Rattle.affc_ast.specs.Pieces.{piece_holds, pieces, counts_of};
ghost use Rattle.affc_ast.specs.Store.{Element, Store, element_cmp, at, with_value};
ghost use Rattle.affc_ast.specs.Trace.{trace, store_of};

/// What is read in `int64_t` is the whole number that the expression stands for, and it has one.
pub fn readings_agree()
    ensures { (e : Ix) (names : List ℤ) (node : ℕ) (x : ℤ) → index_value e node names ≡ Ok x
        → whole_of e names ≡ record { value = x; defined = true } }
{}

/// What is read of a condition is its truth.
pub fn conditions_agree()
    ensures { (cond : Cond) (names : List ℤ) (node : ℕ) (b : Bool) → condition cond node names ≡ Ok b
        → is_true_at cond names ≡ b }
{}

/// A denied condition is true exactly where the condition is false.
pub fn denials_are_true_where_not()
    ensures { (cond : Cond) (names : List ℤ) → is_true_at (denied cond) names ≡ not (is_true_at cond names) }
{}

/// A condition is true exactly where one of its pieces holds, and it and its denial have as many pieces as are
/// counted. To know a sum or a product of such numbers as far as a number, its sides as far as that number are enough.
pub fn pieces_are_the_condition()
    ensures truth { (cond : Cond) (names : List ℤ)
        → list_any (piece_holds names) (pieces cond) ≡ is_true_at cond names }
    ensures counted { (cond : Cond)
        → counts_of cond ≡ record { plain = length (pieces cond); denied = length (pieces (denied cond)) } }
    ensures sums { (most m n : ℕ) → min most (m + n) ≡ min most (min most m + min most n) }
    ensures products { (most m n : ℕ) → min most (m * n) ≡ min most (min most m * min most n) }
{}

/// A condition of joined comparisons is true exactly where they all hold.
pub fn joined_tests_are_the_condition()
    ensures { (cond : Cond) (names : List ℤ) → IsTrue (is_joined cond)
        → all_hold (tests_of cond) names ≡ is_true_at cond names }
{}

/// A loop makes a turn as long as its condition holds, and then none.
pub fn loops_turn_while_their_condition_holds()
    ensures below { (x high : ℤ) → x <ℤ high
        → turns_of Less x high ≡ suc (turns_of Less (x +ℤ pos 1) high) }
    ensures end_below { (x high : ℤ) → high ≤ℤ x → turns_of Less x high ≡ 0 }
    ensures up_to { (x high : ℤ) → x ≤ℤ high
        → turns_of LessEqual x high ≡ suc (turns_of LessEqual (x +ℤ pos 1) high) }
    ensures end_up_to { (x high : ℤ) → high <ℤ x → turns_of LessEqual x high ≡ 0 }
{}

/// A store is a map: what was stored last at an element is there, the other elements keep theirs, the
/// elements stay in order, and two stores in order with the same values are one.
pub fn stores_are_maps()
    ensures stored { (store : Store) (x : Element) (v : ℕ) → at (with_value store x v) x ≡ Some v }
    ensures others { (store : Store) (x y : Element) (v : ℕ) → (x ≡ y → ⊥)
        → at (with_value store x v) y ≡ at store y }
    ensures in_order { (store : Store) (x : Element) (v : ℕ) → IsTrue (is_sorted element_cmp store)
        → IsTrue (is_sorted element_cmp (with_value store x v)) }
    ensures one { (a b : Store) → IsTrue (is_sorted element_cmp a) → IsTrue (is_sorted element_cmp b)
        → ((x : Element) → at a x ≡ at b x) → a ≡ b }
{}

/// A run that ends, and that stores once for each instance of the trace at the instance's own element, is
/// its own: in the source's order, with each element at its own place.
pub fn a_run_is_its_own()
    ensures { (program : Program) (p : List ℤ) (store : Store) (t : State) → meaning program p store ≡ Ended t
        → elements t.written ≡ map (store_of program p) (trace program p)
        → RunsAs program program in_source_order own_place p store }
{}
