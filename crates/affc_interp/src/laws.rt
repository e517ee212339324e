//! Laws of the definitions. The functions do nothing: each says by its contract what is so.
ghost use Rattle.std.specs.Prelude.{◌≡◌, ℕ, ℤ, true, List, [], map};
ghost use Rattle.affc_ast.specs.declared.tree.Program.{Program};
ghost use Rattle.affc_ast.specs.Fits.{Fits};
ghost use Rattle.affc_ast.specs.declared.tree.Stmt.{Stmt};
ghost use Rattle.affc_ast.specs.Meaning.{Position, denotation_of, in_order};
ghost use Rattle.affc_ast.specs.Store.{Store};
ghost use Rattle.affc_ast.specs.Values.{Scope};
ghost use Rattle.affc_interp.specs.Budget.{exec_of, all_of};
ghost use Rattle.affc_interp.specs.DataText.{FeedReads};
ghost use Rattle.affc_interp.specs.Earlier.{extents_earlier};
ghost use Rattle.affc_interp.specs.Laws.{DataAreOne};
ghost use Rattle.affc_interp.specs.Runs.{within_limit, start};

/// A run that counts its steps is the meaning, cut where the steps are used up.
pub fn runs_are_cut_at_their_limit()
    ensures { (limit : ℕ) (body : List Stmt) (here : Position) (scope : Scope) (store : Store) → within_limit limit (in_order (map denotation_of body) here scope (record { store = store; written = []; steps = 0 })) ≡ all_of limit (map exec_of body) here scope store 0 }
{}

/// Data that a text gives fits the program, where each extent holds the names of parameters before it alone.
pub fn read_data_fits()
    ensures { (text : List ℕ) (program : Program) (p : List ℤ) (values : List (List ℕ)) → extents_earlier 0 program.params ≡ true → FeedReads text program p values → Fits program p (start program p values) }
{}

/// A data text stands for one data set.
pub fn data_are_one()
    ensures { DataAreOne }
{}
