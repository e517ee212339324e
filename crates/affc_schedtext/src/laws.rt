//! What holds of every schedule's text: each function here is a statement, proved.

ghost use Rattle.std.specs.Prelude.{◌≡◌, ◌≤◌, ℕ, ℤ, List, [], length, map, true, Ok, Err};
ghost use Rattle.affc_ast.specs.declared.tree.ArrayId.{ArrayId};
ghost use Rattle.affc_ast.specs.declared.tree.Program.{Program};
ghost use Rattle.affc_trace.specs.Law.{IsIn};
ghost use Rattle.affc_trace.specs.Orders.{AreDistinct};
ghost use Rattle.affc_basis.specs.declared.basis.Basis.{Basis};
ghost use Rattle.affc_trace.specs.Target.{loops_round, numbers_in, target, IsScheduleOf, within_limits};
ghost use Rattle.affc_grammar.specs.Grammar.{Symbol};
ghost use Rattle.affc_grammar.specs.Reader.{At, Deep};
ghost use Rattle.affc_schedtext.specs.declared.plan.Plan.{Plan};
ghost use Rattle.affc_schedtext.specs.declared.plan.SchedFault.{SchedFault};
ghost use Rattle.affc_schedtext.specs.declared.plan.SchedFault.TheVariants.{Memory};
ghost use Rattle.affc_schedtext.specs.Answers.{PlanReads, IsFault};
ghost use Rattle.affc_schedtext.specs.Outline.{Outline, outline};
ghost use Rattle.affc_schedtext.specs.Grammar.{Text, text_symbols, StopsAt};
ghost use Rattle.affc_schedtext.specs.Folded.{IsBasisIn, fold_said};
ghost use Rattle.affc_schedtext.specs.Reading.{read_text};
ghost use Rattle.affc_schedtext.specs.Verdict.{VerdictsSay};

/// The grammar has one way at most to write a list of symbols.
pub fn one_text()
    ensures { (o : Outline) (a b : Text o) → text_symbols a ≡ text_symbols b → a ≡ b }
{}

/// The reading of symbols by one token of foresight is exact.
pub fn texts_are_read()
    ensures spelled { (o : Outline) (room : ℕ) (ss : List Symbol) (c : Text o) → read_text o room ss ≡ Ok (c, []) → ss ≡ text_symbols c }
    ensures read { (o : Outline) (room : ℕ) (c : Text o) → length (text_symbols c) ≤ room → read_text o room (text_symbols c) ≡ Ok (c, []) }
    // It stops at the first place at which no text of the grammar goes on.
    ensures stopped { (o : Outline) (room : ℕ) (ss rest : List Symbol) → read_text o room ss ≡ Err (At rest) → StopsAt o ss rest }
    // Room for as many open brackets as there are symbols is enough.
    ensures enough { (o : Outline) (room : ℕ) (ss : List Symbol) → length ss ≤ room → read_text o room ss ≡ Err Deep → ⊥ }
{}

/// A text that reads as a plan has no fault but want of memory.
pub fn plans_exclude_faults()
    ensures { (text : List ℕ) (program : Program) (plan : Plan) (fault : SchedFault) → PlanReads text program plan → IsFault text program fault → fault ≡ Memory }
{}

/// Of a text with tokens, the verdict of its symbols says which fault it has, and where it has none which forms its lines have.
pub fn verdicts_say()
    ensures { VerdictsSay }
{}

/// An outline has an iterator for each loop round each statement, and a name for each number parameter.
pub fn outlines_are_whole()
    ensures loops { (program : Program) → map length (outline program).statements ≡ loops_round program }
    ensures parameters { (program : Program) → length (outline program).parameters ≡ numbers_in program.params }
{}

/// The schedule of a plan is one of the program: a map for each statement, over its columns, with as many components as the
/// time has. It is within the limits.
pub fn plans_are_scheduled()
    ensures schedules { (text : List ℕ) (program : Program) (plan : Plan) → PlanReads text program plan → IsScheduleOf program plan.schedule }
    ensures limits { (text : List ℕ) (program : Program) (plan : Plan) → PlanReads text program plan → within_limits plan.schedule ≡ true }
{}

/// The bases of a plan are of different temporaries, with a row for each dimension.
pub fn plans_fold_temporaries()
    ensures different { (text : List ℕ) (program : Program) (plan : Plan) → PlanReads text program plan → AreDistinct (map (λ (f : ArrayId × Basis). f.0.0) plan.folds) }
    ensures each { (text : List ℕ) (program : Program) (plan : Plan) → PlanReads text program plan → (array : ArrayId) (basis : Basis) → IsIn (array, basis) plan.folds → IsBasisIn program array.0 basis }
{}

/// All plans of a text run the instances in one order, and have the same folds.
pub fn plans_agree()
    ensures order { (text : List ℕ) (program : Program) (a b : Plan) → PlanReads text program a → PlanReads text program b → (p : List ℤ) → target program a.schedule p ≡ target program b.schedule p }
    ensures folds { (text : List ℕ) (program : Program) (a b : Plan) → PlanReads text program a → PlanReads text program b → map fold_said a.folds ≡ map fold_said b.folds }
{}
