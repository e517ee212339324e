//! What holds of outlines and of drafts that break no rule: each function here is a statement, proved.

ghost use Rattle.std.specs.Prelude.{◌≡◌, ℕ, []};
ghost use Rattle.affc_ast.specs.declared.tree.Program.{Program};
ghost use Rattle.affc_ast.specs.Counted.{IsCounted};
ghost use Rattle.affc_domain.specs.Plain.{IsPlain};
ghost use Rattle.affc_schedtext.specs.declared.outline.Outline.{Outline};
ghost use Rattle.affc_schedtext.specs.Draft.{text_draft};
ghost use Rattle.affc_schedtext.specs.Grammar.{Text};
ghost use Rattle.affc_schedtext.specs.Outline.{outline};
ghost use Rattle.affc_schedtext.specs.Rules.{breaches};
ghost use Rattle.affc_plan.specs.Lines.{IsFew};
ghost use Rattle.affc_plan.specs.Maps.{AreRight, IsRightOrder};

/// The outline of a plain program is as small as the reading of plans asks.
pub fn plain_is_few()
    ensures { (program : Program) → IsPlain program → IsCounted program → IsFew (outline program) }
{}

/// Where a text breaks no rule, its lines are right: those of statements have as many forms as components and an inverse form for
/// each iterator, those of folds a form and an inverse form for each dimension, and all are within the limits.
pub fn kept_lines_are_right()
    ensures { (o : Outline) (tokens : ℕ) (c : Text o) → breaches o tokens (text_draft c) ≡ [] → IsRightOrder o (text_draft c).order × AreRight o (text_draft c).folds }
{}
