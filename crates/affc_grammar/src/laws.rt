//! What holds of every text: each function here is a statement, proved.

ghost use Rattle.std.specs.Prelude.{◌≡◌, ◌⊎◌, ◌+◌, ℕ, List, [], length, Some, Ok, Err, ◌↔◌, IsTrue, false};
ghost use Rattle.affc_ast.specs.declared.tree.Program.{Program};
ghost use Rattle.affc_ast.specs.Counted.{IsCounted};
ghost use Rattle.affc_ast.specs.Locals.{has_no_locals};
ghost use Rattle.affc_ast.specs.Ranks.{has_right_ranks};
ghost use Rattle.affc_grammar.specs.declared.fault.NameWhy.{NameWhy};
ghost use Rattle.affc_grammar.specs.declared.fault.LimitName.{LimitName};
ghost use Rattle.affc_grammar.specs.Grammar.{Symbol, Text, text_symbols, StopsAt};
ghost use Rattle.affc_grammar.specs.Draft.{text_draft};
ghost use Rattle.affc_grammar.specs.Limits.{limits_of, least, shape_passed, tokens_past, count_open};
ghost use Rattle.affc_grammar.specs.Reads.{Reads, ReadsWide, Derives, tree_of, name_refused, not_affine, limit_passed, has_prelude};
ghost use Rattle.affc_grammar.specs.Reader.{At, Deep, Within};
ghost use Rattle.affc_grammar.specs.Reading.{read_text};
ghost use Rattle.affc_grammar.specs.Verdict.{verdict, reads, syntax, name, product, limit};

/// One text reads as one program at most.
pub fn one_program()
    ensures reads { (text : List ℕ) (a b : Program) → Reads text a → Reads text b → a ≡ b }
    ensures wide { (text : List ℕ) (a b : Program) → ReadsWide text a → ReadsWide text b → a ≡ b }
{}

/// The grammar has one way at most to write a list of symbols.
pub fn one_text()
    ensures { (a b : Text) → text_symbols a ≡ text_symbols b → a ≡ b }
{}

/// The reading of symbols by one token of foresight, with room for so many open brackets at once, is exact.
pub fn texts_are_read()
    ensures spelled { (room : ℕ) (ss : List Symbol) (c : Text) (rest : List Symbol) → read_text room ss ≡ Ok (c, rest) → ss ≡ text_symbols c }
    ensures read { (room : ℕ) (c : Text) → Within count_open room 0 (text_symbols c) → read_text room (text_symbols c) ≡ Ok (c, []) }
    // It stops at the first place at which no text of the grammar goes on.
    ensures stopped { (room : ℕ) (ss rest : List Symbol) → read_text room ss ≡ Err (At rest) → StopsAt ss rest }
    // The room of the open brackets is enough, whatever the symbols are.
    ensures enough { (room : ℕ) (ss : List Symbol) → Within count_open room 0 ss → read_text room ss ≡ Err Deep → ⊥ }
    // No more are open where the limit on open brackets isn't passed.
    ensures within { (limit : ℕ) (ss : List Symbol) → tokens_past count_open limit 0 0 ss ≡ [] → Within count_open limit 0 ss }
{}

/// A verdict is what the definitions say.
pub fn verdicts_are_right()
    ensures read { (ss : List Symbol) (tree : Program) → (verdict ss ≡ reads tree) ↔ Derives (limits_of (has_prelude ss)) ss tree }
    // No text of the grammar goes on at the place.
    ensures stopped { (ss : List Symbol) (n : ℕ) → verdict ss ≡ syntax n → ((rest : List Symbol) × StopsAt ss rest × (n + length rest ≡ length ss)) }
    // The symbols are those of a text of the grammar, in which this name is the first that is refused.
    ensures refused { (ss : List Symbol) (at : ℕ) (why : NameWhy) → verdict ss ≡ name at why
        → ((c : Text) × (ss ≡ text_symbols c) × (tree_of (limits_of (has_prelude ss)) (text_draft c) ≡ Err (name_refused (record { at = at; why = why })))) }
    // They are those of a text of the grammar whose names are all right, and this product of names is its first.
    ensures not_affine { (ss : List Symbol) (at : ℕ) → verdict ss ≡ product at
        → ((c : Text) × (ss ≡ text_symbols c) × (tree_of (limits_of (has_prelude ss)) (text_draft c) ≡ Err (not_affine at))) }
    // Of the limits on the tokens this is the one passed at the least place, or none of them is passed, and it is the one of a text of the grammar.
    ensures passed { (ss : List Symbol) (at : ℕ) (which : LimitName) → verdict ss ≡ limit at which
        → (least (shape_passed (limits_of (has_prelude ss)) ss) ≡ Some (record { at = at; which = which }))
        ⊎ ((shape_passed (limits_of (has_prelude ss)) ss ≡ []) × ((c : Text) × (ss ≡ text_symbols c) × (tree_of (limits_of (has_prelude ss)) (text_draft c) ≡ Err (limit_passed (record { at = at; which = which }))))) }
{}

/// What a text reads as has fewer than 2^32 nodes, arrays and assignments, and assigns to its own arrays alone.
pub fn reads_counted()
    ensures plain { (text : List ℕ) (program : Program) → Reads text program → IsCounted program }
    ensures wide { (text : List ℕ) (program : Program) → ReadsWide text program → IsCounted program }
{}

/// In what a text reads as each access has as many subscripts as its array has dimensions.
pub fn reads_ranked()
    ensures plain { (text : List ℕ) (program : Program) → Reads text program → IsTrue (has_right_ranks program) }
    ensures wide { (text : List ℕ) (program : Program) → ReadsWide text program → IsTrue (has_right_ranks program) }
{}

/// A text without the prelude reads as a program without locals.
pub fn no_locals_without_the_prelude()
    ensures plain { (text : List ℕ) (program : Program) → Reads text program → program.prelude ≡ false → IsTrue (has_no_locals program) }
    ensures wide { (text : List ℕ) (program : Program) → ReadsWide text program → program.prelude ≡ false → IsTrue (has_no_locals program) }
{}
