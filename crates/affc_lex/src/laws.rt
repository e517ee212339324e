//! What holds of the tokens of every text: each function here is a statement, proved.

ghost use Rattle.std.specs.Prelude.{◌≡◌, ◌⊎◌, ℕ, List};
ghost use Rattle.affc_lex.specs.declared.token.LexFault.{LexFault};
ghost use Rattle.affc_lex.specs.Lexes.{Lexeme, Lexes};
ghost use Rattle.affc_lex.specs.Faults.{IsFault, fault_place};

/// One text has one list of tokens at most.
pub fn tokens_are_unique()
    ensures { (text : List ℕ) (ts us : List Lexeme) → Lexes text ts → Lexes text us → ts ≡ us }
{}

/// Each text has tokens or a fault.
pub fn tokens_or_fault()
    ensures { (text : List ℕ) → ((ts : List Lexeme) × Lexes text ts) ⊎ ((fault : LexFault) × IsFault text fault) }
{}

/// A text that has tokens has no fault.
pub fn tokens_exclude_faults()
    ensures { (text : List ℕ) (ts : List Lexeme) (fault : LexFault) → Lexes text ts
        → IsFault text fault → ⊥ }
{}

/// Two faults of a text at one place are the same.
pub fn one_fault_at_a_place()
    ensures { (text : List ℕ) (f g : LexFault) → IsFault text f → IsFault text g
        → fault_place f ≡ fault_place g → f ≡ g }
{}
