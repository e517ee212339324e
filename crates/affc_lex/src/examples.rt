//! The tokens of small texts and the faults in others: each function here is a statement, proved
//! by computation.

ghost use Rattle.std.specs.Prelude.{◌≡◌, ◌++◌, ◌∷◌, [], codes};
ghost use Rattle.affc_lex.specs.declared.token.Kind.TheVariants.{Word, Number, Value, Header, Hash, LineEnd, Prelude, Mark};
ghost use Rattle.affc_lex.specs.Pieces.{prelude};
ghost use Rattle.affc_lex.specs.Lexes.{Lexes, token_of};
ghost use Rattle.affc_lex.specs.Faults.{OpenAt, LongAt, NothingAt, RefusedAt, StuckAt};

/// What stands at a place is the longest token that can be taken.
pub fn the_longest_token()
    ensures marks { Lexes (codes "i+++j")
        (token_of Word (codes "i") 0 ∷ token_of Mark (codes "++") 1 ∷ token_of Mark (codes "+") 3 ∷ token_of Word (codes "j") 4 ∷ []) }
    ensures minus_signs { Lexes (codes "i---j")
        (token_of Word (codes "i") 0 ∷ token_of Mark (codes "--") 1 ∷ token_of Mark (codes "-") 3 ∷ token_of Word (codes "j") 4 ∷ []) }
    ensures three_bytes { Lexes (codes ">>=<<") (token_of Mark (codes ">>=") 0 ∷ token_of Mark (codes "<<") 3 ∷ []) }
    ensures other_marks { Lexes (codes "a%b||c!=d")
        (token_of Word (codes "a") 0 ∷ token_of Mark (codes "%") 1 ∷ token_of Word (codes "b") 2 ∷ token_of Mark (codes "||") 3 ∷ token_of Word (codes "c") 5 ∷ token_of Mark (codes "!=") 6 ∷ token_of Word (codes "d") 8 ∷ []) }
    ensures value { Lexes (codes "18446744073709551615ULL") (token_of Value (codes "18446744073709551615ULL") 0 ∷ []) }
    ensures zero { Lexes (codes "0*0ULL") (token_of Number (codes "0") 0 ∷ token_of Mark (codes "*") 1 ∷ token_of Value (codes "0ULL") 2 ∷ []) }
    ensures digits_in_a_word { Lexes (codes "_0ULL") (token_of Word (codes "_0ULL") 0 ∷ []) }
{}

/// Spaces and comments are no tokens.
pub fn no_tokens()
    ensures empty { Lexes [] [] }
    ensures carriage_return { Lexes (codes "a\r\nb") (token_of Word (codes "a") 0 ∷ token_of Word (codes "b") 3 ∷ []) }
    ensures tab { Lexes (codes "a\tb") (token_of Word (codes "a") 0 ∷ token_of Word (codes "b") 2 ∷ []) }
    ensures any_byte { Lexes (codes "/*" ++ 195 ∷ 169 ∷ codes "*/;") (token_of Mark (codes ";") 6 ∷ []) }
    ensures stars { Lexes (codes "/*/ ***/") [] }
    ensures to_the_line_feed { Lexes (codes "// /* \nx") (token_of Word (codes "x") 7 ∷ []) }
    ensures to_the_end { Lexes (codes "//") [] }
{}

/// Lines with `#`.
pub fn lines_with_hash()
    ensures include { Lexes (codes "#include <stdint.h>\n")
        (token_of Hash (codes "#") 0 ∷ token_of Word (codes "include") 1 ∷ token_of Header (codes "<stdint.h>") 9 ∷ token_of LineEnd (codes "\n") 19 ∷ []) }
    ensures no_header { Lexes (codes "#include <a")
        (token_of Hash (codes "#") 0 ∷ token_of Word (codes "include") 1 ∷ token_of Mark (codes "<") 9 ∷ token_of Word (codes "a") 10 ∷ token_of LineEnd [] 11 ∷ []) }
    ensures no_header_past_the_line { Lexes (codes "#include <a\n>")
        (token_of Hash (codes "#") 0 ∷ token_of Word (codes "include") 1 ∷ token_of Mark (codes "<") 9 ∷ token_of Word (codes "a") 10 ∷ token_of LineEnd (codes "\n") 11 ∷ token_of Mark (codes ">") 12 ∷ []) }
    ensures no_header_elsewhere { Lexes (codes "# <a>\n")
        (token_of Hash (codes "#") 0 ∷ token_of Mark (codes "<") 2 ∷ token_of Word (codes "a") 3 ∷ token_of Mark (codes ">") 4 ∷ token_of LineEnd (codes "\n") 5 ∷ []) }
    ensures after_a_comment { Lexes (codes "/* \n */#") (token_of Hash (codes "#") 7 ∷ token_of LineEnd [] 8 ∷ []) }
    ensures on_the_next_line { Lexes (codes "x\n #") (token_of Word (codes "x") 0 ∷ token_of Hash (codes "#") 3 ∷ token_of LineEnd [] 4 ∷ []) }
    ensures comment_in_the_line { Lexes (codes "#/*\n*/a\nb")
        (token_of Hash (codes "#") 0 ∷ token_of Word (codes "a") 6 ∷ token_of LineEnd (codes "\n") 7 ∷ token_of Word (codes "b") 8 ∷ []) }
    ensures comment_to_the_line_feed { Lexes (codes "#//a\n#")
        (token_of Hash (codes "#") 0 ∷ token_of LineEnd (codes "\n") 4 ∷ token_of Hash (codes "#") 5 ∷ token_of LineEnd [] 6 ∷ []) }
    ensures scop_is_dropped { Lexes (codes "#pragma scop\nx") (token_of Word (codes "x") 13 ∷ []) }
    ensures endscop_is_dropped { Lexes (codes " # pragma /**/ endscop") [] }
    ensures other_lines_stay { Lexes (codes "#pragma scop 1\n")
        (token_of Hash (codes "#") 0 ∷ token_of Word (codes "pragma") 1 ∷ token_of Word (codes "scop") 8 ∷ token_of Number (codes "1") 13 ∷ token_of LineEnd (codes "\n") 14 ∷ []) }
{}

/// The prelude is one token, wherever it stands.
pub fn the_prelude()
    ensures whole { Lexes prelude (token_of Prelude prelude 0 ∷ []) }
    ensures in_a_line { Lexes (codes "x " ++ prelude) (token_of Word (codes "x") 0 ∷ token_of Prelude prelude 2 ∷ []) }
    ensures then_a_hash { Lexes (prelude ++ codes "#") (token_of Prelude prelude 0 ∷ token_of Hash (codes "#") 426 ∷ token_of LineEnd [] 427 ∷ []) }
    ensures in_a_line_with_hash { Lexes (codes "#" ++ prelude ++ codes "#")
        (token_of Hash (codes "#") 0 ∷ token_of Prelude prelude 1 ∷ token_of Hash (codes "#") 427 ∷ token_of LineEnd [] 428 ∷ []) }
    ensures changed { Lexes (codes "static inline") (token_of Word (codes "static") 0 ∷ token_of Word (codes "inline") 7 ∷ []) }
{}

/// Bytes at which nothing begins or goes on.
pub fn bad_bytes()
    ensures nothing_begins { NothingAt (codes "#include <stdint.h>\n@") 20 }
    ensures division { NothingAt (codes "a / b") 2 }
    ensures hash_in_a_line { NothingAt (codes "x /*\n*/ #") 8 }
    ensures letter { StuckAt (codes "3U") 1 }
    ensures letter_behind_a_value { StuckAt (codes "3ULLx") 4 }
    ensures second_zero { StuckAt (codes "00") 1 }
    ensures changed_prelude { NothingAt (codes "static inline int64_t affc_min(int64_t a, int64_t b) { return a < b ? a : b; }\n" ++ codes "static inline int64_t affc_max(int64_t a, int64_t b) { return a > b ? a : b; }\n" ++ codes "static inline int64_t affc_floord(int64_t a, int64_t b) { return a / b - (a % c < 0); }\n" ++ codes "static inline int64_t affc_ceild(int64_t a, int64_t b) { return a / b + (a % b > 0); }\n" ++ codes "static inline int64_t affc_mod(int64_t a, int64_t b) { return a % b + (a % b < 0 ? b : 0); }\n") 68 }
    ensures backslash { RefusedAt (codes "/*\\\n*/") 2 }
    ensures backslash_and_return { RefusedAt (codes "// \\\r\n") 3 }
    ensures trigraph { RefusedAt (codes "/*??/*/") 2 }
{}

/// Comments without an end, and numbers that are too large.
pub fn other_faults()
    ensures comment { OpenAt (codes "x/* x") 1 }
    ensures slash_is_no_end { OpenAt (codes "/*/") 0 }
    ensures number { LongAt (codes "18446744073709551616ULL") 0 }
{}
