//! Reading lists of tokens by the first token: what every such reader obeys, whatever the tokens are. Each function here
//! is a statement, proved.

ghost use Rattle.std.specs.Prelude.{◌≡◌, List, Option, Some};
ghost use Rattle.affc_grammar.specs.Reader.{Reader, Turn, IsReader, give, fail, deep, after, either, all, until, finished};

/// Readers that read nothing.
pub fn nothing_read<T, A>()
    ensures given { (a : A) → IsReader {T = T} (give a) }
    ensures failed { IsReader {T = T} {A = A} fail }
    ensures refused { IsReader {T = T} {A = A} deep }
    ensures ended { (a : A) → IsReader {T = T} (finished a) }
{}

/// One reader, and then another that its answer chooses.
pub fn sequence<T, A, B>()
    ensures { (p : Reader T A) (f : A → Reader T B) → IsReader p → ((a : A) → IsReader (f a)) → IsReader (after p f) }
{}

/// A choice by the first token.
pub fn choice<T, A, K>()
    ensures { (test : T → Option K) (past : K → Reader T A) (other : Reader T A)
        → ((t : T) (k : K) → test t ≡ Some k → IsReader (past k)) → IsReader other → IsReader (either test past other) }
{}

/// A repetition, while a token passes a test, and one until the whole is read.
pub fn repetition<T, A, C, K>()
    ensures optional { (test : T → Option K) (turn : K → A → Reader T A)
        → ((t : T) (k : K) → test t ≡ Some k → (a : A) → IsReader (turn k a)) → (a : A) → IsReader (all test turn a) }
    ensures to_the_end { (test : T → Option K) (turn : K → A → Reader T (Turn A C))
        → ((t : T) (k : K) → test t ≡ Some k → (a : A) → IsReader (turn k a)) → (a : A) → IsReader (until test turn a) }
{}
