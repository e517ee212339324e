//! The functions that a printed program may call.

ghost use Rattle.std.specs.Prelude.{◌≡◌};
ghost use Rattle.affc_lex.specs.Bytes.{begins};
ghost use Rattle.affc_lex.specs.Pieces.{prelude};

/// The bytes of the one token that the prelude is.
pub const PRELUDE: &str =
    "static inline int64_t affc_min(int64_t a, int64_t b) { return a < b ? a : b; }\n\
static inline int64_t affc_max(int64_t a, int64_t b) { return a > b ? a : b; }\n\
static inline int64_t affc_floord(int64_t a, int64_t b) { return a / b - (a % b < 0); }\n\
static inline int64_t affc_ceild(int64_t a, int64_t b) { return a / b + (a % b > 0); }\n\
static inline int64_t affc_mod(int64_t a, int64_t b) { return a % b + (a % b < 0 ? b : 0); }\n";

/// Whether the text begins with the prelude.
pub fn begins_prelude(text: &[u8]) -> bool
    ensures { result ≡ begins prelude text.now }
{
    text.starts_with(PRELUDE.as_bytes())
}
