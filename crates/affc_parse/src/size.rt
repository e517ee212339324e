//! Which text is too long.

ghost use Rattle.std.specs.Prelude.{◌≡◌};
ghost use Rattle.affc_lex.specs.Bytes.{contains};
ghost use Rattle.affc_lex.specs.Pieces.{prelude};
ghost use Rattle.affc_parse.specs.Answers as answers;

use affc_lex::prelude::begins_prelude;

/// The most bytes of a text without the prelude.
pub(crate) const MOST_BYTES: usize = 1048576;

#[tactic(auto, using(crate::proofs::Contained::contained_here, crate::proofs::Contained::contained_on, crate::proofs::Contained::contained_end))]
fn contains_prelude(text: &[u8]) -> bool
    ensures { result ≡ contains prelude text.now }
{
    for at in 0..text.len() {
        if begins_prelude(&text[at..]) {
            return true;
        }
    }
    false
}

pub(crate) fn is_long(text: &[u8]) -> bool
    ensures { result ≡ answers.is_long text.now }
{
    MOST_BYTES < text.len() && !contains_prelude(text)
}
