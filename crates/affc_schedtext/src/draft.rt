//! What a schedule's text says before its rules are looked at.

use crate::terms::Term;
use affc_ast::Items;
use affc_syntax::draft::draft::WordDraft;

/// The line of a statement or of a fold: the word that names it, and its two lists.
#[derive(Drop)]
pub struct LineDraft {
    pub word: WordDraft,
    pub forms: Items<Term>,
    pub inverse: Items<Term>,
}

/// The order of the text, or times of this length; `at` is the number of the length's token.
#[derive(Drop)]
pub enum OrderDraft {
    Source,
    Time {
        at: usize,
        length: u64,
        lines: Items<LineDraft>,
    },
}

#[derive(Drop)]
pub struct Draft {
    pub order: OrderDraft,
    pub folds: Items<LineDraft>,
}
