//! Certificates of programs that are right: their proofs, and the folds that they show.
#![tactic(auto)]

mod certified;
mod clashing;
mod drafting;
mod folds;
mod kept;
mod marks;
mod question;
mod shown;
mod streamed;
mod trees;
mod written;

pub use certified::{Certified, certify};
pub use drafting::{CertDraft, make_draft};
