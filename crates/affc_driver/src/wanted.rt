//! What is made of a source.

/// Whether a certificate is made beside the text.
#[derive(Clone, Copy)]
pub enum Wanted {
    Text,
    Certificate,
}
