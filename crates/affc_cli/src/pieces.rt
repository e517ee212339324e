//! What a command writes.

/// The certificate, for the file that is named for it, if one is; the text, which goes to `out`; and the report, which goes to `err`
/// behind it.
#[derive(Drop)]
pub struct Pieces {
    pub certificate: Vec<u8>,
    pub text: Vec<u8>,
    pub report: Vec<u8>,
}
