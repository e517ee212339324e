//! Certificates as JSON texts.
#![tactic(auto)]

pub mod cert;
pub mod examples;
mod fits;
pub mod json;
pub mod laws;
pub mod layout;
mod refuse;
pub mod tree;

pub use crate::tree::layout::{Load, Store};
pub use affc_certvalue::fold::fold::{CertFold, CertLeast, CertModulus};
pub use affc_certvalue::fold::layout::Temporary;
pub use cert::{Cert, CertFault, WriteFault};
pub use json::{from_json, to_json, to_json_for};
pub use layout::Layout;
