//! Certificates.
use affc_certvalue::fold::fold::CertFold;
use affc_farkas::Proof;
use affc_quast::Flow;
use sqlite_items::Items;
use thiserror::Error;

/// A certificate: a point of the context, a tree for each load, a fold for each temporary, and a proof for each question.
#[derive(Drop)]
pub struct Cert {
    pub context: Items<i64>,
    pub flow: Flow,
    pub folds: Items<CertFold>,
    pub proofs: Items<Proof>,
}

/// Why a text is no certificate. Part 0 is the object with its keys; trees, folds and proofs are numbered on from 1.
#[derive(Debug, Clone, Copy, PartialEq, Eq, Error)]
pub enum CertFault {
    #[error("the text is no JSON")]
    Json,
    #[error("the version isn't 1")]
    Version,
    #[error("part {0} has a wrong shape")]
    Shape(usize),
    #[error("part {0} has a wrong number")]
    Number(usize),
    #[error("out of memory")]
    Memory,
}

/// Why a certificate isn't written.
#[derive(Debug, Clone, Copy, Error)]
pub enum WriteFault {
    #[error("a number doesn't fit 64 bits")]
    Wide,
    #[error("out of memory")]
    Memory,
}
