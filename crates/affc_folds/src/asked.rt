//! What is folded.

use affc_ast::tree::{ArrayId, Program};
use affc_basis::Basis;
use affc_nest::{ArrayInfo, Nest};
use affc_quast::Flow;
use affc_system::PairSystem;
use affc_trace::schedule::Schedule;

/// A program with its analysis and a schedule, and the bases that are given.
#[derive(Clone, Copy, Drop)]
pub struct Compilation<'a> {
    pub program: &'a Program,
    pub nest: &'a Nest,
    pub flow: &'a Flow,
    pub schedule: &'a Schedule,
    pub bases: &'a [(ArrayId, Basis)],
}

/// A temporary whose fold is asked for, and the systems of its live pairs.
#[derive(Clone, Copy, Drop)]
pub struct Temporary<'a> {
    pub asked: Compilation<'a>,
    pub array: ArrayId,
    pub info: &'a ArrayInfo,
    pub systems: &'a [PairSystem],
}
