//! Nests: what the rest of a compilation knows of a program.
ghost use Rattle.std.specs.Prelude.{◌≡◌};
ghost use Rattle.affc_nest.specs.Parts.{coordinates};

use affc_ast::tree::{ArrayId, Role};
use affc_rows::Form;
use affc_system::{BoxOf, System};
use sqlite_items::Items;
use std::alloc::AllocError;
use thiserror::Error;

/// An array: a form over the number parameters for each dimension's extent.
#[derive(Drop)]
pub struct ArrayInfo {
    pub role: Role,
    pub extents: Items<Form>,
}

/// An access of an assignment: a form over the columns of its domain for each subscript.
#[derive(Drop)]
pub struct Access {
    pub array: ArrayId,
    pub subs: Items<Form>,
}

/// A part of an assignment; each assignment is one part. The columns of its domain are the number parameters in order of
/// declaration, and then its coordinates: the iterators round it, from outer to inner.
#[derive(Drop)]
pub struct Entry {
    /// Its own number: its place among the nest's entries, from 0.
    pub part: u32,
    /// The assignment's number, in the order of the text from 0.
    pub statement: u32,
    /// Whether it can have instances, by the interval rule.
    pub alive: bool,
    /// The loops round it from outer to inner, by their numbers in the order of the text from 0.
    pub loops: Items<u32>,
    pub domain: System,
    /// The range of each iterator, from outer to inner; empty where the assignment can't have instances.
    pub ranges: BoxOf,
    /// Its loads in the order of the text, and then its store; an `op=` loads its own element first.
    pub accesses: Items<Access>,
}

impl Entry {
    /// How many coordinates an instance has in its domain.
    #[inline]
    pub fn coordinates(&self) -> usize
        ensures { result ≡ coordinates self.now }
    {
        self.loops.len()
    }
}

/// A program as integer systems.
#[derive(Drop)]
pub struct Nest {
    /// The declared ranges of the number parameters.
    pub params: BoxOf,
    /// The conditions of the context, over the number parameters.
    pub context: System,
    /// The array parameters and then the temporaries, in order of declaration.
    pub arrays: Items<ArrayInfo>,
    /// One for each part of an assignment, in the order of the text.
    pub entries: Items<Entry>,
}

/// Why a program has no nest.
#[derive(Debug, Clone, Copy, PartialEq, Eq, Error)]
pub enum NestFault {
    /// By the interval rule, a loop that is entered has a range with an end past `2^31` in magnitude: the first
    /// such loop round the first such statement. It is counted among the loops round that statement, from the
    /// outermost, which is 0.
    #[error("the range of loop {loop_number} round statement {statement} passes 2^31")]
    IteratorRange { statement: u32, loop_number: u32 },
    #[error("out of memory")]
    Memory,
}

impl From<AllocError> for NestFault {
    ghost use Rattle.std.specs.Prelude.{◌≡◌};
    ghost use Rattle.affc_nest.specs.declared.nest.NestFault.TheVariants.{Memory};

    ghost from_gives = { λ e fault. fault ≡ Memory };

    fn from(_e: AllocError) -> NestFault {
        NestFault::Memory
    }
}
