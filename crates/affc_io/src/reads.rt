//! What the reads of a folder answered, for contracts alone: at run time it is nothing.
ghost use Rattle.std.specs.Prelude.{List};
ghost use Rattle.std.specs.Borrow.{ftrue};
ghost use Rattle.affc_io.specs.Reads.{Read};

use crate::ReadFault;
use std::marker::Model;

/// What each read answered, in order.
#[derive(Drop)]
pub struct ReadLog {
    pub ghost reads: { List Read },
}

impl Model for ReadLog {
    ghost also_owns = { λ _. ftrue };
}

// A name, and what its read answered.
#[derive(Clone, Copy)]
struct Reading<'a> {
    name: &'a str,
    answer: &'a Result<Vec<u8>, ReadFault>,
}

impl ReadLog {
    ghost use Rattle.std.specs.Prelude.{◌≡◌, [], ◌∷◌, ◌++◌};
    ghost use Rattle.affc_io.specs.Reads.{answer_of};

    /// Of no read.
    pub fn new() -> ReadLog
        ensures { result.reads ≡ [] }
    {
        ReadLog {}
    }

    // With one read more.
    fn and(&self, reading: &Reading<'_>) -> ReadLog
        ensures { result.reads ≡ self.now.reads ++ (reading.now.name.now, answer_of reading.now.answer.now) ∷ [] }
    {
        ReadLog {}
    }

    /// The name was read, and this was answered.
    pub fn note(&mut self, name: &str, answer: &Result<Vec<u8>, ReadFault>)
        ensures { self.new.reads ≡ self.old.reads ++ (name.now, answer_of answer.now) ∷ [] }
    {
        *self = self.and(&Reading { name, answer });
    }
}
