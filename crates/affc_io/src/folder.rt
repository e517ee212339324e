//! A folder of named files.

ghost use Rattle.std.specs.Prelude.{◌≡◌, ◌≢◌, ◌≤◌, ◌∷◌, ◌++◌, [], List, ℕ, length, is_some, IfOk, IfErr, OnOk, IsErrOf};
ghost use Rattle.affc_io.specs.Count.{Rose, StaysWhereTold};
ghost use Rattle.affc_io.specs.Files.{held_under, NotHeld, Holds, TooLong, IsLeft};
ghost use Rattle.affc_io.specs.Reads.{answer_of};
ghost use Rattle.affc_io.specs.State.{FolderState, FolderKeeps};

use std::alloc::Global;

/// The most bytes that a read answers: 64 MiB.
pub const LONGEST_READ: usize = 67_108_864;

/// Why a name wasn't read.
#[derive(Clone, Copy)]
pub enum ReadFault {
    Failed,
    Missing,
    Long,
    Memory,
}

/// Why a name wasn't written.
#[derive(Clone, Copy)]
pub enum WriteFault {
    Failed,
    Memory,
}

/// The limit in figures, as a law.
pub fn longest_read()
    ensures { LONGEST_READ ≡ 67108864 }
{}

/// Files under names. Each name is any text, and holds bytes or nothing.
pub trait Folder {
    /// What the names hold, where the folder tells it, what it has counted, and what its reads answered.
    ghost state: { Self → FolderState };

    /// What the name holds.
    fn read(&mut self, alloc: Global, name: &str) -> Result<Vec<u8>, ReadFault>
        ensures keeps { FolderKeeps (state self.old) (state self.new) }
        ensures ok { IfOk result (λ bytes. Holds (state self.old).held name.now bytes.items) }
        ensures fits { IfOk result (λ bytes. length bytes.items ≤ LONGEST_READ) }
        ensures failed { IsErrOf result ReadFault.Failed → Rose (state self.old).faults (state self.new).faults }
        ensures missing { IsErrOf result ReadFault.Missing → NotHeld name.now (state self.old) (state self.new) }
        ensures long { IsErrOf result ReadFault.Long → TooLong name.now (state self.old) (state self.new) }
        ensures memory { IsErrOf result ReadFault.Memory →
            Rose (state self.old).shortages (state self.new).shortages }
        // a folder that tells counts no fault but the calls that failed
        ensures settled { result ≢ Err ReadFault.Failed →
            StaysWhereTold (state self.old).held (state self.old).faults (state self.new).faults }
        // and no shortage is counted but the calls that answered it
        ensures ample { result ≢ Err ReadFault.Memory → (state self.new).shortages ≡ (state self.old).shortages }
        ensures reads { (state self.new).reads ≡ (state self.old).reads ++ (name.now, answer_of result) ∷ [] };

    /// Makes the name hold the bytes.
    fn write(&mut self, name: &str, bytes: &[u8]) -> Result<(), WriteFault>
        ensures told { is_some (state self.new).held ≡ is_some (state self.old).held }
        ensures faults { (state self.old).faults ≤ (state self.new).faults }
        ensures shortages { (state self.old).shortages ≤ (state self.new).shortages }
        ensures ok { OnOk result (Holds (state self.new).held name.now bytes.now) }
        ensures left { IfErr result (λ _. IsLeft (state self.old).held (state self.new).held name.now bytes.now) }
        ensures others { (other : List ℕ) → other ≢ name.now →
            held_under (state self.new).held other ≡ held_under (state self.old).held other }
        ensures failed { IsErrOf result WriteFault.Failed → Rose (state self.old).faults (state self.new).faults }
        ensures memory { IsErrOf result WriteFault.Memory →
            Rose (state self.old).shortages (state self.new).shortages }
        ensures settled { result ≢ Err WriteFault.Failed →
            StaysWhereTold (state self.old).held (state self.old).faults (state self.new).faults }
        ensures ample { result ≢ Err WriteFault.Memory → (state self.new).shortages ≡ (state self.old).shortages }
        ensures reads { (state self.new).reads ≡ (state self.old).reads };
}
