//! A sink for bytes.

ghost use Rattle.std.specs.Prelude.{◌≡◌, ◌≢◌, ◌≤◌, ◌<◌, ◌+◌, ◌++◌, List, ℕ, Option, length, take, drop, IfOk, IsErrOf, IsFalse};
ghost use Rattle.affc_io.specs.Answers.{sink_failed};
ghost use Rattle.affc_io.specs.Count.{Rose, StaysWhereTold};
ghost use Rattle.affc_io.specs.Front.{IsFront};
ghost use Rattle.affc_io.specs.State.{SinkState, SinkCounts};
ghost use Rattle.affc_io.specs.Taken.{grown, taken_of};

/// Why a sink took nothing.
#[derive(Clone, Copy)]
pub enum SinkFault {
    Failed,
    Memory,
}

/// Where bytes go, one after the other.
pub trait Sink {
    /// The bytes taken so far, where the sink tells them, and what it has counted.
    ghost state: { Self → SinkState };

    /// How many of the bytes, from the front, were taken.
    fn write(&mut self, bytes: &[u8]) -> Result<usize, SinkFault>
        ensures counts { SinkCounts (state self.old) (state self.new) }
        ensures bound { IfOk result (λ n. n ≤ length bytes.now) }
        ensures taken { (state self.new).taken ≡ grown (state self.old).taken (taken_of result bytes.now) }
        ensures stalled { IfOk result (λ n. n ≡ 0 → 0 < length bytes.now →
            Rose (state self.old).faults (state self.new).faults) }
        ensures failed { IsErrOf result SinkFault.Failed → Rose (state self.old).faults (state self.new).faults }
        ensures memory { IsErrOf result SinkFault.Memory →
            Rose (state self.old).shortages (state self.new).shortages }
        // a sink that tells counts no fault but the calls that failed or took none of a piece that isn't empty
        ensures settled { IsFalse (sink_failed result bytes.now) →
            StaysWhereTold (state self.old).taken (state self.old).faults (state self.new).faults }
        // and no shortage is counted but the calls that answered it
        ensures ample { result ≢ Err SinkFault.Memory → (state self.new).shortages ≡ (state self.old).shortages };
}

/// Laws of what sinks take, for whoever writes a text in pieces: call it where they are needed.
pub fn pieces_join()
    ensures grown { (taken : Option (List ℕ)) → (first next : List ℕ) →
        grown (grown taken first) next ≡ grown taken (first ++ next) }
    ensures parts { (taken : Option (List ℕ)) → (bytes : List ℕ) → (m n : ℕ) →
        grown (grown taken (take m bytes)) (take n (drop m bytes)) ≡ grown taken (take (m + n) bytes) }
    ensures front { (bytes : List ℕ) → (n : ℕ) → IsFront bytes (take n bytes) }
    ensures front_within { (bytes more front : List ℕ) → IsFront bytes front → IsFront (bytes ++ more) front }
    ensures front_after { (before bytes front : List ℕ) → IsFront bytes front → IsFront (before ++ bytes) (before ++ front) }
{}
