//! A folder and two sinks in memory, which tell all that they hold. Their calls say exactly what they do.

ghost use Rattle.std.specs.Prelude.{◌≡◌, ◌≢◌, ◌≤◌, ◌↔◌, ◌∷◌, ◌++◌, [], Some, None, List, ℕ, IfOk, IfErr, OnOk, IsErrOf, IsTrue, length, map};
ghost use Rattle.affc_io.specs.Answers.{read_failed, read_short, write_failed, write_short, sink_failed, sink_short};
ghost use Rattle.affc_io.specs.Count.{raised, counted};
ghost use Rattle.affc_io.specs.Files.{IsLong};
ghost use Rattle.affc_io.specs.Memory.{held_in, named_bytes, stored};
ghost use Rattle.affc_io.specs.Reads.{answer_of};
ghost use Rattle.affc_io.specs.Parts.{folder_files, folder_fails, folder_calls, folder_faults, folder_shortages, folder_reads, folder_state, mem_bytes, mem_first, mem_fails, mem_calls, mem_faults, mem_shortages, mem_state, sure_bytes, sure_shortages, sure_state, is_listed, share_of, emptied};
ghost use Rattle.affc_io.specs.Taken.{taken_of};

use crate::files::{NamedFile, empty, fetch, store};
use crate::{Folder, LONGEST_READ, ReadFault, ReadLog, Sink, SinkFault, WriteFault};
use std::alloc::Global;

/// Files in memory. The calls whose numbers are listed fail, from 0.
#[derive(Drop)]
pub struct MemFolder {
    files: Vec<NamedFile>,
    fails: Vec<u64>,
    calls: u64,
    faults: u64,
    shortages: u64,
    log: ReadLog,
}

impl MemFolder {
    /// Of files with the same name the first counts.
    pub fn new(files: Vec<(String, Vec<u8>)>, fails: Vec<u64>) -> MemFolder
        ensures files { folder_files result ≡ files.items }
        ensures fails { folder_fails result ≡ fails.items }
        ensures calls { folder_calls result ≡ 0 }
        ensures faults { folder_faults result ≡ 0 }
        ensures shortages { folder_shortages result ≡ 0 }
        ensures reads { folder_reads result ≡ [] }
    {
        MemFolder {
            files,
            fails,
            calls: 0,
            faults: 0,
            shortages: 0,
            log: ReadLog::new(),
        }
    }

    /// The files as they are now.
    pub fn files(&self) -> &[(String, Vec<u8>)]
        ensures { result.now ≡ folder_files self.now }
    {
        &self.files
    }
}

impl Folder for MemFolder {
    ghost state = { folder_state };

    fn read(&mut self, alloc: Global, name: &str) -> Result<Vec<u8>, ReadFault>
        ensures failed { IsErrOf result ReadFault.Failed ↔ IsTrue (is_listed (folder_fails self.old) (folder_calls self.old)) }
        ensures ok { IfOk result (λ bytes. held_in (folder_files self.old) name.now ≡ Some bytes.items) }
        ensures fits { IfOk result (λ bytes. length bytes.items ≤ LONGEST_READ) }
        ensures missing { IsErrOf result ReadFault.Missing → held_in (folder_files self.old) name.now ≡ None }
        ensures long { IsErrOf result ReadFault.Long → IsLong (held_in (folder_files self.old) name.now) }
        ensures files { folder_files self.new ≡ folder_files self.old }
        ensures fails { folder_fails self.new ≡ folder_fails self.old }
        ensures calls { folder_calls self.new ≡ raised (folder_calls self.old) }
        ensures faults { folder_faults self.new ≡ counted (read_failed result) (folder_faults self.old) }
        ensures shortages { folder_shortages self.new ≡ counted (read_short result) (folder_shortages self.old) }
        ensures reads { folder_reads self.new ≡ folder_reads self.old ++ (name.now, answer_of result) ∷ [] }
    {
        if next_fails(&self.fails, &mut self.calls) {
            self.faults = self.faults.saturating_add(1);
            let answer = Err(ReadFault::Failed);
            self.log.note(name, &answer);
            return answer;
        }
        let answer = fetch(&self.files, alloc, name);
        self.log.note(name, &answer);
        if let Err(ReadFault::Memory) = answer {
            self.shortages = self.shortages.saturating_add(1);
        }
        answer
    }

    fn write(&mut self, name: &str, bytes: &[u8]) -> Result<(), WriteFault>
        ensures failed { IsErrOf result WriteFault.Failed ↔ IsTrue (is_listed (folder_fails self.old) (folder_calls self.old)) }
        ensures ok { OnOk result (held_in (folder_files self.new) name.now ≡ Some bytes.now) }
        ensures err { IfErr result (λ _. held_in (folder_files self.new) name.now ≡ emptied (held_in (folder_files self.old) name.now)) }
        ensures others { (other : List ℕ) → other ≢ name.now →
            held_in (folder_files self.new) other ≡ held_in (folder_files self.old) other }
        ensures fails { folder_fails self.new ≡ folder_fails self.old }
        ensures calls { folder_calls self.new ≡ raised (folder_calls self.old) }
        ensures faults { folder_faults self.new ≡ counted (write_failed result) (folder_faults self.old) }
        ensures shortages { folder_shortages self.new ≡ counted (write_short result) (folder_shortages self.old) }
        ensures reads { folder_reads self.new ≡ folder_reads self.old }
        ensures order { OnOk result (map named_bytes (folder_files self.new) ≡ stored (map named_bytes (folder_files self.old)) name.now bytes.now) }
    {
        if next_fails(&self.fails, &mut self.calls) {
            self.faults = self.faults.saturating_add(1);
            empty(&mut self.files, name);
            return Err(WriteFault::Failed);
        }
        if store(&mut self.files, name, bytes).is_err() {
            self.shortages = self.shortages.saturating_add(1);
            return Err(WriteFault::Memory);
        }
        Ok(())
    }
}

// Whether this call is listed. The next call has the next number.
fn next_fails(fails: &[u64], calls: &mut u64) -> bool
    ensures listed { result ≡ is_listed fails.now calls.old }
    ensures calls { calls.new ≡ raised calls.old }
{
    let listed = fails.contains(calls);
    *calls = calls.saturating_add(1);
    listed
}

/// Takes at most `first` bytes in its first write, then any number. The calls whose numbers are listed fail, from 0.
#[derive(Drop)]
pub struct MemSink {
    bytes: Vec<u8>,
    first: usize,
    fails: Vec<u64>,
    calls: u64,
    faults: u64,
    shortages: u64,
}

impl MemSink {
    pub fn new(alloc: Global, first: usize, fails: Vec<u64>) -> MemSink
        ensures bytes { mem_bytes result ≡ [] }
        ensures first { mem_first result ≡ first }
        ensures fails { mem_fails result ≡ fails.items }
        ensures calls { mem_calls result ≡ 0 }
        ensures faults { mem_faults result ≡ 0 }
        ensures shortages { mem_shortages result ≡ 0 }
    {
        MemSink {
            bytes: Vec::new(alloc),
            first,
            fails,
            calls: 0,
            faults: 0,
            shortages: 0,
        }
    }

    /// What it has taken.
    pub fn bytes(&self) -> &[u8]
        ensures { result.now ≡ mem_bytes self.now }
    {
        &self.bytes
    }
}

// How many bytes of so many the write with this number takes.
fn share(first: usize, call: u64, len: usize) -> usize
    ensures { result ≡ share_of first call len }
{
    if call == 0 { len.min(first) } else { len }
}

impl Sink for MemSink {
    ghost state = { mem_state };

    fn write(&mut self, bytes: &[u8]) -> Result<usize, SinkFault>
        ensures failed { IsErrOf result SinkFault.Failed ↔ IsTrue (is_listed (mem_fails self.old) (mem_calls self.old)) }
        ensures count { IfOk result (λ n. n ≡ share_of (mem_first self.old) (mem_calls self.old) (length bytes.now)) }
        ensures bytes { mem_bytes self.new ≡ mem_bytes self.old ++ taken_of result bytes.now }
        ensures first { mem_first self.new ≡ mem_first self.old }
        ensures fails { mem_fails self.new ≡ mem_fails self.old }
        ensures calls { mem_calls self.new ≡ raised (mem_calls self.old) }
        ensures faults { mem_faults self.new ≡ counted (sink_failed result bytes.now) (mem_faults self.old) }
        ensures shortages { mem_shortages self.new ≡ counted (sink_short result) (mem_shortages self.old) }
    {
        let count = share(self.first, self.calls, bytes.len());
        if next_fails(&self.fails, &mut self.calls) {
            self.faults = self.faults.saturating_add(1);
            return Err(SinkFault::Failed);
        }
        if self.bytes.extend_from_slice(&bytes[..count]).is_err() {
            self.shortages = self.shortages.saturating_add(1);
            return Err(SinkFault::Memory);
        }
        if count == 0 && !bytes.is_empty() {
            self.faults = self.faults.saturating_add(1);
        }
        Ok(count)
    }
}

/// Takes all of every piece, or has no memory for it.
#[derive(Drop)]
pub struct SureSink {
    bytes: Vec<u8>,
    shortages: u64,
}

impl SureSink {
    pub fn new(alloc: Global) -> SureSink
        ensures bytes { sure_bytes result ≡ [] }
        ensures shortages { sure_shortages result ≡ 0 }
    {
        SureSink {
            bytes: Vec::new(alloc),
            shortages: 0,
        }
    }

    /// What it has taken.
    pub fn bytes(&self) -> &[u8]
        ensures { result.now ≡ sure_bytes self.now }
    {
        &self.bytes
    }
}

impl Sink for SureSink {
    ghost state = { sure_state };

    fn write(&mut self, bytes: &[u8]) -> Result<usize, SinkFault>
        ensures whole { IfOk result (λ n. n ≡ length bytes.now) }
        ensures bytes { sure_bytes self.new ≡ sure_bytes self.old ++ taken_of result bytes.now }
        ensures memory { IfErr result (λ fault. fault ≡ SinkFault.Memory) }
        ensures shortages { sure_shortages self.new ≡ counted (sink_short result) (sure_shortages self.old) }
    {
        if self.bytes.extend_from_slice(bytes).is_err() {
            self.shortages = self.shortages.saturating_add(1);
            return Err(SinkFault::Memory);
        }
        Ok(bytes.len())
    }
}
