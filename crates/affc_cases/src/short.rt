//! A folder and a sink that have no memory.
use affc_io::{Folder, ReadFault, ReadLog, Sink, SinkFault, WriteFault};
use std::alloc::Global;

#[derive(Drop)]
pub struct ShortSink {
    shortages: u64,
}

impl ShortSink {
    pub fn new() -> ShortSink {
        ShortSink { shortages: 0 }
    }
}

impl Sink for ShortSink {
    ghost use Rattle.std.specs.Prelude.{Some, []};

    ghost state = { λ s. record { taken = Some []; faults = 0; shortages = s.shortages } };

    fn write(&mut self, _bytes: &[u8]) -> Result<usize, SinkFault> {
        self.shortages = self.shortages.saturating_add(1);
        Err(SinkFault::Memory)
    }
}

#[derive(Drop)]
pub struct ShortFolder {
    shortages: u64,
    log: ReadLog,
}

impl ShortFolder {
    pub fn new() -> ShortFolder {
        ShortFolder {
            shortages: 0,
            log: ReadLog::new(),
        }
    }
}

impl Folder for ShortFolder {
    ghost use Rattle.std.specs.Prelude.{Some, None};

    ghost state = { λ f. record { held = Some (λ _. None); faults = 0; shortages = f.shortages; reads = f.log.reads } };

    fn read(&mut self, _alloc: Global, name: &str) -> Result<Vec<u8>, ReadFault> {
        self.shortages = self.shortages.saturating_add(1);
        let answer = Err(ReadFault::Memory);
        self.log.note(name, &answer);
        answer
    }

    fn write(&mut self, _name: &str, _bytes: &[u8]) -> Result<(), WriteFault> {
        self.shortages = self.shortages.saturating_add(1);
        Err(WriteFault::Memory)
    }
}
