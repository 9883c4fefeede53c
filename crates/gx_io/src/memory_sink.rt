// A sink in memory.
ghost use Rattle.std.specs.Prelude.{◌≡◌, ℕ, ◌≤◌, ◌↔◌, List, [], ◌∷◌, ◌++◌, Option, Some, OnOk, OnErr, IsOk, IsSome, IsErrOf, IsTrue, if◌then◌else◌, is_ok};
ghost use Rattle.gx_io.specs.Faults.{Rose};
ghost use Rattle.gx_io.specs.Put.{GrowsBy, GrowsByPrefix};
ghost use Rattle.gx_io.specs.SinkState.{SinkState, put_fails, after_put, IsAfterPut};

use crate::errors::PutError;
use crate::sink::Sink;
use std::alloc::{AllocError, Global};
use std::marker::Model;

/// Bytes in memory, which it tells.
#[derive(Drop)]
pub struct MemorySink {
    bytes: Vec<u8>,
    failing: Vec<u64>,
    calls: u64,
    faults: u64,
}

impl Model for MemorySink {
    ghost use Rattle.gx_io.specs.SinkState.{SinkState};

    ghost Value = { SinkState };

    ghost view = { λ sink. record { bytes = sink.bytes.items; failing = sink.failing.items; calls = sink.calls; faults = sink.faults } };
}

impl MemorySink {
    /// A sink that holds no bytes.
    pub fn new(alloc: Global) -> MemorySink
        ensures { result ≡ record { bytes = []; failing = []; calls = 0; faults = 0 } }
    {
        MemorySink {
            bytes: Vec::new(alloc),
            failing: Vec::new(alloc),
            calls: 0,
            faults: 0,
        }
    }

    /// Makes the put with that number, counted from 1, fail where its piece is not empty.
    pub fn fail_at(&mut self, call: u64) -> Result<(), AllocError>
        ensures ok { OnOk result
            (self.new ≡ record self.old { failing = self.old.failing ++ call ∷ [] }) }
        ensures err { OnErr result (self.new ≡ self.old) }
    {
        self.failing.push(call)?;
        Ok(())
    }

    /// The bytes written.
    pub fn bytes(&self) -> &[u8]
        ensures { result.now ≡ self.now.bytes }
    {
        self.bytes.as_slice()
    }

    // Counts a put of that piece, and says whether it fails.
    fn count_put(&mut self, piece: &[u8]) -> bool
        ensures fails { result ≡ put_fails self.old piece.now }
        ensures after { self.new ≡ after_put self.old piece.now [] }
        ensures counted { self.old.faults ≤ self.new.faults }
    {
        self.calls = self.calls.saturating_add(1);
        let fails = !piece.is_empty() && self.failing.contains(&self.calls);
        if fails {
            self.faults = self.faults.saturating_add(1);
        }
        fails
    }
}

impl Sink for MemorySink {
    ghost written = { λ sink. Some sink.bytes };

    ghost faults = { λ sink. sink.faults };

    ghost was_put = { IsAfterPut };

    fn put(&mut self, bytes: &[u8]) -> Result<(), PutError>
        ensures call { IsAfterPut self.old bytes.now self.new }
        ensures told { IsSome (Some self.old.bytes) ↔ IsSome (Some self.new.bytes) }
        ensures ok { OnOk result (GrowsBy (Some self.old.bytes) (Some self.new.bytes) bytes.now) }
        ensures err { OnErr result
            (GrowsByPrefix (Some self.old.bytes) (Some self.new.bytes) bytes.now) }
        ensures empty { bytes.now ≡ [] → IsOk result }
        ensures counted { self.old.faults ≤ self.new.faults }
        ensures failed { IsErrOf result PutError.Failed → Rose self.old.faults self.new.faults }

        // Which puts fail, and what each put leaves.
        ensures fails { IsErrOf result PutError.Failed ↔ IsTrue (put_fails self.old bytes.now) }
        ensures after { self.new
            ≡ after_put self.old bytes.now (if is_ok result then bytes.now else []) }
    {
        if self.count_put(bytes) {
            return Err(PutError::Failed);
        }
        if bytes.is_empty() {
            return Ok(());
        }
        self.bytes.extend_from_slice(bytes)?;
        Ok(())
    }
}
