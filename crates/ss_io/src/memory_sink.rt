ghost use Rattle.std.specs.Prelude.{◌≡◌, ◌↔◌, ◌∷◌, [], ◌++◌, Some, IsErr, OnOk, OnErr};
ghost use Rattle.std.specs.Io.KnownBytes.{Keeps};
ghost use Rattle.ss_io.specs.Streams.{HasCause, PutAppends};
ghost use Rattle.ss_io.specs.Memory.{fresh, IsListed, succeeded, failed};

use crate::failed::count_fault;
use crate::{Failed, Sink};
use ss_cid::{Bytes, NoMemory};
use std::alloc::Global;
use std::marker::Model;

/// A sink into memory, which exposes its contents. The calls of `put` and `flush`, counted together from 0, fail
/// where they are listed; a `put` fails out of memory too.
#[derive(Debug, Drop)]
pub struct MemorySink {
    content: Bytes,
    calls: u64,
    failing: Vec<u64>,
    faults: u64,
}

impl Model for MemorySink {
    ghost use Rattle.ss_io.specs.Memory.{MemoryEnd};

    ghost Value = { MemoryEnd };

    ghost view = { λ s. record { bytes = s.content; calls = s.calls; failing = s.failing.items; faults = s.faults } };
}

impl MemorySink {
    /// A sink with no bytes that fails at no call.
    pub fn new(alloc: Global) -> MemorySink
        ensures { result ≡ fresh [] }
    {
        MemorySink {
            content: Bytes::new(alloc),
            calls: 0,
            failing: Vec::new(alloc),
            faults: 0,
        }
    }

    /// Lists one more call that fails. Out of memory, the list stays as it was.
    pub fn fail_at(&mut self, call: u64) -> Result<(), NoMemory>
        ensures ok { OnOk result (self.new ≡ record self.old { failing = self.old.failing ++ call ∷ [] }) }
        ensures err { OnErr result (self.new ≡ self.old) }
    {
        self.failing.push(call)?;
        Ok(())
    }

    /// The bytes that were written.
    pub fn written(&self) -> &[u8]
        ensures { result.now ≡ self.now.bytes }
    {
        self.content.as_slice()
    }
}

impl Sink for MemorySink {
    ghost written = { λ s. Some s.bytes };

    ghost faults = { λ s. s.faults };

    /// A call that fails appends nothing.
    fn put(&mut self, bytes: &[u8]) -> Result<(), Failed>
        ensures bytes { PutAppends (Some self.old.bytes) (Some self.new.bytes) result bytes.now }
        ensures cause { HasCause self.old.faults self.new.faults result }

        ensures listed { IsListed self.old → IsErr result }
        ensures ok { OnOk result (self.new ≡ succeeded self.old (self.old.bytes ++ bytes.now)) }
        ensures err { OnErr result (self.new ≡ failed self.old) }
    {
        let is_listed = self.failing.contains(&self.calls);
        self.calls = self.calls.saturating_add(1);
        if is_listed || self.content.extend(bytes).is_err() {
            return Err(count_fault(&mut self.faults));
        }
        Ok(())
    }

    fn flush(&mut self) -> Result<(), Failed>
        ensures bytes { Keeps (Some self.old.bytes) (Some self.new.bytes) }
        ensures cause { HasCause self.old.faults self.new.faults result }

        ensures alone { IsErr result ↔ IsListed self.old }
        ensures ok { OnOk result (self.new ≡ succeeded self.old self.old.bytes) }
        ensures err { OnErr result (self.new ≡ failed self.old) }
    {
        let is_listed = self.failing.contains(&self.calls);
        self.calls = self.calls.saturating_add(1);
        if is_listed {
            return Err(count_fault(&mut self.faults));
        }
        Ok(())
    }

    fn faults(&self) -> u64 {
        self.faults
    }
}
