ghost use Rattle.std.specs.Prelude.{◌≡◌, ◌↔◌, ◌∷◌, [], ◌++◌, ◌<◌, min, length, take, drop, Some, IsErr, IfOk, OnOk, OnErr};
ghost use Rattle.std.specs.Io.{ReadsAtMost};
ghost use Rattle.std.specs.Io.KnownBytes.{ReadConsumes};
ghost use Rattle.ss_io.specs.Streams.{HasCause};
ghost use Rattle.ss_io.specs.Memory.{fresh, IsListed, succeeded, failed};

use crate::failed::count_fault;
use crate::{Failed, Source};
use ss_cid::{Bytes, NoMemory};
use std::alloc::Global;
use std::marker::Model;

/// A source over bytes in memory, which tells them. The calls of `read`, counted from 0, fail where they are
/// listed, and nowhere else.
#[derive(Debug, Drop)]
pub struct MemorySource {
    content: Bytes,
    place: usize,
    calls: u64,
    failing: Vec<u64>,
    faults: u64,
}

impl Model for MemorySource {
    ghost use Rattle.std.specs.Prelude.{◌≤◌, length, drop};
    ghost use Rattle.ss_io.specs.Memory.{MemoryEnd};

    ghost Value = { MemoryEnd };

    ghost view = { λ s. record { bytes = drop s.place s.content; calls = s.calls; failing = s.failing.items; faults = s.faults } };

    ghost invariant = { λ s. s.place ≤ length s.content };
}

impl MemorySource {
    /// A source that gives these bytes and fails at no call.
    pub fn new(alloc: Global, content: Bytes) -> MemorySource
        ensures { result ≡ fresh content }
    {
        MemorySource {
            content,
            place: 0,
            calls: 0,
            failing: Vec::new(alloc),
            faults: 0,
        }
    }

    /// Lists one more call that fails. Out of memory, the list stays as it was.
    pub fn fail_at(&mut self, call: u64) -> Result<(), NoMemory>
        ensures ok { OnOk result (self.new ≡ record self.old { failing = self.old.failing ++ call ∷ [] }) }
        ensures err { OnErr result (self.new ≡ self.old) }
    {
        self.failing.push(call)?;
        Ok(())
    }
}

impl Source for MemorySource {
    ghost left = { λ s. Some s.bytes };

    ghost faults = { λ s. s.faults };

    /// Moves as many bytes as `out` has room for and are left. A listed call leaves `out` as it was.
    fn read(&mut self, out: &mut [u8]) -> Result<usize, Failed>
        ensures bound { ReadsAtMost result out.new }
        ensures bytes { ReadConsumes (Some self.old.bytes) (Some self.new.bytes) result out.new }
        ensures cause { HasCause self.old.faults self.new.faults result }

        ensures alone { IsErr result ↔ IsListed self.old }
        ensures count { IfOk result (λ n. n ≡ min (length out.old) (length self.old.bytes)) }
        ensures out { IfOk result (λ n. out.new ≡ take n self.old.bytes ++ drop n out.old) }
        ensures ok { IfOk result (λ n. self.new ≡ succeeded self.old (drop n self.old.bytes)) }
        ensures err { OnErr result ((self.new ≡ failed self.old) × (out.new ≡ out.old)) }
    {
        let is_listed = self.failing.contains(&self.calls);
        self.calls = self.calls.saturating_add(1);
        if is_listed {
            return Err(count_fault(&mut self.faults));
        }
        let (_, left) = self.content.as_slice().split_at(self.place);
        let count = copy_front(left, out);
        self.place += count;
        Ok(count)
    }

    fn faults(&self) -> u64 {
        self.faults
    }
}

// Copies as much of `from` as `to` has room for.
fn copy_front(from: &[u8], to: &mut [u8]) -> usize
    ensures count { result ≡ min (length to.old) (length from.now) }
    ensures after { to.new ≡ take result from.now ++ drop result to.old }
    ensures taken { from.now ≡ take result to.new ++ drop result from.now }
    ensures end { result ≡ 0 → 0 < length to.new → drop result from.now ≡ [] }
{
    let count = to.len().min(from.len());
    to[..count].copy_from_slice(&from[..count]);
    count
}
