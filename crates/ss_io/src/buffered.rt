ghost use Rattle.std.specs.Prelude.{◌≡◌, ◌<◌, ◌≤◌, [], length, take, drop, IfOk, IfErr, OnOk};
ghost use Rattle.std.specs.Io.KnownBytes.{Keeps, Consumes, IsAtEnd};
ghost use Rattle.ss_io.specs.Streams.{HasCause};

use crate::{Failed, Source};
use ss_cid::NoMemory;
use std::alloc::Global;

/// How many bytes a buffer has.
const BUFFER_BYTES: usize = 65536;

/// A source that is read through a buffer of 65,536 bytes, so that its bytes can be looked at before they are taken, and
/// taken a few at a time without a call of the source for each.
#[derive(Drop)]
pub struct Buffered<S> {
    source: S,
    buffer: Vec<u8>,
    // The buffered bytes that were not taken yet are those from `start` to `end`.
    start: usize,
    end: usize,
    ghost within: { (start ≤ end) × (end ≤ length buffer.items) },
    ghost full: { length buffer.items ≡ 65536 },
}

impl<S: Source + Drop> Buffered<S> {
    ghost use Rattle.ss_io.specs.Buffered.{before, buffered_of};

    /// The source, of which nothing is buffered yet. Out of memory, the source comes back.
    pub fn new(alloc: Global, source: S) -> Result<Buffered<S>, (NoMemory, S)>
        ensures left { IfOk result (λ buffered. Keeps (S.left source) (⟦<Buffered<S> as Source>⟧.left buffered)) }
        ensures faults { IfOk result (λ buffered. ⟦<Buffered<S> as Source>⟧.faults buffered ≡ S.faults source) }
        ensures place { IfOk result (λ buffered. ⟦<Buffered<S> as Source>⟧.place buffered ≡ S.place source) }
        ensures back { IfErr result (λ refused. refused.1 ≡ source) }
    {
        match vec![in alloc; 0; BUFFER_BYTES] {
            Ok(buffer) => Ok(Buffered {
                source,
                buffer,
                start: 0,
                end: 0,
            }),
            Err(_) => Err((NoMemory, source)),
        }
    }

    /// The source. Bytes that are buffered are lost.
    pub fn into_inner(self) -> S
        ensures left { ⟦<Buffered<S> as Source>⟧.left self ≡ before (buffered_of self) (S.left result) }
        ensures faults { S.faults result ≡ ⟦<Buffered<S> as Source>⟧.faults self }
        ensures place { S.place result ≡ ⟦<Buffered<S> as Source>⟧.place self }
    {
        let Buffered { source, .. } = self;
        source
    }

    /// The bytes that are buffered: some of those that are left, from the first on.
    pub fn buffered(&self) -> &[u8]
        ensures { result.now ≡ buffered_of self.now }
    {
        &self.buffer[self.start..self.end]
    }

    /// Reads from the source where nothing is buffered. Where nothing is buffered after it, the input has ended.
    pub fn fill(&mut self) -> Result<(), Failed>
        ensures left { Keeps (⟦<Buffered<S> as Source>⟧.left self.old) (⟦<Buffered<S> as Source>⟧.left self.new) }
        ensures ended { OnOk result (buffered_of self.new ≡ [] → IsAtEnd (⟦<Buffered<S> as Source>⟧.left self.new)) }
        ensures cause { HasCause (⟦<Buffered<S> as Source>⟧.faults self.old) (⟦<Buffered<S> as Source>⟧.faults self.new) result }
        ensures place { ⟦<Buffered<S> as Source>⟧.place self.new ≡ ⟦<Buffered<S> as Source>⟧.place self.old }
    {
        if self.start < self.end {
            return Ok(());
        }
        self.start = 0;
        self.end = 0;
        self.end = self.source.read(self.buffer.as_mut_slice())?;
        Ok(())
    }

    /// Takes buffered bytes.
    pub fn consume(&mut self, count: usize)
        requires { count ≤ length (buffered_of self.old) }
        ensures left { Consumes (⟦<Buffered<S> as Source>⟧.left self.old) (⟦<Buffered<S> as Source>⟧.left self.new) (take count (buffered_of self.old)) }
        ensures rest { buffered_of self.new ≡ drop count (buffered_of self.old) }
        ensures faults { ⟦<Buffered<S> as Source>⟧.faults self.new ≡ ⟦<Buffered<S> as Source>⟧.faults self.old }
        ensures place { ⟦<Buffered<S> as Source>⟧.place self.new ≡ ⟦<Buffered<S> as Source>⟧.place self.old }
    {
        self.start += count;
    }
}

impl<S: Source + Drop> Source for Buffered<S> {
    ghost use Rattle.ss_io.specs.Buffered.{before, buffered_of};

    ghost left = { λ b. before (buffered_of b) (S.left b.source) };

    ghost faults = { λ b. S.faults b.source };

    ghost place = { λ b. S.place b.source };

    fn read(&mut self, out: &mut [u8]) -> Result<usize, Failed> {
        self.fill()?;
        let count = out.len().min(self.end - self.start);
        out[..count].copy_from_slice(&self.buffered()[..count]);
        self.start += count;
        Ok(count)
    }

    fn faults(&self) -> u64 {
        self.source.faults()
    }
}
