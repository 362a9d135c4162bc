ghost use Rattle.std.specs.Prelude.{◌≡◌, ◌<◌, ◌≤◌, ◌↔◌, length, IsSome, IfOk};
ghost use Rattle.std.specs.Io.KnownBytes.{Keeps, WriteAppends};
ghost use Rattle.std.specs.Option.{option_copied};
ghost use Rattle.ss_io.specs.Streams.{HasCause, PutAppends};

use crate::failure::{Failures, StreamCall, StreamFailure};
use crate::{Failed, Sink};
use std::io;
use std::io::{ErrorKind, Write};

/// A sink over a writer of std. A write that a signal interrupts is made again. One that takes nothing of
/// bytes that are not empty has failed. The first failure is remembered.
#[derive(Drop)]
pub struct StdSink<W: Write> {
    inner: W,
    failures: Failures,
}

impl<W: Write> StdSink<W> {
    /// A sink that has not failed yet.
    pub fn new(inner: W) -> StdSink<W>
        ensures written { ⟦<StdSink<W> as Sink>⟧.written result ≡ W.contents inner }
        ensures faults { ⟦<StdSink<W> as Sink>⟧.faults result ≡ 0 }
    {
        StdSink {
            inner,
            failures: Failures::none(),
        }
    }

    /// Why a call failed, where one has: the first of them.
    pub fn failure(&self) -> Option<&StreamFailure>
        ensures some { IsSome result ↔ (0 < ⟦<StdSink<W> as Sink>⟧.faults self.now) }
        ensures value { option_copied result ≡ self.now.failures.first }
    {
        self.failures.first()
    }
}

impl<W: Write> Sink for StdSink<W> {
    ghost written = { λ s. W.contents s.inner };

    ghost faults = { λ s. s.failures.count };

    /// The first failure stays the first.
    fn put(&mut self, bytes: &[u8]) -> Result<(), Failed>
        ensures bytes { PutAppends (W.contents self.old.inner) (W.contents self.new.inner) result bytes.now }
        ensures cause { HasCause self.old.failures.count self.new.failures.count result }

        ensures first { IsSome self.old.failures.first → self.new.failures.first ≡ self.old.failures.first }
    {
        match write_whole(&mut self.inner, bytes) {
            Ok(()) => Ok(()),
            Err(error) => Err(self.failures.add(StreamCall::Write, error)),
        }
    }

    /// The first failure stays the first.
    fn flush(&mut self) -> Result<(), Failed>
        ensures bytes { Keeps (W.contents self.old.inner) (W.contents self.new.inner) }
        ensures cause { HasCause self.old.failures.count self.new.failures.count result }

        ensures first { IsSome self.old.failures.first → self.new.failures.first ≡ self.old.failures.first }
    {
        match self.inner.flush() {
            Ok(()) => Ok(()),
            Err(error) => Err(self.failures.add(StreamCall::Flush, error)),
        }
    }

    fn faults(&self) -> u64 {
        self.failures.count
    }
}

// Writes on until nothing is left.
fn write_whole<W: Write>(inner: &mut W, bytes: &[u8]) -> io::Result<()>
    ensures { PutAppends (W.contents inner.old) (W.contents inner.new) result bytes.now }
{
    let mut rest = bytes;
    while !rest.is_empty() {
        let count = write_some(inner, rest)?;
        rest = &rest[count..];
    }
    Ok(())
}

// One write that takes something, made again where a signal interrupts it.
fn write_some<W: Write>(inner: &mut W, bytes: &[u8]) -> io::Result<usize>
    ensures some { IfOk result (λ count. (0 < count) × (count ≤ length bytes.now)) }
    ensures bytes { WriteAppends (W.contents inner.old) (W.contents inner.new) result bytes.now }
{
    // A call that may be interrupted for ever has no measure, so the tries are bounded.
    for _ in 0..u64::MAX {
        match inner.write(bytes) {
            Ok(0) => return Err(io::Error::from(ErrorKind::WriteZero)),
            Ok(count) => return Ok(count),
            Err(error) if error.kind() == ErrorKind::Interrupted => {}
            Err(error) => return Err(error),
        }
    }
    Err(io::Error::from(ErrorKind::Interrupted))
}
