ghost use Rattle.std.specs.Prelude.{◌≡◌, ◌<◌, ◌↔◌, [], length, IsTrue, IsSome, Ok};
ghost use Rattle.std.specs.Option.{ForSome, option_copied};
ghost use Rattle.std.specs.Io.{ReadsAtMost};
ghost use Rattle.std.specs.Io.KnownBytes.{ReadConsumes};
ghost use Rattle.ss_io.specs.Streams.{HasCause};

use crate::failure::{Failures, StreamCall, StreamFailure};
use crate::{Failed, Source};
use std::io;
use std::io::{ErrorKind, Read};

/// A source over a reader of std. A read that a signal interrupts is made again. Once the reader has said
/// that the input has ended it is not asked again, so the end stays. The first failure is remembered.
#[derive(Drop)]
pub struct StdSource<R: Read> {
    inner: R,
    ended: bool,
    failures: Failures,
    ghost end_stays: { IsTrue ended → ForSome (R.remaining inner) (λ xs. xs ≡ []) },
}

impl<R: Read> StdSource<R> {
    /// A source that has not failed yet.
    pub fn new(inner: R) -> StdSource<R>
        ensures left { ⟦<StdSource<R> as Source>⟧.left result ≡ R.remaining inner }
        ensures faults { ⟦<StdSource<R> as Source>⟧.faults result ≡ 0 }
    {
        StdSource {
            inner,
            ended: false,
            failures: Failures::none(),
        }
    }

    /// Why a call failed, where one has: the first of them.
    pub fn failure(&self) -> Option<&StreamFailure>
        ensures some { IsSome result ↔ (0 < ⟦<StdSource<R> as Source>⟧.faults self.now) }
        ensures value { option_copied result ≡ self.now.failures.first }
    {
        self.failures.first()
    }
}

impl<R: Read> Source for StdSource<R> {
    ghost left = { λ s. R.remaining s.inner };

    ghost faults = { λ s. s.failures.count };

    /// An input that has ended is not asked again, and the first failure stays the first.
    fn read(&mut self, out: &mut [u8]) -> Result<usize, Failed>
        ensures bound { ReadsAtMost result out.new }
        ensures bytes { ReadConsumes (R.remaining self.old.inner) (R.remaining self.new.inner) result out.new }
        ensures cause { HasCause self.old.failures.count self.new.failures.count result }

        ensures ended { IsTrue self.old.ended → (result ≡ Ok 0) × (self.new ≡ self.old) }
        ensures ends { result ≡ Ok 0 → 0 < length out.old → IsTrue self.new.ended }
        ensures first { IsSome self.old.failures.first → self.new.failures.first ≡ self.old.failures.first }
    {
        if self.ended {
            return Ok(0);
        }
        match read_again(&mut self.inner, out) {
            Ok(count) => {
                self.ended = count == 0 && !out.is_empty();
                Ok(count)
            }
            Err(error) => Err(self.failures.add(StreamCall::Read, error)),
        }
    }

    fn faults(&self) -> u64 {
        self.failures.count
    }
}

// One read, made again where a signal interrupts it.
fn read_again<R: Read>(inner: &mut R, out: &mut [u8]) -> io::Result<usize>
    ensures bound { ReadsAtMost result out.new }
    ensures bytes { ReadConsumes (R.remaining inner.old) (R.remaining inner.new) result out.new }
{
    // A call that may be interrupted for ever has no measure, so the tries are bounded.
    for _ in 0..u64::MAX {
        match inner.read(out) {
            Ok(count) => return Ok(count),
            Err(error) if error.kind() == ErrorKind::Interrupted => {}
            Err(error) => return Err(error),
        }
    }
    Err(io::Error::from(ErrorKind::Interrupted))
}
