ghost use Rattle.std.specs.Prelude.{◌≡◌, ℕ, List, [], Option};
ghost use Rattle.std.specs.Io.{ReadsAtMost};
ghost use Rattle.std.specs.Io.KnownBytes.{ReadConsumes};
ghost use Rattle.ss_io.specs.Streams.{HasCause};

use crate::Failed;

/// Where bytes come from.
pub trait Source {
    /// The bytes that are left, where the source tells them.
    ghost left: { Self → Option (List ℕ) };

    /// How often a call has failed, up to 2^64 - 1.
    ghost faults: { Self → ℕ };

    /// The ghost names of the references that the source holds. No call changes them, so the lender
    /// still knows them to be its own afterwards.
    ghost place: { Self → List ℕ } = { λ _. [] };

    /// Moves the next bytes to the front of `out`, and answers how many. 0 means that `out` is empty or that
    /// the input has ended. A call that fails moves nothing.
    fn read(&mut self, out: &mut [u8]) -> Result<usize, Failed>
        ensures bound { ReadsAtMost result out.new }
        ensures bytes { ReadConsumes (left self.old) (left self.new) result out.new }
        ensures cause { HasCause (faults self.old) (faults self.new) result }
        ensures place { place self.new ≡ place self.old };

    /// How often a call has failed, up to 2^64 - 1.
    fn faults(&self) -> u64
        ensures { result ≡ faults self.now };
}

/// A source that is lent.
impl<S: Source> Source for &mut S {
    ghost use Rattle.std.specs.Prelude.{◌∷◌};

    ghost left = { λ s. S.left s.now };

    ghost faults = { λ s. S.faults s.now };

    ghost place = { λ s. s.ghost_name ∷ S.place s.now };

    fn read(&mut self, out: &mut [u8]) -> Result<usize, Failed> {
        Source::read(&mut **self, out)
    }

    fn faults(&self) -> u64 {
        Source::faults(&**self)
    }
}
