ghost use Rattle.std.specs.Prelude.{◌≡◌, ℕ, List, [], Option};
ghost use Rattle.std.specs.Io.KnownBytes.{Keeps};
ghost use Rattle.ss_io.specs.Streams.{HasCause, PutAppends};

use crate::Failed;

/// Where bytes go.
pub trait Sink {
    /// The bytes that were written, where the sink tells them.
    ghost written: { Self → Option (List ℕ) };

    /// How often a call has failed, up to 2^64 - 1.
    ghost faults: { Self → ℕ };

    /// The ghost names of the references that the sink holds. No call changes them, so the lender
    /// still knows them to be its own afterwards.
    ghost place: { Self → List ℕ } = { λ _. [] };

    /// Appends the bytes. A call that fails has appended a prefix of them, which may be none or all.
    fn put(&mut self, bytes: &[u8]) -> Result<(), Failed>
        ensures bytes { PutAppends (written self.old) (written self.new) result bytes.now }
        ensures cause { HasCause (faults self.old) (faults self.new) result }
        ensures place { place self.new ≡ place self.old };

    /// Hands on what the sink has put aside. What is written stays, whatever the answer.
    fn flush(&mut self) -> Result<(), Failed>
        ensures bytes { Keeps (written self.old) (written self.new) }
        ensures cause { HasCause (faults self.old) (faults self.new) result }
        ensures place { place self.new ≡ place self.old };

    /// How often a call has failed, up to 2^64 - 1.
    fn faults(&self) -> u64
        ensures { result ≡ faults self.now };
}
