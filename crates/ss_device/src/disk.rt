ghost use Rattle.std.specs.Prelude.{◌≡◌, ◌+◌, ◌^◌, ◌<◌, ◌≤◌, ℕ, List, [], Bool, IsTrue, length, slice_range, IfOk, OnOk, OnErr};
ghost use Rattle.ss_device.specs.Disk.{Files, Holds, Torn, Same, Changes, Evolves, Raises, HasCause};

use crate::DiskFault;

/// How many files a disk has.
pub const FILES: usize = 6;

/// Six files of bytes that can be written in place and synced, which a crash may leave half done.
///
/// The files are, from 0 to 5: the two halves of the hot log, the two halves of the cold log, the
/// log of meta records and the log of moves. Each call that does not do what it was asked to do
/// answers `DiskFault` and raises the count of faults, unless that stands at its last value.
pub trait Disk {
    // Whether this disk exposes what its files hold. A disk over an operating system's folder can't.
    ghost told: { Bool };

    // What a read gives, file by file.
    ghost files: { Self → Files };

    // How many calls were made.
    ghost moment: { Self → ℕ };

    // The files that a crash at a moment may leave.
    ghost image: { Self → ℕ → Files → Type 0 };

    // How many bytes of a file are known to be there: the ends of writes, and sizes that were answered.
    ghost known: { Self → ℕ → ℕ };

    ghost faults: { Self → ℕ };

    ghost place: { Self → List ℕ } = { λ _. [] };

    /// The length of a file, in bytes. The answer becomes the file's known length; a fault changes nothing.
    fn size(&mut self, file: u8) -> Result<u64, DiskFault>
        requires { file < 6 }
        ensures length { IsTrue told → IfOk result (λ n. n ≡ length (files self.old file)) }
        ensures known { IfOk result (λ n. (known self.old file ≤ n) × Raises file n (known self.old) (known self.new)) }
        ensures known_err { OnErr result (known self.new ≡ known self.old) }
        ensures reads { IsTrue told → Same (files self.old) (files self.new) }
        ensures images { IsTrue told → Evolves (moment self.old) (image self.old) (moment self.new) (image self.new) Same }
        ensures cause { HasCause (faults self.old) (faults self.new) result }
        ensures place { place self.new ≡ place self.old };

    /// Fills `out` from the bytes at `at`. The place and the end must lie within the known length. A fault changes
    /// nothing of the disk, and `out` may hold anything then.
    fn read(&mut self, file: u8, at: u64, out: &mut [u8]) -> Result<(), DiskFault>
        requires file { file < 6 }
        requires range { at + length out.old ≤ known self.old file }
        requires end { at + length out.old < 2 ^ 62 }
        ensures bytes { IsTrue told → OnOk result (out.new ≡ slice_range (files self.old file) at (at + length out.old)) }
        ensures known { known self.new ≡ known self.old }
        ensures reads { IsTrue told → Same (files self.old) (files self.new) }
        ensures images { IsTrue told → Evolves (moment self.old) (image self.old) (moment self.new) (image self.new) Same }
        ensures cause { HasCause (faults self.old) (faults self.new) result }
        ensures place { place self.new ≡ place self.old };

    /// Writes the bytes at `at`, over what is there. After a fault the range may hold anything,
    /// and before the next sync so may it after a crash.
    fn write(&mut self, file: u8, at: u64, bytes: &[u8]) -> Result<(), DiskFault>
        requires file { file < 6 }
        requires place { at ≤ known self.old file }
        requires end { at + length bytes.now < 2 ^ 62 }
        ensures written { IsTrue told → OnOk result (Changes file (Holds at bytes.now) (files self.old) (files self.new)) }
        ensures torn { IsTrue told → Changes file (Torn at (length bytes.now)) (files self.old) (files self.new) }
        ensures images { IsTrue told → Evolves (moment self.old) (image self.old) (moment self.new) (image self.new) (Changes file (Torn at (length bytes.now))) }
        ensures known { OnOk result (Raises file (at + length bytes.now) (known self.old) (known self.new)) }
        ensures known_err { OnErr result (known self.new ≡ known self.old) }
        ensures cause { HasCause (faults self.old) (faults self.new) result }
        ensures place { place self.new ≡ place self.old };

    /// Waits until what was written to the file is there after any crash. A failed sync changes nothing; what was
    /// written since the last that succeeded may still be lost or torn.
    fn sync(&mut self, file: u8) -> Result<(), DiskFault>
        requires { file < 6 }
        ensures durable { IsTrue told → OnOk result ((left : Files) → image self.new (moment self.new) left → left file ≡ files self.new file) }
        ensures known { known self.new ≡ known self.old }
        ensures reads { IsTrue told → Same (files self.old) (files self.new) }
        ensures images { IsTrue told → Evolves (moment self.old) (image self.old) (moment self.new) (image self.new) Same }
        ensures cause { HasCause (faults self.old) (faults self.new) result }
        ensures place { place self.new ≡ place self.old };

    /// How many calls failed.
    fn faults(&self) -> u64
        ensures { result ≡ faults self.now };

    ghost reads_as_image: { (disk : Self) → IsTrue told → image disk (moment disk) (files disk) };

    ghost known_within: { (disk : Self) (file : ℕ) → IsTrue told → known disk file ≤ length (files disk file) };
}
