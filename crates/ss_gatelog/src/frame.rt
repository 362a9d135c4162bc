// A frame: four bytes for the length, the body, and a byte for the gate after it.
ghost use Rattle.std.specs.Prelude.{◌≡◌, ◌+◌, ◌≤◌, ◌∷◌, ◌++◌, [], length};
ghost use Rattle.ss_gatelog.specs.Log.{longest_body, length_bytes};
ghost use Rattle.ss_gatelog.specs.GateLog.{body_of};

/// The gate of a committed record, one byte. A gate is closed where its byte is any other.
pub(crate) const OPEN: u8 = 0xa5;

/// The gate that the writer closes with.
pub(crate) const CLOSED: u8 = 0x00;

/// The bytes of a record before its body, which are its gate and its length.
pub const HEAD: u64 = 5;

/// The most bytes of a record's body: 16 MiB.
pub(crate) const LONGEST_BODY: u32 = 16_777_216;

/// Writes the length of the body before it, and a closed gate after it.
pub(crate) fn seal(frame: &mut [u8])
    requires frame { 5 ≤ length frame.old }
    requires body { length frame.old ≤ longest_body + 5 }
    ensures sealed { frame.new ≡ length_bytes (length (body_of frame.old)) ++ (body_of frame.old ++ 0 ∷ []) }
    ensures body { body_of frame.new ≡ body_of frame.old }
{
    let last = frame.len() - 1;
    let length = (last - 4) as u32;
    frame[..4].copy_from_slice(&length.to_be_bytes());
    frame[last] = CLOSED;
}

/// The length that the four bytes after a gate spell, the most significant first.
pub(crate) fn length_of(bytes: &[u8; 4]) -> u32
    ensures { length_bytes result ≡ bytes.now }
{
    u32::from_be_bytes(*bytes)
}
