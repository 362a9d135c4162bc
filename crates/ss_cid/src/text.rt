//! The text of a CID: `b`, and then base32.
ghost use Rattle.std.specs.Prelude.{◌≡◌, ◌+◌, ◌-◌, ◌*◌, ◌/◌, ◌%◌, ◌^◌, ◌<◌, ◌≤◌, true, false, [], ◌∷◌, ◌++◌, length, drop, slice_index, MatchOption};
ghost use Rattle.ss_cid.specs.Base32.{letter, is_letter, letter_value};
ghost use Rattle.ss_cid.specs.Text.{cid_text, letters_bytes, text_bytes};

use crate::bits::Bits;
use crate::cid_buffer::CidBuffer;
use crate::fault::CidFault;

/// The sign of base32 in lower case without padding.
const SIGN: u8 = b'b';

/// The most characters that a CID's text has.
const MAX_TEXT: usize = 117;

/// Writes the text of a CID's bytes to the start of `out`, and tells how many characters it has.
pub fn write_text(bytes: &[u8], out: &mut [u8; 120]) -> usize
    requires { length bytes.now ≤ 72 }
    ensures value { out.new ≡ cid_text bytes.now ++ drop result out.old }
    ensures len { result ≡ length (cid_text bytes.now) }
    ensures short { result ≤ 117 }
{
    out[0] = SIGN;
    let count = (8 * bytes.len() + 4) / 5;
    let mut bits = Bits::new();
    let mut taken = 0;
    for k in 0..count {
        taken = refill(&mut bits, bytes, taken);
        out[k + 1] = letter(bits.emit(5));
    }
    count + 1
}

/// Makes sure that there are bits for a character: those of the byte at offset `taken`, and zeros
/// after the last byte.
fn refill(bits: &mut Bits, bytes: &[u8], taken: usize) -> usize
    requires few { bits.old.len < 8 }
    requires small { taken < 2 ^ 32 }
    ensures kept { 5 ≤ bits.old.len → (result ≡ taken) × (bits.new ≡ bits.old) }
    ensures fed { bits.old.len < 5
        → (result ≡ taken + 1) × (bits.new.held ≡ bits.old.held * 256 + slice_index bytes.now taken)
        × (bits.new.len ≡ bits.old.len + 8) }
{
    if bits.len >= 5 {
        return taken;
    }
    let byte = bytes.get(taken).copied().unwrap_or(0);
    bits.feed(8, u32::from(byte));
    taken + 1
}

/// The character with this value.
fn letter(value: u32) -> u8
    requires { value < 32 }
    ensures { result ≡ letter value }
{
    if value < 26 {
        b'a' + value as u8
    } else {
        b'2' + (value - 26) as u8
    }
}

/// The bytes that a text spells, or the first fault. There are at most 72.
pub fn read_text(text: &[u8]) -> Result<CidBuffer, CidFault>
    ensures { result ≡ text_bytes text.now }
{
    let Some((first, letters)) = text.split_first() else {
        return Err(CidFault::BadText { at: 0 });
    };
    if *first != SIGN {
        return Err(CidFault::BadText { at: 0 });
    }
    if text.len() > MAX_TEXT {
        return Err(CidFault::BadText { at: MAX_TEXT });
    }
    read_letters(letters)
}

/// The bytes that the characters after the sign spell.
fn read_letters(letters: &[u8]) -> Result<CidBuffer, CidFault>
    requires { length letters.now ≤ 116 }
    ensures { result ≡ letters_bytes letters.now }
{
    let mut room = CidBuffer::new();
    let mut bits = Bits::new();
    for (k, c) in letters.iter().enumerate() {
        let Some(value) = letter_value(*c) else {
            return Err(CidFault::BadText { at: k + 1 });
        };
        bits.feed(5, value);
        spill(&mut bits, &mut room);
    }
    if bits.len >= 5 {
        return Err(CidFault::BadText {
            at: letters.len() + 1,
        });
    }
    if bits.held != 0 {
        return Err(CidFault::BadText { at: letters.len() });
    }
    Ok(room)
}

/// Moves a byte out of the bits, where there are enough.
fn spill(bits: &mut Bits, room: &mut CidBuffer)
    requires few { bits.old.len < 16 }
    requires room { length room.old < 72 }
    ensures kept { bits.old.len < 8 → (bits.new ≡ bits.old) × (room.new ≡ room.old) }
    ensures spilt { 8 ≤ bits.old.len
        → (room.new ≡ room.old ++ bits.old.held / 2 ^ (bits.old.len - 8) ∷ [])
        × (bits.new.held ≡ bits.old.held % 2 ^ (bits.old.len - 8)) × (bits.new.len ≡ bits.old.len - 8) }
{
    if bits.len >= 8 {
        room.push(bits.emit(8) as u8);
    }
}

/// The value of a character of the alphabet; None of another.
fn letter_value(c: u8) -> Option<u32>
    ensures { MatchOption result (is_letter c ≡ false) (λ value. (is_letter c ≡ true) × (value ≡ letter_value c) × (value < 32)) }
{
    match c {
        b'a'..=b'z' => Some(u32::from(c - b'a')),
        b'2'..=b'7' => Some(u32::from(c - b'2') + 26),
        _ => None,
    }
}
