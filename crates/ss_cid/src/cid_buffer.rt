//! A buffer for a CID's bytes.
ghost use Rattle.std.specs.Prelude.{◌≡◌, ℕ, ◌+◌, ◌<◌, ◌≤◌, ◌^◌, [], ◌∷◌, ◌++◌, length, take, drop};
ghost use Rattle.std.specs.Int.Digits.{number_from_digits};
ghost use Rattle.std.specs.Ordering.{nat_cmp};
ghost use Rattle.std.specs.Cmp.Lexicographic.{slice_cmp};
ghost use Rattle.ss_cid.specs.Varint.{varint};

use crate::varint::write_varint;
use std::cmp::Ordering;
use std::marker::Model;

/// At most 72 bytes that lie in the value itself. The cells after them are zero.
#[derive(Clone, Copy)]
pub struct CidBuffer {
    cells: [u8; 72],
    len: u8,
}

impl Model for CidBuffer {
    ghost use Rattle.std.specs.Prelude.{◌≡◌, ◌-◌, ◌≤◌, ◌++◌, ℕ, List, length, take, drop, replicate};

    ghost Value = { List ℕ };

    ghost view = { λ r. take r.len r.cells };

    ghost invariant = { λ r. (r.len ≤ 72) × (length r.cells ≡ 72) × (drop r.len r.cells ≡ replicate (72 - r.len) 0) };

    ghost inverse = { λ bytes. record { cells = bytes ++ replicate (72 - length bytes) 0; len = length bytes } };

    ghost use Rattle.std.proofs.Common.{arith, ap, sym, ◌∙◌, take-append-drop, length-take-le};

    ghost inverse_ok = { λ r h i. record {
      cells = (ap (λ n. take r.len r.cells ++ replicate (72 - n) 0) (length-take-le r.len r.cells (omega (arith, h.0, h.1)))
          ∙ ap (λ zeros. take r.len r.cells ++ zeros) (sym h.2) ∙ take-append-drop r.len r.cells) i;
      len = length-take-le r.len r.cells (omega (arith, h.0, h.1)) i;
    } };
}

impl CidBuffer {
    /// No bytes.
    pub fn new() -> CidBuffer
        ensures { result ≡ [] }
    {
        CidBuffer {
            cells: [0; 72],
            len: 0,
        }
    }

    /// How many bytes there are.
    pub fn len(&self) -> usize
        ensures value { result ≡ length self.now }
        ensures fits { result ≤ 72 }
    {
        usize::from(self.len)
    }

    /// The bytes.
    pub fn as_slice(&self) -> &[u8]
        ensures value { result.now ≡ self.now }
        ensures fits { length self.now ≤ 72 }
    {
        &self.cells[..usize::from(self.len)]
    }

    /// Appends a byte, for which there must be room.
    pub fn push(&mut self, byte: u8)
        requires { length self.old < 72 }
        ensures { self.new ≡ self.old ++ byte ∷ [] }
    {
        self.cells[usize::from(self.len)] = byte;
        self.len += 1;
    }

    /// Appends bytes, for which there must be room.
    pub fn extend(&mut self, bytes: &[u8])
        requires { length self.old + length bytes.now ≤ 72 }
        ensures { self.new ≡ self.old ++ bytes.now }
    {
        let start = usize::from(self.len);
        let end = start + bytes.len();
        self.cells[start..end].copy_from_slice(bytes);
        self.len = end as u8;
    }

    /// Appends the varint of `n`. There must be room for nine bytes.
    pub fn push_varint(&mut self, n: u64)
        requires fits { n < 2 ^ 63 }
        requires room { length self.old + 9 ≤ 72 }
        ensures value { self.new ≡ self.old ++ varint n }
        ensures few { length self.new ≤ length self.old + 9 }
    {
        let mut groups = [0; 9];
        let len = write_varint(n, &mut groups);
        self.extend(&groups[..len]);
    }

    /// How the bytes compare, as std compares slices.
    pub fn compare(&self, other: &CidBuffer) -> Ordering
        ensures { result ≡ slice_cmp nat_cmp self.now other.now }
    {
        compare_cells(&self.cells, &other.cells).then(self.len.cmp(&other.len))
    }
}

/// How all cells compare, by words of eight, the first of which mostly decides.
fn compare_cells(cells: &[u8; 72], others: &[u8; 72]) -> Ordering
    ensures { result ≡ slice_cmp nat_cmp cells.now others.now }
{
    for i in 0..9 {
        let order = word_at(cells, 8 * i).cmp(&word_at(others, 8 * i));
        if order.is_ne() {
            return order;
        }
    }
    Ordering::Equal
}

/// The eight cells from the offset `at` on as a number, the first the most significant.
fn word_at(cells: &[u8; 72], at: usize) -> u64
    requires { at ≤ 64 }
    ensures { result ≡ number_from_digits 256 (take 8 (drop at cells.now)) }
{
    u64::from_be_bytes([
        cells[at],
        cells[at + 1],
        cells[at + 2],
        cells[at + 3],
        cells[at + 4],
        cells[at + 5],
        cells[at + 6],
        cells[at + 7],
    ])
}
