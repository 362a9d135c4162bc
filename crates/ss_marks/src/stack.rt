//! Stacks of rows that are linked through the rows.
ghost use Rattle.std.specs.Prelude.{◌≡◌, ◌+◌, ◌-◌, ◌<◌, ◌^◌, length, slice_index, slice_set, MatchOption};

/// A stack of rows. The row under each one is its link.
#[derive(Clone, Copy, Debug)]
pub(crate) struct Stack {
    /// The row on top, where there is one.
    top: u32,
    /// How many rows there are.
    len: u32,
}

impl Stack {
    /// No rows.
    pub(crate) fn new() -> Stack
        ensures { result.len ≡ 0 }
    {
        Stack { top: 0, len: 0 }
    }

    /// How many rows there are.
    pub(crate) fn len(&self) -> u32
        ensures { result ≡ self.now.len }
    {
        self.len
    }

    /// Puts a row on top.
    pub(crate) fn push(&mut self, links: &mut [u32], row: u32)
        requires within { row < length links.old }
        requires fits { self.old.len + 1 < 2 ^ 32 }
        ensures link { links.new ≡ slice_set links.old row self.old.top }
        ensures len { self.new.len ≡ self.old.len + 1 }
        ensures top { self.new.top ≡ row }
    {
        links[row as usize] = self.top;
        self.top = row;
        self.len += 1;
    }

    /// Takes the row on top away.
    pub(crate) fn pop(&mut self, links: &[u32]) -> Option<u32>
        requires { 0 < self.old.len → self.old.top < length links.now }
        ensures { MatchOption result
            ((self.old.len ≡ 0) × (self.new ≡ self.old))
            (λ row. (row ≡ self.old.top) × (self.new.len + 1 ≡ self.old.len) × (self.new.top ≡ slice_index links.now row)) }
    {
        if self.len == 0 {
            return None;
        }
        let row = self.top;
        self.top = links[row as usize];
        self.len -= 1;
        Some(row)
    }
}
