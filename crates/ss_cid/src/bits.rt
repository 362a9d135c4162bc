//! Bits on their way from bytes to characters and back.
ghost use Rattle.std.specs.Prelude.{◌≡◌, ◌+◌, ◌-◌, ◌*◌, ◌/◌, ◌%◌, ◌^◌, ◌<◌, ◌≤◌};

/// A few bits, of which the first that came in is the most significant.
#[derive(Clone, Copy)]
pub struct Bits {
    pub held: u32,
    pub len: u32,
    ghost few: { len ≤ 16 },
    ghost fits: { held < 2 ^ len },
}

impl Bits {
    /// No bits.
    pub fn new() -> Bits
        ensures held { result.held ≡ 0 }
        ensures len { result.len ≡ 0 }
    {
        Bits { held: 0, len: 0 }
    }

    /// Appends the low `width` bits of `value`, which has no others.
    pub fn feed(&mut self, width: u32, value: u32)
        requires room { self.old.len + width ≤ 16 }
        requires fits { value < 2 ^ width }
        ensures held { self.new.held ≡ self.old.held * 2 ^ width + value }
        ensures len { self.new.len ≡ self.old.len + width }
    {
        let held = (self.held << width) + value;
        *self = Bits {
            held,
            len: self.len + width,
        };
    }

    /// Takes the first `width` bits out.
    pub fn emit(&mut self, width: u32) -> u32
        requires { width ≤ self.old.len }
        ensures value { result ≡ self.old.held / 2 ^ (self.old.len - width) }
        ensures held { self.new.held ≡ self.old.held % 2 ^ (self.old.len - width) }
        ensures len { self.new.len ≡ self.old.len - width }
    {
        let len = self.len - width;
        let value = self.held >> len;
        let held = self.held % (1 << len);
        *self = Bits { held, len };
        value
    }
}
