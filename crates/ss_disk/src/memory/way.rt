ghost use Rattle.std.specs.Prelude.{◌≡◌};
ghost use Rattle.ss_disk.specs.declared.memory.way.Way.TheVariants as Way;

/// Which way a write goes that failed, or that a crash found not synced.
#[derive(Clone, Copy, PartialEq, Eq)]
pub(super) enum Way {
    /// It leaves nothing.
    Absent,
    /// It leaves all of its bytes.
    Whole,
    /// It leaves the first half of its bytes.
    Half,
    /// It leaves this byte in each place of its range.
    Filled { byte: u8 },
}

impl Way {
    /// The way of a number. A log's gates are `a5` and `00`; the other bytes are none that it writes there.
    pub(super) fn of(number: u64) -> Way
        ensures { (number ≡ 0 → result ≡ Way.Absent) × (number ≡ 1 → result ≡ Way.Whole) × (number ≡ 2 → result ≡ Way.Half) }
    {
        match number % 8 {
            0 => Way::Absent,
            // Twice, so that a write is often there behind one that is not.
            1 | 7 => Way::Whole,
            2 => Way::Half,
            3 => Way::Filled { byte: 0xa5 },
            4 => Way::Filled { byte: 0xff },
            5 => Way::Filled { byte: 0x5a },
            _ => Way::Filled { byte: 0x00 },
        }
    }
}
