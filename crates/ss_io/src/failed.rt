ghost use Rattle.std.specs.Prelude.{◌≡◌, ◌+◌, ◌-◌, ◌^◌, ◌≤◌, min};
ghost use Rattle.ss_io.specs.Streams.{Rose};

use std::error::Error;
use std::fmt;

/// The answer of a source or a sink that could not do its work. Its count of faults rose in that call.
#[derive(Clone, Copy, Debug, PartialEq, Eq)]
pub struct Failed;

impl fmt::Display for Failed {
    fn fmt<W: fmt::Write>(&self, f: &mut fmt::Formatter<W>) -> fmt::Result {
        f.write_str("reading or writing failed")
    }
}

impl Error for Failed {}

// One fault more, unless the count stands at its last value.
pub(crate) fn count_fault(faults: &mut u64) -> Failed
    ensures exact { faults.new ≡ min (faults.old + 1) (2 ^ 64 - 1) }
    ensures later { faults.old ≤ faults.new }
    ensures rose { Rose faults.old faults.new }
{
    *faults = faults.saturating_add(1);
    Failed
}
