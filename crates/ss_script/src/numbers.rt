//! Numbers in printed text, without memory.

ghost use Rattle.std.specs.Prelude.{◌++◌};
ghost use Rattle.std.specs.Fmt.{decimal};
ghost use Rattle.ss_script.specs.Text.{Writes, number_text, numbers_text};

use itoa::Buffer;
use ss_io::{Failed, Sink};

/// Writes a label, and then each number after a space.
pub fn put_numbers<K: Sink>(sink: &mut K, label: &[u8], numbers: &[u64]) -> Result<(), Failed>
    ensures { Writes K.Sink sink.old sink.new result (label.now ++ numbers_text numbers.now) }
{
    sink.put(label)?;
    for number in numbers {
        put_number(sink, *number)?;
    }
    Ok(())
}

// Writes a number after a space.
pub(crate) fn put_number<K: Sink>(sink: &mut K, number: u64) -> Result<(), Failed>
    ensures { Writes K.Sink sink.old sink.new result (number_text number) }
{
    sink.put(b" ")?;
    put_decimal(sink, number)
}

// Writes a number.
pub(crate) fn put_decimal<K: Sink>(sink: &mut K, number: u64) -> Result<(), Failed>
    ensures { Writes K.Sink sink.old sink.new result (decimal number) }
{
    let mut digits = Buffer::new();
    sink.put(digits.format(number).as_bytes())
}
