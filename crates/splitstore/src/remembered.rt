//! What a run wrote last.
ghost use Rattle.std.specs.Prelude.{◌∷◌};

use circular_buffer::HeapCircularBuffer;
use ss_io::{Failed, Sink};
use std::alloc::{AllocError, Global};
use std::str;

/// The most bytes of a last line that are remembered: an error line has fewer.
const LINE_BYTES: usize = 256;

/// A sink that is lent, and remembers the end of what was written.
#[derive(Drop)]
pub(crate) struct Remembered<'a, K> {
    sink: &'a mut K,
    end: HeapCircularBuffer<u8>,
}

impl<'a, K: Sink> Remembered<'a, K> {
    /// A sink to which nothing was written yet.
    pub(crate) fn new(alloc: Global, sink: &'a mut K) -> Result<Remembered<'a, K>, AllocError> {
        Ok(Remembered {
            sink,
            end: HeapCircularBuffer::with_capacity(alloc, LINE_BYTES)?,
        })
    }

    /// The last line that was written, without its end.
    pub(crate) fn last_line(&mut self) -> Option<&str> {
        let end: &[u8] = self.end.make_contiguous();
        let text = str::from_utf8(end).ok()?;
        text.lines().last()
    }
}

impl<K: Sink> Sink for Remembered<'_, K> {
    ghost written = { λ r. K.written r.sink.now };

    ghost faults = { λ r. K.faults r.sink.now };

    ghost place = { λ r. r.sink.ghost_name ∷ K.place r.sink.now };

    fn put(&mut self, bytes: &[u8]) -> Result<(), Failed> {
        self.end.extend_from_slice(bytes);
        self.sink.put(bytes)
    }

    fn flush(&mut self) -> Result<(), Failed> {
        self.sink.flush()
    }

    fn faults(&self) -> u64 {
        self.sink.faults()
    }
}
