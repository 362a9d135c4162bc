//! How far an import is, told on standard error while it runs.
ghost use Rattle.std.specs.Prelude.{◌∷◌};

use ss_io::{Failed, Source};
use std::fmt;
use std::time::{Clock, Duration, Instant};

/// The least time before the line is written, and before it is written again, in seconds.
const PAUSE: u64 = 1;

/// How many bytes a tenth of a megabyte has.
const TENTH: u64 = 100_000;

/// How many seconds a minute has.
const MINUTE: u64 = 60;

/// A source that is lent, and tells on standard error how far it was read: one line, which is written over at most once a
/// second. That standard error takes it is not needed for anything.
#[derive(Drop)]
pub(crate) struct Watched<'a, R, S> {
    rt: &'a R,
    source: &'a mut S,
    read: u64,
    of: Option<u64>,
    begun: Option<Instant>,
    told: Option<Instant>,
}

impl<'a, R: Clock + Eprint, S: Source> Watched<'a, R, S> {
    /// A source of which nothing was read, and which has `of` bytes, if that is known.
    pub(crate) fn new(rt: &'a R, source: &'a mut S, of: Option<u64>) -> Watched<'a, R, S> {
        Watched {
            rt,
            source,
            read: 0,
            of,
            begun: Instant::now(rt).ok(),
            told: None,
        }
    }

    /// Clears the line, if it was written.
    pub(crate) fn clear(&self) {
        if self.told.is_some() {
            let _ = eprint!(self.rt; "\r\x1b[K");
        }
    }

    // Tells how far the source was read, unless that was told a moment ago, and answers when it was told last.
    fn tell(&self) -> Option<Instant> {
        let begun = self.begun?;
        let now = Instant::now(self.rt).ok()?;
        if now.duration_since(self.told.unwrap_or(begun)).as_secs() < PAUSE {
            return self.told;
        }
        let progress = Progress {
            read: self.read,
            of: self.of,
            time: now.duration_since(begun),
        };
        let _ = eprint!(self.rt; "\rsplitstore: {progress}\x1b[K");
        Some(now)
    }
}

impl<R: Clock + Eprint, S: Source> Source for Watched<'_, R, S> {
    ghost left = { λ w. S.left w.source.now };

    ghost faults = { λ w. S.faults w.source.now };

    ghost place = { λ w. w.source.ghost_name ∷ S.place w.source.now };

    fn read(&mut self, out: &mut [u8]) -> Result<usize, Failed> {
        let count = self.source.read(out)?;
        self.read = self.read.saturating_add(count as u64);
        self.told = self.tell();
        Ok(count)
    }

    fn faults(&self) -> u64 {
        self.source.faults()
    }
}

// How many bytes were read, of how many, and in which time.
#[derive(Clone, Copy)]
struct Progress {
    read: u64,
    of: Option<u64>,
    time: Duration,
}

impl Progress {
    // How many bytes were read in each millisecond.
    fn rate(&self) -> u64 {
        let seconds = self.time.as_secs().saturating_mul(1000);
        self.read
            / seconds
                .saturating_add(u64::from(self.time.subsec_millis()))
                .max(1)
    }
}

impl fmt::Display for Progress {
    fn fmt<W: fmt::Write>(&self, f: &mut fmt::Formatter<W>) -> fmt::Result {
        let rate = self.rate();
        write!(f, "{}", Tenths(self.read / TENTH))?;
        if let Some(of) = self.of {
            write!(f, " of {}", Tenths(of / TENTH))?;
        }
        write!(f, " MB, {} MB/s", Tenths(rate / (TENTH / 1000)))?;
        match self.of {
            Some(of) if rate > 0 => {
                let seconds = of.saturating_sub(self.read) / rate / 1000;
                write!(f, ", {} left", Time(seconds))
            }
            _ => Ok(()),
        }
    }
}

// A number of tenths.
#[derive(Clone, Copy)]
struct Tenths(u64);

impl fmt::Display for Tenths {
    fn fmt<W: fmt::Write>(&self, f: &mut fmt::Formatter<W>) -> fmt::Result {
        write!(f, "{}.{}", self.0 / 10, self.0 % 10)
    }
}

// A number of seconds.
#[derive(Clone, Copy)]
struct Time(u64);

impl fmt::Display for Time {
    fn fmt<W: fmt::Write>(&self, f: &mut fmt::Formatter<W>) -> fmt::Result {
        if self.0 < 2 * MINUTE {
            write!(f, "{} s", self.0)
        } else {
            write!(f, "{} min", self.0 / MINUTE)
        }
    }
}
