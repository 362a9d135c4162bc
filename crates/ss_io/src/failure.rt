ghost use Rattle.std.specs.Prelude.{◌≡◌, ◌-◌, ◌<◌, ◌≤◌, ◌↔◌, IsSome};
ghost use Rattle.std.specs.Option.{option_copied};
ghost use Rattle.ss_io.specs.Streams.{Rose};

use crate::Failed;
use crate::failed::count_fault;
use std::{fmt, io};

/// What a standard stream was asked for.
#[derive(Clone, Copy, Debug, PartialEq, Eq)]
pub enum StreamCall {
    /// To give bytes.
    Read,
    /// To take bytes.
    Write,
    /// To hand on the bytes that are buffered.
    Flush,
}

impl fmt::Display for StreamCall {
    fn fmt<W: fmt::Write>(&self, f: &mut fmt::Formatter<W>) -> fmt::Result {
        f.write_str(match self {
            StreamCall::Read => "read",
            StreamCall::Write => "write",
            StreamCall::Flush => "flush",
        })
    }
}

/// Why a call of a standard stream failed.
#[derive(Clone, Copy, Debug)]
pub struct StreamFailure {
    /// The call.
    pub call: StreamCall,
    /// The system's error.
    pub error: io::Error,
}

impl fmt::Display for StreamFailure {
    fn fmt<W: fmt::Write>(&self, f: &mut fmt::Formatter<W>) -> fmt::Result {
        let StreamFailure { call, error } = self;
        write!(f, "{call}: {error}")
    }
}

// How many calls failed, and why the first did.
#[derive(Drop)]
pub(crate) struct Failures {
    pub(crate) count: u64,
    first: Option<StreamFailure>,
    ghost remembered: { IsSome first ↔ (0 < count) },
}

impl Failures {
    pub(crate) fn none() -> Failures
        ensures { result.count ≡ 0 }
    {
        Failures {
            count: 0,
            first: None,
        }
    }

    pub(crate) fn first(&self) -> Option<&StreamFailure>
        ensures some { IsSome result ↔ (0 < self.now.count) }
        ensures value { option_copied result ≡ self.now.first }
    {
        self.first.as_ref()
    }

    pub(crate) fn add(&mut self, call: StreamCall, error: io::Error) -> Failed
        ensures later { self.old.count ≤ self.new.count }
        ensures rose { Rose self.old.count self.new.count }
        ensures first { IsSome self.old.first → self.new.first ≡ self.old.first }
    {
        if self.first.is_none() {
            self.first = Some(StreamFailure { call, error });
        }
        count_fault(&mut self.count)
    }
}
