/// A call that a disk in memory was asked to make, and what it did.
#[derive(Debug, Drop)]
pub enum DeviceCall {
    /// A size, a read, or a sync that failed: no file changed.
    Asked,
    /// A write from `at` on. It left these bytes there, and what stood there in the `missing` bytes
    /// behind them: none where it succeeded, and then these bytes are those that it was given.
    Wrote {
        file: u8,
        at: u64,
        left: Vec<u8>,
        missing: u64,
    },
    /// A sync that succeeded.
    Synced {
        file: u8,
    },
}
