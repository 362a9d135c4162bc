//! The answer of a scan.

/// What reading one grey row answers.
#[derive(Clone, Copy, Debug, PartialEq, Eq)]
pub enum ScanReply {
    /// A row was read and is black.
    Scanned,
    /// No row is grey.
    NothingGrey,
    /// The store below failed, and counted it. The marks are as before.
    Fault,
    /// Out of memory. The marks are as before.
    NoMemory,
}
