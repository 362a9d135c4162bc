use ss_cid::{Cids, Parcel};

// The kinds of record, by the first byte of the body.
pub(crate) const KIND_CONFIG: u8 = 0x01;

pub(crate) const KIND_GENERATION: u8 = 0x02;

pub(crate) const KIND_PUT: u8 = 0x03;

pub(crate) const KIND_DROP: u8 = 0x04;

pub(crate) const KIND_HEAD: u8 = 0x05;

pub(crate) const KIND_BASE: u8 = 0x06;

pub(crate) const KIND_START: u8 = 0x11;

pub(crate) const KIND_COLD: u8 = 0x12;

pub(crate) const KIND_SEALED: u8 = 0x13;

pub(crate) const KIND_COPIED: u8 = 0x14;

pub(crate) const KIND_PURGED: u8 = 0x15;

/// What becomes of a block that no reachable block leads to.
#[derive(Clone, Copy, Debug, PartialEq, Eq)]
pub enum Mode {
    /// It is forgotten.
    Discard,
    /// It is kept in the cold log.
    Universal,
}

/// The settings of a store, which are fixed when it is made.
///
/// The bounds are those of a record that is read or written. The type itself keeps none.
#[derive(Clone, Copy, Debug, PartialEq, Eq)]
pub struct Config {
    /// What becomes of the blocks that a compaction takes out of the hot store.
    pub mode: Mode,
    /// How many epochs behind the head's height the edge of a compaction lies, at most 2^62.
    pub depth: u64,
    /// How many epochs behind the head's height the last edge has to lie before a compaction is due, 1 to 2^62.
    pub threshold: u64,
    /// How many blocks a step handles, 1 to 4096.
    pub batch: u32,
    /// How many CIDs may be kept, at least 1.
    pub rows: u32,
    /// How many bytes a log file may have, 65,536 to 2^40.
    pub limit: u64,
}

impl Config {
    /// The most epochs that a depth or a threshold may count, 2^62, by format 1 of the logs.
    pub const MAX_EPOCHS: u64 = 1 << 62;

    /// The most blocks that a step may handle, by format 1 of the logs.
    pub const MAX_BATCH: u32 = 4096;

    /// The fewest bytes that a log file may be limited to, by format 1 of the logs.
    pub const MIN_LIMIT: u64 = 65_536;

    /// The most bytes that a log file may be limited to, 2^40, by format 1 of the logs.
    pub const MAX_LIMIT: u64 = 1 << 40;
}

/// A record of a log.
///
/// The CIDs of a Put, a Drop and a Cold are none of identity CIDs, whose blocks no store keeps.
#[derive(Debug, Drop)]
pub enum Record {
    /// The settings, which follow the generation of a log.
    Config(Config),
    /// The number of a log, at least 1; a log begins with it.
    Generation(u64),
    /// 1 to 4096 blocks are stored. A block has at most 8,388,608 bytes with its CID.
    Put(Parcel),
    /// The blocks of 1 to 4096 CIDs are gone.
    Dropped(Cids),
    /// The head: its height, below 2^63, and the 1 to 64 CIDs of its tipset.
    Head { height: u64, cids: Cids },
    /// The edge of the last compaction, below 2^63, and how many compactions have ended.
    Base { base: u64, ended: u64 },
    /// A compaction begins: its edge, and the 1 to 64 CIDs of the tipset that it starts from.
    Start { edge: u64, cids: Cids },
    /// 1 to 4096 further blocks that a compaction takes out of the hot store.
    Cold(Cids),
    /// The list of those blocks is whole: how many there are.
    Sealed(u64),
    /// How many of them are in the cold store, in the order of their list.
    Copied(u64),
    /// How many of them are out of the hot store, in the order of their list.
    Purged(u64),
}

impl Record {
    /// The most blocks of a Put, and the most CIDs of a Drop or a Cold, by format 1 of the logs.
    pub const MAX_BLOCKS: u16 = 4096;

    /// The most CIDs of a tipset, by format 1 of the logs.
    pub const MAX_TIPSET: u8 = 64;

    /// The greatest height of a head, and the greatest edge of a base, 2^63 - 1, by format 1 of the logs.
    pub const MAX_HEIGHT: u64 = (1 << 63) - 1;
}
