use ss_cbor::CborKind;
use ss_cid::{Bytes, Cid, Cids, Parcel};
use ss_records::Config;

/// What a client asks of the store.
#[derive(Debug, Drop)]
pub enum Call {
    /// Opens a view, a numbered session.
    OpenView,
    /// Closes a view.
    CloseView {
        /// The view's number.
        view: u32,
    },
    /// Stores the blocks of a parcel.
    Put {
        /// The view under which the call is made.
        view: u32,
        /// The blocks, each under its CID.
        parcel: Parcel,
    },
    /// Reads a block.
    Get {
        /// The view under which the call is made.
        view: u32,
        /// The block's CID.
        cid: Cid,
    },
    /// Asks whether a block is kept.
    Has {
        /// The view under which the call is made.
        view: u32,
        /// The block's CID.
        cid: Cid,
    },
    /// Asks how many bytes a block has.
    Size {
        /// The view under which the call is made.
        view: u32,
        /// The block's CID.
        cid: Cid,
    },
    /// Sets a tipset as head.
    SetHead {
        /// The CIDs of its headers.
        cids: Cids,
    },
    /// Asks for the settings and the counts.
    Info,
}

/// What the store answers to a call.
#[derive(Debug, Drop)]
pub enum Answer {
    /// The answer to `Call::OpenView`.
    View(ViewReply),
    /// The answer to `Call::CloseView`.
    Close(CloseReply),
    /// The answer to `Call::Put`.
    Put(PutReply),
    /// The answer to `Call::Get`.
    Get(GetReply),
    /// The answer to `Call::Has`.
    Has(HasReply),
    /// The answer to `Call::Size`.
    Size(SizeReply),
    /// The answer to `Call::SetHead`.
    Head(HeadReply),
    /// The answer to `Call::Info`.
    Info(Info),
}

/// The answer to `Call::OpenView`.
#[derive(Clone, Copy, Debug, PartialEq, Eq)]
pub enum ViewReply {
    /// The view is open under this number, the least that was not open.
    Opened(u32),
    /// All views are open.
    TooManyViews,
}

/// The answer to `Call::CloseView`.
#[derive(Clone, Copy, Debug, PartialEq, Eq)]
pub enum CloseReply {
    /// The view was open, and is closed. Its number may be given again.
    Closed,
    /// The view is not open.
    BadView,
}

/// The answer to `Call::Put`. After every answer but `Stored` the store is as it was.
#[derive(Clone, Copy, Debug, PartialEq, Eq)]
pub enum PutReply {
    /// The view is not open.
    BadView,
    /// The parcel has more than `PUT_BLOCKS` pairs.
    TooMany {
        /// How many it has.
        n: u32,
    },
    /// The parcel takes more than `PUT_BYTES`: 3, and for each pair the bytes of its CID, 4, and those of its block or of
    /// the one that is kept under the CID, whichever is longer.
    TooBig {
        /// How many it takes, 2^64 - 1 at the most.
        bytes: u64,
    },
    /// A CID and its block have more than `BLOCK_BYTES` together. Here and below, `i` is the place from 0 of the first pair
    /// of the parcel that has a fault, and of one pair's faults the first in this order is named.
    TooLarge {
        /// The place of the pair.
        i: u32,
    },
    /// A CID's hash function is none that the store knows, or its digest is not of that function's length.
    UnknownHash {
        /// The place of the pair.
        i: u32,
    },
    /// The bytes of a block are not those that its CID names.
    Mismatch {
        /// The place of the pair.
        i: u32,
    },
    /// A block under a dag-cbor CID is not one item.
    Malformed {
        /// The place of the pair.
        i: u32,
        /// What is wrong.
        kind: CborKind,
        /// The place in the block, from 0.
        at: u32,
    },
    /// The store ran out of memory.
    NoMemory,
    /// More CIDs would be kept than the setting `rows` allows.
    TableFull {
        /// How many would be: those that are kept, and the new ones of the parcel.
        rows: u64,
    },
    /// The log has no room for the record of the new blocks, and nothing of it was written.
    LogFull {
        /// The file of the log.
        file: u8,
        /// How many bytes of the log the record takes, its gate and its length among them.
        need: u64,
        /// For how many bytes there is room.
        room: u64,
    },
    /// The disk's count of faults rose in this call. The store is as it was, and later calls see none of the new blocks.
    /// Only where it stops before a later call has reached the disk without a fault are they in doubt: the store that is
    /// opened then keeps all of them or none.
    DiskFault,
    /// All blocks of the parcel are kept.
    Stored {
        /// How many of them were not kept before.
        new: u32,
    },
}

/// The answer to `Call::Get`.
#[derive(Debug, Drop)]
pub enum GetReply {
    /// The view is not open.
    BadView,
    /// The block is not kept.
    NotFound,
    /// The store ran out of memory.
    NoMemory,
    /// The disk's count of faults rose in this call: the block is kept, and could not be read. The store is as it was.
    DiskFault,
    /// The block's bytes.
    Found(Bytes),
}

/// The answer to `Call::Has`.
#[derive(Clone, Copy, Debug, PartialEq, Eq)]
pub enum HasReply {
    /// The view is not open.
    BadView,
    /// The block is not kept.
    No,
    /// The block is kept, or the CID is an identity CID.
    Yes,
}

/// The answer to `Call::Size`.
#[derive(Clone, Copy, Debug, PartialEq, Eq)]
pub enum SizeReply {
    /// The view is not open.
    BadView,
    /// The block is not kept.
    NotFound,
    /// How many bytes the block has.
    Size(u32),
}

/// The answer to `Call::SetHead`. After every answer but `Set` the store is as it was. Here `i` is a place from 0 in the
/// list of CIDs, the least to which the refusal applies.
#[derive(Clone, Copy, Debug, PartialEq, Eq)]
pub enum HeadReply {
    /// There is no CID.
    Empty,
    /// There are more than 64 CIDs.
    TooMany {
        /// How many, 2^32 - 1 at the most.
        n: u32,
    },
    /// The CID stands earlier too.
    Repeated {
        /// The place of the second.
        i: u32,
    },
    /// The block is not kept.
    Absent {
        /// The place of its CID.
        i: u32,
    },
    /// The store ran out of memory.
    NoMemory,
    /// The block is no header. This and the two faults below name the first block that has one, and of one block's faults the
    /// first in this order.
    NotHeader {
        /// The place of its CID.
        i: u32,
    },
    /// The header has another height than the first.
    HeightDiffers {
        /// The place of its CID.
        i: u32,
    },
    /// The header has other parents than the first, or the same in another order.
    ParentsDiffer {
        /// The place of its CID.
        i: u32,
    },
    /// The log has no room for the record of the head, and nothing of it was written.
    LogFull {
        /// The file of the log.
        file: u8,
        /// How many bytes of the log the record takes, its gate and its length among them.
        need: u64,
        /// For how many bytes there is room.
        room: u64,
    },
    /// The disk's count of faults rose in this call. The head is as it was. Only where the store stops before a later call has
    /// reached the disk without a fault is the new head in doubt: the store that is opened then has it or the old one.
    DiskFault,
    /// The tipset is the head.
    Set {
        /// The height of its headers.
        height: u64,
    },
}

/// The answer to `Call::Info`: the settings, and what the store counts.
#[derive(Clone, Copy, Debug, PartialEq, Eq)]
pub struct Info {
    /// The settings.
    pub config: Config,
    /// The height of the head, in epochs; None where no head was set.
    pub height: Option<u64>,
    /// The edge of the last compaction that ended, a height; 0 before the first.
    pub base: u64,
    /// How many compactions have ended.
    pub ended: u64,
    /// How many CIDs are hot.
    pub hot: u64,
    /// How many CIDs are kept.
    pub kept: u64,
    /// How many views are open.
    pub views: u32,
    /// Whether a compaction runs.
    pub running: bool,
    /// Whether one is due: none runs, and the head's height is at least `base` and the setting `threshold` together.
    pub due: bool,
}

/// One line of a history: who made which call, and what the store answered.
#[derive(Debug, Drop)]
pub struct Entry {
    /// The client, or `COMPACTOR`.
    pub client: u8,
    /// The line of the client's script that holds the call, from 1; 0 for the compactor.
    pub line: u32,
    /// The call.
    pub call: Call,
    /// The answer.
    pub answer: Answer,
}
