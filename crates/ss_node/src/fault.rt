//! Why a tree does not answer.
use ss_cid::{Cid, NoMemory};

/// Why a look-up or a walk of a tree has no answer.
#[derive(Clone, Copy, Debug, PartialEq, Eq)]
pub enum NodeFault {
    /// There is no block of this CID.
    Missing { cid: Cid },
    /// The block of this CID is no node of its form, or the CID's codec is not dag-cbor.
    BadNode { cid: Cid },
    /// A fetch failed, and the blocks counted it.
    Fault,
    /// Out of memory.
    NoMemory,
}

impl From<NoMemory> for NodeFault {
    ghost use Rattle.std.specs.Prelude.{◌≡◌};
    ghost use Rattle.ss_node.specs.declared.fault.NodeFault.TheVariants as fault_kind;

    ghost from_gives = { λ _ fault. fault ≡ fault_kind.NoMemory };

    fn from(_refused: NoMemory) -> NodeFault {
        NodeFault::NoMemory
    }
}
