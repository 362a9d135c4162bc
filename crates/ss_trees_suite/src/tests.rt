mod amt;
mod hamt;

use ss_cid::{Bytes, Cid};
use ss_node::NodeFault;

// What a look-up answered. A value is told by its one byte.
#[derive(Clone, Copy, Debug, PartialEq, Eq)]
enum Seen {
    Value(u8),
    LongValue,
    Nothing,
    Missing,
    BadRoot,
    BadChild,
    OtherFault,
}

fn what_was_seen(answer: &Result<Option<Bytes>, NodeFault>, root: &Cid) -> Seen {
    match answer {
        Ok(None) => Seen::Nothing,
        Ok(Some(value)) => match *value.as_slice() {
            [byte] => Seen::Value(byte),
            _ => Seen::LongValue,
        },
        Err(fault) => seen_fault(*fault, root),
    }
}

fn seen_fault(fault: NodeFault, root: &Cid) -> Seen {
    match fault {
        NodeFault::Missing { .. } => Seen::Missing,
        NodeFault::BadNode { cid } => {
            if cid == *root {
                Seen::BadRoot
            } else {
                Seen::BadChild
            }
        }
        NodeFault::Fault | NodeFault::NoMemory => Seen::OtherFault,
    }
}
