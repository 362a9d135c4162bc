//! How the fault of a store is answered.

ghost use Rattle.std.specs.Prelude.{◌≡◌};
ghost use Rattle.ss_hot.specs.Store.{IsStop};
ghost use Rattle.ss_core.specs.Replies.{put_fault, head_fault};

use ss_model::{HeadReply, PutReply};
use ss_store::StoreFault;

/// The answer to a put.
pub(crate) fn put_fault(fault: StoreFault) -> PutReply
    requires { IsStop fault }
    ensures { result ≡ put_fault fault }
{
    match fault {
        StoreFault::NoMemory => PutReply::NoMemory,
        StoreFault::DiskFault => PutReply::DiskFault,
        StoreFault::LogFull { .. } | StoreFault::Damaged { .. } => unreachable!(),
    }
}

/// The answer to a head.
pub(crate) fn head_fault(fault: StoreFault) -> HeadReply
    requires { IsStop fault }
    ensures { result ≡ head_fault fault }
{
    match fault {
        StoreFault::NoMemory => HeadReply::NoMemory,
        StoreFault::DiskFault => HeadReply::DiskFault,
        StoreFault::LogFull { .. } | StoreFault::Damaged { .. } => unreachable!(),
    }
}
