//! The commands `import` and `info`.
ghost use Rattle.ss_app.specs.Outcome.{ImportRan, InfoRan};
ghost use Rattle.ss_app.specs.World.{world};

use crate::ending::Ending;
use crate::run::{Exit, finish};
use ss_device::Disk;
use ss_import::import;
use ss_io::{Sink, Source};
use ss_open::open;
use std::alloc::Global;

/// Opens the store, and imports the CAR of the source.
pub(crate) fn run_import<S: Source, K: Sink, D: Disk>(
    alloc: Global,
    head: bool,
    source: &mut S,
    sink: &mut K,
    disk: D,
) -> Exit<D>
    ensures { ImportRan head D.Disk (world S.Source K.Sink source.old sink.old disk) (world S.Source K.Sink source.new sink.new result.disk) result.status }
{
    let core = match open(alloc, disk) {
        Ok(core) => core,
        Err((fault, disk)) => {
            let status = finish(sink, Ending::from(fault));
            return Exit { status, disk };
        }
    };
    let (result, core) = import(alloc, core, source, head);
    Exit {
        status: finish(sink, Ending::of_import(result)),
        disk: core.into_disk(),
    }
}

/// Opens the store, and tells what it counts.
pub(crate) fn run_info<S: Source, K: Sink, D: Disk>(
    alloc: Global,
    source: &mut S,
    sink: &mut K,
    disk: D,
) -> Exit<D>
    ensures { InfoRan D.Disk (world S.Source K.Sink source.old sink.old disk) (world S.Source K.Sink source.new sink.new result.disk) result.status }
{
    let core = match open(alloc, disk) {
        Ok(core) => core,
        Err((fault, disk)) => {
            let status = finish(sink, Ending::from(fault));
            return Exit { status, disk };
        }
    };
    Exit {
        status: finish(sink, Ending::Informed(core.info())),
        disk: core.into_disk(),
    }
}
