ghost use Rattle.std.specs.Prelude.{◌≡◌, Err, IfOk};
ghost use Rattle.ss_device.specs.Calls.{Touches};
ghost use Rattle.ss_gatelog.specs.GateLog.{CountsFault};
ghost use Rattle.ss_records.specs.Record.{SettingsFit};
ghost use Rattle.ss_store.specs.declared.fault.StoreFault.{StoreFault};
ghost use Rattle.ss_store.specs.declared.fault.StoreFault.TheVariants as fault;

use super::{FILE, HotStore};
use ss_cid::NoMemory;
use ss_device::Disk;
use ss_gatelog::GateLog;
use ss_records::{Config, Record, encode};
use ss_store::{Index, StoreFault, append_record};
use std::alloc::Global;
use std::marker::Model;

/// The first records of a hot store, its generation and its settings, with all the memory that writing them takes.
#[derive(Debug, Drop)]
pub struct FirstRecords {
    config: Config,
    generation: Vec<u8>,
    settings: Vec<u8>,
}

impl Model for FirstRecords {
    ghost use Rattle.std.specs.Prelude.{◌≡◌};
    ghost use Rattle.ss_records.specs.declared.record.Config.{Config as Settings};
    ghost use Rattle.ss_records.specs.declared.record.Record.TheVariants.{Generation, Config as SettingsRecord};
    ghost use Rattle.ss_records.specs.Record.{frame, spelling, SettingsFit};

    ghost Value = { Settings };

    ghost view = { λ first. first.config };

    ghost invariant = { λ first. SettingsFit first.config × (first.generation.items ≡ frame (spelling (Generation 1))) × (first.settings.items ≡ frame (spelling (SettingsRecord first.config))) };
}

impl FirstRecords {
    ghost use Rattle.ss_hot.specs.Store.{IsNew};

    /// The records of a store with these settings.
    pub fn new(alloc: Global, config: Config) -> Result<FirstRecords, NoMemory>
        requires { SettingsFit config }
        ensures { IfOk result (λ first. first ≡ config) }
    {
        Ok(FirstRecords {
            config,
            generation: encode(alloc, &Record::Generation(1))?,
            settings: encode(alloc, &Record::Config(config))?,
        })
    }

    /// Empties the file of the hot log and appends the records to it: a store in which nothing is kept.
    ///
    /// After `DiskFault`, the only fault, it may hold what it held, or a part of the new log.
    pub fn write<D: Disk>(self, alloc: Global, disk: &mut D) -> Result<HotStore, StoreFault>
        ensures new { IfOk result (IsNew D.Disk disk.new self) }
        ensures touches { Touches D.Disk 0 disk.old disk.new }
        ensures errors { (e : StoreFault) → result ≡ Err e → e ≡ fault.DiskFault }
        ensures counts { CountsFault fault.DiskFault (D.faults disk.old) (D.faults disk.new) result }
    {
        let FirstRecords {
            config,
            mut generation,
            mut settings,
        } = self;
        let mut log = match GateLog::create(disk, FILE, config.limit) {
            Ok(log) => log,
            Err(fault) => return Err(StoreFault::of_log(FILE, fault)),
        };
        append_record(&mut log, disk, &mut generation)?;
        append_record(&mut log, disk, &mut settings)?;
        Ok(HotStore {
            config,
            log,
            index: Index::new(alloc),
            head: None,
            base: (0, 0),
        })
    }
}
