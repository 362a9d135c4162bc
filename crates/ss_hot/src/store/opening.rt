ghost use Rattle.std.specs.Prelude.{◌≡◌, ◌+◌, ◌^◌, ◌<◌, ◌∷◌, [], ◌++◌, ℕ, List, IsTrue, true, false, length, Err, Ok, None, IfOk, IfSome, OnOk, MatchBool};
ghost use Rattle.ss_gatelog.specs.Gate.{HasLent};
ghost use Rattle.ss_records.specs.declared.record.Record.{Record};
ghost use Rattle.ss_records.specs.Record.{SettingsFit};
ghost use Rattle.ss_store.specs.declared.fault.StoreFault.TheVariants as fault;
ghost use Rattle.ss_hot.specs.Half.{HasSettings, IsFaulty, IsDamagedHalf};

use super::walk::Walk;
use super::{FILE, HotStore};
use ss_device::Disk;
use ss_gatelog::{Records, RecordsFault};
use ss_records::Config;
use ss_store::StoreFault;
use std::alloc::Global;

impl HotStore {
    ghost use Rattle.ss_hot.specs.Store.{IsOpened, Reads, IsOpeningFault, IsStop};

    /// Opens the store of a disk by one pass over its file, and answers None where no settings are committed there. Nothing is
    /// written. It costs a sync, a size and a read for each 64 KiB or longer record.
    ///
    /// `Damaged` is at the first record that is invalid. `NoMemory` or `DiskFault` may come in place of any answer. A refusal
    /// leaves every file as it was.
    pub fn open<D: Disk>(alloc: Global, disk: &mut D) -> Result<Option<HotStore>, StoreFault>
        ensures opened { IfOk result (λ found. IfSome found (IsOpened D.Disk disk.old disk.new 0)) }
        ensures none { IsTrue D.told → result ≡ Ok None → (settings : _) → HasSettings (D.files disk.old 0) settings → ⊥ }
        ensures damaged { (file at : ℕ) → result ≡ Err (fault.Damaged file at) → (file ≡ 0) × (IsTrue D.told → IsDamagedHalf (D.files disk.old 0) at) }
        ensures reads { Reads D.Disk disk.old disk.new IsOpeningFault result }
    {
        let mut opening = Opening::new(alloc, disk, FILE)?;
        let Some((config, begins)) = opening.read_settings(alloc, disk)? else {
            return Ok(None);
        };
        if !begins {
            return Err(StoreFault::Damaged { file: FILE, at: 0 });
        }
        Ok(Some(opening.finish(alloc, disk, config)?))
    }

    /// Whether settings are committed in the file of a disk's store, by its first two records. It costs a sync, a size and,
    /// where these records have no more than 64 KiB, one read; nothing is written. `NoMemory` or `DiskFault` may come in
    /// place of any answer.
    pub fn is_committed<D: Disk>(alloc: Global, disk: &mut D) -> Result<bool, StoreFault>
        ensures committed { IsTrue D.told → IfOk result (λ committed. MatchBool committed ((settings : _) × HasSettings (D.files disk.old 0) settings) ((settings : _) → HasSettings (D.files disk.old 0) settings → ⊥)) }
        ensures reads { Reads D.Disk disk.old disk.new IsStop result }
    {
        let mut opening = Opening::new(alloc, disk, FILE)?;
        let found = opening.read_settings(alloc, disk)?;
        Ok(found.is_some())
    }
}

/// The records of a file, as far as they were read.
#[derive(Drop)]
struct Opening {
    file: u8,
    records: Records,
    walk: Walk,
}

impl Opening {
    ghost use Rattle.ss_hot.specs.Store.{IsOpened, Reads, IsOpeningFault, IsStop};
    ghost use Rattle.ss_hot.specs.Opening.{AreBefore, IsRead, IsMisfit, IsUnderWay, HasRead, OpensSame, Passes, IsAtStart, HasBegun};

    /// Before the first record. All of the file may be used, up to the largest limit that settings may set.
    fn new<D: Disk>(alloc: Global, disk: &mut D, file: u8) -> Result<Opening, StoreFault>
        requires { file < 6 }
        ensures start { IfOk result (IsAtStart D.Disk disk.new file) }
        ensures reads { Reads D.Disk disk.old disk.new (λ e. e ≡ fault.DiskFault) result }
    {
        let records = Records::open(alloc, disk, file, Config::MAX_LIMIT)?;
        Ok(Opening {
            file,
            records,
            walk: Walk::new(alloc),
        })
    }

    /// Reads the first two records, and answers the settings that the second tells and whether the first is a generation; None
    /// where no settings are committed. A generation and settings take 54 bytes, with their gates and lengths.
    fn read_settings<D: Disk>(
        &mut self,
        alloc: Global,
        disk: &mut D,
    ) -> Result<Option<(Config, bool)>, StoreFault>
        requires start { IsAtStart D.Disk disk.old self.old.file self.old }
        ensures fits { IfOk result (λ found. IfSome found (λ (settings, _). SettingsFit settings)) }
        ensures some { IsTrue D.told → IfOk result (λ found. IfSome found (λ (settings, _). HasSettings (D.files disk.old self.old.file) settings)) }
        ensures none { IsTrue D.told → result ≡ Ok None → (settings : _) → HasSettings (D.files disk.old self.old.file) settings → ⊥ }
        ensures misfit { IsTrue D.told → IfOk result (λ found. IfSome found (λ (settings, begins). begins ≡ false → IsFaulty settings.limit (D.files disk.old self.old.file) 0)) }
        ensures begun { IfOk result (λ found. IfSome found (λ (_, begins). begins ≡ true → HasBegun D.Disk disk.new self.old.file self.new)) }
        ensures reads { Reads D.Disk disk.old disk.new IsStop result }
    {
        let Some(begins) = self.read_early(alloc, disk)? else {
            return Ok(None);
        };
        let Some(fits) = self.read_early(alloc, disk)? else {
            return Ok(None);
        };
        match self.walk.config {
            Some(config) if fits => Ok(Some((config, begins))),
            _ => Ok(None),
        }
    }

    /// Reads one of the first two records, and answers whether it may stand there; None at a gate that is closed or after
    /// which no record fits.
    fn read_early<D: Disk>(
        &mut self,
        alloc: Global,
        disk: &mut D,
    ) -> Result<Option<bool>, StoreFault>
        requires under_way { IsUnderWay D.Disk disk.old self.old }
        requires limit { self.old.records.limit ≡ 2 ^ 40 }
        ensures none { (lent : List (List ℕ)) → IsTrue D.told → HasLent D.Disk disk.old self.old.records lent → length lent < 2 → result ≡ Ok None → (settings : _) → HasSettings (D.files disk.old self.old.file) settings → ⊥ }
        ensures lent { (lent : List (List ℕ)) → IsTrue D.told → HasLent D.Disk disk.old self.old.records lent → IfOk result (λ found. IfSome found (λ _. HasLent D.Disk disk.new self.new.records (lent ++ self.new.records.body ∷ []))) }
        ensures read { IfOk result (λ found. IfSome found (λ fits. MatchBool fits (IsRead self.old.file self.old.records.at self.old.walk self.new.records.body self.new.walk) (IsMisfit self.old.walk.count self.new.records.body))) }
        ensures passes { IfOk result (λ found. IfSome found (λ _. Passes D.Disk disk.new self.old self.new)) }
        ensures reads { Reads D.Disk disk.old disk.new IsStop result }
    {
        match self.records.next(disk) {
            Ok(Some(at)) => {
                let fits = self.walk.take(alloc, self.file, at, self.records.body())?;
                Ok(Some(fits))
            }
            Ok(None) => Ok(None),
            Err(RecordsFault::Damaged { .. }) => Ok(None),
            Err(fault) => Err(StoreFault::of_records(self.file, fault)),
        }
    }

    /// The store of a file in which these settings are committed, of which the first two records were read.
    fn finish<D: Disk>(
        mut self,
        alloc: Global,
        disk: &mut D,
        config: Config,
    ) -> Result<HotStore, StoreFault>
        requires fits { SettingsFit config }
        requires committed { IsTrue D.told → HasSettings (D.files disk.old self.file) config }
        requires begun { HasBegun D.Disk disk.old self.file self }
        ensures opened { IfOk result (IsOpened D.Disk disk.old disk.new self.file) }
        ensures settings { IfOk result (λ store. store.settings ≡ config) }
        ensures damaged { (file at : ℕ) → result ≡ Err (fault.Damaged file at) → (file ≡ self.file) × (IsTrue D.told → IsFaulty config.limit (D.files disk.old self.file) at) }
        ensures reads { Reads D.Disk disk.old disk.new IsOpeningFault result }
    {
        self.records.set_limit(config.limit);
        self.read_all(alloc, disk)?;
        let Opening {
            file,
            records,
            walk,
        } = self;
        match records.finish(disk) {
            Ok(log) => Ok(HotStore {
                config,
                log,
                index: walk.index,
                head: walk.head,
                base: walk.base,
            }),
            Err(fault) => Err(StoreFault::of_log(file, fault)),
        }
    }

    /// Reads the records up to the first closed gate. `Damaged` is at the first that is not to stand there, or after whose gate
    /// none fits.
    fn read_all<D: Disk>(&mut self, alloc: Global, disk: &mut D) -> Result<(), StoreFault>
        requires under_way { IsUnderWay D.Disk disk.old self.old }
        requires before { AreBefore self.old.file self.old.walk.index self.old.records.at }
        ensures ended { OnOk result (self.new.records.ended ≡ true) }
        ensures read { (records : List Record) → IsTrue D.told → HasRead D.Disk disk.old self.old records → OnOk result ((all : List Record) × HasRead D.Disk disk.new self.new all) }
        ensures damaged { (file at : ℕ) → result ≡ Err (fault.Damaged file at) → (file ≡ self.old.file) × ((records : List Record) → IsTrue D.told → HasRead D.Disk disk.old self.old records → IsFaulty self.old.records.limit (D.files disk.old self.old.file) at) }
        ensures before { OnOk result (AreBefore self.new.file self.new.walk.index self.new.records.at) }
        ensures under_way { OnOk result (IsUnderWay D.Disk disk.new self.new) }
        ensures same { OnOk result (OpensSame self.old self.new) }
        ensures reads { Reads D.Disk disk.old disk.new IsOpeningFault result }
    {
        loop {
            match self.records.next(disk) {
                Ok(Some(at)) => {
                    if !self.walk.take(alloc, self.file, at, self.records.body())? {
                        let file = self.file;
                        return Err(StoreFault::Damaged { file, at });
                    }
                }
                Ok(None) => return Ok(()),
                Err(fault) => return Err(StoreFault::of_records(self.file, fault)),
            }
        }
    }
}
