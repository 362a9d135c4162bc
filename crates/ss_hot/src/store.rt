ghost use Rattle.std.specs.Prelude.{◌≡◌, option_map};

mod first;
mod opening;
mod reading;
mod walk;
mod writing;

pub use first::FirstRecords;
use ss_cid::Cids;
use ss_gatelog::GateLog;
use ss_records::Config;
use ss_store::Index;
use std::marker::Model;

/// The file of the hot log.
const FILE: u8 = 0;

/// The hot store of a disk: blocks by their CIDs, the head of the chain, and the base of the last compaction.
///
/// All of it stands in the log of one file of the disk; in memory are the settings, the head, the base, and for each block where
/// its bytes lie. A call that writes appends one record. It takes all its memory before it asks the disk for anything, and then
/// settles a log in doubt.
#[derive(Debug, Drop)]
pub struct HotStore {
    config: Config,
    log: GateLog,
    index: Index,
    head: Option<(u64, Cids)>,
    base: (u64, u64),
}

impl Model for HotStore {
    ghost use Rattle.ss_hot.specs.Store.{Hot, IsWithin, hot_code};

    ghost Value = { Hot };

    ghost coded = { hot_code };

    ghost view = { λ s. record { settings = s.config; log = s.log; places = s.index; head = s.head; base = s.base } };

    ghost invariant = { λ s. IsWithin s.config s.log s.index };
}

impl HotStore {
    ghost use Rattle.ss_hot.specs.Store.{room_of};

    /// How many bytes the next record may take of the log, its gate and length among them.
    pub fn room(&self) -> u64
        ensures room { result ≡ room_of self.now }
        ensures limit { self.now.log.limit ≡ self.now.settings.limit }
    {
        let end = self.log.end();
        self.config.limit - 1 - end
    }

    /// The settings.
    pub fn config(&self) -> Config
        ensures { result ≡ self.now.settings }
    {
        self.config
    }

    /// The height of the head, and its CIDs.
    pub fn head(&self) -> Option<(u64, &Cids)>
        ensures { option_map (λ head. (head.0, head.1.now)) result ≡ self.now.head }
    {
        match &self.head {
            Some((height, cids)) => Some((*height, cids)),
            None => None,
        }
    }

    /// The base, and how many compactions have ended.
    pub fn base(&self) -> (u64, u64)
        ensures { result ≡ self.now.base }
    {
        self.base
    }

    /// Whether the last record is in doubt.
    pub fn unsure(&self) -> bool
        ensures { result ≡ self.now.log.unsure }
    {
        self.log.unsure()
    }
}
