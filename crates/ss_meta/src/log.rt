ghost use Rattle.std.specs.Prelude.{◌≡◌, option_map};

mod opening;
mod walk;
mod writing;

pub use crate::plan::Plan;
use ss_gatelog::GateLog;
use std::marker::Model;

/// The file of the log of a plan.
const FILE: u8 = 4;

/// The log of a compaction's plan, with the plan in memory.
#[derive(Debug, Drop)]
pub struct MetaLog {
    log: GateLog,
    plan: Option<Plan>,
}

impl Model for MetaLog {
    ghost use Rattle.std.specs.Prelude.{◌≤◌};
    ghost use Rattle.ss_meta.specs.Meta.{Meta, meta_code};

    ghost Value = { Meta };

    ghost coded = { meta_code };

    ghost view = { λ s. record { log = s.log; plan = s.plan } };

    ghost invariant = { λ s. 65536 ≤ s.log.limit };
}

impl MetaLog {
    /// The plan of a compaction that has begun.
    pub fn plan(&self) -> Option<&Plan>
        ensures { option_map (λ plan. plan.now) result ≡ self.now.plan }
    {
        self.plan.as_ref()
    }

    /// Whether the last record is in doubt.
    pub fn unsure(&self) -> bool
        ensures { result ≡ self.now.log.unsure }
    {
        self.log.unsure()
    }
}
