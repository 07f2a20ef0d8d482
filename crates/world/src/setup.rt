//! How a world is set up.
ghost use Rattle.std.specs.Prelude.{◌≡◌, ◌⊎◌, ◌↔◌, IfOk, IfErr, IsErrAnd};
ghost use Rattle.commit_log.specs.Limits.{AreLimits};
ghost use Rattle.world.specs.Setups.{CanHave, IsPossible};

use crate::OpenFault;
use commit_log::{InboxLimit, Limits, LogLimit};
use routing::MOST_EXECUTORS;

/// How a world is set up: its executors and its limits.
#[derive(Clone, Copy, Debug, Drop, PartialEq, Eq)]
pub struct Setup {
    /// How many executors there are: 1 to 16.
    pub executors: u32,
    pub limits: Limits,
}

impl Setup {
    // The limits of the log and of the inboxes, if a world can be set up so. Returns BadExecutors if it can't have that many
    // executors, and else BadLimit if a limit is out of its range.
    pub(crate) fn limits(&self) -> Result<(LogLimit, InboxLimit), OpenFault>
        ensures log { IfOk result (λ limits. limits.0 ≡ self.now.limits.log) }
        ensures inbox { IfOk result (λ limits. limits.1 ≡ self.now.limits.inbox) }
        ensures possible { IfOk result (λ _. IsPossible self.now) }
        ensures bad_executors { IsErrAnd result (λ fault. fault ≡ OpenFault.BadExecutors)
            ↔ ¬ CanHave self.now.executors }
        ensures bad_limit { IsErrAnd result (λ fault. fault ≡ OpenFault.BadLimit)
            ↔ (CanHave self.now.executors × ¬ AreLimits self.now.limits) }
        ensures fault { IfErr result (λ fault.
            (fault ≡ OpenFault.BadExecutors) ⊎ (fault ≡ OpenFault.BadLimit)) }
    {
        if !(1..=MOST_EXECUTORS).contains(&self.executors) {
            return Err(OpenFault::BadExecutors);
        }
        match self.limits.checked() {
            Some(limits) => Ok(limits),
            None => Err(OpenFault::BadLimit),
        }
    }
}
