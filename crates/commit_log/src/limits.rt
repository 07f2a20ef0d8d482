//! The limits of an engine.
ghost use Rattle.std.specs.Prelude.{◌≡◌, ◌↔◌, IfSome, IsNone};
ghost use Rattle.rows.specs.declared.limits.TheConstants.{INBOX, MOST_ENTRIES};
ghost use Rattle.commit_log.specs.Limits.{AreLimits};

use rows::{LARGEST_INBOX, LONGEST_LOG, Ranged};

/// A number of entries that a log can be limited to: 1 to 16,777,216.
pub type LogLimit = Ranged<1, LONGEST_LOG>;

/// A number of messages that an inbox can be limited to: 1 to 1,024.
pub type InboxLimit = Ranged<1, LARGEST_INBOX>;

/// The limits of an engine or of a world.
#[derive(Clone, Copy, Debug, Drop, PartialEq, Eq)]
pub struct Limits {
    /// How many entries the log has at most: 1 to 16,777,216.
    pub log: u32,
    /// How many messages the inbox of an executor has at most: 1 to 1,024.
    pub inbox: u32,
}

impl Limits {
    /// The greatest limits.
    pub fn greatest() -> Limits
        ensures log { result.log ≡ MOST_ENTRIES }
        ensures inbox { result.inbox ≡ INBOX }
        ensures limits { AreLimits result }
    {
        Limits {
            log: LONGEST_LOG,
            inbox: LARGEST_INBOX,
        }
    }

    /// The limits as numbers in their ranges; `None` exactly if one is out of its range.
    pub fn checked(&self) -> Option<(LogLimit, InboxLimit)>
        ensures limits { IfSome result (λ limits.
            (limits.0 ≡ self.now.log) × (limits.1 ≡ self.now.inbox) × AreLimits self.now) }
        ensures none { IsNone result ↔ ¬ AreLimits self.now }
    {
        Some((
            LogLimit::checked_new(self.log)?,
            InboxLimit::checked_new(self.inbox)?,
        ))
    }
}
