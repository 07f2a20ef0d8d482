ghost use Rattle.std.specs.Prelude.{◌≡◌, ◌≢◌, MatchOption, [], All, Any, ◌≤◌};
ghost use Rattle.wait_die.specs.Verdicts.{IsOldest, IsVerdict};

/// The age of a transaction: the number of transactions admitted before it. The lesser age is the older.
pub type Age = u64;

/// An action that holds a claim: its transaction's age, and its place among the transaction's actions.
#[derive(Clone, Copy, Debug, Default, PartialEq, Eq)]
pub struct Holder {
    pub age: Age,
    pub place: usize,
}

/// The decision on a want.
#[derive(Clone, Copy, Debug, PartialEq, Eq)]
pub enum Decision {
    /// The want is granted.
    Free,
    /// The want waits; all conflicting holders are younger.
    Waits,
    /// The want dies. The oldest conflicting holder has this age, and is not younger.
    Dies(Age),
}

/// Decides on a want of a transaction of this age, by the holders that conflict with it. Never
/// allocates.
pub fn verdict(age: Age, conflicting: &[Holder]) -> Decision
    ensures { IsVerdict age conflicting.now result }
{
    match oldest(conflicting) {
        None => Decision::Free,
        Some(oldest) if oldest <= age => Decision::Dies(oldest),
        Some(_) => Decision::Waits,
    }
}

// Returns the age of the oldest holder, `None` if there is no holder.
fn oldest(holders: &[Holder]) -> Option<Age>
    ensures { MatchOption result (holders.now ≡ []) (IsOldest holders.now) }
{
    let mut oldest = None;
    for holder in holders {
        oldest = match oldest {
            Some(age) if age <= holder.age => Some(age),
            _ => Some(holder.age),
        };
    }
    oldest
}
