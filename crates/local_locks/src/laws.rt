//! Proved laws of who waits for whom, of wants, and of what is committed, as functions with empty
//! bodies.
ghost use Rattle.local_locks.specs.Keeping.{GrantsKeepCommitted, ReturnsKeepCommitted};
ghost use Rattle.local_locks.specs.Laws.{EachCoveredGroupIsWanted, NobodyWaitsForItself};

/// If all waiting actions have to wait, as after `LockTable::next_grant` returns `None`, each is older
/// than those it waits for. So none waits for itself, through any others, in one table or from table to
/// table.
pub fn nobody_waits_for_itself()
    ensures { NobodyWaitsForItself }
{}

/// A want for a group is a want for that group alone; a want for a prefix is a want for each group of
/// its kind and warehouse.
pub fn each_covered_group_is_wanted()
    ensures { EachCoveredGroupIsWanted }
{}

/// Granting claims and giving claims back keep what is committed. The tickets that no holder has are at
/// home.
pub fn grants_and_returns_keep_committed()
    ensures grants { GrantsKeepCommitted }
    ensures returns { ReturnsKeepCommitted }
{}
