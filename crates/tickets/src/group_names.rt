use std::marker::Brand;

/// The groups that exist, and names of the agreements of each. Ghost data only: the call that opens an
/// engine picks it.
pub trait GroupNames {
    ghost use Rattle.requests.specs.declared.group.Group.{Group};
    ghost use Rattle.atomic_table.specs.Seated.{TableId};
    ghost use Rattle.std.specs.Prelude.{ℕ};

    /// The number of warehouses. All groups are theirs.
    ghost warehouses: { ℕ };
    /// The agreement on a group's committed content.
    ghost committed: { Group → TableId };
    /// The agreement of the slice and the claims on a group's uncommitted work.
    ghost work: { Group → TableId };
}

impl GroupNames for Brand {
    ghost use Rattle.tickets.specs.Unset.{no_table};

    ghost warehouses = { 0 };

    ghost committed = { λ group. no_table };

    ghost work = { λ group. no_table };
}
