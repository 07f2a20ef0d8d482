ghost use Rattle.std.specs.Prelude.{◌≡◌, ◌↔◌, IsTrue};
ghost use Rattle.groups.specs.Groups as spec;
ghost use Rattle.groups.specs.Wants.{kind_number, Covers, IsUnder};

use crate::Mode;
use requests::Group;

/// The kinds of groups, in the order of groups.
#[derive(Clone, Copy, Debug, PartialEq, Eq)]
pub enum Kind {
    Warehouse,
    District,
    Customers,
    Orders,
    History,
    Stock,
}

/// All groups of a kind in a warehouse.
#[derive(Clone, Copy, Debug, PartialEq, Eq)]
pub struct Prefix {
    pub kind: Kind,
    pub w_id: u32,
}

/// What one want claims: a group, or all groups of a prefix.
#[derive(Clone, Copy, Debug, PartialEq, Eq)]
pub enum Extent {
    One(Group),
    Every(Prefix),
}

/// A group or prefix that an action asks to lock, and the mode.
#[derive(Clone, Copy, Debug, PartialEq, Eq)]
pub struct Want {
    pub extent: Extent,
    pub mode: Mode,
}

/// The kind of a group.
pub fn kind_of(group: Group) -> Kind
    ensures { kind_number result ≡ spec.kind_of group }
{
    match group {
        Group::Warehouse { .. } => Kind::Warehouse,
        Group::District { .. } => Kind::District,
        Group::Customers { .. } => Kind::Customers,
        Group::Orders { .. } => Kind::Orders,
        Group::History { .. } => Kind::History,
        Group::Stock { .. } => Kind::Stock,
    }
}

/// The warehouse of a group.
pub fn warehouse_of(group: Group) -> u32
    ensures { result ≡ spec.warehouse_of group }
{
    match group {
        Group::Warehouse { w_id }
        | Group::District { w_id, .. }
        | Group::Customers { w_id, .. }
        | Group::Orders { w_id, .. }
        | Group::History { w_id, .. }
        | Group::Stock { w_id, .. } => w_id,
    }
}

impl Prefix {
    // Returns whether the group is one of the prefix's.
    fn covers(self, group: Group) -> bool
        ensures { IsTrue result ↔ IsUnder self group }
    {
        kind_of(group) == self.kind && warehouse_of(group) == self.w_id
    }
}

impl Want {
    /// Returns whether the want includes the group.
    pub fn covers(self, group: Group) -> bool
        ensures { IsTrue result ↔ Covers self group }
    {
        match self.extent {
            Extent::One(own) => own == group,
            Extent::Every(prefix) => prefix.covers(group),
        }
    }
}
