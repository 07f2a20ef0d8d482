//! Laws of slices, as functions with empty bodies: their contracts are proved.
ghost use Rattle.std.specs.Prelude.{◌≡◌, ◌↔◌, ℕ, ◌&&◌, IsTrue};
ghost use Rattle.requests.specs.declared.group.Group.{Group};
ghost use Rattle.groups.specs.Groups.{warehouse_of};
ghost use Rattle.tickets.specs.Places.{IsBetween, IsGroupOf};
ghost use Rattle.slices.specs.Joining.{OneSliceKeepsAll, CutSlicesAreAtRest};
ghost use Rattle.slices.specs.Openings.{OpenedGroupsHaveBoxes};
ghost use Rattle.slices.specs.SliceView.{at_home, is_group};

/// The tests `at_home` and `is_group` together are true exactly for the groups of the warehouse.
pub fn groups_are_recorded()
    ensures { (warehouses home : ℕ) (group : Group) → IsBetween 1 warehouses home
        → IsTrue (at_home home group && is_group group)
        ↔ (IsGroupOf warehouses group × (warehouse_of group ≡ home)) }
{}

/// The boxes beside the seats of what was opened for tables are the boxes of those tables.
pub fn opened_groups_have_boxes()
    ensures { OpenedGroupsHaveBoxes }
{}

/// What one slice keeps, all slices together keep, if the claims are on groups of its warehouse.
pub fn one_slice_keeps_all()
    ensures { OneSliceKeepsAll }
{}

/// The slices of tables that were cut, at rest, are those tables, at rest.
pub fn cut_slices_are_at_rest()
    ensures { CutSlicesAreAtRest }
{}
