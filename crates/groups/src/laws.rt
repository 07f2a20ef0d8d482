//! Proved laws of the definitions of groups, as functions with empty bodies.
ghost use Rattle.std.specs.Prelude.{◌≡◌};
ghost use Rattle.std.specs.Cmp.{IsTotalOrder};
ghost use Rattle.std.specs.FinMap.{IsAntisymmetric};
ghost use Rattle.requests.specs.declared.group.Group.{Group};
ghost use Rattle.groups.specs.Groups.{group_cmp};
ghost use Rattle.groups.specs.Laws.{ContentsMakeTables, EachPutChangesOneGroup, EachRowStandsInOneGroup, FootprintsNameEachGroupOnce, ItemsStandInNoGroup};

use requests::Group;

/// Groups compare by kind, then by warehouse, and then by number, and only equal groups compare as
/// equal.
pub fn groups_are_ordered()
    ensures compared { (a b : Group) → ⟦<Group as Ord>⟧.cmp a b ≡ group_cmp a b }
    ensures total { IsTotalOrder group_cmp }
    ensures exact { IsAntisymmetric group_cmp }
{}

/// No group is twice among those that a request claims.
pub fn footprints_name_each_group_once()
    ensures { FootprintsNameEachGroupOnce }
{}

/// Each row, and each list of HISTORY, is in its own group as the table has it, and in no other group.
pub fn each_row_stands_in_one_group()
    ensures { EachRowStandsInOneGroup }
{}

/// No item is in a group.
pub fn items_stand_in_no_group()
    ensures { ItemsStandInNoGroup }
{}

/// The contents of all groups, with the scale and the items, make the tables.
pub fn contents_make_tables()
    ensures { ContentsMakeTables }
{}

/// Inserting a row into a table, or deleting one from NEW-ORDER, changes the content of its own group as
/// it changes the table, and no other group's content.
pub fn each_put_changes_one_group()
    ensures { EachPutChangesOneGroup }
{}
