ghost use Rattle.std.specs.Prelude.{◌≡◌, IfOk};
ghost use Rattle.groups.specs.Content.{content};
ghost use Rattle.groups.specs.Groups.{warehouse_of};
ghost use Rattle.groups.specs.declared.group_wants.Mode.TheVariants.{Exclusive};
ghost use Rattle.slices.specs.Openings.{AreOpenedFor};
ghost use Rattle.tickets.specs.Claims.{fresh};
ghost use Rattle.tickets.specs.Openings.{AreNamed};
ghost use Rattle.tickets.specs.Places.{IsGroupOf};

use super::*;
use amounts::Cents;
use groups::{Extent, Mode, Want};
use local_locks::{Asked, Turn};
use partitions::Partition;
use requests::Group;
use schema::{CarrierId, OrderKey};
use slices::{Slice, cut, open_groups, opened_groups_have_boxes};
use std::alloc::Global;
use std::marker::Brand;
use tickets::{Claim, GroupNames, GroupSeats, named_all};
use wait_die::Holder;

const HOLDER: Holder = Holder { age: 63, place: 0 };

// Why a group isn't granted: all its holders are younger (Waits); or the oldest holder, of this age, is not (Dies).
#[derive(Clone, Copy, Debug, PartialEq, Eq)]
enum Refused {
    Waits,
    Dies(u64),
    NoMemory,
}

// The slices of these tables, with the seats that were opened for their groups.
fn opened<J: GroupNames>(
    alloc: Global,
    tables: Tables,
    openings: Vec<GroupSeats>,
) -> Result<Vec<Slice<J>>, NoMemory>
    requires warehouses { J.warehouses ≡ tables.scale.warehouses }
    requires opened { AreOpenedFor tables openings.items }
    requires names { AreNamed tables.scale.warehouses J.committed J.work openings.items }
{
    let warehouses = tables.scale().warehouses;
    let (boxes, _seats) = named_all::<J>(alloc, warehouses, openings)?;
    opened_groups_have_boxes();
    let (_catalog, slices) = cut(alloc, tables, boxes)?;
    Ok(slices)
}

// An exclusive claim on a group of the slice.
fn claimed<J: GroupNames>(
    alloc: Global,
    slice: &mut Slice<J>,
    by: Holder,
    group: Group,
) -> Result<Claim<J>, Refused>
    requires known { IsGroupOf J.warehouses group }
    requires home { warehouse_of group ≡ slice.old.home }
    ensures claim { IfOk result
        (λ claim. claim ≡ fresh by group Exclusive (content slice.old.tables group)) }
    ensures tables { slice.new.tables ≡ slice.old.tables }
    ensures home { slice.new.home ≡ slice.old.home }
{
    let want = Want {
        extent: Extent::One(group),
        mode: Mode::Exclusive,
    };
    match slice.ask(alloc, by, &[want]) {
        Ok(Asked::Granted(mut claims)) => claims.pop().ok_or(Refused::NoMemory),
        Ok(Asked::Waits) => Err(Refused::Waits),
        Ok(Asked::Dies { holder, .. }) => Err(Refused::Dies(holder)),
        Err(_) => Err(Refused::NoMemory),
    }
}

// The row of the first warehouse is changed under a claim, and that is undone. Returns its sum before, under the claim and after
// the undo, and the age of the holder meanwhile.
fn put_and_undone<J: GroupNames>(
    alloc: Global,
    tables: Tables,
    openings: Vec<GroupSeats>,
) -> Option<(i64, i64, i64, u64)>
    requires warehouses { J.warehouses ≡ tables.scale.warehouses }
    requires opened { AreOpenedFor tables openings.items }
    requires names { AreNamed tables.scale.warehouses J.committed J.work openings.items }
{
    let mut slices = opened::<J>(alloc, tables, openings).ok()?;
    let slice = slices.get_mut(0)?;
    let home = slice.home();
    let group = Group::Warehouse { w_id: home };
    let row = slice.partition().warehouse(home)?;
    let before = row.ytd.get();
    let mut row = row.copy();
    row.ytd = Cents::new(7);
    let Ok(mut claim) = claimed(alloc, slice, HOLDER, group) else {
        return None;
    };
    slice.look(&mut claim);
    let Ok(()) = slice.put_warehouse(&mut claim, home, row) else {
        return None;
    };
    let put = slice.partition().warehouse(home)?.ytd.get();
    let younger = Holder { age: 64, place: 0 };
    let Err(Refused::Dies(holder)) = claimed(alloc, slice, younger, group) else {
        return None;
    };
    slice.undo(&mut claim);
    slice.take_back(claim);
    let after = slice.partition().warehouse(home)?.ytd.get();
    Some((before, put, after, holder))
}

#[test]
fn a_row_is_put_and_undone(rt: HostRuntime) -> Result<(), Fail> {
    let tables = two_warehouses(rt.alloc())?;
    let openings = open_groups(rt.alloc(), &tables)?;
    let recorded = put_and_undone::<Brand>(rt.alloc(), tables, openings);
    assert_eq!(rt; recorded, Some((50_000, 7, 50_000, 63)));
    Ok(())
}

const YOUNGER: Holder = Holder { age: 2, place: 0 };

const OLDER: Holder = Holder { age: 1, place: 0 };

// An older action asks for the row of the first warehouse, which a younger one holds. Returns the answer to it, and the holder
// and the number of claims that are granted once the younger one has given the row back.
fn waited_and_granted<J: GroupNames>(
    alloc: Global,
    tables: Tables,
    openings: Vec<GroupSeats>,
) -> Option<(Refused, Holder, usize)>
    requires warehouses { J.warehouses ≡ tables.scale.warehouses }
    requires opened { AreOpenedFor tables openings.items }
    requires names { AreNamed tables.scale.warehouses J.committed J.work openings.items }
{
    let mut slices = opened::<J>(alloc, tables, openings).ok()?;
    let slice = slices.get_mut(0)?;
    let home = slice.home();
    let group = Group::Warehouse { w_id: home };
    slice.partition().warehouse(home)?;
    let Ok(claim) = claimed(alloc, slice, YOUNGER, group) else {
        return None;
    };
    let Err(said) = claimed(alloc, slice, OLDER, group) else {
        return None;
    };
    slice.take_back(claim);
    let Some(Turn::Granted { by, claims, .. }) = slice.next_grant() else {
        return None;
    };
    Some((said, by, claims.len()))
}

#[test]
fn an_older_one_waits_and_is_granted(rt: HostRuntime) -> Result<(), Fail> {
    let tables = two_warehouses(rt.alloc())?;
    let openings = open_groups(rt.alloc(), &tables)?;
    let recorded = waited_and_granted::<Brand>(rt.alloc(), tables, openings);
    assert_eq!(rt; recorded, Some((Refused::Waits, OLDER, 1)));
    Ok(())
}

// The number of the oldest new order of the order's district, the order's carrier, and whether its first line is delivered.
fn seen(rows: &Partition, key: OrderKey) -> Option<(Option<u32>, Option<u32>, bool)> {
    let oldest = rows.oldest_new_order(DistrictKey {
        w_id: key.w_id,
        d_id: key.d_id,
    });
    let carrier = rows.order(key)?.carrier_id;
    let (_, line) = rows.lines_of(key).next()?;
    Some((
        oldest,
        carrier.map(|carrier| carrier.get()),
        line.delivery_d.is_some(),
    ))
}

// The first warehouse's oldest new order of district 1 is delivered under a claim, and that is undone. Returns what `seen`
// returns before, under the claim and after the undo.
fn delivered_and_undone<J: GroupNames>(
    alloc: Global,
    tables: Tables,
    openings: Vec<GroupSeats>,
) -> Option<[(Option<u32>, Option<u32>, bool); 3]>
    requires warehouses { J.warehouses ≡ tables.scale.warehouses }
    requires opened { AreOpenedFor tables openings.items }
    requires names { AreNamed tables.scale.warehouses J.committed J.work openings.items }
{
    let mut slices = opened::<J>(alloc, tables, openings).ok()?;
    let slice = slices.get_mut(0)?;
    let w_id = slice.home();
    let o_id = slice
        .partition()
        .oldest_new_order(DistrictKey { w_id, d_id: 1 })?;
    let key = OrderKey {
        w_id,
        d_id: 1,
        o_id,
    };
    slice.partition().order(key)?;
    let before = seen(slice.partition(), key)?;
    let Ok(mut claim) = claimed(alloc, slice, HOLDER, Group::Orders { w_id, d_id: 1 }) else {
        return None;
    };
    slice.look(&mut claim);
    let moment = Moment::new(1_714_564_800);
    let Ok(()) = slice.deliver_order(&mut claim, key, CarrierId::new(7), moment) else {
        return None;
    };
    let meanwhile = seen(slice.partition(), key)?;
    slice.undo(&mut claim);
    slice.take_back(claim);
    let after = seen(slice.partition(), key)?;
    Some([before, meanwhile, after])
}

#[test]
fn an_order_is_delivered_and_that_undone(rt: HostRuntime) -> Result<(), Fail> {
    let tables = two_warehouses(rt.alloc())?;
    let openings = open_groups(rt.alloc(), &tables)?;
    let recorded = delivered_and_undone::<Brand>(rt.alloc(), tables, openings);
    let new = (Some(5), None, false);
    assert_eq!(rt; recorded, Some([new, (None, Some(7), true), new]));
    Ok(())
}
