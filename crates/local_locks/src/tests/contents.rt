//! The content of a group that was claimed, changed and given back.
ghost use Rattle.std.specs.Prelude.{◌≡◌, [], All, IfOk, None, vec_len};
ghost use Rattle.requests.specs.declared.group.Group.TheVariants.{History};
ghost use Rattle.groups.specs.Content.Content.{OfHistory};
ghost use Rattle.groups.specs.Groups.{warehouse_of};
ghost use Rattle.groups.specs.declared.group_wants.Mode.TheVariants.{Shared};
ghost use Rattle.tickets.specs.Openings.{AreNamed};
ghost use Rattle.local_locks.specs.LockTableView.{left_in};
ghost use Rattle.local_locks.specs.Trials.{Records};

use super::*;
use tickets::LogSeats;

const PAYMENTS: Group = Group::History { w_id: 1, d_id: 10 };

const WRITER: Holder = Holder { age: 1, place: 0 };

const READER: Holder = Holder { age: 0, place: 0 };

// The list of payments is removed.
struct NoList;

impl Change<Content> for NoList {
    ghost use Rattle.std.specs.Prelude.{None};
    ghost use Rattle.groups.specs.Content.Content.{OfHistory};

    ghost changed = { λ none before. OfHistory None };
}

// The table of a warehouse, whose groups have no row, and the log's seats.
fn opened<J: GroupNames>(
    alloc: Global,
    openings: Vec<GroupSeats>,
) -> Result<(LockTable<J>, LogSeats<J>), NoMemory>
    requires known { J.warehouses ≡ 1 }
    requires all { vec_len openings ≡ 105 }
    requires names { AreNamed 1 J.committed J.work openings.items }
    ensures here { IfOk result (λ opened. opened.0.w_id ≡ 1) }
    ensures idle { IfOk result (λ opened. opened.0.waiters ≡ []) }
{
    let (boxes, seats) = named_all::<J>(alloc.clone()?, 1, openings)?;
    Ok((LockTable::open(alloc, 1, boxes)?, seats))
}

// A shared claim records the content of its group, whatever was done there before.
fn look<J: GroupNames>(table: &mut LockTable<J>, claim: &mut Claim<J>)
    requires here { warehouse_of claim.old.group ≡ table.old.w_id }
    requires shared { claim.old.mode ≡ Shared }
    ensures recorded { claim.old.recorded ≡ left_in table.old.stands claim.old.group }
    ensures same { (table.new ≡ table.old) × (claim.new ≡ claim.old) }
{
    table.look(claim);
    claim.look_untouched();
}

// A reader waits for a writer. After what the writer left is committed and its claim is back, a shared
// claim records it.
fn read_after_write<J: GroupNames>(
    alloc: Global,
    openings: Vec<GroupSeats>,
) -> Result<Vec<Claim<J>>, NoMemory>
    requires known { J.warehouses ≡ 1 }
    requires all { vec_len openings ≡ 105 }
    requires names { AreNamed 1 J.committed J.work openings.items }
    ensures { IfOk result (λ read. All (Records (OfHistory None)) read.items) }
{
    let (mut table, mut seats) = opened::<J>(alloc.clone()?, openings)?;
    let want = one(PAYMENTS, Mode::Exclusive);
    let Asked::Granted(mut claims) = table.ask(alloc.clone()?, WRITER, &[want])? else {
        return Ok(Vec::new(alloc));
    };
    table.agree();
    table.leave(&mut claims[0], &NoList);
    let want = one(PAYMENTS, Mode::Shared);
    let Asked::Waits = table.ask(alloc.clone()?, READER, &[want])? else {
        return Ok(Vec::new(alloc));
    };
    let None = table.next_grant() else {
        return Ok(Vec::new(alloc));
    };
    seats.settle_all(&mut claims);
    table.give_back(claims);
    let Some(
        Turn::Granted {
            index: _,
            by: _,
            claims: mut read,
        },
    ) = table.next_grant()
    else {
        return Ok(Vec::new(alloc));
    };
    look(&mut table, &mut read[0]);
    Ok(read)
}

fn written<J: GroupNames>(alloc: Global, openings: Vec<GroupSeats>) -> Result<usize, NoMemory>
    requires known { J.warehouses ≡ 1 }
    requires all { vec_len openings ≡ 105 }
    requires names { AreNamed 1 J.committed J.work openings.items }
{
    let read = read_after_write::<J>(alloc, openings)?;
    Ok(read.len())
}

#[test]
fn a_reader_is_recorded_what_was_left_once_it_is_back(rt: HostRuntime) -> Result<(), Fail> {
    let openings = one_warehouse(rt.alloc())?;
    assert_eq!(rt; written::<Brand>(rt.alloc(), openings)?, 1);
    Ok(())
}

// What a writer did is undone, and nothing is committed. A shared claim records the content from before.
fn read_after_undo<J: GroupNames>(
    alloc: Global,
    table: &mut LockTable<J>,
) -> Result<Vec<Claim<J>>, NoMemory>
    requires known { J.warehouses ≡ 1 }
    requires here { table.old.w_id ≡ 1 }
    ensures { IfOk result (λ read.
        All (Records (left_in table.old.stands (History 1 10))) read.items) }
{
    let want = one(PAYMENTS, Mode::Exclusive);
    let Asked::Granted(mut claims) = table.ask(alloc.clone()?, WRITER, &[want])? else {
        return Ok(Vec::new(alloc));
    };
    table.leave(&mut claims[0], &NoList);
    table.agree();
    table.undo(&mut claims[0]);
    table.give_back(claims);
    let want = one(PAYMENTS, Mode::Shared);
    let Asked::Granted(mut read) = table.ask(alloc.clone()?, READER, &[want])? else {
        return Ok(Vec::new(alloc));
    };
    look(table, &mut read[0]);
    Ok(read)
}

fn undone<J: GroupNames>(alloc: Global, openings: Vec<GroupSeats>) -> Result<usize, NoMemory>
    requires known { J.warehouses ≡ 1 }
    requires all { vec_len openings ≡ 105 }
    requires names { AreNamed 1 J.committed J.work openings.items }
{
    let (mut table, _seats) = opened::<J>(alloc.clone()?, openings)?;
    let read = read_after_undo(alloc, &mut table)?;
    Ok(read.len())
}

#[test]
fn a_reader_is_recorded_nothing_of_what_was_undone(rt: HostRuntime) -> Result<(), Fail> {
    let openings = one_warehouse(rt.alloc())?;
    assert_eq!(rt; undone::<Brand>(rt.alloc(), openings)?, 1);
    Ok(())
}
