//! Which groups have an entry, and in which order.
ghost use Rattle.std.specs.Prelude.{◌≡◌, vec_len};
ghost use Rattle.tickets.specs.Openings.{AreNamed};
ghost use Rattle.local_locks.specs.GroupWants.{IsOwn};

use super::*;

const WAREHOUSE: Group = Group::Warehouse { w_id: 1 };

const DISTRICT: Group = Group::District { w_id: 1, d_id: 1 };

const PAYMENTS: Group = Group::History { w_id: 1, d_id: 1 };

fn customers(d_id: u32) -> Group
    ensures { result ≡ Group.Customers 1 d_id }
{
    Group::Customers { w_id: 1, d_id }
}

fn stock(residue: u32) -> Group {
    Group::Stock { w_id: 1, residue }
}

fn aged(age: Age) -> Holder {
    Holder { age, place: 0 }
}

// The table has these entries, in this order.
fn has_entries<J: GroupNames>(rt: &impl Abort, trial: &Trial<J>, groups: &[Group]) {
    assert_eq!(rt; trial.table.held(), groups.len());
    for (n, group) in groups.iter().enumerate() {
        assert_eq!(rt; trial.table.held_at(n), Some(*group));
    }
    assert_eq!(rt; trial.table.held_at(groups.len()), None);
}

// The first entry has these holders and these waiting actions.
fn shows<J: GroupNames>(
    rt: &impl Abort,
    alloc: Global,
    trial: &Trial<J>,
    holders: &[Age],
    waiters: &[Age],
) -> Result<(), NoMemory> {
    let Some(entry) = trial.table.entry_at(alloc, 0)? else {
        assert!(rt; holders.is_empty());
        return Ok(());
    };
    assert_eq!(rt; entry.mode.is_some(), !holders.is_empty());
    assert_eq!(rt; entry.holders.as_slice(), holders);
    assert_eq!(rt; entry.waiters.as_slice(), waiters);
    Ok(())
}

// An action of this age asks for a want, and is told this.
fn is_told<J: GroupNames>(
    rt: &impl Abort,
    alloc: Global,
    trial: &mut Trial<J>,
    age: Age,
    want: Want,
    told: Said,
) -> Result<(), NoMemory>
    requires { IsOwn J.warehouses 1 want }
{
    let said = trial.ask_for(alloc, aged(age), want)?;
    assert_eq!(rt; said, told);
    Ok(())
}

// It is the turn of an action of this age, and it is told this.
fn takes_turn<J: GroupNames>(
    rt: &impl Abort,
    trial: &mut Trial<J>,
    age: Age,
    told: Said,
) -> Result<(), NoMemory> {
    let turn = trial.next_grant()?;
    assert_eq!(rt; turn, Some((aged(age), told)));
    Ok(())
}

// The action of this age, whose grant this is, gives its claims back.
fn gives_back<J: GroupNames>(rt: &impl Abort, trial: &mut Trial<J>, index: usize, age: Age) {
    let count = trial.count();
    assert!(rt; index < count);
    let by = trial.give_back(index);
    assert_eq!(rt; by, aged(age));
}

// Eight readers have an exclusive claim waited for.
fn eight_read<J: GroupNames>(
    rt: &impl Abort,
    alloc: Global,
    trial: &mut Trial<J>,
) -> Result<(), NoMemory>
    requires { J.warehouses ≡ 1 }
{
    let shared = one(customers(1), Mode::Shared);
    for age in 1..=8 {
        is_told(rt, alloc.clone()?, trial, age, shared, Said::Granted(1))?;
    }
    let dies = Said::Dies(customers(1), 1);
    is_told(rt, alloc.clone()?, trial, 9, shared, dies)?;
    let exclusive = one(customers(1), Mode::Exclusive);
    is_told(rt, alloc, trial, 0, exclusive, Said::Waits)
}

// Eight readers and a writer that waits for them have one entry; readers of the stock have one for each of
// its groups.
fn one_group_and_a_prefix<J: GroupNames>(
    rt: &impl Abort,
    alloc: Global,
    openings: Vec<GroupSeats>,
) -> Result<(), NoMemory>
    requires known { J.warehouses ≡ 1 }
    requires all { vec_len openings ≡ 105 }
    requires names { AreNamed 1 J.committed J.work openings.items }
{
    let mut trial = Trial::<J>::open(alloc.clone()?, openings)?;
    has_entries(rt, &trial, &[]);
    eight_read(rt, alloc.clone()?, &mut trial)?;
    shows(rt, alloc.clone()?, &trial, &[1, 2, 3, 4, 5, 6, 7, 8], &[0])?;
    for last in (0..8).rev() {
        has_entries(rt, &trial, &[customers(1)]);
        gives_back(rt, &mut trial, last, last as Age + 1);
    }
    has_entries(rt, &trial, &[customers(1)]);
    shows(rt, alloc.clone()?, &trial, &[], &[0])?;
    takes_turn(rt, &mut trial, 0, Said::Granted(1))?;
    has_entries(rt, &trial, &[customers(1)]);
    gives_back(rt, &mut trial, 0, 0);
    has_entries(rt, &trial, &[]);
    let stock_read = every(Kind::Stock, Mode::Shared);
    is_told(rt, alloc, &mut trial, 1, stock_read, Said::Granted(64))?;
    assert_eq!(rt; trial.table.held(), 64);
    assert_eq!(rt; trial.table.held_at(63), Some(stock(63)));
    assert_eq!(rt; trial.table.held_at(64), None);
    Ok(())
}

#[test]
fn a_group_has_one_entry_and_a_prefix_one_for_each(rt: HostRuntime) -> Result<(), Fail> {
    let openings = one_warehouse(rt.alloc())?;
    one_group_and_a_prefix::<Brand>(&rt, rt.alloc(), openings)?;
    Ok(())
}

// Entries come last, and those of one action in the order of groups.
fn first_come<J: GroupNames>(
    rt: &impl Abort,
    alloc: Global,
    trial: &mut Trial<J>,
) -> Result<(), NoMemory>
    requires { J.warehouses ≡ 1 }
{
    let second = one(customers(2), Mode::Exclusive);
    let district = one(DISTRICT, Mode::Shared);
    let said = trial.ask_for_both(alloc.clone()?, aged(5), second, district)?;
    assert_eq!(rt; said, Said::Granted(2));
    has_entries(rt, trial, &[DISTRICT, customers(2)]);
    let all = every(Kind::Customers, Mode::Exclusive);
    is_told(rt, alloc.clone()?, trial, 4, all, Said::Waits)?;
    let warehouse = one(WAREHOUSE, Mode::Shared);
    is_told(rt, alloc, trial, 6, warehouse, Said::Granted(1))?;
    assert_eq!(rt; trial.table.held(), 12);
    assert_eq!(rt; trial.table.held_at(2), Some(customers(1)));
    assert_eq!(rt; trial.table.held_at(3), Some(customers(3)));
    Ok(())
}

// The others keep their order when one goes, and when an action that waited is granted.
fn one_goes<J: GroupNames>(rt: &impl Abort, trial: &mut Trial<J>) -> Result<(), NoMemory> {
    let left = [
        customers(2),
        customers(1),
        customers(3),
        customers(4),
        customers(5),
        customers(6),
        customers(7),
        customers(8),
        customers(9),
        customers(10),
        WAREHOUSE,
    ];
    gives_back(rt, trial, 0, 5);
    has_entries(rt, trial, &left);
    takes_turn(rt, trial, 4, Said::Granted(10))?;
    has_entries(rt, trial, &left);
    Ok(())
}

// Of two actions that wait, the older is granted, and the other dies.
fn one_dies<J: GroupNames>(
    rt: &impl Abort,
    alloc: Global,
    trial: &mut Trial<J>,
) -> Result<(), NoMemory>
    requires { J.warehouses ≡ 1 }
{
    let first = one(customers(1), Mode::Exclusive);
    let payments = one(PAYMENTS, Mode::Exclusive);
    let said = trial.ask_for_both(alloc.clone()?, aged(2), first, payments)?;
    assert_eq!(rt; said, Said::Waits);
    is_told(rt, alloc, trial, 1, first, Said::Waits)?;
    gives_back(rt, trial, 1, 4);
    has_entries(rt, trial, &[customers(1), WAREHOUSE, PAYMENTS]);
    takes_turn(rt, trial, 1, Said::Granted(1))?;
    has_entries(rt, trial, &[customers(1), WAREHOUSE, PAYMENTS]);
    takes_turn(rt, trial, 2, Said::Dies(customers(1), 1))?;
    has_entries(rt, trial, &[customers(1), WAREHOUSE]);
    Ok(())
}

fn run_of_entries<J: GroupNames>(
    rt: &impl Abort,
    alloc: Global,
    openings: Vec<GroupSeats>,
) -> Result<(), NoMemory>
    requires known { J.warehouses ≡ 1 }
    requires all { vec_len openings ≡ 105 }
    requires names { AreNamed 1 J.committed J.work openings.items }
{
    let mut trial = Trial::<J>::open(alloc.clone()?, openings)?;
    first_come(rt, alloc.clone()?, &mut trial)?;
    one_goes(rt, &mut trial)?;
    one_dies(rt, alloc, &mut trial)
}

#[test]
fn entries_are_in_the_order_in_which_they_came(rt: HostRuntime) -> Result<(), Fail> {
    let openings = one_warehouse(rt.alloc())?;
    run_of_entries::<Brand>(&rt, rt.alloc(), openings)?;
    Ok(())
}
