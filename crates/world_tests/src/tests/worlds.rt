ghost use Rattle.std.specs.Prelude.{◌≡◌};
ghost use Rattle.world.specs.Openings.{IsNamedFor};

use super::*;
use commit_log::{Entry, Limits, Names};
use history::{Event, EventAnswer};
use machine::Plain;
use requests::check;
use schema::Warehouse;
use std::alloc::Global;
use std::marker::Brand;
use std::process::Abort;
use world::{Opening, Setup, World};

// Session 0 submits the payment. Then executor 0 has a Take and a Send, thirty times in turn.
fn schedule(alloc: Global) -> Result<Vec<Event>, NoMemory> {
    let executor = 0;
    let mut events = Vec::new(alloc);
    events.push(Event::Submit {
        session: 0,
        number: 0,
        request: payment(),
    })?;
    for _ in 0..30 {
        events.push(Event::Take { executor })?;
        events.push(Event::Send { executor })?;
    }
    Ok(events)
}

// The payment's entry in the log and the row of its warehouse, by the machine.
fn by_machine(alloc: Global, tables: Tables) -> Result<(Entry, Option<Warehouse>), Fail> {
    let request = payment();
    check(&tables.scale(), &request)?;
    let mut plain = Plain::open(alloc, tables)?;
    let reply = plain.step(&request)?;
    let entry = Entry {
        session: 0,
        number: 0,
        request,
        reply,
    };
    Ok((entry, plain.tables().warehouse(1).cloned()?))
}

// The payment in a new world of one executor. Its log has this entry then. Returns its tables.
fn by_world<J: Names, R: Abort>(
    rt: &R,
    alloc: Global,
    tables: Tables,
    setup: &Setup,
    opening: Opening,
    paid: Entry,
) -> Result<Tables, Fail>
    requires named { IsNamedFor J.LogNames J.GroupNames tables opening }
    requires limit { opening.log.most ≡ setup.now.limits.log }
{
    let mut world = World::<J>::open(alloc, tables, setup, opening)?;
    let answers = world.run(alloc, schedule(alloc)?.as_slice())?;
    assert_eq!(rt; answers.first(), Some(&EventAnswer::Accepted { age: 0 }));
    assert_eq!(rt; world.log(), [paid].as_slice());
    Ok(world.gather(alloc)?)
}

// A world that runs a payment has the machine's reply in its log, and the machine's row in its tables.
#[test]
fn a_world_runs_a_payment(rt: HostRuntime) -> Result<(), Fail> {
    let alloc = rt.alloc();
    let (paid, row) = by_machine(alloc, warehouses(alloc, 1)?)?;
    let tables = warehouses(alloc, 1)?;
    let setup = Setup {
        executors: 1,
        limits: Limits::greatest(),
    };
    let (log_limit, _) = setup.limits.checked().ok_or("limits")?;
    let opening = Opening::open(alloc, &tables, log_limit)?;
    let tables = by_world::<Brand, HostRuntime>(&rt, alloc, tables, &setup, opening, paid)?;
    assert!(rt; row.is_some());
    assert_eq!(rt; tables.warehouse(1), row.as_ref());
    Ok(())
}
