//! Simulation of a schedule, event by event.
ghost use Rattle.std.specs.Prelude.{◌≡◌, ◌↔◌, [], false, IfOk, IfErr, IsErrAnd};
ghost use Rattle.std.specs.declared.marker.Brand.{Brand};
ghost use Rattle.world.specs.Openings.{HasTablesIfQuiet, IsFaultOf, IsNamedFor, Simulates, SimulatesFrom};
ghost use Rattle.commit_log.specs.Limits.{AreLimits};
ghost use Rattle.world.specs.Setups.{CanHave};

use crate::opening::{OpenFault, Opening};
use crate::setup::Setup;
use crate::watching::LockWatch;
use crate::world::{GatherFault, World};
use commit_log::{Entry, Names};
use history::{LockChange, Output, Scheduled};
use schema::{NoMemory, Tables};
use std::alloc::Global;
use std::marker::Brand;

/// The result of a simulation.
#[derive(Drop)]
pub struct Simulation {
    /// What is printed for each item of the schedule, in order.
    pub outputs: Vec<Output>,
    /// The lock tables that have changed, in the order of the changes; none if they are not watched.
    pub locks: Vec<LockChange>,
    pub log: Vec<Entry>,
    /// The tables as the transactions of the log left them. `NotIdle` if a transaction was active or a move outstanding at the
    /// end.
    pub tables: Result<Tables, GatherFault>,
}

/// Plays a schedule from these tables, event by event, in a world that is set up so.
///
/// However the events are interleaved, the replies of the log and the tables at the end are those of a machine that carries out
/// the log's requests one at a time, in log order. Each event is answered as `World::step` specifies, starting from a new
/// world. If the last output is `Quiet`, the tables are returned unless there is no memory for them.
///
/// If `watches_locks`, the result has the entries of each lock table after each event that changed them.
///
/// Returns BadExecutors exactly if there are not 1 to 16 executors; else BadLimit exactly if a limit is out of its range; else
/// NotConsistent with the least condition that the tables break; and NoMemory if there is no memory to check the tables, to
/// open the world, for the outputs or for the lock tables.
pub fn simulate(
    alloc: Global,
    tables: Tables,
    setup: &Setup,
    schedule: &[Scheduled],
    watches_locks: bool,
) -> Result<Simulation, OpenFault>
    ensures simulates { IfOk result (Simulates Brand tables setup.now schedule.now) }
    ensures unwatched { watches_locks ≡ false → IfOk result (λ s. s.locks.items ≡ []) }
    ensures quiet { IfOk result HasTablesIfQuiet }
    ensures bad_executors { IsErrAnd result (λ fault. fault ≡ OpenFault.BadExecutors)
        ↔ ¬ CanHave setup.now.executors }
    ensures bad_limit { IsErrAnd result (λ fault. fault ≡ OpenFault.BadLimit)
        ↔ (CanHave setup.now.executors × ¬ AreLimits setup.now.limits) }
    ensures fault { IfErr result (λ fault. IsFaultOf tables fault) }
{
    let (log_limit, _) = setup.limits()?;
    let opening = Opening::open(alloc, &tables, log_limit)?;
    simulate_from::<Brand>(alloc, tables, setup, opening, schedule, watches_locks)
}

// Plays a schedule in a world whose agreements have the names `J`.
fn simulate_from<J: Names>(
    alloc: Global,
    tables: Tables,
    setup: &Setup,
    opening: Opening,
    schedule: &[Scheduled],
    watches_locks: bool,
) -> Result<Simulation, OpenFault>
    requires named { IsNamedFor J.LogNames J.GroupNames tables opening }
    requires limit { opening.log.most ≡ setup.now.limits.log }
    ensures simulates { IfOk result (Simulates J tables setup.now schedule.now) }
    ensures unwatched { watches_locks ≡ false → IfOk result (λ s. s.locks.items ≡ []) }
    ensures quiet { IfOk result HasTablesIfQuiet }
    ensures bad_executors { IsErrAnd result (λ fault. fault ≡ OpenFault.BadExecutors)
        ↔ ¬ CanHave setup.now.executors }
    ensures bad_limit { IsErrAnd result (λ fault. fault ≡ OpenFault.BadLimit)
        ↔ (CanHave setup.now.executors × ¬ AreLimits setup.now.limits) }
    ensures fault { IfErr result (λ fault. IsFaultOf tables fault) }
{
    let world = World::<J>::open(alloc, tables, setup, opening)?;
    let simulation = simulate_in(alloc, world, schedule, watches_locks)?;
    Ok(simulation)
}

// Plays a schedule in a new world.
fn simulate_in<J: Names>(
    alloc: Global,
    mut world: World<J>,
    schedule: &[Scheduled],
    watches_locks: bool,
) -> Result<Simulation, NoMemory>
    ensures simulates { IfOk result (SimulatesFrom world schedule.now) }
    ensures unwatched { watches_locks ≡ false → IfOk result (λ s. s.locks.items ≡ []) }
    ensures quiet { IfOk result HasTablesIfQuiet }
{
    let mut watch = LockWatch::new(alloc, watches_locks);
    let outputs = world.play(alloc, schedule, &mut watch)?;
    let locks = if watches_locks {
        watch.into_changes()?
    } else {
        Vec::new(alloc)
    };
    let (log, tables) = world.close();
    Ok(Simulation {
        outputs,
        locks,
        log,
        tables,
    })
}
