//! Opening a world over tables that meet the consistency conditions.
ghost use Rattle.std.specs.Prelude.{◌≡◌, ◌↔◌, [], map, IfOk, IfErr, OnOk, IsErrAnd};
ghost use Rattle.schema.specs.Consistency.{Consistent};
ghost use Rattle.slices.specs.Openings.{AreOpenedFor};
ghost use Rattle.world.specs.Openings.{IsFaultOf, IsNamedFor, IsNew, session_with};
ghost use Rattle.commit_log.specs.Limits.{AreLimits};
ghost use Rattle.world.specs.Setups.{CanHave, IsPossible};
ghost use Rattle.world.specs.Together.{together};
ghost use Rattle.world.specs.Worlds.{Fits};

use crate::desk::{Desk, SessionDesk};
use crate::queue::Queue;
use crate::queues::Queues;
use crate::setup::Setup;
use crate::shards::open_shards;
use crate::slots::Slots;
use crate::world::{Core, Parts, World};
use commit_log::{InboxLimit, Log, LogBook, LogLimit, Names, Pass, SessionSeat, UnnamedLog};
use consistency::first_broken;
use range_moves::Placements;
use routing::{MOST_EXECUTORS, Routing};
use rows::{INBOX, MOST_ENTRIES};
use schema::{NoMemory, Tables};
use slices::{cut, open_groups};
use std::alloc::{AllocError, Global};
use thiserror::Error;
use tickets::{GroupSeats, named_all};

/// The agreements of a world's groups and of its log, before they are named. The names of a world are picked from them.
#[derive(Drop)]
pub struct Opening {
    /// The seats of all groups, by place.
    pub groups: Vec<GroupSeats>,
    pub log: UnnamedLog,
}

impl Opening {
    /// Makes the agreements for the groups of these tables and for an empty log, which may have `log_limit` entries. Returns
    /// NoMemory if an allocation fails; nothing is left then.
    pub fn open(alloc: Global, tables: &Tables, log_limit: LogLimit) -> Result<Opening, NoMemory>
        ensures groups { IfOk result (λ opening. AreOpenedFor tables.now opening.groups.items) }
        ensures limit { IfOk result (λ opening. opening.log.most ≡ log_limit) }
    {
        let groups = open_groups(alloc, tables)?;
        let log = UnnamedLog::with_limit(alloc, log_limit)?;
        Ok(Opening { groups, log })
    }
}

/// Why no world was opened.
#[derive(Clone, Copy, Debug, Drop, Error, PartialEq, Eq)]
pub enum OpenFault {
    /// There was no memory to check the tables or to build the world.
    #[error("no memory")]
    NoMemory,
    #[error("the number of executors is not 1 to {most}", most = MOST_EXECUTORS)]
    BadExecutors,
    /// The tables break the consistency condition of this number, and none of a lower one: 1 to 10, or 12 (TPC-C 5.11, clause
    /// 3.3.2).
    #[error("the tables break consistency condition {0}")]
    NotConsistent(u8),
    #[error("the log is not limited to 1 to {entries} entries, or an inbox to 1 to {messages} messages", entries = MOST_ENTRIES, messages = INBOX)]
    BadLimit,
}

impl From<AllocError> for OpenFault {
    ghost use Rattle.std.specs.Prelude.{◌≡◌};
    ghost use Rattle.world.specs.declared.opening.OpenFault.TheVariants.{NoMemory};

    ghost from_gives = { λ _ fault. fault ≡ NoMemory };

    fn from(_error: AllocError) -> OpenFault {
        OpenFault::NoMemory
    }
}

impl<J: Names> World<J> {
    /// Opens a world over these tables. Its log is empty and nothing is in flight.
    ///
    /// Returns BadExecutors exactly if there are not 1 to 16 executors; else BadLimit exactly if a limit is out of its range;
    /// else NotConsistent with the least condition that the tables break; or NoMemory if an allocation fails. Nothing is left
    /// after an error.
    pub fn open(
        alloc: Global,
        tables: Tables,
        setup: &Setup,
        opening: Opening,
    ) -> Result<World<J>, OpenFault>
        requires named { IsNamedFor J.LogNames J.GroupNames tables opening }
        requires limit { opening.log.most ≡ setup.now.limits.log }
        ensures fits { IfOk result (λ world. Fits tables [] (together world)) }
        ensures new { IfOk result (λ world. IsNew tables setup.now world) }
        ensures consistent { OnOk result (Consistent tables) }
        ensures bad_executors { IsErrAnd result (λ fault. fault ≡ OpenFault.BadExecutors)
            ↔ ¬ CanHave setup.now.executors }
        ensures bad_limit { IsErrAnd result (λ fault. fault ≡ OpenFault.BadLimit)
            ↔ (CanHave setup.now.executors × ¬ AreLimits setup.now.limits) }
        ensures fault { IfErr result (λ fault. IsFaultOf tables fault) }
    {
        let limits = setup.limits()?;
        if let Some(condition) = first_broken(alloc, &tables)? {
            return Err(OpenFault::NotConsistent(condition));
        }
        let world = World::over(alloc, tables, setup, limits, opening)?;
        Ok(world)
    }

    // A world over consistent tables.
    fn over(
        alloc: Global,
        tables: Tables,
        setup: &Setup,
        limits: (LogLimit, InboxLimit),
        opening: Opening,
    ) -> Result<World<J>, NoMemory>
        requires possible { IsPossible setup.now }
        requires log { (limits.0 ≡ setup.now.limits.log) × (limits.0 ≡ opening.log.most) }
        requires inbox { limits.1 ≡ setup.now.limits.inbox }
        requires consistent { Consistent tables }
        requires named { IsNamedFor J.LogNames J.GroupNames tables opening }
        ensures fits { IfOk result (λ world. Fits tables [] (together world)) }
        ensures new { IfOk result (λ world. IsNew tables setup.now world) }
    {
        let Opening { groups, log } = opening;
        let (log_limit, inbox_limit) = limits;
        let scale = tables.scale();
        let executors = setup.executors;
        let placements = Placements::open(alloc, &scale, &Routing::opening(&scale, executors))?;
        let parked = Queue::open(alloc)?;
        let inboxes = Queues::open(alloc, executors as usize)?;
        let outboxes = Queues::open(alloc, executors as usize)?;
        let inbox = Queue::open(alloc)?;
        let outbox = Queue::open(alloc)?;
        let active = Slots::open(alloc)?;
        let (boxes, seats) = named_all::<J>(alloc, scale.warehouses, groups)?;
        let (catalog, slices) = cut(alloc, tables, boxes)?;
        let shards = open_shards(alloc, slices)?;
        let (book, lanes) = LogBook::<J>::open(alloc, log)?;
        let sessions = open_sessions(alloc, lanes)?;
        let parts = Parts {
            catalog,
            shards,
            inbox,
            outbox,
            desk: Desk {
                admitted: 0,
                sessions,
                active,
            },
            log: Log::new(book, seats),
        };
        Ok(World {
            core: Core {
                parts,
                placements,
                parked,
                log_limit,
                inbox_limit,
                inboxes,
                outboxes,
            },
        })
    }
}

// The sessions with these passes and seats. Each pass is at the desk.
fn open_sessions<J: Names>(
    alloc: Global,
    lanes: Vec<(Pass<J>, SessionSeat<J>)>,
) -> Result<Vec<SessionDesk<J>>, NoMemory>
    ensures { IfOk result (λ sessions. sessions.items ≡ map session_with lanes.items) }
{
    let mut sessions = Vec::with_capacity(alloc, lanes.len())?;
    for (pass, seat) in lanes {
        sessions.push(SessionDesk {
            seat,
            pass: Some(pass),
        })?;
    }
    Ok(sessions)
}
