//! Serves scripts and clients by executors, each in a thread of its own.
ghost use Rattle.std.specs.Prelude.{◌≡◌, ◌≤◌, ◌+◌, ◌++◌, drop, length, All, IfOk, OnOk, IfErr, IfSome, IfNone};
ghost use Rattle.schema.specs.Consistency.{Consistent};
ghost use Rattle.commit_log.specs.Limits.{AreLimits};
ghost use Rattle.range_moves.specs.Orders.{IsWithin};
ghost use Rattle.requests.specs.Script.{AreNumberedByPlace};
ghost use Rattle.engine.specs.Interactive.{HasAskedNothing, asked_by, recorded_by};
ghost use Rattle.engine.specs.Faults.{AreWithin, IsFaultOf, IsFirstBad, IsOfServing};
ghost use Rattle.engine.specs.Opening.{IsNamedFor};
ghost use Rattle.engine.specs.Outcome.{IsOutcomeOf};

use crate::belongings::Executor;
use crate::closing::close;
use crate::engine::Engine;
use crate::executing::AtWork;
use crate::opening::{Opened, Opening, open};
use crate::threads::{Meanwhile, Work, work_on_each};
use crate::{
    Client, CloseFault, Gate, Left, Outcome, ServeFault, ServeNames, ServeOptions, Session,
};
use commit_log::LogLimit;
use consistency::first_broken;
use range_moves::MoveOrder;
use rows::SESSIONS;
use schema::Tables;
use std::alloc::Global;
use std::marker::Brand;
use std::sync::{Mutex, Wait};
use std::thread::Threads;

/// Serves scripts and a client, from the opening tables. Script s is session s, which asks its requests one after the other. The
/// client asks interactively by the sessions after these (`ServeOptions::sessions`). The executors share the tables' warehouses, each
/// in a thread of its own: warehouse w is at executor `(w-1) * executors / warehouses`. A request of a script that was refused with
/// Died or NoMemory is asked again until it was asked `tries` times. The gate is called for each request that the check accepts and
/// that begins. The moves are made meanwhile, one after the other, all of them: the warehouses of a move's range go to its
/// executor, and requests go on.
///
/// The outcome has what each session of the client asked, as a script (`asked`), and its answers behind those of the scripts.
///
/// Errors: `BadMove` is the place, from 0, of the first move that there can't be: its range ends before it begins, or one of its
/// numbers is out of range. It is checked before anything else. `NotConsistent` is the least of the consistency conditions 1 to
/// 10 and 12 that the opening tables break (TPC-C 5.11, clause 3.3.2); it is checked before a thread starts. `NoThread` if a
/// thread could not be started; all that were started have ended then. `NoMemory` if an allocation failed: as the opening tables
/// were checked, as the engine was opened or its threads were started, or for the outcome. `Unsettled` if something was not back
/// once all executors had ended, such as a session of the client, in its place.
pub fn serve<R: Threads + Wait + Sync, G: Gate + Send + Sync + Drop, C: Client>(
    rt: &R,
    alloc: Global,
    opening: Tables,
    options: &ServeOptions<'_>,
    gate: G,
    client: &C,
) -> Result<Outcome, ServeFault>
    requires most { length options.now.scripts.now + options.now.sessions ≤ SESSIONS }
    requires executors { 1 ≤ options.now.executors }
    requires limits { AreLimits options.now.limits }
    ensures outcome { IfOk result (λ outcome. IsOutcomeOf opening options.now.limits.log
        (options.now.scripts.now ++ outcome.asked.items) outcome) }
    ensures sessions { IfOk result (λ outcome.
        length outcome.asked.items ≡ options.now.sessions) }
    ensures numbered { IfOk result (λ outcome. All AreNumberedByPlace outcome.asked.items) }
    ensures scripts { options.now.sessions ≡ 0 → IfOk result
        (IsOutcomeOf opening options.now.limits.log options.now.scripts.now) }
    ensures promised { IfOk result (λ outcome. C.promises client.now opening outcome.asked.items
        (drop (length options.now.scripts.now) outcome.answers.items)) }
    ensures consistent { OnOk result (Consistent opening) }
    ensures within { OnOk result (AreWithin opening options.now.executors options.now.moves.now) }
    ensures fault { IfErr result (λ fault.
        IsFaultOf opening options.now.executors options.now.moves.now fault) }
{
    if let Some(place) = first_bad(options.moves, opening.scale().warehouses, options.executors) {
        return Err(ServeFault::BadMove(place));
    }
    if let Some(condition) = first_broken(alloc, &opening)? {
        return Err(ServeFault::NotConsistent(condition));
    }
    let log_limit = LogLimit::new(options.limits.log);
    let sessions = options.scripts.len() + options.sessions;
    let opened = Opening::open(alloc, opening, sessions, log_limit)?;
    serve_from::<Brand, R, G, C>(rt, alloc, opened, options, gate, client)
}

// The place of the first move that there can't be.
fn first_bad(moves: &[MoveOrder], warehouses: u32, executors: u32) -> Option<usize>
    ensures bad { IfSome result (IsFirstBad warehouses executors moves.now) }
    ensures none { IfNone result (All (IsWithin warehouses executors) moves.now) }
{
    for (place, order) in moves.iter().enumerate() {
        if !order.is_within(warehouses, executors) {
            return Some(place);
        }
    }
    None
}

// Serves scripts and the client by an engine whose type parameter is `J`.
fn serve_from<
    J: ServeNames + Send + Sync,
    R: Threads + Wait + Sync,
    G: Gate + Send + Sync + Drop,
    C: Client,
>(
    rt: &R,
    alloc: Global,
    opening: Opening,
    options: &ServeOptions<'_>,
    gate: G,
    client: &C,
) -> Result<Outcome, ServeFault>
    requires limits { AreLimits options.now.limits }
    requires named { IsNamedFor J.LogNames J.GroupNames J.scripts J.closing
        options.now.scripts.now opening }
    requires some { 1 ≤ options.now.executors }
    requires most { opening.sessions ≤ SESSIONS }
    ensures outcome { IfOk result (λ outcome. IsOutcomeOf opening.tables J.most
        (options.now.scripts.now ++ outcome.asked.items) outcome) }
    ensures asked { IfOk result (λ outcome.
        length options.now.scripts.now + length outcome.asked.items ≡ opening.sessions) }
    ensures numbered { IfOk result (λ outcome. All AreNumberedByPlace outcome.asked.items) }
    ensures promised { IfOk result (λ outcome.
        C.promises client.now opening.tables outcome.asked.items
        (drop (length options.now.scripts.now) outcome.answers.items)) }
    ensures fault { IfErr result (λ fault. IsOfServing fault) }
{
    let Opened {
        engine,
        executors,
        catalog,
        sessions,
        idle,
    } = open::<J, G>(alloc, opening, options, gate)?;
    let (executors, left) = work_all(rt, alloc, &engine, executors, client, sessions)?;
    match close(
        alloc,
        engine,
        executors,
        catalog,
        left,
        idle,
        options.scripts,
    ) {
        Ok(outcome) => Ok(outcome),
        Err(CloseFault::NoMemory) => Err(ServeFault::NoMemory),
        Err(CloseFault::Unsettled) => Err(ServeFault::Unsettled),
    }
}

// Runs all executors, each in a thread of its own, and the client meanwhile. Returns the executors and the client's sessions once
// all threads have ended. If a thread can't be started, stops the others and returns the fault.
fn work_all<
    J: ServeNames + Send + Sync,
    G: Gate + Send + Sync,
    R: Threads + Wait + Sync,
    C: Client,
>(
    rt: &R,
    alloc: Global,
    engine: &Engine<'_, J, G>,
    executors: Vec<Executor<J>>,
    client: &C,
    sessions: Vec<Session<J>>,
) -> Result<(Vec<Executor<J>>, Vec<Left<J>>), ServeFault>
    requires { All HasAskedNothing sessions.items }
    ensures promised { IfOk result (λ r.
        C.promises client.now J.opening (asked_by r.1.items) (recorded_by r.1.items)) }
    ensures fault { IfErr result (λ fault. IsOfServing fault) }
{
    let mut places = Vec::with_capacity(alloc, executors.len())?;
    for executor in executors {
        let Ok(()) = places.push(Mutex::new(Some(executor))) else {
            return Err(ServeFault::NoMemory);
        };
    }
    let crew = Crew {
        rt,
        alloc,
        engine,
        executors: places,
    };
    let asking = Asking {
        rt,
        alloc,
        engine,
        client,
        sessions,
    };
    // Room for the executors' return: without it, what is served would be lost at the end.
    let back = Vec::with_capacity(alloc, crew.executors.len())?;
    let left = work_on_each(rt, alloc, &crew, crew.executors.len(), asking)?;
    Ok((crew.into_executors(back)?, left))
}

/// A client, its sessions, and the engine by which they ask.
#[derive(Drop)]
struct Asking<'e, 'a, J: ServeNames, G: Gate, R: Wait, C: Client> {
    rt: &'e R,
    alloc: Global,
    engine: &'e Engine<'a, J, G>,
    client: &'e C,
    sessions: Vec<Session<J>>,
}

/// What the executors' threads share.
#[derive(Drop)]
struct Crew<'e, 'a, J: ServeNames, G: Gate, R: Wait> {
    rt: &'e R,
    alloc: Global,
    engine: &'e Engine<'a, J, G>,
    /// By the executors' numbers; `None` while an executor is at work in its thread.
    executors: Vec<Mutex<Option<Executor<J>>>>,
}

impl<J: ServeNames, G: Gate, R: Wait> Crew<'_, '_, J, G, R> {
    // Puts the executors into this list, once all threads have ended. An executor that is not back is `Unsettled`.
    fn into_executors(self, mut back: Vec<Executor<J>>) -> Result<Vec<Executor<J>>, ServeFault>
        ensures { IfErr result (λ fault. IsOfServing fault) }
    {
        let Crew { executors, .. } = self;
        for executor in executors {
            let Some(executor) = executor.into_inner() else {
                return Err(ServeFault::Unsettled);
            };
            let Ok(()) = back.push(executor) else {
                return Err(ServeFault::NoMemory);
            };
        }
        Ok(back)
    }
}

impl<J: ServeNames, G: Gate, R: Wait> Work for Crew<'_, '_, J, G, R> {
    fn work(&self, number: usize) {
        let Crew {
            rt,
            alloc,
            engine,
            executors,
        } = self;
        let Some(place) = executors.get(number) else {
            return engine.stop();
        };
        let Some(own) = place.lock(*rt).take() else {
            return engine.stop();
        };
        let own = AtWork {
            rt: *rt,
            alloc: *alloc,
            engine: *engine,
            own,
        }
        .run();
        *place.lock(*rt) = Some(own);
    }

    fn stop(&self) {
        self.engine.stop();
    }
}

impl<J: ServeNames + Send + Sync, G: Gate, R: Threads + Wait + Sync, C: Client> Meanwhile<
    Vec<Left<J>>,
> for Asking<'_, '_, J, G, R, C> {
    ghost use Rattle.std.specs.Prelude.{All};
    ghost use Rattle.engine.specs.Interactive.{HasAskedNothing, asked_by, recorded_by};

    ghost may_run = { λ asking. All HasAskedNothing asking.sessions.items };

    ghost gives = { λ asking left. C.promises asking.client.now J.opening (asked_by left.items) (recorded_by left.items) };

    // Runs the client. If it keeps a session back, stops the executors.
    fn run(self) -> Vec<Left<J>> {
        let Asking {
            rt,
            alloc,
            engine,
            client,
            sessions,
        } = self;
        let count = sessions.len();
        let left = client.ask_all(rt, alloc, engine, sessions);
        if left.len() < count {
            engine.stop();
        }
        left
    }
}
