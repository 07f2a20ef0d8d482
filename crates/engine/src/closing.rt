//! The outcome, once all executors have ended.
ghost use Rattle.std.specs.Prelude.{◌≡◌, ◌<◌, ◌≤◌, ◌+◌, ℕ, List, [], ◌∷◌, ◌++◌, All, IfOk, IfSome, OnOk, drop, length};
ghost use Rattle.partitions.specs.Parts.{shared_of};
ghost use Rattle.schema.specs.Database.{IsWithinScale};
ghost use Rattle.commit_log.specs.Items.{items_of};
ghost use Rattle.requests.specs.declared.script.Part.{Part};
ghost use Rattle.requests.specs.Script.{AreNumberedByPlace};
ghost use Rattle.engine.specs.Interactive.{asked_by, recorded_by};
ghost use Rattle.engine.specs.Closing.{tables_left, want_of_kind, wants_of_all, AreSettled, IsBackAt, IsSettledAt};
ghost use Rattle.engine.specs.Outcome.{IsOutcomeOf};
ghost use Rattle.engine.specs.Rules.{rules_of};
ghost use Rattle.engine.specs.Served.{ServedEach};
ghost use Rattle.engine.specs.Sessions.{AreAskedFrom};

use crate::belongings::Executor;
use crate::engine::Engine;
use crate::place::Place;
use crate::{Answers, CloseFault, Gate, Idle, Left, Outcome, ServeNames};
use commit_log::Log;
use executor::CountedShard;
use groups::{Extent, Kind, Mode, Prefix, Want};
use local_locks::Asked;
use partitions::Catalog;
use requests::Script;
use rows::SESSIONS;
use schema::NoMemory;
use slices::{Slice, whole};
use std::alloc::Global;
use std::sync::Mutex;
use tickets::Claims;
use wait_die::Holder;

/// Returns the log, the answers and the last tables. It audits each session against the log, and claims each group and has the
/// log compare the claim. So the answers are those of the log, and the tables are those that its transactions have left. Returns
/// `Unsettled` if something is not back: a session that asked interactively, in the order of the numbers, a slice or a claim.
/// Returns NoMemory if an allocation fails.
pub fn close<J: ServeNames, G: Gate + Drop>(
    alloc: Global,
    engine: Engine<'_, J, G>,
    executors: Vec<Executor<J>>,
    catalog: Catalog,
    left: Vec<Left<J>>,
    idle: Idle<J>,
    scripts: &[Script],
) -> Result<Outcome, CloseFault>
    requires scripts { J.scripts ≡ scripts.now }
    requires catalog { catalog ≡ shared_of J.opening }
    requires within { IsWithinScale J.opening }
    ensures outcome { IfOk result (λ outcome.
        IsOutcomeOf J.opening J.most (scripts.now ++ outcome.asked.items) outcome) }
    ensures asked { IfOk result (λ outcome. outcome.asked.items ≡ asked_by left.items) }
    ensures numbered { IfOk result (λ outcome. All AreNumberedByPlace outcome.asked.items) }
    ensures recorded { IfOk result (λ outcome.
        drop (length scripts.now) outcome.answers.items ≡ recorded_by left.items) }
    ensures all { IfOk result (λ outcome.
        length scripts.now + length outcome.asked.items ≡ idle.first) }
{
    if scripts.len() > idle.first || left.len() != idle.first - scripts.len() {
        return Err(CloseFault::Unsettled);
    }
    let Engine {
        scale,
        log,
        places,
        ..
    } = engine;
    let mut log = log.into_inner();
    let mut answers = audit_served(alloc, &mut log, places, scripts)?;
    let asked = audit_left(alloc, &mut log, left, &mut answers)?;
    audit_idle(&mut log, idle);
    let slices = settle_all(alloc, &mut log, scale.get().warehouses, executors)?;
    let tables = whole(catalog, slices)?;
    let _ = tables.scale();
    let _ = log.entries();
    Ok(Outcome {
        log: log.into_entries(),
        tables,
        answers,
        asked,
    })
}

// Appends an item.
fn put<T: Drop>(items: &mut Vec<T>, item: T) -> Result<(), NoMemory>
    ensures { OnOk result (items.new.items ≡ items.old.items ++ item ∷ []) }
{
    Ok(items.push(item)?)
}

// ---- the sessions

// Audits the sessions that have a script: each has logged exactly its entries in the log. Returns their answers.
fn audit_served<J: ServeNames>(
    alloc: Global,
    log: &mut Log<J>,
    places: Vec<Mutex<Place<'_, J>>>,
    scripts: &[Script],
) -> Result<Vec<Answers>, CloseFault>
    requires scripts { J.scripts ≡ scripts.now }
    ensures count { IfOk result (λ answers. length answers.items ≡ length scripts.now) }
    ensures each { IfOk result (λ answers.
        ServedEach (rules_of J.opening J.most) scripts.now log.old answers.items) }
    ensures same { log.new ≡ log.old }
{
    let mut places = places.into_iter();
    let mut answers = Vec::new(alloc);
    for session in 0..scripts.len() {
        let Some(place) = places.next() else {
            return Err(CloseFault::Unsettled);
        };
        let Some(ready) = place.into_inner().into_session() else {
            return Err(CloseFault::Unsettled);
        };
        let Some(recorded) = ready.audit(log, session) else {
            return Err(CloseFault::Unsettled);
        };
        put(&mut answers, recorded)?;
    }
    Ok(answers)
}

// Audits the sessions that asked interactively. Returns what they have asked; appends their answers to those of the scripts.
fn audit_left<J: ServeNames>(
    alloc: Global,
    log: &mut Log<J>,
    left: Vec<Left<J>>,
    answers: &mut Vec<Answers>,
) -> Result<Vec<Script>, CloseFault>
    ensures asked { IfOk result (λ asked. asked.items ≡ asked_by left.items) }
    ensures numbered { IfOk result (λ asked. All AreNumberedByPlace asked.items) }
    ensures recorded { IfOk result (λ _.
        answers.new.items ≡ answers.old.items ++ recorded_by left.items) }
    ensures each { IfOk result (λ _. (scripts : List (List Part))
        → AreAskedFrom (length answers.old.items) scripts left.items
        → ServedEach (rules_of J.opening J.most) scripts log.old answers.old.items
        → ServedEach (rules_of J.opening J.most) scripts log.old answers.new.items) }
    ensures same { log.new ≡ log.old }
{
    let mut asked = Vec::with_capacity(alloc, left.len())?;
    for session in left {
        let Some((script, recorded)) = session.audit(log, answers.len()) else {
            return Err(CloseFault::Unsettled);
        };
        put(&mut asked, script)?;
        put(answers, recorded)?;
    }
    Ok(asked)
}

// Audits the sessions that were not used: the log has no entry of theirs.
fn audit_idle<J: ServeNames>(log: &mut Log<J>, idle: Idle<J>)
    ensures none { (s : ℕ) → idle.first ≤ s → s < SESSIONS → items_of s log.old ≡ [] }
    ensures same { log.new ≡ log.old }
{
    let Idle { first, mut lanes } = idle;
    for _session in first..SESSIONS {
        let Some((mut pass, _seat)) = lanes.next() else {
            unreachable!()
        };
        log.audit(&mut pass);
    }
}

// ---- the tables

// The slices of all warehouses, in order. The content of each of their groups is what the log's transactions have left.
fn settle_all<J: ServeNames>(
    alloc: Global,
    log: &mut Log<J>,
    warehouses: u32,
    executors: Vec<Executor<J>>,
) -> Result<Vec<Slice<J>>, CloseFault>
    requires { warehouses ≡ J.opening.scale.warehouses }
    ensures settled { IfOk result (λ slices.
        AreSettled J.opening (tables_left J.opening log.old) slices.items) }
    ensures same { log.new ≡ log.old }
{
    let mut executors = executors;
    let mut slices = Vec::with_capacity(alloc, warehouses as usize)?;
    for place in 0..warehouses {
        let home = place + 1;
        let Some(slice) = slice_of(&mut executors, home) else {
            return Err(CloseFault::Unsettled);
        };
        let Some(slice) = settle(alloc, log, slice)? else {
            return Err(CloseFault::Unsettled);
        };
        put(&mut slices, slice)?;
    }
    Ok(slices)
}

// The slice of a warehouse, if an executor has its shard.
fn slice_of<J: ServeNames>(executors: &mut Vec<Executor<J>>, home: u32) -> Option<Slice<J>>
    ensures { IfSome result (IsBackAt J.opening home) }
{
    let shard = shard_of(executors, home)?;
    if shard.home() != home {
        return None;
    }
    let slice = Box::into_inner(shard).into_slice();
    let _ = slice.partition();
    Some(slice)
}

// The shard of a warehouse, at whichever executor it is.
fn shard_of<J: ServeNames>(
    executors: &mut Vec<Executor<J>>,
    home: u32,
) -> Option<Box<CountedShard<J>>> {
    for executor in executors.iter_mut() {
        if let Some(shard) = executor.shards.take(home) {
            return Some(shard);
        }
    }
    None
}

// Claims all groups of the slice and has the log compare the claims: the content of each group is what the log's transactions
// have left. Returns `None` if a claim is still out.
fn settle<J: ServeNames>(
    alloc: Global,
    log: &mut Log<J>,
    mut slice: Slice<J>,
) -> Result<Option<Slice<J>>, NoMemory>
    requires { IsBackAt J.opening slice.home slice }
    ensures settled { IfOk result (λ settled.
        IfSome settled (IsSettledAt J.opening (tables_left J.opening log.old) slice.home)) }
    ensures same { log.new ≡ log.old }
{
    let home = slice.home();
    let last = Holder {
        age: u64::MAX,
        place: 0,
    };
    match slice.ask(alloc, last, &all_groups(home))? {
        Asked::Granted(claims) => {
            let mut held = one(alloc, Claims::new(claims))?;
            log.look(&mut held);
            Ok(Some(slice))
        }
        _ => Ok(None),
    }
}

fn one<J: ServeNames>(alloc: Global, claims: Claims<J>) -> Result<Vec<Claims<J>>, NoMemory>
    ensures { IfOk result (λ held. held.items ≡ claims ∷ []) }
{
    let mut held = Vec::with_capacity(alloc, 1)?;
    held.push_reserved(claims);
    Ok(held)
}

// All groups of a warehouse, exclusively.
fn all_groups(home: u32) -> [Want; 6]
    ensures { result ≡ wants_of_all home }
{
    [
        all_of(home, Kind::Warehouse),
        all_of(home, Kind::District),
        all_of(home, Kind::Customers),
        all_of(home, Kind::Orders),
        all_of(home, Kind::History),
        all_of(home, Kind::Stock),
    ]
}

fn all_of(w_id: u32, kind: Kind) -> Want
    ensures { result ≡ want_of_kind w_id kind }
{
    Want {
        extent: Extent::Every(Prefix { kind, w_id }),
        mode: Mode::Exclusive,
    }
}
