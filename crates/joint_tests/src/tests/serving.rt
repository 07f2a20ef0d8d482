ghost use Rattle.std.specs.Prelude.{◌≡◌};
ghost use Rattle.commit_log.specs.Limits.{AreLimits};

use super::*;
use commit_log::Limits;
use engine::{Gate, MoveOrder, NoClient, OpenGate, Outcome, ServeFault, ServeOptions, serve};
use requests::{Part, Script};
use std::alloc::Global;
use std::process::Abort;
use std::sync::Wait;
use std::sync::atomic::{AtomicU64, Ordering};
use std::thread::{Threads, yield_now};

// How often a thread yields at most before it goes on.
const MOST_TURNS: u32 = 10_000_000;

// One payment of that amount at a warehouse.
fn script(alloc: Global, w_id: u32, amount: u32) -> Result<Script, Fail> {
    scripted(alloc, w_id, amount, 1)
}

// `count` payments of that amount at a warehouse.
fn scripted(alloc: Global, w_id: u32, amount: u32, count: u32) -> Result<Script, Fail> {
    let mut parts = Vec::new(alloc);
    for number in 0..count {
        let request = payment_at(w_id, amount);
        parts.push(Part { number, request })?;
    }
    Ok(Script::checked_new(parts).ok_or("a script")?)
}

// 25 payments at a warehouse by a customer of another.
pub(super) fn crossing(alloc: Global, w_id: u32, customer_w_id: u32) -> Result<Script, Fail> {
    let mut parts = Vec::new(alloc);
    for number in 0..25 {
        let request = payment_by(w_id, customer_w_id, 100);
        parts.push(Part { number, request })?;
    }
    Ok(Script::checked_new(parts).ok_or("a script")?)
}

// Whether the count reaches this number before the thread has yielded MOST_TURNS times.
fn comes_to(count: &AtomicU64, least: u64) -> bool {
    for _ in 0..MOST_TURNS {
        if count.load(Ordering::SeqCst) >= least {
            return true;
        }
        yield_now();
    }
    false
}

// The number of requests that were carried out.
pub(super) fn done_in(outcome: &Outcome) -> usize {
    let mut count: usize = 0;
    for answers in &outcome.answers {
        for answer in answers.as_slice() {
            if answer.is_ok() {
                count = count.saturating_add(1);
            }
        }
    }
    count
}

// At this gate each of two executors waits for the other before it takes the log's lock. It yields as it waits, and goes on after
// MOST_TURNS yields.
#[derive(Drop)]
struct BothEnter {
    entered: AtomicU64,
    met: AtomicU64,
    answered: AtomicU64,
}

impl BothEnter {
    fn new() -> BothEnter {
        BothEnter {
            entered: AtomicU64::new(0),
            met: AtomicU64::new(0),
            answered: AtomicU64::new(0),
        }
    }
}

impl Gate for BothEnter {
    fn asked(&self, _session: u32, _number: u32, _request: &Request) {}

    fn commit(&self, _session: u32, _number: u32, _request: &Request) {
        self.entered.fetch_add(1, Ordering::SeqCst);
        if comes_to(&self.entered, 2) {
            self.met.fetch_add(1, Ordering::SeqCst);
        }
    }

    fn answered(&self, _session: u32, _number: u32, _request: &Request) {
        self.answered.fetch_add(1, Ordering::SeqCst);
    }
}

// If executors served one after the other, the first one would not have met the second. The gate is not called for a request that
// the check refuses.
#[test]
fn executors_serve_at_the_same_time(rt: HostRuntime) -> Result<(), Fail> {
    let alloc = rt.alloc();
    let scripts = [
        script(alloc, 1, 100)?,
        script(alloc, 2, 100)?,
        script(alloc, 1, 99)?,
    ];
    let gate = BothEnter::new();
    let outcome = serve(
        &rt,
        alloc,
        warehouses(alloc, 2)?,
        &by(&scripts, 2, &[]),
        &gate,
        &NoClient,
    )?;
    assert_eq!(rt; outcome.log.len(), 2);
    assert_eq!(rt; gate.entered.load(Ordering::SeqCst), 2);
    assert_eq!(rt; gate.met.load(Ordering::SeqCst), 2);
    assert_eq!(rt; gate.answered.load(Ordering::SeqCst), 2);
    Ok(())
}

// At this gate the executor that is to log the request of one session waits until the other session is answered.
#[derive(Drop)]
struct OneWaits {
    waits: u32,
    answered: AtomicU64,
    met: AtomicU64,
}

impl Gate for OneWaits {
    fn asked(&self, _session: u32, _number: u32, _request: &Request) {}

    fn commit(&self, session: u32, _number: u32, _request: &Request) {
        if session == self.waits && comes_to(&self.answered, 1) {
            self.met.fetch_add(1, Ordering::SeqCst);
        }
    }

    fn answered(&self, session: u32, _number: u32, _request: &Request) {
        if session != self.waits {
            self.answered.fetch_add(1, Ordering::SeqCst);
        }
    }
}

// The session of this number waits for the other one, whose request is logged first.
fn one_waits<R: Threads + Wait + Abort + Sync>(
    rt: &R,
    alloc: Global,
    waits: u32,
) -> Result<(), Fail> {
    let scripts = [script(alloc, 1, 100)?, script(alloc, 2, 100)?];
    let gate = OneWaits {
        waits,
        answered: AtomicU64::new(0),
        met: AtomicU64::new(0),
    };
    let outcome = serve(
        rt,
        alloc,
        warehouses(alloc, 2)?,
        &by(&scripts, 2, &[]),
        &gate,
        &NoClient,
    )?;
    assert_eq!(rt; outcome.log.len(), 2);
    assert_eq!(rt; gate.met.load(Ordering::SeqCst), 1);
    let first = outcome.log.first().ok_or("an entry")?;
    assert_eq!(rt; first.session, if waits == 0 { 1 } else { 0 });
    Ok(())
}

#[test]
fn the_first_executor_waits_for_the_second(rt: HostRuntime) -> Result<(), Fail> {
    one_waits(&rt, rt.alloc(), 0)
}

#[test]
fn the_second_executor_waits_for_the_first(rt: HostRuntime) -> Result<(), Fail> {
    one_waits(&rt, rt.alloc(), 1)
}

// Eight sessions at two warehouses, by one, two and three executors: each payment is carried out.
#[test]
fn all_that_is_asked_is_carried_out(rt: HostRuntime) -> Result<(), Fail> {
    let alloc = rt.alloc();
    for executors in 1..4 {
        let scripts = [
            scripted(alloc, 1, 100, 25)?,
            scripted(alloc, 2, 100, 25)?,
            scripted(alloc, 1, 100, 25)?,
            scripted(alloc, 2, 100, 25)?,
            scripted(alloc, 1, 100, 25)?,
            scripted(alloc, 2, 100, 25)?,
            scripted(alloc, 1, 100, 25)?,
            scripted(alloc, 2, 100, 25)?,
        ];
        let tables = warehouses(alloc, 2)?;
        let outcome = serve(
            &rt,
            alloc,
            tables,
            &by(&scripts, executors, &[]),
            OpenGate,
            &NoClient,
        )?;
        assert_eq!(rt; done_in(&outcome), 200);
        assert_eq!(rt; outcome.log.len(), 200);
    }
    Ok(())
}

// Four sessions at two warehouses that move back and forth between two executors: each payment is carried out.
#[test]
fn all_that_is_asked_is_carried_out_while_warehouses_move(rt: HostRuntime) -> Result<(), Fail> {
    let alloc = rt.alloc();
    let scripts = [
        scripted(alloc, 1, 100, 25)?,
        scripted(alloc, 2, 100, 25)?,
        scripted(alloc, 1, 100, 25)?,
        scripted(alloc, 2, 100, 25)?,
    ];
    let moves = [
        order(1, 1, 1),
        order(1, 2, 0),
        order(2, 2, 1),
        order(1, 2, 1),
    ];
    let tables = warehouses(alloc, 2)?;
    let outcome = serve(
        &rt,
        alloc,
        tables,
        &by(&scripts, 2, &moves),
        OpenGate,
        &NoClient,
    )?;
    assert_eq!(rt; done_in(&outcome), 100);
    assert_eq!(rt; outcome.log.len(), 100);
    Ok(())
}

// At this gate a thread yields 0 to 1,000 times before it logs a request, and once the request is answered. The numbers are drawn
// from a seed.
#[derive(Drop)]
pub(super) struct YieldsBySeed {
    pub(super) drawn: AtomicU64,
}

impl YieldsBySeed {
    fn pause(&self) {
        let drawn = self
            .drawn
            .load(Ordering::SeqCst)
            .wrapping_mul(6_364_136_223_846_793_005)
            .wrapping_add(1_442_695_040_888_963_407);
        self.drawn.store(drawn, Ordering::SeqCst);
        for _ in 0..(drawn >> 33) % 1001 {
            yield_now();
        }
    }
}

impl Gate for YieldsBySeed {
    fn asked(&self, _session: u32, _number: u32, _request: &Request) {}

    fn commit(&self, _session: u32, _number: u32, _request: &Request) {
        self.pause();
    }

    fn answered(&self, _session: u32, _number: u32, _request: &Request) {
        self.pause();
    }
}

// Four sessions, by customers of the other warehouse, while twenty moves take the warehouses back and forth between two executors,
// and threads yield by a seed: each payment is carried out.
#[test]
fn all_is_carried_out_at_gates_that_yield(rt: HostRuntime) -> Result<(), Fail> {
    let alloc = rt.alloc();
    let mut moves = Vec::new(alloc);
    for to in 0..20 {
        moves.push(order(1, 2, to % 2))?;
    }
    for seed in 1..5 {
        let scripts = [
            crossing(alloc, 1, 2)?,
            crossing(alloc, 2, 1)?,
            crossing(alloc, 1, 2)?,
            crossing(alloc, 2, 1)?,
        ];
        let options = ServeOptions {
            scripts: &scripts,
            sessions: 0,
            executors: 2,
            tries: 10_000,
            limits: Limits::greatest(),
            moves: moves.as_slice(),
        };
        let gate = YieldsBySeed {
            drawn: AtomicU64::new(seed),
        };
        let outcome = serve(
            &rt,
            alloc,
            warehouses(alloc, 2)?,
            &options,
            &gate,
            &NoClient,
        )?;
        assert_eq!(rt; done_in(&outcome), 100);
        assert_eq!(rt; outcome.log.len(), 100);
    }
    Ok(())
}

// Inboxes hold one message, and each executor sends to the other, since the customers of all payments belong to the other
// warehouse; and the warehouses move back and forth: each payment is carried out.
#[test]
fn inboxes_of_one_message_are_enough(rt: HostRuntime) -> Result<(), Fail> {
    let alloc = rt.alloc();
    let scripts = [
        crossing(alloc, 1, 2)?,
        crossing(alloc, 2, 1)?,
        crossing(alloc, 1, 2)?,
        crossing(alloc, 2, 1)?,
        crossing(alloc, 1, 2)?,
        crossing(alloc, 2, 1)?,
    ];
    let moves = [order(1, 1, 1), order(2, 2, 0), order(1, 2, 1)];
    let options = ServeOptions {
        scripts: &scripts,
        sessions: 0,
        executors: 2,
        tries: 10_000,
        limits: Limits { log: 150, inbox: 1 },
        moves: &moves,
    };
    let outcome = serve(
        &rt,
        alloc,
        warehouses(alloc, 2)?,
        &options,
        OpenGate,
        &NoClient,
    )?;
    assert_eq!(rt; done_in(&outcome), 150);
    assert_eq!(rt; outcome.log.len(), 150);
    Ok(())
}

// This gate adds up the numbers of the requests that are asked, that are about to be logged, and that are answered.
#[derive(Drop)]
struct AddsNumbers {
    asked: AtomicU64,
    logged: AtomicU64,
    answered: AtomicU64,
}

impl Gate for AddsNumbers {
    fn asked(&self, _session: u32, number: u32, _request: &Request) {
        self.asked.fetch_add(u64::from(number), Ordering::SeqCst);
    }

    fn commit(&self, _session: u32, number: u32, _request: &Request) {
        self.logged.fetch_add(u64::from(number), Ordering::SeqCst);
    }

    fn answered(&self, _session: u32, number: u32, _request: &Request) {
        self.answered.fetch_add(u64::from(number), Ordering::SeqCst);
    }
}

// Parts of a script that have one number, and others that have none of the places: the log's entries and the gate have the numbers of
// the parts, in the order of the parts.
#[test]
fn parts_have_numbers_of_their_own(rt: HostRuntime) -> Result<(), Fail> {
    let alloc = rt.alloc();
    let numbers = [10, 10, 4_000_000_000, 10, 200];
    let mut parts = Vec::new(alloc);
    for number in numbers {
        let request = payment_at(1, 100);
        parts.push(Part { number, request })?;
    }
    let scripts = [Script::checked_new(parts).ok_or("a script")?];
    let gate = AddsNumbers {
        asked: AtomicU64::new(0),
        logged: AtomicU64::new(0),
        answered: AtomicU64::new(0),
    };
    let outcome = serve(
        &rt,
        alloc,
        warehouses(alloc, 2)?,
        &by(&scripts, 2, &[]),
        &gate,
        &NoClient,
    )?;
    let mut logged = Vec::new(alloc);
    for entry in &outcome.log {
        logged.push(entry.number)?;
    }
    assert_eq!(rt; logged.as_slice(), numbers.as_slice());
    assert_eq!(rt; gate.asked.load(Ordering::SeqCst), 4_000_000_230);
    assert_eq!(rt; gate.logged.load(Ordering::SeqCst), 4_000_000_230);
    assert_eq!(rt; gate.answered.load(Ordering::SeqCst), 4_000_000_230);
    Ok(())
}

// The place of the first move that there can't be is returned, before a thread starts.
#[test]
fn a_bad_move_is_recorded(rt: HostRuntime) -> Result<(), Fail> {
    let alloc = rt.alloc();
    let scripts = [script(alloc, 1, 100)?];
    let moves = [order(1, 1, 1), order(2, 1, 1), order(1, 3, 1)];
    let served = serve(
        &rt,
        alloc,
        warehouses(alloc, 2)?,
        &by(&scripts, 2, &moves),
        OpenGate,
        &NoClient,
    );
    assert!(rt; matches!(served, Err(ServeFault::BadMove(1))));
    Ok(())
}

// These scripts, by this many executors, with these moves; a request is tried a hundred times.
fn by<'a>(scripts: &'a [Script], executors: u32, moves: &'a [MoveOrder]) -> ServeOptions<'a>
    ensures scripts { result.scripts.now ≡ scripts.now }
    ensures alone { result.sessions ≡ 0 }
    ensures executors { result.executors ≡ executors }
    ensures limits { AreLimits result.limits }
{
    ServeOptions {
        scripts,
        sessions: 0,
        executors,
        tries: 100,
        limits: Limits::greatest(),
        moves,
    }
}

pub(super) fn order(lo: u32, hi: u32, to: u32) -> MoveOrder {
    MoveOrder { lo, hi, to }
}
