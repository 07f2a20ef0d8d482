ghost use Rattle.std.specs.Prelude.{◌≡◌, []};
ghost use Rattle.commit_log.specs.Limits.{AreLimits};

use super::serving::{YieldsBySeed, crossing, done_in, order};
use super::*;
use commit_log::Limits;
use engine::{
    Client, Engine, Gate, Left, OpenGate, ServeNames, ServeOptions, Session, meet, serve,
};
use requests::{OrderStatus, Refusal, Reply, Shown};
use std::alloc::Global;
use std::sync::Wait;
use std::sync::atomic::{AtomicU64, Ordering};
use std::thread::Threads;

// How often a request is asked at most that is refused with Died.
const MOST_TRIES: u32 = 10_000;

// One session pays; the other meets it and then asks for the customer's status.
#[derive(Drop)]
struct ReadsBack {
    // The number of entries that both sessions have seen once they met, and the number that the other has seen once it was
    // answered.
    met: AtomicU64,
    seen: AtomicU64,
    // The customer's debt by that answer, in cents.
    owed: AtomicU64,
}

// Asks the request until its answer is a place in the log.
fn ask_until_done<J: ServeNames, G: Gate>(
    rt: &impl Wait,
    alloc: Global,
    engine: &Engine<'_, J, G>,
    session: Session<J>,
    request: &Request,
) -> Option<Session<J>> {
    let mut session = session;
    for _ in 0..MOST_TRIES {
        let Ok(asked) = request.try_clone() else {
            return None;
        };
        let Ok((after, answer)) = session.ask(rt, alloc, engine, asked) else {
            return None;
        };
        session = after;
        match answer {
            Ok(_) => return Some(session),
            Err(Refusal::Died { .. }) => {}
            Err(_) => return None,
        }
    }
    None
}

impl ReadsBack {
    fn read_back<J: ServeNames, G: Gate>(
        &self,
        rt: &impl Wait,
        alloc: Global,
        engine: &Engine<'_, J, G>,
        mut sessions: Vec<Session<J>>,
    ) -> Option<Vec<Left<J>>> {
        let asks = sessions.pop()?;
        let pays = sessions.pop()?;
        if (pays.number(), asks.number()) != (0, 1) || !asks.parts().is_empty() {
            return None;
        }
        let mut pays = ask_until_done(rt, alloc, engine, pays, &payment(123))?;
        let mut asks = asks;
        meet(&mut pays, &mut asks);
        self.met.store(u64::from(asks.seen()), Ordering::SeqCst);
        let mut asks = ask_until_done(rt, alloc, engine, asks, &status())?;
        self.seen.store(u64::from(asks.seen()), Ordering::SeqCst);
        self.owed
            .store(last_owed(rt, engine, &mut asks)?, Ordering::SeqCst);
        let mut left = Vec::new(alloc);
        left.push(pays.leave(rt, engine)).ok()?;
        left.push(asks.leave(rt, engine)).ok()?;
        Some(left)
    }
}

impl Client for ReadsBack {
    ghost use Rattle.std.specs.Prelude.{⊤};

    ghost promises = { λ _ _ _ _. ⊤ };

    fn ask_all<J: ServeNames + Send + Sync, G: Gate, R: Threads + Wait + Sync>(
        &self,
        rt: &R,
        alloc: Global,
        engine: &Engine<'_, J, G>,
        sessions: Vec<Session<J>>,
    ) -> Vec<Left<J>> {
        match self.read_back(rt, alloc, engine, sessions) {
            Some(left) => left,
            None => Vec::new(alloc),
        }
    }
}

// The status of the customer of those payments.
fn status() -> Request {
    Request::OrderStatus(OrderStatus {
        home: DistrictKey { w_id: 1, d_id: 1 },
        customer: Choice::Number(1),
    })
}

// The customer's debt by the session's last answer, in cents. The session has asked for the status alone, and has logged exactly
// its entries in the log.
fn last_owed<J: ServeNames, G: Gate>(
    rt: &impl Wait,
    engine: &Engine<'_, J, G>,
    session: &mut Session<J>,
) -> Option<u64> {
    let Ok(place) = *session.answers().last()? else {
        return None;
    };
    if session.parts().iter().any(|it| it.request != status()) {
        return None;
    }
    let mut log = engine.log(rt);
    session.audit(&mut log);
    match &log.entries().get(place as usize)?.reply {
        Reply::Done(Shown::OrderStatus(shown)) => {
            Some(shown.balance.get().checked_neg()?.unsigned_abs())
        }
        _ => None,
    }
}

// Session 0 pays. Session 1 meets it and then asks for the customer's status, which contains the payment.
#[test]
fn a_session_finds_what_another_paid_that_it_met(rt: HostRuntime) -> Result<(), Fail> {
    let alloc = rt.alloc();
    let tables = two_warehouses(alloc)?;
    let client = ReadsBack {
        met: AtomicU64::new(0),
        seen: AtomicU64::new(0),
        owed: AtomicU64::new(0),
    };
    let outcome = serve(&rt, alloc, tables, &interactively(2), OpenGate, &client)?;
    assert_eq!(rt; outcome.log.len(), 2);
    assert_eq!(rt; client.met.load(Ordering::SeqCst), 1);
    assert_eq!(rt; client.seen.load(Ordering::SeqCst), 2);
    assert_eq!(rt; client.owed.load(Ordering::SeqCst), 1_000 + 123);
    Ok(())
}

// A session pays, and asks once more when the engine is closed.
#[derive(Drop)]
struct AsksTooLate {
    // The number of requests that it has asked in the end, if the last one was refused with Closed.
    asked: AtomicU64,
}

impl AsksTooLate {
    fn ask_twice<J: ServeNames, G: Gate>(
        &self,
        rt: &impl Wait,
        alloc: Global,
        engine: &Engine<'_, J, G>,
        mut sessions: Vec<Session<J>>,
    ) -> Option<Vec<Left<J>>> {
        let session = ask_until_done(rt, alloc, engine, sessions.pop()?, &payment(123))?;
        engine.close(rt);
        let (session, answer) = session.ask(rt, alloc, engine, payment(456)).ok()?;
        if answer == Err(Refusal::Closed) {
            self.asked
                .store(session.parts().len() as u64, Ordering::SeqCst);
        }
        let mut left = Vec::new(alloc);
        left.push(session.leave(rt, engine)).ok()?;
        Some(left)
    }
}

impl Client for AsksTooLate {
    ghost use Rattle.std.specs.Prelude.{⊤};

    ghost promises = { λ _ _ _ _. ⊤ };

    fn ask_all<J: ServeNames + Send + Sync, G: Gate, R: Threads + Wait + Sync>(
        &self,
        rt: &R,
        alloc: Global,
        engine: &Engine<'_, J, G>,
        sessions: Vec<Session<J>>,
    ) -> Vec<Left<J>> {
        match self.ask_twice(rt, alloc, engine, sessions) {
            Some(left) => left,
            None => Vec::new(alloc),
        }
    }
}

// What a session asks of a closed engine is refused and not logged, and the session is as it was.
#[test]
fn a_closed_engine_refuses_what_is_asked(rt: HostRuntime) -> Result<(), Fail> {
    let alloc = rt.alloc();
    let tables = two_warehouses(alloc)?;
    let client = AsksTooLate {
        asked: AtomicU64::new(0),
    };
    let outcome = serve(&rt, alloc, tables, &interactively(1), OpenGate, &client)?;
    assert_eq!(rt; client.asked.load(Ordering::SeqCst), 1);
    assert_eq!(rt; outcome.log.len(), 1);
    Ok(())
}

// How many payments a session makes beside the scripts.
const PAYMENTS: u64 = 20;

// A session that pays again and again.
#[derive(Drop)]
struct Pays {
    // How many of its payments were carried out.
    done: AtomicU64,
}

impl Pays {
    fn pay<J: ServeNames, G: Gate>(
        &self,
        rt: &impl Wait,
        alloc: Global,
        engine: &Engine<'_, J, G>,
        mut sessions: Vec<Session<J>>,
    ) -> Option<Vec<Left<J>>> {
        let mut session = sessions.pop()?;
        for _ in 0..PAYMENTS {
            session = ask_until_done(rt, alloc, engine, session, &payment(123))?;
            self.done.fetch_add(1, Ordering::SeqCst);
        }
        let mut left = Vec::new(alloc);
        left.push(session.leave(rt, engine)).ok()?;
        Some(left)
    }
}

impl Client for Pays {
    ghost use Rattle.std.specs.Prelude.{⊤};

    ghost promises = { λ _ _ _ _. ⊤ };

    fn ask_all<J: ServeNames + Send + Sync, G: Gate, R: Threads + Wait + Sync>(
        &self,
        rt: &R,
        alloc: Global,
        engine: &Engine<'_, J, G>,
        sessions: Vec<Session<J>>,
    ) -> Vec<Left<J>> {
        match self.pay(rt, alloc, engine, sessions) {
            Some(left) => left,
            None => Vec::new(alloc),
        }
    }
}

// A session asks beside scripts, while warehouses move and executors are held up: all is carried out.
#[test]
fn a_session_asks_beside_scripts(rt: HostRuntime) -> Result<(), Fail> {
    let alloc = rt.alloc();
    let scripts = [crossing(alloc, 1, 2)?, crossing(alloc, 2, 1)?];
    let moves = [order(1, 1, 1), order(1, 2, 0), order(2, 2, 1)];
    let options = ServeOptions {
        scripts: &scripts,
        sessions: 1,
        executors: 2,
        tries: 10_000,
        limits: Limits::greatest(),
        moves: &moves,
    };
    let gate = YieldsBySeed {
        drawn: AtomicU64::new(7),
    };
    let client = Pays {
        done: AtomicU64::new(0),
    };
    let outcome = serve(&rt, alloc, two_warehouses(alloc)?, &options, &gate, &client)?;
    assert_eq!(rt; client.done.load(Ordering::SeqCst), PAYMENTS);
    assert_eq!(rt; outcome.log.len(), 50 + PAYMENTS as usize);
    assert_eq!(rt; done_in(&outcome), outcome.log.len());
    Ok(())
}

// This many sessions ask interactively; two executors serve them.
fn interactively(sessions: usize) -> ServeOptions<'static>
    ensures scripts { result.scripts.now ≡ [] }
    ensures sessions { result.sessions ≡ sessions }
    ensures executors { result.executors ≡ 2 }
    ensures limits { AreLimits result.limits }
{
    ServeOptions {
        scripts: &[],
        sessions,
        executors: 2,
        tries: 1,
        limits: Limits::greatest(),
        moves: &[],
    }
}
