ghost use Rattle.std.specs.Prelude.{◌≡◌, ◌≤◌};

use rendezvous::{Anything, Convener, Meeting, Place, Reported};
use std::alloc::Global;
use std::marker::Brand;
use std::sync::{Mutex, Wait};
use std::test::*;
use std::thread;
use std::thread::{JoinHandle, Scope, Threads};

const ROUNDS: u64 = 10_000;

const PLACES: usize = 8;

// What a place reports: the number of the round, and its own.
type Own = (u64, usize);

// A place, and its meeting.
#[derive(Drop)]
struct Seated<'m> {
    meeting: &'m Meeting<Own, Anything>,
    place: Place<Own, Anything>,
    ghost here: { place.of_round.meeting ≡ meeting.now },
    ghost room: { 8 ≤ meeting.now.slots },
}

// Where a thread finds its place of the next round.
type Inbox<'m> = Mutex<Option<Seated<'m>>>;

// How many of a thread's reports were answered `Last`, and whether each of these got the right results.
#[derive(Clone, Copy, Drop)]
struct Tally {
    lasts: u64,
    right: bool,
}

// Convenes a round, whose places go to these inboxes.
fn convene_for<'m, R: Wait>(
    rt: &R,
    inboxes: &[Inbox<'m>],
    meeting: &'m Meeting<Own, Anything>,
    convener: Convener<Own, Anything>,
)
    requires here { convener.meeting ≡ meeting.now }
    requires room { 8 ≤ meeting.now.slots }
{
    let mut places = meeting.convene::<(), Brand>(convener, PLACES, &());
    for inbox in inboxes {
        if let Some(place) = meeting.hand_out(&mut places) {
            *inbox.lock(rt) = Some(Seated { meeting, place });
        }
    }
}

// Waits for a place.
fn next_place<'m, R: Wait>(rt: &R, inbox: &Inbox<'m>) -> Seated<'m> {
    for _ in rt.forever() {
        let found = inbox.lock(rt).take();
        if let Some(seated) = found {
            return seated;
        }
        thread::yield_now();
    }
    unreachable!()
}

// Reports for a place in each round. Whoever is the last looks at the results, and convenes the next round.
fn report_all<'m, R: Wait>(rt: &R, inboxes: &[Inbox<'m>], own: &Inbox<'m>) -> Tally {
    let mut tally = Tally {
        lasts: 0,
        right: true,
    };
    for round in 0..ROUNDS {
        let Seated { meeting, place } = next_place(rt, own);
        let number = place.number();
        let (reported, _receipt) = meeting.report(place, (round, number));
        if let Reported::Last(mut results) = reported {
            tally.lasts = tally.lasts.wrapping_add(1);
            let mut next = 0usize;
            while let Some(result) = meeting.next_result(&mut results) {
                tally.right = tally.right && result == (round, next);
                next = next.wrapping_add(1);
            }
            tally.right = tally.right && next == PLACES;
            if round + 1 < ROUNDS {
                convene_for(rt, inboxes, meeting, results.finish());
            }
        }
    }
    tally
}

// A thread for each inbox.
fn start_all<'s, 'm: 's, E, R: Wait + Sync>(
    rt: &'s R,
    scope: &Scope<'s, E>,
    alloc: Global,
    inboxes: &'s [Inbox<'m>],
) -> Result<Vec<JoinHandle<Tally>>, Fail> {
    let mut threads = Vec::new(alloc);
    for own in inboxes {
        let thread = scope.spawn(move || report_all(rt, inboxes, own))?;
        threads.push(thread)?;
    }
    Ok(threads)
}

// The tally of all threads.
fn tally_all<R: Threads + Wait + Sync>(
    rt: &R,
    alloc: Global,
    inboxes: &[Inbox<'_>],
) -> Result<Tally, Fail> {
    thread::scope(thread::scope_env(), rt, |scope| -> Result<Tally, Fail> {
        let mut tally = Tally {
            lasts: 0,
            right: true,
        };
        for thread in start_all(rt, scope, alloc, inboxes)? {
            let one = thread.join(rt);
            tally.lasts = tally.lasts.wrapping_add(one.lasts);
            tally.right = tally.right && one.right;
        }
        Ok(tally)
    })
}

#[test]
fn one_report_of_each_round_is_last_and_gets_all_results(rt: HostRuntime) -> Result<(), Fail> {
    let (meeting, convener) = Meeting::open(rt.alloc(), PLACES)?;
    let mut inboxes = Vec::new(rt.alloc());
    for _ in 0..PLACES {
        inboxes.push(Mutex::new(None))?;
    }
    convene_for(&rt, &inboxes, &meeting, convener);
    let tally = tally_all(&rt, rt.alloc(), &inboxes)?;
    assert_eq!(rt; tally.lasts, ROUNDS);
    assert!(rt; tally.right);
    Ok(())
}

// The number of results that a report got.
fn results_in(answer: &Reported<Own, Anything>) -> Option<usize> {
    match answer {
        Reported::NotLast => None,
        Reported::Last(results) => Some(results.len()),
    }
}

// The two receipts of a round, by which `compare` proves that one report was answered `Last` and got both results.
#[test]
fn receipts_of_a_round_are_compared(rt: HostRuntime) -> Result<(), Fail> {
    let (meeting, convener) = Meeting::<Own, Anything>::open(rt.alloc(), 2)?;
    let mut places = meeting.convene::<(), Brand>(convener, 2, &());
    let first = meeting.hand_out(&mut places).ok_or("a place")?;
    let second = meeting.hand_out(&mut places).ok_or("a place")?;
    let mut receipts = Vec::with_capacity(rt.alloc(), 2)?;
    let (answer, receipt) = meeting.report(first, (1, 0));
    assert_eq!(rt; results_in(&answer), None);
    receipts.push(receipt)?;
    let (answer, receipt) = meeting.report(second, (1, 1));
    assert_eq!(rt; results_in(&answer), Some(2));
    receipts.push(receipt)?;
    meeting.compare(1, receipts);
    Ok(())
}
