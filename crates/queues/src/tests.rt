ghost use Rattle.queues.specs.Desks.{AreTakersOf, inbox_of};
ghost use Rattle.std.specs.Prelude.{◌^◌, ◌<◌};

use crate::{Desk, InboxNames, Sent, Taker, audit_all, desks, open, takers};
use std::alloc::{AllocError, Global};
use std::marker::Brand;
use std::sync::Wait;
use std::test::*;
use std::thread;
use std::thread::Threads;

type Worked<J> = Result<(Desk<u32, J>, Vec<Sent<u32>>), AllocError>;

// Puts the numbers from 0 to `end` - 1 into the inbox of the next desk, and takes as many messages from its own.
fn work<J: InboxNames, R: Wait>(
    rt: &R,
    alloc: Global,
    mut desk: Desk<u32, J>,
    end: u32,
) -> Worked<J> {
    let to = (desk.number() as usize + 1) % desk.inboxes();
    let mut next = 0;
    let mut got = Vec::new(alloc);
    for _ in rt.forever() {
        if next < end && desk.put(rt, to, next).is_ok() {
            next += 1;
        }
        match desk.take(rt) {
            Some(sent) => got.push(sent)?,
            None => thread::yield_now(),
        }
        if next >= end && got.len() >= end as usize {
            break;
        }
    }
    Ok((desk, got))
}

// Returns whether these are the numbers from 0 to `end` - 1, in order, all from one desk.
fn are_below(got: &[Sent<u32>], sender: u32, end: u32) -> bool {
    got.len() == end as usize
        && (0..end).zip(got).all(|(number, sent)| sent.sender == sender && sent.message == number)
}

// Runs two desks in threads of their own, each of which puts into the other's inbox.
fn exchange<J: InboxNames + Send + Sync, R: Threads + Wait + Sync>(
    rt: &R,
    alloc: Global,
    takers: Vec<Taker<u32>>,
) -> Result<Option<[bool; 3]>, AllocError>
    requires named { AreTakersOf J.inboxes J.inbox 0 takers.items }
    requires most { J.inboxes < 2 ^ 32 }
{
    let mut desks = desks::<u32, J>(alloc, takers)?;
    let (Some(second), Some(first)) = (desks.pop(), desks.pop()) else {
        return Ok(None);
    };
    let (first, second) = thread::join(
        rt,
        || work(rt, alloc, first, 1000),
        || work(rt, alloc, second, 1000),
    );
    let (first, first_got) = first?;
    let (second, second_got) = second?;
    desks.push(first)?;
    desks.push(second)?;
    Ok(Some([
        audit_all(&mut desks),
        are_below(&first_got, 1, 1000),
        are_below(&second_got, 0, 1000),
    ]))
}

#[test]
fn two_threads_put_into_the_inbox_of_each_other(rt: HostRuntime) -> Result<(), Fail> {
    let takers = takers::<u32>(rt.alloc(), 4, 2)?;
    let done = exchange::<Brand, HostRuntime>(&rt, rt.alloc(), takers)?;
    assert_eq!(rt; done, Some([true; 3]));
    Ok(())
}

#[test]
fn a_full_inbox_gives_the_message_back(rt: HostRuntime) -> Result<(), Fail> {
    let (mut senders, mut taker) = open::<u32>(rt.alloc(), 2, 1)?;
    let mut sender = senders.pop().unwrap();
    assert_eq!(rt; sender.put(&rt, 5), Ok(()));
    assert_eq!(rt; sender.put(&rt, 6), Ok(()));
    assert_eq!(rt; sender.put(&rt, 7), Err(7));
    assert!(rt; !taker.audit(&mut sender));
    let first = taker.take(&rt).expect(&rt, "a message");
    let second = taker.take(&rt).expect(&rt, "a message");
    assert_eq!(rt; (first.message, second.message), (5, 6));
    assert!(rt; taker.take(&rt).is_none());
    assert!(rt; taker.audit(&mut sender));
    Ok(())
}
