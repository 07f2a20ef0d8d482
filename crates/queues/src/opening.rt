ghost use Rattle.std.specs.Prelude.{◌≡◌, ◌+◌, ◌∷◌, [], ◌<◌, ◌^◌, ℕ, Some, IfOk, slice_get, vec_len};
ghost use Rattle.queues.specs.Ends.{taking, sending};
ghost use Rattle.queues.specs.Desks.{AreTakersOf, AreSendersOf, inbox_of, new_desk};

use crate::{Desk, InboxNames, Sender, Taker};
use std::alloc::{AllocError, Global};
use std::collections::VecDeque;
use std::marker::PhantomData;

/// Opens an inbox with room for `room` messages. Returns its senders, by number, and its taker. Nothing is left after
/// an error.
pub fn open<T: Drop>(
    alloc: Global,
    room: usize,
    senders: u32,
) -> Result<(Vec<Sender<T>>, Taker<T>), AllocError>
    requires { 0 < room }
    ensures taker { IfOk result (λ ends. ends.1 ≡ taking ends.1.inbox senders []) }
    ensures count { IfOk result (λ ends. vec_len ends.0 ≡ senders) }
    ensures senders { IfOk result (λ ends. (number : ℕ) → number < senders
        → slice_get ends.0.items number ≡ Some (sending ends.1.inbox number [])) }
{
    let mut taker = Taker::open(alloc, room)?;
    let mut all = Vec::new(alloc);
    for _number in 0..senders {
        all.push(taker.sender()?)?;
    }
    Ok((all, taker))
}

/// Opens `count` inboxes without senders, each with room for `room` messages, and returns their takers. Nothing is left
/// after an error.
pub fn takers<T: Drop>(alloc: Global, room: usize, count: u32) -> Result<Vec<Taker<T>>, AllocError>
    requires { 0 < room }
    ensures { IfOk result (λ takers. AreTakersOf count (inbox_of takers.items) 0 takers.items) }
{
    let mut takers = Vec::new(alloc);
    for _inbox in 0..count {
        takers.push(Taker::open(alloc, room)?)?;
    }
    Ok(takers)
}

/// Returns a desk for each of these inboxes, by number. Nothing is left after an error.
pub fn desks<T: Drop, J: InboxNames>(
    alloc: Global,
    mut takers: Vec<Taker<T>>,
) -> Result<Vec<Desk<T, J>>, AllocError>
    requires named { AreTakersOf J.inboxes J.inbox 0 takers.items }
    requires most { J.inboxes < 2 ^ 32 }
    ensures count { IfOk result (λ desks. vec_len desks ≡ J.inboxes) }
    ensures each { IfOk result (λ desks. (number : ℕ) → number < J.inboxes
        → slice_get desks.items number ≡ Some (new_desk J.inboxes number)) }
{
    let count = takers.len();
    let mut all = VecDeque::new(alloc);
    for number in 0..count {
        all.push_back(senders_of::<T, J>(alloc, &mut takers, number)?)?;
    }
    let mut desks = Vec::new(alloc);
    let mut number = 0;
    for taker in takers {
        let Some(senders) = all.pop_front() else {
            unreachable!()
        };
        desks.push(Desk {
            number,
            senders,
            taker,
            names: PhantomData,
        })?;
        number += 1;
    }
    Ok(desks)
}

// Returns one more sender of each inbox; each inbox has `number` senders before.
fn senders_of<T: Drop, J: InboxNames>(
    alloc: Global,
    takers: &mut Vec<Taker<T>>,
    number: usize,
) -> Result<Vec<Sender<T>>, AllocError>
    requires takers { AreTakersOf J.inboxes J.inbox number takers.old.items }
    requires most { number + 1 < 2 ^ 32 }
    ensures takers { IfOk result (λ senders.
        AreTakersOf J.inboxes J.inbox (number + 1) takers.new.items) }
    ensures senders { IfOk result (λ senders. AreSendersOf J.inboxes J.inbox number senders.items) }
{
    let mut senders = Vec::new(alloc);
    for inbox in 0..takers.len() {
        senders.push(takers[inbox].sender()?)?;
    }
    Ok(senders)
}
