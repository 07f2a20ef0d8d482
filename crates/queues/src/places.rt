//! The single steps on a place at an inbox's queue.
ghost use Rattle.std.specs.Prelude.{◌≡◌, ◌+◌, [], ◌<◌, ℕ, List, true, false, IfOk, MatchOption, MatchResult, IsTrue};
ghost use Rattle.std.specs.Arc.{arc_value};
ghost use Rattle.crossbeam_queue.specs.Passes.{view, IsPassOf};
ghost use Rattle.queues.specs.Rule.{taker_view, sender_view, both_views, view_after_put, view_after_take, IsCompared};

use crate::Sent;
use crate::rule::{Compares, HandBack, OneMore, OneOrder, Puts, Spare, TakeIn, Takes, View};
use crossbeam_queue::{Pass, RuledArrayQueue};
use std::alloc::{AllocError, Global};
use std::sync::{Arc, Wait};

/// The queue of an inbox, which its taker and its senders share.
pub type Board<T> = Arc<RuledArrayQueue<Sent<T>, View<T>, OneOrder>, Global>;

pub type Place<T> = Pass<Sent<T>, View<T>>;

/// Opens a queue with room for `room` messages. Returns it with the taker's place.
pub fn open<T: Drop>(alloc: Global, room: usize) -> Result<(Board<T>, Place<T>), AllocError>
    requires { 0 < room }
    ensures place { IfOk result (λ pair. IsPassOf (arc_value pair.0) pair.1) }
    ensures view { IfOk result (λ pair. view pair.1 ≡ taker_view 0 []) }
{
    let (queue, place) = RuledArrayQueue::ruled(alloc, room)?;
    let board = Arc::new(alloc, queue)?;
    Ok((board, place))
}

/// The taker makes one more sender, with the next number. Returns the sender's place.
pub fn one_more<T>(board: &Board<T>, place: &mut Place<T>) -> Place<T>
    requires place { IsPassOf (arc_value board.now) place.old }
    requires taker { (view place.old).takes ≡ true }
    ensures place { IsPassOf (arc_value board.now) place.new }
    ensures taker { view place.new
        ≡ taker_view ((view place.old).senders + 1) (view place.old).got }
    ensures new_place { IsPassOf (arc_value board.now) result }
    ensures sender { view result ≡ sender_view (view place.old).senders [] }
{
    board.another::<OneMore>(place)
}

/// Returns one more place at the queue, a placeholder for another place.
pub fn spare<T>(board: &Board<T>, place: &mut Place<T>) -> Place<T>
    requires place { IsPassOf (arc_value board.now) place.old }
    ensures place { IsPassOf (arc_value board.now) place.new }
    ensures same { view place.new ≡ view place.old }
    ensures new_place { IsPassOf (arc_value board.now) result }
{
    board.another::<Spare>(place)
}

/// The taker's place absorbs the place of a sender.
pub fn take_in<T>(board: &Board<T>, place: &mut Place<T>, sender: Place<T>)
    requires place { IsPassOf (arc_value board.now) place.old }
    requires beside { IsPassOf (arc_value board.now) sender }
    requires taker { (view place.old).takes ≡ true }
    requires sender { (view sender).sends ≡ true }
    ensures place { IsPassOf (arc_value board.now) place.new }
    ensures both { view place.new ≡ both_views (view place.old) (view sender) }
{
    board.absorb::<TakeIn>(place, sender);
}

/// The absorbed sender gets a place of its own again, which is returned.
pub fn hand_back<T>(board: &Board<T>, place: &mut Place<T>) -> Place<T>
    requires place { IsPassOf (arc_value board.now) place.old }
    requires both { ((view place.old).takes ≡ true) × ((view place.old).sends ≡ true) }
    ensures place { IsPassOf (arc_value board.now) place.new }
    ensures taker { view place.new ≡ taker_view (view place.old).senders (view place.old).got }
    ensures new_place { IsPassOf (arc_value board.now) result }
    ensures sender { view result ≡ sender_view (view place.old).number (view place.old).put }
{
    board.another::<HandBack>(place)
}

/// A sender puts a message with its number. If the queue has no room, returns the message.
pub fn put<T, R: Wait>(
    board: &Board<T>,
    rt: &R,
    place: &mut Place<T>,
    sent: Sent<T>,
) -> Result<(), Sent<T>>
    requires place { IsPassOf (arc_value board.now) place.old }
    requires sender { (view place.old).sends ≡ true }
    requires number { sent.sender ≡ (view place.old).number }
    ensures place { IsPassOf (arc_value board.now) place.new }
    ensures view { MatchResult result
        (λ _. view place.new ≡ view_after_put (view place.old) sent.message)
        (λ back. (back ≡ sent) × (view place.new ≡ view place.old)) }
{
    board.push_as::<Puts, R>(rt, place, sent)
}

/// The taker takes the first message, if there is one.
pub fn take<T, R: Wait>(board: &Board<T>, rt: &R, place: &mut Place<T>) -> Option<Sent<T>>
    requires place { IsPassOf (arc_value board.now) place.old }
    requires taker { (view place.old).takes ≡ true }
    ensures place { IsPassOf (arc_value board.now) place.new }
    ensures view { MatchOption result (view place.new ≡ view place.old)
        (λ sent. view place.new ≡ view_after_take (view place.old) sent) }
{
    board.pop_as::<Takes, R>(rt, place)
}

/// A place that is both taker and sender compares what was put with what was got and what is in the queue. Returns
/// whether the queue was empty.
pub fn compare<T>(board: &Board<T>, place: &mut Place<T>) -> bool
    requires place { IsPassOf (arc_value board.now) place.old }
    requires both { ((view place.old).takes ≡ true) × ((view place.old).sends ≡ true) }
    ensures place { IsPassOf (arc_value board.now) place.new }
    ensures same { view place.new ≡ view place.old }
    ensures compared { (standing : List (Sent T)) × IsCompared (view place.old) standing }
    ensures empty { IsTrue result → IsCompared (view place.old) [] }
{
    board.learn_as::<Compares>(place);
    board.is_empty_as::<Compares>(place)
}
