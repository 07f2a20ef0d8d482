//! A queue for each executor.
ghost use Rattle.std.specs.Prelude.{◌≡◌, ◌↔◌, ◌<◌, [], ◌∷◌, length, replicate, IfOk, IfSome, IfNone, IsTrue};
ghost use Rattle.world.specs.Queues.{TakesFrom, all_of, put_into, queue_of};

use crate::queue::Queue;
use schema::NoMemory;
use std::alloc::Global;
use std::marker::Model;

/// A queue for each executor, each with room for N items.
///
/// Contracts see the items of each queue, by executor number.
#[derive(Drop)]
pub struct Queues<T: Drop, const N: usize> {
    queues: Vec<Queue<T, N>>,
}

impl<T: Drop, const N: usize> Model for Queues<T, N> {
    ghost use Rattle.std.specs.Prelude.{List};

    ghost Value = { List (List T) };

    ghost view = { λ q. q.queues.items };
}

impl<T: Drop, const N: usize> Queues<T, N> {
    /// An empty queue for each of `executors` executors.
    pub fn open(alloc: Global, executors: usize) -> Result<Queues<T, N>, NoMemory>
        ensures { IfOk result (λ queues. queues ≡ replicate executors []) }
    {
        let mut queues = Vec::with_capacity(alloc, executors)?;
        for _ in 0..executors {
            queues.push_reserved(Queue::open(alloc)?);
        }
        Ok(Queues { queues })
    }

    /// The number of items in an executor's queue; 0 if there is no such executor.
    pub fn waiting(&self, executor: usize) -> usize
        ensures { result ≡ length (queue_of executor self.now) }
    {
        match self.queues.get(executor) {
            Some(queue) => queue.len(),
            None => 0,
        }
    }

    /// Appends an item to an executor's queue.
    pub fn put(&mut self, executor: usize, item: T)
        requires there { executor < length self.old }
        requires room { length (queue_of executor self.old) < N }
        ensures { self.new ≡ put_into executor (item ∷ []) self.old }
    {
        self.queues[executor].put(item);
    }

    /// Takes the first item of an executor's queue. Returns `None` if the queue is empty or there is no such executor.
    pub fn take(&mut self, executor: usize) -> Option<T>
        ensures first { IfSome result (λ item. TakesFrom executor item self.old self.new) }
        ensures none { IfNone result ((queue_of executor self.old ≡ []) × (self.new ≡ self.old)) }
    {
        self.queues.get_mut(executor)?.take()
    }

    /// Whether all queues are empty.
    pub fn are_empty(&self) -> bool
        ensures { IsTrue result ↔ (all_of self.now ≡ []) }
    {
        let queues = &self.queues[..];
        for queue in queues {
            if queue.len() != 0 {
                return false;
            }
        }
        true
    }
}
