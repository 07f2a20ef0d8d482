//! A bounded queue. It allocates only when it is opened.
ghost use Rattle.std.specs.Prelude.{◌≡◌, ◌<◌, [], ◌∷◌, ◌++◌, length, IfOk, IfSome, IfNone};

use schema::NoMemory;
use std::alloc::Global;
use std::collections::VecDeque;
use std::marker::Model;

/// A first-in, first-out queue with room for N items. Only `open` allocates.
#[derive(Drop)]
pub struct Queue<T: Drop, const N: usize> {
    items: VecDeque<T>,
}

impl<T: Drop, const N: usize> Model for Queue<T, N> {
    ghost use Rattle.std.specs.Prelude.{List, ◌≤◌};
    ghost use Rattle.std.specs.VecDeque.{deque_capacity};

    ghost Value = { List T };

    ghost view = { λ q. q.items.items };

    ghost invariant = { λ q. N ≤ deque_capacity q.items };
}

impl<T: Drop, const N: usize> Queue<T, N> {
    /// An empty queue.
    pub fn open(alloc: Global) -> Result<Queue<T, N>, NoMemory>
        ensures { IfOk result (λ queue. queue ≡ []) }
    {
        let items = VecDeque::with_capacity(alloc, N)?;
        Ok(Queue { items })
    }

    /// The number of items.
    pub fn len(&self) -> usize
        ensures { result ≡ length self.now }
    {
        self.items.len()
    }

    /// Appends an item.
    pub fn put(&mut self, item: T)
        requires { length self.old < N }
        ensures { self.new ≡ self.old ++ item ∷ [] }
    {
        self.items.push_back_reserved(item);
    }

    /// Takes the first item, or returns `None` if the queue is empty.
    pub fn take(&mut self) -> Option<T>
        ensures first { IfSome result (λ item. self.old ≡ item ∷ self.new) }
        ensures none { IfNone result ((self.old ≡ []) × (self.new ≡ [])) }
    {
        self.items.pop_front()
    }
}
