ghost use Rattle.std.specs.Prelude.{◌≡◌};

use rows::{NewOrder, Order, OrderKey};
use std::collections::btree_map::Range;
use std::marker::Model;

/// Rows of ORDER with their keys.
pub type Orders<'a> = Entries<'a, OrderKey, Order>;

/// Rows of NEW-ORDER with their keys.
pub type NewOrders<'a> = Entries<'a, OrderKey, NewOrder>;

/// Rows with their keys, in key order. The model is the list of the rows that are still to come. A key
/// is returned by value and a row by reference, so that a reader does not depend on how a table stores
/// them.
#[derive(Drop)]
pub struct Entries<'a, K, R> {
    kept: Range<'a, K, R>,
}

impl<'a, K, R> Model for Entries<'a, K, R> {
    ghost use Rattle.std.specs.Prelude.{List};

    ghost Value = { List (K × R) };

    ghost view = { λ e. e.kept };
}

impl<'a, K, R> Entries<'a, K, R> {
    /// The entries of a map, for code that stores rows in a map.
    pub fn of_map(kept: Range<'a, K, R>) -> Entries<'a, K, R>
        ensures { result ≡ kept.entry }
    {
        Entries { kept }
    }
}

impl<'a, K: Copy, R> Iterator for Entries<'a, K, R> {
    ghost use Rattle.std.specs.Prelude.{length};
    ghost use Rattle.std.specs.Iterator.{at_most};
    ghost use Rattle.std.specs.Map.Iter.{TakesFirst};
    ghost use Rattle.schema.specs.Entries.{entry};

    type Item = (K, &'a R);

    ghost next_gives = { TakesFirst entry };

    ghost remaining = { λ s. at_most (length s) };

    #[inline]
    fn next(&mut self) -> Option<(K, &'a R)> {
        let (key, row) = self.kept.next()?;
        Some((*key, row))
    }
}
