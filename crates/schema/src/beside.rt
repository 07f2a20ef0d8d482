//! Look-ups of rows by ascending keys.
ghost use Rattle.std.specs.Prelude.{◌≡◌};
ghost use Rattle.std.specs.Option.{option_copied};
ghost use Rattle.std.specs.FinMap as map;
ghost use Rattle.std.specs.List.Sorted.{IsStrictlySortedBy};
ghost use Rattle.std.specs.Map.{keys_of};
ghost use Rattle.rows.specs.Keys.{order_cmp};
ghost use Rattle.schema.specs.RowsLeft.{SameFrom};

use crate::Entries;
use rows::OrderKey;
use std::cmp::Ordering;
use std::marker::Model;

/// Rows of orders, looked up by ascending keys. The model is the list of the rows that are left, with
/// their keys. So all keys of a table are looked up in one pass.
#[derive(Drop)]
pub struct Beside<'a, R> {
    // The first row that is left, and the rows after it.
    first: Option<(OrderKey, &'a R)>,
    others: Entries<'a, OrderKey, R>,
}

impl<'a, R> Model for Beside<'a, R> {
    ghost use Rattle.std.specs.Prelude.{List};
    ghost use Rattle.std.specs.List.Sorted.{IsStrictlySortedBy};
    ghost use Rattle.std.specs.Map.{keys_of};
    ghost use Rattle.rows.specs.declared.keys.OrderKey as order_key;
    ghost use Rattle.rows.specs.Keys.{order_cmp};
    ghost use Rattle.schema.specs.RowsLeft.{rows_left};

    ghost Value = { List (order_key.OrderKey × R) };

    ghost view = { λ b. rows_left b.first b.others };

    ghost invariant = { λ b. IsStrictlySortedBy order_cmp (keys_of (rows_left b.first b.others)) };
}

impl<'a, R> Beside<'a, R> {
    /// All these rows, in key order.
    pub fn new(rows: Entries<'a, OrderKey, R>) -> Self
        requires { IsStrictlySortedBy order_cmp (keys_of rows) }
        ensures { result ≡ rows.entry }
    {
        let mut others = rows;
        let first = others.next();
        Beside { first, others }
    }

    /// The row at the key, or `None` if it is not left. Rows with lower keys are no longer left
    /// afterwards.
    pub fn of(&mut self, key: OrderKey) -> Option<&'a R>
        ensures found { option_copied result ≡ map.find order_cmp key self.old }
        ensures left { SameFrom key self.old self.new }
    {
        while let Some((at, row)) = self.first {
            match at.cmp(&key) {
                Ordering::Less => self.first = self.others.next(),
                Ordering::Equal => return Some(row),
                Ordering::Greater => return None,
            }
        }
        None
    }
}
