ghost use Rattle.std.specs.Prelude.{◌≡◌, ◌^◌, ◌<◌, length, is_some, IfSome, Some};
ghost use Rattle.std.specs.Option.{option_copied};
ghost use Rattle.std.specs.FinMap as map;
ghost use Rattle.schema.specs.Database.{rows_where, is_of_order, LinesNumbered};
ghost use Rattle.schema.specs.OrderRows.{is_in_span};
ghost use Rattle.partitions.specs.Slots.{AreCustomersOf, AreRows};

use schema::{
    Customer, CustomerKey, DistrictKey, Item, Lines, Order, OrderKey, Orders, Scale, Stock,
    StockKey,
};

/// Rows of items, stock, customers, orders and lines, looked up by key: those of all tables, or of a
/// part of them.
pub trait Rows {
    ghost use Rattle.std.specs.Prelude.{ℕ};
    ghost use Rattle.schema.specs.Database.{Database};
    ghost use Rattle.partitions.specs.Slots.{Slots};

    /// The rows that are here, as tables.
    ghost tables: { Self → Database };
    /// The number of districts whose rows are here.
    ghost districts: { Self → ℕ };
    /// The places of these districts.
    ghost slot: { Self → Slots };

    /// Returns the scale of the tables to which these rows belong.
    fn scale(&self) -> Scale
        ensures value { result ≡ (tables self.now).scale }
        ensures rows { AreRows (slot self.now) (districts self.now) (tables self.now) };

    /// Returns the number of districts whose rows are here: 10 to 2,560.
    fn district_count(&self) -> u32
        ensures { result ≡ districts self.now };

    /// Returns the district at a place.
    fn district_at(&self, place: u32) -> DistrictKey
        requires { place < districts self.now }
        ensures { slot self.now result ≡ Some place };

    /// Returns the place of a district, `None` if its rows are not here.
    fn district_slot(&self, home: DistrictKey) -> Option<usize>
        ensures { result ≡ slot self.now home };

    /// Returns the item's row, `None` if there is none.
    fn item(&self, i_id: u32) -> Option<&Item>
        ensures { option_copied result ≡ map.get (tables self.now).items i_id };

    /// Returns the row of the warehouse's stock of an item, `None` if there is none here.
    fn stock(&self, key: StockKey) -> Option<&Stock>
        ensures { option_copied result ≡ map.get (tables self.now).stocks key };

    /// Returns the customers of a district, by C_ID from 1; `None` if its rows are not here.
    fn customers_of(&self, home: DistrictKey) -> Option<&[Customer]>
        ensures district { is_some result ≡ is_some (slot self.now home) }
        ensures rows { IfSome result (λ rows. AreCustomersOf (tables self.now) home rows.now) };

    /// Returns the customer's row, `None` if there is none here.
    fn customer(&self, key: CustomerKey) -> Option<&Customer>
        ensures { option_copied result ≡ map.get (tables self.now).customers key };

    /// Returns all orders that are here, by key.
    fn orders(&self) -> Orders<'_>
        ensures rows { result ≡ map.entries (tables self.now).orders }
        ensures fits { length result < 2 ^ 63 };

    /// Returns the order's row, `None` if there is none here.
    fn order(&self, key: OrderKey) -> Option<&Order>
        ensures { option_copied result ≡ map.get (tables self.now).orders key };

    /// Returns the lines of the order, by OL_NUMBER.
    fn lines_of(&self, order: OrderKey) -> Lines<'_>
        ensures rows { result ≡ rows_where (is_of_order order) (tables self.now).lines }
        ensures fits { length result < 2 ^ 63 };

    /// Returns the lines of the district's orders with numbers from `from` up to but excluding `to`, by
    /// O_ID and then by OL_NUMBER, which is 1 to 30.
    fn lines_of_span(&self, home: DistrictKey, from: u32, to: u32) -> Lines<'_>
        ensures rows { result ≡ rows_where (is_in_span home from to) (tables self.now).lines }
        ensures numbered { LinesNumbered (tables self.now) }
        ensures fits { length result < 2 ^ 63 };
}
