use crate::{Partition, Rows};
use schema::{
    Customer, CustomerKey, DistrictKey, Item, Lines, Order, OrderKey, Orders, Scale, Stock,
    StockKey,
};

/// The rows of one warehouse, which has ten districts.
impl Rows for Partition {
    ghost use Rattle.partitions.specs.Slots.{home_slot};

    ghost tables = { λ p. p.tables };

    ghost districts = { λ p. 10 };

    ghost slot = { λ p. home_slot p.home };

    fn scale(&self) -> Scale {
        Partition::scale(self)
    }

    fn district_count(&self) -> u32 {
        10
    }

    fn district_at(&self, place: u32) -> DistrictKey {
        DistrictKey {
            w_id: self.home(),
            d_id: place + 1,
        }
    }

    fn district_slot(&self, home: DistrictKey) -> Option<usize> {
        self.slot_of_district(home)
    }

    fn item(&self, i_id: u32) -> Option<&Item> {
        Partition::item(self, i_id)
    }

    fn stock(&self, key: StockKey) -> Option<&Stock> {
        Partition::stock(self, key)
    }

    fn customers_of(&self, home: DistrictKey) -> Option<&[Customer]> {
        Partition::customers_of(self, home)
    }

    fn customer(&self, key: CustomerKey) -> Option<&Customer> {
        Partition::customer(self, key)
    }

    fn orders(&self) -> Orders<'_> {
        Partition::orders(self)
    }

    fn order(&self, key: OrderKey) -> Option<&Order> {
        Partition::order(self, key)
    }

    fn lines_of(&self, order: OrderKey) -> Lines<'_> {
        Partition::lines_of(self, order)
    }

    fn lines_of_span(&self, home: DistrictKey, from: u32, to: u32) -> Lines<'_> {
        // For the contract: the lines of a part are numbered from 1 to 30.
        let _ = self.home();
        Partition::lines_of_span(self, home, from, to)
    }
}
