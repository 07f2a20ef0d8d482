use crate::Rows;
use schema::{
    Customer, CustomerKey, DistrictKey, Item, Lines, Order, OrderKey, Orders, Scale, Stock,
    StockKey, Tables,
};

impl Rows for Tables {
    ghost use Rattle.std.specs.Prelude.{◌*◌};
    ghost use Rattle.schema.specs.Scale.{district_slot};

    ghost tables = { λ t. t };

    ghost districts = { λ t. t.scale.warehouses * 10 };

    ghost slot = { λ t. district_slot t.scale };

    fn scale(&self) -> Scale {
        self.scale()
    }

    fn district_count(&self) -> u32 {
        self.scale().warehouses * 10
    }

    fn district_at(&self, place: u32) -> DistrictKey {
        DistrictKey {
            w_id: place / 10 + 1,
            d_id: place % 10 + 1,
        }
    }

    fn district_slot(&self, home: DistrictKey) -> Option<usize> {
        self.scale().district_slot(home)
    }

    fn item(&self, i_id: u32) -> Option<&Item> {
        self.item(i_id)
    }

    fn stock(&self, key: StockKey) -> Option<&Stock> {
        self.stock(key)
    }

    fn customers_of(&self, home: DistrictKey) -> Option<&[Customer]> {
        self.customers_of(home)
    }

    fn customer(&self, key: CustomerKey) -> Option<&Customer> {
        self.customer(key)
    }

    fn orders(&self) -> Orders<'_> {
        self.orders()
    }

    fn order(&self, key: OrderKey) -> Option<&Order> {
        self.order(key)
    }

    fn lines_of(&self, order: OrderKey) -> Lines<'_> {
        self.lines_of(order)
    }

    fn lines_of_span(&self, home: DistrictKey, from: u32, to: u32) -> Lines<'_> {
        // For the contract: within the scale, lines are numbered from 1 to 30.
        let _ = self.scale();
        self.lines_of_span(home, from, to)
    }
}
