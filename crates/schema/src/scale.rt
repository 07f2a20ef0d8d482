ghost use Rattle.std.specs.Prelude.{◌≡◌, ◌↔◌, IsSome, IfSome};
ghost use Rattle.schema.specs.Limits.{IsScale};

use rows::{CustomerKey, DistrictKey, MOST_WAREHOUSES, StockKey};

/// The number of rows of the tables of fixed size (clause 1.2.1; smaller scales are allowed). Each
/// warehouse has ten districts.
#[derive(Clone, Copy, Debug, PartialEq, Eq)]
pub struct Scale {
    /// Number of warehouses, 1 to 256.
    pub warehouses: u32,
    /// Number of items, 1 to 100,000.
    pub items: u32,
    /// Number of customers in each district, 1 to 3,000.
    pub customers: u32,
    pub ghost limits: { IsScale warehouses items customers },
}

impl Scale {
    ghost use Rattle.std.specs.Prelude.{◌≡◌, ◌↔◌, IsSome, IfSome};
    ghost use Rattle.schema.specs.Limits.{IsScale};
    ghost use Rattle.schema.specs.Scale.{has_item, has_warehouse, has_district, has_stock, has_customer, item_slot, warehouse_slot, district_slot, stock_slot, customer_slot};

    /// A scale with these numbers, or `None` if one is out of its limits.
    pub fn checked_new(warehouses: u32, items: u32, customers: u32) -> Option<Scale>
        ensures fits { IsSome result ↔ IsScale warehouses items customers }
        ensures warehouses { IfSome result (λ scale. scale.warehouses ≡ warehouses) }
        ensures items { IfSome result (λ scale. scale.items ≡ items) }
        ensures customers { IfSome result (λ scale. scale.customers ≡ customers) }
    {
        let fits = 1 <= warehouses
            && warehouses <= MOST_WAREHOUSES
            && 1 <= items
            && items <= 100_000
            && 1 <= customers
            && customers <= 3_000;
        if fits {
            Some(Scale {
                warehouses,
                items,
                customers,
            })
        } else {
            None
        }
    }

    pub fn has_item(self, item: u32) -> bool
        ensures { result ≡ has_item self item }
    {
        (1..=self.items).contains(&item)
    }

    pub fn has_warehouse(self, warehouse: u32) -> bool
        ensures { result ≡ has_warehouse self warehouse }
    {
        (1..=self.warehouses).contains(&warehouse)
    }

    pub fn has_district(self, key: DistrictKey) -> bool
        ensures { result ≡ has_district self key }
    {
        self.has_warehouse(key.w_id) && (1..=10).contains(&key.d_id)
    }

    pub fn has_stock(self, key: StockKey) -> bool
        ensures { result ≡ has_stock self key }
    {
        self.has_warehouse(key.w_id) && self.has_item(key.i_id)
    }

    pub fn has_customer(self, key: CustomerKey) -> bool
        ensures { result ≡ has_customer self key }
    {
        self.has_district(key.district()) && (1..=self.customers).contains(&key.c_id)
    }

    /// The index of the item's row among the rows of ITEM in key order, from 0; `None` if the scale has
    /// no such item. The other `_slot` functions do the same for the other tables whose keys are those
    /// of the scale.
    pub fn item_slot(self, item: u32) -> Option<usize>
        ensures { result ≡ item_slot self item }
    {
        if self.has_item(item) {
            Some(item as usize - 1)
        } else {
            None
        }
    }

    pub fn warehouse_slot(self, warehouse: u32) -> Option<usize>
        ensures { result ≡ warehouse_slot self warehouse }
    {
        if self.has_warehouse(warehouse) {
            Some(warehouse as usize - 1)
        } else {
            None
        }
    }

    pub fn district_slot(self, key: DistrictKey) -> Option<usize>
        ensures { result ≡ district_slot self key }
    {
        if self.has_district(key) {
            Some((key.w_id as usize - 1) * 10 + (key.d_id as usize - 1))
        } else {
            None
        }
    }

    pub fn stock_slot(self, key: StockKey) -> Option<usize>
        ensures { result ≡ stock_slot self key }
    {
        if self.has_stock(key) {
            let items = self.items as usize;
            Some((key.w_id as usize - 1) * items + (key.i_id as usize - 1))
        } else {
            None
        }
    }

    pub fn customer_slot(self, key: CustomerKey) -> Option<usize>
        ensures { result ≡ customer_slot self key }
    {
        if self.has_customer(key) {
            let district = (key.w_id as usize - 1) * 10 + (key.d_id as usize - 1);
            let customers = self.customers as usize;
            Some(district * customers + (key.c_id as usize - 1))
        } else {
            None
        }
    }
}
