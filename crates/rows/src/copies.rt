//! Copies of rows. A copy does not allocate: a row owns no memory outside itself.
ghost use Rattle.std.specs.Prelude.{◌≡◌};

use crate::{Address, Customer, District, Stock, Warehouse};

impl Address {
    /// Returns an equal address.
    pub fn copy(&self) -> Address
        ensures { result ≡ self.now }
    {
        Address {
            street_1: self.street_1.copy(),
            street_2: self.street_2.copy(),
            city: self.city.copy(),
            state: self.state.copy(),
            zip: self.zip.copy(),
        }
    }
}

impl Warehouse {
    /// Returns an equal row.
    pub fn copy(&self) -> Warehouse
        ensures { result ≡ self.now }
    {
        Warehouse {
            name: self.name.copy(),
            address: self.address.copy(),
            tax: self.tax,
            ytd: self.ytd,
        }
    }
}

impl District {
    /// Returns an equal row.
    pub fn copy(&self) -> District
        ensures { result ≡ self.now }
    {
        District {
            name: self.name.copy(),
            address: self.address.copy(),
            tax: self.tax,
            ytd: self.ytd,
            next_o_id: self.next_o_id,
        }
    }
}

impl Stock {
    /// Returns an equal row.
    pub fn copy(&self) -> Stock
        ensures { result ≡ self.now }
    {
        let [d1, d2, d3, d4, d5, d6, d7, d8, d9, d10] = &self.dist;
        Stock {
            quantity: self.quantity,
            dist: [
                d1.copy(),
                d2.copy(),
                d3.copy(),
                d4.copy(),
                d5.copy(),
                d6.copy(),
                d7.copy(),
                d8.copy(),
                d9.copy(),
                d10.copy(),
            ],
            ytd: self.ytd,
            order_cnt: self.order_cnt,
            remote_cnt: self.remote_cnt,
            data: self.data.copy(),
        }
    }
}

impl Customer {
    /// Returns an equal row.
    pub fn copy(&self) -> Customer
        ensures { result ≡ self.now }
    {
        Customer {
            first: self.first.copy(),
            middle: self.middle.copy(),
            last: self.last.copy(),
            address: self.address.copy(),
            phone: self.phone.copy(),
            since: self.since,
            credit: self.credit,
            credit_lim: self.credit_lim,
            discount: self.discount,
            balance: self.balance,
            ytd_payment: self.ytd_payment,
            payment_cnt: self.payment_cnt,
            delivery_cnt: self.delivery_cnt,
            data: self.data.copy(),
        }
    }
}
