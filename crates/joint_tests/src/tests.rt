use fixtures::{two_warehouses, warehouses};
use requests::{Choice, Payment, Request};
use schema::{DistrictKey, Moment, NoMemory, Tables};
use std::test::Fail;

mod claims;
mod footprints;
mod interactive;
mod lengths;
mod pictures;
mod places;
mod records;
mod seats;
mod serving;
mod slice;
mod sources;
mod values;

// A payment in district (1, 1) by customer 1 there, on 2024-05-01 at noon.
fn payment(amount: u32) -> Request {
    payment_at(1, amount)
}

// A payment at this warehouse, by a customer of it.
fn payment_at(w_id: u32, amount: u32) -> Request {
    payment_by(w_id, w_id, amount)
}

// A payment at this warehouse, by a customer of the other one.
fn payment_by(w_id: u32, customer_w_id: u32, amount: u32) -> Request {
    Request::Payment(Payment {
        home: DistrictKey { w_id, d_id: 1 },
        customer_home: DistrictKey {
            w_id: customer_w_id,
            d_id: 1,
        },
        customer: Choice::Number(1),
        amount,
        moment: Moment::new(1_714_564_800),
    })
}
