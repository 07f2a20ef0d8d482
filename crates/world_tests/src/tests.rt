use fixtures::warehouses;
use requests::{Choice, Payment, Request};
use schema::{DistrictKey, Moment, NoMemory, Tables};
use std::test::Fail;

mod worlds;

// A payment of 100 cents in district (1, 1) by customer 1 there, on 2024-05-01 at noon.
fn payment() -> Request {
    let home = DistrictKey { w_id: 1, d_id: 1 };
    Request::Payment(Payment {
        home,
        customer_home: home,
        customer: Choice::Number(1),
        amount: 100,
        moment: Moment::new(1_714_564_800),
    })
}
