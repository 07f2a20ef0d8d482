ghost use Rattle.std.specs.Prelude.{◌≡◌, ◌≤◌, ◌^◌, length, IfOk};
ghost use Rattle.workload.specs.Requests.{moment_at, order_status_drawn, request_drawn, requests_drawn};

use crate::customers::choice;
use crate::new_order::new_order;
use crate::payment::payment;
use crate::{Kind, Terminal};
use number_draws::NumberDraws;
use requests::{OrderStatus, StockLevel, TerminalRequest, WarehouseDelivery};
use schema::{DistrictKey, Moment, NoMemory};
use std::alloc::Global;

// The last second of the year 9999.
const LAST_SECOND: u64 = 253_402_300_799;

/// Draws a request of each of these kinds, in order. The first is at moment `now`, each other one a second later.
pub(crate) fn draw_requests(
    alloc: Global,
    draws: &mut NumberDraws,
    terminal: &Terminal,
    now: Moment,
    kinds: &[Kind],
) -> Result<Vec<TerminalRequest>, NoMemory>
    requires { length kinds.now ≤ 2 ^ 32 }
    ensures { IfOk result
        (λ requests. requests.items ≡ requests_drawn terminal.now now 0 kinds.now draws.old) }
{
    let mut requests = Vec::new(alloc);
    for (number, kind) in kinds.iter().enumerate() {
        let moment = moment_after(now, number as u64);
        requests.push(request(alloc, draws, terminal, moment, *kind)?)?;
    }
    Ok(requests)
}

// Returns the moment that many seconds later, at most the last second of the year 9999.
fn moment_after(now: Moment, seconds: u64) -> Moment
    requires { seconds ≤ 2 ^ 32 }
    ensures { result ≡ moment_at now seconds }
{
    Moment::new((now.seconds() + seconds).min(LAST_SECOND))
}

// Draws a request of that kind.
#[tactic(auto, unfolding(crate::specs::Requests::request_drawn))]
fn request(
    alloc: Global,
    draws: &mut NumberDraws,
    terminal: &Terminal,
    moment: Moment,
    kind: Kind,
) -> Result<TerminalRequest, NoMemory>
    ensures { IfOk result
        (λ request. (request, draws.new) ≡ request_drawn terminal.now moment kind draws.old) }
{
    match kind {
        Kind::NewOrder => Ok(TerminalRequest::NewOrder(new_order(alloc, draws, terminal, moment)?)),
        Kind::Payment => Ok(TerminalRequest::Payment(payment(draws, terminal, moment))),
        Kind::OrderStatus => Ok(TerminalRequest::OrderStatus(order_status(draws, terminal))),
        Kind::Delivery => Ok(TerminalRequest::Delivery(WarehouseDelivery {
            w_id: terminal.home.w_id,
            carrier_id: draws.random(1, 10),
            moment,
        })),
        Kind::StockLevel => Ok(TerminalRequest::StockLevel(StockLevel {
            home: terminal.home,
            threshold: draws.random(10, 20),
        })),
    }
}

// Draws an Order-Status at the terminal (clause 2.6.1).
#[tactic(auto, using(number_draws::proofs::Generators::beyond_twice), unfolding(crate::specs::Requests::order_status_drawn))]
fn order_status(draws: &mut NumberDraws, terminal: &Terminal) -> OrderStatus
    ensures { (result, draws.new) ≡ order_status_drawn terminal.now draws.old }
{
    let home = DistrictKey {
        w_id: terminal.home.w_id,
        d_id: draws.random(1, 10),
    };
    OrderStatus {
        home,
        customer: choice(draws, terminal.scale),
    }
}
