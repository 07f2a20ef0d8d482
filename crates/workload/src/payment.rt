ghost use Rattle.std.specs.Prelude.{◌≡◌};
ghost use Rattle.workload.specs.Payments.{payment_drawn};

use crate::Terminal;
use crate::customers::choice;
use crate::warehouses::customer_home;
use number_draws::NumberDraws;
use requests::Payment;
use schema::{DistrictKey, Moment};

/// Draws a payment at the terminal (clause 2.5.1).
#[tactic(auto, using(number_draws::proofs::Generators::beyond_twice), unfolding(crate::specs::Payments::payment_drawn))]
pub(crate) fn payment(draws: &mut NumberDraws, terminal: &Terminal, moment: Moment) -> Payment
    ensures { (result, draws.new) ≡ payment_drawn terminal.now moment draws.old }
{
    let home = DistrictKey {
        w_id: terminal.home.w_id,
        d_id: draws.random(1, 10),
    };
    let customer_home = customer_home(draws, terminal, home);
    let customer = choice(draws, terminal.scale);
    Payment {
        home,
        customer_home,
        customer,
        amount: draws.random(100, 500_000),
        moment,
    }
}
