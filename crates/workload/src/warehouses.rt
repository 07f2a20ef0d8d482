ghost use Rattle.std.specs.Prelude.{◌≡◌};
ghost use Rattle.workload.specs.Warehouses.{other_drawn, supplier_drawn, customer_home_drawn};

use crate::Terminal;
use number_draws::NumberDraws;
use schema::DistrictKey;

// Returns a warehouse other than the home one, drawn uniformly; the home one if there is no other.
#[tactic(auto, unfolding(crate::specs::Warehouses::other_drawn))]
fn other_warehouse(draws: &mut NumberDraws, terminal: &Terminal) -> u32
    ensures { (result, draws.new) ≡ other_drawn terminal.now draws.old }
{
    let home = terminal.home.w_id;
    let warehouses = terminal.scale.warehouses;
    if warehouses == 1 {
        return home;
    }
    let place = draws.random(1, warehouses - 1);
    if place < home { place } else { place + 1 }
}

/// Returns the warehouse that supplies a line: the home one, unless other warehouses take part and a number from 1 to
/// 100 is 1.
#[tactic(auto, unfolding(crate::specs::Warehouses::supplier_drawn))]
pub(crate) fn supplier(draws: &mut NumberDraws, terminal: &Terminal) -> u32
    ensures { (result, draws.new) ≡ supplier_drawn terminal.now draws.old }
{
    if terminal.remote && draws.random(1, 100) == 1 {
        other_warehouse(draws, terminal)
    } else {
        terminal.home.w_id
    }
}

/// Returns the district of the customer of a payment: `home`, unless other warehouses take part and a number from 1 to
/// 100 is greater than 85.
#[tactic(auto, unfolding(crate::specs::Warehouses::customer_home_drawn, crate::specs::Warehouses::other_district_drawn))]
pub(crate) fn customer_home(
    draws: &mut NumberDraws,
    terminal: &Terminal,
    home: DistrictKey,
) -> DistrictKey
    ensures { (result, draws.new) ≡ customer_home_drawn terminal.now home draws.old }
{
    if terminal.remote && draws.random(1, 100) > 85 {
        let d_id = draws.random(1, 10);
        DistrictKey {
            w_id: other_warehouse(draws, terminal),
            d_id,
        }
    } else {
        home
    }
}
