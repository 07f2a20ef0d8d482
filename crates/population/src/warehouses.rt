ghost use Rattle.std.specs.Prelude.{◌≡◌, ◌+◌, OnOk, length};
ghost use Rattle.std.specs.List.{All, AllByRecursion};
ghost use Rattle.population.specs.Rows.{IsDrawnText, IsOpeningWarehouse, IsOpeningStock};

use crate::draws::Draws;
use amounts::{Cents, Rate};
use schema::{Counter, NoMemory, Scale, Stock, StockQuantity, Text, Warehouse};

/// Returns the row of a warehouse whose ten districts have received 1,000 cents from each customer.
pub(crate) fn warehouse(draws: &mut Draws, scale: Scale) -> Warehouse
    ensures { IsOpeningWarehouse scale result }
{
    Warehouse {
        name: draws.text(6, 10),
        address: draws.address(),
        tax: Rate::new(draws.random(0, 2_000) as u16),
        ytd: Cents::new(10_000 * i64::from(scale.customers)),
    }
}

/// Adds the rows of STOCK of one warehouse, by S_I_ID.
pub(crate) fn add_stocks(
    draws: &mut Draws,
    stocks: &mut Vec<Stock>,
    items: u32,
) -> Result<(), NoMemory>
    ensures count { OnOk result (length stocks.new.items ≡ length stocks.old.items + items) }
    ensures rows { OnOk result (All IsOpeningStock stocks.old.items
        → All IsOpeningStock stocks.new.items) }
{
    for _ in 0..items {
        stocks.push(stock(draws))?;
    }
    Ok(())
}

// Returns a row of STOCK without orders so far.
fn stock(draws: &mut Draws) -> Stock
    ensures { IsOpeningStock result }
{
    Stock {
        quantity: StockQuantity::new(draws.random(10, 100)),
        dist: district_infos(draws),
        ytd: Counter::new(0),
        order_cnt: Counter::new(0),
        remote_cnt: Counter::new(0),
        data: draws.original_text(26, 50),
    }
}

// S_DIST_01 to S_DIST_10.
fn district_infos(draws: &mut Draws) -> [Text<24>; 10]
    ensures count { length result ≡ 10 }
    ensures each { AllByRecursion (IsDrawnText 24 24) result }
{
    [
        draws.text(24, 24),
        draws.text(24, 24),
        draws.text(24, 24),
        draws.text(24, 24),
        draws.text(24, 24),
        draws.text(24, 24),
        draws.text(24, 24),
        draws.text(24, 24),
        draws.text(24, 24),
        draws.text(24, 24),
    ]
}
