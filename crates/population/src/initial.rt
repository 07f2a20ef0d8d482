ghost use Rattle.std.specs.Prelude.{ℕ, IfOk};
ghost use Rattle.population.specs.Filled.{IsPopulated};
ghost use Rattle.population.specs.Population.{IsOpening};

use crate::districts::DistrictTables;
use crate::draws::Draws;
use crate::items::items;
use crate::warehouses::{add_stocks, warehouse};
use schema::{Moment, NoMemory, Scale, TableRows, Tables};
use std::alloc::Global;

/// Returns the initial population of clause 4.3.3.1 for this scale, drawn from this seed, with `now` as every date and
/// time. The same arguments give the same tables.
///
/// The draws take the words of the generator `Pcg64`, seeded by `seed_from_u64`, one after another. `random(x, y)` is x
/// plus the remainder of one word divided by y - x + 1. A text of x to y characters takes `random(x, y)` for its
/// length, and then `random(0, 61)` for each character, an index into the digits, the capital and the small letters. n
/// letters or n digits take one draw each, among 26 or 10. An original text is a text; if `random(1, 10)` is then 1,
/// the word `ORIGINAL` replaces eight characters from position `random(0, length - 8)` on. An address is three texts of
/// 10 to 20 characters, two letters, and four digits followed by `11111`. The order of the draws:
///
/// 1. For each item: I_IM_ID, 1 to 10,000; I_NAME, a text of 14 to 24; I_PRICE, 100 to 10,000 cents; and I_DATA, an
///    original text of 26 to 50.
/// 2. For each warehouse: W_NAME, a text of 6 to 10; its address; and W_TAX, 0 to 2,000. Then its stock and its
///    districts.
/// 3. For its stock of each item: S_QUANTITY, 10 to 100; S_DIST_01 to S_DIST_10, texts of 24; and S_DATA, an original
///    text of 26 to 50.
/// 4. For each of its districts: D_NAME, a text of 6 to 10; its address; and D_TAX, 0 to 2,000. Then its customers and
///    its orders. D_NEXT_O_ID is the number of its customers plus 1.
/// 5. For each customer: C_FIRST, a text of 8 to 16; the number of C_LAST; the address; C_PHONE, 16 digits;
///    `random(1, 10)`, where 1 means bad credit; C_DISCOUNT, 0 to 5,000; C_DATA, a text of 300 to 500; and for the
///    customer's payment H_DATA, a text of 12 to 24. The number of C_LAST is the customer's number less 1, without a
///    draw, up to customer 1,000; for the others it is NURand(255, 0, 999), with the constant 0 and the left number
///    drawn first.
/// 6. The customers of the district's orders: the numbers from 1 on; for k from the last down to 2, those at positions
///    k and `random(1, k)` are exchanged.
/// 7. For each order: O_CARRIER_ID, 1 to 10, unless the order is one of the last 3 in 10, which are new; and O_OL_CNT,
///    5 to 15. For each of its lines: OL_I_ID, among the items; OL_AMOUNT, 1 to 999,999 cents if the order is new, else
///    0; and OL_DIST_INFO, a text of 24.
///
/// The other values are constant. Each customer paid 1,000 cents once, so C_BALANCE is -1,000, C_YTD_PAYMENT 1,000,
/// C_PAYMENT_CNT 1, D_YTD 1,000 for each customer and W_YTD 10,000 for each customer of a district. The other counters
/// are 0, C_MIDDLE is `OE`, C_CREDIT_LIM 5,000,000, O_ALL_LOCAL 1 and OL_QUANTITY 5. The order's own warehouse supplies
/// each line.
///
/// Returns NoMemory if an allocation fails.
pub fn populate(alloc: Global, scale: Scale, seed: u32, now: Moment) -> Result<Tables, NoMemory>
    ensures { IfOk result (IsOpening scale seed now) }
{
    let mut draws = Draws::new(seed);
    let items = items(alloc, &mut draws, scale.items)?;
    let mut warehouses = Vec::new(alloc);
    let mut stocks = Vec::new(alloc);
    let mut districts = DistrictTables::new(alloc);
    for place in 0..scale.warehouses {
        warehouses.push(warehouse(&mut draws, scale))?;
        add_stocks(&mut draws, &mut stocks, scale.items)?;
        districts.add_warehouse(alloc, &mut draws, scale, now, place + 1)?;
    }
    let rows = TableRows {
        items,
        warehouses,
        districts: districts.districts,
        stocks,
        customers: districts.customers,
        histories: districts.histories,
        orders: districts.book.orders,
        new_orders: districts.book.new_orders,
        lines: districts.book.lines,
    };
    Ok(tables(scale, rows))
}

// Returns the tables of all rows of a population.
fn tables(scale: Scale, rows: TableRows) -> Tables
    requires { (seed : ℕ) × (now : ℕ) × IsPopulated scale seed now rows }
    ensures { (seed now : ℕ) → IsPopulated scale seed now rows → IsOpening scale seed now result }
{
    match Tables::checked(scale, rows) {
        Ok(tables) => tables,
        Err(_) => unreachable!(),
    }
}
