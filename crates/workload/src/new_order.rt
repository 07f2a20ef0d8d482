ghost use Rattle.std.specs.Prelude.{◌≡◌, IfOk};
ghost use Rattle.workload.specs.NewOrders.{item_drawn, line_drawn, lines_drawn, new_order_drawn};

use crate::Terminal;
use crate::customers::customer_number;
use crate::warehouses::supplier;
use number_draws::NumberDraws;
use requests::{Lines, NewOrder, OrderedLine};
use rows::{FEWEST_LINES, MOST_DRAWN_LINES};
use schema::{DistrictKey, Moment, NoMemory, Scale};
use std::alloc::Global;

// The constant C of clause 2.1.6 for OL_I_ID.
const ITEM_CONSTANT: u32 = 4_000;

/// Draws a New-Order of the terminal (clause 2.4.1). If a number from 1 to 100 is 1, its last line names an item that
/// does not exist, so that the order is rolled back.
#[tactic(auto, using(number_draws::proofs::Generators::beyond_twice), unfolding(crate::specs::NewOrders::new_order_drawn))]
pub(crate) fn new_order(
    alloc: Global,
    draws: &mut NumberDraws,
    terminal: &Terminal,
    moment: Moment,
) -> Result<NewOrder, NoMemory>
    ensures { IfOk result
        (λ order. (order, draws.new) ≡ new_order_drawn terminal.now moment draws.old) }
{
    let home = DistrictKey {
        w_id: terminal.home.w_id,
        d_id: draws.random(1, 10),
    };
    let c_id = customer_number(draws, terminal.scale);
    let count = draws.random(FEWEST_LINES as u32, MOST_DRAWN_LINES);
    let rolls_back = draws.random(1, 100) == 1;
    let lines = lines(alloc, draws, terminal, count, rolls_back)?;
    Ok(NewOrder {
        home,
        c_id,
        moment,
        lines,
    })
}

// Draws `count` lines. If the order is to be rolled back, the last one names an item that does not exist.
fn lines(
    alloc: Global,
    draws: &mut NumberDraws,
    terminal: &Terminal,
    count: u32,
    rolls_back: bool,
) -> Result<Lines<OrderedLine>, NoMemory>
    ensures { IfOk result
        (λ lines. (lines, draws.new) ≡ lines_drawn terminal.now rolls_back count draws.old) }
{
    let mut lines = Vec::new(alloc);
    for left in (0..count).rev() {
        let unused = rolls_back && left == 0;
        lines.push(line(draws, terminal, unused))?;
    }
    Ok(Lines::new(lines))
}

// Draws a line. If it is to be unused, its item does not exist.
#[tactic(auto, unfolding(crate::specs::NewOrders::line_drawn))]
fn line(draws: &mut NumberDraws, terminal: &Terminal, unused: bool) -> OrderedLine
    ensures { (result, draws.new) ≡ line_drawn terminal.now unused draws.old }
{
    let i_id = item(draws, terminal.scale, unused);
    let supply_w_id = supplier(draws, terminal);
    OrderedLine {
        i_id,
        supply_w_id,
        quantity: draws.random(1, 10),
    }
}

// Returns the I_ID of an item, a non-uniform random number. If it is to be unused, returns the number after the last
// item, without a draw.
#[tactic(auto, unfolding(crate::specs::NewOrders::item_drawn))]
fn item(draws: &mut NumberDraws, scale: Scale, unused: bool) -> u32
    ensures { (result, draws.new) ≡ item_drawn scale unused draws.old }
{
    if unused {
        scale.items + 1
    } else {
        draws.nu_rand(8_191, ITEM_CONSTANT, 1, scale.items)
    }
}
