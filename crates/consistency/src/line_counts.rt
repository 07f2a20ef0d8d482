ghost use Rattle.std.specs.Prelude.{◌≡◌, ◌↔◌, ◌==◌, IsTrue, length, map, sum};
ghost use Rattle.schema.specs.Consistency.{orders_of, lines_of, OrdersCountLines, DistrictsCountLines};
ghost use Rattle.schema.specs.Consistency.{CountsLines};

use crate::order_numbers::all_districts;
use rows::{DistrictKey, Order, OrderKey};
use schema::Tables;

/// Whether O_OL_CNT of each order is the number of its lines (clause 3.3.2.6).
pub(crate) fn orders_count_lines(tables: &Tables) -> bool
    ensures { IsTrue result ↔ OrdersCountLines tables.now }
{
    tables
        .orders()
        .all(|(key, order)| order_counts_lines(tables, key, order))
}

/// Whether the sum of O_OL_CNT is the number of lines, in each district (clause 3.3.2.4).
pub(crate) fn districts_count_lines(tables: &Tables) -> bool
    ensures { IsTrue result ↔ DistrictsCountLines tables.now }
{
    all_districts(tables.scale(), |home| district_counts_lines(tables, home))
}

fn order_counts_lines(tables: &Tables, key: OrderKey, order: &Order) -> bool
    ensures { result ≡ (order.now.ol_cnt == length (lines_of tables.now key)) }
{
    order.ol_cnt.get() as usize == tables.line_count(key)
}

fn district_counts_lines(tables: &Tables, home: DistrictKey) -> bool
    ensures { IsTrue result ↔ CountsLines tables.now home }
{
    sum_line_counts(tables, home) == tables.lines_of_district(home).count()
}

// The sum of O_OL_CNT over the orders of the district.
fn sum_line_counts(tables: &Tables, home: DistrictKey) -> usize
    ensures { result ≡ sum (map (λ order. order.1.ol_cnt) (orders_of tables.now home)) }
{
    let mut lines = 0;
    for (_, order) in tables.orders_of(home) {
        lines += order.ol_cnt.get() as usize;
    }
    lines
}
