ghost use Rattle.std.specs.Prelude.{◌↔◌, IsTrue};
ghost use Rattle.schema.specs.Consistency.{WarehousesSumDistricts, WarehousesSumPayments, DistrictsSumPayments};

use crate::totals::{districts_total, lists_total, payments_total};
use schema::Tables;

/// Condition 1 (clause 3.3.2.1): W_YTD is the sum of D_YTD of the warehouse's districts.
pub(crate) fn warehouses_sum_districts(tables: &Tables) -> bool
    ensures { IsTrue result ↔ WarehousesSumDistricts tables.now }
{
    let rows = tables.rows();
    for (place, warehouse) in rows.warehouses.iter().enumerate() {
        let districts = &rows.districts[10 * place..10 * place + 10];
        if i128::from(warehouse.ytd.get()) != districts_total(districts) {
            return false;
        }
    }
    true
}

/// Condition 8 (clause 3.3.2.8): W_YTD is the sum of H_AMOUNT of the warehouse.
pub(crate) fn warehouses_sum_payments(tables: &Tables) -> bool
    ensures { IsTrue result ↔ WarehousesSumPayments tables.now }
{
    let rows = tables.rows();
    for (place, warehouse) in rows.warehouses.iter().enumerate() {
        let lists = &rows.histories[10 * place..10 * place + 10];
        if i128::from(warehouse.ytd.get()) != lists_total(lists) {
            return false;
        }
    }
    true
}

/// Condition 9 (clause 3.3.2.9): D_YTD is the sum of H_AMOUNT of the district.
pub(crate) fn districts_sum_payments(tables: &Tables) -> bool
    ensures { IsTrue result ↔ DistrictsSumPayments tables.now }
{
    let rows = tables.rows();
    for (place, district) in rows.districts.iter().enumerate() {
        if i128::from(district.ytd.get()) != payments_total(rows.histories[place].rows()) {
            return false;
        }
    }
    true
}
