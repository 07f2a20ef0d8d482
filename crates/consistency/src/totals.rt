ghost use Rattle.std.specs.Prelude.{◌≡◌, ◌≤◌, ◌^◌, length};
ghost use Rattle.schema.specs.Consistency.{amounts_of};
ghost use Rattle.consistency.specs.Totals.{sum_of, IsWithin};

use schema::{District, History, HistoryList};

/// The sum of the payments' amounts. It fits in 128 bits, however many payments there are.
pub(crate) fn payments_total(payments: &[History]) -> i128
    ensures value { result ≡ amounts_of payments.now }
    ensures within { IsWithin (2 ^ 114) result }
{
    let mut total = 0;
    for payment in payments {
        total += i128::from(payment.amount.get());
    }
    total
}

/// The sum of the amounts of all payments of these lists.
pub(crate) fn lists_total(lists: &[HistoryList]) -> i128
    requires { length lists.now ≤ 10 }
    ensures { result ≡ sum_of amounts_of lists.now }
{
    let mut total = 0;
    for list in lists {
        total += payments_total(list.rows());
    }
    total
}

/// The sum of D_YTD of the districts.
pub(crate) fn districts_total(districts: &[District]) -> i128
    ensures { result ≡ sum_of (λ district. district.ytd) districts.now }
{
    let mut total = 0;
    for district in districts {
        total += i128::from(district.ytd.get());
    }
    total
}
