//! The fields of replies, by name.

use crate::meaning::search::Search;
use crate::meaning::spelling::Spelling;
use files::FaultKind;

// The first words of replies.
const REPLIES: Spelling = Spelling::Said("one of N, P, O, D, L and X");

// The words for the reason of a rollback.
const REASONS: Spelling = Spelling::Said("one of nocustomer, noitem and range");

/// Searches the fields of a reply.
pub fn reply(search: &mut Search<'_>) {
    match search.word("the letter of the reply", REPLIES) {
        "N" => new_order_reply(search),
        "P" => {
            name_of_customer(search);
            search.field("C_CREDIT", Spelling::Credit);
            search.field("C_DISCOUNT", Spelling::RATE);
            search.field("C_BALANCE", Spelling::Money);
            search.field("C_DATA", Spelling::Text(200));
        }
        "O" => order_status_reply(search),
        "D" => {
            search.field("D_ID", Spelling::Whole(1, 10));
            search.field("O_CARRIER_ID", Spelling::Whole(1, 10));
            search.field("O_ID", Spelling::MaybeWhole(1, 9_999_999));
        }
        "L" => search.field("the number of items", Spelling::NUMBER),
        "X" => fault(search),
        _ => {
            let place = search.taken();
            let name = "the letter of the reply";
            search.refuse(FaultKind::WrongShape, place, name, REPLIES);
        }
    }
}

fn name_of_customer(search: &mut Search<'_>) {
    search.field("C_ID", Spelling::NUMBER);
    search.field("C_FIRST", Spelling::Text(16));
    search.field("C_MIDDLE", Spelling::Text(2));
    search.field("C_LAST", Spelling::Text(16));
}

fn new_order_reply(search: &mut Search<'_>) {
    search.field("C_LAST", Spelling::Text(16));
    search.field("C_CREDIT", Spelling::Credit);
    search.field("C_DISCOUNT", Spelling::RATE);
    search.field("W_TAX", Spelling::RATE);
    search.field("D_TAX", Spelling::RATE);
    search.field("O_ID", Spelling::Whole(1, 9_999_999));
    search.field("O_ENTRY_D", Spelling::Moment);
    search.field("the total", Spelling::Money);
    for _ in 0..(search.left() / 8).min(64) {
        search.field("OL_SUPPLY_W_ID", Spelling::NUMBER);
        search.field("OL_I_ID", Spelling::NUMBER);
        search.field("I_NAME", Spelling::Text(24));
        search.field("OL_QUANTITY", Spelling::Whole(1, 10));
        search.field("S_QUANTITY", Spelling::Whole(10, 100));
        search.field("brand or generic", Spelling::Brand);
        search.field("I_PRICE", Spelling::Whole(1, 99_999));
        search.field("OL_AMOUNT", Spelling::Whole(0, 999_999));
    }
}

fn order_status_reply(search: &mut Search<'_>) {
    name_of_customer(search);
    search.field("C_BALANCE", Spelling::Money);
    if search.next_is_empty() {
        search.field("O_ID", Spelling::Nothing);
        search.field("O_ENTRY_D", Spelling::Nothing);
        search.field("O_CARRIER_ID", Spelling::Nothing);
        return;
    }
    search.field("O_ID", Spelling::Whole(1, 9_999_999));
    search.field("O_ENTRY_D", Spelling::Moment);
    search.field("O_CARRIER_ID", Spelling::MaybeWhole(1, 10));
    for _ in 0..search.left() / 5 {
        search.field("OL_I_ID", Spelling::NUMBER);
        search.field("OL_SUPPLY_W_ID", Spelling::NUMBER);
        search.field("OL_QUANTITY", Spelling::Whole(1, 10));
        search.field("OL_AMOUNT", Spelling::Whole(0, 999_999));
        search.field("OL_DELIVERY_D", Spelling::MaybeMoment);
    }
}

// Searches the fields of a rollback behind its letter.
fn fault(search: &mut Search<'_>) {
    match search.word("why nothing changed", REASONS) {
        "nocustomer" | "range" => {}
        "noitem" => {
            search.field("C_LAST", Spelling::Text(16));
            search.field("C_CREDIT", Spelling::Credit);
            search.field("O_ID", Spelling::Whole(1, 10_000_000));
        }
        _ => {
            let place = search.taken();
            let name = "why nothing changed";
            search.refuse(FaultKind::WrongShape, place, name, REASONS);
        }
    }
}
