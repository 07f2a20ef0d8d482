//! The fields of the records of scripts, moves, schedules and logs, by name.

use crate::meaning::replies::reply;
use crate::meaning::search::Search;
use crate::meaning::spelling::Spelling;
use files::{FaultKind, parse_whole};

// The first words of the records of a schedule.
const EVENTS: Spelling = Spelling::Said("one of S, M, T, X and R, or END");

// The first words of requests.
const REQUESTS: Spelling = Spelling::Said("one of N, P, O, D and L");

// How many fields a request has in a log, including its letter.
const SIZES: Spelling = Spelling::Said(
    "8 of P, 5 of D, 4 of O and L, and of N 5 and 3 for each line, 64 at most",
);

/// Searches the fields of an end record, before which there are `count` records.
pub fn end(search: &mut Search<'_>, count: u64) {
    search.field("the word of the end record", Spelling::Said("END"));
    search.field("how many records there are", Spelling::Count(count));
}

/// Searches the fields of a move.
pub fn move_order(search: &mut Search<'_>) {
    search.field("the first warehouse", Spelling::NUMBER);
    search.field("the last warehouse", Spelling::NUMBER);
    search.field("the executor", Spelling::NUMBER);
}

/// Searches the fields of an item of a schedule.
pub fn scheduled(search: &mut Search<'_>) {
    match search.word("the letter", EVENTS) {
        "S" => {
            search.field("the session", Spelling::NUMBER);
            search.field("the number of the request", Spelling::NUMBER);
            request(search);
        }
        "M" => move_order(search),
        "T" | "X" => search.field("the executor", Spelling::NUMBER),
        "R" => {}
        _ => search.refuse(FaultKind::WrongShape, 1, "the letter", EVENTS),
    }
}

/// Searches the fields of an entry of a log, at that place.
pub fn entry(search: &mut Search<'_>, place: u64) {
    search.field("the place", Spelling::Place(place));
    search.field("the session", Spelling::NUMBER);
    search.field("the number of the request", Spelling::NUMBER);
    let name = "how many fields the request has";
    let word = search.word(name, SIZES);
    match parse_whole(word, 0, u64::MAX) {
        Ok(count) => {
            if request_of(search, count) != Some(count) {
                search.refuse(FaultKind::WrongShape, 4, name, SIZES);
            }
            reply(search);
        }
        Err(FaultKind::OutOfRange) => search.refuse(FaultKind::WrongShape, 4, name, SIZES),
        Err(kind) => search.refuse(kind, 4, name, SIZES),
    }
}

/// Searches the fields of what a terminal asks for, which are all that are left. A Delivery is of a warehouse.
pub fn terminal_request(search: &mut Search<'_>) {
    let count = search.left() as u64;
    match search.word("the letter of the request", REQUESTS) {
        "D" => {
            search.field("W_ID", Spelling::NUMBER);
            search.field("O_CARRIER_ID", Spelling::NUMBER);
            search.field("OL_DELIVERY_D", Spelling::Moment);
        }
        letter => {
            fields_of(search, letter, count);
        }
    }
}

// Searches the fields of a request, which are all that are left.
fn request(search: &mut Search<'_>) {
    let count = search.left() as u64;
    request_of(search, count);
}

// Searches the fields of a request that should have `count` fields, including its letter. Returns how many its kind
// has; `None` if its letter is unknown.
fn request_of(search: &mut Search<'_>, count: u64) -> Option<u64> {
    let letter = search.word("the letter of the request", REQUESTS);
    fields_of(search, letter, count)
}

// Searches the fields of a request after its letter. The same is returned.
fn fields_of(search: &mut Search<'_>, letter: &str, count: u64) -> Option<u64> {
    match letter {
        "N" => Some(new_order(search, count)),
        "P" => {
            search.field("W_ID", Spelling::NUMBER);
            search.field("D_ID", Spelling::NUMBER);
            search.field("C_W_ID", Spelling::NUMBER);
            search.field("C_D_ID", Spelling::NUMBER);
            search.field("C_ID or C_LAST", Spelling::Choice);
            search.field("H_AMOUNT", Spelling::NUMBER);
            search.field("H_DATE", Spelling::Moment);
            Some(8)
        }
        "O" => {
            search.field("C_W_ID", Spelling::NUMBER);
            search.field("C_D_ID", Spelling::NUMBER);
            search.field("C_ID or C_LAST", Spelling::Choice);
            Some(4)
        }
        "D" => {
            search.field("W_ID", Spelling::NUMBER);
            search.field("D_ID", Spelling::NUMBER);
            search.field("O_CARRIER_ID", Spelling::NUMBER);
            search.field("OL_DELIVERY_D", Spelling::Moment);
            Some(5)
        }
        "L" => {
            search.field("W_ID", Spelling::NUMBER);
            search.field("D_ID", Spelling::NUMBER);
            search.field("the threshold", Spelling::NUMBER);
            Some(4)
        }
        _ => {
            let place = search.taken();
            let name = "the letter of the request";
            search.refuse(FaultKind::WrongShape, place, name, REQUESTS);
            None
        }
    }
}

// Searches the fields of a New-Order and returns how many it has, including its letter.
fn new_order(search: &mut Search<'_>, count: u64) -> u64 {
    search.field("W_ID", Spelling::NUMBER);
    search.field("D_ID", Spelling::NUMBER);
    search.field("C_ID", Spelling::NUMBER);
    search.field("O_ENTRY_D", Spelling::Moment);
    let there = search.left() as u64 / 3;
    let lines = (count.saturating_sub(5) / 3).min(there).min(64);
    for _ in 0..lines {
        search.field("OL_I_ID", Spelling::NUMBER);
        search.field("OL_SUPPLY_W_ID", Spelling::NUMBER);
        search.field("OL_QUANTITY", Spelling::NUMBER);
    }
    lines.saturating_mul(3).saturating_add(5)
}
