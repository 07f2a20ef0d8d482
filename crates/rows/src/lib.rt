//! The rows of the nine tables of an order-entry database, and the rules that concern a single row. The
//! type of a column keeps its value in range. Clause numbers refer to TPC-C 5.11.
#![tactic(auto)]

mod copies;
mod keys;
mod limits;
mod moment;
mod names;
mod payment_note;
mod ranged;
mod records;
mod stock_rules;
mod text;

pub use keys::{CustomerKey, DistrictKey, OrderKey, OrderLineKey, StockKey};
pub use limits::{
    FEWEST_LINES, INBOX, LARGEST_INBOX, LAST_LINE, LONGEST_LOG, MOST_DRAWN_LINES, MOST_ENTRIES,
    MOST_LINES, MOST_WAREHOUSES, RECENT_LINES, SESSIONS, STOCK_GROUPS,
};
pub use moment::Moment;
pub use names::last_name;
pub use payment_note::prepend_data;
pub use ranged::{
    CarrierId, Counter, ImageId, LineAmount, LineCount, LineQuantity, NextOrderId, Price, Ranged,
    StockQuantity,
};
pub use records::{
    Address, Credit, Customer, District, History, Item, NewOrder, Order, OrderLine, Stock,
    Warehouse,
};
pub use std::alloc::AllocError as NoMemory;
pub use stock_rules::{BrandGeneric, brand, has_original_is_exact, restock, restocked_is_the_one};
pub use text::{Text, TextFault, is_printable};
