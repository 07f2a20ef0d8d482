//! The definitions of the transactions, and the plain engine, which carries out one request at a time on all tables.
//! Clause numbers are those of TPC-C 5.11.
#![tactic(auto)]

mod choosing;
mod delivery;
mod laws;
mod new_order;
mod new_order_lines;
mod order_status;
mod payment;
mod plain;
mod stock_level;

pub use choosing::chosen;
pub use delivery::delivery_reply;
pub use laws::{
    delivery_keeps_consistency, delivery_keeps_other_groups, delivery_reads_its_groups,
    new_order_keeps_consistency, new_order_keeps_other_groups, new_order_reads_its_groups,
    payment_is_local, payment_keeps_consistency, payment_keeps_other_groups, payment_keeps_scale,
    payment_keeps_sums, payment_reads_its_groups, requests_keep_consistency,
    stock_level_reads_its_groups, transaction_keeps_consistency, transaction_keeps_other_groups,
    transaction_reads_its_groups,
};
pub use new_order::{district_ordered, new_order_reply, order_row};
pub use new_order_lines::{
    LinePlaced, line_row, line_shown, place_line, quantity_after, stock_taken,
};
pub use order_status::{latest_shown, status_reply};
pub use payment::{
    customer_paid, district_paid, history_row, payment_reply, payment_row, warehouse_paid,
};
pub use plain::Plain;
pub use stock_level::{low_stock, recent_items, stock_level_reply};
