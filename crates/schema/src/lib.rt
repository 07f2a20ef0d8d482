//! The nine tables of the order-entry database, within their scale.
#![tactic(auto)]

mod beside;
mod entries;
mod history_list;
mod numbered;
mod order_lines;
mod order_rows;
mod row_rules;
pub mod row_writes;
mod scale;
mod scale_fault;
mod table_rows;
mod tables;

pub use beside::Beside;
pub use entries::{Entries, NewOrders, Orders};
pub use history_list::HistoryList;
pub use order_lines::{Lines, OrderLines};
pub use order_rows::{
    Replaced, add_order_rows, deliver_order_rows, oldest_number, take_back_order_and_lines,
    take_back_order_rows, taken_back_order_is_as_before,
};
pub use rows::{
    Address, BrandGeneric, CarrierId, Counter, Credit, Customer, CustomerKey, District,
    DistrictKey, History, ImageId, Item, LineAmount, LineCount, LineQuantity, Moment, NewOrder,
    NextOrderId, NoMemory, Order, OrderKey, OrderLine, OrderLineKey, Price, Ranged, Stock,
    StockKey, StockQuantity, Text, TextFault, Warehouse, brand, last_name, prepend_data, restock,
};
pub use scale::Scale;
pub use scale_fault::ScaleFault;
pub use table_rows::TableRows;
pub use tables::Tables;
