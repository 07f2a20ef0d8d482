//! Datasets: the nine tables of the order-entry database as a file.
//!
//! A dataset is CSV without a header row. Its first record is `TPCC,2,warehouses,items,customers`. The
//! rows of ITEM, WAREHOUSE, DISTRICT, STOCK, CUSTOMER, HISTORY, ORDER and NEW-ORDER follow, one record
//! each, which begins with the table's letter `I`, `W`, `D`, `S`, `C`, `H`, `O` or `N`. Keys ascend; the
//! rows of HISTORY, which have no key, ascend by district. The record of an order ends with its rows of
//! ORDER-LINE, by ascending OL_NUMBER. The last record is `END` and the counts of rows of the nine
//! tables, ORDER-LINE last.
//!
//! That is format 2, which is written. Format 1 is read too: its header has the number 1, a row of
//! ORDER-LINE has a record of its own, which begins with its key and has the letter `L`, and these
//! records come last. A dataset of format 1 has at most 64 warehouses and at most 15 lines of an order.
//!
//! The record of a row contains its letter, its key and its other columns, in the order of the
//! standard. Money is in cents, a rate is in ten-thousandths, a moment is `YYYY-MM-DDTHH:MM:SS`, and an
//! empty field is null. A record of HISTORY contains the district whose list contains the payment, and
//! then the customer who paid.
#![tactic(auto)]

mod customers;
mod districts;
mod end;
mod format;
mod header;
mod histories;
mod items;
mod laws;
mod lines;
mod loader;
mod moments;
mod new_orders;
mod orders;
mod place;
mod ranges;
mod reader;
mod recorded;
mod stocks;
mod warehouses;
mod writer;

pub use files::{FaultKind, FileError, FileFault, Input, Reader};
pub use format::Format;
pub use laws::{different_tables_have_different_records, records_report_tables};
pub use ranges::columns_are_in_range;
pub use reader::{read, read_scale};
pub use writer::write;
