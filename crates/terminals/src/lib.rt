//! The files of terminals: scripts of requests, records of answers, logs of what was carried out, moves of warehouses,
//! schedules of events, and the output of schedules.
//!
//! All of them are CSV without a header row. Each record ends with one line feed. Numbers are decimal digits without leading
//! zeros, with `-` before a negative one.
//!
//! A script has one record for each request of the terminal, and then `END,n` with the number of these records. The number of a
//! record is its place from 0. A New-Order is `N,w,d,c,moment`: the warehouse, the district and C_ID of the customer, and O_ENTRY_D; then
//! `item,supply,quantity` for each of 0 to 64 lines. A payment is `P,w,d,cw,cd,who,amount,moment`: the home warehouse and
//! district, those of the customer, the customer (`#` and C_ID, or C_LAST), H_AMOUNT in cents, and H_DATE. An Order-Status is
//! `O,w,d,who`: the customer's warehouse and district, and the customer. A Delivery is `D,w,carrier,moment`, with O_CARRIER_ID
//! and OL_DELIVERY_D; it stands for ten Deliveries, of districts 1 to 10, which have its number. A Stock-Level is
//! `L,w,d,threshold`. In schedules and in logs requests have the same fields, but a Delivery is `D,w,d,carrier,moment`.
//!
//! An answer is `session,number,done,place` and the reply's fields, or `session,number,refused,code`, with the group and the
//! holder's age after code 11. A log has the record `place,session,number,k` for each entry, followed by the `k` fields of the
//! request and those of the reply, and then `END,n`.
//!
//! The reply to a New-Order is `N,last,credit,discount,w_tax,d_tax,o_id,entry,total` and, for each line by OL_NUMBER,
//! `supply,item,name,quantity,s_quantity,brand,price,amount`, where brand is `B` or `G`. The reply to a payment is
//! `P,c_id,first,middle,last,credit,discount,balance,data`.
//!
//! The reply to an Order-Status is `O,c_id,first,middle,last,balance,o_id,entry,carrier` and, for each line of the order by
//! OL_NUMBER, `item,supply,quantity,amount,delivery`. Null is the empty field. If the customer has no order, the three fields
//! of the order are empty and no line follows.
//!
//! The reply to a Delivery is `D,d,carrier,order`: the district, the carrier, and the number of the delivered order or the empty
//! field. The reply to a Stock-Level is `L,count`. A rollback is `X,nocustomer`, `X,range`, or `X,noitem,last,credit,o_id`, with
//! the number that the order would have had, 1 to 10,000,000.
//!
//! A file of moves has the record `lo,hi,to` for each move, and then `END,n` with the number of moves. The warehouses from
//! number `lo` to number `hi` go to executor `to`.
//!
//! A schedule has the records `S,session,number` with the fields of a request, which is submitted; `M,lo,hi,to`, which orders a
//! move of the warehouses from `lo` to `hi` to executor `to`; `T,executor`, where an executor takes a message; `X,executor`,
//! where it sends an item; and `R` for rounds. Then comes `END,n` with the number of records before it. The output of a
//! schedule has a record for each event, `accepted,age`, `ordered`, `took`, `sent`, `full`, `logged,place`, `moved`, `answered`
//! and the fields of the answer, or `nothing`, and a record for rounds that ended, `quiet` or `limit`. A change of a lock table
//! is `locks,w` and for each entry the group's name, `shared` or `exclusive` with the ages of the holders, and `waiting` with
//! the ages of those that wait.
#![tactic(auto)]

mod answers;
mod choice;
mod delivery;
mod laws;
mod listing;
mod lock_changes;
mod log_records;
mod move_order;
mod moves;
mod new_order;
mod order_status;
mod outputs;
mod payment;
mod reply;
mod request;
mod schedules;
mod scripts;
mod stock_level;

pub use answers::{answer_record, write_answers};
pub use files::{FaultKind, FileError, FileFault, Input, Reader};
pub use laws::{
    choice_texts_differ, logs_are_read, logs_differ, moves_are_read, moves_differ,
    schedules_are_read, schedules_differ, scripts_are_read, scripts_differ,
};
pub use log_records::{log_record, read_log, write_log};
pub use moves::read_moves;
pub use outputs::write_outputs;
pub use schedules::read_schedule;
pub use scripts::{read_script, write_script};
