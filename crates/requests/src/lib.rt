//! The requests of terminals, their check, and their answers. Clauses are those of TPC-C 5.11.
#![tactic(auto)]

mod answer;
mod checks;
mod delivery;
mod group;
mod last_name;
mod lines;
mod new_order;
mod order_status;
mod payment;
mod refusal;
mod reply;
mod request;
mod script;
mod shown_data;
mod stock_level;
mod terminal_request;

pub use answer::Answer;
pub use checks::check;
pub use delivery::{Delivery, DeliveryReply};
pub use group::Group;
pub use last_name::LastName;
pub use lines::Lines;
pub use new_order::{NewOrder, NewOrderLine, NewOrderReply, OrderedLine};
pub use order_status::{OrderStatus, OrderStatusReply, StatusLine, StatusOrder};
pub use payment::{Payment, PaymentReply};
pub use refusal::Refusal;
pub use reply::{Fault, Reply, Shown};
pub use request::{Choice, Request};
pub use script::{MOST_REQUESTS, Part, Script, parts_of_records_differ};
pub use shown_data::ShownData;
pub use stock_level::{StockLevel, StockLevelReply};
pub use terminal_request::{TerminalRequest, WarehouseDelivery};
