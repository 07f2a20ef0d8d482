//! Scripts of requests, as the benchmark's terminals would make them (TPC-C 5.11, clauses 2.4.1, 2.5.1,
//! 2.6.1, 2.7.1, 2.8.1 and 5.2.4.2), drawn from a seed at any scale.
#![tactic(auto)]

mod customers;
mod decks;
mod kind;
mod mix;
mod new_order;
mod payment;
mod request_draws;
mod script;
mod sessions;
mod terminal;
mod warehouses;

pub use kind::Kind;
pub use mix::Mix;
pub use script::draw_script;
pub use sessions::Workload;
pub use terminal::Terminal;
