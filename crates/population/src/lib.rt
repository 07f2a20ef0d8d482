//! The initial population of the nine tables (clause 4.3.3 of TPC-C 5.11), drawn from a seed.
#![tactic(auto)]

mod append;
mod customers;
mod districts;
mod draws;
mod initial;
mod items;
mod order_book;
mod order_rows;
mod owners;
mod profile;
mod warehouses;

pub use initial::populate;
