//! A word that is closed once. Whoever has found it closed has a token, which nobody else can have.
//!
//! No function waits, and only `ClosingWord::open` allocates.
#![tactic(auto)]

mod board;
mod closing;
mod rule;

pub use closing::{Closed, Closer, ClosingWord};
