//! The numbers of a seed, drawn as the benchmark requires (TPC-C 5.11, clause 2.1.6). Each is a function
//! of the next words of a generator, so another program that draws in the same order gets the same
//! numbers.
#![tactic(auto)]

mod draws;

pub use draws::NumberDraws;
