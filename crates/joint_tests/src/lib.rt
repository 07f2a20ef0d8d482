//! Tests of what no run of the program can show: a seat, marks and a claim in threads; scripts held up at a gate; an interactive
//! session; a row under a claim; where rows are in memory; a source that fails in mid-stream; a picture of a request that was
//! refused with NoMemory; values of small functions; and calls that no command makes.
#![tactic(auto)]

#[cfg(test)]
mod tests;
