//! A test of public calls that nothing else makes: a world that runs a list of events, its log and its tables.
#![tactic(auto)]

#[cfg(test)]
mod tests;
