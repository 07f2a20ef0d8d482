//! Tests of meetings: of those that threads share, and of those of which one owner has all places.
#![tactic(auto)]

#[cfg(test)]
mod sole;
#[cfg(test)]
mod tests;
