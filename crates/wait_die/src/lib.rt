//! Wait-die: a want waits only for younger holders, and dies if a conflicting holder is not younger. So
//! ages rise along each chain of waits, and no transaction waits for itself, even through others.
//!
//! No function waits or allocates.
#![tactic(auto)]

mod deciding;

pub use deciding::{Age, Decision, Holder, verdict};
