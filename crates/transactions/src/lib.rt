//! Transactions as flow graphs: phases one after another, and in each phase actions that run at the same time, in any order,
//! under claims. The results of a phase's actions are gathered, and the next phase is made of them.
//!
//! Each kind of transaction has a module of its own: its actions and what they find, its phases, and its law. `Work`, `Found` and
//! `Progress` are sums over the kinds.
//!
//! An action works at one warehouse. It claims all groups that its work needs or none, exclusively those that it changes and
//! shared those that it only reads, and gives them back once its work is committed or undone. When all actions of a phase have
//! done their work, in whatever order, the facts that the next phase needs hold; or the machine carries the request out with the
//! same reply, and leaves what the claims leave. This is `FollowsFrom`, the contract of `Progress::gather`. Clause numbers are
//! those of TPC-C 5.11.
#![tactic(auto)]

mod acting;
pub mod delivery;
mod holding;
mod laws;
mod listed;
mod logging;
pub mod new_order;
pub mod order_status;
pub mod payment;
mod progress;
mod shard;
mod sorting;
pub mod stock_level;
mod work;

pub use acting::{Ran, settle, undo};
pub use holding::HeldClaims;
pub use laws::{
    MOST_ACTIONS, accepted_requests_have_their_groups, actions_can_do_their_work,
    claims_are_of_the_footprint, phases_have_actions, reached_requests_are_accepted,
    rolled_back_claims_can_be_undone, transactions_have_few_actions, works_are_at_warehouses,
    works_are_done_at_home, works_claim_at_home, works_have_group_wants, works_have_their_groups,
};
pub use listed::Listed;
pub use logging::Logged;
pub use progress::{Gathered, Progress};
pub use shard::{Acted, Parked, Shard, Turned};
pub use sorting::Sorted;
pub use work::{Found, Work, home_of_request, run};
