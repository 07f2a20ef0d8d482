//! Tickets: claims on groups as shares of agreements (strict locking). A group has eight tickets, a seat
//! of the log and a seat of the slice, which together are ten shares of one agreement on the group's
//! committed content. A shared claim holds one ticket, and the content that it records can't change
//! meanwhile. An exclusive claim holds all eight tickets and the slice's seat, and the content changes
//! only by that claim and the log together.
//!
//! `specs/Committed.antt` defines what is committed in a slice's groups while claims are out, and how
//! each step changes it. `src/laws.rt` has the proved laws.
//!
//! No function waits, and only the opening allocates.
#![tactic(auto)]

mod claim;
mod claims;
mod group_names;
mod laws;
mod log_seat;
mod log_seats;
mod opening;
mod places;
mod ticket_box;
mod work;

pub use claim::Claim;
pub use claims::Claims;
pub use group_names::GroupNames;
pub use laws::{
    claims_elsewhere_say_nothing, claims_given_back_keep_committed,
    claims_record_what_is_committed, commits_make_the_next_tables, exclusive_claims_are_alone,
    grants_keep_committed, only_what_is_here_counts, order_does_not_matter, rest_is_committed,
    seats_record_the_tables, steps_keep_committed, undos_keep_committed, writes_keep_committed,
};
pub use log_seat::LogSeat;
pub use log_seats::LogSeats;
pub use opening::{GroupSeats, named_all};
pub use places::{GROUPS_PER_WAREHOUSE, group_at, place_of};
pub use ticket_box::{TICKETS, TicketBox};
