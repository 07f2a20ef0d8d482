//! A meeting: in each of its rounds several places report, each once, and the last report gets all reports.
//!
//! Threads share a `Meeting`, without a lock. Of a `SoleMeeting` one owner has all places. No function waits, and only the two
//! `open` allocate.
#![tactic(auto)]

mod laws;
mod meeting;
mod place;
mod results;
mod rule;
mod sole;
mod steps;

pub use laws::{
    all_are_awaited_at_first, awaited_are_at_most_the_places, awaited_have_not_reported,
    none_awaited_where_all_reported, reports_take_one_number,
};
pub use meeting::{Convener, Meeting, Places};
pub use place::{Place, Receipt};
pub use results::{Reported, Results};
pub use rule::{Anything, Picked, Topic};
pub use sole::{SoleConvener, SoleMeeting, SoleReported, SoleResults};
