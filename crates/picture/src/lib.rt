//! A picture of a schedule, as SVG: time goes down, one row for each event, with a lane for each session that submits, for each
//! executor, and for the log.
//!
//! A row shows what was scheduled and its output. The arrows between rows show which event put what another took or sent. They
//! are reconstructed by the rules of the core's messages, from the schedule and the output, as far as these determine them.
#![tactic(auto)]

mod asides;
mod course;
mod drawing;
mod drawn;
mod graph;
mod in_flight;
mod lanes;
mod marks;
mod phrase;
mod row;
mod row_marks;
mod sheet;
mod slices;
mod steps;

pub use drawing::write_picture;
