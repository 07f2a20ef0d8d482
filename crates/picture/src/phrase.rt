//! The texts of a picture.
use crate::row::{Deed, Kind, RowAnswer};
use range_moves::MoveOrder;
use requests::{Group, Refusal};
use std::fmt;

/// The content of a text.
#[derive(Clone, Copy)]
pub enum Phrase {
    Heading(Heading),
    /// The number of an item of the schedule.
    Number(u64),
    /// What was scheduled, as far as it is shown.
    Deed(Deed),
    /// Rounds that were scheduled.
    Rounds,
    /// The output, as far as it is shown.
    RowAnswer(RowAnswer),
    /// A place in the log.
    Place(u32),
    /// The groups of a claim.
    One(Group),
    Two(Group, Group),
    /// All groups of a warehouse's stock, from the first to the last.
    All(Group, Group),
    /// What was taken or sent for the transaction of this age.
    Start { age: u64 },
    Act { place: usize, age: u64 },
    Report { place: usize, age: u64 },
    Commit { age: u64 },
    Reply { age: u64 },
    Settle { place: usize, age: u64 },
    Undo { place: usize, age: u64 },
    Ended { place: usize, age: u64 },
    /// What was taken or sent for a move: its order, a request for the slice of a warehouse, the slice itself, and the report
    /// of its arrival.
    Move { lo: u32, hi: u32 },
    Fetch { w_id: u32 },
    Parcel { w_id: u32 },
    Arrival { w_id: u32 },
    /// The message that was taken waits for the slice of its warehouse.
    Parked,
    /// From here on it is unknown what is taken and sent.
    Unknown,
    /// The events of rounds are not shown.
    NotShown,
}

/// The heading of a lane or a column.
#[derive(Clone, Copy)]
pub enum Heading {
    Event,
    Scheduled,
    Session,
    Executor,
    Claims,
    Takes,
    Sends,
    Log,
    RowAnswer,
    TakenOrSent,
}

impl fmt::Display for Heading {
    ghost use Rattle.std.specs.Prelude.{Some};
    ghost use Rattle.picture.specs.Phrases.{heading_text};

    ghost output = { λ heading. Some (heading_text heading) };

    fn fmt<W: fmt::Write>(&self, f: &mut fmt::Formatter<W>) -> fmt::Result {
        match self {
            Heading::Event => write!(f, "event"),
            Heading::Scheduled => write!(f, "scheduled"),
            Heading::Session => write!(f, "session"),
            Heading::Executor => write!(f, "executor"),
            Heading::Claims => write!(f, "claims"),
            Heading::Takes => write!(f, "takes"),
            Heading::Sends => write!(f, "sends"),
            Heading::Log => write!(f, "log"),
            Heading::RowAnswer => write!(f, "told"),
            Heading::TakenOrSent => write!(f, "taken or sent"),
        }
    }
}

impl fmt::Display for Kind {
    ghost use Rattle.std.specs.Prelude.{Some};
    ghost use Rattle.picture.specs.Phrases.{kind_text};

    ghost output = { λ kind. Some (kind_text kind) };

    fn fmt<W: fmt::Write>(&self, f: &mut fmt::Formatter<W>) -> fmt::Result {
        match self {
            Kind::NewOrder => write!(f, "N"),
            Kind::Payment => write!(f, "P"),
            Kind::OrderStatus => write!(f, "O"),
            Kind::Delivery => write!(f, "D"),
            Kind::StockLevel => write!(f, "L"),
        }
    }
}

impl fmt::Display for Deed {
    ghost use Rattle.std.specs.Prelude.{Some};
    ghost use Rattle.picture.specs.Phrases.{deed_text};

    ghost output = { λ deed. Some (deed_text deed) };

    fn fmt<W: fmt::Write>(&self, f: &mut fmt::Formatter<W>) -> fmt::Result {
        match *self {
            Deed::Submit {
                session,
                number,
                kind,
            } => write!(f, "S,{session},{number},{kind}"),
            Deed::Order(MoveOrder { lo, hi, to }) => write!(f, "M,{lo},{hi},{to}"),
            Deed::Take { executor } => write!(f, "T,{executor}"),
            Deed::Send { executor } => write!(f, "X,{executor}"),
        }
    }
}

impl fmt::Display for RowAnswer {
    ghost use Rattle.std.specs.Prelude.{Some};
    ghost use Rattle.picture.specs.Phrases.{reported_text};

    ghost output = { λ reported. Some (reported_text reported) };

    fn fmt<W: fmt::Write>(&self, f: &mut fmt::Formatter<W>) -> fmt::Result {
        match *self {
            RowAnswer::Accepted { age } => write!(f, "accepted,{age}"),
            RowAnswer::Ordered => write!(f, "ordered"),
            RowAnswer::Took => write!(f, "took"),
            RowAnswer::Sent => write!(f, "sent"),
            RowAnswer::Full => write!(f, "full"),
            RowAnswer::Logged { place } => write!(f, "logged,{place}"),
            RowAnswer::Moved => write!(f, "moved"),
            RowAnswer::Done {
                session,
                number,
                place,
                rolled_back: false,
            } => write!(f, "answered,{session},{number},done,{place}"),
            RowAnswer::Done {
                session,
                number,
                place,
                rolled_back: true,
            } => write!(f, "answered,{session},{number},done,{place},X"),
            RowAnswer::Refused {
                session,
                number,
                refusal: Refusal::Died { group, holder },
            } => write!(f, "answered,{session},{number},refused,11,{group},{holder}"),
            RowAnswer::Refused {
                session,
                number,
                refusal,
            } => write!(
                f,
                "answered,{session},{number},refused,{}",
                refusal.number()
            ),
            RowAnswer::Nothing => write!(f, "nothing"),
            RowAnswer::Quiet => write!(f, "quiet"),
            RowAnswer::Limit => write!(f, "limit"),
        }
    }
}

impl fmt::Display for Phrase {
    ghost use Rattle.std.specs.Prelude.{Some};
    ghost use Rattle.picture.specs.Phrases.{phrase_text};

    ghost output = { λ phrase. Some (phrase_text phrase) };

    fn fmt<W: fmt::Write>(&self, f: &mut fmt::Formatter<W>) -> fmt::Result {
        match *self {
            Phrase::Heading(heading) => write!(f, "{heading}"),
            Phrase::Number(number) => write!(f, "{number}"),
            Phrase::Deed(deed) => write!(f, "{deed}"),
            Phrase::Rounds => write!(f, "R"),
            Phrase::RowAnswer(reported) => write!(f, "{reported}"),
            Phrase::Place(place) => write!(f, "{place}"),
            Phrase::One(group) => write!(f, "{group}"),
            Phrase::Two(first, second) => write!(f, "{first} {second}"),
            Phrase::All(first, last) => write!(f, "{first} to {last}"),
            Phrase::Start { age } => write!(f, "Start of {age}"),
            Phrase::Act { place, age } => write!(f, "Act {place} of {age}"),
            Phrase::Report { place, age } => write!(f, "Report {place} of {age}"),
            Phrase::Commit { age } => write!(f, "Commit of {age}"),
            Phrase::Reply { age } => write!(f, "Reply of {age}"),
            Phrase::Settle { place, age } => write!(f, "Settle {place} of {age}"),
            Phrase::Undo { place, age } => write!(f, "Undo {place} of {age}"),
            Phrase::Ended { place, age } => write!(f, "End {place} of {age}"),
            Phrase::Move { lo, hi } => write!(f, "Move {lo} to {hi}"),
            Phrase::Fetch { w_id } => write!(f, "Fetch warehouse {w_id}"),
            Phrase::Parcel { w_id } => write!(f, "Parcel warehouse {w_id}"),
            Phrase::Arrival { w_id } => write!(f, "Report warehouse {w_id}"),
            Phrase::Parked => write!(f, "parked"),
            Phrase::Unknown => write!(f, "not known from here on"),
            Phrase::NotShown => write!(f, "rounds, whose events are not shown"),
        }
    }
}
