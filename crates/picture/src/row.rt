//! The rows of a picture: what was scheduled, and its output.
ghost use Rattle.std.specs.Prelude.{◌≡◌, ◌++◌, IfOk, OnOk, slice_get};
ghost use Rattle.picture.specs.Rows as spec;

use commit_log::Entry;
use history::{Event, EventAnswer, Output, Scheduled};
use range_moves::MoveOrder;
use requests::{Refusal, Reply, Request};
use schema::NoMemory;
use std::alloc::Global;

/// The kind of a request.
#[derive(Clone, Copy)]
pub enum Kind {
    NewOrder,
    Payment,
    OrderStatus,
    Delivery,
    StockLevel,
}

/// What an event does.
#[derive(Clone, Copy)]
pub enum Deed {
    Submit {
        session: u32,
        number: u32,
        kind: Kind,
    },
    Order(MoveOrder),
    Take {
        executor: u32,
    },
    Send {
        executor: u32,
    },
}

/// The output of an event or of rounds.
#[derive(Clone, Copy)]
pub enum RowAnswer {
    Accepted {
        age: u64,
    },
    Ordered,
    Took,
    Sent,
    Full,
    Logged {
        place: u32,
    },
    Moved,
    Done {
        session: u32,
        number: u32,
        place: u32,
        rolled_back: bool,
    },
    Refused {
        session: u32,
        number: u32,
        refusal: Refusal,
    },
    Nothing,
    Quiet,
    Limit,
}

/// A row of the picture.
#[derive(Clone, Copy)]
pub enum Row {
    /// An event. The first item of a schedule has the number 1.
    Event {
        number: u64,
        deed: Deed,
        reported: RowAnswer,
    },
    /// The beginning of rounds. Their events are not shown.
    Rounds {
        number: u64,
    },
    /// An output of rounds.
    InRounds {
        reported: RowAnswer,
    },
}

/// The rows of a schedule with these outputs, in order. The places in the outputs are those of the log.
pub fn rows_of(
    alloc: Global,
    schedule: &[Scheduled],
    outputs: &[Output],
    log: &[Entry],
) -> Result<Vec<Row>, NoMemory>
    ensures { IfOk result (λ rows. rows.items ≡ spec.rows_of log.now 1 schedule.now outputs.now) }
{
    let mut rows = Vec::new(alloc);
    let mut left = outputs;
    for (index, item) in schedule.iter().enumerate() {
        let number = index as u64 + 1;
        match item {
            Scheduled::Event(event) => {
                let Some((first, others)) = left.split_first() else {
                    break;
                };
                rows.push(event_row(log, number, event, first))?;
                left = others;
            }
            Scheduled::Rounds => {
                rows.push(Row::Rounds { number })?;
                left = put_rounds(&mut rows, left, log)?;
            }
        }
    }
    Ok(rows)
}

// The row of an event.
fn event_row(log: &[Entry], number: u64, event: &Event, output: &Output) -> Row
    ensures { result ≡ spec.event_row log.now number event.now output.now }
{
    Row::Event {
        number,
        deed: deed_of(event),
        reported: reported_of(log, output),
    }
}

// Adds the outputs of rounds, up to their end. Returns the outputs after it.
fn put_rounds<'a>(
    rows: &mut Vec<Row>,
    outputs: &'a [Output],
    log: &[Entry],
) -> Result<&'a [Output], NoMemory>
    ensures rows { OnOk result
        (rows.new.items ≡ rows.old.items ++ spec.rows_in_rounds log.now outputs.now) }
    ensures later { IfOk result (λ later. later.now ≡ spec.after_rounds outputs.now) }
{
    for (index, output) in outputs.iter().enumerate() {
        rows.push(Row::InRounds {
            reported: reported_of(log, output),
        })?;
        if !matches!(output, Output::Event(_)) {
            return Ok(&outputs[index + 1..]);
        }
    }
    Ok(&outputs[outputs.len()..])
}

fn deed_of(event: &Event) -> Deed
    ensures { result ≡ spec.deed_of event.now }
{
    match event {
        Event::Submit {
            session,
            number,
            request,
        } => Deed::Submit {
            session: *session,
            number: *number,
            kind: kind_of(request),
        },
        Event::Order(order) => Deed::Order(*order),
        Event::Take { executor } => Deed::Take {
            executor: *executor,
        },
        Event::Send { executor } => Deed::Send {
            executor: *executor,
        },
    }
}

fn kind_of(request: &Request) -> Kind
    ensures { result ≡ spec.kind_of request.now }
{
    match request {
        Request::NewOrder(_) => Kind::NewOrder,
        Request::Payment(_) => Kind::Payment,
        Request::OrderStatus(_) => Kind::OrderStatus,
        Request::Delivery(_) => Kind::Delivery,
        Request::StockLevel(_) => Kind::StockLevel,
    }
}

fn reported_of(log: &[Entry], output: &Output) -> RowAnswer
    ensures { result ≡ spec.reported_of log.now output.now }
{
    match output {
        Output::Event(answer) => reported_of_event(log, answer),
        Output::Quiet => RowAnswer::Quiet,
        Output::Limit => RowAnswer::Limit,
    }
}

fn reported_of_event(log: &[Entry], answer: &EventAnswer) -> RowAnswer
    ensures { result ≡ spec.reported_of_event log.now answer.now }
{
    match answer {
        EventAnswer::Accepted { age } => RowAnswer::Accepted { age: *age },
        EventAnswer::Ordered => RowAnswer::Ordered,
        EventAnswer::Took => RowAnswer::Took,
        EventAnswer::Sent => RowAnswer::Sent,
        EventAnswer::Full => RowAnswer::Full,
        EventAnswer::Logged { place } => RowAnswer::Logged { place: *place },
        EventAnswer::Moved => RowAnswer::Moved,
        EventAnswer::Answered {
            session,
            number,
            answer,
        } => reported_of_answer(log, *session, *number, answer),
        EventAnswer::Nothing => RowAnswer::Nothing,
    }
}

fn reported_of_answer(
    log: &[Entry],
    session: u32,
    number: u32,
    answer: &Result<u32, Refusal>,
) -> RowAnswer
    ensures { result ≡ spec.reported_of_answer log.now session number answer.now }
{
    match answer {
        Ok(place) => RowAnswer::Done {
            session,
            number,
            place: *place,
            rolled_back: is_rolled_back(log, *place),
        },
        Err(refusal) => RowAnswer::Refused {
            session,
            number,
            refusal: *refusal,
        },
    }
}

// Whether the transaction at this place in the log was rolled back.
fn is_rolled_back(log: &[Entry], place: u32) -> bool
    ensures { result ≡ spec.entry_is_rolled_back (slice_get log.now place) }
{
    match log.get(place as usize) {
        Some(entry) => matches!(entry.reply, Reply::RolledBack(_)),
        None => false,
    }
}
