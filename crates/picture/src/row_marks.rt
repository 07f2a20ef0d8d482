//! The marks of a row.
ghost use Rattle.std.specs.Prelude.{◌≡◌, ◌++◌, [], ◌∷◌, length, OnOk, IfOk};
ghost use Rattle.picture.specs.Marks as spec;

use crate::lanes::{Lanes, outside};
use crate::marks::{Mark, Style};
use crate::phrase::Phrase;
use crate::row::{Deed, Row, RowAnswer};
use schema::NoMemory;
use std::alloc::Global;

/// The marks of rows, one row after the other.
pub fn marks_of(alloc: Global, lanes: &Lanes, rows: &[Row]) -> Result<Vec<Mark>, NoMemory>
    ensures { IfOk result (λ marks. marks.items
        ≡ spec.all_marks lanes.now.sessions.items lanes.now.executors 0 rows.now) }
{
    let mut marks = Vec::new(alloc);
    for (at, row) in rows.iter().enumerate() {
        put_row(&mut marks, lanes, at, *row)?;
    }
    Ok(marks)
}

// Adds the marks of the row at this index.
fn put_row(marks: &mut Vec<Mark>, lanes: &Lanes, at: usize, row: Row) -> Result<(), NoMemory>
    ensures { OnOk result (marks.new.items ≡ marks.old.items
        ++ spec.row_marks lanes.now.sessions.items lanes.now.executors at row) }
{
    match row {
        Row::Event {
            number,
            deed,
            reported,
        } => {
            put_number(marks, at, number, Phrase::Deed(deed))?;
            marks.push(words(
                Style::Plain,
                lanes.reported(),
                at,
                Phrase::RowAnswer(reported),
            ))?;
            put_event(marks, lanes, at, deed, reported)
        }
        Row::Rounds { number } => {
            put_number(marks, at, number, Phrase::Rounds)?;
            marks.push(words(Style::Dim, lanes.reported(), at, Phrase::NotShown))?;
            Ok(())
        }
        Row::InRounds { reported } => {
            marks.push(words(
                Style::Plain,
                lanes.reported(),
                at,
                Phrase::RowAnswer(reported),
            ))?;
            put_reported(marks, lanes, at, reported)
        }
    }
}

fn words(style: Style, x: u128, at: usize, phrase: Phrase) -> Mark
    ensures { result ≡ Mark.Words style x at phrase }
{
    Mark::Words {
        style,
        x,
        at,
        phrase,
    }
}

fn spot(style: Style, x: u128, at: usize) -> Mark
    ensures { result ≡ Mark.Spot style x at }
{
    Mark::Spot { style, x, at }
}

// Adds the number and the text of an item of the schedule.
fn put_number(
    marks: &mut Vec<Mark>,
    at: usize,
    number: u64,
    scheduled: Phrase,
) -> Result<(), NoMemory>
    ensures { OnOk result (marks.new.items ≡ marks.old.items
        ++ Mark.Words Style.Number 40 at (Phrase.Number number)
        ∷ Mark.Words Style.Plain 52 at scheduled ∷ []) }
{
    marks.push(words(Style::Number, 40, at, Phrase::Number(number)))?;
    marks.push(words(Style::Plain, 52, at, scheduled))?;
    Ok(())
}

// Adds the signs of an event.
fn put_event(
    marks: &mut Vec<Mark>,
    lanes: &Lanes,
    at: usize,
    deed: Deed,
    reported: RowAnswer,
) -> Result<(), NoMemory>
    ensures { OnOk result (marks.new.items ≡ marks.old.items
        ++ spec.event_signs lanes.now.sessions.items lanes.now.executors at deed reported) }
{
    match deed {
        Deed::Submit { session, .. } => {
            marks.push(submission(lanes.session(session), at, reported))?
        }
        Deed::Order(_) => marks.push(ordering(at, reported))?,
        Deed::Take { executor } => {
            marks.push(step_spot(Style::Take, lanes.takes(executor), at, reported))?
        }
        Deed::Send { executor } => {
            let line = lanes.sends(executor);
            put_arrow(marks, lanes, line, at, reported)?;
            put_reported(marks, lanes, at, reported)?;
            marks.push(step_spot(Style::Send, line, at, reported))?
        }
    }
    Ok(())
}

fn submission(x: u128, at: usize, reported: RowAnswer) -> Mark
    ensures { result ≡ spec.submission x at reported }
{
    match reported {
        RowAnswer::Accepted { .. } => spot(Style::Take, x, at),
        RowAnswer::Refused { .. } => spot(Style::Refused, x, at),
        _ => spot(Style::Nothing, x, at),
    }
}

fn ordering(at: usize, reported: RowAnswer) -> Mark
    ensures { result ≡ spec.ordering at reported }
{
    match reported {
        RowAnswer::Ordered => spot(Style::Take, outside(), at),
        _ => spot(Style::Nothing, outside(), at),
    }
}

fn step_spot(style: Style, x: u128, at: usize, reported: RowAnswer) -> Mark
    ensures { result ≡ spec.step_spot style x at reported }
{
    match reported {
        RowAnswer::Nothing => spot(Style::Nothing, x, at),
        _ => spot(style, x, at),
    }
}

// Adds the signs of what is logged or answered.
fn put_reported(
    marks: &mut Vec<Mark>,
    lanes: &Lanes,
    at: usize,
    reported: RowAnswer,
) -> Result<(), NoMemory>
    ensures { OnOk result (marks.new.items ≡ marks.old.items
        ++ spec.reported_signs lanes.now.sessions.items lanes.now.executors at reported) }
{
    match reported {
        RowAnswer::Logged { place } => {
            let style = Style::Done;
            let left = lanes.log_left();
            let right = lanes.log_right();
            marks.push(Mark::Square {
                style,
                left,
                right,
                at,
            })?;
            marks.push(words(Style::Middle, lanes.log(), at, Phrase::Place(place)))?;
        }
        RowAnswer::Done { session, .. } => {
            marks.push(spot(Style::Done, lanes.session(session), at))?;
        }
        RowAnswer::Refused { session, .. } => {
            marks.push(spot(Style::Refused, lanes.session(session), at))?;
        }
        _ => {}
    }
    Ok(())
}

// Adds an arrow to what is logged or answered, from the line of what was sent.
fn put_arrow(
    marks: &mut Vec<Mark>,
    lanes: &Lanes,
    from: u128,
    at: usize,
    reported: RowAnswer,
) -> Result<(), NoMemory>
    ensures { OnOk result (marks.new.items ≡ marks.old.items
        ++ spec.reported_arrow lanes.now.sessions.items lanes.now.executors from at reported) }
{
    let (style, to) = match reported {
        RowAnswer::Logged { .. } => (Style::Done, lanes.log_left()),
        RowAnswer::Done { session, .. } => (Style::Done, lanes.session(session)),
        RowAnswer::Refused { session, .. } => (Style::Refused, lanes.session(session)),
        _ => return Ok(()),
    };
    marks.push(Mark::Across {
        style,
        from,
        to,
        at,
    })?;
    Ok(())
}
