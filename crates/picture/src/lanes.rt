//! The positions of the lanes, from left to right: the sessions that submit, in the order of their first submissions; the
//! executors; and the log. An executor's lane has a line for what it takes and a line for what it sends. Positions are in
//! pixels.
ghost use Rattle.std.specs.Prelude.{◌≡◌, ◌==◌, [], IfOk, OnOk, length, position};
ghost use Rattle.std.specs.List.{list_any};
ghost use Rattle.picture.specs.Lanes as spec;

use history::{Event, Scheduled};
use schema::NoMemory;
use std::alloc::Global;

/// The lanes of a picture.
#[derive(Drop)]
pub struct Lanes {
    pub sessions: Vec<u32>,
    pub executors: u32,
}

/// The lanes of a schedule.
pub fn lanes_of(alloc: Global, schedule: &[Scheduled], executors: u32) -> Result<Lanes, NoMemory>
    ensures sessions { IfOk result
        (λ lanes. lanes.sessions.items ≡ spec.sessions_from [] schedule.now) }
    ensures executors { IfOk result (λ lanes. lanes.executors ≡ executors) }
{
    let mut sessions = Vec::new(alloc);
    for item in schedule {
        put_submitter(&mut sessions, item)?;
    }
    Ok(Lanes {
        sessions,
        executors,
    })
}

// Adds the submitting session, if it has no lane yet.
fn put_submitter(sessions: &mut Vec<u32>, item: &Scheduled) -> Result<(), NoMemory>
    ensures { OnOk result (sessions.new.items
        ≡ spec.with_submitter sessions.old.items (spec.submitter item.now)) }
{
    match submitter(item) {
        Some(session) => put_session(sessions, session),
        None => Ok(()),
    }
}

fn submitter(item: &Scheduled) -> Option<u32>
    ensures { result ≡ spec.submitter item.now }
{
    match item {
        Scheduled::Event(Event::Submit { session, .. }) => Some(*session),
        _ => None,
    }
}

fn put_session(sessions: &mut Vec<u32>, session: u32) -> Result<(), NoMemory>
    ensures { OnOk result (sessions.new.items ≡ spec.with_lane sessions.old.items session) }
{
    if !has_lane(sessions.as_slice(), session) {
        sessions.push(session)?;
    }
    Ok(())
}

fn has_lane(sessions: &[u32], session: u32) -> bool
    ensures { result ≡ list_any (λ other. other == session) sessions.now }
{
    sessions.iter().any(|other| *other == session)
}

// The number of session lanes before that of this one. `None` if it has no lane.
fn place_of(sessions: &[u32], session: u32) -> Option<usize>
    ensures { result ≡ position (λ other. other == session) sessions.now }
{
    sessions.iter().position(|other| *other == session)
}

impl Lanes {
    /// The line of a session.
    pub fn session(&self, session: u32) -> u128
        ensures { result ≡ spec.session_x self.now.sessions.items session }
    {
        let place = match place_of(self.sessions.as_slice(), session) {
            Some(place) => place,
            None => 0,
        };
        200 + 64 * place as u128
    }

    /// The left edge of an executor's lane.
    pub fn executor(&self, executor: u32) -> u128
        ensures { result ≡ spec.executor_x (length self.now.sessions.items) executor }
    {
        168 + 64 * self.sessions.len() as u128 + 192 * u128::from(executor)
    }

    /// The line of what an executor takes.
    pub fn takes(&self, executor: u32) -> u128
        ensures { result ≡ spec.takes_x (length self.now.sessions.items) executor }
    {
        self.executor(executor) + 84
    }

    /// The line of what an executor sends.
    pub fn sends(&self, executor: u32) -> u128
        ensures { result ≡ spec.sends_x (length self.now.sessions.items) executor }
    {
        self.executor(executor) + 152
    }

    /// The rightmost x of arrows that bend down the line of what an executor sends.
    pub fn side(&self, executor: u32) -> u128 {
        self.executor(executor) + 180
    }

    /// A slot beside the line of what an executor takes, where claims are drawn: its left edge, the line of its text, and its
    /// right edge.
    pub fn slot(&self, executor: u32, slot: usize) -> (u128, u128, u128) {
        let left = self.executor(executor) + 12 + 14 * slot as u128;
        (left, left + 2, left + 11)
    }

    /// The left edge of the log's squares.
    pub fn log_left(&self) -> u128
        ensures { result ≡ spec.log_left (length self.now.sessions.items) self.now.executors }
    {
        self.executor(self.executors) + 24
    }

    /// The line of the log.
    pub fn log(&self) -> u128
        ensures { result ≡ spec.log_x (length self.now.sessions.items) self.now.executors }
    {
        self.executor(self.executors) + 44
    }

    /// The right edge of the log's squares.
    pub fn log_right(&self) -> u128
        ensures { result ≡ spec.log_right (length self.now.sessions.items) self.now.executors }
    {
        self.executor(self.executors) + 64
    }

    /// The left edge of the names of what was taken or sent.
    pub fn named(&self) -> u128
        ensures { result ≡ spec.named_x (length self.now.sessions.items) self.now.executors }
    {
        self.executor(self.executors) + 96
    }

    /// The left edge of the output.
    pub fn reported(&self) -> u128
        ensures { result ≡ spec.reported_x (length self.now.sessions.items) self.now.executors }
    {
        self.executor(self.executors) + 240
    }

    /// The width of the picture.
    pub fn width(&self) -> u128
        ensures { result ≡ spec.width (length self.now.sessions.items) self.now.executors }
    {
        self.executor(self.executors) + 540
    }
}

/// The position of orders, left of all lanes.
pub fn outside() -> u128
    ensures { result ≡ spec.outside_x }
{
    152
}

/// The upper edge of the row at this index, from 0.
pub fn row_top(at: usize) -> u128
    ensures { result ≡ spec.row_top at }
{
    75 + 20 * at as u128
}

/// The middle of the row.
pub fn row_middle(at: usize) -> u128
    ensures { result ≡ spec.row_middle at }
{
    84 + 20 * at as u128
}

/// The baseline of the row's text.
pub fn row_words(at: usize) -> u128
    ensures { result ≡ spec.row_words at }
{
    88 + 20 * at as u128
}

/// The lower edge of the row.
pub fn row_bottom(at: usize) -> u128
    ensures { result ≡ spec.row_bottom at }
{
    93 + 20 * at as u128
}

/// The height of a picture with this many rows.
pub fn height(rows: usize) -> u128
    ensures { result ≡ spec.height rows }
{
    260 + 20 * rows as u128
}

/// The lower end of this many rows.
pub fn rows_end(rows: usize) -> u128
    ensures { result ≡ spec.rows_end rows }
{
    74 + 20 * rows as u128
}
