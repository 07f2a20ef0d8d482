//! The course of a schedule: a reconstruction of which event put what another took or sent. It follows the rules of the core's
//! messages and checks each step against the output. If what is in flight is unknown, because an action may wait, die or find
//! no memory, nothing is drawn until rounds have ended quiet; after that nothing is in flight.
use crate::asides::Aside;
use crate::graph::{Action, actions_of};
use crate::in_flight::{Content, Executor, Flow, Item};
use crate::lanes::{Lanes, outside};
use crate::phrase::Phrase;
use crate::row::{Deed, Row, RowAnswer};
use crate::slices::Slices;
use history::{Event, Scheduled};
use range_moves::MoveOrder;
use requests::Request;
use schema::NoMemory;
use std::alloc::Global;
use std::collections::VecDeque;

/// The state of the reconstruction.
#[derive(Drop)]
pub struct Course<'a> {
    pub alloc: Global,
    pub lanes: &'a Lanes,
    pub slices: Slices,
    pub executors: Vec<Executor>,
    pub flows: Vec<Flow>,
    /// Whether it is known what is in flight.
    pub known: bool,
    /// The row where the last rounds began.
    pub rounds: usize,
    pub asides: Vec<Aside>,
}

/// Adds the asides of a schedule's rows.
pub fn put_course(
    alloc: Global,
    asides: Vec<Aside>,
    lanes: &Lanes,
    slices: Slices,
    schedule: &[Scheduled],
    rows: &[Row],
) -> Result<Vec<Aside>, NoMemory> {
    let mut executors = Vec::new(alloc);
    for _ in 0..lanes.executors {
        executors.push(Executor {
            inbox: VecDeque::new(alloc),
            outbox: VecDeque::new(alloc),
            parked: VecDeque::new(alloc),
            slots: [false; 4],
        })?;
    }
    let mut course = Course {
        alloc,
        lanes,
        slices,
        executors,
        flows: Vec::new(alloc),
        known: true,
        rounds: 0,
        asides,
    };
    for (at, row) in rows.iter().enumerate() {
        course.follow(at, *row, schedule)?;
    }
    if course.known {
        course.draw_held(rows.len().saturating_sub(1))?;
    }
    Ok(course.asides)
}

impl<'a> Course<'a> {
    fn follow(&mut self, at: usize, row: Row, schedule: &[Scheduled]) -> Result<(), NoMemory> {
        match row {
            Row::Event {
                number,
                deed,
                reported,
            } => {
                let can_be = self.note_order(deed, reported);
                if self.known && !(can_be && self.happen(at, number, deed, reported, schedule)?) {
                    self.known = false;
                    self.draw_name(at, Phrase::Unknown)?;
                }
            }
            Row::Rounds { .. } => self.rounds = at,
            Row::InRounds { reported } => self.follow_rounds(reported)?,
        }
        Ok(())
    }

    // Whether a move can be outstanding whose output is that it is ordered. The move is recorded even if what is in flight is
    // unknown, so the places of the slices are known once rounds have ended quiet.
    fn note_order(&mut self, deed: Deed, reported: RowAnswer) -> bool {
        match (deed, reported) {
            (Deed::Order(order), RowAnswer::Ordered) => self.slices.order(order),
            _ => true,
        }
    }

    // Follows an output of rounds. Once rounds end quiet, nothing is in flight.
    fn follow_rounds(&mut self, reported: RowAnswer) -> Result<(), NoMemory> {
        match reported {
            RowAnswer::Done { session, .. } => {
                for flow in self.flows.iter_mut() {
                    if flow.session == session && flow.left > 0 {
                        flow.logged = true;
                    }
                }
            }
            RowAnswer::Quiet => {
                if self.known {
                    self.draw_held(self.rounds)?;
                }
                self.known = true;
                self.slices.settle();
                self.flows.clear();
                for executor in self.executors.iter_mut() {
                    executor.clear();
                }
            }
            RowAnswer::Limit => self.known = false,
            _ => {}
        }
        Ok(())
    }

    // Follows an event. Returns whether it is still known what is in flight.
    fn happen(
        &mut self,
        at: usize,
        number: u64,
        deed: Deed,
        reported: RowAnswer,
        schedule: &[Scheduled],
    ) -> Result<bool, NoMemory> {
        match (deed, reported) {
            (Deed::Submit { session, .. }, RowAnswer::Accepted { age }) => {
                match schedule.get(number.saturating_sub(1) as usize) {
                    Some(Scheduled::Event(Event::Submit { request, .. })) => {
                        self.admit(at, session, age, request)
                    }
                    _ => Ok(false),
                }
            }
            (Deed::Submit { .. }, _) => Ok(true),
            (Deed::Order(order), RowAnswer::Ordered) => self.put_order(at, order),
            (Deed::Order(_), RowAnswer::Nothing) => Ok(true),
            (Deed::Take { executor }, RowAnswer::Took) => self.take(at, executor),
            (Deed::Take { executor }, RowAnswer::Nothing) => Ok(self.has_nothing(executor, true)),
            (Deed::Send { executor }, RowAnswer::Nothing) => Ok(self.has_nothing(executor, false)),
            (Deed::Send { executor }, _) => self.send(at, executor, reported),
            _ => Ok(false),
        }
    }

    // Whether the executor's inbox, or its outbox, is empty.
    fn has_nothing(&self, executor: u32, inbox: bool) -> bool {
        match self.executors.get(executor as usize) {
            Some(one) if inbox => one.inbox.is_empty(),
            Some(one) => one.outbox.is_empty(),
            None => true,
        }
    }

    // Admits a request.
    fn admit(
        &mut self,
        at: usize,
        session: u32,
        age: u64,
        request: &Request,
    ) -> Result<bool, NoMemory> {
        let actions = actions_of(self.alloc, request)?;
        let Some(first) = actions.first() else {
            return Ok(false);
        };
        if self.may_wait(actions.as_slice()) {
            return Ok(false);
        }
        let home = self.slices.route(first.warehouse());
        let item = Item {
            content: Content::Start,
            flow: self.flows.len(),
            line: self.lanes.session(session),
            at,
        };
        let flow = Flow::new(self.alloc, age, session, actions)?;
        self.flows.push(flow)?;
        self.put_in(home, item)
    }

    // Puts the order of a move into the inbox of its destination. Its line is outside the lanes.
    fn put_order(&mut self, at: usize, order: MoveOrder) -> Result<bool, NoMemory> {
        let item = Item {
            content: Content::Order(order),
            flow: 0,
            line: outside(),
            at,
        };
        self.put_in(order.to, item)
    }

    // Whether an action may have to wait for another transaction, or die.
    fn may_wait(&self, actions: &[Action]) -> bool {
        for flow in self.flows.iter() {
            if flow.left > 0 && flow.may_stop(actions) {
                return true;
            }
        }
        false
    }
}
