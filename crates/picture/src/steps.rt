//! What an executor's step takes or sends, and what it puts.
use crate::course::Course;
use crate::in_flight::{Content, Item, Parked, Ran};
use crate::row::RowAnswer;
use range_moves::{Found, MoveOrder};
use schema::NoMemory;

impl<'a> Course<'a> {
    /// Puts a message into an inbox.
    pub fn put_in(&mut self, executor: u32, item: Item) -> Result<bool, NoMemory> {
        let Some(one) = self.executors.get_mut(executor as usize) else {
            return Ok(false);
        };
        one.inbox.push_back(item)?;
        Ok(true)
    }

    // Puts an item into an outbox.
    fn put_out(&mut self, executor: u32, item: Item) -> Result<bool, NoMemory> {
        let Some(one) = self.executors.get_mut(executor as usize) else {
            return Ok(false);
        };
        one.outbox.push_back(item)?;
        Ok(true)
    }

    /// The executor takes a message. Returns whether it is still known what is in flight.
    pub fn take(&mut self, at: usize, executor: u32) -> Result<bool, NoMemory> {
        let item = match self.executors.get_mut(executor as usize) {
            Some(one) => one.inbox.pop_front(),
            None => None,
        };
        let Some(item) = item else {
            return Ok(false);
        };
        let line = self.lanes.takes(executor);
        self.draw_hop(executor, false, item, line, at)?;
        self.draw_item(at, item)?;
        let put = Item { line, at, ..item };
        match item.content {
            Content::Start => self.take_start(executor, put),
            Content::Act(place) | Content::GiveBack(place) => {
                self.take_message(executor, place, put)
            }
            Content::Order(order) => self.take_order(executor, order, put),
            Content::Fetch { w_id, to, .. } => {
                let is_here = self.slices.take_out(w_id, executor, to);
                Ok(is_here && self.put_out(executor, put.with(Content::Parcel { w_id, to }))?)
            }
            Content::Parcel { w_id, .. } => self.take_parcel(executor, w_id, put),
            _ => Ok(false),
        }
    }

    // Puts the messages of the first phase.
    fn take_start(&mut self, executor: u32, put: Item) -> Result<bool, NoMemory> {
        let (first, end) = self.begin_phase(put.flow);
        self.address(put.flow, first, end);
        for place in first..end {
            self.put_out(executor, put.with(Content::Act(place)))?;
        }
        Ok(first < end)
    }

    // Processes the message of an action if the slice of its warehouse is here. Otherwise forwards it to where the slice went,
    // or parks it.
    fn take_message(&mut self, executor: u32, place: usize, put: Item) -> Result<bool, NoMemory> {
        let Some(flow) = self.flows.get_mut(put.flow) else {
            return Ok(false);
        };
        let Some(w_id) = flow.warehouse(place) else {
            return Ok(false);
        };
        match self.slices.find(executor, w_id) {
            Found::Here => self.work_on(executor, place, put),
            Found::Went(to) => {
                flow.address(place, to);
                self.put_out(executor, put)
            }
            Found::Unknown => {
                self.draw_parked(put.at, executor)?;
                self.park(executor, w_id, put)
            }
        }
    }

    // Runs an action, or gives its claims back.
    fn work_on(&mut self, executor: u32, place: usize, put: Item) -> Result<bool, NoMemory> {
        match put.content {
            Content::Act(_) => {
                self.note_ran(put.flow, place, executor, put.at);
                self.put_out(executor, put.with(Content::Report(place)))
            }
            _ => {
                self.draw_claim(put.flow, place, put.at)?;
                self.put_out(executor, put.with(Content::Ended(place)))
            }
        }
    }

    // Parks a message.
    fn park(&mut self, executor: u32, w_id: u32, item: Item) -> Result<bool, NoMemory> {
        let Some(one) = self.executors.get_mut(executor as usize) else {
            return Ok(false);
        };
        one.parked.push_back(Parked { w_id, item })?;
        Ok(true)
    }

    // Begins a move at its destination: each slice of its range is fetched or is here already.
    fn take_order(&mut self, executor: u32, order: MoveOrder, put: Item) -> Result<bool, NoMemory> {
        for w_id in order.lo..=order.hi {
            let content = match self.slices.move_to(w_id, executor) {
                Some(from) => Content::Fetch {
                    w_id,
                    from,
                    to: executor,
                },
                None => Content::Arrival { w_id },
            };
            self.put_out(executor, put.with(content))?;
        }
        Ok(true)
    }

    // Installs the slice of a warehouse. Puts the report of its arrival, and then the messages parked for it, in order.
    fn take_parcel(&mut self, executor: u32, w_id: u32, put: Item) -> Result<bool, NoMemory> {
        self.slices.install(w_id, executor);
        self.put_out(executor, put.with(Content::Arrival { w_id }))?;
        let count = match self.executors.get(executor as usize) {
            Some(one) => one.parked.len(),
            None => 0,
        };
        for _ in 0..count {
            self.unpark(executor, w_id, put)?;
        }
        Ok(true)
    }

    // Takes the first parked message. Puts it into the outbox if it is for this warehouse; otherwise parks it again, as the
    // last.
    fn unpark(&mut self, executor: u32, w_id: u32, put: Item) -> Result<(), NoMemory> {
        let Some(one) = self.executors.get_mut(executor as usize) else {
            return Ok(());
        };
        let Some(parked) = one.parked.pop_front() else {
            return Ok(());
        };
        if parked.w_id != w_id {
            one.parked.push_back(parked)?;
            return Ok(());
        }
        let Item { content, flow, .. } = parked.item;
        if let (Some(flow), Content::Act(place) | Content::GiveBack(place)) = (
            self.flows.get_mut(flow),
            content,
        ) {
            flow.address(place, executor);
        }
        self.put_out(
            executor,
            Item {
                content,
                flow,
                ..put
            },
        )?;
        Ok(())
    }

    // Sends the messages of these places to where the warehouses of their actions are routed now.
    fn address(&mut self, flow: usize, first: usize, end: usize) {
        let Some(flow) = self.flows.get_mut(flow) else {
            return;
        };
        for place in first..end {
            if let Some(w_id) = flow.warehouse(place) {
                flow.address(place, self.slices.route(w_id));
            }
        }
    }

    fn begin_phase(&mut self, flow: usize) -> (usize, usize) {
        match self.flows.get_mut(flow) {
            Some(flow) => flow.begin_phase(),
            None => (0, 0),
        }
    }

    // Records that an action has run, and takes a slot for its claims.
    fn note_ran(&mut self, flow: usize, place: usize, executor: u32, at: usize) {
        let slot = match self.executors.get_mut(executor as usize) {
            Some(one) => one.take_slot(),
            None => 0,
        };
        if let Some(flow) = self.flows.get_mut(flow) {
            if let Some(ran) = flow.ran.get_mut(place) {
                *ran = Some(Ran { at, executor, slot });
            }
        }
    }

    /// Sends the first item of an outbox. What followed a phase is determined by the output. Returns whether it is still known
    /// what is in flight.
    pub fn send(
        &mut self,
        at: usize,
        executor: u32,
        reported: RowAnswer,
    ) -> Result<bool, NoMemory> {
        let item = match self.executors.get_mut(executor as usize) {
            Some(one) => one.outbox.pop_front(),
            None => None,
        };
        let Some(mut item) = item else {
            return Ok(false);
        };
        if matches!(reported, RowAnswer::Full) {
            return self.put_out(executor, item);
        }
        if matches!(item.content, Content::Next) {
            match self.resolve(executor, item, reported)? {
                Some(content) => item.content = content,
                None => return Ok(false),
            }
        }
        let line = self.lanes.sends(executor);
        self.draw_hop(executor, true, item, line, at)?;
        let known = self.sent(executor, Item { line, at, ..item }, reported)?;
        if known {
            self.draw_item(at, item)?;
        }
        Ok(known)
    }

    // What followed a phase: the next phase, whose other actions come after its first in the outbox; the commit; or an answer.
    fn resolve(
        &mut self,
        executor: u32,
        item: Item,
        reported: RowAnswer,
    ) -> Result<Option<Content>, NoMemory> {
        match reported {
            RowAnswer::Logged { .. } => return Ok(Some(Content::Commit)),
            RowAnswer::Done { .. } | RowAnswer::Refused { .. } => return Ok(Some(Content::Reply)),
            _ => {}
        }
        if let Some(flow) = self.flows.get_mut(item.flow) {
            flow.phase = flow.phase.saturating_add(1);
        }
        let (first, end) = self.begin_phase(item.flow);
        if first >= end {
            return Ok(None);
        }
        if let Some(one) = self.executors.get_mut(executor as usize) {
            for place in (first + 1..end).rev() {
                one.outbox.push_front(item.with(Content::Act(place)))?;
            }
        }
        Ok(Some(Content::Act(first)))
    }

    // The effect of an item sent in this row. Returns whether it is still known what is in flight: the output does not contain
    // which actions of a refused transaction hold claims.
    fn sent(&mut self, executor: u32, item: Item, reported: RowAnswer) -> Result<bool, NoMemory> {
        match (item.content, reported) {
            (Content::Fetch { from, .. }, RowAnswer::Sent) => return self.put_in(from, item),
            (Content::Parcel { to, .. }, RowAnswer::Sent) => return self.put_in(to, item),
            (Content::Arrival { .. }, RowAnswer::Sent) => return Ok(
                self.slices.report() == Some(false),
            ),
            (Content::Arrival { .. }, RowAnswer::Moved) => return Ok(
                self.slices.report() == Some(true),
            ),
            _ => {}
        }
        let Some(flow) = self.flows.get_mut(item.flow) else {
            return Ok(false);
        };
        match (item.content, reported) {
            (Content::Act(place) | Content::GiveBack(place), RowAnswer::Sent) => {
                let Some(to) = flow.goes_to.get(place) else {
                    return Ok(false);
                };
                let to = *to;
                self.put_in(to, item)
            }
            (Content::Report(_), RowAnswer::Sent) => {
                flow.awaited = flow.awaited.saturating_sub(1);
                if flow.awaited > 0 {
                    return Ok(true);
                }
                let (first, end) = flow.places_of(flow.phase.saturating_add(1));
                self.address(item.flow, first, end);
                self.put_out(executor, item.with(Content::Next))
            }
            (Content::Commit, RowAnswer::Logged { .. }) => {
                flow.logged = true;
                self.release(executor, item)
            }
            (
                Content::Reply,
                RowAnswer::Done {
                    session,
                    rolled_back,
                    ..
                },
            ) => {
                flow.rolled_back = rolled_back;
                Ok(flow.session == session)
            }
            (Content::Ended(_), RowAnswer::Sent) => {
                flow.left = flow.left.saturating_sub(1);
                Ok(true)
            }
            _ => Ok(false),
        }
    }

    // Puts the reply, and then the messages that give the claims of each action back.
    fn release(&mut self, executor: u32, item: Item) -> Result<bool, NoMemory> {
        let (Some(flow), Some(one)) = (
            self.flows.get_mut(item.flow),
            self.executors.get_mut(executor as usize),
        ) else {
            return Ok(false);
        };
        one.outbox.push_back(item.with(Content::Reply))?;
        flow.left = 0;
        for place in 0..flow.ran.len() {
            if flow.holds(place) {
                if let Some(w_id) = flow.warehouse(place) {
                    flow.address(place, self.slices.route(w_id));
                }
                one.outbox.push_back(item.with(Content::GiveBack(place)))?;
                flow.left = flow.left.saturating_add(1);
            }
        }
        Ok(true)
    }
}
