//! What is drawn of a course.
use crate::asides::Aside;
use crate::course::Course;
use crate::in_flight::{Content, Item, Ran};
use crate::phrase::Phrase;
use range_moves::MoveOrder;
use schema::NoMemory;

impl<'a> Course<'a> {
    /// Draws an arrow from where the item was put.
    pub fn draw_hop(
        &mut self,
        executor: u32,
        sent: bool,
        item: Item,
        to_x: u128,
        at: usize,
    ) -> Result<(), NoMemory> {
        let Some(more) = between(item.at, at) else {
            return Ok(());
        };
        let from = item.at;
        let from_x = item.line;
        let side = self.lanes.side(executor);
        self.asides.push(if from_x == to_x {
            Aside::Bend {
                x: to_x,
                side,
                from,
                more,
            }
        } else {
            Aside::Hop {
                sent,
                from_x,
                to_x,
                from,
                more,
            }
        })?;
        Ok(())
    }

    /// Draws the bar of an action's claims up to a row, and frees their slot.
    pub fn draw_claim(&mut self, flow: usize, place: usize, to: usize) -> Result<(), NoMemory> {
        let Some(flow) = self.flows.get_mut(flow) else {
            return Ok(());
        };
        let (Some(action), Some(held)) = (flow.actions.get(place), flow.ran.get_mut(place)) else {
            return Ok(());
        };
        let Some(Ran { at, executor, slot }) = held.take() else {
            return Ok(());
        };
        if let Some(one) = self.executors.get_mut(executor as usize) {
            one.free_slot(slot);
        }
        let Some(more) = between(at, to) else {
            return Ok(());
        };
        let shared = action.is_shared();
        let groups = action.groups();
        let (left, x, right) = self.lanes.slot(executor, slot);
        self.asides.push(Aside::Claim {
            shared,
            left,
            right,
            from: at,
            more,
        })?;
        self.asides.push(Aside::Groups { x, at, groups })?;
        Ok(())
    }

    /// Draws the claims that are still held, of logged transactions. Whether others hold claims is unknown.
    pub fn draw_held(&mut self, to: usize) -> Result<(), NoMemory> {
        for flow in 0..self.flows.len() {
            let places = match self.flows.get(flow) {
                Some(one) if one.logged => one.ran.len(),
                _ => 0,
            };
            for place in 0..places {
                self.draw_claim(flow, place, to)?;
            }
        }
        Ok(())
    }

    /// Writes the name of what is taken or sent in a row.
    pub fn draw_item(&mut self, at: usize, item: Item) -> Result<(), NoMemory> {
        let phrase = match item.content {
            Content::Order(MoveOrder { lo, hi, .. }) => Phrase::Move { lo, hi },
            Content::Fetch { w_id, .. } => Phrase::Fetch { w_id },
            Content::Parcel { w_id, .. } => Phrase::Parcel { w_id },
            Content::Arrival { w_id } => Phrase::Arrival { w_id },
            content => match self.flows.get(item.flow) {
                Some(flow) => flow.name(content),
                None => Phrase::Unknown,
            },
        };
        self.draw_name(at, phrase)
    }

    /// Writes that the message taken in a row is parked.
    pub fn draw_parked(&mut self, at: usize, executor: u32) -> Result<(), NoMemory> {
        let x = self.lanes.takes(executor) + 10;
        let phrase = Phrase::Parked;
        self.asides.push(Aside::Named { x, at, phrase })?;
        Ok(())
    }

    /// Writes a note on what is taken or sent in a row.
    pub fn draw_name(&mut self, at: usize, phrase: Phrase) -> Result<(), NoMemory> {
        let x = self.lanes.named();
        self.asides.push(Aside::Named { x, at, phrase })?;
        Ok(())
    }
}

// The number of rows between two rows. `None` if the second is not further down.
fn between(from: usize, to: usize) -> Option<usize> {
    to.checked_sub(from)?.checked_sub(1)
}
