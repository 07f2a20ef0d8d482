//! Moves at an executor: it fetches shards and sends them, and messages follow the shards.
use crate::executing::AtWork;
use crate::message::Message;
use crate::{Gate, ServeNames};
use executor::CountedShard;
use range_moves::MoveOrder;
use std::sync::Wait;

impl<J: ServeNames, G: Gate, R: Wait> AtWork<'_, '_, J, G, R> {
    /// Begins a move: fetches the shards of its range. From now on messages for them are routed here.
    pub(crate) fn move_here(&mut self, order: MoveOrder) {
        let MoveOrder { lo, hi, .. } = order;
        for home in lo..=hi {
            self.own.note(home, None);
            if self.own.shards.has(home) {
                self.report_moved();
            } else {
                self.fetch(home);
            }
        }
    }

    // Asks the executor that has the shard of a warehouse to send it here.
    fn fetch(&mut self, home: u32) {
        let to = self.own.number;
        let from = self.engine.routing.route(home);
        self.engine.routing.redirect(home, to);
        self.send_to(from, Message::Fetch { home, to });
    }

    /// Sends the shard of a warehouse to this executor, with its waiting actions.
    pub(crate) fn send_shard(&mut self, home: u32, to: u32) {
        match self.own.shards.take(home) {
            Some(shard) => {
                self.own.note(home, Some(to));
                self.send_to(to, Message::Parcel(shard));
            }
            None => self.pass_on(home, Message::Fetch { home, to }),
        }
    }

    /// Installs the shard of a warehouse that has arrived.
    pub(crate) fn install(&mut self, shard: Box<CountedShard<J>>) {
        let home = shard.home();
        self.own.shards.put(shard);
        self.report_moved();
        if self.own.unpark(home).is_err() {
            self.engine.stop();
        }
        // (claims may have come back just before the shard was sent)
        self.take_turns(home);
    }

    // Counts a warehouse of the move in flight that has arrived. After the last one the next move begins; after the last move,
    // the executors end once all scripts are served.
    fn report_moved(&mut self) {
        if !self.engine.moves.count_arrival() {
            return;
        }
        match self.engine.moves.begin_next() {
            Some(order) => self.send_to(order.to, Message::Move(order)),
            None => self.engine.wake_all(),
        }
    }

    /// Passes a message for a shard that isn't here on to where the shard went. If that is not noted, the shard is on its way
    /// here, and the message is parked until it arrives.
    pub(crate) fn pass_on(&mut self, home: u32, message: Message<J>) {
        match self.own.noted(home) {
            Some(to) => self.send_to(to, message),
            None => self.park(home, message),
        }
    }

    // Parks a message. A message for a W_ID that no warehouse has stops the engine.
    fn park(&mut self, home: u32, message: Message<J>) {
        if !self.own.shards.is_warehouse(home) || self.own.park(home, message).is_err() {
            self.engine.stop();
        }
    }
}
