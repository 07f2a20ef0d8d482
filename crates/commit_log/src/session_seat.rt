ghost use Rattle.std.specs.Prelude.{◌≡◌};
ghost use Rattle.commit_log.specs.Asks.{asking};
ghost use Rattle.commit_log.specs.PassView.{with_asks, session_seat_view};

use crate::asking::Asks;
use crate::{Asking, LogNames, Pass};
use agreement::Seat;
use requests::Request;
use std::marker::{Model, PhantomData};

/// A session's record while its pass is away: its request, and the state of its pass when it made the request.
#[derive(Drop)]
pub struct SessionSeat<J: LogNames> {
    /// The session, 0 to 63.
    pub(crate) session: u32,
    pub(crate) asks: Seat<Asking>,
    pub(crate) names: PhantomData<J>,
}

impl<J: LogNames> Model for SessionSeat<J> {
    ghost use Rattle.commit_log.specs.PassView.{SessionSeatView, session_seat_view};
    ghost use Rattle.commit_log.specs.Kept.{IsSeatOf};

    ghost Value = { SessionSeatView };

    ghost view = { λ s. session_seat_view s.session s.asks.value };

    ghost invariant = { λ s. IsSeatOf (J.asks s.session) s.session s.asks };
}

impl<J: LogNames> SessionSeat<J> {
    /// Returns the session of the seat, 0 to 63.
    pub fn session(&self) -> u32
        ensures { result ≡ self.now.session }
    {
        self.session
    }

    /// Makes a request of this number with the session's pass. The pass and the seat record the request, and what the
    /// pass has seen and logged so far.
    pub fn ask(&mut self, pass: &mut Pass<J>, number: u32, request: &Request)
        requires { pass.old.session ≡ self.old.session }
        ensures seat { self.new ≡ session_seat_view self.old.session
            (asking number request.now pass.old.seen pass.old.mine) }
        ensures pass { pass.new
            ≡ with_asks pass.old (asking number request.now pass.old.seen pass.old.mine) }
    {
        let asks = Asks {
            number,
            request,
            seen: pass.seen,
            mine: &pass.mine,
        };
        self.asks.change_together(&mut pass.asks, &asks);
    }

    /// Establishes for contracts that a pass of the session and the seat record the same request. Both are unchanged.
    pub fn look(&mut self, pass: &mut Pass<J>)
        requires { pass.old.session ≡ self.old.session }
        ensures equal { pass.old.asks ≡ self.old.asking }
        ensures same { (self.new ≡ self.old) × (pass.new ≡ pass.old) }
    {
        self.asks.look(&mut pass.asks);
    }
}
