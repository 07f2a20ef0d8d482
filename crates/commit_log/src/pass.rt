ghost use Rattle.std.specs.Prelude.{◌≡◌};
ghost use Rattle.commit_log.specs.PassView.{having_met};

use crate::{Asking, LogNames, Mine};
use agreement::Seat;
use length_word::Mark;
use std::marker::{Model, PhantomData};

/// A session's knowledge of the log: how far it has reached, and what the session has logged. It travels with the
/// session's request to the log, and returns with the reply.
#[derive(Drop)]
pub struct Pass<J: LogNames> {
    /// The session, 0 to 63.
    pub(crate) session: u32,
    /// The number of entries of the log when the session, or one that it met, last got a reply from it.
    pub(crate) seen: u32,
    /// A number of entries that the log has reached: the number seen, or more if the log was full.
    pub(crate) mark: Mark,
    pub(crate) mine: Seat<Mine>,
    pub(crate) asks: Seat<Asking>,
    pub(crate) names: PhantomData<J>,
}

impl<J: LogNames> Model for Pass<J> {
    ghost use Rattle.commit_log.specs.PassView.{PassView, pass_view};
    ghost use Rattle.commit_log.specs.Kept.{IsPassOf, pass_tables};

    ghost Value = { PassView };

    ghost view = { λ p. pass_view p.session p.seen p.mark.entries p.mine.value.items p.asks.value };

    ghost invariant = { λ p. IsPassOf (pass_tables J.length (J.mine p.session) (J.asks p.session))
        p.session p.seen p.mark p.mine p.asks };
}

impl<J: LogNames> Pass<J> {
    /// Returns the session of the pass, 0 to 63.
    pub fn session(&self) -> u32
        ensures { result ≡ self.now.session }
    {
        self.session
    }

    /// Returns the number of entries that the pass has seen.
    pub fn seen(&self) -> u32
        ensures { result ≡ self.now.seen }
    {
        self.seen
    }

    /// Returns a number of entries that the log has reached, at least the number seen.
    pub fn reached(&self) -> u32
        ensures { result ≡ self.now.reached }
    {
        self.mark.entries()
    }
}

/// Two sessions meet: from then on both passes have seen the larger number of entries. Never blocks.
pub fn meet<J: LogNames>(one: &mut Pass<J>, other: &mut Pass<J>)
    ensures one { one.new ≡ having_met one.old other.old }
    ensures other { other.new ≡ having_met other.old one.old }
{
    let seen = one.seen.max(other.seen);
    length_word::meet(&mut one.mark, &mut other.mark);
    one.seen = seen;
    other.seen = seen;
}
