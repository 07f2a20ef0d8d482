ghost use Rattle.std.specs.Prelude.{◌≡◌, [], length};
ghost use Rattle.rendezvous.specs.Meetings.{convener_view};

use crate::meeting::Convener;
use crate::rule::Topic;
use crate::steps::Chair;
use std::marker::Model;

/// What all places of a round have reported. `Meeting::next_result` takes the results out.
///
/// In contracts: the meeting, the number of the round, and the results that are left, by place.
#[derive(Drop)]
pub struct Results<R: Drop, T: Topic<R>> {
    pub(crate) seat: Chair<R, T>,
    // The place whose result is the next to go, and how many are left.
    pub(crate) next: usize,
    pub(crate) left: usize,
}

impl<R: Drop, T: Topic<R>> Model for Results<R, T> {
    ghost use Rattle.rendezvous.specs.Hands.{held};
    ghost use Rattle.rendezvous.specs.Meetings.{ResultsView, coded_results, results_view, HasResults};

    ghost Value = { ResultsView R };

    ghost coded = { coded_results R.code };

    ghost view = { λ r. results_view r.seat.table_id r.seat.me.0.round (held r.seat.me.1) };

    ghost invariant = { λ r. HasResults r.next r.left r.seat };
}

/// The answer to a report.
#[derive(Drop)]
pub enum Reported<R: Drop, T: Topic<R>> {
    /// Another place has not reported yet.
    NotLast,
    /// All places have reported. The round is over.
    Last(Results<R, T>),
}

impl<R: Drop, T: Topic<R>> Results<R, T> {
    /// Returns the number of results that are left.
    pub fn len(&self) -> usize
        ensures { result ≡ length self.now.items }
    {
        self.left
    }

    /// Returns the right to convene the next round. All results were taken out.
    pub fn finish(self) -> Convener<R, T>
        requires { self.items ≡ [] }
        ensures { result ≡ convener_view self.meeting self.round }
    {
        let Results { seat, .. } = self;
        Convener { seat }
    }
}
