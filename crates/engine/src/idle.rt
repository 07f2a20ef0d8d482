ghost use Rattle.std.specs.Prelude.{◌≡◌, ◌+◌};
ghost use Rattle.std.specs.Vec.Iter.{into_iter_items, into_iter_len};
ghost use Rattle.rows.specs.declared.limits.TheConstants.{SESSIONS};
ghost use Rattle.engine.specs.Sessions.{AreNewFrom};

use crate::ServeNames;
use commit_log::{Pass, SessionSeat};
use std::vec::IntoIter;

/// The sessions from number `first` on, which are not used. Invariant: they have seen, logged and asked nothing.
#[derive(Drop)]
pub struct Idle<J: ServeNames> {
    pub(crate) first: usize,
    pub(crate) lanes: IntoIter<(Pass<J>, SessionSeat<J>)>,
    ghost left: { into_iter_len lanes + first ≡ SESSIONS },
    ghost new: { AreNewFrom first (into_iter_items lanes) },
}
