ghost use Rattle.std.specs.Prelude.{◌≡◌, [], ◌∷◌, ◌++◌};
ghost use Rattle.commit_log.specs.Items.{item, mine_of};
ghost use Rattle.commit_log.specs.Kept.{seat_at};

use agreement::{Change, Seat, Value};
use requests::{Reply, Request};
use std::collections::LinkedList;

/// An entry of the log, for the contracts of its session. No value of it is made.
pub struct Item {
    /// The place of the entry in the log, from 0.
    pub place: u32,
    /// The number of the request, which the ten Deliveries of a record share.
    pub number: u32,
    pub request: Request,
    pub reply: Reply,
}

/// The items that a session has logged, in log order: the value on which its pass and the log agree. Ghost data only;
/// no value of it is made.
pub struct Mine {
    pub items: LinkedList<Item>,
}

impl Value for Mine {
    ghost use Rattle.std.specs.Prelude.{[]};

    ghost initial = { record { items = [] } };
}

/// The change that a request of the session is logged with its reply.
#[derive(Drop)]
pub(crate) struct Logs<'a> {
    pub(crate) place: u32,
    pub(crate) number: u32,
    pub(crate) request: &'a Request,
    pub(crate) reply: &'a Reply,
}

impl Change<Mine> for Logs<'_> {
    ghost use Rattle.std.specs.Prelude.{[], ◌∷◌, ◌++◌};
    ghost use Rattle.commit_log.specs.Items.{item};

    ghost changed = { λ logs mine. record { items = mine.items ++ item logs.place logs.number logs.request.now logs.reply.now ∷ [] } };
}

/// Adds one item to what the log's seat of a session and the session's pass record.
pub(crate) fn note(log: &mut Seat<Mine>, pass: &mut Seat<Mine>, logs: &Logs<'_>)
    requires log { log.old ≡ seat_at log.old.agreement.table log.old.value }
    requires pass { pass.old ≡ seat_at log.old.agreement.table pass.old.value }
    ensures equal { pass.old ≡ log.old }
    ensures log { log.new ≡ seat_at log.old.agreement.table (mine_of (log.old.value.items
        ++ item logs.now.place logs.now.number logs.now.request.now logs.now.reply.now ∷ [])) }
    ensures pass { pass.new ≡ log.new }
{
    log.change_together(pass, logs);
}
