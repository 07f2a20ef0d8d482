//! The home of a message: the warehouse by which it finds its executor.
ghost use Rattle.std.specs.Prelude.{◌≡◌};
ghost use Rattle.world.specs.Envelopes as spec;
ghost use Rattle.world.specs.Envelopes.{HasHome};

use crate::flight::Message;
use commit_log::Names;
use transactions::home_of_request;

// The warehouse by which a message finds its executor: the one whose slice processes it. The start of a transaction goes to its
// request's warehouse.
pub(crate) fn home_of_message<J: Names>(message: &Message<J>) -> u32
    requires { HasHome message.now }
    ensures { result ≡ spec.home_of_message message.now }
{
    match message {
        Message::Start(flow, _) => home_of_request(&flow.transaction.request),
        Message::Act(act) => act.work.home(),
        Message::Settle(_, claims) => claims.home(),
        Message::Undo(_, claims) => claims.home(),
    }
}

// Whether a message is processed in the slice of its warehouse. All are, but the start of a transaction.
pub(crate) fn is_for_slice<J: Names>(message: &Message<J>) -> bool
    ensures { result ≡ spec.is_for_slice message.now }
{
    !matches!(message, Message::Start(..))
}
