ghost use Rattle.std.specs.Prelude.{◌≡◌};
ghost use Rattle.requests.specs.declared.group.Group.TheVariants.{History};

use super::*;
use agreement::Change;
use groups::{Content, Mode};
use requests::Group;
use std::marker::Brand;
use std::sync::Wait;
use std::thread::{self, Threads};
use tickets::{GroupNames, GroupSeats};
use wait_die::Holder;

const DISTRICT: Group = Group::History { w_id: 1, d_id: 10 };

// Sets the list of payments to an empty one.
struct NoPayment;

impl Change<Content> for NoPayment {
    ghost use Rattle.std.specs.Prelude.{[], Some};
    ghost use Rattle.groups.specs.Content.Content.{OfHistory};

    ghost changed = { λ none before. OfHistory (Some []) };
}

const FIRST: Holder = Holder { age: 1, place: 0 };

const SECOND: Holder = Holder { age: 2, place: 0 };

// A shared claim goes to another thread and back, while another one is here.
fn shared_by_two_threads<J: GroupNames + Send + 'static>(
    rt: &(impl Threads + Wait),
    seats: GroupSeats,
) -> Result<Option<Mode>, Fail>
    requires known { J.warehouses ≡ 1 }
    requires committed { J.committed (History 1 10) ≡ seats.committed }
    requires work { J.work (History 1 10) ≡ seats.work }
{
    let (mut tickets, mut log) = seats.named::<J>(DISTRICT);
    let (Some(mut first), Some(second)) = (tickets.share(FIRST), tickets.share(SECOND)) else {
        return Ok(None);
    };
    let child = thread::spawn(rt, move || {
        second.look_untouched();
        second
    })?;
    log.look(&mut first);
    tickets.take_back(first);
    let second = child.join(rt);
    Ok(Some(second.mode()))
}

#[test]
fn a_claim_goes_to_another_thread_and_back(rt: HostRuntime) -> Result<(), Fail> {
    let seats = GroupSeats::open(rt.alloc(), &NoPayment)?;
    let recorded = shared_by_two_threads::<Brand>(&rt, seats)?;
    assert_eq!(rt; recorded, Some(Mode::Shared));
    Ok(())
}
